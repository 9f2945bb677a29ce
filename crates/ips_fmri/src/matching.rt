//! Wildcards: `*` stands for any text, and in patterns of stems `?` for any one character.

ghost use Rattle.std.specs.Prelude.{◌≡◌, ◌<◌, ◌↔◌, ◌++◌, ◌∷◌, ℕ, List, [], IfNone, IfSome, IsTrue};
ghost use Rattle.std.specs.Str.{chars};
ghost use Rattle.ips_fmri.specs.Pattern.{MatchesCharacter, MatchesBy, MatchesStars, MatchesStem, MatchesBehindSlash};
ghost use Rattle.ips_fmri.specs.Matching.{HasNone, AllMeet, MeetsFront, MeetsEnd, MeetsSome, MeetsFirst};

/// Whether a pattern matches the stem, or, where it isn't anchored, what follows one of its `/`.
pub fn matches_stem(anchored: bool, pattern: &str, stem: &str) -> bool
    ensures { IsTrue result ↔ MatchesStem anchored (chars pattern.now) (chars stem.now) }
{
    matches_text(true, pattern, stem) || (!anchored && matches_behind_slash(pattern, stem))
}

/// Whether all of a text matches a pattern in which `*` stands for any text and every other character for itself, as those
/// of facets do (pkg(7)).
pub fn matches_stars(pattern: &str, text: &str) -> bool
    ensures { IsTrue result ↔ MatchesStars (chars pattern.now) (chars text.now) }
{
    matches_text(false, pattern, text)
}

// Whether the pattern matches what follows one of the stem's `/`.
fn matches_behind_slash(pattern: &str, stem: &str) -> bool
    ensures { IsTrue result ↔ MatchesBehindSlash (chars pattern.now) (chars stem.now) }
{
    let mut rest = stem;
    while let Some((_, behind)) = split_first('/', rest) {
        if matches_text(true, pattern, behind) {
            return true;
        }
        rest = behind;
    }
    false
}

// Whether the pattern matches all of the text; `marks` tells that `?` is a wildcard too. What stands between two `*` is met at the first place at which it can be: a
// later one leaves less for the rest of the pattern. So no place is tried twice with one part of the pattern.
fn matches_text(marks: bool, pattern: &str, text: &str) -> bool
    ensures { IsTrue result ↔ MatchesBy marks (chars pattern.now) (chars text.now) }
{
    let Some((front, behind)) = split_first('*', pattern) else {
        return meets_all(marks, pattern, text);
    };
    match behind_front(marks, front, text) {
        Some(left) => matches_behind_star(marks, behind, left),
        None => false,
    }
}

// Whether a pattern that begins with `*` matches all of the text; `behind` is what stands behind that `*`.
fn matches_behind_star(marks: bool, behind: &str, text: &str) -> bool
    ensures { IsTrue result ↔ MatchesBy marks (42 ∷ chars behind.now) (chars text.now) }
{
    let mut pattern = behind;
    let mut left = text;
    while let Some((middle, more)) = split_first('*', pattern) {
        let Some(rest) = behind_first(marks, middle, left) else {
            return false;
        };
        pattern = more;
        left = rest;
    }
    meets_end(marks, pattern, left)
}

// What stands before the first mark, an ASCII character, and behind it.
fn split_first(mark: char, text: &str) -> Option<(&str, &str)>
    requires { mark < 128 }
    ensures none { IfNone result (HasNone mark (chars text.now)) }
    ensures some { IfSome result (λ x. HasNone mark (chars x.0.now) × (chars text.now ≡ chars x.0.now ++ mark ∷ chars x.1.now)) }
{
    text.split_once(mark)
}

// The first character, and what stands behind it.
fn split_char(text: &str) -> Option<(char, &str)>
    ensures none { IfNone result (chars text.now ≡ []) }
    ensures some { IfSome result (λ x. chars text.now ≡ x.0 ∷ chars x.1.now) }
{
    let mut characters = text.chars();
    let first = characters.next()?;
    Some((first, characters.as_str()))
}

// Whether a character of a pattern without `*` meets this one.
fn meets(marks: bool, wanted: char, found: char) -> bool
    ensures { IsTrue result ↔ MatchesCharacter marks wanted found }
{
    (marks && wanted == '?') || wanted == found
}

// What stands behind a beginning of the text that meets a pattern without `*`.
fn behind_front<'a>(marks: bool, pattern: &str, text: &'a str) -> Option<&'a str>
    ensures none { IfNone result ((rest : List ℕ) → MeetsFront marks (chars pattern.now) (chars text.now) rest → ⊥) }
    ensures some { IfSome result (λ rest. MeetsFront marks (chars pattern.now) (chars text.now) (chars rest.now)) }
{
    let mut wanted = pattern;
    let mut left = text;
    while let Some((next, more)) = split_char(wanted) {
        match split_char(left) {
            Some((found, rest)) if meets(marks, next, found) => {
                wanted = more;
                left = rest;
            }
            _ => return None,
        }
    }
    Some(left)
}

// Whether all of the text meets a pattern without `*`.
fn meets_all(marks: bool, pattern: &str, text: &str) -> bool
    ensures { IsTrue result ↔ AllMeet marks (chars pattern.now) (chars text.now) }
{
    match behind_front(marks, pattern, text) {
        Some(rest) => rest.is_empty(),
        None => false,
    }
}

// What stands behind the first place of the text that meets a pattern without `*`.
fn behind_first<'a>(marks: bool, pattern: &str, text: &'a str) -> Option<&'a str>
    ensures none { IfNone result ((rest : List ℕ) → MeetsSome marks (chars pattern.now) (chars text.now) rest → ⊥) }
    ensures some { IfSome result (λ rest. MeetsFirst marks (chars pattern.now) (chars text.now) (chars rest.now)) }
{
    let mut left = text;
    loop {
        if let Some(rest) = behind_front(marks, pattern, left) {
            return Some(rest);
        }
        let Some((_, more)) = split_char(left) else {
            return None;
        };
        left = more;
    }
}

// Whether an end of the text meets a pattern without `*`.
fn meets_end(marks: bool, pattern: &str, text: &str) -> bool
    ensures { IsTrue result ↔ MeetsEnd marks (chars pattern.now) (chars text.now) }
{
    let mut left = text;
    loop {
        if meets_all(marks, pattern, left) {
            return true;
        }
        let Some((_, more)) = split_char(left) else {
            return false;
        };
        left = more;
    }
}
