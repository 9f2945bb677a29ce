//! What is in the way of directories.

ghost use Rattle.std.specs.Prelude.{◌≡◌, ◌<◌, List, ℕ, Some, IsTrue, IsErr, IfOk, IfNone, IfSome, length, slice_get, not};
ghost use Rattle.ips_outside.specs.Children.{path_bytes};
ghost use Rattle.ips_outside.specs.Outside.{Reads};
ghost use Rattle.ips_ways.specs.Ways as way;
ghost use Rattle.ips_ways.specs.Ways.{IsFirstInTheWay, IsFree};
ghost use Rattle.ips_ways.specs.First.{is_before, next_first};

use crate::room::is_dir_or_free;
use ips_outside::{Failed, Source};
use ips_text::RelPath;

/// The place in the list of the first of the paths, by bytes, at which something stands that is no directory and doesn't give way to
/// one.
pub fn first_in_the_way<S: Source>(
    source: &mut S,
    paths: &[RelPath],
) -> Result<Option<usize>, Failed>
    ensures some { IsTrue (S.outside.tells source.old) → IfOk result (λ found. IfSome found (λ at. (path : List ℕ) × (slice_get (path_bytes paths.now) at ≡ Some path)
        × IsFirstInTheWay (S.outside.state source.old).held (path_bytes paths.now) path)) }
    ensures within { IfOk result (λ found. IfSome found (λ at. at < length paths.now)) }
    ensures none { IsTrue (S.outside.tells source.old) → IfOk result (λ found. IfNone found (IsFree (S.outside.state source.old).held (path_bytes paths.now))) }
    ensures reads { Reads S.outside source.old source.new (IsErr result) }
{
    let mut first: Option<usize> = None;
    for place in 0..paths.len() {
        let Ok(blocked) = is_in_the_way(source, &paths[place]) else {
            return Err(Failed);
        };
        first = first_with(paths, place, blocked, first);
    }
    Ok(first)
}

// What is found once the path at the place was looked at.
fn first_with(paths: &[RelPath], place: usize, blocked: bool, first: Option<usize>) -> Option<usize>
    requires within { place < length paths.now }
    requires found { IfSome first (λ at. at < length paths.now) }
    ensures { result ≡ next_first (path_bytes paths.now) place blocked first }
{
    if blocked && goes_before(paths, place, first) {
        Some(place)
    } else {
        first
    }
}

// Whether the path is less than the one found so far, or none is found.
fn goes_before(paths: &[RelPath], place: usize, first: Option<usize>) -> bool
    requires within { place < length paths.now }
    requires found { IfSome first (λ at. at < length paths.now) }
    ensures { result ≡ is_before (path_bytes paths.now) place first }
{
    match first {
        None => true,
        Some(at) => paths[place] < paths[at],
    }
}

// Whether something stands at the path that is no directory and doesn't give way to one.
fn is_in_the_way<S: Source>(source: &mut S, path: &RelPath) -> Result<bool, Failed>
    ensures found { IsTrue (S.outside.tells source.old) → IfOk result (λ blocked. blocked ≡ not (way.is_dir_or_free path.now.bytes ((S.outside.state source.old).held.look path.now.bytes))) }
    ensures reads { Reads S.outside source.old source.new (IsErr result) }
{
    let found = source.look(path)?;
    Ok(!is_dir_or_free(path, found))
}
