//! How paths stand to one another.

ghost use Rattle.std.specs.Prelude.{◌≡◌, Some, None, IfNone, IfSome};
ghost use Rattle.ips_text.specs.Ancestry as ancestry;

/// Whether the path is `above` itself, or stands below it. Paths are compared by whole parts, so `usr` covers `usr/bin`
/// and doesn't cover `usr2`.
pub fn covers(above: &[u8], path: &[u8]) -> bool
    ensures { result ≡ ancestry.covers above.now path.now }
{
    let mut up = above;
    let mut down = path;
    while let [a, up_rest @ ..] = up {
        match down {
            [b, down_rest @ ..] if *a == *b => {
                up = up_rest;
                down = down_rest;
            }
            _ => return false,
        }
    }
    match down {
        [] => true,
        [b, ..] => *b == b'/',
    }
}

/// The path of the directory that holds this path: all before its last `/`. A path of one part has none.
pub fn parent(path: &[u8]) -> Option<&[u8]>
    ensures none { IfNone result (ancestry.parent path.now ≡ None) }
    ensures some { IfSome result (λ dir. ancestry.parent path.now ≡ Some dir.now) }
{
    let mut front = path;
    while let [rest @ .., last] = front {
        if *last == b'/' {
            return Some(rest);
        }
        front = rest;
    }
    None
}
