ghost use Rattle.std.specs.Prelude.{◌≡◌, ◌≢◌, ◌≤◌, ◌↔◌, [], All, IsTrue, length};
ghost use Rattle.wire_base.specs.Path.{IsBelow, folder_parts, parts_of};

/// Whether a path is at least one and at most `depth` parts below a root.
pub(crate) fn is_below(root: &[u8], depth: u32, path: &[u8]) -> bool
    ensures { IsTrue result ↔ IsBelow root.now depth path.now }
{
    let Some(rest) = path.strip_prefix(front_of(root)) else {
        return false;
    };
    let Some(names) = rest.strip_prefix(b"/") else {
        return false;
    };
    are_names(names, depth)
}

/// What comes before the slash of each path below this root.
fn front_of(root: &[u8]) -> &[u8]
    ensures { parts_of result.now ≡ folder_parts root.now }
{
    match root {
        [b'/'] => &[],
        _ => root,
    }
}

/// Whether these are at most `depth` parts, none of them empty.
fn are_names(names: &[u8], depth: u32) -> bool
    ensures { IsTrue result
        ↔ ((length (parts_of names.now) ≤ depth)
        × All (λ part. part ≢ []) (parts_of names.now)) }
{
    let mut left = depth;
    let mut is_empty = true;
    for byte in names {
        if *byte == b'/' {
            if is_empty || left <= 1 {
                return false;
            }
            left -= 1;
            is_empty = true;
        } else {
            is_empty = false;
        }
    }
    !is_empty && left > 0
}
