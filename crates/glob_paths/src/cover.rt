ghost use Rattle.std.specs.Prelude.{◌↔◌, ◌∷◌, IsTrue, map, option_copied};
ghost use Rattle.glob_paths.specs.Cover.{PartsCover, part_of, parts_left, deep};

use crate::part::part_matches;
use crate::parts::first_part;

/// The most parts that a `**` stands for.
pub const MAX_DEEP: u32 = 8;

/// Whether the parts of a glob that are left cover the parts of a path that are left.
#[cycle(covering)]
pub fn parts_cover(pattern: Option<&str>, path: Option<&str>) -> bool
    ensures { IsTrue result
        ↔ PartsCover (map part_of (parts_left (option_copied pattern.entry))) (parts_left (option_copied path.entry)) }
{
    let mut pattern = pattern;
    let mut path = path;
    while let Some(text) = pattern {
        let (part, more) = first_part(text);
        if part == "**" {
            return deep_covers(more, path);
        }
        let Some(rest) = path else {
            return false;
        };
        let (name, left) = first_part(rest);
        if !part_matches(part, name) {
            return false;
        }
        pattern = more;
        path = left;
    }
    path.is_none()
}

/// Whether a `**` and then the parts of a glob that are left cover the parts of a path that are left.
#[cycle(covering)]
fn deep_covers(pattern: Option<&str>, path: Option<&str>) -> bool
    ensures { IsTrue result
        ↔ PartsCover (deep ∷ map part_of (parts_left (option_copied pattern.entry))) (parts_left (option_copied path.entry)) }
{
    let mut path = path;
    for _count in 0..MAX_DEEP {
        if parts_cover(pattern, path) {
            return true;
        }
        let Some(rest) = path else {
            return false;
        };
        let (passed, left) = first_part(rest);
        if passed.is_empty() {
            return false;
        }
        path = left;
    }
    parts_cover(pattern, path)
}
