use crate::At;

/// What a change of a file, or the closing of its tail, asks for.
#[derive(Clone, Copy, Debug, PartialEq, Eq)]
pub enum Deed {
    Nothing,
    /// Note Rename with this scan's number, and rename an open harvester.
    Rename { scan: u64 },
    /// Stir the open harvester.
    Stir,
    /// Call `ending` of the open harvester, and stir it.
    End,
    /// Note Begin with the row's place, and, if the file is to be forgotten, Forget with that place.
    BeginRemoved { forget: bool },
    /// Note Forget with this place.
    Forget(At),
    /// The file has no row: release it at once.
    Drop,
}
