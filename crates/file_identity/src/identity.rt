use wire_base::Text;

/// What asking an open file for its key gave.
#[derive(Debug, Drop, PartialEq, Eq)]
pub enum Identity {
    Key(Text),
    /// Not all bytes of the fingerprint are there: a read at this place, in bytes, gave none.
    TooSmall(u64),
}
