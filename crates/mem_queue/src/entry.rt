use wire_base::Parcel;

/// A parcel with its number in the row of all that entered, from 0. No code makes one: passes know
/// entries only in contracts.
#[derive(Debug, Drop, PartialEq, Eq)]
pub struct Entry {
    pub number: u64,
    pub parcel: Parcel,
}
