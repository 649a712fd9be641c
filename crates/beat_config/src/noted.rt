ghost use Rattle.std.specs.Prelude.{◌≡◌, [], ◌∷◌, None};
ghost use Rattle.beat_config.specs.Finding.{seen_of, note_all, earlier_of, comes_before, rank, key_of};

use crate::SettingsError;
use std::alloc::Global;

/// What reading found so far: the first fault.
#[derive(Drop)]
pub(crate) struct Noted {
    pub alloc: Global,
    pub first: Option<SettingsError>,
}

impl Noted {
    #[tactic(auto, unfolding(crate::specs::Finding::seen_of))]
    pub fn new(alloc: Global) -> Noted
        ensures { seen_of result ≡ None }
    {
        Noted { alloc, first: None }
    }

    #[tactic(auto, unfolding(crate::specs::Finding::seen_of, crate::specs::Finding::note, crate::specs::Finding::note_all))]
    pub fn fault(&mut self, fault: SettingsError)
        ensures { seen_of self.new ≡ note_all (seen_of self.old) (fault ∷ []) }
    {
        self.first = Some(first_of(self.first.take(), fault));
    }
}

fn first_of(first: Option<SettingsError>, fault: SettingsError) -> SettingsError
    ensures { result ≡ earlier_of first fault }
{
    match first {
        Some(first) if !comes_before(&fault, &first) => first,
        _ => fault,
    }
}

fn comes_before(fault: &SettingsError, other: &SettingsError) -> bool
    ensures { result ≡ comes_before fault.now other.now }
{
    let (rank, key) = place_of(fault);
    let (other_rank, other_key) = place_of(other);
    rank.cmp(&other_rank).then(key.cmp(other_key)).is_lt()
}

/// The place of the kind, and the key.
fn place_of(fault: &SettingsError) -> (u8, &[u8])
    ensures rank { result.0 ≡ rank fault.now }
    ensures key { result.1.now ≡ key_of fault.now }
{
    match fault {
        SettingsError::TooLong => (0, b""),
        SettingsError::NotToml => (1, b""),
        SettingsError::Unknown { key } => (2, key.bytes()),
        SettingsError::Missing { key } => (3, key.bytes()),
        SettingsError::WrongKind { key } => (4, key.bytes()),
        SettingsError::BadText { key } => (5, key.bytes()),
        SettingsError::OutOfRange { key, .. } => (6, key.bytes()),
        SettingsError::BadGlob { key, .. } => (7, key.bytes()),
        SettingsError::BadPattern { key } => (8, key.bytes()),
        SettingsError::CleanTooSoon { key } => (9, key.bytes()),
        SettingsError::NoMemory => (10, b""),
    }
}
