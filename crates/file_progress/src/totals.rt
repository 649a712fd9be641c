ghost use Rattle.std.specs.Prelude.{◌≡◌};
ghost use Rattle.file_progress.specs.Totals.{behind_in, behind_of, count_in, is_state, number_of};

use crate::{Progress, State};

/// The unread bytes of all files, or 2^64 - 1.
pub(crate) fn behind_in(files: &[Progress]) -> u64
    ensures { result ≡ behind_in files.now }
{
    let mut total = 0u64;
    for one in files {
        total = total.saturating_add(behind_of(one));
    }
    total
}

pub(crate) fn behind_of(one: &Progress) -> u64
    ensures { result ≡ behind_of one.now }
{
    one.behind.unwrap_or(0)
}

/// How many files are in the state.
pub(crate) fn count_in(files: &[Progress], state: State) -> u64
    ensures { result ≡ count_in state files.now }
{
    let mut count = 0u64;
    for one in files {
        if is_state(one, state) {
            count += 1;
        }
    }
    count
}

fn is_state(one: &Progress, state: State) -> bool
    ensures { result ≡ is_state state one.now }
{
    number_of(one.state) == number_of(state)
}

fn number_of(state: State) -> u8
    ensures { result ≡ number_of state }
{
    match state {
        State::Present => 0,
        State::Shorter => 1,
        State::Gone => 2,
        State::New => 3,
        State::Doubled => 4,
        State::Small => 5,
    }
}
