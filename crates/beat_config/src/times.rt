#![tactic(auto, unfolding(crate::specs::Finding::note_all))]

ghost use Rattle.std.specs.Prelude.{◌≡◌, ◌+◌, ◌<◌, ◌^◌, IfOk, OnOk};
ghost use Rattle.toml.specs.View.{table_view};
ghost use Rattle.beat_config.specs.Finding.{seen_of, note_all};
ghost use Rattle.beat_config.specs.Times.{times_in, is_too_soon, clean_findings, times_findings};

use crate::SettingsError;
use crate::noted::Noted;
use crate::path::key_path;
use crate::single::Limits;
use toml::Table;
use wire_base::NoMemory;

/// The times of an input, in milliseconds.
#[derive(Clone, Copy, Debug)]
pub(crate) struct Times {
    pub check_interval: u64,
    pub close_inactive: u64,
    pub ignore_older: u64,
    pub clean_inactive: u64,
}

const PAUSE: Limits = Limits {
    low: 1,
    high: 86_400_000,
};

const AGE: Limits = Limits {
    low: 0,
    high: 31_536_000_000,
};

impl Noted {
    /// The times of the input at a path.
    pub fn times(&mut self, path: &str, table: &Table) -> Result<Times, NoMemory>
        ensures value { IfOk result (λ times. times ≡ times_in (table_view table.now)) }
        ensures findings { OnOk result (seen_of self.new ≡ note_all (seen_of self.old) (times_findings path.now (table_view table.now))) }
    {
        let check_interval = self.duration(path, table, "check_interval", PAUSE, 10_000)?;
        let close_inactive = self.duration(path, table, "close_inactive", PAUSE, 300_000)?;
        let ignore_older = self.duration(path, table, "ignore_older", AGE, 0)?;
        let clean_inactive = self.duration(path, table, "clean_inactive", AGE, 0)?;
        let times = Times {
            check_interval,
            close_inactive,
            ignore_older,
            clean_inactive,
        };
        self.check_clean(path, times)?;
        Ok(times)
    }

    /// Notes that rows would be cleaned too soon.
    #[tactic(auto, unfolding(crate::specs::Finding::note_all, crate::specs::Times::clean_findings))]
    fn check_clean(&mut self, path: &str, times: Times) -> Result<(), NoMemory>
        requires { times.ignore_older + times.check_interval < 2 ^ 64 }
        ensures { OnOk result (seen_of self.new ≡ note_all (seen_of self.old) (clean_findings path.now times)) }
    {
        if is_too_soon(times) {
            let key = key_path(self.alloc, "", path)?;
            self.fault(SettingsError::CleanTooSoon { key });
        }
        Ok(())
    }
}

fn is_too_soon(times: Times) -> bool
    requires { times.ignore_older + times.check_interval < 2 ^ 64 }
    ensures { result ≡ is_too_soon times }
{
    let least = times.ignore_older + times.check_interval;
    times.clean_inactive != 0 && times.clean_inactive <= least
}
