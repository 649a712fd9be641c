#![tactic(auto, unfolding(crate::specs::Finding::note_all))]

ghost use Rattle.std.specs.Prelude.{◌≡◌, codes, IfOk, OnOk};
ghost use Rattle.toml.specs.Data.{get_member, no_members};
ghost use Rattle.toml.specs.View.{table_view};
ghost use Rattle.beat_config.specs.Finding.{seen_of, note_all};
ghost use Rattle.beat_config.specs.Path.{key_path};
ghost use Rattle.beat_config.specs.Output.{output_of, output_in, output_findings, output_value_findings, events_of, queue_findings, lanes_of, harvest_findings};

use crate::noted::Noted;
use crate::path::key_path;
use crate::single::Limits;
use event_tree::{ListOf, OutputRule};
use toml::Table;
use wire_base::NoMemory;

const OUTPUT: [&str; 6] = [
    "hosts",
    "workers",
    "bulk_max_size",
    "pipelining",
    "timeout",
    "attempts",
];

const HOSTS: Limits = Limits { low: 1, high: 16 };

const WORKERS: Limits = Limits { low: 1, high: 16 };

const BULK_MAX_SIZE: Limits = Limits {
    low: 1,
    high: 65_536,
};

const PIPELINING: Limits = Limits { low: 1, high: 8 };

const TIMEOUT: Limits = Limits {
    low: 1,
    high: 3_600_000,
};

const ATTEMPTS: Limits = Limits {
    low: 1,
    high: 1_000,
};

const EVENTS: Limits = Limits {
    low: 32,
    high: 65_536,
};

const LANES: Limits = Limits { low: 1, high: 8 };

impl Noted {
    /// Where events go: the table `output`.
    pub fn output(
        &mut self,
        path: &str,
        document: &Table,
        empty: &Table,
    ) -> Result<OutputRule, NoMemory>
        requires { table_view empty.now ≡ no_members }
        ensures value { IfOk result (λ rule. rule ≡ output_of (get_member (codes "output") (table_view document.now))) }
        ensures findings { OnOk result (seen_of self.new ≡ note_all (seen_of self.old)
            (output_findings (key_path path.now (codes "output")) (get_member (codes "output") (table_view document.now)))) }
    {
        let table = self.table_at(path, document, "output", &OUTPUT, &["hosts"], empty)?;
        let path = key_path(self.alloc, path, "output")?;
        self.output_values(path.as_str(), table)
    }

    fn output_values(&mut self, path: &str, table: &Table) -> Result<OutputRule, NoMemory>
        ensures value { IfOk result (λ rule. rule ≡ output_in (table_view table.now)) }
        ensures findings { OnOk result (seen_of self.new ≡ note_all (seen_of self.old) (output_value_findings path.now (table_view table.now))) }
    {
        let hosts = self.hosts(path, table, "hosts", HOSTS)?;
        let workers = self.whole(path, table, "workers", WORKERS, 1)?;
        let bulk_max_size = self.whole(path, table, "bulk_max_size", BULK_MAX_SIZE, 2_048)?;
        let pipelining = self.whole(path, table, "pipelining", PIPELINING, 2)?;
        let timeout = self.duration(path, table, "timeout", TIMEOUT, 30_000)?;
        let attempts = self.whole(path, table, "attempts", ATTEMPTS, 3)?;
        Ok(OutputRule {
            hosts: ListOf::from_vec(hosts),
            workers: workers as u32,
            bulk_max_size: bulk_max_size as u32,
            pipelining: pipelining as u32,
            timeout,
            attempts: attempts as u32,
        })
    }

    /// How many events the queue holds.
    pub fn events(&mut self, path: &str, document: &Table, empty: &Table) -> Result<u32, NoMemory>
        requires { table_view empty.now ≡ no_members }
        ensures value { IfOk result (λ events. events ≡ events_of (get_member (codes "queue") (table_view document.now))) }
        ensures findings { OnOk result (seen_of self.new ≡ note_all (seen_of self.old)
            (queue_findings (key_path path.now (codes "queue")) (get_member (codes "queue") (table_view document.now)))) }
    {
        let table = self.table_at(path, document, "queue", &["events"], &[], empty)?;
        let path = key_path(self.alloc, path, "queue")?;
        Ok(self.whole(path.as_str(), table, "events", EVENTS, 3_200)? as u32)
    }

    /// How many lanes read files.
    pub fn lanes(&mut self, path: &str, document: &Table, empty: &Table) -> Result<u32, NoMemory>
        requires { table_view empty.now ≡ no_members }
        ensures value { IfOk result (λ lanes. lanes ≡ lanes_of (get_member (codes "harvest") (table_view document.now))) }
        ensures findings { OnOk result (seen_of self.new ≡ note_all (seen_of self.old)
            (harvest_findings (key_path path.now (codes "harvest")) (get_member (codes "harvest") (table_view document.now)))) }
    {
        let table = self.table_at(path, document, "harvest", &["lanes"], &[], empty)?;
        let path = key_path(self.alloc, path, "harvest")?;
        Ok(self.whole(path.as_str(), table, "lanes", LANES, 2)? as u32)
    }
}
