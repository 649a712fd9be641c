#![tactic(auto, unfolding(crate::specs::Finding::note_all))]

ghost use Rattle.std.specs.Prelude.{◌≡◌, codes, IfOk, OnOk};
ghost use Rattle.toml.specs.Data.{get_member, no_members};
ghost use Rattle.toml.specs.View.{view, table_view};
ghost use Rattle.beat_config.specs.Finding.{seen_of, note_all};
ghost use Rattle.beat_config.specs.Path.{key_path};
ghost use Rattle.beat_config.specs.Multiline.{side_at, count_in, pattern_in, count_value_findings, pattern_value_findings, is_count, group_in, count_table_findings, pattern_table_findings, group_value_findings, group_of, group_findings};

use crate::member::member;
use crate::noted::Noted;
use crate::path::key_path;
use crate::single::Limits;
use crate::text::{Form, or_empty};
use event_tree::{GroupRule, Side};
use toml::{Table, Value};
use wire_base::NoMemory;

const COUNT: [&str; 5] = [
    "type",
    "count_lines",
    "max_lines",
    "timeout",
    "skip_newline",
];

const PATTERN: [&str; 8] = [
    "type",
    "pattern",
    "negate",
    "match",
    "flush_pattern",
    "max_lines",
    "timeout",
    "skip_newline",
];

const TYPES: [&str; 2] = ["pattern", "count"];

const SIDES: [&str; 2] = ["after", "before"];

const LINES: Limits = Limits {
    low: 1,
    high: 1_000_000,
};

const TIMEOUT: Limits = Limits {
    low: 1,
    high: 86_400_000,
};

impl Noted {
    /// How lines become events: the table `multiline`, if it is there.
    #[tactic(auto, unfolding(crate::specs::Finding::note_all, crate::specs::Multiline::group_of, crate::specs::Multiline::group_findings))]
    pub fn group(
        &mut self,
        path: &str,
        input: &Table,
        message_max_bytes: u64,
        empty: &Table,
    ) -> Result<GroupRule, NoMemory>
        requires { table_view empty.now ≡ no_members }
        ensures value { IfOk result (λ rule. rule ≡ group_of message_max_bytes (get_member (codes "multiline") (table_view input.now))) }
        ensures findings { OnOk result (seen_of self.new ≡ note_all (seen_of self.old)
            (group_findings (key_path path.now (codes "multiline")) (get_member (codes "multiline") (table_view input.now)))) }
    {
        let Some(value) = member(input, "multiline") else {
            return Ok(GroupRule::Single { message_max_bytes });
        };
        let path = key_path(self.alloc, path, "multiline")?;
        self.group_value(path.as_str(), value, message_max_bytes, empty)
    }

    fn group_value(
        &mut self,
        path: &str,
        value: &Value,
        message_max_bytes: u64,
        empty: &Table,
    ) -> Result<GroupRule, NoMemory>
        requires { table_view empty.now ≡ no_members }
        ensures value { IfOk result (λ rule. rule ≡ group_in message_max_bytes (view value.now)) }
        ensures findings { OnOk result (seen_of self.new ≡ note_all (seen_of self.old) (group_value_findings path.now (view value.now))) }
    {
        if is_count(value) {
            let table = self.table(path, value, &COUNT, &["count_lines"], empty)?;
            self.count_values(path, table, message_max_bytes)
        } else {
            let table = self.table(path, value, &PATTERN, &["pattern", "match"], empty)?;
            self.pattern_values(path, table, message_max_bytes)
        }
    }

    fn count_values(
        &mut self,
        path: &str,
        table: &Table,
        message_max_bytes: u64,
    ) -> Result<GroupRule, NoMemory>
        ensures value { IfOk result (λ rule. rule ≡ count_in message_max_bytes (table_view table.now)) }
        ensures findings { OnOk result (seen_of self.new ≡ note_all (seen_of self.old) (count_value_findings path.now (table_view table.now))) }
    {
        let _kind = self.choice(path, table, "type", &TYPES, 0)?;
        let count_lines = self.whole(path, table, "count_lines", LINES, 1)?;
        let max_lines = self.whole(path, table, "max_lines", LINES, 500)?;
        let timeout = self.duration(path, table, "timeout", TIMEOUT, 5_000)?;
        let skip_newline = self.flag(path, table, "skip_newline", false)?;
        Ok(GroupRule::Count {
            count_lines,
            max_lines,
            timeout,
            skip_newline,
            message_max_bytes,
        })
    }

    fn pattern_values(
        &mut self,
        path: &str,
        table: &Table,
        message_max_bytes: u64,
    ) -> Result<GroupRule, NoMemory>
        ensures value { IfOk result (λ rule. rule ≡ pattern_in message_max_bytes (table_view table.now)) }
        ensures findings { OnOk result (seen_of self.new ≡ note_all (seen_of self.old) (pattern_value_findings path.now (table_view table.now))) }
    {
        let _kind = self.choice(path, table, "type", &TYPES, 0)?;
        let pattern = self.text(path, table, "pattern", Form::LinePattern)?;
        let negate = self.flag(path, table, "negate", false)?;
        let side = self.choice(path, table, "match", &SIDES, 0)?;
        let flush_pattern = self.text(path, table, "flush_pattern", Form::LinePattern)?;
        let max_lines = self.whole(path, table, "max_lines", LINES, 500)?;
        let timeout = self.duration(path, table, "timeout", TIMEOUT, 5_000)?;
        let skip_newline = self.flag(path, table, "skip_newline", false)?;
        Ok(GroupRule::Pattern {
            pattern: or_empty(self.alloc, pattern),
            negate,
            side: side_at(side),
            flush_pattern,
            max_lines,
            timeout,
            skip_newline,
            message_max_bytes,
        })
    }
}

fn side_at(place: usize) -> Side
    ensures { result ≡ side_at place }
{
    if place == 1 {
        Side::Before
    } else {
        Side::After
    }
}

/// A `type` of no or another value is read as `pattern`.
#[tactic(auto, unfolding(crate::specs::Multiline::is_count))]
fn is_count(value: &Value) -> bool
    ensures { result ≡ is_count (view value.now) }
{
    let Some(table) = value.as_table() else {
        return false;
    };
    let Some(kind) = member(table, "type") else {
        return false;
    };
    let Some(text) = kind.as_str() else {
        return false;
    };
    text == "count"
}
