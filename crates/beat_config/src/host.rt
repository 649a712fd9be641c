#![tactic(auto, unfolding(crate::specs::Finding::note_all))]

ghost use Rattle.std.specs.Prelude.{◌≡◌, ◌≤◌, length, IfOk, OnOk, option_and_then};
ghost use Rattle.toml.specs.Data.{get_member, as_str};
ghost use Rattle.toml.specs.View.{view, table_view, items_view};
ghost use Rattle.beat_config.specs.Finding.{seen_of, note_all};
ghost use Rattle.beat_config.specs.Host.{host_of, name_length, port_of, port_behind, hosts_of, hosts_findings, hosts_in, host_findings, host_member_findings};
ghost use Rattle.beat_config.specs.Path.{key_path};

use crate::SettingsError;
use crate::member::member;
use crate::names::is_name;
use crate::noted::Noted;
use crate::number::number;
use crate::path::{key_path, member_path};
use crate::single::Limits;
use std::alloc::Global;
use toml::{Table, Value};
use wire_base::{Host, NoMemory, Text};

/// The port of a host that names none.
const PORT: u16 = 5044;

/// The most bytes of a host's name.
const MAX_NAME: usize = 253;

const MAX_PORT_DIGITS: usize = 5;

impl Noted {
    /// The hosts of the list at a key.
    #[tactic(auto, using(crate::proofs::Lists::count_of_view), unfolding(crate::specs::Finding::note_all))]
    pub fn hosts(
        &mut self,
        path: &str,
        table: &Table,
        key: &str,
        limits: Limits,
    ) -> Result<Vec<Host>, NoMemory>
        ensures value { IfOk result (λ hosts. hosts.items ≡ hosts_of (get_member key.now (table_view table.now))) }
        ensures findings { OnOk result (seen_of self.new ≡ note_all (seen_of self.old)
            (hosts_findings limits (key_path path.now key.now) (get_member key.now (table_view table.now)))) }
    {
        let Some(value) = member(table, key) else {
            return Ok(Vec::new(self.alloc));
        };
        let key = key_path(self.alloc, path, key)?;
        let Some(items) = value.as_array() else {
            self.fault(SettingsError::WrongKind { key });
            return Ok(Vec::new(self.alloc));
        };
        self.check_length(&key, items.len(), limits)?;
        self.host_items(&key, items)
    }

    fn host_items(&mut self, key: &Text, items: &[Value]) -> Result<Vec<Host>, NoMemory>
        ensures value { IfOk result (λ hosts. hosts.items ≡ hosts_in (items_view items.now)) }
        ensures findings { OnOk result (seen_of self.new ≡ note_all (seen_of self.old) (host_member_findings key.now 0 (items_view items.now))) }
    {
        let mut hosts = Vec::new(self.alloc);
        for (number, item) in items.iter().enumerate() {
            let key = member_path(self.alloc, key.as_str(), number)?;
            if let Some(host) = self.host_value(&key, item)? {
                hosts.push(host)?;
            }
        }
        Ok(hosts)
    }

    fn host_value(&mut self, key: &Text, value: &Value) -> Result<Option<Host>, NoMemory>
        ensures value { IfOk result (λ host. host ≡ option_and_then host_of (as_str (view value.now))) }
        ensures findings { OnOk result (seen_of self.new ≡ note_all (seen_of self.old) (host_findings key.now (as_str (view value.now)))) }
    {
        let Some(text) = value.as_str() else {
            let key = key.copy(self.alloc)?;
            self.fault(SettingsError::WrongKind { key });
            return Ok(None);
        };
        let host = host_of(self.alloc, text)?;
        if host.is_none() {
            self.bad_value(key)?;
        }
        Ok(host)
    }
}

/// The host that a text names, `NAME` or `NAME:PORT`.
#[tactic(auto, unfolding(crate::specs::Host::host_of, crate::specs::Finding::note_all))]
fn host_of(alloc: Global, text: &str) -> Result<Option<Host>, NoMemory>
    ensures { IfOk result (λ host. host ≡ host_of text.now) }
{
    let (name, rest) = text.as_bytes().split_at(name_length(text.as_bytes()));
    let Some(port) = port_behind(rest) else {
        return Ok(None);
    };
    if !is_name(name, MAX_NAME) {
        return Ok(None);
    }
    Ok(Some(Host {
        name: name_text(alloc, name)?,
        port,
    }))
}

fn name_text(alloc: Global, name: &[u8]) -> Result<Text, NoMemory>
    ensures { IfOk result (λ text. text ≡ name.now) }
{
    Text::from_bytes(alloc, name).map_err(|_| NoMemory)
}

fn name_length(text: &[u8]) -> usize
    ensures value { result ≡ name_length text.now }
    ensures within { result ≤ length text.now }
{
    let mut count = 0;
    for byte in text {
        if *byte == b':' {
            return count;
        }
        count += 1;
    }
    count
}

fn port_behind(rest: &[u8]) -> Option<u16>
    ensures { result ≡ port_behind rest.now }
{
    match rest {
        [] => Some(PORT),
        [_, digits @ ..] => port_of(digits),
    }
}

fn port_of(digits: &[u8]) -> Option<u16>
    ensures { result ≡ port_of digits.now }
{
    match number(digits, MAX_PORT_DIGITS) {
        Some(port) if 1 <= port && port <= 65_535 => Some(port as u16),
        _ => None,
    }
}
