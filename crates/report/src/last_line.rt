ghost use Rattle.std.specs.Prelude.{◌≡◌, ◌≤◌, ◌++◌, OnErr};
ghost use Rattle.outside.specs.Counts.{Rose};
ghost use Rattle.report.specs.Report.{area_letter, full_name, lack_text, settings_line, settings_text, status_bytes, unbuilt_line};
ghost use Rattle.report.specs.Writing.{WritesAll};

use crate::part::Part::{Number, Plain, Quoted, Signed};
use crate::part::write_parts;
use crate::status::{Lack, Status};
use crate::write::write_all;
use beat_config::SettingsError;
use outside::{Failed, Sink};
use wire_base::{Full, Text, Which};

/// Writes the status line, ended by LF (this project's profile); for `OutFault` it writes nothing. Takes
/// no memory. If the sink fails, a front of the line is written.
pub fn status_line<S: Sink>(status: &Status, out: &mut S) -> Result<(), Failed>
    ensures told { WritesAll (S.written out.old) (status_bytes status.now) result (S.written out.new) }
    ensures faults_never_fall { S.faults out.old ≤ S.faults out.new }
    ensures failed_only_where_faults_rose { OnErr result (Rose (S.faults out.old) (S.faults out.new)) }
{
    match status {
        Status::Done => write_all(out, b"status 0 done\n"),
        Status::Stopped => write_all(out, b"status 1 stopped\n"),
        Status::Usage => write_all(
            out,
            b"status 2 usage: beat_main -c FILE [--once] [--data DIR] [--generate N]\n",
        ),
        Status::Settings(fault) => settings_line(fault, out),
        Status::RegistryBad { area, at } => registry_line(*area, *at, out),
        Status::DiskFault => write_all(out, b"status 5 disk fault\n"),
        Status::FolderFault => write_all(out, b"status 6 folder fault\n"),
        Status::Unreachable { worker, failures } => unreachable_line(*worker, *failures, out),
        Status::OutFault => Ok(()),
        Status::SourceFault => write_all(out, b"status 9 source fault\n"),
        Status::TooMany { what, path } => too_many_line(*what, path, out),
        Status::NoNative { path } => no_native_line(path, out),
        Status::NoMemory => write_all(out, b"status 12 no memory\n"),
        Status::Unbuilt { what } => unbuilt_line(what, out),
    }
}

fn registry_line<S: Sink>(area: Which, at: u64, out: &mut S) -> Result<(), Failed>
    ensures told { WritesAll (S.written out.old) (status_bytes (Status.RegistryBad area at)) result (S.written out.new) }
    ensures faults_never_fall { S.faults out.old ≤ S.faults out.new }
    ensures failed_only_where_faults_rose { OnErr result (Rose (S.faults out.old) (S.faults out.new)) }
{
    write_parts(
        out,
        &[
            Plain(b"status 4 registry bad area "),
            Plain(area_name(area)),
            Plain(b" at "),
            Number(at),
            Plain(b"\n"),
        ],
    )
}

fn unreachable_line<S: Sink>(worker: u32, failures: u32, out: &mut S) -> Result<(), Failed>
    ensures told { WritesAll (S.written out.old) (status_bytes (Status.Unreachable worker failures)) result (S.written out.new) }
    ensures faults_never_fall { S.faults out.old ≤ S.faults out.new }
    ensures failed_only_where_faults_rose { OnErr result (Rose (S.faults out.old) (S.faults out.new)) }
{
    write_parts(
        out,
        &[
            Plain(b"status 7 unreachable worker "),
            Number(u64::from(worker)),
            Plain(b" failures "),
            Number(u64::from(failures)),
            Plain(b"\n"),
        ],
    )
}

fn too_many_line<S: Sink>(what: Full, path: &Text, out: &mut S) -> Result<(), Failed>
    ensures told { WritesAll (S.written out.old) (status_bytes (Status.TooMany what path.now)) result (S.written out.new) }
    ensures faults_never_fall { S.faults out.old ≤ S.faults out.new }
    ensures failed_only_where_faults_rose { OnErr result (Rose (S.faults out.old) (S.faults out.new)) }
{
    write_parts(
        out,
        &[
            Plain(b"status 10 too many "),
            Plain(full_name(what)),
            Plain(b" "),
            Quoted(path),
            Plain(b"\n"),
        ],
    )
}

fn no_native_line<S: Sink>(path: &Text, out: &mut S) -> Result<(), Failed>
    ensures told { WritesAll (S.written out.old) (status_bytes (Status.NoNative path.now)) result (S.written out.new) }
    ensures faults_never_fall { S.faults out.old ≤ S.faults out.new }
    ensures failed_only_where_faults_rose { OnErr result (Rose (S.faults out.old) (S.faults out.new)) }
{
    write_parts(
        out,
        &[
            Plain(b"status 11 no native numbers "),
            Quoted(path),
            Plain(b"\n"),
        ],
    )
}

fn settings_line<S: Sink>(fault: &SettingsError, out: &mut S) -> Result<(), Failed>
    ensures told { WritesAll (S.written out.old) (settings_line (settings_text fault.now)) result (S.written out.new) }
    ensures faults_never_fall { S.faults out.old ≤ S.faults out.new }
    ensures failed_only_where_faults_rose { OnErr result (Rose (S.faults out.old) (S.faults out.new)) }
{
    match fault {
        SettingsError::TooLong => write_all(out, b"status 3 settings too long\n"),
        SettingsError::NotToml => write_all(out, b"status 3 settings not toml\n"),
        SettingsError::Unknown { key } => key_line(b"unknown ", key, out),
        SettingsError::Missing { key } => key_line(b"missing ", key, out),
        SettingsError::WrongKind { key } => key_line(b"wrong kind ", key, out),
        SettingsError::BadText { key } => key_line(b"bad text ", key, out),
        SettingsError::OutOfRange { key, value } => range_line(key, *value, out),
        SettingsError::BadGlob { key, .. } => key_line(b"bad glob ", key, out),
        SettingsError::BadPattern { key } => key_line(b"bad pattern ", key, out),
        SettingsError::CleanTooSoon { key } => key_line(b"clean too soon ", key, out),
        SettingsError::NoMemory => write_all(out, b"status 3 settings no memory\n"),
    }
}

fn key_line<'a, S: Sink>(fault: &'a [u8], key: &'a Text, out: &mut S) -> Result<(), Failed>
    ensures told { WritesAll (S.written out.old) (settings_line (fault.now ++ key.now)) result (S.written out.new) }
    ensures faults_never_fall { S.faults out.old ≤ S.faults out.new }
    ensures failed_only_where_faults_rose { OnErr result (Rose (S.faults out.old) (S.faults out.new)) }
{
    write_parts(
        out,
        &[
            Plain(b"status 3 settings "),
            Plain(fault),
            Plain(key.bytes()),
            Plain(b"\n"),
        ],
    )
}

fn range_line<S: Sink>(key: &Text, value: i64, out: &mut S) -> Result<(), Failed>
    ensures told { WritesAll (S.written out.old) (settings_line (settings_text (SettingsError.OutOfRange key.now value))) result (S.written out.new) }
    ensures faults_never_fall { S.faults out.old ≤ S.faults out.new }
    ensures failed_only_where_faults_rose { OnErr result (Rose (S.faults out.old) (S.faults out.new)) }
{
    write_parts(
        out,
        &[
            Plain(b"status 3 settings out of range "),
            Plain(key.bytes()),
            Plain(b" "),
            Signed(value),
            Plain(b"\n"),
        ],
    )
}

fn unbuilt_line<S: Sink>(lack: &Lack, out: &mut S) -> Result<(), Failed>
    ensures told { WritesAll (S.written out.old) (unbuilt_line (lack_text lack.now)) result (S.written out.new) }
    ensures faults_never_fall { S.faults out.old ≤ S.faults out.new }
    ensures failed_only_where_faults_rose { OnErr result (Rose (S.faults out.old) (S.faults out.new)) }
{
    match lack {
        Lack::Key(key) => write_parts(
            out,
            &[
                Plain(b"status 13 unbuilt key "),
                Plain(key.bytes()),
                Plain(b"\n"),
            ],
        ),
        Lack::Follow => write_all(out, b"status 13 unbuilt follow\n"),
    }
}

fn area_name(area: Which) -> &'static [u8]
    ensures { result.now ≡ area_letter area }
{
    match area {
        Which::A => b"A",
        Which::B => b"B",
    }
}

fn full_name(what: Full) -> &'static [u8]
    ensures { result.now ≡ full_name what }
{
    match what {
        Full::Files => b"files",
        Full::Epochs => b"epochs",
        Full::Slots => b"slots",
    }
}
