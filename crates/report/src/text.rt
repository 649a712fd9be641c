ghost use Rattle.std.specs.Prelude.{◌≡◌, ◌≤◌, ℕ, List, IfOk, OnErr, map};
ghost use Rattle.std.specs.List.{flat_map};
ghost use Rattle.outside.specs.Counts.{Rose};
ghost use Rattle.report.specs.Passings.{ArePassings};
ghost use Rattle.report.specs.Report.{IsReport, file_line, passed_line, report_bytes};
ghost use Rattle.report.specs.Writing.{WritesAll};

use crate::last_line::status_line;
use crate::page::Page;
use crate::part::Part::{Number, Plain, Quoted};
use crate::part::write_parts;
use crate::passing::Passing;
use crate::status::Status;
use outside::{Failed, Sink};
use ship_core::Rows;
use std::alloc::Global;
use wire_base::{Blob, NoMemory, Row};

/// The whole report, each line ended by LF: a line for each row, a line for each path and reason in
/// `passed`, which may be in any order and have one twice, the number of events shipped and dropped,
/// and the status line.
pub fn report_text(
    alloc: Global,
    rows: &Rows,
    passed: &[Passing],
    shipped: u64,
    dropped: u64,
    status: &Status,
) -> Result<Blob, NoMemory>
    ensures report { IfOk result (λ text.
        IsReport rows.now passed.now shipped dropped status.now text) }
    ensures no_other { IfOk result (λ text. (other : List ℕ) →
        IsReport rows.now passed.now shipped dropped status.now other → other ≡ text) }
{
    let ordered = in_order(alloc, passed)?;
    let mut page = Page::new(alloc);
    match write_report(&mut page, rows, &ordered, shipped, dropped, status) {
        Ok(()) => Ok(page.into_blob()),
        Err(_) => Err(NoMemory),
    }
}

/// The skipped paths in the order of their lines, each once.
fn in_order<'a>(alloc: Global, passed: &'a [Passing]) -> Result<Vec<&'a Passing>, NoMemory>
    ensures { IfOk result (λ ordered.
        ArePassings passed.now (map (λ passing. passing.now) ordered.items)) }
{
    let mut ordered = Vec::new(alloc);
    for passing in passed {
        ordered.push(passing)?;
    }
    ordered.sort_unstable_by(|one, other| one.order(other));
    ordered.dedup();
    Ok(ordered)
}

fn write_report<S: Sink>(
    out: &mut S,
    rows: &Rows,
    ordered: &[&Passing],
    shipped: u64,
    dropped: u64,
    status: &Status,
) -> Result<(), Failed>
    ensures told { WritesAll (S.written out.old)
        (report_bytes rows.now (map (λ passing. passing.now) ordered.now) shipped dropped status.now)
        result (S.written out.new) }
    ensures faults_never_fall { S.faults out.old ≤ S.faults out.new }
    ensures failed_only_where_faults_rose { OnErr result (Rose (S.faults out.old) (S.faults out.new)) }
{
    write_rows(out, rows)?;
    write_passed(out, ordered)?;
    write_parts(
        out,
        &[
            Plain(b"shipped "),
            Number(shipped),
            Plain(b" dropped "),
            Number(dropped),
            Plain(b"\n"),
        ],
    )?;
    status_line(status, out)
}

fn write_rows<S: Sink>(out: &mut S, rows: &Rows) -> Result<(), Failed>
    ensures told { WritesAll (S.written out.old) (flat_map file_line rows.now) result (S.written out.new) }
    ensures faults_never_fall { S.faults out.old ≤ S.faults out.new }
    ensures failed_only_where_faults_rose { OnErr result (Rose (S.faults out.old) (S.faults out.new)) }
{
    for i in 0..rows.len() {
        write_row(out, rows.at(i))?;
    }
    Ok(())
}

fn write_row<S: Sink>(out: &mut S, row: &Row) -> Result<(), Failed>
    ensures told { WritesAll (S.written out.old) (file_line row.now) result (S.written out.new) }
    ensures faults_never_fall { S.faults out.old ≤ S.faults out.new }
    ensures failed_only_where_faults_rose { OnErr result (Rose (S.faults out.old) (S.faults out.new)) }
{
    write_parts(
        out,
        &[
            Plain(b"file "),
            Quoted(&row.key),
            Plain(b" "),
            Number(u64::from(row.epoch.0)),
            Plain(b" "),
            Number(row.offset),
            Plain(b" "),
            Quoted(&row.path),
            Plain(b"\n"),
        ],
    )
}

fn write_passed<S: Sink>(out: &mut S, ordered: &[&Passing]) -> Result<(), Failed>
    ensures told { WritesAll (S.written out.old)
        (flat_map passed_line (map (λ passing. passing.now) ordered.now))
        result (S.written out.new) }
    ensures faults_never_fall { S.faults out.old ≤ S.faults out.new }
    ensures failed_only_where_faults_rose { OnErr result (Rose (S.faults out.old) (S.faults out.new)) }
{
    for passing in ordered {
        write_parts(
            out,
            &[
                Plain(b"passed "),
                Quoted(&passing.path),
                Plain(b" "),
                Plain(passing.why.name()),
                Plain(b"\n"),
            ],
        )?;
    }
    Ok(())
}
