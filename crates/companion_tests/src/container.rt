//! Worked runs over objects in memory.

use container_lines::{ContainerStatus, container_run};
use outside_mem::{MemSink, MemSource};
use std::alloc::Global;
use std::sync::Wait;
use std::test::Fail;
use wire_base::{NoMemory, Text};

/// What a run is given: its arguments, the log, and the reads and writes that fail.
#[derive(Clone, Copy)]
struct Case<'a> {
    words: &'a [&'a str],
    log: &'a [u8],
    failing_reads: &'a [u64],
    failing_writes: &'a [u64],
}

const ALL: &[&str] = &["--format", "cri", "--stream", "all"];

const ROW: &[u8] = b"t stdout P ab\nt stderr F x\nt stdout F cd\n";

/// How the run ends, and what it has written.
fn run_of<X: Wait>(
    rt: &X,
    alloc: Global,
    case: Case<'_>,
) -> Result<(ContainerStatus, MemSink), NoMemory> {
    let mut words = Vec::new(alloc);
    for word in case.words {
        words.push(Text::from_string(String::from_str(alloc, word)?))?;
    }
    let mut source = MemSource::new(alloc, case.log)?;
    source.fail_at(case.failing_reads)?;
    let mut out = MemSink::new(alloc)?;
    out.fail_at(case.failing_writes)?;
    let status = container_run(rt, alloc, &words, &mut source, &mut out);
    Ok((status, out))
}

/// A run in which nothing fails.
fn without_faults<'a>(words: &'a [&'a str], log: &'a [u8]) -> Case<'a> {
    Case {
        words,
        log,
        failing_reads: &[],
        failing_writes: &[],
    }
}

#[test]
fn logs_become_plain_lines(rt: HostRuntime) -> Result<(), Fail> {
    let docker: &[&str] = &["--format", "docker", "--stream", "all"];
    let errors: &[&str] = &["--format", "cri", "--stream", "stderr"];
    let docker_row: &[u8] =
        b"{\"log\":\"ab\",\"stream\":\"stdout\",\"time\":\"t\"}\n{\"log\":\"cd\\n\",\"stream\":\"stdout\",\"time\":\"t\"}\nx\n";
    let one_bad = ContainerStatus::BadLines {
        first: 86,
        count: 1,
    };
    let cases: [(Case<'_>, ContainerStatus, &[u8]); 5] = [
        (
            without_faults(ALL, ROW),
            ContainerStatus::Done,
            b"x\nabcd\n",
        ),
        (without_faults(docker, docker_row), one_bad, b"abcd\n"),
        (without_faults(errors, ROW), ContainerStatus::Done, b"x\n"),
        // A line without its end is none, and a partial line at the end waits.
        (
            without_faults(ALL, b"t stdout F a\nt stderr P b\nt stdout F c"),
            ContainerStatus::Done,
            b"a\n",
        ),
        (
            without_faults(ALL, b"a\nt stdout F b\nc\n"),
            ContainerStatus::BadLines { first: 0, count: 2 },
            b"b\n",
        ),
    ];
    for (case, wanted, written) in cases {
        let (status, out) = run_of(&rt, rt.alloc(), case)?;
        assert_eq!(rt; status, wanted);
        assert_eq!(rt; out.bytes(), written);
    }
    Ok(())
}

#[test]
fn faults_are_told(rt: HostRuntime) -> Result<(), Fail> {
    let read = Case {
        failing_reads: &[1],
        ..without_faults(ALL, ROW)
    };
    let write = Case {
        failing_writes: &[0],
        ..without_faults(ALL, ROW)
    };
    for (case, wanted) in [
        (read, ContainerStatus::SourceFault),
        (write, ContainerStatus::OutFault),
    ] {
        let (status, out) = run_of(&rt, rt.alloc(), case)?;
        assert_eq!(rt; status, wanted);
        assert_eq!(rt; out.bytes(), b"".as_slice());
    }
    Ok(())
}

#[test]
fn other_words_are_refused(rt: HostRuntime) -> Result<(), Fail> {
    let others: [&[&str]; 6] = [
        &[],
        &["--format", "cri"],
        &["--stream", "all", "--format", "cri"],
        &["--format", "cri", "--stream", "both"],
        &["--format", "json", "--stream", "all"],
        &["--format", "cri", "--stream", "all", "-"],
    ];
    for words in others {
        let (status, out) = run_of(&rt, rt.alloc(), without_faults(words, ROW))?;
        assert_eq!(rt; status, ContainerStatus::Usage);
        assert_eq!(rt; out.bytes(), b"".as_slice());
    }
    Ok(())
}
