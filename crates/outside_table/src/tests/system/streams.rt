use super::fresh_path;
use outside::{Bell, Clock, Failed, Sink, Source};
use outside_real::{FileBell, FileSource, StdSink, SystemClock};
use std::cell::Cell;
use std::io::ErrorKind;
use std::test::Fail;
use std::time::Duration;
use std::{fmt, fs, io, process, time};
use wire_base::{MAX_MOMENT, Moment, Text};

#[test]
fn source_reads_a_file_to_its_end(rt: HostRuntime) -> Result<(), Fail> {
    let path = fresh_path(&rt, "source", process::id(rt.process()))?;
    fs::write(&rt, path.as_str(), "abcde")?;
    let mut source = FileSource::new(&rt, Text::from_string(path.clone()?));
    let mut into = [0; 3];
    let read = [
        source.read(&mut into),
        source.read(&mut into),
        source.read(&mut into),
    ];
    fs::remove_file(&rt, path.as_str())?;
    let absent = FileSource::new(&rt, Text::from_string(path)).read(&mut into);
    assert_eq!(rt; read, [Ok(3), Ok(2), Ok(0)]);
    assert_eq!(rt; absent, Err(Failed));
    assert_eq!(rt; into, *b"dec");
    Ok(())
}

/// Answers in turn: a signal cut the call short, one byte, none, a pipe that nobody reads.
#[derive(Drop)]
struct Output {
    calls: Cell<u32>,
}

impl Print for Output {
    fn print<D: fmt::Display + Drop>(&self, _value: D) -> io::Result<()> {
        Ok(())
    }

    fn println<D: fmt::Display + Drop>(&self, _value: D) -> io::Result<()> {
        Ok(())
    }

    fn write_all(&self, _bytes: &[u8]) -> io::Result<()> {
        Ok(())
    }

    fn write_some(&self, bytes: &[u8]) -> io::Result<usize> {
        let call = self.calls.get();
        self.calls.set(call.saturating_add(1));
        match call {
            0 => Err(io::Error::from(ErrorKind::Interrupted)),
            1 => Ok(bytes.len().min(1)),
            2 => Ok(0),
            _ => Err(io::Error::from(ErrorKind::BrokenPipe)),
        }
    }
}

#[test]
fn sink_asks_again_after_a_signal_and_fails_where_nothing_is_taken(
    rt: HostRuntime,
) -> Result<(), Fail> {
    let output = Output {
        calls: Cell::new(0),
    };
    let mut sink = StdSink::new(&output);
    let written = [sink.write(b"ab"), sink.write(b"b"), sink.write(b"b")];
    assert_eq!(rt; written, [Ok(1), Err(Failed), Err(Failed)]);
    assert_eq!(rt; StdSink::new(&rt).write(b""), Ok(0));
    Ok(())
}

/// A clock that reads these many milliseconds, or fails.
#[derive(Drop)]
struct Reading(Option<u64>);

impl time::Clock for Reading {
    fn monotonic(&self) -> io::Result<Duration> {
        Ok(Duration::ZERO)
    }

    fn since_1970(&self) -> io::Result<Duration> {
        match self.0 {
            Some(milliseconds) => Ok(Duration::from_millis(milliseconds)),
            None => Err(io::Error::from(ErrorKind::InvalidData)),
        }
    }
}

#[test]
fn clock_gives_milliseconds_and_moves(rt: HostRuntime) -> Result<(), Fail> {
    let cases = [
        (Some(0), 0),
        (Some(1_700_000_000_123), 1_700_000_000_123),
        (Some(u64::MAX), MAX_MOMENT),
        (None, 0),
    ];
    for (reading, moment) in cases {
        assert_eq!(rt; SystemClock::new(Reading(reading)).now(), Moment(moment));
    }
    let mut clock = SystemClock::new(&rt);
    let first = clock.now();
    clock.pause(20);
    assert!(rt; first < clock.now());
    Ok(())
}

#[test]
fn bell_rings_where_its_file_is(rt: HostRuntime) -> Result<(), Fail> {
    let path = fresh_path(&rt, "bell", process::id(rt.process()))?;
    let mut bell = FileBell::new(&rt, Text::from_string(path.clone()?));
    let quiet = bell.asked();
    fs::write(&rt, path.as_str(), "")?;
    let rings = bell.asked();
    fs::remove_file(&rt, path.as_str())?;
    assert_eq!(rt; [quiet, rings], [false, true]);
    Ok(())
}
