use container_lines::*;
use event_tree::{LineRule, Terminator};
use line_cutter::{Cutter, Line};
use std::alloc::Global;
use std::test::Fail;
use wire_base::{Blob, NoMemory, Span};

/// No text in these tests has more lines.
const MOST_LINES: usize = 8;

const PARTIAL_LINES_OF_BOTH_STREAMS: &[u8] = b"t stdout P ab\nt stderr F x\nt stdout F cd\n";

const DOCKER_LINES: &[u8] =
    b"{\"log\":\"ab\",\"stream\":\"stdout\",\"time\":\"t\"}\n{\"log\":\"cd\\n\",\"stream\":\"stdout\",\"time\":\"t\"}\nx\n";

/// Writes what each complete line of a log is reported as.
fn tellings(alloc: Global, format: Format, keep: Keep, log: &[u8]) -> Result<Vec<u8>, NoMemory> {
    let mut written = Vec::new(alloc);
    if log.len() > 1000 {
        return Ok(written);
    }
    let rule = LineRule {
        terminator: Terminator::LineFeed,
        message_max_bytes: MAX_CONTENT,
    };
    let mut cutter = Cutter::new(alloc, rule, 0);
    cutter.feed(log)?;
    let mut joiner = Joiner::new(alloc, format, keep)?;
    for _ in 0..MOST_LINES {
        let Some(line) = cutter.next_line()? else {
            return Ok(written);
        };
        write_told(alloc, joiner.line(&line)?, &mut written)?;
    }
    Ok(written)
}

fn write_told(alloc: Global, told: Told, written: &mut Vec<u8>) -> Result<(), NoMemory> {
    match told {
        Told::Whole(joined) => write_joined(alloc, &joined, written)?,
        Told::Waits => written.extend_from_slice(b"waits;")?,
        Told::Other => written.extend_from_slice(b"other;")?,
        Told::Malformed => written.extend_from_slice(b"malformed;")?,
    }
    Ok(())
}

fn write_joined(alloc: Global, joined: &Joined, written: &mut Vec<u8>) -> Result<(), NoMemory> {
    let stream: &[u8] = match joined.stream {
        Stream::Stdout => b"stdout ",
        Stream::Stderr => b"stderr ",
    };
    written.extend_from_slice(stream)?;
    for i in 0..joined.parts.len() {
        let span = joined.parts.at(i);
        let (start, end) = (span.start(), span.end());
        written.extend_from_slice(format!(in alloc; "{start}-{end} ")?.as_bytes())?;
    }
    written.extend_from_slice(joined.message.bytes())?;
    written.push(b';')?;
    Ok(())
}

#[test]
fn lines_are_joined_stream_by_stream(rt: HostRuntime) -> Result<(), Fail> {
    let cases: [(Format, Keep, &[u8], &[u8]); 8] = [
        (
            Format::Cri,
            Keep::All,
            PARTIAL_LINES_OF_BOTH_STREAMS,
            b"waits;stderr 14-27 x;stdout 0-14 27-41 abcd;",
        ),
        (
            Format::Cri,
            Keep::Only(Stream::Stderr),
            PARTIAL_LINES_OF_BOTH_STREAMS,
            b"other;stderr 14-27 x;other;",
        ),
        (
            Format::Docker,
            Keep::All,
            DOCKER_LINES,
            b"waits;stdout 0-42 42-86 abcd;malformed;",
        ),
        // A line of no format between two parts, and one that waits at the end.
        (
            Format::Cri,
            Keep::All,
            b"t stdout P a\n\nt stdout F b\nt stdout P c\n",
            b"waits;malformed;stdout 0-13 14-27 ab;waits;",
        ),
        // Further tags, a text of spaces, and nothing after the tag.
        (
            Format::Cri,
            Keep::All,
            b"2016-10-06T00:17:09.669794202Z stdout F:x:y a b \nt stderr P:z \nt stderr F\n",
            b"stdout 0-49 a b ;waits;stderr 49-63 63-74 ;",
        ),
        // What is no line of the format.
        (
            Format::Cri,
            Keep::All,
            b" stdout F a\nt stdin F a\nt stdout PF a\nt stdout\nt  stdout F a\nt stdout f a\n",
            b"malformed;malformed;malformed;malformed;malformed;malformed;",
        ),
        // A later `log` of the same object goes before; other keys may be there.
        (
            Format::Docker,
            Keep::All,
            b"{\"log\":1,\"attrs\":{\"k\":[]},\"time\":\"\",\"stream\":\"stderr\",\"log\":\"\\u00e9\\n\"}\n",
            b"stderr 0-72 \xc3\xa9;",
        ),
        (
            Format::Docker,
            Keep::All,
            b"{\"log\":\"a\",\"stream\":\"stdout\"}\n[]\n{\"log\":\"\xff\",\"stream\":\"stdout\",\"time\":\"\"}\n{\"log\":\"a\",\"stream\":\"\",\"time\":\"\"}\n",
            b"malformed;malformed;malformed;malformed;",
        ),
    ];
    for (format, keep, log, told) in cases {
        assert_eq!(rt; tellings(rt.alloc(), format, keep, log)?.as_slice(), told);
    }
    Ok(())
}

/// The longest content is of the format; a longer one of which the head is given is not.
#[test]
fn a_longer_content_is_of_no_format(rt: HostRuntime) -> Result<(), Fail> {
    let alloc = rt.alloc();
    let span = Span::new(0, 13).ok_or("no span")?;
    let mut joiner = Joiner::new(alloc, Format::Cri, Keep::All)?;
    for (full, is_whole) in [(MAX_CONTENT, true), (MAX_CONTENT + 1, false)] {
        let line = Line {
            span,
            head: Blob::from_bytes(alloc, b"t stdout F ab")?,
            full,
        };
        assert_eq!(rt; matches!(joiner.line(&line)?, Told::Whole(_)), is_whole);
    }
    Ok(())
}

#[test]
fn each_status_has_its_code(rt: HostRuntime) -> Result<(), Fail> {
    let bad = ContainerStatus::BadLines { first: 0, count: 1 };
    let statuses = [
        ContainerStatus::Done,
        ContainerStatus::Usage,
        ContainerStatus::SourceFault,
        bad,
        ContainerStatus::OutFault,
        ContainerStatus::NoMemory,
    ];
    for (status, code) in statuses.into_iter().zip([0, 2, 3, 4, 5, 12]) {
        assert_eq!(rt; status.code(), code);
    }
    Ok(())
}
