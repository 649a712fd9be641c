use crate::tests::parts::DEFAULT_LIMIT;
use event_tree::{LineRule, Terminator};
use line_cutter::{Cutter, Line};
use std::alloc::Global;
use std::test::Fail;
use wire_base::NoMemory;

/// So many bytes `x`.
fn crosses(alloc: Global, count: usize) -> Result<Vec<u8>, NoMemory> {
    Ok(vec![in alloc; b'x'; count]?)
}

/// A line of 10,485,761 bytes `x`, of which its head has all but one.
fn is_longest(line: &Line) -> bool {
    let head = line.head.bytes();
    line.span.start() == 0
        && line.span.end() == 10_485_762
        && line.full == 10_485_761
        && head.len() == 10_485_760
        && head.iter().all(|byte| *byte == b'x')
}

#[test]
fn longest_head(rt: HostRuntime) -> Result<(), Fail> {
    let rule = LineRule {
        terminator: Terminator::Auto,
        message_max_bytes: DEFAULT_LIMIT,
    };
    let mut cutter = Cutter::new(rt.alloc(), rule, 0);
    let text = crosses(rt.alloc(), 10_485_761)?;
    assert!(rt; text.len() == 10_485_761);
    cutter.feed(&text)?;
    assert!(rt; cutter.next_line()?.is_none());
    cutter.feed(b"\n")?;
    let line = cutter.next_line()?.ok_or("no line")?;
    assert!(rt; is_longest(&line));
    Ok(())
}
