ghost use Rattle.std.specs.Prelude.{◌≡◌, ◌+◌, ◌-◌, ◌^◌, ◌<◌, ◌≤◌, ℕ, true, List, [], ◌∷◌, ◌++◌, Some, length, take, OnOk, OnErr, IfOk, IfSome, IfNone};
ghost use Rattle.std.specs.Option.{option_to_list};
ghost use Rattle.event_tree.specs.declared.line_rule.LineRule.{LineRule};
ghost use Rattle.wire_base.specs.Ranges.{IsPlace};
ghost use Rattle.memchr.specs.Find.{IsFirst};
ghost use Rattle.line_cutter.specs.declared.line.Line.{Line};
ghost use Rattle.line_cutter.specs.Lines.{IsMessageLimit, complete_lines};

use crate::end::{leaves_return, line_end, return_before};
use crate::line::Line;
use event_tree::LineRule;
use std::alloc::Global;
use std::marker::Model;
use std::mem;
use wire_base::{Blob, NoMemory, Span};

/// Cuts bytes that come in pieces into complete lines. It holds the head of a line that is not complete, and the bytes
/// that were fed and not passed yet.
#[derive(Drop)]
pub struct Cutter {
    alloc: Global,
    rule: LineRule,
    start: u64,
    head: Vec<u8>,
    passed: u64,
    after_return: bool,
    fed: Vec<u8>,
    read: usize,
}

impl Model for Cutter {
    ghost use Rattle.std.specs.Prelude.{◌≡◌, ◌+◌, ◌-◌, ◌<◌, ◌≤◌, true, drop, vec_len};
    ghost use Rattle.wire_base.specs.Ranges.{IsPlace};
    ghost use Rattle.line_cutter.specs.Cutting.{Cutting};
    ghost use Rattle.line_cutter.specs.Lines.{IsMessageLimit};

    ghost Value = { Cutting };

    ghost view = { λ c. record {
      rule = c.rule;
      start = c.start;
      head = c.head.items;
      passed = c.passed;
      after_return = c.after_return;
      unread = drop c.read c.fed.items;
    } };

    ghost invariant = { λ c. (c.read ≤ vec_len c.fed) × IsMessageLimit c.rule.message_max_bytes
        × (vec_len c.head ≤ c.rule.message_max_bytes) × IsPlace (c.start + c.passed + (vec_len c.fed - c.read))
        × (c.after_return ≡ true → 0 < c.passed) };
}

impl Cutter {
    ghost use Rattle.line_cutter.specs.Cutting.{HasCut, fed_to};
    ghost use Rattle.line_cutter.specs.Ends.{is_end, line_to, behind_line, behind_all};

    /// `start` is the place of the first byte that will be fed.
    pub fn new(alloc: Global, rule: LineRule, start: u64) -> Cutter
        requires limit { IsMessageLimit rule.message_max_bytes }
        requires place { IsPlace start }
        ensures made { HasCut rule start [] [] result }
        ensures place { fed_to result ≡ start }
    {
        Cutter {
            alloc,
            rule,
            start,
            head: Vec::new(alloc),
            passed: 0,
            after_return: false,
            fed: Vec::new(alloc),
            read: 0,
        }
    }

    /// Takes a piece, of any length, that follows all that was fed before.
    pub fn feed(&mut self, piece: &[u8]) -> Result<(), NoMemory>
        requires { IsPlace (fed_to self.old + length piece.now) }
        ensures fed { OnOk result ((rule : LineRule) (start : ℕ) (fed : List ℕ) (given : List Line) →
            HasCut rule start fed given self.old → HasCut rule start (fed ++ piece.now) given self.new) }
        ensures place { OnOk result (fed_to self.new ≡ fed_to self.old + length piece.now) }
        ensures unchanged_on_refusal { OnErr result (self.new ≡ self.old) }
    {
        self.fed.extend_from_slice(piece)?;
        Ok(())
    }

    /// Hands out the next complete line of all that was fed, or none if there is no other yet.
    pub fn next_line(&mut self) -> Result<Option<Line>, NoMemory>
        ensures handed_out { IfOk result (λ found. (rule : LineRule) (start : ℕ) (fed : List ℕ) (given : List Line) →
            HasCut rule start fed given self.old → HasCut rule start fed (given ++ option_to_list found) self.new) }
        ensures in_order { IfOk result (λ found. (rule : LineRule) (start : ℕ) (fed : List ℕ) (given : List Line) →
            HasCut rule start fed given self.old →
            IfSome found (λ line. (more : List Line) × (complete_lines rule start fed ≡ given ++ line ∷ more))) }
        ensures none_where_all_were_handed_out { IfOk result (λ found.
            (rule : LineRule) (start : ℕ) (fed : List ℕ) (given : List Line) →
            HasCut rule start fed given self.old → IfNone found (complete_lines rule start fed ≡ given)) }
        ensures goes_to_its_end { IfOk result (λ found. IfSome found (λ line.
            (line.span.start ≡ self.old.start) × (line.span.end ≡ self.new.start))) }
        ensures stays_where_none { IfOk result (λ found. IfNone found (self.new.start ≡ self.old.start)) }
        ensures none_holds_a_head_alone { IfOk result (λ found. IfNone found (self.new.unread ≡ [])) }
        ensures place { fed_to self.new ≡ fed_to self.old }
        ensures unchanged_on_refusal { OnErr result (self.new ≡ self.old) }
    {
        match self.unread_end() {
            Some(at) => Ok(Some(self.take_line(at)?)),
            None => {
                self.pass_all()?;
                Ok(None)
            }
        }
    }

    /// The place among the unread bytes at which the present line's terminator ends.
    fn unread_end(&self) -> Option<usize>
        ensures { IsFirst (λ place. is_end self.now.rule.terminator self.now.after_return self.now.unread place ≡ true)
            0 (length self.now.unread) result }
    {
        line_end(
            self.rule.terminator,
            &self.fed[self.read..],
            self.after_return,
        )
    }

    /// The line whose terminator ends at this place of the unread bytes.
    fn take_line(&mut self, at: usize) -> Result<Line, NoMemory>
        requires { at < length self.old.unread }
        ensures line { IfOk result (λ line. line ≡ line_to self.old at) }
        ensures behind { OnOk result (self.new ≡ behind_line self.old at) }
        ensures unchanged_on_refusal { OnErr result (self.new ≡ self.old) }
    {
        let unread = &self.fed[self.read..];
        let passed = self.passed + at as u64;
        let full = if leaves_return(self.rule.terminator)
            && return_before(unread, at, self.after_return)
        {
            passed - 1
        } else {
            passed
        };
        let Some(span) = Span::new(self.start, self.start + passed + 1) else {
            unreachable!()
        };
        extend_head(
            &mut self.head,
            self.rule.message_max_bytes as usize,
            &unread[..at],
        )?;
        self.head.truncate(full as usize);
        let head = mem::replace(&mut self.head, Vec::new(self.alloc));
        self.start += passed + 1;
        self.passed = 0;
        self.after_return = false;
        self.read += at + 1;
        Ok(Line {
            span,
            head: Blob::from_vec(head),
            full,
        })
    }

    /// Passes all unread bytes; no terminator ends in them.
    fn pass_all(&mut self) -> Result<(), NoMemory>
        ensures behind { OnOk result (self.new ≡ behind_all self.old) }
        ensures unchanged_on_refusal { OnErr result (self.new ≡ self.old) }
    {
        let unread = &self.fed[self.read..];
        extend_head(&mut self.head, self.rule.message_max_bytes as usize, unread)?;
        self.after_return = return_before(unread, unread.len(), self.after_return);
        self.passed += unread.len() as u64;
        self.fed = Vec::new(self.alloc);
        self.read = 0;
        Ok(())
    }
}

/// Puts as many of the bytes after the head as leave it no longer than `most`.
fn extend_head(head: &mut Vec<u8>, most: usize, bytes: &[u8]) -> Result<(), NoMemory>
    requires { length head.old.items ≤ most }
    ensures longer { OnOk result (head.new.items ≡ head.old.items ++ take (most - length head.old.items) bytes.now) }
    ensures unchanged_on_refusal { OnErr result (head.new.items ≡ head.old.items) }
{
    let room = most - head.len();
    head.extend_from_slice(&bytes[..room.min(bytes.len())])?;
    Ok(())
}
