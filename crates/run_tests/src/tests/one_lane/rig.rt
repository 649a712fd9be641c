//! A queue and a box, and what a lane puts and posts there.
ghost use Rattle.std.specs.Prelude.{◌≡◌, ◌<◌, IfOk};
ghost use Rattle.lanes.specs.Laning.{laning};
ghost use Rattle.run_tests.specs.Ready.{IsReady};

use lanes::{Lane, Outlets, When};
use mem_queue::{EventQueue, PutPass, TakePass};
use outside::Tail;
use settle_box::{CollectPass, PostPass, SettleBox};
use std::alloc::Global;
use std::sync::Wait;
use wire_base::{Cause, Moment, NoMemory, Note, Parcel};

/// No queue and no box is asked more often until it is empty.
const MOST: u32 = 64;

#[derive(Drop)]
pub struct Rig {
    queue: EventQueue,
    take: TakePass,
    desk: SettleBox,
    collect: CollectPass,
    ghost takes: { take.queue ≡ queue.id },
    ghost collects: { collect.desk ≡ desk.id },
}

/// Writes a note.
fn write_note(alloc: Global, note: &Note, written: &mut Vec<u8>) -> Result<(), NoMemory> {
    let text = match note {
        Note::Settle {
            slot,
            span,
            cause,
            ..
        } => match cause {
            Cause::Dropped(rule) => {
                format!(in alloc;
                    "{}:{}-{} rule {};",
                    slot.0,
                    span.start(),
                    span.end(),
                    rule.0
                )?
            }
            Cause::Acked => String::from_str(alloc, "acked;")?,
        },
        Note::Forget { slot, end, .. } => format!(in alloc; "{}:forget {end};", slot.0)?,
        _ => String::from_str(alloc, "other;")?,
    };
    written.extend_from_slice(text.as_bytes())?;
    Ok(())
}

fn write_parcel(alloc: Global, parcel: &Parcel, written: &mut Vec<u8>) -> Result<(), NoMemory> {
    let (start, end) = (parcel.span.start(), parcel.span.end());
    let text = format!(in alloc; "{}:{start}-{end};", parcel.slot.0)?;
    written.extend_from_slice(text.as_bytes())?;
    Ok(())
}

impl Rig {
    /// A queue and a box of so many places, and a lane's passes.
    pub fn new(
        alloc: Global,
        parcels: u32,
        notes: u32,
    ) -> Result<(Rig, PutPass, PostPass), NoMemory>
        requires { (0 < parcels) × (0 < notes) }
        ensures { IfOk result (λ made. (made.1.queue ≡ made.0.queue.id) × (made.2.desk ≡ made.0.desk.id)) }
    {
        let (queue, put, take) = EventQueue::new(alloc, parcels)?;
        let (desk, post, collect) = SettleBox::new(alloc, notes)?;
        Ok((
            Rig {
                queue,
                take,
                desk,
                collect,
            },
            put,
            post,
        ))
    }

    /// One round, which may find the files' ends.
    pub fn run<T: Tail, R: Wait>(&self, rt: &R, alloc: Global, lane: &mut Lane<T>)
        requires { IsReady T.numbers T.told self.now.queue.id self.now.desk.id (laning lane.old) }
        ensures { IsReady T.numbers T.told self.now.queue.id self.now.desk.id (laning lane.new) }
    {
        let outlets = Outlets {
            queue: &self.queue,
            desk: &self.desk,
        };
        let when = When {
            now: Moment(1_000),
            last: true,
        };
        lane.run(rt, alloc, outlets, when);
    }

    // Writes the queue's first parcel, and takes it out; whether there was one.
    fn write_parcel<R: Wait>(
        &mut self,
        rt: &R,
        alloc: Global,
        written: &mut Vec<u8>,
    ) -> Result<bool, NoMemory>
        ensures queue { self.new.queue ≡ self.old.queue }
        ensures desk { self.new.desk ≡ self.old.desk }
    {
        match self.queue.take(rt, &mut self.take) {
            Some(parcel) => {
                write_parcel(alloc, &parcel, written)?;
                Ok(true)
            }
            None => Ok(false),
        }
    }

    // Writes the box's first note, and takes it out; whether there was one.
    fn write_note<R: Wait>(
        &mut self,
        rt: &R,
        alloc: Global,
        written: &mut Vec<u8>,
    ) -> Result<bool, NoMemory>
        ensures queue { self.new.queue ≡ self.old.queue }
        ensures desk { self.new.desk ≡ self.old.desk }
    {
        match self.desk.collect(rt, &mut self.collect) {
            Some(note) => {
                write_note(alloc, &note, written)?;
                Ok(true)
            }
            None => Ok(false),
        }
    }

    /// Writes what the queue holds, and empties it.
    pub fn drain_queue<R: Wait>(
        &mut self,
        rt: &R,
        alloc: Global,
        written: &mut Vec<u8>,
    ) -> Result<(), NoMemory>
        ensures queue { self.new.queue ≡ self.old.queue }
        ensures desk { self.new.desk ≡ self.old.desk }
    {
        'parcels: for _i in 0..MOST {
            if !self.write_parcel(rt, alloc, written)? {
                return Ok(());
            }
        }
        Ok(())
    }

    /// Writes what the box holds, and empties it.
    pub fn drain_box<R: Wait>(
        &mut self,
        rt: &R,
        alloc: Global,
        written: &mut Vec<u8>,
    ) -> Result<(), NoMemory>
        ensures queue { self.new.queue ≡ self.old.queue }
        ensures desk { self.new.desk ≡ self.old.desk }
    {
        'notes: for _i in 0..MOST {
            if !self.write_note(rt, alloc, written)? {
                return Ok(());
            }
        }
        Ok(())
    }
}
