ghost use Rattle.std.specs.Prelude.{All, IfOk};
ghost use Rattle.wire_base.specs.Ranges.{IsOp};

use crate::tests::registry::{AT_6, begun, long_key, setting};
use outside_mem::MemDisk;
use registry_store::{Pick, PickError, Store, StoreError, checkpoint, few_by_length, pick};
use ship_core::Rows;
use std::alloc::Global;
use std::process::Abort;
use std::test::Fail;
use wire_base::{Op, Which};

const FIRST: &[u8] =
    b"{beat 2 00000000000000000001\n{0000091 [{\"epoch\":0,\"key\":\"filestream::w::path::/w/a.log\",\"offset\":4,\"op\":\"set\",\"path\":\"/w/a.log\"}]\n.";

const LATER: &[u8] =
    b"{beat 2 00000000000000000001\n{0000091 [{\"epoch\":0,\"key\":\"filestream::w::path::/w/a.log\",\"offset\":6,\"op\":\"set\",\"path\":\"/w/a.log\"}]\n.";

/// All that a checkpoint of generation 2 writes, but for the opening of its first gate.
const ABANDONED: &[u8] =
    b".beat 2 00000000000000000002\n{0000091 [{\"epoch\":0,\"key\":\"filestream::w::path::/w/a.log\",\"offset\":4,\"op\":\"set\",\"path\":\"/w/a.log\"}]\n.";

/// What is after the gate of a record with the offset 6.
const RECORD: &[u8] =
    b"0000091 [{\"epoch\":0,\"key\":\"filestream::w::path::/w/a.log\",\"offset\":6,\"op\":\"set\",\"path\":\"/w/a.log\"}]\n.";

const NO_AREA: &[u8] = b"{\"x\":1}";

/// A store with its areas.
#[derive(Drop)]
struct Stored {
    store: Store,
    a: MemDisk,
    b: MemDisk,
}

impl Stored {
    /// Opened over a first area of these bytes and an empty second one.
    fn over(alloc: Global, bytes: &[u8]) -> Result<Stored, Fail> {
        let mut a = MemDisk::new(alloc, bytes)?;
        let mut b = MemDisk::new(alloc, b"")?;
        let store = Store::open(alloc, &mut a, &mut b)?;
        Ok(Stored { store, a, b })
    }

    fn commit(&mut self, rt: &impl Abort, alloc: Global, ops: &[Op]) -> Result<(), StoreError>
        requires { All IsOp ops.now }
    {
        few_by_length();
        let rows = self.store.rows().len();
        assert!(rt; rows <= 1_000 && ops.len() <= 1_000);
        self.store.commit(alloc, &mut self.a, &mut self.b, ops)
    }

    fn lengths(&self) -> (usize, usize) {
        (self.a.bytes().len(), self.b.bytes().len())
    }
}

/// The offset of the one row that two areas choose; 0 if there is none.
fn offset_of(alloc: Global, a: &[u8], b: &[u8]) -> Result<u64, StoreError> {
    let mut a = MemDisk::new(alloc, a)?;
    let mut b = MemDisk::new(alloc, b)?;
    let store = Store::open(alloc, &mut a, &mut b)?;
    let rows = store.rows();
    Ok(if rows.len() == 1 {
        rows.at(0).offset
    } else {
        0
    })
}

#[test]
fn both_areas_broken(rt: HostRuntime) -> Result<(), Fail> {
    let alloc = rt.alloc();
    let bad = |area, at| Err(StoreError::Bad { area, at });
    let cases: [(&[u8], &[u8], Result<u64, StoreError>); 8] = [
        (NO_AREA, NO_AREA, bad(Which::A, 1)),
        (FIRST, NO_AREA, Ok(4)),
        (NO_AREA, FIRST, Ok(4)),
        (FIRST, LATER, Ok(4)),
        (ABANDONED, NO_AREA, bad(Which::B, 1)),
        (b"", ABANDONED, bad(Which::B, 0)),
        (ABANDONED, b"{", Ok(0)),
        (b"", b"", Ok(0)),
    ];
    for (i, (a, b, opened)) in cases.iter().enumerate() {
        assert_eq!(rt; offset_of(alloc, a, b), *opened, "case {i}");
    }
    Ok(())
}

#[test]
fn abandoned_checkpoint_is_never_chosen(rt: HostRuntime) -> Result<(), Fail> {
    let alloc = rt.alloc();
    let mut rows = Rows::new(alloc);
    rows.apply(alloc, setting(&rt, alloc, AT_6)?)?;
    assert!(rt; rows.len() == 1);
    for calls in 0..9 {
        let mut b = MemDisk::new(alloc, ABANDONED)?;
        b.stop_after(calls);
        let gate = checkpoint(alloc, &mut b, 2, &rows);
        assert_eq!(rt; gate.is_ok(), calls == 8, "after {calls} calls");
        for pick in 0..4 {
            let image = b.image(pick)?;
            let offset = offset_of(alloc, LATER, image.bytes());
            assert_eq!(rt; offset, Ok(6), "image {pick} after {calls} calls");
        }
    }
    Ok(())
}

/// What an empty commit, one of the offset 6 and another empty one come to if the disk of the first area stops after so
/// many calls, and the image that has the bytes of the last sync.
fn commits_over(
    rt: &impl Abort,
    alloc: Global,
    calls: u64,
) -> Result<([Result<(), StoreError>; 3], MemDisk), Fail> {
    let mut stored = Stored::over(alloc, FIRST)?;
    stored.a = MemDisk::new(alloc, FIRST)?;
    stored.a.stop_after(calls);
    stored.b.stop_after(0);
    let ops = [setting(rt, alloc, AT_6)?];
    let empty = stored.commit(rt, alloc, &[]);
    let first = stored.commit(rt, alloc, &ops);
    let again = stored.commit(rt, alloc, &[]);
    Ok(([empty, first, again], stored.a.image(1)?))
}

/// After so many calls: whether the record is synced, and what the area is opened with.
const LEFTS: [(u64, bool, u64); 5] = [
    (0, false, 4),
    (1, false, 4),
    (2, true, 4),
    (3, true, 4),
    (4, true, 6),
];

#[test]
fn commit_is_two_writes_and_two_syncs(rt: HostRuntime) -> Result<(), Fail> {
    let alloc = rt.alloc();
    for (calls, recorded, offset) in &LEFTS {
        let (answers, image) = commits_over(&rt, alloc, *calls)?;
        let wanted = if *calls == 4 {
            [Ok(()), Ok(()), Ok(())]
        } else {
            [Ok(()), Err(StoreError::DiskFault), Err(StoreError::Closed)]
        };
        assert_eq!(rt; answers, wanted, "after {calls} calls");
        assert_eq!(rt;
            image.bytes().ends_with(RECORD),
            *recorded,
            "after {calls} calls"
        );
        let found = offset_of(alloc, image.bytes(), b"");
        assert_eq!(rt; found, Ok(*offset), "after {calls} calls");
    }
    Ok(())
}

/// Operations whose body has 1,048,566 bytes, so that their record has 1,048,576.
fn full_record(rt: &impl Abort, alloc: Global) -> Result<Vec<Op>, Fail>
    ensures { IfOk result (λ ops. All IsOp ops.items) }
{
    let mut ops = Vec::new(alloc);
    for first in b'a'..b'v' {
        let key = long_key(alloc, first, 8_191, 0)?;
        ops.push(setting(rt, alloc, begun(&key))?)?;
    }
    let key = long_key(alloc, b'z', 2_000, 3_267)?;
    ops.push(setting(rt, alloc, begun(&key))?)?;
    Ok(ops)
}

/// The area that is chosen, its generation and how many rows it has.
fn chosen_of(
    alloc: Global,
    a: &mut MemDisk,
    b: &mut MemDisk,
) -> Result<Option<(Which, u64, usize)>, PickError> {
    match pick(alloc, a, b)? {
        Pick::Chosen {
            area,
            generation,
            rows,
            ..
        } => Ok(Some((area, generation, rows.len()))),
        Pick::Fresh => Ok(None),
    }
}

/// Ten records of 1,048,576 bytes make the part after the start exactly as long as it may be; the next commit still appends,
/// and the one after it starts B.
#[test]
fn checkpoint_behind_ten_full_records(rt: HostRuntime) -> Result<(), Fail> {
    let alloc = rt.alloc();
    let mut stored = Stored::over(alloc, b"")?;
    let full = full_record(&rt, alloc)?;
    for _ in 0..10 {
        stored.commit(&rt, alloc, &full)?;
    }
    assert_eq!(rt; stored.lengths(), (10_485_790, 0));
    let ops = [setting(&rt, alloc, AT_6)?];
    stored.commit(&rt, alloc, &ops)?;
    assert_eq!(rt; stored.lengths(), (10_485_891, 0));
    stored.commit(&rt, alloc, &ops)?;
    assert_eq!(rt; stored.lengths().0, 10_485_891);
    assert!(rt;
        stored
            .b
            .bytes()
            .starts_with(b"{beat 2 00000000000000000002\n")
    );
    let chosen = chosen_of(alloc, &mut stored.a, &mut stored.b)?;
    assert_eq!(rt; chosen, Some((Which::B, 2, 23)));
    Ok(())
}
