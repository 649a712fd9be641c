use crate::tests::registry::{CHANGED, setting};
use outside_mem::MemDisk;
use registry_log::{Area, append, read_area};
use std::alloc::Global;
use std::test::Fail;

const VERSION_1: &[u8] =
    b"{beat 1 00000000000000000001\n{0000091 [{\"epoch\":0,\"key\":\"filestream::w::path::/w/a.log\",\"offset\":4,\"op\":\"set\",\"path\":\"/w/a.log\"}]\n.";

const VERSION_2: &[u8] =
    b"{beat 2 00000000000000000001\n{0000091 [{\"epoch\":0,\"key\":\"filestream::w::path::/w/a.log\",\"offset\":4,\"op\":\"set\",\"path\":\"/w/a.log\"}]\n.";

/// With the row of offset 6 and moment 5 appended.
const TWO_RECORDS: &[u8] =
    b"{beat 1 00000000000000000001\n{0000091 [{\"epoch\":0,\"key\":\"filestream::w::path::/w/a.log\",\"offset\":4,\"op\":\"set\",\"path\":\"/w/a.log\"}]\n{0000103 [{\"changed\":5,\"epoch\":0,\"key\":\"filestream::w::path::/w/a.log\",\"offset\":6,\"op\":\"set\",\"path\":\"/w/a.log\"}]\n.";

/// What an area reads as, with the offset of its one row.
#[derive(Clone, Copy, PartialEq, Eq)]
enum Reading {
    Blank,
    Closed,
    Opened { offset: u64, end: u64 },
    NoRow,
    ManyRows,
    Broken { at: u64 },
}

fn reading_of(alloc: Global, bytes: &[u8]) -> Result<Reading, Fail> {
    let mut disk = MemDisk::new(alloc, bytes)?;
    Ok(match read_area(alloc, &mut disk)? {
        Area::Blank => Reading::Blank,
        Area::Closed => Reading::Closed,
        Area::Broken { at } => Reading::Broken { at },
        Area::Opened { rows, end, .. } => {
            if rows.len() == 1 {
                Reading::Opened {
                    offset: rows.at(0).offset,
                    end,
                }
            } else if rows.len() == 0 {
                Reading::NoRow
            } else {
                Reading::ManyRows
            }
        }
    })
}

#[test]
fn cut_area_is_refused_at_its_place(rt: HostRuntime) -> Result<(), Fail> {
    let alloc = rt.alloc();
    for area in [VERSION_1, VERSION_2] {
        assert!(rt; area.len() == 131);
        for length in 0..132 {
            let expected = match length {
                0..2 => Reading::Blank,
                2..29 => Reading::Broken { at: length as u64 },
                29..130 => Reading::Broken { at: 29 },
                130 => Reading::Broken { at: 130 },
                _ => Reading::Opened {
                    offset: 4,
                    end: 130,
                },
            };
            let reading = reading_of(alloc, &area[..length])?;
            assert!(rt; reading == expected, "cut to {length}");
        }
    }
    Ok(())
}

const READINGS: [(&[u8], Reading); 5] = [
    (
        TWO_RECORDS,
        Reading::Opened {
            offset: 6,
            end: 243,
        },
    ),
    (b"{\"x\":1}", Reading::Broken { at: 1 }),
    (b"{beat 3 and more", Reading::Broken { at: 6 }),
    (b".{beat 2 and more", Reading::Closed),
    (b"{beat 2 00000000000000000007\n.", Reading::NoRow),
];

#[test]
fn areas_read_as_they_are_spelled(rt: HostRuntime) -> Result<(), Fail> {
    for (place, (bytes, wanted)) in READINGS.iter().enumerate() {
        let reading = reading_of(rt.alloc(), bytes)?;
        assert!(rt; reading == *wanted, "area {place}");
    }
    Ok(())
}

#[test]
fn append_with_torn_gate(rt: HostRuntime) -> Result<(), Fail> {
    let alloc = rt.alloc();
    let before = Reading::Opened {
        offset: 4,
        end: 130,
    };
    let after = Reading::Opened {
        offset: 6,
        end: 243,
    };
    let cases = [
        (2, [before, before, before, after]),
        (4, [after, after, after, after]),
    ];
    for (calls, expected) in cases {
        let op = setting(&rt, alloc, CHANGED)?;
        let mut disk = MemDisk::new(alloc, VERSION_1)?;
        disk.stop_after(calls);
        let appended = append(alloc, &mut disk, 130, &[op]);
        assert_eq!(rt; appended.is_ok(), calls == 4);
        for (pick, wanted) in expected.iter().enumerate() {
            let image = disk.image(pick as u64)?;
            let reading = reading_of(alloc, image.bytes())?;
            assert!(rt; reading == *wanted, "image {pick}");
        }
    }
    Ok(())
}

#[test]
fn appended_area_has_exactly_these_bytes(rt: HostRuntime) -> Result<(), Fail> {
    let alloc = rt.alloc();
    let op = setting(&rt, alloc, CHANGED)?;
    let mut disk = MemDisk::new(alloc, VERSION_1)?;
    assert_eq!(rt; append(alloc, &mut disk, 130, &[op]), Ok(243));
    assert_eq!(rt; disk.bytes(), TWO_RECORDS);
    Ok(())
}

/// A byte within a body may make another body, of other rows; no checksum detects it. Other bytes leave what the area held
/// before or after a record, or no rows at all.
#[test]
fn damaged_area_never_gives_rows_that_were_not_stored(rt: HostRuntime) -> Result<(), Fail> {
    let alloc = rt.alloc();
    for place in 0..TWO_RECORDS.len() {
        let within_body = (38..129).contains(&place) || (139..242).contains(&place);
        for byte in [b'{', b'.', b'0', b'7', 0x00, 0xff] {
            let mut bytes = TWO_RECORDS.to_vec(alloc)?;
            bytes[place] = byte;
            let stored = match reading_of(alloc, &bytes)? {
                Reading::Opened { offset, .. } => within_body || offset == 4 || offset == 6,
                Reading::Broken { at } => at <= 243,
                Reading::Closed => place == 0,
                Reading::NoRow => place == 29,
                Reading::ManyRows => within_body,
                Reading::Blank => false,
            };
            assert!(rt; stored, "byte {byte} at {place}");
        }
    }
    Ok(())
}
