use outside::{Bell, Clock, Disk, Failed, Sink, Source};
use outside_mem::{MemBell, MemClock, MemDisk, MemSink, MemSource};
use std::test::Fail;
use wire_base::{MAX_MOMENT, Moment};

#[test]
fn source_gives_its_bytes_up_to_the_end(rt: HostRuntime) -> Result<(), Fail> {
    let mut source = MemSource::new(rt.alloc(), b"abcde")?;
    source.fail_at(&[1])?;
    let mut into = [0; 3];
    for counted in [Ok(3), Err(Failed), Ok(2), Ok(0)] {
        assert_eq!(rt; source.read(&mut into), counted);
    }
    assert_eq!(rt; into, *b"dec");
    assert_eq!(rt; source.starved(), 0);
    Ok(())
}

#[test]
fn sink_keeps_what_is_written(rt: HostRuntime) -> Result<(), Fail> {
    let mut sink = MemSink::new(rt.alloc())?;
    sink.fail_at(&[1])?;
    for written in [Ok(2), Err(Failed), Ok(2)] {
        assert_eq!(rt; sink.write(b"ab"), written);
    }
    assert_eq!(rt; sink.bytes(), b"abab".as_slice());
    assert_eq!(rt; sink.starved(), 0);
    Ok(())
}

#[test]
fn clock_moves_by_pauses_and_bell_rings_after_questions(rt: HostRuntime) -> Result<(), Fail> {
    let mut clock = MemClock::new(rt.alloc(), Moment(5))?;
    let mut bell = MemBell::new(rt.alloc(), 2)?;
    let turns = [
        (0, 5, false),
        (10, 15, false),
        (0, 15, true),
        (u64::MAX, MAX_MOMENT, true),
    ];
    for (pause, moment, rings) in turns {
        clock.pause(pause);
        assert_eq!(rt; (clock.now().0, bell.asked()), (moment, rings));
    }
    assert_eq!(rt; clock.starved(), 0);
    Ok(())
}

#[test]
fn crash_leaves_what_the_pick_says(rt: HostRuntime) -> Result<(), Fail> {
    let mut disk = MemDisk::new(rt.alloc(), b"ab")?;
    disk.write_at(1, b"XY")?;
    disk.cut(2)?;
    let images: [&[u8]; 5] = [b"aX", b"ab\0", b"a77", b"a{{", b"aX"];
    for (pick, image) in images.iter().enumerate() {
        assert_eq!(rt; disk.image(pick as u64)?.bytes(), *image, "at pick {pick}");
    }
    disk.sync()?;
    assert_eq!(rt; disk.image(2)?.bytes(), b"aX".as_slice());
    Ok(())
}

#[test]
fn disk_fails_where_a_list_names_the_call_and_once_it_stops(rt: HostRuntime) -> Result<(), Fail> {
    let mut disk = MemDisk::new(rt.alloc(), b"ab")?;
    disk.fail_at(&[1])?;
    disk.stop_after(3);
    assert_eq!(rt; disk.len(), Ok(2));
    assert_eq!(rt; disk.write_at(0, b"X"), Err(Failed));
    assert_eq!(rt; disk.read(1, &mut [0; 4]), Ok(1));
    assert_eq!(rt; disk.sync(), Err(Failed));
    assert_eq!(rt; disk.image(2)?.bytes(), b"7b".as_slice());
    assert_eq!(rt; disk.starved(), 0);
    Ok(())
}
