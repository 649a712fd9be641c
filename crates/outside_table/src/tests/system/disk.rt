use super::fresh_path;
use outside::{Disk, Failed};
use outside_real::FileDisk;
use std::test::Fail;
use std::{fs, process};
use wire_base::{MAX_PLACE, Text};

#[test]
fn disk_makes_and_locks_its_file_and_is_found_again(rt: HostRuntime) -> Result<(), Fail> {
    let alloc = rt.alloc();
    let root = fresh_path(&rt, "disk", process::id(rt.process()))?;
    let path = Text::from_string(format!(in alloc; "{root}/deep/registry.a")?);
    let mut into = [1; 5];
    let mut disk = FileDisk::new(&rt, path.copy(alloc)?);
    let fresh = (disk.len()?, disk.read(0, &mut into)?);
    let locked = FileDisk::new(&rt, path.copy(alloc)?).len();
    let too_far = disk.write_at(MAX_PLACE, b"x");
    disk.write_at(2, b"cd")?;
    disk.cut(9)?;
    let written = disk.read(0, &mut into)?;
    disk.cut(3)?;
    disk.sync()?;
    drop(disk);
    let again = FileDisk::new(&rt, path).len()?;
    fs::remove_dir_all(&rt, root)?;
    assert_eq!(rt; (fresh, written, again), ((0, 0), 4, 3));
    assert_eq!(rt; [locked.err(), too_far.err()], [Some(Failed), Some(Failed)]);
    assert_eq!(rt; into, *b"\0\0cd\x01");
    Ok(())
}
