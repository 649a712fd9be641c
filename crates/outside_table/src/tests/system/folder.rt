use super::fresh_path;
use outside::{Folder, Tail};
use outside_real::DirFolder;
use std::os::unix::fs as unix;
use std::rt::Files;
use std::test::Fail;
use std::{fs, io, process};
use wire_base::{Moment, Text};

/// A file of two bytes, a link to it, and an empty file one folder deeper.
fn make_tree(rt: &(impl Files + AllocGlobal), root: &str) -> io::Result<()> {
    let alloc = rt.alloc();
    fs::create_dir_all(rt, format!(in alloc; "{root}/deep")?)?;
    fs::write(rt, format!(in alloc; "{root}/a.log")?, "ab")?;
    unix::symlink(rt, "a.log", format!(in alloc; "{root}/link.log")?)?;
    fs::write(rt, format!(in alloc; "{root}/deep/b.log")?, "")
}

#[test]
fn folder_lists_regular_files_by_depth(rt: HostRuntime) -> Result<(), Fail> {
    let alloc = rt.alloc();
    let root = Text::from_string(fresh_path(&rt, "listing", process::id(rt.process()))?);
    make_tree(&rt, root.as_str())?;
    let mut folder = DirFolder::new(&rt);
    let none = folder.list(alloc, &root, 0)?.len();
    let both = folder.list(alloc, &root, 2)?.len();
    let mut listed = folder.list(alloc, &root, 1)?;
    let no_file = folder.open(alloc, &root)?;
    fs::remove_dir_all(&rt, root.as_str())?;
    assert_eq!(rt; (none, listed.len(), both), (0, 1, 2));
    assert!(rt; no_file.is_none());
    let Some(entry) = listed.pop() else {
        return Err(Fail::new("nothing is listed"));
    };
    assert!(rt; entry.path.as_str().ends_with("/a.log"));
    assert_eq!(rt; (entry.size, entry.native.is_some()), (2, true));
    assert!(rt; Moment(0) < entry.changed);
    Ok(())
}

#[test]
fn tail_reads_at_places_and_sees_later_bytes(rt: HostRuntime) -> Result<(), Fail> {
    let path = Text::from_string(fresh_path(&rt, "tail", process::id(rt.process()))?);
    let mut folder = DirFolder::new(&rt);
    let absent = folder.open(rt.alloc(), &path)?;
    fs::write(&rt, path.as_str(), "ab")?;
    let Some(mut tail) = folder.open(rt.alloc(), &path)? else {
        return Err(Fail::new("nothing is opened"));
    };
    let mut into = [0; 4];
    let before = (tail.length()?, tail.read_at(1, &mut into)?);
    fs::write(&rt, path.as_str(), "abcd")?;
    let after = (tail.length()?, tail.read_at(1, &mut into)?);
    fs::remove_file(&rt, path.as_str())?;
    assert!(rt; absent.is_none());
    assert!(rt; tail.native().is_some());
    assert_eq!(rt; (before, after), ((2, 1), (4, 3)));
    assert_eq!(rt; into, *b"bcd\0");
    folder.close(tail);
    Ok(())
}
