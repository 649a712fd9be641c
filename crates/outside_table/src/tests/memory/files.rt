use outside::{Failed, Folder, FolderError, Tail};
use outside_mem::{Due, MemChange, MemFile, MemFolder, MemStep};
use std::alloc::Global;
use std::test::Fail;
use wire_base::{Blob, Moment, Text};

/// A file that is there from the second listing on, grows, is renamed, truncated and removed.
fn changing(alloc: Global) -> Result<MemFolder, Fail> {
    let first = Blob::from_bytes(alloc, b"one\n")?;
    let second = Blob::from_bytes(alloc, b"two\n")?;
    let next = Text::from_bytes(alloc, b"/l/deep/b")?;
    let steps = [
        (Due::Listings(1), MemChange::Append(first)),
        (Due::Listings(2), MemChange::Append(second)),
        (Due::TailCalls(3), MemChange::Truncate(1)),
        (Due::Listings(3), MemChange::Rename(next)),
        (Due::Listings(4), MemChange::Remove),
    ];
    let mut made = Vec::new(alloc);
    for (due, change) in steps {
        made.push(MemStep { due, change })?;
    }
    let mut files = Vec::new(alloc);
    files.push(MemFile {
        path: Text::from_bytes(alloc, b"/l/a")?,
        native: Some((7, 9)),
        steps: made,
    })?;
    Ok(MemFolder::new(alloc, files)?)
}

#[test]
fn listing_shows_what_the_steps_made_by_then(rt: HostRuntime) -> Result<(), Fail> {
    let alloc = rt.alloc();
    let root = Text::from_bytes(alloc, b"/l")?;
    let mut folder = changing(alloc)?;
    folder.changed(&Text::from_bytes(alloc, b"/l/a")?, Moment(8))?;
    let listings: [Option<(u64, u64)>; 3] = [None, Some((4, 8)), Some((8, 8))];
    for shown in listings {
        let entries = folder.list(alloc, &root, 1)?;
        let first = entries.first().map(|entry| (entry.size, entry.changed.0));
        assert_eq!(rt; first, shown);
    }
    assert_eq!(rt; folder.starved(), 0);
    Ok(())
}

#[test]
fn tail_reads_what_the_steps_made(rt: HostRuntime) -> Result<(), Fail> {
    let alloc = rt.alloc();
    let root = Text::from_bytes(alloc, b"/l")?;
    let path = Text::from_bytes(alloc, b"/l/a")?;
    let mut folder = changing(alloc)?;
    folder.fail_at(&[0, 3])?;
    folder.fail_tail_at(&path, &[1])?;
    assert_eq!(rt;
        folder.list(alloc, &root, 1).err(),
        Some(FolderError::Failed)
    );
    assert!(rt; folder.open(alloc, &root)?.is_none());
    let listed = folder.list(alloc, &root, 1)?.len();
    let unopened = folder.open(alloc, &path).err();
    let Some(mut tail) = folder.open(alloc, &path)? else {
        assert!(rt; false, "no file has the path");
        return Ok(());
    };
    let mut into = [0; 3];
    let native = tail.native();
    let looks = [tail.length(), tail.length()];
    let read = tail.read_at(5, &mut into);
    let truncated = tail.length();
    folder.close(tail);
    assert_eq!(rt; (listed, unopened), (1, Some(FolderError::Failed)));
    assert_eq!(rt; native, Some((7, 9)));
    assert_eq!(rt; looks, [Ok(8), Err(Failed)]);
    assert_eq!(rt; (read, into), (Ok(3), *b"wo\n"));
    assert_eq!(rt; truncated, Ok(1));
    Ok(())
}
