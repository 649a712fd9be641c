use crate::tests::moved;
use outside_real::{
    DirFolder, FileBell, FileDisk, FileSource, FileTail, StdSink, SystemClock, TcpLink, TcpWire,
};

/// Every object may be moved to another thread if its handle may.
fn objects_move_between_threads<R: Send>(
    streams: (&FileSource<R>, &StdSink<R>),
    marks: (&SystemClock<R>, &FileBell<R>),
    files: (&DirFolder<R>, &FileTail, &FileDisk<R>),
    peers: (&TcpWire<R>, &TcpLink),
) {
    moved(streams.0);
    moved(streams.1);
    moved(marks.0);
    moved(marks.1);
    moved(files.0);
    moved(files.1);
    moved(files.2);
    moved(peers.0);
    moved(peers.1);
}
