//! The receiver: takes the frames of Lumberjack v2 from links, writes one line for each event, and acknowledges what it
//! has written.
//!
//! `serve` serves one link, `receive` as many as the arguments ask for, one after the other, and `sink_places` says
//! where the program listens and writes. What is received, written and answered of any bytes are definitions of
//! `specs/`, over whole lists; the receiver's promise is stated in them, whatever becomes of link and sink: no byte of an
//! acknowledgement goes out before all lines up to its frame are in the sink.
//!
//! Small lines are written together. A frame is held until it is whole, so memory is that of the longest frame of a link,
//! in a buffer that begins with 64 KiB and doubles, and 70 KiB for lines and acknowledgements; no clause says so. No file
//! and no socket is touched here: `Port` is where peers come from, and `MemPort` meets it in memory, with all known.
#![tactic(auto)]

mod incoming;
mod laws;
mod mem_link;
mod mem_port;
mod places;
mod port;
mod reading;
mod receiving;
mod served;
mod serving;
mod session;
mod status;
mod transfer;
mod visit_chain;
mod visit_history;
mod words;

pub use laws::received_in_one_way;
pub use mem_link::{MemVisit, VisitLink};
pub use mem_port::MemPort;
pub use places::SinkPlaces;
pub use port::{Accept, Port};
pub use receiving::receive;
pub use served::Served;
pub use serving::serve;
pub use status::SinkStatus;
pub use words::{is_command, sink_places};
