//! What harvesters reported in a run: from what their lanes gave to the account of the run. A run makes scans, of which some may
//! be partial; each file is known from one of them on. Files are known by their paths, by native numbers or by fingerprints.
//! A file may be opened again after its tail was closed; what its tails reported, one by one, is joined in one account. No run
//! scans or opens a file twice yet.
//!
//! The history of each file gives a parcel for each event that is shipped, a settlement for each that a rule dropped, and
//! an announcement for each epoch but the first. A turn of a harvester gives its lane just what its history then has more;
//! so do turns of several, one after another. Nothing is given twice, and what is given has its ground in some event or
//! epoch. What was reported of a file outlives its harvester, and from it and from the looks of its tail its account is made:
//! those by which it was asked for its key come first, and if it lost its key the account keeps the looks before that.
//! While its tail is open, scans may report that it was removed, or by which path it is known since (`Watch`): its end may be found
//! only there or if files are read once, and each event has the path that the file had as the event was reported.
//!
//! A row of the registry that a whole scan hides, as each scan before it, of an input that cleans the rows of removed files,
//! has a slot of its own without a tail (`Hidden`): it begins where the row is, and the scan is why it goes.
//!
//! Of a run as it ends `RunTold` says what was reported of its files, where that went and what the talks of its wires
//! acknowledged; then its account is one of the run, rows over its notes are kept, also those that images hold, and only
//! reported events were sent. With `RunDone` it drained its folder.
//!
//! How a worker fails is kept over each of its turns (`IsFailing`); if it failed as often in a row as it may, as many of the
//! last outcomes of its wire are failures.
//!
//! If a run takes up the row that the run before left, the events of both adjoin, by their accounts
//! (`accounted_runs_adjoin`).
//!
//! Only definitions, a law and lemmas; nothing here runs.
#![tactic(auto)]

mod laws;

pub use laws::accounted_runs_adjoin;
