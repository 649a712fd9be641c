ghost use Rattle.kept_rows.specs.Run.{Run, Scan};
ghost use Rattle.kept_rows.specs.Scans.{IsWhole};
ghost use Rattle.told_scans.specs.Exact.{ShowsExactly};
ghost use Rattle.told_scans.specs.Partial.{IsPartial};
ghost use Rattle.told_scans.specs.ToldScan.{IsAround, IsTold, IsToldWithFault, IsToldWithoutFault, RunAround, ToldScan, run_around, scan_by};
ghost use Rattle.told_scans.specs.ToldScans.{AreExactScans, AreToldIn, MayGoOn, ToldRun};

/// A scan that listed for each glob and asked each file, as its calls report it, without a fault is a whole scan of each run around it. A law;
/// it computes nothing.
pub fn told_scans_are_whole()
    ensures { (told : ToldScan) (around : RunAround) → IsToldWithoutFault told →
        IsAround told around → IsWhole (run_around told around) (scan_by told) }
{}

/// A scan of which some listing failed, as its calls report it, or some asking, is a partial scan of each run around it. A law; it
/// computes nothing.
pub fn told_faults_make_scans_partial()
    ensures { (told : ToldScan) (around : RunAround) → IsToldWithFault told →
        IsAround told around → IsPartial (run_around told around) (scan_by told) }
{}

/// A scan of which a listing failed, or the opening or reading of a file that was asked for its key, is no whole scan. A law;
/// it computes nothing.
pub fn partial_scans_are_never_whole()
    ensures { (run : Run) (scan : Scan) → IsPartial run scan → ¬ (IsWhole run scan) }
{}

/// A scan shows the files that it gives with their keys, paths, sizes and moments, and no other key, also if a listing or an asking of it
/// failed. A law; it computes nothing.
pub fn told_scans_show_what_was_listed()
    ensures { (told : ToldScan) (around : RunAround) → IsTold told → IsAround told around →
        ShowsExactly (run_around told around) (scan_by told) told.files }
{}

/// Of a run whose scans came one after another, each as reported, all listings are those of its scans, and each scan shows what it
/// listed. An opening by which a scan asked for a key is within that scan, and no other asking has it; any other opening is between
/// scans, or its tail reported nothing but reads. A law; it computes nothing.
pub fn told_scans_are_those_of_their_run()
    ensures { (run : ToldRun) → AreToldIn run → AreExactScans run }
{}

/// A run whose scans came one after another may make one more from where its folder is, or do more that lists nothing: all its scans
/// come one after another still. A law; it computes nothing.
pub fn told_scans_go_on()
    ensures { (run : ToldRun) → AreToldIn run → MayGoOn run }
{}
