ghost use Rattle.scanned_files.specs.Listings.{AreBegunBy, AreShownBy, IsByItsScans};
ghost use Rattle.told_scans.specs.ToldScans.{AreToldIn, ToldRun};

/// A run whose scans came one after another, each as reported, is a run by scans in the terms of its account, if the clock gave
/// the moments of its scans. A law; it computes nothing.
pub fn told_runs_are_by_scans()
    ensures { (run : ToldRun) → AreToldIn run → IsByItsScans run }
{}

/// A file begins by the entry of the scan from which on its key is known, or by its row, if the first scan gave no entry of the key; a
/// key without a row, or whose earlier slot went, is newly known by the first scan since then that gave an entry of it. A law; it
/// computes nothing.
pub fn entries_tell_how_files_begin()
    ensures { (run : ToldRun) → AreToldIn run → AreBegunBy run }
{}

/// A file that a scan listed, and that was opened after it and before the next one, was shown last by that scan as it was opened. A
/// later scan reports that it was removed if that was whole and gave no entry of its key; one that gave an entry reports its path since.
/// A whole scan that gave no entry of a key hides the key. A law; it computes nothing.
pub fn entries_tell_what_became_of_files()
    ensures { (run : ToldRun) → AreToldIn run → AreShownBy run }
{}
