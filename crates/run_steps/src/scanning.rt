ghost use Rattle.std.specs.Prelude.{◌≡◌, ◌↔◌, [], All, IfErr, IfOk, IsSome, IsTrue};
ghost use Rattle.beat_config.specs.InRange.{AreInRange};
ghost use Rattle.prospect.specs.Doubled.{AreKeysApart, PartsDoubled};
ghost use Rattle.run_steps.specs.ScansAgain.{AreListedInRange, AreOfInputs, CutsScanOff, NamesPath, ScansAgain, folder_in};

use crate::rescan_error::RescanError;
use event_tree::Settings;
use outside::Folder;
use prospect::{
    Askings, Keyed, Listed, Listings, Parted, ask_past_faults, list_past_faults, part_doubled,
};
use std::alloc::Global;
use wire_base::{Moment, NoMemory, Text};

/// What a scan after the first one showed.
#[derive(Debug, Drop)]
pub struct Rescan {
    /// The moment at which it was made.
    pub now: Moment,
    /// The first file of each key.
    pub listed: Vec<Listed>,
    /// The files that an earlier path led to.
    pub doubled: Vec<Listed>,
    /// Those that were gone as the scan asked them for their keys.
    pub gone: Vec<Listed>,
    /// Those that are too small for their fingerprints.
    pub small: Vec<Listed>,
    /// Whether no listing failed, and no asking. By a partial scan no file is removed.
    pub whole: bool,
}

/// Scans once more, at this moment: lists the root of each glob, and asks the listed files for their keys. A listing or an asking
/// that fails makes the scan partial; the others are made.
///
/// `Err` is a scan that is cut off. No file stays open.
pub fn scan_again<F: Folder>(
    alloc: Global,
    settings: &Settings,
    now: Moment,
    folder: &mut F,
) -> Result<Rescan, RescanError>
    requires { AreInRange settings.now }
    ensures scans { IfOk result (λ scan. ScansAgain settings.now scan
        (folder_in F.Folder folder.old) (folder_in F.Folder folder.new)) }
    ensures cut_off { IfErr result (λ error. CutsScanOff settings.now.inputs error
        (folder_in F.Folder folder.old) (folder_in F.Folder folder.new)) }
    ensures names_path { IfErr result NamesPath }

    // What is known of the files, whether or not anything is known of the folder.
    ensures moment { IfOk result (λ scan. scan.now ≡ now) }
    ensures keyed { IfOk result (λ scan. All (λ one. IsSome one.key) scan.listed.items) }
    ensures keys_apart { IfOk result (λ scan. AreKeysApart scan.listed.items) }
    ensures of_inputs { IfOk result (λ scan. AreOfInputs settings.now scan.listed.items) }
    ensures in_range { IfOk result (λ scan. AreListedInRange scan.listed.items) }
{
    let inputs = settings.inputs.as_slice();
    let listings = list_past_faults(alloc, folder, inputs)?;
    let Listings { files, failed } = listings;
    match files {
        Ok(listed) => {
            let askings = ask_past_faults(alloc, folder, inputs, listed)?;
            let scan = part_asked(alloc, now, failed, askings)?;
            Ok(scan)
        }
        Err(error) => Err(RescanError::from(error)),
    }
}

/// The scan whose listings failed for these roots, and whose files were asked this way.
fn part_asked(
    alloc: Global,
    now: Moment,
    unlisted: Vec<Text>,
    askings: Askings,
) -> Result<Rescan, NoMemory>
    ensures moment { IfOk result (λ scan. scan.now ≡ now) }
    ensures parts { IfOk result (λ scan. PartsDoubled askings.keyed.files.items
        scan.listed.items scan.doubled.items) }
    ensures gone { IfOk result (λ scan. scan.gone ≡ askings.keyed.gone) }
    ensures small { IfOk result (λ scan. scan.small ≡ askings.keyed.small) }
    ensures whole { IfOk result (λ scan. IsTrue scan.whole
        ↔ ((unlisted.items ≡ []) × (askings.failed.items ≡ []))) }
{
    let whole = unlisted.is_empty() && askings.failed.is_empty();
    let Askings { keyed, failed: _ } = askings;
    let Keyed { files, gone, small } = keyed;
    let Parted {
        files: listed,
        doubled,
    } = part_doubled(alloc, files)?;
    Ok(Rescan {
        now,
        listed,
        doubled,
        gone,
        small,
        whole,
    })
}
