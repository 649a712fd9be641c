ghost use Rattle.std.specs.Prelude.{◌≡◌, ◌∷◌, ◌++◌, ◌%◌, ◌<◌, ◌≤◌, [], IfErr, IfOk, OnErr, OnOk, length};
ghost use Rattle.beat_config.specs.InRange.{AreInRange};
ghost use Rattle.prospect.specs.ListedFiles.{IsListedInRange};
ghost use Rattle.rounds.specs.Crewed.{lanings};
ghost use Rattle.wire_base.specs.Ranges.{IsMoment};
ghost use Rattle.run_steps.specs.Beginnable.{IsBeginnable};
ghost use Rattle.run_steps.specs.Beginning.{AdmitsAt, BeginsOne, Follows, FollowsListed, GivesUp, IsOpenedFor, SameLanes, TakesIn, TellsKey, beginning, file_of};
ghost use Rattle.run_steps.specs.KnownKeys.{HasRoomToBegin};
ghost use Rattle.rounds.specs.WordsOf.{tails_of};

use crate::begin_error::BeginError;
use crate::context::Context;
use crate::leave::release;
use crate::opening::{Opening, begin_of};
use crate::telling::tell_begin;
use file_identity::{Identity, IdentityError, opened_key};
use file_rows::is_same_key;
use harvester::Harvester;
use keeper::Keeper;
use outside::{Folder, FolderError, Link, Tail, Wire};
use prospect::Listed;
use report::{Passing, Why};
use rounds::Crew;
use std::alloc::Global;
use wire_base::{NoMemory, Slot};

/// What comes of a listed file.
#[derive(Clone, Copy, Debug, PartialEq, Eq)]
pub enum Admission {
    Followed,
    Skipped(Why),
    /// It could not be opened, or a read failed as it was asked for its key.
    Failed,
}

/// Adds the path of a file that was listed and is skipped.
pub fn pass_over(
    alloc: Global,
    listed: &Listed,
    why: Why,
    passed: &mut Vec<Passing>,
) -> Result<(), NoMemory>
    ensures passed { OnOk result (passed.new.items
        ≡ passed.old.items ++ record { path = listed.now.path; why = why } ∷ []) }
    ensures kept { OnErr result (passed.new.items ≡ passed.old.items) }
{
    let path = listed.path.copy(alloc)?;
    passed.push(Passing { path, why })?;
    Ok(())
}

/// Opens the file, asks it for its key and follows it in the lane of its slot; or skips it; or it failed. `Err` is `NoNative`
/// if the file needs numbers and none were reported, and `NoMemory`. A file opened and not followed is closed again.
pub fn begin_one<F: Folder, L: Link, W: Wire<Link = L>>(
    context: Context<'_, '_>,
    opening: Opening<'_>,
    folder: &mut F,
    crew: &mut Crew<F::Tail, W, L>,
    keeper: &mut Keeper,
) -> Result<Admission, BeginError>
    requires { IsBeginnable context.settings.now (file_of opening) crew.old keeper.old }
    ensures { BeginsOne (tails_of F.Tail.Tail) context.entry.settings.now (file_of opening.entry)
        result (beginning F.Folder folder.old crew.old keeper.old)
        (beginning F.Folder folder.new crew.new keeper.new) }
{
    match folder.open(context.alloc, &opening.listed.path) {
        Ok(Some(tail)) => follow_listed(context, opening, tail, folder, crew, keeper),
        Ok(None) => Ok(Admission::Skipped(Why::Gone)),
        Err(FolderError::Failed) => Ok(Admission::Failed),
        Err(FolderError::NoMemory) => Err(BeginError::NoMemory),
    }
}

/// Asks an open file for its key, and follows it if that is the one with which it was listed, or closes it.
fn follow_listed<F: Folder, L: Link, W: Wire<Link = L>>(
    context: Context<'_, '_>,
    opening: Opening<'_>,
    mut tail: F::Tail,
    folder: &mut F,
    crew: &mut Crew<F::Tail, W, L>,
    keeper: &mut Keeper,
) -> Result<Admission, BeginError>
    requires { IsBeginnable context.settings.now (file_of opening) crew.old keeper.old }
    ensures { FollowsListed (tails_of F.Tail.Tail) context.entry.settings.now
        (file_of opening.entry) tail result
        (beginning F.Folder folder.old crew.old keeper.old)
        (beginning F.Folder folder.new crew.new keeper.new) }
{
    match ask_key(context, opening, &mut tail) {
        Ok(None) => match follow_one(context, opening, tail, folder, crew, keeper) {
            Ok(()) => Ok(Admission::Followed),
            Err(NoMemory) => Err(BeginError::NoMemory),
        },
        Ok(Some(other)) => {
            folder.close(tail);
            Ok(other)
        }
        Err(error) => {
            folder.close(tail);
            Err(error)
        }
    }
}

/// What comes of the open file, if it does not give the key with which it was listed.
pub(crate) fn ask_key<T: Tail>(
    context: Context<'_, '_>,
    opening: Opening<'_>,
    tail: &mut T,
) -> Result<Option<Admission>, BeginError>
    requires settings { AreInRange context.settings.now }
    requires input { opening.listed.now.input < length context.settings.now.inputs }
    ensures { TellsKey (tails_of T.Tail) context.entry.settings.now (file_of opening.entry)
        tail.old tail.new result }
{
    let listed = opening.listed;
    let rule = &context.settings.inputs.as_slice()[listed.input as usize];
    match opened_key(
        context.alloc,
        &rule.id,
        &rule.file_identity,
        &listed.path,
        tail,
    ) {
        Ok(Identity::Key(key)) if is_same_key(&listed.key, &key) => Ok(None),
        Ok(Identity::Key(_)) => Ok(Some(Admission::Skipped(Why::Moved))),
        Ok(Identity::TooSmall(_)) => Ok(Some(Admission::Skipped(Why::Small))),
        Err(IdentityError::NoNative) => Err(BeginError::NoNative(opening.slot)),
        Err(IdentityError::ReadFault) => Ok(Some(Admission::Failed)),
        Err(IdentityError::NoMemory) => Err(BeginError::NoMemory),
    }
}

/// Follows an open file in the lane of its slot, or closes it.
fn follow_one<F: Folder, L: Link, W: Wire<Link = L>>(
    context: Context<'_, '_>,
    opening: Opening<'_>,
    tail: F::Tail,
    folder: &mut F,
    crew: &mut Crew<F::Tail, W, L>,
    keeper: &mut Keeper,
) -> Result<(), NoMemory>
    requires { IsBeginnable context.settings.now (file_of opening) crew.old keeper.old }
    ensures follows { OnOk result (Follows (tails_of F.Tail.Tail) context.entry.settings.now
        (file_of opening.entry) tail
        (beginning F.Folder folder.old crew.old keeper.old)
        (beginning F.Folder folder.new crew.new keeper.new)) }
    ensures gives_up { OnErr result (GivesUp (tails_of F.Tail.Tail) (file_of opening.entry) tail
        (beginning F.Folder folder.old crew.old keeper.old)
        (beginning F.Folder folder.new crew.new keeper.new)) }
{
    match harvest(context, opening, tail) {
        Ok(harvester) => take_in(context.alloc, opening, harvester, folder, crew, keeper),
        Err(tail) => {
            folder.close(tail);
            Err(NoMemory)
        }
    }
}

/// A harvester over the open file. `Err` means out of memory, and gives the tail back; a file whose listing gave no
/// key, and a pattern that is too large when it is compiled, count as that.
pub(crate) fn harvest<T: Tail>(
    context: Context<'_, '_>,
    opening: Opening<'_>,
    tail: T,
) -> Result<Harvester<T>, T>
    requires settings { AreInRange context.settings.now }
    requires in_range { IsListedInRange opening.listed.now }
    requires input { opening.listed.now.input < length context.settings.now.inputs }
    requires moment { IsMoment opening.now }
    requires start { opening.start.base ≤ opening.listed.now.size }
    ensures opened { IfOk result (IsOpenedFor (tails_of T.Tail) context.entry.settings.now
        (file_of opening.entry) tail) }
    ensures given_back { IfErr result (λ back. back ≡ tail) }
{
    let Ok(begin) = begin_of(context.alloc, opening) else {
        return Err(tail);
    };
    let settings = context.settings;
    let rule = &settings.inputs.as_slice()[opening.listed.input as usize];
    let processors = settings.processors.as_slice();
    Harvester::open(context.alloc, rule, processors, begin, tail, opening.now)
}

/// Admits the harvester to the lane of its slot once the keeper has noted its begin, or closes its file.
fn take_in<F: Folder, L: Link, W: Wire<Link = L>>(
    alloc: Global,
    opening: Opening<'_>,
    harvester: Harvester<F::Tail>,
    folder: &mut F,
    crew: &mut Crew<F::Tail, W, L>,
    keeper: &mut Keeper,
) -> Result<(), NoMemory>
    requires in_range { IsListedInRange opening.listed.now }
    requires some_lanes { 0 < length crew.old.lanes.items }
    requires start { opening.start.base ≤ opening.listed.now.size }
    requires few { HasRoomToBegin opening.listed.now keeper.old }
    ensures taken { OnOk result (TakesIn (file_of opening.entry) harvester
        (beginning F.Folder folder.old crew.old keeper.old)
        (beginning F.Folder folder.new crew.new keeper.new)) }
    ensures gives_up { OnErr result (GivesUp (tails_of F.Tail.Tail) (file_of opening.entry)
        harvester.tail
        (beginning F.Folder folder.old crew.old keeper.old)
        (beginning F.Folder folder.new crew.new keeper.new)) }
{
    if let Err(error) = tell_begin(alloc, opening, keeper) {
        release(folder, harvester);
        return Err(error);
    }
    match admit(opening.slot, harvester, crew) {
        Ok(()) => Ok(()),
        Err(harvester) => {
            release(folder, harvester);
            Err(NoMemory)
        }
    }
}

/// Admits the harvester to the lane of its slot modulo the number of lanes. `Err` means out of memory, and gives it back.
pub(crate) fn admit<T: Tail, L: Link, W: Wire<Link = L>>(
    slot: Slot,
    harvester: Harvester<T>,
    crew: &mut Crew<T, W, L>,
) -> Result<(), Harvester<T>>
    requires some_lanes { 0 < length crew.old.lanes.items }
    ensures admitted { OnOk result (AdmitsAt (slot.0 % length crew.old.lanes.items) harvester
        (lanings crew.old.lanes.items) (lanings crew.new.lanes.items)) }
    ensures kept { OnErr result (SameLanes crew.old crew.new) }
    ensures given_back { IfErr result (λ back. back ≡ harvester) }
    ensures others { crew.new ≡ record crew.old { lanes = crew.new.lanes } }
{
    let lane = slot.0 as usize % crew.lanes.len();
    crew.lanes[lane].admit(harvester)
}
