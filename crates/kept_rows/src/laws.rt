ghost use Rattle.std.specs.Prelude.{◌≡◌, ℕ, List, [], ◌∷◌, ◌++◌, None, Some};
ghost use Rattle.event_tree.specs.declared.input_rule.InputRule.{InputRule};
ghost use Rattle.kept_rows.specs.Account.{Place, SlotAccount};
ghost use Rattle.kept_rows.specs.Acknowledged.{IsAcknowledgedAt, TalksGoOn, WiresGoOn, talks_of};
ghost use Rattle.kept_rows.specs.Backed.{AreBacked, AreBegun, AreInRows, AreRowsOverFronts, OnlyTheNewestHaveRows};
ghost use Rattle.kept_rows.specs.Drained.{IsDrained, SlotsGiveTheWhole};
ghost use Rattle.kept_rows.specs.Going.{AccountGoesOn, AccountReadsOn, RunGoesOn, SlotRests};
ghost use Rattle.kept_rows.specs.InARow.{Adjoined, GoesOnBehind, Part};
ghost use Rattle.kept_rows.specs.Kept.{IsKept, IsKeptInImage, IsToldRow};
ghost use Rattle.kept_rows.specs.Lost.{HeldBefore, WasInactiveRightly, WasRemovedRightly};
ghost use Rattle.kept_rows.specs.Run.{Run};
ghost use Rattle.kept_rows.specs.Sent.{SendsOnlyTold};
ghost use Rattle.kept_rows.specs.Trace.{WireTold};
ghost use Rattle.lumber_frame.specs.Acknowledged.{Acknowledges};
ghost use Rattle.outside.specs.Talks.{Talk};
ghost use Rattle.outside.specs.Wires.{Outcome, Finished};
ghost use Rattle.ship_core.specs.RowOver.{row_over};
ghost use Rattle.ship_core.specs.Rows.{find};
ghost use Rattle.ship_core.specs.RowsOver.{AreRowsOver};
ghost use Rattle.told_events.specs.Rules.{Rules};
ghost use Rattle.wire_base.specs.declared.note.Note.{Note};
ghost use Rattle.wire_base.specs.declared.row.Row.{Row};
ghost use Rattle.wire_base.specs.declared.talk.Piece.{Piece};

use ship_core::covered_end_closes_a_prefix;

/// The row of a slot over backed notes is kept; so are the rows that an image may hold while a keeper stands for these
/// notes, each over the first of them, and the rows over all of them at the end of a run. A law; it computes nothing.
pub fn rows_over_backed_notes_are_kept()
    ensures slot { (account : List SlotAccount) (wires : List WireTold) (notes : List Note)
        (slot : ℕ) (row : Row) → AreInRows account → AreBacked account wires notes →
        row_over slot notes ≡ Some row → IsToldRow account wires row }
    ensures image { (account : List SlotAccount) (opening : List Row) (wires : List WireTold)
        (notes : List Note) (rows : List Row) → AreInRows account →
        AreBacked account wires notes → AreRowsOverFronts opening notes rows →
        (key : List ℕ) (row : Row) → find key rows ≡ Some row →
        IsKeptInImage account opening wires row }
    ensures end { (account : List SlotAccount) (opening : List Row) (wires : List WireTold)
        (notes : List Note) (rows : List Row) → AreInRows account →
        AreBacked account wires notes → AreBegun account notes →
        OnlyTheNewestHaveRows account notes → AreRowsOver opening notes rows →
        (key : List ℕ) (row : Row) → find key rows ≡ Some row → IsKept account opening wires row }
{
    covered_end_closes_a_prefix();
}

/// If the premises hold of all slots, what is said slot by slot is said of the run as a whole: its account, and that its
/// folder is drained. A law; it computes nothing.
pub fn premises_of_all_slots_give_the_whole()
    ensures { (run : Run) (account : List SlotAccount) (rows : List Row) →
        SlotsGiveTheWhole run account rows }
{}

/// If a run goes on from the row that the run before left, in its epoch and life, the events up to its own row are those
/// of both, each dropped by its rule or acknowledged in one of the two. A law; it computes nothing.
pub fn runs_in_a_row_adjoin()
    ensures { (rules : Rules) (life : List ℕ) (earlier later : Part) (offset : ℕ) →
        GoesOnBehind rules life earlier later offset → Adjoined rules life earlier later offset }
{}

/// What a talk acknowledges is the first of what it acknowledges as it goes on, so a payload that is acknowledged at a place
/// stays so. A law; it computes nothing.
pub fn payloads_stay_acknowledged()
    ensures talk { (talk more : List Piece) (payloads : List (List ℕ)) →
        Acknowledges talk payloads →
        (later : List (List ℕ)) × Acknowledges (talk ++ more) (payloads ++ later) }
    ensures place { (before now : List WireTold) (payload : List ℕ) (place : Place) →
        WiresGoOn before now → IsAcknowledgedAt before payload place →
        IsAcknowledgedAt now payload place }
{}

/// A link's talk keeps its number as more is sent and received, as the link is finished, and as a further one is made. A
/// law; it computes nothing.
pub fn links_go_on()
    ensures grows { (outcomes : List Outcome) (talk now : Talk) (more : List Piece) →
        now.pieces ≡ talk.pieces ++ more →
        TalksGoOn (talks_of (record { outcomes = outcomes; open_talk = Some talk }))
        (talks_of (record { outcomes = outcomes; open_talk = Some now })) }
    ensures finished { (outcomes : List Outcome) (talk : Talk) (faults idles : ℕ) →
        talks_of (record { outcomes = outcomes ++ Finished talk faults idles ∷ []; open_talk = None })
        ≡ talks_of (record { outcomes = outcomes; open_talk = Some talk }) }
    ensures next { (outcomes : List Outcome) (talk : Talk) →
        TalksGoOn (talks_of (record { outcomes = outcomes; open_talk = None }))
        (talks_of (record { outcomes = outcomes; open_talk = Some talk })) }
{}

/// A kept row stays kept as more is reported and talks grow. A law; it computes nothing.
pub fn kept_rows_stay_kept()
    ensures { (before now : List SlotAccount) (wires later : List WireTold) (row : Row) →
        AccountGoesOn before now → WiresGoOn wires later → IsToldRow before wires row →
        IsToldRow now later row }
{}

/// What was sent as reported events is still that as more is reported. A law; it computes nothing.
pub fn told_events_are_sent_still()
    ensures { (before now : List SlotAccount) (talk : List Piece) → AccountGoesOn before now →
        SendsOnlyTold before talk → SendsOnlyTold now talk }
{}

/// A drained folder stays drained as the run goes on and more is read of the same lives. A law; it computes nothing.
pub fn drained_folders_stay_drained()
    ensures { (before now : Run) (account later : List SlotAccount) (rows : List Row) →
        RunGoesOn before now → AccountReadsOn account later →
        IsDrained before account rows → IsDrained now later rows }
{}

/// What made a row go rightly stays as the run goes on, while its file is followed no further. A law; it computes nothing.
pub fn lost_rows_stay_lost()
    ensures removed { (before now : Run) (wires later : List WireTold) (rule : InputRule)
        (one same : SlotAccount) → RunGoesOn before now → WiresGoOn wires later →
        SlotRests one same → HeldBefore before now one same →
        WasRemovedRightly before wires rule one → WasRemovedRightly now later rule same }
    ensures inactive { (before now : Run) (rule : InputRule) (one same : SlotAccount) →
        RunGoesOn before now → SlotRests one same →
        WasInactiveRightly before rule one → WasInactiveRightly now rule same }
{}
