ghost use Rattle.std.specs.Prelude.{◌≡◌, ◌≢◌, ◌≤◌, ◌<◌, ℕ, All, Contains, List, [], ◌∷◌, ◌++◌, Option};
ghost use Rattle.wire_base.specs.Extent.{Extent};
ghost use Rattle.wire_base.specs.declared.numbers.Slot.{Slot};
ghost use Rattle.wire_base.specs.declared.numbers.Epoch.{Epoch};
ghost use Rattle.wire_base.specs.declared.numbers.Moment.{Moment};
ghost use Rattle.wire_base.specs.declared.note.Cause.{Cause};
ghost use Rattle.wire_base.specs.declared.note.Note.{Note};
ghost use Rattle.wire_base.specs.declared.note.Note.TheVariants.{Settle};
ghost use Rattle.wire_base.specs.declared.row.Row.{Row};
ghost use Rattle.wire_base.specs.declared.row.Op.{Op};
ghost use Rattle.wire_base.specs.declared.row.Op.TheVariants.{Set, Remove};
ghost use Rattle.ship_core.specs.declared.step.CoreStep.{CoreStep};
ghost use Rattle.ship_core.specs.Machine.{Core, IsQuiet, IsStoredBy, Runs, at_start};
ghost use Rattle.ship_core.specs.Rows.{IsInOrder, find};
ghost use Rattle.ship_core.specs.Replay.{after_op};
ghost use Rattle.ship_core.specs.Changes.{AreKeysAscending, LeadTo, change_of, changes_at, key_in};
ghost use Rattle.wire_base.specs.KeyOrder as entries;
ghost use Rattle.ship_core.specs.RowsOver.{AreRowsOver, row_for, slots_for};
ghost use Rattle.ship_core.specs.CoveredEnd.{AreApart, Adjoin, ClosesPrefix, covered_end, last_end, next_end};
ghost use Rattle.ship_core.specs.OneLife.{Settlement, spans_of, life_notes};
ghost use Rattle.ship_core.specs.RowOver.{Start, notes_of, greatest_epoch, place_over, row_over, slot_of, start_over};
ghost use Rattle.ship_core.specs.Forward.{RowGoesOn};
ghost use Rattle.ship_core.specs.Orderly.{AreOrderly, IsBegun, MayFollow};

/// The covered end of a place is the place itself if no span begins at it, else the covered end of that span's end.
/// A law; it computes nothing.
pub fn covered_end_by_spans()
    ensures stays { (spans : List Extent) (place : ℕ) →
        ((span : Extent) → Contains spans span → span.start ≡ place → span.end ≤ place) →
        covered_end spans place ≡ place }
    ensures goes_on { (spans : List Extent) (span : Extent) → AreApart spans → Contains spans span →
        span.start < span.end → covered_end spans span.start ≡ covered_end spans span.end }
{}

/// The same by what is found at a place; and a covered end is at most the greatest of its place and the spans' ends. A
/// law; it computes nothing.
pub fn covered_end_by_steps()
    ensures none { (spans : List Extent) (place : ℕ) → next_end spans place ≡ None →
        covered_end spans place ≡ place }
    ensures some { (spans : List Extent) (place end : ℕ) → next_end spans place ≡ Some end →
        covered_end spans place ≡ covered_end spans end }
    ensures bounded { (spans : List Extent) (most place : ℕ) → All (λ span. span.end ≤ most) spans →
        place ≤ most → covered_end spans place ≤ most }
{}

/// By spans that were reported the covered end closes a prefix of what was reported, each span of it settled; and if all
/// that was reported is settled, it is the end of all. A law; it computes nothing.
pub fn covered_end_closes_a_prefix()
    ensures prefix { (told spans : List Extent) (base : ℕ) → Adjoin base told →
        All (Contains told) spans → ClosesPrefix told spans base }
    ensures all { (told spans : List Extent) (base : ℕ) → Adjoin base told →
        All (Contains told) spans → All (Contains spans) told →
        covered_end spans base ≡ last_end base told }
{}

/// With more notes of any kind the row of a slot that was begun goes back in neither epoch, nor offset, nor the moment of
/// its last change, and one that went stays gone. A law; it computes nothing.
pub fn no_row_goes_back()
    ensures { (slot : ℕ) (notes more : List Note) → IsBegun slot notes →
        RowGoesOn (row_over slot notes) (row_over slot (notes ++ more)) }
{}

/// A settlement of an older epoch changes no slot's row. A law; it computes nothing.
pub fn older_epochs_change_nothing()
    ensures { (slot : Slot) (epoch : Epoch) (span : Extent) (cause : Cause) (notes : List Note) →
        epoch.0 < greatest_epoch (notes_of slot.0 notes) → (any : ℕ) →
        row_over any (notes ++ Settle slot epoch span cause ∷ []) ≡ row_over any notes }
{}

/// The order in which notes come does not matter: two lists that contain the same notes, one of them orderly, give each
/// slot and each key the same row. A law; it computes nothing.
pub fn order_does_not_matter()
    ensures slot { (first second : List Note) → AreOrderly second →
        All (Contains second) first → All (Contains first) second → (slot : ℕ) →
        row_over slot first ≡ row_over slot second }
    ensures key { (opening : List Row) (first second : List Note) → AreOrderly second →
        All (Contains second) first → All (Contains first) second → (key : List ℕ) →
        row_for opening first key ≡ row_for opening second key }
    ensures rows { (opening : List Row) (first second : List Note) (rows others : List Row) →
        AreOrderly second → All (Contains second) first → All (Contains first) second →
        AreRowsOver opening first rows → AreRowsOver opening second others → rows ≡ others }
{}

/// An update sets the row of its key, or takes it away, and changes no other key's; rows in order stay in order. A law; it
/// computes nothing.
pub fn update_by_key()
    ensures set { (row : Row) (rows : List Row) →
        find row.key (after_op rows (Set row)) ≡ Some row }
    ensures others_after_set { (row : Row) (rows : List Row) (key : List ℕ) → key ≢ row.key →
        find key (after_op rows (Set row)) ≡ find key rows }
    ensures removed { (key : List ℕ) (rows : List Row) →
        find key (after_op rows (Remove key)) ≡ None }
    ensures others_after_remove { (key other : List ℕ) (rows : List Row) → other ≢ key →
        find other (after_op rows (Remove key)) ≡ find other rows }
    ensures in_order { (rows : List Row) (op : Op) → IsInOrder rows → IsInOrder (after_op rows op) }
{}

/// Rows in order are determined by what each key has, so there is at most one list of rows over opening rows and notes; if
/// the opening rows are in order and the notes orderly, there is one. A law; it computes nothing.
pub fn rows_by_key()
    ensures by_key { (first second : List Row) → IsInOrder first → IsInOrder second →
        ((key : List ℕ) → find key first ≡ find key second) → first ≡ second }
    ensures there_is_one { (opening : List Row) (notes : List Note) → IsInOrder opening →
        AreOrderly notes → (rows : List Row) × AreRowsOver opening notes rows }
    ensures no_other { (opening : List Row) (notes : List Note) (first second : List Row) →
        AreRowsOver opening notes first → AreRowsOver opening notes second → first ≡ second }
{}

/// No notes are orderly, and orderly notes stay so with one more that may follow them; a front of orderly notes is
/// orderly. A law; it computes nothing.
pub fn orderly_by_one_more()
    ensures none { AreOrderly [] }
    ensures one_more { (notes : List Note) (note : Note) → AreOrderly notes → MayFollow notes note →
        AreOrderly (notes ++ note ∷ []) }
    ensures front { (front rest : List Note) → AreOrderly (front ++ rest) → AreOrderly front }
    ensures follows { (front rest : List Note) (note : Note) → AreOrderly (front ++ note ∷ rest) →
        MayFollow front note }
{}

/// A file that begins once and keeps its life is done up to the covered end of its base, and its row has what its Begin
/// said besides; its notes are orderly if its settled spans are apart, as spans are that adjoin each other. A law; it
/// computes nothing.
pub fn one_life()
    ensures row { (slot : Slot) (key path : List ℕ) (epoch : Epoch) (base : ℕ) (changed : Moment)
        (settled : List Settlement) →
        row_over slot.0 (life_notes slot key path epoch base changed settled) ≡ Some (record {
          key = key;
          path = path;
          epoch = epoch;
          offset = covered_end (spans_of settled) base;
          changed = changed;
        }) }
    ensures place { (slot : Slot) (key path : List ℕ) (epoch : Epoch) (base : ℕ) (changed : Moment)
        (settled : List Settlement) →
        place_over slot.0 (life_notes slot key path epoch base changed settled) ≡
        Some (epoch, covered_end (spans_of settled) base) }
    ensures orderly { (slot : Slot) (key path : List ℕ) (epoch : Epoch) (base : ℕ)
        (changed : Moment) (settled : List Settlement) → AreApart (spans_of settled) →
        AreOrderly (life_notes slot key path epoch base changed settled) }
    ensures apart { (place : ℕ) (spans : List Extent) → Adjoin place spans → AreApart spans }
{}

/// What leads from rows to others is made key by key: of any keys in their order that are all whose rows differ, each with
/// its change. There is no other such list. A law; it computes nothing.
pub fn changes_by_key()
    ensures lead { (from to : List Row) (keys : List (List ℕ)) → IsInOrder from → IsInOrder to →
        AreKeysAscending keys →
        ((key : List ℕ) → (Contains keys key → ⊥) → find key from ≡ find key to) →
        LeadTo from to (changes_at keys from to) }
    ensures told { (from to : List Row) (ops : List Op) → LeadTo from to ops → (key : List ℕ) →
        entries.find key_in key ops ≡ change_of key (find key from) (find key to) }
    ensures no_other { (from to : List Row) (first second : List Op) → LeadTo from to first →
        LeadTo from to second → first ≡ second }
    ensures unchanged { (key : List ℕ) (row : Option Row) → change_of key row row ≡ None }
{}

/// The row of a key is the opening one if no Begin names the key, none if all its slots' rows went, and else that of
/// its slot above which none has a row. A law; it computes nothing.
pub fn row_by_slots()
    ensures none_given { (opening : List Row) (notes : List Note) (key : List ℕ) →
        ((slot : ℕ) → Contains (slots_for key notes) slot → ⊥) →
        row_for opening notes key ≡ find key opening }
    ensures all_gone { (opening : List Row) (notes : List Note) (key : List ℕ) (one : ℕ) →
        Contains (slots_for key notes) one →
        ((slot : ℕ) → Contains (slots_for key notes) slot → row_over slot notes ≡ None) →
        row_for opening notes key ≡ None }
    ensures greatest { (opening : List Row) (notes : List Note) (key : List ℕ) (slot : ℕ) (row : Row) →
        Contains (slots_for key notes) slot → row_over slot notes ≡ Some row →
        ((other : ℕ) → Contains (slots_for key notes) other → slot < other →
        row_over other notes ≡ None) → row_for opening notes key ≡ Some row }
{}

/// The slots of a key are those that a Begin gives it: each slot that was begun is its key's, and if notes are orderly no
/// other key's. A law; it computes nothing.
pub fn slots_by_begin()
    ensures given { (notes : List Note) (key : List ℕ) (slot : ℕ) → AreOrderly notes →
        Contains (slots_for key notes) slot →
        (start : Start) × (start_over (notes_of slot notes) ≡ Some start) × (start.key ≡ key) }
    ensures gives { (notes : List Note) (slot : ℕ) (start : Start) →
        start_over (notes_of slot notes) ≡ Some start → Contains (slots_for start.key notes) slot }
{}

/// One note more changes the row of no key but its slot's. A law; it computes nothing.
pub fn note_by_key()
    ensures { (opening : List Row) (notes : List Note) (note : Note) (key : List ℕ) →
        (Contains (slots_for key (notes ++ note ∷ [])) (slot_of note) → ⊥) →
        row_for opening (notes ++ note ∷ []) key ≡ row_for opening notes key }
{}

/// Between crashes and restarts no row goes back: over notes and commits the row of a slot that was begun goes back in neither
/// epoch, nor offset, nor the moment of its last change, and one that went stays gone. A law; it computes nothing.
pub fn no_row_goes_back_while_it_runs()
    ensures { (core new : Core) (steps : List CoreStep) → Runs core steps new → All IsQuiet steps →
        (slot : ℕ) → IsBegun slot core.notes →
        RowGoesOn (row_over slot core.notes) (row_over slot new.notes) }
{}

/// Each row that an update sets is the row of some slot over the notes that are there before a commit or a crash: so each offset
/// that was stored is the covered end of spans that were settled before. A law; it computes nothing.
pub fn updates_come_from_notes()
    ensures { (steps : List CoreStep) (core : Core) (row : Row) → Runs at_start steps core →
        Contains core.updates (Set row) → IsStoredBy at_start steps row }
{}
