ghost use Rattle.std.specs.Prelude.{◌≡◌, ◌-◌, ◌^◌, ◌<◌, ◌≤◌, ℕ, All, List, length, take};
ghost use Rattle.wire_base.specs.declared.row.Row.{Row};
ghost use Rattle.ship_core.specs.Rows.{IsInOrder};
ghost use Rattle.registry_frame.specs.BodyOf.{IsStoredRow};
ghost use Rattle.registry_log.specs.Area.{area_bytes};
ghost use Rattle.registry_log.specs.Header.{first_wrong, generation_of};
ghost use Rattle.registry_log.specs.State.{IsState, Opened, State};

/// Whatever bytes an area has, it has one state at most. A law; it computes nothing.
pub fn one_state()
    ensures { (area : List ℕ) (first second : State) → IsState area first → IsState area second → first ≡ second }
{}

/// The first `HEADER` bytes of an area, or more of them, have its whole header. A law; it computes nothing.
pub fn header_by_first_bytes()
    ensures place { (area : List ℕ) (count : ℕ) → 29 ≤ count → first_wrong (take count area) ≡ first_wrong area }
    ensures generation { (area : List ℕ) (count : ℕ) → 29 ≤ count →
        generation_of (take count area) ≡ generation_of area }
{}

/// An area that was started is opened, with exactly the generation and the rows that it was started with; its last byte is
/// its last gate. A law; it computes nothing.
pub fn started_area_is_opened()
    ensures { (generation : ℕ) (rows : List Row) → 0 < generation → generation < 2 ^ 64 →
        IsInOrder rows → All IsStoredRow rows → length rows ≤ 65_536 →
        IsState (area_bytes generation rows) (Opened generation rows 29 (length (area_bytes generation rows) - 1)) }
{}
