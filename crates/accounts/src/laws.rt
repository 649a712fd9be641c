ghost use Rattle.std.specs.Prelude.{ℕ, List};
ghost use Rattle.kept_rows.specs.Account.{SlotAccount};
ghost use Rattle.wire_base.specs.declared.row.Row.{Row};
ghost use Rattle.accounts.specs.RunsInARow.{AccountedRun, AdjoinInARow, HadFirstRow, IsKnownAtFirst, TakesUp};

/// If a run takes up the row that the run before left, the events of both up to its own row adjoin, by their accounts,
/// each dropped by its rule or acknowledged in one of the two; a slot whose key had a row as the registry was opened was
/// known from the first scan on, unless an earlier one of the key went. A law; it computes nothing.
pub fn accounted_runs_adjoin()
    ensures adjoin { (earlier later : AccountedRun) (life : List ℕ) (left reached : Row)
        (up : TakesUp earlier later life left reached) →
        AdjoinInARow earlier later life left reached up }
    ensures known_at_first { (accounted : AccountedRun) (one : SlotAccount) →
        HadFirstRow accounted one → IsKnownAtFirst one }
{}
