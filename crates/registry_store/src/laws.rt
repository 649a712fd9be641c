ghost use Rattle.std.specs.Prelude.{◌≡◌, ◌+◌, ◌≤◌, ℕ, List, length};
ghost use Rattle.wire_base.specs.declared.row.Op.{Op};
ghost use Rattle.wire_base.specs.declared.row.Row.{Row};
ghost use Rattle.registry_store.specs.Choice.{Choice, IsChoice};
ghost use Rattle.registry_store.specs.Committing.{AreFewThroughout};

use registry_log::one_state;

/// Whatever bytes two areas have, they make one choice at most. A law; it computes nothing.
pub fn one_choice()
    ensures { (first second : List ℕ) (choice other : Choice) → IsChoice first second choice → IsChoice first second other → choice ≡ other }
{
    one_state();
}

/// Rows and operations that are not too many together are never too many rows. A law; it computes nothing.
pub fn few_by_length()
    ensures { (rows : List Row) (ops : List Op) → length rows + length ops ≤ 65_536 → AreFewThroughout rows ops }
{}
