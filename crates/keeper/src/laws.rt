ghost use Rattle.std.specs.Prelude.{ℕ, ◌+◌, ◌≤◌, List, length};
ghost use Rattle.wire_base.specs.declared.note.Note.{Note};
ghost use Rattle.wire_base.specs.declared.row.Row.{Row};
ghost use Rattle.keeper.specs.FewKeys.{AreFewKeys};

/// Rows and notes that are not too many together have few keys. A law; it computes nothing.
pub fn few_keys_by_length()
    ensures { (rows : List Row) (notes : List Note) (gone : List ℕ) →
        length rows + length notes ≤ 65_536 → AreFewKeys rows notes gone }
{}
