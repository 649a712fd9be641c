ghost use Rattle.std.specs.Prelude.{◌≡◌, ℕ, List};
ghost use Rattle.wire_base.specs.declared.row.Op.{Op};
ghost use Rattle.registry_frame.specs.BodyOf.{IsBodyOf};

/// A body says one list of operations. A law; it computes nothing.
pub fn one_reading()
    ensures { (ops others : List Op) (body : List ℕ) → IsBodyOf ops body → IsBodyOf others body → ops ≡ others }
{}
