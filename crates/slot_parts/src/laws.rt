ghost use Rattle.slot_parts.specs.Made.{IsTailedSo, IsToldByTails, TailedSlot};

/// If tails follow a slot's file one by one, each opened where the report of the one before ended, by the size with which the
/// file was listed last, what they reported joins in one account. Its epochs are the runs of parts with one number; if
/// truncations are seen, each is reported of one life, each flush at a place that is licensed from the epoch's start on. A law;
/// it computes nothing.
pub fn tails_make_the_account()
    ensures { (slot : TailedSlot) → IsTailedSo slot → IsToldByTails slot }
{}
