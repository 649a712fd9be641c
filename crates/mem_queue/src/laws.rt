ghost use Rattle.std.specs.Prelude.{ℕ, ◌≤◌, List, ◌++◌, length};
ghost use Rattle.wire_base.specs.declared.parcel.Parcel.{Parcel};
ghost use Rattle.pass_sums.specs.Weight.{weigh, AsOften};
ghost use Rattle.mem_queue.specs.declared.entry.Entry.{Entry};
ghost use Rattle.mem_queue.specs.Conserved.{IsConserved};
ghost use Rattle.mem_queue.specs.Entries.{has_number, numbered, parcels};

/// The parcels that were put are, each as often, those that were taken and those that the queue holds. A law; it
/// computes nothing.
pub fn nothing_is_lost()
    ensures { (put taken : List Entry) (items : List Parcel) → IsConserved put taken items →
        AsOften (parcels put) (parcels taken ++ items) }
{}

/// What was put is what was taken and then, with the next numbers, what the queue holds. A law; it computes nothing.
pub fn what_is_held_came_later()
    ensures { (put taken : List Entry) (items : List Parcel) → IsConserved put taken items →
        AsOften put (taken ++ numbered (length taken) items) }
{}

/// No entry was put twice, and none was taken twice. A law; it computes nothing.
pub fn nothing_comes_twice()
    ensures { (put taken : List Entry) (items : List Parcel) (number : ℕ) → IsConserved put taken items →
        (weigh (has_number number) put ≤ 1) × (weigh (has_number number) taken ≤ 1) }
{}
