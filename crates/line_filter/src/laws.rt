ghost use Rattle.std.specs.Prelude.{◌≡◌, ◌≢◌, ℕ, true, false, List, [], Option, Some, None};
ghost use Rattle.line_filter.specs.Verdict.{is_matched, verdict_of};

/// The verdict of a message by the first rule that drops it. A law; it computes nothing.
pub fn verdict_by_rules()
    ensures empty { (include exclude : List (List ℕ)) → verdict_of include exclude [] ≡ Some 0 }
    ensures not_included { (include exclude : List (List ℕ)) (message : List ℕ) → message ≢ [] → include ≢ [] →
        is_matched include message ≡ false → verdict_of include exclude message ≡ Some 1 }
    ensures excluded { (include exclude : List (List ℕ)) (message : List ℕ) → message ≢ [] →
        is_matched include message ≡ true → is_matched exclude message ≡ true →
        verdict_of include exclude message ≡ Some 2 }
    ensures excluded_of_all { (exclude : List (List ℕ)) (message : List ℕ) → message ≢ [] →
        is_matched exclude message ≡ true → verdict_of [] exclude message ≡ Some 2 }
    ensures kept { (include exclude : List (List ℕ)) (message : List ℕ) → message ≢ [] →
        is_matched include message ≡ true → is_matched exclude message ≡ false →
        verdict_of include exclude message ≡ None }
    ensures kept_of_all { (exclude : List (List ℕ)) (message : List ℕ) → message ≢ [] →
        is_matched exclude message ≡ false → verdict_of [] exclude message ≡ None }
{}
