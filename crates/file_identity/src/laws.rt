ghost use Rattle.std.specs.Prelude.{◌≡◌, ℕ, List, take};
ghost use Rattle.std.specs.List.{AllByRecursion};
ghost use Rattle.event_tree.specs.declared.input_rule.IdentityRule.{IdentityRule};
ghost use Rattle.file_looks.specs.Looks.{AreLooks};
ghost use Rattle.outside.specs.declared.history.Look.{Look};
ghost use Rattle.outside.specs.declared.history.Sight.{Sight};
ghost use Rattle.outside.specs.Files.{File, latest, life_of};
ghost use Rattle.file_identity.specs.Asking.{IsAsking, given_key};
ghost use Rattle.file_identity.specs.Key.{key_of, WantsBytes};

/// If the looks of an asking show only one life, it gave the key of that life, as much of it as was there at the
/// last of them. A law; it computes nothing.
pub fn an_asking_of_one_life()
    ensures { (id : List ℕ) (rule : IdentityRule) (path : List ℕ) (file : File) (before : Sight) (life : ℕ)
        (looks : List Look) → WantsBytes rule → AreLooks file before looks → IsAsking rule looks →
        AllByRecursion (λ look. look.sight.life ≡ life) looks →
        given_key id rule path file looks ≡
        key_of id rule path file.numbers (take (latest before looks).length (life_of file life)) }
{}
