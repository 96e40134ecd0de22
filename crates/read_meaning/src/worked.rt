// Rows that were worked out by hand, over plans of specs/Examples.antt.
ghost use Rattle.std.specs.Prelude.{◌≡◌, ℕ, pos, Some, option_map, IsSomeAnd};
ghost use Rattle.read_profile.specs.File.{File, file_at};
ghost use Rattle.read_profile.specs.Examples.{one_reservoir, with_stop, without_values};
ghost use Rattle.read_meaning.specs.Meaning.{Plans, IsPolicy, file_policy_cost, IsBound};
ghost use Rattle.read_meaning.specs.Examples.{halves, one_higher, to_the_stop};

/// Costs of policies of small files. A definition with one word changed gives something else for one of them.
pub fn worked_rows()
    ensures policy { IsSomeAnd (file_at one_reservoir) (λ f. IsPolicy f 2 halves) }
    ensures cost_of_policy { option_map (λ (f : File). file_policy_cost f 2 halves) (file_at one_reservoir)
        ≡ Some (record { up = pos 130; under = 8 }) }
    ensures no_policy { ¬ IsSomeAnd (file_at one_reservoir) (λ f. IsPolicy f 2 one_higher) }
    ensures other_units { ¬ IsSomeAnd (file_at one_reservoir) (λ f. IsPolicy f 1 halves) }
    ensures no_bound { IsSomeAnd (file_at one_reservoir) (λ f. ¬ IsBound f (pos 272629761)) }
    ensures stopped_policy { IsSomeAnd (file_at with_stop) (λ f. IsPolicy f 1 to_the_stop) }
    ensures stopped_cost { option_map (λ (f : File). file_policy_cost f 1 to_the_stop) (file_at with_stop)
        ≡ Some (record { up = pos 130; under = 10 }) }
    ensures no_value { (units : ℕ) (ps : Plans)
        → ¬ IsSomeAnd (file_at without_values) (λ f. IsPolicy f units ps) }
{}
