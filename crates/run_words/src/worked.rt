// Command lines that were worked out by hand.
ghost use Rattle.std.specs.Prelude.{◌≡◌, [], ◌∷◌, codes, Some, None};
ghost use Rattle.run_words.specs.declared.command.Command.TheVariants.{Base, Train, Check, Simulate, Validate, Gen, Evaluate, Hydro, Robust};
ghost use Rattle.run_words.specs.Commands.{command_of};

/// Each form, with its limits.
pub fn forms()
    ensures base { command_of (codes "base" ∷ []) ≡ Some Base }
    ensures train { command_of (codes "train" ∷ codes "J" ∷ codes "7" ∷ codes "2000" ∷ []) ≡ Some (Train 7 2000 None) }
    ensures batches { command_of (codes "train" ∷ codes "J" ∷ codes "18446744073709551615" ∷ codes "0" ∷ codes "64" ∷ []) ≡ Some (Train 18446744073709551615 0 (Some 64)) }
    ensures check { command_of (codes "check" ∷ codes "J" ∷ []) ≡ Some Check }
    ensures simulate { command_of (codes "simulate" ∷ codes "J" ∷ codes "0" ∷ codes "1000" ∷ []) ≡ Some (Simulate 0 1000) }
    ensures validate { command_of (codes "validate" ∷ codes "J" ∷ []) ≡ Some Validate }
    ensures generate { command_of (codes "gen" ∷ codes "1" ∷ codes "500" ∷ codes "10" ∷ []) ≡ Some (Gen 1 500 10) }
    ensures evaluate { command_of (codes "evaluate" ∷ codes "J" ∷ []) ≡ Some Evaluate }
    ensures hydro { command_of (codes "hydro" ∷ []) ≡ Some Hydro }
    ensures robust { command_of (codes "robust" ∷ codes "J" ∷ []) ≡ Some Robust }
{}

/// Words that are of no form.
pub fn no_forms()
    ensures no_words { command_of [] ≡ None }
    ensures unknown { command_of (codes "bases" ∷ []) ≡ None }
    ensures word_too_many { command_of (codes "base" ∷ codes "x" ∷ []) ≡ None }
    ensures leading_zero { command_of (codes "train" ∷ codes "J" ∷ codes "07" ∷ codes "3" ∷ []) ≡ None }
    ensures many_iterations { command_of (codes "train" ∷ codes "J" ∷ codes "7" ∷ codes "2001" ∷ []) ≡ None }
    ensures no_paths { command_of (codes "train" ∷ codes "J" ∷ codes "7" ∷ codes "1" ∷ codes "0" ∷ []) ≡ None }
    ensures many_paths { command_of (codes "train" ∷ codes "J" ∷ codes "7" ∷ codes "1" ∷ codes "65" ∷ []) ≡ None }
    ensures no_journal { command_of (codes "check" ∷ [] ∷ []) ≡ None }
    ensures many_scenarios { command_of (codes "simulate" ∷ codes "J" ∷ codes "0" ∷ codes "1001" ∷ []) ≡ None }
    ensures no_stages { command_of (codes "gen" ∷ codes "1" ∷ codes "0" ∷ codes "1" ∷ []) ≡ None }
    ensures many_reservoirs { command_of (codes "gen" ∷ codes "1" ∷ codes "1" ∷ codes "11" ∷ []) ≡ None }
{}
