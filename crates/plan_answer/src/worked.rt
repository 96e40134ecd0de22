// Rows that were worked out by hand, over the node of specs/Examples.antt.
ghost use Rattle.std.specs.Prelude.{◌≡◌, ◌*◌, true, false, pos, negsuc, [], ◌∷◌};
ghost use Rattle.theory.specs.Problem.{S};
ghost use Rattle.theory.specs.Examples.{reservoir};
ghost use Rattle.plan_answer.specs.Farkas.{farkas_value, refutes_of};
ghost use Rattle.plan_answer.specs.Examples.{overloaded};

/// At volume 4 and inflow 1 a demand of 40 cannot be met, and -1 and 1 show it; the demand of 9 they do not refute.
pub fn worked_rows()
    ensures value { farkas_value overloaded (pos 1 ∷ []) (pos 67108864 ∷ []) (negsuc 16777215 ∷ pos 16777216 ∷ []) ≡ pos (15 * S * S) }
    ensures refuted { refutes_of overloaded (pos 1 ∷ []) (pos 67108864 ∷ []) (negsuc 16777215 ∷ pos 16777216 ∷ []) ≡ true }
    ensures not_refuted { refutes_of (reservoir 1) (pos 1 ∷ []) (pos 67108864 ∷ []) (negsuc 16777215 ∷ pos 16777216 ∷ []) ≡ false }
{}
