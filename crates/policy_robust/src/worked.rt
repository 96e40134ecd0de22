// Rows that were worked out by hand: a reservoir whose inflows 1 and 3 have equal weights, and a list that weighs the first
// three times as much.
ghost use Rattle.std.specs.Prelude.{◌≡◌, pos, negsuc, [], ◌∷◌, Some};
ghost use Rattle.theory.specs.Base.{base_list};
ghost use Rattle.theory.specs.Bound.{bound};
ghost use Rattle.theory.specs.Examples.{reservoir, reservoir_problem, reservoir_certificate, best_tree, policy_of};
ghost use Rattle.policy_robust.specs.Listed.{own_weights};
ghost use Rattle.policy_robust.specs.RiskCuts.{risk_cut_of};
ghost use Rattle.policy_robust.specs.RiskCost.{risk_policy_cost};

/// The definitions' values on the reservoir.
pub fn worked_rows()
    ensures base_risk_cut { risk_cut_of [] (reservoir 1) (base_list (reservoir 1))
        (own_weights (reservoir 1) ∷ (3 ∷ 1 ∷ []) ∷ [])
        ≡ Some (record { alpha = pos 0; beta = pos 0 ∷ [] }) }
    ensures risk_cut { risk_cut_of [] (reservoir 1) (reservoir_certificate ∷ reservoir_certificate ∷ [])
        (own_weights (reservoir 1) ∷ (3 ∷ 1 ∷ []) ∷ [])
        ≡ Some (record { alpha = pos 629145600; beta = negsuc 83886079 ∷ [] }) }
    ensures own_risk_cut { risk_cut_of [] (reservoir 1) (reservoir_certificate ∷ reservoir_certificate ∷ [])
        (own_weights (reservoir 1) ∷ [])
        ≡ Some (record { alpha = pos 587202560; beta = negsuc 83886079 ∷ [] }) }
    ensures worst { bound (reservoir_problem 1)
        ((record { alpha = pos 0; beta = pos 0 ∷ [] }
        ∷ record { alpha = pos 629145600; beta = negsuc 83886079 ∷ [] } ∷ []) ∷ [])
        ≡ pos 293601280 }
    ensures risk { risk_policy_cost (reservoir_problem 1)
        ((own_weights (reservoir 1) ∷ (3 ∷ 1 ∷ []) ∷ []) ∷ []) 1 (policy_of best_tree)
        ≡ record { up = pos 70; under = 4 } }
{}
