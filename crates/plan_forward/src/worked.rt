// Rows that were worked out by hand, over one reservoir and one thermal plant.
ghost use Rattle.std.specs.Prelude.{◌≡◌, ◌^◌, pos, [], ◌∷◌, map};
ghost use Rattle.lp_program.specs.Numbers.{number};
ghost use Rattle.theory.specs.Examples.{reservoir};
ghost use Rattle.plan_forward.specs.Costing.{residuals_of, stage_cost_of};
ghost use Rattle.plan_forward.specs.Deciding.{decisions_from_point};

/// From volume 4, at inflow 1, a turbine at 5 and 4 of thermal power meet both rows, and cost 20; a turbine at 4 leaves 1
/// of water and 1 of demand. A point's numbers are rounded down and brought into the boxes, and a missing one is the
/// least.
pub fn worked_rows()
    ensures met { residuals_of (reservoir 1) (pos 0 ∷ pos 83886080 ∷ pos 67108864 ∷ []) (pos 67108864 ∷ []) (pos 1 ∷ []) ≡ pos 0 ∷ pos 0 ∷ [] }
    ensures cost { stage_cost_of (reservoir 1) (pos 0 ∷ pos 83886080 ∷ pos 67108864 ∷ []) (pos 67108864 ∷ []) (pos 1 ∷ []) ≡ pos 335544320 }
    ensures missed { residuals_of (reservoir 1) (pos 0 ∷ pos 67108864 ∷ pos 67108864 ∷ []) (pos 67108864 ∷ []) (pos 1 ∷ []) ≡ pos 16777216 ∷ pos 16777216 ∷ [] }
    ensures decided { decisions_from_point (reservoir 1) (map number (pos 511 ∷ pos (2 ^ 40) ∷ [])) ≡ pos 1 ∷ pos 134217728 ∷ pos 0 ∷ [] }
{}
