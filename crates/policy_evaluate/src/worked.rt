// Rows that were worked out by hand, over one reservoir and one thermal plant.
ghost use Rattle.std.specs.Prelude.{◌≡◌, pos, [], ◌∷◌};
ghost use Rattle.theory.specs.Examples.{policy_of, reservoir_problem};
ghost use Rattle.theory.specs.Tree.{branch, no_branch, no_tree};
ghost use Rattle.policy_evaluate.specs.TooBig.{branches, denominator, node_size};
ghost use Rattle.policy_evaluate.specs.Upper.{upper_of};

/// From volume 4, stages that cost 20 at inflow 1 and 10 at inflow 3 make 15 on average, and a third of 40 where inflow 3
/// weighs twice: that is rounded up. There the policy has 2 branches, its cost stands over 3, and a stage costs at most 5
/// for each of 20 units.
pub fn worked_rows()
    ensures even { upper_of (reservoir_problem 1) (policy_of (branch (pos 0 ∷ pos 83886080 ∷ pos 67108864 ∷ []) no_tree (branch (pos 0 ∷ pos 117440512 ∷ pos 33554432 ∷ []) no_tree no_branch))) ≡ pos 251658240 }
    ensures uneven { upper_of (reservoir_problem 2) (policy_of (branch (pos 0 ∷ pos 83886080 ∷ pos 67108864 ∷ []) no_tree (branch (pos 0 ∷ pos 117440512 ∷ pos 33554432 ∷ []) no_tree no_branch))) ≡ pos 223696214 }
    ensures branches { branches (reservoir_problem 2) 1 0 ≡ 2 }
    ensures denominator { denominator (reservoir_problem 2) 1 0 ≡ 3 }
    ensures size { node_size (reservoir_problem 2) 0 ≡ 100 }
{}
