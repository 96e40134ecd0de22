// Rows that were worked out by hand, over the small problems of specs/Examples.antt.
ghost use Rattle.std.specs.Prelude.{◌≡◌, ◌-◌, ◌^◌, pos, negsuc, [], ◌∷◌, Some, None};
ghost use Rattle.theory.specs.Tree.{Policy};
ghost use Rattle.theory.specs.Cost.{policy_cost};
ghost use Rattle.theory.specs.CutOf.{cut_of};
ghost use Rattle.theory.specs.Size.{size_of};
ghost use Rattle.theory.specs.Range.{range_of};
ghost use Rattle.theory.specs.Bound.{bound};
ghost use Rattle.theory.specs.Base.{base, base_list};
ghost use Rattle.theory.specs.Examples.{reservoir, reservoir_problem, reservoir_certificate, tree_in_halves, wrong_tree, fork_tree, policy_of, negative_box, with_row, fork_problem, edge, edge_twice};

/// The definitions' values on small problems; a definition with one number changed gives something else.
pub fn worked_rows()
    ensures policy { Policy (reservoir_problem 2) 2 (policy_of tree_in_halves) }
    ensures no_policy { ¬ Policy (reservoir_problem 2) 2 (policy_of wrong_tree) }
    ensures cost_of_policy { policy_cost (reservoir_problem 2) 2 (policy_of tree_in_halves)
        ≡ record { up = pos 170; under = 12 } }
    ensures stopped_cost { policy_cost (fork_problem 4) 1 (policy_of fork_tree)
        ≡ record { up = pos 20; under = 8 } }
    ensures weighted_cut { cut_of [] (reservoir 2)
        (reservoir_certificate ∷ reservoir_certificate ∷ [])
        ≡ record { alpha = pos 559240533; beta = negsuc 83886079 ∷ [] } }
    ensures rounded_cut { cut_of [] negative_box (with_row (pos 1) ∷ with_row (pos 0) ∷ [])
        ≡ record { alpha = negsuc 335544318; beta = pos 0 ∷ [] } }
    ensures bound_of_base { bound (fork_problem 4) (base (fork_problem 4) 3 (0 ∷ 1 ∷ 2 ∷ []))
        ≡ pos 41943040 }
    ensures size_of_base { size_of [] (edge (pos (2 ^ 39 - 1))) (base_list (edge (pos (2 ^ 39 - 1))))
        ≡ pos (2 ^ 127 - 2 ^ 48) }
    ensures size_beyond { size_of [] (edge (pos (2 ^ 39 - 1))) (with_row (pos 16777216) ∷ [])
        ≡ pos (2 ^ 127) }
    ensures in_range { range_of [] (edge (pos (2 ^ 39 - 1))) (with_row (pos 16777215) ∷ []) ≡ None }
    ensures out_of_range { range_of [] (edge (pos (2 ^ 39 - 1))) (with_row (pos 16777216) ∷ [])
        ≡ Some 0 }
    ensures remainders_in_range { range_of [] edge_twice
        (with_row (pos 16777215) ∷ with_row (pos 16777215) ∷ []) ≡ None }
    ensures remainders_out_of_range { range_of [] edge_twice
        (with_row (pos 16777216) ∷ with_row (pos 16777215) ∷ []) ≡ Some 2 }
{}
