// Rows that were worked out by hand.
ghost use Rattle.std.specs.Prelude.{◌≡◌, [], ◌∷◌, true, false, Some, None};
ghost use Rattle.base_graph.specs.Paths.{is_graph, reached, first_in_cycle, first_unreached};

/// The definitions' values on small graphs; a definition with one number changed gives something else.
pub fn worked_rows()
    ensures known { is_graph ((1 ∷ []) ∷ [] ∷ []) ≡ true }
    ensures unknown { is_graph ((2 ∷ []) ∷ [] ∷ []) ≡ false }
    ensures start { reached ((1 ∷ []) ∷ [] ∷ []) (0 ∷ []) 0 ≡ true }
    ensures two_steps { reached ((1 ∷ []) ∷ (2 ∷ []) ∷ [] ∷ []) (0 ∷ []) 2 ≡ true }
    ensures backwards { reached ((1 ∷ []) ∷ (2 ∷ []) ∷ [] ∷ []) (2 ∷ []) 0 ≡ false }
    ensures two_ways { first_in_cycle ((1 ∷ []) ∷ (0 ∷ []) ∷ []) ≡ Some 0 }
    ensures one_way { first_in_cycle ((1 ∷ []) ∷ (2 ∷ []) ∷ [] ∷ []) ≡ None }
    ensures into_cycle { first_in_cycle ((1 ∷ []) ∷ (2 ∷ []) ∷ (1 ∷ []) ∷ []) ≡ Some 1 }
    ensures itself { first_in_cycle ([] ∷ (1 ∷ []) ∷ []) ≡ Some 1 }
    ensures all_reached { first_unreached ((1 ∷ []) ∷ [] ∷ []) (0 ∷ []) ≡ None }
    ensures not_back { first_unreached ((1 ∷ []) ∷ [] ∷ []) (1 ∷ []) ≡ Some 0 }
    ensures aside { first_unreached ((2 ∷ []) ∷ (2 ∷ []) ∷ [] ∷ []) (0 ∷ []) ≡ Some 1 }
    ensures no_starts { first_unreached ([] ∷ []) [] ≡ Some 0 }
    ensures no_nodes { first_unreached [] [] ≡ None }
{}
