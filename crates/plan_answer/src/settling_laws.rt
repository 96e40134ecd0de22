// Properties of settled certificates, whatever the answers, and settled duals that were worked out by hand.
ghost use Rattle.std.specs.Prelude.{◌≡◌, ◌-◌, ◌^◌, ◌<◌, pos, negsuc, ℕ, true, List, [], ◌∷◌, length, map, All};
ghost use Rattle.lp_program.specs.Numbers.{number};
ghost use Rattle.lp_program.specs.declared.programs.Answer.{Answer};
ghost use Rattle.theory.specs.Problem.{Successor, Node, node_at};
ghost use Rattle.theory.specs.View.{problem_of};
ghost use Rattle.problem.specs.Validated.{Validated, is_validated};
ghost use Rattle.theory.specs.declared.cut.Cut.{Cut};
ghost use Rattle.theory.specs.Pools.{pool};
ghost use Rattle.theory.specs.Certificates.{Right};
ghost use Rattle.theory.specs.Examples.{reservoir, reservoir_certificate, negative_box};
ghost use Rattle.cut_pool.specs.AtNodes.{PoolsFit};
ghost use Rattle.cut_make.specs.Acceptance.{fault_of, range_fault};
ghost use Rattle.plan_answer.specs.Settling.{capped, missing, settled_rows, settled_pairs, settled_duals, settled_of};

/// A list of settled certificates, one per realization, is right, and can only be refused for its size. This is so for
/// answers of any lengths and numbers, at a node whose successors have weights and cuts, as those of a problem have over
/// pools that fit.
pub fn settled_lists()
    ensures right { (pools : List (List Cut)) (n : Node) (answers : List Answer)
        → All (λ (l : Successor). (0 < l.weight) × (0 < length (pool pools l.node))) n.successors
        → length answers ≡ length n.realizations → Right pools n (map (settled_of pools n) answers) }
    ensures only_range { (pools : List (List Cut)) (n : Node) (answers : List Answer)
        → All (λ (l : Successor). (0 < l.weight) × (0 < length (pool pools l.node))) n.successors
        → length answers ≡ length n.realizations
        → fault_of pools n (map (settled_of pools n) answers) ≡ range_fault pools n (map (settled_of pools n) answers) }
    ensures of_a_problem { (p : Validated) (m : ℕ) (pools : List (List Cut)) (answers : List Answer)
        → is_validated p ≡ true → m < length p.parts.nodes → PoolsFit p pools
        → length answers ≡ length (node_at (problem_of p) m).realizations
        → fault_of pools (node_at (problem_of p) m) (map (settled_of pools (node_at (problem_of p) m)) answers)
        ≡ range_fault pools (node_at (problem_of p) m) (map (settled_of pools (node_at (problem_of p) m)) answers) }
{}

/// The amount by which a successor's multipliers fall short goes to the greatest of those that the duals give: where they fall
/// short, the cap has changed none of them.
pub fn settled_shares()
    ensures { (target : ℕ) (vs : List ℕ) → 0 < missing target vs → capped target vs ≡ vs }
{}

/// Duals -5 and 5; rounded down before they are clamped; without an upper side; 10 shared out among cuts: where a unit a
/// pair is missing, and where one more is, with a pair of the first cut and without; where there is too much, and without
/// duals.
pub fn worked_settling()
    ensures reservoir { settled_duals [] (reservoir 2)
        (map number (negsuc 21474836479 ∷ pos 21474836480 ∷ [])) ≡ reservoir_certificate }
    ensures rounded { settled_rows 0 (reservoir 2).rows
        (map number (negsuc 0 ∷ pos 255 ∷ [])) ≡ negsuc 0 ∷ pos 0 ∷ [] }
    ensures clamped { settled_rows 0 (reservoir 2).rows
        (map number (negsuc (2 ^ 127 - 1) ∷ pos (2 ^ 127 - 1) ∷ []))
        ≡ negsuc (2 ^ 63 - 1) ∷ pos (2 ^ 63 - 1) ∷ [] }
    ensures wrong_sign { settled_rows 0 negative_box.rows (map number (negsuc 511 ∷ [])) ≡ pos 0 ∷ [] }
    ensures some_missing { settled_pairs 10 4
        (map number (pos 256 ∷ pos 768 ∷ pos 768 ∷ negsuc 0 ∷ []))
        ≡ (0, 1) ∷ (1, 6) ∷ (2, 3) ∷ [] }
    ensures more_missing { settled_pairs 10 4
        (map number (pos 256 ∷ pos 768 ∷ pos 512 ∷ negsuc 0 ∷ []))
        ≡ (0, 5) ∷ (1, 3) ∷ (2, 2) ∷ [] }
    ensures first_added { settled_pairs 10 4
        (map number (negsuc 0 ∷ pos 768 ∷ pos 0 ∷ pos 1024 ∷ []))
        ≡ (0, 3) ∷ (1, 3) ∷ (3, 4) ∷ [] }
    ensures too_much { settled_pairs 10 3 (map number (pos 1024 ∷ pos 2048 ∷ pos 512 ∷ []))
        ≡ (0, 4) ∷ (1, 6) ∷ [] }
    ensures no_duals { settled_pairs 10 3 [] ≡ (0, 10) ∷ [] }
{}
