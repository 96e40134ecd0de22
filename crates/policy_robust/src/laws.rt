// The laws over risk cuts. Each is the contract of a function with an empty body.
ghost use Rattle.std.specs.Prelude.{◌≡◌, ℕ, ◌<◌, ℤ, List, [], ◌∷◌, length, get_or, All, sum, true, Some, None, Ok};
ghost use Rattle.std.specs.List.{AllByRecursion};
ghost use Rattle.problem.specs.Validated.{Validated, is_validated};
ghost use Rattle.theory.specs.declared.cut.Cut.{Cut};
ghost use Rattle.theory.specs.declared.cut.Certificate.{Certificate};
ghost use Rattle.theory.specs.Problem.{Successor, Node, Problem, node_at, with_weights};
ghost use Rattle.theory.specs.Tree.{Tree, Forest};
ghost use Rattle.theory.specs.Cost.{cost, policy_cost};
ghost use Rattle.theory.specs.Pools.{pool};
ghost use Rattle.theory.specs.Certificates.{Right};
ghost use Rattle.theory.specs.CutOf.{cut_of};
ghost use Rattle.theory.specs.Bound.{bound};
ghost use Rattle.theory.specs.Premises.{Shaped, RootShaped, HaveCuts, Known};
ghost use Rattle.theory.specs.View.{problem_of};
ghost use Rattle.cut_pool.specs.declared.entry.Entry.{Entry};
ghost use Rattle.cut_make.specs.Acceptance.{fault_of, range_fault};
ghost use Rattle.journal_load.specs.Accepted.{IsRecord};
ghost use Rattle.policy_robust.specs.declared.alternatives.Alternatives.{Alternatives};
ghost use Rattle.policy_robust.specs.Listed.{lists_at, own_weights, Listed};
ghost use Rattle.policy_robust.specs.RiskCuts.{risk_cut_of, risk_cuts_of};
ghost use Rattle.policy_robust.specs.RiskCost.{Weighty, ListsOwn, risk_cost, risk_policy_cost, RiskHolds, RiskSound, RiskUnder};

/// A list of certificates that is right over risk cuts that hold, with the weights of any one of the node's lists, gives a
/// cut that holds: it bounds the greatest average, since it bounds one of them.
pub fn risk_duality()
    ensures { (p : Problem) (x : List (List (List ℕ))) (risk_cuts : List (List Cut)) (m i : ℕ)
        (ws : List ℕ) (list : List Certificate)
        → Weighty p x → Shaped p (node_at p m) → RiskSound p x risk_cuts
        → i < length (lists_at x m) → get_or (lists_at x m) i [] ≡ ws
        → length ws ≡ length (node_at p m).realizations → 0 < sum ws
        → Right risk_cuts (with_weights ws (node_at p m)) list
        → RiskHolds p x m (cut_of risk_cuts (with_weights ws (node_at p m)) list) }
{}

/// The bound over risk cuts that hold is at most the risk cost of each policy.
pub fn risk_bound()
    ensures { (p : Problem) (x : List (List (List ℕ))) (risk_cuts : List (List Cut))
        → RootShaped p → HaveCuts risk_cuts p.root → RiskSound p x risk_cuts
        → RiskUnder p x (bound p risk_cuts) }
{}

/// Where each node lists its own weights alone, its risk cost is its cost, and that of a policy is the policy's.
pub fn own_weights_alone()
    ensures tree { (p : Problem) (count : ℕ) (x : List (List (List ℕ))) → Known p count
        → ListsOwn p count x → (m units : ℕ) (xi : List ℤ) (t : Tree) → m < count
        → risk_cost p x units m xi t ≡ cost p units m xi t }
    ensures policy { (p : Problem) (count : ℕ) (x : List (List (List ℕ))) → Known p count
        → ListsOwn p count x → All (λ (l : Successor). l.node < count) p.root → (units : ℕ) (f : Forest)
        → risk_policy_cost p x units f ≡ policy_cost p units f }
    ensures risk_cut { (risk_cuts : List (List Cut)) (n : Node) (list : List Certificate)
        → fault_of risk_cuts n list ≡ None
        → risk_cut_of risk_cuts n list (own_weights n ∷ []) ≡ Some (cut_of risk_cuts n list) }
{}

/// Certificates that are accepted over pools fail over risk cuts of the same number, with any weights, by their size alone.
pub fn fails_by_size()
    ensures { (pools risk_cuts : List (List Cut)) (ws : List ℕ) (n : Node) (list : List Certificate)
        → ((m : ℕ) → length (pool risk_cuts m) ≡ length (pool pools m))
        → length ws ≡ length n.realizations → fault_of pools n list ≡ None
        → fault_of risk_cuts (with_weights ws n) list ≡ range_fault risk_cuts (with_weights ws n) list }
{}

/// Risk cuts of records whose nodes are paths from the root hold, for the weights that are listed.
pub fn risk_cuts_hold()
    ensures { (p : Validated) (x : Alternatives) (lists : List (List Entry)) (risk_cuts : List (List Cut))
        → is_validated p ≡ true → Listed p x.lists → AllByRecursion (IsRecord p) lists
        → risk_cuts_of p x lists ≡ Ok risk_cuts → RiskSound (problem_of p) x.lists risk_cuts }
{}
