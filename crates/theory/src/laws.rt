// The laws over the definitions. Each is the contract of a function with an empty body.
ghost use Rattle.std.specs.Prelude.{◌≡◌, true, ℕ, ◌*◌, ◌-◌, ◌^◌, ◌<◌, ℤ, pos, ◌+ℤ◌, ◌*ℤ◌, ◌≤ℤ◌, List, [], length, All, sum};
ghost use Rattle.base_num.specs.Sums.{sum_to, entry, table, floor_over};
ghost use Rattle.problem.specs.Validated.{Validated, is_validated};
ghost use Rattle.theory.specs.declared.cut.Cut.{Cut};
ghost use Rattle.theory.specs.declared.cut.Certificate.{Certificate};
ghost use Rattle.theory.specs.Fraction.{Fraction, ◌≤ᶠ◌, plus, over, weighted};
ghost use Rattle.theory.specs.Problem.{S, Node, Problem, node_at, successor_weights, realization_weight, successor_weight, with_weights};
ghost use Rattle.theory.specs.Tree.{Tree, Forest, Decides, next_state};
ghost use Rattle.theory.specs.Cost.{stage, cost, policy_cost};
ghost use Rattle.theory.specs.Pools.{pool, push, Holds, Sound};
ghost use Rattle.theory.specs.Certificates.{RightAt, Right, AboveCuts};
ghost use Rattle.theory.specs.CutOf.{alpha_at, beta_at, cut_of};
ghost use Rattle.theory.specs.Size.{magnitude, size_of};
ghost use Rattle.theory.specs.Fit.{CutFits};
ghost use Rattle.theory.specs.Bound.{value, bound, Under};
ghost use Rattle.theory.specs.Base.{base, base_list};
ghost use Rattle.theory.specs.Leaf.{least_cost, cost_size};
ghost use Rattle.theory.specs.View.{problem_of};
ghost use Rattle.theory.specs.Premises.{Shaped, RootShaped, HaveCuts, InOrder, Known, Narrow};

/// A list of certificates that is right over sound pools gives a cut that holds.
pub fn weak_duality()
    ensures { (p : Problem) (pools : List (List Cut)) (m : ℕ) (list : List Certificate)
        → Shaped p (node_at p m) → Sound p pools → Right pools (node_at p m) list
        → Holds p m (cut_of pools (node_at p m) list) }
{}

/// At one realization, a right certificate's numbers are at most the stage's cost and the successors' values.
pub fn one_stage()
    ensures { (pools : List (List Cut)) (units : ℕ) (n : Node) (c : Certificate)
        (values xi u : List ℤ) (fs : List Fraction)
        → length n.decision_low ≡ length n.costs → length xi ≡ length n.state_costs
        → RightAt pools n c → Decides units n values xi u
        → AboveCuts pools units (next_state n u) n.successors fs
        → record {
          up = alpha_at pools n values c *ℤ pos units
              +ℤ sum_to (length n.state_costs) (λ k. beta_at n c k *ℤ entry xi k);
          under = S * S * successor_weight n * units;
        }
        ≤ᶠ plus (stage units n values xi u)
        (over (weighted (successor_weights n.successors) fs) (successor_weight n)) }
{}

/// The bound of sound pools is at most the cost of each policy.
pub fn sound_bound()
    ensures { (p : Problem) (pools : List (List Cut))
        → RootShaped p → HaveCuts pools p.root → Sound p pools → Under p (bound p pools) }
{}

/// Sound pools stay sound where a cut that holds is appended.
pub fn sound_push()
    ensures { (p : Problem) (pools : List (List Cut)) (m : ℕ) (c : Cut)
        → Sound p pools → Holds p m c → Sound p (push pools m c) }
{}

/// The base cuts are sound, and each node of the order has one.
pub fn sound_base()
    ensures sound { (p : Problem) (count : ℕ) (order : List ℕ)
        → InOrder p count [] order → Sound p (base p count order) }
    ensures cuts { (p : Problem) (count : ℕ) (order : List ℕ) → InOrder p count [] order
        → All (λ m. 0 < length (pool (base p count order) m)) order }
{}

/// Appending a cut lowers neither the value of a node that has cuts nor the bound.
pub fn appending()
    ensures value { (pools : List (List Cut)) (m : ℕ) (c : Cut) (k : ℕ) (x : List ℤ)
        → 0 < length (pool pools k) → value pools k x ≤ℤ value (push pools m c) k x }
    ensures bound { (p : Problem) (pools : List (List Cut)) (m : ℕ) (c : Cut)
        → 0 < sum (successor_weights p.root) → HaveCuts pools p.root
        → bound p pools ≤ℤ bound p (push pools m c) }
{}

/// A list whose size is in range gives a cut that fits, with the node's own weights and with any given ones.
pub fn size_to_fit()
    ensures own_weights { (pools : List (List Cut)) (n : Node) (list : List Certificate)
        → 0 < successor_weight n → 0 < realization_weight n → Narrow n
        → size_of pools n list ≤ℤ pos (2 ^ 127 - 1)
        → CutFits n (cut_of pools n list) }
    ensures given_weights { (pools : List (List Cut)) (ws : List ℕ) (n : Node)
        (list : List Certificate)
        → 0 < successor_weight n → 0 < realization_weight (with_weights ws n) → Narrow n
        → size_of pools (with_weights ws n) list ≤ℤ pos (2 ^ 127 - 1)
        → CutFits n (cut_of pools (with_weights ws n) list) }
{}

/// The base cut of a node without successors: its slopes are the state costs, and its first number is the least cost
/// that the stages have without their incoming states, by the weights and rounded down.
pub fn leaf_base()
    ensures cut { (pools : List (List Cut)) (n : Node) → n.successors ≡ [] → 0 < realization_weight n
        → cut_of pools n (base_list n) ≡ record {
          alpha = floor_over (pos S *ℤ least_cost n) (realization_weight n);
          beta = table (length n.low) (λ k. pos S *ℤ entry n.state_costs k);
        } }
    ensures size { (pools : List (List Cut)) (n : Node) → n.successors ≡ [] → 0 < realization_weight n
        → size_of pools n (base_list n) ≡ pos (S * S) *ℤ cost_size n }
    ensures within { (pools : List (List Cut)) (n : Node) → n.successors ≡ []
        → 0 < realization_weight n
        → (pos (S * S) *ℤ magnitude (least_cost n)) ≤ℤ size_of pools n (base_list n) }
    ensures holds { (p : Problem) (pools : List (List Cut)) (m : ℕ)
        → (node_at p m).successors ≡ [] → Shaped p (node_at p m)
        → Holds p m (cut_of pools (node_at p m) (base_list (node_at p m))) }
{}

/// The denominator of the cost of a tree is positive wherever the nodes have weights and lead to nodes, and so is the
/// denominator of the cost of a policy of a validated problem: costs are compared as fractions.
pub fn positive_denominators()
    ensures trees { (p : Problem) (count m units : ℕ) (xi : List ℤ) (t : Tree)
        → Known p count → m < count → 0 < units → 0 < (cost p units m xi t).under }
    ensures policies { (p : Validated) (units : ℕ) (f : Forest)
        → is_validated p ≡ true → 0 < units → 0 < (policy_cost (problem_of p) units f).under }
{}
