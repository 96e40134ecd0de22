// The laws over the definitions. Each is the contract of a function with an empty body.
ghost use Rattle.std.specs.Prelude.{◌≡◌, ◌↔◌, ℕ, ℤ, List, map, slice_get, Some, Ok, IsSomeAnd};
ghost use Rattle.problem.specs.Validated.{Validated};
ghost use Rattle.read_file.specs.Problem.{problem_at};
ghost use Rattle.theory.specs.declared.cut.Cut.{Cut};
ghost use Rattle.theory.specs.Tree.{Forest, Policy};
ghost use Rattle.theory.specs.Cost as theory;
ghost use Rattle.theory.specs.Pools.{Holds};
ghost use Rattle.theory.specs.Bound.{Under};
ghost use Rattle.theory.specs.View.{problem_of};
ghost use Rattle.read_profile.specs.File.{Name, file_at};
ghost use Rattle.read_meaning.specs.Meaning.{Plans, IsPolicy, file_policy_cost, IsBound, IsCut};
ghost use Rattle.read_meaning.specs.Said.{Pairs, validated_node_names, validated_state_names, SameSuccessor, SameNode, forest_of};

/// Bytes that the reader accepts are a file, and the problem that the reader gives means what the file means: its nodes one by
/// one, its policies with their costs, and so its bounds and cuts.
pub fn same_meaning()
    ensures file { (bytes : List ℕ) (s : Validated) → problem_at bytes ≡ Ok s
        → IsSomeAnd (file_at bytes) (λ f. (f.states ≡ validated_state_names s) × (f.names ≡ validated_node_names s)
        × (map f.initial f.states ≡ map Some (problem_of s).initial)
        × Pairs (SameSuccessor s) f.root (problem_of s).root) }
    ensures nodes { (bytes : List ℕ) (s : Validated) → problem_at bytes ≡ Ok s
        → IsSomeAnd (file_at bytes) (λ f. (m : ℕ) (k : Name) → slice_get f.names m ≡ Some k
        → IsSomeAnd (f.nodes k) (SameNode s m)) }
    ensures policy { (bytes : List ℕ) (s : Validated) → problem_at bytes ≡ Ok s
        → IsSomeAnd (file_at bytes) (λ f. (units : ℕ) (ps : Plans) → IsPolicy f units ps
        → Policy (problem_of s) units (forest_of s (problem_of s).root ps)) }
    ensures cost { (bytes : List ℕ) (s : Validated) → problem_at bytes ≡ Ok s
        → IsSomeAnd (file_at bytes) (λ f. (units : ℕ) (ps : Plans) → IsPolicy f units ps
        → file_policy_cost f units ps ≡ theory.policy_cost (problem_of s) units (forest_of s (problem_of s).root ps)) }
    ensures every { (bytes : List ℕ) (s : Validated) → problem_at bytes ≡ Ok s
        → IsSomeAnd (file_at bytes) (λ f. (units : ℕ) (t : Forest) → Policy (problem_of s) units t
        → (ps : Plans) × (forest_of s (problem_of s).root ps ≡ t) × IsPolicy f units ps) }
    ensures bound { (bytes : List ℕ) (s : Validated) → problem_at bytes ≡ Ok s
        → IsSomeAnd (file_at bytes) (λ f. (b : ℤ) → Under (problem_of s) b ↔ IsBound f b) }
    ensures cut { (bytes : List ℕ) (s : Validated) → problem_at bytes ≡ Ok s
        → IsSomeAnd (file_at bytes) (λ f. (m : ℕ) (k : Name) (c : Cut) → slice_get f.names m ≡ Some k
        → Holds (problem_of s) m c → IsCut f k c.alpha c.beta) }
{}
