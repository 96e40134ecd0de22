// The laws over the definitions. Each is the contract of a function with an empty body.
ghost use Rattle.std.specs.Prelude.{◌≡◌, ℕ, ◌<◌, List, length, true, None};
ghost use Rattle.base_graph.specs.Paths.{arcs_from, is_graph, reached, first_in_cycle, Reaches};

/// A node counts as reached exactly where a path of any length leads there, and no node is found that can
/// reach itself only where no path of any length leads from a node to itself.
pub fn paths_of_any_length()
    ensures path { (g : List (List ℕ)) (starts : List ℕ) (j : ℕ)
        → reached g starts j ≡ true → Reaches g starts j }
    ensures reached { (g : List (List ℕ)) (starts : List ℕ) (j : ℕ)
        → is_graph g ≡ true → Reaches g starts j → reached g starts j ≡ true }
    ensures no_cycle { (g : List (List ℕ)) (m : ℕ) → is_graph g ≡ true → m < length g
        → first_in_cycle g ≡ None → ¬ Reaches g (arcs_from g m) m }
{}
