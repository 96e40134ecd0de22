// Properties of mended decisions, whatever decisions are given.
ghost use Rattle.std.specs.Prelude.{◌≡◌, ◌⊎◌, ℤ, List, All};
ghost use Rattle.theory.specs.Problem.{S, Node};
ghost use Rattle.theory.specs.Tree.{RowHolds};
ghost use Rattle.plan_mend.specs.Mending.{mended_of};

/// Mended decisions meet each row exactly, or they are the given ones.
pub fn mending()
    ensures { (n : Node) (values x u : List ℤ)
        → All (RowHolds S values x (mended_of n values x u)) n.rows ⊎ (mended_of n values x u ≡ u) }
{}
