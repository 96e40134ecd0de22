// The meaning of residuals. A law is the contract of a function with an empty body.
ghost use Rattle.std.specs.Prelude.{◌≡◌, ◌↔◌, ℤ, pos, ◌≤ℤ◌, List};
ghost use Rattle.problem.specs.declared.parts.Row.{Row};
ghost use Rattle.theory.specs.Problem.{S};
ghost use Rattle.theory.specs.Tree.{RowHolds};
ghost use Rattle.plan_forward.specs.Costing.{residual_of};

/// A residual is not negative, and it is 0 exactly where the decisions meet the row.
pub fn residuals()
    ensures met { (row : Row) (u x values : List ℤ)
        → residual_of row u x values ≡ pos 0 ↔ RowHolds S values x u row }
    ensures not_negative { (row : Row) (u x values : List ℤ) → pos 0 ≤ℤ residual_of row u x values }
{}
