// The cost of a policy from above. A law is the contract of a function with an empty body.
ghost use Rattle.std.specs.Prelude.{◌≡◌, true};
ghost use Rattle.problem.specs.Validated.{Validated, is_validated};
ghost use Rattle.theory.specs.Tree.{Forest};
ghost use Rattle.theory.specs.View.{problem_of};
ghost use Rattle.policy_evaluate.specs.Upper.{IsLeastUpper, upper_of};

/// The cost of each policy of a problem, rounded up once, is the least whole number at scale 2^24 that is not below it.
pub fn upper()
    ensures { (p : Validated) (f : Forest) → is_validated p ≡ true
        → IsLeastUpper (problem_of p) f (upper_of (problem_of p) f) }
{}
