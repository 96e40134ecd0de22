// The laws over the definitions. Each is the contract of a function with an empty body.
ghost use Rattle.std.specs.Prelude.{◌≡◌, ◌<◌, true, ℕ, ℤ, List};
ghost use Rattle.lp_program.specs.declared.programs.Answer.{Answer};
ghost use Rattle.theory.specs.Problem.{Node};
ghost use Rattle.plan_answer.specs.declared.classifying.Classified.TheVariants.{Infeasibility};
ghost use Rattle.plan_answer.specs.Classifying.{classify_of};
ghost use Rattle.plan_answer.specs.Farkas.{refutes_of, NoDecision, FractionsDecide};

/// Where multipliers of its rows refute a node at values and a state, no decisions exist there, in any units; so too
/// where an answer is classified as infeasible. Then no fractions with any denominator lie in the boxes and meet the rows.
pub fn farkas()
    ensures refuted { (n : Node) (values x ys : List ℤ) → refutes_of n values x ys ≡ true → NoDecision n values x }
    ensures infeasible { (n : Node) (values x : List ℤ) (answer : Answer) (ys : List ℤ)
        → classify_of n values x answer ≡ Infeasibility ys → NoDecision n values x }
    ensures fractions { (n : Node) (values x : List ℤ) → NoDecision n values x
        → (units : ℕ) (u : List ℤ) → 0 < units → ¬ FractionsDecide units n values x u }
{}
