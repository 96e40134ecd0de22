// Laws on the stage problems of a node.
ghost use Rattle.std.specs.Prelude.{◌≡◌, ◌<◌, ℕ, ℤ, true, List, length, Some};
ghost use Rattle.problem.specs.Validated.{Validated, is_validated};
ghost use Rattle.theory.specs.declared.cut.Cut.{Cut};
ghost use Rattle.lp_program.specs.declared.programs.Program.{Program};
ghost use Rattle.lp_program.specs.Proper.{IsProper, Extends, IsLike};
ghost use Rattle.plan_stage.specs.Nodes.{stage_in, reference_in};

/// The stage problems of a node are proper. Two of them over the same pools differ in the sides of the node's own rows alone,
/// so a chain may take one after the other; and a chain may begin with each of them from the start that the solver makes by the
/// node's reference program.
pub fn stages_of_a_node()
    ensures proper { (p : Validated) → is_validated p ≡ true → (m : ℕ) → m < length p.parts.nodes
        → (pools : List (List Cut)) → (values state : List ℤ) → (lp : Program)
        → stage_in p pools m values state ≡ Some lp → IsProper lp }
    ensures like { (p : Validated) → is_validated p ≡ true → (m : ℕ) → m < length p.parts.nodes
        → (pools : List (List Cut)) → (values state others next : List ℤ) → (lp other : Program)
        → stage_in p pools m values state ≡ Some lp → stage_in p pools m others next ≡ Some other
        → IsLike lp other }
    ensures extends { (p : Validated) → is_validated p ≡ true → (m : ℕ) → m < length p.parts.nodes
        → (pools : List (List Cut)) → (values state : List ℤ) → (lp program : Program)
        → reference_in p m ≡ Some program → stage_in p pools m values state ≡ Some lp
        → Extends program lp }
{}
