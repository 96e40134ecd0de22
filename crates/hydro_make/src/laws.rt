// The laws over the definitions. Each is the contract of a function with an empty body.
ghost use Rattle.std.specs.Prelude.{◌≡◌, ◌↔◌, ℕ, suc, ℤ, List, ◌∷◌, ◌++◌, length, drop};
ghost use Rattle.theory.specs.Problem.{Successor, node_at};
ghost use Rattle.theory.specs.Tree.{Forest, Decides, Policy, next_state};
ghost use Rattle.theory.specs.Cost.{policy_cost};
ghost use Rattle.hydro_read.specs.declared.plants.Inflow.{Inflow};
ghost use Rattle.hydro_read.specs.declared.plants.Stage.{Stage};
ghost use Rattle.hydro_read.specs.declared.plants.Plants.{Plants};
ghost use Rattle.hydro_read.specs.Described.{IsPlants};
ghost use Rattle.hydro_make.specs.Made.{realization, following, stage_node, problem_of_plants};
ghost use Rattle.hydro_make.specs.Plan.{Plan, Moment, moment, Past, PastInBounds, Works, Workable};
ghost use Rattle.hydro_make.specs.PlanCost.{plan_cost};
ghost use Rattle.hydro_make.specs.Trees.{ahead, full, choice_of, plan_of, plan_forest};

/// After branches in their bounds, decisions meet a stage's boxes and rows with an inflow exactly where they are full of
/// their own turbine, spill, thermal, line and deficit numbers, and these work. They then lead to the states ahead of
/// that branch.
pub fn hydro_stage()
    ensures node { (h : Plants) (m : ℕ) (s : Stage) (stages : List Stage)
        → drop m h.stages ≡ s ∷ stages
        → node_at (problem_of_plants h) m ≡ stage_node h s (following (suc m) stages) }
    ensures decisions { (h : Plants) (units : ℕ) (s : Stage) (successors : List Successor) (past : Past) (i : Inflow) (u : List ℤ)
        → IsPlants h → PastInBounds h units past
        → Decides units (stage_node h s successors) (realization h s.demand i).values (ahead h units past) u
        ↔ (u ≡ full h units past (moment i (choice_of h u)))
        × Works h units s.demand past (moment i (choice_of h u)) }
    ensures next { (h : Plants) (units : ℕ) (s : Stage) (successors : List Successor) (past : Past) (here : Moment)
        → IsPlants h
        → next_state (stage_node h s successors) (full h units past here) ≡ ahead h units (here ∷ past) }
{}

/// The values of a realization are its inflow's water, then its stage's demand.
pub fn realization_values()
    ensures { (h : Plants) (s : Stage) (i : Inflow)
        → length i.water ≡ length h.reservoirs → length s.demand ≡ length h.buses
        → (realization h s.demand i).values ≡ i.water ++ s.demand }
{}

/// A plan is workable exactly where its tree is a policy of the problem that is made, and costs what the tree costs; each
/// policy is the tree of its plan.
pub fn hydro_equivalence()
    ensures workable { (h : Plants) (units : ℕ) (p : Plan)
        → IsPlants h
        → Workable h units p ↔ Policy (problem_of_plants h) units (plan_forest h units p) }
    ensures cost { (h : Plants) (units : ℕ) (p : Plan)
        → IsPlants h
        → plan_cost h units p ≡ policy_cost (problem_of_plants h) units (plan_forest h units p) }
    ensures policy { (h : Plants) (units : ℕ) (t : Forest)
        → IsPlants h → Policy (problem_of_plants h) units t
        → plan_forest h units (plan_of h t) ≡ t }
{}
