// Rows that were worked out by hand, over the descriptions of specs/Examples.antt.
ghost use Rattle.std.specs.Prelude.{◌≡◌, pos, [], ◌∷◌, map};
ghost use Rattle.std.specs.List.{flat_map};
ghost use Rattle.serde_json.specs.Data.{array, object};
ghost use Rattle.serde_json.specs.View.{items_of};
ghost use Rattle.serde_json.specs.Written.{compact_text};
ghost use Rattle.theory.specs.Problem.{node_at};
ghost use Rattle.theory.specs.Tree.{no_branch, branch, no_tree, tree};
ghost use Rattle.hydro_make.specs.Made.{problem_of_plants};
ghost use Rattle.hydro_make.specs.PlanCost.{choice_cost, plan_cost};
ghost use Rattle.hydro_make.specs.Trees.{ahead, plan_forest};
ghost use Rattle.hydro_make.specs.Columns.{columns, column_name};
ghost use Rattle.hydro_make.specs.Stage.{rows, bounds_of, objective, states, zero_row, water_sum};
ghost use Rattle.hydro_make.specs.Nodes.{nodes};
ghost use Rattle.hydro_make.specs.Text.{hydro_root, hydro_text};
ghost use Rattle.hydro_make.specs.Examples.{one_stage, one_stage_node, one_stage_text, cascade_names, cascade_rows_text, cascade_bounds_text, cascade_objective_text, cascade_states_text, cascade_nodes_text, cascade_root_text, at_once_row_text, nine_plan, cascade, two_stages_node, at_once_rows, moving, still};

/// The definitions' values on small descriptions.
pub fn worked_rows()
    ensures one_stage { node_at (problem_of_plants one_stage) 0 ≡ one_stage_node }
    ensures one_stage_cost { plan_cost one_stage 2 nine_plan ≡ record { up = pos 90; under = 2 } }
    ensures one_stage_tree { plan_forest one_stage 2 nine_plan
        ≡ tree (branch (pos 18 ∷ pos 0 ∷ []) no_tree no_branch) no_tree }
    ensures two_stages { node_at (problem_of_plants (cascade 2)) 0 ≡ two_stages_node }
    ensures initial { (problem_of_plants (cascade 2)).initial ≡ pos 0 ∷ pos 0 ∷ pos 5 ∷ pos 6 ∷ [] }
    ensures at_once { (node_at (problem_of_plants (cascade 0)) 1).rows ≡ at_once_rows }
    ensures spill_costs { choice_cost (cascade 2) 1 moving.choice ≡ record { up = pos 3; under = 1 } }
    ensures just_left { ahead (cascade 2) 1 (moving ∷ []) ≡ pos 0 ∷ pos 4 ∷ pos 8 ∷ pos 4 ∷ [] }
    ensures under_way { ahead (cascade 2) 1 (still ∷ moving ∷ []) ≡ pos 4 ∷ pos 0 ∷ pos 8 ∷ pos 5 ∷ [] }
    ensures arrived { ahead (cascade 2) 1 (still ∷ still ∷ moving ∷ [])
        ≡ pos 0 ∷ pos 0 ∷ pos 8 ∷ pos 10 ∷ [] }
    ensures arrived_at_once { ahead (cascade 0) 1 (moving ∷ []) ≡ pos 8 ∷ pos 8 ∷ [] }
{}

/// The texts that the definitions write of small descriptions.
pub fn worked_texts()
    ensures one_stage { hydro_text one_stage ≡ one_stage_text }
    ensures columns { map (column_name (cascade 2)) (columns (cascade 2)) ≡ cascade_names }
    ensures rows { compact_text (array (items_of (rows (cascade 2)))) ≡ cascade_rows_text }
    ensures bounds { compact_text (array (items_of (flat_map (bounds_of (cascade 2)) (columns (cascade 2)))))
        ≡ cascade_bounds_text }
    ensures objective { compact_text (objective (cascade 2)) ≡ cascade_objective_text }
    ensures states { compact_text (object (states (cascade 2))) ≡ cascade_states_text }
    ensures nodes { compact_text (object (nodes (cascade 2))) ≡ cascade_nodes_text }
    ensures root { compact_text (hydro_root (cascade 2)) ≡ cascade_root_text }
    ensures at_once { compact_text (zero_row (cascade 0) (water_sum (cascade 0) 1)) ≡ at_once_row_text }
{}
