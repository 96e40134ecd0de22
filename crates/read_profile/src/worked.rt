// Rows that were worked out by hand, over the small documents of specs/Examples.antt.
ghost use Rattle.std.specs.Prelude.{◌≡◌, pos, negsuc, [], ◌∷◌, map, true, false, Some, None, option_map, codes, bytes_eq, if◌then◌else◌};
ghost use Rattle.read_profile.specs.File.{Function, Constraint, Stage, FileRealization, File, under, whole_number, function_of, constraint_of, objective_of, file_stage_of, realization_of, file_at};
ghost use Rattle.read_profile.specs.Examples.{said, valued, tested, at_node_example, name_twice, no_constant, no_terms, with_point, two_names, quadratic, equal_to_example, greater_than, less_than, interval_example, crossed_interval, integer_example, with_constant, least_example, greatest_example, feasible, two_bounds, only_w, one_reservoir, with_stop, without_values, of_version_2, key_twice};

/// Applies the definitions to small documents. A definition with one word changed gives something else for one of them.
pub fn worked_rows()
    ensures both_terms_count { valued 2 (pos 5) (said function_of name_twice) ≡ Some (pos 29) }
    ensures constant_absent { valued 2 (pos 5) (said function_of no_constant) ≡ Some (negsuc 14) }
    ensures terms_absent { valued 2 (pos 5) (said function_of no_terms) ≡ None }
    ensures point { valued 2 (pos 5) (said function_of with_point) ≡ None }
    ensures other_function { valued 2 (pos 5) (said function_of quadratic) ≡ None }
    ensures name_first { option_map (λ (f : Function). f 1 (λ v. if bytes_eq v (codes "a") then pos 1 else pos 2)) (said function_of two_names)
        ≡ Some (pos 1) }
    ensures equal { tested 2 (pos 5 ∷ pos 6 ∷ pos 7 ∷ []) (said constraint_of equal_to_example)
        ≡ Some (false ∷ true ∷ false ∷ []) }
    ensures greater { tested 2 (pos 5 ∷ pos 6 ∷ pos 7 ∷ []) (said constraint_of greater_than)
        ≡ Some (false ∷ true ∷ true ∷ []) }
    ensures less { tested 2 (pos 5 ∷ pos 6 ∷ pos 7 ∷ []) (said constraint_of less_than)
        ≡ Some (true ∷ true ∷ false ∷ []) }
    ensures between { tested 2 (pos 5 ∷ pos 6 ∷ pos 10 ∷ pos 11 ∷ []) (said constraint_of interval_example)
        ≡ Some (false ∷ true ∷ true ∷ false ∷ []) }
    ensures crossed { tested 1 (pos 2 ∷ pos 3 ∷ pos 4 ∷ pos 5 ∷ pos 6 ∷ []) (said constraint_of crossed_interval)
        ≡ Some (false ∷ false ∷ false ∷ false ∷ false ∷ []) }
    ensures other_set { tested 1 (pos 0 ∷ []) (said constraint_of integer_example) ≡ None }
    ensures constant_counts { tested 2 (pos 3 ∷ pos 4 ∷ []) (said constraint_of with_constant)
        ≡ Some (false ∷ true ∷ []) }
    ensures sense_min { valued 2 (pos 5) (said objective_of least_example) ≡ Some (pos 5) }
    ensures sense_max { valued 2 (pos 5) (said objective_of greatest_example) ≡ None }
    ensures sense_feasibility { valued 2 (pos 5) (said objective_of feasible) ≡ Some (pos 0) }
    ensures bounds_of_stage { option_map (λ (t : Stage). map (λ (c : Constraint). c 1 (λ v. pos 6)) t.constraints) (said file_stage_of two_bounds)
        ≡ Some (true ∷ false ∷ []) }
    ensures states_of_stage { option_map (λ (t : Stage). t.states) (said file_stage_of two_bounds)
        ≡ Some (record { name = codes "v"; before = codes "v_in"; after = codes "v_out" } ∷ []) }
    ensures randoms_of_stage { option_map (λ (t : Stage). t.randoms) (said file_stage_of two_bounds) ≡ Some (codes "w" ∷ []) }
    ensures weight { option_map (λ (r : FileRealization). r.weight) (said realization_of only_w) ≡ Some 2 }
    ensures value_given { option_map (λ (r : FileRealization). r.support (codes "w")) (said realization_of only_w)
        ≡ Some (Some (pos 3)) }
    ensures value_left_out { option_map (λ (r : FileRealization). r.support (codes "u")) (said realization_of only_w) ≡ Some None }
    ensures last_of_equal_keys { said (under (codes "a") whole_number) key_twice ≡ Some (pos 2) }
    ensures initial_value { option_map (λ (f : File). f.initial (codes "v")) (file_at one_reservoir) ≡ Some (Some (pos 4)) }
    ensures names_in_order { option_map (λ (f : File). f.names) (file_at with_stop)
        ≡ Some (codes "a" ∷ codes "b" ∷ codes "c" ∷ []) }
    ensures successors_in_order { at_node_example (λ n. n.successors) (codes "a") (file_at with_stop)
        ≡ Some (record { node = codes "b"; weight = 3 } ∷ record { node = codes "c"; weight = 5 } ∷ []) }
    ensures stop { at_node_example (λ n. n.stop) (codes "a") (file_at with_stop) ≡ Some 2 }
    ensures no_stop { at_node_example (λ n. n.stop) (codes "b") (file_at with_stop) ≡ Some 0 }
    ensures no_realizations { at_node_example (λ n. map (λ (r : FileRealization). r.weight) n.realizations) (codes "a") (file_at without_values)
        ≡ Some (1 ∷ []) }
    ensures no_values { at_node_example (λ n. map (λ (r : FileRealization). r.support (codes "w")) n.realizations) (codes "a") (file_at without_values)
        ≡ Some (None ∷ []) }
    ensures other_version { option_map (λ (f : File). f.names) (file_at of_version_2) ≡ None }
{}
