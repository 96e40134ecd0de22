// Rows that were worked out by hand, over the problem and the text of specs/Examples.antt.
ghost use Rattle.std.specs.Prelude.{◌≡◌, [], ◌∷◌, ◌++◌, Ok, Err, take};
ghost use Rattle.journal_record.specs.Spelling.{spell};
ghost use Rattle.journal_record.specs.Reading.{read_batch};
ghost use Rattle.journal_record.specs.Examples.{chain, two_steps, head, first_step_example, second_step, pair_example};

/// The definitions' values on a chain of two nodes: a text, the entry that it is, and the places of faults.
pub fn worked_rows()
    ensures text { spell (two_steps ∷ []) ≡ head 3 2 ++ first_step_example 1 ++ second_step 0 1 ++ pair_example }
    ensures entry { read_batch chain 3 1 (head 3 2 ++ first_step_example 1 ++ second_step 0 1 ++ pair_example) ≡ Ok (two_steps ∷ []) }
    ensures other_iteration { read_batch chain 4 1 (head 3 2 ++ first_step_example 1 ++ second_step 0 1 ++ pair_example) ≡ Err 0 }
    ensures no_steps { read_batch chain 3 1 (head 3 0) ≡ Err 8 }
    ensures too_many_steps { read_batch chain 3 1 (head 3 3 ++ first_step_example 1 ++ second_step 0 1 ++ pair_example) ≡ Err 8 }
    ensures unknown_node { read_batch chain 3 1 (head 3 2 ++ first_step_example 2 ++ second_step 0 1 ++ pair_example) ≡ Err 10 }
    ensures no_successor { read_batch chain 3 1 (head 3 2 ++ first_step_example 1 ++ second_step 1 1 ++ pair_example) ≡ Err 20 }
    ensures not_from_root { read_batch chain 3 1 (head 3 1 ++ first_step_example 1) ≡ Err 10 }
    ensures pair_missing { read_batch chain 3 1 (head 3 2 ++ first_step_example 1 ++ second_step 0 2 ++ pair_example) ≡ Err 46 }
    ensures half_a_pair { read_batch chain 3 1 (head 3 2 ++ first_step_example 1 ++ second_step 0 1 ++ take 11 pair_example) ≡ Err 38 }
    ensures pair_too_many { read_batch chain 3 1 (head 3 2 ++ first_step_example 1 ++ second_step 0 0 ++ pair_example) ≡ Err 34 }
    ensures second_iteration { read_batch chain 3 2 (head 3 2 ++ first_step_example 1 ++ second_step 0 1 ++ pair_example ++ head 4 2) ≡ Err 46 }
{}
