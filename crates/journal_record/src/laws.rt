// The laws over the definitions. Each is the contract of a function with an empty body.
ghost use Rattle.std.specs.Prelude.{◌≡◌, ◌<◌, ◌≤◌, ◌+◌, ℕ, List, length, All, Ok, None, true};
ghost use Rattle.std.specs.List.{AllByRecursion};
ghost use Rattle.problem.specs.Formulas.{record_bytes};
ghost use Rattle.problem.specs.Validated.{Validated, is_validated};
ghost use Rattle.cut_pool.specs.declared.entry.Entry.{Entry};
ghost use Rattle.cut_pool.specs.declared.entry.EntryStep.{EntryStep};
ghost use Rattle.journal_record.specs.Spelling.{spell};
ghost use Rattle.journal_record.specs.Shape.{IsBatch, PairsWithin, Writable, is_path_backwards};
ghost use Rattle.journal_record.specs.Backwards.{IsPathFromRoot, nodes_back};
ghost use Rattle.journal_record.specs.Reading.{read_batch};

/// Each batch has one text, and no other batch has it: reading gives back the batch that was spelled, and a batch that is read
/// has the bytes as its text.
pub fn one_spelling()
    ensures again { (p : Validated) (iteration count : ℕ) (list : List Entry)
        → is_validated p ≡ true → IsBatch p iteration count list
        → read_batch p iteration count (spell list) ≡ Ok list }
    ensures spelled { (p : Validated) (iteration count : ℕ) (bytes : List ℕ) (list : List Entry)
        → All (λ b. b < 256) bytes → read_batch p iteration count bytes ≡ Ok list
        → IsBatch p iteration count list × (bytes ≡ spell list) }
{}

/// The text of entries is no longer than the formula for the bytes of a record says, where no list has more than
/// `cuts + 1` pairs.
pub fn bytes_of_a_payload()
    ensures { (p : Validated) (cuts batch : ℕ) (list : List Entry)
        → is_validated p ≡ true → length list ≤ batch → AllByRecursion (Writable p) list
        → AllByRecursion (PairsWithin (cuts + 1)) list
        → length (spell list) ≤ record_bytes p.parts cuts batch }
{}

/// Steps can stand in an entry exactly where their nodes, read backwards, are a path from the root.
pub fn paths_read_backwards()
    ensures backwards { (p : Validated) (steps : List EntryStep) → is_validated p ≡ true
        → IsPathFromRoot p (nodes_back steps) → is_path_backwards p None steps ≡ true }
    ensures path { (p : Validated) (steps : List EntryStep) → 0 < length steps
        → is_path_backwards p None steps ≡ true → IsPathFromRoot p (nodes_back steps) }
{}
