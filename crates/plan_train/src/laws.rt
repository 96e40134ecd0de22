// The laws over the definitions. Each is the contract of a function with an empty body.
ghost use Rattle.std.specs.Prelude.{◌≡◌, ◌<◌, ◌≤◌, ℕ, true, List, [], ◌++◌, length, Option, None, Some, Ok, All};
ghost use Rattle.problem.specs.Formulas.{too_much};
ghost use Rattle.problem.specs.Validated.{Validated, is_validated};
ghost use Rattle.theory.specs.Range.{based};
ghost use Rattle.theory.specs.declared.cut.Cut.{Cut};
ghost use Rattle.cut_pool.specs.declared.entry.Entry.{Entry};
ghost use Rattle.journal_file.specs.Layout.{IsTitle, journal, new_title};
ghost use Rattle.journal_file.specs.IsPrefix.{IsPrefix};
ghost use Rattle.journal_load.specs.Load.{Outcome, load_of};
ghost use Rattle.plan_train.specs.Resuming.{Resumes, unstopped};
ghost use Rattle.plan_train.specs.Stored.{StandsThere};
ghost use Rattle.plan_train.specs.Training.{GoesOnWith, HoldsPrefix, grown_journal, payloads, title_of};

use lp_program::Solver;

/// Training that is stopped within any write, and resumed, gives what unstopped training gives, whatever the solver.
///
/// Of at most 2,000 iterations from the base cuts, for which the formulas are kept, let bytes stand for the first `j`
/// lists, or for none of them while the journal is not committed. Then they are loaded with these lists, and with the pools
/// and bounds behind them; and the iterations that go on from there give the other lists, the other bounds, the same
/// pools and the same stop, so that the journal grows to the same bytes.
pub fn resume_equals_unstopped<V: Solver>(solver: &V)
    ensures { (p : Validated) (base : List (List Cut)) (digest : List ℕ) (seed count : ℕ) (asked : Option ℕ) (j : ℕ) (bytes : List ℕ)
        → is_validated p ≡ true → based p ≡ Ok base → IsTitle (new_title digest seed asked)
        → count ≤ 2000 → too_much p count (new_title digest seed asked).batch ≡ None
        → IsPrefix (new_title digest seed asked) (payloads (unstopped (V.does solver.now) p base (new_title digest seed asked) count).lists) j bytes
        → (o : Outcome) × Resumes (V.does solver.now) p base (new_title digest seed asked) asked count j bytes o }
{}

/// The loaded lists stand in the bytes: a journal with a committed header has its head, with the asked seed and batch where they are asked, then
/// the records of the lists, and a commit byte of 0; a journal that is not committed gives no list.
///
/// So with more lists behind those that were loaded, training leaves the journal of all of them. And bytes that stand
/// for some of all these lists stand for those that were loaded, behind which the others go on.
pub fn loaded_as_stored()
    ensures stands { (p : Validated) (base : List (List Cut)) (digest : List ℕ) (seed batch : Option ℕ) (bytes : List ℕ) (o : Outcome) (lists : List (List Entry))
        → All (λ b. b < 256) bytes → load_of p base digest seed batch bytes ≡ Ok (o, lists)
        → StandsThere base digest seed batch bytes o lists }
    ensures grows { (base : List (List Cut)) (digest : List ℕ) (seed : ℕ) (batch : Option ℕ) (bytes : List ℕ) (o : Outcome) (lists more : List (List Entry))
        → StandsThere base digest (Some seed) batch bytes o lists
        → grown_journal digest seed o bytes more ≡ journal (title_of digest seed o) (payloads (lists ++ more)) 0 [] }
    ensures prefix { (base : List (List Cut)) (digest : List ℕ) (seed : ℕ) (batch : Option ℕ) (bytes : List ℕ) (o : Outcome) (lists more : List (List Entry)) (j : ℕ)
        → StandsThere base digest (Some seed) batch bytes o lists
        → IsPrefix (title_of digest seed o) (payloads (lists ++ more)) j bytes
        → (j ≡ length lists) × HoldsPrefix (title_of digest seed o) o (payloads (lists ++ more)) j bytes }
    ensures more { (lists more : List (List Entry)) → GoesOnWith (length lists) (payloads (lists ++ more)) more }
{}
