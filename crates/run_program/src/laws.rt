// Laws over two runs. A law is the contract of a function with an empty body.
ghost use Rattle.std.specs.Prelude.{◌≡◌, ◌↔◌, ◌≤◌, ◌++◌, ℕ, List, Option, Some, Ok, Err, IsOk};
ghost use Rattle.sha2.specs.Sha256.{sha256};
ghost use Rattle.cut_pool.specs.declared.entry.Entry.{Entry};
ghost use Rattle.problem.specs.declared.refusal.Refusal.{Refusal};
ghost use Rattle.hydro_make.specs.Text.{hydro_at};
ghost use Rattle.journal_file.specs.Layout.{new_title};
ghost use Rattle.journal_file.specs.IsPrefix.{IsPrefix};
ghost use Rattle.hydro_read.specs.declared.refusal.HydroRefusal.{HydroRefusal};
ghost use Rattle.plan_train.specs.Training.{payloads};
ghost use Rattle.run_program.specs.AnyStops.{EndsAlike, IsAsked, Reachable, Trains, whole_training};
ghost use Rattle.run_program.specs.CheckList.{checks, checks_of};
ghost use Rattle.run_program.specs.FirstRefusal.{FindNothing, IsFirst, first};
ghost use Rattle.run_program.specs.HydroList.{hydro_checks};
ghost use Rattle.run_program.specs.Meant.{DescribedFile};
ghost use Rattle.run_program.specs.Outcome.{IsRefused, WithBase, based_at};
ghost use Rattle.run_program.specs.Run.{Devices, PlanLines, telling};
ghost use Rattle.run_program.specs.SoundText.{SoundText};
ghost use Rattle.run_program.specs.declared.status.Status.{Status};
ghost use Rattle.run_words.specs.declared.command.Command.{Command};

use base_device::{Disk, Sink, Source};
use lp_program::Solver;

/// Where the problem of a sound text is the one that `hydro` writes for a description, each bound in a line of the text is at
/// most the cost of each workable plan for what is described.
pub fn bounds_of_plans()
    ensures { (command : Command) (description problem text : List ℕ)
        → hydro_at description ≡ Ok problem → SoundText command problem text → PlanLines description text }
{}

/// The text that `hydro` writes for a description is a problem file whose policies are the workable plans for what is described:
/// each comes with one of the other that costs the same.
pub fn described_file()
    ensures { (description text : List ℕ)
        → hydro_at description ≡ Ok text → DescribedFile description text }
{}

/// Training that is stopped any number of times, each time at any moment, and begun again by the same words, ends as the
/// run from nothing does, whatever the solver: with its status, its journal and its text.
///
/// Of an accepted problem and words within their ranges let bytes be what runs of `train` left that were begun one after
/// another with any COUNT up to this one, the first on a journal that is not committed. Then they stand for the first records
/// of what this COUNT gives, and a run from them ends alike.
pub fn any_stops<V: Solver, I: Source, D: Disk, O: Sink>(solver: &V)
    ensures stands { (bytes content : List ℕ) (b : WithBase) (seed count : ℕ) (batch : Option ℕ)
        → IsAsked bytes b seed batch count
        → Reachable (V.does solver.now) (telling I.left I.faults D.store D.faults O.taken O.faults) bytes seed batch count content
        → (j : ℕ) × IsPrefix (new_title (sha256 bytes) seed batch) (payloads (whole_training (V.does solver.now) bytes b seed batch count).lists) j content }
    ensures ends { (bytes kept : List ℕ) (b : WithBase) (seed count : ℕ) (batch : Option ℕ) (old new : Devices I D O) (status : Status)
        → IsAsked bytes b seed batch count
        → Reachable (V.does solver.now) (telling I.left I.faults D.store D.faults O.taken O.faults) bytes seed batch count kept
        → Trains (V.does solver.now) (telling I.left I.faults D.store D.faults O.taken O.faults) bytes seed batch count kept old new status
        → EndsAlike (V.does solver.now) (telling I.left I.faults D.store D.faults O.taken O.faults) bytes b seed batch count old new status }
{}

/// Of fewer iterations the lists of entries are the first of those of more.
pub fn first_lists<V: Solver>(solver: &V)
    ensures { (bytes : List ℕ) (b : WithBase) (seed fewer count : ℕ) (batch : Option ℕ) → fewer ≤ count
        → (tail : List (List Entry)) × ((whole_training (V.does solver.now) bytes b seed batch count).lists
        ≡ (whole_training (V.does solver.now) bytes b seed batch fewer).lists ++ tail) }
{}

/// The list of checks that docs/use/FORMAT.md has in words says which refusal comes. The bytes of a problem are refused exactly where
/// one of the checks finds a refusal, with the one that the first such check finds: no check before it finds anything. They are
/// accepted, with base cuts in range, exactly where none finds anything.
pub fn first_refusal()
    ensures accepted { (bytes : List ℕ) → IsOk (based_at bytes) ↔ FindNothing bytes (checks bytes) }
    ensures first { (command : Command) (bytes : List ℕ) (r : Refusal) → IsRefused command bytes r ↔ (first (checks_of command bytes) bytes ≡ Some r) }
    ensures none_before { (command : Command) (bytes : List ℕ) (r : Refusal) → IsRefused command bytes r ↔ IsFirst (checks_of command bytes) bytes r }
{}

/// Of a description likewise: the refusal of `hydro` is the one that the first check finds that finds something.
pub fn first_hydro_refusal()
    ensures { (bytes : List ℕ) (r : HydroRefusal) → (hydro_at bytes ≡ Err r) ↔ IsFirst (hydro_checks bytes) bytes r }
{}
