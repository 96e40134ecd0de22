// The reader gives what a subproblem says in the file. The law is the contract of a function with an empty body.
ghost use Rattle.std.specs.Prelude.{◌≡◌, ℕ, List, map, Ok, IsSomeAnd};
ghost use Rattle.serde_json.specs.Data.{Data};
ghost use Rattle.problem.specs.declared.parts.State.{State};
ghost use Rattle.problem.specs.declared.parts.Subproblem.{Subproblem};
ghost use Rattle.read_profile.specs.File.{file_stage_of};
ghost use Rattle.read_stage.specs.Subproblem.{read_subproblem_at};
ghost use Rattle.read_stage.specs.Said.{StageSaid};

/// The stage that a subproblem of the file says is the one that the reader gives: its constraints are kept exactly
/// where boxes, rows and given bounds are, and it costs the same.
pub fn stage_said()
    ensures { (states : List State) (p : ℕ) (k : List ℕ) (d : Data) (s : Subproblem)
        → read_subproblem_at states p k d ≡ Ok s
        → IsSomeAnd (file_stage_of d) (λ st. StageSaid (map (λ (q : State). q.name) states) st s) }
{}
