// The reader gives what a problem file says. The law is the contract of a function with an empty body.
ghost use Rattle.std.specs.Prelude.{◌≡◌, ℕ, List, Ok, IsSomeAnd};
ghost use Rattle.problem.specs.declared.parts.ProblemParts.{ProblemParts};
ghost use Rattle.read_profile.specs.File.{file_at};
ghost use Rattle.read_file.specs.Read.{problem_parts_of};
ghost use Rattle.read_file.specs.Said.{FileSaid};

/// Bytes that the reader accepts are a file, which says by names what the reader gives by numbers: states, nodes with their
/// stages, realizations, successors and weights.
pub fn file_said()
    ensures { (bytes : List ℕ) (parts : ProblemParts)
        → problem_parts_of bytes ≡ Ok parts → IsSomeAnd (file_at bytes) (FileSaid parts) }
{}
