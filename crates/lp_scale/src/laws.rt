// The law that the first table rests on.
ghost use Rattle.std.specs.Prelude.{◌≡◌};
ghost use Rattle.lp_program.specs.declared.programs.Program.{Program};
ghost use Rattle.lp_program.specs.Proper.{IsProper};
ghost use Rattle.lp_scale.specs.First.{first_of, own_part};

/// The first table of a program is that of the program without its cuts, in which the columns that
/// belong to successors stand at 0 and cost nothing.
pub fn first_of_own_part()
    ensures { (lp : Program) → IsProper lp → first_of (own_part lp) ≡ first_of lp }
{}
