// A run over std's bytes in memory.
ghost use Rattle.std.specs.Prelude.{◌≡◌, ◌++◌, ℕ, List, Some};
ghost use Rattle.run_program.specs.SoundText.{SoundText};
ghost use Rattle.run_program.specs.Words.{IsPlanning, asked_command};
ghost use Rattle.run_words.specs.declared.command.Command.{Command};

use crate::outside::Outside;
use crate::status::Status;
use crate::top::run;
use base_device::{Disk, StdSink, StdSource};
use std::alloc::Global;
use std::thread::Threads;

// A run that plans and is Done over a slice and a vector wrote a sound text of the problem in the slice, behind the vector's bytes.
pub(crate) fn run_over_memory<R: Threads + Sync, D: Disk>(
    rt: &R,
    alloc: Global,
    words: &[String],
    problem: &mut StdSource<&[u8]>,
    journal: &mut D,
    out: &mut StdSink<Vec<u8>>,
) -> Status
    ensures { (command : Command) → asked_command words.now ≡ Some command → IsPlanning command → result ≡ Status.Done
        → (text : List ℕ) × SoundText command problem.old.inner.now text × (out.new.inner.items ≡ out.old.inner.items ++ text) }
{
    let outside = Outside {
        problem,
        journal,
        out,
    };
    run(rt, alloc, words, outside)
}
