// A generated problem, from its numbers to the sink.
ghost use Rattle.std.specs.Prelude.{◌≡◌, ◌≤◌, true, IfOk, IsOk};
ghost use Rattle.hydro_gen.specs.Generated.{generated};
ghost use Rattle.run_program.specs.Causes.{ExplainsProblem};
ghost use Rattle.run_program.specs.Kinds.{writes_nothing};
ghost use Rattle.run_program.specs.Outcome.{based_at};

use crate::status::Status;
use crate::writing::put;
use base_device::Sink;
use base_num::Memory;
use hydro_gen::generate;
use std::alloc::Global;

/// The text of the problem, whose base cuts the program can make.
fn text_of(alloc: Global, seed: u64, stages: u32, reservoirs: u32) -> Result<Vec<u8>, Memory>
    requires stages { (1 ≤ stages) × (stages ≤ 500) }
    requires reservoirs { (1 ≤ reservoirs) × (reservoirs ≤ 10) }
    ensures text { IfOk result (λ v. v.items ≡ generated seed stages reservoirs) }
    ensures accepted { IfOk result (λ v. IsOk (based_at v.items)) }
{
    generate(alloc, seed, stages, reservoirs)
}

/// Writes the problem that a seed draws.
pub(crate) fn write_problem<O: Sink>(
    alloc: Global,
    seed: u64,
    stages: u32,
    reservoirs: u32,
    out: &mut O,
) -> Status
    requires stages { (1 ≤ stages) × (stages ≤ 500) }
    requires reservoirs { (1 ≤ reservoirs) × (reservoirs ≤ 10) }
    ensures cause { ExplainsProblem (generated seed stages reservoirs) (O.taken out.old) (O.taken out.new) (O.faults out.old) (O.faults out.new) result }
    ensures unwritten { writes_nothing result ≡ true → out.new ≡ out.old }
{
    let Ok(text) = text_of(alloc, seed, stages, reservoirs) else {
        return Status::Memory;
    };
    match put(out, text.as_slice()) {
        Ok(()) => Status::Done,
        Err(_) => Status::WriteFault,
    }
}
