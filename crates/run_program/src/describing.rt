// The problem that a description of hydro plants means, from the source to the sink.
ghost use Rattle.std.specs.Prelude.{◌≡◌, true, IfOk, IsOk};
ghost use Rattle.hydro_make.specs.Text.{hydro_at};
ghost use Rattle.hydro_read.specs.Steps.{HydroGives};
ghost use Rattle.run_program.specs.Causes.{ExplainsDescribed};
ghost use Rattle.run_program.specs.Kinds.{writes_nothing};
ghost use Rattle.run_program.specs.Outcome.{based_at};

use crate::reading::{GatherFault, gather};
use crate::status::Status;
use crate::writing::put;
use base_device::{Sink, Source};
use hydro_accept::laws::made_accepted;
use hydro_make::make;
use hydro_read::HydroFault;
use std::alloc::Global;

/// The text of the problem that a description means, whose base cuts the program can make; or its first refusal.
fn text_of(alloc: Global, description: &[u8]) -> Result<Vec<u8>, HydroFault>
    ensures text { HydroGives (λ v. v.items) result (hydro_at description.now) }
    ensures accepted { IfOk result (λ v. IsOk (based_at v.items)) }
{
    made_accepted();
    make(alloc, description)
}

/// Writes the problem that the description in the source means.
pub(crate) fn write_described<I: Source, O: Sink>(
    alloc: Global,
    description: &mut I,
    out: &mut O,
) -> Status
    ensures cause { ExplainsDescribed (I.left description.old) (I.left description.new) (I.faults description.old) (I.faults description.new) (O.taken out.old) (O.taken out.new) (O.faults out.old) (O.faults out.new) result }
    ensures unwritten { writes_nothing result ≡ true → out.new ≡ out.old }
{
    let bytes = match gather(alloc, description) {
        Ok(bytes) => bytes,
        Err(GatherFault::ReadFault) => return Status::ReadFault,
        Err(GatherFault::TooLong) => return Status::TooLong,
        Err(GatherFault::Memory) => return Status::Memory,
    };
    let text = match text_of(alloc, bytes.as_slice()) {
        Ok(text) => text,
        Err(HydroFault::Refused(refusal)) => return Status::HydroRefused(refusal),
        Err(HydroFault::Memory) => return Status::Memory,
    };
    match put(out, text.as_slice()) {
        Ok(()) => Status::Done,
        Err(_) => Status::WriteFault,
    }
}
