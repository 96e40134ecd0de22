// Records whose payloads come one by one, from no journal.
ghost use Rattle.std.specs.Prelude.{◌≡◌, ◌≢◌, ◌≤◌, ◌<◌, ◌+◌, ◌^◌, ℕ, length, Ok, IfOk, IfErr, OnOk};
ghost use Rattle.theory.specs.Range.{based};
ghost use Rattle.journal_load.specs.declared.refusal.LoadFault.TheVariants as faults;
ghost use Rattle.journal_load.specs.Accepted.{IsGathered};
ghost use Rattle.journal_load.specs.Records.{fresh_found, gathered_found, payload_added};
ghost use Rattle.journal_load.specs.Refusals.{LoadGives};

use crate::records::{Gathered, add_record, check_formulas, decode};
use crate::refusal::LoadFault;
use crate::values::root_values;
use base_num::{List, Memory};
use cut_pool::{Pools, Spares};
use problem::Problem;
use std::alloc::Global;

/// The outcome of no records over the base cuts of a problem. [`Memory`] where memory was refused.
pub fn gathered_base(alloc: Global, problem: &Problem, base: Pools) -> Result<Gathered, Memory>
    requires { based problem.now ≡ Ok base.lists }
    ensures value { IfOk result (λ g. gathered_found g ≡ fresh_found base.lists) }
    ensures gathered { IfOk result (λ g. (batch : ℕ) → IsGathered problem.now batch 0 g) }
{
    let _ = problem.parts();
    let values = root_values(alloc, problem, &base)?;
    Ok(Gathered {
        pools: base,
        values,
        bounds: List::new(alloc),
        unanswered: 0,
    })
}

/// Checks the payload of one more record and adds its cuts and its bound, as loading does with a record of a journal. The
/// refusals come in the same order: `TooMuch` by the formulas with as many iterations as the record's number, `BadRecord`, and
/// `BadCertificate` at the first step that is not accepted. After a refusal nothing is promised of what was gathered.
///
/// The spares lend the memory of earlier records' entries, and take that of this one's.
#[tactic(auto, unfolding(crate::specs::Records::payload_added))]
pub fn add_payload(
    alloc: Global,
    spares: &mut Spares,
    problem: &Problem,
    batch: u16,
    payload: &[u8],
    found: &mut Gathered,
) -> Result<(), LoadFault>
    requires some { 1 ≤ batch }
    requires most { batch ≤ 64 }
    requires count { length found.old.bounds < 2000 }
    requires short { length payload.now ≤ 2 ^ 26 }
    requires gathered { IsGathered problem.now batch (length found.old.bounds) found.old }
    ensures value { LoadGives (λ _. gathered_found found.new) result (payload_added problem.now batch payload.now (gathered_found found.old)) }
    ensures gathered { OnOk result (IsGathered problem.now batch (length found.new.bounds) found.new) }
    ensures count { OnOk result (length found.new.bounds ≡ length found.old.bounds + 1) }
    ensures own { IfErr result (λ fault. fault ≢ faults.DiskFault) }
{
    let _ = problem.parts();
    let iteration = found.bounds.len() as u32 + 1;
    check_formulas(problem, iteration, batch)?;
    let entries = decode(alloc, spares, problem, iteration, batch, payload)?;
    add_record(alloc, problem, entries.as_slice(), found)?;
    spares.give_back(entries);
    Ok(())
}
