// A journal that is loaded for decisions over its pools.
ghost use Rattle.std.specs.Prelude.{◌≡◌, None, Ok, Err, IfOk, IfSome};
ghost use Rattle.base_num.specs.Steps.{GivesOr};
ghost use Rattle.base_device.specs.Disks.{Stays};
ghost use Rattle.theory.specs.Range.{based};
ghost use Rattle.cut_pool.specs.AtNodes.{PoolsFit};
ghost use Rattle.journal_file.specs.Causes.{DiskCause};
ghost use Rattle.journal_load.specs.Accepted.{IsSafe};
ghost use Rattle.journal_load.specs.Load.{seen_outcome};
ghost use Rattle.journal_load.specs.declared.refusal.LoadFault.TheVariants as faults;
ghost use Rattle.run_program.specs.Loading.{NotLoaded};
ghost use Rattle.run_program.specs.Outcome.{loaded_within, unless_much};

use base_device::Disk;
use base_num::Memory;
use cut_pool::Pools;
use journal_load::{Asked, LoadFault, Loaded, load};
use plan_stage::prepare;
use problem::{Problem, TooMuch};
use std::alloc::Global;

/// Makes the loaded pools ready for stage problems. [`Memory`] where memory was refused.
pub(crate) fn prepared(alloc: Global, problem: &Problem, loaded: Loaded) -> Result<Loaded, Memory>
    requires { PoolsFit problem.now loaded.pools.lists }
    ensures { IfOk result (λ l. l ≡ loaded) }
{
    let mut loaded = loaded;
    prepare(alloc, problem, &mut loaded.pools)?;
    Ok(loaded)
}

/// Gives back what was loaded, unless a formula is above its limit.
fn unless_much(formula: Option<TooMuch>, loaded: Loaded) -> Result<Loaded, LoadFault>
    ensures value { GivesOr NotLoaded seen_outcome result (unless_much formula (seen_outcome loaded)) }
    ensures same { IfOk result (λ l. l ≡ loaded) }
    ensures kept { IfOk result (λ l. formula ≡ None) }
    ensures cause { ¬ (result ≡ Err faults.DiskFault) }
{
    match formula {
        None => Ok(loaded),
        Some(formula) => Err(LoadFault::TooMuch(formula)),
    }
}

/// The journal, loaded, unless the formula is above its limit; what the formula gives is looked at behind the loading. The
/// pools are ready for stage problems.
#[tactic(auto, unfolding(crate::specs::Outcome::loaded_within))]
pub(crate) fn load_within<D: Disk>(
    alloc: Global,
    problem: &Problem,
    pools: Pools,
    journal: &mut D,
    digest: &[u8; 32],
    formula: Option<TooMuch>,
) -> Result<Loaded, LoadFault>
    requires base { based problem.now ≡ Ok pools.lists }
    ensures value { IfSome (D.store journal.old).reads (λ kept. GivesOr NotLoaded seen_outcome result
        (loaded_within problem.now pools.lists digest.now formula kept)) }
    ensures safe { IfOk result (IsSafe problem.now) }
    ensures kept { IfOk result (λ l. formula ≡ None) }
    ensures stays { Stays (D.store journal.old) (D.store journal.new) }
    ensures cause { DiskCause (D.faults journal.old) (D.faults journal.new) (result ≡ Err faults.DiskFault) }
{
    let asked = Asked {
        digest,
        seed: None,
        batch: None,
    };
    let loaded = load(alloc, problem, pools, journal, &asked)?;
    let loaded = unless_much(formula, loaded)?;
    Ok(prepared(alloc, problem, loaded)?)
}
