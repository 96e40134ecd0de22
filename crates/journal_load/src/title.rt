// Whether a journal is the asked one.
ghost use Rattle.std.specs.Prelude.{◌≡◌, ◌≢◌, IfErr};
ghost use Rattle.journal_load.specs.declared.refusal.LoadFault.TheVariants as faults;
ghost use Rattle.journal_load.specs.Load.{same_problem, same_seed, same_batch, title_asked};

use crate::refusal::{JournalRefusal, LoadFault};

fn check_problem(asked: &[u8; 32], kept: &[u8; 32]) -> Result<(), LoadFault>
    ensures value { result ≡ same_problem asked.now kept.now }
    ensures own { IfErr result (λ fault. fault ≢ faults.DiskFault) }
{
    if kept == asked {
        return Ok(());
    }
    Err(LoadFault::Refused(JournalRefusal::OtherProblem {
        kept: *kept,
        asked: *asked,
    }))
}

fn check_seed(asked: Option<u64>, kept: u64) -> Result<(), LoadFault>
    ensures value { result ≡ same_seed asked kept }
    ensures own { IfErr result (λ fault. fault ≢ faults.DiskFault) }
{
    match asked {
        Some(asked) if asked != kept => {
            Err(LoadFault::Refused(JournalRefusal::OtherSeed { kept, asked }))
        }
        _ => Ok(()),
    }
}

fn check_batch(asked: Option<u16>, kept: u16) -> Result<(), LoadFault>
    ensures value { result ≡ same_batch asked kept }
    ensures own { IfErr result (λ fault. fault ≢ faults.DiskFault) }
{
    match asked {
        Some(asked) if asked != kept => {
            Err(LoadFault::Refused(JournalRefusal::OtherBatch { kept, asked }))
        }
        _ => Ok(()),
    }
}

/// The digest is the asked one, and so are the seed and the batch where they are asked.
#[tactic(auto, unfolding(crate::specs::Load::title_asked))]
pub(crate) fn check_title(
    digest: &[u8; 32],
    seed: Option<u64>,
    batch: Option<u16>,
    kept: &[u8; 32],
    own: u64,
    paths: u16,
) -> Result<(), LoadFault>
    ensures value { result ≡ title_asked digest.now seed batch kept.now own paths }
    ensures own { IfErr result (λ fault. fault ≢ faults.DiskFault) }
{
    check_problem(digest, kept)?;
    check_seed(seed, own)?;
    check_batch(batch, paths)
}
