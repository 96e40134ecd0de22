// The count of an object's failed calls.
ghost use Rattle.std.specs.Prelude.{◌≡◌, is_ok, IfOk, Ok};
ghost use Rattle.base_device.specs.Causes.{HasCause, one_more, faults_after};

use crate::Failed;

// A count one higher, up to the greatest u64.
pub(crate) fn next(count: u64) -> u64
    ensures { result ≡ one_more count }
{
    count.saturating_add(1)
}

/// Gives the answer of a call over std: one that was refused is counted.
pub fn counted<T, E: Drop>(faults: &mut u64, outcome: Result<T, E>) -> Result<T, Failed>
    ensures value { IfOk result (λ value. outcome ≡ Ok value) }
    ensures same { is_ok result ≡ is_ok outcome }
    ensures cause { HasCause faults.old faults.new result }
    ensures counted { faults.new ≡ faults_after faults.old result }
{
    match outcome {
        Ok(value) => Ok(value),
        Err(_) => {
            *faults = next(*faults);
            Err(Failed)
        }
    }
}
