// Certificates at the places of their realizations.
ghost use Rattle.std.specs.Prelude.{◌≡◌, ◌<◌, length, replicate, All, IfOk};
ghost use Rattle.plan_backward.specs.Certifying.{blank, in_places, placed};

use crate::certified::Certified;
use base_num::{List, Memory};
use cut_pool::Spares;
use std::alloc::Global;
use theory::Certificate;

/// Makes so many empty certificates, in the memory of those that are done with.
fn blanks(alloc: Global, spares: &mut Spares, count: usize) -> Result<List<Certificate>, Memory>
    ensures { IfOk result (λ list. list ≡ replicate count blank) }
{
    let mut list = spares.certificates.take(alloc).into_vec();
    for _ in 0..count {
        list.push(Certificate {
            rows: List::new(alloc),
            cuts: List::new(alloc),
        })?;
    }
    Ok(List::from_vec(list))
}

/// Moves certificates to the places of their realizations, the last one first.
fn place(list: &mut List<Certificate>, order: &[usize], solved: &mut Vec<Certificate>)
    requires known { All (λ i. i < length list.old) order.now }
    requires count { length solved.old.items ≡ length order.now }
    ensures { list.new ≡ placed order.now solved.old.items list.old }
{
    let mut left = order.len();
    while left > 0 {
        left -= 1;
        if let Some(certificate) = solved.pop() {
            list.set(order[left], certificate);
        }
    }
}

/// Puts certificates in the order of solving back to the places of their realizations. The memory of their list is kept.
pub(crate) fn in_places(
    alloc: Global,
    spares: &mut Spares,
    order: &[usize],
    found: Certified,
) -> Result<Certified, Memory>
    requires known { All (λ i. i < length order.now) order.now }
    requires count { length found.list ≡ length order.now }
    ensures { IfOk result (λ placed. placed ≡ in_places order.now found) }
{
    let Certified { list, unanswered } = found;
    let mut solved = list.into_vec();
    let mut list = blanks(alloc, spares, order.len())?;
    place(&mut list, order, &mut solved);
    spares.certificates.give(List::from_vec(solved));
    Ok(Certified { list, unanswered })
}
