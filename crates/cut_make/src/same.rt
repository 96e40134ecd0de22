// Tell whether certificates are the same, by their numbers.
ghost use Rattle.std.specs.Prelude.{◌≡◌, true};

use base_num::List;
use theory::Certificate;

/// Tells whether two lists have the same numbers.
#[tactic(auto, using(crate::proofs::SameFronts::same_more))]
fn are_same_numbers(a: &[i64], b: &[i64]) -> bool
    ensures { result ≡ true → a.now ≡ b.now }
{
    if a.len() != b.len() {
        return false;
    }
    for i in 0..a.len() {
        if a[i] != b[i] {
            return false;
        }
    }
    true
}

/// Tells whether two pairs have the same place and multiplier.
fn is_same_pair(a: (u32, u64), b: (u32, u64)) -> bool
    ensures { result ≡ true → a ≡ b }
{
    a.0 == b.0 && a.1 == b.1
}

/// Tells whether two lists have the same pairs.
#[tactic(auto, using(crate::proofs::SameFronts::same_more))]
fn are_same_pairs(a: &[(u32, u64)], b: &[(u32, u64)]) -> bool
    ensures { result ≡ true → a.now ≡ b.now }
{
    if a.len() != b.len() {
        return false;
    }
    for i in 0..a.len() {
        if !is_same_pair(a[i], b[i]) {
            return false;
        }
    }
    true
}

/// Tells whether the pairs of one successor are the same.
fn has_same_pairs(a: &List<(u32, u64)>, b: &List<(u32, u64)>) -> bool
    ensures { result ≡ true → a.now ≡ b.now }
{
    are_same_pairs(a.as_slice(), b.as_slice())
}

/// Tells whether the pairs of all successors are the same.
#[tactic(auto, using(crate::proofs::SameFronts::same_more))]
pub fn are_same_cuts(a: &[List<(u32, u64)>], b: &[List<(u32, u64)>]) -> bool
    ensures { result ≡ true → a.now ≡ b.now }
{
    if a.len() != b.len() {
        return false;
    }
    for i in 0..a.len() {
        if !has_same_pairs(&a[i], &b[i]) {
            return false;
        }
    }
    true
}

/// Tells whether two certificates are the same.
pub(crate) fn is_same(a: &Certificate, b: &Certificate) -> bool
    ensures { result ≡ true → a.now ≡ b.now }
{
    are_same_numbers(a.rows.as_slice(), b.rows.as_slice())
        && are_same_cuts(a.cuts.as_slice(), b.cuts.as_slice())
}
