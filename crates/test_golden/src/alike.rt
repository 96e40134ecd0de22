// Whether programs are of one node.
ghost use Rattle.std.specs.Prelude.{◌≡◌, true};
ghost use Rattle.lp_program.specs.Proper.{IsProper, Extends, IsLike, terms_of};

use crate::proper::is_proper;
use lp_program::{Column, Fx, LpRow, Program};

fn is_same_column(a: &Column, b: &Column) -> bool
    ensures { result ≡ true → a.now ≡ b.now }
{
    a.low == b.low && a.high == b.high && a.cost == b.cost
}

/// Tells whether two lists of columns are the same.
#[tactic(auto, using(cut_make::proofs::SameFronts::same_more))]
fn are_same_columns(a: &[Column], b: &[Column]) -> bool
    ensures { result ≡ true → a.now ≡ b.now }
{
    if a.len() != b.len() {
        return false;
    }
    for i in 0..a.len() {
        if !is_same_column(&a[i], &b[i]) {
            return false;
        }
    }
    true
}

fn is_same_term(a: (u32, Fx), b: (u32, Fx)) -> bool
    ensures { result ≡ true → a ≡ b }
{
    a.0 == b.0 && a.1 == b.1
}

/// Tells whether two lists of terms are the same.
#[tactic(auto, using(cut_make::proofs::SameFronts::same_more))]
fn are_same_terms(a: &[(u32, Fx)], b: &[(u32, Fx)]) -> bool
    ensures { result ≡ true → a.now ≡ b.now }
{
    if a.len() != b.len() {
        return false;
    }
    for i in 0..a.len() {
        if !is_same_term(a[i], b[i]) {
            return false;
        }
    }
    true
}

fn has_same_terms(a: &LpRow, b: &LpRow) -> bool
    ensures { result ≡ true → a.now.terms ≡ b.now.terms }
{
    are_same_terms(a.terms.as_slice(), b.terms.as_slice())
}

/// Tells whether rows have the same terms.
#[tactic(auto, using(crate::proofs::Same::mapped_more))]
fn have_same_terms(a: &[LpRow], b: &[LpRow]) -> bool
    ensures { result ≡ true → terms_of a.now ≡ terms_of b.now }
{
    if a.len() != b.len() {
        return false;
    }
    for i in 0..a.len() {
        if !has_same_terms(&a[i], &b[i]) {
            return false;
        }
    }
    true
}

fn is_same_row(a: &LpRow, b: &LpRow) -> bool
    ensures { result ≡ true → a.now ≡ b.now }
{
    has_same_terms(a, b) && a.low == b.low && a.high == b.high
}

/// Tells whether two lists of rows are the same.
#[tactic(auto, using(cut_make::proofs::SameFronts::same_more))]
fn are_same_rows(a: &[LpRow], b: &[LpRow]) -> bool
    ensures { result ≡ true → a.now ≡ b.now }
{
    if a.len() != b.len() {
        return false;
    }
    for i in 0..a.len() {
        if !is_same_row(&a[i], &b[i]) {
            return false;
        }
    }
    true
}

/// Tells whether two programs have as many columns and rows of each sort.
fn are_counted_alike(a: &Program, b: &Program) -> bool
    ensures decisions { result ≡ true → a.now.decisions ≡ b.now.decisions }
    ensures own { result ≡ true → a.now.own ≡ b.now.own }
{
    a.decisions == b.decisions && a.own == b.own
}

/// Tells whether a chain may begin with a program after a start by a reference.
pub fn extends(reference: &Program, lp: &Program) -> bool
    requires reference { IsProper reference.now }
    ensures { result ≡ true → Extends reference.now lp.now }
{
    let decisions = reference.decisions as usize;
    let own = reference.own as usize;
    is_proper(lp)
        && are_counted_alike(lp, reference)
        && lp.columns.len() == reference.columns.len()
        && are_same_columns(
            &lp.columns.as_slice()[..decisions],
            &reference.columns.as_slice()[..decisions],
        )
        && have_same_terms(
            &lp.rows.as_slice()[..own],
            &reference.rows.as_slice()[..own],
        )
}

/// Tells whether a chain may take a program after another.
pub fn is_like(lp: &Program, other: &Program) -> bool
    requires { IsProper lp.now }
    ensures { result ≡ true → IsLike lp.now other.now }
{
    let own = lp.own as usize;
    is_proper(other)
        && are_counted_alike(lp, other)
        && are_same_columns(lp.columns.as_slice(), other.columns.as_slice())
        && have_same_terms(lp.rows.as_slice(), other.rows.as_slice())
        && are_same_rows(&lp.rows.as_slice()[own..], &other.rows.as_slice()[own..])
}
