// Sums of products with numbers at scale 2^24.
ghost use Rattle.std.specs.Prelude.{◌≡◌, ◌<◌, ◌≤◌, ◌^◌, ℤ, ◌+ℤ◌, ◌*ℤ◌, List, length, map, nat_abs, true};
ghost use Rattle.base_num.specs.Sums.{at_terms, dot, entry};
ghost use Rattle.problem.specs.Limits.{terms_fit};
ghost use Rattle.problem.specs.declared.parts.Decision.{Decision};
ghost use Rattle.theory.specs.Problem.{S};
ghost use Rattle.theory.specs.Tree.{times_all};
ghost use Rattle.plan_forward.specs.Amounts.{AreAmounts, AreFactors};

use crate::deciding::scaled;
use problem::Decision;

/// Whole factors in order.
pub(crate) trait Factors {
    ghost factors: { Self → List ℤ };

    fn factor(&self, index: usize) -> i64
        requires { index < length (factors self.now) }
        ensures { result ≡ entry (factors self.now) index };
}

/// Amounts in order, at scale 2^24.
pub(crate) trait Amounts {
    ghost numbers: { Self → List ℤ };

    fn at(&self, index: usize) -> i128
        requires { index < length (numbers self.now) }
        ensures { result ≡ entry (numbers self.now) index };
}

/// Amounts at scale 2^24.
#[derive(Clone, Copy)]
pub(crate) struct Scaled<'a> {
    pub(crate) numbers: &'a [i128],
}

impl Amounts for Scaled<'_> {
    ghost numbers = { λ s. s.numbers.now };

    fn at(&self, index: usize) -> i128 {
        self.numbers[index]
    }
}

/// Whole numbers, which stand for themselves times 2^24.
#[derive(Clone, Copy)]
pub(crate) struct Raised<'a> {
    pub(crate) values: &'a [i64],
}

impl Amounts for Raised<'_> {
    ghost numbers = { λ r. times_all S r.values.now };

    fn at(&self, index: usize) -> i128 {
        scaled(self.values[index])
    }
}

/// Factors that are given.
#[derive(Clone, Copy)]
pub(crate) struct Given<'a> {
    pub(crate) factors: &'a [i64],
}

impl Factors for Given<'_> {
    ghost factors = { λ f. f.factors.now };

    fn factor(&self, index: usize) -> i64 {
        self.factors[index]
    }
}

/// The costs of decisions.
#[derive(Clone, Copy)]
pub(crate) struct Costs<'a> {
    pub(crate) decisions: &'a [Decision],
}

impl Factors for Costs<'_> {
    ghost factors = { λ c. map (λ (d : Decision). d.cost) c.decisions.now };

    fn factor(&self, index: usize) -> i64 {
        self.decisions[index].cost
    }
}

/// The product of a factor and a number.
fn product(factor: i64, number: i128) -> i128
    requires factor { nat_abs factor ≤ 2 ^ 40 }
    requires number { nat_abs number ≤ 2 ^ 64 }
    ensures value { result ≡ factor *ℤ number }
    ensures small { nat_abs result ≤ 2 ^ 104 }
{
    i128::from(factor) * number
}

/// Adds a summand to a sum.
fn more(sum: i128, summand: i128) -> i128
    requires sum { nat_abs sum ≤ 2 ^ 112 }
    requires summand { nat_abs summand ≤ 2 ^ 104 }
    ensures { result ≡ sum +ℤ summand }
{
    sum + summand
}

/// The sum of terms at numbers.
pub(crate) fn terms_sum<N: Amounts>(terms: &[(u32, i64)], numbers: &N) -> i128
    requires amounts { AreAmounts (N.numbers numbers.now) }
    requires fit { terms_fit (length (N.numbers numbers.now)) 0 terms.now ≡ true }
    ensures value { result ≡ at_terms terms.now (entry (N.numbers numbers.now)) }
    ensures small { nat_abs result ≤ 2 ^ 112 }
{
    let mut total: i128 = 0;
    for (variable, factor) in terms {
        total = more(total, product(*factor, numbers.at(*variable as usize)));
    }
    total
}

/// The sum of the products of as many factors with numbers.
pub(crate) fn products_sum<F: Factors, N: Amounts>(count: usize, factors: &F, numbers: &N) -> i128
    requires count { count ≡ length (F.factors factors.now) }
    requires amounts { AreAmounts (N.numbers numbers.now) }
    requires factors { AreFactors (F.factors factors.now) (N.numbers numbers.now) }
    ensures value { result ≡ dot (F.factors factors.now) (N.numbers numbers.now) }
    ensures small { nat_abs result ≤ 2 ^ 112 }
{
    let mut total: i128 = 0;
    for i in 0..count {
        total = more(total, product(factors.factor(i), numbers.at(i)));
    }
    total
}
