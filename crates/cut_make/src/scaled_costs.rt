// The decisions' costs at a scale, with which the reduced costs of all certificates of a node begin.
ghost use Rattle.std.specs.Prelude.{◌≡◌, ◌≤◌, ◌*ℤ◌, ℕ, ℤ, pos, length, map};
ghost use Rattle.base_num.specs.Sums.{entry};
ghost use Rattle.problem.specs.declared.parts.Decision.{Decision};
ghost use Rattle.cut_make.specs.Tabled.{Tabled};

use crate::reduced_costs::add_costs;
use problem::Decision;

/// The costs of a node's decisions at a scale.
#[derive(Clone, Copy)]
pub(super) struct ScaledCosts<'a> {
    pub(super) scale: i128,
    /// The scale times the cost of each decision, modulo 2^128, and zeros behind these.
    pub(super) costs: &'a [i128],
}

/// Writes the costs of these decisions at a scale over zeros, modulo 2^128.
pub(super) fn write_costs(costs: &mut [i128], scale: i128, decisions: &[Decision])
    requires zeros { Tabled (λ j. pos 0) costs.old }
    requires room { length decisions.now ≤ length costs.old }
    ensures count { length costs.new ≡ length costs.old }
    ensures costs { Tabled (λ j. scale *ℤ entry (map (λ (d : Decision). d.cost) decisions.now) j) costs.new }
{
    add_costs(costs, scale, decisions);
}

impl ScaledCosts<'_> {
    /// Copies the costs into a table that has an entry for each decision.
    pub(super) fn copy_into(&self, table: &mut [i128])
        requires { length table.old ≤ length self.now.costs.now }
        ensures count { length table.new ≡ length table.old }
        ensures costs { (f : ℕ → ℤ) → Tabled f self.now.costs.now → Tabled f table.new }
    {
        let count = table.len();
        table.copy_from_slice(&self.costs[..count]);
    }
}
