// The cells of a line that are not 0.
ghost use Rattle.std.specs.Prelude.{◌≡◌, ◌^◌, ◌+◌, ◌<◌, ◌≤◌, ◌∷◌, ◌++◌, [], length, take};
ghost use Rattle.lp_table.specs.Sparse.{sparse};

use crate::ranged_numbers::Cell;
use base_num::List;

// Puts the cell at place j behind those that count, where it is not 0. The answer is how many count then.
fn keep_step(steps: &mut List<(usize, Cell)>, count: usize, j: usize, cell: Cell) -> usize
    requires room { count < length steps.old }
    requires fits { count + 1 < 2 ^ 64 }
    ensures lengths { length steps.new ≡ length steps.old }
    ensures few { result ≤ count + 1 }
    ensures kept { take result steps.new ≡ take count steps.old ++ sparse j (cell ∷ []) }
{
    if cell.number() == 0 {
        count
    } else {
        steps.set(count, (j, cell));
        count + 1
    }
}

/// Writes the cells of a line that are not 0, each with its place. The answer is how many these are.
#[tactic(auto, using(crate::proofs::Stepping::step_kept, crate::proofs::Stepping::steps_kept))]
pub fn write_steps(line: &[Cell], steps: &mut List<(usize, Cell)>) -> usize
    requires count { length steps.old ≡ length line.now }
    ensures count { length steps.new ≡ length steps.old }
    ensures few { result ≤ length steps.new }
    ensures steps { take result steps.new ≡ sparse 0 line.now }
{
    let mut count = 0;
    for j in 0..line.len() {
        count = keep_step(steps, count, j, line[j]);
    }
    count
}
