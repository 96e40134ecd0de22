// The warm simplex, as a solver of one program after another.
ghost use Rattle.std.specs.Prelude.{◌≡◌, ◌+◌, ◌*◌, ◌^◌, nat_le, Option, Some, IfOk, IfSome, OnOk};
ghost use Rattle.lp_program.specs.declared.programs.Program.{Program};
ghost use Rattle.lp_program.specs.declared.programs.Answer.{Answer};
ghost use Rattle.lp_program.specs.Proper.{IsProper, IsReference, Extends, IsLike};
ghost use Rattle.lp_scale.specs.First.{first_of};
ghost use Rattle.lp_scale.specs.Fitting.{Suits, Fits};
ghost use Rattle.lp_solve.specs.Going.{go_of};
ghost use Rattle.lp_solve.specs.Suiting.{suits_is_fact};
ghost use Rattle.lp_solve.specs.Chains.{readied, started_of, begun_of, next_of_chain, takes_long};

use crate::attempts::{is_good, next_answer, widened};
use crate::going::go;
use crate::turns::WorkRoom;
use base_num::{List, Memory};
use lp_program::{Answer, Solver, StageLp};
use lp_scale::first;
use lp_scan::Room as ScanRoom;
use lp_table::WarmTable;
use std::alloc::Global;
use std::marker::Model;

// Below so much work a second chain, which begins once more, costs more of the processors' time than a second thread saves on
// the clock. A column, a row and a solve take some 3 ns (measured), so this is some 3 ms, where a thread with memory of its own
// takes some 0.1 ms.
const LEAST_WORK: usize = 1 << 20;

// The number of cuts that have rows in a table, by and large.
const FEW_CUTS: usize = 8;

/// The bounded dual simplex method (Lemke, 1954; Wagner, 1958) with bound flips (Maros, 2003), on a table of 64-bit
/// numbers that is scaled by powers of two and refined on the program's own rows, with rows only of the cuts that were asked
/// for. A chain goes on from the table that the program before it left, and begins from one that belongs to the node alone.
/// Its last resort is the same method in [`wide`](lp_wide::wide) numbers.
pub struct WarmSimplex;

/// The memory of a chain: the table that its last program left, if there is one, and lists for work, on which no answer
/// depends.
#[derive(Drop)]
pub struct Chain {
    table: Option<WarmTable>,
    room: WorkRoom,
}

impl Model for Chain {
    ghost use Rattle.std.specs.Prelude.{Option};
    ghost use Rattle.lp_table.specs.declared.table.WarmTable.{WarmTable};

    ghost Value = { Option WarmTable };

    ghost view = { λ c. c.table };
}

// Gives the memory of a chain that is done with, and else memory that is new.
fn memory_of(alloc: Global, spare: Option<Chain>) -> (Option<WarmTable>, WorkRoom) {
    match spare {
        Some(Chain { table, room }) => (table, room),
        None => (None, new_room(alloc)),
    }
}

fn new_room(alloc: Global) -> WorkRoom {
    WorkRoom {
        violations: List::new(alloc),
        line: List::new(alloc),
        steps: List::new(alloc),
        shifts: List::new(alloc),
        flips: List::new(alloc),
        candidates: List::new(alloc),
        scan: ScanRoom::new(alloc),
    }
}

// The table after turns that came to something good, else as it was before them.
#[tactic(auto, using(crate::proofs::Trying::readied_on, crate::proofs::Likeness::ready_suits))]
fn ready(alloc: Global, lp: &StageLp, mut table: WarmTable) -> Result<Option<WarmTable>, Memory>
    requires proper { IsProper lp.now }
    requires suits { Suits table lp.now }
    requires reference { IsReference lp.now }
    requires fits { Fits table lp.now }
    requires first { first_of lp.now ≡ Some table }
    ensures table { IfOk result (λ found. found ≡ Some (readied table (go_of lp.now table))) }
    ensures suits { IfOk result (λ found. IfSome found (λ t. Suits t lp.now)) }
{
    let mut room = new_room(alloc);
    let answer = go(alloc, lp, &mut table, &mut room)?;
    if is_good(&answer, table.weak) {
        Ok(Some(table))
    } else {
        first(alloc, lp)
    }
}

// Makes a start by a program of own rows: the table that its solve leaves, and its first table where that is of no use.
#[tactic(auto, unfolding(crate::specs::Chains::started_of), using(crate::proofs::Likeness::reference_fits))]
fn started(alloc: Global, lp: &StageLp) -> Result<Option<WarmTable>, Memory>
    requires proper { IsProper lp.now }
    requires reference { IsReference lp.now }
    ensures table { IfOk result (λ table. table ≡ started_of lp.now) }
    ensures suits { IfOk result (λ table. IfSome table (λ t. Suits t lp.now)) }
{
    match first(alloc, lp)? {
        None => Ok(None),
        Some(table) => ready(alloc, lp, table),
    }
}

// Copies a table, into the memory of another one where there is one.
fn copied(alloc: Global, table: &WarmTable, spare: Option<WarmTable>) -> Result<WarmTable, Memory>
    ensures { IfOk result (λ found. found ≡ table.now) }
{
    let Some(mut found) = spare else {
        return table.copy(alloc, FEW_CUTS);
    };
    found.write_over(alloc, table, FEW_CUTS)?;
    Ok(found)
}

// The table of a chain that begins with a program, in the memory of a table that is done with.
#[tactic(auto, unfolding(crate::specs::Chains::begun_of))]
fn begun(
    alloc: Global,
    start: &Option<WarmTable>,
    lp: &StageLp,
    spare: Option<WarmTable>,
) -> Result<Option<WarmTable>, Memory>
    requires proper { IsProper lp.now }
    requires suits { IfSome start.now (λ t. Suits t lp.now) }
    ensures table { IfOk result (λ table. table ≡ begun_of start.now lp.now) }
    ensures fits { IfOk result (λ table. IfSome table (λ t. Fits t lp.now)) }
{
    match start {
        None => Ok(None),
        Some(table) => widened(alloc, copied(alloc, table, spare)?, lp),
    }
}

// Tells whether so many solves take long, by the cells of the own rows and of the rows of a few cuts.
fn takes_long(columns: usize, own: usize, solves: usize) -> bool
    ensures { result ≡ nat_le (2 ^ 20) (columns * (own + 8) * solves) }
{
    let rows = own.saturating_add(FEW_CUTS);
    columns.saturating_mul(rows).saturating_mul(solves) >= LEAST_WORK
}

impl Solver for WarmSimplex {
    type Start = Option<WarmTable>;

    type Chain = Chain;

    ghost does = { λ _. record { started = started_of; begun = begun_of; next = next_of_chain; in_two = takes_long } };

    ghost suits = { λ _ start lp. IfSome start (λ t. Suits t lp) };

    ghost suits_is_fact = { λ _ start lp. suits_is_fact start lp };

    ghost fits = { λ _ chain lp. IfSome chain (λ t. Fits t lp) };

    fn start(&self, alloc: Global, lp: &StageLp) -> Result<Option<WarmTable>, Memory> {
        started(alloc, lp)
    }

    fn begin(
        &self,
        alloc: Global,
        start: &Option<WarmTable>,
        lp: &StageLp,
        spare: &mut Option<Chain>,
    ) -> Result<Chain, Memory> {
        let (left, room) = memory_of(alloc, spare.take());
        let table = begun(alloc, start, lp, left)?;
        Ok(Chain { table, room })
    }

    fn solve(&self, alloc: Global, chain: &mut Chain, lp: &StageLp) -> Result<Answer, Memory> {
        let table = chain.table.take();
        let (answer, table) = next_answer(alloc, lp, table, &mut chain.room)?;
        chain.table = table;
        Ok(answer)
    }

    #[tactic(auto, unfolding(crate::specs::Chains::takes_long))]
    fn in_two_chains(&self, lp: &StageLp, solves: usize) -> bool {
        takes_long(lp.columns().len(), lp.own(), solves)
    }
}
