// The text of a generated problem.
ghost use Rattle.std.specs.Prelude.{◌≡◌, ◌≤◌, IfOk, IsOk};
ghost use Rattle.serde_json.specs.View.{view, members_view};
ghost use Rattle.plan_draw.specs.Drawn.{stream_of};
ghost use Rattle.read_file.specs.Problem.{problem_at};
ghost use Rattle.theory.specs.Range.{based};
ghost use Rattle.hydro_gen.specs.Generated.{generated_initial_values, generated_root, problem, words, generated};

use crate::names::reservoir_name;
use crate::nodes::{nodes, pair};
use crate::stage::subproblem;
use crate::words::stream_of;
use base_num::Memory;
use hydro_form::text_of;
use serde_json::{Map, Value};
use std::alloc::{AllocError, Global};

fn initial_values(alloc: Global, reservoirs: u32) -> Result<Map<String, Value>, AllocError>
    requires { reservoirs ≤ 10 }
    ensures { IfOk result (λ m. members_view m.entries ≡ generated_initial_values reservoirs) }
{
    let mut map = Map::new(alloc);
    for reservoir in 0..reservoirs {
        let name = reservoir_name(b'v', reservoir);
        serde_json::put(&mut map, alloc, text_of(&name), Value::from(50u32))?;
    }
    Ok(map)
}

#[tactic(auto, unfolding(crate::specs::Generated::generated_root))]
fn root(alloc: Global, reservoirs: u32) -> Result<Value, AllocError>
    requires { reservoirs ≤ 10 }
    ensures { IfOk result (λ v. view v ≡ generated_root reservoirs) }
{
    let states = initial_values(alloc, reservoirs)?;
    let successors = pair(alloc, 0, 1, 1)?;
    hydro_form::root(alloc, states, successors)
}

#[tactic(auto, unfolding(crate::specs::Generated::problem))]
fn problem(alloc: Global, seed: u64, stages: u32, reservoirs: u32) -> Result<Value, AllocError>
    requires stages { stages ≤ 500 }
    requires few { reservoirs ≤ 10 }
    ensures { IfOk result (λ v. view v ≡ problem (words seed) stages reservoirs) }
{
    let nodes = nodes(alloc, &mut stream_of(seed), stages, reservoirs)?;
    let root = root(alloc, reservoirs)?;
    let stage = subproblem(alloc, reservoirs)?;
    hydro_form::problem(alloc, nodes, root, stage)
}

/// A problem file to try out and to measure with, as compact JSON with its keys in byte order, and a newline.
///
/// It plans a chain of reservoirs over some stages. At each stage there is a dry node and a wet one, of ten realizations
/// each, and the next stage is three times as often of the same kind as of the other. A reservoir holds 0 to 100 and
/// begins with 50; it turbines up to 30, and spills; what it lets down comes to the next one at the same stage. All
/// turbines, and sources at a cost of 5, 20 and 200 that give up to 10, 10 and 40 for each reservoir, carry a load of 25
/// for each reservoir. All numbers are whole.
///
/// The inflows are drawn by stage, kind, realization and reservoir, one word each of the stream 2^33 of ChaCha20
/// (Bernstein 2008, RFC 8439) with the key of the seed in little-endian order and 24 zero bytes: the word modulo 11 at
/// a dry node, and 10 plus the word modulo 21 at a wet one.
///
/// There are 1 to 500 stages and 1 to 10 reservoirs. The reader accepts the text, and the base cuts of its problem are
/// in range. [`Memory`] where memory was refused.
#[tactic(auto, unfolding(crate::specs::Generated::generated))]
pub fn generate(alloc: Global, seed: u64, stages: u32, reservoirs: u32) -> Result<Vec<u8>, Memory>
    requires stages { (1 ≤ stages) × (stages ≤ 500) }
    requires reservoirs { (1 ≤ reservoirs) × (reservoirs ≤ 10) }
    ensures text { IfOk result (λ text. text.items ≡ generated seed stages reservoirs) }
    ensures accepted { IfOk result (λ text. IsOk (problem_at text.items)) }
    ensures base_fits { IfOk result
        (λ text. IfOk (problem_at text.items) (λ problem. IsOk (based problem))) }
{
    let value = problem(alloc, seed, stages, reservoirs)?;
    let mut text = value.to_vec(alloc)?;
    text.push(b'\n')?;
    Ok(text)
}
