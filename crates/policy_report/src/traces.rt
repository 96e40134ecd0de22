// The report of traces.
ghost use Rattle.std.specs.Prelude.{◌≡◌, ◌<◌, ◌++◌, All, IfOk, OnErr, OnOk, length};
ghost use Rattle.std.specs.Io.{StartsWith};
ghost use Rattle.problem.specs.Validated.{subproblem_of};
ghost use Rattle.policy_report.specs.Lines.{numbered};
ghost use Rattle.policy_report.specs.SoundLines.{SoundLines};
ghost use Rattle.policy_report.specs.Traces.{AreTraceStepsKnown, cost_line, end_line, in_lines, kind_word, named_line, own_lines, random_lines, row_line, scenario_line, scenario_text, stage_line, trace_step_text, trace_text, value_lines};
ghost use Rattle.theory.specs.Pools.{Sound};
ghost use Rattle.theory.specs.View.{problem_of};
ghost use Rattle.cut_pool.specs.AtNodes.{PoolsFit};

use crate::cuts::{push_bound, push_word};
use crate::head::push_head;
use base_num::{Memory, Name, push_bytes, push_name};
use cut_pool::Pools;
use lp_program::Kind;
use plan_forward::{Trace, TraceStep};
use problem::{Decision, Problem, State};
use std::alloc::Global;

fn push_kind(out: &mut Vec<u8>, kind: Kind) -> Result<(), Memory>
    ensures { OnOk result (out.new.items ≡ out.old.items ++ kind_word kind) }
{
    match kind {
        Kind::Found => push_bytes(out, b" found"),
        Kind::Ray => push_bytes(out, b" ray"),
        Kind::Stuck => push_bytes(out, b" stuck"),
    }
}

fn push_named(out: &mut Vec<u8>, what: &[u8], name: &Name, number: i128) -> Result<(), Memory>
    ensures { OnOk result (out.new.items ≡ out.old.items ++ named_line what.now name.now number) }
{
    push_bytes(out, what)?;
    push_name(out, name.as_str())?;
    push_word(out, number)?;
    push_bytes(out, b"\n")
}

fn push_state(out: &mut Vec<u8>, states: &[State], numbers: &[i128]) -> Result<(), Memory>
    ensures { OnOk result (out.new.items ≡ out.old.items ++ in_lines states.now numbers.now) }
{
    for i in 0..states.len().min(numbers.len()) {
        push_named(out, b"in ", &states[i].name, numbers[i])?;
    }
    Ok(())
}

fn push_values(out: &mut Vec<u8>, randoms: &[Name], values: &[i64]) -> Result<(), Memory>
    ensures { OnOk result (out.new.items ≡ out.old.items ++ random_lines randoms.now values.now) }
{
    for i in 0..randoms.len().min(values.len()) {
        push_named(out, b"random ", &randoms[i], i128::from(values[i]))?;
    }
    Ok(())
}

fn push_decisions(out: &mut Vec<u8>, decisions: &[Decision], numbers: &[i128]) -> Result<(), Memory>
    ensures { OnOk result (out.new.items ≡ out.old.items ++ value_lines decisions.now numbers.now) }
{
    for i in 0..decisions.len().min(numbers.len()) {
        push_named(out, b"value ", &decisions[i].name, numbers[i])?;
    }
    Ok(())
}

/// Appends the line of a row, with its number from 0 on, and of its residual, which is at scale 2^24.
///
/// After `Memory` a first part of it may stand in `out`, behind what stood there before.
pub fn push_row(out: &mut Vec<u8>, row: usize, residual: i128) -> Result<(), Memory>
    ensures ok { OnOk result (out.new.items ≡ out.old.items ++ row_line row residual) }
    ensures err { OnErr result (StartsWith out.new.items out.old.items) }
{
    push_bytes(out, b"row")?;
    push_word(out, row as i128)?;
    push_bytes(out, b" residual")?;
    push_word(out, residual)?;
    push_bytes(out, b"\n")
}

fn push_rows(out: &mut Vec<u8>, residuals: &[i128]) -> Result<(), Memory>
    ensures { OnOk result (out.new.items ≡ out.old.items ++ numbered row_line 0 residuals.now) }
{
    for (row, residual) in residuals.iter().enumerate() {
        push_row(out, row, *residual)?;
    }
    Ok(())
}

fn push_stage(out: &mut Vec<u8>, stage: usize, step: &TraceStep) -> Result<(), Memory>
    ensures { OnOk result (out.new.items ≡ out.old.items ++ stage_line stage step.now) }
{
    push_bytes(out, b"stage")?;
    push_word(out, stage as i128)?;
    push_bytes(out, b" node")?;
    push_word(out, i128::from(step.node))?;
    push_kind(out, step.kind)?;
    push_bytes(out, b"\n")
}

fn push_cost(out: &mut Vec<u8>, cost: i128) -> Result<(), Memory>
    ensures { OnOk result (out.new.items ≡ out.old.items ++ cost_line cost) }
{
    push_bytes(out, b"cost")?;
    push_word(out, cost)?;
    push_bytes(out, b"\n")
}

/// The values and decisions of a step.
fn push_own(out: &mut Vec<u8>, problem: &Problem, step: &TraceStep) -> Result<(), Memory>
    requires { step.now.node < length problem.now.parts.nodes }
    ensures { OnOk result (out.new.items ≡ out.old.items ++ own_lines (subproblem_of problem.now step.now.node) step.now) }
{
    let own = problem.sub(step.node);
    push_values(out, own.randoms.as_slice(), step.values.as_slice())?;
    push_decisions(out, own.decisions.as_slice(), step.decisions.as_slice())
}

#[tactic(auto, unfolding(crate::specs::Traces::trace_step_text))]
fn push_step(
    out: &mut Vec<u8>,
    problem: &Problem,
    stage: usize,
    step: &TraceStep,
) -> Result<(), Memory>
    requires { step.now.node < length problem.now.parts.nodes }
    ensures { OnOk result (out.new.items ≡ out.old.items ++ trace_step_text problem.now stage step.now) }
{
    push_stage(out, stage, step)?;
    push_state(
        out,
        problem.parts().states.as_slice(),
        step.state.as_slice(),
    )?;
    push_own(out, problem, step)?;
    push_rows(out, step.residuals.as_slice())?;
    push_cost(out, step.cost)
}

fn push_steps(out: &mut Vec<u8>, problem: &Problem, steps: &[TraceStep]) -> Result<(), Memory>
    requires { All (λ step. step.node < length problem.now.parts.nodes) steps.now }
    ensures { OnOk result (out.new.items ≡ out.old.items ++ numbered (trace_step_text problem.now) 0 steps.now) }
{
    for (stage, step) in steps.iter().enumerate() {
        push_step(out, problem, stage, step)?;
    }
    Ok(())
}

fn push_title(out: &mut Vec<u8>, scenario: usize) -> Result<(), Memory>
    ensures { OnOk result (out.new.items ≡ out.old.items ++ scenario_line scenario) }
{
    push_bytes(out, b"scenario")?;
    push_word(out, scenario as i128)?;
    push_bytes(out, b"\n")
}

fn push_end(out: &mut Vec<u8>, total: i128) -> Result<(), Memory>
    ensures { OnOk result (out.new.items ≡ out.old.items ++ end_line total) }
{
    push_bytes(out, b"end")?;
    push_word(out, total)?;
    push_bytes(out, b"\n")
}

#[tactic(auto, unfolding(crate::specs::Traces::scenario_text))]
fn push_scenario(
    out: &mut Vec<u8>,
    problem: &Problem,
    scenario: usize,
    trace: &Trace,
) -> Result<(), Memory>
    requires { AreTraceStepsKnown problem.now trace.now }
    ensures { OnOk result (out.new.items ≡ out.old.items ++ scenario_text problem.now scenario trace.now) }
{
    push_title(out, scenario)?;
    push_steps(out, problem, trace.steps.as_slice())?;
    push_end(out, trace.cost)
}

fn push_scenarios(out: &mut Vec<u8>, problem: &Problem, traces: &[Trace]) -> Result<(), Memory>
    requires { All (AreTraceStepsKnown problem.now) traces.now }
    ensures { OnOk result (out.new.items ≡ out.old.items ++ numbered (scenario_text problem.now) 0 traces.now) }
{
    for (scenario, trace) in traces.iter().enumerate() {
        push_scenario(out, problem, scenario, trace)?;
    }
    Ok(())
}

/// The report of traces: the head, each scenario with its steps, and the line of the bound over the pools. A step has a
/// line for its stage, node and kind, one for each state, random variable, decision and row with its number, and one for
/// its cost; a scenario ends with the sum of its costs. States, decisions, residuals and costs are at scale 2^24, values
/// are whole.
///
/// Each step is at a node of the problem, with one number per state, random variable, decision and row of that node; of
/// lists of other lengths lines stand as far as the names go. Over sound pools the text is sound line by line: its one
/// claim is the bound.
#[tactic(auto, unfolding(crate::specs::Traces::trace_text))]
pub fn trace_report(
    alloc: Global,
    problem: &Problem,
    pools: &Pools,
    traces: &[Trace],
) -> Result<Vec<u8>, Memory>
    requires fit { PoolsFit problem.now pools.now.lists }
    requires known { All (AreTraceStepsKnown problem.now) traces.now }
    ensures text { IfOk result (λ v. v.items ≡ trace_text problem.now pools.now.lists traces.now) }
    ensures sound { Sound (problem_of problem.now) pools.now.lists → IfOk result (λ v. SoundLines (problem_of problem.now) v.items) }
{
    let mut out = Vec::new(alloc);
    push_head(&mut out, problem.parts())?;
    push_scenarios(&mut out, problem, traces)?;
    push_bound(&mut out, pools.bound(problem))?;
    Ok(out)
}
