// The bytes of entries.
ghost use Rattle.std.specs.Prelude.{◌≡◌, ◌<◌, ◌≤◌, ◌^◌, ◌++◌, [], ◌∷◌, length, All, OnOk, IfOk, FitsSigned};
ghost use Rattle.std.specs.Int.{w64};
ghost use Rattle.std.specs.List.{flat_map, AllByRecursion};
ghost use Rattle.journal_record.specs.Spelling.{row_text, pair_text, pairs_text, certificate_text, step_text, entry_text, spell};
ghost use Rattle.journal_record.specs.Shape.{CertificateFits, CountsFit, EntryFits, NodeFits, PairFits, PairsFit, StepFits, StepsFit, Writable};

use crate::sizes::validated;
use base_num::{List, Memory};
use cut_pool::{Certificate, Entry, EntryStep};
use problem::Problem;
use std::alloc::Global;

fn put_row(out: &mut Vec<u8>, row: i64) -> Result<(), Memory>
    ensures text { OnOk result (out.new.items ≡ out.old.items ++ row_text row) }
    ensures number { FitsSigned w64 row }
{
    out.extend_from_slice(&row.to_be_bytes())?;
    Ok(())
}

fn put_rows(out: &mut Vec<u8>, rows: &[i64]) -> Result<(), Memory>
    ensures text { OnOk result (out.new.items ≡ out.old.items ++ flat_map row_text rows.now) }
    ensures numbers { OnOk result (All (λ z. FitsSigned w64 z) rows.now) }
{
    for row in rows {
        put_row(out, *row)?;
    }
    Ok(())
}

fn put_pair(out: &mut Vec<u8>, place: u32, multiplier: u64) -> Result<(), Memory>
    ensures text { OnOk result (out.new.items ≡ out.old.items ++ pair_text (place, multiplier)) }
    ensures numbers { PairFits (place, multiplier) }
{
    out.extend_from_slice(&place.to_be_bytes())?;
    out.extend_from_slice(&multiplier.to_be_bytes())?;
    Ok(())
}

fn put_pairs(out: &mut Vec<u8>, pairs: &[(u32, u64)]) -> Result<(), Memory>
    requires { length pairs.now < 2 ^ 32 }
    ensures text { OnOk result (out.new.items ≡ out.old.items ++ pairs_text pairs.now) }
    ensures numbers { OnOk result (PairsFit pairs.now) }
{
    out.extend_from_slice(&(pairs.len() as u32).to_be_bytes())?;
    for pair in pairs {
        put_pair(out, pair.0, pair.1)?;
    }
    Ok(())
}

fn put_cuts(out: &mut Vec<u8>, cuts: &[List<(u32, u64)>]) -> Result<(), Memory>
    requires { All (λ qs. length qs < 2 ^ 32) cuts.now }
    ensures text { OnOk result (out.new.items ≡ out.old.items ++ flat_map pairs_text cuts.now) }
    ensures numbers { OnOk result (All PairsFit cuts.now) }
{
    for pairs in cuts {
        put_pairs(out, pairs.as_slice())?;
    }
    Ok(())
}

fn put_certificate(out: &mut Vec<u8>, certificate: &Certificate) -> Result<(), Memory>
    requires { CountsFit certificate.now }
    ensures text { OnOk result (out.new.items ≡ out.old.items ++ certificate_text certificate.now) }
    ensures numbers { OnOk result (CertificateFits certificate.now) }
{
    put_rows(out, certificate.rows.as_slice())?;
    put_cuts(out, certificate.cuts.as_slice())?;
    Ok(())
}

fn put_certificates(out: &mut Vec<u8>, list: &[Certificate]) -> Result<(), Memory>
    requires { All CountsFit list.now }
    ensures text { OnOk result (out.new.items ≡ out.old.items ++ flat_map certificate_text list.now) }
    ensures numbers { OnOk result (All CertificateFits list.now) }
{
    for certificate in list {
        put_certificate(out, certificate)?;
    }
    Ok(())
}

fn put_step(out: &mut Vec<u8>, step: &EntryStep) -> Result<(), Memory>
    requires { NodeFits step.now }
    ensures text { OnOk result (out.new.items ≡ out.old.items ++ step_text step.now) }
    ensures numbers { OnOk result (StepFits step.now) }
{
    out.extend_from_slice(&(step.node as u16).to_be_bytes())?;
    put_certificates(out, step.list.as_slice())?;
    Ok(())
}

fn put_steps(out: &mut Vec<u8>, steps: &[EntryStep]) -> Result<(), Memory>
    requires { All NodeFits steps.now }
    ensures text { OnOk result (out.new.items ≡ out.old.items ++ flat_map step_text steps.now) }
    ensures numbers { OnOk result (All StepFits steps.now) }
{
    for step in steps {
        put_step(out, step)?;
    }
    Ok(())
}

fn put_entry(out: &mut Vec<u8>, entry: &Entry) -> Result<(), Memory>
    requires { StepsFit entry.now }
    ensures text { OnOk result (out.new.items ≡ out.old.items ++ entry_text entry.now) }
    ensures numbers { OnOk result (EntryFits entry.now) }
{
    out.extend_from_slice(&entry.iteration.to_be_bytes())?;
    out.extend_from_slice(&entry.unanswered.to_be_bytes())?;
    out.extend_from_slice(&(entry.steps.len() as u16).to_be_bytes())?;
    put_steps(out, entry.steps.as_slice())?;
    Ok(())
}

fn put_entries(alloc: Global, list: &[Entry]) -> Result<Vec<u8>, Memory>
    requires { All StepsFit list.now }
    ensures text { IfOk result (λ bytes. bytes.items ≡ spell list.now) }
    ensures numbers { OnOk result (All EntryFits list.now) }
{
    let mut out = Vec::new(alloc);
    for entry in list {
        put_entry(&mut out, entry)?;
    }
    Ok(out)
}

/// The text of entries, one after another. Memory where memory was refused.
///
/// Of an entry: the iteration (4 bytes), the unanswered solves (4), the number of steps (2), and the steps. Of a step:
/// the node (2), and for each of its realizations one multiplier per row (8 each), and then for each successor the
/// number of pairs (4) and the pairs, a cut's place (4) and its multiplier (8). Numbers are big-endian; a row's
/// multiplier is in two's complement.
pub fn encode_batch(alloc: Global, problem: &Problem, list: &[Entry]) -> Result<Vec<u8>, Memory>
    requires shape { AllByRecursion (Writable problem.now) list.now }
    requires short { length (spell list.now) ≤ 2 ^ 26 }
    ensures text { IfOk result (λ bytes. bytes.items ≡ spell list.now) }
    // So it is a batch for [`decode_batch`](crate::decode_batch), where the entries are of one iteration.
    ensures numbers { OnOk result (AllByRecursion EntryFits list.now) }
{
    validated(problem);
    put_entries(alloc, list)
}

/// The text of one entry, as that of a list of it. Memory where memory was refused.
pub fn encode(alloc: Global, problem: &Problem, entry: &Entry) -> Result<Vec<u8>, Memory>
    requires shape { Writable problem.now entry.now }
    requires short { length (spell (entry.now ∷ [])) ≤ 2 ^ 26 }
    ensures text { IfOk result (λ bytes. bytes.items ≡ spell (entry.now ∷ [])) }
    ensures numbers { OnOk result (EntryFits entry.now) }
{
    validated(problem);
    let mut out = Vec::new(alloc);
    put_entry(&mut out, entry)?;
    Ok(out)
}
