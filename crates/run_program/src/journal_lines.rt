// The words that say why a journal is refused, and which formula passes its limit.
ghost use Rattle.std.specs.Prelude.{◌≡◌, ◌++◌, OnOk};
ghost use Rattle.hex.specs.Hex.{encode_lower};
ghost use Rattle.run_program.specs.JournalLines.{numbered_words, fault_text, digests_text, certificate_place, certificate_fault_text, refusal_words, journal_refused, journal_refusal_text, too_much_text};
ghost use Rattle.run_program.specs.RefusalLines.{refusal_word};

use crate::refusal_lines::push_word;
use base_num::{Memory, push_bytes};
use cut_make::CertFault;
use journal_load::JournalRefusal;
use problem::TooMuch;
use std::alloc::Global;

/// Two words of text with a number behind each.
fn push_numbered(
    out: &mut Vec<u8>,
    first: &[u8],
    n: u64,
    second: &[u8],
    m: u64,
) -> Result<(), Memory>
    ensures { OnOk result (out.new.items ≡ out.old.items ++ numbered_words first.now n second.now m) }
{
    push_bytes(out, first)?;
    push_word(out, n)?;
    push_bytes(out, second)?;
    push_word(out, m)
}

fn push_named(out: &mut Vec<u8>, name: &[u8], number: u64) -> Result<(), Memory>
    ensures { OnOk result (out.new.items ≡ out.old.items ++ (name.now ++ refusal_word number)) }
{
    push_bytes(out, name)?;
    push_word(out, number)
}

#[tactic(auto, unfolding(crate::specs::JournalLines::fault_text))]
fn push_fault(out: &mut Vec<u8>, fault: CertFault) -> Result<(), Memory>
    ensures { OnOk result (out.new.items ≡ out.old.items ++ fault_text fault) }
{
    match fault {
        CertFault::Shape { realization } => push_named(out, b"Shape", u64::from(realization)),
        CertFault::Sign { realization, row } => {
            push_named(out, b"Sign", u64::from(realization))?;
            push_word(out, u64::from(row))
        }
        CertFault::Cutless {
            realization,
            successor,
            entry,
        } => {
            push_named(out, b"Cutless", u64::from(realization))?;
            push_word(out, u64::from(successor))?;
            push_word(out, u64::from(entry))
        }
        CertFault::Sum {
            realization,
            successor,
        } => {
            push_named(out, b"Sum", u64::from(realization))?;
            push_word(out, u64::from(successor))
        }
        CertFault::Range { realization } => push_named(out, b"Range", u64::from(realization)),
    }
}

fn push_digest(alloc: Global, out: &mut Vec<u8>, digest: &[u8; 32]) -> Result<(), Memory>
    ensures { OnOk result (out.new.items ≡ out.old.items ++ encode_lower digest.now) }
{
    let text = hex::encode(alloc, digest.as_slice())?;
    push_bytes(out, text.as_bytes())
}

/// Two digests, in hexadecimal digits.
#[tactic(auto, unfolding(crate::specs::JournalLines::digests_text))]
fn push_digests(
    alloc: Global,
    out: &mut Vec<u8>,
    kept: &[u8; 32],
    asked: &[u8; 32],
) -> Result<(), Memory>
    ensures { OnOk result (out.new.items ≡ out.old.items ++ digests_text kept.now asked.now) }
{
    push_bytes(out, b"OtherProblem kept ")?;
    push_digest(alloc, out, kept)?;
    push_bytes(out, b" asked ")?;
    push_digest(alloc, out, asked)
}

#[tactic(auto, unfolding(crate::specs::JournalLines::certificate_place))]
fn push_certificate_place(out: &mut Vec<u8>, iteration: u32, node: u32) -> Result<(), Memory>
    ensures { OnOk result (out.new.items ≡ out.old.items ++ certificate_place iteration node) }
{
    push_numbered(
        out,
        b"BadCertificate iteration",
        u64::from(iteration),
        b" node",
        u64::from(node),
    )
}

#[tactic(auto, unfolding(crate::specs::JournalLines::certificate_fault_text))]
fn push_certificate(
    out: &mut Vec<u8>,
    iteration: u32,
    node: u32,
    fault: CertFault,
) -> Result<(), Memory>
    ensures { OnOk result (out.new.items ≡ out.old.items ++ certificate_fault_text iteration node fault) }
{
    push_certificate_place(out, iteration, node)?;
    push_bytes(out, b" ")?;
    push_fault(out, fault)
}

#[tactic(auto, unfolding(crate::specs::JournalLines::refusal_words))]
fn push_refusal_words(
    alloc: Global,
    out: &mut Vec<u8>,
    refusal: &JournalRefusal,
) -> Result<(), Memory>
    ensures { OnOk result (out.new.items ≡ out.old.items ++ refusal_words refusal.now) }
{
    match refusal {
        JournalRefusal::NotAJournal => push_bytes(out, b"NotAJournal"),
        JournalRefusal::OtherVersion { version } => {
            push_named(out, b"OtherVersion", u64::from(*version))
        }
        JournalRefusal::OtherProblem { kept, asked } => push_digests(alloc, out, kept, asked),
        JournalRefusal::OtherSeed { kept, asked } => {
            push_numbered(out, b"OtherSeed kept", *kept, b" asked", *asked)
        }
        JournalRefusal::Short { place } => push_named(out, b"Short at", *place),
        JournalRefusal::TooMany => push_bytes(out, b"TooMany"),
        JournalRefusal::BadLength { iteration, length } => push_numbered(
            out,
            b"BadLength iteration",
            u64::from(*iteration),
            b" length",
            u64::from(*length),
        ),
        JournalRefusal::BadRecord { iteration, place } => push_numbered(
            out,
            b"BadRecord iteration",
            u64::from(*iteration),
            b" at",
            u64::from(*place),
        ),
        JournalRefusal::BadCertificate {
            iteration,
            node,
            fault,
        } => push_certificate(out, *iteration, *node, *fault),
        JournalRefusal::OtherBatch { kept, asked } => push_numbered(
            out,
            b"OtherBatch kept",
            u64::from(*kept),
            b" asked",
            u64::from(*asked),
        ),
        JournalRefusal::BadBatch { batch } => push_named(out, b"BadBatch", u64::from(*batch)),
    }
}

#[tactic(auto, unfolding(crate::specs::JournalLines::journal_refused))]
fn push_refused_words(out: &mut Vec<u8>) -> Result<(), Memory>
    ensures { OnOk result (out.new.items ≡ out.old.items ++ journal_refused) }
{
    push_bytes(out, b"journal refused: ")
}

/// Appends why a journal is refused.
#[tactic(auto, unfolding(crate::specs::JournalLines::journal_refusal_text))]
pub(crate) fn push_journal_refusal(
    alloc: Global,
    out: &mut Vec<u8>,
    refusal: &JournalRefusal,
) -> Result<(), Memory>
    ensures { OnOk result (out.new.items ≡ out.old.items ++ journal_refusal_text refusal.now) }
{
    push_refused_words(out)?;
    push_refusal_words(alloc, out, refusal)
}

/// Appends which formula passes its limit, and what it gives.
#[tactic(auto, unfolding(crate::specs::JournalLines::too_much_text))]
pub(crate) fn push_too_much(out: &mut Vec<u8>, formula: TooMuch) -> Result<(), Memory>
    ensures { OnOk result (out.new.items ≡ out.old.items ++ too_much_text formula) }
{
    push_numbered(
        out,
        b"too much: formula",
        u64::from(formula.which),
        b" gives",
        formula.value,
    )
}
