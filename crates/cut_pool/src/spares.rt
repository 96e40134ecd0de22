// The memory of entries that are done with.
use crate::entry::{Entry, EntryStep};
use base_num::{List, Spare};
use std::alloc::Global;
use theory::Certificate;

/// The memory of entries that are done with, which serves later entries, those of payloads that are read and those of iterations. No
/// result depends on what is kept.
#[derive(Drop)]
pub struct Spares {
    /// Lists of the multipliers of rows.
    pub rows: Spare<i64>,
    /// Lists of the places of cuts and their multipliers.
    pub pairs: Spare<(u32, u64)>,
    /// Lists of such lists, one per successor.
    pub cuts: Spare<List<(u32, u64)>>,
    /// Lists of certificates, one per realization.
    pub certificates: Spare<Certificate>,
    /// Lists of steps.
    pub steps: Spare<EntryStep>,
}

impl Spares {
    /// Starts with nothing kept.
    pub fn new(alloc: Global) -> Spares {
        Spares {
            rows: Spare::new(alloc),
            pairs: Spare::new(alloc),
            cuts: Spare::new(alloc),
            certificates: Spare::new(alloc),
            steps: Spare::new(alloc),
        }
    }

    /// Takes entries that are done with apart and keeps the memory of their lists.
    pub fn give_back(&mut self, entries: List<Entry>) {
        let mut entries = entries.into_vec();
        while let Some(entry) = entries.pop() {
            self.give_steps(entry);
        }
    }

    // The last list is given first, so that each field of a payload of the same shape finds the memory that it had.
    fn give_steps(&mut self, entry: Entry) {
        let Entry {
            iteration: _,
            unanswered: _,
            steps,
        } = entry;
        let mut steps = steps.into_vec();
        while let Some(step) = steps.pop() {
            self.give_certificates(step);
        }
        self.steps.give(List::from_vec(steps));
    }

    fn give_certificates(&mut self, step: EntryStep) {
        let EntryStep { node: _, list } = step;
        let mut certificates = list.into_vec();
        while let Some(certificate) = certificates.pop() {
            self.give_certificate(certificate);
        }
        self.certificates.give(List::from_vec(certificates));
    }

    fn give_certificate(&mut self, certificate: Certificate) {
        let Certificate { rows, cuts } = certificate;
        self.rows.give(rows);
        let mut lists = cuts.into_vec();
        while let Some(pairs) = lists.pop() {
            self.pairs.give(pairs);
        }
        self.cuts.give(List::from_vec(lists));
    }
}
