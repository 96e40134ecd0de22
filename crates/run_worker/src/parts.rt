// The records of a round as its parts made them, but for the first of each part.
use crate::ending::{Ending, RecordAt};
use crate::reading::payload_from;
use base_device::Source;
use std::alloc::Global;

/// The records of a round as its parts made them, but for the first of each part.
#[derive(Drop)]
pub(crate) struct Round {
    /// Those of the first part in their order, then those of the second, and so on.
    payloads: Vec<Vec<u8>>,
    /// Where the records of each part begin among them, and how many they are.
    spans: Vec<(usize, u32)>,
}

// Reads a record of a part and puts it behind those that were read.
fn read_record<I: Source>(
    alloc: Global,
    input: &mut I,
    round: &mut Round,
    at: RecordAt,
) -> Result<(), Ending> {
    let payload = payload_from(alloc, input, at)?;
    match round.payloads.push(payload) {
        Ok(()) => Ok(()),
        Err(_) => Err(Ending::Memory),
    }
}

// Reads so many records of a part behind its first one.
fn read_others<I: Source>(
    alloc: Global,
    input: &mut I,
    round: &mut Round,
    part: u32,
    count: u32,
) -> Result<(), Ending> {
    for done in 0..count {
        let at = RecordAt {
            part,
            record: done.saturating_add(2),
        };
        read_record(alloc, input, round, at)?;
    }
    Ok(())
}

impl Round {
    /// No records yet.
    pub(crate) fn new(alloc: Global) -> Round {
        Round {
            payloads: Vec::new(alloc),
            spans: Vec::new(alloc),
        }
    }

    /// Reads so many records of the next part behind its first one, which stands elsewhere.
    pub(crate) fn read_part<I: Source>(
        &mut self,
        alloc: Global,
        input: &mut I,
        part: u16,
        count: u32,
    ) -> Result<(), Ending> {
        let first = self.payloads.len();
        read_others(alloc, input, self, u32::from(part) + 1, count)?;
        match self.spans.push((first, count)) {
            Ok(()) => Ok(()),
            Err(_) => Err(Ending::Memory),
        }
    }
}

/// The record that a part made in a turn, from 0. The first ones are not counted.
pub(crate) fn payload_at(round: &Round, part: u16, turn: u32) -> Option<&[u8]> {
    let span = round.spans.as_slice().get(usize::from(part))?;
    if turn >= span.1 {
        return None;
    }
    let payload = round
        .payloads
        .as_slice()
        .get(span.0.checked_add(turn as usize)?)?;
    Some(payload.as_slice())
}

/// The number of turns, but for that of the first records: of the records of the part that made most.
pub(crate) fn turns(round: &Round) -> u32 {
    let mut most = 0;
    for span in round.spans.as_slice() {
        most = span.1.max(most);
    }
    most
}
