// Devices of a run.

/// A source that holds a problem, a journal, and a sink.
#[derive(Drop)]
pub struct Outside<'a, I, D, O> {
    pub problem: &'a mut I,
    pub journal: &'a mut D,
    pub out: &'a mut O,
}
