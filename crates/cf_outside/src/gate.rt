// Places where a test may hold a worker.

/// Is called at set places by the threads of a load. A gate promises nothing but to return.
pub trait Gate: Sync {
    /// A writer is about to append the row of that number.
    fn before_append(&self, writer: u8, num: u32);

    /// The reader has ended that round of asks.
    fn after_ask(&self, round: u32);
}

/// A gate that holds nobody.
#[derive(Clone, Copy, Debug, PartialEq, Eq)]
pub struct FreeGate;

impl Gate for FreeGate {
    fn before_append(&self, _writer: u8, _num: u32) {}

    fn after_ask(&self, _round: u32) {}
}
