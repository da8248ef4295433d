// What goes along with all work.
use std::alloc::Global;

/// What a command works with, other than its devices.
#[derive(Clone, Copy)]
pub struct Context<'a, R, G> {
    /// Who makes threads.
    pub rt: &'a R,
    /// Where memory comes from.
    pub alloc: Global,
    /// Is called by each worker, so that a test may hold it.
    pub gate: &'a G,
}
