// What can happen to a coordinator and its hosts.

/// `Cover`: the host covers one more record. `Begin`: freezing begins. `Freeze`: the host's tail stands still.
/// `Reply`: the coordinator gets the host's tail. `Release`: the cut is fixed. `Thaw`: the host is free again.
#[derive(Clone, Copy, Debug, PartialEq, Eq)]
pub enum SnapEvent {
    Cover(u8),
    Begin,
    Freeze(u8),
    Reply(u8),
    Release,
    Thaw(u8),
}
