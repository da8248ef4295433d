//! A snapshot over several hosts: a coordinator freezes the tails of all hosts, collects them and releases them.
//!
//! `Snap` is the coordinator and its hosts by themselves, moved by events; an event that isn't lawful changes nothing. The
//! laws say, of every list of events, that a cut is of one moment. `Host` is a host that runs, with a log; each of its calls is an
//! event. `take_snapshot` drives hosts, each with the rows of a `Course`, and a `Snap` through the events of a snapshot.
#![tactic(auto)]

mod course;
mod event;
mod host;
mod laws;
mod snap;
mod take;

pub use course::{Course, Untaken};
pub use event::SnapEvent;
pub use host::Host;
pub use laws::{
    cuts_are_of_one_moment, cuts_come_by_release, cuts_end_at_the_last_freeze,
    cuts_have_all_earlier, plans_have_cuts,
};
pub use snap::{Snap, snap_step};
pub use take::{Pace, Snapshot, take_snapshot};
