// A coordinator and its hosts.
ghost use Rattle.std.specs.Prelude.{◌≡◌, ◌≤◌, IfOk, option_map, length, set, true};

use crate::SnapEvent;
use cf_row::Memory;
use std::alloc::Global;
use std::marker::Model;

/// A coordinator, and hosts of which only the tails are known: 1 to 16.
#[derive(Debug, Drop)]
pub struct Snap {
    tails: Vec<u32>,
    frozen: Vec<bool>,
    replies: Vec<u32>,
    replied: Vec<bool>,
    has_begun: bool,
    is_released: bool,
}

impl Model for Snap {
    ghost use Rattle.cf_snapshot.specs.Snapshots.{SnapValue, IsSnapshot, snapshot_of};

    ghost Value = { SnapValue };

    ghost view = { λ s. snapshot_of s.tails.items s.frozen.items s.replies.items s.replied.items s.has_begun s.is_released };

    ghost invariant = { λ s. IsSnapshot (snapshot_of s.tails.items s.frozen.items s.replies.items s.replied.items s.has_begun s.is_released) };
}

impl Snap {
    ghost use Rattle.cf_snapshot.specs.Snapshots.{IsSnapshot, at_start, is_host as is_host_in, is_frozen as is_frozen_in, tail_of, is_under_way as is_under_way_in, have_all_replied as have_all_replied_in, is_lawful as is_lawful_in, changed, cut_of};

    /// So many hosts, of which none has covered a record or is frozen. Nothing has begun.
    pub fn new(alloc: Global, hosts: u8) -> Result<Snap, Memory>
        requires some { 1 ≤ hosts }
        requires few { hosts ≤ 16 }
        ensures { IfOk result (λ snap. snap ≡ at_start hosts) }
    {
        let hosts = hosts as usize;
        Ok(Snap {
            tails: vec![in alloc; 0; hosts]?,
            frozen: vec![in alloc; false; hosts]?,
            replies: vec![in alloc; 0; hosts]?,
            replied: vec![in alloc; false; hosts]?,
            has_begun: false,
            is_released: false,
        })
    }

    /// The cut: of each host the tail at which it was frozen. There is one once a `Release` was taken.
    pub fn cut(&self) -> Option<&[u32]>
        ensures { option_map (λ cut. cut.now) result ≡ cut_of self.now }
    {
        if self.is_released {
            Some(self.replies.as_slice())
        } else {
            None
        }
    }

    fn is_host(&self, host: u8) -> bool
        ensures { result ≡ is_host_in self.now host }
    {
        (host as usize) < self.tails.len()
    }

    // 0 where there is no such host
    fn tail(&self, host: u8) -> u32
        ensures { result ≡ tail_of self.now host }
    {
        self.tails.get(host as usize).copied().unwrap_or(0)
    }

    fn is_frozen(&self, host: u8) -> bool
        ensures { result ≡ is_frozen_in self.now host }
    {
        self.frozen.get(host as usize).copied().unwrap_or(false)
    }

    fn have_all_replied(&self) -> bool
        ensures { result ≡ have_all_replied_in self.now }
    {
        self.replied.iter().all(|replied| *replied)
    }

    // Begun, and not yet released.
    fn is_under_way(&self) -> bool
        ensures { result ≡ is_under_way_in self.now }
    {
        self.has_begun && !self.is_released
    }

    fn is_lawful(&self, event: SnapEvent) -> bool
        ensures { result ≡ is_lawful_in self.now event }
    {
        match event {
            SnapEvent::Cover(host) => {
                self.is_host(host) && !self.is_frozen(host) && self.tail(host) < 1 << 20
            }
            SnapEvent::Begin => !self.has_begun,
            SnapEvent::Freeze(host) => {
                self.is_host(host) && self.is_under_way() && !self.is_frozen(host)
            }
            SnapEvent::Reply(host) => {
                self.is_host(host) && self.is_under_way() && self.is_frozen(host)
            }
            SnapEvent::Release => self.is_under_way() && self.have_all_replied(),
            SnapEvent::Thaw(host) => {
                self.is_host(host) && self.is_released && self.is_frozen(host)
            }
        }
    }

    // What the lawful event does.
    fn change(&mut self, event: SnapEvent)
        requires { is_lawful_in self.old event ≡ true }
        ensures { self.new ≡ changed self.old event }
    {
        match event {
            SnapEvent::Cover(host) => self.tails[host as usize] += 1,
            SnapEvent::Begin => self.has_begun = true,
            SnapEvent::Freeze(host) => self.frozen[host as usize] = true,
            SnapEvent::Reply(host) => {
                self.replies[host as usize] = self.tails[host as usize];
                self.replied[host as usize] = true;
            }
            SnapEvent::Release => self.is_released = true,
            SnapEvent::Thaw(host) => self.frozen[host as usize] = false,
        }
    }
}

ghost use Rattle.cf_snapshot.specs.Snapshots.{is_lawful, after};

/// Takes the event, and answers true, exactly where it is lawful; else nothing changes.
pub fn snap_step(snap: &mut Snap, event: SnapEvent) -> bool
    ensures answer { result ≡ is_lawful snap.old event }
    ensures state { snap.new ≡ after snap.old event }
{
    if !snap.is_lawful(event) {
        return false;
    }
    snap.change(event);
    true
}
