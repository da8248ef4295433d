// How far a file was read.
ghost use Rattle.std.specs.Prelude.{◌≡◌, ◌+◌, ◌≤◌, ◌++◌, ◌∷◌, [], false, length, IfOk};
ghost use Rattle.cf_pcap.specs.Limits.{IsShort, num_of};
ghost use Rattle.cf_pcapng.specs.File.{frames_of, after};
ghost use Rattle.cf_pcapng.specs.Position.{state_of};
ghost use Rattle.cf_pcapng.specs.Reading.{LiesIn};

use crate::content::{Content, Packet};
use crate::interfaces::{Interface, Interfaces};
use cf_pcap::{Frame, Length, Order};
use std::alloc::{AllocError, Global};
use std::marker::Model;

/// How far a file was read since a reader's last piece.
#[derive(Drop)]
pub(crate) struct Position<'a> {
    /// The byte order of its section, if one has begun.
    order: Option<Order>,
    /// The interfaces of the section.
    interfaces: Interfaces<'a>,
    /// How many frames came.
    count: u64,
}

impl<'a> Model for Position<'a> {
    ghost use Rattle.cf_pcapng.specs.Position.{PositionValue};

    ghost Value = { PositionValue };

    ghost view = { λ p. record { order = p.order; listed = p.interfaces; count = p.count } };
}

/// Where a piece brings a reader.
#[derive(Drop)]
pub(crate) struct Reached {
    pub order: Option<Order>,
    /// Whether a section has begun.
    pub anew: bool,
    /// The interfaces that came.
    pub came: Vec<Interface>,
    pub count: u64,
}

// The frame of a packet.
fn frame_of(alloc: Global, num: u32, packet: Packet, block: &[u8]) -> Result<Frame, AllocError>
    requires { packet.begin + packet.caplen ≤ length block.now }
    ensures { IfOk result (λ frame. frames_of num (Content.Captures packet) block.now ≡ frame ∷ []) }
{
    let begin = packet.begin as usize;
    let bytes = block[begin..begin + packet.caplen as usize].to_vec(alloc)?;
    Ok(Frame {
        num,
        ts: packet.ts,
        caplen: packet.caplen,
        len: packet.len,
        link: packet.link,
        bytes,
    })
}

impl<'a> Position<'a> {
    // That of a reader.
    pub(crate) fn new(
        alloc: Global,
        order: Option<Order>,
        interfaces: &'a [Interface],
        count: u64,
    ) -> Self
        ensures { result ≡ record { order = order; listed = record { had = interfaces.now; anew = false; came = [] }; count = count } }
    {
        Position {
            order,
            interfaces: Interfaces::of(alloc, interfaces),
            count,
        }
    }

    pub(crate) fn copy(&self, alloc: Global) -> Result<Position<'a>, AllocError>
        ensures { IfOk result (λ position. position ≡ self.now) }
    {
        Ok(Position {
            order: self.order,
            interfaces: self.interfaces.copy(alloc)?,
            count: self.count,
        })
    }

    pub(crate) fn order(&self) -> Option<Order>
        ensures { result ≡ self.now.order }
    {
        self.order
    }

    pub(crate) fn interfaces(&self) -> &Interfaces<'a>
        ensures { result.now ≡ self.now.listed }
    {
        &self.interfaces
    }

    pub(crate) fn count(&self) -> u64
        ensures { result ≡ self.now.count }
    {
        self.count
    }

    pub(crate) fn reached(self) -> Reached
        ensures order { result.order ≡ self.entry.order }
        ensures anew { result.anew ≡ self.entry.listed.anew }
        ensures came { result.came.items ≡ self.entry.listed.came }
        ensures count { result.count ≡ self.entry.count }
    {
        let (anew, came) = self.interfaces.into_parts();
        Reached {
            order: self.order,
            anew,
            came,
            count: self.count,
        }
    }

    // Goes past a block.
    pub(crate) fn pass(
        &mut self,
        alloc: Global,
        limit: Length,
        content: Content,
        block: &[u8],
        frames: &mut Vec<Frame>,
    ) -> Result<(), AllocError>
        requires lies { LiesIn (length block.now) content }
        requires room { IsShort limit (self.old.count + 1) }
        ensures moved { IfOk result (λ _. state_of self.new ≡ after limit (state_of self.old) content) }
        ensures had { IfOk result (λ _. self.new.listed.had ≡ self.old.listed.had) }
        ensures given { IfOk result (λ _. frames.new.items ≡ frames.old.items ++ frames_of (num_of limit self.old.count) content block.now) }
    {
        match content {
            Content::NewSection(order) => {
                self.order = Some(order);
                self.interfaces.clear();
            }
            Content::NewInterface(interface) => self.interfaces.push(interface)?,
            Content::Captures(packet) => {
                let num = limit.frame_number(self.count);
                let frame = frame_of(alloc, num, packet, block)?;
                frames.push(frame)?;
                self.count = limit.number_after(self.count);
            }
            Content::Nothing => {}
        }
        Ok(())
    }
}
