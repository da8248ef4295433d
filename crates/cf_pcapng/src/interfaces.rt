// The interfaces of a section.
ghost use Rattle.std.specs.Prelude.{◌≡◌, ◌++◌, ◌∷◌, [], IfOk, length, slice_get, true, false};
ghost use Rattle.cf_pcapng.specs.Blocks.{has_place as has_place_in};
ghost use Rattle.cf_pcapng.specs.Position.{interfaces_of};

use cf_pcap::Length;
use std::alloc::{AllocError, Global};
use std::marker::Model;

/// The most interfaces of a section in a stream of any length.
const MOST: usize = 65_536;

/// An interface of a section.
#[derive(Clone, Copy, Debug, PartialEq, Eq)]
pub(crate) struct Interface {
    pub link: u16,
    pub snaplen: u32,
    /// The unit of its times, as if_tsresol states it.
    pub resolution: u8,
}

/// The interfaces of a section. Those that a reader had before a piece stay with it, and those of the piece stand apart.
#[derive(Drop)]
pub(crate) struct Interfaces<'a> {
    /// Those that the reader had.
    had: &'a [Interface],
    /// Whether a section has begun since, which has none of them.
    anew: bool,
    /// Those that came since.
    came: Vec<Interface>,
}

impl<'a> Model for Interfaces<'a> {
    ghost use Rattle.cf_pcapng.specs.Position.{InterfacesValue};

    ghost Value = { InterfacesValue };

    ghost view = { λ i. record { had = i.had.now; anew = i.anew; came = i.came.items } };
}

impl<'a> Interfaces<'a> {
    // Those that a reader has.
    pub(crate) fn of(alloc: Global, had: &'a [Interface]) -> Self
        ensures { result ≡ record { had = had.now; anew = false; came = [] } }
    {
        Interfaces {
            had,
            anew: false,
            came: Vec::new(alloc),
        }
    }

    pub(crate) fn copy(&self, alloc: Global) -> Result<Interfaces<'a>, AllocError>
        ensures { IfOk result (λ interfaces. interfaces ≡ self.now) }
    {
        Ok(Interfaces {
            had: self.had,
            anew: self.anew,
            came: self.came.as_slice().to_vec(alloc)?,
        })
    }

    pub(crate) fn get(&self, number: usize) -> Option<Interface>
        ensures { result ≡ slice_get (interfaces_of self.now) number }
    {
        if self.anew {
            return self.came.as_slice().get(number).copied();
        }
        if number < self.had.len() {
            return self.had.get(number).copied();
        }
        self.came.as_slice().get(number - self.had.len()).copied()
    }

    // How many the section has.
    fn len(&self) -> usize
        ensures { result ≡ length (interfaces_of self.now) }
    {
        if self.anew {
            return self.came.len();
        }
        self.had.len() + self.came.len()
    }

    // Whether one more has a place in the section.
    pub(crate) fn has_place(&self, limit: Length) -> bool
        ensures { result ≡ has_place_in limit (interfaces_of self.now) }
    {
        match limit {
            Length::Limited => true,
            Length::Any => self.len() < MOST,
        }
    }

    // A section begins.
    pub(crate) fn clear(&mut self)
        ensures { self.new ≡ record { had = self.old.had; anew = true; came = [] } }
    {
        self.anew = true;
        self.came.clear();
    }

    pub(crate) fn push(&mut self, interface: Interface) -> Result<(), AllocError>
        ensures { IfOk result (λ _. self.new ≡ record { had = self.old.had; anew = self.old.anew; came = self.old.came ++ interface ∷ [] }) }
    {
        self.came.push(interface)?;
        Ok(())
    }

    // Whether a section has begun since, and those that came.
    pub(crate) fn into_parts(self) -> (bool, Vec<Interface>)
        ensures anew { result.0 ≡ self.entry.anew }
        ensures came { result.1.items ≡ self.entry.came }
    {
        (self.anew, self.came)
    }
}
