// A bucket whose keys are kept apart.
ghost use Rattle.std.specs.Prelude.{◌≡◌, ◌<◌, ◌≤◌, ◌^◌, ◌&&◌, length, All, IfOk, MatchOption, OnErr, OnOk};
ghost use Rattle.cf_watch.specs.Kept.{AreApart, is_kept};
ghost use Rattle.cf_watch.specs.Notes.{AreUntoldAt};

use crate::bucket::Bucket;
use crate::pairs::Pairs;
use crate::{MOST_PAIRS, MOST_TRIGGERS};
use cf_fold::Trigger;
use cf_row::Memory;
use std::alloc::Global;
use std::marker::Model;

// Its number, its keys, whether a record of another key came when there were as many as may be, and whether that was told.
#[derive(Drop)]
pub(crate) struct Apart {
    number: u64,
    pairs: Pairs,
    is_crowded: bool,
    is_crowd_told: bool,
}

impl Model for Apart {
    ghost use Rattle.cf_watch.specs.Pairs.{ApartValue};

    ghost Value = { ApartValue };

    ghost view = { λ a. record { bucket = a.number; pairs = a.pairs; crowded = a.is_crowded; crowd_told = a.is_crowd_told } };
}

impl Apart {
    ghost use Rattle.cf_watch.specs.Pairs.{begun_apart, with_key};
    ghost use Rattle.cf_watch.specs.PairMarks.{is_crowd_untold as is_crowd_untold_of, with_crowd_told, with_pairs_told};

    // A bucket of one record alone.
    pub(crate) fn new(alloc: Global, number: u64, key: u64, value: u32) -> Result<Apart, Memory>
        ensures { IfOk result (λ apart. apart ≡ begun_apart number key value) }
    {
        Ok(Apart {
            number,
            pairs: Pairs::new(alloc, key, value)?,
            is_crowded: false,
            is_crowd_told: false,
        })
    }

    // Its number.
    pub(crate) fn number(&self) -> u64
        ensures { result ≡ self.now.bucket }
    {
        self.number
    }

    // What is kept of each key.
    pub(crate) fn pairs(&self) -> &[Bucket]
        ensures is { result.now ≡ self.now.pairs }
        ensures apart { AreApart self.now.pairs }
    {
        self.pairs.as_slice()
    }

    // Whether the key is kept.
    pub(crate) fn has(&self, key: u64) -> bool
        ensures { result ≡ is_kept self.now.pairs key }
    {
        self.pairs.place(key).is_some()
    }

    // A record of a key comes. Without memory nothing has changed.
    pub(crate) fn take(&mut self, key: u64, value: u32) -> Result<(), Memory>
        requires { All (λ pair. pair.quad.count < 2 ^ 53) self.old.pairs }
        ensures ok { OnOk result (self.new ≡ with_key key value self.old) }
        ensures err { OnErr result (self.new ≡ self.old) }
    {
        match self.pairs.place(key) {
            Some(place) => self.pairs.add(place, value),
            None => {
                if self.pairs.len() >= MOST_PAIRS {
                    self.is_crowded = true;
                } else {
                    self.pairs.push(key, value)?;
                }
            }
        }
        Ok(())
    }

    // The places of all keys that may have an unreported mark of the trigger at that place of the setup. None: any key may.
    pub(crate) fn untold_places(&self, trigger: &Trigger, place: u8) -> Option<&[usize]>
        ensures { MatchOption result (Unit {0}) (λ places. AreUntoldAt trigger.now place places.now self.now.pairs × All (λ at. at < length self.now.pairs) places.now) }
    {
        self.pairs.untold_places(trigger, place)
    }

    // Each key in which the trigger fires is told, for its place in the setup.
    pub(crate) fn tell(&mut self, trigger: &Trigger, place: u8)
        requires { place < MOST_TRIGGERS }
        ensures { self.new ≡ with_pairs_told trigger.now place self.old }
    {
        self.pairs.tell(trigger, place);
    }

    // Whether it is crowded and that was not told.
    pub(crate) fn is_crowd_untold(&self) -> bool
        ensures { result ≡ is_crowd_untold_of self.now }
    {
        self.is_crowded && !self.is_crowd_told
    }

    // If it is crowded, that is told.
    pub(crate) fn tell_crowd(&mut self)
        ensures { self.new ≡ with_crowd_told self.old }
    {
        self.is_crowd_told = self.is_crowd_told || self.is_crowded;
    }
}
