// The keys of a bucket that are kept apart.
ghost use Rattle.std.specs.Prelude.{◌≡◌, ◌<◌, ◌^◌, [], ◌∷◌, ◌++◌, length, map, false, true, slice_index_or, slice_set, All, IfOk, MatchOption, OnErr, OnOk};
ghost use Rattle.cf_watch.specs.Kept.{AreApart, begun, is_kept, with_record};
ghost use Rattle.std.specs.List.{list_any};
ghost use Rattle.cf_watch.specs.Marks.{is_untold, with_told};
ghost use Rattle.cf_watch.specs.Notes.{AreUntoldAt};

use crate::MOST_TRIGGERS;
use crate::bucket::Bucket;
use crate::notes::Notes;
use cf_fold::Trigger;
use cf_row::Memory;
use std::alloc::Global;
use std::collections::BTreeMap;
use std::marker::Model;

// What is kept of each key, in the order in which they came, the key standing for the number of a bucket; their places by key; and which
// of them may have news.
#[derive(Drop)]
pub(crate) struct Pairs {
    items: Vec<Bucket>,
    places: BTreeMap<u64, usize>,
    notes: Notes,
}

impl Model for Pairs {
    ghost use Rattle.std.specs.Prelude.{List};
    ghost use Rattle.cf_watch.specs.Kept.{BucketValue};
    ghost use Rattle.cf_watch.specs.Pairs.{IsIndexed};

    ghost Value = { List BucketValue };

    ghost view = { λ p. p.items.items };

    ghost use Rattle.cf_watch.specs.Notes.{AreNotes};

    ghost invariant = { λ p. IsIndexed p.places p.items.items × AreNotes p.notes p.items.items };
}

impl Pairs {
    // One key with one record.
    pub(crate) fn new(alloc: Global, key: u64, value: u32) -> Result<Pairs, Memory>
        ensures { IfOk result (λ pairs. pairs ≡ begun key value ∷ []) }
    {
        let mut pairs = Pairs {
            items: Vec::new(alloc),
            places: BTreeMap::new(alloc),
            notes: Notes::new(alloc),
        };
        pairs.push(key, value)?;
        Ok(pairs)
    }

    // What is kept of each key.
    pub(crate) fn as_slice(&self) -> &[Bucket]
        ensures is { result.now ≡ self.now }
        ensures apart { AreApart self.now }
    {
        self.items.as_slice()
    }

    // How many keys there are.
    pub(crate) fn len(&self) -> usize
        ensures { result ≡ length self.now }
    {
        self.items.len()
    }

    // The place of the key.
    pub(crate) fn place(&self, key: u64) -> Option<usize>
        ensures place { MatchOption result (is_kept self.now key ≡ false) (λ place. (place < length self.now) × ((slice_index_or self.now place (begun 0 0)).bucket ≡ key)) }
        ensures apart { AreApart self.now }
    {
        match self.places.get(&key) {
            Some(place) => Some(*place),
            None => None,
        }
    }

    // The key at a place takes a record.
    pub(crate) fn add(&mut self, place: usize, value: u32)
        requires exists { place < length self.old }
        requires few { (slice_index_or self.old place (begun 0 0)).quad.count < 2 ^ 53 }
        ensures { self.new ≡ slice_set self.old place (with_record value (slice_index_or self.old place (begun 0 0))) }
    {
        let pair = &mut self.items[place];
        pair.add(value);
        self.notes.note(place, self.items.len());
    }

    // A key that is not there begins with a record. Without memory nothing has changed.
    pub(crate) fn push(&mut self, key: u64, value: u32) -> Result<(), Memory>
        requires { is_kept self.old key ≡ false }
        ensures ok { OnOk result (self.new ≡ self.old ++ begun key value ∷ []) }
        ensures err { OnErr result (self.new ≡ self.old) }
    {
        let place = self.items.len();
        self.items.push(Bucket::new(key, value))?;
        match self.places.insert(key, place) {
            Ok(_) => {
                self.notes.note(place, place);
                Ok(())
            }
            Err(failed) => {
                self.items.truncate(place);
                Err(Memory::from(failed))
            }
        }
    }

    // The places of all keys that may have an unreported mark of the trigger at that place of the setup. None: any key may.
    pub(crate) fn untold_places(&self, trigger: &Trigger, place: u8) -> Option<&[usize]>
        ensures { MatchOption result (Unit {0}) (λ places. AreUntoldAt trigger.now place places.now self.now × All (λ at. at < length self.now) places.now) }
    {
        self.notes.untold_places(trigger, place)
    }

    // Each key in which the trigger fires is told, for its place in the setup.
    pub(crate) fn tell(&mut self, trigger: &Trigger, place: u8)
        requires { place < MOST_TRIGGERS }
        ensures { self.new ≡ map (with_told trigger.now place) self.old }
    {
        match self.notes.untold_places(trigger, place) {
            Some(places) => tell_at(&mut self.items, places, trigger, place),
            None => tell_all(&mut self.items, trigger, place),
        }
        self.notes.tell(trigger, place);
    }
}

// Each key in which the trigger fires is told, for its place in the setup.
fn tell_all(pairs: &mut [Bucket], trigger: &Trigger, place: u8)
    requires { place < MOST_TRIGGERS }
    ensures told { pairs.new ≡ map (with_told trigger.now place) pairs.old }
    ensures quiet { list_any (is_untold trigger.now place) pairs.new ≡ false }
{
    for at in 0..pairs.len() {
        pairs[at].tell(trigger, place);
    }
}

// The same if all keys with an unreported mark of the trigger are at these places.
fn tell_at(pairs: &mut [Bucket], places: &[usize], trigger: &Trigger, place: u8)
    requires exists { place < MOST_TRIGGERS }
    requires within { All (λ at. at < length pairs.old) places.now }
    requires untold { AreUntoldAt trigger.now place places.now pairs.old }
    ensures told { pairs.new ≡ map (with_told trigger.now place) pairs.old }
    ensures quiet { list_any (is_untold trigger.now place) pairs.new ≡ false }
{
    for at in places {
        pairs[*at].tell(trigger, place);
    }
}
