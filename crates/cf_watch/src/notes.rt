// What is noted of the keys of a bucket: which triggers reported their marks, and to which keys records came since.
ghost use Rattle.std.specs.Prelude.{◌≡◌, ◌<◌, ◌++◌, ◌∷◌, ◌⊎◌, false, true, List, [], length, map, slice_index_or, All, MatchOption};
ghost use Rattle.std.specs.List.{list_any};
ghost use Rattle.cf_watch.specs.Kept.{BucketValue};
ghost use Rattle.cf_watch.specs.Marks.{is_untold, with_told};
ghost use Rattle.cf_watch.specs.Notes.{AreNotes, AreUntoldAt, ChangedAt};

use crate::MOST_TRIGGERS;
use crate::marks::is_same;
use cf_fold::Trigger;
use std::alloc::Global;
use std::marker::Model;

// For each place of the setup the trigger that reported its marks: since the last record (`told`), and before the records whose keys are
// noted (`before`).
#[derive(Drop)]
pub(crate) struct Notes {
    // a record came since, so `told` does not count
    is_changed: bool,
    told: [Option<Trigger>; MOST_TRIGGERS],
    // `places` has all keys to which records came since `before`
    is_noting: bool,
    before: [Option<Trigger>; MOST_TRIGGERS],
    places: Vec<usize>,
}

impl Model for Notes {
    ghost use Rattle.cf_watch.specs.Notes.{NotesValue};

    ghost Value = { NotesValue };

    ghost view = { λ n. record { changed = n.is_changed; told = n.told; noting = n.is_noting; before = n.before; places = n.places.items } };
}

impl Notes {
    // Nothing is known of any key.
    pub(crate) fn new(alloc: Global) -> Notes
        ensures { (pairs : List BucketValue) → AreNotes result pairs }
    {
        Notes {
            is_changed: true,
            told: [None; MOST_TRIGGERS],
            is_noting: false,
            before: [None; MOST_TRIGGERS],
            places: Vec::new(alloc),
        }
    }

    // The places of all keys that may have an unreported mark of the trigger at that place of the setup. None: any key may.
    pub(crate) fn untold_places(&self, trigger: &Trigger, place: u8) -> Option<&[usize]>
        ensures { (pairs : List BucketValue) → AreNotes self.now pairs → MatchOption result (Unit {0}) (λ places. AreUntoldAt trigger.now place places.now pairs × All (λ at. at < length pairs) places.now) }
    {
        if !self.is_changed && is_told(&self.told, trigger, place) {
            return Some(&self.places[..0]);
        }
        if self.is_noting && is_told(&self.before, trigger, place) {
            return Some(&self.places);
        }
        None
    }

    // The first record came since a trigger reported its marks.
    fn begin(&mut self)
        requires { self.old.changed ≡ false }
        ensures { self.new ≡ record self.old { changed = true; noting = true; before = self.old.told; places = [] } }
    {
        let told = self.told;
        self.before = told;
        self.places.clear();
        self.is_changed = true;
        self.is_noting = true;
    }

    // Notes a place. If there are as many as may be, or memory runs out, no place is noted from then on.
    fn add(&mut self, place: usize, most: usize)
        ensures { (self.new ≡ record self.old { noting = false }) ⊎ (self.new ≡ record self.old { places = self.old.places ++ place ∷ [] }) }
    {
        if self.places.len() >= most {
            self.is_noting = false;
            return;
        }
        match self.places.push(place) {
            Ok(()) => {}
            Err(_) => self.is_noting = false,
        }
    }

    // A record came to the key at a place. At most so many places are noted; if there are more, it is quicker to look at all keys.
    pub(crate) fn note(&mut self, place: usize, most: usize)
        ensures { (pairs later : List BucketValue) → AreNotes self.old pairs → ChangedAt place pairs later → AreNotes self.new later }
    {
        if !self.is_changed {
            self.begin();
        }
        if self.is_noting {
            self.add(place, most);
        }
    }

    // The trigger at that place of the setup reported its marks.
    pub(crate) fn tell(&mut self, trigger: &Trigger, place: u8)
        requires { place < MOST_TRIGGERS }
        ensures { (pairs : List BucketValue) → AreNotes self.old pairs
            → list_any (is_untold trigger.now place) (map (with_told trigger.now place) pairs) ≡ false
            → AreNotes self.new (map (with_told trigger.now place) pairs) }
    {
        if self.is_changed {
            self.told = [None; MOST_TRIGGERS];
            self.is_changed = false;
        }
        self.told[usize::from(place)] = Some(*trigger);
    }
}

// Whether the trigger is the one that reported its marks at a place of the setup.
fn is_told(told: &[Option<Trigger>; MOST_TRIGGERS], trigger: &Trigger, place: u8) -> bool
    ensures { result ≡ true → slice_index_or told.now place None ≡ Some trigger.now }
{
    match told.get(usize::from(place)) {
        Some(Some(told)) => is_same(told, trigger),
        _ => false,
    }
}
