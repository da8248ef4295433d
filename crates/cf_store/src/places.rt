// The places of all writers.
ghost use Rattle.std.specs.Prelude.{◌≡◌, ◌≤◌, [], All, length, map, IfOk, MatchOption, vec_capacity};
ghost use Rattle.cf_store.specs.Homes.{AreAtHome, AreAway, HaveLooked, IsAwayAt, IsHome, IsHomeAt, at_home};

use crate::place::Place;
use cf_row::Memory;
use cf_table::WriterPass;
use std::alloc::Global;

/// The last place whose pass is at home, after a look at it and at those behind it.
pub(crate) fn find_home(places: &mut [Place]) -> Option<usize>
    ensures looked { HaveLooked places.old places.new }
    ensures found { MatchOption result (AreAway places.new) (IsHomeAt places.new) }
{
    let count = places.len();
    for i in 0..count {
        let k = count - 1 - i;
        places[k].look();
        if places[k].is_home() {
            return Some(k);
        }
    }
    None
}

/// The places of these passes, which are all at home.
pub(crate) fn places_of(alloc: Global, passes: Vec<WriterPass>) -> Result<Vec<Place>, Memory>
    ensures { IfOk result (λ places. places.items ≡ map at_home passes.items) }
{
    let mut places = Vec::with_capacity(alloc, passes.len())?;
    for pass in passes {
        places.push(Place::of(pass))?;
    }
    Ok(places)
}

/// The first place whose pass is away, after a look at it and at those before it. There is none if all passes are at home.
pub(crate) fn find_away(places: &mut [Place]) -> Option<usize>
    ensures looked { HaveLooked places.old places.new }
    ensures found { MatchOption result (All IsHome places.new) (IsAwayAt places.new) }
{
    let count = places.len();
    for k in 0..count {
        places[k].look();
        if !places[k].is_home() {
            return Some(k);
        }
    }
    None
}

/// Takes the passes out of these places, at which all are at home. There is room for them.
pub(crate) fn take_home(places: Vec<Place>, passes: &mut Vec<WriterPass>)
    requires home { All IsHome places.items }
    requires room { (passes.old.items ≡ []) × (length places.items ≤ vec_capacity passes.old) }
    ensures { AreAtHome places.items passes.new.items }
{
    for place in places {
        passes.push_reserved(place.into_pass());
    }
}
