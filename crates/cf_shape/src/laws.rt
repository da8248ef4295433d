// Laws of the places.
ghost use Rattle.cf_shape.specs.Laws.{PlacesDiffer};

/// Any two different words of a table have different places, where each node is taken either with children or with
/// heads, and each place is below the number of words.
pub fn places_differ()
    ensures { PlacesDiffer }
{}
