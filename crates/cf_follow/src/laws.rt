// Laws of what is due, and of watching by what is left of records.
ghost use Rattle.cf_follow.specs.Laws.{OneEndingIsDue};
ghost use Rattle.cf_follow.specs.LeftLaws.{WatchingMeansTheSame};

/// Unless the shelf fails, one ending alone is due of an opened file, however reads cut it: so a record is refused exactly where it has no
/// place, and a fault is told exactly where no record is refused before it.
pub fn one_ending_is_due()
    ensures { OneEndingIsDue }
{}

/// Where all is kept that the setup names, a stream of what is left of its records goes as that of the whole ones: the same rounds are
/// forced, the same records are refused, and the text is the same.
pub fn watching_means_the_same()
    ensures { WatchingMeansTheSame }
{}
