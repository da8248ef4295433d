// The theorems.
ghost use Rattle.cf_law.specs.PlainPasses.{LawfulSaysAllPlainly};
ghost use Rattle.cf_law.specs.Laws.{EveryListKeepsTheLaw, OpeningIsEmpty, ReadTailCoversFinished, WriteTailIsBounded, SeenNeverChanges, WordsTell, StepsTell};

/// The opening is lawful, with all words 0 and empty books.
pub fn opening_is_empty()
    ensures { OpeningIsEmpty }
{}

/// From the opening, every list of events, unlawful ones passed over, keeps the law.
pub fn every_list_keeps_the_law()
    ensures { EveryListKeepsTheLaw }
{}

/// What the law says of words, books and passes, each clause by itself.
pub fn lawful_worlds_say_plainly()
    ensures { LawfulSaysAllPlainly }
{}

/// The read tail never passes an unfinished ticket.
pub fn read_tail_covers_finished()
    ensures { ReadTailCoversFinished }
{}

/// The write tail is at most the capacity and the number of writers.
pub fn write_tail_is_bounded()
    ensures { WriteTailIsBounded }
{}

/// An entry once seen never changes.
pub fn seen_never_changes()
    ensures { SeenNeverChanges }
{}

/// What a word that a pass finds tells it: a child word 0, a head, a cursor's cell, the words of an entry that was seen,
/// an own cell or head, a done word, a tail.
pub fn words_tell()
    ensures { WordsTell }
{}

/// A step of a pass keeps the law, and tells its pass what the word that it found tells, and how what was seen goes on.
pub fn steps_tell()
    ensures { StepsTell }
{}
