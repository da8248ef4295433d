// Histories of the list of one thread.
ghost use Rattle.cf_plain.specs.Laws.{SpelledAreHistories, RepliesAreHistories};

/// A log and the questions of some passes, each answered on a prefix of the log, no pass going back, are the
/// history of one thread: each entry is appended once and in order, and each pass's questions stand once
/// and in its order.
pub fn spelled_are_histories()
    ensures { SpelledAreHistories }
{}

/// What `run_calls` answers is what a legal history with these calls has, and a legal history has nothing else.
pub fn replies_are_histories()
    ensures { RepliesAreHistories }
{}
