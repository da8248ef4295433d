// The law of such reports.
ghost use Rattle.cf_store.specs.Seen.{SeenReportsAreHistories};

/// The entries and the answers of such a report are one legal history of a list that one thread appends to and asks.
pub fn seen_reports_are_histories()
    ensures { SeenReportsAreHistories }
{}
