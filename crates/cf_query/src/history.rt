// Histories of shared logs.
ghost use Rattle.cf_row.specs.declared.row.Entry.{Entry};
ghost use Rattle.cf_history.specs.Laws.{QuestionsKeepTheirPlace};
ghost use Rattle.cf_plain.specs.declared.ask.Ask.{Ask};
ghost use Rattle.cf_plain.specs.declared.answer.Body.{Body};
ghost use Rattle.cf_query.specs.Laws.{SealsAreHistories};

/// The entries of a sealed log and the questions of some passes, each answered on what its pass had seen then, no pass
/// going back, are the history of one thread: each entry is appended once and in order, and each pass's questions stand
/// once and in its order.
pub fn seals_are_histories()
    ensures { SealsAreHistories }
{}

/// In that history a question that saw so many entries stands after each append below that number, and before each other
/// one: a caller's question stands after all that it knew as covered, and before all that it appends from then on.
pub fn questions_keep_their_place()
    ensures { QuestionsKeepTheirPlace Entry Ask Body }
{}
