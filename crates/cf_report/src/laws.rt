// Laws of reports.
ghost use Rattle.cf_report.specs.Laws.{FinalPartHasNoSizes, FinalPartIsOne, MeantAnswersMakeReports, ReportsAreHistories};

/// The final part on the log of some rows is that on the rows, however many writers wrote them and in whatever order.
pub fn final_part_is_one()
    ensures { FinalPartIsOne }
{}

/// The final part is the same for any two numbers of writers, capacities and numbers of nodes.
pub fn final_part_has_no_sizes()
    ensures { FinalPartHasNoSizes }
{}

/// Where the answers given to `report` are what the questions and triggers mean on a log of some rows, `report`
/// takes them, and its text is the report of these rows: what it prints of the log's order, of the live answers and of the
/// final ones are those of one legal history, and the final part is that of the rows as they were captured.
pub fn meant_answers_make_reports()
    ensures { MeantAnswersMakeReports }
{}

/// The answers of a report, live and final, stand with its log in one legal history.
pub fn reports_are_histories()
    ensures { ReportsAreHistories }
{}
