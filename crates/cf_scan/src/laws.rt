// What a scan's answer is.
ghost use Rattle.cf_scan.specs.Laws.{ScansAreLists, ScansAreTotals};

/// The places that `scan` finds are the meaning of the list question of that expression.
pub fn scans_are_lists()
    ensures { ScansAreLists }
{}

/// The quad that `scan_total` finds is the meaning of the question for the total of that attribute and that expression.
pub fn scans_are_totals()
    ensures { ScansAreTotals }
{}
