// The theorems.
ghost use Rattle.cf_snapshot.specs.Laws.{CutsAreOfOneMoment, CutsComeByRelease, CutsEndAtTheLastFreeze, CutsHaveAllEarlier};
ghost use Rattle.cf_snapshot.specs.Plans.{PlansHaveCuts};

/// A cut is the list of all hosts' tails right after the last lawful `Freeze`, and all hosts are frozen there.
pub fn cuts_are_of_one_moment()
    ensures { CutsAreOfOneMoment }
{}

/// There is a cut exactly once a lawful `Release` was taken.
pub fn cuts_come_by_release()
    ensures { CutsComeByRelease }
{}

/// A record is in the cut exactly where its `Cover` comes before the last lawful `Freeze`.
pub fn cuts_end_at_the_last_freeze()
    ensures { CutsEndAtTheLastFreeze }
{}

/// If a record's `Cover` comes before that of a record in the cut, it is in the cut too.
pub fn cuts_have_all_earlier()
    ensures { CutsHaveAllEarlier }
{}

/// Hosts that cover their rows in turns, and are frozen one after another, have one cut: each host's rows of the turns up to
/// its freezing.
pub fn plans_have_cuts()
    ensures { PlansHaveCuts }
{}
