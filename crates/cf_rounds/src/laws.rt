// Laws of rounds.
ghost use Rattle.cf_rounds.specs.Laws.{NoneGoesUnseen, RoundsAreOnWindows, WindowsAreOfRecords};

/// Each round is on the window at a moment of the stream, those that records force too.
pub fn rounds_are_on_windows()
    ensures { RoundsAreOnWindows }
{}

/// Each record of a stream is in the window of at least one round, however reads cut the stream.
pub fn none_goes_unseen()
    ensures { NoneGoesUnseen }
{}

/// The window is a function of the records that came, however reads cut the stream, and all of them are counted.
pub fn windows_are_of_records()
    ensures { WindowsAreOfRecords }
{}
