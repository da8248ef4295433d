// Laws of windows and of rounds.
ghost use Rattle.cf_window.specs.Laws.{NoneGoesUnseen, RoundsAreOnWindows, WindowsAreFew, WindowsAreOfRecords};

/// Each round is on the window at a moment of the stream: its span tells how many records had come, and its records are those of all
/// segments then.
pub fn rounds_are_on_windows()
    ensures { RoundsAreOnWindows }
{}

/// Each record of a stream is in the window of at least one round, however reads cut the stream.
pub fn none_goes_unseen()
    ensures { NoneGoesUnseen }
{}

/// The window is a function of the records that came, however reads cut the stream.
pub fn windows_are_of_records()
    ensures { WindowsAreOfRecords }
{}

/// A window never has more segments than it may have.
pub fn windows_are_few()
    ensures { WindowsAreFew }
{}
