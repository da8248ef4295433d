// Whether a reader of a stream runs.
ghost use Rattle.std.specs.Prelude.{◌≡◌};
ghost use Rattle.cf_pcap.specs.Stages.{answer_at, found_at};

/// Whether a reader of a stream runs.
#[derive(Clone, Copy, Debug, PartialEq, Eq)]
pub enum Stage<F> {
    /// No fault was found yet.
    Running,
    /// That fault was found.
    Stopped(F),
}

impl<F: Copy> Stage<F> {
    /// The fault that was found, if one was.
    pub fn fault(self) -> Option<F>
        ensures { result ≡ found_at self }
    {
        match self {
            Stage::Stopped(fault) => Some(fault),
            Stage::Running => None,
        }
    }

    /// What a call that ends at this stage answers.
    pub fn answer(self) -> Result<(), F>
        ensures { result ≡ answer_at self }
    {
        match self {
            Stage::Stopped(fault) => Err(fault),
            Stage::Running => Ok(()),
        }
    }
}
