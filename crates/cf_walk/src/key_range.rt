// A range of keys of a lane.
ghost use Rattle.std.specs.Prelude.{◌≡◌, ◌+◌, ◌-◌, ◌%◌, ◌<◌, ◌≤◌, min};

// The keys of a lane from the lowest up to the highest.
#[derive(Clone, Copy, Drop)]
pub(crate) struct KeyRange {
    pub lane: u8,
    pub low: u64,
    pub high: u64,
}

impl KeyRange {
    // The last of the keys that begin as the lowest one: the span is the number of all keys that do.
    pub(crate) fn last_alike(self, span: u64) -> u64
        requires some { 0 < span }
        requires range { self.low ≤ self.high }
        ensures { result ≡ self.low + min (span - 1 - self.low % span) (self.high - self.low) }
    {
        let rest = span - 1 - self.low % span;
        self.low + rest.min(self.high - self.low)
    }
}
