//! The time stamps of a dump.

ghost use Rattle.std.specs.Prelude.{◌≡◌, Some, None};
ghost use Rattle.std.specs.Option.{option_or};
ghost use Rattle.vcd_read.specs.History.{back_at, is_back, is_same_time};

/// The time of the last time stamp, and the place of the first one below the one before it.
#[derive(Clone, Copy)]
pub(crate) struct Times {
    pub(crate) last: Option<u64>,
    pub(crate) back: Option<u64>,
}

impl Times {
    /// No time stamp.
    pub(crate) fn none() -> Times
        ensures { result ≡ record { last = None; back = None } }
    {
        Times {
            last: None,
            back: None,
        }
    }

    /// Whether a time stamp of this time begins no block.
    pub(crate) fn is_same(self, time: u64) -> bool
        ensures { result ≡ is_same_time self.last time }
    {
        self.last == Some(time)
    }

    /// The times after a time stamp at this place.
    pub(crate) fn with(self, offset: u64, time: u64) -> Times
        ensures last { result.last ≡ Some time }
        ensures back { result.back ≡ option_or self.back (back_at (is_back self.last time) offset) }
    {
        let mut back = self.back;
        if back.is_none() && self.is_back(time) {
            back = Some(offset);
        }
        Times {
            last: Some(time),
            back,
        }
    }

    /// Whether a time is below that of the last time stamp.
    fn is_back(self, time: u64) -> bool
        ensures { result ≡ is_back self.last time }
    {
        match self.last {
            Some(last) => time < last,
            None => false,
        }
    }
}
