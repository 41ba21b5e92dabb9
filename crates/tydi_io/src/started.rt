ghost use Rattle.std.specs.Prelude.{◌≡◌};

/// The started file of a store in memory: its index, and how many of its bytes were given.
#[derive(Clone, Copy, Debug)]
pub(crate) struct Started {
    pub(crate) file: usize,
    pub(crate) given: usize,
}

impl Started {
    pub(crate) fn at_first_byte(file: usize) -> Started
        ensures { result ≡ record { file = file; given = 0 } }
    {
        Started { file, given: 0 }
    }
}
