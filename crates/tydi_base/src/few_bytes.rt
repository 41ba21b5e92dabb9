//! Bytes of which few are kept in place.

ghost use Rattle.std.specs.Prelude.{◌≡◌, ◌<◌, MatchOption, length};
ghost use Rattle.tydi_base.specs.declared.few_bytes.TheConstants.{IN_PLACE};

use std::marker::Model;

/// How many bytes are kept in place.
pub(crate) const IN_PLACE: usize = 15;

/// Up to 15 bytes, kept in place. Contracts see the list of them.
#[derive(Debug, Drop)]
pub(crate) struct FewBytes {
    count: u8,
    places: [u8; IN_PLACE],
}

impl Model for FewBytes {
    ghost use Rattle.std.specs.Prelude.{List, ℕ, ◌≤◌, take};
    ghost use Rattle.tydi_base.specs.declared.few_bytes.TheConstants.{IN_PLACE};

    ghost Value = { List ℕ };

    ghost view = { λ few. take few.count few.places };

    ghost invariant = { λ few. few.count ≤ IN_PLACE };
}

impl FewBytes {
    /// These bytes. None exactly where they have no room in place. It takes no memory.
    pub(crate) fn new(bytes: &[u8]) -> Option<FewBytes>
        ensures { MatchOption result (IN_PLACE < length bytes.now) (λ few. few ≡ bytes.now) }
    {
        if bytes.len() > IN_PLACE {
            return None;
        }
        let mut places = [0; IN_PLACE];
        places[..bytes.len()].copy_from_slice(bytes);
        Some(FewBytes {
            count: bytes.len() as u8,
            places,
        })
    }

    /// The bytes.
    pub(crate) fn as_slice(&self) -> &[u8]
        ensures { result.now ≡ self.now }
    {
        &self.places[..usize::from(self.count)]
    }
    /// A copy of them. It takes no memory.
    pub(crate) fn copied(&self) -> FewBytes
        ensures { result ≡ self.now }
    {
        FewBytes {
            count: self.count,
            places: self.places,
        }
    }
}
