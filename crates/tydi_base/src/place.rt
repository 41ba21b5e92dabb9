ghost use Rattle.std.specs.Prelude.{◌≡◌, ◌+◌, ◌-◌, ◌^◌, ◌<◌, ◌≤◌, length};
ghost use Rattle.tydi_base.specs.Places as spec;

use crate::pieces::LINE_FEED;

/// Where something stands in a text, counted in bytes.
#[derive(Clone, Copy, Debug, PartialEq, Eq)]
pub struct Place {
    /// The bytes before it.
    pub offset: u32,
    /// The line, from 1.
    pub line: u32,
    /// The byte's place in its line, from 1.
    pub column: u32,
}

impl Place {
    /// The place of a text's first byte.
    pub fn start() -> Place
        ensures { result ≡ spec.start }
    {
        Place {
            offset: 0,
            line: 1,
            column: 1,
        }
    }

    /// The place after a byte at this place: an LF ends its line.
    #[inline]
    pub fn after(self, byte: u8) -> Place
        requires fits { self.offset < 2 ^ 32 - 2 }
        requires line { self.line ≤ self.offset + 1 }
        requires column { self.column ≤ self.offset + 1 }
        ensures { result ≡ spec.place_after self byte }
    {
        if byte == LINE_FEED {
            Place {
                offset: self.offset + 1,
                line: self.line + 1,
                column: 1,
            }
        } else {
            self.along(1)
        }
    }

    /// The place so many bytes further on in the line.
    #[inline]
    pub fn along(self, count: usize) -> Place
        requires fits { self.offset + count < 2 ^ 32 - 1 }
        requires column { self.column ≤ self.offset + 1 }
        ensures { result ≡ spec.along self count }
    {
        Place {
            offset: self.offset + count as u32,
            line: self.line,
            column: self.column + count as u32,
        }
    }

    /// The place after a piece that begins at this place.
    pub fn past(self, piece: &[u8]) -> Place
        requires fits { self.offset + length piece.now < 2 ^ 32 - 1 }
        requires line { self.line ≤ self.offset + 1 }
        requires column { self.column ≤ self.offset + 1 }
        ensures { result ≡ spec.place_past self piece.now }
    {
        let mut place = self;
        'bytes: for byte in piece {
            place = place.after(*byte);
        }
        place
    }
}
