ghost use Rattle.std.specs.Prelude.{◌≡◌, ◌↔◌, IsSome, IfSome};
ghost use Rattle.physical_stream.specs.Params.{Parameters, AreInRange};

use std::marker::Model;
use tydi_base::Level;

/// The parameters of a physical stream (Tydi specification, physical streams). Their ranges are this project's own.
#[derive(Clone, Copy, Debug, PartialEq, Eq)]
pub struct Params {
    /// Elements that one transfer can carry, 1 to 128.
    pub lanes: u16,
    /// Nested sequences that it marks the ends of, at most 32.
    pub dims: u8,
    /// Its level, of which all that rules and signals look at is the first number.
    pub level: Level,
    /// Bits of an element, at most 4,096.
    pub element: u32,
    /// Bits of the user word of a transfer, at most 4,096.
    pub user: u32,
}

impl Model for Params {
    ghost use Rattle.physical_stream.specs.Params.{Parameters, AreInRange};

    ghost Value = { Parameters };

    ghost view = { λ p. record { lanes = p.lanes; dims = p.dims; level = p.level; element = p.element; user = p.user } };

    ghost invariant = { λ p. AreInRange p.lanes p.dims p.element p.user };

    ghost inverse = { λ p. record { lanes = p.lanes; dims = p.dims; level = p.level; element = p.element; user = p.user } };
}

impl Params {
    /// None exactly where lanes are not 1 to 128, dims over 32, element over 4,096 or user over 4,096.
    pub fn new(lanes: u16, dims: u8, level: Level, element: u32, user: u32) -> Option<Params>
        ensures some { IsSome result ↔ AreInRange lanes dims element user }
        ensures value { IfSome result (λ p. p ≡ record { lanes = lanes; dims = dims; level = level; element = element; user = user }) }
    {
        if lanes < 1 || lanes > 128 || dims > 32 || element > 4096 || user > 4096 {
            return None;
        }
        Some(Params {
            lanes,
            dims,
            level,
            element,
            user,
        })
    }
}
