//! A source of things to read, whatever it is made of.

ghost use Rattle.std.specs.Prelude.{◌≡◌, List};
ghost use Rattle.tydi_reading.specs.Reading.{rest_of};

/// Something from which things are taken, one after another: contracts see the list of those that are left.
pub trait Source {
    /// The type of one thing.
    ghost Thing: { Type 0 };

    /// The things that are left.
    ghost left: { Self → List Self.Thing };

    /// Takes the next thing, where there is one.
    fn skip(&mut self)
        ensures { left self.new ≡ rest_of (left self.old) };
}
