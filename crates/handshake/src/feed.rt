ghost use Rattle.std.specs.Prelude.{◌≡◌, ◌<◌, ◌-◌, ◌^◌, List, length, true};
ghost use Rattle.physical_stream.specs.Params.{Parameters};
ghost use Rattle.physical_stream.specs.Signals.{Fits};
ghost use Rattle.physical_stream.specs.declared.transfer.Transfer.{Transfer};
ghost use Rattle.handshake.specs.Feed.{Feeds};

use physical_stream::Transfer;

/// A source of the transfers of one stream, one after another, as a list or a planner gives them. It takes no memory.
pub trait TransferFeed: Drop {
    /// The parameters of the stream. No call changes them.
    ghost params: { Self → Parameters };

    /// All transfers, those that were given and those that are left. No call changes them.
    ghost whole: { Self → List Transfer };

    /// The transfers that are left.
    ghost rest: { Self → List Transfer };

    /// How many transfers are left.
    fn left(&self) -> usize
        ensures { result ≡ length (rest self.now) };

    /// Copies the next transfer and drops it from those that are left. It is false exactly where none is left, and `into` is then
    /// as before.
    fn next(&mut self, into: &mut Transfer) -> bool
        requires { Fits (params self.old) into.old }
        ensures params { params self.new ≡ params self.old }
        ensures whole { whole self.new ≡ whole self.old }
        ensures fits { Fits (params self.old) into.new }
        ensures fed { Feeds (rest self.old) (rest self.new) into.old into.new result }
        ensures few { result ≡ true → length (rest self.new) < 2 ^ 64 - 1 };
}

/// A source that can begin again.
pub trait Rewind: TransferFeed {
    /// All transfers are left again.
    fn rewind(&mut self)
        ensures rest { Self.rest self.new ≡ Self.whole self.old }
        ensures whole { Self.whole self.new ≡ Self.whole self.old }
        ensures params { Self.params self.new ≡ Self.params self.old };
}
