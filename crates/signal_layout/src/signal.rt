ghost use Rattle.std.specs.Prelude.{◌≡◌};
ghost use Rattle.signal_layout.specs.Layout.{default_of, DefaultsStand};

/// A signal of a physical stream (Tydi specification, signals). All but ready come from the source.
#[derive(Clone, Copy, Debug, PartialEq, Eq)]
pub enum Signal {
    /// A transfer is shown.
    Valid,
    /// The sink takes what is shown.
    Ready,
    /// The elements of the lanes, lane 0 lowest; the standard's name for it is data.
    Content,
    /// The last bits, lane 0 lowest, dimension 0 lowest in a lane.
    Last,
    /// The first lane that may be active.
    Stai,
    /// The last lane that may be active.
    Endi,
    /// A bit for each lane, lane 0 lowest.
    Strb,
    /// The word that goes with a transfer.
    User,
}

/// The value of a signal that the stream lacks.
#[derive(Clone, Copy, Debug, PartialEq, Eq)]
pub enum SignalDefault {
    /// All bits are 0.
    Zero,
    /// The number of the last lane.
    LastLane,
    /// A 1 for each lane.
    Ones,
}

/// The value that this signal has where the stream lacks it.
pub fn default_of(signal: Signal) -> SignalDefault
    ensures { result ≡ default_of signal }
{
    match signal {
        Signal::Endi => SignalDefault::LastLane,
        Signal::Strb => SignalDefault::Ones,
        Signal::Valid
        | Signal::Ready
        | Signal::Content
        | Signal::Last
        | Signal::Stai
        | Signal::User => SignalDefault::Zero,
    }
}

/// The law of defaults: the transfers that stand at their defaults are those where stai, endi and strb, each where the stream
/// lacks it, stand at what `default_of` says of it.
pub fn defaults_stand()
    ensures { DefaultsStand }
{}
