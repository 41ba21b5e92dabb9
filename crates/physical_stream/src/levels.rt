ghost use Rattle.physical_stream.specs.Levels.{CyclesRise, TransfersRise};

/// A transfer that a stream can show at one level it can show at every greater one. Signals that only the greater level has are
/// at their defaults.
pub fn shown_at_greater_levels()
    ensures transfers { TransfersRise }
    ensures cycles { CyclesRise }
{}
