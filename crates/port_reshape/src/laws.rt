//! The laws of ports that are reshaped.

ghost use Rattle.port_reshape.specs.Laws.{FarSplitsAreFar, ReadySourcesReshape, ReshapedTextsAreDriven};
ghost use Rattle.port_reshape.specs.Rates.{RatesLeaveValues};

/// The laws of reshaped ports. The text at the far side is what the same value drives, by a plan with the same cycles and ready bits, at a
/// port that differs only in the lanes and the level of its stream. So all laws of driven texts speak of it. It is there wherever the
/// plan has as many ready bits that are 1 as there are far transfers, source transfers and cycles of the source's effective gaps.
pub fn reshaped_ports_are_driven()
    ensures driven { ReshapedTextsAreDriven }
    ensures far { FarSplitsAreFar }
    ensures ready { ReadySourcesReshape }
{}

/// The law of throughputs and levels. Two types that are one type but for these have the same values, which each stream carries as the same
/// nest. So a port of the one differs from a port of the other only in the lanes and levels of its streams.
pub fn rates_leave_values()
    ensures { RatesLeaveValues }
{}
