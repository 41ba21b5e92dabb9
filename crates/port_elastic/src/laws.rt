//! The laws of ports that are driven through stages.

ghost use Rattle.port_elastic.specs.Laws.{ElasticTextsAreDriven, ReadyChainsFinish};

/// The laws of ports that are driven through stages. The text at the sinks is the text that drives the port without stages, by a plan with
/// other gaps: a stage holds a transfer back, and changes nothing else. So it is the text of a trace, each stream of which breaks no rule
/// and ends whole; the items carry the value, and the text is read as this trace alone. All transfers come to their sinks where each stream has as many ready
/// bits that are 1 as its transfers make moves, one in each component, and its effective gaps have cycles.
pub fn elastic_texts_are_driven()
    ensures texts { ElasticTextsAreDriven }
    ensures ready { ReadyChainsFinish }
{}
