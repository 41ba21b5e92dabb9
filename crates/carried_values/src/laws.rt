//! The laws of values that are carried.

ghost use Rattle.carried_values.specs.Laws.{CompatiblePortsClash, CompatibleTypesAreOne, TracesArriveWhole};

use link_check::{carried_traces_keep_their_laws, compatible_ports_carry};
use trace_decode::offences_fall_with_tags;

/// The law of compatible types: they are one type, levels aside. So the streams of two ports clash alike.
pub fn compatible_types_are_one()
    ensures types { CompatibleTypesAreOne }
    ensures clash { CompatiblePortsClash }
{}

/// The law of traces that are carried between the ends of a chain of nets, seen by the types of both ends: each stream has the same
/// cycles, items done and ending; legal stays legal; the items done carry the same values. Where the levels of the streams that flow back
/// are equal, what arrives is decoded as what was sent, wherever that is decoded as a value.
pub fn traces_arrive_whole()
    ensures { TracesArriveWhole }
{
    carried_traces_keep_their_laws();
    compatible_ports_carry();
    offences_fall_with_tags();
}
