//! The laws of assignments, and that of clashes.

ghost use Rattle.vhdl_writer.specs.Laws.{CyclesAreCarried};
ghost use Rattle.vhdl_writer.specs.PortClashes.{FirstClashIsReported};
ghost use Rattle.vhdl_writer.specs.WiringLaws.{CheckedNetsAreDriven, CheckedNetsCarry, EachSignalIsAssignedOnce};

use tydi_base::paths_are_read_as_spelled;

/// The law of assignments: by those of a channel a cycle at the sending end is the carried cycle at the receiving end, which is the same
/// transfer, valid and ready, with each signal that the sending end lacks at its default.
pub fn assignments_carry_cycles()
    ensures { CyclesAreCarried }
{}

/// The law of architectures. In each architecture of a project without an error, each signal that the receiving end of a stream of a net
/// has is assigned exactly once: from the sending end's signal of that kind, or its default where that end lacks it, and ready the other way.
/// Nothing else is assigned.
pub fn each_signal_is_assigned_once()
    ensures { EachSignalIsAssignedOnce }
{
    paths_are_read_as_spelled();
}

/// The law of checked nets: each stream at either end of a net has its channel, the sending end may drive the receiving end, and under the
/// assignments of the architecture the trace at the receiving ends is the one that arrives where that at the sending ends is carried there.
pub fn checked_nets_carry()
    ensures driven { CheckedNetsAreDriven }
    ensures carry { CheckedNetsCarry }
{}

/// The law of clashes: `architecture` reports the path of the clash that `first_clash` finds.
pub fn first_clash_is_reported()
    ensures { FirstClashIsReported }
{}
