//! A law of monitors, for all cycles.

ghost use Rattle.monitor_bench.specs.Laws.{MonitorsReport};

/// Each process of the monitor of a port reports the first cycle by whose end the items done are no front of the expected ones; where there is
/// none, its place is the number of all items done.
pub fn monitors_report_the_first_difference()
    ensures { MonitorsReport }
{}
