ghost use Rattle.testbench.specs.Laws.{DrivingIsWellFormed, DrivingRuns};
ghost use Rattle.testbench.specs.PortLaws.{PortBenchesAreWellFormed, PortBenchesRun};

/// The law of every stall and every order: on each stream a driving bench shows the run of its transfers and gaps, under any ready bits and
/// any orders of its processes.
pub fn driving_runs()
    ensures { DrivingRuns }
{}

/// The law of driving benches: one of streams that may stand together, with gaps of at most 1,000,000 cycles, is well formed.
pub fn driving_is_well_formed()
    ensures { DrivingIsWellFormed }
{}

/// The laws of the bench that `bench` makes of a port's split, transfers that its streams can show and a plan. On each stream it shows the
/// run of the transfers and gaps, under any ready bits and any orders of its processes. It is well formed where the heads of the streams
/// may stand together.
pub fn port_benches_keep_their_laws()
    ensures run { PortBenchesRun }
    ensures well_formed { PortBenchesAreWellFormed }
{}
