//! The law of jobs.

ghost use Rattle.port_gen.specs.Laws.{JobsAreCarried};

/// The law of jobs. The value of a job has at most 1,000,000 leaves and is one of the port's type. The job drives the port with this value by
/// a plan that is always ready and has neither gaps nor wishes nor user words. Its rows are a trace of at most 1,000,000 cycles, which breaks
/// no rule, ends whole on each stream and carries the value.
pub fn jobs_are_carried()
    ensures { JobsAreCarried }
{}
