//! The laws of steady cycles.

ghost use Rattle.steady_run.specs.Laws.{HighStreamsPause, SteadyGrows, SteadyIsFront, SteadyIsRun, SteadyIsShown, SteadyPlansAreLegal};

/// The laws of steady cycles. A stream without dimensions, or of a level from 3 on, may pause anywhere. Steady cycles of such a stream are
/// a run under their ready bits and some gaps. The transfers done are always the first ones. Where they are planned, the cycles break no
/// rule, and where all are done, the stream ends whole with the planned items.
pub fn steady_cycles_keep_their_laws()
    ensures pauses { HighStreamsPause }
    ensures grows { SteadyGrows }
    ensures front { SteadyIsFront }
    ensures run { SteadyIsRun }
    ensures shown { SteadyIsShown }
    ensures legal { SteadyPlansAreLegal }
{}
