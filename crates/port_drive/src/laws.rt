//! The law of ports that are driven.

ghost use Rattle.port_drive.specs.Finishing.{FinishedRunsDrive, ReadyRunsDrive, RunsCanBeMeasured};
ghost use Rattle.port_drive.specs.Forms.{TypesInFormHaveHeads};
ghost use Rattle.port_drive.specs.Laws.{DrivenPortsAreLegal};
ghost use Rattle.port_drive.specs.Text.{DrivenTextsAreTraces, PortHeadsStandTogether};
ghost use Rattle.port_drive.specs.Words.{DrivenWordsHaveValues};

/// The law of driven ports. For a value of the port's type and plans that fit its streams: where runs drive the port, their rows are a
/// trace. Each stream of it has the run of the planned transfers, breaks no rule and ends whole, and the items done carry the value. Each
/// word of an element that it shows is that of some value, so it breaks no rule on tags either.
pub fn driven_ports_are_legal()
    ensures legal { DrivenPortsAreLegal }
    ensures words { DrivenWordsHaveValues }
{}

/// The laws of runs that a value and a plan make. They drive the port exactly where none of them leaves transfers; else the first one that
/// does says why it is not driven. None leaves any that has as many ready bits that are 1 as transfers and cycles of effective gaps. Their
/// rows can be measured, whether they finish or not.
pub fn finished_runs_drive()
    ensures drive { FinishedRunsDrive }
    ensures ready { ReadyRunsDrive }
    ensures measured { RunsCanBeMeasured }
{}

/// The laws of texts that drive a port. The streams of a valid type in form have heads in form, and such heads can stand in one trace. The
/// text that a value and a plan drive is the text of the runs that drive the port, and is read as their trace and no other.
pub fn driven_texts_are_traces()
    ensures form { TypesInFormHaveHeads }
    ensures heads { PortHeadsStandTogether }
    ensures texts { DrivenTextsAreTraces }
{}
