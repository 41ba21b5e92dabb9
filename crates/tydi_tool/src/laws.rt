ghost use Rattle.tydi_tool.specs.Causes.{
  ClashCause,
  CountCause,
  DifferenceCause,
  DisagreeCause,
  EachIsOfARow,
  ExactlyWhere,
  FaultCause,
  LexerCause,
  LinkFaultCause,
  NoCarrierCause,
  NoFileCause,
  NoPathCause,
  NoPortCause,
  NoStreamletCause,
  NoTestCause,
  NotFinishedCause,
  NotUtf8Cause,
  OffenceCause,
  OtherHeaderCause,
  OutputTooLongCause,
  ParserCause,
  ReportCause,
  ResolverCause,
  TextCause,
  TooLongCause,
  UnfinishedCause,
};
ghost use Rattle.tydi_tool.specs.Causes as rows;
ghost use Rattle.tydi_tool.specs.BenchLaw.{
  AcceptedPortsHaveBenches,
  BenchesAreRefusedAsDrives,
  TestbenchesAreBenches,
  WrittenBenchesDrive,
  WrittenTestbenchesDrive,
};
ghost use Rattle.tydi_tool.specs.CompareLaw.{DrivenTracesAreSame, SameTracesShowValues, ShownValuesAreSame};
ghost use Rattle.tydi_tool.specs.DecodeLaw.{CarriedValuesAreWritten, DrivenValuesAreReadBack, LevelsKeepValues, WrittenValuesAreCarried};
ghost use Rattle.tydi_tool.specs.CarryLaw.{LevelsRiseOnTheWay, WrittenTracesArrive};
ghost use Rattle.tydi_tool.specs.DriveLaw.{AcceptedPortsAreDriven, WrittenTracesAreDriven};
ghost use Rattle.tydi_tool.specs.DumpLaw.{ShownDumpsAreWritten, WrittenDumpsAreShown};
ghost use Rattle.tydi_tool.specs.JobLaw.{WrittenSummariesAreOfJobs};
ghost use Rattle.tydi_tool.specs.Laws.{OneAnswer, SomeAnswer};
ghost use Rattle.tydi_tool.specs.WatchLaw.{
  DrivenTracesAreSeen,
  OtherItemsAreTold,
  OtherValuesAreTold,
  ShownValuesAreSeen,
  WrittenLinesAreQuiet,
  WrittenMonitorsReport,
};
ghost use Rattle.tydi_tool.specs.WiringLaw.{LanguagesAreAlike, LanguagesAreRefusedAlike, WrittenDesignsAreWired};

use carried_values::traces_arrive_whole;
use cycle_trace::traces_are_read_as_spelled;
use link_check::{compatible_ports_carry, projects_have_one_answer};
use monitor_bench::monitors_report_the_first_difference;
use port_bench::benches_show_their_runs;
use port_drive::driven_texts_are_traces;
use port_gen::jobs_are_carried;
use trace_compare::{no_differences_where_same, texts_have_one_comparison};
use trace_decode::texts_have_one_outcome;
use trace_watch::texts_have_one_watching;
use value_text::values_are_read_as_printed;
use vcd_read::{dumps_show_traces, faults_name_streams};
use vhdl_writer::{checked_nets_carry, each_signal_is_assigned_once, first_clash_is_reported};
use watch_text::monitors_are_read_as_printed;

/// The laws of answers: to given words and files there is an answer, and one.
pub fn answers_are_one()
    ensures one { OneAnswer }
    ensures some { SomeAnswer }
{
    projects_have_one_answer();
    compatible_ports_carry();
    texts_have_one_outcome();
    faults_name_streams();
    texts_have_one_comparison();
    texts_have_one_watching();
}

/// The table of causes: each row's answer comes exactly where its cause stands in the words and the files, and each answer is of a
/// row.
pub fn causes_are_told()
    ensures no_file { ExactlyWhere rows.NoFile NoFileCause }
    ensures too_long { ExactlyWhere rows.TooLong TooLongCause }
    ensures not_utf8 { ExactlyWhere rows.NotUtf8 NotUtf8Cause }
    ensures lexer { ExactlyWhere rows.LexerFault LexerCause }
    ensures parser { ExactlyWhere rows.ParserFault ParserCause }
    ensures resolver { ExactlyWhere rows.ResolverFault ResolverCause }
    ensures no_port { ExactlyWhere rows.NoPort NoPortCause }
    ensures no_streamlet { ExactlyWhere rows.NoStreamlet NoStreamletCause }
    ensures name_clash { ExactlyWhere rows.NameClash ClashCause }
    ensures no_carrier { ExactlyWhere rows.NoCarrier NoCarrierCause }
    ensures file_text { ExactlyWhere rows.TextFault FaultCause }
    ensures other_header { ExactlyWhere rows.OtherHeader OtherHeaderCause }
    ensures count_not_multiple { ExactlyWhere rows.CountNotMultiple CountCause }
    ensures not_finished { ExactlyWhere rows.NotFinished NotFinishedCause }
    ensures link_fault { ExactlyWhere rows.NotLinked LinkFaultCause }
    ensures no_path { ExactlyWhere rows.NoPath NoPathCause }
    ensures output_too_long { ExactlyWhere rows.OutputTooLong OutputTooLongCause }
    ensures offence { ExactlyWhere rows.AnOffence OffenceCause }
    ensures unfinished { ExactlyWhere rows.AnUnfinished UnfinishedCause }
    ensures disagreement { ExactlyWhere rows.ADisagreement DisagreeCause }
    ensures difference { ExactlyWhere rows.ADifference DifferenceCause }
    ensures report { ExactlyWhere rows.AReport ReportCause }
    ensures text { ExactlyWhere rows.AText TextCause }
    ensures no_test { ExactlyWhere rows.NoTest NoTestCause }
    ensures each { EachIsOfARow }
{}

/// The law of `drive`. Where it accepts a project, a port, a value and a plan, it writes the trace of the planned transfers on each stream,
/// which breaks no rule, ends whole on each stream and carries the value; and it writes no other text. The premises are those of the files
/// alone.
pub fn drives_are_legal()
    ensures accepted { AcceptedPortsAreDriven }
    ensures written { WrittenTracesAreDriven }
{}

/// The laws of `decode`, over the words and the files alone. Each text that it writes is that of the one value that the trace carries, which
/// breaks no rule and ends whole on each stream; and where a trace carries a value so, the answer is the text of this value. Of a text that
/// `drive` wrote it gives exactly the value that was driven. A trace carries the same value under all greater levels.
pub fn values_are_read_back()
    ensures written { WrittenValuesAreCarried }
    ensures carried { CarriedValuesAreWritten }
    ensures driven { DrivenValuesAreReadBack }
    ensures levels { LevelsKeepValues }
{}

/// The laws of `compare`, over the words and the files alone. It says that a trace is the same exactly where the trace has the heads of the
/// port and the items done on each stream are those of the value. It says so of each text that `drive` wrote for the value.
pub fn traces_are_compared()
    ensures same { SameTracesShowValues }
    ensures shown { ShownValuesAreSame }
    ensures driven { DrivenTracesAreSame }
{
    no_differences_where_same();
}

/// The laws of `expect` and of `watch`, over the words and the files alone. Each text that `expect` writes is that of the monitor which expects the
/// items of the value. It is read as this monitor, which says of each stream of a trace where the items done first leave the expected ones. Over
/// each text that `drive` wrote for the value it says that all items are seen. Over a trace that `decode` reads as another value, some stream
/// reports or has seen fewer items.
pub fn monitors_are_watched()
    ensures written { WrittenMonitorsReport }
    ensures quiet { WrittenLinesAreQuiet }
    ensures shown { ShownValuesAreSeen }
    ensures items { OtherItemsAreTold }
    ensures driven { DrivenTracesAreSeen }
    ensures values { OtherValuesAreTold }
{
    monitors_are_read_as_printed();
    monitors_report_the_first_difference();
}

/// The laws of `carry`. Each text that it writes is that of the trace that arrives at the leaf sink to which the nets lead from the leaf
/// source, and this trace arrives whole: the same cycles with valid and ready, the same items done in each, legal where it was legal, and
/// carrying the same values by the types of both ends. No level falls on the way, so no trace is refused for one.
pub fn carried_traces_arrive()
    ensures written { WrittenTracesArrive }
    ensures levels { LevelsRiseOnTheWay }
{
    traces_arrive_whole();
    traces_are_read_as_spelled();
    driven_texts_are_traces();
    compatible_ports_carry();
}

/// The laws of `vhdl` and of `verilog`, over the words and the files alone. Each text that they write is that of the entities and architectures of a project that
/// is read from the file and whose links give nets. In each architecture each signal that the receiving end of a stream of a net has is assigned
/// exactly once, and nothing else is; and under the assignments the trace at the receiving ends of a net is the one that `carry` makes of the
/// trace at the sending ends. The two texts of one project are those of the same entities and architectures, and what the one command refuses,
/// the other refuses with the same line, the length of the output aside.
pub fn written_designs_are_wired()
    ensures wired { WrittenDesignsAreWired }
    ensures alike { LanguagesAreAlike }
    ensures refused { LanguagesAreRefusedAlike }
{
    values_are_read_as_printed();
    first_clash_is_reported();
    each_signal_is_assigned_once();
    checked_nets_carry();
}

/// The laws of `bench` and of `testbench`. Each text that they write is that of the testbench which drives the port with the value by the plan: under
/// any ready bits and any orders of its processes each stream shows the run of its planned transfers; and `sim` of it, with the cycles and the ready
/// bits of the plan, gives what `drive` gives. `bench` accepts and refuses exactly what `drive` does, the length of the output aside. The port of
/// each test has a word that names it, and with each such word `bench` writes of the texts that the test holds what `testbench` writes.
pub fn benches_drive_ports()
    ensures written { WrittenBenchesDrive }
    ensures tested { WrittenTestbenchesDrive }
    ensures accepted { AcceptedPortsHaveBenches }
    ensures refused { BenchesAreRefusedAsDrives }
    ensures alike { TestbenchesAreBenches }
{
    benches_show_their_runs();
}

/// The laws of `vcd`, over the words and the files alone. Each text that it writes is that of the trace that the dump shows of the port: the values of
/// its signals just before each rising edge of the clock. The trace has the heads of the port, and the text is read as this trace. Where a dump
/// shows a trace of a port, the answer is its text, if it is not too long.
pub fn dumps_are_sampled()
    ensures written { WrittenDumpsAreShown }
    ensures shown { ShownDumpsAreWritten }
{
    traces_are_read_as_spelled();
    driven_texts_are_traces();
    dumps_show_traces();
}

/// The law of `gen`, over the words and the files alone. Each text that it writes is the summary of the job that the seed and the count make of
/// the port. The job drives the port with a value of at most 1,000,000 leaves by a plan that is always ready; the text that `drive` makes of
/// this value and plan is that of a trace, which breaks no rule, ends whole on each stream and carries the value. The summary has what a survey
/// counts in this trace, its cycles, the length of the text of what it carries, and the sum of the bytes of its text.
pub fn jobs_are_reported()
    ensures { WrittenSummariesAreOfJobs }
{
    jobs_are_carried();
}
