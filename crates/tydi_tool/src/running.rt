ghost use Rattle.std.specs.Prelude.{◌≡◌, ◌⊎◌, [], Some, IfSome, codes};
ghost use Rattle.tydi_io.specs.Faults.{Rose};
ghost use Rattle.tydi_tool.specs.Words.{request_of, Allows};
ghost use Rattle.tydi_tool.specs.Delivery.{Adds};
ghost use Rattle.tydi_tool.specs.Commands.{Says};
ghost use Rattle.tydi_tool.specs.Run.{
  Runs,
  UsageExactly,
  EndsInAnswer,
  IsAnswered,
  IsCaused,
  IsComplete,
  AnswersCauses,
  ReportsRead,
  OutFront,
  OutPart,
  LeavesOut,
  LeavesErr,
  IsRefusal,
  ErrFront,
  StartedAtEnd,
  WritesJob,
  WritesReadBack,
  WritesSampled,
  WritesCarried,
  WritesCompared,
  WritesExpected,
  WritesWatched,
  WritesWired,
  WritesLines,
  WritesTrace,
  WritesValue,
};
ghost use Rattle.tydi_tool.specs.declared.answer.Answer.{Answer};
ghost use Rattle.tydi_tool.specs.declared.status.Status.TheVariants as statuses;

use crate::commands::reply_to;
use crate::delivery::{deliver, deliver_line};
use crate::laws::{
    benches_drive_ports, carried_traces_arrive, dumps_are_sampled, jobs_are_reported,
    monitors_are_watched, traces_are_compared, written_designs_are_wired,
};
use crate::status::Status;
use crate::words::words_of;
use std::alloc::Global;
use tydi_base::Text;
use tydi_io::{Sink, Store};

/// Runs the tool on the words after the program's name: reads the files that they name from the store, writes the answer to
/// out, and a line to err where there is an error.
pub fn run<S: Store, O: Sink, E: Sink>(
    alloc: Global,
    words: &[Text],
    store: &mut S,
    out: &mut O,
    err: &mut E,
) -> Status
    // The store may start each file that the words name. So no other is started.
    requires { Allows (S.allowed store.old) (request_of words.now) }
    // The whole of it, of which all that follows is a part: which file decides the reply, and how it is delivered.
    ensures runs { Runs (Rose (S.faults store.old) (S.faults store.new)) (Rose (O.faults out.old) (O.faults out.new))
        (Rose (E.faults err.old) (E.faults err.new)) (request_of words.now) (S.files store.old) (S.started store.old) (S.started store.new)
        result (O.taken out.old) (O.taken out.new) (E.taken err.old) (E.taken err.new) }
    // Usage comes exactly where the words spell no command, a failure of err aside.
    ensures usage { UsageExactly (request_of words.now) (Rose (E.faults err.old) (E.faults err.new)) result }
    ensures usage_line { result ≡ statuses.Usage →
        Adds (O.taken out.old) (O.taken out.new) [] × Adds (E.taken err.old) (E.taken err.new) (codes "tydi: Usage\n") }
    // ReadFault comes only where the store's faults rose.
    ensures read_fault { result ≡ statuses.ReadFault → Rose (S.faults store.old) (S.faults store.new) }
    ensures read_fault_line { result ≡ statuses.ReadFault → ReportsRead (S.files store.old) (request_of words.now) (S.started store.new)
        (O.taken out.old) (O.taken out.new) (E.taken err.old) (E.taken err.new) }
    // WriteFault comes only where out's faults rose, or err's while it took a line.
    ensures write_fault { result ≡ statuses.WriteFault → Rose (O.faults out.old) (O.faults out.new) ⊎ Rose (E.faults err.old) (E.faults err.new) }
    ensures write_fault_line { result ≡ statuses.WriteFault → (Rose (E.faults err.old) (E.faults err.new) → ⊥) →
        Adds (E.taken err.old) (E.taken err.new) (codes "tydi: WriteFault\n") }
    // Want of memory comes with its line alone.
    ensures memory_line { result ≡ statuses.Memory → Adds (E.taken err.old) (E.taken err.new) (codes "tydi: Memory\n") }
    // Done, Verdict and Refused come only as the answer to the words and to files that the store may have, written to the byte.
    ensures answered { EndsInAnswer result → IsAnswered (S.files store.old) (request_of words.now) result
        (O.taken out.old) (O.taken out.new) (E.taken err.old) (E.taken err.new) }
    // Where the store reports its files, such an answer comes only where its cause stands in them, by a row of the table of causes.
    ensures caused { EndsInAnswer result → IfSome (S.files store.old) (λ known. IsCaused known (request_of words.now) result
        (O.taken out.old) (O.taken out.new) (E.taken err.old) (E.taken err.new)) }
    // Where a port is driven, out has exactly the text of a trace that breaks no rule, ends whole and carries the value.
    ensures driven { result ≡ statuses.Done → IfSome (S.files store.old) (λ known. WritesTrace known (request_of words.now) (O.taken out.old) (O.taken out.new)) }
    // Wherever a file holds this text, beside the same project, `decode` gives exactly the value that was driven.
    ensures read_back { result ≡ statuses.Done → IfSome (S.files store.old) (λ known. WritesReadBack known (request_of words.now) (O.taken out.old) (O.taken out.new)) }
    // Where a port is decoded, out has exactly the text of the one value that the trace carries, which breaks no rule and ends whole.
    ensures decoded { result ≡ statuses.Done → IfSome (S.files store.old) (λ known. WritesValue known (request_of words.now) (O.taken out.old) (O.taken out.new)) }
    // Where a trace is carried, out has exactly the text of the trace that arrives, which arrives whole.
    ensures carried { result ≡ statuses.Done → IfSome (S.files store.old) (λ known. WritesCarried known (request_of words.now) (O.taken out.old)
        (O.taken out.new)) }
    // Where a project is written in VHDL or in Verilog, out has exactly the text of its entities and architectures, in each of which each signal that the
    // receiving end of a stream of a net has is assigned exactly once, and which keep what `carry` makes of a trace.
    ensures wired { result ≡ statuses.Done → IfSome (S.files store.old) (λ known. WritesWired known (request_of words.now) (O.taken out.old)
        (O.taken out.new)) }
    // Where a testbench is made, of a port or of a declared test, out has exactly the text of one that drives the port: under any ready bits and any
    // orders of its processes it shows the run of the planned transfers, and `sim` of it, under the plan's cycles and ready bits, gives what `drive` gives.
    ensures benched { result ≡ statuses.Done → IfSome (S.files store.old) (λ known. WritesLines known (request_of words.now) (O.taken out.old)
        (O.taken out.new)) }
    // Where a dump is sampled, out has exactly the text of the trace that it shows of the port, which is read as this trace.
    ensures sampled { result ≡ statuses.Done → IfSome (S.files store.old) (λ known. WritesSampled known (request_of words.now) (O.taken out.old)
        (O.taken out.new)) }
    // Where a job of a port is made, out has exactly the text of its summary. The job drives the port with a value by a plan that is always ready, and
    // its trace breaks no rule, ends whole and carries the value.
    ensures generated { result ≡ statuses.Done → IfSome (S.files store.old) (λ known. WritesJob known (request_of words.now) (O.taken out.old)
        (O.taken out.new)) }
    // Where a trace is compared with a value and is the same, out has exactly the line that says so, and the items done on each stream are exactly
    // those of the value.
    ensures compared { result ≡ statuses.Done → IfSome (S.files store.old) (λ known. WritesCompared known (request_of words.now) (O.taken out.old)
        (O.taken out.new)) }
    // Where a monitor of a port is written for a value, out has exactly the text of the monitor that expects the items of the value. It is read as this
    // monitor, and over each trace with the heads of the port the monitor says of each stream where the items done first leave the expected ones.
    ensures expected { result ≡ statuses.Done → IfSome (S.files store.old) (λ known. WritesExpected known (request_of words.now) (O.taken out.old)
        (O.taken out.new)) }
    // Where a monitor runs over a trace and no process of it reports, out has exactly a line for each stream, with how many items it has seen.
    ensures watched { result ≡ statuses.Done → IfSome (S.files store.old) (λ known. WritesWatched known (request_of words.now) (O.taken out.old)
        (O.taken out.new)) }
    // Where no count of faults rose, the run ends with that answer, as Usage, or for want of memory.
    ensures complete { (Rose (S.faults store.old) (S.faults store.new) → ⊥) →
        (Rose (O.faults out.old) (O.faults out.new) → ⊥) → (Rose (E.faults err.old) (E.faults err.new) → ⊥) →
        IsComplete (S.files store.old) (request_of words.now) result (O.taken out.old) (O.taken out.new) (E.taken err.old) (E.taken err.new) }
    // Where the store reports its files too, the run ends so with each answer whose cause stands in them. With `caused`: with the answer of a row
    // exactly where its cause stands, want of memory aside.
    ensures told { (Rose (S.faults store.old) (S.faults store.new) → ⊥) →
        (Rose (O.faults out.old) (O.faults out.new) → ⊥) → (Rose (E.faults err.old) (E.faults err.new) → ⊥) →
        IfSome (S.files store.old) (λ known. AnswersCauses known (request_of words.now) result (O.taken out.old) (O.taken out.new)
        (E.taken err.old) (E.taken err.new)) }
    // Out keeps its bytes, and is never given more than a front of the answer's text or verdict.
    ensures out_front { OutFront (S.files store.old) (request_of words.now) (O.taken out.old) (O.taken out.new) }
    // Where memory was missing, out did not get the whole of a text.
    ensures out_part { result ≡ statuses.Memory → OutPart (S.files store.old) (request_of words.now) (O.taken out.old) (O.taken out.new) }
    ensures out_left { LeavesOut result → Adds (O.taken out.old) (O.taken out.new) [] }
    // Where the answer to the store's files is a refusal, nothing is given to out.
    ensures refusal_left { IfSome (S.files store.old) (λ known. (answer : Answer) → Says (Some known) (request_of words.now) answer →
        IsRefusal answer → Adds (O.taken out.old) (O.taken out.new) []) }
    // Err keeps its bytes, and is never given more than a front of one line.
    ensures err_front { ErrFront (S.files store.old) (request_of words.now) (Rose (S.faults store.old) (S.faults store.new))
        (Rose (O.faults out.old) (O.faults out.new)) (E.taken err.old) (E.taken err.new) }
    ensures err_left { LeavesErr result → Adds (E.taken err.old) (E.taken err.new) [] }
    // The file that is started at the end, and how far it was given.
    ensures started { IfSome (S.files store.old) (λ known. StartedAtEnd known (request_of words.now) result (S.started store.old) (S.started store.new)) }
{
    carried_traces_arrive();
    written_designs_are_wired();
    benches_drive_ports();
    dumps_are_sampled();
    jobs_are_reported();
    traces_are_compared();
    monitors_are_watched();
    run_words(alloc, words, store, out, err)
}

/// The run, by its one contract.
fn run_words<S: Store, O: Sink, E: Sink>(
    alloc: Global,
    words: &[Text],
    store: &mut S,
    out: &mut O,
    err: &mut E,
) -> Status
    requires { Allows (S.allowed store.old) (request_of words.now) }
    ensures { Runs (Rose (S.faults store.old) (S.faults store.new)) (Rose (O.faults out.old) (O.faults out.new))
        (Rose (E.faults err.old) (E.faults err.new)) (request_of words.now) (S.files store.old) (S.started store.old) (S.started store.new)
        result (O.taken out.old) (O.taken out.new) (E.taken err.old) (E.taken err.new) }
{
    match words_of(words) {
        None => deliver_line(b"tydi: Usage\n", Status::Usage, err),
        Some(command) => {
            let reply = reply_to(alloc, command, store);
            deliver(alloc, reply, out, err)
        }
    }
}
