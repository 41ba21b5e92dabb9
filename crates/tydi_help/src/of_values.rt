//! What the help says of the commands that send a value, and of the one that reads it back.

/// The page of `drive`.
pub const DRIVE: &str = "\
VALUE is what the port sends, as root - = [72, 105]; for one sequence. PLAN has
the number of cycles, and for each stream the pauses of the source, the ready
bits of the sink, the lanes of each transfer, and user words. docs/DRIVING.md
goes from a type to a trace.

It writes the trace of all streams of the port. The trace breaks no rule, and
tydi decode reads the value back from it.

Exit status: 0, or 1 where a text has an error, or the cycles do not suffice:
  tydi: NotFinished PATH LEFT

Example, in examples/drive:
$ tydi drive ports.til demo::io.text text.value text.plan
tydi-trace 1
cycles 2
stream - lanes 1 dims 1 level 1 element 8 user 0 forward
1 1 d=48 l=0 b=1
1 1 d=69 l=1 b=1
";

/// The page of `reshape`.
pub const RESHAPE: &str = "\
PORT has one physical stream, without user bits. Its source sends VALUE by PLAN
into a component that gives the stream LANES lanes, 1 to 128, and the level
LEVEL, as 3 or 4.1. The ready bits of the plan are those of the far side.

It writes the trace at the far side. It breaks no rule, and carries the value.

Exit status: 0, or 1. Beside the errors of tydi drive there are these:
  tydi: NotOneStream PORT    the port has not exactly one physical stream
  tydi: UserWidth PORT       the stream has user bits
  tydi: LevelTooLow PORT     LEVEL is below 3, and the stream has dimensions

Example, in examples/reshape:
$ tydi reshape ports.til demo::wide.text 1 3 text.value text.plan
tydi-trace 1
cycles 5
stream - lanes 1 dims 1 level 3 element 8 user 0 forward
0 1 -
1 1 d=48 l=0 b=1
0 1 -
1 1 d=65 l=0 b=1
1 1 d=79 l=1 b=1
";

/// The page of `elastic`.
pub const ELASTIC: &str = "\
VALUE and PLAN are those of tydi drive. NET is a text: the line tydi-net 1, then
for any streams a line stages PATH and the capacity of each stage, 1 for a
register slice and up to 64 for a queue; then, where it matters, lines order,
which say in which order the parts act in each cycle.

It writes the trace at the sinks. It breaks no rule, and carries the value.

Exit status: 0, or 1. Beside the errors of tydi drive there are those of NET,
with their line, and
  tydi: LevelTooLow PATH     a stream with dimensions has a level below 3

Example, in examples/elastic:
$ cat slice.net
tydi-net 1
stages - 1
$ tydi elastic ports.til demo::io.text text.value text.plan slice.net
tydi-trace 1
cycles 3
stream - lanes 1 dims 1 level 3 element 8 user 0 forward
1 1 d=48 l=0 b=1
1 1 d=69 l=1 b=1
0 1 -
";

/// The page of `decode`.
pub const DECODE: &str = "\
TRACE has the streams of PORT, with the heads that tydi split writes.

It writes the value in its canonical text, which tydi drive takes again, and the
user words as comments. Where the trace carries none, it writes one line:

  offence cycle C stream PATH rule R NAME   the first violation of rules 1 to 11
  unfinished stream PATH open K             a packet is open at the end
  unfinished stream PATH pending            an offer was not taken at the end
  disagree stream PATH packet K             the streams do not fit each other

Exit status: 0 for a value, 6 for one of these lines, 1 where a text has an
error or the heads are others (tydi: OtherHeader TRACE NUMBER).

Example, in examples/decode:
$ tydi decode ports.til demo::io.text text.trace
root - = [72, 105];
";
