//! What the help says of the commands that compare what came with what should come.

/// The page of `compare`.
pub const COMPARE: &str = "\
The items of each stream, elements and ends of sequences, are compared with
those of VALUE. Cycles, pauses, lanes, user words and rules are not looked at.

It writes same, or for each stream that differs

  differs stream PATH item K at PLACE cycle C want W got G

K counts the items from 0. PLACE has a number for each dimension, and last that
of the element: 1.0 is the first element of the second sequence. C is the cycle
of the item that came, - where the trace has no more. W and G are an element as
0x and its digits, close and a dimension, or end.

Exit status: 0 for same, 6 for a difference, 1 where a text has an error.

Example, in examples/compare:
$ tydi compare ports.til demo::io.text text.value text.trace
same
";

/// The page of `expect`.
pub const EXPECT: &str = "\
It writes the entity watch. It has the clock, the signals of the port's streams
as inputs, and for each stream an output PATH.fault. The fault rises at the
first item that is not the one of VALUE that is due. The monitor drives no
signal of the streams, so it stands beside any design. docs/TESTBENCHES.md
places one.

The text has a line for each item of VALUE. tydi watch runs it over a trace.

Exit status: 0, or 1 where the project or the value has an error.

Example, in examples/watch:
$ tydi expect ports.til demo::io.text text.value | sed -n 1,2p
-- tydi-watch 1
-- stream - lanes 1 dims 1 level 1 element 8 user 0 forward
";

/// The page of `watch`.
pub const WATCH: &str = "\
MONITOR is a text of the form that tydi expect writes, and TRACE has its
streams.

It writes a line for each stream:

  stream PATH report C       the fault rises at the edge of cycle C, from 0
  stream PATH seen K of M    no fault: K of the M expected items came

A value that came in part has no fault: then K is less than M.

Exit status: 6 where some stream reports, else 0; 1 where a text has an error.

Example, in examples/watch:
$ tydi watch text.vhd text.trace
stream - seen 5 of 5
";
