//! What the help says of the commands that make and judge traces, and of those that read a project.

/// The page of `check`.
pub const CHECK: &str = "\
A trace has a header that names its streams, and for each clock cycle a row of
each stream: valid, ready and the payload, just before the rising edge. check
judges it by the rules 1 to 10 of docs/RULES.md. It needs no project.

  legal                                     no rule is broken; then a line for
                                            each stream: its transfers, packets
  offence cycle C stream PATH rule R NAME   the first violation, cycles from 0
  unfinished stream PATH open K             the trace ends inside a packet
  unfinished stream PATH pending            the last offer was not taken

Exit status: 0 for legal, 6 for the other three, 1 where the text is no trace.

Example, in examples/check:
$ tydi check hello.trace
offence cycle 1 stream - rule 8 InnerPause
";

/// The page of `vcd`.
pub const VCD: &str = "\
FILE is a value change dump (VCD), as GHDL and Icarus Verilog write it. SCOPE is
the scope of the port's signals: names with points between them. In it stand the
clock, clk, and for each stream of PORT the signals PATH.valid, PATH.ready,
PATH.data and so on, as tydi split names them. docs/FORMATS.md has the details.

It writes a trace: a row of each stream for each rising edge of the clock, with
the values just before it.

Exit status: 0, or 1 where there is no such port, or the dump has an error.

Example, in examples/vcd:
$ tydi vcd hello.til demo::greeter.greeting top hello.vcd
tydi-trace 1
cycles 3
stream - lanes 1 dims 1 level 2 element 8 user 0 forward
1 1 d=48 l=0 b=1
0 1 -
1 1 d=69 l=1 b=1
";

/// The page of `split`.
pub const SPLIT: &str = "\
PROJECT is a text in the Tydi Intermediate Language (TIL), and PORT is written
as NAMESPACE::STREAMLET.PORT.

It writes for each physical stream of the port the line that a trace has of it,
its root, its signals with their widths in bits, and the fields of an element
with their lowest bit and width.

Exit status: 0, or 1 where the project has an error or no such port.

Example, in examples/drive:
$ tydi split ports.til demo::io.text
stream - lanes 1 dims 1 level 1 element 8 user 0 forward
  root -
  valid 1
  ready 1
  data 8
  last 1
  strb 1
  field - 0 8
";

/// The page of `read`.
pub const READ: &str = "\
PROJECT is a text in the Tydi Intermediate Language (TIL), which
docs/LANGUAGE.md teaches.

It writes the same project in one layout, with all that was left to defaults.
The text has to be well formed. Names and types are not looked at: tydi split
and tydi link report their errors.

Exit status: 0, or 1 where the text has an error. The error line names its line
and column.

Example:
$ printf 'namespace a{type b=Bits(8);}' | tydi read /dev/stdin
namespace a {
  type b = Bits(8);
}
";
