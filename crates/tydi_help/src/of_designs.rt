//! What the help says of the commands for designs of instances and links.

/// The page of `link`.
pub const LINK: &str = "\
It checks each link of each implementation of PROJECT: both ends are there, one
is a source and one a sink, their types fit, and each end stands in one link.

It writes for each implementation the line impl and its streamlet, and a line
net for each link, with its source end and its sink end.

Exit status: 0, or 1 at the first error of the project. That of a link names its
line and column, and for types that do not fit the stream and the reason.

Example, in examples/link:
$ tydi link design.til
impl board::stage
net samples first.samples
net first.filtered second.samples
net second.filtered filtered
impl board::top
net samples left.samples
net left.filtered right.samples
net right.filtered filtered
";

/// The page of `carry`.
pub const CARRY: &str = "\
TOP is a streamlet that is implemented by instances and links. FROM and TO are
ports at the ends of a chain of its links: a port of TOP, or instances and a
port with points between them.

It writes TRACE as the streams of TO show it: the same cycles, with their
levels.

Exit status: 0, or 1: tydi: NoPath FROM TO where no chain leads from FROM to TO.

Example, in examples/link:
$ tydi carry design.til board::top samples left.first.samples frame.trace
tydi-trace 1
cycles 3
stream - lanes 2 dims 1 level 7 element 12 user 0 forward
1 1 d=002001 l=0 s=0 e=1 b=3
1 0 d=000003 l=2 s=0 e=0 b=3
1 1 d=000003 l=2 s=0 e=0 b=3
";

/// The page of `vhdl`.
pub const VHDL: &str = "\
It writes an entity for each streamlet of PROJECT. Where a streamlet is
implemented by instances and links, its architecture follows. You write the
architectures of the others. Names are extended identifiers: \\talk.talker\\ is
the streamlet talker of the namespace talk, and \\said.valid\\ a signal of its
port said. docs/DESIGNS.md goes from a project to a simulation.

Exit status: 0, or 1 where the project has an error, one of its links included.

Example, in examples/vhdl:
$ tydi vhdl talk.til | sed -n 3,6p
entity \\talk.talker\\ is
  port (
    clk : in std_logic;
    rst : in std_logic;
";

/// The page of `verilog`.
pub const VERILOG: &str = "\
It writes a module of Verilog-2001 for each streamlet of PROJECT, with the same
signals, instances and assignments as tydi vhdl. A streamlet without instances
and links includes a file NAMESPACE.STREAMLET.vh, in which you write its inside.
Names are escaped identifiers: a backslash, the name, and a space.

Exit status: 0, or 1 where the project has an error, one of its links included.

Example, in examples/vhdl:
$ tydi verilog talk.til | sed -n 2,5p
module \\talk.talker (
  input wire clk,
  input wire rst,
  output wire \\said.valid ,
";
