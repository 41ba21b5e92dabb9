//! What the help says of the commands for testbenches, and of the one that makes a job.

/// The page of `bench`.
pub const BENCH: &str = "\
The words are those of tydi drive. It writes the entity bench: the clock, and
for each stream of PORT its ready as an input, and valid and its payload as
outputs. A process for each stream sends the transfers of VALUE with the gaps of
PLAN. Under any ready bits it sends the same transfers. docs/TESTBENCHES.md uses
one.

Exit status: 0, or 1 where tydi drive refuses the words.

Example, in examples/drive:
$ tydi bench ports.til demo::io.text text.value text.plan | sed -n 17,23p
  process
  begin
    \\-.data\\ <= \"01001000\";
    \\-.last\\ <= \"0\";
    \\-.strb\\ <= \"1\";
    \\-.valid\\ <= '1';
    wait until rising_edge(clk) and \\-.ready\\ = '1';
";

/// The page of `testbench`.
pub const TESTBENCH: &str = "\
TEST is the path of a test of PROJECT, as shop::greets. A test names a port, and
has a value and a plan as quoted texts.

It writes what tydi bench writes for that port, value and plan.

Exit status: 0, or 1 where the project, the value or the plan has an error, or
there is no such test (tydi: NoTest TEST).

Example, in examples/bench:
$ tydi testbench capitals.til shop::greets | sed -n 1,2p
-- tydi-bench 1
-- stream - lanes 1 dims 1 level 2 element 8 user 0 forward
";

/// The page of `sim`.
pub const SIM: &str = "\
BENCH is a text of the form that tydi bench writes. RUN has the line tydi-run 1,
the number of cycles, and if need be the ready bits of streams and an order of
the processes in each cycle. The order changes nothing.

It writes the trace of the testbench's streams, by the meaning of its statements
that docs/TESTBENCHES.md states.

Exit status: 0, or 1 where a text has an error.

Example, in examples/sim:
$ tail -n 2 greeting.run
cycles 3
ready - 011
$ tydi sim greeting.vhd greeting.run
tydi-trace 1
cycles 3
stream - lanes 1 dims 1 level 1 element 8 user 0 forward
1 0 d=48 l=0 b=1
1 1 d=48 l=0 b=1
1 1 d=69 l=1 b=1
";

/// The page of `gen`.
pub const GEN: &str = "\
SEED is 0 to 65535, and COUNT 0 to 100000. They make a value of PORT, with COUNT
members for each root. It is sent without pauses, checked and decoded.

It writes the transfers and packets of each stream, the cycles, the length of
the decoded text in bytes, and the sum of the bytes of the trace, modulo 2^32.
Another tool can make the same job and compare the numbers.

Exit status: 0, or 1 where the project has an error, or the job is too large.

Example, in examples/gen:
$ tydi gen jobs.til job::bytes.p 1 4
stream - transfers 4 packets 4
cycles 4
text 26
trace 8627
";
