//! Rows of `vcd`. The project stands in the file `p`, and the dump in `t`.

/// Dumps that show a trace of a port.
pub(crate) const SAMPLED: &str = "\
# two rising edges: each row has the values before the edge's own changes
$ vcd p n::s.p bench t
< namespace n {
<   type t = Stream(data: Bits(8), throughput: 1, dimensionality: 0, complexity: 1);
<   streamlet s = (p: in t);
< }
@ p
< $scope module bench $end
< $var wire 1 a clk $end
< $var wire 1 b \\-.valid\\ $end
< $var wire 1 c \\-.ready\\ $end
< $var wire 8 d \\-.data\\ [7:0] $end
< $upscope $end
< $enddefinitions $end
< #0 0a 1b 1c b1001000 d
< #5 1a b1101001 d
< #10 0a
< #15 1a
> tydi-trace 1
> cycles 2
> stream - lanes 1 dims 0 level 1 element 8 user 0 forward
> 1 1 d=48
> 1 1 d=69
= 0
# no rising edge
$ vcd p n::s.p bench t
< namespace n {
<   type t = Stream(data: Bits(8), throughput: 1, dimensionality: 0, complexity: 1);
<   streamlet s = (p: in t);
< }
@ p
< $scope module bench $end
< $var wire 1 a clk $end
< $var wire 1 b \\-.valid\\ $end
< $var wire 1 c \\-.ready\\ $end
< $var wire 8 d \\-.data\\ [7:0] $end
< $upscope $end
< $enddefinitions $end
< #0 1a 1b 1c b1 d
< #5 0a
< #6 xa
< #7 1a
> tydi-trace 1
> cycles 0
> stream - lanes 1 dims 0 level 1 element 8 user 0 forward
= 0
# no change at all
$ vcd p n::s.p bench t
< namespace n {
<   type t = Stream(data: Bits(8), throughput: 1, dimensionality: 0, complexity: 1);
<   streamlet s = (p: in t);
< }
@ p
< $scope module bench $end
< $var wire 1 a clk $end
< $var wire 1 b \\-.valid\\ $end
< $var wire 1 c \\-.ready\\ $end
< $var wire 8 d \\-.data\\ [7:0] $end
< $upscope $end
< $enddefinitions $end
> tydi-trace 1
> cycles 0
> stream - lanes 1 dims 0 level 1 element 8 user 0 forward
= 0
# an edge before the first time stamp is none, since the clock was unknown
$ vcd p n::s.p bench t
< namespace n {
<   type t = Stream(data: Bits(8), throughput: 1, dimensionality: 0, complexity: 1);
<   streamlet s = (p: in t);
< }
@ p
< $scope module bench $end
< $var wire 1 a clk $end
< $var wire 1 b \\-.valid\\ $end
< $var wire 1 c \\-.ready\\ $end
< $var wire 8 d \\-.data\\ [7:0] $end
< $upscope $end
< $enddefinitions $end
< 0a 1a 1b 1c b0 d
< #5 0a
< #6 1a
> tydi-trace 1
> cycles 1
> stream - lanes 1 dims 0 level 1 element 8 user 0 forward
> 1 1 d=00
= 0
# changes before the first time stamp are a block
$ vcd p n::s.p bench t
< namespace n {
<   type t = Stream(data: Bits(8), throughput: 1, dimensionality: 0, complexity: 1);
<   streamlet s = (p: in t);
< }
@ p
< $scope module bench $end
< $var wire 1 a clk $end
< $var wire 1 b \\-.valid\\ $end
< $var wire 1 c \\-.ready\\ $end
< $var wire 8 d \\-.data\\ [7:0] $end
< $upscope $end
< $enddefinitions $end
< 0a 1b 1c b11 d
< #0 1a 0b
< #1 0a
< #2 1a
> tydi-trace 1
> cycles 2
> stream - lanes 1 dims 0 level 1 element 8 user 0 forward
> 1 1 d=03
> 0 1 -
= 0
# time stamps of one time are one block
$ vcd p n::s.p bench t
< namespace n {
<   type t = Stream(data: Bits(8), throughput: 1, dimensionality: 0, complexity: 1);
<   streamlet s = (p: in t);
< }
@ p
< $scope module bench $end
< $var wire 1 a clk $end
< $var wire 1 b \\-.valid\\ $end
< $var wire 1 c \\-.ready\\ $end
< $var wire 8 d \\-.data\\ [7:0] $end
< $upscope $end
< $enddefinitions $end
< #3 0a 0b 1c b1 d #4 1b #4 1a #4 0b
< #5 0a #5 1a
< #6 0a
< #6
< #7 1a
> tydi-trace 1
> cycles 2
> stream - lanes 1 dims 0 level 1 element 8 user 0 forward
> 0 1 -
> 0 1 -
= 0
# a clock that rises and falls in one block does not rise
$ vcd p n::s.p bench t
< namespace n {
<   type t = Stream(data: Bits(8), throughput: 1, dimensionality: 0, complexity: 1);
<   streamlet s = (p: in t);
< }
@ p
< $scope module bench $end
< $var wire 1 a clk $end
< $var wire 1 b \\-.valid\\ $end
< $var wire 1 c \\-.ready\\ $end
< $var wire 8 d \\-.data\\ [7:0] $end
< $upscope $end
< $enddefinitions $end
< #0 0a 1b 1c b1 d
< #1 1a 0a
< #2 1a
> tydi-trace 1
> cycles 1
> stream - lanes 1 dims 0 level 1 element 8 user 0 forward
> 1 1 d=01
= 0
# sections, dump words and lone ends
$ vcd p n::s.p bench t
< namespace n {
<   type t = Stream(data: Bits(8), throughput: 1, dimensionality: 0, complexity: 1);
<   streamlet s = (p: in t);
< }
@ p
< $date today $end $version x 1 $end
< $timescale
<  1 ns
< $end $comment $scope $end
< $scope module bench $end
< $var wire 1 a clk $end
< $var wire 1 b \\-.valid\\ $end
< $var wire 1 c \\-.ready\\ $end
< $var wire 8 d \\-.data\\ [7:0] $end
< $upscope $end
< $enddefinitions $end
< $comment #9 zz $end
< #0
< $dumpvars 0a 1b 0c b1 d $end
< #1 $dumpoff xa xb xc bx d $end #2 $dumpon 0a 1b 1c b101 d $end $end
< #3 1a $dumpall 1a $end
> tydi-trace 1
> cycles 1
> stream - lanes 1 dims 0 level 1 element 8 user 0 forward
> 1 1 d=05
= 0
# letters of both cases, and a short vector that begins with a 1
$ vcd p n::s.p bench t
< namespace n {
<   type t = Stream(data: Bits(8), throughput: 1, dimensionality: 0, complexity: 1);
<   streamlet s = (p: in t);
< }
@ p
< $scope module bench $end
< $var wire 1 a clk $end
< $var wire 1 b \\-.valid\\ $end
< $var wire 1 c \\-.ready\\ $end
< $var wire 8 d \\-.data\\ [7:0] $end
< $upscope $end
< $enddefinitions $end
< #0 La Hb 1c B110 d
< #1 Ha
< #2 la B0 d hc
< #3 ha
> tydi-trace 1
> cycles 2
> stream - lanes 1 dims 0 level 1 element 8 user 0 forward
> 1 1 d=06
> 1 1 d=00
= 0
# unknown payload where valid is 0
$ vcd p n::s.p bench t
< namespace n {
<   type t = Stream(data: Bits(8), throughput: 1, dimensionality: 0, complexity: 1);
<   streamlet s = (p: in t);
< }
@ p
< $scope module bench $end
< $var wire 1 a clk $end
< $var wire 1 b \\-.valid\\ $end
< $var wire 1 c \\-.ready\\ $end
< $var wire 8 d \\-.data\\ [7:0] $end
< $upscope $end
< $enddefinitions $end
< #0 0a 0b 1c bx d
< #1 1a
< #2 0a b1-01 d
< #3 1a
< #4 0a buuuu d
< #5 1a
> tydi-trace 1
> cycles 3
> stream - lanes 1 dims 0 level 1 element 8 user 0 forward
> 0 1 -
> 0 1 -
> 0 1 -
= 0
# reals and strings are skipped, also under codes that are not declared
$ vcd p n::s.p bench t
< namespace n {
<   type t = Stream(data: Bits(8), throughput: 1, dimensionality: 0, complexity: 1);
<   streamlet s = (p: in t);
< }
@ p
< $scope module bench $end
< $var wire 1 a clk $end
< $var wire 1 b \\-.valid\\ $end
< $var wire 1 c \\-.ready\\ $end
< $var wire 8 d \\-.data\\ [7:0] $end
< $upscope $end
< $enddefinitions $end
< #0 0a 1b 1c b1 d r1.5 e
< sword d
< #1 1a s e r0 e
> tydi-trace 1
> cycles 1
> stream - lanes 1 dims 0 level 1 element 8 user 0 forward
> 1 1 d=01
= 0
# names with one backslash, without any, and a range at the name
$ vcd p n::s.p top.bench t
< namespace n {
<   type t = Stream(data: Bits(8), throughput: 1, dimensionality: 0, complexity: 1);
<   streamlet s = (p: in t);
< }
@ p
< $scope module top $end $scope module bench $end
< $var reg 1 ! clk $end $var wire 1 % -.valid $end
< $var wire 1 & \\-.ready $end $var wire 8 ' \\-.data\\[7:0] $end $var real 64 ( temperature $end
< $upscope $end $upscope $end
< $enddefinitions $end
< #0 0! 1% 1& b10000000 '
< #1 1!
> tydi-trace 1
> cycles 1
> stream - lanes 1 dims 0 level 1 element 8 user 0 forward
> 1 1 d=80
= 0
# the first variable of a name in the scope, and none of an inner or another scope
$ vcd p n::s.p bench t
< namespace n {
<   type t = Stream(data: Bits(8), throughput: 1, dimensionality: 0, complexity: 1);
<   streamlet s = (p: in t);
< }
@ p
< $scope module bench $end
< $scope module u $end $var wire 1 z clk $end $var wire 1 y \\-.valid\\ $end $upscope $end
< $var wire 1 a clk $end $var wire 1 f clk $end
< $var wire 1 b \\-.valid\\ $end $var wire 1 f \\-.valid\\ $end
< $var wire 1 c \\-.ready\\ $end
< $var wire 8 d \\-.data\\ $end
< $upscope $end
< $scope module other $end $var wire 1 f clk $end $upscope $end
< $enddefinitions $end
< #0 0a 0b 0c b1 d 1f 0z 1y
< #1 1a 0f
< #2 0a 1z 1f
> tydi-trace 1
> cycles 1
> stream - lanes 1 dims 0 level 1 element 8 user 0 forward
> 0 0 -
= 0
# one code for two names
$ vcd p n::s.p bench t
< namespace n {
<   type t = Stream(data: Bits(8), throughput: 1, dimensionality: 0, complexity: 1);
<   streamlet s = (p: in t);
< }
@ p
< $scope module bench $end
< $var wire 1 a clk $end $var wire 1 b \\-.valid\\ $end $var wire 1 b \\-.ready\\ $end $var wire 8 d \\-.data\\ $end
< $upscope $end $enddefinitions $end
< #0 0a 1b b11111111 d #1 1a
> tydi-trace 1
> cycles 1
> stream - lanes 1 dims 0 level 1 element 8 user 0 forward
> 1 1 d=ff
= 0
# a scope that opens twice
$ vcd p n::s.p bench t
< namespace n {
<   type t = Stream(data: Bits(8), throughput: 1, dimensionality: 0, complexity: 1);
<   streamlet s = (p: in t);
< }
@ p
< $scope module bench $end $var wire 1 a clk $end $var wire 1 b \\-.valid\\ $end $upscope $end
< $scope module bench $end $var wire 1 c \\-.ready\\ $end $var wire 8 d \\-.data\\ $end $upscope $end $enddefinitions $end
< #0 0a 1b 0c b1 d #1 1a
> tydi-trace 1
> cycles 1
> stream - lanes 1 dims 0 level 1 element 8 user 0 forward
> 1 0 d=01
= 0
# two streams with all their signals
$ vcd p n::s.q bench t
< namespace n {
<   type a = Stream(data: Bits(4), throughput: 2, dimensionality: 1, complexity: 8);
<   type b = Stream(data: Bits(3), complexity: 1, user: Bits(2));
<   type t = Group(first: a, second: b);
<   streamlet s = (p: in Stream(data: Null, keep: true, complexity: 2), q: in Stream(data: t, complexity: 1));
< }
@ p
< $scope module bench $end
< $var wire 1 a clk $end
< $var wire 1 b0 \\first.valid\\ $end $var wire 1 b1 \\first.ready\\ $end
< $var wire 8 b2 \\first.data\\ $end $var wire 2 b3 \\first.last\\ $end
< $var wire 1 b4 \\first.stai\\ $end $var wire 1 b5 \\first.endi\\ $end $var wire 2 b6 \\first.strb\\ $end
< $var wire 1 c0 \\second.valid\\ $end $var wire 1 c1 \\second.ready\\ $end
< $var wire 3 c2 \\second.data\\ $end $var wire 2 c3 \\second.user\\ $end
< $upscope $end $enddefinitions $end
< #0 0a 1b0 1b1 b10100101 b2 b10 b3 0b4 1b5 b11 b6 0c0 1c1 bx c2 bx c3
< #1 1a
< #2 0a 0b0 1c0 b110 c2 b1 c3
< #3 1a
> tydi-trace 1
> cycles 2
> stream first lanes 2 dims 1 level 8 element 4 user 0 forward
> stream second lanes 1 dims 0 level 1 element 3 user 2 forward
> 1 1 d=a5 l=2 s=0 e=1 b=3
> 0 1 -
> 0 1 -
> 1 1 d=6 u=1
= 0
";

/// Dumps that show none, though they are of the profile; and projects and ports that are refused before.
pub(crate) const UNSAMPLED: &str = "\
# a strobe bit that is unknown, in the second cycle
$ vcd p n::s.q bench t
< namespace n {
<   type a = Stream(data: Bits(4), throughput: 2, dimensionality: 1, complexity: 8);
<   type b = Stream(data: Bits(3), complexity: 1, user: Bits(2));
<   type t = Group(first: a, second: b);
<   streamlet s = (p: in Stream(data: Null, keep: true, complexity: 2), q: in Stream(data: t, complexity: 1));
< }
@ p
< $scope module bench $end
< $var wire 1 a clk $end
< $var wire 1 b0 \\first.valid\\ $end $var wire 1 b1 \\first.ready\\ $end
< $var wire 8 b2 \\first.data\\ $end $var wire 2 b3 \\first.last\\ $end
< $var wire 1 b4 \\first.stai\\ $end $var wire 1 b5 \\first.endi\\ $end $var wire 2 b6 \\first.strb\\ $end
< $var wire 1 c0 \\second.valid\\ $end $var wire 1 c1 \\second.ready\\ $end
< $var wire 3 c2 \\second.data\\ $end $var wire 2 c3 \\second.user\\ $end
< $upscope $end $enddefinitions $end
< #0 0a 1b0 1b1 b0 b2 b10 b3 0b4 1b5 b11 b6 0c0 1c1
< #1 1a
< #2 0a bx1 b6
< #3 1a
! tydi: NotBit t 1 first
= 1
# the second stream in the first cycle, before the first in the second
$ vcd p n::s.q bench t
< namespace n {
<   type a = Stream(data: Bits(4), throughput: 2, dimensionality: 1, complexity: 8);
<   type b = Stream(data: Bits(3), complexity: 1, user: Bits(2));
<   type t = Group(first: a, second: b);
<   streamlet s = (p: in Stream(data: Null, keep: true, complexity: 2), q: in Stream(data: t, complexity: 1));
< }
@ p
< $scope module bench $end
< $var wire 1 a clk $end
< $var wire 1 b0 \\first.valid\\ $end $var wire 1 b1 \\first.ready\\ $end
< $var wire 8 b2 \\first.data\\ $end $var wire 2 b3 \\first.last\\ $end
< $var wire 1 b4 \\first.stai\\ $end $var wire 1 b5 \\first.endi\\ $end $var wire 2 b6 \\first.strb\\ $end
< $var wire 1 c0 \\second.valid\\ $end $var wire 1 c1 \\second.ready\\ $end
< $var wire 3 c2 \\second.data\\ $end $var wire 2 c3 \\second.user\\ $end
< $upscope $end $enddefinitions $end
< #0 0a 1b0 1b1 b0 b2 b10 b3 0b4 1b5 b11 b6 0c0 zc1
< #1 1a
< #2 0a xb0
< #3 1a
! tydi: NotBit t 0 second
= 1
# no user word
$ vcd p n::s.q bench t
< namespace n {
<   type a = Stream(data: Bits(4), throughput: 2, dimensionality: 1, complexity: 8);
<   type b = Stream(data: Bits(3), complexity: 1, user: Bits(2));
<   type t = Group(first: a, second: b);
<   streamlet s = (p: in Stream(data: Null, keep: true, complexity: 2), q: in Stream(data: t, complexity: 1));
< }
@ p
< $scope module bench $end
< $var wire 1 a clk $end
< $var wire 1 b0 \\first.valid\\ $end $var wire 1 b1 \\first.ready\\ $end
< $var wire 8 b2 \\first.data\\ $end $var wire 2 b3 \\first.last\\ $end
< $var wire 1 b4 \\first.stai\\ $end $var wire 1 b5 \\first.endi\\ $end $var wire 2 b6 \\first.strb\\ $end
< $var wire 1 c0 \\second.valid\\ $end $var wire 1 c1 \\second.ready\\ $end
< $var wire 3 c2 \\second.data\\ $end $var wire 2 c3 \\second.users\\ $end
< $upscope $end $enddefinitions $end
< #0 0a
! tydi: NoSignal t second user
= 1
# a strobe of three bits, before a signal that is missing of a later stream
$ vcd p n::s.q bench t
< namespace n {
<   type a = Stream(data: Bits(4), throughput: 2, dimensionality: 1, complexity: 8);
<   type b = Stream(data: Bits(3), complexity: 1, user: Bits(2));
<   type t = Group(first: a, second: b);
<   streamlet s = (p: in Stream(data: Null, keep: true, complexity: 2), q: in Stream(data: t, complexity: 1));
< }
@ p
< $scope module bench $end
< $var wire 1 a clk $end
< $var wire 1 b0 \\first.valid\\ $end $var wire 1 b1 \\first.ready\\ $end
< $var wire 8 b2 \\first.data\\ $end $var wire 2 b3 \\first.last\\ $end
< $var wire 1 b4 \\first.stai\\ $end $var wire 1 b5 \\first.endi\\ $end $var wire 3 b6 \\first.strb\\ $end
< $var wire 1 c0 \\none\\ $end $var wire 1 c1 \\second.ready\\ $end
< $var wire 3 c2 \\second.data\\ $end $var wire 2 c3 \\second.user\\ $end
< $upscope $end $enddefinitions $end
! tydi: OtherWidth t first strb
= 1
# valid is x
$ vcd p n::s.p bench t
< namespace n {
<   type t = Stream(data: Bits(8), throughput: 1, dimensionality: 0, complexity: 1);
<   streamlet s = (p: in t);
< }
@ p
< $scope module bench $end
< $var wire 1 a clk $end
< $var wire 1 b \\-.valid\\ $end
< $var wire 1 c \\-.ready\\ $end
< $var wire 8 d \\-.data\\ [7:0] $end
< $upscope $end
< $enddefinitions $end
< #0 0a xb 1c b1 d
< #5 1a
! tydi: NotBit t 0 -
= 1
# valid is z
$ vcd p n::s.p bench t
< namespace n {
<   type t = Stream(data: Bits(8), throughput: 1, dimensionality: 0, complexity: 1);
<   streamlet s = (p: in t);
< }
@ p
< $scope module bench $end
< $var wire 1 a clk $end
< $var wire 1 b \\-.valid\\ $end
< $var wire 1 c \\-.ready\\ $end
< $var wire 8 d \\-.data\\ [7:0] $end
< $upscope $end
< $enddefinitions $end
< #0 0a Zb 1c b1 d
< #5 1a
! tydi: NotBit t 0 -
= 1
# valid is u
$ vcd p n::s.p bench t
< namespace n {
<   type t = Stream(data: Bits(8), throughput: 1, dimensionality: 0, complexity: 1);
<   streamlet s = (p: in t);
< }
@ p
< $scope module bench $end
< $var wire 1 a clk $end
< $var wire 1 b \\-.valid\\ $end
< $var wire 1 c \\-.ready\\ $end
< $var wire 8 d \\-.data\\ [7:0] $end
< $upscope $end
< $enddefinitions $end
< #0 0a ub 1c b1 d
< #5 1a
! tydi: NotBit t 0 -
= 1
# valid is -
$ vcd p n::s.p bench t
< namespace n {
<   type t = Stream(data: Bits(8), throughput: 1, dimensionality: 0, complexity: 1);
<   streamlet s = (p: in t);
< }
@ p
< $scope module bench $end
< $var wire 1 a clk $end
< $var wire 1 b \\-.valid\\ $end
< $var wire 1 c \\-.ready\\ $end
< $var wire 8 d \\-.data\\ [7:0] $end
< $upscope $end
< $enddefinitions $end
< #0 0a -b 1c b1 d
< #5 1a
! tydi: NotBit t 0 -
= 1
# ready is x where valid is 0
$ vcd p n::s.p bench t
< namespace n {
<   type t = Stream(data: Bits(8), throughput: 1, dimensionality: 0, complexity: 1);
<   streamlet s = (p: in t);
< }
@ p
< $scope module bench $end
< $var wire 1 a clk $end
< $var wire 1 b \\-.valid\\ $end
< $var wire 1 c \\-.ready\\ $end
< $var wire 8 d \\-.data\\ [7:0] $end
< $upscope $end
< $enddefinitions $end
< #0 0a 0b wc b1 d
< #5 1a
! tydi: NotBit t 0 -
= 1
# valid was never given
$ vcd p n::s.p bench t
< namespace n {
<   type t = Stream(data: Bits(8), throughput: 1, dimensionality: 0, complexity: 1);
<   streamlet s = (p: in t);
< }
@ p
< $scope module bench $end
< $var wire 1 a clk $end
< $var wire 1 b \\-.valid\\ $end
< $var wire 1 c \\-.ready\\ $end
< $var wire 8 d \\-.data\\ [7:0] $end
< $upscope $end
< $enddefinitions $end
< #0 0a 1c b1 d
< #5 1a
! tydi: NotBit t 0 -
= 1
# a payload of which one bit is unknown
$ vcd p n::s.p bench t
< namespace n {
<   type t = Stream(data: Bits(8), throughput: 1, dimensionality: 0, complexity: 1);
<   streamlet s = (p: in t);
< }
@ p
< $scope module bench $end
< $var wire 1 a clk $end
< $var wire 1 b \\-.valid\\ $end
< $var wire 1 c \\-.ready\\ $end
< $var wire 8 d \\-.data\\ [7:0] $end
< $upscope $end
< $enddefinitions $end
< #0 0a 1b 1c b1 d
< #5 1a b0000z000 d
< #6 0a
< #7 1a
! tydi: NotBit t 1 -
= 1
# a short vector that begins with x
$ vcd p n::s.p bench t
< namespace n {
<   type t = Stream(data: Bits(8), throughput: 1, dimensionality: 0, complexity: 1);
<   streamlet s = (p: in t);
< }
@ p
< $scope module bench $end
< $var wire 1 a clk $end
< $var wire 1 b \\-.valid\\ $end
< $var wire 1 c \\-.ready\\ $end
< $var wire 8 d \\-.data\\ [7:0] $end
< $upscope $end
< $enddefinitions $end
< #0 0a 1b 1c bx1 d
< #5 1a
! tydi: NotBit t 0 -
= 1
# no such scope
$ vcd p n::s.p top t
< namespace n {
<   type t = Stream(data: Bits(8), throughput: 1, dimensionality: 0, complexity: 1);
<   streamlet s = (p: in t);
< }
@ p
< $scope module bench $end
< $var wire 1 a clk $end
< $var wire 1 b \\-.valid\\ $end
< $var wire 1 c \\-.ready\\ $end
< $var wire 8 d \\-.data\\ [7:0] $end
< $upscope $end
< $enddefinitions $end
< #0 0a
! tydi: NoClock t
= 1
# an outer scope
$ vcd p n::s.p bench.bench t
< namespace n {
<   type t = Stream(data: Bits(8), throughput: 1, dimensionality: 0, complexity: 1);
<   streamlet s = (p: in t);
< }
@ p
< $scope module bench $end
< $var wire 1 a clk $end
< $var wire 1 b \\-.valid\\ $end
< $var wire 1 c \\-.ready\\ $end
< $var wire 8 d \\-.data\\ [7:0] $end
< $upscope $end
< $enddefinitions $end
< #0 0a
! tydi: NoClock t
= 1
# a clock of two bits
$ vcd p n::s.p bench t
< namespace n {
<   type t = Stream(data: Bits(8), throughput: 1, dimensionality: 0, complexity: 1);
<   streamlet s = (p: in t);
< }
@ p
< $scope module bench $end
< $var wire 2 a clk $end
< $var wire 1 b \\-.valid\\ $end
< $var wire 1 c \\-.ready\\ $end
< $var wire 8 d \\-.data\\ [7:0] $end
< $upscope $end
< $enddefinitions $end
! tydi: NoClock t
= 1
# a clock of another name
$ vcd p n::s.p bench t
< namespace n {
<   type t = Stream(data: Bits(8), throughput: 1, dimensionality: 0, complexity: 1);
<   streamlet s = (p: in t);
< }
@ p
< $scope module bench $end
< $var wire 1 a CLK $end
< $var wire 1 b \\-.valid\\ $end
< $var wire 1 c \\-.ready\\ $end
< $var wire 8 d \\-.data\\ [7:0] $end
< $upscope $end
< $enddefinitions $end
! tydi: NoClock t
= 1
# no data
$ vcd p n::s.p bench t
< namespace n {
<   type t = Stream(data: Bits(8), throughput: 1, dimensionality: 0, complexity: 1);
<   streamlet s = (p: in t);
< }
@ p
< $scope module bench $end
< $var wire 1 a clk $end
< $var wire 1 b \\-.valid\\ $end
< $var wire 1 c \\-.ready\\ $end
< $var wire 8 d \\-.date\\ [7:0] $end
< $upscope $end
< $enddefinitions $end
! tydi: NoSignal t - data
= 1
# no valid, before data of another width
$ vcd p n::s.p bench t
< namespace n {
<   type t = Stream(data: Bits(8), throughput: 1, dimensionality: 0, complexity: 1);
<   streamlet s = (p: in t);
< }
@ p
< $scope module bench $end
< $var wire 1 a clk $end
< $var wire 1 b \\-.valids\\ $end
< $var wire 1 c \\-.ready\\ $end
< $var wire 9 d \\-.data\\ [7:0] $end
< $upscope $end
< $enddefinitions $end
! tydi: NoSignal t - valid
= 1
# a ready of two bits
$ vcd p n::s.p bench t
< namespace n {
<   type t = Stream(data: Bits(8), throughput: 1, dimensionality: 0, complexity: 1);
<   streamlet s = (p: in t);
< }
@ p
< $scope module bench $end
< $var wire 1 a clk $end
< $var wire 1 b \\-.valid\\ $end
< $var wire 2 c \\-.ready\\ $end
< $var wire 8 d \\-.data\\ [7:0] $end
< $upscope $end
< $enddefinitions $end
! tydi: OtherWidth t - ready
= 1
# data of seven bits
$ vcd p n::s.p bench t
< namespace n {
<   type t = Stream(data: Bits(8), throughput: 1, dimensionality: 0, complexity: 1);
<   streamlet s = (p: in t);
< }
@ p
< $scope module bench $end
< $var wire 1 a clk $end
< $var wire 1 b \\-.valid\\ $end
< $var wire 1 c \\-.ready\\ $end
< $var wire 7 d \\-.data\\ [7:0] $end
< $upscope $end
< $enddefinitions $end
! tydi: OtherWidth t - data
= 1
# the first of two signals of a name has another width
$ vcd p n::s.p bench t
< namespace n {
<   type t = Stream(data: Bits(8), throughput: 1, dimensionality: 0, complexity: 1);
<   streamlet s = (p: in t);
< }
@ p
< $scope module bench $end
< $var wire 1 a clk $end
< $var wire 1 b \\-.valid\\ $end
< $var wire 1 c \\-.ready\\ $end
< $var wire 4 e \\-.data\\ $end $var wire 8 d \\-.data\\ [7:0] $end
< $upscope $end
< $enddefinitions $end
! tydi: OtherWidth t - data
= 1
# time goes back
$ vcd p n::s.p bench t
< namespace n {
<   type t = Stream(data: Bits(8), throughput: 1, dimensionality: 0, complexity: 1);
<   streamlet s = (p: in t);
< }
@ p
< $scope module bench $end
< $var wire 1 a clk $end
< $var wire 1 b \\-.valid\\ $end
< $var wire 1 c \\-.ready\\ $end
< $var wire 8 d \\-.data\\ [7:0] $end
< $upscope $end
< $enddefinitions $end
~ #5 0a #4 1a #3
! tydi: TimeBack t 181
= 1
# time goes back, in a scope without a clock
$ vcd p n::s.p no t
< namespace n {
<   type t = Stream(data: Bits(8), throughput: 1, dimensionality: 0, complexity: 1);
<   streamlet s = (p: in t);
< }
@ p
< $scope module bench $end
< $var wire 1 a clk $end
< $var wire 1 b \\-.valid\\ $end
< $var wire 1 c \\-.ready\\ $end
< $var wire 8 d \\-.data\\ [7:0] $end
< $upscope $end
< $enddefinitions $end
< #10
~ #9
! tydi: TimeBack t 179
= 1
# a word that names no port
$ vcd p n::s.x bench t
< namespace n {
<   type t = Stream(data: Bits(8), throughput: 1, dimensionality: 0, complexity: 1);
<   streamlet s = (p: in t);
< }
@ p
< $scope module bench $end
< $var wire 1 a clk $end
< $var wire 1 b \\-.valid\\ $end
< $var wire 1 c \\-.ready\\ $end
< $var wire 8 d \\-.data\\ [7:0] $end
< $upscope $end
< $enddefinitions $end
! tydi: NoPort n::s.x
= 1
# no port, and the dump is not started
$ vcd p n::s.x bench missing
< namespace n {
<   type t = Stream(data: Bits(8), throughput: 1, dimensionality: 0, complexity: 1);
<   streamlet s = (p: in t);
< }
@ p
< $scope module bench $end
< $var wire 1 a clk $end
< $var wire 1 b \\-.valid\\ $end
< $var wire 1 c \\-.ready\\ $end
< $var wire 8 d \\-.data\\ [7:0] $end
< $upscope $end
< $enddefinitions $end
! tydi: NoPort n::s.x
= 1
# a project with an error, before the dump
$ vcd p n::s.p bench t
< namespace n { streamlet s = (p: in t); }
@ p
< $scope module bench $end
< $var wire 1 a clk $end
< $var wire 1 b \\-.valid\\ $end
< $var wire 1 c \\-.ready\\ $end
< $var wire 8 d \\-.data\\ [7:0] $end
< $upscope $end
< $enddefinitions $end
! tydi: UnknownName p 1:36
= 1
# no project
$ vcd missing n::s.p bench t
< namespace n {
<   type t = Stream(data: Bits(8), throughput: 1, dimensionality: 0, complexity: 1);
<   streamlet s = (p: in t);
< }
@ p
< $scope module bench $end
< $var wire 1 a clk $end
< $var wire 1 b \\-.valid\\ $end
< $var wire 1 c \\-.ready\\ $end
< $var wire 8 d \\-.data\\ [7:0] $end
< $upscope $end
< $enddefinitions $end
! tydi: NoFile missing
= 1
# no dump
$ vcd p n::s.p bench missing
< namespace n {
<   type t = Stream(data: Bits(8), throughput: 1, dimensionality: 0, complexity: 1);
<   streamlet s = (p: in t);
< }
@ p
< $scope module bench $end
< $var wire 1 a clk $end
< $var wire 1 b \\-.valid\\ $end
< $var wire 1 c \\-.ready\\ $end
< $var wire 8 d \\-.data\\ [7:0] $end
< $upscope $end
< $enddefinitions $end
! tydi: NoFile missing
= 1
";

/// Dumps of which a token is against the profile.
pub(crate) const AGAINST_PROFILE: &str = "\
# an error of the text is told before a time that goes back
$ vcd p n::s.p bench t
< namespace n {
<   type t = Stream(data: Bits(8), throughput: 1, dimensionality: 0, complexity: 1);
<   streamlet s = (p: in t);
< }
@ p
< $scope module bench $end
< $var wire 1 a clk $end
< $var wire 1 b \\-.valid\\ $end
< $var wire 1 c \\-.ready\\ $end
< $var wire 8 d \\-.data\\ [7:0] $end
< $upscope $end
< $enddefinitions $end
~ #5 #4 ?
! tydi: Syntax t 181
= 1
# an empty text ends early
$ vcd p n::s.p bench t
< namespace n {
<   type t = Stream(data: Bits(8), throughput: 1, dimensionality: 0, complexity: 1);
<   streamlet s = (p: in t);
< }
@ p
! tydi: Syntax t 0
= 1
# white space alone
$ vcd p n::s.p bench t
< namespace n {
<   type t = Stream(data: Bits(8), throughput: 1, dimensionality: 0, complexity: 1);
<   streamlet s = (p: in t);
< }
@ p
< \t\t
! tydi: Syntax t 3
= 1
# the end of the declarations is missing
$ vcd p n::s.p bench t
< namespace n {
<   type t = Stream(data: Bits(8), throughput: 1, dimensionality: 0, complexity: 1);
<   streamlet s = (p: in t);
< }
@ p
< $scope module bench $end
< $var wire 1 a clk $end
< $var wire 1 b \\-.valid\\ $end
< $var wire 1 c \\-.ready\\ $end
< $var wire 8 d \\-.data\\ [7:0] $end
< $upscope $end
! tydi: Syntax t 154
= 1
# a text that ends inside a section
$ vcd p n::s.p bench t
< namespace n {
<   type t = Stream(data: Bits(8), throughput: 1, dimensionality: 0, complexity: 1);
<   streamlet s = (p: in t);
< }
@ p
< $scope module bench $end
< $var wire 1 a clk $end
< $var wire 1 b \\-.valid\\ $end
< $var wire 1 c \\-.ready\\ $end
< $var wire 8 d \\-.data\\ [7:0] $end
< $upscope $end
< $enddefinitions $end
~ $comment 
! tydi: Syntax t 184
= 1
# a text that ends inside a vector
$ vcd p n::s.p bench t
< namespace n {
<   type t = Stream(data: Bits(8), throughput: 1, dimensionality: 0, complexity: 1);
<   streamlet s = (p: in t);
< }
@ p
< $scope module bench $end
< $var wire 1 a clk $end
< $var wire 1 b \\-.valid\\ $end
< $var wire 1 c \\-.ready\\ $end
< $var wire 8 d \\-.data\\ [7:0] $end
< $upscope $end
< $enddefinitions $end
~ #0 b1
! tydi: Syntax t 180
= 1
# a text that ends inside a variable
$ vcd p n::s.p bench t
< namespace n {
<   type t = Stream(data: Bits(8), throughput: 1, dimensionality: 0, complexity: 1);
<   streamlet s = (p: in t);
< }
@ p
~ $scope module bench $end $var wire 1 a clk 
! tydi: Syntax t 43
= 1
# a word that begins nothing
$ vcd p n::s.p bench t
< namespace n {
<   type t = Stream(data: Bits(8), throughput: 1, dimensionality: 0, complexity: 1);
<   streamlet s = (p: in t);
< }
@ p
< $scope module bench $end
< $var wire 1 a clk $end
< $var wire 1 b \\-.valid\\ $end
< $var wire 1 c \\-.ready\\ $end
< $var wire 8 d \\-.data\\ [7:0] $end
< $upscope $end
< $enddefinitions $end
~ #0 2a #1
! tydi: Syntax t 178
= 1
# a change before the declarations end
$ vcd p n::s.p bench t
< namespace n {
<   type t = Stream(data: Bits(8), throughput: 1, dimensionality: 0, complexity: 1);
<   streamlet s = (p: in t);
< }
@ p
~ $scope module bench $end 0a $end
! tydi: Syntax t 25
= 1
# a scope among the changes
$ vcd p n::s.p bench t
< namespace n {
<   type t = Stream(data: Bits(8), throughput: 1, dimensionality: 0, complexity: 1);
<   streamlet s = (p: in t);
< }
@ p
< $scope module bench $end
< $var wire 1 a clk $end
< $var wire 1 b \\-.valid\\ $end
< $var wire 1 c \\-.ready\\ $end
< $var wire 8 d \\-.data\\ [7:0] $end
< $upscope $end
< $enddefinitions $end
~ $scope module x $end
! tydi: Syntax t 175
= 1
# a code that is not declared
$ vcd p n::s.p bench t
< namespace n {
<   type t = Stream(data: Bits(8), throughput: 1, dimensionality: 0, complexity: 1);
<   streamlet s = (p: in t);
< }
@ p
< $scope module bench $end
< $var wire 1 a clk $end
< $var wire 1 b \\-.valid\\ $end
< $var wire 1 c \\-.ready\\ $end
< $var wire 8 d \\-.data\\ [7:0] $end
< $upscope $end
< $enddefinitions $end
~ #0 0e #1
! tydi: Syntax t 178
= 1
# a vector of a code that is not declared
$ vcd p n::s.p bench t
< namespace n {
<   type t = Stream(data: Bits(8), throughput: 1, dimensionality: 0, complexity: 1);
<   streamlet s = (p: in t);
< }
@ p
< $scope module bench $end
< $var wire 1 a clk $end
< $var wire 1 b \\-.valid\\ $end
< $var wire 1 c \\-.ready\\ $end
< $var wire 8 d \\-.data\\ [7:0] $end
< $upscope $end
< $enddefinitions $end
~ #0 b1 e #1
! tydi: Syntax t 181
= 1
# a scalar change of eight bits
$ vcd p n::s.p bench t
< namespace n {
<   type t = Stream(data: Bits(8), throughput: 1, dimensionality: 0, complexity: 1);
<   streamlet s = (p: in t);
< }
@ p
< $scope module bench $end
< $var wire 1 a clk $end
< $var wire 1 b \\-.valid\\ $end
< $var wire 1 c \\-.ready\\ $end
< $var wire 8 d \\-.data\\ [7:0] $end
< $upscope $end
< $enddefinitions $end
~ #0 1d #1
! tydi: Syntax t 178
= 1
# a vector that is too long
$ vcd p n::s.p bench t
< namespace n {
<   type t = Stream(data: Bits(8), throughput: 1, dimensionality: 0, complexity: 1);
<   streamlet s = (p: in t);
< }
@ p
< $scope module bench $end
< $var wire 1 a clk $end
< $var wire 1 b \\-.valid\\ $end
< $var wire 1 c \\-.ready\\ $end
< $var wire 8 d \\-.data\\ [7:0] $end
< $upscope $end
< $enddefinitions $end
~ #0 b111111111 d #1
! tydi: Syntax t 178
= 1
# a vector without states
$ vcd p n::s.p bench t
< namespace n {
<   type t = Stream(data: Bits(8), throughput: 1, dimensionality: 0, complexity: 1);
<   streamlet s = (p: in t);
< }
@ p
< $scope module bench $end
< $var wire 1 a clk $end
< $var wire 1 b \\-.valid\\ $end
< $var wire 1 c \\-.ready\\ $end
< $var wire 8 d \\-.data\\ [7:0] $end
< $upscope $end
< $enddefinitions $end
~ #0 b d #1
! tydi: Syntax t 178
= 1
# a vector with a letter that is no state
$ vcd p n::s.p bench t
< namespace n {
<   type t = Stream(data: Bits(8), throughput: 1, dimensionality: 0, complexity: 1);
<   streamlet s = (p: in t);
< }
@ p
< $scope module bench $end
< $var wire 1 a clk $end
< $var wire 1 b \\-.valid\\ $end
< $var wire 1 c \\-.ready\\ $end
< $var wire 8 d \\-.data\\ [7:0] $end
< $upscope $end
< $enddefinitions $end
~ #0 b12 d #1
! tydi: Syntax t 178
= 1
# a code that is declared again with another width
$ vcd p n::s.p bench t
< namespace n {
<   type t = Stream(data: Bits(8), throughput: 1, dimensionality: 0, complexity: 1);
<   streamlet s = (p: in t);
< }
@ p
~ $scope module bench $end $var wire 1 a clk $end $var wire 2 a b $end
! tydi: Syntax t 60
= 1
# a width that begins with 0
$ vcd p n::s.p bench t
< namespace n {
<   type t = Stream(data: Bits(8), throughput: 1, dimensionality: 0, complexity: 1);
<   streamlet s = (p: in t);
< }
@ p
~ $scope module bench $end $var wire 01 a clk $end
! tydi: Syntax t 35
= 1
# a scope closes, and none is open
$ vcd p n::s.p bench t
< namespace n {
<   type t = Stream(data: Bits(8), throughput: 1, dimensionality: 0, complexity: 1);
<   streamlet s = (p: in t);
< }
@ p
~ $upscope $end
! tydi: Syntax t 0
= 1
# a scope is open where the declarations end
$ vcd p n::s.p bench t
< namespace n {
<   type t = Stream(data: Bits(8), throughput: 1, dimensionality: 0, complexity: 1);
<   streamlet s = (p: in t);
< }
@ p
~ $scope module bench $end $enddefinitions $end
! tydi: Syntax t 25
= 1
# something else than a range before the end of a variable
$ vcd p n::s.p bench t
< namespace n {
<   type t = Stream(data: Bits(8), throughput: 1, dimensionality: 0, complexity: 1);
<   streamlet s = (p: in t);
< }
@ p
~ $scope module bench $end $var wire 1 a clk x $end
! tydi: Syntax t 43
= 1
# two ranges
$ vcd p n::s.p bench t
< namespace n {
<   type t = Stream(data: Bits(8), throughput: 1, dimensionality: 0, complexity: 1);
<   streamlet s = (p: in t);
< }
@ p
~ $scope module bench $end $var wire 1 a clk [0] [1] $end
! tydi: Syntax t 47
= 1
# a real in upper case
$ vcd p n::s.p bench t
< namespace n {
<   type t = Stream(data: Bits(8), throughput: 1, dimensionality: 0, complexity: 1);
<   streamlet s = (p: in t);
< }
@ p
< $scope module bench $end
< $var wire 1 a clk $end
< $var wire 1 b \\-.valid\\ $end
< $var wire 1 c \\-.ready\\ $end
< $var wire 8 d \\-.data\\ [7:0] $end
< $upscope $end
< $enddefinitions $end
~ #0 R1.5 d
! tydi: Syntax t 178
= 1
# a time that begins with 0
$ vcd p n::s.p bench t
< namespace n {
<   type t = Stream(data: Bits(8), throughput: 1, dimensionality: 0, complexity: 1);
<   streamlet s = (p: in t);
< }
@ p
< $scope module bench $end
< $var wire 1 a clk $end
< $var wire 1 b \\-.valid\\ $end
< $var wire 1 c \\-.ready\\ $end
< $var wire 8 d \\-.data\\ [7:0] $end
< $upscope $end
< $enddefinitions $end
~ #05 0a
! tydi: Syntax t 175
= 1
# a time of 2 ^ 64
$ vcd p n::s.p bench t
< namespace n {
<   type t = Stream(data: Bits(8), throughput: 1, dimensionality: 0, complexity: 1);
<   streamlet s = (p: in t);
< }
@ p
< $scope module bench $end
< $var wire 1 a clk $end
< $var wire 1 b \\-.valid\\ $end
< $var wire 1 c \\-.ready\\ $end
< $var wire 8 d \\-.data\\ [7:0] $end
< $upscope $end
< $enddefinitions $end
~ #18446744073709551615 #18446744073709551616 0a
! tydi: Syntax t 197
= 1
# a time without digits
$ vcd p n::s.p bench t
< namespace n {
<   type t = Stream(data: Bits(8), throughput: 1, dimensionality: 0, complexity: 1);
<   streamlet s = (p: in t);
< }
@ p
< $scope module bench $end
< $var wire 1 a clk $end
< $var wire 1 b \\-.valid\\ $end
< $var wire 1 c \\-.ready\\ $end
< $var wire 8 d \\-.data\\ [7:0] $end
< $upscope $end
< $enddefinitions $end
~ # 0a
! tydi: Syntax t 175
= 1
";

/// Words that are no command.
pub(crate) const DUMP_WORDS: &str = "\
# no dump is named
$ vcd p n::s.p bench
! tydi: Usage
= 2
# one word too many
$ vcd p n::s.p bench t t
! tydi: Usage
= 2
# the empty scope
$ vcd p n::s.p - t
! tydi: Usage
= 2
# two points in a scope
$ vcd p n::s.p top..bench t
! tydi: Usage
= 2
# a point at the end of a scope
$ vcd p n::s.p top. t
! tydi: Usage
= 2
# colons in a scope
$ vcd p n::s.p top::bench t
! tydi: Usage
= 2
# a scope that begins with a digit
$ vcd p n::s.p 1top t
! tydi: Usage
= 2
# a scope with a backslash
$ vcd p n::s.p top.\\said\\ t
! tydi: Usage
= 2
# a dump that begins with a sign
$ vcd p n::s.p bench -t
! tydi: Usage
= 2
";
