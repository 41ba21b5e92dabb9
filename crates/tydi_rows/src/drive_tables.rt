//! Rows of `drive`. The project stands in the file `p`, the value in `v` and the plan in `q` or `pl`.

/// Values that are driven, and why some are not.
pub(crate) const DRIVEN: &str = "\
# elements in three lanes, the last transfer with one lane idle
$ drive p n::s.p v q
~ namespace n { type t = Stream(data: Bits(8), throughput: 3, dimensionality: 1, complexity: 1); streamlet s = (p: in t); }
@ p
~ root - = [1, 2, 3, 4, 5];
@ v
< tydi-plan 1
< cycles 2
@ q
> tydi-trace 1
> cycles 2
> stream - lanes 3 dims 1 level 1 element 8 user 0 forward
> 1 1 d=030201 l=0 e=2 b=7
> 1 1 d=000504 l=4 e=1 b=7
= 0
# an empty sequence is sent
$ drive p n::s.p v q
~ namespace n { type t = Stream(data: Bits(8), throughput: 1, dimensionality: 2, complexity: 1); streamlet s = (p: in t); }
@ p
~ root - = [[]] [];
@ v
< tydi-plan 1
< cycles 2
@ q
> tydi-trace 1
> cycles 2
> stream - lanes 1 dims 2 level 1 element 8 user 0 forward
> 1 1 d=00 l=3 b=0
> 1 1 d=00 l=2 b=0
= 0
# two lanes do not divide three elements
$ drive p n::s.p v q
~ namespace n { type t = Stream(data: Bits(8), throughput: 2, dimensionality: 0, complexity: 4); streamlet s = (p: in t); }
@ p
~ root - = 1 2 3;
@ v
< tydi-plan 1
< cycles 2
@ q
! tydi: CountNotMultiple - 3 2
= 1
# and divide four
$ drive p n::s.p v q
~ namespace n { type t = Stream(data: Bits(8), throughput: 2, dimensionality: 0, complexity: 4); streamlet s = (p: in t); }
@ p
~ root - = 1 2 3 4;
@ v
< tydi-plan 1
< cycles 2
@ q
> tydi-trace 1
> cycles 2
> stream - lanes 2 dims 0 level 4 element 8 user 0 forward
> 1 1 d=0201
> 1 1 d=0403
= 0
# no transfer finds a ready sink
$ drive p n::s.p v q
~ namespace n { type t = Stream(data: Bits(8), throughput: 1, dimensionality: 1, complexity: 3); streamlet s = (p: in t); }
@ p
~ root - = [72, 105];
@ v
< tydi-plan 1
< cycles 2
< stream -
< ready 00
@ q
! tydi: NotFinished - 2
= 1
# a gap, and a sink that is not ready
$ drive p n::s.p v q
~ namespace n { type t = Stream(data: Bits(8), throughput: 1, dimensionality: 1, complexity: 3); streamlet s = (p: in t); }
@ p
~ root - = [72, 105];
@ v
< tydi-plan 1
< cycles 5
< stream -
< gaps 0 1
< ready 00111
@ q
> tydi-trace 1
> cycles 5
> stream - lanes 1 dims 1 level 3 element 8 user 0 forward
> 1 0 d=48 l=0 b=1
> 1 0 d=48 l=0 b=1
> 1 1 d=48 l=0 b=1
> 0 1 -
> 1 1 d=69 l=1 b=1
= 0
# one transfer is left
$ drive p n::s.p v q
~ namespace n { type t = Stream(data: Bits(8), throughput: 1, dimensionality: 1, complexity: 3); streamlet s = (p: in t); }
@ p
~ root - = [72, 105];
@ v
< tydi-plan 1
< cycles 5
< stream -
< gaps 0 1
< ready 00110
@ q
! tydi: NotFinished - 1
= 1
# gaps between transfers of a packet do not count at the first level
$ drive p n::s.p v q
~ namespace n { type t = Stream(data: Bits(8), throughput: 1, dimensionality: 1, complexity: 1); streamlet s = (p: in t); }
@ p
~ root - = [1, 2] [3];
@ v
< tydi-plan 1
< cycles 6
< stream -
< gaps 0 3 3
@ q
> tydi-trace 1
> cycles 6
> stream - lanes 1 dims 1 level 1 element 8 user 0 forward
> 1 1 d=01 l=0 b=1
> 1 1 d=02 l=1 b=1
> 0 1 -
> 0 1 -
> 0 1 -
> 1 1 d=03 l=1 b=1
= 0
# and do at the third
$ drive p n::s.p v q
~ namespace n { type t = Stream(data: Bits(8), throughput: 1, dimensionality: 1, complexity: 3); streamlet s = (p: in t); }
@ p
~ root - = [1, 2] [3];
@ v
< tydi-plan 1
< cycles 9
< stream -
< gaps 0 3 3
@ q
> tydi-trace 1
> cycles 9
> stream - lanes 1 dims 1 level 3 element 8 user 0 forward
> 1 1 d=01 l=0 b=1
> 0 1 -
> 0 1 -
> 0 1 -
> 1 1 d=02 l=1 b=1
> 0 1 -
> 0 1 -
> 0 1 -
> 1 1 d=03 l=1 b=1
= 0
# frames of pixels in two lanes
$ drive p video::top.a v q
< namespace video {
<   type rgb = Group(r: Bits(8), g: Bits(8), b: Bits(8));
<   type frames = Stream(data: rgb, throughput: 2.0,
<     dimensionality: 2, complexity: 4);
<   streamlet invert = (a: in frames, b: out frames);
<   streamlet top = (a: in frames, b: out frames);
<   impl wiring of top = { i = invert; a -- i.a; i.b -- b; };
<   test two of top drive a =
<     \"root - = [[{r: 1, g: 2, b: 3}, {r: 4, g: 5, b: 6},
<      {r: 7, g: 8, b: 9}]] [];\" plan \"tydi-plan 1
< cycles 3
< \";
< }
@ p
< root - = [[{r: 1, g: 2, b: 3}, {r: 4, g: 5, b: 6},
~      {r: 7, g: 8, b: 9}]] [];
@ v
< tydi-plan 1
< cycles 3
@ q
> tydi-trace 1
> cycles 3
> stream - lanes 2 dims 2 level 4 element 24 user 0 forward
> 1 1 d=060504030201 l=0 e=1 b=3
> 1 1 d=000000090807 l=c e=0 b=3
> 1 1 d=000000000000 l=8 e=1 b=0
= 0
# a port that is not there
$ drive p n::s.q v q
~ namespace n { type t = Stream(data: Bits(8), throughput: 1, dimensionality: 1, complexity: 1); streamlet s = (p: in t); }
@ p
~ root - = [];
@ v
< tydi-plan 1
< cycles 1
@ q
! tydi: NoPort n::s.q
= 1
# a number that does not fit
$ drive p n::s.p v q
~ namespace n { type t = Stream(data: Bits(8), throughput: 1, dimensionality: 0, complexity: 1); streamlet s = (p: in t); }
@ p
~ root - = 256;
@ v
< tydi-plan 1
< cycles 2
@ q
! tydi: OutOfRange v 1:10
= 1
# a list where a number is wanted
$ drive p n::s.p v q
~ namespace n { type t = Stream(data: Bits(8), throughput: 1, dimensionality: 0, complexity: 1); streamlet s = (p: in t); }
@ p
~ root - = [1];
@ v
< tydi-plan 1
< cycles 2
@ q
! tydi: WrongShape v 1:10
= 1
# no root at all
$ drive p n::s.p v q
~ namespace n { type t = Stream(data: Bits(8), throughput: 1, dimensionality: 0, complexity: 1); streamlet s = (p: in t); }
@ p
@ v
< tydi-plan 1
< cycles 2
@ q
! tydi: WrongShape v 1:1
= 1
# hexadecimal digits
$ drive p n::s.p v q
~ namespace n { type t = Stream(data: Bits(8), throughput: 1, dimensionality: 0, complexity: 1); streamlet s = (p: in t); }
@ p
~ root - = 0x0ff 7;
@ v
< tydi-plan 1
< cycles 2
@ q
> tydi-trace 1
> cycles 2
> stream - lanes 1 dims 0 level 1 element 8 user 0 forward
> 1 1 d=ff
> 1 1 d=07
= 0
# a list in a list has a stream of its own
$ drive p n::s.p v q
~ namespace n { type t = Stream(data: Group(a: Bits(8), b: Stream(data: Bits(8), dimensionality: 1, synchronicity: Flatten, complexity: 1)), dimensionality: 1, complexity: 1); streamlet s = (p: in t); }
@ p
~ root - = [{a: 1, b: [2,3]}, {a: 4, b: []}];
@ v
< tydi-plan 1
< cycles 3
@ q
> tydi-trace 1
> cycles 3
> stream - lanes 1 dims 1 level 1 element 8 user 0 forward
> stream b lanes 1 dims 1 level 1 element 8 user 0 forward
> 1 1 d=01 l=0 b=1
> 1 1 d=02 l=0 b=1
> 1 1 d=04 l=1 b=1
> 1 1 d=03 l=1 b=1
> 0 1 -
> 1 1 d=00 l=1 b=0
= 0
# a stream without bits has none to carry its lists
$ drive p n::s.p v q
~ namespace n { type t = Stream(data: Group(b: Stream(data: Bits(8), dimensionality: 1, synchronicity: Flatten, complexity: 1)), dimensionality: 1, complexity: 1); streamlet s = (p: in t); }
@ p
~ root - = [{b: [7]}];
@ v
< tydi-plan 1
< cycles 1
@ q
! tydi: NoCarrier -
= 1
# and is kept where that is asked
$ drive p n::s.p v q
~ namespace n { type t = Stream(data: Group(b: Stream(data: Bits(8), dimensionality: 1, synchronicity: Flatten, complexity: 1)), dimensionality: 1, complexity: 1, keep: true); streamlet s = (p: in t); }
@ p
~ root - = [{b: [7]}];
@ v
< tydi-plan 1
< cycles 1
@ q
> tydi-trace 1
> cycles 1
> stream - lanes 1 dims 1 level 1 element 0 user 0 forward
> stream b lanes 1 dims 1 level 1 element 8 user 0 forward
> 1 1 l=1 b=1
> 1 1 d=07 l=1 b=1
= 0
# a variant that has its stream
$ drive p n::s.p v q
~ namespace n { type t = Stream(data: Union(a: Bits(8), b: Stream(data: Bits(8), synchronicity: Flatten, complexity: 1)), complexity: 1); streamlet s = (p: in t); }
@ p
~ root - = a(5) b(6);
@ v
< tydi-plan 1
< cycles 2
@ q
> tydi-trace 1
> cycles 2
> stream - lanes 1 dims 0 level 1 element 9 user 0 forward
> stream b lanes 1 dims 0 level 1 element 8 user 0 forward
> 1 1 d=00a
> 1 1 d=06
> 1 1 d=001
> 0 1 -
= 0
# a gap before the first transfer of one stream
$ drive p n::s.p v pl
~ namespace n { type t = Stream(data: Group(a: Bits(8), b: Stream(data: Bits(8), dimensionality: 1, synchronicity: Flatten, complexity: 1)), dimensionality: 1, complexity: 1); streamlet s = (p: in t); }
@ p
~ root - = [{a: 1, b: [2,3]}, {a: 4, b: []}];
@ v
< tydi-plan 1
< cycles 5
< stream -
< gaps 2
@ pl
> tydi-trace 1
> cycles 5
> stream - lanes 1 dims 1 level 1 element 8 user 0 forward
> stream b lanes 1 dims 1 level 1 element 8 user 0 forward
> 0 1 -
> 1 1 d=02 l=0 b=1
> 0 1 -
> 1 1 d=03 l=1 b=1
> 1 1 d=01 l=0 b=1
> 1 1 d=00 l=1 b=0
> 1 1 d=04 l=1 b=1
> 0 1 -
> 0 1 -
> 0 1 -
= 0
# lanes that are chosen, and last bits on each lane
$ drive p n::s.p v q
~ namespace n { type t = Stream(data: Bits(4), throughput: 4, dimensionality: 1, complexity: 8); streamlet s = (p: in t); }
@ p
~ root - = [1, 2] [3];
@ v
< tydi-plan 1
< cycles 1
< stream -
< wishes f+laned
@ q
> tydi-trace 1
> cycles 1
> stream - lanes 4 dims 1 level 8 element 4 user 0 forward
> 1 1 d=0321 l=6 s=0 e=2 b=7
= 0
# lanes that are chosen at level 7
$ drive p n::s.p v q
~ namespace n { type t = Stream(data: Bits(4), throughput: 4, dimensionality: 1, complexity: 7); streamlet s = (p: in t); }
@ p
~ root - = [1, 2] [3];
@ v
< tydi-plan 1
< cycles 2
< stream -
< wishes a
@ q
> tydi-trace 1
> cycles 2
> stream - lanes 4 dims 1 level 7 element 4 user 0 forward
> 1 1 d=2010 l=8 s=1 e=3 b=a
> 1 1 d=0003 l=8 s=0 e=0 b=1
= 0
# at level 6 the strobe bits are equal
$ drive p n::s.p v q
~ namespace n { type t = Stream(data: Bits(4), throughput: 4, dimensionality: 1, complexity: 6); streamlet s = (p: in t); }
@ p
~ root - = [1, 2] [3];
@ v
< tydi-plan 1
< cycles 2
< stream -
< wishes a
@ q
> tydi-trace 1
> cycles 2
> stream - lanes 4 dims 1 level 6 element 4 user 0 forward
> 1 1 d=0210 l=8 s=1 e=2 b=f
> 1 1 d=0003 l=8 s=0 e=0 b=f
= 0
# at level 5 the start is lane 0
$ drive p n::s.p v q
~ namespace n { type t = Stream(data: Bits(4), throughput: 4, dimensionality: 1, complexity: 5); streamlet s = (p: in t); }
@ p
~ root - = [1, 2] [3];
@ v
< tydi-plan 1
< cycles 2
< stream -
< wishes a
@ q
> tydi-trace 1
> cycles 2
> stream - lanes 4 dims 1 level 5 element 4 user 0 forward
> 1 1 d=0021 l=8 e=1 b=f
> 1 1 d=0003 l=8 e=0 b=f
= 0
# a last bit after its element
$ drive p n::s.p v q
~ namespace n { type t = Stream(data: Bits(8), throughput: 1, dimensionality: 1, complexity: 4); streamlet s = (p: in t); }
@ p
~ root - = [1];
@ v
< tydi-plan 1
< cycles 2
< stream -
< wishes 1+late
@ q
> tydi-trace 1
> cycles 2
> stream - lanes 1 dims 1 level 4 element 8 user 0 forward
> 1 1 d=01 l=0 b=1
> 1 1 d=00 l=1 b=0
= 0
# at level 3 it comes with its element
$ drive p n::s.p v q
~ namespace n { type t = Stream(data: Bits(8), throughput: 1, dimensionality: 1, complexity: 3); streamlet s = (p: in t); }
@ p
~ root - = [1];
@ v
< tydi-plan 1
< cycles 1
< stream -
< wishes 1+late
@ q
> tydi-trace 1
> cycles 1
> stream - lanes 1 dims 1 level 3 element 8 user 0 forward
> 1 1 d=01 l=1 b=1
= 0
# a transfer without elements
$ drive p n::s.p v q
~ namespace n { type t = Stream(data: Bits(8), throughput: 1, dimensionality: 1, complexity: 4); streamlet s = (p: in t); }
@ p
~ root - = [1];
@ v
< tydi-plan 1
< cycles 2
< stream -
< wishes 0
@ q
> tydi-trace 1
> cycles 2
> stream - lanes 1 dims 1 level 4 element 8 user 0 forward
> 1 1 d=00 l=0 b=0
> 1 1 d=01 l=1 b=1
= 0
# user words
$ drive p n::s.p v q
~ namespace n { type t = Stream(data: Bits(8), complexity: 1, user: Bits(4)); streamlet s = (p: in t); }
@ p
~ root - = 1;
@ v
< tydi-plan 1
< cycles 1
< stream -
< users a
@ q
> tydi-trace 1
> cycles 1
> stream - lanes 1 dims 0 level 1 element 8 user 4 forward
> 1 1 d=01 u=a
= 0
# a level of two numbers
$ drive p n::s.p v q
~ namespace n { type t = Stream(data: Bits(8), throughput: 2, dimensionality: 0, complexity: 4.1); streamlet s = (p: in t); }
@ p
~ root - = 1 2 3 4;
@ v
< tydi-plan 1
< cycles 2
@ q
> tydi-trace 2
> cycles 2
> stream - lanes 2 dims 0 level 4.1 element 8 user 0 forward
> 1 1 d=0201
> 1 1 d=0403
= 0
";

/// The order of errors: the project, the port, the value, the plan, and then the transfers.
pub(crate) const UNDRIVEN: &str = "\
# no value file
$ drive p n::s.p v q
~ namespace n { type t = Stream(data: Bits(8), throughput: 1, dimensionality: 1, complexity: 1); streamlet s = (p: in t); }
@ p
< tydi-plan 1
< cycles 2
@ q
! tydi: NoFile v
= 1
# no plan file
$ drive p n::s.p v q
~ namespace n { type t = Stream(data: Bits(8), throughput: 1, dimensionality: 1, complexity: 1); streamlet s = (p: in t); }
@ p
~ root - = [1];
@ v
! tydi: NoFile q
= 1
# the port is looked up before the value file
$ drive p n::s.q v q
~ namespace n { type t = Stream(data: Bits(8), throughput: 1, dimensionality: 1, complexity: 1); streamlet s = (p: in t); }
@ p
! tydi: NoPort n::s.q
= 1
# a word that is no port
$ drive p n::s v q
~ namespace n { type t = Stream(data: Bits(8), throughput: 1, dimensionality: 1, complexity: 1); streamlet s = (p: in t); }
@ p
! tydi: NoPort n::s
= 1
# two streams of one path
$ drive p n::s.p v q
~ namespace n { type u = Stream(data: Bits(8)); type t = Stream(data: Group(a: Group(b: u), c: Bits(8))); type c = Stream(data: Stream(data: Bits(1)), keep: true); streamlet s = (p: in c); }
@ p
! tydi: NameClash -
= 1
# a stream that nothing carries is found before the value file
$ drive p n::s.p v q
~ namespace n { type t = Stream(data: Group(b: Stream(data: Bits(8), synchronicity: Flatten))); streamlet s = (p: in t); }
@ p
! tydi: NoCarrier -
= 1
# an error of the value is found before the plan file
$ drive p n::s.p v q
~ namespace n { type t = Stream(data: Bits(8), throughput: 1, dimensionality: 1, complexity: 1); streamlet s = (p: in t); }
@ p
~ root - = [1
@ v
! tydi: Syntax v 1:12
= 1
# a field that the type does not have
$ drive p n::s.p v q
~ namespace n { type t = Stream(data: Group(a: Bits(8))); streamlet s = (p: in t); }
@ p
~ root - = {b: 1};
@ v
< tydi-plan 1
< cycles 2
@ q
! tydi: UnknownField v 1:11
= 1
# an error of the plan
$ drive p n::s.p v q
~ namespace n { type t = Stream(data: Bits(8), throughput: 1, dimensionality: 1, complexity: 1); streamlet s = (p: in t); }
@ p
~ root - = [1];
@ v
< tydi-plan 2
@ q
! tydi: Syntax q 1:1
= 1
# a stream that the port does not have
$ drive p n::s.p v q
~ namespace n { type t = Stream(data: Bits(8), throughput: 1, dimensionality: 1, complexity: 1); streamlet s = (p: in t); }
@ p
~ root - = [1];
@ v
< tydi-plan 1
< cycles 2
< stream x
@ q
! tydi: UnknownStream q 3:1
= 1
# the first stream whose lanes do not divide its elements
$ drive p n::s.p v q
~ namespace n { type t = Stream(data: Group(a: Bits(8), b: Stream(data: Bits(8), throughput: 2, synchronicity: Flatten)), throughput: 2); streamlet s = (p: in t); }
@ p
~ root - = {a: 1, b: 1};
@ v
< tydi-plan 1
< cycles 2
@ q
! tydi: CountNotMultiple - 1 2
= 1
# lanes come before transfers that are left
$ drive p n::s.p v q
~ namespace n { type t = Stream(data: Group(a: Bits(8), b: Stream(data: Bits(8), throughput: 2, synchronicity: Flatten)), throughput: 2); streamlet s = (p: in t); }
@ p
~ root - = {a: 1, b: 1} {a: 2, b: 5};
@ v
< tydi-plan 1
< cycles 0
@ q
! tydi: CountNotMultiple b 2 4
= 1
# the first stream that is not finished
$ drive p n::s.p v q
~ namespace n { type t = Stream(data: Group(a: Bits(8), b: Stream(data: Bits(8), throughput: 2, synchronicity: Flatten)), throughput: 2); streamlet s = (p: in t); }
@ p
~ root - = {a: 1, b: 1} {a: 2, b: 5} {a: 3, b: 6} {a: 4, b: 7};
@ v
< tydi-plan 1
< cycles 0
@ q
! tydi: NotFinished - 2
= 1
# a port without a physical stream
$ drive p n::s.p v q
~ namespace n { type t = Stream(data: Null); streamlet s = (p: in t); }
@ p
~ root - = ;
@ v
< tydi-plan 1
< cycles 2
@ q
! tydi: NoCarrier -
= 1
";

/// Runs of two streams, of nothing, and of every signal.
pub(crate) const RUNS: &str = "\
# a gap and a sink that waits on one of two streams
$ drive p a::s.p v q
~ namespace a { streamlet s = (p: in Stream(data: Group(x: Bits(8), b: Stream(data: Bits(8), dimensionality: 1, synchronicity: FlatDesync, complexity: 3)), dimensionality: 1, complexity: 3)); }
@ p
< root - = [{x: 72, b: apart}, {x: 105, b: apart}];
< root b = [72, 105];
@ v
< tydi-plan 1
< cycles 5
< stream -
< gaps 0 1
< ready 00111
< stream b
< gaps 0 1
< ready 11111
@ q
> tydi-trace 1
> cycles 5
> stream - lanes 1 dims 1 level 3 element 8 user 0 forward
> stream b lanes 1 dims 1 level 3 element 8 user 0 forward
> 1 0 d=48 l=0 b=1
> 1 1 d=48 l=0 b=1
> 1 0 d=48 l=0 b=1
> 0 1 -
> 1 1 d=48 l=0 b=1
> 1 1 d=69 l=1 b=1
> 0 1 -
> 0 1 -
> 1 1 d=69 l=1 b=1
> 0 1 -
= 0
# a transfer that is left on each stream
$ drive p a::s.p v q
~ namespace a { streamlet s = (p: in Stream(data: Group(x: Bits(8), b: Stream(data: Bits(8), dimensionality: 1, synchronicity: FlatDesync, complexity: 3)), dimensionality: 1, complexity: 3)); }
@ p
< root - = [{x: 72, b: apart}, {x: 105, b: apart}];
< root b = [72, 105];
@ v
< tydi-plan 1
< cycles 5
< stream -
< gaps 0 1
< ready 00110
< stream b
< gaps 0 1
< ready 01000
@ q
! tydi: NotFinished - 1
= 1
# nothing is sent
$ drive p a::s.p v q
~ namespace a { streamlet s = (p: in Stream(data: Bits(8), complexity: 1)); }
@ p
< root - = ;
@ v
< tydi-plan 1
< cycles 1
< stream -
< gaps 5
@ q
> tydi-trace 1
> cycles 1
> stream - lanes 1 dims 0 level 1 element 8 user 0 forward
> 0 1 -
= 0
# a row with every signal
$ drive p a::s.p v q
~ namespace a { streamlet s = (p: in Stream(data: Bits(4), throughput: 2, dimensionality: 1, complexity: 8, user: Bits(3))); }
@ p
~ root - = [5, 10];
@ v
< tydi-plan 1
< cycles 1
< stream -
< users 5
@ q
> tydi-trace 1
> cycles 1
> stream - lanes 2 dims 1 level 8 element 4 user 3 forward
> 1 1 d=a5 l=2 s=0 e=1 b=3 u=5
= 0
";
