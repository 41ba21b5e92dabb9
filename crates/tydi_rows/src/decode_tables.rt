//! Rows of `decode`. The project stands in the file `p`, and the trace in `t`.

/// Traces that carry a value, and why some carry none.
pub(crate) const DECODED: &str = "\
# elements of three lanes, the last transfer with one lane idle
$ decode p n::s.p t
~ namespace n { type t = Stream(data: Bits(8), throughput: 3, dimensionality: 1, complexity: 1); streamlet s = (p: in t); }
@ p
< tydi-trace 1
< cycles 2
< stream - lanes 3 dims 1 level 1 element 8 user 0 forward
< 1 1 d=030201 l=0 e=2 b=7
< 1 1 d=000504 l=4 e=1 b=7
> root - = [1, 2, 3, 4, 5];
= 0
# empty sequences
$ decode p n::s.p t
~ namespace n { type t = Stream(data: Bits(8), throughput: 1, dimensionality: 2, complexity: 1); streamlet s = (p: in t); }
@ p
< tydi-trace 1
< cycles 2
< stream - lanes 1 dims 2 level 1 element 8 user 0 forward
< 1 1 d=00 l=3 b=0
< 1 1 d=00 l=2 b=0
> root - = [[]] [];
= 0
# a tag that names no variant
$ decode p n::s.p t
~ namespace n { type t = Stream(data: Union(a: Bits(8), b: Bits(4), c: Null), complexity: 1); streamlet s = (p: in t); }
@ p
< tydi-trace 1
< cycles 1
< stream - lanes 1 dims 0 level 1 element 10 user 0 forward
< 1 1 d=003
> offence cycle 0 stream - rule 11 Tag
= 6
# a Null beside ones that are ignored
$ decode p n::s.p t
~ namespace n { type t = Stream(data: Union(a: Bits(8), b: Bits(4), c: Null), complexity: 1); streamlet s = (p: in t); }
@ p
< tydi-trace 1
< cycles 1
< stream - lanes 1 dims 0 level 1 element 10 user 0 forward
< 1 1 d=3fe
> root - = c(null);
= 0
# a narrow variant beside bits that are ignored
$ decode p n::s.p t
~ namespace n { type t = Stream(data: Union(a: Bits(8), b: Bits(4), c: Null), complexity: 1); streamlet s = (p: in t); }
@ p
< tydi-trace 1
< cycles 1
< stream - lanes 1 dims 0 level 1 element 10 user 0 forward
< 1 1 d=3d5
> root - = b(5);
= 0
# pauses between sequences
$ decode p n::s.p t
~ namespace n { type t = Stream(data: Bits(8), throughput: 1, dimensionality: 1, complexity: 1); streamlet s = (p: in t); }
@ p
< tydi-trace 1
< cycles 6
< stream - lanes 1 dims 1 level 1 element 8 user 0 forward
< 1 1 d=01 l=0 b=1
< 1 1 d=02 l=1 b=1
< 0 1 -
< 0 1 -
< 0 1 -
< 1 1 d=03 l=1 b=1
> root - = [1, 2] [3];
= 0
# pauses inside sequences
$ decode p n::s.p t
~ namespace n { type t = Stream(data: Bits(8), throughput: 1, dimensionality: 1, complexity: 3); streamlet s = (p: in t); }
@ p
< tydi-trace 1
< cycles 9
< stream - lanes 1 dims 1 level 3 element 8 user 0 forward
< 1 1 d=01 l=0 b=1
< 0 1 -
< 0 1 -
< 0 1 -
< 1 1 d=02 l=1 b=1
< 0 1 -
< 0 1 -
< 0 1 -
< 1 1 d=03 l=1 b=1
> root - = [1, 2] [3];
= 0
# a sequence that is left open
$ decode p n::s.p t
~ namespace n { type t = Stream(data: Bits(8), throughput: 1, dimensionality: 1, complexity: 1); streamlet s = (p: in t); }
@ p
< tydi-trace 1
< cycles 1
< stream - lanes 1 dims 1 level 1 element 8 user 0 forward
< 1 1 d=48 l=0 b=1
> unfinished stream - open 0
= 6
# a transfer that is not taken
$ decode p n::s.p t
~ namespace n { type t = Stream(data: Bits(8), throughput: 1, dimensionality: 1, complexity: 1); streamlet s = (p: in t); }
@ p
< tydi-trace 1
< cycles 1
< stream - lanes 1 dims 1 level 1 element 8 user 0 forward
< 1 0 d=48 l=0 b=1
> unfinished stream - pending
= 6
# pixels of two lanes
$ decode p video::top.a t
< namespace video {
<   type rgb = Group(r: Bits(8), g: Bits(8), b: Bits(8));
<   type frames = Stream(data: rgb, throughput: 2.0,
<     dimensionality: 2, complexity: 4);
<   streamlet invert = (a: in frames, b: out frames);
<   streamlet top = (a: in frames, b: out frames);
<   impl wiring of top = { i = invert; a -- i.a; i.b -- b; };
<   test two of top drive a =
<     \"root - = [[{r: 1, g: 2, b: 3}, {r: 4, g: 5, b: 6},
<      {r: 7, g: 8, b: 9}]] [];\" plan \"tydi-plan 1
< cycles 3
< \";
< }
@ p
< tydi-trace 1
< cycles 3
< stream - lanes 2 dims 2 level 4 element 24 user 0 forward
< 1 1 d=060504030201 l=0 e=1 b=3
< 1 1 d=000000090807 l=c e=0 b=3
< 1 1 d=000000000000 l=8 e=1 b=0
> root - = [[{r: 1, g: 2, b: 3}, {r: 4, g: 5, b: 6}, {r: 7, g: 8, b: 9}]] [];
= 0
# elements without sequences
$ decode p n::s.p t
~ namespace n { type t = Stream(data: Bits(8), throughput: 1, dimensionality: 0, complexity: 1); streamlet s = (p: in t); }
@ p
< tydi-trace 1
< cycles 2
< stream - lanes 1 dims 0 level 1 element 8 user 0 forward
< 1 1 d=ff
< 1 1 d=07
> root - = 255 7;
= 0
# packets in packets
$ decode p n::s.p t
~ namespace n { type t = Stream(data: Group(a: Bits(8), b: Stream(data: Bits(8), dimensionality: 1, synchronicity: Flatten,
~  complexity: 1)), dimensionality: 1, complexity: 1); streamlet s = (p: in t); }
@ p
< tydi-trace 1
< cycles 3
< stream - lanes 1 dims 1 level 1 element 8 user 0 forward
< stream b lanes 1 dims 1 level 1 element 8 user 0 forward
< 1 1 d=01 l=0 b=1
< 1 1 d=02 l=0 b=1
< 1 1 d=04 l=1 b=1
< 1 1 d=03 l=1 b=1
< 0 1 -
< 1 1 d=00 l=1 b=0
> root - = [{a: 1, b: [2, 3]}, {a: 4, b: []}];
= 0
# a packet too few
$ decode p n::s.p t
~ namespace n { type t = Stream(data: Group(a: Bits(8), b: Stream(data: Bits(8), dimensionality: 1, synchronicity: Flatten,
~  complexity: 1)), dimensionality: 1, complexity: 1); streamlet s = (p: in t); }
@ p
< tydi-trace 1
< cycles 3
< stream - lanes 1 dims 1 level 1 element 8 user 0 forward
< stream b lanes 1 dims 1 level 1 element 8 user 0 forward
< 1 1 d=01 l=0 b=1
< 1 1 d=02 l=0 b=1
< 1 1 d=04 l=1 b=1
< 1 1 d=03 l=1 b=1
< 0 1 -
< 0 1 -
> disagree stream b packet 1
= 6
# a Union whose Stream has a packet
$ decode p n::s.p t
~ namespace n { type t = Stream(data: Union(a: Bits(8), b: Stream(data: Bits(8), synchronicity: Flatten, complexity: 1)),
~  complexity: 1); streamlet s = (p: in t); }
@ p
< tydi-trace 1
< cycles 2
< stream - lanes 1 dims 0 level 1 element 9 user 0 forward
< stream b lanes 1 dims 0 level 1 element 8 user 0 forward
< 1 1 d=00a
< 1 1 d=06
< 1 1 d=001
< 0 1 -
> root - = a(5) b(6);
= 0
# a Union whose Stream has none
$ decode p n::s.p t
~ namespace n { type t = Stream(data: Union(a: Bits(8), b: Stream(data: Bits(8), synchronicity: Flatten, complexity: 1)),
~  complexity: 1); streamlet s = (p: in t); }
@ p
< tydi-trace 1
< cycles 2
< stream - lanes 1 dims 0 level 1 element 9 user 0 forward
< stream b lanes 1 dims 0 level 1 element 8 user 0 forward
< 1 1 d=00a
< 0 1 -
< 1 1 d=001
< 0 1 -
> disagree stream b packet 0
= 6
# a last row that is cut behind its last digit
$ decode p n::s.p t
~ namespace n { type t = Stream(data: Group(a: Bits(8), b: Stream(data: Bits(8), dimensionality: 1, synchronicity: Flatten,
~  complexity: 1)), dimensionality: 1, complexity: 1); streamlet s = (p: in t); }
@ p
< tydi-trace 1
< cycles 3
< stream - lanes 1 dims 1 level 1 element 8 user 0 forward
< stream b lanes 1 dims 1 level 1 element 8 user 0 forward
< 1 1 d=01 l=0 b=1
< 1 1 d=02 l=0 b=1
< 1 1 d=04 l=1 b=1
< 1 1 d=03 l=1 b=1
< 0 1 -
~ 1 1 d=00 l=1 b=0
! tydi: BadRow t 10
= 1
# a last row that is cut inside a signal
$ decode p n::s.p t
~ namespace n { type t = Stream(data: Group(a: Bits(8), b: Stream(data: Bits(8), dimensionality: 1, synchronicity: Flatten,
~  complexity: 1)), dimensionality: 1, complexity: 1); streamlet s = (p: in t); }
@ p
< tydi-trace 1
< cycles 3
< stream - lanes 1 dims 1 level 1 element 8 user 0 forward
< stream b lanes 1 dims 1 level 1 element 8 user 0 forward
< 1 1 d=01 l=0 b=1
< 1 1 d=02 l=0 b=1
< 1 1 d=04 l=1 b=1
< 1 1 d=03 l=1 b=1
< 0 1 -
~ 1 1 d=00 l=1 b=
! tydi: BadRow t 10
= 1
# a last row that is cut behind its first bit
$ decode p n::s.p t
~ namespace n { type t = Stream(data: Group(a: Bits(8), b: Stream(data: Bits(8), dimensionality: 1, synchronicity: Flatten,
~  complexity: 1)), dimensionality: 1, complexity: 1); streamlet s = (p: in t); }
@ p
< tydi-trace 1
< cycles 3
< stream - lanes 1 dims 1 level 1 element 8 user 0 forward
< stream b lanes 1 dims 1 level 1 element 8 user 0 forward
< 1 1 d=01 l=0 b=1
< 1 1 d=02 l=0 b=1
< 1 1 d=04 l=1 b=1
< 1 1 d=03 l=1 b=1
< 0 1 -
~ 1
! tydi: BadRow t 10
= 1
# user words
$ decode p n::s.p t
~ namespace n { type t = Stream(data: Bits(8), complexity: 1, user: Bits(4)); streamlet s = (p: in t); }
@ p
< tydi-trace 1
< cycles 1
< stream - lanes 1 dims 0 level 1 element 8 user 4 forward
< 1 1 d=01 u=a
> root - = 1;
> // users - a
= 0
# words of eight bits
$ decode p n::s.p t
~ namespace n { type t = Stream(data: Bits(8), throughput: 1, dimensionality: 0, complexity: 1); streamlet s = (p: in t); }
@ p
< tydi-trace 1
< cycles 4
< stream - lanes 1 dims 0 level 1 element 8 user 0 forward
< 1 1 d=6e
< 1 1 d=9f
< 1 1 d=e4
< 1 1 d=cd
> root - = 110 159 228 205;
= 0
# the heads differ in the level alone
$ decode p n::s.p t
~ namespace n { type t = Stream(data: Bits(8), dimensionality: 1, complexity: 1); streamlet s = (p: in t); }
@ p
< tydi-trace 1
< cycles 1
< stream - lanes 1 dims 1 level 2 element 8 user 0 forward
< 0 1 -
! tydi: OtherHeader t 0
= 1
# one head too many
$ decode p n::s.p t
~ namespace n { type t = Stream(data: Bits(8), dimensionality: 1, complexity: 1); streamlet s = (p: in t); }
@ p
< tydi-trace 1
< cycles 0
< stream - lanes 1 dims 1 level 1 element 8 user 0 forward
< stream b lanes 1 dims 1 level 1 element 8 user 0 forward
! tydi: OtherHeader t 1
= 1
# no head at all
$ decode p n::s.p t
~ namespace n { type t = Stream(data: Bits(8), dimensionality: 1, complexity: 1); streamlet s = (p: in t); }
@ p
< tydi-trace 1
< cycles 0
! tydi: OtherHeader t 0
= 1
# other heads are reported before an offence
$ decode p n::s.p t
~ namespace n { type t = Stream(data: Bits(8), dimensionality: 1, complexity: 1); streamlet s = (p: in t); }
@ p
< tydi-trace 1
< cycles 2
< stream - lanes 1 dims 1 level 1 element 7 user 0 forward
< 1 0 d=00 l=0 b=1
< 0 1 -
! tydi: OtherHeader t 0
= 1
# an error of the text is reported before an offence
$ decode p n::s.p t
~ namespace n { type t = Stream(data: Bits(8), dimensionality: 1, complexity: 1); streamlet s = (p: in t); }
@ p
< tydi-trace 1
< cycles 2
< stream - lanes 1 dims 1 level 1 element 8 user 0 forward
< 1 0 d=00 l=0 b=1
< 0 1 
! tydi: BadRow t 5
= 1
# an error of the text is reported before other heads
$ decode p n::s.p t
~ namespace n { type t = Stream(data: Bits(8), dimensionality: 1, complexity: 1); streamlet s = (p: in t); }
@ p
< tydi-trace 1
< cycles 1
< stream - lanes 1 dims 1 level 2 element 8 user 0 forward
< 0 1
! tydi: BadRow t 4
= 1
# an offence is reported before a stream that does not end whole
$ decode p n::s.p t
~ namespace n { type t = Stream(data: Bits(8), dimensionality: 1, complexity: 1); streamlet s = (p: in t); }
@ p
< tydi-trace 1
< cycles 2
< stream - lanes 1 dims 1 level 1 element 8 user 0 forward
< 1 0 d=00 l=0 b=1
< 0 1 -
> offence cycle 1 stream - rule 1 Hold
= 6
# the port is decided before the trace is started
$ decode p n::s.p no
~ namespace n { type t = Stream(data: Bits(8), dimensionality: 1, complexity: 1); streamlet s = (q: in t); }
@ p
! tydi: NoPort n::s.p
= 1
# the project is decided before the trace is started
$ decode p n::s.p no
~ namespace n { type t = Stream(data: Bits(8), dimensionality: 1, complexity: 1); streamlet s = (p: in t); }}
@ p
! tydi: Unexpected p 1:107
= 1
# a node that is not carried is reported before the trace is started
$ decode p n::s.p no
~ namespace n { type t = Stream(data: Group(b: Stream(data: Bits(8), synchronicity: Flatten))); streamlet s = (p: in t); }
@ p
! tydi: NoCarrier -
= 1
# a trace that is not there
$ decode p n::s.p no
~ namespace n { type t = Stream(data: Bits(8), dimensionality: 1, complexity: 1); streamlet s = (p: in t); }
@ p
! tydi: NoFile no
= 1
# a project that is not there
$ decode no n::s.p t
< tydi-trace 1
< cycles 0
< stream - lanes 1 dims 1 level 1 element 8 user 0 forward
! tydi: NoFile no
= 1
# no cycles and no members
$ decode p n::s.p t
~ namespace n { type t = Stream(data: Bits(8), dimensionality: 1, complexity: 1); streamlet s = (p: in t); }
@ p
< tydi-trace 1
< cycles 0
< stream - lanes 1 dims 1 level 1 element 8 user 0 forward
> root - = ;
= 0
# a word too few
$ decode p n::s.p
< tydi-trace 1
< cycles 0
< stream - lanes 1 dims 1 level 1 element 8 user 0 forward
! tydi: Usage
= 2
# a word too many
$ decode p n::s.p t t
< tydi-trace 1
< cycles 0
< stream - lanes 1 dims 1 level 1 element 8 user 0 forward
! tydi: Usage
= 2
# a word that begins with a sign
$ decode p n::s.p -t
< tydi-trace 1
< cycles 0
< stream - lanes 1 dims 1 level 1 element 8 user 0 forward
! tydi: Usage
= 2
# a tag inside a variant that is not selected is not read
$ decode p n::s.p t
~ namespace n { type t = Stream(data: Union(a: Bits(8), b: Union(c: Bits(2), d: Null, e: Bits(1))), complexity: 1); streamlet s =
~  (p: in t); }
@ p
< tydi-trace 1
< cycles 1
< stream - lanes 1 dims 0 level 1 element 9 user 0 forward
< 1 1 d=006
> root - = a(3);
= 0
# a tag inside the variant that is selected
$ decode p n::s.p t
~ namespace n { type t = Stream(data: Union(a: Bits(8), b: Union(c: Bits(2), d: Null, e: Bits(1))), complexity: 1); streamlet s =
~  (p: in t); }
@ p
< tydi-trace 1
< cycles 1
< stream - lanes 1 dims 0 level 1 element 9 user 0 forward
< 1 1 d=007
> offence cycle 0 stream - rule 11 Tag
= 6
# a tag in a transfer that is offered and not yet taken
$ decode p n::s.p t
~ namespace n { type t = Stream(data: Union(a: Bits(8), b: Union(c: Bits(2), d: Null, e: Bits(1))), complexity: 1); streamlet s =
~  (p: in t); }
@ p
< tydi-trace 1
< cycles 2
< stream - lanes 1 dims 0 level 1 element 9 user 0 forward
< 1 0 d=007
< 1 1 d=007
> offence cycle 0 stream - rule 11 Tag
= 6
# user words of the transfers that are taken, and of no other
$ decode p n::s.p t
~ namespace n { type t = Stream(data: Bits(8), user: Bits(5), complexity: 4); streamlet s = (p: in t); }
@ p
< tydi-trace 1
< cycles 4
< stream - lanes 1 dims 0 level 4 element 8 user 5 forward
< 1 0 d=01 u=1f
< 1 1 d=01 u=1f
< 0 1 -
< 1 1 d=02 u=00
> root - = 1 2;
> // users - 1f 00
= 0
# two children that disagree: the first of them is reported
$ decode p n::s.p t
~ namespace n { type t = Stream(data: Group(a: Stream(data: Bits(2), dimensionality: 1, complexity: 1), b: Stream(data: Bits(2),
~  dimensionality: 1, complexity: 1)), dimensionality: 1, complexity: 1, user: Bits(1)); streamlet s = (p: in t); }
@ p
< tydi-trace 1
< cycles 1
< stream - lanes 1 dims 1 level 1 element 0 user 1 forward
< stream a lanes 1 dims 2 level 1 element 2 user 0 forward
< stream b lanes 1 dims 2 level 1 element 2 user 0 forward
< 1 1 l=1 b=1 u=0
< 0 1 -
< 0 1 -
> disagree stream a packet 0
= 6
# the first child agrees
$ decode p n::s.p t
~ namespace n { type t = Stream(data: Group(a: Stream(data: Bits(2), dimensionality: 1, complexity: 1), b: Stream(data: Bits(2),
~  dimensionality: 1, complexity: 1)), dimensionality: 1, complexity: 1, user: Bits(1)); streamlet s = (p: in t); }
@ p
< tydi-trace 1
< cycles 1
< stream - lanes 1 dims 1 level 1 element 0 user 1 forward
< stream a lanes 1 dims 2 level 1 element 2 user 0 forward
< stream b lanes 1 dims 2 level 1 element 2 user 0 forward
< 1 1 l=1 b=1 u=0
< 1 1 d=2 l=3 b=1
< 0 1 -
> disagree stream b packet 0
= 6
# both agree
$ decode p n::s.p t
~ namespace n { type t = Stream(data: Group(a: Stream(data: Bits(2), dimensionality: 1, complexity: 1), b: Stream(data: Bits(2),
~  dimensionality: 1, complexity: 1)), dimensionality: 1, complexity: 1, user: Bits(1)); streamlet s = (p: in t); }
@ p
< tydi-trace 1
< cycles 1
< stream - lanes 1 dims 1 level 1 element 0 user 1 forward
< stream a lanes 1 dims 2 level 1 element 2 user 0 forward
< stream b lanes 1 dims 2 level 1 element 2 user 0 forward
< 1 1 l=1 b=1 u=0
< 1 1 d=2 l=3 b=1
< 1 1 d=0 l=3 b=0
> root - = [{a: [2], b: []}];
> // users - 0
= 0
# packets are numbered among the members that select the child
$ decode p n::s.p t
~ namespace n { type t = Stream(data: Union(a: Bits(8), b: Stream(data: Bits(8), dimensionality: 1, complexity: 1)), complexity:
~  1); streamlet s = (p: in t); }
@ p
< tydi-trace 1
< cycles 3
< stream - lanes 1 dims 0 level 1 element 9 user 0 forward
< stream b lanes 1 dims 1 level 1 element 8 user 0 forward
< 1 1 d=000
< 1 1 d=05 l=1 b=1
< 1 1 d=001
< 0 1 -
< 1 1 d=001
< 0 1 -
> disagree stream b packet 1
= 6
";

/// Traces of ports of each kind: the value that each carries, or the first place that has none.
pub(crate) const VALUES_OF_TRACES: &str = "\
$ decode p a::s.p t
~ namespace a { streamlet s = (p: in Stream(data: Bits(8), dimensionality: 1, complexity: 1)); }
@ p
< tydi-trace 1
< cycles 2
< stream - lanes 1 dims 1 level 1 element 8 user 0 forward
< 1 1 d=48 l=0 b=1
< 1 1 d=69 l=1 b=1
> root - = [72, 105];
= 0
$ decode p a::s.p t
~ namespace a { streamlet s = (p: in Stream(data: Bits(8), dimensionality: 1, complexity: 1)); }
@ p
< tydi-trace 1
< cycles 0
< stream - lanes 1 dims 1 level 1 element 8 user 0 forward
> root - = ;
= 0
$ decode p a::s.p t
~ namespace a { streamlet s = (p: in Stream(data: Bits(8), dimensionality: 2, complexity: 1)); }
@ p
< tydi-trace 1
< cycles 2
< stream - lanes 1 dims 2 level 1 element 8 user 0 forward
< 1 1 d=00 l=3 b=0
< 1 1 d=00 l=2 b=0
> root - = [[]] [];
= 0
$ decode p a::s.p t
~ namespace a { streamlet s = (p: in Stream(data: Union(a: Bits(8), b: Bits(4), c: Null), complexity: 1)); }
@ p
< tydi-trace 1
< cycles 1
< stream - lanes 1 dims 0 level 1 element 10 user 0 forward
< 1 1 d=003
> offence cycle 0 stream - rule 11 Tag
= 6
$ decode p a::s.p t
~ namespace a { streamlet s = (p: in Stream(data: Union(a: Bits(8), b: Bits(4), c: Null), complexity: 1)); }
@ p
< tydi-trace 1
< cycles 2
< stream - lanes 1 dims 0 level 1 element 10 user 0 forward
< 1 1 d=3fe
< 1 1 d=3d5
> root - = c(null) b(5);
= 0
$ decode p a::s.p t
~ namespace a { streamlet s = (p: in Stream(data: Bits(8), dimensionality: 1, complexity: 1)); }
@ p
< tydi-trace 1
< cycles 1
< stream - lanes 1 dims 1 level 1 element 8 user 0 forward
< 1 1 d=48 l=0 b=1
> unfinished stream - open 0
= 6
$ decode p a::s.p t
~ namespace a { streamlet s = (p: in Stream(data: Bits(8), dimensionality: 1, complexity: 1)); }
@ p
< tydi-trace 1
< cycles 1
< stream - lanes 1 dims 1 level 1 element 8 user 0 forward
< 1 0 d=48 l=0 b=1
> unfinished stream - pending
= 6
$ decode p a::s.p t
~ namespace a { streamlet s = (p: in Stream(data: Group(a: Bits(8), b: Stream(data: Bits(8), dimensionality: 1, synchronicity: Flatten, complexity: 1)), dimensionality: 1, complexity: 1)); }
@ p
< tydi-trace 1
< cycles 3
< stream - lanes 1 dims 1 level 1 element 8 user 0 forward
< stream x.b lanes 1 dims 1 level 1 element 8 user 0 forward
< 1 1 d=01 l=0 b=1
< 1 1 d=02 l=0 b=1
< 1 1 d=04 l=1 b=1
< 1 1 d=03 l=1 b=1
< 0 1 -
< 1 1 d=00 l=1 b=0
! tydi: OtherHeader t 1
= 1
$ decode p a::s.p t
~ namespace a { streamlet s = (p: in Stream(data: Group(a: Bits(8), b: Stream(data: Bits(8), dimensionality: 1, synchronicity: Flatten, complexity: 1)), dimensionality: 1, complexity: 1)); }
@ p
< tydi-trace 1
< cycles 3
< stream - lanes 1 dims 1 level 1 element 8 user 0 forward
< stream b lanes 1 dims 1 level 1 element 8 user 0 forward
< 1 1 d=01 l=0 b=1
< 1 1 d=02 l=0 b=1
< 1 1 d=04 l=1 b=1
< 1 1 d=03 l=1 b=1
< 0 1 -
< 1 1 d=00 l=1 b=0
> root - = [{a: 1, b: [2, 3]}, {a: 4, b: []}];
= 0
$ decode p a::s.p t
~ namespace a { streamlet s = (p: in Stream(data: Group(a: Bits(8), b: Stream(data: Bits(8), dimensionality: 1, synchronicity: Flatten, complexity: 1)), dimensionality: 1, complexity: 1)); }
@ p
< tydi-trace 1
< cycles 3
< stream - lanes 1 dims 1 level 1 element 8 user 0 forward
< stream b lanes 1 dims 1 level 1 element 8 user 0 forward
< 1 1 d=01 l=0 b=1
< 1 1 d=02 l=0 b=1
< 1 1 d=04 l=1 b=1
< 1 1 d=03 l=1 b=1
< 0 1 -
< 0 1 -
> disagree stream b packet 1
= 6
$ decode p a::s.p t
~ namespace a { streamlet s = (p: in Stream(data: Group(a: Bits(8), b: Stream(data: Bits(8), dimensionality: 1, complexity: 1)), dimensionality: 1, complexity: 1)); }
@ p
< tydi-trace 1
< cycles 2
< stream - lanes 1 dims 1 level 1 element 8 user 0 forward
< stream b lanes 1 dims 2 level 1 element 8 user 0 forward
< 1 1 d=01 l=0 b=1
< 1 1 d=02 l=1 b=1
< 1 1 d=04 l=1 b=1
< 1 1 d=00 l=3 b=0
> root - = [{a: 1, b: [2]}, {a: 4, b: []}];
= 0
$ decode p a::s.p t
~ namespace a { streamlet s = (p: in Stream(data: Group(a: Bits(8), b: Stream(data: Bits(8), dimensionality: 1, complexity: 1)), dimensionality: 1, complexity: 1)); }
@ p
< tydi-trace 1
< cycles 2
< stream - lanes 1 dims 1 level 1 element 8 user 0 forward
< stream b lanes 1 dims 2 level 1 element 8 user 0 forward
< 1 1 d=01 l=1 b=1
< 1 1 d=02 l=1 b=1
< 0 1 -
< 1 1 d=00 l=3 b=0
> disagree stream b packet 0
= 6
$ decode p a::s.p t
~ namespace a { streamlet s = (p: in Stream(data: Group(a: Bits(8), b: Stream(data: Bits(8), dimensionality: 1, synchronicity: Desync, direction: Reverse, complexity: 1)), complexity: 1)); }
@ p
< tydi-trace 1
< cycles 2
< stream - lanes 1 dims 0 level 1 element 8 user 0 forward
< stream b lanes 1 dims 1 level 1 element 8 user 0 reverse
< 1 1 d=01
< 1 1 d=02 l=0 b=1
< 0 1 -
< 1 1 d=03 l=1 b=1
> root - = {a: 1, b: apart};
> root b = [2, 3];
= 0
$ decode p a::s.p t
~ namespace a { streamlet s = (p: in Stream(data: Union(a: Bits(8), b: Stream(data: Bits(8), synchronicity: Flatten, complexity: 1)), complexity: 1)); }
@ p
< tydi-trace 1
< cycles 2
< stream - lanes 1 dims 0 level 1 element 9 user 0 forward
< stream b lanes 1 dims 0 level 1 element 8 user 0 forward
< 1 1 d=00a
< 1 1 d=06
< 1 1 d=001
< 0 1 -
> root - = a(5) b(6);
= 0
$ decode p a::s.p t
~ namespace a { streamlet s = (p: in Stream(data: Union(a: Bits(8), b: Stream(data: Bits(8), synchronicity: Flatten, complexity: 1)), complexity: 1)); }
@ p
< tydi-trace 1
< cycles 2
< stream - lanes 1 dims 0 level 1 element 9 user 0 forward
< stream b lanes 1 dims 0 level 1 element 8 user 0 forward
< 1 1 d=00a
< 0 1 -
< 1 1 d=001
< 0 1 -
> disagree stream b packet 0
= 6
$ decode p a::s.p t
~ namespace a { streamlet s = (p: in Stream(data: Bits(8), complexity: 1, user: Bits(4))); }
@ p
< tydi-trace 1
< cycles 2
< stream - lanes 1 dims 0 level 1 element 8 user 4 forward
< 1 0 d=01 u=a
< 1 1 d=01 u=a
> root - = 1;
> // users - a
= 0
$ decode p a::s.p t
~ namespace a { streamlet s = (p: in Stream(data: Group(b: Stream(data: Bits(8), dimensionality: 1, synchronicity: Flatten, complexity: 1)), dimensionality: 1, complexity: 1, keep: true)); }
@ p
< tydi-trace 1
< cycles 1
< stream - lanes 1 dims 1 level 1 element 0 user 0 forward
< stream b lanes 1 dims 1 level 1 element 8 user 0 forward
< 1 1 l=1 b=1
< 1 1 d=07 l=1 b=1
> root - = [{b: [7]}];
= 0
";

/// Texts of traces: the value, the first error of the text, or the first place that has no value.
pub(crate) const VALUES_OF_TEXTS: &str = "\
$ decode p a::s.p t
~ namespace a { streamlet s = (p: in Stream(data: Bits(8), dimensionality: 1, complexity: 1)); }
@ p
< tydi-trace 1
< cycles 2
< stream - lanes 1 dims 1 level 1 element 8 user 0 forward
< 1 1 d=48 l=0 b=1
< 1 1 d=69 l=1 b=1
> root - = [72, 105];
= 0
$ decode p a::s.p t
~ namespace a { streamlet s = (p: in Stream(data: Bits(8), dimensionality: 1, complexity: 1)); }
@ p
< tydi-trace 1
< cycles 2
< stream - lanes 1 dims 1 level 1 element 8 user 0 forward
< 1 1 d=48 l=0 b=1
~ 1 1 d=69 l=1 b
! tydi: BadRow t 5
= 1
$ decode p a::s.p t
~ namespace a { streamlet s = (p: in Stream(data: Bits(8), dimensionality: 1, complexity: 1)); }
@ p
< tydi-trace 1
< cycles 2
< stream - lanes 1 dims 1 level 1 element 8 user 0 forward
< 1 1 d=48 l=0 b=1
! tydi: RowsMissing t 2 1
= 1
$ decode p a::s.p t
~ namespace a { streamlet s = (p: in Stream(data: Bits(8), dimensionality: 1, complexity: 1)); }
@ p
< tydi-trace 1
< cycles 1
< stream x lanes 1 dims 1 level 1 element 8 user 0 forward
< 1 1 d=48 l=0 b=1
~ 1
! tydi: RowsLeft t 5
= 1
$ decode p a::s.p t
~ namespace a { streamlet s = (p: in Stream(data: Bits(8), dimensionality: 1, complexity: 1)); }
@ p
< tydi-trace 1
< cycles 1
< stream x lanes 1 dims 1 level 1 element 8 user 0 forward
< 1 1 d=48 l=0 b=1
! tydi: OtherHeader t 0
= 1
$ decode p a::s.p t
~ namespace a { streamlet s = (p: in Stream(data: Bits(8), dimensionality: 1, complexity: 1)); }
@ p
< tydi-trace 1
< cycles 3
< stream - lanes 1 dims 1 level 1 element 8 user 0 forward
< 1 1 d=48 l=0 b=1
< 0 1 -
< 1 1 d=69 l=0 b=1
> offence cycle 1 stream - rule 8 InnerPause
= 6
$ decode p a::s.p t
~ namespace a { streamlet s = (p: in Stream(data: Union(a: Bits(8), b: Bits(4), c: Null), complexity: 1)); }
@ p
< tydi-trace 1
< cycles 2
< stream - lanes 1 dims 0 level 1 element 10 user 0 forward
< 1 0 d=003
< 1 1 d=3d5
> offence cycle 0 stream - rule 11 Tag
= 6
$ decode p a::s.p t
~ namespace a { streamlet s = (p: in Stream(data: Union(a: Bits(8), b: Bits(4), c: Null), complexity: 1)); }
@ p
< tydi-trace 1
< cycles 2
< stream - lanes 1 dims 0 level 1 element 10 user 0 forward
< 1 1 d=003
~ 1 1 d=3d
! tydi: BadRow t 5
= 1
$ decode p a::s.p t
~ namespace a { streamlet s = (p: in Stream(data: Bits(8), dimensionality: 1, complexity: 1)); }
@ p
! tydi: BadHeader t 1
= 1
";
