//! Rows of `carry`. The project stands in the file `p`, and the trace in `t`.

/// Traces that arrive at the other end of a chain of nets, and why some do not.
pub(crate) const CARRIED: &str = "\
# a source of level 3 that arrives at level 7, through one design
$ carry p n::top a m.i.a t
< namespace n {
<   type lo = Stream(data: Bits(8), throughput: 2, complexity: 3);
<   type hi = Stream(data: Bits(8), throughput: 2, complexity: 7);
<   streamlet leaf = (a: in hi, b: out lo);
<   streamlet mid = (a: in lo, b: out lo);
<   streamlet top = (a: in lo, b: out hi);
<   impl inner of mid = { i = leaf; a -- i.a; i.b -- b; };
<   impl outer of top = { m = mid; a -- m.a; m.b -- b; };
< }
@ p
< tydi-trace 1
< cycles 1
< stream - lanes 2 dims 0 level 3 element 8 user 0 forward
< 1 1 d=0201
> tydi-trace 1
> cycles 1
> stream - lanes 2 dims 0 level 7 element 8 user 0 forward
> 1 1 d=0201 s=0 e=1 b=3
= 0
# back up, from the component inside to an own port
$ carry p n::top m.i.b b t
< namespace n {
<   type lo = Stream(data: Bits(8), throughput: 2, complexity: 3);
<   type hi = Stream(data: Bits(8), throughput: 2, complexity: 7);
<   streamlet leaf = (a: in hi, b: out lo);
<   streamlet mid = (a: in lo, b: out lo);
<   streamlet top = (a: in lo, b: out hi);
<   impl inner of mid = { i = leaf; a -- i.a; i.b -- b; };
<   impl outer of top = { m = mid; a -- m.a; m.b -- b; };
< }
@ p
< tydi-trace 1
< cycles 1
< stream - lanes 2 dims 0 level 3 element 8 user 0 forward
< 1 1 d=0201
> tydi-trace 1
> cycles 1
> stream - lanes 2 dims 0 level 7 element 8 user 0 forward
> 1 1 d=0201 s=0 e=1 b=3
= 0
# the inner design as the top
$ carry p n::mid a i.a t
< namespace n {
<   type lo = Stream(data: Bits(8), throughput: 2, complexity: 3);
<   type hi = Stream(data: Bits(8), throughput: 2, complexity: 7);
<   streamlet leaf = (a: in hi, b: out lo);
<   streamlet mid = (a: in lo, b: out lo);
<   streamlet top = (a: in lo, b: out hi);
<   impl inner of mid = { i = leaf; a -- i.a; i.b -- b; };
<   impl outer of top = { m = mid; a -- m.a; m.b -- b; };
< }
@ p
< tydi-trace 1
< cycles 1
< stream - lanes 2 dims 0 level 3 element 8 user 0 forward
< 1 1 d=0201
> tydi-trace 1
> cycles 1
> stream - lanes 2 dims 0 level 7 element 8 user 0 forward
> 1 1 d=0201 s=0 e=1 b=3
= 0
# a stream that flows back has the sink's level where it comes from
$ carry p n::top s1.o d.p.i t
< namespace n {
<   type back6 = Stream(data: Bits(4), throughput: 0.5, synchronicity: FlatDesync, complexity: 6, direction: Reverse);
<   type back3 = Stream(data: Bits(4), throughput: 0.5, synchronicity: FlatDesync, complexity: 3, direction: Reverse);
<   type lo = Stream(data: Group(head: Bits(2), back: back6), throughput: 2, dimensionality: 1, complexity: 2, user: Bits(1));
<   type hi = Stream(data: Group(head: Bits(2), back: back3), throughput: 2, dimensionality: 1, complexity: 7, user: Bits(1));
<   streamlet s = (o: out lo);
<   streamlet k = (i: in hi);
<   streamlet pass = (i: in hi, o: out hi);
<   streamlet deep = (i: in hi, o: out hi);
<   streamlet top = ();
<   impl a of top = { s1 = s; d = deep; k1 = k; s1.o -- d.i; d.o -- k1.i; };
<   impl b of deep = { p = pass; i -- p.i; p.o -- o; };
< }
@ p
< tydi-trace 1
< cycles 3
< stream - lanes 2 dims 1 level 2 element 2 user 1 forward
< stream back lanes 1 dims 0 level 3 element 4 user 0 reverse
< 1 0 d=9 l=0 e=1 b=3 u=1
< 1 1 d=5
< 1 1 d=9 l=0 e=1 b=3 u=1
< 0 1 -
< 0 1 -
< 1 0 d=f
> tydi-trace 1
> cycles 3
> stream - lanes 2 dims 1 level 7 element 2 user 1 forward
> stream back lanes 1 dims 0 level 6 element 4 user 0 reverse
> 1 0 d=9 l=0 s=0 e=1 b=3 u=1
> 1 1 d=5
> 1 1 d=9 l=0 s=0 e=1 b=3 u=1
> 0 1 -
> 0 1 -
> 1 0 d=f
= 0
# a trace is carried whether it is legal or not, and cycles that are not taken too
$ carry p n::s a b t
< namespace n {
<   type lo = Stream(data: Bits(8), complexity: 4);
<   type hi = Stream(data: Bits(8), complexity: 7.0.1);
<   streamlet s = (a: in lo, b: out hi);
<   impl w of s = { a -- b; };
< }
@ p
< tydi-trace 1
< cycles 3
< stream - lanes 1 dims 0 level 4 element 8 user 0 forward
< 1 0 d=41
< 1 1 d=42
< 0 0 -
> tydi-trace 2
> cycles 3
> stream - lanes 1 dims 0 level 7.0.1 element 8 user 0 forward
> 1 0 d=41 b=1
> 1 1 d=42 b=1
> 0 0 -
= 0
# no cycle
$ carry p n::s a b t
< namespace n {
<   type lo = Stream(data: Bits(8), complexity: 4);
<   type hi = Stream(data: Bits(8), complexity: 7.0.1);
<   streamlet s = (a: in lo, b: out hi);
<   impl w of s = { a -- b; };
< }
@ p
< tydi-trace 1
< cycles 0
< stream - lanes 1 dims 0 level 4 element 8 user 0 forward
> tydi-trace 2
> cycles 0
> stream - lanes 1 dims 0 level 7.0.1 element 8 user 0 forward
= 0
# a stream without signals at the source
$ carry p n::s a b t
< namespace n {
<   type lo = Stream(data: Null, keep: true, complexity: 1);
<   type hi = Stream(data: Null, keep: true, complexity: 8);
<   streamlet s = (a: in lo, b: out hi);
<   impl w of s = { a -- b; };
< }
@ p
< tydi-trace 1
< cycles 2
< stream - lanes 1 dims 0 level 1 element 0 user 0 forward
< 1 1 -
< 0 1 -
> tydi-trace 1
> cycles 2
> stream - lanes 1 dims 0 level 8 element 0 user 0 forward
> 1 1 b=1
> 0 1 -
= 0
# no such streamlet
$ carry p n::none a b t
< namespace n {
<   type lo = Stream(data: Bits(8), throughput: 2, complexity: 3);
<   type hi = Stream(data: Bits(8), throughput: 2, complexity: 7);
<   streamlet leaf = (a: in hi, b: out lo);
<   streamlet mid = (a: in lo, b: out lo);
<   streamlet top = (a: in lo, b: out hi);
<   impl inner of mid = { i = leaf; a -- i.a; i.b -- b; };
<   impl outer of top = { m = mid; a -- m.a; m.b -- b; };
< }
@ p
! tydi: NoStreamlet n::none
= 1
# a word that is no path of a streamlet
$ carry p n.top a b t
< namespace n {
<   type lo = Stream(data: Bits(8), throughput: 2, complexity: 3);
<   type hi = Stream(data: Bits(8), throughput: 2, complexity: 7);
<   streamlet leaf = (a: in hi, b: out lo);
<   streamlet mid = (a: in lo, b: out lo);
<   streamlet top = (a: in lo, b: out hi);
<   impl inner of mid = { i = leaf; a -- i.a; i.b -- b; };
<   impl outer of top = { m = mid; a -- m.a; m.b -- b; };
< }
@ p
! tydi: NoStreamlet n.top
= 1
# the streamlet is no design
$ carry p n::leaf a b t
< namespace n {
<   type lo = Stream(data: Bits(8), throughput: 2, complexity: 3);
<   type hi = Stream(data: Bits(8), throughput: 2, complexity: 7);
<   streamlet leaf = (a: in hi, b: out lo);
<   streamlet mid = (a: in lo, b: out lo);
<   streamlet top = (a: in lo, b: out hi);
<   impl inner of mid = { i = leaf; a -- i.a; i.b -- b; };
<   impl outer of top = { m = mid; a -- m.a; m.b -- b; };
< }
@ p
! tydi: NoPath a b
= 1
# a chain that ends elsewhere
$ carry p n::top a b t
< namespace n {
<   type lo = Stream(data: Bits(8), throughput: 2, complexity: 3);
<   type hi = Stream(data: Bits(8), throughput: 2, complexity: 7);
<   streamlet leaf = (a: in hi, b: out lo);
<   streamlet mid = (a: in lo, b: out lo);
<   streamlet top = (a: in lo, b: out hi);
<   impl inner of mid = { i = leaf; a -- i.a; i.b -- b; };
<   impl outer of top = { m = mid; a -- m.a; m.b -- b; };
< }
@ p
! tydi: NoPath a b
= 1
# a port of a design inside is no leaf
$ carry p n::top a m.a t
< namespace n {
<   type lo = Stream(data: Bits(8), throughput: 2, complexity: 3);
<   type hi = Stream(data: Bits(8), throughput: 2, complexity: 7);
<   streamlet leaf = (a: in hi, b: out lo);
<   streamlet mid = (a: in lo, b: out lo);
<   streamlet top = (a: in lo, b: out hi);
<   impl inner of mid = { i = leaf; a -- i.a; i.b -- b; };
<   impl outer of top = { m = mid; a -- m.a; m.b -- b; };
< }
@ p
! tydi: NoPath a m.a
= 1
# from a sink
$ carry p n::top b a t
< namespace n {
<   type lo = Stream(data: Bits(8), throughput: 2, complexity: 3);
<   type hi = Stream(data: Bits(8), throughput: 2, complexity: 7);
<   streamlet leaf = (a: in hi, b: out lo);
<   streamlet mid = (a: in lo, b: out lo);
<   streamlet top = (a: in lo, b: out hi);
<   impl inner of mid = { i = leaf; a -- i.a; i.b -- b; };
<   impl outer of top = { m = mid; a -- m.a; m.b -- b; };
< }
@ p
! tydi: NoPath b a
= 1
# words that are no leaf path
$ carry p n::top a..b m.i.a t
< namespace n {
<   type lo = Stream(data: Bits(8), throughput: 2, complexity: 3);
<   type hi = Stream(data: Bits(8), throughput: 2, complexity: 7);
<   streamlet leaf = (a: in hi, b: out lo);
<   streamlet mid = (a: in lo, b: out lo);
<   streamlet top = (a: in lo, b: out hi);
<   impl inner of mid = { i = leaf; a -- i.a; i.b -- b; };
<   impl outer of top = { m = mid; a -- m.a; m.b -- b; };
< }
@ p
! tydi: NoPath a..b m.i.a
= 1
# no such instance
$ carry p n::top x.a m.i.a t
< namespace n {
<   type lo = Stream(data: Bits(8), throughput: 2, complexity: 3);
<   type hi = Stream(data: Bits(8), throughput: 2, complexity: 7);
<   streamlet leaf = (a: in hi, b: out lo);
<   streamlet mid = (a: in lo, b: out lo);
<   streamlet top = (a: in lo, b: out hi);
<   impl inner of mid = { i = leaf; a -- i.a; i.b -- b; };
<   impl outer of top = { m = mid; a -- m.a; m.b -- b; };
< }
@ p
! tydi: NoPath x.a m.i.a
= 1
# two streams of the source clash, which comes before the links
$ carry p n::s a b t
< namespace n {
<   type c = Stream(data: Stream(data: Bits(8)), keep: true);
<   streamlet s = (a: in c, b: out c);
<   impl w of s = { a -- b; a -- b; };
< }
@ p
! tydi: NameClash -
= 1
# a sink whose streams clash is no source, so the links come first
$ carry p n::s b a t
< namespace n {
<   type c = Stream(data: Stream(data: Bits(8)), keep: true);
<   streamlet s = (a: in c, b: out c);
<   impl w of s = { a -- b; a -- b; };
< }
@ p
! tydi: LinkedTwice p 4:27
= 1
# a link error comes before the path
$ carry p n::s a a t
< namespace n {
<   type lo = Stream(data: Bits(8), complexity: 4);
<   type hi = Stream(data: Bits(8), complexity: 3);
<   streamlet s = (a: in lo, b: out hi);
<   impl w of s = { a -- b; };
< }
@ p
! tydi: NotCompatible p 5:19 - Level
= 1
# a project that is refused comes before the top
$ carry p none a b t
< namespace n { streamlet s = (a: in Bits(8)); }
@ p
! tydi: PortNotStream p 1:30
= 1
# no trace
$ carry p n::top a m.i.a u
< namespace n {
<   type lo = Stream(data: Bits(8), throughput: 2, complexity: 3);
<   type hi = Stream(data: Bits(8), throughput: 2, complexity: 7);
<   streamlet leaf = (a: in hi, b: out lo);
<   streamlet mid = (a: in lo, b: out lo);
<   streamlet top = (a: in lo, b: out hi);
<   impl inner of mid = { i = leaf; a -- i.a; i.b -- b; };
<   impl outer of top = { m = mid; a -- m.a; m.b -- b; };
< }
@ p
! tydi: NoFile u
= 1
# the text of the trace comes before its heads
$ carry p n::top a m.i.a t
< namespace n {
<   type lo = Stream(data: Bits(8), throughput: 2, complexity: 3);
<   type hi = Stream(data: Bits(8), throughput: 2, complexity: 7);
<   streamlet leaf = (a: in hi, b: out lo);
<   streamlet mid = (a: in lo, b: out lo);
<   streamlet top = (a: in lo, b: out hi);
<   impl inner of mid = { i = leaf; a -- i.a; i.b -- b; };
<   impl outer of top = { m = mid; a -- m.a; m.b -- b; };
< }
@ p
< tydi-trace 1
< cycles 2
< stream - lanes 2 dims 0 level 7 element 8 user 0 forward
< 1 1 d=0201
! tydi: WrongSignals t 4
= 1
# a row without its signals
$ carry p n::top a m.i.a t
< namespace n {
<   type lo = Stream(data: Bits(8), throughput: 2, complexity: 3);
<   type hi = Stream(data: Bits(8), throughput: 2, complexity: 7);
<   streamlet leaf = (a: in hi, b: out lo);
<   streamlet mid = (a: in lo, b: out lo);
<   streamlet top = (a: in lo, b: out hi);
<   impl inner of mid = { i = leaf; a -- i.a; i.b -- b; };
<   impl outer of top = { m = mid; a -- m.a; m.b -- b; };
< }
@ p
< tydi-trace 1
< cycles 2
< stream - lanes 2 dims 0 level 3 element 8 user 0 forward
< 1 1 d=0201
< 1 1 d=0201 s=0
! tydi: WrongSignals t 5
= 1
# another level
$ carry p n::top a m.i.a t
< namespace n {
<   type lo = Stream(data: Bits(8), throughput: 2, complexity: 3);
<   type hi = Stream(data: Bits(8), throughput: 2, complexity: 7);
<   streamlet leaf = (a: in hi, b: out lo);
<   streamlet mid = (a: in lo, b: out lo);
<   streamlet top = (a: in lo, b: out hi);
<   impl inner of mid = { i = leaf; a -- i.a; i.b -- b; };
<   impl outer of top = { m = mid; a -- m.a; m.b -- b; };
< }
@ p
< tydi-trace 1
< cycles 1
< stream - lanes 2 dims 0 level 4 element 8 user 0 forward
< 1 1 d=0201
! tydi: OtherHeader t 0
= 1
# one head too many
$ carry p n::top a m.i.a t
< namespace n {
<   type lo = Stream(data: Bits(8), throughput: 2, complexity: 3);
<   type hi = Stream(data: Bits(8), throughput: 2, complexity: 7);
<   streamlet leaf = (a: in hi, b: out lo);
<   streamlet mid = (a: in lo, b: out lo);
<   streamlet top = (a: in lo, b: out hi);
<   impl inner of mid = { i = leaf; a -- i.a; i.b -- b; };
<   impl outer of top = { m = mid; a -- m.a; m.b -- b; };
< }
@ p
< tydi-trace 1
< cycles 0
< stream - lanes 2 dims 0 level 3 element 8 user 0 forward
< stream x lanes 2 dims 0 level 3 element 8 user 0 forward
! tydi: OtherHeader t 1
= 1
# one head too few
$ carry p n::top s1.o d.p.i t
< namespace n {
<   type back6 = Stream(data: Bits(4), throughput: 0.5, synchronicity: FlatDesync, complexity: 6, direction: Reverse);
<   type back3 = Stream(data: Bits(4), throughput: 0.5, synchronicity: FlatDesync, complexity: 3, direction: Reverse);
<   type lo = Stream(data: Group(head: Bits(2), back: back6), throughput: 2, dimensionality: 1, complexity: 2, user: Bits(1));
<   type hi = Stream(data: Group(head: Bits(2), back: back3), throughput: 2, dimensionality: 1, complexity: 7, user: Bits(1));
<   streamlet s = (o: out lo);
<   streamlet k = (i: in hi);
<   streamlet pass = (i: in hi, o: out hi);
<   streamlet deep = (i: in hi, o: out hi);
<   streamlet top = ();
<   impl a of top = { s1 = s; d = deep; k1 = k; s1.o -- d.i; d.o -- k1.i; };
<   impl b of deep = { p = pass; i -- p.i; p.o -- o; };
< }
@ p
< tydi-trace 1
< cycles 0
< stream - lanes 2 dims 1 level 2 element 2 user 1 forward
! tydi: OtherHeader t 1
= 1
# the source's level of a stream that flows back
$ carry p n::top s1.o d.p.i t
< namespace n {
<   type back6 = Stream(data: Bits(4), throughput: 0.5, synchronicity: FlatDesync, complexity: 6, direction: Reverse);
<   type back3 = Stream(data: Bits(4), throughput: 0.5, synchronicity: FlatDesync, complexity: 3, direction: Reverse);
<   type lo = Stream(data: Group(head: Bits(2), back: back6), throughput: 2, dimensionality: 1, complexity: 2, user: Bits(1));
<   type hi = Stream(data: Group(head: Bits(2), back: back3), throughput: 2, dimensionality: 1, complexity: 7, user: Bits(1));
<   streamlet s = (o: out lo);
<   streamlet k = (i: in hi);
<   streamlet pass = (i: in hi, o: out hi);
<   streamlet deep = (i: in hi, o: out hi);
<   streamlet top = ();
<   impl a of top = { s1 = s; d = deep; k1 = k; s1.o -- d.i; d.o -- k1.i; };
<   impl b of deep = { p = pass; i -- p.i; p.o -- o; };
< }
@ p
< tydi-trace 1
< cycles 3
< stream - lanes 2 dims 1 level 2 element 2 user 1 forward
< stream back lanes 1 dims 0 level 6 element 4 user 0 reverse
< 1 0 d=9 l=0 e=1 b=3 u=1
< 1 1 d=5
< 1 1 d=9 l=0 e=1 b=3 u=1
< 0 1 -
< 0 1 -
< 1 0 d=f
! tydi: OtherHeader t 1
= 1
# one word too few
$ carry p n::top a m.i.a
< namespace n {
<   type lo = Stream(data: Bits(8), throughput: 2, complexity: 3);
<   type hi = Stream(data: Bits(8), throughput: 2, complexity: 7);
<   streamlet leaf = (a: in hi, b: out lo);
<   streamlet mid = (a: in lo, b: out lo);
<   streamlet top = (a: in lo, b: out hi);
<   impl inner of mid = { i = leaf; a -- i.a; i.b -- b; };
<   impl outer of top = { m = mid; a -- m.a; m.b -- b; };
< }
@ p
! tydi: Usage
= 2
# a word that begins with a hyphen
$ carry p n::top -a m.i.a t
< namespace n {
<   type lo = Stream(data: Bits(8), throughput: 2, complexity: 3);
<   type hi = Stream(data: Bits(8), throughput: 2, complexity: 7);
<   streamlet leaf = (a: in hi, b: out lo);
<   streamlet mid = (a: in lo, b: out lo);
<   streamlet top = (a: in lo, b: out hi);
<   impl inner of mid = { i = leaf; a -- i.a; i.b -- b; };
<   impl outer of top = { m = mid; a -- m.a; m.b -- b; };
< }
@ p
! tydi: Usage
= 2
";
