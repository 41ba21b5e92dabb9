//! Rows of `split`.

/// Ports, each with its physical streams, or why it has none.
pub(crate) const SPLITS: &str = "\
# a stream without bits is left out
$ split t n::s.p
~ namespace n { type t = Stream(data: Group(b: Stream(data: Bits(8), dimensionality: 1, synchronicity: Flatten, complexity: 1)), dimensionality: 1, complexity: 1); streamlet s = (p: in t); }
> stream b lanes 1 dims 1 level 1 element 8 user 0 forward
>   root -
>   valid 1
>   ready 1
>   data 8
>   last 1
>   strb 1
>   field - 0 8
= 0
# and kept where that is asked
$ split t n::s.p
~ namespace n { type t = Stream(data: Group(b: Stream(data: Bits(8), dimensionality: 1, synchronicity: Flatten, complexity: 1)), dimensionality: 1, complexity: 1, keep: true); streamlet s = (p: in t); }
> stream - lanes 1 dims 1 level 1 element 0 user 0 forward
>   root -
>   valid 1
>   ready 1
>   last 1
>   strb 1
> stream b lanes 1 dims 1 level 1 element 8 user 0 forward
>   root -
>   valid 1
>   ready 1
>   data 8
>   last 1
>   strb 1
>   field - 0 8
= 0
# lanes are the product, rounded up
$ split t n::s.p
~ namespace n { type t = Stream(data: Group(a: Bits(1), b: Stream(data: Bits(1), throughput: 3.0)), throughput: 1.5); streamlet s = (p: in t); }
> stream - lanes 2 dims 0 level 4 element 1 user 0 forward
>   root -
>   valid 1
>   ready 1
>   data 2
>   field a 0 1
> stream b lanes 5 dims 0 level 4 element 1 user 0 forward
>   root -
>   valid 1
>   ready 1
>   data 5
>   field - 0 1
= 0
# also below one
$ split t n::s.p
~ namespace n { type t = Stream(data: Group(a: Bits(1), b: Stream(data: Bits(1), throughput: 1.0)), throughput: 0.5); streamlet s = (p: in t); }
> stream - lanes 1 dims 0 level 4 element 1 user 0 forward
>   root -
>   valid 1
>   ready 1
>   data 1
>   field a 0 1
> stream b lanes 1 dims 0 level 4 element 1 user 0 forward
>   root -
>   valid 1
>   ready 1
>   data 1
>   field - 0 1
= 0
# the most lanes
$ split t n::s.p
~ namespace n { type t = Stream(data: Bits(1), throughput: 128); streamlet s = (p: in t); }
> stream - lanes 128 dims 0 level 4 element 1 user 0 forward
>   root -
>   valid 1
>   ready 1
>   data 128
>   field - 0 1
= 0
# and more
$ split t n::s.p
~ namespace n { type t = Stream(data: Bits(1), throughput: 128.5); streamlet s = (p: in t); }
! tydi: BadType t 1:20 TooManyLanes
= 1
# a user's project
$ split t video::top.a
< namespace video {
<   type rgb = Group(r: Bits(8), g: Bits(8), b: Bits(8));
<   type frames = Stream(data: rgb, throughput: 2.0,
<     dimensionality: 2, complexity: 4);
<   streamlet invert = (a: in frames, b: out frames);
<   streamlet top = (a: in frames, b: out frames);
<   impl wiring of top = { i = invert; a -- i.a; i.b -- b; };
<   test two of top drive a =
<     \"root - = [[{r: 1, g: 2, b: 3}, {r: 4, g: 5, b: 6},
<      {r: 7, g: 8, b: 9}]] [];\" plan \"tydi-plan 1
< cycles 3
< \";
< }
> stream - lanes 2 dims 2 level 4 element 24 user 0 forward
>   root -
>   valid 1
>   ready 1
>   data 48
>   last 4
>   endi 1
>   strb 2
>   field r 0 8
>   field g 8 8
>   field b 16 8
= 0
# a port that goes out
$ split t video::invert.b
< namespace video {
<   type rgb = Group(r: Bits(8), g: Bits(8), b: Bits(8));
<   type frames = Stream(data: rgb, throughput: 2.0,
<     dimensionality: 2, complexity: 4);
<   streamlet invert = (a: in frames, b: out frames);
<   streamlet top = (a: in frames, b: out frames);
<   impl wiring of top = { i = invert; a -- i.a; i.b -- b; };
<   test two of top drive a =
<     \"root - = [[{r: 1, g: 2, b: 3}, {r: 4, g: 5, b: 6},
<      {r: 7, g: 8, b: 9}]] [];\" plan \"tydi-plan 1
< cycles 3
< \";
< }
> stream - lanes 2 dims 2 level 4 element 24 user 0 forward
>   root -
>   valid 1
>   ready 1
>   data 48
>   last 4
>   endi 1
>   strb 2
>   field r 0 8
>   field g 8 8
>   field b 16 8
= 0
# a type that holds itself
$ split t n::s.p
~ namespace n { type t = Group(x: t); streamlet s = (p: in t); }
! tydi: CyclicType t 1:20
= 1
# a word that names no port
$ split t n::s.q
~ namespace n { type t = Stream(data: Bits(8), complexity: 1); streamlet s = (p: in t); }
! tydi: NoPort n::s.q
= 1
# a nested stream, reversed, with dimensions and lanes of both
$ split t n::s.p
~ namespace n { type t = Stream(data: Group(a: Bits(8), b: Stream(data: Bits(4), throughput: 1.5, dimensionality: 1, complexity: 2, direction: Reverse)), throughput: 3, dimensionality: 2, complexity: 7); streamlet s = (p: in t); }
> stream - lanes 3 dims 2 level 7 element 8 user 0 forward
>   root -
>   valid 1
>   ready 1
>   data 24
>   last 6
>   stai 2
>   endi 2
>   strb 3
>   field a 0 8
> stream b lanes 5 dims 3 level 2 element 4 user 0 reverse
>   root -
>   valid 1
>   ready 1
>   data 20
>   last 15
>   endi 3
>   strb 5
>   field - 0 4
= 0
# two streams of one path
$ split t n::s.p
~ namespace n { type t = Stream(data: Stream(data: Bits(8)), keep: true); streamlet s = (p: in t); }
! tydi: NameClash -
= 1
# a tower of types
$ split t n::s.p
< namespace n {
<   type a0 = Group(x: Null);
<   type a1 = Group(x: a0, y: a0);
<   type a2 = Group(x: a1, y: a1);
<   type a3 = Group(x: a2, y: a2);
<   type a4 = Group(x: a3, y: a3);
<   type a5 = Group(x: a4, y: a4);
<   type a6 = Group(x: a5, y: a5);
<   type a7 = Group(x: a6, y: a6);
<   type a8 = Group(x: a7, y: a7);
<   type a9 = Group(x: a8, y: a8);
<   type a10 = Group(x: a9, y: a9);
<   type a11 = Group(x: a10, y: a10);
<   type a12 = Group(x: a11, y: a11);
<   type a13 = Group(x: a12, y: a12);
<   type a14 = Group(x: a13, y: a13);
<   streamlet s = (p: in Stream(data: Null, keep: true));
< }
> stream - lanes 1 dims 0 level 4 element 0 user 0 forward
>   root -
>   valid 1
>   ready 1
= 0
# an unknown name comes before a fault of its port
$ split t n::s.p
~ namespace n { type t = u; streamlet s = (p: in t); }
! tydi: UnknownName t 1:24
= 1
# a port that is no Stream
$ split t n::s.p
~ namespace n { type t = Bits(8); streamlet s = (p: in t); }
! tydi: PortNotStream t 1:48
= 1
# a word that has not the form of a port
$ split t n::s
~ namespace n { streamlet s = (); }
! tydi: NoPort n::s
= 1
# nor this one
$ split t n::s.p.q
~ namespace n { streamlet s = (); }
! tydi: NoPort n::s.p.q
= 1
# a text that is no project
$ split t n::s.p
~ namespace n { type t }
! tydi: Unexpected t 1:22
= 1
# a start that fails
$ split t n::s.p
~ namespace n { type t = Stream(data: Bits(8), complexity: 1); streamlet s = (p: in t); }
- store 0
! tydi: ReadFault t
= 3
# a pull that fails, in pieces of 16 bytes
$ split t n::s.p
~ namespace n { type t = Stream(data: Bits(8), complexity: 1); streamlet s = (p: in t); }
- store 3
- most 16
! tydi: ReadFault t
= 3
# and one that is not made
$ split t n::s.p
~ namespace n { type t = Stream(data: Bits(8), complexity: 1); streamlet s = (p: in t); }
- store 9
- most 16
> stream - lanes 1 dims 0 level 1 element 8 user 0 forward
>   root -
>   valid 1
>   ready 1
>   data 8
>   field - 0 8
= 0
# a push that fails, in pieces of 4 bytes
$ split t n::s.p
~ namespace n { type t = Stream(data: Bits(8), complexity: 1); streamlet s = (p: in t); }
- out 15
- most 4
> stream - lanes 1 dims 0 level 1 element 8 user 0 forward
|   r
! tydi: WriteFault
= 4
# the first push that fails
$ split t n::s.p
~ namespace n { type t = Stream(data: Bits(8), complexity: 1); streamlet s = (p: in t); }
- out 0
! tydi: WriteFault
= 4
# a refusal pushes nothing to out
$ split t n::s.q
~ namespace n { type t = Stream(data: Bits(8), complexity: 1); streamlet s = (p: in t); }
- out 0
! tydi: NoPort n::s.q
= 1
# a word too few
$ split p
! tydi: Usage
= 2
# a word that begins with a dash
$ split t -
! tydi: Usage
= 2
# a nested stream, with all signals of both
$ split t n::s.p
~ namespace n { type t = Stream(data: Group(a: Bits(8), b: Stream(data: Bits(4), throughput: 1.5, dimensionality: 1, complexity: 7)), throughput: 3, dimensionality: 2, complexity: 7); streamlet s = (p: in t); }
> stream - lanes 3 dims 2 level 7 element 8 user 0 forward
>   root -
>   valid 1
>   ready 1
>   data 24
>   last 6
>   stai 2
>   endi 2
>   strb 3
>   field a 0 8
> stream b lanes 5 dims 3 level 7 element 4 user 0 forward
>   root -
>   valid 1
>   ready 1
>   data 20
>   last 15
>   stai 3
>   endi 3
>   strb 5
>   field - 0 4
= 0
";

/// Projects that trees stand for: their ports and bodies.
pub(crate) const RESOLVED: &str = "\
# port invert.a of a design
$ split p video::invert.a
< namespace video {
<   type rgb = Group(r: Bits(8), g: Bits(8), b: Bits(8));
<   type frames = Stream(data: rgb, throughput: 2.0,
<     dimensionality: 2, complexity: 4);
<   streamlet invert = (a: in frames, b: out frames);
<   streamlet top = (a: in frames, b: out frames);
<   impl wiring of top = { i = invert; a -- i.a; i.b -- b; };
<   test two of top drive a =
<     \"root - = [[{r: 1, g: 2, b: 3}, {r: 4, g: 5, b: 6},
<      {r: 7, g: 8, b: 9}]] [];\" plan \"tydi-plan 1
< cycles 3
< \";
~ }
@ p
> stream - lanes 2 dims 2 level 4 element 24 user 0 forward
>   root -
>   valid 1
>   ready 1
>   data 48
>   last 4
>   endi 1
>   strb 2
>   field r 0 8
>   field g 8 8
>   field b 16 8
= 0
# port invert.b of a design
$ split p video::invert.b
< namespace video {
<   type rgb = Group(r: Bits(8), g: Bits(8), b: Bits(8));
<   type frames = Stream(data: rgb, throughput: 2.0,
<     dimensionality: 2, complexity: 4);
<   streamlet invert = (a: in frames, b: out frames);
<   streamlet top = (a: in frames, b: out frames);
<   impl wiring of top = { i = invert; a -- i.a; i.b -- b; };
<   test two of top drive a =
<     \"root - = [[{r: 1, g: 2, b: 3}, {r: 4, g: 5, b: 6},
<      {r: 7, g: 8, b: 9}]] [];\" plan \"tydi-plan 1
< cycles 3
< \";
~ }
@ p
> stream - lanes 2 dims 2 level 4 element 24 user 0 forward
>   root -
>   valid 1
>   ready 1
>   data 48
>   last 4
>   endi 1
>   strb 2
>   field r 0 8
>   field g 8 8
>   field b 16 8
= 0
# port top.a of a design
$ split p video::top.a
< namespace video {
<   type rgb = Group(r: Bits(8), g: Bits(8), b: Bits(8));
<   type frames = Stream(data: rgb, throughput: 2.0,
<     dimensionality: 2, complexity: 4);
<   streamlet invert = (a: in frames, b: out frames);
<   streamlet top = (a: in frames, b: out frames);
<   impl wiring of top = { i = invert; a -- i.a; i.b -- b; };
<   test two of top drive a =
<     \"root - = [[{r: 1, g: 2, b: 3}, {r: 4, g: 5, b: 6},
<      {r: 7, g: 8, b: 9}]] [];\" plan \"tydi-plan 1
< cycles 3
< \";
~ }
@ p
> stream - lanes 2 dims 2 level 4 element 24 user 0 forward
>   root -
>   valid 1
>   ready 1
>   data 48
>   last 4
>   endi 1
>   strb 2
>   field r 0 8
>   field g 8 8
>   field b 16 8
= 0
# port top.b of a design
$ split p video::top.b
< namespace video {
<   type rgb = Group(r: Bits(8), g: Bits(8), b: Bits(8));
<   type frames = Stream(data: rgb, throughput: 2.0,
<     dimensionality: 2, complexity: 4);
<   streamlet invert = (a: in frames, b: out frames);
<   streamlet top = (a: in frames, b: out frames);
<   impl wiring of top = { i = invert; a -- i.a; i.b -- b; };
<   test two of top drive a =
<     \"root - = [[{r: 1, g: 2, b: 3}, {r: 4, g: 5, b: 6},
<      {r: 7, g: 8, b: 9}]] [];\" plan \"tydi-plan 1
< cycles 3
< \";
~ }
@ p
> stream - lanes 2 dims 2 level 4 element 24 user 0 forward
>   root -
>   valid 1
>   ready 1
>   data 48
>   last 4
>   endi 1
>   strb 2
>   field r 0 8
>   field g 8 8
>   field b 16 8
= 0
# the ports of an interface are written in its own namespace
$ split p a::s.p
~ namespace a { streamlet s = b::i; } namespace b { type t = Stream(data: Bits(1)); interface i = (p: out t); } namespace a { impl j of s = \"here\"; streamlet r = (); impl k of r = { x = s; }; }
@ p
> stream - lanes 1 dims 0 level 4 element 1 user 0 forward
>   root -
>   valid 1
>   ready 1
>   data 1
>   field - 0 1
= 0
# a namespace that is opened again is one: its instance has an end without a link
$ link p
~ namespace a { streamlet s = b::i; } namespace b { type t = Stream(data: Null); interface i = (p: out t); } namespace a { impl j of s = \"here\"; streamlet r = (); impl k of r = { x = s; }; }
@ p
! tydi: Unlinked p 1:172
= 1
# a type by a name of another name
$ split p a::s.p
~ namespace a { type t = u; type u = Stream(data: Bits(1), dimensionality: 3); streamlet s = (p: in t, q: in u, r: in Stream(data: u)); }
@ p
> stream - lanes 1 dims 3 level 4 element 1 user 0 forward
>   root -
>   valid 1
>   ready 1
>   data 1
>   last 3
>   strb 1
>   field - 0 1
= 0
# a type by its name
$ split p a::s.q
~ namespace a { type t = u; type u = Stream(data: Bits(1), dimensionality: 3); streamlet s = (p: in t, q: in u, r: in Stream(data: u)); }
@ p
> stream - lanes 1 dims 3 level 4 element 1 user 0 forward
>   root -
>   valid 1
>   ready 1
>   data 1
>   last 3
>   strb 1
>   field - 0 1
= 0
# a type by its name inside a Stream
$ split p a::s.r
~ namespace a { type t = u; type u = Stream(data: Bits(1), dimensionality: 3); streamlet s = (p: in t, q: in u, r: in Stream(data: u)); }
@ p
> stream - lanes 1 dims 3 level 4 element 1 user 0 forward
>   root -
>   valid 1
>   ready 1
>   data 1
>   last 3
>   strb 1
>   field - 0 1
= 0
# a project of nothing
$ link p
~ namespace a { }
@ p
= 0
";
