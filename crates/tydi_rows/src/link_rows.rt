//! Rows of `link`. The project stands in the file `p`.

/// Designs with their nets, and why some have none.
pub(crate) const LINKED: &str = "\
# a source at a higher level than its sink
$ link p
< namespace n {
<   type src = Stream(data: Bits(8), complexity: 5);
<   type snk = Stream(data: Bits(8), complexity: 3);
<   streamlet s = (a: in src, b: out snk);
<   impl w of s = { a -- b; };
< }
@ p
! tydi: NotCompatible p 5:19 - Level
= 1
# as a Reverse stream the levels are the other way
$ link p
< namespace n {
<   type src = Stream(data: Bits(8), complexity: 5, direction: Reverse);
<   type snk = Stream(data: Bits(8), complexity: 3, direction: Reverse);
<   streamlet s = (a: in src, b: out snk);
<   impl w of s = { a -- b; };
< }
@ p
> impl n::s
> net a b
= 0
# a design of a user
$ link p
< namespace video {
<   type rgb = Group(r: Bits(8), g: Bits(8), b: Bits(8));
<   type frames = Stream(data: rgb, throughput: 2.0,
<     dimensionality: 2, complexity: 4);
<   streamlet invert = (a: in frames, b: out frames);
<   streamlet top = (a: in frames, b: out frames);
<   impl wiring of top = { i = invert; a -- i.a; i.b -- b; };
<   test two of top drive a =
<     \"root - = [[{r: 1, g: 2, b: 3}, {r: 4, g: 5, b: 6},
<      {r: 7, g: 8, b: 9}]] [];\" plan \"tydi-plan 1
< cycles 3
< \";
< }
@ p
> impl video::top
> net a i.a
> net i.b b
= 0
# an own port without a link
$ link p
< namespace video {
<   type rgb = Group(r: Bits(8), g: Bits(8), b: Bits(8));
<   type frames = Stream(data: rgb, throughput: 2.0,
<     dimensionality: 2, complexity: 4);
<   streamlet invert = (a: in frames, b: out frames);
<   streamlet top = (a: in frames, b: out frames);
<   impl wiring of top = { i = invert; a -- i.a; };
<   test two of top drive a =
<     \"root - = [[{r: 1, g: 2, b: 3}, {r: 4, g: 5, b: 6},
<      {r: 7, g: 8, b: 9}]] [];\" plan \"tydi-plan 1
< cycles 3
< \";
< }
@ p
! tydi: Unlinked p 7:18
= 1
# levels of two numbers that are alike
$ link p
< namespace n {
<   type src = Stream(data: Bits(8), complexity: 4.9);
<   type snk = Stream(data: Bits(8), complexity: 4.10);
<   streamlet s = (a: in src, b: out snk);
<   impl w of s = { a -- b; };
< }
@ p
> impl n::s
> net a b
= 0
# a source at a higher second number
$ link p
< namespace n {
<   type src = Stream(data: Bits(8), complexity: 4.10);
<   type snk = Stream(data: Bits(8), complexity: 4.9);
<   streamlet s = (a: in src, b: out snk);
<   impl w of s = { a -- b; };
< }
@ p
! tydi: NotCompatible p 5:19 - Level
= 1
# a lower second number
$ link p
< namespace n {
<   type src = Stream(data: Bits(8), complexity: 4);
<   type snk = Stream(data: Bits(8), complexity: 4.0);
<   streamlet s = (a: in src, b: out snk);
<   impl w of s = { a -- b; };
< }
@ p
> impl n::s
> net a b
= 0
# the levels of the same major number
$ link p
< namespace n {
<   type src = Stream(data: Bits(8), complexity: 4.0);
<   type snk = Stream(data: Bits(8), complexity: 4);
<   streamlet s = (a: in src, b: out snk);
<   impl w of s = { a -- b; };
< }
@ p
> impl n::s
> net a b
= 0
# a project without implementations has no nets
$ link p
~ namespace n { type y = Stream(data: Bits(1)); streamlet s = (p: in y, q: out y); streamlet t = (p: in y, q: out y); }
@ p
= 0
# a linked implementation has none either
$ link p
~ namespace n { type y = Stream(data: Bits(1)); streamlet s = (p: in y, q: out y); streamlet t = (p: in y, q: out y); impl a of s = \"x\"; }
@ p
= 0
# a port that the instance lacks
$ link p
~ namespace n { type y = Stream(data: Bits(1)); streamlet s = (p: in y, q: out y); streamlet t = (p: in y, q: out y); impl a of t = { i = s; p -- i.x; i.q -- q; }; }
@ p
! tydi: UnknownEnd p 1:140
= 1
# two source ends
$ link p
~ namespace n { type y = Stream(data: Bits(1)); streamlet s = (p: in y, q: out y); streamlet t = (p: in y, q: out y); impl a of t = { i = s; p -- i.q; i.p -- q; }; }
@ p
! tydi: SameSide p 1:140
= 1
# the later link of an end
$ link p
~ namespace n { type y = Stream(data: Bits(1)); streamlet s = (p: in y, q: out y); streamlet t = (p: in y, q: out y); impl a of t = { i = s; p -- i.p; p -- q; }; }
@ p
! tydi: LinkedTwice p 1:150
= 1
# errors of names come first
$ link p
~ namespace n { type y = Stream(data: Bits(1)); streamlet s = (p: in y, q: out y); streamlet t = (p: in y, q: out y); impl a of u = { p -- q; }; }
@ p
! tydi: UnknownName p 1:127
= 1
# forty streamlets of two instances each
$ link p
~ namespace n { type y = Stream(data: Bits(1)); streamlet s0 = (p: in y, q: out y); streamlet s1 = (p: in y, q: out y); impl a1 of s1 = { i = s0; j = s0; p -- i.p; i.q -- j.p; j.q -- q; }; streamlet s2 = (p: in y, q: out y); impl a2 of s2 = { i = s1; j = s1; p -- i.p; i.q -- j.p; j.q -- q; }; streamlet s3 = (p: in y, q: out y); impl a3 of s3 = { i = s2; j = s2; p -- i.p; i.q -- j.p; j.q -- q; }; streamlet s4 = (p: in y, q: out y); impl a4 of s4 = { i = s3; j = s3; p -- i.p; i.q -- j.p; j.q -- q; }; streamlet s5 = (p: in y, q: out y); impl a5 of s5 = { i = s4; j = s4; p -- i.p; i.q -- j.p; j.q -- q; }; streamlet s6 = (p: in y, q: out y); impl a6 of s6 = { i = s5; j = s5; p -- i.p; i.q -- j.p; j.q -- q; }; streamlet s7 = (p: in y, q: out y); impl a7 of s7 = { i = s6; j = s6; p -- i.p; i.q -- j.p; j.q -- q; }; streamlet s8 = (p: in y, q: out y); impl a8 of s8 = { i = s7; j = s7; p -- i.p; i.q -- j.p; j.q -- q; }; streamlet s9 = (p: in y, q: out y); impl a9 of s9 = { i = s8; j = s8; p -- i.p; i.q -- j.p; j.q -- q; }; streamlet s10 = (p: in y, q: out y); impl a10 of s10 = { i = s9; j = s9; p -- i.p; i.q -- j.p; j.q -- q; }; streamlet s11 = (p: in y, q: out y); impl a11 of s11 = { i = s10; j = s10; p -- i.p; i.q -- j.p; j.q -- q; }; streamlet s12 = (p: in y, q: out y); impl a12 of s12 = { i = s11; j = s11; p -- i.p; i.q -- j.p; j.q -- q; }; streamlet s13 = (p: in y, q: out y); impl a13 of s13 = { i = s12; j = s12; p -- i.p; i.q -- j.p; j.q -- q; }; streamlet s14 = (p: in y, q: out y); impl a14 of s14 = { i = s13; j = s13; p -- i.p; i.q -- j.p; j.q -- q; }; streamlet s15 = (p: in y, q: out y); impl a15 of s15 = { i = s14; j = s14; p -- i.p; i.q -- j.p; j.q -- q; }; streamlet s16 = (p: in y, q: out y); impl a16 of s16 = { i = s15; j = s15; p -- i.p; i.q -- j.p; j.q -- q; }; streamlet s17 = (p: in y, q: out y); impl a17 of s17 = { i = s16; j = s16; p -- i.p; i.q -- j.p; j.q -- q; }; streamlet s18 = (p: in y, q: out y); impl a18 of s18 = { i = s17; j = s17; p -- i.p; i.q -- j.p; j.q -- q; }; streamlet s19 = (p: in y, q: out y); impl a19 of s19 = { i = s18; j = s18; p -- i.p; i.q -- j.p; j.q -- q; }; streamlet s20 = (p: in y, q: out y); impl a20 of s20 = { i = s19; j = s19; p -- i.p; i.q -- j.p; j.q -- q; }; streamlet s21 = (p: in y, q: out y); impl a21 of s21 = { i = s20; j = s20; p -- i.p; i.q -- j.p; j.q -- q; }; streamlet s22 = (p: in y, q: out y); impl a22 of s22 = { i = s21; j = s21; p -- i.p; i.q -- j.p; j.q -- q; }; streamlet s23 = (p: in y, q: out y); impl a23 of s23 = { i = s22; j = s22; p -- i.p; i.q -- j.p; j.q -- q; }; streamlet s24 = (p: in y, q: out y); impl a24 of s24 = { i = s23; j = s23; p -- i.p; i.q -- j.p; j.q -- q; }; streamlet s25 = (p: in y, q: out y); impl a25 of s25 = { i = s24; j = s24; p -- i.p; i.q -- j.p; j.q -- q; }; streamlet s26 = (p: in y, q: out y); impl a26 of s26 = { i = s25; j = s25; p -- i.p; i.q -- j.p; j.q -- q; }; streamlet s27 = (p: in y, q: out y); impl a27 of s27 = { i = s26; j = s26; p -- i.p; i.q -- j.p; j.q -- q; }; streamlet s28 = (p: in y, q: out y); impl a28 of s28 = { i = s27; j = s27; p -- i.p; i.q -- j.p; j.q -- q; }; streamlet s29 = (p: in y, q: out y); impl a29 of s29 = { i = s28; j = s28; p -- i.p; i.q -- j.p; j.q -- q; }; streamlet s30 = (p: in y, q: out y); impl a30 of s30 = { i = s29; j = s29; p -- i.p; i.q -- j.p; j.q -- q; }; streamlet s31 = (p: in y, q: out y); impl a31 of s31 = { i = s30; j = s30; p -- i.p; i.q -- j.p; j.q -- q; }; streamlet s32 = (p: in y, q: out y); impl a32 of s32 = { i = s31; j = s31; p -- i.p; i.q -- j.p; j.q -- q; }; streamlet s33 = (p: in y, q: out y); impl a33 of s33 = { i = s32; j = s32; p -- i.p; i.q -- j.p; j.q -- q; }; streamlet s34 = (p: in y, q: out y); impl a34 of s34 = { i = s33; j = s33; p -- i.p; i.q -- j.p; j.q -- q; }; streamlet s35 = (p: in y, q: out y); impl a35 of s35 = { i = s34; j = s34; p -- i.p; i.q -- j.p; j.q -- q; }; streamlet s36 = (p: in y, q: out y); impl a36 of s36 = { i = s35; j = s35; p -- i.p; i.q -- j.p; j.q -- q; }; streamlet s37 = (p: in y, q: out y); impl a37 of s37 = { i = s36; j = s36; p -- i.p; i.q -- j.p; j.q -- q; }; streamlet s38 = (p: in y, q: out y); impl a38 of s38 = { i = s37; j = s37; p -- i.p; i.q -- j.p; j.q -- q; }; streamlet s39 = (p: in y, q: out y); impl a39 of s39 = { i = s38; j = s38; p -- i.p; i.q -- j.p; j.q -- q; }; streamlet s40 = (p: in y, q: out y); impl a40 of s40 = { i = s39; j = s39; p -- i.p; i.q -- j.p; j.q -- q; }; }
@ p
! tydi: DesignTooLarge p
= 1
# no file
$ link u
! tydi: NoFile u
= 1
";

/// Designs: their nets, or their first error.
pub(crate) const DESIGNS: &str = "\
# the nets of a design
$ link p
< namespace video {
<   type rgb = Group(r: Bits(8), g: Bits(8), b: Bits(8));
<   type frames = Stream(data: rgb, throughput: 2.0,
<     dimensionality: 2, complexity: 4);
<   streamlet invert = (a: in frames, b: out frames);
<   streamlet top = (a: in frames, b: out frames);
<   impl wiring of top = { i = invert; a -- i.a; i.b -- b; };
~ }
@ p
> impl video::top
> net a i.a
> net i.b b
= 0
# the end that gives the data comes first, in whatever order the ends are written
$ link p
< namespace video {
<   type rgb = Group(r: Bits(8), g: Bits(8), b: Bits(8));
<   type frames = Stream(data: rgb, throughput: 2.0,
<     dimensionality: 2, complexity: 4);
<   streamlet invert = (a: in frames, b: out frames);
<   streamlet top = (a: in frames, b: out frames);
<   impl wiring of top = { i = invert; i.a -- a; b -- i.b; };
~ }
@ p
> impl video::top
> net a i.a
> net i.b b
= 0
# an own port without a link
$ link p
< namespace video {
<   type rgb = Group(r: Bits(8), g: Bits(8), b: Bits(8));
<   type frames = Stream(data: rgb, throughput: 2.0,
<     dimensionality: 2, complexity: 4);
<   streamlet invert = (a: in frames, b: out frames);
<   streamlet top = (a: in frames, b: out frames);
<   impl wiring of top = { i = invert; a -- i.a; };
~ }
@ p
! tydi: Unlinked p 7:18
= 1
# the later link of an end
$ link p
< namespace video {
<   type rgb = Group(r: Bits(8), g: Bits(8), b: Bits(8));
<   type frames = Stream(data: rgb, throughput: 2.0,
<     dimensionality: 2, complexity: 4);
<   streamlet invert = (a: in frames, b: out frames);
<   streamlet top = (a: in frames, b: out frames);
<   impl wiring of top = { i = invert; a -- i.a; a -- b; };
~ }
@ p
! tydi: LinkedTwice p 7:48
= 1
# a port that the instance lacks
$ link p
< namespace video {
<   type rgb = Group(r: Bits(8), g: Bits(8), b: Bits(8));
<   type frames = Stream(data: rgb, throughput: 2.0,
<     dimensionality: 2, complexity: 4);
<   streamlet invert = (a: in frames, b: out frames);
<   streamlet top = (a: in frames, b: out frames);
<   impl wiring of top = { i = invert; a -- i.c; i.b -- b; };
~ }
@ p
! tydi: UnknownEnd p 7:38
= 1
# an instance that is not there
$ link p
< namespace video {
<   type rgb = Group(r: Bits(8), g: Bits(8), b: Bits(8));
<   type frames = Stream(data: rgb, throughput: 2.0,
<     dimensionality: 2, complexity: 4);
<   streamlet invert = (a: in frames, b: out frames);
<   streamlet top = (a: in frames, b: out frames);
<   impl wiring of top = { i = invert; a -- j.a; i.b -- b; };
~ }
@ p
! tydi: UnknownEnd p 7:38
= 1
# an end with itself is two source ends, and no second link
$ link p
< namespace video {
<   type rgb = Group(r: Bits(8), g: Bits(8), b: Bits(8));
<   type frames = Stream(data: rgb, throughput: 2.0,
<     dimensionality: 2, complexity: 4);
<   streamlet invert = (a: in frames, b: out frames);
<   streamlet top = (a: in frames, b: out frames);
<   impl wiring of top = { i = invert; a -- a; i.b -- b; };
~ }
@ p
! tydi: SameSide p 7:38
= 1
# two source ends
$ link p
< namespace video {
<   type rgb = Group(r: Bits(8), g: Bits(8), b: Bits(8));
<   type frames = Stream(data: rgb, throughput: 2.0,
<     dimensionality: 2, complexity: 4);
<   streamlet invert = (a: in frames, b: out frames);
<   streamlet top = (a: in frames, b: out frames);
<   impl wiring of top = { i = invert; a -- i.b; i.a -- b; };
~ }
@ p
! tydi: SameSide p 7:38
= 1
# implementations come in the order of their text, not in that of the streamlets
$ link p
~ namespace n { type y = Stream(data: Bits(1)); streamlet s = (p: in y, q: out y); streamlet t = (p: in y, q: out y); impl b of t = { p -- q; }; impl a of s = { p -- q; }; }
@ p
> impl n::t
> net p q
> impl n::s
> net p q
= 0
# so the first error is that of the first of them
$ link p
~ namespace n { type y = Stream(data: Bits(1)); streamlet s = (p: in y, q: out y); streamlet t = (p: in y, q: out y); impl b of t = { }; impl a of s = { p -- r; }; }
@ p
! tydi: Unlinked p 1:127
= 1
# types that are not compatible come before a second link
$ link p
~ namespace n { streamlet s = (p: in Stream(data: Bits(1)), q: out Stream(data: Bits(1)), r: out Stream(data: Bits(2))); impl b of s = { p -- q; p -- r; }; }
@ p
! tydi: NotCompatible p 1:144 - Shape
= 1
# sixteen levels of two instances each have 131,070
$ link p
~ namespace n { streamlet s0 = (); streamlet s1 = (); streamlet s2 = (); streamlet s3 = (); streamlet s4 = (); streamlet s5 = (); streamlet s6 = (); streamlet s7 = (); streamlet s8 = (); streamlet s9 = (); streamlet s10 = (); streamlet s11 = (); streamlet s12 = (); streamlet s13 = (); streamlet s14 = (); streamlet s15 = (); streamlet s16 = (); impl w0 of s0 = { i = s1; k = s1; }; impl w1 of s1 = { i = s2; k = s2; }; impl w2 of s2 = { i = s3; k = s3; }; impl w3 of s3 = { i = s4; k = s4; }; impl w4 of s4 = { i = s5; k = s5; }; impl w5 of s5 = { i = s6; k = s6; }; impl w6 of s6 = { i = s7; k = s7; }; impl w7 of s7 = { i = s8; k = s8; }; impl w8 of s8 = { i = s9; k = s9; }; impl w9 of s9 = { i = s10; k = s10; }; impl w10 of s10 = { i = s11; k = s11; }; impl w11 of s11 = { i = s12; k = s12; }; impl w12 of s12 = { i = s13; k = s13; }; impl w13 of s13 = { i = s14; k = s14; }; impl w14 of s14 = { i = s15; k = s15; }; impl w15 of s15 = { i = s16; k = s16; }; }
@ p
! tydi: DesignTooLarge p
= 1
# fifteen have 65,534
$ link p
~ namespace n { streamlet s0 = (); streamlet s1 = (); streamlet s2 = (); streamlet s3 = (); streamlet s4 = (); streamlet s5 = (); streamlet s6 = (); streamlet s7 = (); streamlet s8 = (); streamlet s9 = (); streamlet s10 = (); streamlet s11 = (); streamlet s12 = (); streamlet s13 = (); streamlet s14 = (); streamlet s15 = (); impl w0 of s0 = { i = s1; k = s1; }; impl w1 of s1 = { i = s2; k = s2; }; impl w2 of s2 = { i = s3; k = s3; }; impl w3 of s3 = { i = s4; k = s4; }; impl w4 of s4 = { i = s5; k = s5; }; impl w5 of s5 = { i = s6; k = s6; }; impl w6 of s6 = { i = s7; k = s7; }; impl w7 of s7 = { i = s8; k = s8; }; impl w8 of s8 = { i = s9; k = s9; }; impl w9 of s9 = { i = s10; k = s10; }; impl w10 of s10 = { i = s11; k = s11; }; impl w11 of s11 = { i = s12; k = s12; }; impl w12 of s12 = { i = s13; k = s13; }; impl w13 of s13 = { i = s14; k = s14; }; impl w14 of s14 = { i = s15; k = s15; }; }
@ p
> impl n::s0
> impl n::s1
> impl n::s2
> impl n::s3
> impl n::s4
> impl n::s5
> impl n::s6
> impl n::s7
> impl n::s8
> impl n::s9
> impl n::s10
> impl n::s11
> impl n::s12
> impl n::s13
> impl n::s14
= 0
";

/// Pairs of types at a link: what they differ in, and where.
pub(crate) const TYPES: &str = "\
# a higher level does not drive a lower one
$ link p
~ namespace n { streamlet s = (p: out Stream(data: Bits(8), complexity: 5)); streamlet k = (q: in Stream(data: Bits(8), complexity: 3)); streamlet t = (); impl x of t = { a = s; b = k; a.p -- b.q; }; }
@ p
! tydi: NotCompatible p 1:184 - Level
= 1
# a lower level drives a higher one
$ link p
~ namespace n { streamlet s = (p: out Stream(data: Bits(8), complexity: 3)); streamlet k = (q: in Stream(data: Bits(8), complexity: 5)); streamlet t = (); impl x of t = { a = s; b = k; a.p -- b.q; }; }
@ p
> impl n::t
> net a.p b.q
= 0
# levels are compared number by number
$ link p
~ namespace n { streamlet s = (p: out Stream(data: Bits(8), complexity: 4.10)); streamlet k = (q: in Stream(data: Bits(8), complexity: 4.9)); streamlet t = (); impl x of t = { a = s; b = k; a.p -- b.q; }; }
@ p
! tydi: NotCompatible p 1:189 - Level
= 1
# rising numbers
$ link p
~ namespace n { streamlet s = (p: out Stream(data: Bits(8), complexity: 4.9)); streamlet k = (q: in Stream(data: Bits(8), complexity: 4.10)); streamlet t = (); impl x of t = { a = s; b = k; a.p -- b.q; }; }
@ p
> impl n::t
> net a.p b.q
= 0
# numbers that are 0 are left out
$ link p
~ namespace n { streamlet s = (p: out Stream(data: Bits(8), complexity: 4)); streamlet k = (q: in Stream(data: Bits(8), complexity: 4.0)); streamlet t = (); impl x of t = { a = s; b = k; a.p -- b.q; }; }
@ p
> impl n::t
> net a.p b.q
= 0
# at a reversed Stream the sink's level is the lower one
$ link p
~ namespace n { streamlet s = (p: out Stream(data: Bits(8), complexity: 5, direction: Reverse)); streamlet k = (q: in Stream(data: Bits(8), complexity: 3, direction: Reverse)); streamlet t = (); impl x of t = { a = s; b = k; a.p -- b.q; }; }
@ p
> impl n::t
> net a.p b.q
= 0
# a higher level does not come back
$ link p
~ namespace n { streamlet s = (p: out Stream(data: Bits(8), complexity: 3, direction: Reverse)); streamlet k = (q: in Stream(data: Bits(8), complexity: 5, direction: Reverse)); streamlet t = (); impl x of t = { a = s; b = k; a.p -- b.q; }; }
@ p
! tydi: NotCompatible p 1:224 - Level
= 1
# another width
$ link p
~ namespace n { streamlet s = (p: out Stream(data: Bits(8))); streamlet k = (q: in Stream(data: Bits(9))); streamlet t = (); impl x of t = { a = s; b = k; a.p -- b.q; }; }
@ p
! tydi: NotCompatible p 1:154 - Shape
= 1
# another name of a field
$ link p
~ namespace n { streamlet s = (p: out Stream(data: Group(a: Bits(8)))); streamlet k = (q: in Stream(data: Group(b: Bits(8)))); streamlet t = (); impl x of t = { a = s; b = k; a.p -- b.q; }; }
@ p
! tydi: NotCompatible p 1:174 - Shape
= 1
# another width in a field
$ link p
~ namespace n { streamlet s = (p: out Stream(data: Group(a: Bits(8), b: Bits(8)))); streamlet k = (q: in Stream(data: Group(a: Bits(8), b: Bits(7)))); streamlet t = (); impl x of t = { a = s; b = k; a.p -- b.q; }; }
@ p
! tydi: NotCompatible p 1:198 b Shape
= 1
# another throughput
$ link p
~ namespace n { streamlet s = (p: out Stream(data: Bits(8), throughput: 1.0)); streamlet k = (q: in Stream(data: Bits(8), throughput: 2.0)); streamlet t = (); impl x of t = { a = s; b = k; a.p -- b.q; }; }
@ p
! tydi: NotCompatible p 1:188 - Throughput
= 1
# another dimensionality
$ link p
~ namespace n { streamlet s = (p: out Stream(data: Bits(8), dimensionality: 1)); streamlet k = (q: in Stream(data: Bits(8), dimensionality: 2)); streamlet t = (); impl x of t = { a = s; b = k; a.p -- b.q; }; }
@ p
! tydi: NotCompatible p 1:192 - Dims
= 1
# another synchronicity of the outermost Stream
$ link p
~ namespace n { streamlet s = (p: out Stream(data: Bits(8), synchronicity: Sync)); streamlet k = (q: in Stream(data: Bits(8), synchronicity: Flatten)); streamlet t = (); impl x of t = { a = s; b = k; a.p -- b.q; }; }
@ p
! tydi: NotCompatible p 1:199 - Sync
= 1
# another direction. The level comes before it
$ link p
~ namespace n { streamlet s = (p: out Stream(data: Bits(8), direction: Reverse)); streamlet k = (q: in Stream(data: Bits(8))); streamlet t = (); impl x of t = { a = s; b = k; a.p -- b.q; }; }
@ p
! tydi: NotCompatible p 1:174 - Direction
= 1
# the level before the direction: the source's node is reversed
$ link p
~ namespace n { streamlet s = (p: out Stream(data: Bits(8), complexity: 3, direction: Reverse)); streamlet k = (q: in Stream(data: Bits(8), complexity: 5)); streamlet t = (); impl x of t = { a = s; b = k; a.p -- b.q; }; }
@ p
! tydi: NotCompatible p 1:204 - Level
= 1
# another user type
$ link p
~ namespace n { streamlet s = (p: out Stream(data: Bits(8), user: Bits(1))); streamlet k = (q: in Stream(data: Bits(8), user: Bits(2))); streamlet t = (); impl x of t = { a = s; b = k; a.p -- b.q; }; }
@ p
! tydi: NotCompatible p 1:184 - User
= 1
# another keep flag
$ link p
~ namespace n { streamlet s = (p: out Stream(data: Bits(8), keep: true)); streamlet k = (q: in Stream(data: Bits(8))); streamlet t = (); impl x of t = { a = s; b = k; a.p -- b.q; }; }
@ p
! tydi: NotCompatible p 1:166 - Keep
= 1
# inside a Group, by the names that lead there
$ link p
~ namespace n { streamlet s = (p: out Stream(data: Group(a: Bits(8), b: Stream(data: Bits(8), complexity: 5)))); streamlet k = (q: in Stream(data: Group(a: Bits(8), b: Stream(data: Bits(8), complexity: 3)))); streamlet t = (); impl x of t = { a = s; b = k; a.p -- b.q; }; }
@ p
! tydi: NotCompatible p 1:256 b Level
= 1
# inside a reversed Stream the levels turn round
$ link p
~ namespace n { streamlet s = (p: out Stream(data: Group(a: Bits(8), b: Stream(data: Bits(8), complexity: 5, direction: Reverse)))); streamlet k = (q: in Stream(data: Group(a: Bits(8), b: Stream(data: Bits(8), complexity: 3, direction: Reverse)))); streamlet t = (); impl x of t = { a = s; b = k; a.p -- b.q; }; }
@ p
> impl n::t
> net a.p b.q
= 0
# a level inside a reversed Stream that does not turn
$ link p
~ namespace n { streamlet s = (p: out Stream(data: Group(a: Bits(8), b: Stream(data: Bits(8), complexity: 3, direction: Reverse)))); streamlet k = (q: in Stream(data: Group(a: Bits(8), b: Stream(data: Bits(8), complexity: 5, direction: Reverse)))); streamlet t = (); impl x of t = { a = s; b = k; a.p -- b.q; }; }
@ p
! tydi: NotCompatible p 1:296 b Level
= 1
# an inner throughput
$ link p
~ namespace n { streamlet s = (p: out Stream(data: Group(a: Bits(8), b: Stream(data: Bits(8), throughput: 2.0)))); streamlet k = (q: in Stream(data: Group(a: Bits(8), b: Stream(data: Bits(8), throughput: 3.0)))); streamlet t = (); impl x of t = { a = s; b = k; a.p -- b.q; }; }
@ p
! tydi: NotCompatible p 1:260 b Throughput
= 1
# an inner dimensionality
$ link p
~ namespace n { streamlet s = (p: out Stream(data: Group(a: Bits(8), b: Stream(data: Bits(8), dimensionality: 1)))); streamlet k = (q: in Stream(data: Group(a: Bits(8), b: Stream(data: Bits(8), dimensionality: 0)))); streamlet t = (); impl x of t = { a = s; b = k; a.p -- b.q; }; }
@ p
! tydi: NotCompatible p 1:264 b Dims
= 1
# an inner synchronicity
$ link p
~ namespace n { streamlet s = (p: out Stream(data: Group(a: Bits(8), b: Stream(data: Bits(8), synchronicity: Desync)))); streamlet k = (q: in Stream(data: Group(a: Bits(8), b: Stream(data: Bits(8), synchronicity: Flatten)))); streamlet t = (); impl x of t = { a = s; b = k; a.p -- b.q; }; }
@ p
! tydi: NotCompatible p 1:273 b Sync
= 1
# an inner direction
$ link p
~ namespace n { streamlet s = (p: out Stream(data: Group(a: Bits(8), b: Stream(data: Bits(8), direction: Reverse)))); streamlet k = (q: in Stream(data: Group(a: Bits(8), b: Stream(data: Bits(8))))); streamlet t = (); impl x of t = { a = s; b = k; a.p -- b.q; }; }
@ p
! tydi: NotCompatible p 1:246 b Direction
= 1
# an inner user type
$ link p
~ namespace n { streamlet s = (p: out Stream(data: Group(a: Bits(8), b: Stream(data: Bits(8), user: Bits(1))))); streamlet k = (q: in Stream(data: Group(a: Bits(8), b: Stream(data: Bits(8))))); streamlet t = (); impl x of t = { a = s; b = k; a.p -- b.q; }; }
@ p
! tydi: NotCompatible p 1:241 b User
= 1
# an inner keep flag
$ link p
~ namespace n { streamlet s = (p: out Stream(data: Group(a: Bits(8), b: Stream(data: Bits(8))))); streamlet k = (q: in Stream(data: Group(a: Bits(8), b: Stream(data: Bits(8), keep: true)))); streamlet t = (); impl x of t = { a = s; b = k; a.p -- b.q; }; }
@ p
! tydi: NotCompatible p 1:238 b Keep
= 1
";
