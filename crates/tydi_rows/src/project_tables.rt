//! Rows of `read`.

/// Projects, each with its canonical text, which reads as itself.
pub(crate) const CANONICAL: &str = "\
# a comment, and no white space that is not needed
$ read t
< namespace a{type b=Bits(8);//x
~ }
> namespace a {
>   type b = Bits(8);
> }
= again
# a user's project: an alias, a stream, two streamlets, an implementation and a test
$ read t
< namespace video {
<   type rgb = Group(r: Bits(8), g: Bits(8), b: Bits(8));
<   type frames = Stream(data: rgb, throughput: 2.0,
<     dimensionality: 2, complexity: 4);
<   streamlet invert = (a: in frames, b: out frames);
<   streamlet top = (a: in frames, b: out frames);
<   impl wiring of top = { i = invert; a -- i.a; i.b -- b; };
<   test two of top drive a =
<     \"root - = [[{r: 1, g: 2, b: 3}, {r: 4, g: 5, b: 6},
<      {r: 7, g: 8, b: 9}]] [];\" plan \"tydi-plan 1
< cycles 3
< \";
< }
> namespace video {
>   type rgb = Group(r: Bits(8), g: Bits(8), b: Bits(8));
>   type frames = Stream(data: rgb, throughput: 2, dimensionality: 2, synchronicity: Sync, complexity: 4, direction: Forward, user: Null, keep: false);
>   streamlet invert = (a: in frames, b: out frames);
>   streamlet top = (a: in frames, b: out frames);
>   impl wiring of top = { i = invert; a -- i.a; i.b -- b; };
>   test two of top drive a = \"root - = [[{r: 1, g: 2, b: 3}, {r: 4, g: 5, b: 6},
>      {r: 7, g: 8, b: 9}]] [];\" plan \"tydi-plan 1
> cycles 3
> \";
> }
= again
# documentation, an interface, a path, a linked implementation, and arguments in another order
$ read t
< #n# namespace a::b { #d# interface i = (#p# x: in c::t,); streamlet s = i; impl l of s = \"f\"; impl m of s = {};
~ type u = Union(p: Null, q: Stream(keep: true, direction: Reverse, user: Bits(01), throughput: 1.50, data: Group(),)); }
> #n#
> namespace a::b {
>   #d#
>   interface i = (#p# x: in c::t);
>   streamlet s = i;
>   impl l of s = \"f\";
>   impl m of s = { };
>   type u = Union(p: Null, q: Stream(data: Group(), throughput: 1.5, dimensionality: 0, synchronicity: Sync, complexity: 4, direction: Reverse, user: Bits(1), keep: true));
> }
= again
# levels: a number is its digits by value, and numbers at the end that are 0 are left out
$ read t
< namespace n {
< type a = Stream(data: Null, complexity: 4.0);
< type b = Stream(data: Null, complexity: 4.1.2.3);
< type c = Stream(data: Null, complexity: 04.010);
< type d = Stream(data: Null, complexity: 8 . 0.0255);
< type e = Stream(data: Null, complexity: 1.0.0.0);
< type g = Stream(data: Null, complexity: 5.0.7);
< type h = Stream(data: Null, complexity: 2.0.0.9);
~ }
> namespace n {
>   type a = Stream(data: Null, throughput: 1, dimensionality: 0, synchronicity: Sync, complexity: 4, direction: Forward, user: Null, keep: false);
>   type b = Stream(data: Null, throughput: 1, dimensionality: 0, synchronicity: Sync, complexity: 4.1.2.3, direction: Forward, user: Null, keep: false);
>   type c = Stream(data: Null, throughput: 1, dimensionality: 0, synchronicity: Sync, complexity: 4.10, direction: Forward, user: Null, keep: false);
>   type d = Stream(data: Null, throughput: 1, dimensionality: 0, synchronicity: Sync, complexity: 8.0.255, direction: Forward, user: Null, keep: false);
>   type e = Stream(data: Null, throughput: 1, dimensionality: 0, synchronicity: Sync, complexity: 1, direction: Forward, user: Null, keep: false);
>   type g = Stream(data: Null, throughput: 1, dimensionality: 0, synchronicity: Sync, complexity: 5.0.7, direction: Forward, user: Null, keep: false);
>   type h = Stream(data: Null, throughput: 1, dimensionality: 0, synchronicity: Sync, complexity: 2.0.0.9, direction: Forward, user: Null, keep: false);
> }
= again
";

/// Texts that are no project.
pub(crate) const FAULTS: &str = "\
$ read t
~ namespace a { type b = Grüp; }
! tydi: NameNotAscii t 1:24
= 1
$ read t
< namespace a {
<   type b_ = c;
~ }
! tydi: BadName t 2:8
= 1
$ read t
~ namespace a { type b = Bits(1234567890123456789); }
! tydi: NumberTooLong t 1:29
= 1
$ read t
~ namespace a { $ }
! tydi: StrayChar t 1:15
= 1
$ read t
~ namespace a { impl b of c = \"d; }
! tydi: OpenString t 1:29
= 1
$ read t
~ #a namespace b {}
! tydi: OpenDoc t 1:1
= 1
$ read t
~ namespace a { type b = Stream(throughput: 2); }
! tydi: Unexpected t 1:44
= 1
$ read t
~ namespace a { type b = Stream(data: c, data: d); }
! tydi: Unexpected t 1:40
= 1
$ read t
~ namespace Null { }
! tydi: Unexpected t 1:11
= 1
$ read t
~ namespace a {
! tydi: EndOfText t
= 1
$ read t
! tydi: EndOfText t
= 1
# a level has four numbers at most: the fourth point is the second that is a token
$ read t
~ namespace n { type a = Stream(complexity: 4.1.2.3.4, data: Null); }
! tydi: Unexpected t 1:50
= 1
$ read t
~ namespace n { type a = Stream(complexity: 4.1.2.256, data: Null); }
! tydi: Unexpected t 1:47
= 1
$ read t
~ namespace n { type a = Stream(complexity: 4.256, data: Null); }
! tydi: Unexpected t 1:43
= 1
$ read t
~ namespace n { type a = Stream(complexity: 0.1, data: Null); }
! tydi: Unexpected t 1:43
= 1
$ read t
~ namespace n { type a = Stream(complexity: 9, data: Null); }
! tydi: Unexpected t 1:43
= 1
$ read t
~ namespace n { type a = Stream(complexity: 8.1.300, data: Null); }
! tydi: Unexpected t 1:47
= 1
# a point wants a number after it
$ read t
~ namespace n { type a = Stream(complexity: 4., data: Null); }
! tydi: Unexpected t 1:45
= 1
$ read t
~ namespace n { type a = Stream(complexity: 4.1.2.3., data: Null); }
! tydi: Unexpected t 1:50
= 1
# a fault of the tokens comes before one of the tree
$ read t
~ namespace { $ }
! tydi: StrayChar t 1:13
= 1
";
