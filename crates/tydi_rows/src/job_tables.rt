//! Rows of `gen`. The project stands in the file `p`.

/// Summaries of jobs, and why some ports have none.
pub(crate) const JOBS: &str = "\
# bytes in one lane
$ gen p n::s.p 1 4
~ namespace n { type t = Stream(data: Bits(8), throughput: 1, dimensionality: 0, complexity: 1); streamlet s = (p: in t); }
@ p
> stream - transfers 4 packets 4
> cycles 4
> text 26
> trace 8627
= 0
# no members
$ gen p n::s.p 65535 0
~ namespace n { type t = Stream(data: Bits(8), complexity: 1); streamlet s = (p: in t); }
@ p
> stream - transfers 0 packets 0
> cycles 0
> text 11
> trace 6625
= 0
# two lanes that each transfer fills
$ gen p n::s.p 3 6
~ namespace n { type t = Stream(data: Bits(8), throughput: 2, complexity: 1); streamlet s = (p: in t); }
@ p
> stream - transfers 3 packets 6
> cycles 3
> text 31
> trace 8532
= 0
# lanes that do not divide the elements
$ gen p n::s.p 1 4
~ namespace n { type t = Stream(data: Bits(8), throughput: 3, complexity: 1); streamlet s = (p: in t); }
@ p
! tydi: CountNotMultiple - 4 3
= 1
# lanes that need not divide them
$ gen p n::s.p 1 4
~ namespace n { type t = Stream(data: Bits(8), throughput: 3, complexity: 5); streamlet s = (p: in t); }
@ p
> stream - transfers 2 packets 4
> cycles 2
> text 26
> trace 8643
= 0
# sequences of sequences, some empty
$ gen p n::s.p 7 3
~ namespace n { type t = Stream(data: Bits(8), throughput: 1, dimensionality: 2, complexity: 4); streamlet s = (p: in t); }
@ p
> stream - transfers 9 packets 3
> cycles 9
> text 57
> trace 15188
= 0
# four lanes of sequences at level 7
$ gen p n::s.p 12 5
~ namespace n { type t = Stream(data: Bits(3), throughput: 4, dimensionality: 1, complexity: 7); streamlet s = (p: in t); }
@ p
> stream - transfers 5 packets 5
> cycles 5
> text 44
> trace 14143
= 0
# words of several draws, the first of which is lowest
$ gen p n::s.p 9 2
~ namespace n { type t = Stream(data: Bits(130), complexity: 2); streamlet s = (p: in t); }
@ p
> stream - transfers 2 packets 2
> cycles 2
> text 82
> trace 11891
= 0
# a variant by the upper byte of a draw
$ gen p n::s.p 5 9
~ namespace n { type t = Stream(data: Union(a: Bits(8), b: Bits(4), c: Null), complexity: 1); streamlet s = (p: in t); }
@ p
> stream - transfers 9 packets 9
> cycles 9
> text 74
> trace 11206
= 0
# fields in their order
$ gen p n::s.p 4 3
~ namespace n { type t = Stream(data: Group(x: Bits(8), y: Null, z: Bits(17)), complexity: 1); streamlet s = (p: in t); }
@ p
> stream - transfers 3 packets 3
> cycles 3
> text 94
> trace 9113
= 0
# user words, each of which is zero
$ gen p n::s.p 1 3
~ namespace n { type t = Stream(data: Bits(8), complexity: 1, user: Bits(2)); streamlet s = (p: in t); }
@ p
> stream - transfers 3 packets 3
> cycles 3
> text 39
> trace 8870
= 0
# the longest stream has the cycles of the job
$ gen p n::s.p 11 4
~ namespace n { type t = Stream(data: Group(len: Bits(8), chars: Stream(data: Bits(8), dimensionality: 1, complexity: 2)), complexity: 1); streamlet s = (p: in t); }
@ p
> stream - transfers 4 packets 4
> stream chars transfers 4 packets 4
> cycles 4
> text 102
> trace 17518
= 0
# a port whose root is not carried
$ gen p n::s.p 1 1
~ namespace n { type t = Stream(data: Stream(data: Bits(8), dimensionality: 0, synchronicity: Desync, complexity: 1), complexity: 1); streamlet s = (p: in t); }
@ p
! tydi: NoCarrier -
= 1
# a seed over the greatest
$ gen p n::s.p 65536 1
~ namespace n { type t = Stream(data: Bits(8), complexity: 1); streamlet s = (p: in t); }
@ p
! tydi: Usage
= 2
# a count over the greatest
$ gen p n::s.p 1 100001
~ namespace n { type t = Stream(data: Bits(8), complexity: 1); streamlet s = (p: in t); }
@ p
! tydi: Usage
= 2
# a seed that begins with zero
$ gen p n::s.p 01 1
~ namespace n { type t = Stream(data: Bits(8), complexity: 1); streamlet s = (p: in t); }
@ p
! tydi: Usage
= 2
# a count that begins with zero
$ gen p n::s.p 1 00
~ namespace n { type t = Stream(data: Bits(8), complexity: 1); streamlet s = (p: in t); }
@ p
! tydi: Usage
= 2
# a seed with a sign
$ gen p n::s.p +1 1
~ namespace n { type t = Stream(data: Bits(8), complexity: 1); streamlet s = (p: in t); }
@ p
! tydi: Usage
= 2
# a count below zero
$ gen p n::s.p 1 -1
~ namespace n { type t = Stream(data: Bits(8), complexity: 1); streamlet s = (p: in t); }
@ p
! tydi: Usage
= 2
# a seed of letters
$ gen p n::s.p one 1
~ namespace n { type t = Stream(data: Bits(8), complexity: 1); streamlet s = (p: in t); }
@ p
! tydi: Usage
= 2
# a number too great for any word
$ gen p n::s.p 1 99999999999999999999999
~ namespace n { type t = Stream(data: Bits(8), complexity: 1); streamlet s = (p: in t); }
@ p
! tydi: Usage
= 2
# no count
$ gen p n::s.p 1
~ namespace n { type t = Stream(data: Bits(8), complexity: 1); streamlet s = (p: in t); }
@ p
! tydi: Usage
= 2
# a word too many
$ gen p n::s.p 1 1 1
~ namespace n { type t = Stream(data: Bits(8), complexity: 1); streamlet s = (p: in t); }
@ p
! tydi: Usage
= 2
# a project that begins with a sign
$ gen -p n::s.p 1 1
~ namespace n { type t = Stream(data: Bits(8), complexity: 1); streamlet s = (p: in t); }
@ p
! tydi: Usage
= 2
# a port that begins with a sign
$ gen p -n::s.p 1 1
~ namespace n { type t = Stream(data: Bits(8), complexity: 1); streamlet s = (p: in t); }
@ p
! tydi: Usage
= 2
# a file that is not there
$ gen q n::s.p 1 1
~ namespace n { type t = Stream(data: Bits(8), complexity: 1); streamlet s = (p: in t); }
@ p
! tydi: NoFile q
= 1
# a project that does not begin
$ gen p n::s.p 1 1
~ type
@ p
! tydi: Unexpected p 1:1
= 1
# a word that names no port
$ gen p n::s.q 1 1
~ namespace n { type t = Stream(data: Bits(8), complexity: 1); streamlet s = (p: in t); }
@ p
! tydi: NoPort n::s.q
= 1
";
