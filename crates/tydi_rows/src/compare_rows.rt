//! Rows of `compare`. The project stands in the file `p`, the value in `v` and the trace in `t`.

/// Traces beside values.
pub(crate) const COMPARED: &str = "\
# the items of the value, each in its place
$ compare p n::s.p v t
~ namespace n { type t = Stream(data: Bits(8), throughput: 1, dimensionality: 1, complexity: 1); streamlet s = (p: in t); }
@ p
~ root - = [1, 2] [3];
@ v
< tydi-trace 1
< cycles 3
< stream - lanes 1 dims 1 level 1 element 8 user 0 forward
< 1 1 d=01 l=0 b=1
< 1 1 d=02 l=1 b=1
< 1 1 d=03 l=1 b=1
> same
= 0
# transfers that are offered and not taken count for nothing
$ compare p n::s.p v t
~ namespace n { type t = Stream(data: Bits(8), throughput: 1, dimensionality: 1, complexity: 1); streamlet s = (p: in t); }
@ p
~ root - = [1, 2];
@ v
< tydi-trace 1
< cycles 4
< stream - lanes 1 dims 1 level 1 element 8 user 0 forward
< 1 0 d=01 l=0 b=1
< 1 1 d=01 l=0 b=1
< 0 1 -
< 1 1 d=02 l=1 b=1
> same
= 0
# another element
$ compare p n::s.p v t
~ namespace n { type t = Stream(data: Bits(8), throughput: 1, dimensionality: 1, complexity: 1); streamlet s = (p: in t); }
@ p
~ root - = [1, 2] [4];
@ v
< tydi-trace 1
< cycles 3
< stream - lanes 1 dims 1 level 1 element 8 user 0 forward
< 1 1 d=01 l=0 b=1
< 1 1 d=02 l=1 b=1
< 1 1 d=03 l=1 b=1
> differs stream - item 3 at 1.0 cycle 2 want 0x04 got 0x03
= 6
# another element in the first place
$ compare p n::s.p v t
~ namespace n { type t = Stream(data: Bits(8), throughput: 1, dimensionality: 1, complexity: 1); streamlet s = (p: in t); }
@ p
~ root - = [0, 2] [3];
@ v
< tydi-trace 1
< cycles 3
< stream - lanes 1 dims 1 level 1 element 8 user 0 forward
< 1 1 d=01 l=0 b=1
< 1 1 d=02 l=1 b=1
< 1 1 d=03 l=1 b=1
> differs stream - item 0 at 0.0 cycle 0 want 0x00 got 0x01
= 6
# a sequence that ends early, and one that ends late
$ compare p n::s.p v t
~ namespace n { type t = Stream(data: Bits(8), throughput: 1, dimensionality: 1, complexity: 1); streamlet s = (p: in t); }
@ p
~ root - = [1, 2, 3] [];
@ v
< tydi-trace 1
< cycles 3
< stream - lanes 1 dims 1 level 1 element 8 user 0 forward
< 1 1 d=01 l=0 b=1
< 1 1 d=02 l=1 b=1
< 1 1 d=03 l=1 b=1
> differs stream - item 2 at 0.2 cycle 1 want 0x03 got close 0
= 6
$ compare p n::s.p v t
~ namespace n { type t = Stream(data: Bits(8), throughput: 1, dimensionality: 1, complexity: 1); streamlet s = (p: in t); }
@ p
~ root - = [1] [2] [3];
@ v
< tydi-trace 1
< cycles 3
< stream - lanes 1 dims 1 level 1 element 8 user 0 forward
< 1 1 d=01 l=0 b=1
< 1 1 d=02 l=1 b=1
< 1 1 d=03 l=1 b=1
> differs stream - item 1 at 0.1 cycle 1 want close 0 got 0x02
= 6
# a trace that ends early
$ compare p n::s.p v t
~ namespace n { type t = Stream(data: Bits(8), throughput: 1, dimensionality: 1, complexity: 1); streamlet s = (p: in t); }
@ p
~ root - = [1, 2] [3] [4];
@ v
< tydi-trace 1
< cycles 3
< stream - lanes 1 dims 1 level 1 element 8 user 0 forward
< 1 1 d=01 l=0 b=1
< 1 1 d=02 l=1 b=1
< 1 1 d=03 l=1 b=1
> differs stream - item 5 at 2.0 cycle - want 0x04 got end
= 6
# a trace that goes on
$ compare p n::s.p v t
~ namespace n { type t = Stream(data: Bits(8), throughput: 1, dimensionality: 1, complexity: 1); streamlet s = (p: in t); }
@ p
~ root - = [1, 2];
@ v
< tydi-trace 1
< cycles 3
< stream - lanes 1 dims 1 level 1 element 8 user 0 forward
< 1 1 d=01 l=0 b=1
< 1 1 d=02 l=1 b=1
< 1 1 d=03 l=1 b=1
> differs stream - item 3 at 1.0 cycle 2 want end got 0x03
= 6
$ compare p n::s.p v t
~ namespace n { type t = Stream(data: Bits(8), throughput: 1, dimensionality: 1, complexity: 1); streamlet s = (p: in t); }
@ p
~ root - = ;
@ v
< tydi-trace 1
< cycles 3
< stream - lanes 1 dims 1 level 1 element 8 user 0 forward
< 1 1 d=01 l=0 b=1
< 1 1 d=02 l=1 b=1
< 1 1 d=03 l=1 b=1
> differs stream - item 0 at 0.0 cycle 0 want end got 0x01
= 6
# a trace without transfers
$ compare p n::s.p v t
~ namespace n { type t = Stream(data: Bits(8), throughput: 1, dimensionality: 1, complexity: 1); streamlet s = (p: in t); }
@ p
~ root - = [1];
@ v
< tydi-trace 1
< cycles 1
< stream - lanes 1 dims 1 level 1 element 8 user 0 forward
< 0 1 -
> differs stream - item 0 at 0.0 cycle - want 0x01 got end
= 6
# nothing is expected and nothing comes
$ compare p n::s.p v t
~ namespace n { type t = Stream(data: Bits(8), throughput: 1, dimensionality: 1, complexity: 1); streamlet s = (p: in t); }
@ p
~ root - = ;
@ v
< tydi-trace 1
< cycles 1
< stream - lanes 1 dims 1 level 1 element 8 user 0 forward
< 0 1 -
> same
= 0
# a value that has no items is no trace with an empty sequence
$ compare p n::s.p v t
~ namespace n { type t = Stream(data: Bits(8), throughput: 1, dimensionality: 1, complexity: 1); streamlet s = (p: in t); }
@ p
~ root - = ;
@ v
< tydi-trace 1
< cycles 1
< stream - lanes 1 dims 1 level 1 element 8 user 0 forward
< 1 1 d=00 l=1 b=0
> differs stream - item 0 at 0.0 cycle 0 want end got close 0
= 6
# places of two dimensions, and idle lanes of which no word is looked at
$ compare p n::s.p v t
~ namespace n { type t = Stream(data: Bits(4), throughput: 4, dimensionality: 2, complexity: 8); streamlet s = (p: in t); }
@ p
~ root - = [[1, 2], [3]] [[4, 5], [], [6, 7]];
@ v
< tydi-trace 1
< cycles 3
< stream - lanes 4 dims 2 level 8 element 4 user 0 forward
< 1 1 d=f321 l=34 s=0 e=2 b=f
< 1 1 d=6f54 l=14 s=0 e=3 b=b
< 1 1 d=fff7 l=03 s=0 e=0 b=f
> same
= 0
# the last of these elements is another
$ compare p n::s.p v t
~ namespace n { type t = Stream(data: Bits(4), throughput: 4, dimensionality: 2, complexity: 8); streamlet s = (p: in t); }
@ p
~ root - = [[1, 2], [3]] [[4, 5], [], [6, 7]];
@ v
< tydi-trace 1
< cycles 3
< stream - lanes 4 dims 2 level 8 element 4 user 0 forward
< 1 1 d=f321 l=34 s=0 e=2 b=f
< 1 1 d=6f54 l=14 s=0 e=3 b=b
< 1 1 d=fff8 l=03 s=0 e=0 b=f
> differs stream - item 11 at 1.2.1 cycle 2 want 0x7 got 0x8
= 6
# the empty sequence is left out
$ compare p n::s.p v t
~ namespace n { type t = Stream(data: Bits(4), throughput: 4, dimensionality: 2, complexity: 8); streamlet s = (p: in t); }
@ p
~ root - = [[1, 2], [3]] [[4, 5], [], [6, 7]];
@ v
< tydi-trace 1
< cycles 3
< stream - lanes 4 dims 2 level 8 element 4 user 0 forward
< 1 1 d=f321 l=34 s=0 e=2 b=f
< 1 1 d=6f54 l=04 s=0 e=3 b=b
< 1 1 d=fff7 l=03 s=0 e=0 b=f
> differs stream - item 9 at 1.1.0 cycle 1 want close 0 got 0x6
= 6
# a sequence of the outer dimension ends early
$ compare p n::s.p v t
~ namespace n { type t = Stream(data: Bits(4), throughput: 4, dimensionality: 2, complexity: 8); streamlet s = (p: in t); }
@ p
~ root - = [[1, 2], [3]] [[4, 5], [], [6, 7]];
@ v
< tydi-trace 1
< cycles 3
< stream - lanes 4 dims 2 level 8 element 4 user 0 forward
< 1 1 d=f321 l=34 s=0 e=2 b=f
< 1 1 d=6f54 l=1c s=0 e=3 b=b
< 1 1 d=fff7 l=03 s=0 e=0 b=f
> differs stream - item 9 at 1.1.0 cycle 1 want close 0 got close 1
= 6
# two streams of one type
$ compare p n::s.p v t
~ namespace n { type t = Stream(data: Group(a: Bits(8), b: Stream(data: Bits(2), throughput: 1, dimensionality: 1, synchronicity: Sync, complexity: 1)), throughput: 1, dimensionality: 1, complexity: 1); streamlet s = (p: in t); }
@ p
~ root - = [{a: 1, b: [1, 2]}, {a: 2, b: [3]}];
@ v
< tydi-trace 1
< cycles 4
< stream - lanes 1 dims 1 level 1 element 8 user 0 forward
< stream b lanes 1 dims 2 level 1 element 2 user 0 forward
< 1 1 d=01 l=0 b=1
< 1 1 d=1 l=0 b=1
< 1 1 d=02 l=1 b=1
< 1 1 d=2 l=1 b=1
< 0 1 -
< 1 1 d=3 l=3 b=1
< 0 1 -
< 0 1 -
> same
= 0
# the second stream alone
$ compare p n::s.p v t
~ namespace n { type t = Stream(data: Group(a: Bits(8), b: Stream(data: Bits(2), throughput: 1, dimensionality: 1, synchronicity: Sync, complexity: 1)), throughput: 1, dimensionality: 1, complexity: 1); streamlet s = (p: in t); }
@ p
~ root - = [{a: 1, b: [1, 2]}, {a: 2, b: [2]}];
@ v
< tydi-trace 1
< cycles 4
< stream - lanes 1 dims 1 level 1 element 8 user 0 forward
< stream b lanes 1 dims 2 level 1 element 2 user 0 forward
< 1 1 d=01 l=0 b=1
< 1 1 d=1 l=0 b=1
< 1 1 d=02 l=1 b=1
< 1 1 d=2 l=1 b=1
< 0 1 -
< 1 1 d=3 l=3 b=1
< 0 1 -
< 0 1 -
> differs stream b item 3 at 0.1.0 cycle 2 want 0x2 got 0x3
= 6
# both streams, in their order
$ compare p n::s.p v t
~ namespace n { type t = Stream(data: Group(a: Bits(8), b: Stream(data: Bits(2), throughput: 1, dimensionality: 1, synchronicity: Sync, complexity: 1)), throughput: 1, dimensionality: 1, complexity: 1); streamlet s = (p: in t); }
@ p
~ root - = [{a: 1, b: [1]}, {a: 3, b: [3]}];
@ v
< tydi-trace 1
< cycles 4
< stream - lanes 1 dims 1 level 1 element 8 user 0 forward
< stream b lanes 1 dims 2 level 1 element 2 user 0 forward
< 1 1 d=01 l=0 b=1
< 1 1 d=1 l=0 b=1
< 1 1 d=02 l=1 b=1
< 1 1 d=2 l=1 b=1
< 0 1 -
< 1 1 d=3 l=3 b=1
< 0 1 -
< 0 1 -
> differs stream - item 1 at 0.1 cycle 1 want 0x03 got 0x02
> differs stream b item 1 at 0.0.1 cycle 1 want close 0 got 0x2
= 6
# elements without bits
$ compare p n::s.p v t
~ namespace n { type t = Stream(data: Null, throughput: 1, dimensionality: 1, complexity: 1, keep: true); streamlet s = (p: in t); }
@ p
~ root - = [null, null];
@ v
< tydi-trace 1
< cycles 2
< stream - lanes 1 dims 1 level 1 element 0 user 0 forward
< 1 1 l=0 b=1
< 1 1 l=1 b=0
> differs stream - item 1 at 0.1 cycle 1 want 0x got close 0
= 6
# bits that a narrow variant leaves unused are compared too
$ compare p n::s.p v t
~ namespace n { type t = Stream(data: Union(a: Bits(8), b: Bits(4), c: Null), complexity: 1); streamlet s = (p: in t); }
@ p
~ root - = b(5);
@ v
< tydi-trace 1
< cycles 1
< stream - lanes 1 dims 0 level 1 element 10 user 0 forward
< 1 1 d=115
> differs stream - item 0 at 0 cycle 0 want 0x015 got 0x115
= 6
# a violation of a rule is no matter
$ compare p n::s.p v t
~ namespace n { type t = Stream(data: Bits(8), throughput: 1, dimensionality: 1, complexity: 1); streamlet s = (p: in t); }
@ p
~ root - = [1, 2] [3];
@ v
< tydi-trace 1
< cycles 4
< stream - lanes 1 dims 1 level 1 element 8 user 0 forward
< 1 0 d=09 l=0 b=1
< 1 1 d=01 l=0 b=1
< 1 1 d=02 l=1 b=1
< 1 1 d=03 l=1 b=1
> same
= 0
";

/// Why some are not compared.
pub(crate) const UNCOMPARED: &str = "\
# the heads of another port
$ compare p n::s.p v t
~ namespace n { type t = Stream(data: Bits(8), throughput: 1, dimensionality: 1, complexity: 1); streamlet s = (p: in t); }
@ p
~ root - = [1];
@ v
< tydi-trace 1
< cycles 3
< stream - lanes 1 dims 1 level 2 element 8 user 0 forward
< 1 1 d=01 l=0 b=1
< 1 1 d=02 l=1 b=1
< 1 1 d=03 l=1 b=1
! tydi: OtherHeader t 0
= 1
# a stream too many
$ compare p n::s.p v t
~ namespace n { type t = Stream(data: Group(a: Bits(8), b: Stream(data: Bits(2), throughput: 1, dimensionality: 1, synchronicity: Sync, complexity: 1)), throughput: 1, dimensionality: 1, complexity: 1); streamlet s = (p: in t); }
@ p
~ root - = [{a: 1, b: []}];
@ v
< tydi-trace 1
< cycles 0
< stream - lanes 1 dims 1 level 1 element 8 user 0 forward
< stream b lanes 1 dims 2 level 1 element 2 user 0 forward
< stream c lanes 1 dims 0 level 1 element 2 user 0 forward
! tydi: OtherHeader t 2
= 1
# a stream too few
$ compare p n::s.p v t
~ namespace n { type t = Stream(data: Group(a: Bits(8), b: Stream(data: Bits(2), throughput: 1, dimensionality: 1, synchronicity: Sync, complexity: 1)), throughput: 1, dimensionality: 1, complexity: 1); streamlet s = (p: in t); }
@ p
~ root - = [{a: 1, b: []}];
@ v
< tydi-trace 1
< cycles 0
< stream - lanes 1 dims 1 level 1 element 8 user 0 forward
! tydi: OtherHeader t 1
= 1
# no such port
$ compare p n::s.q v t
~ namespace n { type t = Stream(data: Bits(8), throughput: 1, dimensionality: 1, complexity: 1); streamlet s = (p: in t); }
@ p
~ root - = [1];
@ v
< tydi-trace 1
< cycles 3
< stream - lanes 1 dims 1 level 1 element 8 user 0 forward
< 1 1 d=01 l=0 b=1
< 1 1 d=02 l=1 b=1
< 1 1 d=03 l=1 b=1
! tydi: NoPort n::s.q
= 1
# two streams of one path
$ compare p n::s.p v t
~ namespace n { type t = Stream(data: Stream(data: Bits(1)), user: Bits(1)); streamlet s = (p: in t); }
@ p
~ root - = [1];
@ v
< tydi-trace 1
< cycles 3
< stream - lanes 1 dims 1 level 1 element 8 user 0 forward
< 1 1 d=01 l=0 b=1
< 1 1 d=02 l=1 b=1
< 1 1 d=03 l=1 b=1
! tydi: NameClash -
= 1
# a node that is not carried
$ compare p n::s.p v t
~ namespace n { type t = Stream(data: Null, complexity: 1); streamlet s = (p: in t); }
@ p
~ root - = [1];
@ v
< tydi-trace 1
< cycles 3
< stream - lanes 1 dims 1 level 1 element 8 user 0 forward
< 1 1 d=01 l=0 b=1
< 1 1 d=02 l=1 b=1
< 1 1 d=03 l=1 b=1
! tydi: NoCarrier -
= 1
# an error of the value, before the trace is read
$ compare p n::s.p v t
~ namespace n { type t = Stream(data: Bits(8), throughput: 1, dimensionality: 1, complexity: 1); streamlet s = (p: in t); }
@ p
~ root - = [256];
@ v
< no trace
! tydi: OutOfRange v 1:11
= 1
$ compare p n::s.p v t
~ namespace n { type t = Stream(data: Bits(8), throughput: 1, dimensionality: 1, complexity: 1); streamlet s = (p: in t); }
@ p
~ root - = [1;
@ v
< no trace
! tydi: Syntax v 1:12
= 1
# an error of the text of the trace, before its heads
$ compare p n::s.p v t
~ namespace n { type t = Stream(data: Bits(8), throughput: 1, dimensionality: 1, complexity: 1); streamlet s = (p: in t); }
@ p
~ root - = [1];
@ v
< tydi-trace 1
< cycles 2
< stream - lanes 1 dims 0 level 1 element 8 user 0 forward
< 1 1 d=01
! tydi: RowsMissing t 2 1
= 1
$ compare p n::s.p v t
~ namespace n { type t = Stream(data: Bits(8), throughput: 1, dimensionality: 1, complexity: 1); streamlet s = (p: in t); }
@ p
~ root - = [1];
@ v
< tydi-trace 1
< cycles 1
< stream - lanes 1 dims 1 level 1 element 8 user 0 forward
< 1 1 d=1 l=1 b=1
! tydi: WrongSignals t 4
= 1
# files that are not there
$ compare p n::s.p v u
~ namespace n { type t = Stream(data: Bits(8), throughput: 1, dimensionality: 1, complexity: 1); streamlet s = (p: in t); }
@ p
~ root - = [1];
@ v
! tydi: NoFile u
= 1
$ compare p n::s.p v t
~ namespace n { type t = Stream(data: Bits(8), throughput: 1, dimensionality: 1, complexity: 1); streamlet s = (p: in t); }
@ p
< tydi-trace 1
< cycles 3
< stream - lanes 1 dims 1 level 1 element 8 user 0 forward
< 1 1 d=01 l=0 b=1
< 1 1 d=02 l=1 b=1
< 1 1 d=03 l=1 b=1
! tydi: NoFile v
= 1
$ compare p n::s.p v t
~ root - = [1];
@ v
< tydi-trace 1
< cycles 3
< stream - lanes 1 dims 1 level 1 element 8 user 0 forward
< 1 1 d=01 l=0 b=1
< 1 1 d=02 l=1 b=1
< 1 1 d=03 l=1 b=1
! tydi: NoFile p
= 1
# words that spell no command
$ compare p n::s.p v
! tydi: Usage
= 2
$ compare p n::s.p v t t
! tydi: Usage
= 2
$ compare p n::s.p -v t
! tydi: Usage
= 2
";
