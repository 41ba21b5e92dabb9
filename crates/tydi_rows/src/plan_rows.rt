//! Rows of the texts of plans. The project stands in the file `p`, a value in `v`, and the text of a plan in `q`. The places were counted by a script
//! that has none of the reader's rules.

/// Plans whose first two lines are wrong.
pub(crate) const PLAN_HEADERS: &str = "\
$ drive p a::s.p v q
~ namespace a { streamlet s = (p: in Stream(data: Bits(8), throughput: 4, dimensionality: 1, complexity: 8, user: Bits(4))); }
@ p
~ root - = [1];
@ v
@ q
! tydi: Syntax q 1:1
= 1
$ drive p a::s.p v q
~ namespace a { streamlet s = (p: in Stream(data: Bits(8), throughput: 4, dimensionality: 1, complexity: 8, user: Bits(4))); }
@ p
~ root - = [1];
@ v
< // only
@ q
! tydi: Syntax q 2:1
= 1
$ drive p a::s.p v q
~ namespace a { streamlet s = (p: in Stream(data: Bits(8), throughput: 4, dimensionality: 1, complexity: 8, user: Bits(4))); }
@ p
~ root - = [1];
@ v
< // only
< 
~ // comments
@ q
! tydi: Syntax q 3:12
= 1
$ drive p a::s.p v q
~ namespace a { streamlet s = (p: in Stream(data: Bits(8), throughput: 4, dimensionality: 1, complexity: 8, user: Bits(4))); }
@ p
~ root - = [1];
@ v
< 
< 
@ q
! tydi: Syntax q 3:1
= 1
$ drive p a::s.p v q
~ namespace a { streamlet s = (p: in Stream(data: Bits(8), throughput: 4, dimensionality: 1, complexity: 8, user: Bits(4))); }
@ p
~ root - = [1];
@ v
< tydi-plan 1
@ q
! tydi: Syntax q 2:1
= 1
$ drive p a::s.p v q
~ namespace a { streamlet s = (p: in Stream(data: Bits(8), throughput: 4, dimensionality: 1, complexity: 8, user: Bits(4))); }
@ p
~ root - = [1];
@ v
~ tydi-plan 1
@ q
! tydi: Syntax q 1:12
= 1
$ drive p a::s.p v q
~ namespace a { streamlet s = (p: in Stream(data: Bits(8), throughput: 4, dimensionality: 1, complexity: 8, user: Bits(4))); }
@ p
~ root - = [1];
@ v
< tydi-plan 1
< // cycles 4
@ q
! tydi: Syntax q 3:1
= 1
$ drive p a::s.p v q
~ namespace a { streamlet s = (p: in Stream(data: Bits(8), throughput: 4, dimensionality: 1, complexity: 8, user: Bits(4))); }
@ p
~ root - = [1];
@ v
< tydi-plan 2
< cycles 4
@ q
! tydi: Syntax q 1:1
= 1
$ drive p a::s.p v q
~ namespace a { streamlet s = (p: in Stream(data: Bits(8), throughput: 4, dimensionality: 1, complexity: 8, user: Bits(4))); }
@ p
~ root - = [1];
@ v
~ tydi-plan 1
* 1 13
* 1 10
< cycles 4
@ q
! tydi: Syntax q 1:1
= 1
$ drive p a::s.p v q
~ namespace a { streamlet s = (p: in Stream(data: Bits(8), throughput: 4, dimensionality: 1, complexity: 8, user: Bits(4))); }
@ p
~ root - = [1];
@ v
<  tydi-plan 1
< cycles 4
@ q
! tydi: Syntax q 1:1
= 1
$ drive p a::s.p v q
~ namespace a { streamlet s = (p: in Stream(data: Bits(8), throughput: 4, dimensionality: 1, complexity: 8, user: Bits(4))); }
@ p
~ root - = [1];
@ v
< // a plan
< cycles 4
@ q
! tydi: Syntax q 2:1
= 1
$ drive p a::s.p v q
~ namespace a { streamlet s = (p: in Stream(data: Bits(8), throughput: 4, dimensionality: 1, complexity: 8, user: Bits(4))); }
@ p
~ root - = [1];
@ v
< tydi-plan 1
~ cycles 4
* 1 13
* 1 10
@ q
! tydi: Syntax q 2:1
= 1
$ drive p a::s.p v q
~ namespace a { streamlet s = (p: in Stream(data: Bits(8), throughput: 4, dimensionality: 1, complexity: 8, user: Bits(4))); }
@ p
~ root - = [1];
@ v
< tydi-plan 1
< cycles 4 
@ q
! tydi: Syntax q 2:1
= 1
$ drive p a::s.p v q
~ namespace a { streamlet s = (p: in Stream(data: Bits(8), throughput: 4, dimensionality: 1, complexity: 8, user: Bits(4))); }
@ p
~ root - = [1];
@ v
< tydi-plan 1
< cycles 04
@ q
! tydi: Syntax q 2:1
= 1
$ drive p a::s.p v q
~ namespace a { streamlet s = (p: in Stream(data: Bits(8), throughput: 4, dimensionality: 1, complexity: 8, user: Bits(4))); }
@ p
~ root - = [1];
@ v
< tydi-plan 1
< cycles 
@ q
! tydi: Syntax q 2:1
= 1
$ drive p a::s.p v q
~ namespace a { streamlet s = (p: in Stream(data: Bits(8), throughput: 4, dimensionality: 1, complexity: 8, user: Bits(4))); }
@ p
~ root - = [1];
@ v
< tydi-plan 1
< cycles +4
@ q
! tydi: Syntax q 2:1
= 1
$ drive p a::s.p v q
~ namespace a { streamlet s = (p: in Stream(data: Bits(8), throughput: 4, dimensionality: 1, complexity: 8, user: Bits(4))); }
@ p
~ root - = [1];
@ v
< tydi-plan 1
~ 
* 1 13
* 1 10
< cycles 4
@ q
! tydi: Syntax q 2:1
= 1
$ drive p a::s.p v q
~ namespace a { streamlet s = (p: in Stream(data: Bits(8), throughput: 4, dimensionality: 1, complexity: 8, user: Bits(4))); }
@ p
~ root - = [1];
@ v
< tydi-plan 1
< cycles 1000001
@ q
! tydi: TooManyCycles q 2:1
= 1
$ drive p a::s.p v q
~ namespace a { streamlet s = (p: in Stream(data: Bits(8), throughput: 4, dimensionality: 1, complexity: 8, user: Bits(4))); }
@ p
~ root - = [1];
@ v
< // p
< tydi-plan 1
< 
~ cycles 1000001
@ q
! tydi: TooManyCycles q 4:1
= 1
$ drive p a::s.p v q
~ namespace a { streamlet s = (p: in Stream(data: Bits(8), throughput: 4, dimensionality: 1, complexity: 8, user: Bits(4))); }
@ p
~ root - = [1];
@ v
< tydi-plan 1
< cycles 18446744073709551616
@ q
! tydi: TooManyCycles q 2:1
= 1
$ drive p a::s.p v q
~ namespace a { streamlet s = (p: in Stream(data: Bits(8), throughput: 4, dimensionality: 1, complexity: 8, user: Bits(4))); }
@ p
~ root - = [1];
@ v
< tydi-plan 1
< cycles 99999999999999999999999999999999999999999999999999
< gaps
@ q
! tydi: TooManyCycles q 2:1
= 1
";

/// Plans with a wrong line of a block.
pub(crate) const PLAN_LINES: &str = "\
$ drive p a::s.p v q
~ namespace a { streamlet s = (p: in Stream(data: Bits(8), throughput: 4, dimensionality: 1, complexity: 8, user: Bits(4))); }
@ p
~ root - = [1];
@ v
< tydi-plan 1
< cycles 4
< gaps 1
@ q
! tydi: Syntax q 3:1
= 1
$ drive p a::s.p v q
~ namespace a { streamlet s = (p: in Stream(data: Bits(8), throughput: 4, dimensionality: 1, complexity: 8, user: Bits(4))); }
@ p
~ root - = [1];
@ v
< tydi-plan 1
< cycles 4
< ready 1111
@ q
! tydi: Syntax q 3:1
= 1
$ drive p a::s.p v q
~ namespace a { streamlet s = (p: in Stream(data: Bits(8), throughput: 4, dimensionality: 1, complexity: 8, user: Bits(4))); }
@ p
~ root - = [1];
@ v
< tydi-plan 1
< cycles 4
< cycles 4
@ q
! tydi: Syntax q 3:1
= 1
$ drive p a::s.p v q
~ namespace a { streamlet s = (p: in Stream(data: Bits(8), throughput: 4, dimensionality: 1, complexity: 8, user: Bits(4))); }
@ p
~ root - = [1];
@ v
< tydi-plan 1
< cycles 4
< stream -
< gaps
@ q
! tydi: Syntax q 4:1
= 1
$ drive p a::s.p v q
~ namespace a { streamlet s = (p: in Stream(data: Bits(8), throughput: 4, dimensionality: 1, complexity: 8, user: Bits(4))); }
@ p
~ root - = [1];
@ v
< tydi-plan 1
< cycles 4
< stream -
< gaps 
@ q
! tydi: Syntax q 4:1
= 1
$ drive p a::s.p v q
~ namespace a { streamlet s = (p: in Stream(data: Bits(8), throughput: 4, dimensionality: 1, complexity: 8, user: Bits(4))); }
@ p
~ root - = [1];
@ v
< tydi-plan 1
< cycles 4
< stream -
< gaps 1  2
@ q
! tydi: Syntax q 4:1
= 1
$ drive p a::s.p v q
~ namespace a { streamlet s = (p: in Stream(data: Bits(8), throughput: 4, dimensionality: 1, complexity: 8, user: Bits(4))); }
@ p
~ root - = [1];
@ v
< tydi-plan 1
< cycles 4
< stream -
~ gaps 1 
@ q
! tydi: Syntax q 4:1
= 1
$ drive p a::s.p v q
~ namespace a { streamlet s = (p: in Stream(data: Bits(8), throughput: 4, dimensionality: 1, complexity: 8, user: Bits(4))); }
@ p
~ root - = [1];
@ v
< tydi-plan 1
< cycles 4
< stream -
< gaps 01
@ q
! tydi: Syntax q 4:1
= 1
$ drive p a::s.p v q
~ namespace a { streamlet s = (p: in Stream(data: Bits(8), throughput: 4, dimensionality: 1, complexity: 8, user: Bits(4))); }
@ p
~ root - = [1];
@ v
< tydi-plan 1
< cycles 4
< stream -
< gaps 1000001
@ q
! tydi: Syntax q 4:1
= 1
$ drive p a::s.p v q
~ namespace a { streamlet s = (p: in Stream(data: Bits(8), throughput: 4, dimensionality: 1, complexity: 8, user: Bits(4))); }
@ p
~ root - = [1];
@ v
< tydi-plan 1
< cycles 4
< stream -
< gaps 18446744073709551617
@ q
! tydi: Syntax q 4:1
= 1
$ drive p a::s.p v q
~ namespace a { streamlet s = (p: in Stream(data: Bits(8), throughput: 4, dimensionality: 1, complexity: 8, user: Bits(4))); }
@ p
~ root - = [1];
@ v
< tydi-plan 1
< cycles 4
< stream -
~ gaps 1
* 1 13
* 1 10
@ q
! tydi: Syntax q 4:1
= 1
$ drive p a::s.p v q
~ namespace a { streamlet s = (p: in Stream(data: Bits(8), throughput: 4, dimensionality: 1, complexity: 8, user: Bits(4))); }
@ p
~ root - = [1];
@ v
< tydi-plan 1
< cycles 4
< stream -
< gap 1
@ q
! tydi: Syntax q 4:1
= 1
$ drive p a::s.p v q
~ namespace a { streamlet s = (p: in Stream(data: Bits(8), throughput: 4, dimensionality: 1, complexity: 8, user: Bits(4))); }
@ p
~ root - = [1];
@ v
< tydi-plan 1
< cycles 4
< stream -
< gaps 1
< gaps 2
@ q
! tydi: Syntax q 5:1
= 1
$ drive p a::s.p v q
~ namespace a { streamlet s = (p: in Stream(data: Bits(8), throughput: 4, dimensionality: 1, complexity: 8, user: Bits(4))); }
@ p
~ root - = [1];
@ v
< tydi-plan 1
< cycles 4
< stream -
< ready 1111
< gaps 1
@ q
! tydi: Syntax q 5:1
= 1
$ drive p a::s.p v q
~ namespace a { streamlet s = (p: in Stream(data: Bits(8), throughput: 4, dimensionality: 1, complexity: 8, user: Bits(4))); }
@ p
~ root - = [1];
@ v
< tydi-plan 1
< cycles 4
< stream -
< users 1
< wishes 1
@ q
! tydi: Syntax q 5:1
= 1
$ drive p a::s.p v q
~ namespace a { streamlet s = (p: in Stream(data: Bits(8), throughput: 4, dimensionality: 1, complexity: 8, user: Bits(4))); }
@ p
~ root - = [1];
@ v
< tydi-plan 1
< cycles 4
< stream -
< users 1
< // again
< users 1
@ q
! tydi: Syntax q 6:1
= 1
$ drive p a::s.p v q
~ namespace a { streamlet s = (p: in Stream(data: Bits(8), throughput: 4, dimensionality: 1, complexity: 8, user: Bits(4))); }
@ p
~ root - = [1];
@ v
< tydi-plan 1
< cycles 4
< stream -
< wishes 1
~ ready 1111
@ q
! tydi: Syntax q 5:1
= 1
$ drive p a::s.p v q
~ namespace a { streamlet s = (p: in Stream(data: Bits(8), throughput: 4, dimensionality: 1, complexity: 8, user: Bits(4))); }
@ p
~ root - = [1];
@ v
< tydi-plan 1
< cycles 4
< stream -
< ready 1111
< ready 1111
@ q
! tydi: Syntax q 5:1
= 1
$ drive p a::s.p v q
~ namespace a { streamlet s = (p: in Stream(data: Bits(8), throughput: 4, dimensionality: 1, complexity: 8, user: Bits(4))); }
@ p
~ root - = [1];
@ v
< tydi-plan 1
< cycles 4
< stream -
< ready 111
@ q
! tydi: ReadyLength q 4:1
= 1
$ drive p a::s.p v q
~ namespace a { streamlet s = (p: in Stream(data: Bits(8), throughput: 4, dimensionality: 1, complexity: 8, user: Bits(4))); }
@ p
~ root - = [1];
@ v
< tydi-plan 1
< cycles 4
< stream -
< ready 11111
< gaps 1
@ q
! tydi: ReadyLength q 4:1
= 1
$ drive p a::s.p v q
~ namespace a { streamlet s = (p: in Stream(data: Bits(8), throughput: 4, dimensionality: 1, complexity: 8, user: Bits(4))); }
@ p
~ root - = [1];
@ v
< tydi-plan 1
< cycles 4
< stream -
< // short
< 
~ ready 1
@ q
! tydi: ReadyLength q 6:1
= 1
$ drive p a::s.p v q
~ namespace a { streamlet s = (p: in Stream(data: Bits(8), throughput: 4, dimensionality: 1, complexity: 8, user: Bits(4))); }
@ p
~ root - = [1];
@ v
< tydi-plan 1
< cycles 0
< stream -
< ready 1
@ q
! tydi: ReadyLength q 4:1
= 1
$ drive p a::s.p v q
~ namespace a { streamlet s = (p: in Stream(data: Bits(8), throughput: 4, dimensionality: 1, complexity: 8, user: Bits(4))); }
@ p
~ root - = [1];
@ v
< tydi-plan 1
< cycles 0
< stream -
< ready 
@ q
! tydi: Syntax q 4:1
= 1
$ drive p a::s.p v q
~ namespace a { streamlet s = (p: in Stream(data: Bits(8), throughput: 4, dimensionality: 1, complexity: 8, user: Bits(4))); }
@ p
~ root - = [1];
@ v
< tydi-plan 1
< cycles 4
< stream -
< ready 112
@ q
! tydi: Syntax q 4:1
= 1
$ drive p a::s.p v q
~ namespace a { streamlet s = (p: in Stream(data: Bits(8), throughput: 4, dimensionality: 1, complexity: 8, user: Bits(4))); }
@ p
~ root - = [1];
@ v
< tydi-plan 1
< cycles 4
< stream -
< ready 11 11
@ q
! tydi: Syntax q 4:1
= 1
$ drive p a::s.p v q
~ namespace a { streamlet s = (p: in Stream(data: Bits(8), throughput: 4, dimensionality: 1, complexity: 8, user: Bits(4))); }
@ p
~ root - = [1];
@ v
< tydi-plan 1
< cycles 4
< stream -
< ready 1111 
@ q
! tydi: Syntax q 4:1
= 1
$ drive p a::s.p v q
~ namespace a { streamlet s = (p: in Stream(data: Bits(8), throughput: 4, dimensionality: 1, complexity: 8, user: Bits(4))); }
@ p
~ root - = [1];
@ v
< tydi-plan 1
< cycles 4
< stream -
~ ready 1111
* 1 13
* 1 10
@ q
! tydi: Syntax q 4:1
= 1
";

/// Plans with a wrong wish or user word.
pub(crate) const PLAN_WISHES: &str = "\
$ drive p a::s.p v q
~ namespace a { streamlet s = (p: in Stream(data: Bits(8), throughput: 4, dimensionality: 1, complexity: 8, user: Bits(4))); }
@ p
~ root - = [1];
@ v
< tydi-plan 1
< cycles 4
< stream -
< wishes 10
@ q
! tydi: MaskTooWide q 4:1
= 1
$ drive p a::s.p v q
~ namespace a { streamlet s = (p: in Stream(data: Bits(8), throughput: 4, dimensionality: 1, complexity: 8, user: Bits(4))); }
@ p
~ root - = [1];
@ v
< tydi-plan 1
< cycles 4
< stream -
< wishes f 1f+late
< gaps 1
@ q
! tydi: MaskTooWide q 4:1
= 1
$ drive p a::s.p v q
~ namespace a { streamlet s = (p: in Stream(data: Bits(8), throughput: 4, dimensionality: 1, complexity: 8, user: Bits(4))); }
@ p
~ root - = [1];
@ v
< tydi-plan 1
< cycles 4
< stream -
< // wide
~ wishes ffffffffffffffffffffffffffffffff
@ q
! tydi: MaskTooWide q 5:1
= 1
$ drive p a::s.p v q
~ namespace a { streamlet s = (p: in Stream(data: Bits(8), throughput: 4, dimensionality: 1, complexity: 8, user: Bits(4))); }
@ p
~ root - = [1];
@ v
< tydi-plan 1
< cycles 4
< stream -
< wishes 10 g
@ q
! tydi: Syntax q 4:1
= 1
$ drive p a::s.p v q
~ namespace a { streamlet s = (p: in Stream(data: Bits(8), throughput: 4, dimensionality: 1, complexity: 8, user: Bits(4))); }
@ p
~ root - = [1];
@ v
< tydi-plan 1
< cycles 4
< stream -
< gaps 01
< wishes 10
@ q
! tydi: Syntax q 4:1
= 1
$ drive p a::s.p v q
~ namespace a { streamlet s = (p: in Stream(data: Bits(8), throughput: 4, dimensionality: 1, complexity: 8, user: Bits(4))); }
@ p
~ root - = [1];
@ v
< tydi-plan 1
< cycles 4
< stream -
< wishes 000000000000000000000000000000001
@ q
! tydi: Syntax q 4:1
= 1
$ drive p a::s.p v q
~ namespace a { streamlet s = (p: in Stream(data: Bits(8), throughput: 4, dimensionality: 1, complexity: 8, user: Bits(4))); }
@ p
~ root - = [1];
@ v
< tydi-plan 1
< cycles 4
< stream -
< wishes f+laned+late
@ q
! tydi: Syntax q 4:1
= 1
$ drive p a::s.p v q
~ namespace a { streamlet s = (p: in Stream(data: Bits(8), throughput: 4, dimensionality: 1, complexity: 8, user: Bits(4))); }
@ p
~ root - = [1];
@ v
< tydi-plan 1
< cycles 4
< stream -
< wishes +late
@ q
! tydi: Syntax q 4:1
= 1
$ drive p a::s.p v q
~ namespace a { streamlet s = (p: in Stream(data: Bits(8), throughput: 4, dimensionality: 1, complexity: 8, user: Bits(4))); }
@ p
~ root - = [1];
@ v
< tydi-plan 1
< cycles 4
< stream -
< wishes f+
@ q
! tydi: Syntax q 4:1
= 1
$ drive p a::s.p v q
~ namespace a { streamlet s = (p: in Stream(data: Bits(8), throughput: 4, dimensionality: 1, complexity: 8, user: Bits(4))); }
@ p
~ root - = [1];
@ v
< tydi-plan 1
< cycles 4
< stream -
< wishes f+late+late
@ q
! tydi: Syntax q 4:1
= 1
$ drive p a::s.p v q
~ namespace a { streamlet s = (p: in Stream(data: Bits(8), throughput: 4, dimensionality: 1, complexity: 8, user: Bits(4))); }
@ p
~ root - = [1];
@ v
< tydi-plan 1
< cycles 4
< stream -
< wishes F
@ q
! tydi: Syntax q 4:1
= 1
$ drive p a::s.p v q
~ namespace a { streamlet s = (p: in Stream(data: Bits(8), throughput: 4, dimensionality: 1, complexity: 8, user: Bits(4))); }
@ p
~ root - = [1];
@ v
< tydi-plan 1
< cycles 4
< stream -
< wishes 0xf
@ q
! tydi: Syntax q 4:1
= 1
$ drive p a::s.p v q
~ namespace a { streamlet s = (p: in Stream(data: Bits(8), throughput: 4, dimensionality: 1, complexity: 8, user: Bits(4))); }
@ p
~ root - = [1];
@ v
< tydi-plan 1
< cycles 4
< stream -
< users 10
@ q
! tydi: UserTooWide q 4:1
= 1
$ drive p a::s.p v q
~ namespace a { streamlet s = (p: in Stream(data: Bits(8), throughput: 4, dimensionality: 1, complexity: 8, user: Bits(4))); }
@ p
~ root - = [1];
@ v
< tydi-plan 1
< cycles 4
< stream -
< users a 1f
< gaps 1
@ q
! tydi: UserTooWide q 4:1
= 1
$ drive p a::s.p v q
~ namespace a { streamlet s = (p: in Stream(data: Bits(8), throughput: 4, dimensionality: 1, complexity: 8, user: Bits(4))); }
@ p
~ root - = [1];
@ v
< tydi-plan 1
< cycles 4
< stream -
< gaps 1
< 
~ users 10000000000000000000000000000000000000
@ q
! tydi: UserTooWide q 6:1
= 1
$ drive p a::s.p v q
~ namespace a { streamlet s = (p: in Stream(data: Bits(8), throughput: 4, dimensionality: 1, complexity: 8, user: Bits(4))); }
@ p
~ root - = [1];
@ v
< tydi-plan 1
< cycles 4
< stream -
< users 10 g
@ q
! tydi: Syntax q 4:1
= 1
$ drive p a::s.p v q
~ namespace a { streamlet s = (p: in Stream(data: Bits(8), throughput: 4, dimensionality: 1, complexity: 8, user: Bits(4))); }
@ p
~ root - = [1];
@ v
< tydi-plan 1
< cycles 4
< stream -
< users A
@ q
! tydi: Syntax q 4:1
= 1
$ drive p a::s.p v q
~ namespace a { streamlet s = (p: in Stream(data: Bits(8), throughput: 4, dimensionality: 1, complexity: 8, user: Bits(4))); }
@ p
~ root - = [1];
@ v
< tydi-plan 1
< cycles 4
< stream -
< users
@ q
! tydi: Syntax q 4:1
= 1
$ drive p a::s.p v q
~ namespace a { streamlet s = (p: in Stream(data: Group(a: Bits(8), b: Stream(data: Bits(8), throughput: 2, dimensionality: 1)), throughput: 2)); }
@ p
~ root - = {a: 1, b: [2]};
@ v
< tydi-plan 1
< cycles 2
< stream b
< wishes c
< stream -
< wishes c
@ q
! tydi: MaskTooWide q 6:1
= 1
$ drive p a::s.p v q
~ namespace a { streamlet s = (p: in Stream(data: Group(a: Bits(8), b: Stream(data: Bits(8), throughput: 2, dimensionality: 1)), throughput: 2)); }
@ p
~ root - = {a: 1, b: [2]};
@ v
< tydi-plan 1
< cycles 2
< stream b
< users 1
@ q
! tydi: UserTooWide q 4:1
= 1
";

/// Plans with a wrong line of two streams.
pub(crate) const PLAN_STREAMS: &str = "\
$ drive p a::s.p v q
~ namespace a { streamlet s = (p: in Stream(data: Group(a: Bits(8), b: Stream(data: Bits(8), throughput: 2, dimensionality: 1)), throughput: 2)); }
@ p
~ root - = {a: 1, b: [2]};
@ v
< tydi-plan 1
< cycles 2
< stream a
@ q
! tydi: UnknownStream q 3:1
= 1
$ drive p a::s.p v q
~ namespace a { streamlet s = (p: in Stream(data: Group(a: Bits(8), b: Stream(data: Bits(8), throughput: 2, dimensionality: 1)), throughput: 2)); }
@ p
~ root - = {a: 1, b: [2]};
@ v
< tydi-plan 1
< cycles 2
< // no b.c
< stream b.c
< stream b.c
@ q
! tydi: UnknownStream q 4:1
= 1
$ drive p a::s.p v q
~ namespace a { streamlet s = (p: in Stream(data: Group(a: Bits(8), b: Stream(data: Bits(8), throughput: 2, dimensionality: 1)), throughput: 2)); }
@ p
~ root - = {a: 1, b: [2]};
@ v
< tydi-plan 1
< cycles 2
< stream b
< gaps 1
< stream x
< gaps x
@ q
! tydi: UnknownStream q 5:1
= 1
$ drive p a::s.p v q
~ namespace a { streamlet s = (p: in Stream(data: Group(a: Bits(8), b: Stream(data: Bits(8), throughput: 2, dimensionality: 1)), throughput: 2)); }
@ p
~ root - = {a: 1, b: [2]};
@ v
< tydi-plan 1
< cycles 2
< stream b
< stream B
@ q
! tydi: UnknownStream q 4:1
= 1
$ drive p a::s.p v q
~ namespace a { streamlet s = (p: in Stream(data: Group(a: Bits(8), b: Stream(data: Bits(8), throughput: 2, dimensionality: 1)), throughput: 2)); }
@ p
~ root - = {a: 1, b: [2]};
@ v
< tydi-plan 1
< cycles 2
< stream Null
@ q
! tydi: Syntax q 3:1
= 1
$ drive p a::s.p v q
~ namespace a { streamlet s = (p: in Stream(data: Group(a: Bits(8), b: Stream(data: Bits(8), throughput: 2, dimensionality: 1)), throughput: 2)); }
@ p
~ root - = {a: 1, b: [2]};
@ v
< tydi-plan 1
< cycles 2
< stream
@ q
! tydi: Syntax q 3:1
= 1
$ drive p a::s.p v q
~ namespace a { streamlet s = (p: in Stream(data: Group(a: Bits(8), b: Stream(data: Bits(8), throughput: 2, dimensionality: 1)), throughput: 2)); }
@ p
~ root - = {a: 1, b: [2]};
@ v
< tydi-plan 1
< cycles 2
< stream  b
@ q
! tydi: Syntax q 3:1
= 1
$ drive p a::s.p v q
~ namespace a { streamlet s = (p: in Stream(data: Group(a: Bits(8), b: Stream(data: Bits(8), throughput: 2, dimensionality: 1)), throughput: 2)); }
@ p
~ root - = {a: 1, b: [2]};
@ v
< tydi-plan 1
< cycles 2
< stream b 
@ q
! tydi: Syntax q 3:1
= 1
$ drive p a::s.p v q
~ namespace a { streamlet s = (p: in Stream(data: Group(a: Bits(8), b: Stream(data: Bits(8), throughput: 2, dimensionality: 1)), throughput: 2)); }
@ p
~ root - = {a: 1, b: [2]};
@ v
< tydi-plan 1
< cycles 2
~ stream b
* 1 13
* 1 10
@ q
! tydi: Syntax q 3:1
= 1
$ drive p a::s.p v q
~ namespace a { streamlet s = (p: in Stream(data: Group(a: Bits(8), b: Stream(data: Bits(8), throughput: 2, dimensionality: 1)), throughput: 2)); }
@ p
~ root - = {a: 1, b: [2]};
@ v
< tydi-plan 1
< cycles 2
< stream b-
@ q
! tydi: Syntax q 3:1
= 1
$ drive p a::s.p v q
~ namespace a { streamlet s = (p: in Stream(data: Bits(8), throughput: 4, dimensionality: 1, complexity: 8, user: Bits(4))); }
@ p
~ root - = [1];
@ v
< tydi-plan 1
< cycles 4
< stream -
< stream -
@ q
! tydi: StreamTwice q 4:1
= 1
$ drive p a::s.p v q
~ namespace a { streamlet s = (p: in Stream(data: Bits(8), throughput: 4, dimensionality: 1, complexity: 8, user: Bits(4))); }
@ p
~ root - = [1];
@ v
< tydi-plan 1
< cycles 4
< stream -
< gaps 1
~ stream -
@ q
! tydi: StreamTwice q 5:1
= 1
$ drive p a::s.p v q
~ namespace a { streamlet s = (p: in Stream(data: Group(a: Bits(8), b: Stream(data: Bits(8), throughput: 2, dimensionality: 1)), throughput: 2)); }
@ p
~ root - = {a: 1, b: [2]};
@ v
< tydi-plan 1
< cycles 2
< stream b
< stream -
< stream b
< gaps 1
@ q
! tydi: StreamTwice q 5:1
= 1
$ drive p a::s.p v q
~ namespace a { streamlet s = (p: in Stream(data: Group(a: Bits(8), b: Stream(data: Bits(8), throughput: 2, dimensionality: 1)), throughput: 2)); }
@ p
~ root - = {a: 1, b: [2]};
@ v
< tydi-plan 1
< cycles 2
< stream b
< 
< // again
~ stream b
@ q
! tydi: StreamTwice q 6:1
= 1
";
