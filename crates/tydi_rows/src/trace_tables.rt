//! Rows of `check`.

/// Each kind of answer.
pub(crate) const KINDS: &str = "\
# legal
$ check t
< tydi-trace 1
< cycles 2
< stream - lanes 1 dims 1 level 1 element 8 user 0 forward
< 1 1 d=48 l=0 b=1
< 1 1 d=69 l=1 b=1
> legal
> stream - transfers 2 packets 1
= 0
# an offence
$ check t
< tydi-trace 1
< cycles 1
< stream - lanes 2 dims 1 level 7 element 8 user 0 forward
< 1 1 d=0201 l=3 s=0 e=1 b=3
> offence cycle 0 stream - rule 3 LaneLast
= 6
# open
$ check t
< tydi-trace 1
< cycles 1
< stream - lanes 1 dims 1 level 1 element 8 user 0 forward
< 1 1 d=48 l=0 b=1
> unfinished stream - open 0
= 6
# pending
$ check t
< tydi-trace 1
< cycles 1
< stream - lanes 1 dims 1 level 1 element 8 user 0 forward
< 1 0 d=48 l=0 b=1
> unfinished stream - pending
= 6
# a fault without a number
$ check t
< tydi-trace 1
< cycles 1000001
< stream - lanes 1 dims 1 level 1 element 8 user 0 forward
! tydi: TooManyCycles t
= 1
# a fault with two numbers
$ check t
< tydi-trace 1
< cycles 2
< stream - lanes 1 dims 1 level 1 element 8 user 0 forward
< 1 1 d=48 l=0 b=1
! tydi: RowsMissing t 2 1
= 1
";

/// Legal traces and verdicts of one stream.
pub(crate) const ONE_STREAM: &str = "\
# no rows
$ check t
< tydi-trace 1
< cycles 0
< stream - lanes 1 dims 1 level 1 element 8 user 0 forward
> legal
> stream - transfers 0 packets 0
= 0
# a pause inside a packet, level 1: two rules
$ check t
< tydi-trace 1
< cycles 3
< stream - lanes 1 dims 1 level 1 element 8 user 0 forward
< 1 1 d=48 l=0 b=1
< 0 1 -
< 1 1 d=69 l=1 b=1
> offence cycle 1 stream - rule 8 InnerPause
= 6
# level 2
$ check t
< tydi-trace 1
< cycles 3
< stream - lanes 1 dims 1 level 2 element 8 user 0 forward
< 1 1 d=48 l=0 b=1
< 0 1 -
< 1 1 d=69 l=1 b=1
> offence cycle 1 stream - rule 8 InnerPause
= 6
# level 3
$ check t
< tydi-trace 1
< cycles 3
< stream - lanes 1 dims 1 level 3 element 8 user 0 forward
< 1 1 d=48 l=0 b=1
< 0 1 -
< 1 1 d=69 l=1 b=1
> legal
> stream - transfers 2 packets 1
= 0
# another payload while waiting
$ check t
< tydi-trace 1
< cycles 2
< stream - lanes 1 dims 1 level 8 element 8 user 0 forward
< 1 0 d=48 l=0 b=1
< 1 1 d=49 l=0 b=1
> offence cycle 1 stream - rule 1 Hold
= 6
# a close alone, level 3
$ check t
< tydi-trace 1
< cycles 2
< stream - lanes 1 dims 1 level 3 element 8 user 0 forward
< 1 1 d=48 l=0 b=1
< 1 1 d=00 l=1 b=0
> offence cycle 1 stream - rule 7 Empty
= 6
# level 4
$ check t
< tydi-trace 1
< cycles 2
< stream - lanes 1 dims 1 level 4 element 8 user 0 forward
< 1 1 d=48 l=0 b=1
< 1 1 d=00 l=1 b=0
> legal
> stream - transfers 2 packets 1
= 0
# two sequences in one transfer, level 7
$ check t
< tydi-trace 1
< cycles 1
< stream - lanes 2 dims 1 level 7 element 8 user 0 forward
< 1 1 d=0201 l=3 s=0 e=1 b=3
> offence cycle 0 stream - rule 3 LaneLast
= 6
# level 8
$ check t
< tydi-trace 1
< cycles 1
< stream - lanes 2 dims 1 level 8 element 8 user 0 forward
< 1 1 d=0201 l=3 s=0 e=1 b=3
> legal
> stream - transfers 1 packets 2
= 0
# an outer sequence that closes before the inner one
$ check t
< tydi-trace 1
< cycles 1
< stream - lanes 1 dims 2 level 8 element 8 user 0 forward
< 1 1 d=01 l=2 b=1
> offence cycle 0 stream - rule 10 Nest
= 6
# an open packet
$ check t
< tydi-trace 1
< cycles 1
< stream - lanes 1 dims 1 level 1 element 8 user 0 forward
< 1 1 d=48 l=0 b=1
> unfinished stream - open 0
= 6
# an open packet after the end of a sequence
$ check t
< tydi-trace 1
< cycles 1
< stream - lanes 1 dims 2 level 8 element 8 user 0 forward
< 1 1 d=01 l=1 b=1
> unfinished stream - open 1
= 6
# a transfer that waits
$ check t
< tydi-trace 1
< cycles 1
< stream - lanes 1 dims 1 level 1 element 8 user 0 forward
< 1 0 d=48 l=0 b=1
> unfinished stream - pending
= 6
# the first lane above the last one
$ check t
< tydi-trace 1
< cycles 1
< stream - lanes 3 dims 0 level 6 element 8 user 0 forward
< 1 1 d=000000 s=2 e=1
> offence cycle 0 stream - rule 2 Index
= 6
# a last lane that is none
$ check t
< tydi-trace 1
< cycles 1
< stream - lanes 3 dims 0 level 6 element 8 user 0 forward
< 1 1 d=000000 s=0 e=3
> offence cycle 0 stream - rule 2 Index
= 6
# strobes that differ, level 6
$ check t
< tydi-trace 1
< cycles 1
< stream - lanes 2 dims 1 level 6 element 8 user 0 forward
< 1 1 d=0201 l=2 s=0 e=1 b=1
> offence cycle 0 stream - rule 4 Strobe
= 6
# a lane left out without a last bit, level 4
$ check t
< tydi-trace 1
< cycles 1
< stream - lanes 2 dims 1 level 4 element 8 user 0 forward
< 1 1 d=0201 l=0 e=0 b=3
> offence cycle 0 stream - rule 6 End
= 6
# a pause between two sequences of a packet, level 1
$ check t
< tydi-trace 1
< cycles 2
< stream - lanes 1 dims 2 level 1 element 8 user 0 forward
< 1 1 d=48 l=1 b=1
< 0 1 -
> offence cycle 1 stream - rule 9 OuterPause
= 6
# no dimension
$ check t
< tydi-trace 1
< cycles 1
< stream - lanes 1 dims 0 level 1 element 8 user 0 forward
< 1 1 d=48
> legal
> stream - transfers 1 packets 1
= 0
# strobes and a user word
$ check t
< tydi-trace 1
< cycles 3
< stream a.b lanes 1 dims 0 level 7 element 4 user 3 reverse
< 1 1 d=f b=1 u=7
< 0 1 -
< 1 1 d=0 b=0 u=0
> legal
> stream a.b transfers 2 packets 1
= 0
# no payload signal
$ check t
< tydi-trace 1
< cycles 4
< stream - lanes 1 dims 0 level 1 element 0 user 0 forward
< 1 1 -
< 0 1 -
< 1 0 -
< 1 1 -
> legal
> stream - transfers 2 packets 2
= 0
";

/// Legal traces and verdicts of several streams, and of none.
pub(crate) const SEVERAL_STREAMS: &str = "\
# both offend in one cycle: the first stream is named
$ check t
< tydi-trace 1
< cycles 2
< stream - lanes 1 dims 1 level 1 element 8 user 0 forward
< stream b lanes 1 dims 1 level 1 element 8 user 0 forward
< 1 1 d=01 l=0 b=1
< 1 1 d=01 l=0 b=1
< 0 1 -
< 0 1 -
> offence cycle 1 stream - rule 8 InnerPause
= 6
# the second stream offends in an earlier cycle
$ check t
< tydi-trace 1
< cycles 3
< stream - lanes 1 dims 1 level 1 element 8 user 0 forward
< stream b lanes 1 dims 1 level 1 element 8 user 0 forward
< 1 1 d=01 l=0 b=1
< 1 1 d=01 l=0 b=1
< 1 1 d=01 l=0 b=1
< 0 1 -
< 0 1 -
< 0 1 -
> offence cycle 1 stream b rule 8 InnerPause
= 6
# each stream has its own level
$ check t
< tydi-trace 1
< cycles 2
< stream - lanes 1 dims 1 level 3 element 8 user 0 forward
< stream b lanes 1 dims 1 level 2 element 8 user 0 forward
< 1 1 d=01 l=0 b=1
< 1 1 d=01 l=0 b=1
< 0 1 -
< 0 1 -
> offence cycle 1 stream b rule 8 InnerPause
= 6
# the first of two that do not end whole
$ check t
< tydi-trace 1
< cycles 1
< stream - lanes 1 dims 1 level 1 element 8 user 0 forward
< stream b lanes 1 dims 1 level 1 element 8 user 0 forward
< 1 0 d=01 l=0 b=1
< 1 1 d=01 l=0 b=1
> unfinished stream - pending
= 6
# the second stream alone does not end whole
$ check t
< tydi-trace 1
< cycles 1
< stream - lanes 1 dims 1 level 1 element 8 user 0 forward
< stream b lanes 1 dims 1 level 1 element 8 user 0 forward
< 1 1 d=02 l=1 b=1
< 1 1 d=01 l=0 b=1
> unfinished stream b open 0
= 6
# an offence stands before an end
$ check t
< tydi-trace 1
< cycles 2
< stream - lanes 1 dims 1 level 1 element 8 user 0 forward
< stream b lanes 1 dims 1 level 1 element 8 user 0 forward
< 1 1 d=01 l=0 b=1
< 1 0 d=01 l=0 b=1
< 1 1 d=02 l=1 b=1
< 1 0 d=03 l=0 b=1
> offence cycle 1 stream b rule 1 Hold
= 6
# two streams of four lanes
$ check t
< tydi-trace 1
< cycles 3
< stream a lanes 4 dims 1 level 4 element 8 user 0 forward
< stream b lanes 4 dims 1 level 7 element 4 user 2 reverse
< 1 1 d=04030201 l=0 e=3 b=f
< 1 1 d=0a05 l=0 s=0 e=2 b=5 u=1
< 1 1 d=00000005 l=8 e=0 b=f
< 0 1 -
< 0 1 -
< 1 1 d=3000 l=8 s=3 e=3 b=8 u=0
> legal
> stream a transfers 2 packets 1
> stream b transfers 2 packets 1
= 0
# no streams
$ check t
< tydi-trace 1
< cycles 5
> legal
= 0
# three streams without cycles
$ check t
< tydi-trace 1
< cycles 0
< stream c lanes 1 dims 1 level 1 element 8 user 0 forward
< stream b lanes 1 dims 1 level 1 element 8 user 0 forward
< stream a lanes 1 dims 1 level 1 element 8 user 0 forward
> legal
> stream c transfers 0 packets 0
> stream b transfers 0 packets 0
> stream a transfers 0 packets 0
= 0
";

/// Legal traces, verdicts and errors of texts that come in pieces.
pub(crate) const PIECES: &str = "\
$ check t
< tydi-trace 1
< cycles 2
< stream a lanes 1 dims 0 level 1 element 4 user 0 forward
< 1 1 d=f
< 1 1 d=0
> legal
> stream a transfers 2 packets 2
= 0
$ check t
< tydi-trace 1
< cycles 0
< stream a lanes 1 dims 0 level 1 element 4 user 0 forward
> legal
> stream a transfers 0 packets 0
= 0
$ check t
< tydi-trace 1
< cycles 2
< stream a lanes 1 dims 0 level 1 element 4 user 0 forward
< stream b lanes 1 dims 1 level 1 element 4 user 0 forward
< 0 1 -
< 1 1 d=f l=0 b=1
< 0 1 -
< 0 1 -
> offence cycle 1 stream b rule 8 InnerPause
= 6
$ check t
< tydi-trace 1
< cycles 1
< stream a lanes 1 dims 0 level 1 element 4 user 0 forward
< stream b lanes 128 dims 1 level 1 element 0 user 0 forward
< 1 1 d=f
< 1 1 l=00000000000000000000000000000000 e=127 b=ffffffffffffffffffffffffffffffff
> unfinished stream b open 0
= 6
# a header that is wrong twice
$ check t
< tydi-trace 1
< cycles 1000001
~ stream a
! tydi: BadHeader t 3
= 1
$ check t
< tydi-trace 1
< cycles 1000000
< stream a lanes 1 dims 0 level 1 element 4 user 0 forward
< 1 1 d=f
! tydi: RowsMissing t 1000000 1
= 1
# a row that is longer than any of its stream
$ check t
< tydi-trace 1
< cycles 1
< stream a lanes 1 dims 0 level 1 element 4 user 0 forward
< 1 1 d=0000000000000000000000000000000000000000 \n\
! tydi: BadRow t 4
= 1
# a row of the greatest width
$ check t
< tydi-trace 1
< cycles 1
< stream a lanes 2 dims 0 level 1 element 4096 user 0 forward
~ 1 1 d=
+ 2048 0
<
> legal
> stream a transfers 1 packets 2
= 0
# and one digit more
$ check t
< tydi-trace 1
< cycles 1
< stream a lanes 2 dims 0 level 1 element 4096 user 0 forward
~ 1 1 d=
+ 2049 0
<
! tydi: WrongSignals t 4
= 1
";

/// A text with a row that is longer than any of its stream, and one that follows the last.
pub(crate) const LONG: &[u8] =
    b"tydi-trace 1\ncycles 1\nstream a lanes 1 dims 0 level 1 element 4 user 0 forward\n1 1 d=0000000000000000000000000000000000000000 s=1 \n0 1 -\n";

/// Traces of the second version, and levels that a version has not.
pub(crate) const VERSIONS: &str = "\
# a level of two numbers
$ check t
< tydi-trace 2
< cycles 2
< stream - lanes 2 dims 0 level 4.1 element 8 user 0 forward
< 1 1 d=0201
< 1 1 d=0403
> legal
> stream - transfers 2 packets 4
= 0
# levels of one number
$ check t
< tydi-trace 2
< cycles 1
< stream - lanes 1 dims 1 level 4 element 8 user 0 forward
< stream b lanes 1 dims 1 level 7 element 8 user 0 forward
< 1 1 d=48 l=1 b=1
< 0 1 -
> legal
> stream - transfers 1 packets 1
> stream b transfers 0 packets 0
= 0
# levels of one, three and four numbers
$ check t
< tydi-trace 2
< cycles 1
< stream a lanes 1 dims 1 level 8 element 8 user 0 forward
< stream b lanes 1 dims 1 level 1.0.255 element 8 user 0 reverse
< stream c lanes 1 dims 1 level 4.10.0.1 element 8 user 0 forward
< 0 1 -
< 1 1 d=48 l=1 b=1
< 0 1 -
> legal
> stream a transfers 0 packets 0
> stream b transfers 1 packets 1
> stream c transfers 0 packets 0
= 0
# a rule binds by the first number
$ check t
< tydi-trace 2
< cycles 2
< stream - lanes 1 dims 1 level 2.255.255.255 element 8 user 0 forward
< 1 1 d=48 l=0 b=1
< 0 1 -
> offence cycle 1 stream - rule 8 InnerPause
= 6
# and does not at a greater one
$ check t
< tydi-trace 2
< cycles 3
< stream - lanes 1 dims 1 level 3.0.0.1 element 8 user 0 forward
< 1 1 d=48 l=0 b=1
< 0 1 -
< 1 1 d=49 l=1 b=1
> legal
> stream - transfers 2 packets 1
= 0
# a number at the end that is 0
$ check t
< tydi-trace 2
< cycles 0
< stream - lanes 1 dims 1 level 4.0 element 8 user 0 forward
! tydi: BadHeader t 3
= 1
# a leading zero
$ check t
< tydi-trace 2
< cycles 0
< stream - lanes 1 dims 1 level 4.01 element 8 user 0 forward
! tydi: BadHeader t 3
= 1
# a fifth number
$ check t
< tydi-trace 2
< cycles 0
< stream - lanes 1 dims 1 level 4.1.2.3.4 element 8 user 0 forward
! tydi: BadHeader t 3
= 1
# a number over 255
$ check t
< tydi-trace 2
< cycles 0
< stream - lanes 1 dims 1 level 4.1.2.256 element 8 user 0 forward
! tydi: BadHeader t 3
= 1
# a first number over 8
$ check t
< tydi-trace 2
< cycles 0
< stream - lanes 1 dims 1 level 9.1 element 8 user 0 forward
! tydi: BadHeader t 3
= 1
# two numbers in the first version
$ check t
< tydi-trace 1
< cycles 0
< stream - lanes 1 dims 1 level 4.1 element 8 user 0 forward
! tydi: BadHeader t 3
= 1
# a third version
$ check t
< tydi-trace 3
< cycles 0
< stream - lanes 1 dims 1 level 4 element 8 user 0 forward
! tydi: BadHeader t 1
= 1
";

/// Traces of one stream and of two: the first violation, the stream that does not end whole, or the error.
pub(crate) const SURVEYED: &str = "\
# a pause in the second stream
$ check t
< tydi-trace 1
< cycles 2
< stream a lanes 1 dims 0 level 1 element 4 user 0 forward
< stream b lanes 1 dims 1 level 1 element 4 user 0 forward
< 0 1 -
< 1 1 d=f l=0 b=1
< 0 1 -
< 0 1 -
> offence cycle 1 stream b rule 8 InnerPause
= 6
# a sequence of 128 lanes without bits that is open
$ check t
< tydi-trace 1
< cycles 1
< stream a lanes 1 dims 0 level 1 element 4 user 0 forward
< stream b lanes 128 dims 1 level 1 element 0 user 0 forward
< 1 1 d=f
< 1 1 l=00000000000000000000000000000000 e=127 b=ffffffffffffffffffffffffffffffff
> unfinished stream b open 0
= 6
# a number of cycles that is too great, and a line that is cut
$ check t
< tydi-trace 1
< cycles 1000001
~ stream a
! tydi: BadHeader t 3
= 1
# rows of a million that are missing
$ check t
< tydi-trace 1
< cycles 1000000
< stream a lanes 1 dims 0 level 1 element 4 user 0 forward
< 1 1 d=f
! tydi: RowsMissing t 1000000 1
= 1
# a space at the end of a row
$ check t
< tydi-trace 1
< cycles 1
< stream a lanes 1 dims 0 level 1 element 4 user 0 forward
< 1 1 d=0000000000000000000000000000000000000000 
! tydi: BadRow t 4
= 1
";
