//! Rows of words that spell no command, and of traces that are refused.

/// Words that spell no command, and a file that is not there.
pub(crate) const WORDS: &str = "\
# no word
$
! tydi: Usage
= 2
# no file
$ check
! tydi: Usage
= 2
# an option
$ check -x
! tydi: Usage
= 2
# an empty word
$ check 
! tydi: Usage
= 2
# no such command
$ chek t
! tydi: Usage
= 2
# a word too many
$ check t t
! tydi: Usage
= 2
# a command that is not built yet
$ reshape p n::s.p t
! tydi: Usage
= 2
# no such file
$ check u
! tydi: NoFile u
= 1
$ read
! tydi: Usage
= 2
$ read -p
! tydi: Usage
= 2
$ read t t
! tydi: Usage
= 2
$ read u
! tydi: NoFile u
= 1
";

/// Headers that are not as they should be.
pub(crate) const HEADERS: &str = "\
# no text
$ check t
! tydi: BadHeader t 1
= 1
# another version
$ check t
< tydi-trace 0
< cycles 0
! tydi: BadHeader t 1
= 1
# a first line without LF
$ check t
~ tydi-trace 1
! tydi: BadHeader t 1
= 1
# no second line
$ check t
< tydi-trace 1
! tydi: BadHeader t 2
= 1
# a needless zero
$ check t
< tydi-trace 1
< cycles 00
! tydi: BadHeader t 2
= 1
# a digit too many
$ check t
< tydi-trace 1
< cycles 00000000001
! tydi: BadHeader t 2
= 1
# no number
$ check t
< tydi-trace 1
< cycles 
! tydi: BadHeader t 2
= 1
# no lanes
$ check t
< tydi-trace 1
< cycles 0
< stream - lanes 0 dims 1 level 1 element 8 user 0 forward
! tydi: BadHeader t 3
= 1
# too many lanes
$ check t
< tydi-trace 1
< cycles 0
< stream - lanes 129 dims 1 level 1 element 8 user 0 forward
! tydi: BadHeader t 3
= 1
# too many dimensions
$ check t
< tydi-trace 1
< cycles 0
< stream - lanes 1 dims 33 level 1 element 8 user 0 forward
! tydi: BadHeader t 3
= 1
# no such level
$ check t
< tydi-trace 1
< cycles 0
< stream - lanes 1 dims 1 level 9 element 8 user 0 forward
! tydi: BadHeader t 3
= 1
# too wide an element
$ check t
< tydi-trace 1
< cycles 0
< stream - lanes 1 dims 1 level 1 element 4097 user 0 forward
! tydi: BadHeader t 3
= 1
# no path
$ check t
< tydi-trace 1
< cycles 0
< stream a_ lanes 1 dims 1 level 1 element 8 user 0 forward
! tydi: BadHeader t 3
= 1
# no direction
$ check t
< tydi-trace 1
< cycles 0
< stream - lanes 1 dims 1 level 1 element 8 user 0 back
! tydi: BadHeader t 3
= 1
# a word too many
$ check t
< tydi-trace 1
< cycles 0
< stream - lanes 1 dims 1 level 1 element 8 user 0 forward forward
! tydi: BadHeader t 3
= 1
# one path twice
$ check t
< tydi-trace 1
< cycles 0
< stream a lanes 1 dims 1 level 1 element 8 user 0 forward
< stream a lanes 1 dims 1 level 1 element 8 user 0 reverse
! tydi: BadHeader t 4
= 1
# a stream line without LF
$ check t
< tydi-trace 1
< cycles 0
< stream a lanes 1 dims 1 level 1 element 8 user 0 forward
~ stream b lanes 1 dims 1 level 1 element 8 user 0 forward
! tydi: BadHeader t 4
= 1
# too many cycles, and a stream line that is not as it should be
$ check t
< tydi-trace 1
< cycles 1000001
< stream - lanes 0 dims 1 level 1 element 8 user 0 forward
! tydi: BadHeader t 3
= 1
";

/// Texts with a right header, which are refused all the same.
pub(crate) const ROWS: &str = "\
# too many cycles
$ check t
< tydi-trace 1
< cycles 1000001
< stream - lanes 1 dims 1 level 1 element 8 user 0 forward
! tydi: TooManyCycles t
= 1
# too many cycles, before the rows are looked at
$ check t
< tydi-trace 1
< cycles 1000001
< stream - lanes 1 dims 1 level 1 element 8 user 0 forward
< 1 1
! tydi: TooManyCycles t
= 1
# a text cut inside its last row
$ check t
< tydi-trace 1
< cycles 2
< stream - lanes 1 dims 1 level 1 element 8 user 0 forward
< 1 1 d=48 l=0 b=1
~ 1 1 d=69 l=1
! tydi: BadRow t 5
= 1
# a text cut before its last LF
$ check t
< tydi-trace 1
< cycles 2
< stream - lanes 1 dims 1 level 1 element 8 user 0 forward
< 1 1 d=48 l=0 b=1
~ 1 1 d=69 l=1 b=1
! tydi: BadRow t 5
= 1
# an upper-case digit
$ check t
< tydi-trace 1
< cycles 1
< stream - lanes 1 dims 1 level 1 element 8 user 0 forward
< 1 1 d=4A l=1 b=1
! tydi: BadRow t 4
= 1
# signals in another order
$ check t
< tydi-trace 1
< cycles 1
< stream - lanes 1 dims 1 level 1 element 8 user 0 forward
< 1 1 d=48 b=1 l=1
! tydi: BadRow t 4
= 1
# a value without digits
$ check t
< tydi-trace 1
< cycles 1
< stream - lanes 1 dims 1 level 1 element 8 user 0 forward
< 1 1 d= l=1 b=1
! tydi: BadRow t 4
= 1
# no payload
$ check t
< tydi-trace 1
< cycles 1
< stream - lanes 1 dims 1 level 1 element 8 user 0 forward
< 0 1
! tydi: BadRow t 4
= 1
# two spaces
$ check t
< tydi-trace 1
< cycles 1
< stream - lanes 1 dims 1 level 1 element 8 user 0 forward
< 0 1  -
! tydi: BadRow t 4
= 1
# a bit that is none
$ check t
< tydi-trace 1
< cycles 1
< stream - lanes 1 dims 1 level 1 element 8 user 0 forward
< 2 1 -
! tydi: BadRow t 4
= 1
# an empty line
$ check t
< tydi-trace 1
< cycles 1
< stream - lanes 1 dims 1 level 1 element 8 user 0 forward
<
! tydi: BadRow t 4
= 1
# a lane number of six digits
$ check t
< tydi-trace 1
< cycles 1
< stream - lanes 3 dims 0 level 6 element 8 user 0 forward
< 1 1 d=000000 s=0 e=000001
! tydi: BadRow t 4
= 1
# a digit too many
$ check t
< tydi-trace 1
< cycles 1
< stream - lanes 1 dims 1 level 1 element 8 user 0 forward
< 1 1 d=048 l=1 b=1
! tydi: WrongSignals t 4
= 1
# a bit past the width
$ check t
< tydi-trace 1
< cycles 1
< stream - lanes 1 dims 1 level 1 element 8 user 0 forward
< 1 1 d=48 l=2 b=1
! tydi: WrongSignals t 4
= 1
# a signal that is owed
$ check t
< tydi-trace 1
< cycles 1
< stream - lanes 1 dims 1 level 1 element 8 user 0 forward
< 1 1 d=48 l=1
! tydi: WrongSignals t 4
= 1
# no signal where some are owed
$ check t
< tydi-trace 1
< cycles 1
< stream - lanes 1 dims 1 level 1 element 8 user 0 forward
< 1 1 -
! tydi: WrongSignals t 4
= 1
# a signal that the stream lacks
$ check t
< tydi-trace 1
< cycles 1
< stream - lanes 1 dims 1 level 1 element 8 user 0 forward
< 1 1 d=48 l=1 b=1 u=0
! tydi: WrongSignals t 4
= 1
# a payload without valid
$ check t
< tydi-trace 1
< cycles 1
< stream - lanes 1 dims 1 level 1 element 8 user 0 forward
< 0 1 d=48 l=1 b=1
! tydi: WrongSignals t 4
= 1
# a lane number past its width
$ check t
< tydi-trace 1
< cycles 1
< stream - lanes 3 dims 0 level 6 element 8 user 0 forward
< 1 1 d=000000 s=0 e=4
! tydi: WrongSignals t 4
= 1
# the row of the second stream is that of the first
$ check t
< tydi-trace 1
< cycles 1
< stream a lanes 1 dims 1 level 1 element 8 user 0 forward
< stream b lanes 1 dims 0 level 1 element 8 user 0 forward
< 1 1 d=69 l=1 b=1
< 1 1 d=69 l=1 b=1
! tydi: WrongSignals t 6
= 1
# a row cut off after an offence
$ check t
< tydi-trace 1
< cycles 3
< stream - lanes 1 dims 1 level 1 element 8 user 0 forward
< 1 1 d=48 l=0 b=1
< 0 1 -
~ 1 1 d=69 l=1 b=1
! tydi: BadRow t 6
= 1
# a wrong row before a bad one
$ check t
< tydi-trace 1
< cycles 2
< stream - lanes 1 dims 1 level 1 element 8 user 0 forward
< 1 1 -
< 1
! tydi: WrongSignals t 4
= 1
# a text that ends after a row
$ check t
< tydi-trace 1
< cycles 2
< stream - lanes 1 dims 1 level 1 element 8 user 0 forward
< 1 1 d=48 l=0 b=1
! tydi: RowsMissing t 2 1
= 1
# a text that ends inside a cycle
$ check t
< tydi-trace 1
< cycles 2
< stream - lanes 1 dims 1 level 1 element 8 user 0 forward
< stream b lanes 1 dims 1 level 1 element 8 user 0 forward
< 1 1 d=02 l=1 b=1
< 1 1 d=02 l=1 b=1
< 1 1 d=02 l=1 b=1
! tydi: RowsMissing t 4 3
= 1
# no rows
$ check t
< tydi-trace 1
< cycles 2
< stream - lanes 1 dims 1 level 1 element 8 user 0 forward
! tydi: RowsMissing t 2 0
= 1
# a stray byte after the last row
$ check t
< tydi-trace 1
< cycles 1
< stream - lanes 1 dims 1 level 1 element 8 user 0 forward
< 1 1 d=69 l=1 b=1
~ 1
! tydi: RowsLeft t 5
= 1
# an empty line after the last row
$ check t
< tydi-trace 1
< cycles 1
< stream - lanes 1 dims 1 level 1 element 8 user 0 forward
< 1 1 d=69 l=1 b=1
<
! tydi: RowsLeft t 5
= 1
# a row without cycles
$ check t
< tydi-trace 1
< cycles 0
< stream - lanes 1 dims 1 level 1 element 8 user 0 forward
< 1 1 d=69 l=1 b=1
! tydi: RowsLeft t 4
= 1
# a row without streams
$ check t
< tydi-trace 1
< cycles 1
< 1 1 d=69 l=1 b=1
! tydi: RowsLeft t 3
= 1
";
