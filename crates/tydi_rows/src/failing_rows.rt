//! Rows in which each call fails in turn, and rows of files that are large or no text.

/// A row of each command: each call of the store fails in turn, three for each file, and each push to out.
pub(crate) const FAILING: &str = "\
# check, whose file comes in pieces of 16 bytes
$ check t
< tydi-trace 1
< cycles 2
< stream - lanes 1 dims 1 level 1 element 8 user 0 forward
< 1 1 d=48 l=0 b=1
< 1 1 d=69 l=1 b=1
- most 16
> legal
> stream - transfers 2 packets 1
= 0 failing 4 12
# drive
$ drive p n::s.p v q
~ namespace n { type t = Stream(data: Group(a: Bits(8), b: Stream(data: Bits(8), dimensionality: 1, synchronicity: Flatten, complexity: 1)), dimensionality: 1, complexity: 1); streamlet s = (p: in t); }
@ p
~ root - = [{a: 1, b: [2,3]}, {a: 4, b: []}];
@ v
< tydi-plan 1
< cycles 3
@ q
> tydi-trace 1
> cycles 3
> stream - lanes 1 dims 1 level 1 element 8 user 0 forward
> stream b lanes 1 dims 1 level 1 element 8 user 0 forward
> 1 1 d=01 l=0 b=1
> 1 1 d=02 l=0 b=1
> 1 1 d=04 l=1 b=1
> 1 1 d=03 l=1 b=1
> 0 1 -
> 1 1 d=00 l=1 b=0
= 0 failing 4 64
# decode
$ decode p n::s.p t
~ namespace n { type t = Stream(data: Bits(8), dimensionality: 1, complexity: 1, user: Bits(2)); streamlet s = (p: in t); }
@ p
< tydi-trace 1
< cycles 3
< stream - lanes 1 dims 1 level 1 element 8 user 2 forward
< 1 1 d=01 l=0 b=1 u=3
< 1 1 d=02 l=1 b=1 u=1
< 1 1 d=00 l=1 b=0 u=2
> root - = [1, 2] [];
> // users - 3 1 2
= 0 failing 4 16
# compare
$ compare p n::s.p v t
~ namespace n { type t = Stream(data: Bits(8), dimensionality: 1, complexity: 1); streamlet s = (p: in t); }
@ p
~ root - = [1, 2];
@ v
< tydi-trace 1
< cycles 2
< stream - lanes 1 dims 1 level 1 element 8 user 0 forward
< 1 1 d=01 l=0 b=1
< 1 1 d=02 l=1 b=1
> same
= 0 failing 4 2
# expect, whose five pieces have 387, 132, 6, 444 and 18 bytes
$ expect p n::s.p v
~ namespace n { streamlet s = (p: in Stream(data: Bits(8), complexity: 1)); }
@ p
~ root - = ;
@ v
> -- tydi-watch 1
> -- stream - lanes 1 dims 0 level 1 element 8 user 0 forward
> library ieee;
> use ieee.std_logic_1164.all;
> use ieee.numeric_std.all;
> entity watch is
>   port (
>     clk : in std_logic;
>     \\-.ready\\ : in std_logic;
>     \\-.valid\\ : in std_logic;
>     \\-.data\\ : in std_logic_vector(7 downto 0);
>     \\-.fault\\ : out std_logic := '0'
>   );
> end entity;
> architecture check of watch is
>   type \\-.items\\ is array (0 to 0) of std_logic_vector(9 downto 0);
>   constant \\-.want\\ : \\-.items\\ := (
>     0 => \"0000000000\"
>   );
> begin
>   process
>     variable place : natural := 0;
>   begin
>     loop
>       wait until rising_edge(clk) and \\-.valid\\ = '1' and \\-.ready\\ = '1';
>       for lane in 0 to 0 loop
>         if true then
>           if \\-.want\\(place) = \"10\" & \\-.data\\(lane * 8 + 7 downto lane * 8) then
>             place := place + 1;
>           else
>             \\-.fault\\ <= '1';
>             wait;
>           end if;
>         end if;
>       end loop;
>     end loop;
>   end process;
> end architecture;
= 0 failing 3 330
# watch
$ watch m t
< -- tydi-watch 1
< -- stream - lanes 1 dims 1 level 1 element 8 user 0 forward
< library ieee;
< use ieee.std_logic_1164.all;
< use ieee.numeric_std.all;
< entity watch is
<   port (
<     clk : in std_logic;
<     \\-.ready\\ : in std_logic;
<     \\-.valid\\ : in std_logic;
<     \\-.data\\ : in std_logic_vector(7 downto 0);
<     \\-.last\\ : in std_logic_vector(0 downto 0);
<     \\-.strb\\ : in std_logic_vector(0 downto 0);
<     \\-.fault\\ : out std_logic := '0'
<   );
< end entity;
< architecture check of watch is
<   type \\-.items\\ is array (0 to 3) of std_logic_vector(9 downto 0);
<   constant \\-.want\\ : \\-.items\\ := (
<     0 => \"1000000001\",
<     1 => \"1000000010\",
<     2 => \"0100000000\",
<     3 => \"0000000000\"
<   );
< begin
<   process
<     variable place : natural := 0;
<   begin
<     loop
<       wait until rising_edge(clk) and \\-.valid\\ = '1' and \\-.ready\\ = '1';
<       for lane in 0 to 0 loop
<         if \\-.strb\\(lane) = '1' then
<           if \\-.want\\(place) = \"10\" & \\-.data\\(lane * 8 + 7 downto lane * 8) then
<             place := place + 1;
<           else
<             \\-.fault\\ <= '1';
<             wait;
<           end if;
<         end if;
<         for dim in 0 to 0 loop
<           if \\-.last\\(lane * 1 + dim) = '1' then
<             if \\-.want\\(place) = \"01\" & std_logic_vector(to_unsigned(dim, 8)) then
<               place := place + 1;
<             else
<               \\-.fault\\ <= '1';
<               wait;
<             end if;
<           end if;
<         end loop;
<       end loop;
<     end loop;
<   end process;
< end architecture;
@ m
< tydi-trace 1
< cycles 2
< stream - lanes 1 dims 1 level 1 element 8 user 0 forward
< 1 1 d=01 l=0 b=1
< 1 1 d=02 l=1 b=1
@ t
> stream - seen 3 of 3
= 0 failing 4 6
# verilog, whose three pieces have 22, 82 and 22 bytes
$ verilog p
< namespace a { streamlet s = (); }
@ p
> `default_nettype none
> module \\a.s (
>   input wire clk,
>   input wire rst
> );
>   `include \"a.s.vh\"
> endmodule
> `default_nettype wire
= 0 failing 2 63
# bench
$ bench p n::s.p v q
< namespace n { streamlet s = (p: in Stream(data: Bits(2), complexity: 1)); test x of s drive p = \"root - = 2;\" plan \"tydi-plan 1
~ cycles 1\"; }
@ p
~ root - = 2;
@ v
< tydi-plan 1
< cycles 1
@ q
> -- tydi-bench 1
> -- stream - lanes 1 dims 0 level 1 element 2 user 0 forward
> library ieee;
> use ieee.std_logic_1164.all;
> entity bench is
>   port (
>     clk : in std_logic;
>     \\-.ready\\ : in std_logic;
>     \\-.valid\\ : out std_logic := '0';
>     \\-.data\\ : out std_logic_vector(1 downto 0) := (others => '0')
>   );
> end entity;
> architecture drive of bench is
> begin
>   process
>   begin
>     \\-.data\\ <= \"10\";
>     \\-.valid\\ <= '1';
>     wait until rising_edge(clk) and \\-.ready\\ = '1';
>     \\-.valid\\ <= '0';
>     wait;
>   end process;
> end architecture;
= 0 failing 16 23
# testbench, whose pushes are those of the lines before the process
$ testbench p n::x
< namespace n { streamlet s = (p: in Stream(data: Bits(2), complexity: 1)); test x of s drive p = \"root - = 2;\" plan \"tydi-plan 1
~ cycles 1\"; }
@ p
> -- tydi-bench 1
> -- stream - lanes 1 dims 0 level 1 element 2 user 0 forward
> library ieee;
> use ieee.std_logic_1164.all;
> entity bench is
>   port (
>     clk : in std_logic;
>     \\-.ready\\ : in std_logic;
>     \\-.valid\\ : out std_logic := '0';
>     \\-.data\\ : out std_logic_vector(1 downto 0) := (others => '0')
>   );
> end entity;
> architecture drive of bench is
> begin
>   process
>   begin
>     \\-.data\\ <= \"10\";
>     \\-.valid\\ <= '1';
>     wait until rising_edge(clk) and \\-.ready\\ = '1';
>     \\-.valid\\ <= '0';
>     wait;
>   end process;
> end architecture;
= 0 failing 16 23
# vcd
$ vcd p n::s.p s t
~ namespace n { streamlet s = (p: in Stream(data: Bits(12), complexity: 1)); }
@ p
< $scope module s $end
< $var wire 1 a clk $end
< $var wire 1 b \\-.valid\\ $end
< $var wire 1 c \\-.ready\\ $end
< $var wire 12 d \\-.data\\ $end
< $upscope $end
< $enddefinitions $end
< #0 0a 1b 1c b101001000 d
< #1 1a
> tydi-trace 1
> cycles 1
> stream - lanes 1 dims 0 level 1 element 12 user 0 forward
> 1 1 d=148
= 0 failing 4 24
# gen
$ gen p n::s.p 1 4
~ namespace n { type t = Stream(data: Bits(8), complexity: 1); streamlet s = (p: in t); }
@ p
> stream - transfers 4 packets 4
> cycles 4
> text 26
> trace 8627
= 0 failing 8 12
\
";

/// A push of the line of a failed read that fails: err has the front before it.
pub(crate) const LINE_THAT_FAILS: &str = "\
# the second push of eight bytes
$ check t
< tydi-trace 1
< cycles 2
< stream - lanes 1 dims 1 level 1 element 8 user 0 forward
< 1 1 d=48 l=0 b=1
< 1 1 d=69 l=1 b=1
- store 0
- err 1
- most 8
? tydi: Re
= 4
\
";

/// The longest project, one byte more, and a text that is not UTF-8. A project that is too long is started and pulled in 65 pieces of 65,536
/// bytes at most, which are calls 0 to 65; call 66 would start the value, and it fails where it is made.
pub(crate) const LARGE: &str = "\
# the longest project
$ read t
* 4194304 32
! tydi: EndOfText t
= 1
# one byte more
$ read t
* 4194305 32
! tydi: TooLong t
= 1
# bytes that are no UTF-8
$ read t
* 3 255
! tydi: NotUtf8 t 0
= 1
# a project that is too long, and call 0 fails
$ drive p n::s.p v q
* 4194305 32
@ p
~ !
@ v
~ !
@ q
- store 0
! tydi: ReadFault p
= 3
# a project that is too long, and call 64 fails
$ drive p n::s.p v q
* 4194305 32
@ p
~ !
@ v
~ !
@ q
- store 64
! tydi: ReadFault p
= 3
# a project that is too long, and call 65 fails
$ drive p n::s.p v q
* 4194305 32
@ p
~ !
@ v
~ !
@ q
- store 65
! tydi: ReadFault p
= 3
# a project that is too long, and call 66 fails
$ drive p n::s.p v q
* 4194305 32
@ p
~ !
@ v
~ !
@ q
- store 66
! tydi: TooLong p
= 1
# a value of over 1,000,000 leaves, 26 for each member
$ gen p n::s.p 1 38462
< namespace n { type t = Stream(data: Group(a: Null, b: Null, c: Null, d: Null, e: Null, f: Null, g: Null, h: Null, i: Null, j: Null,
< k: Null, l: Null, m: Null, n: Null, o: Null, p: Null, q: Null, r: Null, s: Null, t: Null, u: Null, v: Null, w: Null, x: Null, y: Null, z: Null), keep: true);
~ streamlet s = (p: in t); }
@ p
! tydi: TooManyLeaves
= 1
# a job of 732,898 leaves in 1,046,066 transfers
$ gen p n::s.p 1 95000
~ namespace n { type t = Stream(data: Bits(8), dimensionality: 5, complexity: 1); streamlet s = (p: in t); }
@ p
! tydi: TooManyCycles
= 1
\
";
