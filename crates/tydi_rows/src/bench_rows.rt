//! Rows of `bench` and `testbench`, and of `sim` on what they write. The project stands in the file `p`, a value in `v` and a plan in `q` or `pl`; a
//! testbench in `b` and a run in `r`.

/// Testbenches of ports and of declared tests, and why some have none.
pub(crate) const BENCHED: &str = "\
# two characters of one packet
$ bench p n::s.p v pl
~ namespace n { type t = Stream(data: Bits(8), throughput: 1, dimensionality: 1, complexity: 1); streamlet s = (p: in t); }
@ p
~ root - = [72, 105];
@ v
< tydi-plan 1
< cycles 2
@ pl
> -- tydi-bench 1
> -- stream - lanes 1 dims 1 level 1 element 8 user 0 forward
> library ieee;
> use ieee.std_logic_1164.all;
> entity bench is
>   port (
>     clk : in std_logic;
>     \\-.ready\\ : in std_logic;
>     \\-.valid\\ : out std_logic := '0';
>     \\-.data\\ : out std_logic_vector(7 downto 0) := (others => '0');
>     \\-.last\\ : out std_logic_vector(0 downto 0) := (others => '0');
>     \\-.strb\\ : out std_logic_vector(0 downto 0) := (others => '0')
>   );
> end entity;
> architecture drive of bench is
> begin
>   process
>   begin
>     \\-.data\\ <= \"01001000\";
>     \\-.last\\ <= \"0\";
>     \\-.strb\\ <= \"1\";
>     \\-.valid\\ <= '1';
>     wait until rising_edge(clk) and \\-.ready\\ = '1';
>     \\-.data\\ <= \"01101001\";
>     \\-.last\\ <= \"1\";
>     \\-.strb\\ <= \"1\";
>     \\-.valid\\ <= '1';
>     wait until rising_edge(clk) and \\-.ready\\ = '1';
>     \\-.valid\\ <= '0';
>     wait;
>   end process;
> end architecture;
= 0
# pauses before the first transfer of one stream, and another stream beside it
$ bench p n::s.p v pl
~ namespace n { type t = Stream(data: Group(a: Bits(8), b: Stream(data: Bits(8), dimensionality: 1, synchronicity: F
~ latten, complexity: 1)), dimensionality: 1, complexity: 1); streamlet s = (p: in t); }
@ p
~ root - = [{a: 1, b: [2,3]}, {a: 4, b: []}];
@ v
< tydi-plan 1
< cycles 5
< stream -
< gaps 2
@ pl
> -- tydi-bench 1
> -- stream - lanes 1 dims 1 level 1 element 8 user 0 forward
> -- stream b lanes 1 dims 1 level 1 element 8 user 0 forward
> library ieee;
> use ieee.std_logic_1164.all;
> entity bench is
>   port (
>     clk : in std_logic;
>     \\-.ready\\ : in std_logic;
>     \\-.valid\\ : out std_logic := '0';
>     \\-.data\\ : out std_logic_vector(7 downto 0) := (others => '0');
>     \\-.last\\ : out std_logic_vector(0 downto 0) := (others => '0');
>     \\-.strb\\ : out std_logic_vector(0 downto 0) := (others => '0');
>     \\b.ready\\ : in std_logic;
>     \\b.valid\\ : out std_logic := '0';
>     \\b.data\\ : out std_logic_vector(7 downto 0) := (others => '0');
>     \\b.last\\ : out std_logic_vector(0 downto 0) := (others => '0');
>     \\b.strb\\ : out std_logic_vector(0 downto 0) := (others => '0')
>   );
> end entity;
> architecture drive of bench is
> begin
>   process
>   begin
>     \\-.valid\\ <= '0';
>     for i in 1 to 2 loop
>       wait until rising_edge(clk);
>     end loop;
>     \\-.data\\ <= \"00000001\";
>     \\-.last\\ <= \"0\";
>     \\-.strb\\ <= \"1\";
>     \\-.valid\\ <= '1';
>     wait until rising_edge(clk) and \\-.ready\\ = '1';
>     \\-.data\\ <= \"00000100\";
>     \\-.last\\ <= \"1\";
>     \\-.strb\\ <= \"1\";
>     \\-.valid\\ <= '1';
>     wait until rising_edge(clk) and \\-.ready\\ = '1';
>     \\-.valid\\ <= '0';
>     wait;
>   end process;
>   process
>   begin
>     \\b.data\\ <= \"00000010\";
>     \\b.last\\ <= \"0\";
>     \\b.strb\\ <= \"1\";
>     \\b.valid\\ <= '1';
>     wait until rising_edge(clk) and \\b.ready\\ = '1';
>     \\b.data\\ <= \"00000011\";
>     \\b.last\\ <= \"1\";
>     \\b.strb\\ <= \"1\";
>     \\b.valid\\ <= '1';
>     wait until rising_edge(clk) and \\b.ready\\ = '1';
>     \\b.data\\ <= \"00000000\";
>     \\b.last\\ <= \"1\";
>     \\b.strb\\ <= \"0\";
>     \\b.valid\\ <= '1';
>     wait until rising_edge(clk) and \\b.ready\\ = '1';
>     \\b.valid\\ <= '0';
>     wait;
>   end process;
> end architecture;
= 0
# that testbench, the first process always before the second
$ sim b r
< -- tydi-bench 1
< -- stream - lanes 1 dims 1 level 1 element 8 user 0 forward
< -- stream b lanes 1 dims 1 level 1 element 8 user 0 forward
< library ieee;
< use ieee.std_logic_1164.all;
< entity bench is
<   port (
<     clk : in std_logic;
<     \\-.ready\\ : in std_logic;
<     \\-.valid\\ : out std_logic := '0';
<     \\-.data\\ : out std_logic_vector(7 downto 0) := (others => '0');
<     \\-.last\\ : out std_logic_vector(0 downto 0) := (others => '0');
<     \\-.strb\\ : out std_logic_vector(0 downto 0) := (others => '0');
<     \\b.ready\\ : in std_logic;
<     \\b.valid\\ : out std_logic := '0';
<     \\b.data\\ : out std_logic_vector(7 downto 0) := (others => '0');
<     \\b.last\\ : out std_logic_vector(0 downto 0) := (others => '0');
<     \\b.strb\\ : out std_logic_vector(0 downto 0) := (others => '0')
<   );
< end entity;
< architecture drive of bench is
< begin
<   process
<   begin
<     \\-.valid\\ <= '0';
<     for i in 1 to 2 loop
<       wait until rising_edge(clk);
<     end loop;
<     \\-.data\\ <= \"00000001\";
<     \\-.last\\ <= \"0\";
<     \\-.strb\\ <= \"1\";
<     \\-.valid\\ <= '1';
<     wait until rising_edge(clk) and \\-.ready\\ = '1';
<     \\-.data\\ <= \"00000100\";
<     \\-.last\\ <= \"1\";
<     \\-.strb\\ <= \"1\";
<     \\-.valid\\ <= '1';
<     wait until rising_edge(clk) and \\-.ready\\ = '1';
<     \\-.valid\\ <= '0';
<     wait;
<   end process;
<   process
<   begin
<     \\b.data\\ <= \"00000010\";
<     \\b.last\\ <= \"0\";
<     \\b.strb\\ <= \"1\";
<     \\b.valid\\ <= '1';
<     wait until rising_edge(clk) and \\b.ready\\ = '1';
<     \\b.data\\ <= \"00000011\";
<     \\b.last\\ <= \"1\";
<     \\b.strb\\ <= \"1\";
<     \\b.valid\\ <= '1';
<     wait until rising_edge(clk) and \\b.ready\\ = '1';
<     \\b.data\\ <= \"00000000\";
<     \\b.last\\ <= \"1\";
<     \\b.strb\\ <= \"0\";
<     \\b.valid\\ <= '1';
<     wait until rising_edge(clk) and \\b.ready\\ = '1';
<     \\b.valid\\ <= '0';
<     wait;
<   end process;
< end architecture;
@ b
< tydi-run 1
< cycles 5
< order 0 1
< order 0 1
< order 0 1
< order 0 1
< order 0 1
@ r
> tydi-trace 1
> cycles 5
> stream - lanes 1 dims 1 level 1 element 8 user 0 forward
> stream b lanes 1 dims 1 level 1 element 8 user 0 forward
> 0 1 -
> 1 1 d=02 l=0 b=1
> 0 1 -
> 1 1 d=03 l=1 b=1
> 1 1 d=01 l=0 b=1
> 1 1 d=00 l=1 b=0
> 1 1 d=04 l=1 b=1
> 0 1 -
> 0 1 -
> 0 1 -
= 0
# the second always before the first
$ sim b r
< -- tydi-bench 1
< -- stream - lanes 1 dims 1 level 1 element 8 user 0 forward
< -- stream b lanes 1 dims 1 level 1 element 8 user 0 forward
< library ieee;
< use ieee.std_logic_1164.all;
< entity bench is
<   port (
<     clk : in std_logic;
<     \\-.ready\\ : in std_logic;
<     \\-.valid\\ : out std_logic := '0';
<     \\-.data\\ : out std_logic_vector(7 downto 0) := (others => '0');
<     \\-.last\\ : out std_logic_vector(0 downto 0) := (others => '0');
<     \\-.strb\\ : out std_logic_vector(0 downto 0) := (others => '0');
<     \\b.ready\\ : in std_logic;
<     \\b.valid\\ : out std_logic := '0';
<     \\b.data\\ : out std_logic_vector(7 downto 0) := (others => '0');
<     \\b.last\\ : out std_logic_vector(0 downto 0) := (others => '0');
<     \\b.strb\\ : out std_logic_vector(0 downto 0) := (others => '0')
<   );
< end entity;
< architecture drive of bench is
< begin
<   process
<   begin
<     \\-.valid\\ <= '0';
<     for i in 1 to 2 loop
<       wait until rising_edge(clk);
<     end loop;
<     \\-.data\\ <= \"00000001\";
<     \\-.last\\ <= \"0\";
<     \\-.strb\\ <= \"1\";
<     \\-.valid\\ <= '1';
<     wait until rising_edge(clk) and \\-.ready\\ = '1';
<     \\-.data\\ <= \"00000100\";
<     \\-.last\\ <= \"1\";
<     \\-.strb\\ <= \"1\";
<     \\-.valid\\ <= '1';
<     wait until rising_edge(clk) and \\-.ready\\ = '1';
<     \\-.valid\\ <= '0';
<     wait;
<   end process;
<   process
<   begin
<     \\b.data\\ <= \"00000010\";
<     \\b.last\\ <= \"0\";
<     \\b.strb\\ <= \"1\";
<     \\b.valid\\ <= '1';
<     wait until rising_edge(clk) and \\b.ready\\ = '1';
<     \\b.data\\ <= \"00000011\";
<     \\b.last\\ <= \"1\";
<     \\b.strb\\ <= \"1\";
<     \\b.valid\\ <= '1';
<     wait until rising_edge(clk) and \\b.ready\\ = '1';
<     \\b.data\\ <= \"00000000\";
<     \\b.last\\ <= \"1\";
<     \\b.strb\\ <= \"0\";
<     \\b.valid\\ <= '1';
<     wait until rising_edge(clk) and \\b.ready\\ = '1';
<     \\b.valid\\ <= '0';
<     wait;
<   end process;
< end architecture;
@ b
< tydi-run 1
< cycles 5
< order 1 0
< order 1 0
< order 1 0
< order 1 0
< order 1 0
@ r
> tydi-trace 1
> cycles 5
> stream - lanes 1 dims 1 level 1 element 8 user 0 forward
> stream b lanes 1 dims 1 level 1 element 8 user 0 forward
> 0 1 -
> 1 1 d=02 l=0 b=1
> 0 1 -
> 1 1 d=03 l=1 b=1
> 1 1 d=01 l=0 b=1
> 1 1 d=00 l=1 b=0
> 1 1 d=04 l=1 b=1
> 0 1 -
> 0 1 -
> 0 1 -
= 0
# a stream that is never ready does not hold up the other
$ sim b r
< -- tydi-bench 1
< -- stream - lanes 1 dims 1 level 1 element 8 user 0 forward
< -- stream b lanes 1 dims 1 level 1 element 8 user 0 forward
< library ieee;
< use ieee.std_logic_1164.all;
< entity bench is
<   port (
<     clk : in std_logic;
<     \\-.ready\\ : in std_logic;
<     \\-.valid\\ : out std_logic := '0';
<     \\-.data\\ : out std_logic_vector(7 downto 0) := (others => '0');
<     \\-.last\\ : out std_logic_vector(0 downto 0) := (others => '0');
<     \\-.strb\\ : out std_logic_vector(0 downto 0) := (others => '0');
<     \\b.ready\\ : in std_logic;
<     \\b.valid\\ : out std_logic := '0';
<     \\b.data\\ : out std_logic_vector(7 downto 0) := (others => '0');
<     \\b.last\\ : out std_logic_vector(0 downto 0) := (others => '0');
<     \\b.strb\\ : out std_logic_vector(0 downto 0) := (others => '0')
<   );
< end entity;
< architecture drive of bench is
< begin
<   process
<   begin
<     \\-.valid\\ <= '0';
<     for i in 1 to 2 loop
<       wait until rising_edge(clk);
<     end loop;
<     \\-.data\\ <= \"00000001\";
<     \\-.last\\ <= \"0\";
<     \\-.strb\\ <= \"1\";
<     \\-.valid\\ <= '1';
<     wait until rising_edge(clk) and \\-.ready\\ = '1';
<     \\-.data\\ <= \"00000100\";
<     \\-.last\\ <= \"1\";
<     \\-.strb\\ <= \"1\";
<     \\-.valid\\ <= '1';
<     wait until rising_edge(clk) and \\-.ready\\ = '1';
<     \\-.valid\\ <= '0';
<     wait;
<   end process;
<   process
<   begin
<     \\b.data\\ <= \"00000010\";
<     \\b.last\\ <= \"0\";
<     \\b.strb\\ <= \"1\";
<     \\b.valid\\ <= '1';
<     wait until rising_edge(clk) and \\b.ready\\ = '1';
<     \\b.data\\ <= \"00000011\";
<     \\b.last\\ <= \"1\";
<     \\b.strb\\ <= \"1\";
<     \\b.valid\\ <= '1';
<     wait until rising_edge(clk) and \\b.ready\\ = '1';
<     \\b.data\\ <= \"00000000\";
<     \\b.last\\ <= \"1\";
<     \\b.strb\\ <= \"0\";
<     \\b.valid\\ <= '1';
<     wait until rising_edge(clk) and \\b.ready\\ = '1';
<     \\b.valid\\ <= '0';
<     wait;
<   end process;
< end architecture;
@ b
< tydi-run 1
< cycles 5
< ready b 00000
@ r
> tydi-trace 1
> cycles 5
> stream - lanes 1 dims 1 level 1 element 8 user 0 forward
> stream b lanes 1 dims 1 level 1 element 8 user 0 forward
> 0 1 -
> 1 0 d=02 l=0 b=1
> 0 1 -
> 1 0 d=02 l=0 b=1
> 1 1 d=01 l=0 b=1
> 1 0 d=02 l=0 b=1
> 1 1 d=04 l=1 b=1
> 1 0 d=02 l=0 b=1
> 0 1 -
> 1 0 d=02 l=0 b=1
= 0
# packets of two dimensions, two lanes
$ bench p video::top.a v pl
< namespace video {
<   type rgb = Group(r: Bits(8), g: Bits(8), b: Bits(8));
<   type frames = Stream(data: rgb, throughput: 2.0,
<     dimensionality: 2, complexity: 4);
<   streamlet invert = (a: in frames, b: out frames);
<   streamlet top = (a: in frames, b: out frames);
<   impl wiring of top = { i = invert; a -- i.a; i.b -- b; };
<   test two of top drive a =
<     \"root - = [[{r: 1, g: 2, b: 3}, {r: 4, g: 5, b: 6},
<      {r: 7, g: 8, b: 9}]] [];\" plan \"tydi-plan 1
< cycles 3
< \";
< }
@ p
< root - = [[{r: 1, g: 2, b: 3}, {r: 4, g: 5, b: 6},
~      {r: 7, g: 8, b: 9}]] [];
@ v
< tydi-plan 1
< cycles 3
@ pl
> -- tydi-bench 1
> -- stream - lanes 2 dims 2 level 4 element 24 user 0 forward
> library ieee;
> use ieee.std_logic_1164.all;
> entity bench is
>   port (
>     clk : in std_logic;
>     \\-.ready\\ : in std_logic;
>     \\-.valid\\ : out std_logic := '0';
>     \\-.data\\ : out std_logic_vector(47 downto 0) := (others => '0');
>     \\-.last\\ : out std_logic_vector(3 downto 0) := (others => '0');
>     \\-.endi\\ : out std_logic_vector(0 downto 0) := (others => '0');
>     \\-.strb\\ : out std_logic_vector(1 downto 0) := (others => '0')
>   );
> end entity;
> architecture drive of bench is
> begin
>   process
>   begin
>     \\-.data\\ <= \"000001100000010100000100000000110000001000000001\";
>     \\-.last\\ <= \"0000\";
>     \\-.endi\\ <= \"1\";
>     \\-.strb\\ <= \"11\";
>     \\-.valid\\ <= '1';
>     wait until rising_edge(clk) and \\-.ready\\ = '1';
>     \\-.data\\ <= \"000000000000000000000000000010010000100000000111\";
>     \\-.last\\ <= \"1100\";
>     \\-.endi\\ <= \"0\";
>     \\-.strb\\ <= \"11\";
>     \\-.valid\\ <= '1';
>     wait until rising_edge(clk) and \\-.ready\\ = '1';
>     \\-.data\\ <= \"000000000000000000000000000000000000000000000000\";
>     \\-.last\\ <= \"1000\";
>     \\-.endi\\ <= \"1\";
>     \\-.strb\\ <= \"00\";
>     \\-.valid\\ <= '1';
>     wait until rising_edge(clk) and \\-.ready\\ = '1';
>     \\-.valid\\ <= '0';
>     wait;
>   end process;
> end architecture;
= 0
# a declared test with the same texts
$ testbench p video::two
< namespace video {
<   type rgb = Group(r: Bits(8), g: Bits(8), b: Bits(8));
<   type frames = Stream(data: rgb, throughput: 2.0,
<     dimensionality: 2, complexity: 4);
<   streamlet invert = (a: in frames, b: out frames);
<   streamlet top = (a: in frames, b: out frames);
<   impl wiring of top = { i = invert; a -- i.a; i.b -- b; };
<   test two of top drive a =
<     \"root - = [[{r: 1, g: 2, b: 3}, {r: 4, g: 5, b: 6},
<      {r: 7, g: 8, b: 9}]] [];\" plan \"tydi-plan 1
< cycles 3
< \";
< }
@ p
> -- tydi-bench 1
> -- stream - lanes 2 dims 2 level 4 element 24 user 0 forward
> library ieee;
> use ieee.std_logic_1164.all;
> entity bench is
>   port (
>     clk : in std_logic;
>     \\-.ready\\ : in std_logic;
>     \\-.valid\\ : out std_logic := '0';
>     \\-.data\\ : out std_logic_vector(47 downto 0) := (others => '0');
>     \\-.last\\ : out std_logic_vector(3 downto 0) := (others => '0');
>     \\-.endi\\ : out std_logic_vector(0 downto 0) := (others => '0');
>     \\-.strb\\ : out std_logic_vector(1 downto 0) := (others => '0')
>   );
> end entity;
> architecture drive of bench is
> begin
>   process
>   begin
>     \\-.data\\ <= \"000001100000010100000100000000110000001000000001\";
>     \\-.last\\ <= \"0000\";
>     \\-.endi\\ <= \"1\";
>     \\-.strb\\ <= \"11\";
>     \\-.valid\\ <= '1';
>     wait until rising_edge(clk) and \\-.ready\\ = '1';
>     \\-.data\\ <= \"000000000000000000000000000010010000100000000111\";
>     \\-.last\\ <= \"1100\";
>     \\-.endi\\ <= \"0\";
>     \\-.strb\\ <= \"11\";
>     \\-.valid\\ <= '1';
>     wait until rising_edge(clk) and \\-.ready\\ = '1';
>     \\-.data\\ <= \"000000000000000000000000000000000000000000000000\";
>     \\-.last\\ <= \"1000\";
>     \\-.endi\\ <= \"1\";
>     \\-.strb\\ <= \"00\";
>     \\-.valid\\ <= '1';
>     wait until rising_edge(clk) and \\-.ready\\ = '1';
>     \\-.valid\\ <= '0';
>     wait;
>   end process;
> end architecture;
= 0
# that testbench
$ sim b r
< -- tydi-bench 1
< -- stream - lanes 2 dims 2 level 4 element 24 user 0 forward
< library ieee;
< use ieee.std_logic_1164.all;
< entity bench is
<   port (
<     clk : in std_logic;
<     \\-.ready\\ : in std_logic;
<     \\-.valid\\ : out std_logic := '0';
<     \\-.data\\ : out std_logic_vector(47 downto 0) := (others => '0');
<     \\-.last\\ : out std_logic_vector(3 downto 0) := (others => '0');
<     \\-.endi\\ : out std_logic_vector(0 downto 0) := (others => '0');
<     \\-.strb\\ : out std_logic_vector(1 downto 0) := (others => '0')
<   );
< end entity;
< architecture drive of bench is
< begin
<   process
<   begin
<     \\-.data\\ <= \"000001100000010100000100000000110000001000000001\";
<     \\-.last\\ <= \"0000\";
<     \\-.endi\\ <= \"1\";
<     \\-.strb\\ <= \"11\";
<     \\-.valid\\ <= '1';
<     wait until rising_edge(clk) and \\-.ready\\ = '1';
<     \\-.data\\ <= \"000000000000000000000000000010010000100000000111\";
<     \\-.last\\ <= \"1100\";
<     \\-.endi\\ <= \"0\";
<     \\-.strb\\ <= \"11\";
<     \\-.valid\\ <= '1';
<     wait until rising_edge(clk) and \\-.ready\\ = '1';
<     \\-.data\\ <= \"000000000000000000000000000000000000000000000000\";
<     \\-.last\\ <= \"1000\";
<     \\-.endi\\ <= \"1\";
<     \\-.strb\\ <= \"00\";
<     \\-.valid\\ <= '1';
<     wait until rising_edge(clk) and \\-.ready\\ = '1';
<     \\-.valid\\ <= '0';
<     wait;
<   end process;
< end architecture;
@ b
< tydi-run 1
< cycles 3
@ r
> tydi-trace 1
> cycles 3
> stream - lanes 2 dims 2 level 4 element 24 user 0 forward
> 1 1 d=060504030201 l=0 e=1 b=3
> 1 1 d=000000090807 l=c e=0 b=3
> 1 1 d=000000000000 l=8 e=1 b=0
= 0
# no test of this name
$ testbench p video::three
< namespace video {
<   type rgb = Group(r: Bits(8), g: Bits(8), b: Bits(8));
<   type frames = Stream(data: rgb, throughput: 2.0,
<     dimensionality: 2, complexity: 4);
<   streamlet invert = (a: in frames, b: out frames);
<   streamlet top = (a: in frames, b: out frames);
<   impl wiring of top = { i = invert; a -- i.a; i.b -- b; };
<   test two of top drive a =
<     \"root - = [[{r: 1, g: 2, b: 3}, {r: 4, g: 5, b: 6},
<      {r: 7, g: 8, b: 9}]] [];\" plan \"tydi-plan 1
< cycles 3
< \";
< }
@ p
! tydi: NoTest video::three
= 1
# gaps where valid may not be low are left out
$ bench p n::s.p v q
~ namespace n { type t = Stream(data: Bits(8), throughput: 1, dimensionality: 1, complexity: 1); streamlet s = (p: in t); }
@ p
~ root - = [1, 2] [3];
@ v
< tydi-plan 1
< cycles 6
< stream -
< gaps 0 3 3
@ q
> -- tydi-bench 1
> -- stream - lanes 1 dims 1 level 1 element 8 user 0 forward
> library ieee;
> use ieee.std_logic_1164.all;
> entity bench is
>   port (
>     clk : in std_logic;
>     \\-.ready\\ : in std_logic;
>     \\-.valid\\ : out std_logic := '0';
>     \\-.data\\ : out std_logic_vector(7 downto 0) := (others => '0');
>     \\-.last\\ : out std_logic_vector(0 downto 0) := (others => '0');
>     \\-.strb\\ : out std_logic_vector(0 downto 0) := (others => '0')
>   );
> end entity;
> architecture drive of bench is
> begin
>   process
>   begin
>     \\-.data\\ <= \"00000001\";
>     \\-.last\\ <= \"0\";
>     \\-.strb\\ <= \"1\";
>     \\-.valid\\ <= '1';
>     wait until rising_edge(clk) and \\-.ready\\ = '1';
>     \\-.data\\ <= \"00000010\";
>     \\-.last\\ <= \"1\";
>     \\-.strb\\ <= \"1\";
>     \\-.valid\\ <= '1';
>     wait until rising_edge(clk) and \\-.ready\\ = '1';
>     \\-.valid\\ <= '0';
>     for i in 1 to 3 loop
>       wait until rising_edge(clk);
>     end loop;
>     \\-.data\\ <= \"00000011\";
>     \\-.last\\ <= \"1\";
>     \\-.strb\\ <= \"1\";
>     \\-.valid\\ <= '1';
>     wait until rising_edge(clk) and \\-.ready\\ = '1';
>     \\-.valid\\ <= '0';
>     wait;
>   end process;
> end architecture;
= 0
# where valid may be low inside a packet, each gap is there
$ bench p n::s.p v q
~ namespace n { type t = Stream(data: Bits(8), throughput: 1, dimensionality: 1, complexity: 3); streamlet s = (p: in t); }
@ p
~ root - = [1, 2] [3];
@ v
< tydi-plan 1
< cycles 9
< stream -
< gaps 0 3 3
@ q
> -- tydi-bench 1
> -- stream - lanes 1 dims 1 level 3 element 8 user 0 forward
> library ieee;
> use ieee.std_logic_1164.all;
> entity bench is
>   port (
>     clk : in std_logic;
>     \\-.ready\\ : in std_logic;
>     \\-.valid\\ : out std_logic := '0';
>     \\-.data\\ : out std_logic_vector(7 downto 0) := (others => '0');
>     \\-.last\\ : out std_logic_vector(0 downto 0) := (others => '0');
>     \\-.strb\\ : out std_logic_vector(0 downto 0) := (others => '0')
>   );
> end entity;
> architecture drive of bench is
> begin
>   process
>   begin
>     \\-.data\\ <= \"00000001\";
>     \\-.last\\ <= \"0\";
>     \\-.strb\\ <= \"1\";
>     \\-.valid\\ <= '1';
>     wait until rising_edge(clk) and \\-.ready\\ = '1';
>     \\-.valid\\ <= '0';
>     for i in 1 to 3 loop
>       wait until rising_edge(clk);
>     end loop;
>     \\-.data\\ <= \"00000010\";
>     \\-.last\\ <= \"1\";
>     \\-.strb\\ <= \"1\";
>     \\-.valid\\ <= '1';
>     wait until rising_edge(clk) and \\-.ready\\ = '1';
>     \\-.valid\\ <= '0';
>     for i in 1 to 3 loop
>       wait until rising_edge(clk);
>     end loop;
>     \\-.data\\ <= \"00000011\";
>     \\-.last\\ <= \"1\";
>     \\-.strb\\ <= \"1\";
>     \\-.valid\\ <= '1';
>     wait until rising_edge(clk) and \\-.ready\\ = '1';
>     \\-.valid\\ <= '0';
>     wait;
>   end process;
> end architecture;
= 0
# no transfer
$ bench p n::s.p v q
~ namespace n { type t = Stream(data: Bits(8), throughput: 1, dimensionality: 1, complexity: 1); streamlet s = (p: in t); }
@ p
~ root - = ;
@ v
< tydi-plan 1
< cycles 0
@ q
> -- tydi-bench 1
> -- stream - lanes 1 dims 1 level 1 element 8 user 0 forward
> library ieee;
> use ieee.std_logic_1164.all;
> entity bench is
>   port (
>     clk : in std_logic;
>     \\-.ready\\ : in std_logic;
>     \\-.valid\\ : out std_logic := '0';
>     \\-.data\\ : out std_logic_vector(7 downto 0) := (others => '0');
>     \\-.last\\ : out std_logic_vector(0 downto 0) := (others => '0');
>     \\-.strb\\ : out std_logic_vector(0 downto 0) := (others => '0')
>   );
> end entity;
> architecture drive of bench is
> begin
>   process
>   begin
>     \\-.valid\\ <= '0';
>     wait;
>   end process;
> end architecture;
= 0
# no port of this name
$ bench p n::s.q v q
~ namespace n { type t = Stream(data: Bits(8), throughput: 1, dimensionality: 1, complexity: 1); streamlet s = (p: in t); }
@ p
~ root - = [1];
@ v
< tydi-plan 1
< cycles 1
@ q
! tydi: NoPort n::s.q
= 1
# a node that no stream carries
$ bench p n::s.p v q
~ namespace n { type t = Stream(data: Group(b: Stream(data: Bits(8), dimensionality: 1, synchronicity: Flatten, c
~ omplexity: 1)), dimensionality: 1, complexity: 1); streamlet s = (p: in t); test x of s drive p = \"root - = ;\" plan \"
~ tydi-plan 1\"; }
@ p
~ root - = [1];
@ v
< tydi-plan 1
< cycles 1
@ q
! tydi: NoCarrier -
= 1
# an error of the value
$ bench p n::s.p v q
~ namespace n { type t = Stream(data: Bits(8), throughput: 1, dimensionality: 1, complexity: 1); streamlet s = (p: in t); }
@ p
~ root - = [256];
@ v
< tydi-plan 1
< cycles 1
@ q
! tydi: OutOfRange v 1:11
= 1
# an error of the plan
$ bench p n::s.p v q
~ namespace n { type t = Stream(data: Bits(8), throughput: 1, dimensionality: 1, complexity: 1); streamlet s = (p: in t); }
@ p
~ root - = [1];
@ v
< tydi-plan 1
< cycles 1
< stream c
@ q
! tydi: UnknownStream q 3:1
= 1
# lanes that do not divide the elements
$ bench p n::s.p v q
~ namespace n { type t = Stream(data: Bits(8), throughput: 2, dimensionality: 0, complexity: 4); streamlet s = (p: in t); }
@ p
~ root - = 1 2 3;
@ v
< tydi-plan 1
< cycles 2
@ q
! tydi: CountNotMultiple - 3 2
= 1
# too few cycles
$ bench p n::s.p v q
~ namespace n { type t = Stream(data: Bits(8), throughput: 1, dimensionality: 1, complexity: 3); streamlet s = (p: in t); }
@ p
~ root - = [72, 105];
@ v
< tydi-plan 1
< cycles 2
< stream -
< ready 00
@ q
! tydi: NotFinished - 2
= 1
# no value of this name
$ bench p n::s.p w q
~ namespace n { type t = Stream(data: Bits(8), throughput: 1, dimensionality: 1, complexity: 1); streamlet s = (p: in t); }
@ p
~ root - = [1];
@ v
< tydi-plan 1
< cycles 1
@ q
! tydi: NoFile w
= 1
# a testbench of a declared test on one line
$ testbench p n::x
~ namespace n { type t = Stream(data: Bits(8), throughput: 1, dimensionality: 1, complexity: 1); streamlet s = (p: in t); test x
<  of s drive p = \"root - = [1];\" plan \"tydi-plan 1
~ cycles 1\"; }
@ p
> -- tydi-bench 1
> -- stream - lanes 1 dims 1 level 1 element 8 user 0 forward
> library ieee;
> use ieee.std_logic_1164.all;
> entity bench is
>   port (
>     clk : in std_logic;
>     \\-.ready\\ : in std_logic;
>     \\-.valid\\ : out std_logic := '0';
>     \\-.data\\ : out std_logic_vector(7 downto 0) := (others => '0');
>     \\-.last\\ : out std_logic_vector(0 downto 0) := (others => '0');
>     \\-.strb\\ : out std_logic_vector(0 downto 0) := (others => '0')
>   );
> end entity;
> architecture drive of bench is
> begin
>   process
>   begin
>     \\-.data\\ <= \"00000001\";
>     \\-.last\\ <= \"1\";
>     \\-.strb\\ <= \"1\";
>     \\-.valid\\ <= '1';
>     wait until rising_edge(clk) and \\-.ready\\ = '1';
>     \\-.valid\\ <= '0';
>     wait;
>   end process;
> end architecture;
= 0
# the word of a port names no test
$ testbench p n::s.p
~ namespace n { type t = Stream(data: Bits(8), throughput: 1, dimensionality: 1, complexity: 1); streamlet s = (p: in t); test x
<  of s drive p = \"root - = [1];\" plan \"tydi-plan 1
~ cycles 1\"; }
@ p
! tydi: NoTest n::s.p
= 1
# nor does a streamlet's
$ testbench p n::s
~ namespace n { type t = Stream(data: Bits(8), throughput: 1, dimensionality: 1, complexity: 1); streamlet s = (p: in t); test x
<  of s drive p = \"root - = [1];\" plan \"tydi-plan 1
~ cycles 1\"; }
@ p
! tydi: NoTest n::s
= 1
# a word that is no path names none
$ testbench p n::x:
~ namespace n { type t = Stream(data: Bits(8), throughput: 1, dimensionality: 1, complexity: 1); streamlet s = (p: in t); test x
<  of s drive p = \"root - = [1];\" plan \"tydi-plan 1
~ cycles 1\"; }
@ p
! tydi: NoTest n::x:
= 1
# an error of the value that a test holds, at its place inside it
$ testbench p n::x
~ namespace n { type t = Stream(data: Bits(8), throughput: 1, dimensionality: 1, complexity: 1); streamlet s = (p: in t); test x
<  of s drive p = \"root - =
<   [256];\" plan \"tydi-plan 1
~ cycles 1\"; }
@ p
! tydi: OutOfRange n::x value 2:4
= 1
# before one of its plan
$ testbench p n::x
~ namespace n { type t = Stream(data: Bits(8), throughput: 1, dimensionality: 1, complexity: 1); streamlet s = (p: in t); t
~ est x of s drive p = \"root - = [1\" plan \"plan\"; }
@ p
! tydi: Syntax n::x value 1:12
= 1
# an error of the plan that a test holds, at its place inside it
$ testbench p n::x
~ namespace n { type t = Stream(data: Bits(8), throughput: 1, dimensionality: 1, complexity: 1); streamlet s = (p: in t); test x
<  of s drive p = \"root - = [1];\" plan \"tydi-plan 1
< cycles 1
< stream c
~ \"; }
@ p
! tydi: UnknownStream n::x plan 3:1
= 1
# an empty plan
$ testbench p n::x
~ namespace n { type t = Stream(data: Bits(8), throughput: 1, dimensionality: 1, complexity: 1); streamlet s = (p: in t); t
~ est x of s drive p = \"root - = [1];\" plan \"\"; }
@ p
! tydi: Syntax n::x plan 1:1
= 1
# a node of the port of a test that no stream carries
$ testbench p n::x
~ namespace n { type t = Stream(data: Group(b: Stream(data: Bits(8), dimensionality: 1, synchronicity: Flatten, c
~ omplexity: 1)), dimensionality: 1, complexity: 1); streamlet s = (p: in t); test x of s drive p = \"root - = ;\" plan \"
~ tydi-plan 1\"; }
@ p
! tydi: NoCarrier -
= 1
# lanes that do not divide the elements of a test
$ testbench p n::x
~ namespace n { type t = Stream(data: Bits(8), throughput: 2, dimensionality: 0, complexity: 4); streamlet s = (p: in t); test x
<  of s drive p = \"root - = 1 2 3;\" plan \"tydi-plan 1
~ cycles 2\"; }
@ p
! tydi: CountNotMultiple - 3 2
= 1
# too few cycles of a test
$ testbench p n::x
~ namespace n { type t = Stream(data: Bits(8), throughput: 1, dimensionality: 1, complexity: 3); streamlet s = (p: in t); test x
<  of s drive p = \"root - = [72, 105];\" plan \"tydi-plan 1
~ cycles 1\"; }
@ p
! tydi: NotFinished - 1
= 1
# a test of a port that is not there
$ testbench p n::x
~ namespace n { streamlet s = (p: in Stream(data: Null)); test x of s drive q = \"\" plan \"\"; }
@ p
! tydi: UnknownName p 1:75
= 1
# no project of this name
$ testbench o n::x
~ namespace n { type t = Stream(data: Bits(8), throughput: 1, dimensionality: 1, complexity: 1); streamlet s = (p: in t); }
@ p
! tydi: NoFile o
= 1
# a bench without its plan
$ bench p n::s.p v
~ namespace n { type t = Stream(data: Bits(8), throughput: 1, dimensionality: 1, complexity: 1); streamlet s = (p: in t); }
@ p
~ root - = [1];
@ v
! tydi: Usage
= 2
# a word that begins with a sign
$ bench p n::s.p v -q
~ namespace n { type t = Stream(data: Bits(8), throughput: 1, dimensionality: 1, complexity: 1); streamlet s = (p: in t); }
@ p
~ root - = [1];
@ v
! tydi: Usage
= 2
# a testbench without its test
$ testbench p
~ namespace n { type t = Stream(data: Bits(8), throughput: 1, dimensionality: 1, complexity: 1); streamlet s = (p: in t); }
@ p
! tydi: Usage
= 2
# a testbench with a word too many
$ testbench p n::x q
~ namespace n { type t = Stream(data: Bits(8), throughput: 1, dimensionality: 1, complexity: 1); streamlet s = (p: in t); }
@ p
! tydi: Usage
= 2
";
