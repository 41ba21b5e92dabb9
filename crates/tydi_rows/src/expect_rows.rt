//! Rows of `expect`. The project stands in the file `p` and the value in `v`.

/// Monitors that are written.
pub(crate) const EXPECTED: &str = "\
# the items of a value, and the end of the table
$ expect p n::s.p v
~ namespace n { type t = Stream(data: Bits(8), throughput: 1, dimensionality: 1, complexity: 1); streamlet s = (p: in t); }
@ p
~ root - = [72, 105];
@ v
> -- tydi-watch 1
> -- stream - lanes 1 dims 1 level 1 element 8 user 0 forward
> library ieee;
> use ieee.std_logic_1164.all;
> use ieee.numeric_std.all;
> entity watch is
>   port (
>     clk : in std_logic;
>     \\-.ready\\ : in std_logic;
>     \\-.valid\\ : in std_logic;
>     \\-.data\\ : in std_logic_vector(7 downto 0);
>     \\-.last\\ : in std_logic_vector(0 downto 0);
>     \\-.strb\\ : in std_logic_vector(0 downto 0);
>     \\-.fault\\ : out std_logic := '0'
>   );
> end entity;
> architecture check of watch is
>   type \\-.items\\ is array (0 to 3) of std_logic_vector(9 downto 0);
>   constant \\-.want\\ : \\-.items\\ := (
>     0 => \"1001001000\",
>     1 => \"1001101001\",
>     2 => \"0100000000\",
>     3 => \"0000000000\"
>   );
> begin
>   process
>     variable place : natural := 0;
>   begin
>     loop
>       wait until rising_edge(clk) and \\-.valid\\ = '1' and \\-.ready\\ = '1';
>       for lane in 0 to 0 loop
>         if \\-.strb\\(lane) = '1' then
>           if \\-.want\\(place) = \"10\" & \\-.data\\(lane * 8 + 7 downto lane * 8) then
>             place := place + 1;
>           else
>             \\-.fault\\ <= '1';
>             wait;
>           end if;
>         end if;
>         for dim in 0 to 0 loop
>           if \\-.last\\(lane * 1 + dim) = '1' then
>             if \\-.want\\(place) = \"01\" & std_logic_vector(to_unsigned(dim, 8)) then
>               place := place + 1;
>             else
>               \\-.fault\\ <= '1';
>               wait;
>             end if;
>           end if;
>         end loop;
>       end loop;
>     end loop;
>   end process;
> end architecture;
= 0
# no items
$ expect p n::s.p v
~ namespace n { type t = Stream(data: Bits(8), throughput: 1, dimensionality: 1, complexity: 1); streamlet s = (p: in t); }
@ p
~ root - = ;
@ v
> -- tydi-watch 1
> -- stream - lanes 1 dims 1 level 1 element 8 user 0 forward
> library ieee;
> use ieee.std_logic_1164.all;
> use ieee.numeric_std.all;
> entity watch is
>   port (
>     clk : in std_logic;
>     \\-.ready\\ : in std_logic;
>     \\-.valid\\ : in std_logic;
>     \\-.data\\ : in std_logic_vector(7 downto 0);
>     \\-.last\\ : in std_logic_vector(0 downto 0);
>     \\-.strb\\ : in std_logic_vector(0 downto 0);
>     \\-.fault\\ : out std_logic := '0'
>   );
> end entity;
> architecture check of watch is
>   type \\-.items\\ is array (0 to 0) of std_logic_vector(9 downto 0);
>   constant \\-.want\\ : \\-.items\\ := (
>     0 => \"0000000000\"
>   );
> begin
>   process
>     variable place : natural := 0;
>   begin
>     loop
>       wait until rising_edge(clk) and \\-.valid\\ = '1' and \\-.ready\\ = '1';
>       for lane in 0 to 0 loop
>         if \\-.strb\\(lane) = '1' then
>           if \\-.want\\(place) = \"10\" & \\-.data\\(lane * 8 + 7 downto lane * 8) then
>             place := place + 1;
>           else
>             \\-.fault\\ <= '1';
>             wait;
>           end if;
>         end if;
>         for dim in 0 to 0 loop
>           if \\-.last\\(lane * 1 + dim) = '1' then
>             if \\-.want\\(place) = \"01\" & std_logic_vector(to_unsigned(dim, 8)) then
>               place := place + 1;
>             else
>               \\-.fault\\ <= '1';
>               wait;
>             end if;
>           end if;
>         end loop;
>       end loop;
>     end loop;
>   end process;
> end architecture;
= 0
# an empty sequence
$ expect p n::s.p v
~ namespace n { type t = Stream(data: Bits(8), throughput: 1, dimensionality: 1, complexity: 1); streamlet s = (p: in t); }
@ p
~ root - = [] [7];
@ v
> -- tydi-watch 1
> -- stream - lanes 1 dims 1 level 1 element 8 user 0 forward
> library ieee;
> use ieee.std_logic_1164.all;
> use ieee.numeric_std.all;
> entity watch is
>   port (
>     clk : in std_logic;
>     \\-.ready\\ : in std_logic;
>     \\-.valid\\ : in std_logic;
>     \\-.data\\ : in std_logic_vector(7 downto 0);
>     \\-.last\\ : in std_logic_vector(0 downto 0);
>     \\-.strb\\ : in std_logic_vector(0 downto 0);
>     \\-.fault\\ : out std_logic := '0'
>   );
> end entity;
> architecture check of watch is
>   type \\-.items\\ is array (0 to 3) of std_logic_vector(9 downto 0);
>   constant \\-.want\\ : \\-.items\\ := (
>     0 => \"0100000000\",
>     1 => \"1000000111\",
>     2 => \"0100000000\",
>     3 => \"0000000000\"
>   );
> begin
>   process
>     variable place : natural := 0;
>   begin
>     loop
>       wait until rising_edge(clk) and \\-.valid\\ = '1' and \\-.ready\\ = '1';
>       for lane in 0 to 0 loop
>         if \\-.strb\\(lane) = '1' then
>           if \\-.want\\(place) = \"10\" & \\-.data\\(lane * 8 + 7 downto lane * 8) then
>             place := place + 1;
>           else
>             \\-.fault\\ <= '1';
>             wait;
>           end if;
>         end if;
>         for dim in 0 to 0 loop
>           if \\-.last\\(lane * 1 + dim) = '1' then
>             if \\-.want\\(place) = \"01\" & std_logic_vector(to_unsigned(dim, 8)) then
>               place := place + 1;
>             else
>               \\-.fault\\ <= '1';
>               wait;
>             end if;
>           end if;
>         end loop;
>       end loop;
>     end loop;
>   end process;
> end architecture;
= 0
# two streams
$ expect p n::s.p v
~ namespace n { type t = Stream(data: Group(a: Bits(8), b: Stream(data: Bits(8), dimensionality: 1, synchronicity: Flatten, complexity: 1)), dimensionality: 1, complexity: 1); streamlet s = (p: in t); }
@ p
~ root - = [{a: 1, b: [2,3]}, {a: 4, b: []}];
@ v
> -- tydi-watch 1
> -- stream - lanes 1 dims 1 level 1 element 8 user 0 forward
> -- stream b lanes 1 dims 1 level 1 element 8 user 0 forward
> library ieee;
> use ieee.std_logic_1164.all;
> use ieee.numeric_std.all;
> entity watch is
>   port (
>     clk : in std_logic;
>     \\-.ready\\ : in std_logic;
>     \\-.valid\\ : in std_logic;
>     \\-.data\\ : in std_logic_vector(7 downto 0);
>     \\-.last\\ : in std_logic_vector(0 downto 0);
>     \\-.strb\\ : in std_logic_vector(0 downto 0);
>     \\-.fault\\ : out std_logic := '0';
>     \\b.ready\\ : in std_logic;
>     \\b.valid\\ : in std_logic;
>     \\b.data\\ : in std_logic_vector(7 downto 0);
>     \\b.last\\ : in std_logic_vector(0 downto 0);
>     \\b.strb\\ : in std_logic_vector(0 downto 0);
>     \\b.fault\\ : out std_logic := '0'
>   );
> end entity;
> architecture check of watch is
>   type \\-.items\\ is array (0 to 3) of std_logic_vector(9 downto 0);
>   constant \\-.want\\ : \\-.items\\ := (
>     0 => \"1000000001\",
>     1 => \"1000000100\",
>     2 => \"0100000000\",
>     3 => \"0000000000\"
>   );
>   type \\b.items\\ is array (0 to 4) of std_logic_vector(9 downto 0);
>   constant \\b.want\\ : \\b.items\\ := (
>     0 => \"1000000010\",
>     1 => \"1000000011\",
>     2 => \"0100000000\",
>     3 => \"0100000000\",
>     4 => \"0000000000\"
>   );
> begin
>   process
>     variable place : natural := 0;
>   begin
>     loop
>       wait until rising_edge(clk) and \\-.valid\\ = '1' and \\-.ready\\ = '1';
>       for lane in 0 to 0 loop
>         if \\-.strb\\(lane) = '1' then
>           if \\-.want\\(place) = \"10\" & \\-.data\\(lane * 8 + 7 downto lane * 8) then
>             place := place + 1;
>           else
>             \\-.fault\\ <= '1';
>             wait;
>           end if;
>         end if;
>         for dim in 0 to 0 loop
>           if \\-.last\\(lane * 1 + dim) = '1' then
>             if \\-.want\\(place) = \"01\" & std_logic_vector(to_unsigned(dim, 8)) then
>               place := place + 1;
>             else
>               \\-.fault\\ <= '1';
>               wait;
>             end if;
>           end if;
>         end loop;
>       end loop;
>     end loop;
>   end process;
>   process
>     variable place : natural := 0;
>   begin
>     loop
>       wait until rising_edge(clk) and \\b.valid\\ = '1' and \\b.ready\\ = '1';
>       for lane in 0 to 0 loop
>         if \\b.strb\\(lane) = '1' then
>           if \\b.want\\(place) = \"10\" & \\b.data\\(lane * 8 + 7 downto lane * 8) then
>             place := place + 1;
>           else
>             \\b.fault\\ <= '1';
>             wait;
>           end if;
>         end if;
>         for dim in 0 to 0 loop
>           if \\b.last\\(lane * 1 + dim) = '1' then
>             if \\b.want\\(place) = \"01\" & std_logic_vector(to_unsigned(dim, 8)) then
>               place := place + 1;
>             else
>               \\b.fault\\ <= '1';
>               wait;
>             end if;
>           end if;
>         end loop;
>       end loop;
>     end loop;
>   end process;
> end architecture;
= 0
# elements of 3 bits, which are filled up to 6, and no dimension: a lane is active whatever
$ expect p n::s.p v
~ namespace n { streamlet s = (p: in Stream(data: Bits(3), complexity: 1)); }
@ p
~ root - = 5 0;
@ v
> -- tydi-watch 1
> -- stream - lanes 1 dims 0 level 1 element 3 user 0 forward
> library ieee;
> use ieee.std_logic_1164.all;
> use ieee.numeric_std.all;
> entity watch is
>   port (
>     clk : in std_logic;
>     \\-.ready\\ : in std_logic;
>     \\-.valid\\ : in std_logic;
>     \\-.data\\ : in std_logic_vector(2 downto 0);
>     \\-.fault\\ : out std_logic := '0'
>   );
> end entity;
> architecture check of watch is
>   type \\-.items\\ is array (0 to 2) of std_logic_vector(7 downto 0);
>   constant \\-.want\\ : \\-.items\\ := (
>     0 => \"10000101\",
>     1 => \"10000000\",
>     2 => \"00000000\"
>   );
> begin
>   process
>     variable place : natural := 0;
>   begin
>     loop
>       wait until rising_edge(clk) and \\-.valid\\ = '1' and \\-.ready\\ = '1';
>       for lane in 0 to 0 loop
>         if true then
>           if \\-.want\\(place) = \"10\" & \"000\" & \\-.data\\(lane * 3 + 2 downto lane * 3) then
>             place := place + 1;
>           else
>             \\-.fault\\ <= '1';
>             wait;
>           end if;
>         end if;
>       end loop;
>     end loop;
>   end process;
> end architecture;
= 0
# elements of no bits
$ expect p n::s.p v
~ namespace n { streamlet s = (p: in Stream(data: Null, dimensionality: 1, complexity: 1, keep: true)); }
@ p
~ root - = [null, null] [];
@ v
> -- tydi-watch 1
> -- stream - lanes 1 dims 1 level 1 element 0 user 0 forward
> library ieee;
> use ieee.std_logic_1164.all;
> use ieee.numeric_std.all;
> entity watch is
>   port (
>     clk : in std_logic;
>     \\-.ready\\ : in std_logic;
>     \\-.valid\\ : in std_logic;
>     \\-.last\\ : in std_logic_vector(0 downto 0);
>     \\-.strb\\ : in std_logic_vector(0 downto 0);
>     \\-.fault\\ : out std_logic := '0'
>   );
> end entity;
> architecture check of watch is
>   type \\-.items\\ is array (0 to 4) of std_logic_vector(7 downto 0);
>   constant \\-.want\\ : \\-.items\\ := (
>     0 => \"10000000\",
>     1 => \"10000000\",
>     2 => \"01000000\",
>     3 => \"01000000\",
>     4 => \"00000000\"
>   );
> begin
>   process
>     variable place : natural := 0;
>   begin
>     loop
>       wait until rising_edge(clk) and \\-.valid\\ = '1' and \\-.ready\\ = '1';
>       for lane in 0 to 0 loop
>         if \\-.strb\\(lane) = '1' then
>           if \\-.want\\(place) = \"10000000\" then
>             place := place + 1;
>           else
>             \\-.fault\\ <= '1';
>             wait;
>           end if;
>         end if;
>         for dim in 0 to 0 loop
>           if \\-.last\\(lane * 1 + dim) = '1' then
>             if \\-.want\\(place) = \"01\" & std_logic_vector(to_unsigned(dim, 6)) then
>               place := place + 1;
>             else
>               \\-.fault\\ <= '1';
>               wait;
>             end if;
>           end if;
>         end loop;
>       end loop;
>     end loop;
>   end process;
> end architecture;
= 0
# elements of exactly 6 bits, and of 5
$ expect p n::s.p v
~ namespace n { streamlet s = (p: in Stream(data: Bits(6), complexity: 1)); }
@ p
~ root - = 33;
@ v
> -- tydi-watch 1
> -- stream - lanes 1 dims 0 level 1 element 6 user 0 forward
> library ieee;
> use ieee.std_logic_1164.all;
> use ieee.numeric_std.all;
> entity watch is
>   port (
>     clk : in std_logic;
>     \\-.ready\\ : in std_logic;
>     \\-.valid\\ : in std_logic;
>     \\-.data\\ : in std_logic_vector(5 downto 0);
>     \\-.fault\\ : out std_logic := '0'
>   );
> end entity;
> architecture check of watch is
>   type \\-.items\\ is array (0 to 1) of std_logic_vector(7 downto 0);
>   constant \\-.want\\ : \\-.items\\ := (
>     0 => \"10100001\",
>     1 => \"00000000\"
>   );
> begin
>   process
>     variable place : natural := 0;
>   begin
>     loop
>       wait until rising_edge(clk) and \\-.valid\\ = '1' and \\-.ready\\ = '1';
>       for lane in 0 to 0 loop
>         if true then
>           if \\-.want\\(place) = \"10\" & \\-.data\\(lane * 6 + 5 downto lane * 6) then
>             place := place + 1;
>           else
>             \\-.fault\\ <= '1';
>             wait;
>           end if;
>         end if;
>       end loop;
>     end loop;
>   end process;
> end architecture;
= 0
$ expect p n::s.p v
~ namespace n { streamlet s = (p: in Stream(data: Bits(5), complexity: 1)); }
@ p
~ root - = 17;
@ v
> -- tydi-watch 1
> -- stream - lanes 1 dims 0 level 1 element 5 user 0 forward
> library ieee;
> use ieee.std_logic_1164.all;
> use ieee.numeric_std.all;
> entity watch is
>   port (
>     clk : in std_logic;
>     \\-.ready\\ : in std_logic;
>     \\-.valid\\ : in std_logic;
>     \\-.data\\ : in std_logic_vector(4 downto 0);
>     \\-.fault\\ : out std_logic := '0'
>   );
> end entity;
> architecture check of watch is
>   type \\-.items\\ is array (0 to 1) of std_logic_vector(7 downto 0);
>   constant \\-.want\\ : \\-.items\\ := (
>     0 => \"10010001\",
>     1 => \"00000000\"
>   );
> begin
>   process
>     variable place : natural := 0;
>   begin
>     loop
>       wait until rising_edge(clk) and \\-.valid\\ = '1' and \\-.ready\\ = '1';
>       for lane in 0 to 0 loop
>         if true then
>           if \\-.want\\(place) = \"10\" & \"0\" & \\-.data\\(lane * 5 + 4 downto lane * 5) then
>             place := place + 1;
>           else
>             \\-.fault\\ <= '1';
>             wait;
>           end if;
>         end if;
>       end loop;
>     end loop;
>   end process;
> end architecture;
= 0
# three lanes and two dimensions, with stai, endi and strb; the user signal is no port
$ expect p n::s.p v
~ namespace n { streamlet s = (p: in Stream(data: Bits(4), throughput: 3, dimensionality: 2, complexity: 8, user: Bits(2))); }
@ p
~ root - = [[1, 2], []];
@ v
> -- tydi-watch 1
> -- stream - lanes 3 dims 2 level 8 element 4 user 2 forward
> library ieee;
> use ieee.std_logic_1164.all;
> use ieee.numeric_std.all;
> entity watch is
>   port (
>     clk : in std_logic;
>     \\-.ready\\ : in std_logic;
>     \\-.valid\\ : in std_logic;
>     \\-.data\\ : in std_logic_vector(11 downto 0);
>     \\-.last\\ : in std_logic_vector(5 downto 0);
>     \\-.stai\\ : in std_logic_vector(1 downto 0);
>     \\-.endi\\ : in std_logic_vector(1 downto 0);
>     \\-.strb\\ : in std_logic_vector(2 downto 0);
>     \\-.fault\\ : out std_logic := '0'
>   );
> end entity;
> architecture check of watch is
>   type \\-.items\\ is array (0 to 5) of std_logic_vector(7 downto 0);
>   constant \\-.want\\ : \\-.items\\ := (
>     0 => \"10000001\",
>     1 => \"10000010\",
>     2 => \"01000000\",
>     3 => \"01000000\",
>     4 => \"01000001\",
>     5 => \"00000000\"
>   );
> begin
>   process
>     variable place : natural := 0;
>   begin
>     loop
>       wait until rising_edge(clk) and \\-.valid\\ = '1' and \\-.ready\\ = '1';
>       for lane in 0 to 2 loop
>         if to_integer(unsigned(\\-.stai\\)) <= lane and lane <= to_integer(unsigned(\\-.endi\\)) and \\-.strb\\(lane) = '1' then
>           if \\-.want\\(place) = \"10\" & \"00\" & \\-.data\\(lane * 4 + 3 downto lane * 4) then
>             place := place + 1;
>           else
>             \\-.fault\\ <= '1';
>             wait;
>           end if;
>         end if;
>         for dim in 0 to 1 loop
>           if \\-.last\\(lane * 2 + dim) = '1' then
>             if \\-.want\\(place) = \"01\" & std_logic_vector(to_unsigned(dim, 6)) then
>               place := place + 1;
>             else
>               \\-.fault\\ <= '1';
>               wait;
>             end if;
>           end if;
>         end loop;
>       end loop;
>     end loop;
>   end process;
> end architecture;
= 0
# two lanes without dimensions: no signal tells the lanes below level 5, endi does at level 5, and stai too at level 6
$ expect p n::s.p v
~ namespace n { streamlet s = (p: in Stream(data: Bits(8), throughput: 2, complexity: 4)); }
@ p
~ root - = 1 2;
@ v
> -- tydi-watch 1
> -- stream - lanes 2 dims 0 level 4 element 8 user 0 forward
> library ieee;
> use ieee.std_logic_1164.all;
> use ieee.numeric_std.all;
> entity watch is
>   port (
>     clk : in std_logic;
>     \\-.ready\\ : in std_logic;
>     \\-.valid\\ : in std_logic;
>     \\-.data\\ : in std_logic_vector(15 downto 0);
>     \\-.fault\\ : out std_logic := '0'
>   );
> end entity;
> architecture check of watch is
>   type \\-.items\\ is array (0 to 2) of std_logic_vector(9 downto 0);
>   constant \\-.want\\ : \\-.items\\ := (
>     0 => \"1000000001\",
>     1 => \"1000000010\",
>     2 => \"0000000000\"
>   );
> begin
>   process
>     variable place : natural := 0;
>   begin
>     loop
>       wait until rising_edge(clk) and \\-.valid\\ = '1' and \\-.ready\\ = '1';
>       for lane in 0 to 1 loop
>         if true then
>           if \\-.want\\(place) = \"10\" & \\-.data\\(lane * 8 + 7 downto lane * 8) then
>             place := place + 1;
>           else
>             \\-.fault\\ <= '1';
>             wait;
>           end if;
>         end if;
>       end loop;
>     end loop;
>   end process;
> end architecture;
= 0
$ expect p n::s.p v
~ namespace n { streamlet s = (p: in Stream(data: Bits(8), throughput: 2, complexity: 5)); }
@ p
~ root - = 1 2;
@ v
> -- tydi-watch 1
> -- stream - lanes 2 dims 0 level 5 element 8 user 0 forward
> library ieee;
> use ieee.std_logic_1164.all;
> use ieee.numeric_std.all;
> entity watch is
>   port (
>     clk : in std_logic;
>     \\-.ready\\ : in std_logic;
>     \\-.valid\\ : in std_logic;
>     \\-.data\\ : in std_logic_vector(15 downto 0);
>     \\-.endi\\ : in std_logic_vector(0 downto 0);
>     \\-.fault\\ : out std_logic := '0'
>   );
> end entity;
> architecture check of watch is
>   type \\-.items\\ is array (0 to 2) of std_logic_vector(9 downto 0);
>   constant \\-.want\\ : \\-.items\\ := (
>     0 => \"1000000001\",
>     1 => \"1000000010\",
>     2 => \"0000000000\"
>   );
> begin
>   process
>     variable place : natural := 0;
>   begin
>     loop
>       wait until rising_edge(clk) and \\-.valid\\ = '1' and \\-.ready\\ = '1';
>       for lane in 0 to 1 loop
>         if lane <= to_integer(unsigned(\\-.endi\\)) then
>           if \\-.want\\(place) = \"10\" & \\-.data\\(lane * 8 + 7 downto lane * 8) then
>             place := place + 1;
>           else
>             \\-.fault\\ <= '1';
>             wait;
>           end if;
>         end if;
>       end loop;
>     end loop;
>   end process;
> end architecture;
= 0
$ expect p n::s.p v
~ namespace n { streamlet s = (p: in Stream(data: Bits(8), throughput: 2, complexity: 6)); }
@ p
~ root - = 1 2;
@ v
> -- tydi-watch 1
> -- stream - lanes 2 dims 0 level 6 element 8 user 0 forward
> library ieee;
> use ieee.std_logic_1164.all;
> use ieee.numeric_std.all;
> entity watch is
>   port (
>     clk : in std_logic;
>     \\-.ready\\ : in std_logic;
>     \\-.valid\\ : in std_logic;
>     \\-.data\\ : in std_logic_vector(15 downto 0);
>     \\-.stai\\ : in std_logic_vector(0 downto 0);
>     \\-.endi\\ : in std_logic_vector(0 downto 0);
>     \\-.fault\\ : out std_logic := '0'
>   );
> end entity;
> architecture check of watch is
>   type \\-.items\\ is array (0 to 2) of std_logic_vector(9 downto 0);
>   constant \\-.want\\ : \\-.items\\ := (
>     0 => \"1000000001\",
>     1 => \"1000000010\",
>     2 => \"0000000000\"
>   );
> begin
>   process
>     variable place : natural := 0;
>   begin
>     loop
>       wait until rising_edge(clk) and \\-.valid\\ = '1' and \\-.ready\\ = '1';
>       for lane in 0 to 1 loop
>         if to_integer(unsigned(\\-.stai\\)) <= lane and lane <= to_integer(unsigned(\\-.endi\\)) then
>           if \\-.want\\(place) = \"10\" & \\-.data\\(lane * 8 + 7 downto lane * 8) then
>             place := place + 1;
>           else
>             \\-.fault\\ <= '1';
>             wait;
>           end if;
>         end if;
>       end loop;
>     end loop;
>   end process;
> end architecture;
= 0
# a level of two numbers
$ expect p n::s.p v
~ namespace n { streamlet s = (p: in Stream(data: Bits(8), complexity: 4.1)); }
@ p
~ root - = 1;
@ v
> -- tydi-watch 1
> -- stream - lanes 1 dims 0 level 4.1 element 8 user 0 forward
> library ieee;
> use ieee.std_logic_1164.all;
> use ieee.numeric_std.all;
> entity watch is
>   port (
>     clk : in std_logic;
>     \\-.ready\\ : in std_logic;
>     \\-.valid\\ : in std_logic;
>     \\-.data\\ : in std_logic_vector(7 downto 0);
>     \\-.fault\\ : out std_logic := '0'
>   );
> end entity;
> architecture check of watch is
>   type \\-.items\\ is array (0 to 1) of std_logic_vector(9 downto 0);
>   constant \\-.want\\ : \\-.items\\ := (
>     0 => \"1000000001\",
>     1 => \"0000000000\"
>   );
> begin
>   process
>     variable place : natural := 0;
>   begin
>     loop
>       wait until rising_edge(clk) and \\-.valid\\ = '1' and \\-.ready\\ = '1';
>       for lane in 0 to 0 loop
>         if true then
>           if \\-.want\\(place) = \"10\" & \\-.data\\(lane * 8 + 7 downto lane * 8) then
>             place := place + 1;
>           else
>             \\-.fault\\ <= '1';
>             wait;
>           end if;
>         end if;
>       end loop;
>     end loop;
>   end process;
> end architecture;
= 0
# a stream that runs against the port
$ expect p n::s.p v
~ namespace n { type t = Stream(data: Group(a: Bits(8), b: Stream(data: Bits(8), complexity: 1, synchronicity: Desync, direction: Reverse)), complexity: 1); streamlet s = (p: in t); }
@ p
~ root - = {a: 1, b: apart}; root b = 2 3;
@ v
> -- tydi-watch 1
> -- stream - lanes 1 dims 0 level 1 element 8 user 0 forward
> -- stream b lanes 1 dims 0 level 1 element 8 user 0 reverse
> library ieee;
> use ieee.std_logic_1164.all;
> use ieee.numeric_std.all;
> entity watch is
>   port (
>     clk : in std_logic;
>     \\-.ready\\ : in std_logic;
>     \\-.valid\\ : in std_logic;
>     \\-.data\\ : in std_logic_vector(7 downto 0);
>     \\-.fault\\ : out std_logic := '0';
>     \\b.ready\\ : in std_logic;
>     \\b.valid\\ : in std_logic;
>     \\b.data\\ : in std_logic_vector(7 downto 0);
>     \\b.fault\\ : out std_logic := '0'
>   );
> end entity;
> architecture check of watch is
>   type \\-.items\\ is array (0 to 1) of std_logic_vector(9 downto 0);
>   constant \\-.want\\ : \\-.items\\ := (
>     0 => \"1000000001\",
>     1 => \"0000000000\"
>   );
>   type \\b.items\\ is array (0 to 2) of std_logic_vector(9 downto 0);
>   constant \\b.want\\ : \\b.items\\ := (
>     0 => \"1000000010\",
>     1 => \"1000000011\",
>     2 => \"0000000000\"
>   );
> begin
>   process
>     variable place : natural := 0;
>   begin
>     loop
>       wait until rising_edge(clk) and \\-.valid\\ = '1' and \\-.ready\\ = '1';
>       for lane in 0 to 0 loop
>         if true then
>           if \\-.want\\(place) = \"10\" & \\-.data\\(lane * 8 + 7 downto lane * 8) then
>             place := place + 1;
>           else
>             \\-.fault\\ <= '1';
>             wait;
>           end if;
>         end if;
>       end loop;
>     end loop;
>   end process;
>   process
>     variable place : natural := 0;
>   begin
>     loop
>       wait until rising_edge(clk) and \\b.valid\\ = '1' and \\b.ready\\ = '1';
>       for lane in 0 to 0 loop
>         if true then
>           if \\b.want\\(place) = \"10\" & \\b.data\\(lane * 8 + 7 downto lane * 8) then
>             place := place + 1;
>           else
>             \\b.fault\\ <= '1';
>             wait;
>           end if;
>         end if;
>       end loop;
>     end loop;
>   end process;
> end architecture;
= 0
";

/// What `expect` refuses.
pub(crate) const UNEXPECTED: &str = "\
# the errors of the project and its port
$ expect p n::s.p v
~ namespace a {
@ p
~ root - = [1];
@ v
! tydi: EndOfText p
= 1
$ expect p n::s.p v
~ namespace n { streamlet s = (p: in Bits(8)); }
@ p
~ root - = [1];
@ v
! tydi: PortNotStream p 1:30
= 1
$ expect p n::s.q v
~ namespace n { type t = Stream(data: Bits(8), throughput: 1, dimensionality: 1, complexity: 1); streamlet s = (p: in t); }
@ p
~ root - = [1];
@ v
! tydi: NoPort n::s.q
= 1
$ expect p n::s v
~ namespace n { type t = Stream(data: Bits(8), throughput: 1, dimensionality: 1, complexity: 1); streamlet s = (p: in t); }
@ p
~ root - = [1];
@ v
! tydi: NoPort n::s
= 1
$ expect p n::s.p v
~ namespace n { streamlet s = (p: in Stream(data: Stream(data: Bits(8), complexity: 1), complexity: 1, keep: true)); }
@ p
~ root - = ;
@ v
! tydi: NameClash -
= 1
# a node without a carrier, before the value is read
$ expect p n::s.p v
~ namespace n { type t = Stream(data: Group(a: Stream(data: Bits(8), complexity: 1, synchronicity: Desync)), dimensionality: 1, complexity: 1); streamlet s = (p: in t); }
@ p
~ no value
@ v
! tydi: NoCarrier -
= 1
# errors of the value
$ expect p n::s.p v
~ namespace n { type t = Stream(data: Bits(8), throughput: 1, dimensionality: 1, complexity: 1); streamlet s = (p: in t); }
@ p
~ root - = [256];
@ v
! tydi: OutOfRange v 1:11
= 1
$ expect p n::s.p v
~ namespace n { type t = Stream(data: Bits(8), throughput: 1, dimensionality: 1, complexity: 1); streamlet s = (p: in t); }
@ p
~ root - = [1;
@ v
! tydi: Syntax v 1:12
= 1
$ expect p n::s.p v
~ namespace n { type t = Stream(data: Bits(8), throughput: 1, dimensionality: 1, complexity: 1); streamlet s = (p: in t); }
@ p
~ root - = 1;
@ v
! tydi: WrongShape v 1:10
= 1
# files that are not there
$ expect p n::s.p v
~ namespace n { type t = Stream(data: Bits(8), throughput: 1, dimensionality: 1, complexity: 1); streamlet s = (p: in t); }
@ p
! tydi: NoFile v
= 1
$ expect p n::s.p v
~ root - = [1];
@ v
! tydi: NoFile p
= 1
# words that spell no command
$ expect p n::s.p
! tydi: Usage
= 2
$ expect p n::s.p v v
! tydi: Usage
= 2
$ expect p -n::s.p v
! tydi: Usage
= 2
";
