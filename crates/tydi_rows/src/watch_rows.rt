//! Rows of `watch`. The monitor stands in the file `m` and the trace in `t`.

/// Monitors that run over traces.
pub(crate) const WATCHED: &str = "\
# all items, each in its place
$ watch m t
< -- tydi-watch 1
< -- stream - lanes 1 dims 1 level 1 element 8 user 0 forward
< library ieee;
< use ieee.std_logic_1164.all;
< use ieee.numeric_std.all;
< entity watch is
<   port (
<     clk : in std_logic;
<     \\-.ready\\ : in std_logic;
<     \\-.valid\\ : in std_logic;
<     \\-.data\\ : in std_logic_vector(7 downto 0);
<     \\-.last\\ : in std_logic_vector(0 downto 0);
<     \\-.strb\\ : in std_logic_vector(0 downto 0);
<     \\-.fault\\ : out std_logic := '0'
<   );
< end entity;
< architecture check of watch is
<   type \\-.items\\ is array (0 to 5) of std_logic_vector(9 downto 0);
<   constant \\-.want\\ : \\-.items\\ := (
<     0 => \"1000000001\",
<     1 => \"1000000010\",
<     2 => \"0100000000\",
<     3 => \"1000000011\",
<     4 => \"0100000000\",
<     5 => \"0000000000\"
<   );
< begin
<   process
<     variable place : natural := 0;
<   begin
<     loop
<       wait until rising_edge(clk) and \\-.valid\\ = '1' and \\-.ready\\ = '1';
<       for lane in 0 to 0 loop
<         if \\-.strb\\(lane) = '1' then
<           if \\-.want\\(place) = \"10\" & \\-.data\\(lane * 8 + 7 downto lane * 8) then
<             place := place + 1;
<           else
<             \\-.fault\\ <= '1';
<             wait;
<           end if;
<         end if;
<         for dim in 0 to 0 loop
<           if \\-.last\\(lane * 1 + dim) = '1' then
<             if \\-.want\\(place) = \"01\" & std_logic_vector(to_unsigned(dim, 8)) then
<               place := place + 1;
<             else
<               \\-.fault\\ <= '1';
<               wait;
<             end if;
<           end if;
<         end loop;
<       end loop;
<     end loop;
<   end process;
< end architecture;
@ m
< tydi-trace 1
< cycles 3
< stream - lanes 1 dims 1 level 1 element 8 user 0 forward
< 1 1 d=01 l=0 b=1
< 1 1 d=02 l=1 b=1
< 1 1 d=03 l=1 b=1
@ t
> stream - seen 5 of 5
= 0
# transfers that are offered and not taken count for nothing
$ watch m t
< -- tydi-watch 1
< -- stream - lanes 1 dims 1 level 1 element 8 user 0 forward
< library ieee;
< use ieee.std_logic_1164.all;
< use ieee.numeric_std.all;
< entity watch is
<   port (
<     clk : in std_logic;
<     \\-.ready\\ : in std_logic;
<     \\-.valid\\ : in std_logic;
<     \\-.data\\ : in std_logic_vector(7 downto 0);
<     \\-.last\\ : in std_logic_vector(0 downto 0);
<     \\-.strb\\ : in std_logic_vector(0 downto 0);
<     \\-.fault\\ : out std_logic := '0'
<   );
< end entity;
< architecture check of watch is
<   type \\-.items\\ is array (0 to 3) of std_logic_vector(9 downto 0);
<   constant \\-.want\\ : \\-.items\\ := (
<     0 => \"1000000001\",
<     1 => \"1000000010\",
<     2 => \"0100000000\",
<     3 => \"0000000000\"
<   );
< begin
<   process
<     variable place : natural := 0;
<   begin
<     loop
<       wait until rising_edge(clk) and \\-.valid\\ = '1' and \\-.ready\\ = '1';
<       for lane in 0 to 0 loop
<         if \\-.strb\\(lane) = '1' then
<           if \\-.want\\(place) = \"10\" & \\-.data\\(lane * 8 + 7 downto lane * 8) then
<             place := place + 1;
<           else
<             \\-.fault\\ <= '1';
<             wait;
<           end if;
<         end if;
<         for dim in 0 to 0 loop
<           if \\-.last\\(lane * 1 + dim) = '1' then
<             if \\-.want\\(place) = \"01\" & std_logic_vector(to_unsigned(dim, 8)) then
<               place := place + 1;
<             else
<               \\-.fault\\ <= '1';
<               wait;
<             end if;
<           end if;
<         end loop;
<       end loop;
<     end loop;
<   end process;
< end architecture;
@ m
< tydi-trace 1
< cycles 4
< stream - lanes 1 dims 1 level 1 element 8 user 0 forward
< 1 0 d=01 l=0 b=1
< 1 1 d=01 l=0 b=1
< 0 1 -
< 1 1 d=02 l=1 b=1
@ t
> stream - seen 3 of 3
= 0
# another element, by the cycle in which it is done
$ watch m t
< -- tydi-watch 1
< -- stream - lanes 1 dims 1 level 1 element 8 user 0 forward
< library ieee;
< use ieee.std_logic_1164.all;
< use ieee.numeric_std.all;
< entity watch is
<   port (
<     clk : in std_logic;
<     \\-.ready\\ : in std_logic;
<     \\-.valid\\ : in std_logic;
<     \\-.data\\ : in std_logic_vector(7 downto 0);
<     \\-.last\\ : in std_logic_vector(0 downto 0);
<     \\-.strb\\ : in std_logic_vector(0 downto 0);
<     \\-.fault\\ : out std_logic := '0'
<   );
< end entity;
< architecture check of watch is
<   type \\-.items\\ is array (0 to 5) of std_logic_vector(9 downto 0);
<   constant \\-.want\\ : \\-.items\\ := (
<     0 => \"1000000001\",
<     1 => \"1000000010\",
<     2 => \"0100000000\",
<     3 => \"1000000100\",
<     4 => \"0100000000\",
<     5 => \"0000000000\"
<   );
< begin
<   process
<     variable place : natural := 0;
<   begin
<     loop
<       wait until rising_edge(clk) and \\-.valid\\ = '1' and \\-.ready\\ = '1';
<       for lane in 0 to 0 loop
<         if \\-.strb\\(lane) = '1' then
<           if \\-.want\\(place) = \"10\" & \\-.data\\(lane * 8 + 7 downto lane * 8) then
<             place := place + 1;
<           else
<             \\-.fault\\ <= '1';
<             wait;
<           end if;
<         end if;
<         for dim in 0 to 0 loop
<           if \\-.last\\(lane * 1 + dim) = '1' then
<             if \\-.want\\(place) = \"01\" & std_logic_vector(to_unsigned(dim, 8)) then
<               place := place + 1;
<             else
<               \\-.fault\\ <= '1';
<               wait;
<             end if;
<           end if;
<         end loop;
<       end loop;
<     end loop;
<   end process;
< end architecture;
@ m
< tydi-trace 1
< cycles 3
< stream - lanes 1 dims 1 level 1 element 8 user 0 forward
< 1 1 d=01 l=0 b=1
< 1 1 d=02 l=1 b=1
< 1 1 d=03 l=1 b=1
@ t
> stream - report 2
= 6
$ watch m t
< -- tydi-watch 1
< -- stream - lanes 1 dims 1 level 1 element 8 user 0 forward
< library ieee;
< use ieee.std_logic_1164.all;
< use ieee.numeric_std.all;
< entity watch is
<   port (
<     clk : in std_logic;
<     \\-.ready\\ : in std_logic;
<     \\-.valid\\ : in std_logic;
<     \\-.data\\ : in std_logic_vector(7 downto 0);
<     \\-.last\\ : in std_logic_vector(0 downto 0);
<     \\-.strb\\ : in std_logic_vector(0 downto 0);
<     \\-.fault\\ : out std_logic := '0'
<   );
< end entity;
< architecture check of watch is
<   type \\-.items\\ is array (0 to 5) of std_logic_vector(9 downto 0);
<   constant \\-.want\\ : \\-.items\\ := (
<     0 => \"1000000000\",
<     1 => \"1000000010\",
<     2 => \"0100000000\",
<     3 => \"1000000011\",
<     4 => \"0100000000\",
<     5 => \"0000000000\"
<   );
< begin
<   process
<     variable place : natural := 0;
<   begin
<     loop
<       wait until rising_edge(clk) and \\-.valid\\ = '1' and \\-.ready\\ = '1';
<       for lane in 0 to 0 loop
<         if \\-.strb\\(lane) = '1' then
<           if \\-.want\\(place) = \"10\" & \\-.data\\(lane * 8 + 7 downto lane * 8) then
<             place := place + 1;
<           else
<             \\-.fault\\ <= '1';
<             wait;
<           end if;
<         end if;
<         for dim in 0 to 0 loop
<           if \\-.last\\(lane * 1 + dim) = '1' then
<             if \\-.want\\(place) = \"01\" & std_logic_vector(to_unsigned(dim, 8)) then
<               place := place + 1;
<             else
<               \\-.fault\\ <= '1';
<               wait;
<             end if;
<           end if;
<         end loop;
<       end loop;
<     end loop;
<   end process;
< end architecture;
@ m
< tydi-trace 1
< cycles 3
< stream - lanes 1 dims 1 level 1 element 8 user 0 forward
< 1 1 d=01 l=0 b=1
< 1 1 d=02 l=1 b=1
< 1 1 d=03 l=1 b=1
@ t
> stream - report 0
= 6
# a sequence that ends early, and one that ends late
$ watch m t
< -- tydi-watch 1
< -- stream - lanes 1 dims 1 level 1 element 8 user 0 forward
< library ieee;
< use ieee.std_logic_1164.all;
< use ieee.numeric_std.all;
< entity watch is
<   port (
<     clk : in std_logic;
<     \\-.ready\\ : in std_logic;
<     \\-.valid\\ : in std_logic;
<     \\-.data\\ : in std_logic_vector(7 downto 0);
<     \\-.last\\ : in std_logic_vector(0 downto 0);
<     \\-.strb\\ : in std_logic_vector(0 downto 0);
<     \\-.fault\\ : out std_logic := '0'
<   );
< end entity;
< architecture check of watch is
<   type \\-.items\\ is array (0 to 4) of std_logic_vector(9 downto 0);
<   constant \\-.want\\ : \\-.items\\ := (
<     0 => \"1000000001\",
<     1 => \"1000000010\",
<     2 => \"1000000011\",
<     3 => \"0100000000\",
<     4 => \"0000000000\"
<   );
< begin
<   process
<     variable place : natural := 0;
<   begin
<     loop
<       wait until rising_edge(clk) and \\-.valid\\ = '1' and \\-.ready\\ = '1';
<       for lane in 0 to 0 loop
<         if \\-.strb\\(lane) = '1' then
<           if \\-.want\\(place) = \"10\" & \\-.data\\(lane * 8 + 7 downto lane * 8) then
<             place := place + 1;
<           else
<             \\-.fault\\ <= '1';
<             wait;
<           end if;
<         end if;
<         for dim in 0 to 0 loop
<           if \\-.last\\(lane * 1 + dim) = '1' then
<             if \\-.want\\(place) = \"01\" & std_logic_vector(to_unsigned(dim, 8)) then
<               place := place + 1;
<             else
<               \\-.fault\\ <= '1';
<               wait;
<             end if;
<           end if;
<         end loop;
<       end loop;
<     end loop;
<   end process;
< end architecture;
@ m
< tydi-trace 1
< cycles 3
< stream - lanes 1 dims 1 level 1 element 8 user 0 forward
< 1 1 d=01 l=0 b=1
< 1 1 d=02 l=1 b=1
< 1 1 d=03 l=1 b=1
@ t
> stream - report 1
= 6
$ watch m t
< -- tydi-watch 1
< -- stream - lanes 1 dims 1 level 1 element 8 user 0 forward
< library ieee;
< use ieee.std_logic_1164.all;
< use ieee.numeric_std.all;
< entity watch is
<   port (
<     clk : in std_logic;
<     \\-.ready\\ : in std_logic;
<     \\-.valid\\ : in std_logic;
<     \\-.data\\ : in std_logic_vector(7 downto 0);
<     \\-.last\\ : in std_logic_vector(0 downto 0);
<     \\-.strb\\ : in std_logic_vector(0 downto 0);
<     \\-.fault\\ : out std_logic := '0'
<   );
< end entity;
< architecture check of watch is
<   type \\-.items\\ is array (0 to 4) of std_logic_vector(9 downto 0);
<   constant \\-.want\\ : \\-.items\\ := (
<     0 => \"1000000001\",
<     1 => \"0100000000\",
<     2 => \"1000000010\",
<     3 => \"0100000000\",
<     4 => \"0000000000\"
<   );
< begin
<   process
<     variable place : natural := 0;
<   begin
<     loop
<       wait until rising_edge(clk) and \\-.valid\\ = '1' and \\-.ready\\ = '1';
<       for lane in 0 to 0 loop
<         if \\-.strb\\(lane) = '1' then
<           if \\-.want\\(place) = \"10\" & \\-.data\\(lane * 8 + 7 downto lane * 8) then
<             place := place + 1;
<           else
<             \\-.fault\\ <= '1';
<             wait;
<           end if;
<         end if;
<         for dim in 0 to 0 loop
<           if \\-.last\\(lane * 1 + dim) = '1' then
<             if \\-.want\\(place) = \"01\" & std_logic_vector(to_unsigned(dim, 8)) then
<               place := place + 1;
<             else
<               \\-.fault\\ <= '1';
<               wait;
<             end if;
<           end if;
<         end loop;
<       end loop;
<     end loop;
<   end process;
< end architecture;
@ m
< tydi-trace 1
< cycles 3
< stream - lanes 1 dims 1 level 1 element 8 user 0 forward
< 1 1 d=01 l=0 b=1
< 1 1 d=02 l=1 b=1
< 1 1 d=03 l=1 b=1
@ t
> stream - report 1
= 6
# a trace that goes on
$ watch m t
< -- tydi-watch 1
< -- stream - lanes 1 dims 1 level 1 element 8 user 0 forward
< library ieee;
< use ieee.std_logic_1164.all;
< use ieee.numeric_std.all;
< entity watch is
<   port (
<     clk : in std_logic;
<     \\-.ready\\ : in std_logic;
<     \\-.valid\\ : in std_logic;
<     \\-.data\\ : in std_logic_vector(7 downto 0);
<     \\-.last\\ : in std_logic_vector(0 downto 0);
<     \\-.strb\\ : in std_logic_vector(0 downto 0);
<     \\-.fault\\ : out std_logic := '0'
<   );
< end entity;
< architecture check of watch is
<   type \\-.items\\ is array (0 to 3) of std_logic_vector(9 downto 0);
<   constant \\-.want\\ : \\-.items\\ := (
<     0 => \"1000000001\",
<     1 => \"1000000010\",
<     2 => \"0100000000\",
<     3 => \"0000000000\"
<   );
< begin
<   process
<     variable place : natural := 0;
<   begin
<     loop
<       wait until rising_edge(clk) and \\-.valid\\ = '1' and \\-.ready\\ = '1';
<       for lane in 0 to 0 loop
<         if \\-.strb\\(lane) = '1' then
<           if \\-.want\\(place) = \"10\" & \\-.data\\(lane * 8 + 7 downto lane * 8) then
<             place := place + 1;
<           else
<             \\-.fault\\ <= '1';
<             wait;
<           end if;
<         end if;
<         for dim in 0 to 0 loop
<           if \\-.last\\(lane * 1 + dim) = '1' then
<             if \\-.want\\(place) = \"01\" & std_logic_vector(to_unsigned(dim, 8)) then
<               place := place + 1;
<             else
<               \\-.fault\\ <= '1';
<               wait;
<             end if;
<           end if;
<         end loop;
<       end loop;
<     end loop;
<   end process;
< end architecture;
@ m
< tydi-trace 1
< cycles 3
< stream - lanes 1 dims 1 level 1 element 8 user 0 forward
< 1 1 d=01 l=0 b=1
< 1 1 d=02 l=1 b=1
< 1 1 d=03 l=1 b=1
@ t
> stream - report 2
= 6
$ watch m t
< -- tydi-watch 1
< -- stream - lanes 1 dims 1 level 1 element 8 user 0 forward
< library ieee;
< use ieee.std_logic_1164.all;
< use ieee.numeric_std.all;
< entity watch is
<   port (
<     clk : in std_logic;
<     \\-.ready\\ : in std_logic;
<     \\-.valid\\ : in std_logic;
<     \\-.data\\ : in std_logic_vector(7 downto 0);
<     \\-.last\\ : in std_logic_vector(0 downto 0);
<     \\-.strb\\ : in std_logic_vector(0 downto 0);
<     \\-.fault\\ : out std_logic := '0'
<   );
< end entity;
< architecture check of watch is
<   type \\-.items\\ is array (0 to 0) of std_logic_vector(9 downto 0);
<   constant \\-.want\\ : \\-.items\\ := (
<     0 => \"0000000000\"
<   );
< begin
<   process
<     variable place : natural := 0;
<   begin
<     loop
<       wait until rising_edge(clk) and \\-.valid\\ = '1' and \\-.ready\\ = '1';
<       for lane in 0 to 0 loop
<         if \\-.strb\\(lane) = '1' then
<           if \\-.want\\(place) = \"10\" & \\-.data\\(lane * 8 + 7 downto lane * 8) then
<             place := place + 1;
<           else
<             \\-.fault\\ <= '1';
<             wait;
<           end if;
<         end if;
<         for dim in 0 to 0 loop
<           if \\-.last\\(lane * 1 + dim) = '1' then
<             if \\-.want\\(place) = \"01\" & std_logic_vector(to_unsigned(dim, 8)) then
<               place := place + 1;
<             else
<               \\-.fault\\ <= '1';
<               wait;
<             end if;
<           end if;
<         end loop;
<       end loop;
<     end loop;
<   end process;
< end architecture;
@ m
< tydi-trace 1
< cycles 3
< stream - lanes 1 dims 1 level 1 element 8 user 0 forward
< 1 1 d=01 l=0 b=1
< 1 1 d=02 l=1 b=1
< 1 1 d=03 l=1 b=1
@ t
> stream - report 0
= 6
# a trace that ends early: fewer items are seen, and nothing is wrong
$ watch m t
< -- tydi-watch 1
< -- stream - lanes 1 dims 1 level 1 element 8 user 0 forward
< library ieee;
< use ieee.std_logic_1164.all;
< use ieee.numeric_std.all;
< entity watch is
<   port (
<     clk : in std_logic;
<     \\-.ready\\ : in std_logic;
<     \\-.valid\\ : in std_logic;
<     \\-.data\\ : in std_logic_vector(7 downto 0);
<     \\-.last\\ : in std_logic_vector(0 downto 0);
<     \\-.strb\\ : in std_logic_vector(0 downto 0);
<     \\-.fault\\ : out std_logic := '0'
<   );
< end entity;
< architecture check of watch is
<   type \\-.items\\ is array (0 to 7) of std_logic_vector(9 downto 0);
<   constant \\-.want\\ : \\-.items\\ := (
<     0 => \"1000000001\",
<     1 => \"1000000010\",
<     2 => \"0100000000\",
<     3 => \"1000000011\",
<     4 => \"0100000000\",
<     5 => \"1000000100\",
<     6 => \"0100000000\",
<     7 => \"0000000000\"
<   );
< begin
<   process
<     variable place : natural := 0;
<   begin
<     loop
<       wait until rising_edge(clk) and \\-.valid\\ = '1' and \\-.ready\\ = '1';
<       for lane in 0 to 0 loop
<         if \\-.strb\\(lane) = '1' then
<           if \\-.want\\(place) = \"10\" & \\-.data\\(lane * 8 + 7 downto lane * 8) then
<             place := place + 1;
<           else
<             \\-.fault\\ <= '1';
<             wait;
<           end if;
<         end if;
<         for dim in 0 to 0 loop
<           if \\-.last\\(lane * 1 + dim) = '1' then
<             if \\-.want\\(place) = \"01\" & std_logic_vector(to_unsigned(dim, 8)) then
<               place := place + 1;
<             else
<               \\-.fault\\ <= '1';
<               wait;
<             end if;
<           end if;
<         end loop;
<       end loop;
<     end loop;
<   end process;
< end architecture;
@ m
< tydi-trace 1
< cycles 3
< stream - lanes 1 dims 1 level 1 element 8 user 0 forward
< 1 1 d=01 l=0 b=1
< 1 1 d=02 l=1 b=1
< 1 1 d=03 l=1 b=1
@ t
> stream - seen 5 of 7
= 0
$ watch m t
< -- tydi-watch 1
< -- stream - lanes 1 dims 1 level 1 element 8 user 0 forward
< library ieee;
< use ieee.std_logic_1164.all;
< use ieee.numeric_std.all;
< entity watch is
<   port (
<     clk : in std_logic;
<     \\-.ready\\ : in std_logic;
<     \\-.valid\\ : in std_logic;
<     \\-.data\\ : in std_logic_vector(7 downto 0);
<     \\-.last\\ : in std_logic_vector(0 downto 0);
<     \\-.strb\\ : in std_logic_vector(0 downto 0);
<     \\-.fault\\ : out std_logic := '0'
<   );
< end entity;
< architecture check of watch is
<   type \\-.items\\ is array (0 to 1) of std_logic_vector(9 downto 0);
<   constant \\-.want\\ : \\-.items\\ := (
<     0 => \"1000000001\",
<     1 => \"0000000000\"
<   );
< begin
<   process
<     variable place : natural := 0;
<   begin
<     loop
<       wait until rising_edge(clk) and \\-.valid\\ = '1' and \\-.ready\\ = '1';
<       for lane in 0 to 0 loop
<         if \\-.strb\\(lane) = '1' then
<           if \\-.want\\(place) = \"10\" & \\-.data\\(lane * 8 + 7 downto lane * 8) then
<             place := place + 1;
<           else
<             \\-.fault\\ <= '1';
<             wait;
<           end if;
<         end if;
<         for dim in 0 to 0 loop
<           if \\-.last\\(lane * 1 + dim) = '1' then
<             if \\-.want\\(place) = \"01\" & std_logic_vector(to_unsigned(dim, 8)) then
<               place := place + 1;
<             else
<               \\-.fault\\ <= '1';
<               wait;
<             end if;
<           end if;
<         end loop;
<       end loop;
<     end loop;
<   end process;
< end architecture;
@ m
< tydi-trace 1
< cycles 1
< stream - lanes 1 dims 1 level 1 element 8 user 0 forward
< 0 1 -
@ t
> stream - seen 0 of 1
= 0
# no cycles
$ watch m t
< -- tydi-watch 1
< -- stream - lanes 1 dims 1 level 1 element 8 user 0 forward
< library ieee;
< use ieee.std_logic_1164.all;
< use ieee.numeric_std.all;
< entity watch is
<   port (
<     clk : in std_logic;
<     \\-.ready\\ : in std_logic;
<     \\-.valid\\ : in std_logic;
<     \\-.data\\ : in std_logic_vector(7 downto 0);
<     \\-.last\\ : in std_logic_vector(0 downto 0);
<     \\-.strb\\ : in std_logic_vector(0 downto 0);
<     \\-.fault\\ : out std_logic := '0'
<   );
< end entity;
< architecture check of watch is
<   type \\-.items\\ is array (0 to 1) of std_logic_vector(9 downto 0);
<   constant \\-.want\\ : \\-.items\\ := (
<     0 => \"1000000001\",
<     1 => \"0000000000\"
<   );
< begin
<   process
<     variable place : natural := 0;
<   begin
<     loop
<       wait until rising_edge(clk) and \\-.valid\\ = '1' and \\-.ready\\ = '1';
<       for lane in 0 to 0 loop
<         if \\-.strb\\(lane) = '1' then
<           if \\-.want\\(place) = \"10\" & \\-.data\\(lane * 8 + 7 downto lane * 8) then
<             place := place + 1;
<           else
<             \\-.fault\\ <= '1';
<             wait;
<           end if;
<         end if;
<         for dim in 0 to 0 loop
<           if \\-.last\\(lane * 1 + dim) = '1' then
<             if \\-.want\\(place) = \"01\" & std_logic_vector(to_unsigned(dim, 8)) then
<               place := place + 1;
<             else
<               \\-.fault\\ <= '1';
<               wait;
<             end if;
<           end if;
<         end loop;
<       end loop;
<     end loop;
<   end process;
< end architecture;
@ m
< tydi-trace 1
< cycles 0
< stream - lanes 1 dims 1 level 1 element 8 user 0 forward
@ t
> stream - seen 0 of 1
= 0
# two streams, one of which reports
$ watch m t
< -- tydi-watch 1
< -- stream - lanes 1 dims 1 level 1 element 8 user 0 forward
< -- stream b lanes 1 dims 1 level 1 element 8 user 0 forward
< library ieee;
< use ieee.std_logic_1164.all;
< use ieee.numeric_std.all;
< entity watch is
<   port (
<     clk : in std_logic;
<     \\-.ready\\ : in std_logic;
<     \\-.valid\\ : in std_logic;
<     \\-.data\\ : in std_logic_vector(7 downto 0);
<     \\-.last\\ : in std_logic_vector(0 downto 0);
<     \\-.strb\\ : in std_logic_vector(0 downto 0);
<     \\-.fault\\ : out std_logic := '0';
<     \\b.ready\\ : in std_logic;
<     \\b.valid\\ : in std_logic;
<     \\b.data\\ : in std_logic_vector(7 downto 0);
<     \\b.last\\ : in std_logic_vector(0 downto 0);
<     \\b.strb\\ : in std_logic_vector(0 downto 0);
<     \\b.fault\\ : out std_logic := '0'
<   );
< end entity;
< architecture check of watch is
<   type \\-.items\\ is array (0 to 3) of std_logic_vector(9 downto 0);
<   constant \\-.want\\ : \\-.items\\ := (
<     0 => \"1000000001\",
<     1 => \"1000000100\",
<     2 => \"0100000000\",
<     3 => \"0000000000\"
<   );
<   type \\b.items\\ is array (0 to 4) of std_logic_vector(9 downto 0);
<   constant \\b.want\\ : \\b.items\\ := (
<     0 => \"1000000010\",
<     1 => \"1000000011\",
<     2 => \"0100000000\",
<     3 => \"0100000000\",
<     4 => \"0000000000\"
<   );
< begin
<   process
<     variable place : natural := 0;
<   begin
<     loop
<       wait until rising_edge(clk) and \\-.valid\\ = '1' and \\-.ready\\ = '1';
<       for lane in 0 to 0 loop
<         if \\-.strb\\(lane) = '1' then
<           if \\-.want\\(place) = \"10\" & \\-.data\\(lane * 8 + 7 downto lane * 8) then
<             place := place + 1;
<           else
<             \\-.fault\\ <= '1';
<             wait;
<           end if;
<         end if;
<         for dim in 0 to 0 loop
<           if \\-.last\\(lane * 1 + dim) = '1' then
<             if \\-.want\\(place) = \"01\" & std_logic_vector(to_unsigned(dim, 8)) then
<               place := place + 1;
<             else
<               \\-.fault\\ <= '1';
<               wait;
<             end if;
<           end if;
<         end loop;
<       end loop;
<     end loop;
<   end process;
<   process
<     variable place : natural := 0;
<   begin
<     loop
<       wait until rising_edge(clk) and \\b.valid\\ = '1' and \\b.ready\\ = '1';
<       for lane in 0 to 0 loop
<         if \\b.strb\\(lane) = '1' then
<           if \\b.want\\(place) = \"10\" & \\b.data\\(lane * 8 + 7 downto lane * 8) then
<             place := place + 1;
<           else
<             \\b.fault\\ <= '1';
<             wait;
<           end if;
<         end if;
<         for dim in 0 to 0 loop
<           if \\b.last\\(lane * 1 + dim) = '1' then
<             if \\b.want\\(place) = \"01\" & std_logic_vector(to_unsigned(dim, 8)) then
<               place := place + 1;
<             else
<               \\b.fault\\ <= '1';
<               wait;
<             end if;
<           end if;
<         end loop;
<       end loop;
<     end loop;
<   end process;
< end architecture;
@ m
< tydi-trace 1
< cycles 3
< stream - lanes 1 dims 1 level 1 element 8 user 0 forward
< stream b lanes 1 dims 1 level 1 element 8 user 0 forward
< 1 1 d=01 l=0 b=1
< 1 1 d=02 l=0 b=1
< 1 1 d=04 l=1 b=1
< 1 1 d=05 l=1 b=1
< 0 1 -
< 1 1 d=00 l=1 b=0
@ t
> stream - seen 3 of 3
> stream b report 1
= 6
$ watch m t
< -- tydi-watch 1
< -- stream - lanes 1 dims 1 level 1 element 8 user 0 forward
< -- stream b lanes 1 dims 1 level 1 element 8 user 0 forward
< library ieee;
< use ieee.std_logic_1164.all;
< use ieee.numeric_std.all;
< entity watch is
<   port (
<     clk : in std_logic;
<     \\-.ready\\ : in std_logic;
<     \\-.valid\\ : in std_logic;
<     \\-.data\\ : in std_logic_vector(7 downto 0);
<     \\-.last\\ : in std_logic_vector(0 downto 0);
<     \\-.strb\\ : in std_logic_vector(0 downto 0);
<     \\-.fault\\ : out std_logic := '0';
<     \\b.ready\\ : in std_logic;
<     \\b.valid\\ : in std_logic;
<     \\b.data\\ : in std_logic_vector(7 downto 0);
<     \\b.last\\ : in std_logic_vector(0 downto 0);
<     \\b.strb\\ : in std_logic_vector(0 downto 0);
<     \\b.fault\\ : out std_logic := '0'
<   );
< end entity;
< architecture check of watch is
<   type \\-.items\\ is array (0 to 3) of std_logic_vector(9 downto 0);
<   constant \\-.want\\ : \\-.items\\ := (
<     0 => \"1000000001\",
<     1 => \"1000000100\",
<     2 => \"0100000000\",
<     3 => \"0000000000\"
<   );
<   type \\b.items\\ is array (0 to 4) of std_logic_vector(9 downto 0);
<   constant \\b.want\\ : \\b.items\\ := (
<     0 => \"1000000010\",
<     1 => \"1000000011\",
<     2 => \"0100000000\",
<     3 => \"0100000000\",
<     4 => \"0000000000\"
<   );
< begin
<   process
<     variable place : natural := 0;
<   begin
<     loop
<       wait until rising_edge(clk) and \\-.valid\\ = '1' and \\-.ready\\ = '1';
<       for lane in 0 to 0 loop
<         if \\-.strb\\(lane) = '1' then
<           if \\-.want\\(place) = \"10\" & \\-.data\\(lane * 8 + 7 downto lane * 8) then
<             place := place + 1;
<           else
<             \\-.fault\\ <= '1';
<             wait;
<           end if;
<         end if;
<         for dim in 0 to 0 loop
<           if \\-.last\\(lane * 1 + dim) = '1' then
<             if \\-.want\\(place) = \"01\" & std_logic_vector(to_unsigned(dim, 8)) then
<               place := place + 1;
<             else
<               \\-.fault\\ <= '1';
<               wait;
<             end if;
<           end if;
<         end loop;
<       end loop;
<     end loop;
<   end process;
<   process
<     variable place : natural := 0;
<   begin
<     loop
<       wait until rising_edge(clk) and \\b.valid\\ = '1' and \\b.ready\\ = '1';
<       for lane in 0 to 0 loop
<         if \\b.strb\\(lane) = '1' then
<           if \\b.want\\(place) = \"10\" & \\b.data\\(lane * 8 + 7 downto lane * 8) then
<             place := place + 1;
<           else
<             \\b.fault\\ <= '1';
<             wait;
<           end if;
<         end if;
<         for dim in 0 to 0 loop
<           if \\b.last\\(lane * 1 + dim) = '1' then
<             if \\b.want\\(place) = \"01\" & std_logic_vector(to_unsigned(dim, 8)) then
<               place := place + 1;
<             else
<               \\b.fault\\ <= '1';
<               wait;
<             end if;
<           end if;
<         end loop;
<       end loop;
<     end loop;
<   end process;
< end architecture;
@ m
< tydi-trace 1
< cycles 3
< stream - lanes 1 dims 1 level 1 element 8 user 0 forward
< stream b lanes 1 dims 1 level 1 element 8 user 0 forward
< 1 1 d=01 l=0 b=1
< 1 1 d=02 l=0 b=1
< 1 1 d=04 l=1 b=1
< 1 1 d=03 l=1 b=1
< 0 1 -
< 1 1 d=00 l=1 b=0
@ t
> stream - seen 3 of 3
> stream b seen 4 of 4
= 0
# three lanes: only active ones have elements, and each lane may end sequences
$ watch m t
< -- tydi-watch 1
< -- stream - lanes 3 dims 2 level 8 element 4 user 0 forward
< library ieee;
< use ieee.std_logic_1164.all;
< use ieee.numeric_std.all;
< entity watch is
<   port (
<     clk : in std_logic;
<     \\-.ready\\ : in std_logic;
<     \\-.valid\\ : in std_logic;
<     \\-.data\\ : in std_logic_vector(11 downto 0);
<     \\-.last\\ : in std_logic_vector(5 downto 0);
<     \\-.stai\\ : in std_logic_vector(1 downto 0);
<     \\-.endi\\ : in std_logic_vector(1 downto 0);
<     \\-.strb\\ : in std_logic_vector(2 downto 0);
<     \\-.fault\\ : out std_logic := '0'
<   );
< end entity;
< architecture check of watch is
<   type \\-.items\\ is array (0 to 5) of std_logic_vector(7 downto 0);
<   constant \\-.want\\ : \\-.items\\ := (
<     0 => \"10000001\",
<     1 => \"10000010\",
<     2 => \"01000000\",
<     3 => \"01000000\",
<     4 => \"01000001\",
<     5 => \"00000000\"
<   );
< begin
<   process
<     variable place : natural := 0;
<   begin
<     loop
<       wait until rising_edge(clk) and \\-.valid\\ = '1' and \\-.ready\\ = '1';
<       for lane in 0 to 2 loop
<         if to_integer(unsigned(\\-.stai\\)) <= lane and lane <= to_integer(unsigned(\\-.endi\\)) and \\-.strb\\(lane) = '1' then
<           if \\-.want\\(place) = \"10\" & \"00\" & \\-.data\\(lane * 4 + 3 downto lane * 4) then
<             place := place + 1;
<           else
<             \\-.fault\\ <= '1';
<             wait;
<           end if;
<         end if;
<         for dim in 0 to 1 loop
<           if \\-.last\\(lane * 2 + dim) = '1' then
<             if \\-.want\\(place) = \"01\" & std_logic_vector(to_unsigned(dim, 6)) then
<               place := place + 1;
<             else
<               \\-.fault\\ <= '1';
<               wait;
<             end if;
<           end if;
<         end loop;
<       end loop;
<     end loop;
<   end process;
< end architecture;
@ m
< tydi-trace 1
< cycles 2
< stream - lanes 3 dims 2 level 8 element 4 user 0 forward
< 1 1 d=021 l=04 s=0 e=1 b=3
< 1 1 d=000 l=30 s=2 e=2 b=0
@ t
> stream - seen 5 of 5
= 0
# elements of no bits
$ watch m t
< -- tydi-watch 1
< -- stream - lanes 1 dims 1 level 1 element 0 user 0 forward
< library ieee;
< use ieee.std_logic_1164.all;
< use ieee.numeric_std.all;
< entity watch is
<   port (
<     clk : in std_logic;
<     \\-.ready\\ : in std_logic;
<     \\-.valid\\ : in std_logic;
<     \\-.last\\ : in std_logic_vector(0 downto 0);
<     \\-.strb\\ : in std_logic_vector(0 downto 0);
<     \\-.fault\\ : out std_logic := '0'
<   );
< end entity;
< architecture check of watch is
<   type \\-.items\\ is array (0 to 3) of std_logic_vector(7 downto 0);
<   constant \\-.want\\ : \\-.items\\ := (
<     0 => \"10000000\",
<     1 => \"10000000\",
<     2 => \"01000000\",
<     3 => \"00000000\"
<   );
< begin
<   process
<     variable place : natural := 0;
<   begin
<     loop
<       wait until rising_edge(clk) and \\-.valid\\ = '1' and \\-.ready\\ = '1';
<       for lane in 0 to 0 loop
<         if \\-.strb\\(lane) = '1' then
<           if \\-.want\\(place) = \"10000000\" then
<             place := place + 1;
<           else
<             \\-.fault\\ <= '1';
<             wait;
<           end if;
<         end if;
<         for dim in 0 to 0 loop
<           if \\-.last\\(lane * 1 + dim) = '1' then
<             if \\-.want\\(place) = \"01\" & std_logic_vector(to_unsigned(dim, 6)) then
<               place := place + 1;
<             else
<               \\-.fault\\ <= '1';
<               wait;
<             end if;
<           end if;
<         end loop;
<       end loop;
<     end loop;
<   end process;
< end architecture;
@ m
< tydi-trace 1
< cycles 2
< stream - lanes 1 dims 1 level 1 element 0 user 0 forward
< 1 1 l=0 b=1
< 1 1 l=1 b=1
@ t
> stream - seen 3 of 3
= 0
# no streams
$ watch m t
< -- tydi-watch 1
< library ieee;
< use ieee.std_logic_1164.all;
< use ieee.numeric_std.all;
< entity watch is
<   port (
<     clk : in std_logic
<   );
< end entity;
< architecture check of watch is
< begin
< end architecture;
@ m
< tydi-trace 1
< cycles 1
@ t
= 0
# what a process does is what it says: it needs nothing
$ watch m t
< -- tydi-watch 1
< -- stream - lanes 1 dims 1 level 1 element 8 user 0 forward
< library ieee;
< use ieee.std_logic_1164.all;
< use ieee.numeric_std.all;
< entity watch is
<   port (
<     clk : in std_logic;
<     \\-.ready\\ : in std_logic;
<     \\-.valid\\ : in std_logic;
<     \\-.data\\ : in std_logic_vector(7 downto 0);
<     \\-.last\\ : in std_logic_vector(0 downto 0);
<     \\-.strb\\ : in std_logic_vector(0 downto 0);
<     \\-.fault\\ : out std_logic := '0'
<   );
< end entity;
< architecture check of watch is
<   type \\-.items\\ is array (0 to 1) of std_logic_vector(9 downto 0);
<   constant \\-.want\\ : \\-.items\\ := (
<     0 => \"1000000001\",
<     1 => \"0000000000\"
<   );
< begin
<   process
<     variable place : natural := 0;
<   begin
<     loop
<       wait until rising_edge(clk) and \\-.valid\\ = '1' and \\-.ready\\ = '1';
<     end loop;
<   end process;
< end architecture;
@ m
< tydi-trace 1
< cycles 3
< stream - lanes 1 dims 1 level 1 element 8 user 0 forward
< 1 1 d=01 l=0 b=1
< 1 1 d=02 l=1 b=1
< 1 1 d=03 l=1 b=1
@ t
> stream - seen 0 of 1
= 0
# each lane, active or not
$ watch m t
< -- tydi-watch 1
< -- stream - lanes 1 dims 1 level 1 element 8 user 0 forward
< library ieee;
< use ieee.std_logic_1164.all;
< use ieee.numeric_std.all;
< entity watch is
<   port (
<     clk : in std_logic;
<     \\-.ready\\ : in std_logic;
<     \\-.valid\\ : in std_logic;
<     \\-.data\\ : in std_logic_vector(7 downto 0);
<     \\-.last\\ : in std_logic_vector(0 downto 0);
<     \\-.strb\\ : in std_logic_vector(0 downto 0);
<     \\-.fault\\ : out std_logic := '0'
<   );
< end entity;
< architecture check of watch is
<   type \\-.items\\ is array (0 to 3) of std_logic_vector(9 downto 0);
<   constant \\-.want\\ : \\-.items\\ := (
<     0 => \"1000000001\",
<     1 => \"1000000010\",
<     2 => \"1000000011\",
<     3 => \"0000000000\"
<   );
< begin
<   process
<     variable place : natural := 0;
<   begin
<     loop
<       wait until rising_edge(clk) and \\-.valid\\ = '1' and \\-.ready\\ = '1';
<       for lane in 0 to 0 loop
<         if \\-.want\\(place) = \"10\" & \\-.data\\(lane * 8 + 7 downto lane * 8) then
<           place := place + 1;
<         else
<           \\-.fault\\ <= '1';
<           wait;
<         end if;
<       end loop;
<     end loop;
<   end process;
< end architecture;
@ m
< tydi-trace 1
< cycles 3
< stream - lanes 1 dims 1 level 1 element 8 user 0 forward
< 1 1 d=01 l=0 b=1
< 1 1 d=02 l=1 b=1
< 1 1 d=03 l=1 b=1
@ t
> stream - seen 3 of 3
= 0
# closes alone
$ watch m t
< -- tydi-watch 1
< -- stream - lanes 1 dims 1 level 1 element 8 user 0 forward
< library ieee;
< use ieee.std_logic_1164.all;
< use ieee.numeric_std.all;
< entity watch is
<   port (
<     clk : in std_logic;
<     \\-.ready\\ : in std_logic;
<     \\-.valid\\ : in std_logic;
<     \\-.data\\ : in std_logic_vector(7 downto 0);
<     \\-.last\\ : in std_logic_vector(0 downto 0);
<     \\-.strb\\ : in std_logic_vector(0 downto 0);
<     \\-.fault\\ : out std_logic := '0'
<   );
< end entity;
< architecture check of watch is
<   type \\-.items\\ is array (0 to 2) of std_logic_vector(9 downto 0);
<   constant \\-.want\\ : \\-.items\\ := (
<     0 => \"0100000000\",
<     1 => \"0100000000\",
<     2 => \"0000000000\"
<   );
< begin
<   process
<     variable place : natural := 0;
<   begin
<     loop
<       wait until rising_edge(clk) and \\-.valid\\ = '1' and \\-.ready\\ = '1';
<       for lane in 0 to 0 loop
<         for dim in 0 to 0 loop
<           if \\-.last\\(lane * 1 + dim) = '1' then
<             if \\-.want\\(place) = \"01\" & std_logic_vector(to_unsigned(dim, 8)) then
<               place := place + 1;
<             else
<               \\-.fault\\ <= '1';
<               wait;
<             end if;
<           end if;
<         end loop;
<       end loop;
<     end loop;
<   end process;
< end architecture;
@ m
< tydi-trace 1
< cycles 3
< stream - lanes 1 dims 1 level 1 element 8 user 0 forward
< 1 1 d=01 l=0 b=1
< 1 1 d=02 l=1 b=1
< 1 1 d=03 l=1 b=1
@ t
> stream - seen 2 of 2
= 0
# dimensions around lanes, and needs one after another
$ watch m t
< -- tydi-watch 1
< -- stream - lanes 1 dims 1 level 1 element 8 user 0 forward
< library ieee;
< use ieee.std_logic_1164.all;
< use ieee.numeric_std.all;
< entity watch is
<   port (
<     clk : in std_logic;
<     \\-.ready\\ : in std_logic;
<     \\-.valid\\ : in std_logic;
<     \\-.data\\ : in std_logic_vector(7 downto 0);
<     \\-.last\\ : in std_logic_vector(0 downto 0);
<     \\-.strb\\ : in std_logic_vector(0 downto 0);
<     \\-.fault\\ : out std_logic := '0'
<   );
< end entity;
< architecture check of watch is
<   type \\-.items\\ is array (0 to 9) of std_logic_vector(9 downto 0);
<   constant \\-.want\\ : \\-.items\\ := (
<     0 => \"0100000000\",
<     1 => \"1000000001\",
<     2 => \"1000000001\",
<     3 => \"0100000000\",
<     4 => \"1000000010\",
<     5 => \"1000000010\",
<     6 => \"0100000000\",
<     7 => \"1000000011\",
<     8 => \"1000000011\",
<     9 => \"0000000000\"
<   );
< begin
<   process
<     variable place : natural := 0;
<   begin
<     loop
<       wait until rising_edge(clk) and \\-.valid\\ = '1' and \\-.ready\\ = '1';
<       for dim in 0 to 0 loop
<         if \\-.want\\(place) = \"01\" & std_logic_vector(to_unsigned(dim, 8)) then
<           place := place + 1;
<         else
<           \\-.fault\\ <= '1';
<           wait;
<         end if;
<         for lane in 0 to 0 loop
<           if \\-.strb\\(lane) = '1' then
<             if \\-.want\\(place) = \"10\" & \\-.data\\(lane * 8 + 7 downto lane * 8) then
<               place := place + 1;
<             else
<               \\-.fault\\ <= '1';
<               wait;
<             end if;
<             if \\-.want\\(place) = \"10\" & \\-.data\\(lane * 8 + 7 downto lane * 8) then
<               place := place + 1;
<             else
<               \\-.fault\\ <= '1';
<               wait;
<             end if;
<           end if;
<         end loop;
<       end loop;
<     end loop;
<   end process;
< end architecture;
@ m
< tydi-trace 1
< cycles 3
< stream - lanes 1 dims 1 level 1 element 8 user 0 forward
< 1 1 d=01 l=0 b=1
< 1 1 d=02 l=1 b=1
< 1 1 d=03 l=1 b=1
@ t
> stream - seen 9 of 9
= 0
# needs two levels deeper than any that `expect` writes
$ watch m t
< -- tydi-watch 1
< -- stream - lanes 1 dims 1 level 1 element 8 user 0 forward
< library ieee;
< use ieee.std_logic_1164.all;
< use ieee.numeric_std.all;
< entity watch is
<   port (
<     clk : in std_logic;
<     \\-.ready\\ : in std_logic;
<     \\-.valid\\ : in std_logic;
<     \\-.data\\ : in std_logic_vector(7 downto 0);
<     \\-.last\\ : in std_logic_vector(0 downto 0);
<     \\-.strb\\ : in std_logic_vector(0 downto 0);
<     \\-.fault\\ : out std_logic := '0'
<   );
< end entity;
< architecture check of watch is
<   type \\-.items\\ is array (0 to 3) of std_logic_vector(9 downto 0);
<   constant \\-.want\\ : \\-.items\\ := (
<     0 => \"1000000001\",
<     1 => \"1000000010\",
<     2 => \"1000000011\",
<     3 => \"0000000000\"
<   );
< begin
<   process
<     variable place : natural := 0;
<   begin
<     loop
<       wait until rising_edge(clk) and \\-.valid\\ = '1' and \\-.ready\\ = '1';
<       for lane in 0 to 0 loop
<         if \\-.strb\\(lane) = '1' then
<           if \\-.strb\\(lane) = '1' then
<             if \\-.strb\\(lane) = '1' then
<               if \\-.strb\\(lane) = '1' then
<                 if \\-.strb\\(lane) = '1' then
<                   if \\-.strb\\(lane) = '1' then
<                     if \\-.want\\(place) = \"10\" & \\-.data\\(lane * 8 + 7 downto lane * 8) then
<                       place := place + 1;
<                     else
<                       \\-.fault\\ <= '1';
<                       wait;
<                     end if;
<                   end if;
<                 end if;
<               end if;
<             end if;
<           end if;
<         end if;
<       end loop;
<     end loop;
<   end process;
< end architecture;
@ m
< tydi-trace 1
< cycles 3
< stream - lanes 1 dims 1 level 1 element 8 user 0 forward
< 1 1 d=01 l=0 b=1
< 1 1 d=02 l=1 b=1
< 1 1 d=03 l=1 b=1
@ t
> stream - seen 3 of 3
= 0
# what `expect` writes is read again
$ expect p n::s.p v
% watch t u
< tydi-trace 1
< cycles 2
< stream - lanes 1 dims 1 level 1 element 8 user 0 forward
< 1 1 d=48 l=0 b=1
< 1 1 d=69 l=1 b=1
@ u
~ namespace n { type t = Stream(data: Bits(8), throughput: 1, dimensionality: 1, complexity: 1); streamlet s = (p: in t); }
@ p
~ root - = [72, 105];
@ v
> stream - seen 3 of 3
= 0
";

/// Texts that are no monitors, by the offset of the first line that makes them none.
pub(crate) const FORMLESS_MONITORS: &str = "\
# the first line, before the trace is read
$ watch m t
< -- tydi-watch 2
< -- stream - lanes 1 dims 1 level 1 element 8 user 0 forward
< library ieee;
< use ieee.std_logic_1164.all;
< use ieee.numeric_std.all;
< entity watch is
<   port (
<     clk : in std_logic;
<     \\-.ready\\ : in std_logic;
<     \\-.valid\\ : in std_logic;
<     \\-.data\\ : in std_logic_vector(7 downto 0);
<     \\-.last\\ : in std_logic_vector(0 downto 0);
<     \\-.strb\\ : in std_logic_vector(0 downto 0);
<     \\-.fault\\ : out std_logic := '0'
<   );
< end entity;
< architecture check of watch is
<   type \\-.items\\ is array (0 to 2) of std_logic_vector(9 downto 0);
<   constant \\-.want\\ : \\-.items\\ := (
<     0 => \"1000000001\",
<     1 => \"0100000000\",
<     2 => \"0000000000\"
<   );
< begin
<   process
<     variable place : natural := 0;
<   begin
<     loop
<       wait until rising_edge(clk) and \\-.valid\\ = '1' and \\-.ready\\ = '1';
<       for lane in 0 to 0 loop
<         if \\-.strb\\(lane) = '1' then
<           if \\-.want\\(place) = \"10\" & \\-.data\\(lane * 8 + 7 downto lane * 8) then
<             place := place + 1;
<           else
<             \\-.fault\\ <= '1';
<             wait;
<           end if;
<         end if;
<         for dim in 0 to 0 loop
<           if \\-.last\\(lane * 1 + dim) = '1' then
<             if \\-.want\\(place) = \"01\" & std_logic_vector(to_unsigned(dim, 8)) then
<               place := place + 1;
<             else
<               \\-.fault\\ <= '1';
<               wait;
<             end if;
<           end if;
<         end loop;
<       end loop;
<     end loop;
<   end process;
< end architecture;
@ m
~ no trace
@ t
! tydi: NotForm m 0
= 1
$ watch m t
< -- tydi-bench 1
< -- stream - lanes 1 dims 1 level 1 element 8 user 0 forward
< library ieee;
< use ieee.std_logic_1164.all;
< use ieee.numeric_std.all;
< entity watch is
<   port (
<     clk : in std_logic;
<     \\-.ready\\ : in std_logic;
<     \\-.valid\\ : in std_logic;
<     \\-.data\\ : in std_logic_vector(7 downto 0);
<     \\-.last\\ : in std_logic_vector(0 downto 0);
<     \\-.strb\\ : in std_logic_vector(0 downto 0);
<     \\-.fault\\ : out std_logic := '0'
<   );
< end entity;
< architecture check of watch is
<   type \\-.items\\ is array (0 to 2) of std_logic_vector(9 downto 0);
<   constant \\-.want\\ : \\-.items\\ := (
<     0 => \"1000000001\",
<     1 => \"0100000000\",
<     2 => \"0000000000\"
<   );
< begin
<   process
<     variable place : natural := 0;
<   begin
<     loop
<       wait until rising_edge(clk) and \\-.valid\\ = '1' and \\-.ready\\ = '1';
<       for lane in 0 to 0 loop
<         if \\-.strb\\(lane) = '1' then
<           if \\-.want\\(place) = \"10\" & \\-.data\\(lane * 8 + 7 downto lane * 8) then
<             place := place + 1;
<           else
<             \\-.fault\\ <= '1';
<             wait;
<           end if;
<         end if;
<         for dim in 0 to 0 loop
<           if \\-.last\\(lane * 1 + dim) = '1' then
<             if \\-.want\\(place) = \"01\" & std_logic_vector(to_unsigned(dim, 8)) then
<               place := place + 1;
<             else
<               \\-.fault\\ <= '1';
<               wait;
<             end if;
<           end if;
<         end loop;
<       end loop;
<     end loop;
<   end process;
< end architecture;
@ m
~ no trace
@ t
! tydi: NotForm m 0
= 1
# an empty text, and one without an LF
$ watch m t
@ m
~ no trace
@ t
! tydi: NotForm m 0
= 1
$ watch m t
~ -- tydi-watch 1
@ m
~ no trace
@ t
! tydi: NotForm m 0
= 1
# the heads
$ watch m t
< -- tydi-watch 1
< -- stream - lanes 1 dims 1 level 9 element 8 user 0 forward
< library ieee;
< use ieee.std_logic_1164.all;
< use ieee.numeric_std.all;
< entity watch is
<   port (
<     clk : in std_logic;
<     \\-.ready\\ : in std_logic;
<     \\-.valid\\ : in std_logic;
<     \\-.data\\ : in std_logic_vector(7 downto 0);
<     \\-.last\\ : in std_logic_vector(0 downto 0);
<     \\-.strb\\ : in std_logic_vector(0 downto 0);
<     \\-.fault\\ : out std_logic := '0'
<   );
< end entity;
< architecture check of watch is
<   type \\-.items\\ is array (0 to 2) of std_logic_vector(9 downto 0);
<   constant \\-.want\\ : \\-.items\\ := (
<     0 => \"1000000001\",
<     1 => \"0100000000\",
<     2 => \"0000000000\"
<   );
< begin
<   process
<     variable place : natural := 0;
<   begin
<     loop
<       wait until rising_edge(clk) and \\-.valid\\ = '1' and \\-.ready\\ = '1';
<       for lane in 0 to 0 loop
<         if \\-.strb\\(lane) = '1' then
<           if \\-.want\\(place) = \"10\" & \\-.data\\(lane * 8 + 7 downto lane * 8) then
<             place := place + 1;
<           else
<             \\-.fault\\ <= '1';
<             wait;
<           end if;
<         end if;
<         for dim in 0 to 0 loop
<           if \\-.last\\(lane * 1 + dim) = '1' then
<             if \\-.want\\(place) = \"01\" & std_logic_vector(to_unsigned(dim, 8)) then
<               place := place + 1;
<             else
<               \\-.fault\\ <= '1';
<               wait;
<             end if;
<           end if;
<         end loop;
<       end loop;
<     end loop;
<   end process;
< end architecture;
@ m
~ no trace
@ t
! tydi: NotForm m 16
= 1
$ watch m t
< -- tydi-watch 1
< -- stream - lanes 1 dims 1 level 1 element 8 user 0 onward
< library ieee;
< use ieee.std_logic_1164.all;
< use ieee.numeric_std.all;
< entity watch is
<   port (
<     clk : in std_logic;
<     \\-.ready\\ : in std_logic;
<     \\-.valid\\ : in std_logic;
<     \\-.data\\ : in std_logic_vector(7 downto 0);
<     \\-.last\\ : in std_logic_vector(0 downto 0);
<     \\-.strb\\ : in std_logic_vector(0 downto 0);
<     \\-.fault\\ : out std_logic := '0'
<   );
< end entity;
< architecture check of watch is
<   type \\-.items\\ is array (0 to 2) of std_logic_vector(9 downto 0);
<   constant \\-.want\\ : \\-.items\\ := (
<     0 => \"1000000001\",
<     1 => \"0100000000\",
<     2 => \"0000000000\"
<   );
< begin
<   process
<     variable place : natural := 0;
<   begin
<     loop
<       wait until rising_edge(clk) and \\-.valid\\ = '1' and \\-.ready\\ = '1';
<       for lane in 0 to 0 loop
<         if \\-.strb\\(lane) = '1' then
<           if \\-.want\\(place) = \"10\" & \\-.data\\(lane * 8 + 7 downto lane * 8) then
<             place := place + 1;
<           else
<             \\-.fault\\ <= '1';
<             wait;
<           end if;
<         end if;
<         for dim in 0 to 0 loop
<           if \\-.last\\(lane * 1 + dim) = '1' then
<             if \\-.want\\(place) = \"01\" & std_logic_vector(to_unsigned(dim, 8)) then
<               place := place + 1;
<             else
<               \\-.fault\\ <= '1';
<               wait;
<             end if;
<           end if;
<         end loop;
<       end loop;
<     end loop;
<   end process;
< end architecture;
@ m
~ no trace
@ t
! tydi: NotForm m 16
= 1
# two streams of one path
$ watch m t
< -- tydi-watch 1
< -- stream - lanes 1 dims 1 level 1 element 8 user 0 forward
< -- stream - lanes 1 dims 1 level 1 element 8 user 0 forward
< library ieee;
< use ieee.std_logic_1164.all;
< use ieee.numeric_std.all;
< entity watch is
<   port (
<     clk : in std_logic;
<     \\-.ready\\ : in std_logic;
<     \\-.valid\\ : in std_logic;
<     \\-.data\\ : in std_logic_vector(7 downto 0);
<     \\-.last\\ : in std_logic_vector(0 downto 0);
<     \\-.strb\\ : in std_logic_vector(0 downto 0);
<     \\-.fault\\ : out std_logic := '0';
<     \\-.ready\\ : in std_logic;
<     \\-.valid\\ : in std_logic;
<     \\-.data\\ : in std_logic_vector(7 downto 0);
<     \\-.last\\ : in std_logic_vector(0 downto 0);
<     \\-.strb\\ : in std_logic_vector(0 downto 0);
<     \\-.fault\\ : out std_logic := '0'
<   );
< end entity;
< architecture check of watch is
<   type \\-.items\\ is array (0 to 0) of std_logic_vector(9 downto 0);
<   constant \\-.want\\ : \\-.items\\ := (
<     0 => \"0000000000\"
<   );
<   type \\-.items\\ is array (0 to 0) of std_logic_vector(9 downto 0);
<   constant \\-.want\\ : \\-.items\\ := (
<     0 => \"0000000000\"
<   );
< begin
<   process
<     variable place : natural := 0;
<   begin
<     loop
<       wait until rising_edge(clk) and \\-.valid\\ = '1' and \\-.ready\\ = '1';
<       for lane in 0 to 0 loop
<         if \\-.strb\\(lane) = '1' then
<           if \\-.want\\(place) = \"10\" & \\-.data\\(lane * 8 + 7 downto lane * 8) then
<             place := place + 1;
<           else
<             \\-.fault\\ <= '1';
<             wait;
<           end if;
<         end if;
<         for dim in 0 to 0 loop
<           if \\-.last\\(lane * 1 + dim) = '1' then
<             if \\-.want\\(place) = \"01\" & std_logic_vector(to_unsigned(dim, 8)) then
<               place := place + 1;
<             else
<               \\-.fault\\ <= '1';
<               wait;
<             end if;
<           end if;
<         end loop;
<       end loop;
<     end loop;
<   end process;
<   process
<     variable place : natural := 0;
<   begin
<     loop
<       wait until rising_edge(clk) and \\-.valid\\ = '1' and \\-.ready\\ = '1';
<       for lane in 0 to 0 loop
<         if \\-.strb\\(lane) = '1' then
<           if \\-.want\\(place) = \"10\" & \\-.data\\(lane * 8 + 7 downto lane * 8) then
<             place := place + 1;
<           else
<             \\-.fault\\ <= '1';
<             wait;
<           end if;
<         end if;
<         for dim in 0 to 0 loop
<           if \\-.last\\(lane * 1 + dim) = '1' then
<             if \\-.want\\(place) = \"01\" & std_logic_vector(to_unsigned(dim, 8)) then
<               place := place + 1;
<             else
<               \\-.fault\\ <= '1';
<               wait;
<             end if;
<           end if;
<         end loop;
<       end loop;
<     end loop;
<   end process;
< end architecture;
@ m
~ no trace
@ t
! tydi: NotForm m 76
= 1
$ watch m t
< -- tydi-watch 1
< -- stream - lanes 1 dims 1 level 1 element 8 user 0 forward
< -- stream b lanes 1 dims 1 level 1 element 8 user 0 forward
< -- stream b lanes 1 dims 1 level 1 element 8 user 0 forward
< library ieee;
< use ieee.std_logic_1164.all;
< use ieee.numeric_std.all;
< entity watch is
<   port (
<     clk : in std_logic;
<     \\-.ready\\ : in std_logic;
<     \\-.valid\\ : in std_logic;
<     \\-.data\\ : in std_logic_vector(7 downto 0);
<     \\-.last\\ : in std_logic_vector(0 downto 0);
<     \\-.strb\\ : in std_logic_vector(0 downto 0);
<     \\-.fault\\ : out std_logic := '0';
<     \\b.ready\\ : in std_logic;
<     \\b.valid\\ : in std_logic;
<     \\b.data\\ : in std_logic_vector(7 downto 0);
<     \\b.last\\ : in std_logic_vector(0 downto 0);
<     \\b.strb\\ : in std_logic_vector(0 downto 0);
<     \\b.fault\\ : out std_logic := '0';
<     \\b.ready\\ : in std_logic;
<     \\b.valid\\ : in std_logic;
<     \\b.data\\ : in std_logic_vector(7 downto 0);
<     \\b.last\\ : in std_logic_vector(0 downto 0);
<     \\b.strb\\ : in std_logic_vector(0 downto 0);
<     \\b.fault\\ : out std_logic := '0'
<   );
< end entity;
< architecture check of watch is
<   type \\-.items\\ is array (0 to 0) of std_logic_vector(9 downto 0);
<   constant \\-.want\\ : \\-.items\\ := (
<     0 => \"0000000000\"
<   );
<   type \\b.items\\ is array (0 to 0) of std_logic_vector(9 downto 0);
<   constant \\b.want\\ : \\b.items\\ := (
<     0 => \"0000000000\"
<   );
<   type \\b.items\\ is array (0 to 0) of std_logic_vector(9 downto 0);
<   constant \\b.want\\ : \\b.items\\ := (
<     0 => \"0000000000\"
<   );
< begin
<   process
<     variable place : natural := 0;
<   begin
<     loop
<       wait until rising_edge(clk) and \\-.valid\\ = '1' and \\-.ready\\ = '1';
<       for lane in 0 to 0 loop
<         if \\-.strb\\(lane) = '1' then
<           if \\-.want\\(place) = \"10\" & \\-.data\\(lane * 8 + 7 downto lane * 8) then
<             place := place + 1;
<           else
<             \\-.fault\\ <= '1';
<             wait;
<           end if;
<         end if;
<         for dim in 0 to 0 loop
<           if \\-.last\\(lane * 1 + dim) = '1' then
<             if \\-.want\\(place) = \"01\" & std_logic_vector(to_unsigned(dim, 8)) then
<               place := place + 1;
<             else
<               \\-.fault\\ <= '1';
<               wait;
<             end if;
<           end if;
<         end loop;
<       end loop;
<     end loop;
<   end process;
<   process
<     variable place : natural := 0;
<   begin
<     loop
<       wait until rising_edge(clk) and \\b.valid\\ = '1' and \\b.ready\\ = '1';
<       for lane in 0 to 0 loop
<         if \\b.strb\\(lane) = '1' then
<           if \\b.want\\(place) = \"10\" & \\b.data\\(lane * 8 + 7 downto lane * 8) then
<             place := place + 1;
<           else
<             \\b.fault\\ <= '1';
<             wait;
<           end if;
<         end if;
<         for dim in 0 to 0 loop
<           if \\b.last\\(lane * 1 + dim) = '1' then
<             if \\b.want\\(place) = \"01\" & std_logic_vector(to_unsigned(dim, 8)) then
<               place := place + 1;
<             else
<               \\b.fault\\ <= '1';
<               wait;
<             end if;
<           end if;
<         end loop;
<       end loop;
<     end loop;
<   end process;
<   process
<     variable place : natural := 0;
<   begin
<     loop
<       wait until rising_edge(clk) and \\b.valid\\ = '1' and \\b.ready\\ = '1';
<       for lane in 0 to 0 loop
<         if \\b.strb\\(lane) = '1' then
<           if \\b.want\\(place) = \"10\" & \\b.data\\(lane * 8 + 7 downto lane * 8) then
<             place := place + 1;
<           else
<             \\b.fault\\ <= '1';
<             wait;
<           end if;
<         end if;
<         for dim in 0 to 0 loop
<           if \\b.last\\(lane * 1 + dim) = '1' then
<             if \\b.want\\(place) = \"01\" & std_logic_vector(to_unsigned(dim, 8)) then
<               place := place + 1;
<             else
<               \\b.fault\\ <= '1';
<               wait;
<             end if;
<           end if;
<         end loop;
<       end loop;
<     end loop;
<   end process;
< end architecture;
@ m
~ no trace
@ t
! tydi: NotForm m 136
= 1
# the entity
$ watch m t
< -- tydi-watch 1
< -- stream - lanes 1 dims 1 level 1 element 8 user 0 forward
< library ieee;
< use ieee.std_logic_1164.all;
< use ieee.numeric_bit.all;
< entity watch is
<   port (
<     clk : in std_logic;
<     \\-.ready\\ : in std_logic;
<     \\-.valid\\ : in std_logic;
<     \\-.data\\ : in std_logic_vector(7 downto 0);
<     \\-.last\\ : in std_logic_vector(0 downto 0);
<     \\-.strb\\ : in std_logic_vector(0 downto 0);
<     \\-.fault\\ : out std_logic := '0'
<   );
< end entity;
< architecture check of watch is
<   type \\-.items\\ is array (0 to 2) of std_logic_vector(9 downto 0);
<   constant \\-.want\\ : \\-.items\\ := (
<     0 => \"1000000001\",
<     1 => \"0100000000\",
<     2 => \"0000000000\"
<   );
< begin
<   process
<     variable place : natural := 0;
<   begin
<     loop
<       wait until rising_edge(clk) and \\-.valid\\ = '1' and \\-.ready\\ = '1';
<       for lane in 0 to 0 loop
<         if \\-.strb\\(lane) = '1' then
<           if \\-.want\\(place) = \"10\" & \\-.data\\(lane * 8 + 7 downto lane * 8) then
<             place := place + 1;
<           else
<             \\-.fault\\ <= '1';
<             wait;
<           end if;
<         end if;
<         for dim in 0 to 0 loop
<           if \\-.last\\(lane * 1 + dim) = '1' then
<             if \\-.want\\(place) = \"01\" & std_logic_vector(to_unsigned(dim, 8)) then
<               place := place + 1;
<             else
<               \\-.fault\\ <= '1';
<               wait;
<             end if;
<           end if;
<         end loop;
<       end loop;
<     end loop;
<   end process;
< end architecture;
@ m
~ no trace
@ t
! tydi: NotForm m 119
= 1
$ watch m t
< -- tydi-watch 1
< -- stream - lanes 1 dims 1 level 1 element 8 user 0 forward
< library ieee;
< use ieee.std_logic_1164.all;
< entity watch is
<   port (
<     clk : in std_logic;
<     \\-.ready\\ : in std_logic;
<     \\-.valid\\ : in std_logic;
<     \\-.data\\ : in std_logic_vector(7 downto 0);
<     \\-.last\\ : in std_logic_vector(0 downto 0);
<     \\-.strb\\ : in std_logic_vector(0 downto 0);
<     \\-.fault\\ : out std_logic := '0'
<   );
< end entity;
< architecture check of watch is
<   type \\-.items\\ is array (0 to 2) of std_logic_vector(9 downto 0);
<   constant \\-.want\\ : \\-.items\\ := (
<     0 => \"1000000001\",
<     1 => \"0100000000\",
<     2 => \"0000000000\"
<   );
< begin
<   process
<     variable place : natural := 0;
<   begin
<     loop
<       wait until rising_edge(clk) and \\-.valid\\ = '1' and \\-.ready\\ = '1';
<       for lane in 0 to 0 loop
<         if \\-.strb\\(lane) = '1' then
<           if \\-.want\\(place) = \"10\" & \\-.data\\(lane * 8 + 7 downto lane * 8) then
<             place := place + 1;
<           else
<             \\-.fault\\ <= '1';
<             wait;
<           end if;
<         end if;
<         for dim in 0 to 0 loop
<           if \\-.last\\(lane * 1 + dim) = '1' then
<             if \\-.want\\(place) = \"01\" & std_logic_vector(to_unsigned(dim, 8)) then
<               place := place + 1;
<             else
<               \\-.fault\\ <= '1';
<               wait;
<             end if;
<           end if;
<         end loop;
<       end loop;
<     end loop;
<   end process;
< end architecture;
@ m
~ no trace
@ t
! tydi: NotForm m 119
= 1
# a port of another width, a user signal, and one that is an output
$ watch m t
< -- tydi-watch 1
< -- stream - lanes 1 dims 1 level 1 element 8 user 0 forward
< library ieee;
< use ieee.std_logic_1164.all;
< use ieee.numeric_std.all;
< entity watch is
<   port (
<     clk : in std_logic;
<     \\-.ready\\ : in std_logic;
<     \\-.valid\\ : in std_logic;
<     \\-.data\\ : in std_logic_vector(6 downto 0);
<     \\-.last\\ : in std_logic_vector(0 downto 0);
<     \\-.strb\\ : in std_logic_vector(0 downto 0);
<     \\-.fault\\ : out std_logic := '0'
<   );
< end entity;
< architecture check of watch is
<   type \\-.items\\ is array (0 to 2) of std_logic_vector(9 downto 0);
<   constant \\-.want\\ : \\-.items\\ := (
<     0 => \"1000000001\",
<     1 => \"0100000000\",
<     2 => \"0000000000\"
<   );
< begin
<   process
<     variable place : natural := 0;
<   begin
<     loop
<       wait until rising_edge(clk) and \\-.valid\\ = '1' and \\-.ready\\ = '1';
<       for lane in 0 to 0 loop
<         if \\-.strb\\(lane) = '1' then
<           if \\-.want\\(place) = \"10\" & \\-.data\\(lane * 8 + 7 downto lane * 8) then
<             place := place + 1;
<           else
<             \\-.fault\\ <= '1';
<             wait;
<           end if;
<         end if;
<         for dim in 0 to 0 loop
<           if \\-.last\\(lane * 1 + dim) = '1' then
<             if \\-.want\\(place) = \"01\" & std_logic_vector(to_unsigned(dim, 8)) then
<               place := place + 1;
<             else
<               \\-.fault\\ <= '1';
<               wait;
<             end if;
<           end if;
<         end loop;
<       end loop;
<     end loop;
<   end process;
< end architecture;
@ m
~ no trace
@ t
! tydi: NotForm m 254
= 1
$ watch m t
< -- tydi-watch 1
< -- stream - lanes 1 dims 1 level 1 element 8 user 0 forward
< library ieee;
< use ieee.std_logic_1164.all;
< use ieee.numeric_std.all;
< entity watch is
<   port (
<     clk : in std_logic;
<     \\-.ready\\ : in std_logic;
<     \\-.valid\\ : in std_logic;
<     \\-.data\\ : in std_logic_vector(7 downto 0);
<     \\-.last\\ : in std_logic_vector(0 downto 0);
<     \\-.strb\\ : in std_logic_vector(0 downto 0);
<     \\-.user\\ : in std_logic_vector(0 downto 0);
<     \\-.fault\\ : out std_logic := '0'
<   );
< end entity;
< architecture check of watch is
<   type \\-.items\\ is array (0 to 2) of std_logic_vector(9 downto 0);
<   constant \\-.want\\ : \\-.items\\ := (
<     0 => \"1000000001\",
<     1 => \"0100000000\",
<     2 => \"0000000000\"
<   );
< begin
<   process
<     variable place : natural := 0;
<   begin
<     loop
<       wait until rising_edge(clk) and \\-.valid\\ = '1' and \\-.ready\\ = '1';
<       for lane in 0 to 0 loop
<         if \\-.strb\\(lane) = '1' then
<           if \\-.want\\(place) = \"10\" & \\-.data\\(lane * 8 + 7 downto lane * 8) then
<             place := place + 1;
<           else
<             \\-.fault\\ <= '1';
<             wait;
<           end if;
<         end if;
<         for dim in 0 to 0 loop
<           if \\-.last\\(lane * 1 + dim) = '1' then
<             if \\-.want\\(place) = \"01\" & std_logic_vector(to_unsigned(dim, 8)) then
<               place := place + 1;
<             else
<               \\-.fault\\ <= '1';
<               wait;
<             end if;
<           end if;
<         end loop;
<       end loop;
<     end loop;
<   end process;
< end architecture;
@ m
~ no trace
@ t
! tydi: NotForm m 398
= 1
$ watch m t
< -- tydi-watch 1
< -- stream - lanes 1 dims 1 level 1 element 8 user 0 forward
< library ieee;
< use ieee.std_logic_1164.all;
< use ieee.numeric_std.all;
< entity watch is
<   port (
<     clk : in std_logic;
<     \\-.ready\\ : in std_logic;
<     \\-.valid\\ : out std_logic := '0';
<     \\-.data\\ : in std_logic_vector(7 downto 0);
<     \\-.last\\ : in std_logic_vector(0 downto 0);
<     \\-.strb\\ : in std_logic_vector(0 downto 0);
<     \\-.fault\\ : out std_logic := '0'
<   );
< end entity;
< architecture check of watch is
<   type \\-.items\\ is array (0 to 2) of std_logic_vector(9 downto 0);
<   constant \\-.want\\ : \\-.items\\ := (
<     0 => \"1000000001\",
<     1 => \"0100000000\",
<     2 => \"0000000000\"
<   );
< begin
<   process
<     variable place : natural := 0;
<   begin
<     loop
<       wait until rising_edge(clk) and \\-.valid\\ = '1' and \\-.ready\\ = '1';
<       for lane in 0 to 0 loop
<         if \\-.strb\\(lane) = '1' then
<           if \\-.want\\(place) = \"10\" & \\-.data\\(lane * 8 + 7 downto lane * 8) then
<             place := place + 1;
<           else
<             \\-.fault\\ <= '1';
<             wait;
<           end if;
<         end if;
<         for dim in 0 to 0 loop
<           if \\-.last\\(lane * 1 + dim) = '1' then
<             if \\-.want\\(place) = \"01\" & std_logic_vector(to_unsigned(dim, 8)) then
<               place := place + 1;
<             else
<               \\-.fault\\ <= '1';
<               wait;
<             end if;
<           end if;
<         end loop;
<       end loop;
<     end loop;
<   end process;
< end architecture;
@ m
~ no trace
@ t
! tydi: NotForm m 224
= 1
# the number and the width in a table's type
$ watch m t
< -- tydi-watch 1
< -- stream - lanes 1 dims 1 level 1 element 8 user 0 forward
< library ieee;
< use ieee.std_logic_1164.all;
< use ieee.numeric_std.all;
< entity watch is
<   port (
<     clk : in std_logic;
<     \\-.ready\\ : in std_logic;
<     \\-.valid\\ : in std_logic;
<     \\-.data\\ : in std_logic_vector(7 downto 0);
<     \\-.last\\ : in std_logic_vector(0 downto 0);
<     \\-.strb\\ : in std_logic_vector(0 downto 0);
<     \\-.fault\\ : out std_logic := '0'
<   );
< end entity;
< architecture check of watch is
<   type \\-.items\\ is array (0 to 02) of std_logic_vector(9 downto 0);
<   constant \\-.want\\ : \\-.items\\ := (
<     0 => \"1000000001\",
<     1 => \"0100000000\",
<     2 => \"0000000000\"
<   );
< begin
<   process
<     variable place : natural := 0;
<   begin
<     loop
<       wait until rising_edge(clk) and \\-.valid\\ = '1' and \\-.ready\\ = '1';
<       for lane in 0 to 0 loop
<         if \\-.strb\\(lane) = '1' then
<           if \\-.want\\(place) = \"10\" & \\-.data\\(lane * 8 + 7 downto lane * 8) then
<             place := place + 1;
<           else
<             \\-.fault\\ <= '1';
<             wait;
<           end if;
<         end if;
<         for dim in 0 to 0 loop
<           if \\-.last\\(lane * 1 + dim) = '1' then
<             if \\-.want\\(place) = \"01\" & std_logic_vector(to_unsigned(dim, 8)) then
<               place := place + 1;
<             else
<               \\-.fault\\ <= '1';
<               wait;
<             end if;
<           end if;
<         end loop;
<       end loop;
<     end loop;
<   end process;
< end architecture;
@ m
~ no trace
@ t
! tydi: NotForm m 483
= 1
$ watch m t
< -- tydi-watch 1
< -- stream - lanes 1 dims 1 level 1 element 8 user 0 forward
< library ieee;
< use ieee.std_logic_1164.all;
< use ieee.numeric_std.all;
< entity watch is
<   port (
<     clk : in std_logic;
<     \\-.ready\\ : in std_logic;
<     \\-.valid\\ : in std_logic;
<     \\-.data\\ : in std_logic_vector(7 downto 0);
<     \\-.last\\ : in std_logic_vector(0 downto 0);
<     \\-.strb\\ : in std_logic_vector(0 downto 0);
<     \\-.fault\\ : out std_logic := '0'
<   );
< end entity;
< architecture check of watch is
<   type \\-.items\\ is array (0 to 2) of std_logic_vector(8 downto 0);
<   constant \\-.want\\ : \\-.items\\ := (
<     0 => \"1000000001\",
<     1 => \"0100000000\",
<     2 => \"0000000000\"
<   );
< begin
<   process
<     variable place : natural := 0;
<   begin
<     loop
<       wait until rising_edge(clk) and \\-.valid\\ = '1' and \\-.ready\\ = '1';
<       for lane in 0 to 0 loop
<         if \\-.strb\\(lane) = '1' then
<           if \\-.want\\(place) = \"10\" & \\-.data\\(lane * 8 + 7 downto lane * 8) then
<             place := place + 1;
<           else
<             \\-.fault\\ <= '1';
<             wait;
<           end if;
<         end if;
<         for dim in 0 to 0 loop
<           if \\-.last\\(lane * 1 + dim) = '1' then
<             if \\-.want\\(place) = \"01\" & std_logic_vector(to_unsigned(dim, 8)) then
<               place := place + 1;
<             else
<               \\-.fault\\ <= '1';
<               wait;
<             end if;
<           end if;
<         end loop;
<       end loop;
<     end loop;
<   end process;
< end architecture;
@ m
~ no trace
@ t
! tydi: NotForm m 483
= 1
# a table with fewer entries than its type has, and with more
$ watch m t
< -- tydi-watch 1
< -- stream - lanes 1 dims 1 level 1 element 8 user 0 forward
< library ieee;
< use ieee.std_logic_1164.all;
< use ieee.numeric_std.all;
< entity watch is
<   port (
<     clk : in std_logic;
<     \\-.ready\\ : in std_logic;
<     \\-.valid\\ : in std_logic;
<     \\-.data\\ : in std_logic_vector(7 downto 0);
<     \\-.last\\ : in std_logic_vector(0 downto 0);
<     \\-.strb\\ : in std_logic_vector(0 downto 0);
<     \\-.fault\\ : out std_logic := '0'
<   );
< end entity;
< architecture check of watch is
<   type \\-.items\\ is array (0 to 3) of std_logic_vector(9 downto 0);
<   constant \\-.want\\ : \\-.items\\ := (
<     0 => \"1000000001\",
<     1 => \"0100000000\",
<     2 => \"0000000000\"
<   );
< begin
<   process
<     variable place : natural := 0;
<   begin
<     loop
<       wait until rising_edge(clk) and \\-.valid\\ = '1' and \\-.ready\\ = '1';
<       for lane in 0 to 0 loop
<         if \\-.strb\\(lane) = '1' then
<           if \\-.want\\(place) = \"10\" & \\-.data\\(lane * 8 + 7 downto lane * 8) then
<             place := place + 1;
<           else
<             \\-.fault\\ <= '1';
<             wait;
<           end if;
<         end if;
<         for dim in 0 to 0 loop
<           if \\-.last\\(lane * 1 + dim) = '1' then
<             if \\-.want\\(place) = \"01\" & std_logic_vector(to_unsigned(dim, 8)) then
<               place := place + 1;
<             else
<               \\-.fault\\ <= '1';
<               wait;
<             end if;
<           end if;
<         end loop;
<       end loop;
<     end loop;
<   end process;
< end architecture;
@ m
~ no trace
@ t
! tydi: NotForm m 634
= 1
$ watch m t
< -- tydi-watch 1
< -- stream - lanes 1 dims 1 level 1 element 8 user 0 forward
< library ieee;
< use ieee.std_logic_1164.all;
< use ieee.numeric_std.all;
< entity watch is
<   port (
<     clk : in std_logic;
<     \\-.ready\\ : in std_logic;
<     \\-.valid\\ : in std_logic;
<     \\-.data\\ : in std_logic_vector(7 downto 0);
<     \\-.last\\ : in std_logic_vector(0 downto 0);
<     \\-.strb\\ : in std_logic_vector(0 downto 0);
<     \\-.fault\\ : out std_logic := '0'
<   );
< end entity;
< architecture check of watch is
<   type \\-.items\\ is array (0 to 1) of std_logic_vector(9 downto 0);
<   constant \\-.want\\ : \\-.items\\ := (
<     0 => \"1000000001\",
<     1 => \"0100000000\",
<     2 => \"0000000000\"
<   );
< begin
<   process
<     variable place : natural := 0;
<   begin
<     loop
<       wait until rising_edge(clk) and \\-.valid\\ = '1' and \\-.ready\\ = '1';
<       for lane in 0 to 0 loop
<         if \\-.strb\\(lane) = '1' then
<           if \\-.want\\(place) = \"10\" & \\-.data\\(lane * 8 + 7 downto lane * 8) then
<             place := place + 1;
<           else
<             \\-.fault\\ <= '1';
<             wait;
<           end if;
<         end if;
<         for dim in 0 to 0 loop
<           if \\-.last\\(lane * 1 + dim) = '1' then
<             if \\-.want\\(place) = \"01\" & std_logic_vector(to_unsigned(dim, 8)) then
<               place := place + 1;
<             else
<               \\-.fault\\ <= '1';
<               wait;
<             end if;
<           end if;
<         end loop;
<       end loop;
<     end loop;
<   end process;
< end architecture;
@ m
~ no trace
@ t
! tydi: NotForm m 611
= 1
# an entry of another number
$ watch m t
< -- tydi-watch 1
< -- stream - lanes 1 dims 1 level 1 element 8 user 0 forward
< library ieee;
< use ieee.std_logic_1164.all;
< use ieee.numeric_std.all;
< entity watch is
<   port (
<     clk : in std_logic;
<     \\-.ready\\ : in std_logic;
<     \\-.valid\\ : in std_logic;
<     \\-.data\\ : in std_logic_vector(7 downto 0);
<     \\-.last\\ : in std_logic_vector(0 downto 0);
<     \\-.strb\\ : in std_logic_vector(0 downto 0);
<     \\-.fault\\ : out std_logic := '0'
<   );
< end entity;
< architecture check of watch is
<   type \\-.items\\ is array (0 to 2) of std_logic_vector(9 downto 0);
<   constant \\-.want\\ : \\-.items\\ := (
<     0 => \"1000000001\",
<     2 => \"0100000000\",
<     2 => \"0000000000\"
<   );
< begin
<   process
<     variable place : natural := 0;
<   begin
<     loop
<       wait until rising_edge(clk) and \\-.valid\\ = '1' and \\-.ready\\ = '1';
<       for lane in 0 to 0 loop
<         if \\-.strb\\(lane) = '1' then
<           if \\-.want\\(place) = \"10\" & \\-.data\\(lane * 8 + 7 downto lane * 8) then
<             place := place + 1;
<           else
<             \\-.fault\\ <= '1';
<             wait;
<           end if;
<         end if;
<         for dim in 0 to 0 loop
<           if \\-.last\\(lane * 1 + dim) = '1' then
<             if \\-.want\\(place) = \"01\" & std_logic_vector(to_unsigned(dim, 8)) then
<               place := place + 1;
<             else
<               \\-.fault\\ <= '1';
<               wait;
<             end if;
<           end if;
<         end loop;
<       end loop;
<     end loop;
<   end process;
< end architecture;
@ m
~ no trace
@ t
! tydi: NotForm m 611
= 1
$ watch m t
< -- tydi-watch 1
< -- stream - lanes 1 dims 1 level 1 element 8 user 0 forward
< library ieee;
< use ieee.std_logic_1164.all;
< use ieee.numeric_std.all;
< entity watch is
<   port (
<     clk : in std_logic;
<     \\-.ready\\ : in std_logic;
<     \\-.valid\\ : in std_logic;
<     \\-.data\\ : in std_logic_vector(7 downto 0);
<     \\-.last\\ : in std_logic_vector(0 downto 0);
<     \\-.strb\\ : in std_logic_vector(0 downto 0);
<     \\-.fault\\ : out std_logic := '0'
<   );
< end entity;
< architecture check of watch is
<   type \\-.items\\ is array (0 to 2) of std_logic_vector(9 downto 0);
<   constant \\-.want\\ : \\-.items\\ := (
<     00 => \"1000000001\",
<     1 => \"0100000000\",
<     2 => \"0000000000\"
<   );
< begin
<   process
<     variable place : natural := 0;
<   begin
<     loop
<       wait until rising_edge(clk) and \\-.valid\\ = '1' and \\-.ready\\ = '1';
<       for lane in 0 to 0 loop
<         if \\-.strb\\(lane) = '1' then
<           if \\-.want\\(place) = \"10\" & \\-.data\\(lane * 8 + 7 downto lane * 8) then
<             place := place + 1;
<           else
<             \\-.fault\\ <= '1';
<             wait;
<           end if;
<         end if;
<         for dim in 0 to 0 loop
<           if \\-.last\\(lane * 1 + dim) = '1' then
<             if \\-.want\\(place) = \"01\" & std_logic_vector(to_unsigned(dim, 8)) then
<               place := place + 1;
<             else
<               \\-.fault\\ <= '1';
<               wait;
<             end if;
<           end if;
<         end loop;
<       end loop;
<     end loop;
<   end process;
< end architecture;
@ m
~ no trace
@ t
! tydi: NotForm m 588
= 1
# words that are no item: the end among them, neither front, an element too wide, a dimension that the stream lacks
$ watch m t
< -- tydi-watch 1
< -- stream - lanes 1 dims 1 level 1 element 8 user 0 forward
< library ieee;
< use ieee.std_logic_1164.all;
< use ieee.numeric_std.all;
< entity watch is
<   port (
<     clk : in std_logic;
<     \\-.ready\\ : in std_logic;
<     \\-.valid\\ : in std_logic;
<     \\-.data\\ : in std_logic_vector(7 downto 0);
<     \\-.last\\ : in std_logic_vector(0 downto 0);
<     \\-.strb\\ : in std_logic_vector(0 downto 0);
<     \\-.fault\\ : out std_logic := '0'
<   );
< end entity;
< architecture check of watch is
<   type \\-.items\\ is array (0 to 2) of std_logic_vector(9 downto 0);
<   constant \\-.want\\ : \\-.items\\ := (
<     0 => \"1000000001\",
<     1 => \"0000000000\",
<     2 => \"0000000000\"
<   );
< begin
<   process
<     variable place : natural := 0;
<   begin
<     loop
<       wait until rising_edge(clk) and \\-.valid\\ = '1' and \\-.ready\\ = '1';
<       for lane in 0 to 0 loop
<         if \\-.strb\\(lane) = '1' then
<           if \\-.want\\(place) = \"10\" & \\-.data\\(lane * 8 + 7 downto lane * 8) then
<             place := place + 1;
<           else
<             \\-.fault\\ <= '1';
<             wait;
<           end if;
<         end if;
<         for dim in 0 to 0 loop
<           if \\-.last\\(lane * 1 + dim) = '1' then
<             if \\-.want\\(place) = \"01\" & std_logic_vector(to_unsigned(dim, 8)) then
<               place := place + 1;
<             else
<               \\-.fault\\ <= '1';
<               wait;
<             end if;
<           end if;
<         end loop;
<       end loop;
<     end loop;
<   end process;
< end architecture;
@ m
~ no trace
@ t
! tydi: NotForm m 611
= 1
$ watch m t
< -- tydi-watch 1
< -- stream - lanes 1 dims 1 level 1 element 8 user 0 forward
< library ieee;
< use ieee.std_logic_1164.all;
< use ieee.numeric_std.all;
< entity watch is
<   port (
<     clk : in std_logic;
<     \\-.ready\\ : in std_logic;
<     \\-.valid\\ : in std_logic;
<     \\-.data\\ : in std_logic_vector(7 downto 0);
<     \\-.last\\ : in std_logic_vector(0 downto 0);
<     \\-.strb\\ : in std_logic_vector(0 downto 0);
<     \\-.fault\\ : out std_logic := '0'
<   );
< end entity;
< architecture check of watch is
<   type \\-.items\\ is array (0 to 2) of std_logic_vector(9 downto 0);
<   constant \\-.want\\ : \\-.items\\ := (
<     0 => \"1000000001\",
<     1 => \"1100000000\",
<     2 => \"0000000000\"
<   );
< begin
<   process
<     variable place : natural := 0;
<   begin
<     loop
<       wait until rising_edge(clk) and \\-.valid\\ = '1' and \\-.ready\\ = '1';
<       for lane in 0 to 0 loop
<         if \\-.strb\\(lane) = '1' then
<           if \\-.want\\(place) = \"10\" & \\-.data\\(lane * 8 + 7 downto lane * 8) then
<             place := place + 1;
<           else
<             \\-.fault\\ <= '1';
<             wait;
<           end if;
<         end if;
<         for dim in 0 to 0 loop
<           if \\-.last\\(lane * 1 + dim) = '1' then
<             if \\-.want\\(place) = \"01\" & std_logic_vector(to_unsigned(dim, 8)) then
<               place := place + 1;
<             else
<               \\-.fault\\ <= '1';
<               wait;
<             end if;
<           end if;
<         end loop;
<       end loop;
<     end loop;
<   end process;
< end architecture;
@ m
~ no trace
@ t
! tydi: NotForm m 611
= 1
$ watch m t
< -- tydi-watch 1
< -- stream - lanes 1 dims 1 level 1 element 8 user 0 forward
< library ieee;
< use ieee.std_logic_1164.all;
< use ieee.numeric_std.all;
< entity watch is
<   port (
<     clk : in std_logic;
<     \\-.ready\\ : in std_logic;
<     \\-.valid\\ : in std_logic;
<     \\-.data\\ : in std_logic_vector(7 downto 0);
<     \\-.last\\ : in std_logic_vector(0 downto 0);
<     \\-.strb\\ : in std_logic_vector(0 downto 0);
<     \\-.fault\\ : out std_logic := '0'
<   );
< end entity;
< architecture check of watch is
<   type \\-.items\\ is array (0 to 2) of std_logic_vector(9 downto 0);
<   constant \\-.want\\ : \\-.items\\ := (
<     0 => \"1000000001\",
<     1 => \"0100000001\",
<     2 => \"0000000000\"
<   );
< begin
<   process
<     variable place : natural := 0;
<   begin
<     loop
<       wait until rising_edge(clk) and \\-.valid\\ = '1' and \\-.ready\\ = '1';
<       for lane in 0 to 0 loop
<         if \\-.strb\\(lane) = '1' then
<           if \\-.want\\(place) = \"10\" & \\-.data\\(lane * 8 + 7 downto lane * 8) then
<             place := place + 1;
<           else
<             \\-.fault\\ <= '1';
<             wait;
<           end if;
<         end if;
<         for dim in 0 to 0 loop
<           if \\-.last\\(lane * 1 + dim) = '1' then
<             if \\-.want\\(place) = \"01\" & std_logic_vector(to_unsigned(dim, 8)) then
<               place := place + 1;
<             else
<               \\-.fault\\ <= '1';
<               wait;
<             end if;
<           end if;
<         end loop;
<       end loop;
<     end loop;
<   end process;
< end architecture;
@ m
~ no trace
@ t
! tydi: NotForm m 611
= 1
$ watch m t
< -- tydi-watch 1
< -- stream - lanes 1 dims 1 level 1 element 3 user 0 forward
< library ieee;
< use ieee.std_logic_1164.all;
< use ieee.numeric_std.all;
< entity watch is
<   port (
<     clk : in std_logic;
<     \\-.ready\\ : in std_logic;
<     \\-.valid\\ : in std_logic;
<     \\-.data\\ : in std_logic_vector(2 downto 0);
<     \\-.last\\ : in std_logic_vector(0 downto 0);
<     \\-.strb\\ : in std_logic_vector(0 downto 0);
<     \\-.fault\\ : out std_logic := '0'
<   );
< end entity;
< architecture check of watch is
<   type \\-.items\\ is array (0 to 2) of std_logic_vector(7 downto 0);
<   constant \\-.want\\ : \\-.items\\ := (
<     0 => \"10001001\",
<     1 => \"01000000\",
<     2 => \"00000000\"
<   );
< begin
<   process
<     variable place : natural := 0;
<   begin
<     loop
<       wait until rising_edge(clk) and \\-.valid\\ = '1' and \\-.ready\\ = '1';
<       for lane in 0 to 0 loop
<         if \\-.strb\\(lane) = '1' then
<           if \\-.want\\(place) = \"10\" & \"000\" & \\-.data\\(lane * 3 + 2 downto lane * 3) then
<             place := place + 1;
<           else
<             \\-.fault\\ <= '1';
<             wait;
<           end if;
<         end if;
<         for dim in 0 to 0 loop
<           if \\-.last\\(lane * 1 + dim) = '1' then
<             if \\-.want\\(place) = \"01\" & std_logic_vector(to_unsigned(dim, 6)) then
<               place := place + 1;
<             else
<               \\-.fault\\ <= '1';
<               wait;
<             end if;
<           end if;
<         end loop;
<       end loop;
<     end loop;
<   end process;
< end architecture;
@ m
~ no trace
@ t
! tydi: NotForm m 588
= 1
$ watch m t
< -- tydi-watch 1
< -- stream - lanes 1 dims 1 level 1 element 3 user 0 forward
< library ieee;
< use ieee.std_logic_1164.all;
< use ieee.numeric_std.all;
< entity watch is
<   port (
<     clk : in std_logic;
<     \\-.ready\\ : in std_logic;
<     \\-.valid\\ : in std_logic;
<     \\-.data\\ : in std_logic_vector(2 downto 0);
<     \\-.last\\ : in std_logic_vector(0 downto 0);
<     \\-.strb\\ : in std_logic_vector(0 downto 0);
<     \\-.fault\\ : out std_logic := '0'
<   );
< end entity;
< architecture check of watch is
<   type \\-.items\\ is array (0 to 2) of std_logic_vector(7 downto 0);
<   constant \\-.want\\ : \\-.items\\ := (
<     0 => \"1000001\",
<     1 => \"01000000\",
<     2 => \"00000000\"
<   );
< begin
<   process
<     variable place : natural := 0;
<   begin
<     loop
<       wait until rising_edge(clk) and \\-.valid\\ = '1' and \\-.ready\\ = '1';
<       for lane in 0 to 0 loop
<         if \\-.strb\\(lane) = '1' then
<           if \\-.want\\(place) = \"10\" & \"000\" & \\-.data\\(lane * 3 + 2 downto lane * 3) then
<             place := place + 1;
<           else
<             \\-.fault\\ <= '1';
<             wait;
<           end if;
<         end if;
<         for dim in 0 to 0 loop
<           if \\-.last\\(lane * 1 + dim) = '1' then
<             if \\-.want\\(place) = \"01\" & std_logic_vector(to_unsigned(dim, 6)) then
<               place := place + 1;
<             else
<               \\-.fault\\ <= '1';
<               wait;
<             end if;
<           end if;
<         end loop;
<       end loop;
<     end loop;
<   end process;
< end architecture;
@ m
~ no trace
@ t
! tydi: NotForm m 588
= 1
# an end that is an item, and one with a comma
$ watch m t
< -- tydi-watch 1
< -- stream - lanes 1 dims 1 level 1 element 8 user 0 forward
< library ieee;
< use ieee.std_logic_1164.all;
< use ieee.numeric_std.all;
< entity watch is
<   port (
<     clk : in std_logic;
<     \\-.ready\\ : in std_logic;
<     \\-.valid\\ : in std_logic;
<     \\-.data\\ : in std_logic_vector(7 downto 0);
<     \\-.last\\ : in std_logic_vector(0 downto 0);
<     \\-.strb\\ : in std_logic_vector(0 downto 0);
<     \\-.fault\\ : out std_logic := '0'
<   );
< end entity;
< architecture check of watch is
<   type \\-.items\\ is array (0 to 2) of std_logic_vector(9 downto 0);
<   constant \\-.want\\ : \\-.items\\ := (
<     0 => \"1000000001\",
<     1 => \"0100000000\",
<     2 => \"0100000000\"
<   );
< begin
<   process
<     variable place : natural := 0;
<   begin
<     loop
<       wait until rising_edge(clk) and \\-.valid\\ = '1' and \\-.ready\\ = '1';
<       for lane in 0 to 0 loop
<         if \\-.strb\\(lane) = '1' then
<           if \\-.want\\(place) = \"10\" & \\-.data\\(lane * 8 + 7 downto lane * 8) then
<             place := place + 1;
<           else
<             \\-.fault\\ <= '1';
<             wait;
<           end if;
<         end if;
<         for dim in 0 to 0 loop
<           if \\-.last\\(lane * 1 + dim) = '1' then
<             if \\-.want\\(place) = \"01\" & std_logic_vector(to_unsigned(dim, 8)) then
<               place := place + 1;
<             else
<               \\-.fault\\ <= '1';
<               wait;
<             end if;
<           end if;
<         end loop;
<       end loop;
<     end loop;
<   end process;
< end architecture;
@ m
~ no trace
@ t
! tydi: NotForm m 634
= 1
$ watch m t
< -- tydi-watch 1
< -- stream - lanes 1 dims 1 level 1 element 8 user 0 forward
< library ieee;
< use ieee.std_logic_1164.all;
< use ieee.numeric_std.all;
< entity watch is
<   port (
<     clk : in std_logic;
<     \\-.ready\\ : in std_logic;
<     \\-.valid\\ : in std_logic;
<     \\-.data\\ : in std_logic_vector(7 downto 0);
<     \\-.last\\ : in std_logic_vector(0 downto 0);
<     \\-.strb\\ : in std_logic_vector(0 downto 0);
<     \\-.fault\\ : out std_logic := '0'
<   );
< end entity;
< architecture check of watch is
<   type \\-.items\\ is array (0 to 2) of std_logic_vector(9 downto 0);
<   constant \\-.want\\ : \\-.items\\ := (
<     0 => \"1000000001\",
<     1 => \"0100000000\",
<     2 => \"0000000000\",
<   );
< begin
<   process
<     variable place : natural := 0;
<   begin
<     loop
<       wait until rising_edge(clk) and \\-.valid\\ = '1' and \\-.ready\\ = '1';
<       for lane in 0 to 0 loop
<         if \\-.strb\\(lane) = '1' then
<           if \\-.want\\(place) = \"10\" & \\-.data\\(lane * 8 + 7 downto lane * 8) then
<             place := place + 1;
<           else
<             \\-.fault\\ <= '1';
<             wait;
<           end if;
<         end if;
<         for dim in 0 to 0 loop
<           if \\-.last\\(lane * 1 + dim) = '1' then
<             if \\-.want\\(place) = \"01\" & std_logic_vector(to_unsigned(dim, 8)) then
<               place := place + 1;
<             else
<               \\-.fault\\ <= '1';
<               wait;
<             end if;
<           end if;
<         end loop;
<       end loop;
<     end loop;
<   end process;
< end architecture;
@ m
~ no trace
@ t
! tydi: NotForm m 634
= 1
# the process: its front, its wait, its end
$ watch m t
< -- tydi-watch 1
< -- stream - lanes 1 dims 1 level 1 element 8 user 0 forward
< library ieee;
< use ieee.std_logic_1164.all;
< use ieee.numeric_std.all;
< entity watch is
<   port (
<     clk : in std_logic;
<     \\-.ready\\ : in std_logic;
<     \\-.valid\\ : in std_logic;
<     \\-.data\\ : in std_logic_vector(7 downto 0);
<     \\-.last\\ : in std_logic_vector(0 downto 0);
<     \\-.strb\\ : in std_logic_vector(0 downto 0);
<     \\-.fault\\ : out std_logic := '0'
<   );
< end entity;
< architecture check of watch is
<   type \\-.items\\ is array (0 to 2) of std_logic_vector(9 downto 0);
<   constant \\-.want\\ : \\-.items\\ := (
<     0 => \"1000000001\",
<     1 => \"0100000000\",
<     2 => \"0000000000\"
<   );
< begin
<   process
<     variable place : natural := 1;
<   begin
<     loop
<       wait until rising_edge(clk) and \\-.valid\\ = '1' and \\-.ready\\ = '1';
<       for lane in 0 to 0 loop
<         if \\-.strb\\(lane) = '1' then
<           if \\-.want\\(place) = \"10\" & \\-.data\\(lane * 8 + 7 downto lane * 8) then
<             place := place + 1;
<           else
<             \\-.fault\\ <= '1';
<             wait;
<           end if;
<         end if;
<         for dim in 0 to 0 loop
<           if \\-.last\\(lane * 1 + dim) = '1' then
<             if \\-.want\\(place) = \"01\" & std_logic_vector(to_unsigned(dim, 8)) then
<               place := place + 1;
<             else
<               \\-.fault\\ <= '1';
<               wait;
<             end if;
<           end if;
<         end loop;
<       end loop;
<     end loop;
<   end process;
< end architecture;
@ m
~ no trace
@ t
! tydi: NotForm m 677
= 1
$ watch m t
< -- tydi-watch 1
< -- stream - lanes 1 dims 1 level 1 element 8 user 0 forward
< library ieee;
< use ieee.std_logic_1164.all;
< use ieee.numeric_std.all;
< entity watch is
<   port (
<     clk : in std_logic;
<     \\-.ready\\ : in std_logic;
<     \\-.valid\\ : in std_logic;
<     \\-.data\\ : in std_logic_vector(7 downto 0);
<     \\-.last\\ : in std_logic_vector(0 downto 0);
<     \\-.strb\\ : in std_logic_vector(0 downto 0);
<     \\-.fault\\ : out std_logic := '0'
<   );
< end entity;
< architecture check of watch is
<   type \\-.items\\ is array (0 to 2) of std_logic_vector(9 downto 0);
<   constant \\-.want\\ : \\-.items\\ := (
<     0 => \"1000000001\",
<     1 => \"0100000000\",
<     2 => \"0000000000\"
<   );
< begin
<   process
<     variable place : natural := 0;
<   begin
<     loop
<       wait until rising_edge(clk) and \\-.valid\\ = '1';
<       for lane in 0 to 0 loop
<         if \\-.strb\\(lane) = '1' then
<           if \\-.want\\(place) = \"10\" & \\-.data\\(lane * 8 + 7 downto lane * 8) then
<             place := place + 1;
<           else
<             \\-.fault\\ <= '1';
<             wait;
<           end if;
<         end if;
<         for dim in 0 to 0 loop
<           if \\-.last\\(lane * 1 + dim) = '1' then
<             if \\-.want\\(place) = \"01\" & std_logic_vector(to_unsigned(dim, 8)) then
<               place := place + 1;
<             else
<               \\-.fault\\ <= '1';
<               wait;
<             end if;
<           end if;
<         end loop;
<       end loop;
<     end loop;
<   end process;
< end architecture;
@ m
~ no trace
@ t
! tydi: NotForm m 729
= 1
$ watch m t
< -- tydi-watch 1
< -- stream - lanes 1 dims 1 level 1 element 8 user 0 forward
< library ieee;
< use ieee.std_logic_1164.all;
< use ieee.numeric_std.all;
< entity watch is
<   port (
<     clk : in std_logic;
<     \\-.ready\\ : in std_logic;
<     \\-.valid\\ : in std_logic;
<     \\-.data\\ : in std_logic_vector(7 downto 0);
<     \\-.last\\ : in std_logic_vector(0 downto 0);
<     \\-.strb\\ : in std_logic_vector(0 downto 0);
<     \\-.fault\\ : out std_logic := '0'
<   );
< end entity;
< architecture check of watch is
<   type \\-.items\\ is array (0 to 2) of std_logic_vector(9 downto 0);
<   constant \\-.want\\ : \\-.items\\ := (
<     0 => \"1000000001\",
<     1 => \"0100000000\",
<     2 => \"0000000000\"
<   );
< begin
<   process
<     variable place : natural := 0;
<   begin
<     loop
<       wait until rising_edge(clk) and \\-.valid\\ = '1' and \\-.ready\\ = '1';
<       for lane in 0 to 0 loop
<         if \\-.strb\\(lane) = '1' then
<           if \\-.want\\(place) = \"10\" & \\-.data\\(lane * 8 + 7 downto lane * 8) then
<             place := place + 1;
<           else
<             \\-.fault\\ <= '1';
<             wait;
<           end if;
<         end if;
<         for dim in 0 to 0 loop
<           if \\-.last\\(lane * 1 + dim) = '1' then
<             if \\-.want\\(place) = \"01\" & std_logic_vector(to_unsigned(dim, 8)) then
<               place := place + 1;
<             else
<               \\-.fault\\ <= '1';
<               wait;
<             end if;
<           end if;
<         end loop;
<       end loop;
<     end loop;
<   end  process;
< end architecture;
@ m
~ no trace
@ t
! tydi: NotForm m 1434
= 1
# loops and tests with other bounds, places and signals
$ watch m t
< -- tydi-watch 1
< -- stream - lanes 1 dims 1 level 1 element 8 user 0 forward
< library ieee;
< use ieee.std_logic_1164.all;
< use ieee.numeric_std.all;
< entity watch is
<   port (
<     clk : in std_logic;
<     \\-.ready\\ : in std_logic;
<     \\-.valid\\ : in std_logic;
<     \\-.data\\ : in std_logic_vector(7 downto 0);
<     \\-.last\\ : in std_logic_vector(0 downto 0);
<     \\-.strb\\ : in std_logic_vector(0 downto 0);
<     \\-.fault\\ : out std_logic := '0'
<   );
< end entity;
< architecture check of watch is
<   type \\-.items\\ is array (0 to 2) of std_logic_vector(9 downto 0);
<   constant \\-.want\\ : \\-.items\\ := (
<     0 => \"1000000001\",
<     1 => \"0100000000\",
<     2 => \"0000000000\"
<   );
< begin
<   process
<     variable place : natural := 0;
<   begin
<     loop
<       wait until rising_edge(clk) and \\-.valid\\ = '1' and \\-.ready\\ = '1';
<       for lane in 0 to 1 loop
<         if \\-.strb\\(lane) = '1' then
<           if \\-.want\\(place) = \"10\" & \\-.data\\(lane * 8 + 7 downto lane * 8) then
<             place := place + 1;
<           else
<             \\-.fault\\ <= '1';
<             wait;
<           end if;
<         end if;
<         for dim in 0 to 0 loop
<           if \\-.last\\(lane * 1 + dim) = '1' then
<             if \\-.want\\(place) = \"01\" & std_logic_vector(to_unsigned(dim, 8)) then
<               place := place + 1;
<             else
<               \\-.fault\\ <= '1';
<               wait;
<             end if;
<           end if;
<         end loop;
<       end loop;
<     end loop;
<   end process;
< end architecture;
@ m
~ no trace
@ t
! tydi: NotForm m 804
= 1
$ watch m t
< -- tydi-watch 1
< -- stream - lanes 1 dims 1 level 1 element 8 user 0 forward
< library ieee;
< use ieee.std_logic_1164.all;
< use ieee.numeric_std.all;
< entity watch is
<   port (
<     clk : in std_logic;
<     \\-.ready\\ : in std_logic;
<     \\-.valid\\ : in std_logic;
<     \\-.data\\ : in std_logic_vector(7 downto 0);
<     \\-.last\\ : in std_logic_vector(0 downto 0);
<     \\-.strb\\ : in std_logic_vector(0 downto 0);
<     \\-.fault\\ : out std_logic := '0'
<   );
< end entity;
< architecture check of watch is
<   type \\-.items\\ is array (0 to 2) of std_logic_vector(9 downto 0);
<   constant \\-.want\\ : \\-.items\\ := (
<     0 => \"1000000001\",
<     1 => \"0100000000\",
<     2 => \"0000000000\"
<   );
< begin
<   process
<     variable place : natural := 0;
<   begin
<     loop
<       wait until rising_edge(clk) and \\-.valid\\ = '1' and \\-.ready\\ = '1';
<       for lane in 0 to 0 loop
<         if \\-.strb\\(lane) = '1' then
<           if \\-.want\\(place) = \"10\" & \\-.data\\(lane * 8 + 7 downto lane * 8) then
<             place := place + 1;
<           else
<             \\-.fault\\ <= '1';
<             wait;
<           end if;
<         end if;
<        for dim in 0 to 0 loop
<           if \\-.last\\(lane * 1 + dim) = '1' then
<             if \\-.want\\(place) = \"01\" & std_logic_vector(to_unsigned(dim, 8)) then
<               place := place + 1;
<             else
<               \\-.fault\\ <= '1';
<               wait;
<             end if;
<           end if;
<         end loop;
<       end loop;
<     end loop;
<   end process;
< end architecture;
@ m
~ no trace
@ t
! tydi: NotForm m 1082
= 1
$ watch m t
< -- tydi-watch 1
< -- stream - lanes 1 dims 1 level 1 element 8 user 0 forward
< library ieee;
< use ieee.std_logic_1164.all;
< use ieee.numeric_std.all;
< entity watch is
<   port (
<     clk : in std_logic;
<     \\-.ready\\ : in std_logic;
<     \\-.valid\\ : in std_logic;
<     \\-.data\\ : in std_logic_vector(7 downto 0);
<     \\-.last\\ : in std_logic_vector(0 downto 0);
<     \\-.strb\\ : in std_logic_vector(0 downto 0);
<     \\-.fault\\ : out std_logic := '0'
<   );
< end entity;
< architecture check of watch is
<   type \\-.items\\ is array (0 to 2) of std_logic_vector(9 downto 0);
<   constant \\-.want\\ : \\-.items\\ := (
<     0 => \"1000000001\",
<     1 => \"0100000000\",
<     2 => \"0000000000\"
<   );
< begin
<   process
<     variable place : natural := 0;
<   begin
<     loop
<       wait until rising_edge(clk) and \\-.valid\\ = '1' and \\-.ready\\ = '1';
<       for lane in 0 to 0 loop
<         if true then
<           if \\-.want\\(place) = \"10\" & \\-.data\\(lane * 8 + 7 downto lane * 8) then
<             place := place + 1;
<           else
<             \\-.fault\\ <= '1';
<             wait;
<           end if;
<         end if;
<         for dim in 0 to 0 loop
<           if \\-.last\\(lane * 1 + dim) = '1' then
<             if \\-.want\\(place) = \"01\" & std_logic_vector(to_unsigned(dim, 8)) then
<               place := place + 1;
<             else
<               \\-.fault\\ <= '1';
<               wait;
<             end if;
<           end if;
<         end loop;
<       end loop;
<     end loop;
<   end process;
< end architecture;
@ m
~ no trace
@ t
! tydi: NotForm m 834
= 1
$ watch m t
< -- tydi-watch 1
< -- stream - lanes 1 dims 1 level 1 element 8 user 0 forward
< library ieee;
< use ieee.std_logic_1164.all;
< use ieee.numeric_std.all;
< entity watch is
<   port (
<     clk : in std_logic;
<     \\-.ready\\ : in std_logic;
<     \\-.valid\\ : in std_logic;
<     \\-.data\\ : in std_logic_vector(7 downto 0);
<     \\-.last\\ : in std_logic_vector(0 downto 0);
<     \\-.strb\\ : in std_logic_vector(0 downto 0);
<     \\-.fault\\ : out std_logic := '0'
<   );
< end entity;
< architecture check of watch is
<   type \\-.items\\ is array (0 to 2) of std_logic_vector(9 downto 0);
<   constant \\-.want\\ : \\-.items\\ := (
<     0 => \"1000000001\",
<     1 => \"0100000000\",
<     2 => \"0000000000\"
<   );
< begin
<   process
<     variable place : natural := 0;
<   begin
<     loop
<       wait until rising_edge(clk) and \\-.valid\\ = '1' and \\-.ready\\ = '1';
<       for lane in 0 to 0 loop
<         if \\-.strb\\(lane) = '1' then
<           if \\-.want\\(place) = \"10\" & \\-.data\\(lane * 8 + 7 downto lane * 8) then
<             place := place + 1;
<           else
<             \\-.fault\\ <= '1';
<             wait;
<           end if;
<         end if;
<         for dim in 0 to 0 loop
<           if \\-.last\\(lane * 2 + dim) = '1' then
<             if \\-.want\\(place) = \"01\" & std_logic_vector(to_unsigned(dim, 8)) then
<               place := place + 1;
<             else
<               \\-.fault\\ <= '1';
<               wait;
<             end if;
<           end if;
<         end loop;
<       end loop;
<     end loop;
<   end process;
< end architecture;
@ m
~ no trace
@ t
! tydi: NotForm m 1113
= 1
# a need: its test and each line of it
$ watch m t
< -- tydi-watch 1
< -- stream - lanes 1 dims 1 level 1 element 8 user 0 forward
< library ieee;
< use ieee.std_logic_1164.all;
< use ieee.numeric_std.all;
< entity watch is
<   port (
<     clk : in std_logic;
<     \\-.ready\\ : in std_logic;
<     \\-.valid\\ : in std_logic;
<     \\-.data\\ : in std_logic_vector(7 downto 0);
<     \\-.last\\ : in std_logic_vector(0 downto 0);
<     \\-.strb\\ : in std_logic_vector(0 downto 0);
<     \\-.fault\\ : out std_logic := '0'
<   );
< end entity;
< architecture check of watch is
<   type \\-.items\\ is array (0 to 2) of std_logic_vector(9 downto 0);
<   constant \\-.want\\ : \\-.items\\ := (
<     0 => \"1000000001\",
<     1 => \"0100000000\",
<     2 => \"0000000000\"
<   );
< begin
<   process
<     variable place : natural := 0;
<   begin
<     loop
<       wait until rising_edge(clk) and \\-.valid\\ = '1' and \\-.ready\\ = '1';
<       for lane in 0 to 0 loop
<         if \\-.strb\\(lane) = '1' then
<           if \\-.want\\(place) = \"10\" & \\-.data\\(lane * 8 + 8 downto lane * 8) then
<             place := place + 1;
<           else
<             \\-.fault\\ <= '1';
<             wait;
<           end if;
<         end if;
<         for dim in 0 to 0 loop
<           if \\-.last\\(lane * 1 + dim) = '1' then
<             if \\-.want\\(place) = \"01\" & std_logic_vector(to_unsigned(dim, 8)) then
<               place := place + 1;
<             else
<               \\-.fault\\ <= '1';
<               wait;
<             end if;
<           end if;
<         end loop;
<       end loop;
<     end loop;
<   end process;
< end architecture;
@ m
~ no trace
@ t
! tydi: NotForm m 871
= 1
$ watch m t
< -- tydi-watch 1
< -- stream - lanes 1 dims 1 level 1 element 8 user 0 forward
< library ieee;
< use ieee.std_logic_1164.all;
< use ieee.numeric_std.all;
< entity watch is
<   port (
<     clk : in std_logic;
<     \\-.ready\\ : in std_logic;
<     \\-.valid\\ : in std_logic;
<     \\-.data\\ : in std_logic_vector(7 downto 0);
<     \\-.last\\ : in std_logic_vector(0 downto 0);
<     \\-.strb\\ : in std_logic_vector(0 downto 0);
<     \\-.fault\\ : out std_logic := '0'
<   );
< end entity;
< architecture check of watch is
<   type \\-.items\\ is array (0 to 2) of std_logic_vector(9 downto 0);
<   constant \\-.want\\ : \\-.items\\ := (
<     0 => \"1000000001\",
<     1 => \"0100000000\",
<     2 => \"0000000000\"
<   );
< begin
<   process
<     variable place : natural := 0;
<   begin
<     loop
<       wait until rising_edge(clk) and \\-.valid\\ = '1' and \\-.ready\\ = '1';
<       for lane in 0 to 0 loop
<         if \\-.strb\\(lane) = '1' then
<           if \\-.want\\(place) = \"10\" & \\-.data\\(lane * 8 + 7 downto lane * 8) then
<             place := place + 1;
<           else
<             \\-.fault\\ <= '1';
<             wait;
<           end if;
<         end if;
<         for dim in 0 to 0 loop
<           if \\-.last\\(lane * 1 + dim) = '1' then
<             if \\-.want\\(place) = \"01\" & std_logic_vector(to_unsigned(dim, 6)) then
<               place := place + 1;
<             else
<               \\-.fault\\ <= '1';
<               wait;
<             end if;
<           end if;
<         end loop;
<       end loop;
<     end loop;
<   end process;
< end architecture;
@ m
~ no trace
@ t
! tydi: NotForm m 1162
= 1
$ watch m t
< -- tydi-watch 1
< -- stream - lanes 1 dims 1 level 1 element 8 user 0 forward
< library ieee;
< use ieee.std_logic_1164.all;
< use ieee.numeric_std.all;
< entity watch is
<   port (
<     clk : in std_logic;
<     \\-.ready\\ : in std_logic;
<     \\-.valid\\ : in std_logic;
<     \\-.data\\ : in std_logic_vector(7 downto 0);
<     \\-.last\\ : in std_logic_vector(0 downto 0);
<     \\-.strb\\ : in std_logic_vector(0 downto 0);
<     \\-.fault\\ : out std_logic := '0'
<   );
< end entity;
< architecture check of watch is
<   type \\-.items\\ is array (0 to 2) of std_logic_vector(9 downto 0);
<   constant \\-.want\\ : \\-.items\\ := (
<     0 => \"1000000001\",
<     1 => \"0100000000\",
<     2 => \"0000000000\"
<   );
< begin
<   process
<     variable place : natural := 0;
<   begin
<     loop
<       wait until rising_edge(clk) and \\-.valid\\ = '1' and \\-.ready\\ = '1';
<       for lane in 0 to 0 loop
<         if \\-.strb\\(lane) = '1' then
<           if \\-.want\\(place) = \"10\" & \\-.data\\(lane * 8 + 7 downto lane * 8) then
<             place := place + 2;
<           else
<             \\-.fault\\ <= '1';
<             wait;
<           end if;
<         end if;
<         for dim in 0 to 0 loop
<           if \\-.last\\(lane * 1 + dim) = '1' then
<             if \\-.want\\(place) = \"01\" & std_logic_vector(to_unsigned(dim, 8)) then
<               place := place + 1;
<             else
<               \\-.fault\\ <= '1';
<               wait;
<             end if;
<           end if;
<         end loop;
<       end loop;
<     end loop;
<   end process;
< end architecture;
@ m
~ no trace
@ t
! tydi: NotForm m 953
= 1
$ watch m t
< -- tydi-watch 1
< -- stream - lanes 1 dims 1 level 1 element 8 user 0 forward
< library ieee;
< use ieee.std_logic_1164.all;
< use ieee.numeric_std.all;
< entity watch is
<   port (
<     clk : in std_logic;
<     \\-.ready\\ : in std_logic;
<     \\-.valid\\ : in std_logic;
<     \\-.data\\ : in std_logic_vector(7 downto 0);
<     \\-.last\\ : in std_logic_vector(0 downto 0);
<     \\-.strb\\ : in std_logic_vector(0 downto 0);
<     \\-.fault\\ : out std_logic := '0'
<   );
< end entity;
< architecture check of watch is
<   type \\-.items\\ is array (0 to 2) of std_logic_vector(9 downto 0);
<   constant \\-.want\\ : \\-.items\\ := (
<     0 => \"1000000001\",
<     1 => \"0100000000\",
<     2 => \"0000000000\"
<   );
< begin
<   process
<     variable place : natural := 0;
<   begin
<     loop
<       wait until rising_edge(clk) and \\-.valid\\ = '1' and \\-.ready\\ = '1';
<       for lane in 0 to 0 loop
<         if \\-.strb\\(lane) = '1' then
<           if \\-.want\\(place) = \"10\" & \\-.data\\(lane * 8 + 7 downto lane * 8) then
<             place := place + 1;
<           elsif
<             \\-.fault\\ <= '1';
<             wait;
<           end if;
<         end if;
<         for dim in 0 to 0 loop
<           if \\-.last\\(lane * 1 + dim) = '1' then
<             if \\-.want\\(place) = \"01\" & std_logic_vector(to_unsigned(dim, 8)) then
<               place := place + 1;
<             else
<               \\-.fault\\ <= '1';
<               wait;
<             end if;
<           end if;
<         end loop;
<       end loop;
<     end loop;
<   end process;
< end architecture;
@ m
~ no trace
@ t
! tydi: NotForm m 985
= 1
$ watch m t
< -- tydi-watch 1
< -- stream - lanes 1 dims 1 level 1 element 8 user 0 forward
< library ieee;
< use ieee.std_logic_1164.all;
< use ieee.numeric_std.all;
< entity watch is
<   port (
<     clk : in std_logic;
<     \\-.ready\\ : in std_logic;
<     \\-.valid\\ : in std_logic;
<     \\-.data\\ : in std_logic_vector(7 downto 0);
<     \\-.last\\ : in std_logic_vector(0 downto 0);
<     \\-.strb\\ : in std_logic_vector(0 downto 0);
<     \\-.fault\\ : out std_logic := '0'
<   );
< end entity;
< architecture check of watch is
<   type \\-.items\\ is array (0 to 2) of std_logic_vector(9 downto 0);
<   constant \\-.want\\ : \\-.items\\ := (
<     0 => \"1000000001\",
<     1 => \"0100000000\",
<     2 => \"0000000000\"
<   );
< begin
<   process
<     variable place : natural := 0;
<   begin
<     loop
<       wait until rising_edge(clk) and \\-.valid\\ = '1' and \\-.ready\\ = '1';
<       for lane in 0 to 0 loop
<         if \\-.strb\\(lane) = '1' then
<           if \\-.want\\(place) = \"10\" & \\-.data\\(lane * 8 + 7 downto lane * 8) then
<             place := place + 1;
<           else
<             \\-.fault\\ <= '0';
<             wait;
<           end if;
<         end if;
<         for dim in 0 to 0 loop
<           if \\-.last\\(lane * 1 + dim) = '1' then
<             if \\-.want\\(place) = \"01\" & std_logic_vector(to_unsigned(dim, 8)) then
<               place := place + 1;
<             else
<               \\-.fault\\ <= '1';
<               wait;
<             end if;
<           end if;
<         end loop;
<       end loop;
<     end loop;
<   end process;
< end architecture;
@ m
~ no trace
@ t
! tydi: NotForm m 1000
= 1
$ watch m t
< -- tydi-watch 1
< -- stream - lanes 1 dims 1 level 1 element 8 user 0 forward
< library ieee;
< use ieee.std_logic_1164.all;
< use ieee.numeric_std.all;
< entity watch is
<   port (
<     clk : in std_logic;
<     \\-.ready\\ : in std_logic;
<     \\-.valid\\ : in std_logic;
<     \\-.data\\ : in std_logic_vector(7 downto 0);
<     \\-.last\\ : in std_logic_vector(0 downto 0);
<     \\-.strb\\ : in std_logic_vector(0 downto 0);
<     \\-.fault\\ : out std_logic := '0'
<   );
< end entity;
< architecture check of watch is
<   type \\-.items\\ is array (0 to 2) of std_logic_vector(9 downto 0);
<   constant \\-.want\\ : \\-.items\\ := (
<     0 => \"1000000001\",
<     1 => \"0100000000\",
<     2 => \"0000000000\"
<   );
< begin
<   process
<     variable place : natural := 0;
<   begin
<     loop
<       wait until rising_edge(clk) and \\-.valid\\ = '1' and \\-.ready\\ = '1';
<       for lane in 0 to 0 loop
<         if \\-.strb\\(lane) = '1' then
<           if \\-.want\\(place) = \"10\" & \\-.data\\(lane * 8 + 7 downto lane * 8) then
<             place := place + 1;
<           else
<             \\-.fault\\ <= '1';
<             null;
<           end if;
<         end if;
<         for dim in 0 to 0 loop
<           if \\-.last\\(lane * 1 + dim) = '1' then
<             if \\-.want\\(place) = \"01\" & std_logic_vector(to_unsigned(dim, 8)) then
<               place := place + 1;
<             else
<               \\-.fault\\ <= '1';
<               wait;
<             end if;
<           end if;
<         end loop;
<       end loop;
<     end loop;
<   end process;
< end architecture;
@ m
~ no trace
@ t
! tydi: NotForm m 1030
= 1
# a loop inside one of its kind
$ watch m t
< -- tydi-watch 1
< -- stream - lanes 1 dims 1 level 1 element 8 user 0 forward
< library ieee;
< use ieee.std_logic_1164.all;
< use ieee.numeric_std.all;
< entity watch is
<   port (
<     clk : in std_logic;
<     \\-.ready\\ : in std_logic;
<     \\-.valid\\ : in std_logic;
<     \\-.data\\ : in std_logic_vector(7 downto 0);
<     \\-.last\\ : in std_logic_vector(0 downto 0);
<     \\-.strb\\ : in std_logic_vector(0 downto 0);
<     \\-.fault\\ : out std_logic := '0'
<   );
< end entity;
< architecture check of watch is
<   type \\-.items\\ is array (0 to 1) of std_logic_vector(9 downto 0);
<   constant \\-.want\\ : \\-.items\\ := (
<     0 => \"1000000001\",
<     1 => \"0000000000\"
<   );
< begin
<   process
<     variable place : natural := 0;
<   begin
<     loop
<       wait until rising_edge(clk) and \\-.valid\\ = '1' and \\-.ready\\ = '1';
<       for lane in 0 to 0 loop
<         for lane in 0 to 0 loop
<           if \\-.want\\(place) = \"10\" & \\-.data\\(lane * 8 + 7 downto lane * 8) then
<             place := place + 1;
<           else
<             \\-.fault\\ <= '1';
<             wait;
<           end if;
<         end loop;
<       end loop;
<     end loop;
<   end process;
< end architecture;
@ m
~ no trace
@ t
! tydi: NotForm m 811
= 1
$ watch m t
< -- tydi-watch 1
< -- stream - lanes 1 dims 1 level 1 element 8 user 0 forward
< library ieee;
< use ieee.std_logic_1164.all;
< use ieee.numeric_std.all;
< entity watch is
<   port (
<     clk : in std_logic;
<     \\-.ready\\ : in std_logic;
<     \\-.valid\\ : in std_logic;
<     \\-.data\\ : in std_logic_vector(7 downto 0);
<     \\-.last\\ : in std_logic_vector(0 downto 0);
<     \\-.strb\\ : in std_logic_vector(0 downto 0);
<     \\-.fault\\ : out std_logic := '0'
<   );
< end entity;
< architecture check of watch is
<   type \\-.items\\ is array (0 to 1) of std_logic_vector(9 downto 0);
<   constant \\-.want\\ : \\-.items\\ := (
<     0 => \"1000000001\",
<     1 => \"0000000000\"
<   );
< begin
<   process
<     variable place : natural := 0;
<   begin
<     loop
<       wait until rising_edge(clk) and \\-.valid\\ = '1' and \\-.ready\\ = '1';
<       for dim in 0 to 0 loop
<         for lane in 0 to 0 loop
<           for dim in 0 to 0 loop
<             if \\-.want\\(place) = \"01\" & std_logic_vector(to_unsigned(dim, 8)) then
<               place := place + 1;
<             else
<               \\-.fault\\ <= '1';
<               wait;
<             end if;
<           end loop;
<         end loop;
<       end loop;
<     end loop;
<   end process;
< end architecture;
@ m
~ no trace
@ t
! tydi: NotForm m 842
= 1
# statements outside the loops that they ask about
$ watch m t
< -- tydi-watch 1
< -- stream - lanes 1 dims 1 level 1 element 8 user 0 forward
< library ieee;
< use ieee.std_logic_1164.all;
< use ieee.numeric_std.all;
< entity watch is
<   port (
<     clk : in std_logic;
<     \\-.ready\\ : in std_logic;
<     \\-.valid\\ : in std_logic;
<     \\-.data\\ : in std_logic_vector(7 downto 0);
<     \\-.last\\ : in std_logic_vector(0 downto 0);
<     \\-.strb\\ : in std_logic_vector(0 downto 0);
<     \\-.fault\\ : out std_logic := '0'
<   );
< end entity;
< architecture check of watch is
<   type \\-.items\\ is array (0 to 1) of std_logic_vector(9 downto 0);
<   constant \\-.want\\ : \\-.items\\ := (
<     0 => \"1000000001\",
<     1 => \"0000000000\"
<   );
< begin
<   process
<     variable place : natural := 0;
<   begin
<     loop
<       wait until rising_edge(clk) and \\-.valid\\ = '1' and \\-.ready\\ = '1';
<       if \\-.strb\\(lane) = '1' then
<         for lane in 0 to 0 loop
<           if \\-.want\\(place) = \"10\" & \\-.data\\(lane * 8 + 7 downto lane * 8) then
<             place := place + 1;
<           else
<             \\-.fault\\ <= '1';
<             wait;
<           end if;
<         end loop;
<       end if;
<     end loop;
<   end process;
< end architecture;
@ m
~ no trace
@ t
! tydi: NotForm m 781
= 1
$ watch m t
< -- tydi-watch 1
< -- stream - lanes 1 dims 1 level 1 element 8 user 0 forward
< library ieee;
< use ieee.std_logic_1164.all;
< use ieee.numeric_std.all;
< entity watch is
<   port (
<     clk : in std_logic;
<     \\-.ready\\ : in std_logic;
<     \\-.valid\\ : in std_logic;
<     \\-.data\\ : in std_logic_vector(7 downto 0);
<     \\-.last\\ : in std_logic_vector(0 downto 0);
<     \\-.strb\\ : in std_logic_vector(0 downto 0);
<     \\-.fault\\ : out std_logic := '0'
<   );
< end entity;
< architecture check of watch is
<   type \\-.items\\ is array (0 to 1) of std_logic_vector(9 downto 0);
<   constant \\-.want\\ : \\-.items\\ := (
<     0 => \"1000000001\",
<     1 => \"0000000000\"
<   );
< begin
<   process
<     variable place : natural := 0;
<   begin
<     loop
<       wait until rising_edge(clk) and \\-.valid\\ = '1' and \\-.ready\\ = '1';
<       for lane in 0 to 0 loop
<         if \\-.last\\(lane * 1 + dim) = '1' then
<           if \\-.want\\(place) = \"10\" & \\-.data\\(lane * 8 + 7 downto lane * 8) then
<             place := place + 1;
<           else
<             \\-.fault\\ <= '1';
<             wait;
<           end if;
<         end if;
<       end loop;
<     end loop;
<   end process;
< end architecture;
@ m
~ no trace
@ t
! tydi: NotForm m 811
= 1
$ watch m t
< -- tydi-watch 1
< -- stream - lanes 1 dims 1 level 1 element 8 user 0 forward
< library ieee;
< use ieee.std_logic_1164.all;
< use ieee.numeric_std.all;
< entity watch is
<   port (
<     clk : in std_logic;
<     \\-.ready\\ : in std_logic;
<     \\-.valid\\ : in std_logic;
<     \\-.data\\ : in std_logic_vector(7 downto 0);
<     \\-.last\\ : in std_logic_vector(0 downto 0);
<     \\-.strb\\ : in std_logic_vector(0 downto 0);
<     \\-.fault\\ : out std_logic := '0'
<   );
< end entity;
< architecture check of watch is
<   type \\-.items\\ is array (0 to 1) of std_logic_vector(9 downto 0);
<   constant \\-.want\\ : \\-.items\\ := (
<     0 => \"1000000001\",
<     1 => \"0000000000\"
<   );
< begin
<   process
<     variable place : natural := 0;
<   begin
<     loop
<       wait until rising_edge(clk) and \\-.valid\\ = '1' and \\-.ready\\ = '1';
<       for dim in 0 to 0 loop
<         if \\-.want\\(place) = \"10\" & \\-.data\\(lane * 8 + 7 downto lane * 8) then
<           place := place + 1;
<         else
<           \\-.fault\\ <= '1';
<           wait;
<         end if;
<       end loop;
<     end loop;
<   end process;
< end architecture;
@ m
~ no trace
@ t
! tydi: NotForm m 810
= 1
$ watch m t
< -- tydi-watch 1
< -- stream - lanes 1 dims 1 level 1 element 8 user 0 forward
< library ieee;
< use ieee.std_logic_1164.all;
< use ieee.numeric_std.all;
< entity watch is
<   port (
<     clk : in std_logic;
<     \\-.ready\\ : in std_logic;
<     \\-.valid\\ : in std_logic;
<     \\-.data\\ : in std_logic_vector(7 downto 0);
<     \\-.last\\ : in std_logic_vector(0 downto 0);
<     \\-.strb\\ : in std_logic_vector(0 downto 0);
<     \\-.fault\\ : out std_logic := '0'
<   );
< end entity;
< architecture check of watch is
<   type \\-.items\\ is array (0 to 1) of std_logic_vector(9 downto 0);
<   constant \\-.want\\ : \\-.items\\ := (
<     0 => \"1000000001\",
<     1 => \"0000000000\"
<   );
< begin
<   process
<     variable place : natural := 0;
<   begin
<     loop
<       wait until rising_edge(clk) and \\-.valid\\ = '1' and \\-.ready\\ = '1';
<       for lane in 0 to 0 loop
<         if \\-.want\\(place) = \"01\" & std_logic_vector(to_unsigned(dim, 8)) then
<           place := place + 1;
<         else
<           \\-.fault\\ <= '1';
<           wait;
<         end if;
<       end loop;
<     end loop;
<   end process;
< end architecture;
@ m
~ no trace
@ t
! tydi: NotForm m 811
= 1
# a loop over dimensions of a stream without any
$ watch m t
< -- tydi-watch 1
< -- stream - lanes 1 dims 0 level 1 element 8 user 0 forward
< library ieee;
< use ieee.std_logic_1164.all;
< use ieee.numeric_std.all;
< entity watch is
<   port (
<     clk : in std_logic;
<     \\-.ready\\ : in std_logic;
<     \\-.valid\\ : in std_logic;
<     \\-.data\\ : in std_logic_vector(7 downto 0);
<     \\-.fault\\ : out std_logic := '0'
<   );
< end entity;
< architecture check of watch is
<   type \\-.items\\ is array (0 to 1) of std_logic_vector(9 downto 0);
<   constant \\-.want\\ : \\-.items\\ := (
<     0 => \"1000000001\",
<     1 => \"0000000000\"
<   );
< begin
<   process
<     variable place : natural := 0;
<   begin
<     loop
<       wait until rising_edge(clk) and \\-.valid\\ = '1' and \\-.ready\\ = '1';
<       for dim in 0 to 0 loop
<         if \\-.want\\(place) = \"01\" & std_logic_vector(to_unsigned(dim, 8)) then
<           place := place + 1;
<         else
<           \\-.fault\\ <= '1';
<           wait;
<         end if;
<       end loop;
<     end loop;
<   end process;
< end architecture;
@ m
~ no trace
@ t
! tydi: NotForm m 685
= 1
# lists that are empty
$ watch m t
< -- tydi-watch 1
< -- stream - lanes 1 dims 1 level 1 element 8 user 0 forward
< library ieee;
< use ieee.std_logic_1164.all;
< use ieee.numeric_std.all;
< entity watch is
<   port (
<     clk : in std_logic;
<     \\-.ready\\ : in std_logic;
<     \\-.valid\\ : in std_logic;
<     \\-.data\\ : in std_logic_vector(7 downto 0);
<     \\-.last\\ : in std_logic_vector(0 downto 0);
<     \\-.strb\\ : in std_logic_vector(0 downto 0);
<     \\-.fault\\ : out std_logic := '0'
<   );
< end entity;
< architecture check of watch is
<   type \\-.items\\ is array (0 to 1) of std_logic_vector(9 downto 0);
<   constant \\-.want\\ : \\-.items\\ := (
<     0 => \"1000000001\",
<     1 => \"0000000000\"
<   );
< begin
<   process
<     variable place : natural := 0;
<   begin
<     loop
<       wait until rising_edge(clk) and \\-.valid\\ = '1' and \\-.ready\\ = '1';
<       for lane in 0 to 0 loop
<       end loop;
<     end loop;
<   end process;
< end architecture;
@ m
~ no trace
@ t
! tydi: NotForm m 811
= 1
$ watch m t
< -- tydi-watch 1
< -- stream - lanes 1 dims 1 level 1 element 8 user 0 forward
< library ieee;
< use ieee.std_logic_1164.all;
< use ieee.numeric_std.all;
< entity watch is
<   port (
<     clk : in std_logic;
<     \\-.ready\\ : in std_logic;
<     \\-.valid\\ : in std_logic;
<     \\-.data\\ : in std_logic_vector(7 downto 0);
<     \\-.last\\ : in std_logic_vector(0 downto 0);
<     \\-.strb\\ : in std_logic_vector(0 downto 0);
<     \\-.fault\\ : out std_logic := '0'
<   );
< end entity;
< architecture check of watch is
<   type \\-.items\\ is array (0 to 1) of std_logic_vector(9 downto 0);
<   constant \\-.want\\ : \\-.items\\ := (
<     0 => \"1000000001\",
<     1 => \"0000000000\"
<   );
< begin
<   process
<     variable place : natural := 0;
<   begin
<     loop
<       wait until rising_edge(clk) and \\-.valid\\ = '1' and \\-.ready\\ = '1';
<       for lane in 0 to 0 loop
<         if \\-.strb\\(lane) = '1' then
<         end if;
<       end loop;
<     end loop;
<   end process;
< end architecture;
@ m
~ no trace
@ t
! tydi: NotForm m 848
= 1
# lists nested nine deep
$ watch m t
< -- tydi-watch 1
< -- stream - lanes 1 dims 1 level 1 element 8 user 0 forward
< library ieee;
< use ieee.std_logic_1164.all;
< use ieee.numeric_std.all;
< entity watch is
<   port (
<     clk : in std_logic;
<     \\-.ready\\ : in std_logic;
<     \\-.valid\\ : in std_logic;
<     \\-.data\\ : in std_logic_vector(7 downto 0);
<     \\-.last\\ : in std_logic_vector(0 downto 0);
<     \\-.strb\\ : in std_logic_vector(0 downto 0);
<     \\-.fault\\ : out std_logic := '0'
<   );
< end entity;
< architecture check of watch is
<   type \\-.items\\ is array (0 to 1) of std_logic_vector(9 downto 0);
<   constant \\-.want\\ : \\-.items\\ := (
<     0 => \"1000000001\",
<     1 => \"0000000000\"
<   );
< begin
<   process
<     variable place : natural := 0;
<   begin
<     loop
<       wait until rising_edge(clk) and \\-.valid\\ = '1' and \\-.ready\\ = '1';
<       for lane in 0 to 0 loop
<         if \\-.strb\\(lane) = '1' then
<           if \\-.strb\\(lane) = '1' then
<             if \\-.strb\\(lane) = '1' then
<               if \\-.strb\\(lane) = '1' then
<                 if \\-.strb\\(lane) = '1' then
<                   if \\-.strb\\(lane) = '1' then
<                     if \\-.strb\\(lane) = '1' then
<                       if \\-.want\\(place) = \"10\" & \\-.data\\(lane * 8 + 7 downto lane * 8) then
<                         place := place + 1;
<                       else
<                         \\-.fault\\ <= '1';
<                         wait;
<                       end if;
<                     end if;
<                   end if;
<                 end if;
<               end if;
<             end if;
<           end if;
<         end if;
<       end loop;
<     end loop;
<   end process;
< end architecture;
@ m
~ no trace
@ t
! tydi: NotForm m 1063
= 1
# lines after the end, and a text that ends early
$ watch m t
< -- tydi-watch 1
< -- stream - lanes 1 dims 1 level 1 element 8 user 0 forward
< library ieee;
< use ieee.std_logic_1164.all;
< use ieee.numeric_std.all;
< entity watch is
<   port (
<     clk : in std_logic;
<     \\-.ready\\ : in std_logic;
<     \\-.valid\\ : in std_logic;
<     \\-.data\\ : in std_logic_vector(7 downto 0);
<     \\-.last\\ : in std_logic_vector(0 downto 0);
<     \\-.strb\\ : in std_logic_vector(0 downto 0);
<     \\-.fault\\ : out std_logic := '0'
<   );
< end entity;
< architecture check of watch is
<   type \\-.items\\ is array (0 to 2) of std_logic_vector(9 downto 0);
<   constant \\-.want\\ : \\-.items\\ := (
<     0 => \"1000000001\",
<     1 => \"0100000000\",
<     2 => \"0000000000\"
<   );
< begin
<   process
<     variable place : natural := 0;
<   begin
<     loop
<       wait until rising_edge(clk) and \\-.valid\\ = '1' and \\-.ready\\ = '1';
<       for lane in 0 to 0 loop
<         if \\-.strb\\(lane) = '1' then
<           if \\-.want\\(place) = \"10\" & \\-.data\\(lane * 8 + 7 downto lane * 8) then
<             place := place + 1;
<           else
<             \\-.fault\\ <= '1';
<             wait;
<           end if;
<         end if;
<         for dim in 0 to 0 loop
<           if \\-.last\\(lane * 1 + dim) = '1' then
<             if \\-.want\\(place) = \"01\" & std_logic_vector(to_unsigned(dim, 8)) then
<               place := place + 1;
<             else
<               \\-.fault\\ <= '1';
<               wait;
<             end if;
<           end if;
<         end loop;
<       end loop;
<     end loop;
<   end process;
< end architecture;
< -- more
@ m
~ no trace
@ t
! tydi: NotForm m 1467
= 1
$ watch m t
< -- tydi-watch 1
< -- stream - lanes 1 dims 1 level 1 element 8 user 0 forward
< library ieee;
< use ieee.std_logic_1164.all;
< use ieee.numeric_std.all;
< entity watch is
<   port (
<     clk : in std_logic;
<     \\-.ready\\ : in std_logic;
<     \\-.valid\\ : in std_logic;
<     \\-.data\\ : in std_logic_vector(7 downto 0);
<     \\-.last\\ : in std_logic_vector(0 downto 0);
<     \\-.strb\\ : in std_logic_vector(0 downto 0);
<     \\-.fault\\ : out std_logic := '0'
<   );
< end entity;
< architecture check of watch is
<   type \\-.items\\ is array (0 to 2) of std_logic_vector(9 downto 0);
<   constant \\-.want\\ : \\-.items\\ := (
<     0 => \"1000000001\",
<     1 => \"0100000000\",
<     2 => \"0000000000\"
<   );
< begin
<   process
<     variable place : natural := 0;
<   begin
<     loop
<       wait until rising_edge(clk) and \\-.valid\\ = '1' and \\-.ready\\ = '1';
<       for lane in 0 to 0 loop
<         if \\-.strb\\(lane) = '1' then
<           if \\-.want\\(place) = \"10\" & \\-.data\\(lane * 8 + 7 downto lane * 8) then
<             place := place + 1;
<           else
<             \\-.fault\\ <= '1';
<             wait;
<           end if;
<         end if;
<         for dim in 0 to 0 loop
<           if \\-.last\\(lane * 1 + dim) = '1' then
<             if \\-.want\\(place) = \"01\" & std_logic_vector(to_unsigned(dim, 8)) then
<               place := place + 1;
<             else
<               \\-.fault\\ <= '1';
<               wait;
<             end if;
<           end if;
<         end loop;
<       end loop;
<     end loop;
<   end process;
@ m
~ no trace
@ t
! tydi: NotForm m 1449
= 1
$ watch m t
< -- tydi-watch 1
< -- stream - lanes 1 dims 1 level 1 element 8 user 0 forward
< library ieee;
< use ieee.std_logic_1164.all;
< use ieee.numeric_std.all;
< entity watch is
<   port (
<     clk : in std_logic;
<     \\-.ready\\ : in std_logic;
<     \\-.valid\\ : in std_logic;
<     \\-.data\\ : in std_logic_vector(7 downto 0);
<     \\-.last\\ : in std_logic_vector(0 downto 0);
<     \\-.strb\\ : in std_logic_vector(0 downto 0);
<     \\-.fault\\ : out std_logic := '0'
<   );
< end entity;
< architecture check of watch is
<   type \\-.items\\ is array (0 to 2) of std_logic_vector(9 downto 0);
<   constant \\-.want\\ : \\-.items\\ := (
<     0 => \"1000000001\",
<     1 => \"0100000000\",
<     2 => \"0000000000\"
<   );
< begin
<   process
<     variable place : natural := 0;
<   begin
<     loop
<       wait until rising_edge(clk) and \\-.valid\\ = '1' and \\-.ready\\ = '1';
<       for lane in 0 to 0 loop
<         if \\-.strb\\(lane) = '1' then
<           if \\-.want\\(place) = \"10\" & \\-.data\\(lane * 8 + 7 downto lane * 8) then
<             place := place + 1;
<           else
<             \\-.fault\\ <= '1';
<             wait;
<           end if;
<         end if;
<         for dim in 0 to 0 loop
<           if \\-.last\\(lane * 1 + dim) = '1' then
<             if \\-.want\\(place) = \"01\" & std_logic_vector(to_unsigned(dim, 8)) then
<               place := place + 1;
<             else
<               \\-.fault\\ <= '1';
<               wait;
<             end if;
<           end if;
<         end loop;
@ m
~ no trace
@ t
! tydi: NotForm m 1404
= 1
# a last line without its LF
$ watch m t
< -- tydi-watch 1
< -- stream - lanes 1 dims 1 level 1 element 8 user 0 forward
< library ieee;
< use ieee.std_logic_1164.all;
< use ieee.numeric_std.all;
< entity watch is
<   port (
<     clk : in std_logic;
<     \\-.ready\\ : in std_logic;
<     \\-.valid\\ : in std_logic;
<     \\-.data\\ : in std_logic_vector(7 downto 0);
<     \\-.last\\ : in std_logic_vector(0 downto 0);
<     \\-.strb\\ : in std_logic_vector(0 downto 0);
<     \\-.fault\\ : out std_logic := '0'
<   );
< end entity;
< architecture check of watch is
<   type \\-.items\\ is array (0 to 2) of std_logic_vector(9 downto 0);
<   constant \\-.want\\ : \\-.items\\ := (
<     0 => \"1000000001\",
<     1 => \"0100000000\",
<     2 => \"0000000000\"
<   );
< begin
<   process
<     variable place : natural := 0;
<   begin
<     loop
<       wait until rising_edge(clk) and \\-.valid\\ = '1' and \\-.ready\\ = '1';
<       for lane in 0 to 0 loop
<         if \\-.strb\\(lane) = '1' then
<           if \\-.want\\(place) = \"10\" & \\-.data\\(lane * 8 + 7 downto lane * 8) then
<             place := place + 1;
<           else
<             \\-.fault\\ <= '1';
<             wait;
<           end if;
<         end if;
<         for dim in 0 to 0 loop
<           if \\-.last\\(lane * 1 + dim) = '1' then
<             if \\-.want\\(place) = \"01\" & std_logic_vector(to_unsigned(dim, 8)) then
<               place := place + 1;
<             else
<               \\-.fault\\ <= '1';
<               wait;
<             end if;
<           end if;
<         end loop;
<       end loop;
<     end loop;
<   end process;
~ end architecture;
@ m
~ no trace
@ t
! tydi: NotForm m 1449
= 1
$ watch m t
< -- tydi-watch 1
< -- stream - lanes 1 dims 1 level 1 element 8 user 0 forward
< library ieee;
< use ieee.std_logic_1164.all;
< use ieee.numeric_std.all;
< entity watch is
<   port (
<     clk : in std_logic;
<     \\-.ready\\ : in std_logic;
<     \\-.valid\\ : in std_logic;
<     \\-.data\\ : in std_logic_vector(7 downto 0);
<     \\-.last\\ : in std_logic_vector(0 downto 0);
<     \\-.strb\\ : in std_logic_vector(0 downto 0);
<     \\-.fault\\ : out std_logic := '0'
<   );
< end entity;
< architecture check of watch is
<   type \\-.items\\ is array (0 to 2) of std_logic_vector(9 downto 0);
<   constant \\-.want\\ : \\-.items\\ := (
<     0 => \"1000000001\",
~     1 => \"0100000000\",
@ m
~ no trace
@ t
! tydi: NotForm m 611
= 1
";

/// What `watch` refuses beside texts that are no monitors.
pub(crate) const UNWATCHED: &str = "\
# heads that differ, from 0
$ watch m t
< -- tydi-watch 1
< -- stream - lanes 1 dims 1 level 1 element 8 user 0 forward
< library ieee;
< use ieee.std_logic_1164.all;
< use ieee.numeric_std.all;
< entity watch is
<   port (
<     clk : in std_logic;
<     \\-.ready\\ : in std_logic;
<     \\-.valid\\ : in std_logic;
<     \\-.data\\ : in std_logic_vector(7 downto 0);
<     \\-.last\\ : in std_logic_vector(0 downto 0);
<     \\-.strb\\ : in std_logic_vector(0 downto 0);
<     \\-.fault\\ : out std_logic := '0'
<   );
< end entity;
< architecture check of watch is
<   type \\-.items\\ is array (0 to 2) of std_logic_vector(9 downto 0);
<   constant \\-.want\\ : \\-.items\\ := (
<     0 => \"1000000001\",
<     1 => \"0100000000\",
<     2 => \"0000000000\"
<   );
< begin
<   process
<     variable place : natural := 0;
<   begin
<     loop
<       wait until rising_edge(clk) and \\-.valid\\ = '1' and \\-.ready\\ = '1';
<       for lane in 0 to 0 loop
<         if \\-.strb\\(lane) = '1' then
<           if \\-.want\\(place) = \"10\" & \\-.data\\(lane * 8 + 7 downto lane * 8) then
<             place := place + 1;
<           else
<             \\-.fault\\ <= '1';
<             wait;
<           end if;
<         end if;
<         for dim in 0 to 0 loop
<           if \\-.last\\(lane * 1 + dim) = '1' then
<             if \\-.want\\(place) = \"01\" & std_logic_vector(to_unsigned(dim, 8)) then
<               place := place + 1;
<             else
<               \\-.fault\\ <= '1';
<               wait;
<             end if;
<           end if;
<         end loop;
<       end loop;
<     end loop;
<   end process;
< end architecture;
@ m
< tydi-trace 1
< cycles 0
< stream a lanes 1 dims 1 level 1 element 8 user 0 forward
@ t
! tydi: OtherHeader t 0
= 1
$ watch m t
< -- tydi-watch 1
< -- stream - lanes 1 dims 1 level 1 element 8 user 0 forward
< library ieee;
< use ieee.std_logic_1164.all;
< use ieee.numeric_std.all;
< entity watch is
<   port (
<     clk : in std_logic;
<     \\-.ready\\ : in std_logic;
<     \\-.valid\\ : in std_logic;
<     \\-.data\\ : in std_logic_vector(7 downto 0);
<     \\-.last\\ : in std_logic_vector(0 downto 0);
<     \\-.strb\\ : in std_logic_vector(0 downto 0);
<     \\-.fault\\ : out std_logic := '0'
<   );
< end entity;
< architecture check of watch is
<   type \\-.items\\ is array (0 to 2) of std_logic_vector(9 downto 0);
<   constant \\-.want\\ : \\-.items\\ := (
<     0 => \"1000000001\",
<     1 => \"0100000000\",
<     2 => \"0000000000\"
<   );
< begin
<   process
<     variable place : natural := 0;
<   begin
<     loop
<       wait until rising_edge(clk) and \\-.valid\\ = '1' and \\-.ready\\ = '1';
<       for lane in 0 to 0 loop
<         if \\-.strb\\(lane) = '1' then
<           if \\-.want\\(place) = \"10\" & \\-.data\\(lane * 8 + 7 downto lane * 8) then
<             place := place + 1;
<           else
<             \\-.fault\\ <= '1';
<             wait;
<           end if;
<         end if;
<         for dim in 0 to 0 loop
<           if \\-.last\\(lane * 1 + dim) = '1' then
<             if \\-.want\\(place) = \"01\" & std_logic_vector(to_unsigned(dim, 8)) then
<               place := place + 1;
<             else
<               \\-.fault\\ <= '1';
<               wait;
<             end if;
<           end if;
<         end loop;
<       end loop;
<     end loop;
<   end process;
< end architecture;
@ m
< tydi-trace 1
< cycles 0
< stream - lanes 1 dims 1 level 2 element 8 user 0 forward
@ t
! tydi: OtherHeader t 0
= 1
# where one list is shorter, its length
$ watch m t
< -- tydi-watch 1
< -- stream - lanes 1 dims 1 level 1 element 8 user 0 forward
< library ieee;
< use ieee.std_logic_1164.all;
< use ieee.numeric_std.all;
< entity watch is
<   port (
<     clk : in std_logic;
<     \\-.ready\\ : in std_logic;
<     \\-.valid\\ : in std_logic;
<     \\-.data\\ : in std_logic_vector(7 downto 0);
<     \\-.last\\ : in std_logic_vector(0 downto 0);
<     \\-.strb\\ : in std_logic_vector(0 downto 0);
<     \\-.fault\\ : out std_logic := '0'
<   );
< end entity;
< architecture check of watch is
<   type \\-.items\\ is array (0 to 2) of std_logic_vector(9 downto 0);
<   constant \\-.want\\ : \\-.items\\ := (
<     0 => \"1000000001\",
<     1 => \"0100000000\",
<     2 => \"0000000000\"
<   );
< begin
<   process
<     variable place : natural := 0;
<   begin
<     loop
<       wait until rising_edge(clk) and \\-.valid\\ = '1' and \\-.ready\\ = '1';
<       for lane in 0 to 0 loop
<         if \\-.strb\\(lane) = '1' then
<           if \\-.want\\(place) = \"10\" & \\-.data\\(lane * 8 + 7 downto lane * 8) then
<             place := place + 1;
<           else
<             \\-.fault\\ <= '1';
<             wait;
<           end if;
<         end if;
<         for dim in 0 to 0 loop
<           if \\-.last\\(lane * 1 + dim) = '1' then
<             if \\-.want\\(place) = \"01\" & std_logic_vector(to_unsigned(dim, 8)) then
<               place := place + 1;
<             else
<               \\-.fault\\ <= '1';
<               wait;
<             end if;
<           end if;
<         end loop;
<       end loop;
<     end loop;
<   end process;
< end architecture;
@ m
< tydi-trace 1
< cycles 0
< stream - lanes 1 dims 1 level 1 element 8 user 0 forward
< stream b lanes 1 dims 1 level 1 element 8 user 0 forward
@ t
! tydi: OtherHeader t 1
= 1
$ watch m t
< -- tydi-watch 1
< -- stream - lanes 1 dims 1 level 1 element 8 user 0 forward
< library ieee;
< use ieee.std_logic_1164.all;
< use ieee.numeric_std.all;
< entity watch is
<   port (
<     clk : in std_logic;
<     \\-.ready\\ : in std_logic;
<     \\-.valid\\ : in std_logic;
<     \\-.data\\ : in std_logic_vector(7 downto 0);
<     \\-.last\\ : in std_logic_vector(0 downto 0);
<     \\-.strb\\ : in std_logic_vector(0 downto 0);
<     \\-.fault\\ : out std_logic := '0'
<   );
< end entity;
< architecture check of watch is
<   type \\-.items\\ is array (0 to 2) of std_logic_vector(9 downto 0);
<   constant \\-.want\\ : \\-.items\\ := (
<     0 => \"1000000001\",
<     1 => \"0100000000\",
<     2 => \"0000000000\"
<   );
< begin
<   process
<     variable place : natural := 0;
<   begin
<     loop
<       wait until rising_edge(clk) and \\-.valid\\ = '1' and \\-.ready\\ = '1';
<       for lane in 0 to 0 loop
<         if \\-.strb\\(lane) = '1' then
<           if \\-.want\\(place) = \"10\" & \\-.data\\(lane * 8 + 7 downto lane * 8) then
<             place := place + 1;
<           else
<             \\-.fault\\ <= '1';
<             wait;
<           end if;
<         end if;
<         for dim in 0 to 0 loop
<           if \\-.last\\(lane * 1 + dim) = '1' then
<             if \\-.want\\(place) = \"01\" & std_logic_vector(to_unsigned(dim, 8)) then
<               place := place + 1;
<             else
<               \\-.fault\\ <= '1';
<               wait;
<             end if;
<           end if;
<         end loop;
<       end loop;
<     end loop;
<   end process;
< end architecture;
@ m
< tydi-trace 1
< cycles 0
@ t
! tydi: OtherHeader t 0
= 1
# a level that is written in another way is the same
$ watch m t
< -- tydi-watch 1
< -- stream - lanes 1 dims 1 level 1 element 8 user 0 forward
< library ieee;
< use ieee.std_logic_1164.all;
< use ieee.numeric_std.all;
< entity watch is
<   port (
<     clk : in std_logic;
<     \\-.ready\\ : in std_logic;
<     \\-.valid\\ : in std_logic;
<     \\-.data\\ : in std_logic_vector(7 downto 0);
<     \\-.last\\ : in std_logic_vector(0 downto 0);
<     \\-.strb\\ : in std_logic_vector(0 downto 0);
<     \\-.fault\\ : out std_logic := '0'
<   );
< end entity;
< architecture check of watch is
<   type \\-.items\\ is array (0 to 2) of std_logic_vector(9 downto 0);
<   constant \\-.want\\ : \\-.items\\ := (
<     0 => \"1000000001\",
<     1 => \"0100000000\",
<     2 => \"0000000000\"
<   );
< begin
<   process
<     variable place : natural := 0;
<   begin
<     loop
<       wait until rising_edge(clk) and \\-.valid\\ = '1' and \\-.ready\\ = '1';
<       for lane in 0 to 0 loop
<         if \\-.strb\\(lane) = '1' then
<           if \\-.want\\(place) = \"10\" & \\-.data\\(lane * 8 + 7 downto lane * 8) then
<             place := place + 1;
<           else
<             \\-.fault\\ <= '1';
<             wait;
<           end if;
<         end if;
<         for dim in 0 to 0 loop
<           if \\-.last\\(lane * 1 + dim) = '1' then
<             if \\-.want\\(place) = \"01\" & std_logic_vector(to_unsigned(dim, 8)) then
<               place := place + 1;
<             else
<               \\-.fault\\ <= '1';
<               wait;
<             end if;
<           end if;
<         end loop;
<       end loop;
<     end loop;
<   end process;
< end architecture;
@ m
< tydi-trace 2
< cycles 0
< stream - lanes 1 dims 1 level 1 element 8 user 0 forward
@ t
> stream - seen 0 of 2
= 0
# errors of the text of the trace, before its heads
$ watch m t
< -- tydi-watch 1
< -- stream - lanes 1 dims 1 level 1 element 8 user 0 forward
< library ieee;
< use ieee.std_logic_1164.all;
< use ieee.numeric_std.all;
< entity watch is
<   port (
<     clk : in std_logic;
<     \\-.ready\\ : in std_logic;
<     \\-.valid\\ : in std_logic;
<     \\-.data\\ : in std_logic_vector(7 downto 0);
<     \\-.last\\ : in std_logic_vector(0 downto 0);
<     \\-.strb\\ : in std_logic_vector(0 downto 0);
<     \\-.fault\\ : out std_logic := '0'
<   );
< end entity;
< architecture check of watch is
<   type \\-.items\\ is array (0 to 2) of std_logic_vector(9 downto 0);
<   constant \\-.want\\ : \\-.items\\ := (
<     0 => \"1000000001\",
<     1 => \"0100000000\",
<     2 => \"0000000000\"
<   );
< begin
<   process
<     variable place : natural := 0;
<   begin
<     loop
<       wait until rising_edge(clk) and \\-.valid\\ = '1' and \\-.ready\\ = '1';
<       for lane in 0 to 0 loop
<         if \\-.strb\\(lane) = '1' then
<           if \\-.want\\(place) = \"10\" & \\-.data\\(lane * 8 + 7 downto lane * 8) then
<             place := place + 1;
<           else
<             \\-.fault\\ <= '1';
<             wait;
<           end if;
<         end if;
<         for dim in 0 to 0 loop
<           if \\-.last\\(lane * 1 + dim) = '1' then
<             if \\-.want\\(place) = \"01\" & std_logic_vector(to_unsigned(dim, 8)) then
<               place := place + 1;
<             else
<               \\-.fault\\ <= '1';
<               wait;
<             end if;
<           end if;
<         end loop;
<       end loop;
<     end loop;
<   end process;
< end architecture;
@ m
< tydi-trace 1
< cycles 2
< stream - lanes 1 dims 0 level 1 element 8 user 0 forward
< 1 1 d=01
@ t
! tydi: RowsMissing t 2 1
= 1
$ watch m t
< -- tydi-watch 1
< -- stream - lanes 1 dims 1 level 1 element 8 user 0 forward
< library ieee;
< use ieee.std_logic_1164.all;
< use ieee.numeric_std.all;
< entity watch is
<   port (
<     clk : in std_logic;
<     \\-.ready\\ : in std_logic;
<     \\-.valid\\ : in std_logic;
<     \\-.data\\ : in std_logic_vector(7 downto 0);
<     \\-.last\\ : in std_logic_vector(0 downto 0);
<     \\-.strb\\ : in std_logic_vector(0 downto 0);
<     \\-.fault\\ : out std_logic := '0'
<   );
< end entity;
< architecture check of watch is
<   type \\-.items\\ is array (0 to 2) of std_logic_vector(9 downto 0);
<   constant \\-.want\\ : \\-.items\\ := (
<     0 => \"1000000001\",
<     1 => \"0100000000\",
<     2 => \"0000000000\"
<   );
< begin
<   process
<     variable place : natural := 0;
<   begin
<     loop
<       wait until rising_edge(clk) and \\-.valid\\ = '1' and \\-.ready\\ = '1';
<       for lane in 0 to 0 loop
<         if \\-.strb\\(lane) = '1' then
<           if \\-.want\\(place) = \"10\" & \\-.data\\(lane * 8 + 7 downto lane * 8) then
<             place := place + 1;
<           else
<             \\-.fault\\ <= '1';
<             wait;
<           end if;
<         end if;
<         for dim in 0 to 0 loop
<           if \\-.last\\(lane * 1 + dim) = '1' then
<             if \\-.want\\(place) = \"01\" & std_logic_vector(to_unsigned(dim, 8)) then
<               place := place + 1;
<             else
<               \\-.fault\\ <= '1';
<               wait;
<             end if;
<           end if;
<         end loop;
<       end loop;
<     end loop;
<   end process;
< end architecture;
@ m
< tydi-trace 1
< cycles 1
< stream - lanes 1 dims 1 level 1 element 8 user 0 forward
< 1 1 d=1 l=1 b=1
@ t
! tydi: WrongSignals t 4
= 1
$ watch m t
< -- tydi-watch 1
< -- stream - lanes 1 dims 1 level 1 element 8 user 0 forward
< library ieee;
< use ieee.std_logic_1164.all;
< use ieee.numeric_std.all;
< entity watch is
<   port (
<     clk : in std_logic;
<     \\-.ready\\ : in std_logic;
<     \\-.valid\\ : in std_logic;
<     \\-.data\\ : in std_logic_vector(7 downto 0);
<     \\-.last\\ : in std_logic_vector(0 downto 0);
<     \\-.strb\\ : in std_logic_vector(0 downto 0);
<     \\-.fault\\ : out std_logic := '0'
<   );
< end entity;
< architecture check of watch is
<   type \\-.items\\ is array (0 to 2) of std_logic_vector(9 downto 0);
<   constant \\-.want\\ : \\-.items\\ := (
<     0 => \"1000000001\",
<     1 => \"0100000000\",
<     2 => \"0000000000\"
<   );
< begin
<   process
<     variable place : natural := 0;
<   begin
<     loop
<       wait until rising_edge(clk) and \\-.valid\\ = '1' and \\-.ready\\ = '1';
<       for lane in 0 to 0 loop
<         if \\-.strb\\(lane) = '1' then
<           if \\-.want\\(place) = \"10\" & \\-.data\\(lane * 8 + 7 downto lane * 8) then
<             place := place + 1;
<           else
<             \\-.fault\\ <= '1';
<             wait;
<           end if;
<         end if;
<         for dim in 0 to 0 loop
<           if \\-.last\\(lane * 1 + dim) = '1' then
<             if \\-.want\\(place) = \"01\" & std_logic_vector(to_unsigned(dim, 8)) then
<               place := place + 1;
<             else
<               \\-.fault\\ <= '1';
<               wait;
<             end if;
<           end if;
<         end loop;
<       end loop;
<     end loop;
<   end process;
< end architecture;
@ m
< tydi-trace 3
@ t
! tydi: BadHeader t 1
= 1
# files that are not there
$ watch m u
< -- tydi-watch 1
< -- stream - lanes 1 dims 1 level 1 element 8 user 0 forward
< library ieee;
< use ieee.std_logic_1164.all;
< use ieee.numeric_std.all;
< entity watch is
<   port (
<     clk : in std_logic;
<     \\-.ready\\ : in std_logic;
<     \\-.valid\\ : in std_logic;
<     \\-.data\\ : in std_logic_vector(7 downto 0);
<     \\-.last\\ : in std_logic_vector(0 downto 0);
<     \\-.strb\\ : in std_logic_vector(0 downto 0);
<     \\-.fault\\ : out std_logic := '0'
<   );
< end entity;
< architecture check of watch is
<   type \\-.items\\ is array (0 to 2) of std_logic_vector(9 downto 0);
<   constant \\-.want\\ : \\-.items\\ := (
<     0 => \"1000000001\",
<     1 => \"0100000000\",
<     2 => \"0000000000\"
<   );
< begin
<   process
<     variable place : natural := 0;
<   begin
<     loop
<       wait until rising_edge(clk) and \\-.valid\\ = '1' and \\-.ready\\ = '1';
<       for lane in 0 to 0 loop
<         if \\-.strb\\(lane) = '1' then
<           if \\-.want\\(place) = \"10\" & \\-.data\\(lane * 8 + 7 downto lane * 8) then
<             place := place + 1;
<           else
<             \\-.fault\\ <= '1';
<             wait;
<           end if;
<         end if;
<         for dim in 0 to 0 loop
<           if \\-.last\\(lane * 1 + dim) = '1' then
<             if \\-.want\\(place) = \"01\" & std_logic_vector(to_unsigned(dim, 8)) then
<               place := place + 1;
<             else
<               \\-.fault\\ <= '1';
<               wait;
<             end if;
<           end if;
<         end loop;
<       end loop;
<     end loop;
<   end process;
< end architecture;
@ m
! tydi: NoFile u
= 1
$ watch m t
< tydi-trace 1
< cycles 3
< stream - lanes 1 dims 1 level 1 element 8 user 0 forward
< 1 1 d=01 l=0 b=1
< 1 1 d=02 l=1 b=1
< 1 1 d=03 l=1 b=1
@ t
! tydi: NoFile m
= 1
# words that spell no command
$ watch m
! tydi: Usage
= 2
$ watch m t t
! tydi: Usage
= 2
$ watch -m t
! tydi: Usage
= 2
";
