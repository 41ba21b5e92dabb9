//! Rows of `sim`. The bench stands in the file `b` and its run in `r`.

/// Benches that are run, and errors of their texts.
pub(crate) const SIMULATED: &str = "\
# a bench of two transfers
$ sim b r
< -- tydi-bench 1
< -- stream - lanes 1 dims 1 level 1 element 8 user 0 forward
< library ieee;
< use ieee.std_logic_1164.all;
< entity bench is
<   port (
<     clk : in std_logic;
<     \\-.ready\\ : in std_logic;
<     \\-.valid\\ : out std_logic := '0';
<     \\-.data\\ : out std_logic_vector(7 downto 0) := (others => '0');
<     \\-.last\\ : out std_logic_vector(0 downto 0) := (others => '0');
<     \\-.strb\\ : out std_logic_vector(0 downto 0) := (others => '0')
<   );
< end entity;
< architecture drive of bench is
< begin
<   process
<   begin
<     \\-.data\\ <= \"01001000\";
<     \\-.last\\ <= \"0\";
<     \\-.strb\\ <= \"1\";
<     \\-.valid\\ <= '1';
<     wait until rising_edge(clk) and \\-.ready\\ = '1';
<     \\-.data\\ <= \"01101001\";
<     \\-.last\\ <= \"1\";
<     \\-.strb\\ <= \"1\";
<     \\-.valid\\ <= '1';
<     wait until rising_edge(clk) and \\-.ready\\ = '1';
<     \\-.valid\\ <= '0';
<     wait;
<   end process;
< end architecture;
@ b
< tydi-run 1
< cycles 2
@ r
> tydi-trace 1
> cycles 2
> stream - lanes 1 dims 1 level 1 element 8 user 0 forward
> 1 1 d=48 l=0 b=1
> 1 1 d=69 l=1 b=1
= 0
# a sink that is not ready in the first cycle
$ sim b r
< -- tydi-bench 1
< -- stream - lanes 1 dims 1 level 1 element 8 user 0 forward
< library ieee;
< use ieee.std_logic_1164.all;
< entity bench is
<   port (
<     clk : in std_logic;
<     \\-.ready\\ : in std_logic;
<     \\-.valid\\ : out std_logic := '0';
<     \\-.data\\ : out std_logic_vector(7 downto 0) := (others => '0');
<     \\-.last\\ : out std_logic_vector(0 downto 0) := (others => '0');
<     \\-.strb\\ : out std_logic_vector(0 downto 0) := (others => '0')
<   );
< end entity;
< architecture drive of bench is
< begin
<   process
<   begin
<     \\-.data\\ <= \"01001000\";
<     \\-.last\\ <= \"0\";
<     \\-.strb\\ <= \"1\";
<     \\-.valid\\ <= '1';
<     wait until rising_edge(clk) and \\-.ready\\ = '1';
<     \\-.data\\ <= \"01101001\";
<     \\-.last\\ <= \"1\";
<     \\-.strb\\ <= \"1\";
<     \\-.valid\\ <= '1';
<     wait until rising_edge(clk) and \\-.ready\\ = '1';
<     \\-.valid\\ <= '0';
<     wait;
<   end process;
< end architecture;
@ b
< tydi-run 1
< cycles 3
~ ready - 011
@ r
> tydi-trace 1
> cycles 3
> stream - lanes 1 dims 1 level 1 element 8 user 0 forward
> 1 0 d=48 l=0 b=1
> 1 1 d=48 l=0 b=1
> 1 1 d=69 l=1 b=1
= 0
# an order that names no process
$ sim b r
< -- tydi-bench 1
< -- stream - lanes 1 dims 1 level 1 element 8 user 0 forward
< library ieee;
< use ieee.std_logic_1164.all;
< entity bench is
<   port (
<     clk : in std_logic;
<     \\-.ready\\ : in std_logic;
<     \\-.valid\\ : out std_logic := '0';
<     \\-.data\\ : out std_logic_vector(7 downto 0) := (others => '0');
<     \\-.last\\ : out std_logic_vector(0 downto 0) := (others => '0');
<     \\-.strb\\ : out std_logic_vector(0 downto 0) := (others => '0')
<   );
< end entity;
< architecture drive of bench is
< begin
<   process
<   begin
<     \\-.data\\ <= \"01001000\";
<     \\-.last\\ <= \"0\";
<     \\-.strb\\ <= \"1\";
<     \\-.valid\\ <= '1';
<     wait until rising_edge(clk) and \\-.ready\\ = '1';
<     \\-.data\\ <= \"01101001\";
<     \\-.last\\ <= \"1\";
<     \\-.strb\\ <= \"1\";
<     \\-.valid\\ <= '1';
<     wait until rising_edge(clk) and \\-.ready\\ = '1';
<     \\-.valid\\ <= '0';
<     wait;
<   end process;
< end architecture;
@ b
< tydi-run 1
< cycles 3
< ready - 011
~ order 1
@ r
! tydi: NotOrder r 4:1
= 1
# two processes in their order
$ sim b r
< -- tydi-bench 1
< -- stream - lanes 1 dims 1 level 1 element 8 user 0 forward
< -- stream b lanes 1 dims 1 level 1 element 8 user 0 forward
< library ieee;
< use ieee.std_logic_1164.all;
< entity bench is
<   port (
<     clk : in std_logic;
<     \\-.ready\\ : in std_logic;
<     \\-.valid\\ : out std_logic := '0';
<     \\-.data\\ : out std_logic_vector(7 downto 0) := (others => '0');
<     \\-.last\\ : out std_logic_vector(0 downto 0) := (others => '0');
<     \\-.strb\\ : out std_logic_vector(0 downto 0) := (others => '0');
<     \\b.ready\\ : in std_logic;
<     \\b.valid\\ : out std_logic := '0';
<     \\b.data\\ : out std_logic_vector(7 downto 0) := (others => '0');
<     \\b.last\\ : out std_logic_vector(0 downto 0) := (others => '0');
<     \\b.strb\\ : out std_logic_vector(0 downto 0) := (others => '0')
<   );
< end entity;
< architecture drive of bench is
< begin
<   process
<   begin
<     \\-.valid\\ <= '0';
<     for i in 1 to 2 loop
<       wait until rising_edge(clk);
<     end loop;
<     \\-.data\\ <= \"00000001\";
<     \\-.last\\ <= \"0\";
<     \\-.strb\\ <= \"1\";
<     \\-.valid\\ <= '1';
<     wait until rising_edge(clk) and \\-.ready\\ = '1';
<     \\-.data\\ <= \"00000100\";
<     \\-.last\\ <= \"1\";
<     \\-.strb\\ <= \"1\";
<     \\-.valid\\ <= '1';
<     wait until rising_edge(clk) and \\-.ready\\ = '1';
<     \\-.valid\\ <= '0';
<     wait;
<   end process;
<   process
<   begin
<     \\b.data\\ <= \"00000010\";
<     \\b.last\\ <= \"0\";
<     \\b.strb\\ <= \"1\";
<     \\b.valid\\ <= '1';
<     wait until rising_edge(clk) and \\b.ready\\ = '1';
<     \\b.data\\ <= \"00000011\";
<     \\b.last\\ <= \"1\";
<     \\b.strb\\ <= \"1\";
<     \\b.valid\\ <= '1';
<     wait until rising_edge(clk) and \\b.ready\\ = '1';
<     \\b.data\\ <= \"00000000\";
<     \\b.last\\ <= \"1\";
<     \\b.strb\\ <= \"0\";
<     \\b.valid\\ <= '1';
<     wait until rising_edge(clk) and \\b.ready\\ = '1';
<     \\b.valid\\ <= '0';
<     wait;
<   end process;
< end architecture;
@ b
< tydi-run 1
< cycles 5
< order 0 1
< order 0 1
< order 0 1
< order 0 1
< order 0 1
@ r
> tydi-trace 1
> cycles 5
> stream - lanes 1 dims 1 level 1 element 8 user 0 forward
> stream b lanes 1 dims 1 level 1 element 8 user 0 forward
> 0 1 -
> 1 1 d=02 l=0 b=1
> 0 1 -
> 1 1 d=03 l=1 b=1
> 1 1 d=01 l=0 b=1
> 1 1 d=00 l=1 b=0
> 1 1 d=04 l=1 b=1
> 0 1 -
> 0 1 -
> 0 1 -
= 0
# the other order gives the same rows
$ sim b r
< -- tydi-bench 1
< -- stream - lanes 1 dims 1 level 1 element 8 user 0 forward
< -- stream b lanes 1 dims 1 level 1 element 8 user 0 forward
< library ieee;
< use ieee.std_logic_1164.all;
< entity bench is
<   port (
<     clk : in std_logic;
<     \\-.ready\\ : in std_logic;
<     \\-.valid\\ : out std_logic := '0';
<     \\-.data\\ : out std_logic_vector(7 downto 0) := (others => '0');
<     \\-.last\\ : out std_logic_vector(0 downto 0) := (others => '0');
<     \\-.strb\\ : out std_logic_vector(0 downto 0) := (others => '0');
<     \\b.ready\\ : in std_logic;
<     \\b.valid\\ : out std_logic := '0';
<     \\b.data\\ : out std_logic_vector(7 downto 0) := (others => '0');
<     \\b.last\\ : out std_logic_vector(0 downto 0) := (others => '0');
<     \\b.strb\\ : out std_logic_vector(0 downto 0) := (others => '0')
<   );
< end entity;
< architecture drive of bench is
< begin
<   process
<   begin
<     \\-.valid\\ <= '0';
<     for i in 1 to 2 loop
<       wait until rising_edge(clk);
<     end loop;
<     \\-.data\\ <= \"00000001\";
<     \\-.last\\ <= \"0\";
<     \\-.strb\\ <= \"1\";
<     \\-.valid\\ <= '1';
<     wait until rising_edge(clk) and \\-.ready\\ = '1';
<     \\-.data\\ <= \"00000100\";
<     \\-.last\\ <= \"1\";
<     \\-.strb\\ <= \"1\";
<     \\-.valid\\ <= '1';
<     wait until rising_edge(clk) and \\-.ready\\ = '1';
<     \\-.valid\\ <= '0';
<     wait;
<   end process;
<   process
<   begin
<     \\b.data\\ <= \"00000010\";
<     \\b.last\\ <= \"0\";
<     \\b.strb\\ <= \"1\";
<     \\b.valid\\ <= '1';
<     wait until rising_edge(clk) and \\b.ready\\ = '1';
<     \\b.data\\ <= \"00000011\";
<     \\b.last\\ <= \"1\";
<     \\b.strb\\ <= \"1\";
<     \\b.valid\\ <= '1';
<     wait until rising_edge(clk) and \\b.ready\\ = '1';
<     \\b.data\\ <= \"00000000\";
<     \\b.last\\ <= \"1\";
<     \\b.strb\\ <= \"0\";
<     \\b.valid\\ <= '1';
<     wait until rising_edge(clk) and \\b.ready\\ = '1';
<     \\b.valid\\ <= '0';
<     wait;
<   end process;
< end architecture;
@ b
< tydi-run 1
< cycles 5
< order 1 0
< order 1 0
< order 1 0
< order 1 0
< order 1 0
@ r
> tydi-trace 1
> cycles 5
> stream - lanes 1 dims 1 level 1 element 8 user 0 forward
> stream b lanes 1 dims 1 level 1 element 8 user 0 forward
> 0 1 -
> 1 1 d=02 l=0 b=1
> 0 1 -
> 1 1 d=03 l=1 b=1
> 1 1 d=01 l=0 b=1
> 1 1 d=00 l=1 b=0
> 1 1 d=04 l=1 b=1
> 0 1 -
> 0 1 -
> 0 1 -
= 0
# a stream whose sink is never ready
$ sim b r
< -- tydi-bench 1
< -- stream - lanes 1 dims 1 level 1 element 8 user 0 forward
< -- stream b lanes 1 dims 1 level 1 element 8 user 0 forward
< library ieee;
< use ieee.std_logic_1164.all;
< entity bench is
<   port (
<     clk : in std_logic;
<     \\-.ready\\ : in std_logic;
<     \\-.valid\\ : out std_logic := '0';
<     \\-.data\\ : out std_logic_vector(7 downto 0) := (others => '0');
<     \\-.last\\ : out std_logic_vector(0 downto 0) := (others => '0');
<     \\-.strb\\ : out std_logic_vector(0 downto 0) := (others => '0');
<     \\b.ready\\ : in std_logic;
<     \\b.valid\\ : out std_logic := '0';
<     \\b.data\\ : out std_logic_vector(7 downto 0) := (others => '0');
<     \\b.last\\ : out std_logic_vector(0 downto 0) := (others => '0');
<     \\b.strb\\ : out std_logic_vector(0 downto 0) := (others => '0')
<   );
< end entity;
< architecture drive of bench is
< begin
<   process
<   begin
<     \\-.valid\\ <= '0';
<     for i in 1 to 2 loop
<       wait until rising_edge(clk);
<     end loop;
<     \\-.data\\ <= \"00000001\";
<     \\-.last\\ <= \"0\";
<     \\-.strb\\ <= \"1\";
<     \\-.valid\\ <= '1';
<     wait until rising_edge(clk) and \\-.ready\\ = '1';
<     \\-.data\\ <= \"00000100\";
<     \\-.last\\ <= \"1\";
<     \\-.strb\\ <= \"1\";
<     \\-.valid\\ <= '1';
<     wait until rising_edge(clk) and \\-.ready\\ = '1';
<     \\-.valid\\ <= '0';
<     wait;
<   end process;
<   process
<   begin
<     \\b.data\\ <= \"00000010\";
<     \\b.last\\ <= \"0\";
<     \\b.strb\\ <= \"1\";
<     \\b.valid\\ <= '1';
<     wait until rising_edge(clk) and \\b.ready\\ = '1';
<     \\b.data\\ <= \"00000011\";
<     \\b.last\\ <= \"1\";
<     \\b.strb\\ <= \"1\";
<     \\b.valid\\ <= '1';
<     wait until rising_edge(clk) and \\b.ready\\ = '1';
<     \\b.data\\ <= \"00000000\";
<     \\b.last\\ <= \"1\";
<     \\b.strb\\ <= \"0\";
<     \\b.valid\\ <= '1';
<     wait until rising_edge(clk) and \\b.ready\\ = '1';
<     \\b.valid\\ <= '0';
<     wait;
<   end process;
< end architecture;
@ b
< tydi-run 1
< cycles 5
< ready b 00000
@ r
> tydi-trace 1
> cycles 5
> stream - lanes 1 dims 1 level 1 element 8 user 0 forward
> stream b lanes 1 dims 1 level 1 element 8 user 0 forward
> 0 1 -
> 1 0 d=02 l=0 b=1
> 0 1 -
> 1 0 d=02 l=0 b=1
> 1 1 d=01 l=0 b=1
> 1 0 d=02 l=0 b=1
> 1 1 d=04 l=1 b=1
> 1 0 d=02 l=0 b=1
> 0 1 -
> 1 0 d=02 l=0 b=1
= 0
# a bench of three transfers in two lanes
$ sim b r
< -- tydi-bench 1
< -- stream - lanes 2 dims 2 level 4 element 24 user 0 forward
< library ieee;
< use ieee.std_logic_1164.all;
< entity bench is
<   port (
<     clk : in std_logic;
<     \\-.ready\\ : in std_logic;
<     \\-.valid\\ : out std_logic := '0';
<     \\-.data\\ : out std_logic_vector(47 downto 0) := (others => '0');
<     \\-.last\\ : out std_logic_vector(3 downto 0) := (others => '0');
<     \\-.endi\\ : out std_logic_vector(0 downto 0) := (others => '0');
<     \\-.strb\\ : out std_logic_vector(1 downto 0) := (others => '0')
<   );
< end entity;
< architecture drive of bench is
< begin
<   process
<   begin
<     \\-.data\\ <= \"000001100000010100000100000000110000001000000001\";
<     \\-.last\\ <= \"0000\";
<     \\-.endi\\ <= \"1\";
<     \\-.strb\\ <= \"11\";
<     \\-.valid\\ <= '1';
<     wait until rising_edge(clk) and \\-.ready\\ = '1';
<     \\-.data\\ <= \"000000000000000000000000000010010000100000000111\";
<     \\-.last\\ <= \"1100\";
<     \\-.endi\\ <= \"0\";
<     \\-.strb\\ <= \"11\";
<     \\-.valid\\ <= '1';
<     wait until rising_edge(clk) and \\-.ready\\ = '1';
<     \\-.data\\ <= \"000000000000000000000000000000000000000000000000\";
<     \\-.last\\ <= \"1000\";
<     \\-.endi\\ <= \"1\";
<     \\-.strb\\ <= \"00\";
<     \\-.valid\\ <= '1';
<     wait until rising_edge(clk) and \\-.ready\\ = '1';
<     \\-.valid\\ <= '0';
<     wait;
<   end process;
< end architecture;
@ b
< tydi-run 1
< cycles 3
@ r
> tydi-trace 1
> cycles 3
> stream - lanes 2 dims 2 level 4 element 24 user 0 forward
> 1 1 d=060504030201 l=0 e=1 b=3
> 1 1 d=000000090807 l=c e=0 b=3
> 1 1 d=000000000000 l=8 e=1 b=0
= 0
# no bench
$ sim b r
< tydi-run 1
< cycles 1
@ r
! tydi: NoFile b
= 1
# no run
$ sim b r
< -- tydi-bench 1
< -- stream - lanes 1 dims 1 level 1 element 8 user 0 forward
< library ieee;
< use ieee.std_logic_1164.all;
< entity bench is
<   port (
<     clk : in std_logic;
<     \\-.ready\\ : in std_logic;
<     \\-.valid\\ : out std_logic := '0';
<     \\-.data\\ : out std_logic_vector(7 downto 0) := (others => '0');
<     \\-.last\\ : out std_logic_vector(0 downto 0) := (others => '0');
<     \\-.strb\\ : out std_logic_vector(0 downto 0) := (others => '0')
<   );
< end entity;
< architecture drive of bench is
< begin
<   process
<   begin
<     \\-.data\\ <= \"01001000\";
<     \\-.last\\ <= \"0\";
<     \\-.strb\\ <= \"1\";
<     \\-.valid\\ <= '1';
<     wait until rising_edge(clk) and \\-.ready\\ = '1';
<     \\-.data\\ <= \"01101001\";
<     \\-.last\\ <= \"1\";
<     \\-.strb\\ <= \"1\";
<     \\-.valid\\ <= '1';
<     wait until rising_edge(clk) and \\-.ready\\ = '1';
<     \\-.valid\\ <= '0';
<     wait;
<   end process;
< end architecture;
@ b
! tydi: NoFile r
= 1
# an error of the bench is found before the run
$ sim b r
< -- tydi-bench 1
< -- stream - lanes 1 dims 1 level 1 element 8 user 0 forward
< library ieee;
< use ieee.std_logic_1164.all;
< entity tench is
<   port (
<     clk : in std_logic;
<     \\-.ready\\ : in std_logic;
<     \\-.valid\\ : out std_logic := '0';
<     \\-.data\\ : out std_logic_vector(7 downto 0) := (others => '0');
<     \\-.last\\ : out std_logic_vector(0 downto 0) := (others => '0');
<     \\-.strb\\ : out std_logic_vector(0 downto 0) := (others => '0')
<   );
< end entity;
< architecture drive of bench is
< begin
<   process
<   begin
<     \\-.data\\ <= \"01001000\";
<     \\-.last\\ <= \"0\";
<     \\-.strb\\ <= \"1\";
<     \\-.valid\\ <= '1';
<     wait until rising_edge(clk) and \\-.ready\\ = '1';
<     \\-.data\\ <= \"01101001\";
<     \\-.last\\ <= \"1\";
<     \\-.strb\\ <= \"1\";
<     \\-.valid\\ <= '1';
<     wait until rising_edge(clk) and \\-.ready\\ = '1';
<     \\-.valid\\ <= '0';
<     wait;
<   end process;
< end architecture;
@ b
! tydi: NotForm b 119
= 1
# a signal that no stream has
$ sim b r
< -- tydi-bench 1
< -- stream - lanes 1 dims 1 level 1 element 8 user 0 forward
< library ieee;
< use ieee.std_logic_1164.all;
< entity bench is
<   port (
<     clk : in std_logic;
<     \\-.ready\\ : in std_logic;
<     \\-.valid\\ : out std_logic := '0';
<     \\-.data\\ : out std_logic_vector(7 downto 0) := (others => '0');
<     \\-.last\\ : out std_logic_vector(0 downto 0) := (others => '0');
<     \\-.strb\\ : out std_logic_vector(0 downto 0) := (others => '0')
<   );
< end entity;
< architecture drive of bench is
< begin
<   process
<   begin
<     \\-.data\\ <= \"01001000\";
<     \\-.lest\\ <= \"0\";
<     \\-.strb\\ <= \"1\";
<     \\-.valid\\ <= '1';
<     wait until rising_edge(clk) and \\-.ready\\ = '1';
<     \\-.data\\ <= \"01101001\";
<     \\-.last\\ <= \"1\";
<     \\-.strb\\ <= \"1\";
<     \\-.valid\\ <= '1';
<     wait until rising_edge(clk) and \\-.ready\\ = '1';
<     \\-.valid\\ <= '0';
<     wait;
<   end process;
< end architecture;
@ b
! tydi: UnknownSignal b 539
= 1
# a stream that the bench does not have
$ sim b r
< -- tydi-bench 1
< -- stream - lanes 1 dims 1 level 1 element 8 user 0 forward
< library ieee;
< use ieee.std_logic_1164.all;
< entity bench is
<   port (
<     clk : in std_logic;
<     \\-.ready\\ : in std_logic;
<     \\-.valid\\ : out std_logic := '0';
<     \\-.data\\ : out std_logic_vector(7 downto 0) := (others => '0');
<     \\-.last\\ : out std_logic_vector(0 downto 0) := (others => '0');
<     \\-.strb\\ : out std_logic_vector(0 downto 0) := (others => '0')
<   );
< end entity;
< architecture drive of bench is
< begin
<   process
<   begin
<     \\-.data\\ <= \"01001000\";
<     \\-.last\\ <= \"0\";
<     \\-.strb\\ <= \"1\";
<     \\-.valid\\ <= '1';
<     wait until rising_edge(clk) and \\-.ready\\ = '1';
<     \\-.data\\ <= \"01101001\";
<     \\-.last\\ <= \"1\";
<     \\-.strb\\ <= \"1\";
<     \\-.valid\\ <= '1';
<     wait until rising_edge(clk) and \\-.ready\\ = '1';
<     \\-.valid\\ <= '0';
<     wait;
<   end process;
< end architecture;
@ b
< tydi-run 1
< cycles 1
< ready x 1
@ r
! tydi: UnknownStream r 3:1
= 1
# no cycles line
$ sim b r
< -- tydi-bench 1
< -- stream - lanes 1 dims 1 level 1 element 8 user 0 forward
< library ieee;
< use ieee.std_logic_1164.all;
< entity bench is
<   port (
<     clk : in std_logic;
<     \\-.ready\\ : in std_logic;
<     \\-.valid\\ : out std_logic := '0';
<     \\-.data\\ : out std_logic_vector(7 downto 0) := (others => '0');
<     \\-.last\\ : out std_logic_vector(0 downto 0) := (others => '0');
<     \\-.strb\\ : out std_logic_vector(0 downto 0) := (others => '0')
<   );
< end entity;
< architecture drive of bench is
< begin
<   process
<   begin
<     \\-.data\\ <= \"01001000\";
<     \\-.last\\ <= \"0\";
<     \\-.strb\\ <= \"1\";
<     \\-.valid\\ <= '1';
<     wait until rising_edge(clk) and \\-.ready\\ = '1';
<     \\-.data\\ <= \"01101001\";
<     \\-.last\\ <= \"1\";
<     \\-.strb\\ <= \"1\";
<     \\-.valid\\ <= '1';
<     wait until rising_edge(clk) and \\-.ready\\ = '1';
<     \\-.valid\\ <= '0';
<     wait;
<   end process;
< end architecture;
@ b
< tydi-run 1
@ r
! tydi: Syntax r 2:1
= 1
";
