//! Rows of `vhdl`. The project stands in the file `p`.

/// Entities and architectures, and why some projects have none.
pub(crate) const DESIGNED: &str = "\
# a design of a user: an entity, and an entity with its architecture
$ vhdl p
< namespace video {
<   type rgb = Group(r: Bits(8), g: Bits(8), b: Bits(8));
<   type frames = Stream(data: rgb, throughput: 2.0,
<     dimensionality: 2, complexity: 4);
<   streamlet invert = (a: in frames, b: out frames);
<   streamlet top = (a: in frames, b: out frames);
<   impl wiring of top = { i = invert; a -- i.a; i.b -- b; };
<   test two of top drive a =
<     \"root - = [[{r: 1, g: 2, b: 3}, {r: 4, g: 5, b: 6},
<      {r: 7, g: 8, b: 9}]] [];\" plan \"tydi-plan 1
< cycles 3
< \";
< }
@ p
> library ieee;
> use ieee.std_logic_1164.all;
> entity \\video.invert\\ is
>   port (
>     clk : in std_logic;
>     rst : in std_logic;
>     \\a.valid\\ : in std_logic;
>     \\a.ready\\ : out std_logic;
>     \\a.data\\ : in std_logic_vector(47 downto 0);
>     \\a.last\\ : in std_logic_vector(3 downto 0);
>     \\a.endi\\ : in std_logic_vector(0 downto 0);
>     \\a.strb\\ : in std_logic_vector(1 downto 0);
>     \\b.valid\\ : out std_logic;
>     \\b.ready\\ : in std_logic;
>     \\b.data\\ : out std_logic_vector(47 downto 0);
>     \\b.last\\ : out std_logic_vector(3 downto 0);
>     \\b.endi\\ : out std_logic_vector(0 downto 0);
>     \\b.strb\\ : out std_logic_vector(1 downto 0)
>   );
> end entity;
> library ieee;
> use ieee.std_logic_1164.all;
> entity \\video.top\\ is
>   port (
>     clk : in std_logic;
>     rst : in std_logic;
>     \\a.valid\\ : in std_logic;
>     \\a.ready\\ : out std_logic;
>     \\a.data\\ : in std_logic_vector(47 downto 0);
>     \\a.last\\ : in std_logic_vector(3 downto 0);
>     \\a.endi\\ : in std_logic_vector(0 downto 0);
>     \\a.strb\\ : in std_logic_vector(1 downto 0);
>     \\b.valid\\ : out std_logic;
>     \\b.ready\\ : in std_logic;
>     \\b.data\\ : out std_logic_vector(47 downto 0);
>     \\b.last\\ : out std_logic_vector(3 downto 0);
>     \\b.endi\\ : out std_logic_vector(0 downto 0);
>     \\b.strb\\ : out std_logic_vector(1 downto 0)
>   );
> end entity;
> architecture structural of \\video.top\\ is
>   signal \\i.a.valid\\ : std_logic;
>   signal \\i.a.ready\\ : std_logic;
>   signal \\i.a.data\\ : std_logic_vector(47 downto 0);
>   signal \\i.a.last\\ : std_logic_vector(3 downto 0);
>   signal \\i.a.endi\\ : std_logic_vector(0 downto 0);
>   signal \\i.a.strb\\ : std_logic_vector(1 downto 0);
>   signal \\i.b.valid\\ : std_logic;
>   signal \\i.b.ready\\ : std_logic;
>   signal \\i.b.data\\ : std_logic_vector(47 downto 0);
>   signal \\i.b.last\\ : std_logic_vector(3 downto 0);
>   signal \\i.b.endi\\ : std_logic_vector(0 downto 0);
>   signal \\i.b.strb\\ : std_logic_vector(1 downto 0);
> begin
>   \\i\\ : entity work.\\video.invert\\ port map (
>     clk => clk,
>     rst => rst,
>     \\a.valid\\ => \\i.a.valid\\,
>     \\a.ready\\ => \\i.a.ready\\,
>     \\a.data\\ => \\i.a.data\\,
>     \\a.last\\ => \\i.a.last\\,
>     \\a.endi\\ => \\i.a.endi\\,
>     \\a.strb\\ => \\i.a.strb\\,
>     \\b.valid\\ => \\i.b.valid\\,
>     \\b.ready\\ => \\i.b.ready\\,
>     \\b.data\\ => \\i.b.data\\,
>     \\b.last\\ => \\i.b.last\\,
>     \\b.endi\\ => \\i.b.endi\\,
>     \\b.strb\\ => \\i.b.strb\\
>   );
>   \\i.a.valid\\ <= \\a.valid\\;
>   \\a.ready\\ <= \\i.a.ready\\;
>   \\i.a.data\\ <= \\a.data\\;
>   \\i.a.last\\ <= \\a.last\\;
>   \\i.a.endi\\ <= \\a.endi\\;
>   \\i.a.strb\\ <= \\a.strb\\;
>   \\b.valid\\ <= \\i.b.valid\\;
>   \\i.b.ready\\ <= \\b.ready\\;
>   \\b.data\\ <= \\i.b.data\\;
>   \\b.last\\ <= \\i.b.last\\;
>   \\b.endi\\ <= \\i.b.endi\\;
>   \\b.strb\\ <= \\i.b.strb\\;
> end architecture;
= 0
# the signals that the source lacks stand at their defaults
$ vhdl p
< namespace n {
<   type lo = Stream(data: Bits(8), throughput: 2, complexity: 3);
<   type hi = Stream(data: Bits(8), throughput: 2, complexity: 7);
<   streamlet top = (a: in lo, b: out hi);
<   impl w of top = { a -- b; };
< }
@ p
> library ieee;
> use ieee.std_logic_1164.all;
> entity \\n.top\\ is
>   port (
>     clk : in std_logic;
>     rst : in std_logic;
>     \\a.valid\\ : in std_logic;
>     \\a.ready\\ : out std_logic;
>     \\a.data\\ : in std_logic_vector(15 downto 0);
>     \\b.valid\\ : out std_logic;
>     \\b.ready\\ : in std_logic;
>     \\b.data\\ : out std_logic_vector(15 downto 0);
>     \\b.stai\\ : out std_logic_vector(0 downto 0);
>     \\b.endi\\ : out std_logic_vector(0 downto 0);
>     \\b.strb\\ : out std_logic_vector(1 downto 0)
>   );
> end entity;
> architecture structural of \\n.top\\ is
> begin
>   \\b.valid\\ <= \\a.valid\\;
>   \\a.ready\\ <= \\b.ready\\;
>   \\b.data\\ <= \\a.data\\;
>   \\b.stai\\ <= \"0\";
>   \\b.endi\\ <= \"1\";
>   \\b.strb\\ <= \"11\";
> end architecture;
= 0
# two streams of one path, in the second port of the second streamlet
$ vhdl p
< namespace a::b {
<   type t = Stream(data: Bits(2));
<   type u = Stream(data: Stream(data: Bits(1)), user: Bits(1));
<   type v = Stream(data: Group(x: u));
<   streamlet s = (p: in t);
<   streamlet r = (p: in t, q: out v, u: in u);
< }
@ p
! tydi: NameClash a::b::r.q x
= 1
# the same stands before an error of links
$ vhdl p
< namespace a {
<   type t = Stream(data: Bits(2));
<   type u = Stream(data: Stream(data: Bits(1)), user: Bits(1));
<   streamlet s = (p: in t, q: out t);
<   impl i of s = { p -- p; };
<   streamlet r = (w: in u);
< }
@ p
! tydi: NameClash a::r.w -
= 1
# a link of two ends of one side
$ vhdl p
< namespace a {
<   type t = Stream(data: Bits(2));
<   streamlet s = (p: in t, q: out t);
<   impl i of s = { p -- p; };
< }
@ p
! tydi: SameSide p 4:19
= 1
# an end without a link
$ vhdl p
< namespace a {
<   type t = Stream(data: Bits(2));
<   streamlet s = (p: in t, q: out t);
<   impl i of s = { };
< }
@ p
! tydi: Unlinked p 4:13
= 1
# types that are not compatible
$ vhdl p
< namespace a {
<   streamlet s = (p: in Stream(data: Bits(2), complexity: 5), q: out Stream(data: Bits(2), complexity: 3));
<   impl i of s = { p -- q; };
< }
@ p
! tydi: NotCompatible p 3:19 - Level
= 1
# a linked implementation has an entity alone
$ vhdl p
< namespace a { streamlet s = (); impl i of s = \"elsewhere\"; }
@ p
> library ieee;
> use ieee.std_logic_1164.all;
> entity \\a.s\\ is
>   port (
>     clk : in std_logic;
>     rst : in std_logic
>   );
> end entity;
= 0
# a streamlet without ports, twice in another
$ vhdl p
< namespace a { streamlet s = (); streamlet t = (); impl i of t = { x = s; y = s; }; }
@ p
> library ieee;
> use ieee.std_logic_1164.all;
> entity \\a.s\\ is
>   port (
>     clk : in std_logic;
>     rst : in std_logic
>   );
> end entity;
> library ieee;
> use ieee.std_logic_1164.all;
> entity \\a.t\\ is
>   port (
>     clk : in std_logic;
>     rst : in std_logic
>   );
> end entity;
> architecture structural of \\a.t\\ is
> begin
>   \\x\\ : entity work.\\a.s\\ port map (
>     clk => clk,
>     rst => rst
>   );
>   \\y\\ : entity work.\\a.s\\ port map (
>     clk => clk,
>     rst => rst
>   );
> end architecture;
= 0
# a reversed stream flows back, and its ready with the requests
$ vhdl p
< namespace a {
<   type t = Stream(data: Group(x: Bits(2), y: Stream(data: Bits(1), direction: Reverse, complexity: 6)), complexity: 2);
<   type w = Stream(data: Group(x: Bits(2), y: Stream(data: Bits(1), direction: Reverse, complexity: 1)), complexity: 7);
<   streamlet s = (p: in t, q: out w);
<   impl i of s = { p -- q; };
< }
@ p
> library ieee;
> use ieee.std_logic_1164.all;
> entity \\a.s\\ is
>   port (
>     clk : in std_logic;
>     rst : in std_logic;
>     \\p.valid\\ : in std_logic;
>     \\p.ready\\ : out std_logic;
>     \\p.data\\ : in std_logic_vector(1 downto 0);
>     \\p.y.valid\\ : out std_logic;
>     \\p.y.ready\\ : in std_logic;
>     \\p.y.data\\ : out std_logic_vector(0 downto 0);
>     \\q.valid\\ : out std_logic;
>     \\q.ready\\ : in std_logic;
>     \\q.data\\ : out std_logic_vector(1 downto 0);
>     \\q.strb\\ : out std_logic_vector(0 downto 0);
>     \\q.y.valid\\ : in std_logic;
>     \\q.y.ready\\ : out std_logic;
>     \\q.y.data\\ : in std_logic_vector(0 downto 0)
>   );
> end entity;
> architecture structural of \\a.s\\ is
> begin
>   \\q.valid\\ <= \\p.valid\\;
>   \\p.ready\\ <= \\q.ready\\;
>   \\q.data\\ <= \\p.data\\;
>   \\q.strb\\ <= \"1\";
>   \\p.y.valid\\ <= \\q.y.valid\\;
>   \\q.y.ready\\ <= \\p.y.ready\\;
>   \\p.y.data\\ <= \\q.y.data\\;
> end architecture;
= 0
# a project without streamlets
$ vhdl p
< namespace a { }
@ p
= 0
# errors of the text, of types and of files are those of other commands
$ vhdl p
< namespace a {
@ p
! tydi: EndOfText p
= 1
$ vhdl p
< namespace a { streamlet s = (p: in t); }
@ p
! tydi: UnknownName p 1:36
= 1
$ vhdl q
< namespace a { }
@ p
! tydi: NoFile q
= 1
# words that spell no command
$ vhdl
! tydi: Usage
= 2
$ vhdl p q
< namespace a { }
@ p
! tydi: Usage
= 2
$ vhdl -p
! tydi: Usage
= 2
# a store that fails, and a sink
$ vhdl p
< namespace a { }
@ p
- store 2
! tydi: ReadFault p
= 3
";

/// Ports with two streams of one path.
pub(crate) const CLASHING: &str = "\
# two streams of one path in the second port and in the third
$ vhdl p
~ namespace c { type t = Stream(data: Bits(2)); type u = Stream(data: Stream(data: Bits(1)), user: Bits(1)); type v = Stream(data: Group(x: u)); streamlet s = (p: in t, q: in u, r: in v); }
@ p
! tydi: NameClash c::s.q -
= 1
# two streams of one path inside a field
$ vhdl p
~ namespace c { type u = Stream(data: Stream(data: Bits(1)), user: Bits(1)); type v = Stream(data: Group(x: u)); streamlet s = (p: out v, q: in u); }
@ p
! tydi: NameClash c::s.p x
= 1
";
