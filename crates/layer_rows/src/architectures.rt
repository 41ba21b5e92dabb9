//! Entities and architectures of whole projects, as the description of their form has them.

ghost use Rattle.til_resolve.specs.PlainProject.{HasPortTypes, plain_project};

use crate::types::tree_of;
use link_check::check;
use std::alloc::Global;
use til_parser::Ast;
use til_resolve::{Project, port_types_are_valid, projects_are_plain, resolve};
use tydi_base::{List, Memory};
use vhdl_text::{Arch, arch_length, print_arch};
use vhdl_writer::architecture;

// A component, and an implementation with one instance of it.
const VIDEO: &str = "namespace video {
  type rgb = Group(r: Bits(8), g: Bits(8), b: Bits(8));
  type frames = Stream(data: rgb, throughput: 2.0,
    dimensionality: 2, complexity: 4);
  streamlet invert = (a: in frames, b: out frames);
  streamlet top = (a: in frames, b: out frames);
  impl wiring of top = { i = invert; a -- i.a; i.b -- b; };
  test two of top drive a =
    \"root - = [[{r: 1, g: 2, b: 3}, {r: 4, g: 5, b: 6},
     {r: 7, g: 8, b: 9}]] [];\" plan \"tydi-plan 1
cycles 3
\";
}";

// The entity of a component, and an architecture with one instance of it.
const VIDEO_TEXT: &str = "\
library ieee;
use ieee.std_logic_1164.all;
entity \\video.invert\\ is
  port (
    clk : in std_logic;
    rst : in std_logic;
    \\a.valid\\ : in std_logic;
    \\a.ready\\ : out std_logic;
    \\a.data\\ : in std_logic_vector(47 downto 0);
    \\a.last\\ : in std_logic_vector(3 downto 0);
    \\a.endi\\ : in std_logic_vector(0 downto 0);
    \\a.strb\\ : in std_logic_vector(1 downto 0);
    \\b.valid\\ : out std_logic;
    \\b.ready\\ : in std_logic;
    \\b.data\\ : out std_logic_vector(47 downto 0);
    \\b.last\\ : out std_logic_vector(3 downto 0);
    \\b.endi\\ : out std_logic_vector(0 downto 0);
    \\b.strb\\ : out std_logic_vector(1 downto 0)
  );
end entity;
library ieee;
use ieee.std_logic_1164.all;
entity \\video.top\\ is
  port (
    clk : in std_logic;
    rst : in std_logic;
    \\a.valid\\ : in std_logic;
    \\a.ready\\ : out std_logic;
    \\a.data\\ : in std_logic_vector(47 downto 0);
    \\a.last\\ : in std_logic_vector(3 downto 0);
    \\a.endi\\ : in std_logic_vector(0 downto 0);
    \\a.strb\\ : in std_logic_vector(1 downto 0);
    \\b.valid\\ : out std_logic;
    \\b.ready\\ : in std_logic;
    \\b.data\\ : out std_logic_vector(47 downto 0);
    \\b.last\\ : out std_logic_vector(3 downto 0);
    \\b.endi\\ : out std_logic_vector(0 downto 0);
    \\b.strb\\ : out std_logic_vector(1 downto 0)
  );
end entity;
architecture structural of \\video.top\\ is
  signal \\i.a.valid\\ : std_logic;
  signal \\i.a.ready\\ : std_logic;
  signal \\i.a.data\\ : std_logic_vector(47 downto 0);
  signal \\i.a.last\\ : std_logic_vector(3 downto 0);
  signal \\i.a.endi\\ : std_logic_vector(0 downto 0);
  signal \\i.a.strb\\ : std_logic_vector(1 downto 0);
  signal \\i.b.valid\\ : std_logic;
  signal \\i.b.ready\\ : std_logic;
  signal \\i.b.data\\ : std_logic_vector(47 downto 0);
  signal \\i.b.last\\ : std_logic_vector(3 downto 0);
  signal \\i.b.endi\\ : std_logic_vector(0 downto 0);
  signal \\i.b.strb\\ : std_logic_vector(1 downto 0);
begin
  \\i\\ : entity work.\\video.invert\\ port map (
    clk => clk,
    rst => rst,
    \\a.valid\\ => \\i.a.valid\\,
    \\a.ready\\ => \\i.a.ready\\,
    \\a.data\\ => \\i.a.data\\,
    \\a.last\\ => \\i.a.last\\,
    \\a.endi\\ => \\i.a.endi\\,
    \\a.strb\\ => \\i.a.strb\\,
    \\b.valid\\ => \\i.b.valid\\,
    \\b.ready\\ => \\i.b.ready\\,
    \\b.data\\ => \\i.b.data\\,
    \\b.last\\ => \\i.b.last\\,
    \\b.endi\\ => \\i.b.endi\\,
    \\b.strb\\ => \\i.b.strb\\
  );
  \\i.a.valid\\ <= \\a.valid\\;
  \\a.ready\\ <= \\i.a.ready\\;
  \\i.a.data\\ <= \\a.data\\;
  \\i.a.last\\ <= \\a.last\\;
  \\i.a.endi\\ <= \\a.endi\\;
  \\i.a.strb\\ <= \\a.strb\\;
  \\b.valid\\ <= \\i.b.valid\\;
  \\i.b.ready\\ <= \\b.ready\\;
  \\b.data\\ <= \\i.b.data\\;
  \\b.last\\ <= \\i.b.last\\;
  \\b.endi\\ <= \\i.b.endi\\;
  \\b.strb\\ <= \\i.b.strb\\;
end architecture;
";

// A source of level 3 drives a sink of level 7: three signals stand at their defaults.
const LEVELS_TEXT: &str = "\
library ieee;
use ieee.std_logic_1164.all;
entity \\n.m\\ is
  port (
    clk : in std_logic;
    rst : in std_logic;
    \\p.valid\\ : in std_logic;
    \\p.ready\\ : out std_logic;
    \\p.data\\ : in std_logic_vector(15 downto 0);
    \\p.stai\\ : in std_logic_vector(0 downto 0);
    \\p.endi\\ : in std_logic_vector(0 downto 0);
    \\p.strb\\ : in std_logic_vector(1 downto 0);
    \\q.valid\\ : out std_logic;
    \\q.ready\\ : in std_logic;
    \\q.data\\ : out std_logic_vector(15 downto 0)
  );
end entity;
library ieee;
use ieee.std_logic_1164.all;
entity \\n.s\\ is
  port (
    clk : in std_logic;
    rst : in std_logic;
    \\p.valid\\ : in std_logic;
    \\p.ready\\ : out std_logic;
    \\p.data\\ : in std_logic_vector(15 downto 0);
    \\q.valid\\ : out std_logic;
    \\q.ready\\ : in std_logic;
    \\q.data\\ : out std_logic_vector(15 downto 0);
    \\q.stai\\ : out std_logic_vector(0 downto 0);
    \\q.endi\\ : out std_logic_vector(0 downto 0);
    \\q.strb\\ : out std_logic_vector(1 downto 0)
  );
end entity;
architecture structural of \\n.s\\ is
  signal \\m.p.valid\\ : std_logic;
  signal \\m.p.ready\\ : std_logic;
  signal \\m.p.data\\ : std_logic_vector(15 downto 0);
  signal \\m.p.stai\\ : std_logic_vector(0 downto 0);
  signal \\m.p.endi\\ : std_logic_vector(0 downto 0);
  signal \\m.p.strb\\ : std_logic_vector(1 downto 0);
  signal \\m.q.valid\\ : std_logic;
  signal \\m.q.ready\\ : std_logic;
  signal \\m.q.data\\ : std_logic_vector(15 downto 0);
begin
  \\m\\ : entity work.\\n.m\\ port map (
    clk => clk,
    rst => rst,
    \\p.valid\\ => \\m.p.valid\\,
    \\p.ready\\ => \\m.p.ready\\,
    \\p.data\\ => \\m.p.data\\,
    \\p.stai\\ => \\m.p.stai\\,
    \\p.endi\\ => \\m.p.endi\\,
    \\p.strb\\ => \\m.p.strb\\,
    \\q.valid\\ => \\m.q.valid\\,
    \\q.ready\\ => \\m.q.ready\\,
    \\q.data\\ => \\m.q.data\\
  );
  \\m.p.valid\\ <= \\p.valid\\;
  \\p.ready\\ <= \\m.p.ready\\;
  \\m.p.data\\ <= \\p.data\\;
  \\m.p.stai\\ <= \"0\";
  \\m.p.endi\\ <= \"1\";
  \\m.p.strb\\ <= \"11\";
  \\q.valid\\ <= \\m.q.valid\\;
  \\m.q.ready\\ <= \\q.ready\\;
  \\q.data\\ <= \\m.q.data\\;
  \\q.stai\\ <= \"0\";
  \\q.endi\\ <= \"1\";
  \\q.strb\\ <= \"11\";
end architecture;
";

// A stream with a reversed one inside: the answer goes from the sink end of the link to its source end.
const REVERSED_TEXT: &str = "\
library ieee;
use ieee.std_logic_1164.all;
entity \\x.one\\ is
  port (
    clk : in std_logic;
    rst : in std_logic;
    \\c.valid\\ : in std_logic;
    \\c.ready\\ : out std_logic;
    \\c.data\\ : in std_logic_vector(7 downto 0);
    \\c.r.valid\\ : out std_logic;
    \\c.r.ready\\ : in std_logic;
    \\c.r.data\\ : out std_logic_vector(3 downto 0);
    \\c.r.last\\ : out std_logic_vector(0 downto 0);
    \\c.r.strb\\ : out std_logic_vector(0 downto 0)
  );
end entity;
library ieee;
use ieee.std_logic_1164.all;
entity \\x.two\\ is
  port (
    clk : in std_logic;
    rst : in std_logic;
    \\c.valid\\ : out std_logic;
    \\c.ready\\ : in std_logic;
    \\c.data\\ : out std_logic_vector(7 downto 0);
    \\c.r.valid\\ : in std_logic;
    \\c.r.ready\\ : out std_logic;
    \\c.r.data\\ : in std_logic_vector(3 downto 0);
    \\c.r.last\\ : in std_logic_vector(0 downto 0);
    \\c.r.strb\\ : in std_logic_vector(0 downto 0)
  );
end entity;
library ieee;
use ieee.std_logic_1164.all;
entity \\x.all\\ is
  port (
    clk : in std_logic;
    rst : in std_logic
  );
end entity;
architecture structural of \\x.all\\ is
  signal \\a.c.valid\\ : std_logic;
  signal \\a.c.ready\\ : std_logic;
  signal \\a.c.data\\ : std_logic_vector(7 downto 0);
  signal \\a.c.r.valid\\ : std_logic;
  signal \\a.c.r.ready\\ : std_logic;
  signal \\a.c.r.data\\ : std_logic_vector(3 downto 0);
  signal \\a.c.r.last\\ : std_logic_vector(0 downto 0);
  signal \\a.c.r.strb\\ : std_logic_vector(0 downto 0);
  signal \\b.c.valid\\ : std_logic;
  signal \\b.c.ready\\ : std_logic;
  signal \\b.c.data\\ : std_logic_vector(7 downto 0);
  signal \\b.c.r.valid\\ : std_logic;
  signal \\b.c.r.ready\\ : std_logic;
  signal \\b.c.r.data\\ : std_logic_vector(3 downto 0);
  signal \\b.c.r.last\\ : std_logic_vector(0 downto 0);
  signal \\b.c.r.strb\\ : std_logic_vector(0 downto 0);
begin
  \\a\\ : entity work.\\x.two\\ port map (
    clk => clk,
    rst => rst,
    \\c.valid\\ => \\a.c.valid\\,
    \\c.ready\\ => \\a.c.ready\\,
    \\c.data\\ => \\a.c.data\\,
    \\c.r.valid\\ => \\a.c.r.valid\\,
    \\c.r.ready\\ => \\a.c.r.ready\\,
    \\c.r.data\\ => \\a.c.r.data\\,
    \\c.r.last\\ => \\a.c.r.last\\,
    \\c.r.strb\\ => \\a.c.r.strb\\
  );
  \\b\\ : entity work.\\x.one\\ port map (
    clk => clk,
    rst => rst,
    \\c.valid\\ => \\b.c.valid\\,
    \\c.ready\\ => \\b.c.ready\\,
    \\c.data\\ => \\b.c.data\\,
    \\c.r.valid\\ => \\b.c.r.valid\\,
    \\c.r.ready\\ => \\b.c.r.ready\\,
    \\c.r.data\\ => \\b.c.r.data\\,
    \\c.r.last\\ => \\b.c.r.last\\,
    \\c.r.strb\\ => \\b.c.r.strb\\
  );
  \\b.c.valid\\ <= \\a.c.valid\\;
  \\a.c.ready\\ <= \\b.c.ready\\;
  \\b.c.data\\ <= \\a.c.data\\;
  \\a.c.r.valid\\ <= \\b.c.r.valid\\;
  \\b.c.r.ready\\ <= \\a.c.r.ready\\;
  \\a.c.r.data\\ <= \\b.c.r.data\\;
  \\a.c.r.last\\ <= \\b.c.r.last\\;
  \\a.c.r.strb\\ <= \\b.c.r.strb\\;
end architecture;
";

// Streamlets without ports, one of them implemented elsewhere.
const NONE_TEXT: &str = "\
library ieee;
use ieee.std_logic_1164.all;
entity \\e.s\\ is
  port (
    clk : in std_logic;
    rst : in std_logic
  );
end entity;
library ieee;
use ieee.std_logic_1164.all;
entity \\e.t\\ is
  port (
    clk : in std_logic;
    rst : in std_logic
  );
end entity;
architecture structural of \\e.t\\ is
begin
  \\y\\ : entity work.\\e.s\\ port map (
    clk => clk,
    rst => rst
  );
end architecture;
";

/// Projects: the entities and architectures of their nets.
pub(crate) const ARCHITECTURES: &[(&str, &str, &str)] = &[
    (VIDEO, "", VIDEO_TEXT),
    (
        "namespace n { type lo = Stream(data: Bits(8), throughput: 2, complexity: 3); type hi = Stream(data: Bits(8), throughput: 2, complexity: 7); \
     streamlet m = (p: in hi, q: out lo); streamlet s = (p: in lo, q: out hi); \
     impl i of s = { m = m; p -- m.p; q -- m.q; }; }",
        "",
        LEVELS_TEXT,
    ),
    (
        "namespace x { type t = Stream(data: Group(b: Bits(8), r: Stream(data: Bits(4), dimensionality: 1, complexity: 5, direction: Reverse))); \
     streamlet one = (c: in t); streamlet two = (c: out t); streamlet all = (); \
     impl i of all = { a = two; b = one; b.c -- a.c; }; }",
        "",
        REVERSED_TEXT,
    ),
    (
        "namespace e { streamlet s = (); streamlet t = (); impl i of s = \"elsewhere\"; impl j of t = { y = s; }; }",
        "",
        NONE_TEXT,
    ),
];

pub(crate) fn architectures(alloc: Global, text: &str, out: &mut List<u8>) -> Result<(), Memory> {
    let Ok(ast) = tree_of(alloc, text) else {
        return Err(Memory);
    };
    write_tree(alloc, &ast, out)
}

fn write_tree(alloc: Global, ast: &Ast, out: &mut List<u8>) -> Result<(), Memory> {
    port_types_are_valid();
    projects_are_plain();
    match resolve(alloc, ast) {
        Ok(project) => write_project(alloc, &project, out),
        Err(_) => Err(Memory),
    }
}

fn write_project(alloc: Global, project: &Project, out: &mut List<u8>) -> Result<(), Memory>
    requires { HasPortTypes (plain_project project.now) }
{
    let Ok(nets) = check(alloc, project) else {
        return Err(Memory);
    };
    match architecture(alloc, project, &nets) {
        Ok(archs) => write_archs(alloc, archs.as_slice(), out),
        Err(_) => Err(Memory),
    }
}

fn write_archs(alloc: Global, archs: &[Arch], out: &mut List<u8>) -> Result<(), Memory> {
    'archs: for arch in archs {
        let text = print_arch(alloc, arch)?;
        if arch_length(arch) != text.len() as u64 {
            return Err(Memory);
        }
        out.extend_from_slice(text.as_slice())?;
    }
    Ok(())
}
