//! A testbench that is read, and printed again as it stands. Others are tried by `sim`, in the sweeps among the examples.

ghost use Rattle.vhdl_text.specs.WellFormed.{IsWellFormed};

use std::alloc::Global;
use tydi_base::{List, Memory, emit};
use vhdl_text::{Bench, benches_are_read_as_printed, print_bench, read_bench};

// A bench of two streams and three processes: a pause, waits for each stream, a signal that is assigned twice in one turn, and signals of a
// stream that two processes drive.
const BENCH: &str = "\
-- tydi-bench 1
-- stream - lanes 1 dims 1 level 1 element 8 user 0 forward
-- stream b.c lanes 2 dims 0 level 8 element 4 user 3 reverse
library ieee;
use ieee.std_logic_1164.all;
entity bench is
  port (
    clk : in std_logic;
    \\-.ready\\ : in std_logic;
    \\-.valid\\ : out std_logic := '0';
    \\-.data\\ : out std_logic_vector(7 downto 0) := (others => '0');
    \\-.last\\ : out std_logic_vector(0 downto 0) := (others => '0');
    \\-.strb\\ : out std_logic_vector(0 downto 0) := (others => '0');
    \\b.c.ready\\ : in std_logic;
    \\b.c.valid\\ : out std_logic := '0';
    \\b.c.data\\ : out std_logic_vector(7 downto 0) := (others => '0');
    \\b.c.stai\\ : out std_logic_vector(0 downto 0) := (others => '0');
    \\b.c.endi\\ : out std_logic_vector(0 downto 0) := (others => '0');
    \\b.c.strb\\ : out std_logic_vector(1 downto 0) := (others => '0');
    \\b.c.user\\ : out std_logic_vector(2 downto 0) := (others => '0')
  );
end entity;
architecture drive of bench is
begin
  process
  begin
    \\-.valid\\ <= '0';
    for i in 1 to 2 loop
      wait until rising_edge(clk);
    end loop;
    \\-.data\\ <= \"00000001\";
    \\-.last\\ <= \"0\";
    \\-.strb\\ <= \"1\";
    \\-.valid\\ <= '1';
    wait until rising_edge(clk) and \\-.ready\\ = '1';
    \\-.data\\ <= \"00000010\";
    \\-.data\\ <= \"00000100\";
    \\-.last\\ <= \"1\";
    wait until rising_edge(clk) and \\-.ready\\ = '1';
    \\-.valid\\ <= '0';
    wait;
  end process;
  process
  begin
    \\b.c.data\\ <= \"10100101\";
    \\b.c.strb\\ <= \"11\";
    \\b.c.endi\\ <= \"1\";
    \\b.c.valid\\ <= '1';
    wait until rising_edge(clk) and \\b.c.ready\\ = '1';
    \\b.c.data\\ <= \"00111100\";
    \\b.c.stai\\ <= \"1\";
    wait until rising_edge(clk) and \\b.c.ready\\ = '1';
    \\b.c.valid\\ <= '0';
    wait;
  end process;
  process
  begin
    for i in 1 to 1 loop
      wait until rising_edge(clk);
    end loop;
    \\b.c.user\\ <= \"101\";
    wait until rising_edge(clk) and \\-.ready\\ = '1';
    \\b.c.user\\ <= \"010\";
    wait;
  end process;
end architecture;
";

/// The bench with its first such part replaced by another: whether it is printed as it stands.
pub(crate) const BENCHES: &[(&str, &str, &str)] = &[
    ("", "", "same"),
    ("1 to 2 loop", "1 to 1000000 loop", "same"),
    (
        "end architecture;\n",
        "  process\n  begin\n    wait;\n  end process;\nend architecture;\n",
        "same",
    ),
];

// The bench with its first such part replaced by another.
fn edited(alloc: Global, part: &str, other: &str) -> Result<List<u8>, Memory> {
    let (front, back) = BENCH.split_once(part).unwrap_or((BENCH, ""));
    let mut text = List::new(alloc);
    emit!(text; front, other, back)?;
    Ok(text)
}

// Writes whether the bench is printed as this text.
fn write_printed(
    alloc: Global,
    bench: &Bench,
    text: &[u8],
    out: &mut List<u8>,
) -> Result<(), Memory>
    requires { IsWellFormed bench.now }
{
    let printed = print_bench(alloc, bench)?;
    if printed.as_slice() == text {
        emit!(out; "same")
    } else {
        emit!(out; "other")
    }
}

// Writes `same` where the bench that a text spells is printed as this text.
fn write_read(alloc: Global, text: &[u8], out: &mut List<u8>) -> Result<(), Memory> {
    benches_are_read_as_printed();
    match read_bench(alloc, text) {
        Ok(bench) => write_printed(alloc, &bench, text, out),
        Err(_) => Err(Memory),
    }
}

/// The same of the bench with its first such part replaced by another.
pub(crate) fn bench_text(
    alloc: Global,
    part: &str,
    other: &str,
    out: &mut List<u8>,
) -> Result<(), Memory> {
    let text = edited(alloc, part, other)?;
    write_read(alloc, text.as_slice(), out)
}
