ghost use Rattle.std.specs.Prelude.{◌≡◌, length, map, IfOk};
ghost use Rattle.physical_stream.specs.declared.head.Head.{Head};
ghost use Rattle.vhdl_meaning.specs.Lines.{zero_lines};
ghost use Rattle.vhdl_meaning.specs.Sound.{ArePutsSound};
ghost use Rattle.vhdl_meaning.specs.Held.{LinesFit};
ghost use Rattle.vhdl_meaning.specs.Started.{AreBegun};

use crate::lines::Lines;
use crate::process::Process;
use physical_stream::Head;
use std::alloc::Global;
use tydi_base::Memory;
use vhdl_text::Bench;

/// The signals of all streams with all their bits 0.
pub(crate) fn zero_all(alloc: Global, heads: &[Head]) -> Result<Vec<Lines>, Memory>
    ensures { IfOk result (λ lines. lines.items ≡ map (λ (head : Head). zero_lines head.params) heads.now) }
{
    let mut lines = Vec::new(alloc);
    'heads: for head in heads {
        lines.push(Lines::zeros(alloc, &head.params)?)?;
    }
    Ok(lines)
}

/// The signals of all streams go back to where `zero_all` begins. It takes no memory.
pub(crate) fn clear_all(heads: &[Head], lines: &mut [Lines])
    requires { LinesFit heads.now lines.old }
    ensures { lines.new ≡ map (λ (head : Head). zero_lines head.params) heads.now }
{
    'streams: for stream in 0..lines.len() {
        lines[stream].clear(&heads[stream].params);
    }
}

/// Each process of a bench runs from its first statement to its first wait. It takes no memory.
pub(crate) fn begin_all(bench: &Bench, places: &mut [Process], lines: &mut [Lines])
    requires sound { ArePutsSound bench.now.heads bench.now.procs }
    requires places { length places.old ≡ length bench.now.procs }
    requires lines { LinesFit bench.now.heads lines.old }
    ensures { AreBegun bench.now.heads bench.now.procs lines.old places.new lines.new }
{
    let programs = bench.procs.as_slice();
    'programs: for number in 0..programs.len() {
        places[number] = Process::run_from(programs[number].as_slice(), 0, lines);
    }
}
