ghost use Rattle.std.specs.Prelude.{length};
ghost use Rattle.vhdl_meaning.specs.Turns.{CanTurn, HasTurned, ArePlaces};
ghost use Rattle.vhdl_meaning.specs.Sound.{ArePutsSound};
ghost use Rattle.vhdl_meaning.specs.Held.{LinesFit};
ghost use Rattle.vhdl_meaning.specs.Meaning.{Standing, IsOrder, after_edge};
ghost use Rattle.vhdl_meaning.specs.Standing.{StandsAt};

use crate::lines::Lines;
use crate::process::Process;
use tydi_base::List;
use vhdl_text::{Bench, Stmt};

// The turn of one process at an edge.
fn turn(
    programs: &[List<Stmt>],
    places: &mut [Process],
    number: u32,
    ready: &[bool],
    lines: &mut [Lines],
)
    requires { CanTurn programs.now places.old number ready.now lines.old }
    ensures { HasTurned programs.now places.old places.new number ready.now lines.old lines.new }
{
    let index = number as usize;
    places[index].edge(programs[index].as_slice(), ready, lines);
}

/// One edge: the processes have their turns in this order. It takes no memory.
pub(crate) fn edge_all(
    bench: &Bench,
    places: &mut [Process],
    lines: &mut [Lines],
    ready: &[bool],
    order: &[u32],
)
    requires sound { ArePutsSound bench.now.heads bench.now.procs }
    requires order { IsOrder (length bench.now.procs) order.now }
    requires places { ArePlaces bench.now.procs places.old }
    requires lines { LinesFit bench.now.heads lines.old }
    ensures places { ArePlaces bench.now.procs places.new }
    ensures lines { LinesFit bench.now.heads lines.new }
    ensures stands { (now : Standing) → StandsAt bench.now.heads bench.now.procs places.old lines.old now → StandsAt bench.now.heads bench.now.procs places.new lines.new (after_edge (record { ready = ready.now; order = order.now }) now) }
{
    'turns: for number in order {
        turn(bench.procs.as_slice(), places, *number, ready, lines);
    }
}
