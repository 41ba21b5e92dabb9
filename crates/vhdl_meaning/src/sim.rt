ghost use Rattle.vhdl_meaning.specs.Turns.{ArePlaces};
ghost use Rattle.vhdl_meaning.specs.Sound.{ArePutsSound};
ghost use Rattle.vhdl_meaning.specs.Held.{LinesFit};

use crate::lines::Lines;
use crate::process::Process;
use vhdl_text::Bench;

/// A bench that runs, cycle by cycle. A cycle takes no memory.
#[derive(Drop)]
pub struct Sim {
    pub(crate) bench: Bench,
    /// Where each process stands.
    pub(crate) places: Vec<Process>,
    /// The current values of the signals of each stream.
    pub(crate) lines: Vec<Lines>,
    ghost sound: { ArePutsSound bench.heads bench.procs },
    ghost within: { ArePlaces bench.procs places.items },
    ghost fits: { LinesFit bench.heads lines.items },
}
