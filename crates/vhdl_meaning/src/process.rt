ghost use Rattle.std.specs.Prelude.{◌≡◌, ◌≤◌, length, drop, get_or, false};
ghost use Rattle.vhdl_meaning.specs.Meaning.{assigned_by, waits_at, resumed};
ghost use Rattle.vhdl_meaning.specs.Lines.{CanPutAll, put_all};
ghost use Rattle.vhdl_meaning.specs.Place.{left_at, left_of, Resumes};
ghost use Rattle.vhdl_meaning.specs.Turns.{at_start};

use crate::lines::Lines;
use crate::running::run_on;
use vhdl_text::Stmt;

/// Where a process stands in its statements: the place of a wait and, where it is a pause, the edges that are left of it.
#[derive(Clone, Copy)]
pub struct Process {
    pub place: usize,
    pub edges: u32,
}

// The ready bit of a stream.
fn ready_at(ready: &[bool], stream: u32) -> bool
    ensures { result ≡ get_or ready.now stream false }
{
    match ready.get(stream as usize) {
        Some(bit) => *bit,
        None => false,
    }
}

// The edges of the pause at this place, where one is.
fn edges_at(program: &[Stmt], place: usize) -> u32
    ensures { left_at program.now place result ≡ drop place program.now }
{
    match program.get(place) {
        Some(Stmt::Pause(edges)) => *edges,
        _ => 0,
    }
}

impl Process {
    /// A process at its first statement.
    pub fn at_start() -> Process
        ensures { result ≡ at_start }
    {
        Process { place: 0, edges: 0 }
    }

    /// The process of these statements that has run from this place to its next wait. It takes no memory.
    pub fn run_from(program: &[Stmt], from: usize, lines: &mut [Lines]) -> Process
        requires from { from ≤ length program.now }
        requires puts { CanPutAll (assigned_by (drop from program.now)) lines.old }
        ensures left { left_of program.now result ≡ waits_at (drop from program.now) }
        ensures within { result.place ≤ length program.now }
        ensures lines { lines.new ≡ put_all (assigned_by (drop from program.now)) lines.old }
    {
        let place = run_on(program, from, lines);
        Process {
            place,
            edges: edges_at(program, place),
        }
    }

    // The place from which it goes on after an edge. None exactly where its wait is not met, or has edges left.
    fn resume(&mut self, program: &[Stmt], ready: &[bool]) -> Option<usize>
        requires { self.old.place ≤ length program.now }
        ensures { Resumes program.now ready.now self.old self.new result }
    {
        if self.place >= program.len() {
            return None;
        }
        match &program[self.place] {
            Stmt::Put { .. } => Some(self.place),
            Stmt::Pause(_) => {
                if self.edges <= 1 {
                    Some(self.place + 1)
                } else {
                    self.edges -= 1;
                    None
                }
            }
            Stmt::Await(stream) => {
                if ready_at(ready, *stream) {
                    Some(self.place + 1)
                } else {
                    None
                }
            }
            Stmt::Stop => None,
        }
    }

    /// One edge with these ready bits: where its wait is met it runs to its next wait. It takes no memory.
    pub fn edge(&mut self, program: &[Stmt], ready: &[bool], lines: &mut [Lines])
        requires from { self.old.place ≤ length program.now }
        requires puts { CanPutAll (assigned_by (resumed ready.now (left_of program.now self.old))) lines.old }
        ensures left { left_of program.now self.new ≡ waits_at (resumed ready.now (left_of program.now self.old)) }
        ensures within { self.new.place ≤ length program.now }
        ensures lines { lines.new ≡ put_all (assigned_by (resumed ready.now (left_of program.now self.old))) lines.old }
    {
        match self.resume(program, ready) {
            None => {}
            Some(from) => *self = Process::run_from(program, from, lines),
        }
    }
}
