//! The processes of a bench, read line by line.

ghost use Rattle.std.specs.Prelude.{◌≡◌, ◌≤◌, ◌<◌, ◌*◌, ◌++◌, codes, ◌∷◌, [], IfOk, OnOk, List, false, length};
ghost use Rattle.tydi_base.specs.Reading.{Gives};
ghost use Rattle.physical_stream.specs.declared.head.Head.{Head};
ghost use Rattle.vhdl_text.specs.declared.bench.Stmt.TheVariants as stmts;
ghost use Rattle.vhdl_text.specs.declared.stage.Stage.TheVariants as stages;
ghost use Rattle.vhdl_text.specs.Drivers.{MayDrive};
ghost use Rattle.vhdl_text.specs.Lines.{refusal_in, stmt_of};
ghost use Rattle.vhdl_text.specs.Processes.{AreRead, progress_of};
ghost use Rattle.vhdl_text.specs.Reading as spec;
ghost use Rattle.vhdl_text.specs.Reading.{then_comes, where_line, with_read, with_stmt};
ghost use Rattle.vhdl_text.specs.Streams.{AreNamed};

use crate::bench::Stmt;
use crate::constants::edges_of;
use crate::cuts::is_same;
use crate::drivers::{no_drivers, note_stmt};
use crate::refusal::Fault;
use crate::stage::Stage;
use crate::statements::stmt_of;
use crate::streams::Streams;
use std::alloc::Global;
use std::mem;
use tydi_base::{List, Memory};

/// The processes of a bench while they are read.
#[derive(Drop)]
pub(crate) struct Processes {
    /// Which line comes next.
    pub(crate) stage: Stage,
    /// The whole processes.
    pub(crate) procs: List<List<Stmt>>,
    /// The statements of the process that is begun.
    pub(crate) stmts: List<Stmt>,
    /// One more than the number of the process that drives each signal first, 0 where none does.
    pub(crate) drivers: Vec<u32>,
}

impl Processes {
    /// No process beside so many streams.
    pub(crate) fn none(alloc: Global, streams: usize) -> Result<Processes, Memory>
        requires { streams ≤ 65536 }
        ensures start { IfOk result (λ processes. progress_of processes ≡ spec.no_procs) }
        ensures read { IfOk result (λ processes. (heads : List Head) → length heads ≡ streams → AreRead heads processes) }
    {
        Ok(Processes {
            stage: Stage::Between,
            procs: List::new(alloc),
            stmts: List::new(alloc),
            drivers: no_drivers(alloc, streams)?,
        })
    }

    /// Whether a line ends the architecture.
    pub(crate) fn ends(&self, line: &[u8]) -> bool
        ensures { result ≡ spec.ends (progress_of self.now) line.now }
    {
        is_between(self.stage) && is_same(line, b"end architecture;")
    }

    /// Goes on with a line.
    #[tactic(auto, unfolding(crate::specs::Reading::after))]
    pub(crate) fn take(
        &mut self,
        alloc: Global,
        streams: &Streams,
        line: &[u8],
    ) -> Result<(), Fault>
        requires named { AreNamed streams.now }
        requires read { AreRead streams.now.heads self.old }
        ensures gives { Gives refusal_in (λ _. progress_of self.new) result (spec.after streams.now.heads (progress_of self.old) line.now) }
        ensures read { OnOk result (AreRead streams.now.heads self.new) }
    {
        match self.stage {
            Stage::Between => self.begin(streams, line),
            Stage::Begin => self.pass(line, b"  begin", Stage::Statements),
            Stage::Statements => self.statement(alloc, streams, line),
            Stage::Inside(edges) => self.pass(
                line,
                b"      wait until rising_edge(clk);",
                Stage::Ending(edges),
            ),
            Stage::Ending(edges) => self.end_pause(line, edges),
            Stage::EndProcess => self.end_process(alloc, line),
        }
    }

    /// Goes on to another stage where the line is this one.
    fn pass(&mut self, line: &[u8], wanted: &[u8], next: Stage) -> Result<(), Fault>
        ensures gives { Gives refusal_in (λ _. progress_of self.new) result (where_line wanted.now line.now (then_comes (progress_of self.old) next)) }
        ensures read { (heads : List Head) → AreRead heads self.old → (spec.is_between next ≡ false → length self.old.procs < 2 * length heads) → AreRead heads self.new }
    {
        if !is_same(line, wanted) {
            return Err(Fault::Refused);
        }
        self.stage = next;
        Ok(())
    }

    /// Begins a process, where there may be one more.
    fn begin(&mut self, streams: &Streams, line: &[u8]) -> Result<(), Fault>
        requires named { AreNamed streams.now }
        requires read { AreRead streams.now.heads self.old }
        ensures gives { Gives refusal_in (λ _. progress_of self.new) result (spec.after_line streams.now.heads (progress_of self.old) line.now stages.Between) }
        ensures read { OnOk result (AreRead streams.now.heads self.new) }
    {
        if self.procs.len() >= 2 * streams.heads.len() {
            return Err(Fault::Refused);
        }
        self.pass(line, b"  process", Stage::Begin)
    }

    /// Reads the line of a statement.
    fn statement(&mut self, alloc: Global, streams: &Streams, line: &[u8]) -> Result<(), Fault>
        requires named { AreNamed streams.now }
        requires read { AreRead streams.now.heads self.old }
        requires room { length self.old.procs < 2 * length streams.now.heads }
        ensures gives { Gives refusal_in (λ _. progress_of self.new) result (spec.after_line streams.now.heads (progress_of self.old) line.now stages.Statements) }
        ensures read { OnOk result (AreRead streams.now.heads self.new) }
    {
        if is_same(line, b"    wait;") {
            self.add(Stmt::Stop, Stage::EndProcess)?;
            return Ok(());
        }
        match edges_of(line) {
            Some(edges) => {
                self.stage = Stage::Inside(edges);
                Ok(())
            }
            None => self.named(alloc, streams, line),
        }
    }

    /// Reads the line of a statement with a name.
    fn named(&mut self, alloc: Global, streams: &Streams, line: &[u8]) -> Result<(), Fault>
        requires named { AreNamed streams.now }
        requires read { AreRead streams.now.heads self.old }
        requires room { length self.old.procs < 2 * length streams.now.heads }
        ensures gives { Gives refusal_in (λ _. progress_of self.new) result (with_read (progress_of self.old) (stmt_of streams.now.heads self.old.procs line.now)) }
        ensures read { OnOk result (AreRead streams.now.heads self.new) }
    {
        let stmt = stmt_of(
            alloc,
            streams,
            self.drivers.as_slice(),
            self.procs.len(),
            line,
        )?;
        self.add(stmt, Stage::Statements)?;
        Ok(())
    }

    /// Adds a statement to the process that is begun, and goes on to a stage.
    fn add(&mut self, stmt: Stmt, next: Stage) -> Result<(), Memory>
        requires { length self.old.procs < 4294967295 }
        ensures read { OnOk result ((heads : List Head) → AreRead heads self.old → length self.old.procs < 2 * length heads → MayDrive heads self.old.procs stmt → AreRead heads self.new) }
        ensures gives { OnOk result (progress_of self.new ≡ with_stmt (progress_of self.old) next stmt) }
    {
        note_stmt(&mut self.drivers, &stmt, self.procs.len());
        self.stmts.push(stmt)?;
        self.stage = next;
        Ok(())
    }

    /// Ends a pause of so many edges.
    fn end_pause(&mut self, line: &[u8], edges: u32) -> Result<(), Fault>
        requires { length self.old.procs < 4294967295 }
        ensures gives { Gives refusal_in (λ _. progress_of self.new) result (where_line (codes "    end loop;") line.now (with_stmt (progress_of self.old) stages.Statements (stmts.Pause edges))) }
        ensures read { OnOk result ((heads : List Head) → length self.old.procs < 2 * length heads → AreRead heads self.old → AreRead heads self.new) }
    {
        if !is_same(line, b"    end loop;") {
            return Err(Fault::Refused);
        }
        self.add(Stmt::Pause(edges), Stage::Statements)?;
        Ok(())
    }

    /// Ends the process.
    fn end_process(&mut self, alloc: Global, line: &[u8]) -> Result<(), Fault>
        ensures gives { Gives refusal_in (λ _. progress_of self.new) result
            (where_line (codes "  end process;") line.now (record { stage = stages.Between; procs = self.old.procs ++ self.old.stmts ∷ []; stmts = [] })) }
        ensures read { OnOk result ((heads : List Head) → length self.old.procs < 2 * length heads → AreRead heads self.old → AreRead heads self.new) }
    {
        if !is_same(line, b"  end process;") {
            return Err(Fault::Refused);
        }
        let process = mem::replace(&mut self.stmts, List::new(alloc));
        self.procs.push(process)?;
        self.stage = Stage::Between;
        Ok(())
    }
}

/// Whether no process is begun.
fn is_between(stage: Stage) -> bool
    ensures { result ≡ spec.is_between stage }
{
    match stage {
        Stage::Between => true,
        Stage::Begin
        | Stage::Statements
        | Stage::Inside(_)
        | Stage::Ending(_)
        | Stage::EndProcess => false,
    }
}
