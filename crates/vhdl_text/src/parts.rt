//! The text of a bench in its parts, for one that is made as it is written.

ghost use Rattle.std.specs.Prelude.{◌≡◌, ◌++◌, OnOk, OnErr};
ghost use Rattle.std.specs.List.{flat_map};
ghost use Rattle.vhdl_text.specs.Parts.{BenchesHaveParts, ProcessesHaveParts, back_text, front_text, process_back, process_front};
ghost use Rattle.vhdl_text.specs.Text.{stmt_text};

use crate::bench::Stmt;
use crate::frame::Frame;
use crate::printing::{Statements, StreamComments};
use physical_stream::Head;
use tydi_base::{List, Memory, Written, emit};

/// Adds the text of a bench of these streams up to its first process at the end. After `Memory` the text is as before.
pub fn write_front(heads: &[Head], out: &mut List<u8>) -> Result<(), Memory>
    ensures ok { OnOk result (out.new ≡ out.old ++ front_text heads.now) }
    ensures err { OnErr result (out.new ≡ out.old) }
{
    emit!(out; "-- tydi-bench 1\n", StreamComments(heads), Frame(heads), "\n")
}

/// Adds the lines before the first statement of a process at the end. After `Memory` the text is as before.
pub fn begin_process(out: &mut List<u8>) -> Result<(), Memory>
    ensures ok { OnOk result (out.new ≡ out.old ++ process_front) }
    ensures err { OnErr result (out.new ≡ out.old) }
{
    emit!(out; "  process\n  begin\n")
}

/// Adds the lines of these statements of a process beside these streams at the end. A statement for a stream that is not there has no
/// line. After `Memory` the text is as before.
pub fn write_stmts(heads: &[Head], stmts: &[Stmt], out: &mut List<u8>) -> Result<(), Memory>
    ensures ok { OnOk result (out.new ≡ out.old ++ flat_map (stmt_text heads.now) stmts.now) }
    ensures err { OnErr result (out.new ≡ out.old) }
{
    out.emit(&Statements(heads, stmts))
}

/// Adds the line after the last statement of a process at the end. After `Memory` the text is as before.
pub fn end_process(out: &mut List<u8>) -> Result<(), Memory>
    ensures ok { OnOk result (out.new ≡ out.old ++ process_back) }
    ensures err { OnErr result (out.new ≡ out.old) }
{
    emit!(out; "  end process;\n")
}

/// Adds the line after the last process of a bench at the end. After `Memory` the text is as before.
pub fn write_back(out: &mut List<u8>) -> Result<(), Memory>
    ensures ok { OnOk result (out.new ≡ out.old ++ back_text) }
    ensures err { OnErr result (out.new ≡ out.old) }
{
    emit!(out; "end architecture;\n")
}

/// The laws of the parts: they are the text of a process, and that of a bench.
pub fn benches_have_parts()
    ensures processes { ProcessesHaveParts }
    ensures benches { BenchesHaveParts }
{}
