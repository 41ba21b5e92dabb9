//! The statements of processes.

ghost use Rattle.std.specs.Prelude.{◌≡◌, ◌++◌, ℕ, length, min, OnErr, OnOk};
ghost use Rattle.tydi_base.specs.Lengths.{most_bytes};
ghost use Rattle.tydi_base.specs.Writing.{StandsInFront};
ghost use Rattle.watch_text.specs.Statements.{plain, plain_statements};
ghost use Rattle.watch_text.specs.Blocks as spec;
ghost use Rattle.watch_text.specs.Blocks.{block_text, first_line};
ghost use Rattle.watch_text.specs.Text.{fault_line, if_line, loop_line, need_text, statement_text, statements_text};

use crate::conditions::{ActiveTest, CloseTest, ElemTest, LastTest};
use crate::marks::{Line, OwnName};
use crate::watch::WStmt;
use physical_stream::Head;
use tydi_base::{List, Memory, Written, emit, parts};
use vhdl_text::{Counted, HighestBit};

/// The statements of a process.
#[derive(Clone, Copy)]
pub(crate) struct Statements<'a>(pub(crate) &'a Head, pub(crate) &'a [WStmt]);

impl Written for Statements<'_> {
    ghost text = { λ statements. statements_text statements.0.now 6 (plain_statements statements.1.now) };

    fn write_to(&self, out: &mut List<u8>) -> Result<(), Memory> {
        write_statements(self.0, 6, self.1, out)
    }
}

impl Counted for Statements<'_> {
    fn count(&self) -> u64 {
        count_statements(self.0, 6, self.1)
    }
}

/// Adds the lines of statements that are so far to the right. After `Memory` a front of them may stand there.
#[cycle(writing)]
fn write_statements(
    head: &Head,
    indent: usize,
    statements: &[WStmt],
    out: &mut List<u8>,
) -> Result<(), Memory>
    ensures ok { OnOk result (out.new ≡ out.old ++ statements_text head.now indent (plain_statements statements.now)) }
    ensures err { OnErr result (StandsInFront out.old out.new) }
{
    'statements: for statement in statements {
        write_statement(head, indent, statement, out)?;
    }
    Ok(())
}

/// Adds the lines of a statement that is so far to the right. After `Memory` a front of them may stand there.
#[cycle(writing)]
fn write_statement(
    head: &Head,
    indent: usize,
    statement: &WStmt,
    out: &mut List<u8>,
) -> Result<(), Memory>
    ensures ok { OnOk result (out.new ≡ out.old ++ statement_text head.now indent (plain statement.now)) }
    ensures err { OnErr result (StandsInFront out.old out.new) }
{
    match statement {
        WStmt::Lanes(body) => write_block(head, indent, Block::Lanes, body.as_slice(), out),
        WStmt::Dims(body) => write_block(head, indent, Block::Dims, body.as_slice(), out),
        WStmt::IfActive(body) => write_block(head, indent, Block::IfActive, body.as_slice(), out),
        WStmt::IfLast(body) => write_block(head, indent, Block::IfLast, body.as_slice(), out),
        WStmt::NeedElem => write_need(head, indent, ElemTest(head), out),
        WStmt::NeedClose => write_need(head, indent, CloseTest(head), out),
    }
}

/// Adds the lines of a statement that is so far to the right, with others inside. After `Memory` a front of them may stand there. `Memory`
/// also comes where those inside are farther to the right than a number can say.
#[cycle(writing)]
fn write_block(
    head: &Head,
    indent: usize,
    block: Block,
    body: &[WStmt],
    out: &mut List<u8>,
) -> Result<(), Memory>
    ensures ok { OnOk result (out.new ≡ out.old ++ block_text head.now indent block (plain_statements body.now)) }
    ensures err { OnErr result (StandsInFront out.old out.new) }
{
    let inside = indent.checked_add(2).ok_or(Memory)?;
    emit!(out; Line(indent, FirstLine(head, block)))?;
    write_statements(head, inside, body, out)?;
    emit!(out; Line(indent, last_line(block)))
}

/// Adds the lines of a need that is so far to the right. After `Memory` a front of them may stand there.
fn write_need<T: Written + Copy>(
    head: &Head,
    indent: usize,
    test: T,
    out: &mut List<u8>,
) -> Result<(), Memory>
    ensures ok { OnOk result (out.new ≡ out.old ++ need_text head.now indent (T.text test)) }
    ensures err { OnErr result (StandsInFront out.old out.new) }
{
    let inside = indent.checked_add(2).ok_or(Memory)?;
    emit!(
        out;
        Line(indent, IfLine(test)), Line(inside, "place := place + 1;"), Line(indent, "else"),
        Line(inside, FaultLine(head)), Line(inside, "wait;"), Line(indent, "end if;"),
    )
}

/// The bytes of the lines of statements that are so far to the right; `u64::MAX` where they are more, which no memory holds.
#[cycle(counting)]
fn count_statements(head: &Head, indent: usize, statements: &[WStmt]) -> u64
    ensures { (right : ℕ) → indent ≡ min right most_bytes → result ≡ min (length (statements_text head.now right (plain_statements statements.now))) most_bytes }
{
    let mut count: u64 = 0;
    'statements: for statement in statements {
        count = count.saturating_add(count_statement(head, indent, statement));
    }
    count
}

/// The bytes of the lines of a statement that is so far to the right; `u64::MAX` where they are more, which no memory holds.
#[cycle(counting)]
fn count_statement(head: &Head, indent: usize, statement: &WStmt) -> u64
    ensures { (right : ℕ) → indent ≡ min right most_bytes → result ≡ min (length (statement_text head.now right (plain statement.now))) most_bytes }
{
    match statement {
        WStmt::Lanes(body) => count_block(head, indent, Block::Lanes, body.as_slice()),
        WStmt::Dims(body) => count_block(head, indent, Block::Dims, body.as_slice()),
        WStmt::IfActive(body) => count_block(head, indent, Block::IfActive, body.as_slice()),
        WStmt::IfLast(body) => count_block(head, indent, Block::IfLast, body.as_slice()),
        WStmt::NeedElem => count_need(head, indent, ElemTest(head)),
        WStmt::NeedClose => count_need(head, indent, CloseTest(head)),
    }
}

/// The bytes of the lines of a statement that is so far to the right, with others inside; `u64::MAX` where they are more, which no memory
/// holds.
#[cycle(counting)]
fn count_block(head: &Head, indent: usize, block: Block, body: &[WStmt]) -> u64
    ensures { (right : ℕ) → indent ≡ min right most_bytes → result ≡ min (length (block_text head.now right block (plain_statements body.now))) most_bytes }
{
    let first = Line(indent, FirstLine(head, block)).count();
    let inside = count_statements(head, indent.saturating_add(2), body);
    let last = Line(indent, last_line(block)).count();
    first.saturating_add(inside).saturating_add(last)
}

/// The bytes of the lines of a need that is so far to the right; `u64::MAX` where they are more, which no memory holds.
fn count_need<T: Counted + Copy>(head: &Head, indent: usize, test: T) -> u64
    ensures { (right : ℕ) → indent ≡ min right most_bytes → result ≡ min (length (need_text head.now right (T.text test))) most_bytes }
{
    let inside = indent.saturating_add(2);
    parts!(
        Line(indent, IfLine(test)),
        Line(inside, "place := place + 1;"),
        Line(indent, "else"),
        Line(inside, FaultLine(head)),
        Line(inside, "wait;"),
        Line(indent, "end if;")
    )
    .count()
}

/// A kind of statement with others inside.
#[derive(Clone, Copy)]
pub(crate) enum Block {
    Lanes,
    Dims,
    IfActive,
    IfLast,
}

/// The line that begins such a statement.
#[derive(Clone, Copy)]
pub(crate) struct FirstLine<'a>(pub(crate) &'a Head, pub(crate) Block);

impl Written for FirstLine<'_> {
    ghost text = { λ line. first_line line.0.now line.1 };

    fn write_to(&self, out: &mut List<u8>) -> Result<(), Memory> {
        let params = &self.0.params;
        match self.1 {
            Block::Lanes => emit!(out; LoopLine("lane", u32::from(params.lanes))),
            Block::Dims => emit!(out; LoopLine("dim", u32::from(params.dims))),
            Block::IfActive => emit!(out; IfLine(ActiveTest(self.0))),
            Block::IfLast => emit!(out; IfLine(LastTest(self.0))),
        }
    }
}

impl Counted for FirstLine<'_> {
    fn count(&self) -> u64 {
        let params = &self.0.params;
        match self.1 {
            Block::Lanes => LoopLine("lane", u32::from(params.lanes)).count(),
            Block::Dims => LoopLine("dim", u32::from(params.dims)).count(),
            Block::IfActive => IfLine(ActiveTest(self.0)).count(),
            Block::IfLast => IfLine(LastTest(self.0)).count(),
        }
    }
}

/// The line that ends such a statement.
fn last_line(block: Block) -> &'static str
    ensures { result.now ≡ spec.last_line block }
{
    match block {
        Block::Lanes => "end loop;",
        Block::Dims => "end loop;",
        Block::IfActive => "end if;",
        Block::IfLast => "end if;",
    }
}

/// The line that begins a loop of this variable through so many values.
#[derive(Clone, Copy)]
struct LoopLine(&'static str, u32);

impl Written for LoopLine {
    ghost text = { λ line. loop_line line.0.now line.1 };

    fn write_to(&self, out: &mut List<u8>) -> Result<(), Memory> {
        emit!(out; "for ", self.0, " in 0 to ", HighestBit(self.1), " loop")
    }
}

impl Counted for LoopLine {
    fn count(&self) -> u64 {
        parts!("for ", self.0, " in 0 to ", HighestBit(self.1), " loop").count()
    }
}

/// The line that begins a test.
#[derive(Clone, Copy)]
pub(crate) struct IfLine<T>(pub(crate) T);

impl<T: Written + Copy> Written for IfLine<T> {
    ghost text = { λ line. if_line (T.text line.0) };

    fn write_to(&self, out: &mut List<u8>) -> Result<(), Memory> {
        emit!(out; "if ", self.0, " then")
    }
}

impl<T: Counted + Copy> Counted for IfLine<T> {
    fn count(&self) -> u64 {
        parts!("if ", self.0, " then").count()
    }
}

/// The line that raises the fault of a stream.
#[derive(Clone, Copy)]
pub(crate) struct FaultLine<'a>(pub(crate) &'a Head);

impl Written for FaultLine<'_> {
    ghost text = { λ line. fault_line line.0.now };

    fn write_to(&self, out: &mut List<u8>) -> Result<(), Memory> {
        emit!(out; OwnName(self.0, "fault"), " <= '1';")
    }
}

impl Counted for FaultLine<'_> {
    fn count(&self) -> u64 {
        parts!(OwnName(self.0, "fault"), " <= '1';").count()
    }
}
