//! The texts of a stream's lines, made once for each stream.

ghost use Rattle.std.specs.Prelude.{◌≡◌, ◌<◌, ◌+◌, ◌^◌, IfOk, codes};
ghost use Rattle.vhdl_text.specs.Text.{◌⁀◌};
ghost use Rattle.watch_text.specs.Reading as spec;
ghost use Rattle.watch_text.specs.Text as texts;

use crate::conditions::{CloseTest, ElemTest};
use crate::entity::Entity;
use crate::forms::Forms;
use crate::items::{close_zeros, element_zeros, item_width};
use crate::marks::{OwnName, Repeated};
use crate::processes::WaitLine;
use crate::shape::Shape;
use crate::statements::{Block, FaultLine, FirstLine, IfLine};
use crate::tables::TableLine;
use physical_stream::Head;
use std::alloc::Global;
use tydi_base::{List, Memory, Written, emit};

impl Shape {
    /// The texts of a stream's table.
    #[tactic(auto, unfolding(crate::specs::Reading::shape_of))]
    pub(crate) fn of(alloc: Global, head: &Head) -> Result<Shape, Memory>
        ensures { IfOk result (λ shape. shape ≡ spec.shape_of head.now) }
    {
        let params = &head.params;
        Ok(Shape {
            element: params.element as usize,
            dims: params.dims,
            type_front: type_front(alloc, head)?,
            type_back: type_back(alloc, head)?,
            table_line: text_of(alloc, TableLine(head))?,
            elem_front: front_of(alloc, "10", element_zeros(params))?,
            close_front: front_of(alloc, "01", close_zeros(params))?,
            end_text: end_text(alloc, item_width(params))?,
        })
    }
}

/// The line of a table's type before its number.
fn type_front(alloc: Global, head: &Head) -> Result<List<u8>, Memory>
    ensures { IfOk result (λ text. text ≡ spec.type_front head.now) }
{
    let mut text = List::new(alloc);
    emit!(text; "  type ", OwnName(head, "items"), " is array (0 to ")?;
    Ok(text)
}

/// The line of a table's type after its number.
fn type_back(alloc: Global, head: &Head) -> Result<List<u8>, Memory>
    ensures { IfOk result (λ text. text ≡ spec.type_back head.now) }
{
    let highest = item_width(&head.params) + 1;
    let mut text = List::new(alloc);
    emit!(text; ") of std_logic_vector(", highest, " downto 0);")?;
    Ok(text)
}

/// Two digits, and so many zeros behind them.
fn front_of(alloc: Global, digits: &'static str, zeros: usize) -> Result<List<u8>, Memory>
    ensures { IfOk result (λ text. text ≡ digits.now ⁀ texts.zeros zeros) }
{
    let mut text = List::new(alloc);
    emit!(text; digits, Repeated(b'0', zeros))?;
    Ok(text)
}

/// The digits of the end of a table whose words have so many bits and two, and the end of its line.
fn end_text(alloc: Global, width: usize) -> Result<List<u8>, Memory>
    requires { width < 2 ^ 32 }
    ensures { IfOk result (λ text. text ≡ texts.zeros (width + 2) ⁀ codes "\"") }
{
    let digits = width + 2;
    let mut text = List::new(alloc);
    emit!(text; Repeated(b'0', digits), "\"")?;
    Ok(text)
}

/// A text by itself.
fn text_of<T: Written + Copy>(alloc: Global, part: T) -> Result<List<u8>, Memory>
    ensures { IfOk result (λ text. text ≡ T.text part) }
{
    let mut text = List::new(alloc);
    text.emit(&part)?;
    Ok(text)
}

/// The entity of a monitor of these streams.
pub(crate) fn entity_of(alloc: Global, heads: &[Head]) -> Result<List<u8>, Memory>
    ensures { IfOk result (λ text. text ≡ texts.entity_text heads.now) }
{
    text_of(alloc, Entity(heads))
}

impl Forms {
    /// The texts of a stream's process.
    #[tactic(auto, unfolding(crate::specs::Reading::forms_of))]
    pub(crate) fn of(alloc: Global, head: &Head) -> Result<Forms, Memory>
        ensures { IfOk result (λ forms. forms ≡ spec.forms_of head.now) }
    {
        let params = &head.params;
        Ok(Forms {
            dims: params.dims,
            lanes_line: text_of(alloc, FirstLine(head, Block::Lanes))?,
            dims_line: text_of(alloc, FirstLine(head, Block::Dims))?,
            active_line: text_of(alloc, FirstLine(head, Block::IfActive))?,
            last_line: text_of(alloc, FirstLine(head, Block::IfLast))?,
            elem_line: text_of(alloc, IfLine(ElemTest(head)))?,
            close_line: text_of(alloc, IfLine(CloseTest(head)))?,
            fault_line: text_of(alloc, FaultLine(head))?,
            wait_text: wait_text(alloc, head)?,
        })
    }
}

/// The lines of a process before its statements, the last without its LF.
fn wait_text(alloc: Global, head: &Head) -> Result<List<u8>, Memory>
    ensures { IfOk result (λ text. text ≡ spec.wait_text head.now) }
{
    let mut text = List::new(alloc);
    emit!(
        text;
        "  process\n    variable place : natural := 0;\n  begin\n    loop\n", WaitLine(head),
    )?;
    Ok(text)
}
