//! The text of processes, part by part: the begin of a process, one transfer of it, or its end.

ghost use Rattle.std.specs.Prelude.{◌≡◌, ◌≤◌, ◌++◌, ◌∷◌, [], false, length, IfOk, OnOk};
ghost use Rattle.std.specs.List.{flat_map};
ghost use Rattle.physical_stream.specs.Signals.{Fits};
ghost use Rattle.handshake.specs.Offers.{AreBefore, StandsBefore};
ghost use Rattle.handshake.specs.Turns.{KeepRun, KeepRuns};
ghost use Rattle.vhdl_text.specs.Parts.{process_back};
ghost use Rattle.vhdl_text.specs.Text.{stmt_text};
ghost use Rattle.vhdl_text.specs.declared.bench.Stmt.TheVariants as stmts;
ghost use Rattle.testbench.specs.Driving.{pausing, put_valid, showing};
ghost use Rattle.testbench.specs.Pieces.{WritesPart, WritesTransfer, writing_of, writings_of};

use crate::spot::Spot;
use crate::statements::{add_end, add_pause, add_showing};
use handshake::{Cursor, TransferFeed};
use physical_stream::{Head, Params, Transfer};
use std::alloc::Global;
use tydi_base::{List, Memory};
use vhdl_text::{Stmt, begin_process, end_process, write_stmts};

/// Adds the next part at the end. False exactly where none is left. After `Memory` the text cannot go on.
pub(crate) fn write_part<F: TransferFeed>(
    alloc: Global,
    heads: &[Head],
    cursors: &mut [Cursor<F>],
    spot: &mut Spot,
    piece: &mut List<u8>,
) -> Result<bool, Memory>
    requires before { AreBefore F.rest F.whole cursors.old }
    requires few { length cursors.old ≤ 65536 }
    ensures writes { WritesPart heads.now spot.old spot.new (writings_of F.rest F.whole cursors.old) (writings_of F.rest F.whole cursors.new) piece.old piece.new result }
    ensures before { AreBefore F.rest F.whole cursors.new }
    ensures kept { KeepRuns F.whole cursors.old cursors.new }
{
    let stream = spot.stream;
    if stream >= cursors.len() {
        return Ok(false);
    }
    if !spot.begun {
        spot.begun = true;
        begin_process(piece)?;
        return Ok(true);
    }
    if write_transfer(alloc, heads, stream as u32, &mut cursors[stream], piece)? {
        return Ok(true);
    }
    spot.stream = stream + 1;
    spot.begun = false;
    write_end(alloc, heads, stream as u32, piece)?;
    Ok(true)
}

/// Adds the lines of the next transfer of the process of this stream at the end. False exactly where none is left.
fn write_transfer<F: TransferFeed>(
    alloc: Global,
    heads: &[Head],
    stream: u32,
    cursor: &mut Cursor<F>,
    piece: &mut List<u8>,
) -> Result<bool, Memory>
    requires before { StandsBefore F.rest cursor.old (F.whole cursor.old.feed) }
    ensures writes { WritesTransfer heads.now stream (writing_of F.rest F.whole cursor.old) (writing_of F.rest F.whole cursor.new) piece.old piece.new result }
    ensures before { StandsBefore F.rest cursor.new (F.whole cursor.new.feed) }
    ensures kept { KeepRun F.whole cursor.old cursor.new }
{
    match cursor.offer() {
        Some(gap) => {
            let stmts = transfer_stmts(alloc, &cursor.params(), stream, gap, cursor.held())?;
            write_stmts(heads, stmts.as_slice(), piece)?;
            Ok(true)
        }
        None => Ok(false),
    }
}

/// The statements of one transfer after a gap.
fn transfer_stmts(
    alloc: Global,
    p: &Params,
    stream: u32,
    gap: u32,
    transfer: &Transfer,
) -> Result<List<Stmt>, Memory>
    requires { Fits p.now transfer.now }
    ensures { IfOk result (λ made. made ≡ pausing stream gap ++ showing p.now stream transfer.now) }
{
    let mut made = List::new(alloc);
    add_pause(alloc, stream, gap, &mut made)?;
    add_showing(alloc, p, stream, transfer, &mut made)?;
    Ok(made)
}

/// Adds the last lines of the process of this stream at the end.
fn write_end(alloc: Global, heads: &[Head], stream: u32, piece: &mut List<u8>) -> Result<(), Memory>
    ensures { OnOk result (piece.new ≡ piece.old ++ (flat_map (stmt_text heads.now) (put_valid stream false ∷ stmts.Stop ∷ []) ++ process_back)) }
{
    let mut last = List::new(alloc);
    add_end(alloc, stream, &mut last)?;
    write_stmts(heads, last.as_slice(), piece)?;
    end_process(piece)?;
    Ok(())
}
