//! The statements of one transfer.

ghost use Rattle.std.specs.Prelude.{◌≡◌, ◌++◌, ◌∷◌, [], false, OnOk};
ghost use Rattle.std.specs.List.{flat_map};
ghost use Rattle.physical_stream.specs.Signals.{Fits};
ghost use Rattle.vhdl_text.specs.declared.bench.Stmt.TheVariants as stmts;
ghost use Rattle.testbench.specs.Driving.{pausing, put_payload, put_present, put_valid, showing};

use crate::words::word_of;
use physical_stream::{Params, Transfer};
use signal_layout::{Signal, Signals};
use std::alloc::Global;
use tydi_base::{Bits, List, Memory};
use vhdl_text::Stmt;

/// Valid is set to this bit.
fn put_valid(alloc: Global, stream: u32, bit: bool, process: &mut List<Stmt>) -> Result<(), Memory>
    ensures { OnOk result (process.new ≡ process.old ++ put_valid stream bit ∷ []) }
{
    let mut bits = Bits::zeros(alloc, 1)?;
    bits.put(0, bit);
    process.push(Stmt::Put {
        stream,
        signal: Signal::Valid,
        bits,
    })
}

/// A payload signal is set where the stream has it.
fn put_present(
    alloc: Global,
    p: &Params,
    stream: u32,
    transfer: &Transfer,
    signal: Signal,
    process: &mut List<Stmt>,
) -> Result<(), Memory>
    requires { Fits p.now transfer.now }
    ensures { OnOk result (process.new ≡ process.old ++ put_present p.now stream transfer.now signal) }
{
    match Signals::of(p).width(signal) {
        None => Ok(()),
        Some(_) => {
            let bits = word_of(alloc, p, transfer, signal)?;
            process.push(Stmt::Put {
                stream,
                signal,
                bits,
            })
        }
    }
}

/// Each of these payload signals is set where the stream has it.
fn put_each(
    alloc: Global,
    p: &Params,
    stream: u32,
    transfer: &Transfer,
    signals: &[Signal],
    process: &mut List<Stmt>,
) -> Result<(), Memory>
    requires { Fits p.now transfer.now }
    ensures { OnOk result (process.new ≡ process.old ++ flat_map (put_present p.now stream transfer.now) signals.now) }
{
    'signals: for signal in signals {
        put_present(alloc, p, stream, transfer, *signal, process)?;
    }
    Ok(())
}

/// The payload signals that the stream has are set.
fn put_payload(
    alloc: Global,
    p: &Params,
    stream: u32,
    transfer: &Transfer,
    process: &mut List<Stmt>,
) -> Result<(), Memory>
    requires { Fits p.now transfer.now }
    ensures { OnOk result (process.new ≡ process.old ++ put_payload p.now stream transfer.now) }
{
    let payload = [
        Signal::Content,
        Signal::Last,
        Signal::Stai,
        Signal::Endi,
        Signal::Strb,
        Signal::User,
    ];
    put_each(alloc, p, stream, transfer, payload.as_slice(), process)
}

/// A pause of so many cycles with valid low, where there is one.
pub(crate) fn add_pause(
    alloc: Global,
    stream: u32,
    gap: u32,
    process: &mut List<Stmt>,
) -> Result<(), Memory>
    ensures { OnOk result (process.new ≡ process.old ++ pausing stream gap) }
{
    if gap == 0 {
        return Ok(());
    }
    put_valid(alloc, stream, false, process)?;
    process.push(Stmt::Pause(gap))
}

/// A transfer is set, shown, and awaited.
pub(crate) fn add_showing(
    alloc: Global,
    p: &Params,
    stream: u32,
    transfer: &Transfer,
    process: &mut List<Stmt>,
) -> Result<(), Memory>
    requires { Fits p.now transfer.now }
    ensures { OnOk result (process.new ≡ process.old ++ showing p.now stream transfer.now) }
{
    put_payload(alloc, p, stream, transfer, process)?;
    put_valid(alloc, stream, true, process)?;
    process.push(Stmt::Await(stream))
}

/// Valid is low from here on.
pub(crate) fn add_end(alloc: Global, stream: u32, process: &mut List<Stmt>) -> Result<(), Memory>
    ensures { OnOk result (process.new ≡ process.old ++ put_valid stream false ∷ stmts.Stop ∷ []) }
{
    put_valid(alloc, stream, false, process)?;
    process.push(Stmt::Stop)
}
