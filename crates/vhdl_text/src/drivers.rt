//! The table of drivers: which process drives each signal first.

ghost use Rattle.std.specs.Prelude.{◌≡◌, Bool, false, ◌*◌, ◌+◌, ◌<◌, ◌≤◌, ◌++◌, ◌∷◌, IfOk, [], List, length, replicate};
ghost use Rattle.std.specs.List.{list_any};
ghost use Rattle.physical_stream.specs.declared.head.Head.{Head};
ghost use Rattle.vhdl_text.specs.declared.bench.Stmt.{Stmt};
ghost use Rattle.vhdl_text.specs.declared.bench.Stmt.TheVariants as stmts;
ghost use Rattle.vhdl_text.specs.Drivers.{AreDrivers, MayDrive, put_place};
ghost use Rattle.vhdl_text.specs.WellFormed.{drives, signal_number};

use crate::bench::Stmt;
use crate::place::Place;
use signal_layout::Signal;
use std::alloc::Global;
use tydi_base::Memory;

/// The table of so many streams, before any process.
pub(crate) fn no_drivers(alloc: Global, streams: usize) -> Result<Vec<u32>, Memory>
    requires { streams ≤ 65536 }
    ensures { IfOk result (λ table. table.items ≡ replicate (8 * streams) 0) }
{
    Ok(Vec::from_elem(alloc, 0, 8 * streams)?)
}

/// Whether one of so many whole processes drives this signal.
pub(crate) fn is_driven(table: &[u32], place: Place, procs: usize) -> bool
    ensures { (heads : List Head) (whole : List (List Stmt)) (done : List Stmt) → AreDrivers heads table.now whole done → length whole ≡ procs → place.stream < length heads
        → result ≡ list_any (drives place.stream place.signal) whole }
{
    match table.get(index_of(place)) {
        Some(driver) => *driver > 0 && *driver as usize <= procs,
        None => false,
    }
}

/// The place of a signal in the table.
fn index_of(place: Place) -> usize
    ensures { result ≡ 8 * place.stream + signal_number place.signal }
{
    8 * place.stream as usize + number_of(place.signal)
}

/// The place of a signal among the signals of a stream.
fn number_of(signal: Signal) -> usize
    ensures { result ≡ signal_number signal }
{
    match signal {
        Signal::Valid => 0,
        Signal::Ready => 1,
        Signal::Content => 2,
        Signal::Last => 3,
        Signal::Stai => 4,
        Signal::Endi => 5,
        Signal::Strb => 6,
        Signal::User => 7,
    }
}

/// Notes that the process after so many whole ones drives this signal, which none of these does.
fn note(table: &mut Vec<u32>, place: Place, procs: usize)
    requires { procs < 4294967295 }
    ensures { (heads : List Head) (whole : List (List Stmt)) (done : List Stmt) (bits : List Bool) → AreDrivers heads table.old.items whole done → length whole ≡ procs → place.stream < length heads
        → list_any (drives place.stream place.signal) whole ≡ false → AreDrivers heads table.new.items whole (done ++ stmts.Put place.stream place.signal bits ∷ []) }
{
    let index = index_of(place);
    if index < table.len() {
        table[index] = procs as u32 + 1;
    }
}

/// Notes a further statement of the process after so many whole ones, none of which drives a signal to which it assigns.
pub(crate) fn note_stmt(table: &mut Vec<u32>, stmt: &Stmt, procs: usize)
    requires { procs < 4294967295 }
    ensures { (heads : List Head) (whole : List (List Stmt)) (done : List Stmt) → AreDrivers heads table.old.items whole done → length whole ≡ procs → MayDrive heads whole stmt.now
        → AreDrivers heads table.new.items whole (done ++ stmt.now ∷ []) }
{
    match put_place(stmt) {
        Some(place) => note(table, place, procs),
        None => (),
    }
}

/// The signal to which a statement assigns. None where it assigns to none.
fn put_place(stmt: &Stmt) -> Option<Place>
    ensures { result ≡ put_place stmt.now }
{
    match stmt {
        Stmt::Put { stream, signal, .. } => Some(Place {
            stream: *stream,
            signal: *signal,
        }),
        Stmt::Pause(_) | Stmt::Await(_) | Stmt::Stop => None,
    }
}
