//! The monitor of a port.

ghost use Rattle.std.specs.Prelude.{◌≡◌, [], ◌∷◌, map, IfOk};
ghost use Rattle.type_split.specs.Streams.{plain_split};
ghost use Rattle.watch_text.specs.Statements as plain;
ghost use Rattle.watch_text.specs.Statements.{plain_statements, plain_watch};
ghost use Rattle.monitor_bench.specs.Monitors as spec;
ghost use Rattle.monitor_bench.specs.Monitors.{process_for};

use physical_stream::{Head, Item};
use port_drive::heads_of;
use std::alloc::Global;
use tydi_base::{List, Memory, TryClone};
use type_split::Split;
use watch_text::{WStmt, Watch};

/// The monitor of a port of which these items are expected, a list for each of its physical streams. The items are copied. `Memory` comes where
/// there is none for the monitor.
pub fn monitor(alloc: Global, split: &Split<'_>, items: &[List<Item>]) -> Result<Watch, Memory>
    ensures { IfOk result (λ watch. plain_watch watch ≡ spec.monitor_of (plain_split split.now) items.now) }
{
    let mut want = List::new(alloc);
    'streams: for list in items {
        want.push(copy_of(alloc, list.as_slice())?)?;
    }
    monitor_of(alloc, split, want)
}

/// The monitor of a port of which these items are expected, a list for each of its physical streams. `Memory` comes where there is none for the
/// heads and the statements.
pub fn monitor_of(
    alloc: Global,
    split: &Split<'_>,
    items: List<List<Item>>,
) -> Result<Watch, Memory>
    ensures { IfOk result (λ watch. plain_watch watch ≡ spec.monitor_of (plain_split split.now) items) }
{
    let heads = heads_of(alloc, split.streams.as_slice())?;
    let procs = processes(alloc, heads.as_slice())?;
    Ok(Watch {
        heads,
        want: items,
        procs,
    })
}

/// A copy of items.
fn copy_of(alloc: Global, items: &[Item]) -> Result<List<Item>, Memory>
    ensures { IfOk result (λ copy. copy ≡ items.now) }
{
    let mut copy = List::new(alloc);
    'items: for item in items {
        copy.push(copied(alloc, item)?)?;
    }
    Ok(copy)
}

/// A copy of an item.
fn copied(alloc: Global, item: &Item) -> Result<Item, Memory>
    ensures { IfOk result (λ copy. copy ≡ item.now) }
{
    match item {
        Item::Elem(word) => Ok(Item::Elem(word.try_clone(alloc)?)),
        Item::Close(dim) => Ok(Item::Close(*dim)),
    }
}

/// The process of each of these streams.
fn processes(alloc: Global, heads: &[Head]) -> Result<List<List<WStmt>>, Memory>
    ensures { IfOk result (λ procs. map plain_statements procs ≡ map process_for heads.now) }
{
    let mut procs = List::new(alloc);
    'heads: for head in heads {
        procs.push(statements_for(alloc, head.params.dims)?)?;
    }
    Ok(procs)
}

/// The statements of the process of a stream of so many dimensions.
fn statements_for(alloc: Global, dims: u8) -> Result<List<WStmt>, Memory>
    ensures { IfOk result (λ statements. plain_statements statements ≡ spec.statements_for dims) }
{
    only(alloc, WStmt::Lanes(lane_statements(alloc, dims)?))
}

/// The statements for one lane of a stream of so many dimensions.
fn lane_statements(alloc: Global, dims: u8) -> Result<List<WStmt>, Memory>
    ensures { IfOk result (λ statements. plain_statements statements ≡ spec.lane_statements dims) }
{
    let mut statements = only(alloc, asks_element(alloc)?)?;
    if dims > 0 {
        statements.push(asks_closes(alloc)?)?;
    }
    Ok(statements)
}

/// The statement that needs the element of an active lane.
fn asks_element(alloc: Global) -> Result<WStmt, Memory>
    ensures { IfOk result (λ statement. plain.plain statement ≡ spec.asks_element) }
{
    Ok(WStmt::IfActive(only(alloc, WStmt::NeedElem)?))
}

/// The statement that needs the end of each sequence that a lane marks.
fn asks_closes(alloc: Global) -> Result<WStmt, Memory>
    ensures { IfOk result (λ statement. plain.plain statement ≡ spec.asks_closes) }
{
    let need = only(alloc, WStmt::NeedClose)?;
    let test = only(alloc, WStmt::IfLast(need))?;
    Ok(WStmt::Dims(test))
}

/// A list of one statement.
fn only(alloc: Global, statement: WStmt) -> Result<List<WStmt>, Memory>
    ensures { IfOk result (λ statements. statements ≡ statement ∷ []) }
{
    let mut statements = List::new(alloc);
    statements.push(statement)?;
    Ok(statements)
}
