//! Rows as they are made, into a sink.

ghost use Rattle.std.specs.Prelude.{◌≡◌, [], Some, OnOk};
ghost use Rattle.cycle_trace.specs.Trace.{TraceText};
ghost use Rattle.port_gen.specs.Handing.{AreOwed, HandsRow, with_rows};
ghost use Rattle.handshake.specs.Rows.{rows_behind};

use cycle_trace::RowSink;
use handshake::CycleFeed;
use std::alloc::Global;
use tydi_base::Memory;

/// Gives a sink all rows that are left. It fails with `Memory` exactly where the sink does. The sink keeps its setting.
pub(crate) fn hand_rows<C: CycleFeed, K: RowSink>(
    alloc: Global,
    feed: &mut C,
    sink: &mut K,
) -> Result<(), Memory>
    requires { (t : TraceText) × (K.stands_for sink.old (Some t) × AreOwed t (C.rows feed.old)) }
    ensures taken { (t : TraceText) → K.stands_for sink.old (Some t) → AreOwed t (C.rows feed.old) → OnOk result (K.stands_for sink.new (Some (with_rows t (C.rows feed.old)))) }
    ensures setting { K.setting sink.new ≡ K.setting sink.old }
{
    'rows: while hand_row(alloc, feed, sink)? {}
    Ok(())
}

/// Gives a sink the next row. False exactly where there is none.
fn hand_row<C: CycleFeed, K: RowSink>(
    alloc: Global,
    feed: &mut C,
    sink: &mut K,
) -> Result<bool, Memory>
    requires { (t : TraceText) × (K.stands_for sink.old (Some t) × AreOwed t (C.rows feed.old)) }
    ensures taken { (t : TraceText) → K.stands_for sink.old (Some t) → AreOwed t (C.rows feed.old) → HandsRow (λ said. K.stands_for sink.new (Some said)) t (C.rows feed.old) result }
    ensures rows { C.rows feed.new ≡ rows_behind (C.rows feed.old) }
    ensures setting { K.setting sink.new ≡ K.setting sink.old }
{
    match feed.next() {
        Some(row) => {
            sink.row(alloc, row)?;
            Ok(true)
        }
        None => Ok(false),
    }
}
