//! The text of a monitor, and how long it is.

ghost use Rattle.std.specs.Prelude.{◌≡◌, length, min, IfOk};
ghost use Rattle.tydi_base.specs.Lengths.{most_bytes};
ghost use Rattle.watch_text.specs.Statements.{plain_watch};
ghost use Rattle.watch_text.specs.Text.{watch_text};

use crate::entity::Front;
use crate::processes::Processes;
use crate::tables::Tables;
use crate::watch::Watch;
use std::alloc::Global;
use tydi_base::{List, Memory, emit, parts};
use vhdl_text::Counted;

/// The text of a monitor. A table or a process beyond the streams has no line. Memory comes where there is none for the text.
pub fn print_watch(alloc: Global, watch: &Watch) -> Result<List<u8>, Memory>
    ensures { IfOk result (λ text. text ≡ watch_text (plain_watch watch.now)) }
{
    let heads = watch.heads.as_slice();
    let mut text = List::new(alloc);
    emit!(
        text;
        Front(heads), Tables(heads, watch.want.as_slice()), "begin\n",
        Processes(heads, watch.procs.as_slice()), "end architecture;\n",
    )?;
    Ok(text)
}

/// How many bytes the text of a monitor has; `u64::MAX` where they are more, which no memory holds.
pub fn watch_length(watch: &Watch) -> u64
    ensures { result ≡ min (length (watch_text (plain_watch watch.now))) most_bytes }
{
    let heads = watch.heads.as_slice();
    parts!(
        Front(heads),
        Tables(heads, watch.want.as_slice()),
        "begin\n",
        Processes(heads, watch.procs.as_slice()),
        "end architecture;\n"
    )
    .count()
}
