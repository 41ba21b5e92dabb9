//! The lines of what a monitor says of the streams of a trace.

ghost use Rattle.std.specs.Prelude.{◌≡◌, ◌<◌, ◌++◌, length, IfOk, OnOk};
ghost use Rattle.std.specs.List.{list_any};
ghost use Rattle.watch_text.specs.Statements.{plain_watch};
ghost use Rattle.tydi_tool.specs.Reports.{path_of_stream};
ghost use Rattle.tydi_tool.specs.Watches as spec;

use crate::reports::path_of;
use std::alloc::Global;
use trace_watch::StreamWatched;
use tydi_base::{List, Memory, Path, Written, emit};
use watch_text::Watch;

/// The lines of all streams of a monitor, of which its processes say this.
pub(crate) fn watched_lines(
    alloc: Global,
    watch: &Watch,
    watched: &[StreamWatched],
) -> Result<List<u8>, Memory>
    requires heads { length watched.now ≡ length watch.now.heads }
    requires tables { length watch.now.want ≡ length watch.now.heads }
    ensures { IfOk result (λ lines. lines ≡ spec.watched_lines (plain_watch watch.now) watched.now) }
{
    let mut lines = List::new(alloc);
    let heads = watch.heads.as_slice();
    let want = watch.want.as_slice();
    'streams: for stream in 0..watched.len() {
        push_watched(
            path_of(heads, stream),
            want[stream].len(),
            &watched[stream],
            &mut lines,
        )?;
    }
    Ok(lines)
}

/// Adds the line of the stream of this path, which expects so many items.
fn push_watched(
    path: &Path,
    count: usize,
    one: &StreamWatched,
    lines: &mut List<u8>,
) -> Result<(), Memory>
    ensures { OnOk result (lines.new ≡ lines.old ++ spec.watched_line path.now count one.now) }
{
    let seen = SeenText {
        count,
        place: one.place,
        report: one.report,
    };
    emit!(lines; "stream ", path, seen)
}

/// The rest of the line of a stream.
#[derive(Clone, Copy)]
struct SeenText {
    count: usize,
    place: u32,
    report: Option<u32>,
}

impl Written for SeenText {
    ghost text = { λ seen. spec.seen_text seen.count seen.place seen.report };

    fn write_to(&self, out: &mut List<u8>) -> Result<(), Memory> {
        match self.report {
            Some(edge) => emit!(out; " report ", edge, "\n"),
            None => emit!(out; " seen ", self.place, " of ", self.count, "\n"),
        }
    }
}

/// Whether some process has set its fault.
pub(crate) fn has_report(watched: &[StreamWatched]) -> bool
    ensures { result ≡ list_any spec.reports watched.now }
{
    'streams: for one in watched {
        if one.report.is_some() {
            return true;
        }
    }
    false
}
