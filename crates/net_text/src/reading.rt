//! A net, read from its text.

ghost use Rattle.std.specs.Prelude.{◌≡◌, ◌<◌, ◌≤◌, ◌^◌, ◌-◌, length};
ghost use Rattle.tydi_base.specs.Reading.{Gives};
ghost use Rattle.net_text.specs.Faults.{fault_in};
ghost use Rattle.net_text.specs.LinesView.{line_in};
ghost use Rattle.net_text.specs.Text as spec;

use crate::draft::Draft;
use crate::lines::Lines;
use crate::net::{NetFault, NetPlan};
use std::alloc::Global;
use tydi_base::Place;
use type_split::{Phys, Split};

/// Takes the first line, which is that of a net.
#[tactic(auto, unfolding(crate::specs::Text::after_title))]
fn take_title(lines: &mut Lines<'_>) -> Result<(), NetFault>
    ensures { Gives fault_in (λ _. lines.new) result (spec.after_title lines.old) }
{
    let Some(line) = lines.take_line() else {
        return Err(NetFault::Syntax(Place::start()));
    };
    if line.ended && line.bytes == b"tydi-net 1".as_slice() {
        Ok(())
    } else {
        Err(NetFault::Syntax(line.place))
    }
}

/// The net of the lines after the first.
fn read_lines(
    alloc: Global,
    streams: &[Phys],
    cycles: u32,
    lines: &mut Lines<'_>,
) -> Result<NetPlan, NetFault>
    requires few { length streams.now ≤ 65536 }
    ensures { Gives fault_in (λ net. net) result (spec.net_with cycles streams.now (spec.no_net (length streams.now)) lines.old) }
{
    let mut draft = Draft::new(alloc, streams)?;
    'lines: while let Some(line) = lines.take_line() {
        draft.add_line(alloc, cycles, line)?;
    }
    Ok(draft.net())
}

/// The net that a text spells for the streams of a split, in a run of so many cycles. A text has fewer than 2^32 - 1 bytes, and the split
/// of a port has at most 65,536 streams. Each error reports the first line that has a fault: see `NetFault`.
#[tactic(auto, unfolding(crate::specs::Text::net_in_lines))]
pub fn read_net(alloc: Global, s: &Split<'_>, cycles: u32, text: &[u8]) -> Result<NetPlan, NetFault>
    requires few { length s.now.streams ≤ 65536 }
    requires text { length text.now < 2 ^ 32 - 1 }
    ensures { Gives fault_in (λ net. net) result (spec.net_of s.now.streams cycles text.now) }
{
    let mut lines = Lines::new(text);
    take_title(&mut lines)?;
    read_lines(alloc, s.streams.as_slice(), cycles, &mut lines)
}
