ghost use Rattle.std.specs.Prelude.{◌≤◌};
ghost use Rattle.std.specs.List.{All};
ghost use Rattle.tydi_base.specs.Level.{IsLevel};
ghost use Rattle.physical_stream.specs.StreamLine.{IsHead};
ghost use Rattle.cycle_trace.specs.Spelling.{TracesAreReadAsSpelled, TracesAreSpelledAsRead};

use physical_stream::Head;
use tydi_base::Level;

/// The law of traces: each trace has one text of version 2, and one of version 1 where each of its levels has one number, and is
/// read from nothing else.
pub fn traces_are_read_as_spelled()
    ensures spelled { TracesAreReadAsSpelled }
    ensures read { TracesAreSpelledAsRead }
{}

/// Every head is in form: its type says so.
pub fn heads_are_in_form(heads: &[Head])
    ensures { All IsHead heads.now }
{
    'heads: for head in heads {
        head_is_in_form(head);
    }
}

fn head_is_in_form(head: &Head)
    ensures { IsHead head.now }
{
    let _names = head.path.names();
    level_is_in_form(head.params.level);
    let _lanes = head.params.lanes;
}

// Its numbers are bytes, and the first is 1 to 8.
fn level_is_in_form(level: Level)
    ensures { IsLevel level }
{
    let _numbers = level.numbers();
}
