//! A port's type, split.

ghost use Rattle.std.specs.Prelude.{◌≡◌, ◌≤◌, IfOk, IfErr, None};
ghost use Rattle.logical_types.specs.Faults.{IsValid, outermost};
ghost use Rattle.logical_types.specs.Tree.{plain_of_stream};
ghost use Rattle.type_split.specs.Nodes.{number_of_streams, outermost_place};
ghost use Rattle.type_split.specs.Streams.{Blames, clash_of, plain_split, split_of};

use crate::fault::SplitFault;
use crate::place::Place;
use crate::split::Split;
use crate::splitting::Splitting;
use crate::streams;
use logical_types::{StreamType, around_outermost};
use std::alloc::Global;

/// Splits a port's type that passed `logical_types::check` into its nodes, its physical streams and its roots. NameClash comes
/// exactly where two physical streams have one path, Memory where there is none for the split.
pub fn split_type(alloc: Global, ltype: &StreamType) -> Result<Split<'_>, SplitFault>
    requires valid { IsValid (plain_of_stream ltype.now) }
    requires few { number_of_streams (plain_of_stream ltype.now) ≤ 65536 }
    ensures split { IfOk result (λ split. plain_split split ≡ split_of (plain_of_stream ltype.now)) }
    ensures apart { IfOk result (λ _. clash_of (plain_of_stream ltype.now) ≡ None) }
    ensures clash { IfErr result (Blames (clash_of (plain_of_stream ltype.now))) }
{
    let mut splitting = Splitting::new(alloc);
    splitting.add_stream(ltype, &outermost_place())?;
    let Splitting { nodes, clash, .. } = splitting;
    if let Some(path) = clash {
        return Err(SplitFault::NameClash(path));
    }
    let streams = streams::streams_of(alloc, nodes.as_slice())?;
    let roots = streams::roots_of(alloc, nodes.as_slice())?;
    Ok(Split {
        nodes,
        streams,
        roots,
    })
}

/// The place of a port's type: nothing is around it.
fn outermost_place() -> Place
    ensures { result ≡ outermost_place }
{
    Place {
        around: around_outermost(),
        parent: None,
        root: 0,
        reversed: false,
    }
}
