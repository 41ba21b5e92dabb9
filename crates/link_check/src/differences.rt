//! The first difference of two types.

ghost use Rattle.std.specs.Prelude.{◌≡◌, IfOk, option_map, false};
ghost use Rattle.logical_types.specs.Tree.{plain, plain_parts, plain_of_stream};
ghost use Rattle.type_split.specs.Nodes as nodes;
ghost use Rattle.link_check.specs.Compatible as order;
ghost use Rattle.link_check.specs.Differences as spec;
ghost use Rattle.link_check.specs.Streams.{plain_arguments, stream_found};
ghost use Rattle.link_check.specs.Trails.{trail_end, inside_streams};

use crate::difference::{Difference, Why};
use crate::kinds::{has_same_shape, parts_inside, stream_in};
use crate::same_types::{is_same_fraction, is_same_sync, is_same_type};
use logical_types::{LType, Part, StreamType};
use std::alloc::Global;
use tydi_base::{Level, List, Memory, Name, Path, TryClone};

/// A difference, and the names that lead to it, the innermost first.
#[derive(Drop)]
pub(crate) struct Trail {
    pub(crate) names: List<Name>,
    pub(crate) why: Why,
}

/// The first difference of the types of a source and of a sink, from the outermost node on; None exactly where they are compatible. A
/// Stream's own arguments come before its data type. Memory comes only where there is a difference.
pub fn first_difference(
    alloc: Global,
    source: &StreamType,
    sink: &StreamType,
) -> Result<Option<Difference>, Memory>
    ensures { IfOk result (λ found. found ≡ spec.first_difference false (plain_of_stream source.now) (plain_of_stream sink.now)) }
{
    if let Some(why) = why_of_streams(false, source, sink) {
        return Ok(Some(Difference {
            path: Path::new(alloc),
            why,
        }));
    }
    match in_streams(alloc, false, source, sink)? {
        None => Ok(None),
        Some(trail) => Ok(Some(trail.into_difference())),
    }
}

impl Trail {
    /// The difference that it leads to.
    fn into_difference(self) -> Difference
        ensures { result ≡ trail_end self }
    {
        let mut names = self.names.into_vec();
        names.reverse();
        Difference {
            path: Path::from_names(List::from_vec(names)),
            why: self.why,
        }
    }
}

/// The first difference of two types.
#[cycle(difference)]
fn in_types(
    alloc: Global,
    reversed: bool,
    source: &LType,
    sink: &LType,
) -> Result<Option<Trail>, Memory>
    ensures { IfOk result (λ found. option_map trail_end found ≡ spec.first_difference reversed (plain source.now) (plain sink.now)) }
{
    if let Some(why) = why_at(reversed, source, sink) {
        return Ok(Some(Trail {
            names: List::new(alloc),
            why,
        }));
    }
    match source {
        LType::Null => Ok(None),
        LType::Bits(_) => Ok(None),
        LType::Group(parts) => in_lists(alloc, reversed, parts.as_slice(), parts_inside(sink)),
        LType::Union(parts) => in_lists(alloc, reversed, parts.as_slice(), parts_inside(sink)),
        LType::Stream(stream) => match stream_in(sink) {
            Some(sink) => in_streams(alloc, reversed, stream.get(), sink),
            None => Ok(None),
        },
    }
}

/// The first difference in what two Streams hold.
#[cycle(difference)]
fn in_streams(
    alloc: Global,
    reversed: bool,
    source: &StreamType,
    sink: &StreamType,
) -> Result<Option<Trail>, Memory>
    ensures { IfOk result (λ found. option_map trail_end found ≡ inside_streams reversed (plain_arguments source.now) (plain_arguments sink.now)) }
{
    let reversed = turned(reversed, source.reverse);
    in_types(alloc, reversed, &source.element, &sink.element)
}

/// The first difference of parts, as far as there are some in both.
#[cycle(difference)]
fn in_lists(
    alloc: Global,
    reversed: bool,
    parts: &[Part],
    others: &[Part],
) -> Result<Option<Trail>, Memory>
    ensures { IfOk result (λ found. option_map trail_end found ≡ spec.difference_in_parts reversed (plain_parts parts.now) (plain_parts others.now)) }
{
    let mut rest = others;
    'parts: for part in parts {
        let Some((first, more)) = rest.split_first() else {
            return Ok(None);
        };
        if let Some(trail) = in_part(alloc, reversed, part, &first.ltype)? {
            return Ok(Some(trail));
        }
        rest = more;
    }
    Ok(None)
}

/// The first difference of a part's type and another type.
#[cycle(difference)]
fn in_part(
    alloc: Global,
    reversed: bool,
    part: &Part,
    sink: &LType,
) -> Result<Option<Trail>, Memory>
    ensures { IfOk result (λ found. option_map trail_end found ≡ option_map (spec.inside_part part.now.name) (spec.first_difference reversed (plain part.now.ltype) (plain sink.now))) }
{
    match in_types(alloc, reversed, &part.ltype, sink)? {
        None => Ok(None),
        Some(mut trail) => {
            trail.names.push(part.name.try_clone(alloc)?)?;
            Ok(Some(trail))
        }
    }
}

/// The first way in which two types differ by their own node.
fn why_at(reversed: bool, source: &LType, sink: &LType) -> Option<Why>
    ensures { result ≡ spec.why_at reversed (plain source.now) (plain sink.now) }
{
    if !has_same_shape(source, sink) {
        return Some(Why::Shape);
    }
    match (stream_in(source), stream_in(sink)) {
        (Some(source), Some(sink)) => why_of_streams(reversed, source, sink),
        _ => None,
    }
}

/// The first way in which two Streams differ by their own arguments.
#[tactic(auto, unfolding(crate::specs::Differences::why_of_streams))]
fn why_of_streams(reversed: bool, source: &StreamType, sink: &StreamType) -> Option<Why>
    ensures { result ≡ spec.why_of_streams reversed (plain_arguments source.now) (plain_arguments sink.now) }
{
    let reversed = turned(reversed, source.reverse);
    if !is_same_fraction(source.throughput, sink.throughput) {
        Some(Why::Throughput)
    } else if source.dims != sink.dims {
        Some(Why::Dims)
    } else if !is_same_sync(source.sync, sink.sync) {
        Some(Why::Sync)
    } else if !are_in_order(reversed, source.level, sink.level) {
        Some(Why::Level)
    } else if source.reverse != sink.reverse {
        Some(Why::Direction)
    } else if !is_same_type(&source.user, &sink.user) {
        Some(Why::User)
    } else if source.keep != sink.keep {
        Some(Why::Keep)
    } else {
        None
    }
}

/// Whether the data goes from a lower or equal level to a higher one.
fn are_in_order(reversed: bool, source: Level, sink: Level) -> bool
    ensures { result ≡ order.are_in_order reversed source sink }
{
    if reversed {
        sink.at_most(source)
    } else {
        source.at_most(sink)
    }
}

/// A direction, turned round where asked.
fn turned(reversed: bool, turns: bool) -> bool
    ensures { result ≡ nodes.turned reversed turns }
{
    if turns { !reversed } else { reversed }
}
