//! The walk that compares each node with the node around it.

ghost use Rattle.std.specs.Prelude.{◌≡◌, ◌<◌, ◌+◌, length};
ghost use Rattle.logical_types.specs.Tree.{plain, plain_of_stream, plain_parts};
ghost use Rattle.type_split.specs.Nodes.{number_of_streams, streams_in_parts};
ghost use Rattle.type_split.specs.Streams.{plain_split};
ghost use Rattle.value_views.specs.Giving.{plain_series};
ghost use Rattle.value_views.specs.Walking as spec;

use crate::comparing::packet_of;
use crate::fault::JoinFault;
use crate::viewing::dims_of;
use logical_types::{LType, Part, StreamType, Sync};
use logical_value::Value;
use std::alloc::Global;
use tydi_base::{List, TryClone};
use type_split::Split;

/// The nodes of a port, and the series that each has.
#[derive(Clone, Copy)]
pub(crate) struct Walking<'a, 't> {
    pub(crate) alloc: Global,
    pub(crate) split: &'a Split<'t>,
    pub(crate) given: &'a [List<Value>],
}

impl Walking<'_, '_> {
    /// Compares the nodes of a type, which stands in the node of a number, of so many dimensions. The way leads to it from that node's
    /// leaves.
    #[cycle(compares)]
    pub(crate) fn compare(
        &self,
        way: &mut List<usize>,
        around: usize,
        number: usize,
        dims: u64,
        ltype: &LType,
    ) -> Result<(), JoinFault>
        requires { spec.CanCompare (plain_split self.now.split.now) (plain_series self.now.given.now) around (number_of_streams (plain ltype.now) + number) (spec.IsPlaced (plain_split self.now.split.now) number dims (plain ltype.now)) }
        ensures { spec.Compares (plain_split self.now.split.now) (plain_series self.now.given.now) way.old way.new around number dims (plain ltype.now) result }
    {
        match ltype {
            LType::Null => Ok(()),
            LType::Bits(_) => Ok(()),
            LType::Group(parts) => self.compare_parts(way, around, number, dims, parts.as_slice()),
            LType::Union(parts) => self.compare_parts(way, around, number, dims, parts.as_slice()),
            LType::Stream(stream) => {
                self.compare_stream(way.as_slice(), around, number, dims, stream.get())
            }
        }
    }

    /// Compares the nodes of parts.
    #[cycle(compares)]
    fn compare_parts(
        &self,
        way: &mut List<usize>,
        around: usize,
        number: usize,
        dims: u64,
        parts: &[Part],
    ) -> Result<(), JoinFault>
        requires { spec.CanCompare (plain_split self.now.split.now) (plain_series self.now.given.now) around (streams_in_parts (plain_parts parts.now) + number) (spec.ArePlaced (plain_split self.now.split.now) number dims (plain_parts parts.now)) }
        ensures { spec.ComparesParts (plain_split self.now.split.now) (plain_series self.now.given.now) way.old way.new around number dims (plain_parts parts.now) result }
    {
        let mut next = number;
        let mut at = 0;
        'parts: for part in parts {
            way.push(at)?;
            self.compare(way, around, next, dims, &part.ltype)?;
            way.pop();
            next += type_split::number_of_streams(&part.ltype) as usize;
            at += 1;
        }
        Ok(())
    }

    /// Compares a Stream with the series around it, and the nodes inside it.
    #[cycle(compares)]
    fn compare_stream(
        &self,
        way: &[usize],
        around: usize,
        number: usize,
        dims: u64,
        stream: &StreamType,
    ) -> Result<(), JoinFault>
        requires { spec.CanCompare (plain_split self.now.split.now) (plain_series self.now.given.now) around (number_of_streams (plain_of_stream stream.now) + number) (spec.IsPlaced (plain_split self.now.split.now) number dims (plain_of_stream stream.now)) }
        ensures { spec.Compares (plain_split self.now.split.now) (plain_series self.now.given.now) way.now way.now around number dims (plain_of_stream stream.now) result }
    {
        self.check_stream(way, around, number, dims, stream.sync)?;
        let inner = dims_of(&self.split.nodes.as_slice()[number]);
        let mut inside = List::new(self.alloc);
        self.compare(&mut inside, number, number + 1, inner, &stream.element)
    }

    /// Compares a Stream of this synchronicity with the series around it.
    fn check_stream(
        &self,
        way: &[usize],
        around: usize,
        number: usize,
        dims: u64,
        sync: Sync,
    ) -> Result<(), JoinFault>
        requires long { length (plain_series self.now.given.now) ≡ length self.now.split.now.nodes }
        requires around { around < length self.now.split.now.nodes }
        requires number { number < length self.now.split.now.nodes }
        ensures { spec.Checks (plain_split self.now.split.now) (plain_series self.now.given.now) way.now around number dims sync result }
    {
        if sync.is_apart() {
            return Ok(());
        }
        let series = self.given[number].as_slice();
        match packet_of(way, sync, dims, self.given[around].as_slice(), series) {
            Some(packet) => {
                let path = self.split.nodes.as_slice()[number]
                    .path
                    .try_clone(self.alloc)?;
                Err(JoinFault::Disagree(path, packet as u64))
            }
            None => Ok(()),
        }
    }
}
