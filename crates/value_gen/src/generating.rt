//! A value of a port's type.

ghost use Rattle.std.specs.Prelude.{◌≡◌, ◌<◌, [], true, map, slice_get, IfOk};
ghost use Rattle.logical_value.specs.Fits.{fits_split};
ghost use Rattle.logical_value.specs.Tree.{plain_port};
ghost use Rattle.type_split.specs.Streams.{IsPortSplit, node_view, plain_split};
ghost use Rattle.value_gen.specs.Draws.{Makes};
ghost use Rattle.value_gen.specs.Leaves.{Fills, IsGenerated, leaves_of_all, leaves_of_roots};
ghost use Rattle.value_gen.specs.Made as spec;

use crate::fault::GenFault;
use crate::making::Making;
use logical_value::{PortValue, Value};
use std::alloc::Global;
use tydi_base::List;
use type_split::Split;

/// The value of the port's type that was split, with so many members for each root, which the draws after this seed make. It fits the
/// split. The seed is below 65,536. `TooManyLeaves` comes exactly where the value has over 1,000,000 leaves, which are counted as they are
/// made, so no value that is too large is made. `Memory` comes where there is none for the value. The generator is this project's own.
pub fn generate(
    alloc: Global,
    split: &Split<'_>,
    seed: u32,
    count: u32,
) -> Result<PortValue, GenFault>
    requires split { IsPortSplit (plain_split split.now) }
    requires seed { seed < 65536 }
    ensures value { IsGenerated (plain_split split.now) seed count result }
    ensures fits { IfOk result (λ value. fits_split (plain_split split.now) (plain_port value) ≡ true) }
{
    let mut making = Making::new(alloc, seed);
    let roots = making.roots(split, count)?;
    Ok(PortValue { roots })
}

impl Making {
    /// The series of each root.
    fn roots(&mut self, split: &Split<'_>, count: u32) -> Result<List<List<Value>>, GenFault>
        ensures made { Makes (spec.roots_from count (map node_view split.now.nodes) split.now.roots [] self.old.draws.last) result self.new.draws.last }
        ensures fills { Fills leaves_of_roots (spec.roots_from count (map node_view split.now.nodes) split.now.roots [] self.old.draws.last)
            self.old.room self.new.room result }
    {
        let mut found = List::new(self.draws.alloc);
        'roots: for root in split.roots.as_slice() {
            let series = self.series(split, *root, count)?;
            found.push(series)?;
        }
        Ok(found)
    }

    /// So many members of the root of this number.
    fn series(&mut self, split: &Split<'_>, root: u32, count: u32) -> Result<List<Value>, GenFault>
        ensures made { Makes (spec.series count (slice_get (map node_view split.now.nodes) root) self.old.draws.last) result self.new.draws.last }
        ensures fills { Fills leaves_of_all (spec.series count (slice_get (map node_view split.now.nodes) root) self.old.draws.last)
            self.old.room self.new.room result }
    {
        match split.nodes.get(root as usize) {
            Some(node) => self.nests(node.element, u64::from(node.params.dims), count),
            None => Ok(List::new(self.draws.alloc)),
        }
    }
}
