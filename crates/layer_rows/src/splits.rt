//! A front of the text of what a type is split into. Whole texts are tried over `run`.

use crate::calls::number;
use crate::types::{project_around, type_in};
use logical_types::{LType, check, number_of_nodes};
use split_text::split_text;
use std::alloc::Global;
use tydi_base::{List, Memory};
use type_split::{number_of_streams, split_type};

const OUTER: &str = "\
stream - lanes 3 dims 2 level 7 element 8 user 0 forward
  root -
  valid 1
  ready 1
  data 24
  last 6
  stai 2
  endi 2
  strb 3
  field a 0 8
";

// A Stream with another inside.
const NESTED: &str =
    "Stream(data: Group(a: Bits(8), b: Stream(data: Bits(4), throughput: 1.5, dimensionality: 1, complexity: 7)), \
     throughput: 3, dimensionality: 2, complexity: 7)";

/// A limit, and a type: the text of a front of its physical streams, with more bytes than the limit.
pub(crate) const FRONTS: &[(&str, &str, &str)] = &[("10", NESTED, OUTER)];

fn write_split(alloc: Global, ltype: &LType, limit: u64, out: &mut List<u8>) -> Result<(), Memory> {
    let LType::Stream(stream) = ltype else {
        return Err(Memory);
    };
    if check(ltype).is_err() || number_of_streams(ltype) > 65536 {
        return Err(Memory);
    }
    if number_of_nodes(ltype) > 65536 {
        return Err(Memory);
    }
    match split_type(alloc, stream.get()) {
        Ok(split) => out.extend_from_slice(split_text(alloc, &split, limit)?.as_slice()),
        Err(_) => Err(Memory),
    }
}

pub(crate) fn split(
    alloc: Global,
    limit: &str,
    spelled: &str,
    out: &mut List<u8>,
) -> Result<(), Memory> {
    let project = project_around(alloc, spelled)?;
    write_split(alloc, type_in(&project)?, number(limit), out)
}
