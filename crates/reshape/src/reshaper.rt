ghost use Rattle.scheduler.specs.Widths.{plan_props};
ghost use Rattle.reshape.specs.Kept.{Keeps};

use crate::buffer::Buffer;
use crate::front::Front;
use physical_stream::{Params, Transfer};

/// A component that gives a stream other lanes and another level. What it is given goes into a buffer; what it offers is the front of that,
/// once no further item can change it.
#[derive(Drop)]
pub struct Reshaper {
    /// The near side.
    pub(crate) from: Params,
    /// The items that went in and did not go out, with the parameters of the far side.
    pub(crate) buffer: Buffer,
    /// How far the front of the buffer reaches.
    pub(crate) front: Front,
    /// The transfer of the far side that is zero.
    pub(crate) blank: Transfer,
    /// The transfer of the front, where the buffer is due.
    pub(crate) offered: Transfer,
    pub(crate) due: bool,
    /// The source has ended.
    pub(crate) ended: bool,
    ghost kept: { Keeps from buffer front blank offered due ended } by { Prim.hlevel plan_props },
}
