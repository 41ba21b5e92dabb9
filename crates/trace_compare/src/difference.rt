use physical_stream::Item;
use tydi_base::List;

/// Where a stream first differs from what is expected of it. Streams, items and cycles are numbered from 0.
#[derive(Debug, Drop)]
pub struct Difference {
    /// The number of the stream, in the order of the header.
    pub stream: usize,
    /// The number of the first item that differs: the items before it are the expected ones.
    pub item: usize,
    /// Its place, by the items before it: for each dimension, from the outermost down, how many sequences of it have ended since the last
    /// end of a greater dimension, and then how many elements came since the last end of any. In `[1, 2] [3]`, the element 3 stands at 1, 0.
    pub place: List<u64>,
    /// The cycle in which the item of this number is done. None where the stream ends before it.
    pub cycle: Option<u32>,
    /// The item that is expected. None where no more are.
    pub want: Option<Item>,
    /// The item that is done. None where no more are.
    pub got: Option<Item>,
}
