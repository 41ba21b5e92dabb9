use physical_stream::Head;
use signal_layout::Signal;
use tydi_base::{Bits, List};

/// A statement of a process (IEEE 1076, sequential statements). A process numbers the streams from 0.
#[derive(Drop)]
pub enum Stmt {
    /// Assigns this word, lowest bit first, to a signal of the stream of this number.
    Put {
        stream: u32,
        signal: Signal,
        bits: Bits,
    },
    /// Waits for so many rising edges of the clock, from 1 to 1,000,000.
    Pause(u32),
    /// Waits for a rising edge of the clock at which the ready bit of the stream of this number is 1.
    Await(u32),
    /// Waits for ever.
    Stop,
}

/// A testbench: the streams that it drives, and its processes, each a list of statements.
#[derive(Drop)]
pub struct Bench {
    pub heads: List<Head>,
    pub procs: List<List<Stmt>>,
}
