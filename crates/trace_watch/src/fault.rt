use cycle_trace::TraceFault;

/// Why the text of a trace cannot be watched. The errors are looked for in this order.
#[derive(Debug, Drop)]
pub enum WatchTraceFault {
    /// The text is no trace: this is its first error.
    Misspelled(TraceFault),
    /// The heads of the trace are not those of the monitor. This is the first place at which they differ, counted from 0; where one list is a
    /// front of the other, it is the length of the shorter one.
    OtherHeader(usize),
    /// There was no memory.
    Memory,
}
