use tydi_base::List;

/// The texts of the lines of a stream's process.
#[derive(Drop)]
pub(crate) struct Forms {
    /// How many dimensions the stream has.
    pub(crate) dims: u8,
    /// The first line of a loop over the lanes.
    pub(crate) lanes_line: List<u8>,
    /// That of a loop over the dimensions.
    pub(crate) dims_line: List<u8>,
    /// That of a test of the lane.
    pub(crate) active_line: List<u8>,
    /// That of a test of the last bit.
    pub(crate) last_line: List<u8>,
    /// That of a need of an element.
    pub(crate) elem_line: List<u8>,
    /// That of a need of a Close.
    pub(crate) close_line: List<u8>,
    /// The line that raises the fault.
    pub(crate) fault_line: List<u8>,
    /// The lines before the statements, the last without its LF.
    pub(crate) wait_text: List<u8>,
}
