//! Components: the ports of a streamlet with their physical streams.

use physical_stream::Params;
use tydi_base::{List, Name, Text};

/// A streamlet's ports in order, and all their signals.
#[derive(Drop)]
pub(crate) struct Component {
    pub(crate) ports: List<SplitPort>,
    pub(crate) signals: List<PortSignal>,
}

/// A port with its physical streams.
#[derive(Drop)]
pub(crate) struct SplitPort {
    pub(crate) name: Name,
    pub(crate) inward: bool,
    pub(crate) streams: List<PortStream>,
}

/// A physical stream of a port.
#[derive(Drop)]
pub(crate) struct PortStream {
    /// The front of its signals' names: the port, and the names of its path, with points between.
    pub(crate) stem: Text,
    pub(crate) params: Params,
    /// Whether it flows against the port.
    pub(crate) reversed: bool,
}

/// A signal of a physical stream of a port.
#[derive(Drop)]
pub(crate) struct PortSignal {
    /// Its name in the component, without backslashes.
    pub(crate) name: Text,
    /// Whether it flows out of the component.
    pub(crate) outward: bool,
    /// The number of bits of a vector. None where the signal is one bit.
    pub(crate) width: Option<u32>,
}
