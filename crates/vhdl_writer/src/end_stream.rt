use crate::component::PortStream;
use tydi_base::Name;

/// An end inside an implementation with its physical streams: an own port, or a port of an instance.
#[derive(Clone, Copy)]
pub(crate) struct End<'d> {
    pub(crate) instance: Option<&'d Name>,
    pub(crate) streams: &'d [PortStream],
}

/// A physical stream at such an end.
#[derive(Clone, Copy)]
pub(crate) struct EndStream<'d> {
    pub(crate) instance: Option<&'d Name>,
    pub(crate) stream: &'d PortStream,
}
