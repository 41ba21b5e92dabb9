use tydi_base::List;
use vhdl_text::Arch;

/// Entities and architectures, with how many bytes their text has.
#[derive(Drop)]
pub(crate) struct Measured {
    pub(crate) archs: List<Arch>,
    pub(crate) length: u64,
}
