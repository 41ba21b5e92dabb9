/// The language that entities and architectures are written in.
#[derive(Clone, Copy, Debug, PartialEq, Eq)]
pub enum Language {
    /// IEEE 1076.
    Vhdl,
    /// IEEE 1364-2001.
    Verilog,
}
