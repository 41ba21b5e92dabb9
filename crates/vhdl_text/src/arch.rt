//! Entities and architectures.

use tydi_base::{Bits, List, Name, Path, Text};

/// A streamlet as an entity, with the architecture of its instances and links where it has them (IEEE 1076, design entities). Each name
/// that is a `Text` is an identifier as it is written, an extended one with its backslashes.
#[derive(Debug, Drop)]
pub struct Arch {
    /// The path of the streamlet, whose text is the name of the entity.
    pub name: Path,
    pub ports: List<ArchPort>,
    /// Whether the entity has an architecture. Where it has none, its wires, parts and assignments are not written.
    pub has_body: bool,
    pub wires: List<ArchWire>,
    pub parts: List<ArchPart>,
    pub sets: List<ArchSet>,
}

/// A port of an entity.
#[derive(Debug, Drop)]
pub struct ArchPort {
    pub name: Text,
    pub outward: bool,
    /// The number of bits of a vector. None where the port is one `std_logic`.
    pub width: Option<u32>,
}

/// A signal of an architecture.
#[derive(Debug, Drop)]
pub struct ArchWire {
    pub name: Text,
    /// The number of bits of a vector. None where the signal is one `std_logic`.
    pub width: Option<u32>,
}

/// An instance of an entity, with its port map.
#[derive(Debug, Drop)]
pub struct ArchPart {
    pub name: Name,
    /// The path of the streamlet whose entity it is.
    pub entity: Path,
    pub maps: List<ArchMap>,
}

/// A port of an instance, and the signal or port that it is connected to.
#[derive(Debug, Drop)]
pub struct ArchMap {
    pub port: Text,
    pub wire: Text,
}

/// A concurrent assignment to a signal or to an output port.
#[derive(Debug, Drop)]
pub struct ArchSet {
    pub target: Text,
    pub source: ArchSource,
}

/// The source of an assignment.
#[derive(Debug, Drop)]
pub enum ArchSource {
    /// A signal, or an input port.
    Wire(Text),
    /// A vector of these bits, lowest first.
    Constant(Bits),
}
