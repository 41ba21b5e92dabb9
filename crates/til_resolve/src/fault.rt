ghost use Rattle.std.specs.Prelude.{◌≡◌};
ghost use Rattle.til_resolve.specs.declared.fault.ResolveFault.TheVariants as faults;

use logical_types::TypeFault;
use tydi_base::{Memory, Place};

/// Why a tree stands for no project. Errors earlier in this list are looked for over the whole text before those later, but
/// `UnknownName` and `WrongKind` together; of one kind the first place in the text is reported.
#[derive(Clone, Copy, Debug, PartialEq, Eq)]
pub enum ResolveFault {
    /// At the second: a declaration with the name of another of its namespace; a port with a name of its interface or streamlet,
    /// equal when ASCII case is ignored; an instance with the name of another of its body, or of a port of the streamlet that the
    /// body implements; an `impl` of a streamlet that has one, at its own name.
    DeclaredTwice(Place),

    /// At the first byte of a path that names nothing, or of the port of a test that its streamlet lacks.
    UnknownName(Place),

    /// At the first byte of a path that names a declaration of another kind than its place needs.
    WrongKind(Place),

    /// At the name of a type declaration that leads to itself.
    CyclicType(Place),

    /// At the name of a type declaration or of a port: its type has over 65,536 nodes, or is nested deeper than 64, names replaced.
    TypeTooLarge(Place),

    /// At the name of a type declaration or of a port: its type has this error.
    BadType(Place, TypeFault),

    /// At the name of a port whose type is no Stream.
    PortNotStream(Place),

    /// At the path after `of` of an `impl` whose streamlet contains itself through instances.
    CyclicInstance(Place),

    /// There was no memory.
    Memory,
}

impl From<Memory> for ResolveFault {
    ghost from_gives = { λ _ e. e ≡ faults.Memory };

    fn from(_error: Memory) -> ResolveFault {
        ResolveFault::Memory
    }
}
