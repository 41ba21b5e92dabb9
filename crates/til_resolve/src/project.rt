//! A project: its streamlets and tests, and the look-ups of ports, streamlets and tests by their paths.

ghost use Rattle.std.specs.Prelude.{◌≡◌, find};
ghost use Rattle.std.specs.Option.{option_copied};
ghost use Rattle.std.specs.Str.{bytes_eq};
ghost use Rattle.til_resolve.specs.NumberedTypes.{AreNumbered};
ghost use Rattle.til_resolve.specs.Paths.{is_same_path};

use logical_types::StreamType;
use std::rc::Rc;
use tydi_base::{List, Name, Path, Place, Text};

/// A project, in text order. Ports that name one type declaration have one type.
#[derive(Debug, Drop)]
pub struct Project {
    pub streamlets: List<Streamlet>,
    pub tests: List<Test>,
    ghost numbered: { ∥ AreNumbered streamlets ∥₁ },
}

/// A streamlet with its implementation, if it has one.
#[derive(Debug, Drop)]
pub struct Streamlet {
    pub path: Path,
    pub ports: List<Port>,
    pub body: Option<Impl>,
}

/// A port, and the Stream that it carries. Ports that name one type share it.
#[derive(Debug, Drop)]
pub struct Port {
    pub name: Name,
    pub inward: bool,
    pub ltype: Rc<StreamType>,
    /// The number of the type declaration that it names, among all declarations in text order; none where its type is written in place.
    pub declared: Option<usize>,
}

/// An implementation.
#[derive(Debug, Drop)]
pub enum Impl {
    /// It stands elsewhere, as this text says.
    Linked(Text),
    /// Instances of streamlets, and links between ports. The place is that of the path after `of`.
    Structural {
        place: Place,
        instances: List<Instance>,
        links: List<Link>,
    },
}

/// A streamlet inside another. The streamlet is one of the project's, counted from 0.
#[derive(Debug, Drop)]
pub struct Instance {
    pub name: Name,
    pub streamlet: u32,
}

/// Two ports that are tied, at the place of the first name.
#[derive(Debug, Drop)]
pub struct Link {
    pub first: LinkEnd,
    pub second: LinkEnd,
    pub place: Place,
}

/// A port of an instance, or of the streamlet itself.
#[derive(Debug, Drop)]
pub struct LinkEnd {
    pub instance: Option<Name>,
    pub port: Name,
}

/// A test: the texts of a value and of a plan, to drive into this port of this streamlet of the project, counted from 0.
#[derive(Debug, Drop)]
pub struct Test {
    pub path: Path,
    pub streamlet: u32,
    pub port: Name,
    pub value: Text,
    pub plan: Text,
}

impl Project {
    ghost use Rattle.til_resolve.specs.Lookups.{port_at};

    /// The port of this path, which is the path of its streamlet and then its name. None exactly where none has it.
    pub fn port(&self, path: &Path) -> Option<&Port>
        ensures { option_copied result ≡ port_at self.now.streamlets path.now }
    {
        'streamlets: for streamlet in self.streamlets.as_slice() {
            if let Some(port) = streamlet.port(path) {
                return Some(port);
            }
        }
        None
    }

    /// The streamlet of this path. None exactly where none has it.
    pub fn streamlet(&self, path: &Path) -> Option<&Streamlet>
        ensures { option_copied result ≡ find (λ one. is_same_path one.path path.now) self.now.streamlets }
    {
        self.streamlets.iter().find(|one| one.path == *path)
    }

    /// The test of this path. None exactly where none has it.
    pub fn test(&self, path: &Path) -> Option<&Test>
        ensures { option_copied result ≡ find (λ one. is_same_path one.path path.now) self.now.tests }
    {
        self.tests.iter().find(|one| one.path == *path)
    }
}

impl Streamlet {
    ghost use Rattle.til_resolve.specs.Lookups.{port_in};

    // The port of this path.
    fn port(&self, path: &Path) -> Option<&Port>
        ensures { option_copied result ≡ port_in self.now path.now }
    {
        let [front @ .., last] = path.names() else {
            return None;
        };
        if self.path.names() != front {
            return None;
        }
        self.port_named(last)
    }

    // The port of this name.
    fn port_named(&self, name: &Name) -> Option<&Port>
        ensures { option_copied result ≡ find (λ port. bytes_eq port.name name.now) self.now.ports }
    {
        self.ports.iter().find(|port| port.name == *name)
    }
}
