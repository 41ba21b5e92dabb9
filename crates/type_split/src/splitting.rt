//! The nodes of a port's type, found in one walk.

ghost use Rattle.std.specs.Prelude.{◌≡◌, ◌∷◌, [], ◌||◌, nat_lt, false, length, if◌then◌else◌, Some, None};
ghost use Rattle.logical_types.specs.Tree.{plain, plain_parts, plain_of_stream};
ghost use Rattle.type_split.specs.Found.{IsFound};
ghost use Rattle.type_split.specs.Splitting.{Splits, SplitsPart, SplitsParts, AddsNode};

use crate::found::Found;
use crate::place::Place;
use crate::split::Node;
use logical_types::{LType, Part, StreamType};
use physical_stream::Params;
use std::alloc::Global;
use std::mem::replace;
use tydi_base::{List, Memory, Name, Path, TryClone};

/// The nodes found so far, and the names that lead to the type that is looked at.
#[derive(Drop)]
pub(crate) struct Splitting<'t> {
    pub(crate) alloc: Global,
    pub(crate) names: List<Name>,
    pub(crate) nodes: List<Node<'t>>,
    /// How many of the nodes have a physical stream.
    pub(crate) physical: u32,
    /// Whether a physical stream was found whose path is these names.
    pub(crate) is_taken: bool,
    /// The path of the first physical stream that has the path of an earlier one.
    pub(crate) clash: Option<Path>,
}

impl<'t> Splitting<'t> {
    /// No node is found yet.
    pub(crate) fn new(alloc: Global) -> Splitting<'t>
        ensures names { result.names ≡ [] }
        ensures nodes { result.nodes ≡ [] }
        ensures physical { result.physical ≡ 0 }
        ensures free { result.is_taken ≡ false }
        ensures clash { result.clash ≡ None }
    {
        Splitting {
            alloc,
            names: List::new(alloc),
            nodes: List::new(alloc),
            physical: 0,
            is_taken: false,
            clash: None,
        }
    }

    /// Adds the nodes of a type at this place. A Stream with an error adds nothing.
    #[cycle(split)]
    pub(crate) fn add_type(&mut self, ltype: &'t LType, place: &Place) -> Result<(), Memory>
        ensures { Splits self.old self.new result place.now (plain ltype.now) }
    {
        match ltype {
            LType::Null => Ok(()),
            LType::Bits(_) => Ok(()),
            LType::Group(parts) => self.add_parts(parts.as_slice(), place),
            LType::Union(parts) => self.add_parts(parts.as_slice(), place),
            LType::Stream(stream) => self.add_stream(stream.get(), place),
        }
    }

    /// Adds the nodes of parts.
    #[cycle(split)]
    fn add_parts(&mut self, parts: &'t [Part], place: &Place) -> Result<(), Memory>
        ensures { SplitsParts self.old self.new result place.now (plain_parts parts.now) }
    {
        'parts: for part in parts {
            self.add_part(part, place)?;
        }
        Ok(())
    }

    /// Adds the nodes of a part.
    #[cycle(split)]
    fn add_part(&mut self, part: &'t Part, place: &Place) -> Result<(), Memory>
        ensures { SplitsPart self.old self.new result place.now part.now.name (plain part.now.ltype) }
    {
        self.names.push(part.name.try_clone(self.alloc)?)?;
        let was_taken = replace(&mut self.is_taken, false);
        self.add_type(&part.ltype, place)?;
        self.is_taken = was_taken;
        self.names.pop();
        Ok(())
    }

    /// Adds the node of a Stream, and those inside it.
    #[cycle(split)]
    pub(crate) fn add_stream(&mut self, stream: &'t StreamType, place: &Place) -> Result<(), Memory>
        ensures { Splits self.old self.new result place.now (plain_of_stream stream.now) }
    {
        let Some(found) = Found::at(stream, place, self.nodes.len()) else {
            return Ok(());
        };
        let was_taken = self.is_taken;
        self.add_node(stream, place, &found)?;
        self.add_type(&stream.element, &found.inside)?;
        self.is_taken = was_taken;
        Ok(())
    }

    /// Adds the node of a Stream. Its names are taken from then on where it has a physical stream.
    fn add_node(
        &mut self,
        stream: &'t StreamType,
        place: &Place,
        found: &Found,
    ) -> Result<(), Memory>
        requires { IsFound stream.now place.now (length self.old.nodes) found.now }
        ensures { AddsNode self.old self.new result place.now stream.now }
    {
        let path = Path::from_names(self.names.try_clone(self.alloc)?);
        let is_physical = is_physical(&found.params, stream.keep);
        if is_physical && self.is_taken && self.clash.is_none() {
            self.clash = Some(path.try_clone(self.alloc)?);
        }
        self.nodes.push(Node {
            path,
            parent: place.parent,
            own_dims: found.own_dims,
            params: found.params,
            sync: stream.sync,
            reversed: found.inside.reversed,
            root: found.inside.root,
            phys: numbered(is_physical, self.physical),
            element: &stream.element,
        })?;
        self.physical = self.physical.saturating_add(u32::from(is_physical));
        self.is_taken = is_physical || self.is_taken;
        Ok(())
    }
}

/// Whether a Stream with such elements and user words has a physical stream.
fn is_physical(params: &Params, keep: bool) -> bool
    ensures { result ≡ (nat_lt 0 params.now.element || nat_lt 0 params.now.user || keep) }
{
    params.element > 0 || params.user > 0 || keep
}

/// This number where there is one.
fn numbered(is_there: bool, number: u32) -> Option<u32>
    ensures { result ≡ (if is_there then Some number else None) }
{
    if is_there { Some(number) } else { None }
}
