//! The streamlets of a project, with their ports and implementations.

ghost use Rattle.std.specs.Prelude.{◌≡◌, ◌+◌, ◌<◌, length, None, Contains, IfOk, OnOk};
ghost use Rattle.std.specs.BTreeMap.{get};
ghost use Rattle.std.specs.Ordering.{nat_cmp};
ghost use Rattle.til_resolve.specs.Declarations.{declaration, path_of, ports_in, ports_of};
ghost use Rattle.til_resolve.specs.Faults.{IsToldUpTo, written_types};
ghost use Rattle.til_resolve.specs.Making.{FindsFirstImpl, numbers_before, type_of_port};
ghost use Rattle.til_resolve.specs.Project.{IsPortOf, IsStreamletOf, Pairwise, streamlet_numbers, streamlets_before};
ghost use Rattle.til_resolve.specs.Scope.{declarations_of, placed_of};
ghost use Rattle.til_resolve.specs.SharedTypes.{AreTypes};

use crate::bodies::body_of;
use crate::declared::Declared;
use crate::implementing::{FirstImpls, first_impls};
use crate::kinds::{Asked, is_asked, own_ports};
use crate::port_types::{declared_type, type_of_port};
use crate::ports::owner_of;
use crate::project::{Port, Streamlet};
use crate::scope::Scope;
use crate::shared_types::shared_types;
use logical_types::LType;
use std::alloc::Global;
use til_parser::AstPort;
use tydi_base::{List, Memory, Path, TryClone};

/// All streamlets, in text order. The table has how many stand before each declaration.
pub fn all_streamlets(
    alloc: Global,
    scope: &Scope<'_>,
    table: &[u32],
) -> Result<List<Streamlet>, Memory>
    requires sound { IsToldUpTo (declarations_of scope.now.declared) 7 None }
    requires table { table.now ≡ numbers_before (declarations_of scope.now.declared) (length (declarations_of scope.now.declared)) }
    ensures { IfOk result (Pairwise (IsStreamletOf (declarations_of scope.now.declared)) (streamlet_numbers (declarations_of scope.now.declared))) }
{
    let impls = first_impls(alloc, scope)?;
    let types = shared_types(alloc, scope)?;
    let mut streamlets = List::new(alloc);
    'numbers: for number in 0..scope.len() {
        add_streamlet(
            alloc,
            scope,
            table,
            &impls,
            types.as_slice(),
            number,
            &mut streamlets,
        )?;
    }
    Ok(streamlets)
}

// The streamlet that a declaration is, if it is one.
fn add_streamlet(
    alloc: Global,
    scope: &Scope<'_>,
    table: &[u32],
    impls: &FirstImpls,
    types: &[LType],
    number: usize,
    streamlets: &mut List<Streamlet>,
) -> Result<(), Memory>
    requires sound { IsToldUpTo (declarations_of scope.now.declared) 7 None }
    requires table { table.now ≡ numbers_before (declarations_of scope.now.declared) (length (declarations_of scope.now.declared)) }
    requires impls { FindsFirstImpl (get nat_cmp impls.now) (declarations_of scope.now.declared) (length (declarations_of scope.now.declared)) }
    requires types { AreTypes (declarations_of scope.now.declared) (length (declarations_of scope.now.declared)) types.now }
    requires within { number < length (declarations_of scope.now.declared) }
    requires so_far { Pairwise (IsStreamletOf (declarations_of scope.now.declared)) (streamlets_before (declarations_of scope.now.declared) number) streamlets.old }
    ensures { OnOk result (Pairwise (IsStreamletOf (declarations_of scope.now.declared)) (streamlets_before (declarations_of scope.now.declared) (number + 1)) streamlets.new) }
{
    if !is_asked(Asked::Streamlet, scope.get(number)) {
        return Ok(());
    }
    streamlets.push(streamlet_of(alloc, scope, table, impls, types, number)?)
}

fn streamlet_of(
    alloc: Global,
    scope: &Scope<'_>,
    table: &[u32],
    impls: &FirstImpls,
    types: &[LType],
    number: usize,
) -> Result<Streamlet, Memory>
    requires sound { IsToldUpTo (declarations_of scope.now.declared) 7 None }
    requires table { table.now ≡ numbers_before (declarations_of scope.now.declared) (length (declarations_of scope.now.declared)) }
    requires impls { FindsFirstImpl (get nat_cmp impls.now) (declarations_of scope.now.declared) (length (declarations_of scope.now.declared)) }
    requires types { AreTypes (declarations_of scope.now.declared) (length (declarations_of scope.now.declared)) types.now }
    requires within { number < length (declarations_of scope.now.declared) }
    ensures { IfOk result (IsStreamletOf (declarations_of scope.now.declared) number) }
{
    let path = path_of(alloc, scope.get(number))?;
    let ports = ports_of(alloc, scope, types, number)?;
    let body = body_of(alloc, scope, table, impls, number)?;
    Ok(Streamlet { path, ports, body })
}

/// The whole path of a declaration.
pub fn path_of(alloc: Global, one: &Declared<'_>) -> Result<Path, Memory>
    ensures { IfOk result (λ path. path ≡ path_of (placed_of one.now).declaration) }
{
    let mut names = List::new(alloc);
    'names: for name in one.space {
        names.push(name.name.try_clone(alloc)?)?;
    }
    names.push(one.name.name.try_clone(alloc)?)?;
    Ok(Path::from_names(names))
}

// The ports of a streamlet: its own, or those of the interface that it names.
fn ports_of(
    alloc: Global,
    scope: &Scope<'_>,
    types: &[LType],
    streamlet: usize,
) -> Result<List<Port>, Memory>
    requires sound { IsToldUpTo (declarations_of scope.now.declared) 7 None }
    requires types { AreTypes (declarations_of scope.now.declared) (length (declarations_of scope.now.declared)) types.now }
    requires within { streamlet < length (declarations_of scope.now.declared) }
    ensures { IfOk result (Pairwise (IsPortOf (declarations_of scope.now.declared))
        (ports_of (declarations_of scope.now.declared) (declaration (declarations_of scope.now.declared) streamlet))) }
{
    match owner_of(scope, streamlet) {
        Some(owner) => written_ports(alloc, scope, types, owner),
        None => Ok(List::new(alloc)),
    }
}

// The ports that a declaration writes out.
fn written_ports(
    alloc: Global,
    scope: &Scope<'_>,
    types: &[LType],
    number: usize,
) -> Result<List<Port>, Memory>
    requires sound { IsToldUpTo (declarations_of scope.now.declared) 7 None }
    requires types { AreTypes (declarations_of scope.now.declared) (length (declarations_of scope.now.declared)) types.now }
    requires within { number < length (declarations_of scope.now.declared) }
    ensures { IfOk result (Pairwise (IsPortOf (declarations_of scope.now.declared)) (ports_in (declaration (declarations_of scope.now.declared) number))) }
{
    let mut ports = List::new(alloc);
    'ports: for port in own_ports(scope.get(number).kind) {
        ports.push(port_of(alloc, scope, types, number, port)?)?;
    }
    Ok(ports)
}

fn port_of<'a>(
    alloc: Global,
    scope: &Scope<'a>,
    types: &[LType],
    number: usize,
    port: &'a AstPort,
) -> Result<Port, Memory>
    requires sound { IsToldUpTo (declarations_of scope.now.declared) 7 None }
    requires types { AreTypes (declarations_of scope.now.declared) (length (declarations_of scope.now.declared)) types.now }
    requires within { number < length (declarations_of scope.now.declared) }
    requires written { Contains (written_types (declarations_of scope.now.declared))
        (type_of_port (declarations_of scope.now.declared) (declaration (declarations_of scope.now.declared) number).space port.now) }
    ensures { IfOk result (IsPortOf (declarations_of scope.now.declared) (record {
      space = (declaration (declarations_of scope.now.declared) number).space;
      port = port.now;
    })) }
{
    let name = port.name.name.try_clone(alloc)?;
    let ltype = type_of_port(alloc, scope, types, number, port)?;
    Ok(Port {
        name,
        inward: port.inward,
        ltype,
        declared: declared_type(scope, number, &port.ltype),
    })
}
