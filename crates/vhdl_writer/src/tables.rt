//! Ports, instances and nets by their names and numbers.

ghost use Rattle.std.specs.Prelude.{◌≡◌, IfOk, OnOk};
ghost use Rattle.std.specs.Option.{option_copied, option_or};
ghost use Rattle.std.specs.BTreeMap.{get};
ghost use Rattle.std.specs.Ordering.{nat_cmp};
ghost use Rattle.til_resolve.specs.Ordered.{Key, by_key, by_name};
ghost use Rattle.vhdl_writer.specs.Finding.{FindsInstances, FindsNets, FindsPorts, port_at_home};

use crate::component::{Component, SplitPort};
use link_check::ImplNets;
use std::alloc::Global;
use std::collections::BTreeMap;
use til_resolve::{Instance, OrderedName, keep_first};
use tydi_base::Memory;

/// The first port of each name in each component, by the component's number.
pub(crate) type Ports<'c> = BTreeMap<(usize, OrderedName<'c>), &'c SplitPort>;

/// The first instance of each name.
pub(crate) type Instances<'p> = BTreeMap<OrderedName<'p>, &'p Instance>;

/// The first nets of each streamlet, by its number.
pub(crate) type NetsOf<'n> = BTreeMap<usize, &'n ImplNets>;

/// The ports of components by their names.
pub(crate) fn ports_by_name<'c>(
    alloc: Global,
    components: &'c [Component],
) -> Result<Ports<'c>, Memory>
    ensures { IfOk result (λ table. FindsPorts (get by_key table) components.now) }
{
    let mut table = BTreeMap::new(alloc);
    'components: for (home, component) in components.iter().enumerate() {
        add_ports(&mut table, home, component.ports.as_slice())?;
    }
    Ok(table)
}

/// The ports of one component more, which has this number.
fn add_ports<'c>(table: &mut Ports<'c>, home: usize, ports: &'c [SplitPort]) -> Result<(), Memory>
    ensures { OnOk result ((key : Key) → option_copied (get by_key table.new key) ≡ option_or (option_copied (get by_key table.old key)) (port_at_home ports.now home key)) }
{
    'ports: for port in ports {
        keep_first(table, (home, OrderedName::new(&port.name)), port)?;
    }
    Ok(())
}

/// Instances by their names.
pub(crate) fn instances_by_name<'p>(
    alloc: Global,
    instances: &'p [Instance],
) -> Result<Instances<'p>, Memory>
    ensures { IfOk result (λ table. FindsInstances (get by_name table) instances.now) }
{
    let mut table = BTreeMap::new(alloc);
    'instances: for instance in instances {
        keep_first(&mut table, OrderedName::new(&instance.name), instance)?;
    }
    Ok(table)
}

/// Nets by the numbers of their streamlets.
pub(crate) fn nets_by_number<'n>(alloc: Global, impls: &'n [ImplNets]) -> Result<NetsOf<'n>, Memory>
    ensures { IfOk result (λ table. FindsNets (get nat_cmp table) impls.now) }
{
    let mut table = BTreeMap::new(alloc);
    'impls: for one in impls {
        keep_first(&mut table, one.streamlet as usize, one)?;
    }
    Ok(table)
}
