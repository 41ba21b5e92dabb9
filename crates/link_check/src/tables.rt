//! Things by their names.

ghost use Rattle.std.specs.Prelude.{◌≡◌, IfOk, OnOk, option_map};
ghost use Rattle.std.specs.Option.{option_or};
ghost use Rattle.std.specs.BTreeMap.{get};
ghost use Rattle.til_resolve.specs.Ordered.{Key, by_key, by_name};
ghost use Rattle.link_check.specs.Tables.{FindsPorts, FindsInstances, lent_port, port_at_home};

use std::alloc::Global;
use std::collections::BTreeMap;
use til_resolve::{Instance, OrderedName, Port, Streamlet, keep_first};
use tydi_base::Memory;

/// The first port of each name in each streamlet, by the streamlet's number.
pub(crate) type Ports<'p> = BTreeMap<(usize, OrderedName<'p>), &'p Port>;

/// The first instance of each name.
pub(crate) type Instances<'p> = BTreeMap<OrderedName<'p>, &'p Instance>;

/// The ports of streamlets by their names.
pub(crate) fn ports_by_name<'p>(
    alloc: Global,
    streamlets: &'p [Streamlet],
) -> Result<Ports<'p>, Memory>
    ensures { IfOk result (λ table. FindsPorts (get by_key table) streamlets.now) }
{
    let mut table = BTreeMap::new(alloc);
    'streamlets: for (home, streamlet) in streamlets.iter().enumerate() {
        add_ports(&mut table, home, streamlet.ports.as_slice())?;
    }
    Ok(table)
}

/// The ports of one streamlet more, which has this number.
fn add_ports<'p>(table: &mut Ports<'p>, home: usize, ports: &'p [Port]) -> Result<(), Memory>
    ensures { OnOk result ((key : Key) → lent_port (get by_key table.new key) ≡ option_or (lent_port (get by_key table.old key)) (port_at_home ports.now home key)) }
{
    'ports: for port in ports {
        keep_first(table, (home, OrderedName::new(&port.name)), port)?;
    }
    Ok(())
}

/// Instances by their names.
pub(crate) fn instances_by_name<'p>(
    alloc: Global,
    instances: &'p [Instance],
) -> Result<Instances<'p>, Memory>
    ensures { IfOk result (λ table. FindsInstances (get by_name table) instances.now) }
{
    let mut table = BTreeMap::new(alloc);
    'instances: for instance in instances {
        keep_first(&mut table, OrderedName::new(&instance.name), instance)?;
    }
    Ok(table)
}
