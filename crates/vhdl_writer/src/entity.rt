//! The ports of entities.

ghost use Rattle.std.specs.Prelude.{◌≡◌, ◌++◌, [], ◌∷◌, IfOk, OnOk, map};
ghost use Rattle.vhdl_writer.specs.Architecture as spec;

use crate::component::PortSignal;
use crate::names::quoted;
use std::alloc::Global;
use tydi_base::{List, Memory, Text};
use vhdl_text::ArchPort;

/// The ports of an entity with these signals: the clock, the reset, and a port for each signal.
pub(crate) fn entity_ports(alloc: Global, signals: &[PortSignal]) -> Result<List<ArchPort>, Memory>
    ensures { IfOk result (λ ports. ports ≡ spec.entity_ports signals.now) }
{
    let mut ports = List::with_capacity(alloc, signals.len())?;
    ports.push(bit_port(alloc, "clk")?)?;
    ports.push(bit_port(alloc, "rst")?)?;
    add_ports(alloc, signals, &mut ports)?;
    Ok(ports)
}

/// Adds a port for each signal.
fn add_ports(
    alloc: Global,
    signals: &[PortSignal],
    ports: &mut List<ArchPort>,
) -> Result<(), Memory>
    ensures { OnOk result (ports.new ≡ ports.old ++ map spec.entity_port signals.now) }
{
    'signals: for signal in signals {
        ports.push(entity_port(alloc, signal)?)?;
    }
    Ok(())
}

/// The port for a signal.
fn entity_port(alloc: Global, signal: &PortSignal) -> Result<ArchPort, Memory>
    ensures { IfOk result (λ port. port ≡ spec.entity_port signal.now) }
{
    Ok(ArchPort {
        name: quoted(alloc, &signal.name)?,
        outward: signal.outward,
        width: signal.width,
    })
}

/// An input of one bit.
fn bit_port(alloc: Global, name: &str) -> Result<ArchPort, Memory>
    ensures { IfOk result (λ port. port ≡ spec.bit_port name.now) }
{
    Ok(ArchPort {
        name: Text::new(alloc, name)?,
        outward: false,
        width: None,
    })
}
