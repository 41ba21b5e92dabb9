//! The ports of streamlets, split into physical streams.

ghost use Rattle.std.specs.Prelude.{◌≡◌, map, All, IfOk};
ghost use Rattle.til_resolve.specs.PlainProject.{PlainPort, PlainStreamlet, plain_port, plain_streamlet};
ghost use Rattle.til_resolve.specs.PortTypes.{IsPortType};
ghost use Rattle.vhdl_writer.specs.Clashes.{Splits, clash_in, first_clash};
ghost use Rattle.vhdl_writer.specs.Clashing.{HavePortTypes};
ghost use Rattle.vhdl_writer.specs.Components as spec;
ghost use Rattle.type_split.specs.Streams.{clash_of};

use crate::component::{Component, PortStream, SplitPort};
use crate::fault::ArchFault;
use crate::names::stem_of;
use crate::signals::signals_of_ports;
use std::alloc::Global;
use til_resolve::{Port, Streamlet};
use tydi_base::{List, Memory, Name, TryClone};
use type_split::{Phys, SplitFault, split_type};

/// The components of streamlets, or the path of the first clash.
pub(crate) fn components_of(
    alloc: Global,
    streamlets: &[Streamlet],
) -> Result<List<Component>, ArchFault>
    requires { All (λ (one : PlainStreamlet). HavePortTypes one.ports) (map plain_streamlet streamlets.now) }
    ensures { Splits (first_clash (map plain_streamlet streamlets.now)) (λ components. components ≡ map spec.component_of (map plain_streamlet streamlets.now)) result }
{
    let mut components = List::new(alloc);
    'streamlets: for streamlet in streamlets {
        components.push(component_of(alloc, streamlet.ports.as_slice())?)?;
    }
    Ok(components)
}

/// The component of these ports, or the path of the first clash.
fn component_of(alloc: Global, ports: &[Port]) -> Result<Component, ArchFault>
    requires { HavePortTypes (map plain_port ports.now) }
    ensures { Splits (clash_in (map plain_port ports.now)) (λ component. component ≡ spec.component_with (map spec.port_of (map plain_port ports.now))) result }
{
    let ports = split_ports(alloc, ports)?;
    let signals = signals_of_ports(alloc, ports.as_slice())?;
    Ok(Component { ports, signals })
}

/// Ports with their physical streams, or the path of the first clash.
fn split_ports(alloc: Global, ports: &[Port]) -> Result<List<SplitPort>, ArchFault>
    requires { HavePortTypes (map plain_port ports.now) }
    ensures { Splits (clash_in (map plain_port ports.now)) (λ split. split ≡ map spec.port_of (map plain_port ports.now)) result }
{
    let mut split = List::new(alloc);
    'ports: for port in ports {
        split.push(split_port(alloc, port)?)?;
    }
    Ok(split)
}

/// A port with its physical streams, or the path on which two of them clash.
fn split_port(alloc: Global, port: &Port) -> Result<SplitPort, ArchFault>
    requires { IsPortType (plain_port port.now).ltype }
    ensures { Splits (clash_of (plain_port port.now).ltype) (λ split. split ≡ spec.port_of (plain_port port.now)) result }
{
    match split_type(alloc, &port.ltype) {
        Ok(split) => Ok(port_with(alloc, port, split.streams.as_slice())?),
        Err(SplitFault::NameClash(path)) => Err(ArchFault::NameClash(path)),
        Err(SplitFault::Memory) => Err(ArchFault::Memory),
    }
}

/// A port with these physical streams.
fn port_with(alloc: Global, port: &Port, streams: &[Phys]) -> Result<SplitPort, Memory>
    ensures { IfOk result (λ split. split ≡ spec.port_with (plain_port port.now) streams.now) }
{
    Ok(SplitPort {
        name: port.name.try_clone(alloc)?,
        inward: port.inward,
        streams: streams_of(alloc, &port.name, streams)?,
    })
}

/// The physical streams of the port of this name, with the fronts of their signals' names.
fn streams_of(alloc: Global, port: &Name, streams: &[Phys]) -> Result<List<PortStream>, Memory>
    ensures { IfOk result (λ made. made ≡ map (spec.stream_of port.now) streams.now) }
{
    let mut made = List::new(alloc);
    'streams: for stream in streams {
        made.push(stream_of(alloc, port, stream)?)?;
    }
    Ok(made)
}

/// A physical stream of the port of this name.
fn stream_of(alloc: Global, port: &Name, stream: &Phys) -> Result<PortStream, Memory>
    ensures { IfOk result (λ made. made ≡ spec.stream_of port.now stream.now) }
{
    Ok(PortStream {
        stem: stem_of(alloc, port, &stream.path)?,
        params: stream.params,
        reversed: stream.reversed,
    })
}
