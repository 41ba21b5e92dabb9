//! The instances of an architecture, and the signals that are tied to their ports.

ghost use Rattle.std.specs.Prelude.{◌≡◌, ◌++◌, IfOk, OnOk, map, slice_get};
ghost use Rattle.std.specs.List.{flat_map};
ghost use Rattle.til_resolve.specs.PlainProject.{plain_streamlet};
ghost use Rattle.vhdl_writer.specs.Architecture as spec;

use crate::component::{Component, PortSignal};
use crate::names::{quoted, wire_name};
use std::alloc::Global;
use til_resolve::{Instance, Streamlet};
use tydi_base::{List, Memory, Name, Path, Text, TryClone};
use vhdl_text::{ArchMap, ArchPart, ArchWire};

/// The signals of the component of a number.
pub(crate) fn signals_at(components: &[Component], number: usize) -> &[PortSignal]
    ensures { result.now ≡ spec.signals_at components.now number }
{
    match components.get(number) {
        Some(component) => component.signals.as_slice(),
        None => &[],
    }
}

/// A signal for each signal of each of these instances.
pub(crate) fn all_wires(
    alloc: Global,
    components: &[Component],
    instances: &[Instance],
) -> Result<List<ArchWire>, Memory>
    ensures { IfOk result (λ wires. wires ≡ flat_map (spec.wires_of components.now) instances.now) }
{
    let mut wires = List::new(alloc);
    'instances: for one in instances {
        let signals = signals_at(components, one.streamlet as usize);
        add_wires(alloc, &one.name, signals, &mut wires)?;
    }
    Ok(wires)
}

/// Adds a signal for each of these signals of an instance.
fn add_wires(
    alloc: Global,
    instance: &Name,
    signals: &[PortSignal],
    wires: &mut List<ArchWire>,
) -> Result<(), Memory>
    ensures { OnOk result (wires.new ≡ wires.old ++ map (spec.wire_of instance.now) signals.now) }
{
    'signals: for signal in signals {
        wires.push(wire_of(alloc, instance, signal)?)?;
    }
    Ok(())
}

/// The signal of an architecture that is tied to a signal of an instance.
fn wire_of(alloc: Global, instance: &Name, signal: &PortSignal) -> Result<ArchWire, Memory>
    ensures { IfOk result (λ wire. wire ≡ spec.wire_of instance.now signal.now) }
{
    Ok(ArchWire {
        name: wire_name(alloc, instance, &signal.name)?,
        width: signal.width,
    })
}

/// These instances, with their port maps.
pub(crate) fn all_parts(
    alloc: Global,
    streamlets: &[Streamlet],
    components: &[Component],
    instances: &[Instance],
) -> Result<List<ArchPart>, Memory>
    ensures { IfOk result (λ parts. parts ≡ map (spec.part_of (map plain_streamlet streamlets.now) components.now) instances.now) }
{
    let mut parts = List::new(alloc);
    'instances: for one in instances {
        parts.push(part_of(alloc, streamlets, components, one)?)?;
    }
    Ok(parts)
}

/// An instance, with its port map.
fn part_of(
    alloc: Global,
    streamlets: &[Streamlet],
    components: &[Component],
    one: &Instance,
) -> Result<ArchPart, Memory>
    ensures { IfOk result (λ part. part ≡ spec.part_of (map plain_streamlet streamlets.now) components.now one.now) }
{
    let number = one.streamlet as usize;
    Ok(ArchPart {
        name: one.name.try_clone(alloc)?,
        entity: path_at(alloc, streamlets, number)?,
        maps: maps_of(alloc, &one.name, signals_at(components, number))?,
    })
}

/// The path of the streamlet of a number; the empty path where there is none.
fn path_at(alloc: Global, streamlets: &[Streamlet], number: usize) -> Result<Path, Memory>
    ensures { IfOk result (λ path. path ≡ spec.path_at (map plain_streamlet streamlets.now) number) }
{
    match streamlets.get(number) {
        Some(streamlet) => streamlet.path.try_clone(alloc),
        None => Ok(Path::new(alloc)),
    }
}

/// The port map of an instance with these signals: the clock, the reset, and each signal.
fn maps_of(alloc: Global, instance: &Name, signals: &[PortSignal]) -> Result<List<ArchMap>, Memory>
    ensures { IfOk result (λ maps. maps ≡ spec.maps_of instance.now signals.now) }
{
    let mut maps = List::with_capacity(alloc, signals.len())?;
    maps.push(through(alloc, "clk")?)?;
    maps.push(through(alloc, "rst")?)?;
    add_maps(alloc, instance, signals, &mut maps)?;
    Ok(maps)
}

/// Adds each of these signals of an instance.
fn add_maps(
    alloc: Global,
    instance: &Name,
    signals: &[PortSignal],
    maps: &mut List<ArchMap>,
) -> Result<(), Memory>
    ensures { OnOk result (maps.new ≡ maps.old ++ map (spec.map_of instance.now) signals.now) }
{
    'signals: for signal in signals {
        maps.push(map_of(alloc, instance, signal)?)?;
    }
    Ok(())
}

/// A signal of an instance, tied to the signal that is named after it.
fn map_of(alloc: Global, instance: &Name, signal: &PortSignal) -> Result<ArchMap, Memory>
    ensures { IfOk result (λ one. one ≡ spec.map_of instance.now signal.now) }
{
    Ok(ArchMap {
        port: quoted(alloc, &signal.name)?,
        wire: wire_name(alloc, instance, &signal.name)?,
    })
}

/// A port of an instance that is tied to the port of the same name around it.
fn through(alloc: Global, name: &str) -> Result<ArchMap, Memory>
    ensures { IfOk result (λ one. one ≡ spec.through name.now) }
{
    Ok(ArchMap {
        port: Text::new(alloc, name)?,
        wire: Text::new(alloc, name)?,
    })
}
