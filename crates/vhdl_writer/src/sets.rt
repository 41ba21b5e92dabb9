//! The assignments of an architecture.

ghost use Rattle.std.specs.Prelude.{◌≡◌, ◌++◌, IfOk, OnOk};
ghost use Rattle.std.specs.List.{flat_map};
ghost use Rattle.vhdl_writer.specs.Architecture as spec;
ghost use Rattle.vhdl_writer.specs.Components.{where_present};
ghost use Rattle.vhdl_writer.specs.EndStreams.{channel_lent, channels_lent, end_lent};

use crate::defaults::default_word;
use crate::end_stream::{End, EndStream};
use crate::inside::Inside;
use crate::names::{end_name, name_in};
use crate::signals::{all_signals, is_present, is_ready};
use link_check::Net;
use signal_layout::Signal;
use std::alloc::Global;
use tydi_base::{List, Memory, Text};
use vhdl_text::{ArchSet, ArchSource};

/// The assignments for these nets.
pub(crate) fn all_sets<'d>(
    alloc: Global,
    inside: &Inside<'_, 'd>,
    nets: &'d [Net],
) -> Result<List<ArchSet>, Memory>
    ensures { IfOk result (λ sets. sets ≡ flat_map (spec.sets_of_net inside.now.components.now inside.now.home inside.now.instances.now) nets.now) }
{
    let mut sets = List::new(alloc);
    'nets: for net in nets {
        add_net(alloc, inside, net, &mut sets)?;
    }
    Ok(sets)
}

/// Adds the assignments for a net.
fn add_net<'d>(
    alloc: Global,
    inside: &Inside<'_, 'd>,
    net: &'d Net,
    sets: &mut List<ArchSet>,
) -> Result<(), Memory>
    ensures { OnOk result (sets.new ≡ sets.old ++ spec.sets_of_net inside.now.components.now inside.now.home inside.now.instances.now net.now) }
{
    let source = End {
        instance: net.source.instance.as_ref(),
        streams: inside.streams_at(&net.source),
    };
    let sink = End {
        instance: net.sink.instance.as_ref(),
        streams: inside.streams_at(&net.sink),
    };
    add_channels(alloc, &source, &sink, sets)
}

/// Adds the assignments for the streams of two ends, in their order.
fn add_channels(
    alloc: Global,
    source: &End<'_>,
    sink: &End<'_>,
    sets: &mut List<ArchSet>,
) -> Result<(), Memory>
    ensures { OnOk result (sets.new ≡ sets.old ++ flat_map spec.sets_of_channel (channels_lent source.now sink.now)) }
{
    let mut others = sink.streams;
    'streams: for stream in source.streams {
        let Some((other, more)) = others.split_first() else {
            return Ok(());
        };
        let from = EndStream {
            instance: source.instance,
            stream,
        };
        let to = EndStream {
            instance: sink.instance,
            stream: other,
        };
        add_channel(alloc, &from, &to, sets)?;
        others = more;
    }
    Ok(())
}

/// Adds the assignments for a stream, which comes from the sink end of its net where it is reversed.
fn add_channel(
    alloc: Global,
    source: &EndStream<'_>,
    sink: &EndStream<'_>,
    sets: &mut List<ArchSet>,
) -> Result<(), Memory>
    ensures { OnOk result (sets.new ≡ sets.old ++ spec.sets_of_channel (spec.channel_between (end_lent source.now) (end_lent sink.now))) }
{
    if source.stream.reversed {
        add_sets(alloc, sink, source, sets)
    } else {
        add_sets(alloc, source, sink, sets)
    }
}

/// Adds an assignment for each signal of the receiving end.
fn add_sets(
    alloc: Global,
    sending: &EndStream<'_>,
    receiving: &EndStream<'_>,
    sets: &mut List<ArchSet>,
) -> Result<(), Memory>
    ensures { OnOk result (sets.new ≡ sets.old ++ spec.sets_of_channel (channel_lent sending.now receiving.now)) }
{
    'signals: for signal in all_signals() {
        add_set(alloc, sending, receiving, *signal, sets)?;
    }
    Ok(())
}

/// Adds the assignment for a signal, where the receiving end has it.
fn add_set(
    alloc: Global,
    sending: &EndStream<'_>,
    receiving: &EndStream<'_>,
    signal: Signal,
    sets: &mut List<ArchSet>,
) -> Result<(), Memory>
    ensures { OnOk result (sets.new ≡ sets.old ++ where_present receiving.now.stream.now.params (spec.set_of (channel_lent sending.now receiving.now)) signal) }
{
    if is_present(&receiving.stream.params, signal) {
        sets.push(set_of(alloc, sending, receiving, signal)?)?;
    }
    Ok(())
}

/// The assignment for a signal of the receiving end; ready goes the other way.
fn set_of(
    alloc: Global,
    sending: &EndStream<'_>,
    receiving: &EndStream<'_>,
    signal: Signal,
) -> Result<ArchSet, Memory>
    ensures { IfOk result (λ set. set ≡ spec.set_of (channel_lent sending.now receiving.now) signal) }
{
    if is_ready(signal) {
        Ok(ArchSet {
            target: name_at(alloc, sending, signal)?,
            source: ArchSource::Wire(name_at(alloc, receiving, signal)?),
        })
    } else {
        Ok(ArchSet {
            target: name_at(alloc, receiving, signal)?,
            source: source_of(alloc, sending, receiving, signal)?,
        })
    }
}

/// Where a signal of the receiving end comes from: the signal at the sending end, or its default where that lacks it.
fn source_of(
    alloc: Global,
    sending: &EndStream<'_>,
    receiving: &EndStream<'_>,
    signal: Signal,
) -> Result<ArchSource, Memory>
    ensures { IfOk result (λ source. source ≡ spec.source_of (channel_lent sending.now receiving.now) signal) }
{
    if is_present(&sending.stream.params, signal) {
        Ok(ArchSource::Wire(name_at(alloc, sending, signal)?))
    } else {
        let word = default_word(alloc, &receiving.stream.params, signal)?;
        Ok(ArchSource::Constant(word))
    }
}

/// The name of a signal at an end.
fn name_at(alloc: Global, end: &EndStream<'_>, signal: Signal) -> Result<Text, Memory>
    ensures { IfOk result (λ name. name ≡ spec.end_signal (end_lent end.now) signal) }
{
    let name = name_in(alloc, &end.stream.stem, signal)?;
    end_name(alloc, end.instance, &name)
}
