//! The signals of the physical streams of a port.

ghost use Rattle.std.specs.Prelude.{◌≡◌, ◌++◌, IfOk, OnOk};
ghost use Rattle.std.specs.List.{flat_map};
ghost use Rattle.signal_layout.specs.Layout.{is_present, bits_of_signal};
ghost use Rattle.vhdl_writer.specs.Components as spec;

use crate::component::{PortSignal, PortStream, SplitPort};
use crate::names::name_in;
use physical_stream::Params;
use signal_layout::{Signal, Signals};
use std::alloc::Global;
use tydi_base::{List, Memory, index_width};

/// The signals of a physical stream, in the order of the specification.
pub(crate) fn all_signals() -> &'static [Signal]
    ensures { result.now ≡ spec.all_signals }
{
    &[
        Signal::Valid,
        Signal::Ready,
        Signal::Content,
        Signal::Last,
        Signal::Stai,
        Signal::Endi,
        Signal::Strb,
        Signal::User,
    ]
}

/// Whether a stream has this signal.
pub(crate) fn is_present(params: &Params, signal: Signal) -> bool
    ensures { result ≡ is_present params.now signal }
{
    Signals::of(params).width(signal).is_some()
}

/// Whether it is ready, which flows against its stream.
pub(crate) fn is_ready(signal: Signal) -> bool
    ensures { result ≡ spec.is_ready signal }
{
    match signal {
        Signal::Ready => true,
        Signal::Valid
        | Signal::Content
        | Signal::Last
        | Signal::Stai
        | Signal::Endi
        | Signal::Strb
        | Signal::User => false,
    }
}

/// All signals of ports.
pub(crate) fn signals_of_ports(
    alloc: Global,
    ports: &[SplitPort],
) -> Result<List<PortSignal>, Memory>
    ensures { IfOk result (λ signals. signals ≡ flat_map spec.signals_of_port ports.now) }
{
    let mut signals = List::new(alloc);
    'ports: for port in ports {
        add_port(alloc, port, &mut signals)?;
    }
    Ok(signals)
}

/// Adds the signals of a port.
fn add_port(alloc: Global, port: &SplitPort, signals: &mut List<PortSignal>) -> Result<(), Memory>
    ensures { OnOk result (signals.new ≡ signals.old ++ spec.signals_of_port port.now) }
{
    'streams: for stream in port.streams.as_slice() {
        add_stream(alloc, port.inward, stream, signals)?;
    }
    Ok(())
}

/// Adds the signals of a physical stream of a port.
fn add_stream(
    alloc: Global,
    inward: bool,
    stream: &PortStream,
    signals: &mut List<PortSignal>,
) -> Result<(), Memory>
    ensures { OnOk result (signals.new ≡ signals.old ++ spec.signals_of_stream inward stream.now) }
{
    'signals: for signal in all_signals() {
        add_signal(alloc, inward, stream, *signal, signals)?;
    }
    Ok(())
}

/// Adds a signal of a physical stream of a port, where the stream has it.
fn add_signal(
    alloc: Global,
    inward: bool,
    stream: &PortStream,
    signal: Signal,
    signals: &mut List<PortSignal>,
) -> Result<(), Memory>
    ensures { OnOk result (signals.new ≡ signals.old ++ spec.where_present stream.now.params (spec.signal_of inward stream.now) signal) }
{
    if is_present(&stream.params, signal) {
        signals.push(signal_of(alloc, inward, stream, signal)?)?;
    }
    Ok(())
}

/// A signal of a physical stream of a port.
fn signal_of(
    alloc: Global,
    inward: bool,
    stream: &PortStream,
    signal: Signal,
) -> Result<PortSignal, Memory>
    ensures { IfOk result (λ made. made ≡ spec.signal_of inward stream.now signal) }
{
    Ok(PortSignal {
        name: name_in(alloc, &stream.stem, signal)?,
        outward: flows_out(inward, stream.reversed, signal),
        width: vector_width(&stream.params, signal),
    })
}

/// Whether a signal flows out of its component.
fn flows_out(inward: bool, reversed: bool, signal: Signal) -> bool
    ensures { result ≡ spec.flows_out inward reversed signal }
{
    (inward == reversed) != is_ready(signal)
}

/// The width of the vector that a signal of a stream is; valid and ready are one bit each, and no vectors.
fn vector_width(params: &Params, signal: Signal) -> Option<u32>
    ensures { result ≡ spec.vector_width params.now signal }
{
    match signal {
        Signal::Valid | Signal::Ready => None,
        Signal::Content
        | Signal::Last
        | Signal::Stai
        | Signal::Endi
        | Signal::Strb
        | Signal::User => Some(width_of(params, signal)),
    }
}

/// The bits that a signal of a stream has where the stream has it.
pub(crate) fn width_of(params: &Params, signal: Signal) -> u32
    ensures { result ≡ bits_of_signal params.now signal }
{
    let lanes = u32::from(params.lanes);
    match signal {
        Signal::Valid | Signal::Ready => 1,
        Signal::Content => lanes * params.element,
        Signal::Last => lanes * u32::from(params.dims),
        Signal::Stai | Signal::Endi => index_width(u64::from(params.lanes)),
        Signal::Strb => lanes,
        Signal::User => params.user,
    }
}
