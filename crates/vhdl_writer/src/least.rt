//! How many bytes the text of an architecture has at least, in either language. It is counted before any of the text is made, so that a
//! design that is too long takes no memory.

ghost use Rattle.std.specs.Prelude.{◌≡◌, ◌+◌, ◌<◌, ◌≤◌, nat_lt, min};
ghost use Rattle.tydi_base.specs.Lengths.{most_bytes};
ghost use Rattle.vhdl_writer.specs.Least as spec;
ghost use Rattle.vhdl_writer.specs.Least.{IsCount};

use crate::component::{Component, PortSignal};
use crate::instances::signals_at;
use til_resolve::Instance;
use tydi_base::Name;

/// Whether the lines for the signals of these instances have more than so many bytes at least.
pub(crate) fn is_over(components: &[Component], instances: &[Instance], limit: u64) -> bool
    requires { limit < most_bytes }
    ensures { result ≡ nat_lt limit (spec.least_of_instances components.now instances.now) }
{
    count_instances(components, instances, limit).is_none()
}

/// The least bytes of the lines for the signals of these instances.
fn count_instances(components: &[Component], instances: &[Instance], limit: u64) -> Option<u64>
    requires { limit < most_bytes }
    ensures { IsCount limit (spec.least_of_instances components.now instances.now) result }
{
    let mut count: u64 = 0;
    'instances: for one in instances {
        let signals = signals_at(components, one.streamlet as usize);
        count = count_signals(count, &one.name, signals, limit)?;
    }
    Some(count)
}

/// The same with those of one instance more, which has these signals.
fn count_signals(before: u64, instance: &Name, signals: &[PortSignal], limit: u64) -> Option<u64>
    requires before { before ≤ limit }
    requires limit { limit < most_bytes }
    ensures { IsCount limit (before + spec.least_of_signals instance.now signals.now) result }
{
    let mut count = before;
    'signals: for signal in signals {
        count = added(count, least_of_signal(instance, signal), limit)?;
    }
    Some(count)
}

/// The least bytes of the two lines for a signal of an instance; `u64::MAX` where they are more.
fn least_of_signal(instance: &Name, signal: &PortSignal) -> u64
    ensures { result ≡ min (spec.least_of_signal instance.now signal.now) most_bytes }
{
    let instance = instance.as_bytes().len() as u64;
    let name = signal.name.as_bytes().len() as u64;
    instance
        .saturating_mul(2)
        .saturating_add(name.saturating_mul(3))
        .saturating_add(24)
}

/// A sum within the limit.
fn added(count: u64, more: u64, limit: u64) -> Option<u64>
    requires { limit < most_bytes }
    ensures { IsCount limit (count + more) result }
{
    let sum = count.checked_add(more)?;
    if sum > limit {
        return None;
    }
    Some(sum)
}
