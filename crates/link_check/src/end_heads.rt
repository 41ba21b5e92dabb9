//! The heads of a trace at the two ends of a chain of nets.

ghost use Rattle.std.specs.Prelude.{◌≡◌, ◌++◌, ◌∷◌, [], map, false, IfOk, OnOk};
ghost use Rattle.logical_types.specs.Tree.{Ltype};
ghost use Rattle.link_check.specs.Carriers.{AreBetween, CanRise};
ghost use Rattle.link_check.specs.Carry as spec;
ghost use Rattle.link_check.specs.Carry.{head_from, head_to, heads_of_port};
ghost use Rattle.link_check.specs.Compatible.{Compatible};

use physical_stream::Head;
use std::alloc::Global;
use tydi_base::{List, Memory, TryClone};
use type_split::Phys;

/// The heads of the streams between two ports: where their data comes from, and where it arrives. A reversed stream comes from the sink.
#[derive(Drop)]
pub struct EndHeads {
    pub from: List<Head>,
    pub to: List<Head>,
}

/// The heads of a trace from a port with the one list of streams to a port with the other. Between compatible ports they are alike, and no
/// level falls.
pub fn heads_between(alloc: Global, source: &[Phys], sink: &[Phys]) -> Result<EndHeads, Memory>
    ensures heads { IfOk result (AreBetween (map spec.head_of_stream source.now) (map spec.head_of_stream sink.now)) }
    ensures rise { IfOk result (λ heads. (one other : Ltype) → map spec.head_of_stream source.now ≡ heads_of_port one → map spec.head_of_stream sink.now ≡ heads_of_port other
        → Compatible false one other → CanRise heads.from heads.to) }
{
    let mut heads = EndHeads {
        from: List::new(alloc),
        to: List::new(alloc),
    };
    'streams: for (one, other) in source.iter().zip(sink) {
        heads.add(alloc, one, other)?;
    }
    Ok(heads)
}

impl EndHeads {
    /// Adds a stream of the source, and the same at the sink.
    fn add(&mut self, alloc: Global, source: &Phys, sink: &Phys) -> Result<(), Memory>
        ensures from { OnOk result (self.new.from ≡ self.old.from ++ head_from (spec.head_of_stream source.now) (spec.head_of_stream sink.now) ∷ []) }
        ensures to { OnOk result (self.new.to ≡ self.old.to ++ head_to (spec.head_of_stream source.now) (spec.head_of_stream sink.now) ∷ []) }
    {
        if source.reversed {
            self.push(alloc, sink, source)
        } else {
            self.push(alloc, source, sink)
        }
    }

    /// Adds a stream that comes from the one and arrives at the other.
    fn push(&mut self, alloc: Global, from: &Phys, to: &Phys) -> Result<(), Memory>
        ensures from { OnOk result (self.new.from ≡ self.old.from ++ spec.head_of_stream from.now ∷ []) }
        ensures to { OnOk result (self.new.to ≡ self.old.to ++ spec.head_of_stream to.now ∷ []) }
    {
        self.from.push(head_of_stream(alloc, from)?)?;
        self.to.push(head_of_stream(alloc, to)?)
    }
}

/// The head of a physical stream.
fn head_of_stream(alloc: Global, stream: &Phys) -> Result<Head, Memory>
    ensures { IfOk result (λ head. head ≡ spec.head_of_stream stream.now) }
{
    Ok(Head {
        path: stream.path.try_clone(alloc)?,
        params: stream.params,
        reversed: stream.reversed,
    })
}
