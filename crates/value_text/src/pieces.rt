ghost use Rattle.std.specs.Prelude.{◌≡◌, ◌<◌, ◌++◌, length, IfOk, OnOk};
ghost use Rattle.type_split.specs.Streams.{plain_split};
ghost use Rattle.logical_value.specs.Tree.{plain_port};
ghost use Rattle.value_text.specs.Canonical.{canonical};
ghost use Rattle.value_text.specs.Pieces.{text_left};

use crate::filling::fill;
use crate::items::Items;
use crate::pending::Pending;
use crate::starting::start;
use logical_value::PortValue;
use std::alloc::Global;
use tydi_base::{Bits, List, Memory};
use type_split::Split;

/// The rest of the canonical text of a value, which is made piece by piece. It owns the value, and lets go of each list when it is written.
#[derive(Drop)]
pub struct ValuePieces {
    left: List<Pending<'static>>,
}

impl ValuePieces {
    /// The whole canonical text of a value of the port's type that was split, with the user words of the transfers of each stream.
    /// `Memory` comes where there is none for the heads of its lines.
    pub fn new(
        alloc: Global,
        value: PortValue,
        split: &Split<'_>,
        users: List<List<Bits>>,
    ) -> Result<ValuePieces, Memory>
        ensures { IfOk result (λ pieces. text_left pieces ≡ canonical (plain_split split.now) (plain_port value) users) }
    {
        let PortValue { roots } = value;
        let left = start(alloc, split, Items::own(roots), Items::own(users))?;
        Ok(ValuePieces { left })
    }

    /// Makes the next piece, in the room of the last one. It is empty exactly where nothing is left. A piece ends with the first word, block
    /// of words, name or mark that brings it to 65,536 bytes. After `Memory` the text cannot go on.
    pub fn next(&mut self, alloc: Global, piece: &mut List<u8>) -> Result<(), Memory>
        ensures made { OnOk result (text_left self.old ≡ piece.new ++ text_left self.new) }
        ensures some { OnOk result (0 < length (text_left self.old) → 0 < length piece.new) }
    {
        piece.truncate(0);
        fill(alloc, &mut self.left, piece)
    }
}
