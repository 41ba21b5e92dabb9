//! The laws of nets that texts spell.

ghost use Rattle.net_text.specs.Laws.{CyclesHaveOrders, NetsFit, NetsNeedNoMemory};

/// A net that is read has the stages of each stream, at most 16 and each of capacity 1 to 64, and at most an order for each cycle. Each
/// order, also the one of a cycle past those that the text gives, has each component once and no other number. No text has want of memory
/// as its fault.
pub fn nets_fit()
    ensures fit { NetsFit }
    ensures orders { CyclesHaveOrders }
    ensures memory { NetsNeedNoMemory }
{}
