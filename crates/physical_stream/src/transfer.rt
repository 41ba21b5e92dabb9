ghost use Rattle.std.specs.Prelude.{◌≡◌, ◌-◌, ◌*◌, ◌↔◌, length, IsTrue, IfOk};
ghost use Rattle.physical_stream.specs.Signals.{Fits, zero_transfer};

use crate::params::Params;
use crate::width::{is_index, is_strobe};
use std::alloc::Global;
use tydi_base::{Bits, Memory, TryClone};

/// The payload of one transfer: every signal of a stream but valid and ready (Tydi specification, physical streams).
/// A signal that the stream lacks stands at its default.
#[derive(Debug, Drop)]
pub struct Transfer {
    /// The data signal: the lanes' elements, lane 0 lowest.
    pub content: Bits,
    /// The last bits, lane 0 lowest, dimension 0 lowest in a lane.
    pub last: Bits,
    /// The first lane that may be active.
    pub stai: u16,
    /// The last lane that may be active.
    pub endi: u16,
    /// One bit for each lane, lane 0 lowest.
    pub strb: u128,
    pub user: Bits,
}

impl Transfer {
    /// The transfer of this stream that is zero in every signal but endi, which is the last lane. `Memory` comes where there is
    /// none for its signals.
    pub fn zero(alloc: Global, p: &Params) -> Result<Transfer, Memory>
        ensures value { IfOk result (λ t. t ≡ zero_transfer p.now) }
        ensures fits { IfOk result (Fits p.now) }
    {
        let lanes = usize::from(p.lanes);
        let content = Bits::zeros(alloc, lanes * p.element as usize)?;
        let last = Bits::zeros(alloc, lanes * usize::from(p.dims))?;
        let user = Bits::zeros(alloc, p.user as usize)?;
        Ok(Transfer {
            content,
            last,
            stai: 0,
            endi: p.lanes - 1,
            strb: 0,
            user,
        })
    }

    /// Whether every signal has the width that the stream gives it, whether the stream has the signal or not.
    pub fn fits(&self, p: &Params) -> bool
        ensures { IsTrue result ↔ Fits p.now self.now }
    {
        let lanes = usize::from(p.lanes);
        self.content.len() == lanes * p.element as usize
            && self.last.len() == lanes * usize::from(p.dims)
            && is_index(self.stai, p.lanes)
            && is_index(self.endi, p.lanes)
            && is_strobe(self.strb, p.lanes)
            && self.user.len() == p.user as usize
    }

    /// Becomes a copy of this transfer, whose words are as long as its own, as those of one stream are. It takes no memory.
    pub fn copy_from(&mut self, from: &Transfer)
        requires content { length self.old.content ≡ length from.now.content }
        requires last { length self.old.last ≡ length from.now.last }
        requires user { length self.old.user ≡ length from.now.user }
        ensures { self.new ≡ from.now }
    {
        self.content.copy_from(&from.content);
        self.last.copy_from(&from.last);
        self.stai = from.stai;
        self.endi = from.endi;
        self.strb = from.strb;
        self.user.copy_from(&from.user);
    }

    /// Whether it is the same in stai, endi and strb.
    #[inline(always)]
    fn has_numbers_of(&self, other: &Transfer) -> bool
        ensures { IsTrue result ↔ (self.now.stai ≡ other.now.stai) × ((self.now.endi ≡ other.now.endi) × (self.now.strb ≡ other.now.strb)) }
    {
        self.stai == other.stai && self.endi == other.endi && self.strb == other.strb
    }

    /// Whether it is the same in every signal.
    pub fn equals(&self, other: &Transfer) -> bool
        ensures { IsTrue result ↔ (self.now ≡ other.now) }
    {
        self.has_numbers_of(other)
            && self.content == other.content
            && self.last == other.last
            && self.user == other.user
    }
}

impl TryClone for Transfer {
    fn try_clone(&self, alloc: Global) -> Result<Transfer, Memory> {
        Ok(Transfer {
            content: self.content.try_clone(alloc)?,
            last: self.last.try_clone(alloc)?,
            stai: self.stai,
            endi: self.endi,
            strb: self.strb,
            user: self.user.try_clone(alloc)?,
        })
    }
}
