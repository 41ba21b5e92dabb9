//! The codes of a dump, each with its value.

ghost use Rattle.std.specs.Prelude.{◌≡◌, ◌<◌, true, false, ◌∷◌, [], ℕ, List, length, Some, IfOk, OnOk, IfSome, slice_get, option_map};
ghost use Rattle.vcd_read.specs.History.{Changes, Declares, Part, Stamps, declared_width, is_same_time, known, time_of};
ghost use Rattle.vcd_read.specs.Profile.{may_have_width};
ghost use Rattle.vcd_read.specs.Numbers.{KeepsNumbers, number_of};
ghost use Rattle.vcd_read.specs.Wires.{IsWide, StandFor, before_of, current_of, has_room, is_one, width_in, width_or_none};
ghost use Rattle.vcd_read.specs.declared.state.State.{State};

use crate::texts::Texts;
use crate::wire::Wire;
use std::alloc::Global;
use tydi_base::{Bits, List, Memory};

/// The codes that are declared, each with its value now and before the block.
#[derive(Drop)]
pub(crate) struct Wires {
    pub(crate) codes: Texts,
    pub(crate) wires: List<Wire>,
    /// The number of the block: it grows from block to block.
    pub(crate) block: u64,
}

impl Wires {
    /// No codes.
    pub(crate) fn new(alloc: Global) -> Wires
        ensures stands { StandFor result [] }
        ensures block { result.block ≡ 0 }
        ensures none { result.codes ≡ [] }
    {
        Wires {
            codes: Texts::new(alloc),
            wires: List::new(alloc),
            block: 0,
        }
    }

    /// The number of a code. None exactly where it is not declared.
    #[inline(always)]
    pub(crate) fn number(&self, code: &[u8]) -> Option<usize>
        ensures { result ≡ number_of self.now.codes code.now }
    {
        self.codes.number(code)
    }

    /// Whether a code may have this width: it is not declared, or with this width.
    pub(crate) fn may_have_width(&self, code: &[u8], width: u64) -> bool
        ensures { (parts : List Part) → StandFor self.now parts → result ≡ may_have_width (declared_width code.now parts) width }
    {
        match self.codes.number(code) {
            Some(number) => self.has_width(number, width),
            None => true,
        }
    }

    /// Declares a code with this width, with which it may be declared before. Its number is the answer.
    pub(crate) fn declare(
        &mut self,
        alloc: Global,
        width: u64,
        code: &[u8],
    ) -> Result<usize, Memory>
        requires { length self.old.wires ≡ length self.old.codes }
        ensures number { IfOk result (λ number. number_of self.new.codes code.now ≡ Some number) }
        ensures keeps { OnOk result (KeepsNumbers self.old.codes self.new.codes) }
        ensures block { self.new.block ≡ self.old.block }
        ensures stands { OnOk result ((parts : List Part) (name : List ℕ) → StandFor self.old parts
            → may_have_width (declared_width code.now parts) width ≡ true
            → StandFor self.new (Declares width code.now name ∷ parts)) }
    {
        if let Some(number) = self.codes.number(code) {
            return Ok(number);
        }
        let number = self.wires.len();
        self.codes.push(alloc, code)?;
        self.wires.push(Wire::new(width))?;
        Ok(number)
    }

    /// A block begins, of this number.
    pub(crate) fn begin_block(&mut self, block: u64)
        requires { self.old.block < block }
        ensures block { self.new.block ≡ block }
        ensures codes { self.new.codes ≡ self.old.codes }
        ensures stands { (parts : List Part) (offset time : ℕ) → StandFor self.old parts → is_same_time (time_of parts) time ≡ false
            → StandFor self.new (Stamps offset time ∷ parts) }
    {
        self.block = block;
    }

    /// The code of this number changes to this word, which has its width.
    #[inline(always)]
    pub(crate) fn change(&mut self, number: usize, word: Option<Bits>)
        requires within { number < length self.old.wires }
        ensures block { self.new.block ≡ self.old.block }
        ensures codes { self.new.codes ≡ self.old.codes }
        ensures stands { (parts : List Part) (code : List ℕ) (states : List State) → StandFor self.old parts → number_of self.old.codes code ≡ Some number
            → IfSome (declared_width code parts) (λ width. IsWide width word) → word ≡ known (Some states) → StandFor self.new (Changes code states ∷ parts) }
    {
        let block = self.block;
        if let Some(wire) = self.wires.get_mut(number) {
            wire.change(block, word);
        }
    }

    /// The width of the code of this number.
    pub(crate) fn width(&self, number: usize) -> u64
        ensures { result ≡ width_or_none (width_in (slice_get self.now.wires number)) }
    {
        match self.wires.get(number) {
            Some(wire) => wire.width,
            None => 0,
        }
    }

    /// Whether the code of this number has so many bits.
    pub(crate) fn has_room(&self, number: usize, count: u64) -> bool
        ensures { result ≡ has_room (width_in (slice_get self.now.wires number)) count }
    {
        match self.wires.get(number) {
            Some(wire) => count <= wire.width,
            None => false,
        }
    }

    /// Whether the code of this number has this width.
    pub(crate) fn has_width(&self, number: usize, width: u64) -> bool
        ensures { result ≡ may_have_width (width_in (slice_get self.now.wires number)) width }
    {
        match self.wires.get(number) {
            Some(wire) => wire.width == width,
            None => true,
        }
    }

    /// Whether the code of this number has one bit.
    #[inline(always)]
    pub(crate) fn is_scalar(&self, number: usize) -> bool
        ensures { result ≡ is_one (width_in (slice_get self.now.wires number)) }
    {
        match self.wires.get(number) {
            Some(wire) => wire.width == 1,
            None => false,
        }
    }

    /// The word of the code of this number before the block.
    #[inline(always)]
    pub(crate) fn before(&self, number: usize) -> Option<&Bits>
        ensures { option_map (λ bits. bits.now) result ≡ before_of (slice_get self.now.wires number) self.now.block }
    {
        match self.wires.get(number) {
            Some(wire) => wire.before(self.block),
            None => None,
        }
    }

    /// The word of the code of this number now.
    #[inline(always)]
    pub(crate) fn now(&self, number: usize) -> Option<&Bits>
        ensures { option_map (λ bits. bits.now) result ≡ current_of (slice_get self.now.wires number) }
    {
        match self.wires.get(number) {
            Some(wire) => wire.now(),
            None => None,
        }
    }
}
