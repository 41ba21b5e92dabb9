//! One stream of a trace as it is kept: the series of its items, and its user words.

ghost use Rattle.std.specs.Prelude.{◌≡◌, ℕ, ◌<◌, ◌++◌, ◌∷◌, [], true, if◌then◌else◌, List, Option, IfOk, OnOk, IfSome, MatchBool};
ghost use Rattle.std.specs.List.{All};
ghost use Rattle.logical_types.specs.Tree.{plain};
ghost use Rattle.nest_shape.specs.Building.{MayTakeClose, dims_of};
ghost use Rattle.nest_shape.specs.Shape.{AreWhole, IsSeriesOf};
ghost use Rattle.physical_stream.specs.Cycles.{Cycle, StreamTrace, cycle_in};
ghost use Rattle.physical_stream.specs.Items.{items_of, lane_closes, lane_items, lane_word, last_bit};
ghost use Rattle.physical_stream.specs.Signals.{Fits};
ghost use Rattle.physical_stream.specs.Shape.{IsNested};
ghost use Rattle.physical_stream.specs.declared.item.Item.{Item};
ghost use Rattle.physical_stream.specs.declared.item.Item.TheVariants.{Close, Elem};
ghost use Rattle.trace_decode.specs.Keeping.{Builds, CanShow, HasDims, IsElementOf, KeepsStream, KeepsUser, Takes, are_named, are_named_in, lane_element};
ghost use Rattle.trace_decode.specs.Tagged.{has_tags};

use crate::tags::word_has_names;
use logical_types::LType;
use logical_value::names_variants;
use nest_shape::{Builder, Nest};
use physical_stream::{Params, Row, Transfer, is_active, is_last, lane_word};
use std::alloc::Global;
use tydi_base::{Bits, List, Memory, TryClone};

/// The state that is kept of one stream.
#[derive(Drop)]
pub(crate) struct StreamKept {
    /// The series of the items done. None from the first item on that may not stand where it does.
    pub(crate) builder: Option<Builder>,
    /// The user word of each transfer done. There are none where the stream has no bits for them.
    pub(crate) users: List<Bits>,
}

impl StreamKept {
    /// The state of a stream before its first cycle.
    pub(crate) fn new(alloc: Global, p: &Params) -> StreamKept
        ensures { KeepsStream (record { params = p.now; cycles = [] }) result }
    {
        let _numbers = p.level.numbers();
        StreamKept {
            builder: Some(Builder::new(alloc, p.dims)),
            users: List::new(alloc),
        }
    }

    /// Takes the next cycle. False exactly where a tag that is read in it names no variant.
    #[inline(always)]
    pub(crate) fn see(
        &mut self,
        alloc: Global,
        element: &LType,
        p: &Params,
        tagged: bool,
        row: Row<'_>,
    ) -> Result<bool, Memory>
        requires of { IsElementOf (plain element.now) p.now }
        requires tagged { tagged ≡ has_tags (plain element.now) }
        requires shown { CanShow p.now (cycle_in row) }
        requires dims { HasDims p.now.dims self.old.builder }
        ensures kept { (cycles : List Cycle) → KeepsStream (record { params = p.now; cycles = cycles }) self.old
            → OnOk result (KeepsStream (record { params = p.now; cycles = cycles ++ cycle_in row.entry ∷ [] }) self.new) }
        ensures named { IfOk result (λ named. named ≡ are_named_in (plain element.now) p.now (cycle_in row.entry)) }
    {
        match row.shown {
            Some(transfer) => self.see_shown(alloc, element, p, tagged, transfer, row.ready),
            None => Ok(true),
        }
    }

    /// Takes a cycle that shows this transfer.
    fn see_shown(
        &mut self,
        alloc: Global,
        element: &LType,
        p: &Params,
        tagged: bool,
        transfer: &Transfer,
        ready: bool,
    ) -> Result<bool, Memory>
        requires of { IsElementOf (plain element.now) p.now }
        requires tagged { tagged ≡ has_tags (plain element.now) }
        requires fits { Fits p.now transfer.now }
        requires dims { HasDims p.now.dims self.old.builder }
        ensures kept { (cycles : List Cycle) → KeepsStream (record { params = p.now; cycles = cycles }) self.old
            → OnOk result (KeepsStream (record { params = p.now; cycles = cycles ++ record { ready = ready; shown = Option.Some transfer.now } ∷ [] }) self.new) }
        ensures named { IfOk result (λ named. named ≡ are_named (plain element.now) (items_of p.now transfer.now)) }
    {
        if !ready {
            return has_names(alloc, element, p, tagged, transfer);
        }
        self.keep_user(alloc, p, transfer)?;
        self.take(alloc, element, p, tagged, transfer)
    }

    /// Keeps the user word of a transfer that is done, where the stream has bits for it.
    fn keep_user(&mut self, alloc: Global, p: &Params, transfer: &Transfer) -> Result<(), Memory>
        ensures { OnOk result (KeepsUser p.now transfer.now self.old self.new) }
    {
        if p.user == 0 {
            return Ok(());
        }
        let user = transfer.user.try_clone(alloc)?;
        self.users.push(user)
    }

    /// Takes the items of a transfer that is done. False exactly where a tag that is read in them names no variant.
    fn take(
        &mut self,
        alloc: Global,
        element: &LType,
        p: &Params,
        tagged: bool,
        transfer: &Transfer,
    ) -> Result<bool, Memory>
        requires of { IsElementOf (plain element.now) p.now }
        requires tagged { tagged ≡ has_tags (plain element.now) }
        requires fits { Fits p.now transfer.now }
        requires dims { HasDims p.now.dims self.old.builder }
        ensures taken { OnOk result (Takes (items_of p.now transfer.now) self.old self.new) }
        ensures named { IfOk result (λ named. named ≡ are_named (plain element.now) (items_of p.now transfer.now)) }
    {
        let mut named = true;
        'lanes: for lane in 0..p.lanes {
            named &= self.take_lane(alloc, element, p, tagged, transfer, lane)?;
        }
        Ok(named)
    }

    /// Takes the items of this lane.
    fn take_lane(
        &mut self,
        alloc: Global,
        element: &LType,
        p: &Params,
        tagged: bool,
        transfer: &Transfer,
        lane: u16,
    ) -> Result<bool, Memory>
        requires of { IsElementOf (plain element.now) p.now }
        requires tagged { tagged ≡ has_tags (plain element.now) }
        requires fits { Fits p.now transfer.now }
        requires within { lane < p.now.lanes }
        requires numbered { lane < 128 }
        requires dims { HasDims p.now.dims self.old.builder }
        ensures taken { OnOk result (Takes (lane_items p.now transfer.now lane) self.old self.new) }
        ensures named { IfOk result (λ named. named ≡ are_named (plain element.now) (lane_items p.now transfer.now lane)) }
    {
        let named = self.take_element(alloc, element, p, tagged, transfer, lane)?;
        self.take_closes(p, transfer, lane)?;
        Ok(named)
    }

    /// Takes the element of this lane, where it is active.
    fn take_element(
        &mut self,
        alloc: Global,
        element: &LType,
        p: &Params,
        tagged: bool,
        transfer: &Transfer,
        lane: u16,
    ) -> Result<bool, Memory>
        requires of { IsElementOf (plain element.now) p.now }
        requires tagged { tagged ≡ has_tags (plain element.now) }
        requires fits { Fits p.now transfer.now }
        requires within { lane < p.now.lanes }
        requires numbered { lane < 128 }
        ensures taken { OnOk result (Takes (lane_element p.now transfer.now lane) self.old self.new) }
        ensures named { IfOk result (λ named. named ≡ are_named (plain element.now) (lane_items p.now transfer.now lane)) }
    {
        if is_active(transfer, lane) {
            let word = element_word(alloc, p, transfer, lane)?;
            let named = word_has_names(element, tagged, &word);
            self.element(word)?;
            Ok(named)
        } else {
            Ok(true)
        }
    }

    /// Takes the ends of sequences that this lane marks, ascending.
    fn take_closes(&mut self, p: &Params, transfer: &Transfer, lane: u16) -> Result<(), Memory>
        requires fits { Fits p.now transfer.now }
        requires within { lane < p.now.lanes }
        requires dims { HasDims p.now.dims self.old.builder }
        ensures taken { OnOk result (Takes (lane_closes p.now transfer.now lane) self.old self.new) }
    {
        'dims: for dim in 0..p.dims {
            self.take_close(p, transfer, lane, dim)?;
        }
        Ok(())
    }

    /// Takes the end of this dimension where this lane marks it.
    fn take_close(
        &mut self,
        p: &Params,
        transfer: &Transfer,
        lane: u16,
        dim: u8,
    ) -> Result<(), Memory>
        requires fits { Fits p.now transfer.now }
        requires within { lane < p.now.lanes }
        requires in_lane { dim < p.now.dims }
        requires dims { HasDims p.now.dims self.old.builder }
        ensures taken { OnOk result (Takes (if last_bit p.now transfer.now lane dim then Close dim ∷ [] else []) self.old self.new) }
    {
        if is_last(p, transfer, lane, dim) {
            self.close(dim)
        } else {
            Ok(())
        }
    }

    /// Takes an element of this word.
    fn element(&mut self, word: Bits) -> Result<(), Memory>
        ensures { OnOk result (Takes (Elem word ∷ []) self.old self.new) }
    {
        match &mut self.builder {
            Some(builder) => builder.element(word),
            None => Ok(()),
        }
    }

    /// Takes a Close of this dimension.
    fn close(&mut self, dim: u8) -> Result<(), Memory>
        requires within { IfSome self.old.builder (λ b. dim < dims_of b) }
        ensures { OnOk result (Takes (Close dim ∷ []) self.old self.new) }
    {
        if self.may_close(dim) {
            self.close_open(dim)
        } else {
            self.builder = None;
            Ok(())
        }
    }

    /// Whether a Close of this dimension may come next, where the items so far are nested.
    fn may_close(&self, dim: u8) -> bool
        requires within { IfSome self.now.builder (λ b. dim < dims_of b) }
        ensures takes { result ≡ true → IfSome self.now.builder (λ b. MayTakeClose b dim) }
        ensures nested { (done : List Item) → Builds done self.now.builder → MatchBool result (Unit {0}) (IsNested (done ++ Close dim ∷ []) → ⊥) }
    {
        match &self.builder {
            Some(builder) => builder.may_close(dim),
            None => true,
        }
    }

    /// Takes a Close of this dimension, which may come next.
    fn close_open(&mut self, dim: u8) -> Result<(), Memory>
        requires within { IfSome self.old.builder (λ b. dim < dims_of b) }
        requires placed { IfSome self.old.builder (λ b. MayTakeClose b dim) }
        ensures { OnOk result (Takes (Close dim ∷ []) self.old self.new) }
    {
        match &mut self.builder {
            Some(builder) => builder.close(dim),
            None => Ok(()),
        }
    }
}

/// The word of this lane. Where the stream has one lane, it is the whole data signal.
fn element_word(alloc: Global, p: &Params, transfer: &Transfer, lane: u16) -> Result<Bits, Memory>
    requires fits { Fits p.now transfer.now }
    requires within { lane < p.now.lanes }
    ensures { IfOk result (λ word. word ≡ lane_word p.now transfer.now lane) }
{
    if p.lanes == 1 {
        transfer.content.try_clone(alloc)
    } else {
        lane_word(alloc, p, transfer, lane)
    }
}

/// Whether each tag that is read in a transfer names a variant. Where the elements have no tags, no word is looked at.
fn has_names(
    alloc: Global,
    element: &LType,
    p: &Params,
    tagged: bool,
    transfer: &Transfer,
) -> Result<bool, Memory>
    requires of { IsElementOf (plain element.now) p.now }
    requires tagged { tagged ≡ has_tags (plain element.now) }
    requires fits { Fits p.now transfer.now }
    ensures { IfOk result (λ named. named ≡ are_named (plain element.now) (items_of p.now transfer.now)) }
{
    if !tagged {
        return Ok(true);
    }
    let mut named = true;
    'lanes: for lane in 0..p.lanes {
        named &= lane_has_names(alloc, element, p, transfer, lane)?;
    }
    Ok(named)
}

/// Whether each tag that is read in this lane of a transfer names a variant.
fn lane_has_names(
    alloc: Global,
    element: &LType,
    p: &Params,
    transfer: &Transfer,
    lane: u16,
) -> Result<bool, Memory>
    requires of { IsElementOf (plain element.now) p.now }
    requires fits { Fits p.now transfer.now }
    requires within { lane < p.now.lanes }
    requires numbered { lane < 128 }
    ensures { IfOk result (λ named. named ≡ are_named (plain element.now) (lane_items p.now transfer.now lane)) }
{
    if is_active(transfer, lane) {
        let word = lane_word(alloc, p, transfer, lane)?;
        Ok(names_variants(element, &word))
    } else {
        Ok(true)
    }
}
