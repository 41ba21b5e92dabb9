//! A reshaper, cycle by cycle.

ghost use Rattle.std.specs.Prelude.{◌≡◌, ◌+◌, ◌≤◌, ◌++◌, ◌∷◌, ◌&&◌, ◌||◌, ◌==◌, nat_lt, not, true, false, [], length, List, IfOk, IfSome};
ghost use Rattle.std.specs.Option.{option_copied};
ghost use Rattle.std.specs.VecDeque.{deque_capacity};
ghost use Rattle.physical_stream.specs.Cycles.{cycle_in, done_in, items_done};
ghost use Rattle.physical_stream.specs.Signals.{Fits, zero_transfer};
ghost use Rattle.physical_stream.specs.declared.item.Item.{Item};
ghost use Rattle.physical_stream.specs.declared.transfer.Transfer.{Transfer};
ghost use Rattle.scheduler.specs.Laws.{AreItems};
ghost use Rattle.reshape.specs.Buffers.{KeepsRoom};
ghost use Rattle.reshape.specs.Fronts.{IsBegun, IsFront};
ghost use Rattle.reshape.specs.Held.{held_in};
ghost use Rattle.reshape.specs.Kept.{items_left, most_items, HasRoom};
ghost use Rattle.reshape.specs.Reshaping.{front_of, is_due};
ghost use Rattle.reshape.specs.Standing.{buffer_in, from_of, is_due_in, offered_by, to_of, StandsFor};

use crate::buffer::Buffer;
use crate::extending::extend;
use crate::filling::fill_front;
use crate::front::Front;
use crate::reshaper::Reshaper;
use physical_stream::{Item, Params, Row, Transfer};
use std::alloc::Global;
use std::collections::VecDeque;
use tydi_base::Memory;

// The most items that a buffer between these sides has.
fn most_items(from: &Params, to: &Params) -> usize
    ensures { result ≡ most_items from.now to.now }
{
    let ends = usize::from(to.dims);
    usize::from(to.lanes) + ends + usize::from(from.lanes) * (1 + ends)
}

// Whether these items are due, by how far their front reaches.
fn is_due(p: &Params, items: &VecDeque<Item>, front: Front, ended: bool) -> bool
    requires some { 1 ≤ p.now.lanes }
    requires front { IsFront p.now items.now.items front }
    ensures { result ≡ is_due p.now ended items.now.items }
{
    if items.is_empty() {
        return false;
    }
    if ended || front.size < items.len() {
        return true;
    }
    if p.dims == 0 {
        front.elements == p.lanes
    } else {
        front.least == p.dims
    }
}

// Moves the items of a cycle: the front leaves a buffer that is due, where it is taken, and what is shown enters another. It gives what
// is then known of the front.
fn pass(
    from: &Params,
    buffer: &mut Buffer,
    front: Front,
    due: bool,
    given: Row<'_>,
    taken: bool,
) -> Front
    requires some { 1 ≤ buffer.old.params.lanes }
    requires dims { from.now.dims ≡ buffer.old.params.dims }
    requires element { from.now.element ≡ buffer.old.params.element }
    requires most { buffer.old.most ≡ from.now.lanes + buffer.old.params.lanes }
    requires places { most_items from.now buffer.old.params ≤ deque_capacity buffer.old.items }
    requires front { IsFront buffer.old.params buffer.old.items.items front }
    requires due { due ≡ false → HasRoom buffer.old.params buffer.old.items.items }
    requires ready { given.ready ≡ not due }
    requires fits { IfSome (option_copied given.shown) (Fits from.now) }
    ensures items { buffer.new.items.items ≡ items_left buffer.old.params due taken buffer.old.items.items ++ items_done from.now (cycle_in given.entry ∷ []) }
    ensures kept { KeepsRoom buffer.old buffer.new }
    ensures begun { IsBegun buffer.new.params buffer.new.items.items result }
{
    if due {
        if !taken {
            return front;
        }
        buffer.release(front.size);
        return Front::none();
    }
    if let Some(transfer) = given.shown {
        buffer.enter(from, transfer);
    }
    front
}

// Makes the transfer of the front of these items where it is asked for; else the transfer stays as it is.
fn refresh(
    p: &Params,
    items: &VecDeque<Item>,
    front: Front,
    blank: &Transfer,
    wanted: bool,
    into: &mut Transfer,
)
    requires fit { AreItems p.now items.now.items }
    requires front { IsFront p.now items.now.items front }
    requires blank { blank.now ≡ zero_transfer p.now }
    requires room { Fits p.now into.old }
    requires some { 1 ≤ p.now.lanes }
    ensures made { wanted ≡ true → into.new ≡ front_of p.now items.now.items }
    ensures same { wanted ≡ false → into.new ≡ into.old }
    ensures fits { Fits p.now into.new }
{
    if wanted {
        fill_front(p, items, front, blank, into);
    }
}

impl Reshaper {
    /// The reshaper of a stream from the near side `from` to the far side `to`, before its first cycle, with no item. The sides have the same
    /// dimensions and the same width of elements. A user word does not go through: those of the far side are zero. With dimensions, a far side
    /// of a level below 3 may not pause as the far side does here, so its cycles are legal only from level 3 on. All memory is taken
    /// here; Memory comes where there was none for the buffer and two transfers.
    pub fn new(alloc: Global, from: Params, to: Params) -> Result<Reshaper, Memory>
        requires dims { from.dims ≡ to.dims }
        requires element { from.element ≡ to.element }
        ensures from { IfOk result (λ reshaper. from_of reshaper ≡ from) }
        ensures to { IfOk result (λ reshaper. to_of reshaper ≡ to) }
        ensures buffer { IfOk result (λ reshaper. buffer_in reshaper ≡ []) }
        ensures stands { IfOk result (λ reshaper. StandsFor reshaper [] []) }
    {
        let most = u32::from(from.lanes) + u32::from(to.lanes);
        let places = most_items(&from, &to);
        let blank = Transfer::zero(alloc, &to)?;
        let offered = Transfer::zero(alloc, &to)?;
        let buffer = Buffer::new(alloc, to, most, places)?;
        Ok(Reshaper {
            from,
            buffer,
            front: Front::none(),
            blank,
            offered,
            due: false,
            ended: false,
        })
    }

    /// The ready bit of the near side in the cycle that comes: true exactly where the buffer is not due.
    pub fn wants(&self) -> bool
        ensures { result ≡ not (is_due_in self.now) }
    {
        !self.due
    }

    /// The transfer that the far side shows in the cycle that comes: the front of the buffer. None exactly where the buffer is not due.
    pub fn offer(&self) -> Option<&Transfer>
        ensures { option_copied result ≡ offered_by self.now }
    {
        if self.due { Some(&self.offered) } else { None }
    }

    /// The end of a cycle. The row that the near side was given has the ready bit that `wants` said, and a transfer of the near side where it
    /// shows one; this enters. `taken` says that the far side was ready: a transfer that was offered leaves then. `ended` says that the
    /// source has ended by the next cycle. It takes no memory.
    pub fn edge(&mut self, given: Row<'_>, taken: bool, ended: bool)
        requires ready { given.ready ≡ not (is_due_in self.old) }
        requires fits { IfSome (option_copied given.shown) (Fits (from_of self.old)) }
        ensures buffer { buffer_in self.new ≡ items_left (to_of self.old) (is_due_in self.old) taken (buffer_in self.old) ++ items_done (from_of self.old) (cycle_in given.entry ∷ []) }
        ensures ended { self.new.ended ≡ ended }
        ensures from { from_of self.new ≡ from_of self.old }
        ensures to { to_of self.new ≡ to_of self.old }
        ensures stands { (items : List Item) (out : List Transfer) → StandsFor self.old items out
            → StandsFor self.new (items ++ items_done (from_of self.old) (cycle_in given.entry ∷ [])) (out ++ done_in (record { ready = taken; shown = offered_by self.old })) }
    {
        let stays = self.due && !taken;
        let begun = pass(
            &self.from,
            &mut self.buffer,
            self.front,
            self.due,
            given,
            taken,
        );
        self.front = extend(&self.buffer.params, &self.buffer.items, begun);
        self.due = is_due(&self.buffer.params, &self.buffer.items, self.front, ended);
        self.ended = ended;
        refresh(
            &self.buffer.params,
            &self.buffer.items,
            self.front,
            &self.blank,
            self.due && !stays,
            &mut self.offered,
        );
    }

    /// How many elements are in the buffer: at most as many as both sides have lanes.
    pub fn held(&self) -> u32
        ensures count { result ≡ held_in (buffer_in self.now) }
        ensures few { result ≤ (from_of self.now).lanes + (to_of self.now).lanes }
    {
        self.buffer.held()
    }

    // The transfer of the far side that is zero.
    pub(crate) fn blank(&self, alloc: Global) -> Result<Transfer, Memory>
        ensures { IfOk result (Fits (to_of self.now)) }
    {
        Transfer::zero(alloc, &self.buffer.params)
    }

    /// Drops all items: it is as a new one.
    pub fn clear(&mut self)
        ensures buffer { buffer_in self.new ≡ [] }
        ensures from { from_of self.new ≡ from_of self.old }
        ensures to { to_of self.new ≡ to_of self.old }
    {
        let count = self.buffer.items.len();
        self.buffer.release(count);
        self.front = Front::none();
        self.due = false;
        self.ended = false;
    }
}
