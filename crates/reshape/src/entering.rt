//! The items of a transfer that enter a buffer.

ghost use Rattle.std.specs.Prelude.{◌≡◌, ◌+◌, ◌*◌, ◌≤◌, ◌<◌, ◌++◌, ◌∷◌, [], if◌then◌else◌, length};
ghost use Rattle.std.specs.VecDeque.{deque_capacity};
ghost use Rattle.physical_stream.specs.Items.{items_of, lane_closes, lane_items, last_bit};
ghost use Rattle.physical_stream.specs.Signals.{Fits};
ghost use Rattle.physical_stream.specs.declared.item.Item.TheVariants.{Close};
ghost use Rattle.reshape.specs.Buffers.{lane_element, KeepsRoom};

use crate::buffer::Buffer;
use physical_stream::{Params, Transfer, is_active, is_last};

impl Buffer {
    // Adds the end of this dimension where this lane marks it.
    fn enter_close(&mut self, p: &Params, transfer: &Transfer, lane: u16, dim: u8)
        requires fits { Fits p.now transfer.now }
        requires within { lane < p.now.lanes }
        requires in_lane { dim < p.now.dims }
        requires dims { p.now.dims ≡ self.old.params.dims }
        requires place { length self.old.items.items < deque_capacity self.old.items }
        ensures items { self.new.items.items ≡ self.old.items.items ++ (if last_bit p.now transfer.now lane dim then Close dim ∷ [] else []) }
        ensures words { length self.new.words.items ≡ length self.old.words.items }
        ensures kept { KeepsRoom self.old self.new }
    {
        if is_last(p, transfer, lane, dim) {
            self.push_close(dim);
        }
    }

    // Adds the ends of sequences that this lane marks, ascending.
    fn enter_closes(&mut self, p: &Params, transfer: &Transfer, lane: u16)
        requires fits { Fits p.now transfer.now }
        requires within { lane < p.now.lanes }
        requires dims { p.now.dims ≡ self.old.params.dims }
        requires places { length self.old.items.items + p.now.dims ≤ deque_capacity self.old.items }
        ensures items { self.new.items.items ≡ self.old.items.items ++ lane_closes p.now transfer.now lane }
        ensures few { length self.new.items.items ≤ length self.old.items.items + p.now.dims }
        ensures words { length self.new.words.items ≡ length self.old.words.items }
        ensures kept { KeepsRoom self.old self.new }
    {
        'dims: for dim in 0..p.dims {
            self.enter_close(p, transfer, lane, dim);
        }
    }

    // Adds the element of this lane where it is active.
    fn enter_element(&mut self, p: &Params, transfer: &Transfer, lane: u16)
        requires fits { Fits p.now transfer.now }
        requires within { lane < p.now.lanes }
        requires numbered { lane < 128 }
        requires element { p.now.element ≡ self.old.params.element }
        requires word { 0 < length self.old.words.items }
        requires place { length self.old.items.items < deque_capacity self.old.items }
        ensures items { self.new.items.items ≡ self.old.items.items ++ lane_element p.now transfer.now lane }
        ensures words { length self.old.words.items ≤ length self.new.words.items + 1 }
        ensures few { length self.new.items.items ≤ length self.old.items.items + 1 }
        ensures kept { KeepsRoom self.old self.new }
    {
        if is_active(transfer, lane) {
            self.push_element(&transfer.content, usize::from(lane) * p.element as usize);
        }
    }

    // Adds the items of this lane.
    fn enter_lane(&mut self, p: &Params, transfer: &Transfer, lane: u16)
        requires fits { Fits p.now transfer.now }
        requires within { lane < p.now.lanes }
        requires numbered { lane < 128 }
        requires element { p.now.element ≡ self.old.params.element }
        requires dims { p.now.dims ≡ self.old.params.dims }
        requires word { 0 < length self.old.words.items }
        requires places { length self.old.items.items + (1 + p.now.dims) ≤ deque_capacity self.old.items }
        ensures items { self.new.items.items ≡ self.old.items.items ++ lane_items p.now transfer.now lane }
        ensures words { length self.old.words.items ≤ length self.new.words.items + 1 }
        ensures few { length self.new.items.items ≤ length self.old.items.items + (1 + p.now.dims) }
        ensures kept { KeepsRoom self.old self.new }
    {
        self.enter_element(p, transfer, lane);
        self.enter_closes(p, transfer, lane);
    }

    // Adds the items of a transfer, lane by lane.
    pub(crate) fn enter(&mut self, p: &Params, transfer: &Transfer)
        requires fits { Fits p.now transfer.now }
        requires element { p.now.element ≡ self.old.params.element }
        requires dims { p.now.dims ≡ self.old.params.dims }
        requires words { p.now.lanes ≤ length self.old.words.items }
        requires places { length self.old.items.items + p.now.lanes * (1 + p.now.dims) ≤ deque_capacity self.old.items }
        ensures items { self.new.items.items ≡ self.old.items.items ++ items_of p.now transfer.now }
        ensures kept { KeepsRoom self.old self.new }
    {
        'lanes: for lane in 0..p.lanes {
            self.enter_lane(p, transfer, lane);
        }
    }
}
