//! Items that enter a buffer, and items that leave it.

ghost use Rattle.std.specs.Prelude.{◌≡◌, ◌+◌, ◌*◌, ◌≤◌, ◌<◌, ◌++◌, ◌∷◌, [], length, take, drop, vec_capacity, IfOk};
ghost use Rattle.std.specs.List.{All};
ghost use Rattle.std.specs.VecDeque.{deque_capacity};
ghost use Rattle.physical_stream.specs.declared.item.Item.TheVariants.{Elem, Close};
ghost use Rattle.reshape.specs.Buffers.{KeepsRoom};
ghost use Rattle.reshape.specs.Held.{held_in};

use crate::buffer::Buffer;
use physical_stream::{Item, Params};
use std::alloc::Global;
use std::collections::VecDeque;
use tydi_base::{Bits, Memory};

// So many words, each as wide as this.
fn words_of(alloc: Global, many: u32, width: u32) -> Result<Vec<Bits>, Memory>
    ensures wide { IfOk result (λ words. All (λ word. length word ≡ width) words.items) }
    ensures many { IfOk result (λ words. length words.items ≡ many) }
    ensures room { IfOk result (λ words. many ≤ vec_capacity words) }
{
    let mut words = Vec::with_capacity(alloc, many as usize)?;
    'words: for _ in 0..many {
        words.push_reserved(Bits::zeros(alloc, width as usize)?);
    }
    Ok(words)
}

impl Buffer {
    // A buffer of this stream with no item, with room for so many elements and so many items. All memory is taken here.
    pub(crate) fn new(
        alloc: Global,
        params: Params,
        most: u32,
        places: usize,
    ) -> Result<Buffer, Memory>
        ensures items { IfOk result (λ buffer. buffer.items.items ≡ []) }
        ensures params { IfOk result (λ buffer. buffer.params ≡ params) }
        ensures most { IfOk result (λ buffer. buffer.most ≡ most) }
        ensures places { IfOk result (λ buffer. places ≤ deque_capacity buffer.items) }
    {
        let items = VecDeque::with_capacity(alloc, places)?;
        let words = words_of(alloc, most, params.element)?;
        Ok(Buffer {
            params,
            items,
            words,
            most,
        })
    }

    // Adds the element whose bits stand in a word from this place on.
    pub(crate) fn push_element(&mut self, content: &Bits, from: usize)
        requires within { from + self.old.params.element ≤ length content.now }
        requires word { 0 < length self.old.words.items }
        requires place { length self.old.items.items < deque_capacity self.old.items }
        ensures items { self.new.items.items ≡ self.old.items.items ++ Elem (take self.old.params.element (drop from content.now)) ∷ [] }
        ensures words { length self.new.words.items + 1 ≡ length self.old.words.items }
        ensures kept { KeepsRoom self.old self.new }
    {
        match self.words.pop() {
            Some(mut word) => {
                word.copy_part(content, from);
                self.items.push_back_reserved(Item::Elem(word));
            }
            None => unreachable!(),
        }
    }

    // Adds the end of a sequence of this dimension.
    pub(crate) fn push_close(&mut self, dim: u8)
        requires within { dim < self.old.params.dims }
        requires place { length self.old.items.items < deque_capacity self.old.items }
        ensures items { self.new.items.items ≡ self.old.items.items ++ Close dim ∷ [] }
        ensures words { length self.new.words.items ≡ length self.old.words.items }
        ensures kept { KeepsRoom self.old self.new }
    {
        self.items.push_back_reserved(Item::Close(dim));
    }

    // Drops the first item, where there is one, and keeps the word of an element.
    fn pop(&mut self)
        ensures items { self.new.items.items ≡ drop 1 self.old.items.items }
        ensures kept { KeepsRoom self.old self.new }
    {
        match self.items.pop_front() {
            Some(Item::Elem(word)) => self.words.push_reserved(word),
            Some(Item::Close(_)) => {}
            None => {}
        }
    }

    // Drops so many items from the first on.
    pub(crate) fn release(&mut self, count: usize)
        ensures items { self.new.items.items ≡ drop count self.old.items.items }
        ensures kept { KeepsRoom self.old self.new }
    {
        'items: for _ in 0..count {
            self.pop();
        }
    }

    // How many elements it has.
    pub(crate) fn held(&self) -> u32
        ensures { result ≡ held_in self.now.items.items }
    {
        self.most - self.words.len() as u32
    }
}
