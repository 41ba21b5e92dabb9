//! Streams, items and plans of tests, read from short texts.

ghost use Rattle.std.specs.Prelude.{◌≡◌, ◌<◌, ◌^◌, ◌∷◌, [], length, IfOk, IfSome};
ghost use Rattle.scheduler.specs.Laws.{AreItems, UsersFit};
ghost use Rattle.scheduler.specs.Planned.{MasksFit};

use crate::calls::{byte, cut, number, small};
use physical_stream::{Item, Params, all_lanes};
use plan_text::{StreamPlan, Wish};
use std::alloc::Global;
use tydi_base::{Bits, Level, List, Memory};

/// The stream of the first five numbers of a text: lanes, dimensions, level, bits of an element and bits of a user word.
pub(crate) fn stream_in(text: &str) -> Result<Params, Memory> {
    let (lanes, rest) = cut(text);
    let (dims, rest) = cut(rest);
    let (level, rest) = cut(rest);
    let (element, rest) = cut(rest);
    let (user, _items) = cut(rest);
    let Some(level) = Level::new(byte(level)) else {
        return Err(Memory);
    };
    match Params::new(
        small(lanes),
        byte(dims),
        level,
        u32::from(small(element)),
        u32::from(small(user)),
    ) {
        Some(params) => Ok(params),
        None => Err(Memory),
    }
}

/// The word of this width that spells the low bits of a number.
pub(crate) fn word_of(alloc: Global, width: u32, number: u8) -> Result<Bits, Memory>
    ensures { IfOk result (λ word. length word ≡ width) }
{
    let mut word = Bits::zeros(alloc, width as usize)?;
    'bits: for place in 0..width.min(8) {
        word.put(place as usize, (number >> place) % 2 == 1);
    }
    Ok(word)
}

// The item of a byte: a digit is a Close of that dimension, and any other byte an element that spells its number.
fn item_of(alloc: Global, p: &Params, byte: u8) -> Result<Item, Memory>
    ensures { IfOk result (λ item. AreItems p.now (item ∷ [])) }
{
    let dim = byte.wrapping_sub(b'0');
    if dim < p.dims {
        return Ok(Item::Close(dim));
    }
    Ok(Item::Elem(word_of(alloc, p.element, byte)?))
}

/// The text behind the five numbers of a stream.
pub(crate) fn behind_stream(text: &str) -> &str {
    let (_lanes, rest) = cut(text);
    let (_dims, rest) = cut(rest);
    let (_level, rest) = cut(rest);
    let (_element, rest) = cut(rest);
    let (_user, items) = cut(rest);
    items
}

/// The items of bytes, one for each.
pub(crate) fn items_in(alloc: Global, p: &Params, bytes: &[u8]) -> Result<List<Item>, Memory>
    ensures { IfOk result (AreItems p.now) }
{
    let mut items = List::new(alloc);
    'bytes: for byte in bytes {
        items.push(item_of(alloc, p, *byte)?)?;
    }
    Ok(items)
}

/// The plan without gaps, wishes and user words.
pub(crate) fn no_plan(alloc: Global) -> StreamPlan
    ensures wishes { result.wishes ≡ [] }
    ensures users { result.users ≡ [] }
{
    StreamPlan {
        gaps: List::new(alloc),
        ready: List::new(alloc),
        wishes: List::new(alloc),
        users: List::new(alloc),
    }
}

/// A wish: its mask as a number, and `+late` or `+laned`.
pub(crate) fn wish_in(p: &Params, text: &str) -> Option<Wish>
    ensures { IfSome result (λ wish. wish.mask < 2 ^ p.now.lanes) }
{
    let (digits, flag) = text.split_once('+').unwrap_or((text, ""));
    let mask = u128::from(number(digits));
    if mask > all_lanes(p.lanes) {
        return None;
    }
    Some(Wish {
        mask,
        late: flag == "late",
        laned: flag == "laned",
    })
}

// The list of one wish, or the empty one.
fn wishes_in(alloc: Global, p: &Params, text: &str) -> Result<List<Wish>, Memory>
    ensures { IfOk result (MasksFit p.now) }
{
    let mut wishes = List::new(alloc);
    match wish_in(p, text) {
        Some(wish) => wishes.push(wish)?,
        None => return Err(Memory),
    }
    Ok(wishes)
}

// The list of one user word, or the empty one.
fn users_in(alloc: Global, p: &Params, text: &str) -> Result<List<Bits>, Memory>
    ensures { IfOk result (UsersFit p.now) }
{
    let mut users = List::new(alloc);
    users.push(word_of(alloc, p.user, byte(text))?)?;
    Ok(users)
}

/// A plan of one wish and of one user word, each of which may be absent.
pub(crate) fn plan_in(alloc: Global, p: &Params, text: &str) -> Result<StreamPlan, Memory>
    ensures masks { IfOk result (λ plan. MasksFit p.now plan.wishes) }
    ensures users { IfOk result (λ plan. UsersFit p.now plan.users) }
{
    let (wish, user) = cut(text);
    let mut plan = no_plan(alloc);
    if !wish.is_empty() {
        plan.wishes = wishes_in(alloc, p, wish)?;
    }
    if !user.is_empty() {
        plan.users = users_in(alloc, p, user)?;
    }
    Ok(plan)
}
