//! Things that are gone through once, lent or of one's own.

ghost use Rattle.std.specs.Prelude.{◌≡◌, ◌+◌, ◌^◌, ◌<◌, ◌≤◌, ◌∷◌, [], Some, drop, length, reverse, slice_get, IsSome, IsTrue, MatchOption};
ghost use Rattle.value_text.specs.Items.{item_of, items_of};

use tydi_base::List;

/// The rest of things that are gone through once, from the first on.
#[derive(Drop)]
pub(crate) enum Items<'v, T> {
    /// They are lent.
    Lent(&'v [T]),
    /// They are its own, the last of them first.
    Own(List<T>),
    /// They are its own, behind so many of this list.
    Behind(List<T>, usize),
}

/// One of them.
#[derive(Drop)]
pub(crate) enum Item<'v, T> {
    Lent(&'v T),
    Own(T),
}

/// The first of things, and those after it.
#[derive(Drop)]
pub(crate) struct Taken<'v, T> {
    pub(crate) one: Item<'v, T>,
    pub(crate) more: Items<'v, T>,
}

/// The same elements, the last of them first.
pub(crate) fn reversed<T: Drop>(list: List<T>) -> List<T>
    ensures { result ≡ reverse list }
{
    let mut elements = list.into_vec();
    elements.as_mut_slice().reverse();
    List::from_vec(elements)
}

impl<'v, T: Drop> Items<'v, T> {
    /// Things of its own.
    pub(crate) fn own(list: List<T>) -> Items<'v, T>
        ensures { items_of result ≡ list }
    {
        Items::Behind(list, 0)
    }

    /// Whether none is left.
    pub(crate) fn is_empty(&self) -> bool
        ensures { IsTrue result → items_of self.now ≡ [] }
    {
        match self {
            Items::Lent(left) => left.is_empty(),
            Items::Own(left) => left.is_empty(),
            Items::Behind(list, passed) => list.len() <= *passed,
        }
    }

    /// The one of this number, counted from 0. None exactly where there is none.
    pub(crate) fn get(&self, number: usize) -> Option<&T>
        ensures found { MatchOption result (length (items_of self.now) ≤ number) (λ one. slice_get (items_of self.now) number ≡ Some one.now) }
        ensures few { IsSome result → number + 1 < 2 ^ 64 }
    {
        match self {
            Items::Lent(left) => get_behind(left, 0, number),
            Items::Own(left) => get_from_last(left.as_slice(), number),
            Items::Behind(list, passed) => get_behind(list.as_slice(), *passed, number),
        }
    }

    /// Those after the first ones, of which there are so many.
    pub(crate) fn skip(self, count: usize) -> Items<'v, T>
        requires { count ≤ length (items_of self) }
        ensures { items_of result ≡ drop count (items_of self.entry) }
    {
        match self {
            Items::Lent(left) => Items::Lent(&left[count..]),
            Items::Own(mut left) => {
                let rest = left.len() - count;
                left.truncate(rest);
                Items::Own(left)
            }
            Items::Behind(list, passed) => Items::Behind(list, passed + count),
        }
    }

    /// Takes the first. None exactly where there is none.
    pub(crate) fn take(self) -> Option<Taken<'v, T>>
        ensures { MatchOption result (items_of self.entry ≡ []) (λ taken. items_of self.entry ≡ item_of taken.one ∷ items_of taken.more) }
    {
        match self {
            Items::Lent(left) => return first_lent(left),
            Items::Own(left) => last_own(left),
            Items::Behind(list, passed) => last_own(reversed_behind(list, passed)),
        }
    }
}

/// The elements behind so many, the last of them first.
fn reversed_behind<T: Drop>(list: List<T>, passed: usize) -> List<T>
    ensures { reverse result ≡ drop passed list }
{
    let mut elements = reversed(list);
    let count = elements.len().saturating_sub(passed);
    elements.truncate(count);
    elements
}

/// The one of this number among those behind so many.
fn get_behind<T>(elements: &[T], passed: usize, number: usize) -> Option<&T>
    ensures found { MatchOption result (length (drop passed elements.now) ≤ number) (λ one. slice_get (drop passed elements.now) number ≡ Some one.now) }
    ensures few { IsSome result → number + 1 < 2 ^ 64 }
{
    let place = passed.checked_add(number)?;
    elements.get(place)
}

/// The one of this number, counted from the last.
fn get_from_last<T>(elements: &[T], number: usize) -> Option<&T>
    ensures found { MatchOption result (length elements.now ≤ number) (λ one. slice_get (reverse elements.now) number ≡ Some one.now) }
    ensures few { IsSome result → number + 1 < 2 ^ 64 }
{
    if number >= elements.len() {
        return None;
    }
    elements.get(elements.len() - 1 - number)
}

/// The first of what is lent.
fn first_lent<'v, T: Drop>(left: &'v [T]) -> Option<Taken<'v, T>>
    ensures { MatchOption result (left.now ≡ []) (λ taken. left.now ≡ item_of taken.one ∷ items_of taken.more) }
{
    match left.split_first() {
        Some((one, more)) => Some(Taken {
            one: Item::Lent(one),
            more: Items::Lent(more),
        }),
        None => None,
    }
}

/// The last of these.
fn last_own<'v, T: Drop>(list: List<T>) -> Option<Taken<'v, T>>
    ensures { MatchOption result (list ≡ []) (λ taken. reverse list ≡ item_of taken.one ∷ items_of taken.more) }
{
    let mut left = list;
    match left.pop() {
        Some(one) => Some(Taken {
            one: Item::Own(one),
            more: Items::Own(left),
        }),
        None => None,
    }
}

impl<'v, T: Drop> Item<'v, T> {
    /// The thing.
    pub(crate) fn get(&self) -> &T
        ensures { result.now ≡ item_of self.now }
    {
        match self {
            Item::Lent(one) => one,
            Item::Own(one) => one,
        }
    }
}

impl<'v, T: Drop> Item<'v, List<T>> {
    /// The elements of a list.
    pub(crate) fn elements(self) -> Items<'v, T>
        ensures { items_of result ≡ item_of self.entry }
    {
        match self {
            Item::Lent(list) => return Items::Lent(list.as_slice()),
            Item::Own(list) => Items::own(list),
        }
    }
}
