//! The kind of the last item, kept as one number.

ghost use Rattle.std.specs.Prelude.{◌≡◌, Option, Some, None};
ghost use Rattle.physical_stream.specs.Shape.{closes_empty, may_close};
ghost use Rattle.physical_stream.specs.declared.item.Tail.TheVariants.{Close, Elem};

use physical_stream::Tail;
use std::marker::Model;

/// The kind of the last item, where there is one. One number takes its place with no branch, which three parts do not.
#[derive(Clone, Copy, Debug)]
pub(crate) struct LastItem {
    code: u16,
}

impl Model for LastItem {
    ghost use Rattle.std.specs.Prelude.{Option, ◌≤◌};
    ghost use Rattle.physical_stream.specs.declared.item.Tail.{Tail};
    ghost use Rattle.complexity_rules.specs.LastItem.{code_of-kind, code_of_kind, kind_of_code};

    ghost Value = { Option Tail };

    ghost view = { λ item. kind_of_code item.code };

    ghost invariant = { λ item. item.code ≤ 257 };

    ghost inverse = { λ kind. record { code = code_of_kind kind } };

    ghost inverse_ok = { λ item fits i. record { code = code_of-kind item.code i } };
}

impl LastItem {
    /// No item.
    #[inline(always)]
    pub(crate) fn none() -> LastItem
        ensures { result ≡ None }
    {
        LastItem { code: 0 }
    }

    /// An element.
    #[inline(always)]
    pub(crate) fn element() -> LastItem
        ensures { result ≡ Some Elem }
    {
        LastItem { code: 1 }
    }

    /// A Close of this dimension.
    #[inline(always)]
    pub(crate) fn close(dim: u8) -> LastItem
        ensures { result ≡ Some (Close dim) }
    {
        LastItem {
            code: 2 + u16::from(dim),
        }
    }

    /// An item of this kind.
    pub(crate) fn of(kind: Option<Tail>) -> LastItem
        ensures { result ≡ kind }
    {
        match kind {
            None => LastItem::none(),
            Some(Tail::Elem) => LastItem::element(),
            Some(Tail::Close(dim)) => LastItem::close(dim),
        }
    }

    /// Its kind.
    pub(crate) fn kind(self) -> Option<Tail>
        ensures { result ≡ self }
    {
        match self.code {
            0 => None,
            1 => Some(Tail::Elem),
            code => Some(Tail::Close((code - 2) as u8)),
        }
    }

    /// Whether a Close of this dimension may stand after it.
    #[inline(always)]
    pub(crate) fn may_close(self, dim: u8) -> bool
        ensures { result ≡ may_close self dim }
    {
        self.code == 0 || u16::from(dim) < self.code
    }

    /// Whether a Close of this dimension closes an empty sequence after it.
    #[inline(always)]
    pub(crate) fn closes_empty(self, dim: u8) -> bool
        ensures { result ≡ closes_empty self dim }
    {
        self.code == 0 || u16::from(dim) + 2 <= self.code
    }
}
