//! The conditions of tests and of needs.

ghost use Rattle.watch_text.specs.Text.{active_test, close_test, elem_test, elem_word, endi_test, lane_slice, last_test, stai_test, strb_test};

use crate::items::item_width;
use crate::marks::{OwnName, Repeated, Where};
use physical_stream::Head;
use signal_layout::{Signal, Signals};
use tydi_base::{List, Memory, Written, emit, parts};
use vhdl_text::{Counted, HighestBit, SignalName};

/// The test that a lane is active.
#[derive(Clone, Copy)]
pub(crate) struct ActiveTest<'a>(pub(crate) &'a Head);

impl Written for ActiveTest<'_> {
    ghost text = { λ test. active_test test.0.now };

    fn write_to(&self, out: &mut List<u8>) -> Result<(), Memory> {
        let head = self.0;
        let widths = Signals::of(&head.params);
        let stai = widths.stai.is_some();
        let endi = widths.endi.is_some();
        let strb = widths.strb.is_some();
        emit!(
            out;
            Where(stai, FirstLane(head)), Where(stai & endi, " and "), Where(endi, LastLane(head)),
            Where((stai | endi) & strb, " and "), Where(strb, StrobeBit(head)),
            Where(!(stai | endi | strb), "true"),
        )
    }
}

impl Counted for ActiveTest<'_> {
    fn count(&self) -> u64 {
        let head = self.0;
        let widths = Signals::of(&head.params);
        let stai = widths.stai.is_some();
        let endi = widths.endi.is_some();
        let strb = widths.strb.is_some();
        parts!(
            Where(stai, FirstLane(head)),
            Where(stai & endi, " and "),
            Where(endi, LastLane(head)),
            Where((stai | endi) & strb, " and "),
            Where(strb, StrobeBit(head)),
            Where(!(stai | endi | strb), "true")
        )
        .count()
    }
}

/// The test that the lane is not below the first one that may be active.
#[derive(Clone, Copy)]
struct FirstLane<'a>(&'a Head);

impl Written for FirstLane<'_> {
    ghost text = { λ test. stai_test test.0.now };

    fn write_to(&self, out: &mut List<u8>) -> Result<(), Memory> {
        emit!(out; "to_integer(unsigned(", SignalName(self.0, Signal::Stai), ")) <= lane")
    }
}

impl Counted for FirstLane<'_> {
    fn count(&self) -> u64 {
        parts!(
            "to_integer(unsigned(",
            SignalName(self.0, Signal::Stai),
            ")) <= lane"
        )
        .count()
    }
}

/// The test that the lane is not above the last one that may be active.
#[derive(Clone, Copy)]
struct LastLane<'a>(&'a Head);

impl Written for LastLane<'_> {
    ghost text = { λ test. endi_test test.0.now };

    fn write_to(&self, out: &mut List<u8>) -> Result<(), Memory> {
        emit!(out; "lane <= to_integer(unsigned(", SignalName(self.0, Signal::Endi), "))")
    }
}

impl Counted for LastLane<'_> {
    fn count(&self) -> u64 {
        parts!(
            "lane <= to_integer(unsigned(",
            SignalName(self.0, Signal::Endi),
            "))"
        )
        .count()
    }
}

/// The test that the strobe bit of the lane is 1.
#[derive(Clone, Copy)]
struct StrobeBit<'a>(&'a Head);

impl Written for StrobeBit<'_> {
    ghost text = { λ test. strb_test test.0.now };

    fn write_to(&self, out: &mut List<u8>) -> Result<(), Memory> {
        emit!(out; SignalName(self.0, Signal::Strb), "(lane) = '1'")
    }
}

impl Counted for StrobeBit<'_> {
    fn count(&self) -> u64 {
        parts!(SignalName(self.0, Signal::Strb), "(lane) = '1'").count()
    }
}

/// The test that the last bit of the lane and the dimension is 1.
#[derive(Clone, Copy)]
pub(crate) struct LastTest<'a>(pub(crate) &'a Head);

impl Written for LastTest<'_> {
    ghost text = { λ test. last_test test.0.now };

    fn write_to(&self, out: &mut List<u8>) -> Result<(), Memory> {
        let params = &self.0.params;
        let dims = params.dims as usize;
        emit!(out; SignalName(self.0, Signal::Last), "(lane * ", dims, " + dim) = '1'")
    }
}

impl Counted for LastTest<'_> {
    fn count(&self) -> u64 {
        let params = &self.0.params;
        let dims = params.dims as usize;
        parts!(
            SignalName(self.0, Signal::Last),
            "(lane * ",
            dims,
            " + dim) = '1'"
        )
        .count()
    }
}

/// The test that the next expected item is the element of the lane.
#[derive(Clone, Copy)]
pub(crate) struct ElemTest<'a>(pub(crate) &'a Head);

impl Written for ElemTest<'_> {
    ghost text = { λ test. elem_test test.0.now };

    fn write_to(&self, out: &mut List<u8>) -> Result<(), Memory> {
        emit!(out; OwnName(self.0, "want"), "(place) = ", ElemWord(self.0))
    }
}

impl Counted for ElemTest<'_> {
    fn count(&self) -> u64 {
        parts!(OwnName(self.0, "want"), "(place) = ", ElemWord(self.0)).count()
    }
}

/// The word of the element of the lane.
#[derive(Clone, Copy)]
struct ElemWord<'a>(&'a Head);

impl Written for ElemWord<'_> {
    ghost text = { λ word. elem_word word.0.now word.0.now.params.element };

    fn write_to(&self, out: &mut List<u8>) -> Result<(), Memory> {
        let params = &self.0.params;
        let element = params.element;
        if element == 0 {
            return emit!(out; "\"10000000\"");
        }
        if element >= 6 {
            return emit!(out; "\"10\" & ", LaneSlice(self.0));
        }
        let zeros = 6 - element as usize;
        emit!(out; "\"10\" & \"", Repeated(b'0', zeros), "\" & ", LaneSlice(self.0))
    }
}

impl Counted for ElemWord<'_> {
    fn count(&self) -> u64 {
        let params = &self.0.params;
        let element = params.element;
        if element == 0 {
            return 10;
        }
        if element >= 6 {
            return parts!("\"10\" & ", LaneSlice(self.0)).count();
        }
        let zeros = 6 - element as usize;
        parts!(
            "\"10\" & \"",
            Repeated(b'0', zeros),
            "\" & ",
            LaneSlice(self.0)
        )
        .count()
    }
}

/// The bits of the lane in the data signal.
#[derive(Clone, Copy)]
struct LaneSlice<'a>(&'a Head);

impl Written for LaneSlice<'_> {
    ghost text = { λ slice. lane_slice slice.0.now };

    fn write_to(&self, out: &mut List<u8>) -> Result<(), Memory> {
        let head = self.0;
        let width = head.params.element as usize;
        emit!(
            out;
            SignalName(head, Signal::Content), "(lane * ", width, " + ",
            HighestBit(head.params.element), " downto lane * ", width, ")",
        )
    }
}

impl Counted for LaneSlice<'_> {
    fn count(&self) -> u64 {
        let head = self.0;
        let width = head.params.element as usize;
        parts!(
            SignalName(head, Signal::Content),
            "(lane * ",
            width,
            " + ",
            HighestBit(head.params.element),
            " downto lane * ",
            width,
            ")"
        )
        .count()
    }
}

/// The test that the next expected item is the end of a sequence of the dimension.
#[derive(Clone, Copy)]
pub(crate) struct CloseTest<'a>(pub(crate) &'a Head);

impl Written for CloseTest<'_> {
    ghost text = { λ test. close_test test.0.now };

    fn write_to(&self, out: &mut List<u8>) -> Result<(), Memory> {
        let width = item_width(&self.0.params);
        emit!(
            out;
            OwnName(self.0, "want"), "(place) = ",
            "\"01\" & std_logic_vector(to_unsigned(dim, ", width, "))",
        )
    }
}

impl Counted for CloseTest<'_> {
    fn count(&self) -> u64 {
        let width = item_width(&self.0.params);
        parts!(
            OwnName(self.0, "want"),
            "(place) = ",
            "\"01\" & std_logic_vector(to_unsigned(dim, ",
            width,
            "))"
        )
        .count()
    }
}
