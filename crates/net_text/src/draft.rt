//! The net of a text, line by line.

ghost use Rattle.std.specs.Prelude.{◌≡◌, ◌<◌, ◌≤◌, length, replicate, [], List, IfOk, IsTrue};
ghost use Rattle.std.specs.List.{list_all};
ghost use Rattle.tydi_base.specs.Decimal.{is_decimal};
ghost use Rattle.tydi_base.specs.Pieces.{words_of};
ghost use Rattle.tydi_base.specs.Reading.{Gives};
ghost use Rattle.net_text.specs.Draft.{IsDraft, net_in};
ghost use Rattle.net_text.specs.Faults.{fault_in};
ghost use Rattle.net_text.specs.LinesView.{line_in};
ghost use Rattle.net_text.specs.Orders.{components_in};
ghost use Rattle.net_text.specs.Text as spec;

use crate::capacities::{capacities_of, component_count};
use crate::lines::Line;
use crate::net::{NetFault, NetPlan};
use crate::ordering::{are_decimals, read_order};
use crate::streams::Streams;
use std::alloc::Global;
use tydi_base::{List, Memory, Path, Place, SPACE, first_piece};
use type_split::Phys;

/// The lines so far.
#[derive(Drop)]
pub(crate) struct Draft<'s> {
    streams: Streams<'s>,
    /// For each stream, the capacities of its stages. It has none where it has no line.
    stages: Vec<List<u16>>,
    /// The orders of the first cycles.
    orders: List<List<u32>>,
}

/// The stream and the words of capacities of a line `stages` with this text.
#[tactic(auto, unfolding(crate::specs::Text::stages_line))]
fn stages_line<'a>(
    alloc: Global,
    place: Place,
    streams: &Streams<'_>,
    text: &'a [u8],
) -> Result<(usize, &'a [u8]), NetFault>
    ensures gives { Gives fault_in (λ found. (found.0, words_of found.1.now)) result (spec.stages_line place streams.now.list.now (words_of text.now)) }
    ensures within { IfOk result (λ found. found.0 < length streams.now.list.now) }
    ensures decimals { IfOk result (λ found. IsTrue (list_all is_decimal (words_of found.1.now))) }
{
    let Some((word, capacities)) = first_piece(text, SPACE) else {
        return Err(NetFault::Syntax(place));
    };
    if !are_decimals(capacities) {
        return Err(NetFault::Syntax(place));
    }
    let Some(path) = Path::read_dotted(alloc, word)? else {
        return Err(NetFault::Syntax(place));
    };
    match streams.find(&path) {
        Some(number) => Ok((number, capacities)),
        None => Err(NetFault::UnknownStream(place)),
    }
}

/// The order of so many components that the words of a text spell.
#[tactic(auto, unfolding(crate::specs::Text::order_of_words))]
fn order_of_words(
    alloc: Global,
    place: Place,
    count: u32,
    text: &[u8],
) -> Result<List<u32>, NetFault>
    ensures { Gives fault_in (λ order. order) result (spec.order_of_words place count (words_of text.now)) }
{
    if !are_decimals(text) {
        return Err(NetFault::Syntax(place));
    }
    match read_order(alloc, count, text)? {
        Some(order) => Ok(order),
        None => Err(NetFault::NotOrder(place)),
    }
}

/// The order that a line `order` spells.
#[tactic(auto, unfolding(crate::specs::Text::order_of))]
fn order_of(alloc: Global, place: Place, count: u32, line: &[u8]) -> Result<List<u32>, NetFault>
    ensures { Gives fault_in (λ order. order) result (spec.order_of place count line.now) }
{
    if line == b"order".as_slice() {
        Err(NetFault::NotOrder(place))
    } else if line.starts_with(b"order ") {
        order_of_words(alloc, place, count, &line[6..])
    } else {
        Err(NetFault::Syntax(place))
    }
}

/// No stages, for so many streams.
fn no_stages(alloc: Global, streams: usize) -> Result<Vec<List<u16>>, Memory>
    ensures { IfOk result (λ stages. stages.items ≡ replicate streams []) }
{
    let mut stages = Vec::with_capacity(alloc, streams)?;
    'streams: for _number in 0..streams {
        stages.push(List::new(alloc))?;
    }
    Ok(stages)
}

impl<'s> Draft<'s> {
    /// No lines, for these streams.
    pub(crate) fn new(alloc: Global, streams: &'s [Phys]) -> Result<Draft<'s>, Memory>
        ensures draft { IfOk result IsDraft }
        ensures streams { IfOk result (λ draft. draft.streams.list.now ≡ streams.now) }
        ensures net { IfOk result (λ draft. net_in draft ≡ spec.no_net (length streams.now)) }
    {
        Ok(Draft {
            streams: Streams::new(alloc, streams)?,
            stages: no_stages(alloc, streams.len())?,
            orders: List::new(alloc),
        })
    }

    /// The net of these lines.
    pub(crate) fn net(self) -> NetPlan
        ensures { result ≡ net_in self.entry }
    {
        NetPlan {
            stages: List::from_vec(self.stages),
            orders: self.orders,
        }
    }

    /// Adds the stages of the stream of this number, whose capacities these words spell.
    #[tactic(auto, unfolding(crate::specs::Text::with_capacities))]
    fn add_capacities(
        &mut self,
        alloc: Global,
        place: Place,
        number: usize,
        words: &[u8],
    ) -> Result<(), NetFault>
        requires draft { IsDraft self.old }
        requires within { number < length self.old.streams.list.now }
        requires decimals { IsTrue (list_all is_decimal (words_of words.now)) }
        ensures draft { IsDraft self.new }
        ensures streams { self.new.streams.list.now ≡ self.old.streams.list.now }
        ensures gives { Gives fault_in (λ _. net_in self.new) result (spec.with_capacities place number (words_of words.now) (net_in self.old)) }
    {
        if !self.stages[number].is_empty() {
            return Err(NetFault::StreamTwice(place));
        }
        self.stages[number] = capacities_of(alloc, place, words)?;
        Ok(())
    }

    /// Adds a line `stages` with this text.
    #[tactic(auto, unfolding(crate::specs::Text::with_stages))]
    fn add_stages(&mut self, alloc: Global, place: Place, text: &[u8]) -> Result<(), NetFault>
        requires draft { IsDraft self.old }
        ensures draft { IsDraft self.new }
        ensures streams { self.new.streams.list.now ≡ self.old.streams.list.now }
        ensures gives { Gives fault_in (λ _. net_in self.new) result (spec.with_stages place self.old.streams.list.now text.now (net_in self.old)) }
    {
        if !self.orders.is_empty() {
            return Err(NetFault::Syntax(place));
        }
        let (number, words) = stages_line(alloc, place, &self.streams, text)?;
        self.add_capacities(alloc, place, number, words)
    }

    /// Adds a line `order`, where there are so many cycles.
    #[tactic(auto, unfolding(crate::specs::Text::with_order))]
    fn add_order(
        &mut self,
        alloc: Global,
        place: Place,
        cycles: u32,
        line: &[u8],
    ) -> Result<(), NetFault>
        requires draft { IsDraft self.old }
        requires few { length self.old.streams.list.now ≤ 65536 }
        ensures draft { IsDraft self.new }
        ensures streams { self.new.streams.list.now ≡ self.old.streams.list.now }
        ensures gives { Gives fault_in (λ _. net_in self.new) result (spec.with_order place cycles line.now (net_in self.old)) }
    {
        let count = component_count(self.stages.as_slice());
        let order = order_of(alloc, place, count, line)?;
        if self.orders.len() >= cycles as usize {
            return Err(NetFault::TooManyOrders(place));
        }
        self.orders.push(order)?;
        Ok(())
    }

    /// Adds a line after the first, where there are so many cycles.
    #[tactic(auto, unfolding(crate::specs::Text::with_more))]
    pub(crate) fn add_line(
        &mut self,
        alloc: Global,
        cycles: u32,
        line: Line<'_>,
    ) -> Result<(), NetFault>
        requires draft { IsDraft self.old }
        requires few { length self.old.streams.list.now ≤ 65536 }
        ensures draft { IsDraft self.new }
        ensures streams { self.new.streams.list.now ≡ self.old.streams.list.now }
        ensures gives { Gives fault_in (λ _. net_in self.new) result (spec.with_more cycles self.old.streams.list.now (line_in line.entry) (net_in self.old)) }
    {
        if !line.ended {
            return Err(NetFault::Syntax(line.place));
        }
        if line.bytes.starts_with(b"stages ") {
            self.add_stages(alloc, line.place, &line.bytes[7..])
        } else {
            self.add_order(alloc, line.place, cycles, line.bytes)
        }
    }
}
