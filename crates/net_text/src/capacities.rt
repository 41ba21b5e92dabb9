//! Capacities of stages, read from their words.

ghost use Rattle.std.specs.Prelude.{◌≡◌, ◌≤◌, map, length, IfOk, IfSome, Some, IsTrue, List, All};
ghost use Rattle.std.specs.List.{list_all};
ghost use Rattle.tydi_base.specs.Decimal.{is_decimal, read_on};
ghost use Rattle.tydi_base.specs.Pieces.{words_of};
ghost use Rattle.tydi_base.specs.Reading.{Gives};
ghost use Rattle.net_text.specs.Faults.{fault_in};
ghost use Rattle.net_text.specs.Orders.{components_in};
ghost use Rattle.net_text.specs.Ordering.{CapacityOr};
ghost use Rattle.net_text.specs.Text as spec;

use crate::net::NetFault;
use std::alloc::Global;
use tydi_base::{List, Memory, Place, SPACE, first_piece, read_decimal};

/// The most transfers that a stage holds.
const MOST_CAPACITY: u64 = 64;

/// The most stages of a stream.
const MOST_STAGES: usize = 16;

/// The capacity that a number spells. None exactly where it is none.
fn capacity_of(word: &[u8]) -> Option<u16>
    requires { IsTrue (is_decimal word.now) }
    ensures { CapacityOr (read_on 0 word.now) result }
{
    let wide = read_decimal(word)?;
    if wide < 1 || wide > MOST_CAPACITY {
        return None;
    }
    Some(wide as u16)
}

/// The capacities that the words of a text of numbers spell. None exactly where one of them is none.
fn read_capacities(alloc: Global, text: &[u8]) -> Result<Option<List<u16>>, Memory>
    requires { IsTrue (list_all is_decimal (words_of text.now)) }
    ensures { IfOk result (λ found. found ≡ spec.capacities_with (map (read_on 0) (words_of text.now))) }
{
    let mut found = List::new(alloc);
    let mut rest = text;
    'words: while let Some((word, after)) = first_piece(rest, SPACE) {
        let Some(capacity) = capacity_of(word) else {
            return Ok(None);
        };
        found.push(capacity)?;
        rest = after;
    }
    let Some(last) = capacity_of(rest) else {
        return Ok(None);
    };
    found.push(last)?;
    Ok(Some(found))
}

/// The capacities of the stages of a stream, which the words of a text of numbers spell.
#[tactic(auto, unfolding(crate::specs::Text::capacities_of))]
pub(crate) fn capacities_of(alloc: Global, place: Place, text: &[u8]) -> Result<List<u16>, NetFault>
    requires { IsTrue (list_all is_decimal (words_of text.now)) }
    ensures gives { Gives fault_in (λ capacities. capacities) result (spec.capacities_of place (words_of text.now)) }
    ensures few { IfOk result (λ capacities. length capacities ≤ spec.most_stages) }
{
    let Some(capacities) = read_capacities(alloc, text)? else {
        return Err(NetFault::CapacityRange(place));
    };
    if capacities.len() > MOST_STAGES {
        return Err(NetFault::TooManyStages(place));
    }
    Ok(capacities)
}

/// How many components streams with these stages have.
pub(crate) fn component_count(stages: &[List<u16>]) -> u32
    requires streams { length stages.now ≤ 65536 }
    requires few { All (λ (one : List _). length one ≤ spec.most_stages) stages.now }
    ensures { result ≡ components_in stages.now }
{
    let mut count = stages.len() as u32;
    'streams: for one in stages {
        count += one.len() as u32;
    }
    count
}
