//! Orders of components, read from their words.

ghost use Rattle.std.specs.Prelude.{◌≡◌, ◌<◌, ◌^◌, ℕ, [], map, length, IfOk, IsTrue};
ghost use Rattle.std.specs.Char as chars;
ghost use Rattle.std.specs.List.{list_all};
ghost use Rattle.tydi_base.specs.Decimal.{is_decimal, read_on};
ghost use Rattle.tydi_base.specs.Pieces.{words_of};
ghost use Rattle.net_text.specs.Orders.{order_with};
ghost use Rattle.net_text.specs.Ordering.{IsMarked, Marks};

use std::alloc::Global;
use tydi_base::{List, Memory, SPACE, first_piece, read_decimal};

/// Whether each word of a text is a number without leading zeros.
pub(crate) fn are_decimals(text: &[u8]) -> bool
    ensures { result ≡ list_all is_decimal (words_of text.now) }
{
    let mut rest = text;
    'words: while let Some((word, after)) = first_piece(rest, SPACE) {
        if !is_decimal(word) {
            return false;
        }
        rest = after;
    }
    is_decimal(rest)
}

/// Whether a word is the digits of a number without leading zeros.
fn is_decimal(digits: &[u8]) -> bool
    ensures { result ≡ is_decimal digits.now }
{
    let leading_zero = digits.len() > 1 && digits[0] == b'0';
    !digits.is_empty() && !leading_zero && are_digits(digits)
}

/// Whether each of these bytes is `0` to `9`.
fn are_digits(bytes: &[u8]) -> bool
    ensures { result ≡ list_all chars.is_ascii_digit bytes.now }
{
    bytes.iter().all(|byte| byte.is_ascii_digit())
}

/// Whether each of these marks is set.
fn are_all(marks: &[bool]) -> bool
    ensures { result ≡ list_all (λ mark. mark) marks.now }
{
    marks.iter().all(|mark| *mark)
}

/// The numbers of an order so far.
#[derive(Drop)]
struct Numbers {
    order: List<u32>,
    /// For each component, whether its number stands among them.
    seen: Vec<bool>,
}

impl Numbers {
    /// No numbers, for so many components.
    fn none(alloc: Global, count: u32) -> Result<Numbers, Memory>
        ensures { IfOk result (λ numbers. (numbers.order ≡ []) × IsMarked count [] numbers.seen.items) }
    {
        let mut seen = Vec::new(alloc);
        seen.resize(count as usize, false)?;
        Ok(Numbers {
            order: List::new(alloc),
            seen,
        })
    }

    /// Adds the number of this word. False where it is no component, or stands among the numbers already.
    fn add(&mut self, word: &[u8]) -> Result<bool, Memory>
        requires few { length self.old.seen.items < 2 ^ 32 }
        requires decimal { IsTrue (is_decimal word.now) }
        ensures { (count : ℕ) → IsMarked count self.old.order self.old.seen.items → Marks result count (read_on 0 word.now) self.old.order self.new.order self.new.seen.items }
    {
        let Some(wide) = read_decimal(word) else {
            return Ok(false);
        };
        if wide >= self.seen.len() as u64 || self.seen[wide as usize] {
            return Ok(false);
        }
        self.order.push(wide as u32)?;
        self.seen[wide as usize] = true;
        Ok(true)
    }

    /// The order, where each component stands in it.
    fn whole(self) -> Option<List<u32>>
        ensures { (count : ℕ) → IsMarked count self.order self.seen.items → result ≡ order_with count self.order }
    {
        if are_all(self.seen.as_slice()) {
            Some(self.order)
        } else {
            None
        }
    }
}

/// The numbers of a text of numbers. None exactly where they are no order of so many components.
pub(crate) fn read_order(
    alloc: Global,
    count: u32,
    text: &[u8],
) -> Result<Option<List<u32>>, Memory>
    requires { IsTrue (list_all is_decimal (words_of text.now)) }
    ensures { IfOk result (λ found. found ≡ order_with count (map (read_on 0) (words_of text.now))) }
{
    let mut numbers = Numbers::none(alloc, count)?;
    let mut rest = text;
    'words: while let Some((word, after)) = first_piece(rest, SPACE) {
        if !numbers.add(word)? {
            return Ok(None);
        }
        rest = after;
    }
    if !numbers.add(rest)? {
        return Ok(None);
    }
    Ok(numbers.whole())
}
