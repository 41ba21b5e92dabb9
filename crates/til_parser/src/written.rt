//! The texts that only the language has: names, paths, documentation, quoted text, and fractions with the fewest digits.

ghost use Rattle.std.specs.Prelude.{◌≡◌, ◌++◌, ◌<◌, ◌*◌, ◌/◌, ◌%◌, OnErr, OnOk};
ghost use Rattle.std.specs.List.{flat_map};
ghost use Rattle.til_parser.specs.Canonical.{behind_point, digits_of_rest, doc_line, doc_text, most_digits, names_text, number_text, quoted_text};
ghost use Rattle.tydi_base.specs.Writing.{StandsInFront};

use crate::tree::{AstName, AstPath};
use tydi_base::{Frac, List, Memory, Text, Written, emit};

/// The most digits behind the point: a number of a text has no more, so long division ends by then.
const MOST_DIGITS: usize = 18;

impl Written for AstName {
    ghost text = { λ name. name.name };

    fn write_to(&self, out: &mut List<u8>) -> Result<(), Memory> {
        self.name.write_to(out)
    }
}

/// The names of a path, with `::` between each two.
impl Written for AstPath {
    ghost text = { λ path. names_text path.names };

    fn write_to(&self, out: &mut List<u8>) -> Result<(), Memory> {
        let [first, others @ ..] = self.names.as_slice() else {
            return Ok(());
        };
        emit!(out; first, EachAfter("::", others))
    }
}

/// Things that are written one after another, with this text before each.
#[derive(Clone, Copy)]
pub(crate) struct EachAfter<'a, T>(pub &'a str, pub &'a [T]);

impl<T: Written> Written for EachAfter<'_, T> {
    ghost text = { λ each. flat_map (λ thing. each.0.now ++ T.text thing) each.1.now };

    fn write_to(&self, out: &mut List<u8>) -> Result<(), Memory> {
        'things: for thing in self.1 {
            emit!(out; self.0, thing)?;
        }
        Ok(())
    }
}

/// A text between two `"`.
#[derive(Clone, Copy)]
pub(crate) struct Quoted<'a>(pub &'a Text);

impl Written for Quoted<'_> {
    ghost text = { λ quoted. quoted_text quoted.0.now };

    fn write_to(&self, out: &mut List<u8>) -> Result<(), Memory> {
        emit!(out; "\"", self.0, "\"")
    }
}

/// Documentation between two `#`, and what follows it; nothing where there is none.
#[derive(Clone, Copy)]
pub(crate) struct Doc<'a>(pub &'a Option<Text>, pub &'a str);

impl Written for Doc<'_> {
    ghost text = { λ doc. doc_text doc.0.now doc.1.now };

    fn write_to(&self, out: &mut List<u8>) -> Result<(), Memory> {
        match self.0 {
            None => Ok(()),
            Some(text) => emit!(out; "#", text, "#", self.1),
        }
    }
}

/// Documentation on a line of its own, after this white space; nothing where there is none.
#[derive(Clone, Copy)]
pub(crate) struct DocLine<'a>(pub &'a str, pub &'a Option<Text>);

impl Written for DocLine<'_> {
    ghost text = { λ line. doc_line line.0.now line.1.now };

    fn write_to(&self, out: &mut List<u8>) -> Result<(), Memory> {
        match self.1 {
            None => Ok(()),
            Some(_) => emit!(out; self.0, Doc(self.1, "\n")),
        }
    }
}

/// A fraction that is written with the fewest digits, at most 18 of them behind the point.
#[derive(Clone, Copy)]
pub(crate) struct FewestDigits(pub Frac);

impl Written for FewestDigits {
    ghost text = { λ number. number_text number.0 };

    fn write_to(&self, out: &mut List<u8>) -> Result<(), Memory> {
        let (num, den) = (self.0.num(), self.0.den());
        emit!(out; num / den)?;
        write_behind_point(num % den, den, out)
    }
}

/// A point and the digits of what is left of a division; nothing where nothing is left.
#[tactic(auto, using(crate::proofs::texts::WrittenLemmas::front_before))]
fn write_behind_point(rest: u64, den: u64, out: &mut List<u8>) -> Result<(), Memory>
    requires { rest < den }
    ensures ok { OnOk result (out.new ≡ out.old ++ behind_point (digits_of_rest most_digits rest den)) }
    ensures err { OnErr result (StandsInFront out.old out.new) }
{
    if rest == 0 {
        return Ok(());
    }
    emit!(out; ".")?;
    write_digits(rest, den, out)
}

/// The digits behind the point of what is left of a division, by long division, up to where nothing is left.
fn write_digits(rest: u64, den: u64, out: &mut List<u8>) -> Result<(), Memory>
    requires { rest < den }
    ensures ok { OnOk result (out.new ≡ out.old ++ digits_of_rest most_digits rest den) }
    ensures err { OnErr result (StandsInFront out.old out.new) }
{
    let mut rest = rest;
    'digits: for _ in 0..MOST_DIGITS {
        if rest == 0 {
            break;
        }
        let (digit, left) = next_digit(rest, den);
        out.push(b'0' + digit)?;
        rest = left;
    }
    Ok(())
}

/// One step of a long division: the next digit, and what is left after it.
fn next_digit(rest: u64, den: u64) -> (u8, u64)
    requires { rest < den }
    ensures digit { result.0 ≡ 10 * rest / den }
    ensures below { result.0 < 10 }
    ensures left { result.1 ≡ 10 * rest % den }
    ensures smaller { result.1 < den }
{
    let tenfold = 10 * u128::from(rest);
    let den = u128::from(den);
    ((tenfold / den) as u8, (tenfold % den) as u64)
}
