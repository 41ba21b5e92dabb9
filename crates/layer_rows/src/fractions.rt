//! Fractions.

use crate::calls::{cut, number};
use tydi_base::{Frac, List, Memory, emit};

/// A numerator and a denominator: both in lowest terms, and the least whole number not below.
pub(crate) const FRACTIONS: &[(&str, &str, &str)] = &[
    ("3", "0", "none"),
    ("6", "4", "3/2 2"),
    ("0", "5", "0/1 0"),
    ("9", "2", "9/2 5"),
    ("4", "2", "2/1 2"),
];

/// A fraction and a whole number: their product.
pub(crate) const PRODUCTS: &[(&str, &str, &str)] = &[
    ("3 2", "3", "9/2 5"),
    ("18446744073709551615 1", "3", "none"),
];

pub(crate) fn fraction(num: &str, den: &str, out: &mut List<u8>) -> Result<(), Memory> {
    write_fraction(Frac::new(number(num), number(den)), out)
}

pub(crate) fn product(fraction: &str, whole: &str, out: &mut List<u8>) -> Result<(), Memory> {
    let (num, den) = cut(fraction);
    let Some(fraction) = Frac::new(number(num), number(den)) else {
        return Err(Memory);
    };
    let Some(whole) = Frac::new(number(whole), 1) else {
        return Err(Memory);
    };
    write_fraction(fraction.times(whole), out)
}

fn write_fraction(fraction: Option<Frac>, out: &mut List<u8>) -> Result<(), Memory> {
    match fraction {
        Some(fraction) => emit!(out; fraction.num(), "/", fraction.den(), " ", fraction.ceil()),
        None => emit!(out; "none"),
    }
}
