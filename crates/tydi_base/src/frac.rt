//! Fractions in lowest terms, for throughput.

ghost use Rattle.std.specs.Prelude.{◌≡◌, ◌≢◌, ◌↔◌, ◌*◌, ◌<◌, ◌≤◌, IsSome, IfSome, IfNone};
ghost use Rattle.std.specs.Int.{IsGcd};
ghost use Rattle.tydi_base.specs.Frac.{
  Fraction,
  IsLowest,
  IsReduced,
  IsProduct,
  IsCeiling,
  FitsWords,
};

use std::marker::Model;

/// A fraction in lowest terms (Tydi specification, throughput). Contracts see its two parts.
#[derive(Clone, Copy, Debug, PartialEq, Eq)]
pub struct Frac {
    num: u64,
    den: u64,
}

impl Model for Frac {
    ghost use Rattle.tydi_base.specs.Frac.{Fraction, IsLowest};

    ghost Value = { Fraction };

    ghost view = { λ frac. record { num = frac.num; den = frac.den } };

    ghost invariant = { λ frac. IsLowest (record { num = frac.num; den = frac.den }) };

    ghost inverse = { λ fraction. record { num = fraction.num; den = fraction.den } };
}

impl Frac {
    /// The fraction `num` by `den`, in lowest terms. None exactly where `den` is 0.
    pub fn new(num: u64, den: u64) -> Option<Frac>
        ensures some { IsSome result ↔ (den ≢ 0) }
        ensures value { IfSome result (IsReduced num den) }
    {
        if den == 0 {
            return None;
        }
        let (num, den) = reduced(num as u128, den as u128);
        Some(Frac {
            num: num as u64,
            den: den as u64,
        })
    }

    /// The product of the two. None exactly where a part of it, in lowest terms, does not fit 64 bits.
    pub fn times(self, other: Frac) -> Option<Frac>
        ensures some { IfSome result (λ product. IsProduct self other product × FitsWords product) }
        ensures none { IfNone result ((product : Fraction) → IsProduct self other product → ¬ FitsWords product) }
    {
        let num = self.num as u128 * other.num as u128;
        let den = self.den as u128 * other.den as u128;
        let (num, den) = reduced(num, den);
        if num > u64::MAX as u128 || den > u64::MAX as u128 {
            return None;
        }
        Some(Frac {
            num: num as u64,
            den: den as u64,
        })
    }

    /// The least whole number that is no less.
    pub fn ceil(self) -> u64
        ensures { IsCeiling self result }
    {
        self.num.div_ceil(self.den)
    }

    /// Its upper part.
    pub fn num(self) -> u64
        ensures { result ≡ self.num }
    {
        self.num
    }

    /// Its lower part, which is never 0.
    pub fn den(self) -> u64
        ensures value { result ≡ self.den }
        ensures lowest { IsLowest self }
    {
        self.den
    }
}

// The two parts of a fraction, in lowest terms. Neither grows.
fn reduced(num: u128, den: u128) -> (u128, u128)
    requires { 1 ≤ den }
    ensures reduced { IsReduced num den (record { num = result.0; den = result.1 }) }
    ensures smaller { (result.0 ≤ num) × (result.1 ≤ den) }
{
    let divisor = greatest_divisor(num, den);
    (num / divisor, den / divisor)
}

// The greatest number that divides both, by the remainders of each by the next.
fn greatest_divisor(num: u128, den: u128) -> u128
    requires { 1 ≤ den }
    ensures greatest { IsGcd num den result }
    ensures some { 1 ≤ result }
{
    let mut number = num;
    let mut divisor = den;
    'remainders: while divisor != 0 {
        let rest = number % divisor;
        number = divisor;
        divisor = rest;
    }
    number
}
