//! The things that are left to read, and the steps that take one of them.

ghost use Rattle.std.specs.Prelude.{◌≡◌, Bool, length, option_map};
ghost use Rattle.tydi_reading.specs.Calls.{Decides};
ghost use Rattle.tydi_reading.specs.Reading as spec;

use crate::source::Source;
use std::marker::Model;

/// The things that are not taken yet. Contracts see their list.
#[derive(Drop)]
pub struct Cursor<'a, T> {
    rest: &'a [T],
}

impl<'a, T> Model for Cursor<'a, T> {
    ghost use Rattle.std.specs.Prelude.{List};

    ghost Value = { List T };

    ghost view = { λ cursor. cursor.rest.now };
}

impl<'a, T> Source for Cursor<'a, T> {
    ghost Thing = { T };

    ghost left = { λ things. things };

    fn skip(&mut self) {
        if let [_, rest @ ..] = self.rest {
            self.rest = rest;
        }
    }
}

impl<'a, T> Cursor<'a, T> {
    /// All of these things.
    pub fn new(things: &'a [T]) -> Cursor<'a, T>
        ensures { result ≡ things.now }
    {
        Cursor { rest: things }
    }

    /// How many things are left.
    pub fn left(&self) -> usize
        ensures { result ≡ length self.now }
    {
        self.rest.len()
    }

    /// Whether nothing is left.
    pub fn is_at_end(&self) -> bool
        ensures { result ≡ spec.at_end self.now }
    {
        self.rest.is_empty()
    }

    /// The next thing, which stays. None where none is left.
    pub fn peek(&self) -> Option<&'a T>
        ensures { option_map (λ next. next.now) result ≡ spec.first self.now }
    {
        match self.rest {
            [next, ..] => Some(next),
            [] => None,
        }
    }

    /// Whether there is a next thing and it is such a one.
    pub fn sees<F: Fn(&T) -> bool>(&self, is: F) -> bool
        requires { F.IsAlwaysCallable is }
        ensures { (test : T → Bool) → Decides F.Fn is test → result ≡ spec.sees test self.now }
    {
        match self.rest {
            [next, ..] => is(next),
            [] => false,
        }
    }

    /// Whether the next thing is such a one, or none is left.
    pub fn stops<F: Fn(&T) -> bool>(&self, is: F) -> bool
        requires { F.IsAlwaysCallable is }
        ensures { (test : T → Bool) → Decides F.Fn is test → result ≡ spec.stops test self.now }
    {
        match self.rest {
            [next, ..] => is(next),
            [] => true,
        }
    }

    /// Takes the next thing where it is such a one, and says whether it was.
    pub fn eat<F: Fn(&T) -> bool>(&mut self, is: F) -> bool
        requires { F.IsAlwaysCallable is }
        ensures value { (test : T → Bool) → Decides F.Fn is test → result ≡ spec.sees test self.old }
        ensures rest { (test : T → Bool) → Decides F.Fn is test → self.new ≡ spec.after_eating test self.old }
    {
        match self.rest {
            [next, rest @ ..] if is(next) => {
                self.rest = rest;
                true
            }
            _ => false,
        }
    }
}
