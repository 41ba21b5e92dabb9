//! The signals of the scope by their names.

ghost use Rattle.std.specs.Prelude.{◌≡◌, ◌∷◌, [], ℕ, List, true, length, Some, OnOk, IsTrue};
ghost use Rattle.vcd_read.specs.History.{Declares, Part, is_inside, signal_in};
ghost use Rattle.vcd_read.specs.Numbers.{KeepsNumbers, number_of};
ghost use Rattle.vcd_read.specs.Variables.{HasName, IsNumbered, StandFor, clock_with, is_clock};

use crate::names::bare_name;
use crate::texts::Texts;
use std::alloc::Global;
use tydi_base::{List, Memory};

/// The signals that are declared in the scope. Each name has the number of the code of the first signal of this name.
#[derive(Drop)]
pub(crate) struct Variables {
    pub(crate) names: Texts,
    /// The number of the code of each name.
    pub(crate) numbers: List<usize>,
    /// The number of the code of the clock.
    pub(crate) clock: Option<usize>,
}

impl Variables {
    /// No signals.
    pub(crate) fn new(alloc: Global) -> Variables
        ensures { (codes scope : List (List ℕ)) → StandFor codes scope result [] }
    {
        Variables {
            names: Texts::new(alloc),
            numbers: List::new(alloc),
            clock: None,
        }
    }

    /// Adds a signal that is declared in the scope, with the number of its code.
    pub(crate) fn add(
        &mut self,
        alloc: Global,
        width: u64,
        name: &[u8],
        number: usize,
    ) -> Result<(), Memory>
        requires { length self.old.numbers ≡ length self.old.names }
        ensures { OnOk result ((before codes scope : List (List ℕ)) (code : List ℕ) (parts : List Part) → StandFor before scope self.old parts
            → KeepsNumbers before codes
            → is_inside scope parts ≡ true → number_of codes code ≡ Some number → StandFor codes scope self.new (Declares width code name.now ∷ parts)) }
    {
        self.add_clock(width, name, number);
        self.add_name(alloc, bare_name(name), number)
    }

    /// Keeps this as the clock, where it is one and there is none yet.
    fn add_clock(&mut self, width: u64, name: &[u8], number: usize)
        ensures clock { self.new.clock ≡ clock_with self.old.clock (is_clock name.now width) number }
        ensures names { self.new.names ≡ self.old.names }
        ensures numbers { self.new.numbers ≡ self.old.numbers }
    {
        if self.clock.is_none() && name == b"clk".as_slice() && width == 1 {
            self.clock = Some(number);
        }
    }

    /// Keeps the number of a name that has none.
    fn add_name(&mut self, alloc: Global, name: &[u8], number: usize) -> Result<(), Memory>
        requires { length self.old.numbers ≡ length self.old.names }
        ensures name { OnOk result (HasName (number_of self.old.names name.now) self.old.names self.old.numbers self.new name.now number) }
        ensures clock { self.new.clock ≡ self.old.clock }
    {
        if self.names.number(name).is_some() {
            return Ok(());
        }
        self.names.push(alloc, name)?;
        self.numbers.push(number)
    }

    /// The number of the code of the signal of this name.
    pub(crate) fn number(&self, name: &[u8]) -> Option<usize>
        ensures { (codes scope : List (List ℕ)) (parts : List Part) → StandFor codes scope self.now parts
            → IsNumbered codes (signal_in scope name.now parts) result }
    {
        let place = self.names.number(name)?;
        self.numbers.get(place).copied()
    }
}
