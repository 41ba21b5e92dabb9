//! Lists of words. They are most of a value, so no value is handed up through the types around it.

ghost use Rattle.std.specs.Prelude.{◌≡◌};
ghost use Rattle.logical_types.specs.Tree.{bits};
ghost use Rattle.tydi_reading.specs.Reading.{Reads};
ghost use Rattle.value_text.specs.Typed as spec;

use crate::fault::Why;
use crate::tokens::Tokens;
use crate::typed::{fitted, room_for_one};
use logical_value::Value;
use std::alloc::Global;
use tydi_base::List;
use tydi_reading::{Fault, Source, repeated};

impl<'a> Tokens<'a> {
    /// A list of words of this width.
    #[tactic(auto, unfolding(crate::specs::Typed::list_value))]
    pub(crate) fn take_words(&mut self, alloc: Global, width: u64) -> Result<Value, Fault<Why>>
        ensures { Reads (spec.list_value (spec.element (bits width)) self.old) result self.new }
    {
        self.take_byte(b'[')?;
        let words = self.take_listed_words(alloc, width)?;
        Ok(Value::List(fitted(words)))
    }

    /// The words of a list, of this width, and its end.
    #[tactic(auto, unfolding(crate::specs::Typed::listed_values))]
    fn take_listed_words(&mut self, alloc: Global, width: u64) -> Result<List<Value>, Fault<Why>>
        ensures { Reads (spec.listed_values (spec.element (bits width)) self.old) result self.new }
    {
        let words = repeated(
            self,
            room_for_one(alloc),
            |rest| rest.sees(b']'),
            |rest| rest.take_next_word(alloc, width),
        )?;
        self.take_byte(b']')?;
        Ok(words)
    }

    /// A word of this width, after a comma where one stands.
    #[tactic(auto, unfolding(crate::specs::Typed::next_value))]
    fn take_next_word(&mut self, alloc: Global, width: u64) -> Result<Value, Fault<Why>>
        ensures { Reads (spec.next_value (spec.element (bits width)) self.old) result self.new }
    {
        self.take_comma();
        Ok(Value::Word(self.take_word(alloc, width)?))
    }
}
