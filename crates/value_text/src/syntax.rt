//! Whether a text has the form of a value.

ghost use Rattle.std.specs.Prelude.{◌≡◌};
ghost use Rattle.tydi_reading.specs.Reading.{Reads, ReadsAlways};
ghost use Rattle.value_text.specs.Syntax as spec;

use crate::fault::Why;
use crate::opening::Opening;
use crate::tokens::Tokens;
use std::alloc::Global;
use tydi_base::List;
use tydi_reading::{Fault, Source, followed, listed, mark, repeated};

/// How deep members may nest.
const MOST_LEVELS: usize = 2200;

impl<'a> Tokens<'a> {
    /// A text: the lines of roots, up to the end.
    #[tactic(auto, unfolding(crate::specs::Syntax::text))]
    pub(crate) fn pass_text(&mut self, alloc: Global) -> Result<(), Fault<Why>>
        ensures { Reads (spec.text self.old) result self.new }
    {
        repeated(
            self,
            List::new(alloc),
            |rest| rest.is_at_end(),
            |rest| rest.pass_root(alloc),
        )?;
        Ok(())
    }

    /// The line of a root.
    #[tactic(auto, unfolding(crate::specs::Syntax::root))]
    fn pass_root(&mut self, alloc: Global) -> Result<(), Fault<Why>>
        ensures { Reads (spec.root self.old) result self.new }
    {
        mark(self, |rest| rest.sees_root())?;
        mark(self, |rest| rest.sees_path())?;
        self.pass_series(alloc)
    }

    /// Members one after another, with white space between each two, and a semicolon.
    #[tactic(auto, unfolding(crate::specs::Syntax::series))]
    fn pass_series(&mut self, alloc: Global) -> Result<(), Fault<Why>>
        ensures { Reads (spec.series (spec.member 2200) self.old) result self.new }
    {
        followed(
            self,
            List::new(alloc),
            |rest| rest.sees(b';'),
            |rest| rest.is_spaced(),
            |rest| rest.pass_member(alloc, MOST_LEVELS),
        )?;
        self.pass_byte(b';')
    }

    /// This byte.
    fn pass_byte(&mut self, byte: u8) -> Result<(), Fault<Why>>
        ensures { ReadsAlways (spec.byte byte self.old) result self.new }
    {
        mark(self, |rest| rest.sees(byte))
    }

    /// A member by itself.
    fn pass_leaf(&mut self) -> Result<(), Fault<Why>>
        ensures { ReadsAlways (spec.leaf_word self.old) result self.new }
    {
        mark(self, |rest| rest.sees_leaf())
    }

    /// A member of at most so many levels.
    #[cycle(member)]
    fn pass_member(&mut self, alloc: Global, levels: usize) -> Result<(), Fault<Why>>
        ensures { Reads (spec.member levels self.old) result self.new }
    {
        if levels == 0 {
            return self.pass_leaf();
        }
        self.pass_within(alloc, levels - 1)
    }

    /// A member that holds members of at most so many levels.
    #[cycle(member)]
    #[tactic(auto, unfolding(crate::specs::Syntax::member_with))]
    fn pass_within(&mut self, alloc: Global, levels: usize) -> Result<(), Fault<Why>>
        ensures { Reads (spec.member_with (spec.member levels) self.old) result self.new }
    {
        match self.opening() {
            Some(what) => {
                self.skip();
                self.pass_inside(alloc, what, levels)
            }
            None => self.pass_leaf(),
        }
    }

    /// The content of the list, Group or variant that was opened, of at most so many levels, and its end.
    #[cycle(member)]
    fn pass_inside(&mut self, alloc: Global, what: Opening, levels: usize) -> Result<(), Fault<Why>>
        ensures { Reads (spec.inside (spec.member levels) what self.old) result self.new }
    {
        match what {
            Opening::List => self.pass_items(alloc, levels),
            Opening::Group => self.pass_fields(alloc, levels),
            Opening::Variant => {
                self.pass_member(alloc, levels)?;
                self.pass_byte(b')')
            }
        }
    }

    /// The members of a list, of at most so many levels, and its end.
    #[cycle(member)]
    #[tactic(auto, unfolding(crate::specs::Syntax::items))]
    fn pass_items(&mut self, alloc: Global, levels: usize) -> Result<(), Fault<Why>>
        ensures { Reads (spec.items 93 (spec.member levels) self.old) result self.new }
    {
        listed(
            self,
            List::new(alloc),
            |rest| rest.sees(b']'),
            |rest| rest.sees(b','),
            |rest| -> Result<(), Fault<Why>>
                ensures { Reads (spec.member levels rest.old) result rest.new }
            { rest.pass_member(alloc, levels) },
        )?;
        self.pass_byte(b']')
    }

    /// The fields of a Group, with members of at most so many levels, and its end.
    #[cycle(member)]
    #[tactic(auto, unfolding(crate::specs::Syntax::items))]
    fn pass_fields(&mut self, alloc: Global, levels: usize) -> Result<(), Fault<Why>>
        ensures { Reads (spec.items 125 (spec.field (spec.member levels)) self.old) result self.new }
    {
        listed(
            self,
            List::new(alloc),
            |rest| rest.sees(b'}'),
            |rest| rest.sees(b','),
            |rest| -> Result<(), Fault<Why>>
                ensures { Reads (spec.field (spec.member levels) rest.old) result rest.new }
            { rest.pass_field(alloc, levels) },
        )?;
        self.pass_byte(b'}')
    }

    /// A name before a colon, and a member of at most so many levels.
    #[cycle(member)]
    #[tactic(auto, unfolding(crate::specs::Syntax::field))]
    fn pass_field(&mut self, alloc: Global, levels: usize) -> Result<(), Fault<Why>>
        ensures { Reads (spec.field (spec.member levels) self.old) result self.new }
    {
        mark(self, |rest| rest.sees_field())?;
        self.pass_member(alloc, levels)
    }
}
