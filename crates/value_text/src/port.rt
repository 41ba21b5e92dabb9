//! The roots of a port, line after line.

ghost use Rattle.std.specs.Prelude.{◌≡◌, [], map, slice_get};
ghost use Rattle.logical_types.specs.Tree.{plain};
ghost use Rattle.tydi_reading.specs.Reading.{Reads, ReadsAlways};
ghost use Rattle.type_split.specs.Streams.{node_view, plain_split};
ghost use Rattle.value_text.specs.Port as spec;
ghost use Rattle.value_text.specs.Typed as typed;
ghost use Rattle.value_text.specs.Typed.{nest, shaped};
ghost use Rattle.value_text.specs.Words as words;

use crate::fault::Why;
use crate::tokens::Tokens;
use logical_types::LType;
use logical_value::Value;
use std::alloc::Global;
use tydi_base::{List, Path, emit};
use tydi_reading::{Fault, Source, repeated};
use type_split::{Node, Split};

impl<'a> Tokens<'a> {
    /// The series of a port's roots.
    #[tactic(auto, unfolding(crate::specs::Port::port))]
    pub(crate) fn take_port(
        &mut self,
        alloc: Global,
        split: &Split<'_>,
    ) -> Result<List<List<Value>>, Fault<Why>>
        ensures { Reads (spec.port (plain_split split.now) self.old) result self.new }
    {
        let roots = self.take_roots(alloc, split)?;
        self.take_end()?;
        Ok(roots)
    }

    /// The line of each root.
    fn take_roots(
        &mut self,
        alloc: Global,
        split: &Split<'_>,
    ) -> Result<List<List<Value>>, Fault<Why>>
        ensures { Reads (spec.roots_from (map node_view split.now.nodes) split.now.roots [] self.old) result self.new }
    {
        let mut series = List::new(alloc);
        'roots: for root in split.roots.as_slice() {
            series = self.take_one(alloc, split, *root, series)?;
        }
        Ok(series)
    }

    /// The series of one root more, behind those that are found.
    #[tactic(auto, unfolding(crate::specs::Port::next_root))]
    fn take_one(
        &mut self,
        alloc: Global,
        split: &Split<'_>,
        root: u32,
        found: List<List<Value>>,
    ) -> Result<List<List<Value>>, Fault<Why>>
        ensures { Reads (spec.next_root (spec.root_of (slice_get (map node_view split.now.nodes) root)) found self.old) result self.new }
    {
        let series = self.take_root(alloc, split, root)?;
        let mut all = found;
        all.push(series)?;
        Ok(all)
    }

    /// The line of the root of this number.
    fn take_root(
        &mut self,
        alloc: Global,
        split: &Split<'_>,
        root: u32,
    ) -> Result<List<Value>, Fault<Why>>
        ensures { Reads (spec.root_of (slice_get (map node_view split.now.nodes) root) self.old) result self.new }
    {
        match split.nodes.get(root as usize) {
            Some(node) => self.take_line(alloc, node),
            None => Err(Fault::Unfit(Why::WrongShape)),
        }
    }

    /// The line of a root of this node.
    #[tactic(auto, unfolding(crate::specs::Port::root_line))]
    fn take_line(&mut self, alloc: Global, node: &Node<'_>) -> Result<List<Value>, Fault<Why>>
        ensures { Reads (spec.root_line (node_view node.now) self.old) result self.new }
    {
        self.take_root_word()?;
        self.take_path(alloc, &node.path)?;
        self.take_series(alloc, node.element, u64::from(node.params.dims))
    }

    /// The word with which the line of a root begins.
    #[tactic(auto, unfolding(crate::specs::Typed::shaped))]
    fn take_root_word(&mut self) -> Result<(), Fault<Why>>
        ensures { ReadsAlways (shaped words.root_word self.old) result self.new }
    {
        if !self.sees_root() {
            return Err(Fault::Unfit(Why::WrongShape));
        }
        self.skip();
        Ok(())
    }

    /// This path, and its `=`.
    #[tactic(auto, unfolding(crate::specs::Typed::shaped))]
    fn take_path(&mut self, alloc: Global, path: &Path) -> Result<(), Fault<Why>>
        ensures { Reads (shaped (spec.is_path_of path.now) self.old) result self.new }
    {
        let mut text = List::new(alloc);
        emit!(text; path)?;
        if !self.sees_path_text(text.as_slice()) {
            return Err(Fault::Unfit(Why::WrongShape));
        }
        self.skip();
        Ok(())
    }

    /// Values that are nests of this depth, up to a semicolon.
    #[tactic(auto, unfolding(crate::specs::Port::series_values))]
    fn take_series(
        &mut self,
        alloc: Global,
        element: &LType,
        depth: u64,
    ) -> Result<List<Value>, Fault<Why>>
        ensures { Reads (spec.series_values (nest (typed.element (plain element.now)) depth) self.old) result self.new }
    {
        let series = repeated(
            self,
            List::new(alloc),
            |rest| rest.sees(b';'),
            |rest| rest.take_nest(alloc, element, depth),
        )?;
        self.take_byte(b';')?;
        Ok(series)
    }

    /// The end of the text.
    #[tactic(auto, unfolding(crate::specs::Port::no_more))]
    fn take_end(&mut self) -> Result<(), Fault<Why>>
        ensures { ReadsAlways (spec.no_more self.old) result self.new }
    {
        if self.is_at_end() {
            return Ok(());
        }
        self.skip();
        Err(Fault::Unfit(Why::WrongShape))
    }
}
