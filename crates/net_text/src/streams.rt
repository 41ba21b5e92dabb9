//! The streams of a port, found by their paths.

ghost use Rattle.std.specs.Prelude.{◌≡◌, ◌<◌, length, IfOk, IfSome};
ghost use Rattle.net_text.specs.Text as spec;
ghost use Rattle.plan_text.specs.Numbers.{FindsFirst};

use std::alloc::Global;
use std::collections::BTreeMap;
use tydi_base::{Memory, Path, TryClone};
use type_split::Phys;

/// The streams of a port, with the number of each by its path.
#[derive(Drop)]
pub(crate) struct Streams<'s> {
    pub(crate) list: &'s [Phys],
    /// Where streams have one path, it has the first of them.
    numbers: BTreeMap<Path, usize>,
    ghost finds: { FindsFirst numbers 0 list.now },
}

impl<'s> Streams<'s> {
    /// These streams.
    pub(crate) fn new(alloc: Global, list: &'s [Phys]) -> Result<Streams<'s>, Memory>
        ensures { IfOk result (λ streams. streams.list.now ≡ list.now) }
    {
        Ok(Streams {
            list,
            numbers: numbers_of(alloc, list)?,
        })
    }

    /// The number of the first stream of this path.
    pub(crate) fn find(&self, path: &Path) -> Option<usize>
        ensures value { result ≡ spec.number_of path.now self.now.list.now }
        ensures within { IfSome result (λ number. number < length self.now.list.now) }
    {
        let number = *self.numbers.get(path)?;
        Some(number)
    }
}

/// For each path of a stream, the number of the first of these streams that has it.
fn numbers_of(alloc: Global, list: &[Phys]) -> Result<BTreeMap<Path, usize>, Memory>
    ensures { IfOk result (λ numbers. FindsFirst numbers 0 list.now) }
{
    let mut numbers = BTreeMap::new(alloc);
    let mut left = list.len();
    'streams: while left > 0 {
        left -= 1;
        numbers.insert(list[left].path.try_clone(alloc)?, left)?;
    }
    Ok(numbers)
}
