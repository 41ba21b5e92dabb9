//! The blocks of a text, line by line.

ghost use Rattle.std.specs.Prelude.{◌≡◌, ◌<◌, length, List, [], Some, slice_set, IfOk};
ghost use Rattle.std.specs.Option.{is_some};
ghost use Rattle.tydi_base.specs.Reading.{Gives};
ghost use Rattle.plan_text.specs.Blocks as spec;
ghost use Rattle.plan_text.specs.Draft.{Adds, Holds, Keeps};
ghost use Rattle.plan_text.specs.Faults.{fault_in};
ghost use Rattle.plan_text.specs.LinesView.{line_in};
ghost use Rattle.plan_text.specs.declared.block.Block as blocks;

use crate::block::Block;
use crate::fault::PlanFault;
use crate::filling::plans_in;
use crate::lines::Line;
use crate::plan::StreamPlan;
use crate::streams::Streams;
use std::alloc::Global;
use std::mem;
use tydi_base::{List, Memory, Path, Place};
use type_split::Phys;

/// The blocks so far.
#[derive(Drop)]
pub(crate) struct Draft<'s> {
    streams: Streams<'s>,
    /// For each stream, the plan in its block, where it has one before the open one.
    blocks: Vec<Option<StreamPlan>>,
    /// The block to which the next lines belong.
    current: Option<Block>,
}

impl<'s> Draft<'s> {
    /// No blocks, for these streams.
    pub(crate) fn new(alloc: Global, streams: &'s [Phys]) -> Result<Draft<'s>, Memory>
        ensures blocks { IfOk result (λ draft. Holds draft []) }
        ensures streams { IfOk result (λ draft. draft.streams.list.now ≡ streams.now) }
    {
        Ok(Draft {
            streams: Streams::new(alloc, streams)?,
            blocks: no_blocks(alloc, streams)?,
            current: None,
        })
    }

    /// Puts the open block among the others.
    fn close(&mut self)
        requires { (found : List blocks.Block) × Holds self.old found }
        ensures kept { (found : List blocks.Block) → Holds self.old found → Keeps self.new found }
        ensures streams { self.new.streams.list.now ≡ self.old.streams.list.now }
    {
        if let Some(block) = mem::replace(&mut self.current, None) {
            put_block(&mut self.blocks, block);
        }
    }

    /// Whether the stream of this number has a block, where none is open.
    fn has_block(&self, number: usize) -> bool
        requires kept { (found : List blocks.Block) × Keeps self.now found }
        requires within { number < length self.now.streams.list.now }
        ensures { (found : List blocks.Block) → Keeps self.now found → result ≡ is_some (spec.block_of number found) }
    {
        self.blocks[number].is_some()
    }

    /// The block that a line `stream` with this text begins, where none is open.
    #[tactic(auto, unfolding(crate::specs::Blocks::begun_by))]
    fn begun_by(&self, alloc: Global, place: Place, text: &[u8]) -> Result<Block, PlanFault>
        requires { (found : List blocks.Block) × Keeps self.now found }
        ensures gives { (found : List blocks.Block) → Keeps self.now found → Gives fault_in (λ block. block) result (spec.begun_by place self.now.streams.list.now found text.now) }
        ensures within { IfOk result (λ block. block.number < length self.now.streams.list.now) }
    {
        let Some(path) = Path::read_dotted(alloc, text)? else {
            return Err(PlanFault::Syntax(place));
        };
        let Some((number, params)) = self.streams.find(&path) else {
            return Err(PlanFault::UnknownStream(place));
        };
        if self.has_block(number) {
            return Err(PlanFault::StreamTwice(place));
        }
        Ok(Block::new(alloc, number, params))
    }

    /// Begins the block of a line `stream` with this text.
    fn begin(&mut self, alloc: Global, place: Place, text: &[u8]) -> Result<(), PlanFault>
        requires { (found : List blocks.Block) × Holds self.old found }
        ensures begun { (found : List blocks.Block) → Holds self.old found → Adds result self.new (spec.with_begun place self.old.streams.list.now found text.now) }
        ensures streams { self.new.streams.list.now ≡ self.old.streams.list.now }
    {
        self.close();
        match self.begun_by(alloc, place, text) {
            Ok(block) => {
                self.current = Some(block);
                Ok(())
            }
            Err(fault) => Err(fault),
        }
    }

    /// Adds a line to the open block.
    fn add_to_open(&mut self, alloc: Global, cycles: u32, line: Line<'_>) -> Result<(), PlanFault>
        ensures more { (found : List blocks.Block) → Holds self.old found → Adds result self.new (spec.in_block cycles (line_in line.entry) found) }
        ensures streams { self.new.streams.list.now ≡ self.old.streams.list.now }
    {
        match &mut self.current {
            Some(block) => block.plan.add_line(alloc, cycles, &block.params, line),
            None => Err(PlanFault::Syntax(line.place)),
        }
    }

    /// Adds a line after the first two, in a run of so many cycles.
    #[tactic(auto, unfolding(crate::specs::Blocks::with_more))]
    pub(crate) fn add_line(
        &mut self,
        alloc: Global,
        cycles: u32,
        line: Line<'_>,
    ) -> Result<(), PlanFault>
        requires { (found : List blocks.Block) × Holds self.old found }
        ensures more { (found : List blocks.Block) → Holds self.old found → Adds result self.new (spec.with_more cycles self.old.streams.list.now (line_in line.entry) found) }
        ensures streams { self.new.streams.list.now ≡ self.old.streams.list.now }
    {
        if line.bytes.starts_with(b"stream ") {
            self.begin(alloc, line.place, &line.bytes[7..])
        } else {
            self.add_to_open(alloc, cycles, line)
        }
    }

    /// The plans of all streams, in a run of so many cycles.
    pub(crate) fn plans(self, alloc: Global, cycles: u32) -> Result<List<StreamPlan>, Memory>
        requires { (found : List blocks.Block) × Holds self found }
        ensures { (found : List blocks.Block) → Holds self.entry found → IfOk result (λ plans. plans ≡ spec.plans_of cycles (length self.entry.streams.list.now) found) }
    {
        let mut draft = self;
        draft.close();
        plans_in(alloc, cycles, draft.blocks)
    }
}

/// Puts a block in its place.
fn put_block(blocks: &mut Vec<Option<StreamPlan>>, block: Block)
    requires { block.number < length blocks.old.items }
    ensures { blocks.new.items ≡ slice_set blocks.old.items block.number (Some block.plan) }
{
    let Block { number, plan, .. } = block;
    blocks[number] = Some(plan);
}

/// For each of these streams, that it has no block.
fn no_blocks(alloc: Global, streams: &[Phys]) -> Result<Vec<Option<StreamPlan>>, Memory>
    ensures { IfOk result (λ made. made.items ≡ spec.blocks_from 0 (length streams.now) []) }
{
    let mut made = Vec::with_capacity(alloc, streams.len())?;
    'streams: for _number in 0..streams.len() {
        made.push(None)?;
    }
    Ok(made)
}
