//! What the parts of a dump have said so far.

ghost use Rattle.std.specs.Prelude.{◌≡◌, ◌≤◌, ◌<◌, ◌+◌, ◌^◌, ◌∷◌, [], ℕ, List, true, length, Some, IfOk, IfSome, IsTrue, OnOk};
ghost use Rattle.cycle_trace.specs.Trace.{are_heads};
ghost use Rattle.tydi_base.specs.Reading.{Gives};
ghost use Rattle.vcd_read.specs.Dump.{MayDeclare, StandsFor, StandsForSome};
ghost use Rattle.vcd_read.specs.History.{Changes, Closes, Declares, Ends, Opens, Part, Stamps, declared_width, known};
ghost use Rattle.vcd_read.specs.Numbers.{number_of};
ghost use Rattle.vcd_read.specs.Kept.{kept_bytes, kept_text};
ghost use Rattle.vcd_read.specs.Shown.{fault_in, signals_shown};
ghost use Rattle.vcd_read.specs.Wanted.{Wanted};
ghost use Rattle.vcd_read.specs.Wires.{IsWide};
ghost use Rattle.vcd_read.specs.declared.state.State.{State};

use crate::dump_text::DumpText;
use crate::fault::VcdFault;
use crate::finder::Finder;
use crate::sampler::Sampler;
use crate::scopes::Scopes;
use crate::times::Times;
use crate::variables::Variables;
use crate::wires::Wires;
use physical_stream::Head;
use std::alloc::Global;
use tydi_base::{Bits, List, Memory, Path};

/// The scopes, codes, signals and times of a dump.
#[derive(Drop)]
pub(crate) struct Dump {
    pub(crate) scopes: Scopes,
    /// Whether the declarations have ended.
    pub(crate) ended: bool,
    pub(crate) wires: Wires,
    pub(crate) variables: Variables,
    pub(crate) times: Times,
    pub(crate) sampler: Sampler,
}

impl Dump {
    /// Nothing is read; the signals of this scope are wanted.
    pub(crate) fn new(alloc: Global, scope: &Path, heads: List<Head>) -> Result<Dump, Memory>
        requires { IsTrue (are_heads heads) }
        ensures stands { IfOk result (λ dump. StandsFor (record { scope = scope.now; heads = heads }) dump []) }
        ensures block { IfOk result (λ dump. dump.wires.block ≡ 0) }
    {
        Ok(Dump {
            scopes: Scopes::new(alloc, scope)?,
            ended: false,
            wires: Wires::new(alloc),
            variables: Variables::new(alloc),
            times: Times::none(),
            sampler: Sampler::new(alloc, heads),
        })
    }

    /// A scope of this name opens.
    pub(crate) fn open_scope(&mut self, alloc: Global, name: &[u8]) -> Result<(), Memory>
        ensures stands { OnOk result ((wanted : Wanted) (parts : List Part) → StandsFor wanted self.old parts
            → StandsFor wanted self.new (Opens name.now ∷ parts)) }
        ensures block { self.new.wires.block ≡ self.old.wires.block }
    {
        self.scopes.open(alloc, name)
    }

    /// The innermost scope closes.
    pub(crate) fn close_scope(&mut self)
        ensures stands { (wanted : Wanted) (parts : List Part) → StandsFor wanted self.old parts → StandsFor wanted self.new (Closes ∷ parts) }
        ensures block { self.new.wires.block ≡ self.old.wires.block }
    {
        self.scopes.close();
    }

    /// Whether the declarations have ended.
    #[inline(always)]
    pub(crate) fn has_ended(&self) -> bool
        ensures { result ≡ self.now.ended }
    {
        self.ended
    }

    /// The declarations end.
    pub(crate) fn end_declarations(&mut self, alloc: Global) -> Result<(), Memory>
        ensures stands { OnOk result ((wanted : Wanted) (parts : List Part) → StandsFor wanted self.old parts → StandsFor wanted self.new (Ends ∷ parts)) }
        ensures block { self.new.wires.block ≡ self.old.wires.block }
    {
        let finder = Finder {
            variables: &self.variables,
            wires: &self.wires,
        };
        self.sampler.wire(alloc, finder)?;
        self.ended = true;
        Ok(())
    }

    /// A signal of this name is declared with a code, which may have this width.
    pub(crate) fn declare(
        &mut self,
        alloc: Global,
        width: u64,
        code: &[u8],
        name: &[u8],
    ) -> Result<(), Memory>
        requires { (wanted : Wanted) × ((parts : List Part) × StandsFor wanted self.old parts) }
        ensures stands { OnOk result ((wanted : Wanted) (parts : List Part) → StandsFor wanted self.old parts → MayDeclare width code.now parts
            → StandsFor wanted self.new (Declares width code.now name.now ∷ parts)) }
        ensures block { self.new.wires.block ≡ self.old.wires.block }
    {
        let number = self.wires.declare(alloc, width, code)?;
        if self.scopes.is_inside() {
            self.variables.add(alloc, width, name, number)
        } else {
            Ok(())
        }
    }

    /// A time stamp of this time stands at this place.
    pub(crate) fn stamp(&mut self, alloc: Global, offset: u64, time: u64) -> Result<(), Memory>
        requires stands { StandsForSome self.old }
        requires ended { self.old.ended ≡ true }
        requires past { self.old.wires.block ≤ offset }
        requires small { offset + 1 < 2 ^ 64 }
        ensures stands { OnOk result ((wanted : Wanted) (parts : List Part) → StandsFor wanted self.old parts
            → StandsFor wanted self.new (Stamps offset time ∷ parts)) }
        ensures block { self.new.wires.block ≤ offset + 1 }
    {
        let times = self.times.with(offset, time);
        if self.times.is_same(time) {
            self.times = times;
            return Ok(());
        }
        self.sampler.end_block(alloc, &self.wires)?;
        self.wires.begin_block(offset + 1);
        self.times = times;
        Ok(())
    }

    /// The text ends: the text of its trace, none where it has over 64 MiB; or what is wrong with its signals and rows.
    pub(crate) fn conclude(self, alloc: Global) -> Result<Option<DumpText>, VcdFault>
        requires stands { StandsForSome self }
        requires ended { self.ended ≡ true }
        ensures { (wanted : Wanted) (parts : List Part) → StandsFor wanted self parts → Gives fault_in kept_bytes result (kept_text (signals_shown wanted
            parts)) }
    {
        let Dump {
            wires,
            mut sampler,
            ..
        } = self;
        sampler.end_block(alloc, &wires)?;
        sampler.tell(alloc)
    }

    /// The code of this number changes to this word, which has its width.
    #[inline(always)]
    pub(crate) fn change(&mut self, number: usize, word: Option<Bits>)
        requires { number < length self.old.wires.wires }
        ensures stands { (wanted : Wanted) (parts : List Part) (code : List ℕ) (states : List State) → StandsFor wanted self.old parts
            → number_of self.old.wires.codes code ≡ Some number
            → IfSome (declared_width code parts) (λ width. IsWide width word) → word ≡ known (Some states)
            → StandsFor wanted self.new (Changes code states ∷ parts) }
        ensures block { self.new.wires.block ≡ self.old.wires.block }
    {
        self.wires.change(number, word);
    }
}
