ghost use Rattle.std.specs.Prelude.{◌≡◌};
ghost use Rattle.til_parser.specs.Numbers.{lowest};
ghost use Rattle.tydi_base.specs.Level.{whole_level};
ghost use Rattle.til_parser.specs.ReadTypes.{is_given, none_given, stream_of};

use crate::keyword::Argument;
use crate::ltype::{AstStream, AstSync, AstType};
use tydi_base::{Frac, Level};

/// The arguments of a Stream that are written.
#[derive(Drop)]
pub(crate) struct Arguments {
    pub(crate) element: Option<AstType>,
    pub(crate) throughput: Option<Frac>,
    pub(crate) dims: Option<u64>,
    pub(crate) sync: Option<AstSync>,
    pub(crate) level: Option<Level>,
    pub(crate) reverse: Option<bool>,
    pub(crate) user: Option<AstType>,
    pub(crate) keep: Option<bool>,
}

impl Arguments {
    pub(crate) fn none() -> Arguments
        ensures { result ≡ none_given }
    {
        Arguments {
            element: None,
            throughput: None,
            dims: None,
            sync: None,
            level: None,
            reverse: None,
            user: None,
            keep: None,
        }
    }

    /// Whether there is a value for an argument.
    pub(crate) fn has(&self, name: Argument) -> bool
        ensures { result ≡ is_given name self.now }
    {
        match name {
            Argument::Data => self.element.is_some(),
            Argument::Throughput => self.throughput.is_some(),
            Argument::Dimensionality => self.dims.is_some(),
            Argument::Synchronicity => self.sync.is_some(),
            Argument::Complexity => self.level.is_some(),
            Argument::Direction => self.reverse.is_some(),
            Argument::User => self.user.is_some(),
            Argument::Keep => self.keep.is_some(),
        }
    }

    /// The Stream of these arguments, the defaults filled in. None exactly where its data type is missing.
    pub(crate) fn into_stream(self) -> Option<AstStream>
        ensures { result ≡ stream_of self }
    {
        let element = self.element?;
        Some(AstStream {
            element,
            throughput: self.throughput.unwrap_or(default_throughput()),
            dims: self.dims.unwrap_or(0),
            sync: self.sync.unwrap_or(AstSync::Sync),
            level: self.level.unwrap_or(default_level()),
            reverse: self.reverse.unwrap_or(false),
            user: self.user.unwrap_or(AstType::Null),
            keep: self.keep.unwrap_or(false),
        })
    }
}

#[tactic(auto, unfolding(crate::specs::Numbers::lowest))]
fn default_throughput() -> Frac
    ensures { result ≡ lowest 1 1 }
{
    Frac::new(1, 1).unwrap()
}

fn default_level() -> Level
    ensures { result ≡ whole_level 4 }
{
    Level::new(4).unwrap()
}
