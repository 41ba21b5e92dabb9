ghost use Rattle.std.specs.Prelude.{◌≡◌, codes};
ghost use Rattle.physical_stream.specs.Rules.{number_of_rule, name_of_rule};

/// The rules that a stream keeps, after the Tydi specification's complexity levels; numbers and names are this project's own.
#[derive(Clone, Copy, Debug, PartialEq, Eq)]
pub enum Rule {
    /// An offered transfer stays as it is until it is taken.
    Hold,
    /// stai ≤ endi ≤ N-1.
    Index,
    /// Only the last lane has last bits.
    LaneLast,
    /// All strobe bits are equal.
    Strobe,
    /// stai is 0.
    Start,
    /// endi is N-1 unless a sequence ends.
    End,
    /// A transfer without an active lane closes an empty sequence.
    Empty,
    /// No pause inside an innermost sequence.
    InnerPause,
    /// No pause inside a packet.
    OuterPause,
    /// A sequence closes only where the one inside it has closed.
    Nest,
    /// A union's tag names a variant.
    Tag,
}

impl Rule {
    /// Its number, 1 to 11.
    pub fn number(self) -> u8
        ensures { result ≡ number_of_rule self }
    {
        match self {
            Rule::Hold => 1,
            Rule::Index => 2,
            Rule::LaneLast => 3,
            Rule::Strobe => 4,
            Rule::Start => 5,
            Rule::End => 6,
            Rule::Empty => 7,
            Rule::InnerPause => 8,
            Rule::OuterPause => 9,
            Rule::Nest => 10,
            Rule::Tag => 11,
        }
    }

    /// Its name, as error lines write it.
    pub fn name(self) -> &'static str
        ensures { result.now ≡ name_of_rule self }
    {
        match self {
            Rule::Hold => "Hold",
            Rule::Index => "Index",
            Rule::LaneLast => "LaneLast",
            Rule::Strobe => "Strobe",
            Rule::Start => "Start",
            Rule::End => "End",
            Rule::Empty => "Empty",
            Rule::InnerPause => "InnerPause",
            Rule::OuterPause => "OuterPause",
            Rule::Nest => "Nest",
            Rule::Tag => "Tag",
        }
    }
}
