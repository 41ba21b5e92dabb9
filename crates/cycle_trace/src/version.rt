ghost use Rattle.std.specs.Prelude.{◌≡◌};
ghost use Rattle.std.specs.List.{list_all};
ghost use Rattle.tydi_base.specs.Level.{has_one_number};
ghost use Rattle.cycle_trace.specs.Version.{may_have_level, title_text, version_of};

use physical_stream::Head;

/// The version of a trace text (this project's own).
#[derive(Clone, Copy)]
pub enum Version {
    /// Each level has one number.
    One,
    /// A level has one to four numbers.
    Two,
}

impl Version {
    /// The version that a header of these heads is written in: the first where each level has one number.
    pub(crate) fn of(heads: &[Head]) -> Version
        ensures { result ≡ version_of heads.now }
    {
        if have_one_number(heads) {
            Version::One
        } else {
            Version::Two
        }
    }

    /// Whether this head may stand in a text of this version.
    pub(crate) fn may_have(self, head: &Head) -> bool
        ensures { result ≡ may_have_level self head.now.params.level }
    {
        match self {
            Version::One => head.params.level.has_one_number(),
            Version::Two => true,
        }
    }

    /// The first line of a text of this version.
    pub(crate) fn title(self) -> &'static str
        ensures { result.now ≡ title_text self }
    {
        match self {
            Version::One => "tydi-trace 1",
            Version::Two => "tydi-trace 2",
        }
    }
}

/// Whether the level of each of these heads has one number.
fn have_one_number(heads: &[Head]) -> bool
    ensures { result ≡ list_all (λ head. has_one_number head.params.level) heads.now }
{
    heads.iter().all(|head| head.params.level.has_one_number())
}
