ghost use Rattle.std.specs.Prelude.{◌≡◌};
ghost use Rattle.signal_layout.specs.declared.signal.Signal.{Signal};
ghost use Rattle.physical_stream.specs.Params.{Parameters};
ghost use Rattle.physical_stream.specs.Signals.{has_content, has_last, has_stai, has_endi, has_strb, has_user};
ghost use Rattle.signal_layout.specs.Layout.{where_present, width_in, width_of};

use crate::signal::Signal;
use physical_stream::Params;
use tydi_base::index_width;

/// The widths of a stream's signals: none for a signal that the stream lacks.
#[derive(Clone, Copy, Debug, PartialEq, Eq)]
pub struct Signals {
    pub valid: Option<u32>,
    pub ready: Option<u32>,
    pub content: Option<u32>,
    pub last: Option<u32>,
    pub stai: Option<u32>,
    pub endi: Option<u32>,
    pub strb: Option<u32>,
    pub user: Option<u32>,
}

impl Signals {
    /// The widths of the signals of this stream.
    pub fn of(p: &Params) -> Signals
        ensures { (s : Signal) → width_in result s ≡ width_of p.now s }
    {
        let lanes = u32::from(p.lanes);
        let numbering = index_width(u64::from(p.lanes));
        Signals {
            valid: Some(1),
            ready: Some(1),
            content: where_present(p.element > 0, lanes * p.element),
            last: where_present(p.dims > 0, lanes * u32::from(p.dims)),
            stai: where_present(has_stai(p), numbering),
            endi: where_present(has_endi(p), numbering),
            strb: where_present(has_strb(p), lanes),
            user: where_present(p.user > 0, p.user),
        }
    }

    /// The width of this signal. None exactly where the stream lacks it.
    pub fn width(&self, signal: Signal) -> Option<u32>
        ensures { result ≡ width_in self.now signal }
    {
        match signal {
            Signal::Valid => self.valid,
            Signal::Ready => self.ready,
            Signal::Content => self.content,
            Signal::Last => self.last,
            Signal::Stai => self.stai,
            Signal::Endi => self.endi,
            Signal::Strb => self.strb,
            Signal::User => self.user,
        }
    }
}

// This width where the signal is present.
fn where_present(present: bool, width: u32) -> Option<u32>
    ensures { result ≡ where_present present width }
{
    if present { Some(width) } else { None }
}

// Whether the stream has stai.
fn has_stai(p: &Params) -> bool
    ensures { result ≡ has_stai p.now }
{
    p.level.number() >= 6 && p.lanes > 1
}

// Whether the stream has endi.
fn has_endi(p: &Params) -> bool
    ensures { result ≡ has_endi p.now }
{
    (p.level.number() >= 5 || p.dims > 0) && p.lanes > 1
}

// Whether the stream has strb.
fn has_strb(p: &Params) -> bool
    ensures { result ≡ has_strb p.now }
{
    p.level.number() >= 7 || p.dims > 0
}
