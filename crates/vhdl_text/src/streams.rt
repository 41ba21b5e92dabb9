//! The streams of a bench, found by their paths.

ghost use Rattle.std.specs.Prelude.{◌≡◌, ◌<◌, ◌≤◌, IsTrue, IfOk, Some, length, slice_get};
ghost use Rattle.vhdl_text.specs.Lines as spec;
ghost use Rattle.vhdl_text.specs.Lines.{paths_of};
ghost use Rattle.vhdl_text.specs.Streams.{AreNamed};
ghost use Rattle.vhdl_text.specs.WellFormed.{AreApart, is_signal};
ghost use Rattle.signal_layout.specs.declared.signal.Signal.TheVariants as signals;

use crate::cuts::{cut_last, is_same};
use crate::place::Place;
use physical_stream::Head;
use signal_layout::{Signal, Signals};
use std::alloc::Global;
use std::collections::BTreeMap;
use tydi_base::{List, Memory};

/// The streams of a bench, which have different paths.
#[derive(Drop)]
pub(crate) struct Streams {
    pub(crate) heads: List<Head>,
    /// The text of the path of each stream.
    pub(crate) paths: List<List<u8>>,
    /// Where the stream of a path may stand. No contract speaks of it: a place that it gives is looked at.
    places: BTreeMap<Vec<u8>, u32>,
}

impl Streams {
    /// The streams of these heads.
    pub(crate) fn new(alloc: Global, heads: List<Head>) -> Result<Streams, Memory>
        requires apart { AreApart heads }
        requires few { length heads ≤ 65536 }
        ensures same { IfOk result (λ streams. streams.heads ≡ heads) }
        ensures named { IfOk result AreNamed }
    {
        let paths = path_texts(alloc, heads.as_slice())?;
        let places = places_of(alloc, paths.as_slice())?;
        Ok(Streams {
            heads,
            paths,
            places,
        })
    }

    /// The signal of a stream that a name is the name of, whether the stream has it or not.
    #[tactic(auto, unfolding(crate::specs::Lines::place_of))]
    pub(crate) fn place_of(&self, name: &[u8]) -> Option<Place>
        requires named { AreNamed self.now }
        ensures { result ≡ spec.place_of (paths_of self.now.heads) name.now }
    {
        let (path, word) = cut_last(name, b'.')?;
        let stream = self.number_of(path)?;
        let signal = signal_of_word(word)?;
        Some(Place { stream, signal })
    }

    /// The number of the stream of this path.
    fn number_of(&self, path: &[u8]) -> Option<u32>
        requires named { AreNamed self.now }
        ensures { result ≡ spec.number_of (paths_of self.now.heads) path.now }
    {
        if let Some(place) = self.places.get(path) {
            if is_at(self.paths.as_slice(), *place, path) {
                return Some(*place);
            }
        }
        search(self.paths.as_slice(), path)
    }

    /// The width in bits of a signal that a bench assigns to: valid, or a payload signal that the stream has.
    #[tactic(auto, unfolding(crate::specs::Lines::put_width))]
    pub(crate) fn put_width(&self, place: Place) -> Option<u32>
        ensures { result ≡ spec.put_width self.now.heads place }
    {
        if is_ready(place.signal) {
            return None;
        }
        let head = self.heads.get(place.stream as usize)?;
        Signals::of(&head.params).width(place.signal)
    }
}

/// Whether the path at this place is this one.
fn is_at(paths: &[List<u8>], place: u32, path: &[u8]) -> bool
    ensures { IsTrue result → slice_get paths.now place ≡ Some path.now }
{
    match paths.get(place as usize) {
        Some(other) => is_same(path, other.as_slice()),
        None => false,
    }
}

/// Where this path stands first.
fn search(paths: &[List<u8>], path: &[u8]) -> Option<u32>
    requires { length paths.now < 4294967296 }
    ensures { result ≡ spec.number_of paths.now path.now }
{
    let mut number = 0;
    'paths: for other in paths {
        if is_same(path, other.as_slice()) {
            return Some(number);
        }
        number += 1;
    }
    None
}

/// The texts of the paths of these heads.
fn path_texts(alloc: Global, heads: &[Head]) -> Result<List<List<u8>>, Memory>
    ensures { IfOk result (λ paths. paths ≡ paths_of heads.now) }
{
    let mut paths = List::new(alloc);
    'heads: for head in heads {
        let mut text = List::new(alloc);
        head.path.write_dotted(&mut text)?;
        paths.push(text)?;
    }
    Ok(paths)
}

/// The places of these paths.
fn places_of(alloc: Global, paths: &[List<u8>]) -> Result<BTreeMap<Vec<u8>, u32>, Memory> {
    let mut places = BTreeMap::new(alloc);
    let mut number = 0_u32;
    'paths: for path in paths {
        places.insert(Vec::from_slice(alloc, path.as_slice())?, number)?;
        number = number.saturating_add(1);
    }
    Ok(places)
}

/// Whether it is the signal that the sink drives.
pub(crate) fn is_ready(signal: Signal) -> bool
    ensures { result ≡ is_signal signal signals.Ready }
{
    match signal {
        Signal::Ready => true,
        Signal::Valid
        | Signal::Content
        | Signal::Last
        | Signal::Stai
        | Signal::Endi
        | Signal::Strb
        | Signal::User => false,
    }
}

/// The signal that a word is for.
#[tactic(auto, unfolding(crate::specs::Lines::signal_of_word))]
fn signal_of_word(word: &[u8]) -> Option<Signal>
    ensures { result ≡ spec.signal_of_word word.now }
{
    if word == b"valid".as_slice() {
        Some(Signal::Valid)
    } else if word == b"ready".as_slice() {
        Some(Signal::Ready)
    } else if word == b"data".as_slice() {
        Some(Signal::Content)
    } else if word == b"last".as_slice() {
        Some(Signal::Last)
    } else if word == b"stai".as_slice() {
        Some(Signal::Stai)
    } else if word == b"endi".as_slice() {
        Some(Signal::Endi)
    } else if word == b"strb".as_slice() {
        Some(Signal::Strb)
    } else if word == b"user".as_slice() {
        Some(Signal::User)
    } else {
        None
    }
}
