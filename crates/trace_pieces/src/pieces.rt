ghost use Rattle.std.specs.Prelude.{◌≡◌, ◌<◌, ◌++◌, [], length, OnOk};
ghost use Rattle.trace_pieces.specs.Rows.{AreShownFrom, rows_from};

use crate::filling::fill;
use handshake::CycleFeed;
use physical_stream::Params;
use std::alloc::Global;
use std::mem;
use tydi_base::{List, Memory};

/// The rest of the text of a trace: its header, where that is still to come, and the rows, which are made as they are asked for.
#[derive(Drop)]
pub struct TracePieces<C: CycleFeed> {
    /// The text of the header, empty once it was given.
    pub header: List<u8>,
    /// The parameters of each stream.
    pub streams: List<Params>,
    /// The stream whose row comes next.
    pub stream: usize,
    /// The rows that are left.
    pub feed: C,
    ghost shown: { AreShownFrom streams stream (C.rows feed) },
}

impl<C: CycleFeed> TracePieces<C> {
    /// The whole text.
    pub fn new(header: List<u8>, streams: List<Params>, feed: C) -> TracePieces<C>
        requires { AreShownFrom streams 0 (C.rows feed) }
        ensures header { result.header ≡ header }
        ensures streams { result.streams ≡ streams }
        ensures stream { result.stream ≡ 0 }
        ensures rows { C.rows result.feed ≡ C.rows feed }
    {
        TracePieces {
            header,
            streams,
            stream: 0,
            feed,
        }
    }

    /// Makes the next piece, in the room of the last one. It is empty exactly where nothing is left. After `Memory` the text cannot go on.
    pub fn next(&mut self, alloc: Global, piece: &mut List<u8>) -> Result<(), Memory>
        ensures made { OnOk result (self.old.header ++ rows_from self.old.streams self.old.stream (C.rows self.old.feed)
            ≡ piece.new ++ (self.new.header ++ rows_from self.new.streams self.new.stream (C.rows self.new.feed))) }
        ensures some { OnOk result (0 < length (self.old.header ++ rows_from self.old.streams self.old.stream (C.rows self.old.feed)) → 0 < length piece.new) }
        ensures whole { C.whole self.new.feed ≡ C.whole self.old.feed }
    {
        piece.truncate(0);
        if !self.header.is_empty() {
            mem::swap(piece, &mut self.header);
            return Ok(());
        }
        fill(
            alloc,
            piece,
            self.streams.as_slice(),
            &mut self.stream,
            &mut self.feed,
        )
    }
}
