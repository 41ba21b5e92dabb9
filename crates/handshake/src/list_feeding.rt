ghost use Rattle.std.specs.Prelude.{◌≡◌, drop};

use crate::feed::{Rewind, TransferFeed};
use crate::list_feed::ListFeed;
use physical_stream::Transfer;

impl TransferFeed for ListFeed {
    ghost params = { λ feed. feed.params };

    ghost whole = { λ feed. feed.list };

    ghost rest = { λ feed. drop feed.place feed.list };

    fn left(&self) -> usize {
        self.list.len() - self.place
    }

    fn next(&mut self, into: &mut Transfer) -> bool {
        if self.place >= self.list.len() {
            return false;
        }
        match self.list.get(self.place) {
            Some(transfer) => {
                into.copy_from(transfer);
                self.place += 1;
                true
            }
            None => unreachable!(),
        }
    }
}

impl Rewind for ListFeed {
    fn rewind(&mut self) {
        self.place = 0;
    }
}
