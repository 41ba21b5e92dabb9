//! One edge of a process: its statements run for the transfer that is done.

ghost use Rattle.std.specs.Prelude.{◌≡◌, ◌<◌, ◌≤◌, ◌-◌, ◌^◌, IfSome, IsTrue, length, slice_get};
ghost use Rattle.physical_stream.specs.Cycles.{cycle_in};
ghost use Rattle.physical_stream.specs.Items.{lane_word, last_bit};
ghost use Rattle.physical_stream.specs.Signals.{Fits};
ghost use Rattle.physical_stream.specs.declared.item.Item.TheVariants as items;
ghost use Rattle.watch_text.specs.Statements.{plain, plain_statements};
ghost use Rattle.monitor_bench.specs.Meaning as meaning;
ghost use Rattle.monitor_bench.specs.Meaning.{after_edge, after_transfer, for_each, is_expected, is_same_item, needs};
ghost use Rattle.monitor_bench.specs.Running.{CanRun, HasRoom, Steps, goes, process_with};

use physical_stream::{Item, Params, Row, Transfer, is_active, is_last};
use tydi_base::Bits;
use watch_text::WStmt;

/// Where a process stands, and room for the word of an element.
#[derive(Drop)]
pub(crate) struct Running {
    /// The number of the item that is expected next.
    pub(crate) place: u32,
    /// Whether it has stopped, for good.
    pub(crate) stopped: bool,
    /// Room for the word of an element, so that an edge takes no memory.
    pub(crate) word: Bits,
}

/// The things that the statements of a process look at.
#[derive(Clone, Copy)]
pub(crate) struct Edge<'a> {
    /// The parameters of the stream.
    pub(crate) params: &'a Params,
    /// The items that are expected of it.
    pub(crate) want: &'a [Item],
    /// The transfer that is done.
    pub(crate) transfer: &'a Transfer,
}

impl Running {
    /// Goes through an edge at which the stream has this row.
    pub(crate) fn row(&mut self, p: &Params, want: &[Item], process: &[WStmt], row: Row<'_>)
        requires few { length want.now < 2 ^ 32 - 1 }
        requires shown { IfSome (cycle_in row).shown (Fits p.now) }
        requires room { HasRoom p.now self.old }
        ensures { Steps (λ state. after_edge (process_with p.now want.now process.now) state (cycle_in row.entry)) self.old self.new }
    {
        if !row.ready {
            return;
        }
        match row.shown {
            Some(transfer) => self.transfer(p, want, process, transfer),
            None => {}
        }
    }

    /// Runs the statements for a transfer that is done.
    fn transfer(&mut self, p: &Params, want: &[Item], process: &[WStmt], transfer: &Transfer)
        requires few { length want.now < 2 ^ 32 - 1 }
        requires fits { Fits p.now transfer.now }
        requires room { HasRoom p.now self.old }
        ensures { Steps (λ state. after_transfer (process_with p.now want.now process.now) state transfer.now) self.old self.new }
    {
        if self.stopped {
            return;
        }
        let _some = p.lanes;
        let edge = Edge {
            params: p,
            want,
            transfer,
        };
        self.run_all(&edge, 0, 0, process);
    }

    /// Runs statements, one after another.
    #[cycle(run)]
    fn run_all(&mut self, edge: &Edge<'_>, lane: u16, dim: u8, statements: &[WStmt])
        requires { CanRun edge.now lane dim self.old }
        ensures { Steps (meaning.run_all edge.now.params.now edge.now.want.now edge.now.transfer.now lane dim (plain_statements statements.now))
            self.old self.new }
    {
        'statements: for statement in statements {
            self.run(edge, lane, dim, statement);
        }
    }

    /// Runs a statement.
    #[cycle(run)]
    fn run(&mut self, edge: &Edge<'_>, lane: u16, dim: u8, statement: &WStmt)
        requires { CanRun edge.now lane dim self.old }
        ensures { Steps (meaning.run edge.now.params.now edge.now.want.now edge.now.transfer.now lane dim (plain statement.now)) self.old self.new }
    {
        match statement {
            WStmt::Lanes(body) => self.run_lanes(edge, dim, body.as_slice()),
            WStmt::Dims(body) => self.run_dims(edge, lane, body.as_slice()),
            WStmt::IfActive(body) => {
                if is_active(edge.transfer, lane) {
                    self.run_all(edge, lane, dim, body.as_slice());
                }
            }
            WStmt::IfLast(body) => {
                if is_marked(edge, lane, dim) {
                    self.run_all(edge, lane, dim, body.as_slice());
                }
            }
            WStmt::NeedElem => self.need_elem(edge, lane),
            WStmt::NeedClose => self.need_close(edge, dim),
        }
    }

    /// Runs statements for each lane.
    #[cycle(run)]
    fn run_lanes(&mut self, edge: &Edge<'_>, dim: u8, body: &[WStmt])
        requires { CanRun edge.now 0 dim self.old }
        ensures { Steps (for_each (λ lane. meaning.run_all edge.now.params.now edge.now.want.now edge.now.transfer.now lane dim (plain_statements body.now))
            edge.now.params.now.lanes) self.old self.new }
    {
        let p = edge.params;
        'lanes: for lane in 0..p.lanes {
            self.run_all(edge, lane, dim, body);
        }
    }

    /// Runs statements for each dimension.
    #[cycle(run)]
    fn run_dims(&mut self, edge: &Edge<'_>, lane: u16, body: &[WStmt])
        requires { CanRun edge.now lane 0 self.old }
        ensures { Steps (for_each (λ dim. meaning.run_all edge.now.params.now edge.now.want.now edge.now.transfer.now lane dim (plain_statements body.now))
            edge.now.params.now.dims) self.old self.new }
    {
        let p = edge.params;
        'dims: for dim in 0..p.dims {
            self.run_all(edge, lane, dim, body);
        }
    }

    /// Needs the element of a lane.
    fn need_elem(&mut self, edge: &Edge<'_>, lane: u16)
        requires { CanRun edge.now lane 0 self.old }
        ensures { Steps (needs edge.now.want.now (items.Elem (lane_word edge.now.params.now edge.now.transfer.now lane))) self.old self.new }
    {
        let p = edge.params;
        let transfer = edge.transfer;
        self.word
            .copy_part(&transfer.content, usize::from(lane) * p.element as usize);
        let wanted = is_element_at(edge.want, self.place, &self.word);
        self.go_on(wanted);
    }

    /// Needs the end of a sequence of this dimension.
    fn need_close(&mut self, edge: &Edge<'_>, dim: u8)
        requires { length edge.now.want.now < 2 ^ 32 - 1 }
        ensures { Steps (needs edge.now.want.now (items.Close dim)) self.old self.new }
    {
        let wanted = is_close_at(edge.want, self.place, dim);
        self.go_on(wanted);
    }

    /// Goes on where the item that is needed is the expected one, and else stops.
    fn go_on(&mut self, wanted: bool)
        requires { IsTrue wanted → self.old.place < 2 ^ 32 - 1 }
        ensures { Steps (goes wanted) self.old self.new }
    {
        if self.stopped {
            return;
        }
        if wanted {
            self.place += 1;
        } else {
            self.stopped = true;
        }
    }
}

/// Whether the last bit of this lane and dimension is 1. There is none in a stream without dimensions.
fn is_marked(edge: &Edge<'_>, lane: u16, dim: u8) -> bool
    requires fits { Fits edge.now.params.now edge.now.transfer.now }
    requires lane { lane < edge.now.params.now.lanes }
    requires dim { dim ≤ edge.now.params.now.dims - 1 }
    ensures { result ≡ last_bit edge.now.params.now edge.now.transfer.now lane dim }
{
    let p = edge.params;
    if dim < p.dims {
        is_last(p, edge.transfer, lane, dim)
    } else {
        false
    }
}

/// Whether the expected item at this place is there, and is the element of this word.
fn is_element_at(want: &[Item], place: u32, word: &Bits) -> bool
    ensures { result ≡ is_expected (slice_get want.now place) (items.Elem word.now) }
{
    match want.get(place as usize) {
        Some(item) => is_element(item, word),
        None => false,
    }
}

/// Whether an item is the element of this word.
fn is_element(item: &Item, word: &Bits) -> bool
    ensures { result ≡ is_same_item item.now (items.Elem word.now) }
{
    match item {
        Item::Elem(own) => *own == *word,
        Item::Close(_) => false,
    }
}

/// Whether the expected item at this place is there, and is the end of a sequence of this dimension.
fn is_close_at(want: &[Item], place: u32, dim: u8) -> bool
    ensures { result ≡ is_expected (slice_get want.now place) (items.Close dim) }
{
    match want.get(place as usize) {
        Some(item) => is_close(item, dim),
        None => false,
    }
}

/// Whether an item is the end of a sequence of this dimension.
fn is_close(item: &Item, dim: u8) -> bool
    ensures { result ≡ is_same_item item.now (items.Close dim) }
{
    match item {
        Item::Elem(_) => false,
        Item::Close(own) => *own == dim,
    }
}
