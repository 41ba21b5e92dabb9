ghost use Rattle.std.specs.Prelude.{◌≡◌, ◌++◌, List};
ghost use Rattle.physical_stream.specs.Items.{items_of};
ghost use Rattle.physical_stream.specs.Shape.{tail_of};
ghost use Rattle.physical_stream.specs.Signals.{Fits};
ghost use Rattle.physical_stream.specs.declared.item.Item.{Item};

use crate::last_item::LastItem;
use crate::walk::walk_over;
use physical_stream::{Params, Tail, Transfer};

/// The kind of the last item when this transfer is done after items of which this is the kind of the last one. It takes no
/// memory, and the transfer may break rules. None where there is no item before the transfer and none
/// in it.
pub fn tail_after(p: &Params, tail: Option<Tail>, transfer: &Transfer) -> Option<Tail>
    requires { Fits p.now transfer.now }
    ensures { (done : List Item) → tail ≡ tail_of done → result ≡ tail_of (done ++ items_of p.now transfer.now) }
{
    walk_over(p, transfer, LastItem::of(tail)).walk.tail.kind()
}
