ghost use Rattle.std.specs.Prelude.{◌≡◌, ◌+◌, ◌-◌, ◌*◌, ◌<◌, ◌≤◌, ◌++◌, Bool, List, length, drop, MatchOption};
ghost use Rattle.tydi_base.specs.Bits.{zero_bits};
ghost use Rattle.scheduler.specs.Filling.{marks, GoesOn, EndsHere};
ghost use Rattle.scheduler.specs.Planned.{behind_run, run_of};
ghost use Rattle.scheduler.specs.Laws.{AreItems};

use physical_stream::{Item, Params};
use tydi_base::Bits;

// The dimension of the item at this place, where it goes on with an ascending run of ends whose next dimension is at least this.
fn next_end(p: &Params, items: &[Item], place: usize, least: u8) -> Option<u8>
    requires within { place < length items.now }
    requires fits { AreItems p.now items.now }
    ensures { MatchOption result (EndsHere least (drop place items.now)) (λ dim. GoesOn p.now least (drop place items.now) dim (drop (place + 1) items.now)) }
{
    match &items[place] {
        Item::Elem(_) => None,
        Item::Close(dim) => { if *dim >= least { Some(*dim) } else { None } }
    }
}

// Marks in a lane the ascending run of ends at this place, and gives the place behind it. The lanes are clear from this one on.
pub(crate) fn mark_run(
    p: &Params,
    items: &[Item],
    place: usize,
    lane: u16,
    last: &mut Bits,
) -> usize
    requires within { lane < p.now.lanes }
    requires place { place ≤ length items.now }
    requires fits { AreItems p.now items.now }
    requires width { length last.old ≡ p.now.lanes * p.now.dims }
    ensures within { result ≤ length items.now }
    ensures behind { drop result items.now ≡ behind_run 0 (drop place items.now) }
    ensures width { length last.new ≡ p.now.lanes * p.now.dims }
    ensures marked { (parts : List Bool) → length parts ≡ lane * p.now.dims → last.old ≡ parts ++ zero_bits ((p.now.lanes - lane) * p.now.dims)
        → last.new ≡ (parts ++ marks p.now.dims (run_of (drop place items.now))) ++ zero_bits ((p.now.lanes - (lane + 1)) * p.now.dims) }
{
    let mut least: u8 = 0;
    'ends: for at in place..items.len() {
        match next_end(p, items, at, least) {
            None => return at,
            Some(dim) => {
                last.put(
                    usize::from(lane) * usize::from(p.dims) + usize::from(dim),
                    true,
                );
                least = dim + 1;
            }
        }
    }
    items.len()
}
