//! The node of a Stream at its place.

ghost use Rattle.std.specs.Prelude.{◌≡◌, ◌≤◌, [], IfSome, IsSome};
ghost use Rattle.logical_types.specs.Faults.{faults_within};
ghost use Rattle.logical_types.specs.Tree.{plain, plain_of_stream, settings_of};
ghost use Rattle.type_split.specs.Nodes as spec;
ghost use Rattle.type_split.specs.Found.{IsFound, IsInRange};

use crate::place::Place;
use logical_types::{Around, StreamType, Sync, inside, saturated_width};
use physical_stream::Params;

/// A Stream's number, its own dimensionality, the parameters of its physical stream, and the place of what stands inside it.
#[derive(Clone, Copy)]
pub(crate) struct Found {
    pub(crate) number: u32,
    pub(crate) own_dims: u8,
    pub(crate) params: Params,
    pub(crate) inside: Place,
}

impl Found {
    /// The Stream of this number at this place. None only where it has an error, or the number does not fit.
    pub(crate) fn at(stream: &StreamType, place: &Place, number: usize) -> Option<Found>
        ensures found { IfSome result (IsFound stream.now place.now number) }
        ensures flows { faults_within place.now.around (plain_of_stream stream.now) ≡ [] → 1 ≤ place.now.around.product.num
            → IfSome result (λ found. 1 ≤ found.inside.around.product.num) }
        ensures some { faults_within place.now.around (plain_of_stream stream.now) ≡ [] → 1 ≤ place.now.around.product.num → number ≤ 65536 → IsSome result }
    {
        // The call of `den` makes the invariant of the fraction known.
        prove!(place.around.product.den() > 0);
        prove!(stream.throughput.den() > 0);
        let around = inside(stream, &place.around).ok()?;
        let params = params_at(stream, &around)?;
        let number = u32::try_from(number).ok()?;
        let own_dims = u8::try_from(stream.dims).ok()?;
        Some(Found {
            number,
            own_dims,
            params,
            inside: Place {
                around,
                parent: Some(number),
                root: root_at(place, number, stream.sync),
                reversed: turned(place.reversed, stream.reverse),
            },
        })
    }
}

/// The parameters of a Stream whose types have this around them. None where one of them is out of its range.
fn params_at(stream: &StreamType, around: &Around) -> Option<Params>
    ensures value { IfSome result (λ params. params ≡ spec.params_at around.now (plain stream.now.element) (plain stream.now.user) (settings_of stream.now)) }
    ensures some { IsInRange around.now (plain stream.now.element) (plain stream.now.user) → IsSome result }
{
    // The call of `den` makes the invariant of the fraction known.
    prove!(around.product.den() > 0);
    let lanes = u16::try_from(around.product.ceil()).ok()?;
    let dims = u8::try_from(around.dims).ok()?;
    let element = saturated_width(&stream.element);
    let user = saturated_width(&stream.user);
    let params = Params::new(lanes, dims, stream.level, element, user)?;
    Some(params)
}

/// The root of a Stream of this number.
fn root_at(place: &Place, number: u32, sync: Sync) -> u32
    ensures { result ≡ spec.root_at place.now number sync }
{
    if place.parent.is_none() || sync.is_apart() {
        number
    } else {
        place.root
    }
}

/// A direction, turned round where asked.
fn turned(reversed: bool, turns: bool) -> bool
    ensures { result ≡ spec.turned reversed turns }
{
    if turns { !reversed } else { reversed }
}
