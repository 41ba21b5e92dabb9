ghost use Rattle.std.specs.Prelude.{◌≡◌};
ghost use Rattle.til_resolve.specs.Earliest as spec;

use tydi_base::Place;

/// The one of two places that stands before the other in the text.
pub fn earlier(one: Option<Place>, other: Option<Place>) -> Option<Place>
    ensures { result ≡ spec.earlier one other }
{
    let Some(first) = one else {
        return other;
    };
    let Some(second) = other else {
        return one;
    };
    if second.offset < first.offset {
        other
    } else {
        one
    }
}

/// Whether a place that was found stands no later than another.
pub fn stands_first(found: Option<Place>, place: Place) -> bool
    ensures { result ≡ spec.stands_first found place }
{
    match found {
        Some(first) => first.offset <= place.offset,
        None => false,
    }
}
