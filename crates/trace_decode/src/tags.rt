//! Whether the elements of a stream have tags, which the rule on tags looks at.

ghost use Rattle.std.specs.Prelude.{◌≡◌, length};
ghost use Rattle.logical_types.specs.Faults.{IsPlain};
ghost use Rattle.logical_types.specs.Tree.{plain, plain_parts};
ghost use Rattle.logical_types.specs.Width.{width_of};
ghost use Rattle.logical_value.specs.Agreement as agreement;
ghost use Rattle.trace_decode.specs.Tagged as spec;

use logical_types::{LType, Part};
use logical_value::names_variants;
use tydi_base::Bits;

/// Whether a Union stands in this type, outside the Streams in it.
#[cycle(tags)]
pub(crate) fn has_tags(ltype: &LType) -> bool
    ensures { result ≡ spec.has_tags (plain ltype.now) }
{
    match ltype {
        LType::Null => false,
        LType::Bits(_) => false,
        LType::Group(parts) => have_tags(parts.as_slice()),
        LType::Union(_) => true,
        LType::Stream(_) => false,
    }
}

/// The same of one of these parts.
#[cycle(tags)]
fn have_tags(parts: &[Part]) -> bool
    ensures { result ≡ spec.have_tags (plain_parts parts.now) }
{
    'parts: for part in parts {
        if has_tags(&part.ltype) {
            return true;
        }
    }
    false
}

/// Whether each tag that is read of this word of an element names a variant. A word of a type without tags is not looked at.
#[inline(always)]
pub(crate) fn word_has_names(element: &LType, tagged: bool, word: &Bits) -> bool
    requires plain { IsPlain (plain element.now) }
    requires width { length word.now ≡ width_of (plain element.now) }
    requires tagged { tagged ≡ spec.has_tags (plain element.now) }
    ensures { result ≡ agreement.names_variants (plain element.now) word.now }
{
    if tagged {
        names_variants(element, word)
    } else {
        true
    }
}
