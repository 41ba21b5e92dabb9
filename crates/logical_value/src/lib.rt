//! Values of types, and the words of bits that stand for them. `pack` makes the word of a value, `unpack` the value of a word,
//! `names_variants` tests whether a word stands for some value, and `fits` whether a value is one of a port's type.
//! `specs/Element.antt` says which values an element has, `Packed.antt` which word a value has, `Agreement.antt` which word stands for
//! which value, and `Fits.antt` which values a port has. The crate stands on `logical_types` and `type_split`. Each call goes as deep
//! as the type and its sequences nest.
#![tactic(auto)]

mod fault;
mod fitting;
mod laws;
mod naming;
mod packing;
mod place;
mod unpacking;
mod value;

pub use fault::UnpackFault;
pub use fitting::fits;
pub use laws::{
    bad_tags_stand_for_nothing, packed_words_have_their_width, plain_forms_are_one_to_one,
    tags_name_variants_where_words_stand, values_that_fit_are_elements, words_agree_with_one_value,
    words_and_values_are_tied, words_have_one_value,
};
pub use naming::names_variants;
pub use packing::pack;
pub use unpacking::unpack;
pub use value::{PortValue, Value, Variant};
