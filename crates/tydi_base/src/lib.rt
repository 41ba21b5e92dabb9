//! The types and small readers that every crate uses: lists, texts, places, names, paths, levels, words of bits, fractions, numbers, and
//! the writing of texts. Contracts see each type as the list, number or record that it stands for. The crate stands on the kit alone.
#![tactic(auto)]

mod binary;
mod bits;
mod boxed;
mod compared;
mod decimal;
mod digit_numbers;
mod few_bytes;
mod frac;
mod hex;
mod hex_digits;
mod hex_word;
mod level;
mod list;
mod memory;
mod name;
mod numbers;
mod path;
mod pieces;
mod place;
mod slices;
mod text;
mod text_set;
mod try_clone;
mod width;
mod words_left;
mod writing;

pub use binary::{Binary, binary_is_read_as_spelled};
pub use bits::Bits;
pub use boxed::Boxed;
pub use decimal::{
    decimal_length, decimals_are_read_as_spelled, number_of_digits, read_decimal,
    read_padded_decimal, read_wide_decimal, wide_number_of_digits, write_decimal,
    write_wide_decimal,
};
pub use digit_numbers::{hex_number, hex_number_within};
pub use frac::Frac;
pub use hex::{digit_value, hex_length, hexadecimal_is_read_as_spelled};
pub use hex_word::BitsFault;
pub use level::{Level, levels_are_ordered, levels_are_read_as_spelled};
pub use list::List;
pub use memory::Memory;
pub use name::{Name, has_name_form, is_name};
pub use path::{Path, paths_are_read_as_spelled};
pub use pieces::{LINE_FEED, SPACE, first_piece, pieces_are_parts};
pub use place::Place;
pub use text::Text;
pub use text_set::add_text;
pub use try_clone::TryClone;
pub use width::{index_width, index_width_is_least};
pub use words_left::{EQUALS, WordsLeft};
pub use writing::{Colons, Each, Hex, Written};
