//! The laws of all words and values of an element.

ghost use Rattle.logical_value.specs.Laws.{AgreesWithOne, BadTagsAgreeWithNone, FitsAreElements, NamesWhereItStands, NamesWhereNoneIsBad, OneValue};
ghost use Rattle.logical_value.specs.Laws.{PackedHasWidth, PackedIsUnpacked, PlainIsOneToOne, UnpackedAreElements, UnpackedIsPacked};

/// The word of a value stands for that value with what stands for its Streams apart. The word of a value that a word stands for is that
/// word with its ignored bits zero; it has one, since it is a value of the element. So `unpack` of what `pack` gives is the value with
/// its stream parts apart, since a word stands for one value at most and a BadTag reports a word that stands for none; and `pack`
/// of what `unpack` gives is the word with its ignored bits zero.
pub fn words_and_values_are_tied()
    ensures packed { PackedIsUnpacked }
    ensures unpacked { UnpackedIsPacked }
    ensures elements { UnpackedAreElements }
{}

/// A word stands for one value at most.
pub fn words_have_one_value()
    ensures { OneValue }
{}

/// A word with a tag that names no variant, of those that are read, stands for no value.
pub fn bad_tags_stand_for_nothing()
    ensures { BadTagsAgreeWithNone }
{}

/// A value that fits a type in a series is a value of an element. So `pack` may be asked for the word of each leaf of a value that
/// `fits`.
pub fn values_that_fit_are_elements()
    ensures { FitsAreElements }
{}

/// Each tag of a word that is read names a variant exactly where the word stands for some value, and exactly where it has no bad tag.
pub fn tags_name_variants_where_words_stand()
    ensures stands { NamesWhereItStands }
    ensures none_is_bad { NamesWhereNoneIsBad }
{}

/// A word that stands for a value agrees with a value of the element exactly where this, with its Streams apart, is that value.
pub fn words_agree_with_one_value()
    ensures { AgreesWithOne }
{}

/// The word of a value is as wide as the element.
pub fn packed_words_have_their_width()
    ensures { PackedHasWidth }
{}

/// Values with one plain form are the same, those of a port's type and those in them.
pub fn plain_forms_are_one_to_one()
    ensures { PlainIsOneToOne }
{}
