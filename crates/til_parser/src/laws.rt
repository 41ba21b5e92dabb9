//! The laws of trees and their texts.

ghost use Rattle.til_parser.specs.Faults.{TreesOrFaults};
ghost use Rattle.til_parser.specs.Laws.{PlacesAreLeftOut, TreesAreApart, TreesAreReadAsPrinted, TreesHaveTheirForm, TreesHaveTheirPlaces};

/// The law of trees: no text spells two trees.
pub fn trees_are_apart()
    ensures { TreesAreApart }
{}

/// The law of errors: the tokens of a text spell a tree whose types nest at most 64 deep, or they have one error, and not both.
pub fn trees_or_faults()
    ensures { TreesOrFaults }
{}

/// The law of the form of trees: the tree of a text has the form that `IsTree` says of the tree alone.
pub fn trees_have_their_form()
    ensures { TreesHaveTheirForm }
{}

/// The law of where names stand: each name of the tree of a text stands at its place in the text, with its line and its column.
pub fn trees_have_their_places()
    ensures { TreesHaveTheirPlaces }
{}

/// The law of places: trees that are the same, places aside, have one canonical text, and are spellable together.
#[tactic(auto, using(crate::proofs::PlacesLemmas::trees_alike))]
pub fn places_are_left_out()
    ensures { PlacesAreLeftOut }
{}

/// The law of printing: the canonical text of a tree that is, its places aside, the tree of some text, is a text of that tree again,
/// places aside, and its types nest no deeper.
#[tactic(auto, using(crate::proofs::printed::ReadAgain::read_as_printed))]
pub fn trees_are_read_as_printed()
    ensures { TreesAreReadAsPrinted }
{}
