//! The laws of all series and their flat forms.

ghost use Rattle.nest_shape.specs.Laws.{FlatFormsAreWhole, NestsItemByItem, OneSeries};

/// Two series with one flat form are equal.
pub fn series_have_one_flat_form()
    ensures { OneSeries }
{}

/// A flat form is nested and leaves nothing open. So `build` gives a series exactly where the items are nested and whole.
pub fn flat_forms_are_whole()
    ensures { FlatFormsAreWhole }
{}

/// Items are nested exactly where each is no Close that may not stand after those before it. So a reader of items one at a time
/// finds the first that breaks the nesting.
pub fn items_nest_one_by_one()
    ensures { NestsItemByItem }
{}
