//! Laws of views, for all values.

ghost use Rattle.value_views.specs.Joining.{AgreeingViewsHaveValues, ViewsDetermineValues, ViewsOfValuesAgree};
ghost use Rattle.value_views.specs.Laws.{NodesHaveSeries, StreamsHaveViews, ViewsCarry};

/// Each node of a port has a series of its dimensionality for each value, and it fits the node where the value fits.
pub fn nodes_have_series()
    ensures { NodesHaveSeries }
{}

/// Each physical stream of a port has a view of each value that fits: nests of its dimensionality, whose words have the width of its
/// elements. So `flatten` may be asked for their items, and these are items of the stream.
pub fn streams_have_views()
    ensures { StreamsHaveViews }
{}

/// The items of the views of a value that fits carry it.
pub fn views_carry_their_value()
    ensures { ViewsCarry }
{}

/// The views of a value agree: no node disagrees with the node around it. Each node of the port is carried, here and below.
pub fn views_of_values_agree()
    ensures { ViewsOfValuesAgree }
{}

/// Views that agree are those of some value, up to bits that are ignored. So views disagree exactly where no value has them.
pub fn agreeing_views_have_values()
    ensures { AgreeingViewsHaveValues }
{}

/// Two values with the same views, up to bits that are ignored, are equal.
pub fn views_determine_values()
    ensures { ViewsDetermineValues }
{}
