//! Views of values: which nests of words the physical streams of a port carry for a value. `view` makes the view of one stream, and `view_items`
//! its items.
//! `specs/Series.antt` says which series each node has, and `specs/Views.antt` what a view is and which items carry a value. `join` goes the
//! other way: `specs/Joining.antt` says which values have given views, and `specs/Comparing.antt` where views disagree. The crate
//! stands on `type_split`, `logical_value` and `nest_shape`. Each call goes as deep as the type and its sequences nest.
#![tactic(auto)]

mod comparing;
mod fault;
mod filling;
mod gathering;
mod given;
mod joining;
mod laws;
mod spelling;
mod viewing;
mod walking;
mod way;

pub use fault::JoinFault;
pub use joining::join;
pub use laws::{
    agreeing_views_have_values, nodes_have_series, streams_have_views, views_carry_their_value,
    views_determine_values, views_of_values_agree,
};
pub use spelling::view_items;
pub use viewing::view;
