//! The value that has given views.

ghost use Rattle.std.specs.Prelude.{◌≡◌, List, IfOk, MatchResult, None, reverse};
ghost use Rattle.nest_shape.specs.Tree as nests;
ghost use Rattle.logical_value.specs.Tree.{plain_port};
ghost use Rattle.type_split.specs.Carried.{uncarried_of};
ghost use Rattle.type_split.specs.Streams.{IsPortSplit, plain_split};
ghost use Rattle.value_views.specs.Comparing.{disagreement_of};
ghost use Rattle.value_views.specs.Giving.{GiveFrom, plain_series};
ghost use Rattle.value_views.specs.Joining.{AreViews, HasViews, IsDisagreement, plain_views};

use crate::fault::JoinFault;
use crate::filling::Filling;
use crate::given::{element_of, empty_series, given_series};
use crate::viewing::dims_of;
use crate::walking::Walking;
use logical_value::{PortValue, Value};
use nest_shape::Nest;
use std::alloc::Global;
use tydi_base::{List, Memory};
use type_split::Split;

/// The value of a port's type that has these views, one for each physical stream in the order of the split's streams, up to bits that
/// are ignored. It is the only one. Disagree comes exactly where no value has them, with the path of the first node in preorder that
/// disagrees with the node around it, and the first packet of it that does. Memory comes where there is none for the value. Joining is
/// this project's own, after the nested streams of the Tydi specification. Each nest is let go of when its value is made.
pub fn join(
    alloc: Global,
    split: &Split<'_>,
    views: List<List<Nest>>,
) -> Result<PortValue, JoinFault>
    requires split { IsPortSplit (plain_split split.now) }
    requires carried { uncarried_of (plain_split split.now) ≡ None }
    requires views { AreViews (plain_split split.now) (plain_views views) }
    ensures { MatchResult result (λ value. HasViews (plain_split split.now) (plain_port value) (plain_views views)) (IsDisagreement (plain_split split.now) (plain_views views)) }
{
    let given = given_series(alloc, split, views)?;
    check_series(alloc, split, given.as_slice())?;
    Ok(fill_port(alloc, split, given)?)
}

/// The value of a port whose nodes have these series, in which whatever stands for a Stream is apart.
fn fill_port(alloc: Global, split: &Split<'_>, given: Vec<List<Value>>) -> Result<PortValue, Memory>
    requires { (views : List (List nests.Tree)) × GiveFrom (plain_split split.now) views 0 (plain_series given.items) }
    ensures { (views : List (List nests.Tree)) → GiveFrom (plain_split split.now) views 0 (plain_series given.items) → disagreement_of (plain_split split.now) views ≡ None
        → IfOk result (λ value. HasViews (plain_split split.now) (plain_port value) views) }
{
    let queues = empty_series(alloc, split.nodes.len())?;
    let mut filling = Filling { alloc, queues };
    let mut roots = List::new(alloc);
    let mut rest = given;
    'nodes: while let Some(ones) = rest.pop() {
        let number = rest.len();
        filling.fill_node(split, ones, number, &mut roots)?;
    }
    let roots = reversed(alloc, roots)?;
    Ok(PortValue { roots })
}

/// These series, the last one first.
fn reversed(alloc: Global, series: List<List<Value>>) -> Result<List<List<Value>>, Memory>
    ensures { IfOk result (λ some. some ≡ reverse series) }
{
    let mut rest = series;
    let mut some = List::new(alloc);
    'rest: while let Some(one) = rest.pop() {
        some.push(one)?;
    }
    Ok(some)
}

/// Looks for the first place at which the series of nodes, which the views give, disagree.
fn check_series(alloc: Global, split: &Split<'_>, given: &[List<Value>]) -> Result<(), JoinFault>
    requires { (views : List (List nests.Tree)) × GiveFrom (plain_split split.now) views 0 (plain_series given.now) }
    ensures { (views : List (List nests.Tree)) → GiveFrom (plain_split split.now) views 0 (plain_series given.now)
        → MatchResult result (λ _. disagreement_of (plain_split split.now) views ≡ None) (IsDisagreement (plain_split split.now) views) }
{
    let outermost = &split.nodes.as_slice()[0];
    let walking = Walking {
        alloc,
        split,
        given,
    };
    let mut way = List::new(alloc);
    walking.compare(&mut way, 0, 1, dims_of(outermost), element_of(outermost))
}
