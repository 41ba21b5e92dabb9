//! The series with a given flat form.

ghost use Rattle.std.specs.Prelude.{MatchResult};
ghost use Rattle.std.specs.List.{All};
ghost use Rattle.nest_shape.specs.Shape.{ClosesBelow, IsFaultOf, IsSeriesOf};

use crate::builder::Builder;
use crate::fault::NestFault;
use crate::nest::Nest;
use physical_stream::Item;
use std::alloc::Global;
use tydi_base::List;

/// The series of this dimensionality whose flat form these items are, or why there is none. Memory comes where there is none for the
/// series. The flat form is this project's own.
pub fn build(alloc: Global, dims: u8, items: &[Item]) -> Result<List<Nest>, NestFault>
    requires { All (ClosesBelow dims) items.now }
    ensures { MatchResult result (IsSeriesOf dims items.now) (IsFaultOf dims items.now) }
{
    let mut builder = Builder::new(alloc, dims);
    'items: for (number, item) in items.iter().enumerate() {
        if !builder.add(item)? {
            return Err(NestFault::BadClose(number));
        }
    }
    match builder.finish() {
        Ok(series) => Ok(series),
        Err(unclosed) => Err(NestFault::Unclosed(unclosed.level)),
    }
}
