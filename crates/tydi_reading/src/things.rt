//! The steps that take one thing, and those that the next thing decides. One step after another is a `?`, and a choice by the next thing
//! an `if` or a `match`.

ghost use Rattle.std.specs.Prelude.{◌<◌, Bool, false, length, OnOk, Option};
ghost use Rattle.tydi_reading.specs.Calls.{DoesMean, DoesRead, DoesShrink, DoesTell};
ghost use Rattle.tydi_reading.specs.Lists as lists;
ghost use Rattle.tydi_reading.specs.Reading as spec;
ghost use Rattle.tydi_reading.specs.Reading.{Reader, Reads, ReadsAlways};

use crate::fault::Fault;
use crate::source::Source;

/// Takes the next thing, which is to be such a one.
#[tactic(auto, unfolding(crate::specs::Lists::mark))]
pub fn mark<S: Source, E: Drop, F: Fn(&S) -> bool>(source: &mut S, is: F) -> Result<(), Fault<E>>
    requires { F.IsAlwaysCallable is }
    ensures { (test : S.Thing → Bool) → DoesTell S.left F.Fn is test false → ReadsAlways (lists.mark test (S.left source.old)) result (S.left source.new) }
{
    if !is(source) {
        return Err(Fault::Refused);
    }
    source.skip();
    Ok(())
}

/// Takes the next thing, which needs a meaning, and gives the meaning. `Refused` comes where it has none or no thing is left.
pub fn leaf<S: Source, E: Drop, A: Drop, F: Fn(&S) -> Option<A>>(
    source: &mut S,
    meaning: F,
) -> Result<A, Fault<E>>
    requires { F.IsAlwaysCallable meaning }
    ensures { (means : S.Thing → Option A) → DoesMean S.left F.Fn meaning means → ReadsAlways (spec.leaf means (S.left source.old)) result (S.left source.new) }
{
    let Some(found) = meaning(source) else {
        return Err(Fault::Refused);
    };
    source.skip();
    Ok(found)
}

/// The item, where the next thing begins one. None, with nothing taken, where it begins none. It fails exactly where the item does.
pub fn optional<
    S: Source,
    E: Drop,
    A: Drop,
    F: Fn(&S) -> bool,
    P: Fn(&mut S) -> Result<A, Fault<E>>,
>(source: &mut S, begins: F, item: P) -> Result<Option<A>, Fault<E>>
    requires tests { F.IsAlwaysCallable begins }
    requires calls { P.IsAlwaysCallable item }
    ensures { (test : S.Thing → Bool) (read : Reader E S.Thing A) → DoesTell S.left F.Fn begins test false → DoesRead S.left P.Fn item read
        → Reads (spec.optional test read (S.left source.old)) result (S.left source.new) }
{
    if !begins(source) {
        return Ok(None);
    }
    Ok(Some(item(source)?))
}

/// The item that the next thing begins, for instance one after white space. It fails with `Refused` where the next thing begins
/// none, and where the item fails.
pub fn beginning<
    S: Source,
    E: Drop,
    A: Drop,
    F: Fn(&S) -> bool,
    P: Fn(&mut S) -> Result<A, Fault<E>>,
>(source: &mut S, begins: &F, item: &P) -> Result<A, Fault<E>>
    requires tests { F.IsAlwaysCallable begins.now }
    requires calls { P.IsAlwaysCallable item.now }
    requires less { DoesShrink S.left P.Fn item.now }
    ensures reads { (test : S.Thing → Bool) (read : Reader E S.Thing A) → DoesTell S.left F.Fn begins.now test false → DoesRead S.left P.Fn item.now read
        → Reads (spec.beginning test read (S.left source.old)) result (S.left source.new) }
    ensures less { OnOk result (length (S.left source.new) < length (S.left source.old)) }
{
    if !begins(source) {
        return Err(Fault::Refused);
    }
    item(source)
}
