//! The loops: items one after another, and steps with a separator between each two.

ghost use Rattle.std.specs.Prelude.{◌≡◌, ◌<◌, Bool, false, [], length, OnOk};
ghost use Rattle.tydi_reading.specs.Calls.{DoesRead, DoesShrink, DoesStep, DoesTell, StepsShrink};
ghost use Rattle.tydi_reading.specs.Lists as spec;
ghost use Rattle.tydi_reading.specs.Lists.{repeated_turn};
ghost use Rattle.tydi_reading.specs.Reading.{Reads, Reader, Shrinks, loop};

use crate::fault::Fault;
use crate::source::Source;
use crate::things::beginning;
use std::alloc::Global;
use tydi_base::List;

/// Items one after another, behind those that are found, up to where a test of what is left holds.
pub fn repeated<
    S: Source,
    E: Drop,
    A: Drop,
    F: Fn(&S) -> bool,
    P: Fn(&mut S) -> Result<A, Fault<E>>,
>(source: &mut S, found: List<A>, is_end: F, item: P) -> Result<List<A>, Fault<E>>
    requires ends { F.IsAlwaysCallable is_end }
    requires calls { P.IsAlwaysCallable item }
    requires less { DoesShrink S.left P.Fn item }
    ensures { (read : Reader E S.Thing A) (end : S.Thing → Bool) (last : Bool) → DoesTell S.left F.Fn is_end end last → DoesRead S.left P.Fn item read → Shrinks read
        → Reads (loop (repeated_turn end last read) found (S.left source.old)) result (S.left source.new) }
{
    let mut items = found;
    'items: while !is_end(source) {
        items.push(item(source)?)?;
    }
    Ok(items)
}

/// Steps from one state to the next with a separator between each two, and a last one or none, up to where a test of what is left holds.
pub fn steps<
    S: Source,
    E: Drop,
    X: Drop,
    F: Fn(&S) -> bool,
    G: Fn(&S) -> bool,
    P: Fn(&mut S, X) -> Result<X, Fault<E>>,
>(source: &mut S, start: X, is_end: F, separates: G, step: P) -> Result<X, Fault<E>>
    requires ends { F.IsAlwaysCallable is_end }
    requires between { G.IsAlwaysCallable separates }
    requires calls { P.IsAlwaysCallable step }
    requires less { StepsShrink S.left P.Fn step }
    ensures { (read : X → Reader E S.Thing X) (end separator : S.Thing → Bool) (last : Bool) → DoesTell S.left F.Fn is_end end last → DoesTell S.left G.Fn separates separator false
        → DoesStep S.left P.Fn step read → ((x : X) → Shrinks (read x)) → Reads (spec.steps end last separator read start (S.left source.old)) result (S.left source.new) }
{
    let mut state = start;
    'steps: while !is_end(source) {
        state = step(source, state)?;
        if !separates(source) {
            return Ok(state);
        }
        source.skip();
    }
    Ok(state)
}

/// Items with a separator between each two, and a last one or none, up to where a test of what is left holds.
pub fn separated<
    S: Source,
    E: Drop,
    A: Drop,
    F: Fn(&S) -> bool,
    G: Fn(&S) -> bool,
    P: Fn(&mut S) -> Result<A, Fault<E>>,
>(source: &mut S, alloc: Global, is_end: F, separates: G, item: P) -> Result<List<A>, Fault<E>>
    requires ends { F.IsAlwaysCallable is_end }
    requires between { G.IsAlwaysCallable separates }
    requires calls { P.IsAlwaysCallable item }
    requires less { DoesShrink S.left P.Fn item }
    ensures { (read : Reader E S.Thing A) (end separator : S.Thing → Bool) (last : Bool) → DoesTell S.left F.Fn is_end end last → DoesTell S.left G.Fn separates separator false
        → DoesRead S.left P.Fn item read → Shrinks read → Reads (spec.separated end last separator read (S.left source.old)) result (S.left source.new) }
{
    steps(
        source,
        List::new(alloc),
        is_end,
        separates,
        |rest: &mut S, found: List<A>| one_more(rest, found, &item),
    )
}

/// The items found so far, and one more behind them. It fails where the item does, and with `Memory`.
pub fn one_more<S: Source, E: Drop, A: Drop, P: Fn(&mut S) -> Result<A, Fault<E>>>(
    source: &mut S,
    found: List<A>,
    item: &P,
) -> Result<List<A>, Fault<E>>
    requires calls { P.IsAlwaysCallable item.now }
    requires less { DoesShrink S.left P.Fn item.now }
    ensures reads { (read : Reader E S.Thing A) → DoesRead S.left P.Fn item.now read → Reads (spec.one_more read found (S.left source.old)) result (S.left source.new) }
    ensures less { OnOk result (length (S.left source.new) < length (S.left source.old)) }
{
    let mut items = found;
    items.push(item(source)?)?;
    Ok(items)
}

/// Items with a joint between each two, one at least, behind none: one, and then joints with an item each, as long as a joint stands.
pub fn joined<S: Source, E: Drop, A: Drop, F: Fn(&S) -> bool, P: Fn(&mut S) -> Result<A, Fault<E>>>(
    source: &mut S,
    none: List<A>,
    joins: F,
    item: P,
) -> Result<List<A>, Fault<E>>
    requires none { none ≡ [] }
    requires joints { F.IsAlwaysCallable joins }
    requires calls { P.IsAlwaysCallable item }
    requires less { DoesShrink S.left P.Fn item }
    ensures { (read : Reader E S.Thing A) (joint : S.Thing → Bool) → DoesTell S.left F.Fn joins joint false → DoesRead S.left P.Fn item read → Shrinks read
        → Reads (spec.joined joint read (S.left source.old)) result (S.left source.new) }
{
    let mut items = none;
    items.push(item(source)?)?;
    repeated(
        source,
        items,
        |rest: &S| !joins(rest),
        |rest: &mut S| after_joint(rest, &joins, &item),
    )
}

/// Items with a separator between each two and none after the last, behind none: none where a test of what is left holds, else as `joined`.
pub fn listed<
    S: Source,
    E: Drop,
    A: Drop,
    F: Fn(&S) -> bool,
    G: Fn(&S) -> bool,
    P: Fn(&mut S) -> Result<A, Fault<E>>,
>(source: &mut S, none: List<A>, is_end: F, separates: G, item: P) -> Result<List<A>, Fault<E>>
    requires none { none ≡ [] }
    requires ends { F.IsAlwaysCallable is_end }
    requires between { G.IsAlwaysCallable separates }
    requires calls { P.IsAlwaysCallable item }
    requires less { DoesShrink S.left P.Fn item }
    ensures { (read : Reader E S.Thing A) (end separator : S.Thing → Bool) (last : Bool) → DoesTell S.left F.Fn is_end end last → DoesTell S.left G.Fn separates separator false
        → DoesRead S.left P.Fn item read → Shrinks read → Reads (spec.listed end last separator read (S.left source.old)) result (S.left source.new) }
{
    if is_end(source) {
        return Ok(none);
    }
    joined(source, none, separates, item)
}

/// Items one after another, behind none, up to where a test of what is left holds. Each but the first begins with a thing that another test holds
/// of, such as one before which white space stands.
pub fn followed<
    S: Source,
    E: Drop,
    A: Drop,
    F: Fn(&S) -> bool,
    G: Fn(&S) -> bool,
    P: Fn(&mut S) -> Result<A, Fault<E>>,
>(source: &mut S, none: List<A>, is_end: F, begins: G, item: P) -> Result<List<A>, Fault<E>>
    requires none { none ≡ [] }
    requires ends { F.IsAlwaysCallable is_end }
    requires begins { G.IsAlwaysCallable begins }
    requires calls { P.IsAlwaysCallable item }
    requires less { DoesShrink S.left P.Fn item }
    ensures { (read : Reader E S.Thing A) (end lead : S.Thing → Bool) (last : Bool) → DoesTell S.left F.Fn is_end end last → DoesTell S.left G.Fn begins lead false
        → DoesRead S.left P.Fn item read → Shrinks read → Reads (spec.followed end last lead read (S.left source.old)) result (S.left source.new) }
{
    if is_end(source) {
        return Ok(none);
    }
    let mut items = none;
    items.push(item(source)?)?;
    repeated(
        source,
        items,
        is_end,
        |rest: &mut S| beginning(rest, &begins, &item),
    )
}

// A joint, and an item after it.
#[tactic(auto, unfolding(crate::specs::Lists::mark))]
fn after_joint<
    S: Source,
    E: Drop,
    A: Drop,
    F: Fn(&S) -> bool,
    P: Fn(&mut S) -> Result<A, Fault<E>>,
>(source: &mut S, joins: &F, item: &P) -> Result<A, Fault<E>>
    requires joints { F.IsAlwaysCallable joins.now }
    requires calls { P.IsAlwaysCallable item.now }
    requires less { DoesShrink S.left P.Fn item.now }
    ensures reads { (read : Reader E S.Thing A) (joint : S.Thing → Bool) → DoesTell S.left F.Fn joins.now joint false → DoesRead S.left P.Fn item.now read
        → Reads (spec.after_joint joint read (S.left source.old)) result (S.left source.new) }
    ensures less { OnOk result (length (S.left source.new) < length (S.left source.old)) }
{
    if !joins(source) {
        return Err(Fault::Refused);
    }
    source.skip();
    item(source)
}
