//! Named arguments in any order, each at most once.

ghost use Rattle.std.specs.Prelude.{◌≡◌, ◌<◌, Bool, false, length, Option, OnOk};
ghost use Rattle.tydi_reading.specs.Calls.{AddsAtMost, DecidesPair, DoesAdd, DoesMean, DoesTell};
ghost use Rattle.tydi_reading.specs.Named as spec;
ghost use Rattle.tydi_reading.specs.Named.{NeverGrows};
ghost use Rattle.tydi_reading.specs.Reading.{Reads, Reader};

use crate::fault::Fault;
use crate::lists::steps;
use crate::source::Source;

/// One more argument: its name, which is not given yet, and its value, which is added to what is given. It fails with `Refused`
/// where the next thing names no argument, or one that is given, and where the value fails.
#[tactic(auto, unfolding(crate::specs::Named::argument))]
pub fn argument<
    S: Source,
    E: Drop,
    K: Drop,
    X: Drop,
    N: Fn(&S) -> Option<K>,
    H: Fn(&K, &X) -> bool,
    V: Fn(&mut S, K, X) -> Result<X, Fault<E>>,
>(source: &mut S, given: X, name: &N, is_given: &H, value: &V) -> Result<X, Fault<E>>
    requires names { N.IsAlwaysCallable name.now }
    requires tests { H.IsAlwaysCallable is_given.now }
    requires calls { V.IsAlwaysCallable value.now }
    requires named { (named : S.Thing → Option K) × DoesMean S.left N.Fn name.now named }
    requires least { AddsAtMost S.left V.Fn value.now }
    ensures reads { (n : S.Thing → Option K) (g : K → X → Bool) (v : K → X → Reader E S.Thing X) → DoesMean S.left N.Fn name.now n → DecidesPair H.Fn is_given.now g
        → DoesAdd S.left V.Fn value.now v → Reads (spec.argument n g v given (S.left source.old)) result (S.left source.new) }
    ensures less { OnOk result (length (S.left source.new) < length (S.left source.old)) }
{
    let Some(found) = name(source) else {
        return Err(Fault::Refused);
    };
    if is_given(&found, &given) {
        return Err(Fault::Refused);
    }
    source.skip();
    value(source, found, given)
}

/// Named arguments beside those that are given, each at most once, with a separator between each two, and a last one or none, up to
/// where a test of what is left holds. A default is what stands where an argument is not given.
pub fn named<
    S: Source,
    E: Drop,
    K: Drop,
    X: Drop,
    F: Fn(&S) -> bool,
    G: Fn(&S) -> bool,
    N: Fn(&S) -> Option<K>,
    H: Fn(&K, &X) -> bool,
    V: Fn(&mut S, K, X) -> Result<X, Fault<E>>,
>(
    source: &mut S,
    none: X,
    is_end: F,
    separates: G,
    name: N,
    is_given: H,
    value: V,
) -> Result<X, Fault<E>>
    requires ends { F.IsAlwaysCallable is_end }
    requires between { G.IsAlwaysCallable separates }
    requires names { N.IsAlwaysCallable name }
    requires tests { H.IsAlwaysCallable is_given }
    requires calls { V.IsAlwaysCallable value }
    requires named { (named : S.Thing → Option K) × DoesMean S.left N.Fn name named }
    requires least { AddsAtMost S.left V.Fn value }
    ensures { (n : S.Thing → Option K) (g : K → X → Bool) (v : K → X → Reader E S.Thing X) (end separator : S.Thing → Bool) (last : Bool) → DoesMean S.left N.Fn name n
        → DecidesPair H.Fn is_given g → DoesAdd S.left V.Fn value v → NeverGrows v → DoesTell S.left F.Fn is_end end last → DoesTell S.left G.Fn separates separator false
        → Reads (spec.named end last separator n g v none (S.left source.old)) result (S.left source.new) }
{
    steps(
        source,
        none,
        is_end,
        separates,
        |rest: &mut S, given: X| -> Result<X, Fault<E>>
            requires names { N.IsAlwaysCallable name }
            requires tests { H.IsAlwaysCallable is_given }
            requires calls { V.IsAlwaysCallable value }
            requires named { (named : S.Thing → Option K) × DoesMean S.left N.Fn name named }
            requires least { AddsAtMost S.left V.Fn value }
            ensures reads { (n : S.Thing → Option K) (g : K → X → Bool) (v : K → X → Reader E S.Thing X) → DoesMean S.left N.Fn name n → DecidesPair H.Fn is_given g
                → DoesAdd S.left V.Fn value v → Reads (spec.argument n g v given (S.left rest.old)) result (S.left rest.new) }
            ensures less { OnOk result (length (S.left rest.new) < length (S.left rest.old)) }
        { argument(rest, given, &name, &is_given, &value) },
    )
}
