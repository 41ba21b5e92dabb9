//! Paths that name nothing, or a declaration of another kind than their place asks.

ghost use Rattle.std.specs.Prelude.{◌≡◌, ◌<◌, [], ◌∷◌, length, Contains, IfOk};
ghost use Rattle.std.specs.BTreeSet.{contains};
ghost use Rattle.til_resolve.specs.Declarations.{declaration, place_of};
ghost use Rattle.til_resolve.specs.Earliest.{IsEarliest};
ghost use Rattle.til_resolve.specs.Names as spec;
ghost use Rattle.til_resolve.specs.PathsWritten.{seen};
ghost use Rattle.til_resolve.specs.Ports.{FindsPorts};
ghost use Rattle.til_resolve.specs.Ordered.{by_key};
ghost use Rattle.til_resolve.specs.Scope.{declarations_of};
ghost use Rattle.til_resolve.specs.Sought.{is_refused, use_of, refused_of, all_refused, port_refused};

use crate::earliest::earlier;
use crate::kinds::{Asked, is_asked};
use crate::paths::{asked_in, paths_of};
use crate::ports::{Ports, has_port};
use crate::scope::Scope;
use std::alloc::Global;
use til_parser::{AstKind, AstPath};
use tydi_base::{Memory, Place};

/// The error of a path that is looked for.
#[derive(Clone, Copy)]
pub enum Sought {
    /// It names nothing.
    Unknown,
    /// It names a declaration of another kind than its place needs.
    WrongKind,
}

/// The first place that is refused.
pub fn first_refused<'a>(
    alloc: Global,
    scope: &Scope<'a>,
    ports: &Ports<'a>,
    sought: Sought,
) -> Result<Option<Place>, Memory>
    requires { FindsPorts (contains by_key ports.now) (declarations_of scope.now.declared) (length (declarations_of scope.now.declared)) }
    ensures { IfOk result (IsEarliest (Contains (all_refused sought (declarations_of scope.now.declared) (length (declarations_of scope.now.declared))))) }
{
    let mut found = None;
    'numbers: for number in 0..scope.len() {
        let in_paths = in_declaration(alloc, scope, number, sought)?;
        let in_test = of_test(scope, ports, number, sought);
        found = earlier(found, earlier(in_paths, in_test));
    }
    Ok(found)
}

// The paths of a declaration.
fn in_declaration(
    alloc: Global,
    scope: &Scope<'_>,
    number: usize,
    sought: Sought,
) -> Result<Option<Place>, Memory>
    requires { number < length (declarations_of scope.now.declared) }
    ensures { IfOk result (λ found. IsEarliest (Contains (spec.refused (is_refused sought (declarations_of scope.now.declared))
        (spec.uses_in (declaration (declarations_of scope.now.declared) number)))) found) }
{
    let kind = scope.get(number).kind;
    let paths = paths_of(alloc, kind)?;
    Ok(of_paths(scope, number, paths.as_slice(), asked_in(kind), sought))
}

fn of_paths<'a>(
    scope: &Scope<'a>,
    number: usize,
    paths: &[&'a AstPath],
    asked: Asked,
    sought: Sought,
) -> Option<Place>
    requires { number < length (declarations_of scope.now.declared) }
    ensures { IsEarliest (Contains (refused_of sought (declarations_of scope.now.declared) (declaration (declarations_of scope.now.declared) number).space asked (seen paths.now))) result }
{
    let mut found = None;
    'paths: for path in paths {
        found = earlier(found, of_path(scope, number, path, asked, sought));
    }
    found
}

// One path.
fn of_path<'a>(
    scope: &Scope<'a>,
    number: usize,
    path: &'a AstPath,
    asked: Asked,
    sought: Sought,
) -> Option<Place>
    requires { number < length (declarations_of scope.now.declared) }
    ensures { IsEarliest (Contains (refused_of sought (declarations_of scope.now.declared) (declaration (declarations_of scope.now.declared) number).space asked (path.now ∷ []))) result }
{
    is_refused(scope, number, path, asked, sought).then_some(place_of(path))
}

fn is_refused<'a>(
    scope: &Scope<'a>,
    number: usize,
    path: &'a AstPath,
    asked: Asked,
    sought: Sought,
) -> bool
    requires { number < length (declarations_of scope.now.declared) }
    ensures { result ≡ is_refused sought (declarations_of scope.now.declared) (use_of (declaration (declarations_of scope.now.declared) number).space asked path.now) }
{
    match sought {
        Sought::Unknown => scope.named(number, path).is_none(),
        Sought::WrongKind => match scope.named(number, path) {
            Some(target) => !is_asked(asked, scope.get(target)),
            None => false,
        },
    }
}

/// Where a path stands: at its first name.
pub fn place_of(path: &AstPath) -> Place
    ensures { result ≡ place_of path.now }
{
    match path.names.as_slice() {
        [first, ..] => first.place,
        [] => Place {
            offset: 0,
            line: 0,
            column: 0,
        },
    }
}

// The port of a test that its streamlet lacks.
fn of_test<'a>(scope: &Scope<'a>, ports: &Ports<'a>, number: usize, sought: Sought) -> Option<Place>
    requires found { FindsPorts (contains by_key ports.now) (declarations_of scope.now.declared) (length (declarations_of scope.now.declared)) }
    requires within { number < length (declarations_of scope.now.declared) }
    ensures { IsEarliest (Contains (port_refused sought (declarations_of scope.now.declared) (declaration (declarations_of scope.now.declared) number))) result }
{
    match sought {
        Sought::Unknown => of_test_unknown(scope, ports, number),
        Sought::WrongKind => None,
    }
}

fn of_test_unknown<'a>(scope: &Scope<'a>, ports: &Ports<'a>, number: usize) -> Option<Place>
    requires found { FindsPorts (contains by_key ports.now) (declarations_of scope.now.declared) (length (declarations_of scope.now.declared)) }
    requires within { number < length (declarations_of scope.now.declared) }
    ensures { IsEarliest (Contains (spec.port_unknown (declarations_of scope.now.declared) (declaration (declarations_of scope.now.declared) number))) result }
{
    let AstKind::Test { target, port, .. } = scope.get(number).kind else {
        return None;
    };
    let streamlet = scope.named_as(number, target, Asked::Streamlet)?;
    (!has_port(scope, ports, streamlet, port)).then_some(port.place)
}
