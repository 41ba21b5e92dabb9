//! The type of a port.

ghost use Rattle.std.specs.Prelude.{◌≡◌, ◌<◌, length, None, Contains, IfOk, IfSome};
ghost use Rattle.logical_types.specs.Tree.{plain_of_stream};
ghost use Rattle.til_parser.specs.Tree.{plain};
ghost use Rattle.til_resolve.specs.Declarations.{declaration};
ghost use Rattle.til_resolve.specs.Faults.{IsToldUpTo, written_types};
ghost use Rattle.til_resolve.specs.Making.{type_of_port};
ghost use Rattle.til_resolve.specs.NumberedTypes.{numbered_type};
ghost use Rattle.til_resolve.specs.Scope.{declarations_of};
ghost use Rattle.til_resolve.specs.SharedTypes.{AreTypes};
ghost use Rattle.til_resolve.specs.Types.{type_of};

use crate::replacing::replaced_type;
use crate::scope::Scope;
use logical_types::{LType, StreamType};
use std::alloc::Global;
use std::rc::Rc;
use til_parser::{AstPort, AstType};
use tydi_base::Memory;

/// The Stream that is the type of a port, which the declaration of a number writes. It shares the types of declarations.
pub fn type_of_port<'a>(
    alloc: Global,
    scope: &Scope<'a>,
    types: &[LType],
    number: usize,
    port: &'a AstPort,
) -> Result<Rc<StreamType>, Memory>
    requires sound { IsToldUpTo (declarations_of scope.now.declared) 7 None }
    requires types { AreTypes (declarations_of scope.now.declared) (length (declarations_of scope.now.declared)) types.now }
    requires within { number < length (declarations_of scope.now.declared) }
    requires written { Contains (written_types (declarations_of scope.now.declared))
        (type_of_port (declarations_of scope.now.declared) (declaration (declarations_of scope.now.declared) number).space port.now) }
    ensures { IfOk result (λ stream. plain_of_stream stream.value
        ≡ type_of (declarations_of scope.now.declared) (declaration (declarations_of scope.now.declared) number).space (plain port.now.ltype)) }
{
    match replaced_type(alloc, scope, number, &port.ltype, types)? {
        LType::Stream(stream) => Ok(stream.into_rc()),
        // A port whose type is no Stream was reported before.
        LType::Null | LType::Bits(_) | LType::Group(_) | LType::Union(_) => unreachable!(),
    }
}

/// The number of the declaration that a written type names. None where it names none, or is written in place.
pub fn declared_type<'a>(scope: &Scope<'a>, number: usize, ltype: &'a AstType) -> Option<usize>
    requires { number < length (declarations_of scope.now.declared) }
    ensures { IfSome result (λ one. type_of (declarations_of scope.now.declared) (declaration (declarations_of scope.now.declared) number).space (plain ltype.now)
        ≡ numbered_type (declarations_of scope.now.declared) one) }
{
    match ltype {
        AstType::Path(path) => scope.named(number, path),
        AstType::Null
        | AstType::Bits(_)
        | AstType::Group(_)
        | AstType::Union(_)
        | AstType::Stream(_) => None,
    }
}
