//! Types by their text, as part of a project. A table of the examples has their errors and widths.

ghost use Rattle.std.specs.Prelude.{IfOk};
ghost use Rattle.type_split.specs.Streams.{IsPortSplit, plain_split};

use logical_types::{LType, check, number_of_nodes};
use std::alloc::Global;
use til_lexer::lex;
use til_parser::{Ast, parse};
use til_resolve::{Project, resolve};
use tydi_base::{List, Memory, emit};
use type_split::{Split, number_of_streams, split_type};

// A project with one port, whose elements are Groups of a part of this type.
fn text_around(alloc: Global, ltype: &str) -> Result<List<u8>, Memory> {
    let mut text = List::new(alloc);
    emit!(text; "namespace a { streamlet s = (p: in Stream(data: Group(x: ", ltype, "))); }")?;
    Ok(text)
}

/// The project with one port that has this type inside.
pub(crate) fn project_around(alloc: Global, ltype: &str) -> Result<Project, Memory> {
    let text = text_around(alloc, ltype)?;
    match std::str::from_utf8(text.as_slice()) {
        Ok(text) => project_of(alloc, text),
        Err(_) => Err(Memory),
    }
}

/// The project of a text. Each error is reported as `Memory`, which no row expects.
pub(crate) fn project_of(alloc: Global, text: &str) -> Result<Project, Memory> {
    let Ok(ast) = tree_of(alloc, text) else {
        return Err(Memory);
    };
    match resolve(alloc, &ast) {
        Ok(project) => Ok(project),
        Err(_) => Err(Memory),
    }
}

/// The tree of a text.
pub(crate) fn tree_of(alloc: Global, text: &str) -> Result<Ast, Memory> {
    if text.len() > 1_000_000 {
        return Err(Memory);
    }
    let Ok(tokens) = lex(alloc, text) else {
        return Err(Memory);
    };
    match parse(alloc, text, tokens.as_slice()) {
        Ok(ast) => Ok(ast),
        Err(_) => Err(Memory),
    }
}

/// The type inside the port of such a project.
pub(crate) fn type_in(project: &Project) -> Result<&LType, Memory> {
    let Some(streamlet) = project.streamlets.get(0) else {
        return Err(Memory);
    };
    let Some(port) = streamlet.ports.get(0) else {
        return Err(Memory);
    };
    let LType::Group(parts) = &port.ltype.element else {
        return Err(Memory);
    };
    match parts.as_slice().first() {
        Some(part) => Ok(&part.ltype),
        None => Err(Memory),
    }
}

/// The split of a port of this type. Each error is reported as `Memory`, which no row expects.
pub(crate) fn split_in(alloc: Global, ltype: &LType) -> Result<Split<'_>, Memory>
    ensures { IfOk result (λ split. IsPortSplit (plain_split split)) }
{
    let LType::Stream(stream) = ltype else {
        return Err(Memory);
    };
    if check(ltype).is_err() || number_of_streams(ltype) > 65536 {
        return Err(Memory);
    }
    if number_of_nodes(ltype) > 65536 {
        return Err(Memory);
    }
    match split_type(alloc, stream.get()) {
        Ok(split) => Ok(split),
        Err(_) => Err(Memory),
    }
}
