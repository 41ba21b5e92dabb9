//! The canonical text of a tree, by the text of each of its parts.

ghost use Rattle.std.specs.Prelude.{◌≡◌, [], ◌++◌, IfOk, OnErr, OnOk, codes};
ghost use Rattle.std.specs.List.{flat_map};
ghost use Rattle.til_parser.specs.Canonical as spec;
ghost use Rattle.til_parser.specs.Laws.{IsReadAgain};
ghost use Rattle.til_parser.specs.Trees.{IsSpellable};
ghost use Rattle.til_parser.specs.Grammar.{direction_word, sync_word, truth_word, way_word};
ghost use Rattle.til_parser.specs.Tree.{plain, settings_of};
ghost use Rattle.tydi_base.specs.Writing.{StandsInFront};

use crate::ltype::{AstPart, AstStream, AstSync, AstType};
use crate::tree::{
    Ast, AstBody, AstDecl, AstEnd, AstKind, AstName, AstNamespace, AstPort, AstPorts, AstStmt,
};
use crate::written::{Doc, DocLine, EachAfter, FewestDigits, Quoted};
use std::alloc::Global;
use tydi_base::{Each, List, Memory, Written, emit};

/// The canonical text of a tree, or `Memory` where there is none for it. A Stream shows all its arguments, and no place is shown. Where
/// the tree is, its places aside, that of some text (`IsSpellable`), the canonical text spells it again.
#[tactic(auto, using(crate::proofs::printed::ReadAgain::spellable_read))]
pub fn print(alloc: Global, ast: &Ast) -> Result<List<u8>, Memory>
    ensures text { IfOk result (λ text. text ≡ spec.canonical ast.now) }
    ensures again { IfOk result (λ text. IsSpellable ast.now → IsReadAgain text ast.now) }
{
    let mut text = List::new(alloc);
    emit!(text; Each(ast.namespaces.as_slice()))?;
    Ok(text)
}

impl Written for AstNamespace {
    ghost text = { spec.namespace_text };

    fn write_to(&self, out: &mut List<u8>) -> Result<(), Memory> {
        emit!(out; DocLine("", &self.doc), "namespace ", &self.path, " {\n", Each(self.decls.as_slice()), "}\n")
    }
}

impl Written for AstDecl {
    ghost text = { spec.decl_text };

    fn write_to(&self, out: &mut List<u8>) -> Result<(), Memory> {
        emit!(out; DocLine("  ", &self.doc), "  ", Declared(&self.name, &self.kind), ";\n")
    }
}

/// A declaration of this name, up to the semicolon.
#[derive(Clone, Copy)]
struct Declared<'a>(&'a AstName, &'a AstKind);

impl Written for Declared<'_> {
    ghost text = { λ declared. spec.kind_text declared.0.now.name declared.1.now };

    fn write_to(&self, out: &mut List<u8>) -> Result<(), Memory> {
        let name = self.0;
        match self.1 {
            AstKind::Alias(ltype) => emit!(out; "type ", name, " = ", ltype),
            AstKind::Interface(ports) => emit!(out; "interface ", name, " = ", Ports(ports)),
            AstKind::Streamlet(ports) => emit!(out; "streamlet ", name, " = ", ports),
            AstKind::Impl { target, body } =>
                emit!(out; "impl ", name, " of ", target, " = ", body),
            AstKind::Test {
                target,
                port,
                value,
                plan,
            } =>
                emit!(out; "test ", name, " of ", target, " drive ", port, " = ", Quoted(value), " plan ", Quoted(plan)),
        }
    }
}

impl Written for AstPorts {
    ghost text = { spec.streamlet_text };

    fn write_to(&self, out: &mut List<u8>) -> Result<(), Memory> {
        match self {
            AstPorts::Own(ports) => emit!(out; Ports(ports)),
            AstPorts::Named(path) => emit!(out; path),
        }
    }
}

/// Ports in brackets.
#[derive(Clone, Copy)]
struct Ports<'a>(&'a List<AstPort>);

impl Written for Ports<'_> {
    ghost text = { λ ports. spec.ports_text ports.0.now };

    fn write_to(&self, out: &mut List<u8>) -> Result<(), Memory> {
        let [first, others @ ..] = self.0.as_slice() else {
            return emit!(out; "()");
        };
        emit!(out; "(", first, EachAfter(", ", others), ")")
    }
}

impl Written for AstPort {
    ghost text = { spec.port_text };

    fn write_to(&self, out: &mut List<u8>) -> Result<(), Memory> {
        emit!(out; Doc(&self.doc, " "), &self.name, ": ", way_word(self.inward), " ", &self.ltype)
    }
}

impl Written for AstBody {
    ghost text = { spec.body_text };

    fn write_to(&self, out: &mut List<u8>) -> Result<(), Memory> {
        match self {
            AstBody::Linked(text) => emit!(out; Quoted(text)),
            AstBody::Structural(stmts) => emit!(out; "{", EachAfter(" ", stmts.as_slice()), " }"),
        }
    }
}

impl Written for AstStmt {
    ghost text = { spec.stmt_text };

    fn write_to(&self, out: &mut List<u8>) -> Result<(), Memory> {
        match self {
            AstStmt::Instance { name, streamlet } => emit!(out; name, " = ", streamlet, ";"),
            AstStmt::Link { first, second } => emit!(out; first, " -- ", second.get(), ";"),
        }
    }
}

impl Written for AstEnd {
    ghost text = { spec.end_text };

    fn write_to(&self, out: &mut List<u8>) -> Result<(), Memory> {
        match &self.second {
            None => emit!(out; &self.first),
            Some(second) => emit!(out; &self.first, ".", second.get()),
        }
    }
}

impl Written for AstType {
    ghost text = { λ ltype. spec.type_text (plain ltype) };

    fn write_to(&self, out: &mut List<u8>) -> Result<(), Memory> {
        write_type(self, out)
    }
}

#[cycle(ltype)]
fn write_type(ltype: &AstType, out: &mut List<u8>) -> Result<(), Memory>
    ensures ok { OnOk result (out.new ≡ out.old ++ spec.type_text (plain ltype.now)) }
    ensures err { OnErr result (StandsInFront out.old out.new) }
{
    match ltype {
        AstType::Null => emit!(out; "Null"),
        AstType::Bits(width) => emit!(out; "Bits(", *width, ")"),
        AstType::Group(parts) => write_parts("Group(", parts.as_slice(), out),
        AstType::Union(parts) => write_parts("Union(", parts.as_slice(), out),
        AstType::Stream(stream) => write_stream(stream.get(), out),
        AstType::Path(path) => emit!(out; path),
    }
}

/// Parts with this word before them, a comma and a space between each two, and a closing bracket.
#[cycle(ltype)]
fn write_parts(word: &str, parts: &[AstPart], out: &mut List<u8>) -> Result<(), Memory>
    ensures ok { OnOk result (out.new ≡ out.old ++ (word.now ++ (spec.listed_text parts.now ++ codes ")"))) }
    ensures err { OnErr result (StandsInFront out.old out.new) }
{
    let [first, others @ ..] = parts else {
        return emit!(out; word, ")");
    };
    write_part(word, first, out)?;
    'parts: for part in others {
        write_part(", ", part, out)?;
    }
    emit!(out; ")")
}

/// A part, with this text before it.
#[cycle(ltype)]
fn write_part(before: &str, part: &AstPart, out: &mut List<u8>) -> Result<(), Memory>
    ensures ok { OnOk result (out.new ≡ out.old ++ before.now ++ spec.part_text part.now) }
    ensures err { OnErr result (StandsInFront out.old out.new) }
{
    emit!(out; before, &part.name, ": ")?;
    write_type(&part.ltype, out)
}

#[cycle(ltype)]
fn write_stream(stream: &AstStream, out: &mut List<u8>) -> Result<(), Memory>
    ensures ok { OnOk result (out.new ≡ out.old ++ spec.stream_text stream.now) }
    ensures err { OnErr result (StandsInFront out.old out.new) }
{
    emit!(out; "Stream(data: ")?;
    write_type(&stream.element, out)?;
    emit!(out; Settings(stream))?;
    write_type(&stream.user, out)?;
    emit!(out; ", keep: ", truth_word(stream.keep), ")")
}

/// The arguments of a Stream that follow its data type, up to its user type.
#[derive(Clone, Copy)]
struct Settings<'a>(&'a AstStream);

impl Written for Settings<'_> {
    ghost text = { λ settings. spec.settings_text (settings_of settings.0.now) [] };

    fn write_to(&self, out: &mut List<u8>) -> Result<(), Memory> {
        let stream = self.0;
        emit!(out;
            ", throughput: ", FewestDigits(stream.throughput),
            ", dimensionality: ", stream.dims,
            ", synchronicity: ", sync_word(stream.sync),
            ", complexity: ", stream.level,
            ", direction: ", direction_word(stream.reverse),
            ", user: ")
    }
}

/// The word of a way.
fn way_word(inward: bool) -> &'static str
    ensures { result.now ≡ way_word inward }
{
    if inward { "in" } else { "out" }
}

/// The word of a direction.
fn direction_word(reverse: bool) -> &'static str
    ensures { result.now ≡ direction_word reverse }
{
    if reverse { "Reverse" } else { "Forward" }
}

/// The word of a truth.
fn truth_word(truth: bool) -> &'static str
    ensures { result.now ≡ truth_word truth }
{
    if truth { "true" } else { "false" }
}

/// The word of a synchronicity.
fn sync_word(sync: AstSync) -> &'static str
    ensures { result.now ≡ sync_word sync }
{
    match sync {
        AstSync::Sync => "Sync",
        AstSync::Flatten => "Flatten",
        AstSync::Desync => "Desync",
        AstSync::FlatDesync => "FlatDesync",
    }
}
