//! Projects, namespaces, declarations and the bodies of implementations.

ghost use Rattle.std.specs.Prelude.{◌≡◌, true, false};
ghost use Rattle.til_parser.specs.ReadDecls as spec;
ghost use Rattle.til_parser.specs.ReadTypes.{bracketed, one_more};
ghost use Rattle.tydi_reading.specs.Lists as lists;
ghost use Rattle.tydi_reading.specs.Reading.{Reads, ReadsAlways};

use crate::keyword::{Keyword, keyword_of};
use crate::parser::Parser;
use crate::refusal::Fault;
use crate::tree::{
    Ast, AstBody, AstDecl, AstEnd, AstKind, AstName, AstNamespace, AstPort, AstPorts, AstStmt,
};
use til_lexer::TokenKind;
use tydi_base::{Boxed, List};
use tydi_reading::repeated;

impl<'a> Parser<'a> {
    /// `project`, whose types have at most so many levels.
    #[tactic(auto, unfolding(crate::specs::ReadDecls::project))]
    pub(crate) fn project(&mut self, levels: usize) -> Result<Ast, Fault>
        ensures { Reads (spec.project levels self.old) result self.new }
    {
        let namespaces = self.namespaces(levels)?;
        if namespaces.is_empty() {
            return Err(Fault::Refused);
        }
        Ok(Ast { namespaces })
    }

    /// `{ namespace }`, up to the end, whose types have at most so many levels.
    fn namespaces(&mut self, levels: usize) -> Result<List<AstNamespace>, Fault>
        ensures { Reads (lists.repeated (λ _. false) true (spec.namespace levels) self.old) result self.new }
    {
        let none = List::new(self.alloc());
        repeated(
            self,
            none,
            |rest| rest.is_at_end(),
            |rest| rest.namespace(levels),
        )
    }

    /// `namespace`
    #[tactic(auto, unfolding(crate::specs::ReadDecls::namespace))]
    fn namespace(&mut self, levels: usize) -> Result<AstNamespace, Fault>
        ensures { Reads (spec.namespace levels self.old) result self.new }
    {
        let doc = self.doc()?;
        self.expect_word("namespace")?;
        let path = self.path()?;
        let decls = self.decls(levels)?;
        Ok(AstNamespace { doc, path, decls })
    }

    /// `"{" { [doc] decl } "}"`
    fn decls(&mut self, levels: usize) -> Result<List<AstDecl>, Fault>
        ensures { Reads (spec.braced (spec.decl levels) self.old) result self.new }
    {
        self.braced(|rest| rest.decl(levels))
    }

    /// `[doc] decl`
    #[tactic(auto, unfolding(crate::specs::ReadDecls::decl, crate::specs::ReadDecls::named_kind))]
    fn decl(&mut self, levels: usize) -> Result<AstDecl, Fault>
        ensures { Reads (spec.decl levels self.old) result self.new }
    {
        let doc = self.doc()?;
        let keyword = self.keyword()?;
        let name = self.name()?;
        let kind = self.kind(keyword, levels)?;
        self.expect(TokenKind::Semicolon)?;
        Ok(AstDecl { doc, name, kind })
    }

    /// The word with which a declaration begins.
    fn keyword(&mut self) -> Result<Keyword, Fault>
        ensures { ReadsAlways (spec.keyword self.old) result self.new }
    {
        self.token(TokenKind::Word, |spelling| keyword_of(spelling))
    }

    /// The part of a declaration after its keyword and its name, up to its semicolon.
    fn kind(&mut self, keyword: Keyword, levels: usize) -> Result<AstKind, Fault>
        ensures { Reads (spec.kind_of levels keyword self.old) result self.new }
    {
        match keyword {
            Keyword::Type => {
                self.expect(TokenKind::Equals)?;
                Ok(AstKind::Alias(self.ltype(levels)?))
            }
            Keyword::Interface => {
                self.expect(TokenKind::Equals)?;
                Ok(AstKind::Interface(self.ports(levels)?))
            }
            Keyword::Streamlet => {
                self.expect(TokenKind::Equals)?;
                Ok(AstKind::Streamlet(self.streamlet_ports(levels)?))
            }
            Keyword::Impl => self.impl_kind(),
            Keyword::Test => self.test_kind(),
        }
    }

    /// `ports | path`
    #[tactic(auto, unfolding(crate::specs::ReadDecls::streamlet_ports))]
    fn streamlet_ports(&mut self, levels: usize) -> Result<AstPorts, Fault>
        ensures { Reads (spec.streamlet_ports levels self.old) result self.new }
    {
        if self.sees(TokenKind::OpenParen) {
            Ok(AstPorts::Own(self.ports(levels)?))
        } else {
            Ok(AstPorts::Named(self.path()?))
        }
    }

    /// `ports`
    fn ports(&mut self, levels: usize) -> Result<List<AstPort>, Fault>
        ensures { Reads (bracketed (spec.port levels) self.old) result self.new }
    {
        self.bracketed(
            List::new(self.alloc()),
            |rest, found| rest.next_port(found, levels),
        )
    }

    /// One port more, behind those that are found.
    fn next_port(&mut self, found: List<AstPort>, levels: usize) -> Result<List<AstPort>, Fault>
        ensures { Reads (one_more (spec.port levels) found self.old) result self.new }
    {
        let mut ports = found;
        ports.push(self.port(levels)?)?;
        Ok(ports)
    }

    /// `port`
    #[tactic(auto, unfolding(crate::specs::ReadDecls::port))]
    fn port(&mut self, levels: usize) -> Result<AstPort, Fault>
        ensures { Reads (spec.port levels self.old) result self.new }
    {
        let doc = self.doc()?;
        let name = self.name()?;
        self.expect(TokenKind::Colon)?;
        let inward = self.either_word("in", "out")?;
        let ltype = self.ltype(levels)?;
        Ok(AstPort {
            doc,
            name,
            inward,
            ltype,
        })
    }

    /// The part of an implementation after its name.
    #[tactic(auto, unfolding(crate::specs::ReadDecls::impl_kind))]
    fn impl_kind(&mut self) -> Result<AstKind, Fault>
        ensures { Reads (spec.impl_kind self.old) result self.new }
    {
        self.expect_word("of")?;
        let target = self.path()?;
        self.expect(TokenKind::Equals)?;
        let body = self.body()?;
        Ok(AstKind::Impl { target, body })
    }

    /// The part of a test after its name.
    #[tactic(auto, unfolding(crate::specs::ReadDecls::test_kind))]
    fn test_kind(&mut self) -> Result<AstKind, Fault>
        ensures { Reads (spec.test_kind self.old) result self.new }
    {
        self.expect_word("of")?;
        let target = self.path()?;
        self.expect_word("drive")?;
        let port = self.name()?;
        self.expect(TokenKind::Equals)?;
        let value = self.quoted()?;
        self.expect_word("plan")?;
        let plan = self.quoted()?;
        Ok(AstKind::Test {
            target,
            port,
            value,
            plan,
        })
    }

    /// `quoted | body`
    #[tactic(auto, unfolding(crate::specs::ReadDecls::body))]
    fn body(&mut self) -> Result<AstBody, Fault>
        ensures { Reads (spec.body self.old) result self.new }
    {
        if self.sees(TokenKind::Quoted) {
            Ok(AstBody::Linked(self.quoted()?))
        } else {
            Ok(AstBody::Structural(self.stmts()?))
        }
    }

    /// `"{" { stmt } "}"`
    fn stmts(&mut self) -> Result<List<AstStmt>, Fault>
        ensures { Reads (spec.braced spec.stmt self.old) result self.new }
    {
        self.braced(|rest| rest.stmt())
    }

    /// `stmt`: after the name with which both forms begin, the next token decides which it is.
    #[tactic(auto, unfolding(crate::specs::ReadDecls::stmt))]
    fn stmt(&mut self) -> Result<AstStmt, Fault>
        ensures { Reads (spec.stmt self.old) result self.new }
    {
        let name = self.name()?;
        if self.sees(TokenKind::Equals) {
            self.instance_of(name)
        } else {
            self.link_from(name)
        }
    }

    /// The part of an instance after its name.
    #[tactic(auto, unfolding(crate::specs::ReadDecls::instance_of))]
    fn instance_of(&mut self, name: AstName) -> Result<AstStmt, Fault>
        ensures { Reads (spec.instance_of name self.old) result self.new }
    {
        self.expect(TokenKind::Equals)?;
        let streamlet = self.path()?;
        self.expect(TokenKind::Semicolon)?;
        Ok(AstStmt::Instance { name, streamlet })
    }

    /// The part of a link after its first name.
    #[tactic(auto, unfolding(crate::specs::ReadDecls::link_from))]
    fn link_from(&mut self, name: AstName) -> Result<AstStmt, Fault>
        ensures { Reads (spec.link_from name self.old) result self.new }
    {
        let first = AstEnd {
            first: name,
            second: self.second()?,
        };
        self.expect(TokenKind::DoubleDash)?;
        let end = self.end()?;
        let second = Boxed::new(self.alloc(), end)?;
        self.expect(TokenKind::Semicolon)?;
        Ok(AstStmt::Link { first, second })
    }

    /// `end`
    #[tactic(auto, unfolding(crate::specs::ReadDecls::end))]
    fn end(&mut self) -> Result<AstEnd, Fault>
        ensures { Reads (spec.end self.old) result self.new }
    {
        let first = self.name()?;
        let second = self.second()?;
        Ok(AstEnd { first, second })
    }

    /// `[ "." name ]`
    #[tactic(auto, unfolding(crate::specs::ReadDecls::second, tydi_reading::specs::Lists::mark))]
    fn second(&mut self) -> Result<Option<Boxed<AstName>>, Fault>
        ensures { Reads (spec.second self.old) result self.new }
    {
        if !self.eat(TokenKind::Point) {
            return Ok(None);
        }
        let name = self.name()?;
        Ok(Some(Boxed::new(self.alloc(), name)?))
    }
}
