ghost use Rattle.std.specs.Prelude.{◌≡◌, [], ◌∷◌, Some, IfOk, MatchResult, FitsSigned};
ghost use Rattle.std.specs.Int.{w64};
ghost use Rattle.kern_tree.specs.Grammar.{kind, combine, signed, decl};
ghost use Rattle.kern_tree.specs.Rules.{many};
ghost use Rattle.kern_parse.specs.inner.Decls.{ReadsDecl, start_of, kind_of, combine_of, word_of};
ghost use Rattle.kern_parse.specs.inner.Found.{ReadsRule};
ghost use Rattle.kern_parse.specs.inner.Leading.{Fails};
ghost use Rattle.kern_parse.specs.inner.Reading.{next_kind};
ghost use Rattle.kern_parse.specs.Required.{Part};
ghost use Rattle.std.specs.Option.{option_copied};

use crate::KernFault;
use crate::reader::Reader;
use kern_token::{Symbol, TokenKind, Word};
use kern_tree::{Combine, Decl, DeclKind, Kind};
use sqlite_items::Items;

// The two sides of a pair, whose fields are declared.
#[derive(Clone, Copy)]
pub(crate) enum Side {
    Epi,
    Epj,
}

// What a declaration's first word tells.
#[derive(Clone, Copy)]
pub(crate) enum Start {
    Field(Side),
    Force,
    Constant,
}

fn start_of(next: Option<&TokenKind>) -> Option<Start>
    ensures { result ≡ start_of (option_copied next.entry) }
{
    let TokenKind::Word(word) = next? else {
        return None;
    };
    match word {
        Word::Epi => Some(Start::Field(Side::Epi)),
        Word::Epj => Some(Start::Field(Side::Epj)),
        Word::Force => Some(Start::Force),
        Word::Param => Some(Start::Constant),
        _ => None,
    }
}

fn kind_of(next: Option<&TokenKind>) -> Option<Kind>
    ensures { result ≡ kind_of (option_copied next.entry) }
{
    let TokenKind::Word(word) = next? else {
        return None;
    };
    match word {
        Word::Num => Some(Kind::Num),
        Word::Vec => Some(Kind::Vec3),
        _ => None,
    }
}

fn combine_of(next: Option<&TokenKind>) -> Option<Combine>
    ensures { result ≡ combine_of (option_copied next.entry) }
{
    let TokenKind::Word(word) = next? else {
        return None;
    };
    match word {
        Word::Sum => Some(Combine::Sum),
        Word::Max => Some(Combine::Max),
        Word::Min => Some(Combine::Min),
        _ => None,
    }
}

impl Reader<'_> {
    pub(crate) fn declarations(&mut self) -> Result<Items<Decl>, KernFault>
        ensures { MatchResult result (λ decls. ReadsRule (many decl) (Part.Decls ∷ []) self.old decls self.new)
            (λ fault. Fails (Part.Decls ∷ []) self.old fault) }
    {
        let mut decls = Items::new(self.alloc());
        while let Some(start) = start_of(self.next()) {
            let decl = self.declaration(start)?;
            decls.push(decl)?;
        }
        Ok(decls)
    }

    fn declaration(&mut self, start: Start) -> Result<Decl, KernFault>
        requires { next_kind self.old ≡ Some (TokenKind.Word (word_of start)) }
        ensures { MatchResult result (λ d. ReadsDecl self.old d self.new)
            (λ fault. Fails (Part.Decls ∷ []) self.old fault) }
    {
        match start {
            Start::Field(side) => self.field(side),
            Start::Force => self.force(),
            Start::Constant => self.constant(),
        }
    }

    fn field(&mut self, side: Side) -> Result<Decl, KernFault>
        requires { next_kind self.old ≡ Some (TokenKind.Word (word_of (Start.Field side))) }
        ensures { MatchResult result (λ d. ReadsDecl self.old d self.new)
            (λ fault. Fails (Part.Decls ∷ []) self.old fault) }
    {
        let place = self.node()?;
        let kind = self.kind()?;
        let scale = self.scale()?;
        let name = self.name()?;
        self.symbol(Symbol::Colon)?;
        let field = self.name()?;
        self.symbol(Symbol::Semicolon)?;
        let what = match side {
            Side::Epi => DeclKind::Epi(kind, scale, field),
            Side::Epj => DeclKind::Epj(kind, scale, field),
        };
        Ok(Decl { place, name, what })
    }

    fn force(&mut self) -> Result<Decl, KernFault>
        requires { next_kind self.old ≡ Some (TokenKind.Word Word.Force) }
        ensures { MatchResult result (λ d. ReadsDecl self.old d self.new)
            (λ fault. Fails (Part.Decls ∷ []) self.old fault) }
    {
        let place = self.node()?;
        let kind = self.kind()?;
        let scale = self.scale()?;
        let name = self.name()?;
        let combine = self.combine()?;
        self.symbol(Symbol::Semicolon)?;
        Ok(Decl {
            place,
            name,
            what: DeclKind::Force(kind, scale, combine),
        })
    }

    fn constant(&mut self) -> Result<Decl, KernFault>
        requires { next_kind self.old ≡ Some (TokenKind.Word Word.Param) }
        ensures { MatchResult result (λ d. ReadsDecl self.old d self.new)
            (λ fault. Fails (Part.Decls ∷ []) self.old fault) }
    {
        let place = self.node()?;
        let scale = self.scale()?;
        let name = self.name()?;
        self.symbol(Symbol::Assign)?;
        let value = self.signed_number()?;
        self.symbol(Symbol::Semicolon)?;
        Ok(Decl {
            place,
            name,
            what: DeclKind::Param(scale, value),
        })
    }

    fn kind(&mut self) -> Result<Kind, KernFault>
        ensures { MatchResult result (λ k. ReadsRule kind (Part.KindWord ∷ []) self.old k self.new)
            (λ fault. Fails (Part.KindWord ∷ []) self.old fault) }
    {
        let Some(kind) = kind_of(self.next()) else {
            return Err(self.unexpected());
        };
        self.take();
        Ok(kind)
    }

    fn combine(&mut self) -> Result<Combine, KernFault>
        ensures { MatchResult result (λ way. ReadsRule combine (Part.CombineWord ∷ []) self.old way self.new)
            (λ fault. Fails (Part.CombineWord ∷ []) self.old fault) }
    {
        let Some(combine) = combine_of(self.next()) else {
            return Err(self.unexpected());
        };
        self.take();
        Ok(combine)
    }

    fn signed_number(&mut self) -> Result<i64, KernFault>
        ensures read { MatchResult result (λ value. ReadsRule signed (Part.Signed ∷ []) self.old value self.new)
            (λ fault. Fails (Part.Signed ∷ []) self.old fault) }
        ensures fits { IfOk result (λ value. FitsSigned w64 value) }
    {
        if self.sees(Symbol::Minus) {
            self.take();
            let number = self.number()?;
            return Ok(-(number as i64));
        }
        let number = self.number()?;
        Ok(number as i64)
    }
}
