ghost use Rattle.std.specs.Prelude.{◌≡◌, [], ◌∷◌, Some, IfOk, IfErr, MatchResult};
ghost use Rattle.kern_parse.specs.inner.Leading.{Fails};
ghost use Rattle.kern_parse.specs.inner.Reading.{next_kind};
ghost use Rattle.kern_parse.specs.Required.{Part};
ghost use Rattle.kern_parse.specs.inner.Stmts.{FindsStmt, ReadsStmt, ReadsStmts, ReadsBlock, ReadsElse, ReadsAssign};

use crate::KernFault;
use crate::kinds::name_in;
use crate::operators::Level;
use crate::reader::Reader;
use kern_token::{Name, Symbol, TokenKind, Word};
use kern_tree::{Act, Stmt};
use sqlite_items::Items;

impl Reader<'_> {
    #[cycle(statement)]
    pub(crate) fn statements(&mut self) -> Result<Items<Stmt>, KernFault>
        ensures { MatchResult result (λ stmts. ReadsStmts self.old stmts self.new)
            (λ fault. Fails (Part.Stmts ∷ []) self.old fault) }
    {
        let mut stmts = Items::new(self.alloc());
        while let Some(stmt) = self.statement()? {
            stmts.push(stmt)?;
        }
        Ok(stmts)
    }

    // The next statement, where a token begins one.
    #[cycle(statement)]
    fn statement(&mut self) -> Result<Option<Stmt>, KernFault>
        ensures { MatchResult result (λ found. FindsStmt self.old found self.new)
            (λ fault. Fails (Part.Stmts ∷ []) self.old fault) }
    {
        if let Some(name) = name_in(self.next()) {
            let stmt = self.assignment(name)?;
            return Ok(Some(stmt));
        }
        if self.sees_word(Word::If) {
            let stmt = self.conditional()?;
            return Ok(Some(stmt));
        }
        Ok(None)
    }

    fn assignment(&mut self, name: &Name) -> Result<Stmt, KernFault>
        requires { next_kind self.old ≡ Some (TokenKind.Name name.now) }
        ensures { MatchResult result (λ stmt. ReadsStmt self.old stmt self.new)
            (λ fault. Fails (Part.Stmts ∷ []) self.old fault) }
    {
        let name = name.clone()?;
        let place = self.node()?;
        let contributes = self.assign()?;
        let value = self.chain(Level::Or)?;
        self.symbol(Symbol::Semicolon)?;
        let act = if contributes {
            Act::Give(name, value)
        } else {
            Act::Set(name, value)
        };
        Ok(Stmt { place, act })
    }

    // Whether the assignment contributes to a force.
    fn assign(&mut self) -> Result<bool, KernFault>
        ensures ok { IfOk result (λ contributes. ReadsAssign self.old contributes self.new) }
        ensures err { IfErr result (λ fault. Fails (Part.Assign ∷ []) self.old fault) }
    {
        if self.sees(Symbol::Add) {
            self.take();
            return Ok(true);
        }
        if self.sees(Symbol::Assign) {
            self.take();
            return Ok(false);
        }
        Err(self.unexpected())
    }

    #[cycle(statement)]
    fn conditional(&mut self) -> Result<Stmt, KernFault>
        requires { next_kind self.old ≡ Some (TokenKind.Word Word.If) }
        ensures { MatchResult result (λ stmt. ReadsStmt self.old stmt self.new)
            (λ fault. Fails (Part.Stmts ∷ []) self.old fault) }
    {
        let place = self.node()?;
        let condition = self.chain(Level::Or)?;
        let body = self.block()?;
        let others = self.else_block()?;
        Ok(Stmt {
            place,
            act: Act::If(condition, body, others),
        })
    }

    // Without `else` the block is empty.
    #[cycle(statement)]
    fn else_block(&mut self) -> Result<Items<Stmt>, KernFault>
        ensures { MatchResult result (λ stmts. ReadsElse self.old stmts self.new)
            (λ fault. Fails (Part.ElseBlock ∷ []) self.old fault) }
    {
        if !self.sees_word(Word::Else) {
            return Ok(Items::new(self.alloc()));
        }
        self.take();
        self.block()
    }

    #[cycle(statement)]
    fn block(&mut self) -> Result<Items<Stmt>, KernFault>
        ensures { MatchResult result (λ stmts. ReadsBlock self.old stmts self.new)
            (λ fault. Fails (Part.Block ∷ []) self.old fault) }
    {
        self.open_bracket(Symbol::OpenCurly)?;
        let stmts = self.statements()?;
        self.close_bracket(Symbol::CloseCurly)?;
        Ok(stmts)
    }
}
