ghost use Rattle.std.specs.Prelude.{◌≡◌, ◌<◌, ◌≤◌, ◌^◌, ◌+◌, ◌-◌, ◌↔◌, ◌⊎◌, ℕ, [], ◌∷◌, Some, IsSome, IsTrue};
ghost use Rattle.std.specs.Prelude.{MatchOption, IfOk, IfErr, OnOk};
ghost use Rattle.std.specs.Option.{option_copied};
ghost use Rattle.kern_token.specs.declared.fault.KernFault.TheVariants.{Memory};
ghost use Rattle.kern_tree.specs.FirstFault.{brackets_after, end_of_tokens};
ghost use Rattle.kern_parse.specs.inner.Found.{ReadsToken};
ghost use Rattle.kern_parse.specs.inner.Leading.{Halts};
ghost use Rattle.kern_parse.specs.inner.Reading.{AreInLimit, next_kind, next_place, Takes, TakesNode, IsFull};
ghost use Rattle.kern_parse.specs.Required.{Part, Refuses};

use crate::KernFault;
use crate::kinds::{name_in, scale_in};
use kern_token::{Name, Symbol, Token, TokenKind, Word};
use kern_tree::{MOST_NODES, MOST_OPEN};
use std::alloc::Global;
use std::marker::Model;

/// What is left to read of a kernel's tokens, and the counts that have limits.
#[derive(Drop)]
pub(crate) struct Reader<'a> {
    alloc: Global,
    rest: &'a [Token],
    // Where the last token of the whole text ends.
    end: u32,
    nodes: u32,
    depth: u32,
}

impl<'a> Model for Reader<'a> {
    ghost use Rattle.std.specs.Prelude.{◌≤◌};
    ghost use Rattle.kern_tree.specs.declared.limits.TheConstants.{MOST_NODES, MOST_OPEN};
    ghost use Rattle.kern_parse.specs.inner.Reading.{Reading, AreInLimit};

    ghost Value = { Reading };

    ghost view = { λ r. record { rest = r.rest.now; end = r.end; nodes = r.nodes; depth = r.depth } };

    ghost invariant = { λ r. (r.nodes ≤ MOST_NODES) × (r.depth ≤ MOST_OPEN) × AreInLimit r.rest.now };
}

impl<'a> Reader<'a> {
    pub(crate) fn new(alloc: Global, toks: &'a [Token]) -> Self
        requires { AreInLimit toks.now }
        ensures { result ≡ record { rest = toks.now; end = end_of_tokens toks.now; nodes = 0; depth = 0 } }
    {
        let end = match toks.last() {
            Some(token) => token.end,
            None => 0,
        };
        Reader {
            alloc,
            rest: toks,
            end,
            nodes: 0,
            depth: 0,
        }
    }

    pub(crate) fn alloc(&self) -> Global {
        self.alloc
    }

    pub(crate) fn next(&self) -> Option<&'a TokenKind>
        ensures { option_copied result ≡ next_kind self.now }
    {
        let token = self.rest.first()?;
        Some(&token.kind)
    }

    // The number that comes next.
    fn next_number(&self) -> Option<u64>
        ensures { MatchOption result (Refuses Part.Number (next_kind self.now))
            (λ number. (next_kind self.now ≡ Some (TokenKind.Number number)) × (number < 2 ^ 63)) }
    {
        let token = self.rest.first()?;
        match &token.kind {
            TokenKind::Number(number) => Some(*number),
            _ => None,
        }
    }

    pub(crate) fn sees(&self, symbol: Symbol) -> bool
        ensures { IsTrue result ↔ (next_kind self.now ≡ Some (TokenKind.Symbol symbol)) }
    {
        match self.next() {
            Some(TokenKind::Symbol(next)) => *next == symbol,
            _ => false,
        }
    }

    pub(crate) fn sees_word(&self, word: Word) -> bool
        ensures { IsTrue result ↔ (next_kind self.now ≡ Some (TokenKind.Word word)) }
    {
        match self.next() {
            Some(TokenKind::Word(next)) => *next == word,
            _ => false,
        }
    }

    // The fault of the next token, or of the end, where the grammar requires something else.
    pub(crate) fn unexpected(&self) -> KernFault
        ensures { result ≡ KernFault.Unexpected (next_place self.now) }
    {
        match self.rest.first() {
            Some(token) => KernFault::Unexpected(token.place),
            None => KernFault::Unexpected(self.end),
        }
    }

    // Reads the next token, whatever it is. The answer is its place.
    pub(crate) fn take(&mut self) -> u32
        requires { IsSome (next_kind self.old) }
        ensures { Takes self.old result self.new }
    {
        let place = self.rest[0].place;
        self.rest = &self.rest[1..];
        place
    }

    // Reads the next token, which is a node's. The answer is its place.
    pub(crate) fn node(&mut self) -> Result<u32, KernFault>
        requires { IsSome (next_kind self.old) }
        ensures ok { IfOk result (λ place. TakesNode self.old place self.new) }
        ensures err { IfErr result (λ fault. IsFull self.old fault) }
    {
        let place = self.take();
        if self.nodes == MOST_NODES {
            return Err(KernFault::TooManyNodes(place));
        }
        self.nodes += 1;
        Ok(place)
    }

    pub(crate) fn symbol(&mut self, symbol: Symbol) -> Result<(), KernFault>
        requires { (depth : ℕ) → brackets_after depth (TokenKind.Symbol symbol) ≡ depth }
        ensures ok { OnOk result (ReadsToken (Part.Exactly symbol) (TokenKind.Symbol symbol) self.old self.new) }
        ensures err { IfErr result (λ fault. Halts (Part.Exactly symbol ∷ []) self.old fault) }
    {
        if !self.sees(symbol) {
            return Err(self.unexpected());
        }
        self.take();
        Ok(())
    }

    pub(crate) fn open_bracket(&mut self, bracket: Symbol) -> Result<(), KernFault>
        requires { (depth : ℕ) → brackets_after depth (TokenKind.Symbol bracket) ≡ depth + 1 }
        ensures ok { OnOk result (ReadsToken (Part.Exactly bracket) (TokenKind.Symbol bracket) self.old self.new) }
        ensures err { IfErr result (λ fault. Halts (Part.Exactly bracket ∷ []) self.old fault) }
    {
        if !self.sees(bracket) {
            return Err(self.unexpected());
        }
        let place = self.take();
        if self.depth == MOST_OPEN {
            return Err(KernFault::TooDeep(place));
        }
        self.depth += 1;
        Ok(())
    }

    pub(crate) fn close_bracket(&mut self, bracket: Symbol) -> Result<(), KernFault>
        requires any_open { 0 < self.old.depth }
        requires closes { (depth : ℕ) → brackets_after depth (TokenKind.Symbol bracket) ≡ depth - 1 }
        ensures ok { OnOk result (ReadsToken (Part.Exactly bracket) (TokenKind.Symbol bracket) self.old self.new) }
        ensures err { IfErr result (λ fault. Halts (Part.Exactly bracket ∷ []) self.old fault) }
    {
        if !self.sees(bracket) {
            return Err(self.unexpected());
        }
        self.take();
        self.depth -= 1;
        Ok(())
    }

    pub(crate) fn name(&mut self) -> Result<Name, KernFault>
        ensures ok { IfOk result (λ name. ReadsToken Part.Name (TokenKind.Name name) self.old self.new) }
        ensures err { IfErr result (λ fault. (fault ≡ Memory) ⊎ Halts (Part.Name ∷ []) self.old fault) }
    {
        let Some(name) = name_in(self.next()) else {
            return Err(self.unexpected());
        };
        let name = name.clone()?;
        self.take();
        Ok(name)
    }

    pub(crate) fn scale(&mut self) -> Result<u32, KernFault>
        ensures ok { IfOk result (λ bits. ReadsToken Part.Scale (TokenKind.Scale bits) self.old self.new) }
        ensures err { IfErr result (λ fault. Halts (Part.Scale ∷ []) self.old fault) }
    {
        let Some(scale) = scale_in(self.next()) else {
            return Err(self.unexpected());
        };
        self.take();
        Ok(scale)
    }

    pub(crate) fn number(&mut self) -> Result<u64, KernFault>
        ensures ok { IfOk result (λ number. ReadsToken Part.Number (TokenKind.Number number) self.old self.new) }
        ensures limit { IfOk result (λ number. number < 2 ^ 63) }
        ensures err { IfErr result (λ fault. Halts (Part.Number ∷ []) self.old fault) }
    {
        let Some(number) = self.next_number() else {
            return Err(self.unexpected());
        };
        self.take();
        Ok(number)
    }
}
