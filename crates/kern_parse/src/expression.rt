ghost use Rattle.std.specs.Prelude.{◌≡◌, [], ◌∷◌, Some, MatchResult};
ghost use Rattle.kern_tree.specs.Grammar.{axis, to_scale};
ghost use Rattle.kern_parse.specs.inner.Found.{ReadsRule, ReadsExpr, ReadsCall, ReadsBracketed, IsCalled, arguments};
ghost use Rattle.kern_parse.specs.inner.Found.{scale_if_any};
ghost use Rattle.kern_parse.specs.inner.Leading.{Fails};
ghost use Rattle.kern_parse.specs.inner.Reading.{next_kind};
ghost use Rattle.kern_parse.specs.Required.{Part, one_argument, operand, axis_at};

use crate::kinds::{name_in, scale_in};
use crate::operators::{Call, Level, binary, call_of, prefix, relation};
use crate::reader::Reader;
use crate::{KernFault, nodes};
use kern_token::{Name, Symbol, TokenKind};
use kern_tree::{Expr, Form, Op1, Op2, Op3};
use pf_geom::Axis;

impl Reader<'_> {
    // Operands of the level, joined by its operators and grouped from the left.
    #[cycle(expression)]
    pub(crate) fn chain(&mut self, level: Level) -> Result<Expr, KernFault>
        ensures { MatchResult result (λ e. ReadsExpr (Part.Chain level) self.old e self.new)
            (λ fault. Fails (Part.Chain level ∷ []) self.old fault) }
    {
        let mut left = self.operand(level)?;
        while let Some(op) = binary(level, self.next()) {
            let place = self.node()?;
            let right = self.operand(level)?;
            left = nodes::two(self.alloc(), place, op, left, right)?;
        }
        Ok(left)
    }

    #[cycle(expression)]
    fn operand(&mut self, level: Level) -> Result<Expr, KernFault>
        ensures { MatchResult result (λ e. ReadsExpr (operand level) self.old e self.new)
            (λ fault. Fails (operand level ∷ []) self.old fault) }
    {
        match level {
            Level::Or => self.chain(Level::And),
            Level::And => self.relation(),
            Level::Sum => self.chain(Level::Product),
            Level::Product => self.unary(),
        }
    }

    #[cycle(expression)]
    fn relation(&mut self) -> Result<Expr, KernFault>
        ensures { MatchResult result (λ e. ReadsExpr Part.Rel self.old e self.new)
            (λ fault. Fails (Part.Rel ∷ []) self.old fault) }
    {
        let left = self.chain(Level::Sum)?;
        let Some(op) = relation(self.next()) else {
            return Ok(left);
        };
        let place = self.node()?;
        let right = self.chain(Level::Sum)?;
        nodes::two(self.alloc(), place, op, left, right)
    }

    #[cycle(expression)]
    fn unary(&mut self) -> Result<Expr, KernFault>
        ensures { MatchResult result (λ e. ReadsExpr Part.Unary self.old e self.new)
            (λ fault. Fails (Part.Unary ∷ []) self.old fault) }
    {
        let Some(op) = prefix(self.next()) else {
            return self.postfix();
        };
        let place = self.node()?;
        let inner = self.postfix()?;
        nodes::one(self.alloc(), place, op, inner)
    }

    #[cycle(expression)]
    fn postfix(&mut self) -> Result<Expr, KernFault>
        ensures { MatchResult result (λ e. ReadsExpr Part.Post self.old e self.new)
            (λ fault. Fails (Part.Post ∷ []) self.old fault) }
    {
        let mut inner = self.primary()?;
        while self.sees(Symbol::Dot) {
            let place = self.node()?;
            let axis = self.axis()?;
            inner = nodes::part(self.alloc(), place, inner, axis)?;
        }
        Ok(inner)
    }

    #[cycle(expression)]
    fn primary(&mut self) -> Result<Expr, KernFault>
        ensures { MatchResult result (λ e. ReadsExpr Part.Prim self.old e self.new)
            (λ fault. Fails (Part.Prim ∷ []) self.old fault) }
    {
        let Some(kind) = self.next() else {
            return Err(self.unexpected());
        };
        match kind {
            TokenKind::Number(number) => self.literal(*number),
            TokenKind::Name(name) => self.variable(name),
            TokenKind::Word(word) => match call_of(*word) {
                Some(call) => self.call(call),
                None => Err(self.unexpected()),
            },
            // Nothing else begins one but a bracket.
            _ => self.bracketed(),
        }
    }

    #[cycle(expression)]
    fn bracketed(&mut self) -> Result<Expr, KernFault>
        ensures { MatchResult result (λ e. ReadsBracketed self.old e self.new)
            (λ fault. Fails one_argument self.old fault) }
    {
        self.open_bracket(Symbol::OpenRound)?;
        let inner = self.chain(Level::Or)?;
        self.close_bracket(Symbol::CloseRound)?;
        Ok(inner)
    }

    #[cycle(expression)]
    fn call(&mut self, call: Call) -> Result<Expr, KernFault>
        requires { IsCalled (next_kind self.old) call }
        ensures { MatchResult result (λ e. ReadsExpr Part.Prim self.old e self.new)
            (λ fault. Fails (Part.Prim ∷ []) self.old fault) }
    {
        let place = self.node()?;
        match call {
            Call::One(op) => {
                let inner = self.bracketed()?;
                nodes::one(self.alloc(), place, op, inner)
            }
            Call::Two(op) => self.call_of_two(place, op),
            Call::Three(op) => self.call_of_three(place, op),
            Call::To => self.rescaling(place),
        }
    }

    #[cycle(expression)]
    fn call_of_two(&mut self, place: u32, op: Op2) -> Result<Expr, KernFault>
        ensures { MatchResult result (λ e. ReadsCall (Call.Two op) place self.old e self.new)
            (λ fault. Fails (arguments (Call.Two op)) self.old fault) }
    {
        self.open_bracket(Symbol::OpenRound)?;
        let a = self.chain(Level::Or)?;
        self.symbol(Symbol::Comma)?;
        let b = self.chain(Level::Or)?;
        self.close_bracket(Symbol::CloseRound)?;
        nodes::two(self.alloc(), place, op, a, b)
    }

    #[cycle(expression)]
    fn call_of_three(&mut self, place: u32, op: Op3) -> Result<Expr, KernFault>
        ensures { MatchResult result (λ e. ReadsCall (Call.Three op) place self.old e self.new)
            (λ fault. Fails (arguments (Call.Three op)) self.old fault) }
    {
        self.open_bracket(Symbol::OpenRound)?;
        let a = self.chain(Level::Or)?;
        self.symbol(Symbol::Comma)?;
        let b = self.chain(Level::Or)?;
        self.symbol(Symbol::Comma)?;
        let c = self.chain(Level::Or)?;
        self.close_bracket(Symbol::CloseRound)?;
        nodes::three(self.alloc(), place, op, a, b, c)
    }

    #[cycle(expression)]
    fn rescaling(&mut self, place: u32) -> Result<Expr, KernFault>
        ensures { MatchResult result (λ e. ReadsCall (Call.To) place self.old e self.new)
            (λ fault. Fails (arguments (Call.To)) self.old fault) }
    {
        self.open_bracket(Symbol::OpenRound)?;
        let scale = scale_from(self.number()?);
        self.symbol(Symbol::Comma)?;
        let inner = self.chain(Level::Or)?;
        self.close_bracket(Symbol::CloseRound)?;
        nodes::to(self.alloc(), place, scale, inner)
    }

    fn literal(&mut self, number: u64) -> Result<Expr, KernFault>
        requires { next_kind self.old ≡ Some (TokenKind.Number number) }
        ensures { MatchResult result (λ e. ReadsExpr Part.Prim self.old e self.new)
            (λ fault. Fails (Part.Prim ∷ []) self.old fault) }
    {
        let place = self.node()?;
        let scale = self.scale_if_any();
        Ok(Expr {
            place,
            form: Form::Number(number, scale),
        })
    }

    fn scale_if_any(&mut self) -> u32
        ensures { ReadsRule scale_if_any (Part.ScaleIfAny ∷ []) self.old result self.new }
    {
        let Some(bits) = scale_in(self.next()) else {
            return 0;
        };
        self.take();
        bits
    }

    fn variable(&mut self, name: &Name) -> Result<Expr, KernFault>
        requires { next_kind self.old ≡ Some (TokenKind.Name name.now) }
        ensures { MatchResult result (λ e. ReadsExpr Part.Prim self.old e self.new)
            (λ fault. Fails (Part.Prim ∷ []) self.old fault) }
    {
        let name = name.clone()?;
        let place = self.node()?;
        Ok(Expr {
            place,
            form: Form::Name(name),
        })
    }

    fn axis(&mut self) -> Result<Axis, KernFault>
        ensures { MatchResult result (λ a. ReadsRule axis (Part.AxisName ∷ []) self.old a self.new)
            (λ fault. Fails (Part.AxisName ∷ []) self.old fault) }
    {
        let Some(name) = name_in(self.next()) else {
            return Err(self.unexpected());
        };
        let Some(axis) = axis_of(name) else {
            return Err(self.unexpected());
        };
        self.take();
        Ok(axis)
    }
}

/// What a number of `to` that is no `u32` is read as. The types refuse it as they refuse each
/// scale above 62.
const TOO_LARGE: u32 = 63;

fn scale_from(number: u64) -> u32
    ensures { result ≡ to_scale number }
{
    u32::try_from(number).unwrap_or(TOO_LARGE)
}

fn axis_of(name: &Name) -> Option<Axis>
    ensures { result ≡ axis_at name.now }
{
    match name.as_bytes() {
        b"x" => Some(Axis::X),
        b"y" => Some(Axis::Y),
        b"z" => Some(Axis::Z),
        _ => None,
    }
}
