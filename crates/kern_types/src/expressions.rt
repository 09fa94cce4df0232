ghost use Rattle.std.specs.Prelude.{◌≡◌};
ghost use Rattle.kern_types.specs.NameLists.{is_among};
ghost use Rattle.kern_types.specs.Names as meanings;

use crate::declarations::declaration;
use crate::forms::{one_type, part_type, three_type, to_type, two_type};
use crate::scope::Scope;
use crate::{ExprType, TypeFault};
use kern_token::Name;
use kern_tree::{Decl, DeclKind, Expr, Form, Kind};

/// The type of an expression, or its first fault.
pub(crate) fn type_of(decls: &[Decl], scope: &Scope, expr: &Expr) -> Result<ExprType, TypeFault>
    ensures { result ≡ meanings.type_of decls.now scope.now expr.now }
{
    let place = expr.place;
    match &expr.form {
        Form::Number(_, scale) => Ok(ExprType::Scaled(Kind::Num, *scale)),
        Form::Name(name) => name_type(decls, scope, place, name),
        Form::Part(a, _) => part_type(place, type_of(decls, scope, a.get())?),
        Form::One(op, a) => one_type(place, *op, type_of(decls, scope, a.get())?),
        Form::Two(op, a, b) => {
            let a = type_of(decls, scope, a.get())?;
            let b = type_of(decls, scope, b.get())?;
            two_type(place, *op, a, b)
        }
        Form::Three(op, a, b, c) => {
            let a = type_of(decls, scope, a.get())?;
            let b = type_of(decls, scope, b.get())?;
            let c = type_of(decls, scope, c.get())?;
            three_type(place, *op, a, b, c)
        }
        Form::To(scale, a) => to_type(place, *scale, type_of(decls, scope, a.get())?),
    }
}

fn name_type(decls: &[Decl], scope: &Scope, place: u32, name: &Name) -> Result<ExprType, TypeFault>
    ensures { result ≡ meanings.name_type decls.now scope.now place name.now }
{
    match declaration(decls, name.as_bytes()) {
        Some(decl) => declared_type(place, &decl.what),
        None => assigned_type(scope, place, name),
    }
}

fn declared_type(place: u32, what: &DeclKind) -> Result<ExprType, TypeFault>
    ensures { result ≡ meanings.declared_type place what.now }
{
    match what {
        DeclKind::Epi(kind, scale, _) | DeclKind::Epj(kind, scale, _) => {
            Ok(ExprType::Scaled(*kind, *scale))
        }
        DeclKind::Param(scale, _) => Ok(ExprType::Scaled(Kind::Num, *scale)),
        DeclKind::Force(_, _, _) => Err(TypeFault::Kind(place)),
    }
}

fn assigned_type(scope: &Scope, place: u32, name: &Name) -> Result<ExprType, TypeFault>
    ensures { result ≡ meanings.undeclared_type place
        (meanings.earlier_assignment scope.now.earlier name.now)
        (is_among scope.now.certain name.now) }
{
    match scope.assignment(name) {
        None => Err(TypeFault::Unknown(place)),
        Some(_) if !scope.is_certain(name) => Err(TypeFault::Unassigned(place)),
        Some(variable) => Ok(ExprType::Scaled(variable.kind, variable.scale)),
    }
}
