ghost use Rattle.std.specs.Prelude.{◌≡◌, OnOk};
ghost use Rattle.kern_types.specs.Scopes.{Grows};
ghost use Rattle.kern_types.specs.Statements as rules;
ghost use Rattle.kern_types.specs.Steps.{LeavesAnswer};

use crate::declarations::declaration;
use crate::expressions::type_of;
use crate::scope::Scope;
use crate::{ExprType, TypeFault};
use kern_token::Name;
use kern_tree::{Act, Decl, DeclKind, Expr, Kind, Stmt};

/// Checks statements in text order. The scope is then that after them.
#[cycle(statements)]
pub(crate) fn check_block(
    decls: &[Decl],
    scope: &mut Scope,
    block: &[Stmt],
) -> Result<(), TypeFault>
    ensures answer { LeavesAnswer result scope.new (rules.stmts_after decls.now block.now scope.old) }
    ensures grows { OnOk result (Grows scope.old.earlier scope.new.earlier) }
{
    for stmt in block {
        check_act(decls, scope, stmt.place, &stmt.act)?;
    }
    Ok(())
}

#[cycle(statements)]
fn check_act(decls: &[Decl], scope: &mut Scope, place: u32, act: &Act) -> Result<(), TypeFault>
    ensures answer { LeavesAnswer result scope.new (rules.act_scope decls.now act.now place scope.old) }
    ensures grows { OnOk result (Grows scope.old.earlier scope.new.earlier) }
{
    match act {
        Act::Set(name, value) => check_set(decls, scope, place, name, value),
        Act::Give(name, value) => check_give(decls, scope, place, name, value),
        Act::If(condition, block, other) => {
            check_condition(decls, scope, place, condition)?;
            let certain = scope.certain()?;
            check_block(decls, scope, block.as_slice())?;
            let first = scope.begin_other(certain);
            check_block(decls, scope, other.as_slice())?;
            scope.join(first.as_slice());
            Ok(())
        }
    }
}

fn check_set(
    decls: &[Decl],
    scope: &mut Scope,
    place: u32,
    name: &Name,
    value: &Expr,
) -> Result<(), TypeFault>
    ensures answer { LeavesAnswer result scope.new
        (rules.assignment_after decls.now place name.now value.now scope.old) }
    ensures grows { OnOk result (Grows scope.old.earlier scope.new.earlier) }
{
    let ExprType::Scaled(kind, scale) = type_of(decls, scope, value)? else {
        return Err(TypeFault::Kind(place));
    };
    check_target(decls, scope, place, name, kind, scale)?;
    scope.assign(name, kind, scale)?;
    Ok(())
}

fn check_target(
    decls: &[Decl],
    scope: &Scope,
    place: u32,
    name: &Name,
    kind: Kind,
    scale: u32,
) -> Result<(), TypeFault>
    ensures { result ≡ rules.set_check decls.now place name.now kind scale scope.now }
{
    match declaration(decls, name.as_bytes()) {
        Some(decl) => match decl.what {
            DeclKind::Force(_, _, _) => Err(TypeFault::Kind(place)),
            DeclKind::Epi(_, _, _) | DeclKind::Epj(_, _, _) | DeclKind::Param(_, _) => {
                Err(TypeFault::Twice(place))
            }
        },
        None => match scope.assignment(name) {
            Some(earlier) => check_same(place, earlier.kind, earlier.scale, kind, scale),
            None => Ok(()),
        },
    }
}

fn check_give(
    decls: &[Decl],
    scope: &Scope,
    place: u32,
    name: &Name,
    value: &Expr,
) -> Result<(), TypeFault>
    ensures { result ≡ rules.contribution_check decls.now place name.now value.now scope.now }
{
    let given = type_of(decls, scope, value)?;
    check_given(decls, scope, place, name, given)
}

fn check_given(
    decls: &[Decl],
    scope: &Scope,
    place: u32,
    name: &Name,
    given: ExprType,
) -> Result<(), TypeFault>
    ensures { result ≡ rules.give_check decls.now place name.now scope.now given }
{
    match declaration(decls, name.as_bytes()) {
        Some(decl) => match (&decl.what, given) {
            (DeclKind::Force(kind, scale, _), ExprType::Scaled(of_kind, of_scale)) => {
                check_same(place, *kind, *scale, of_kind, of_scale)
            }
            _ => Err(TypeFault::Kind(place)),
        },
        None => match scope.assignment(name) {
            Some(_) => Err(TypeFault::Kind(place)),
            None => Err(TypeFault::Unknown(place)),
        },
    }
}

fn check_same(
    place: u32,
    kind: Kind,
    scale: u32,
    other_kind: Kind,
    other_scale: u32,
) -> Result<(), TypeFault>
    ensures { result ≡ rules.same_check place kind scale other_kind other_scale }
{
    if kind != other_kind {
        Err(TypeFault::Kind(place))
    } else if scale != other_scale {
        Err(TypeFault::Scale(place))
    } else {
        Ok(())
    }
}

fn check_condition(
    decls: &[Decl],
    scope: &Scope,
    place: u32,
    condition: &Expr,
) -> Result<(), TypeFault>
    ensures { result ≡ rules.if_check decls.now place condition.now scope.now }
{
    match type_of(decls, scope, condition)? {
        ExprType::Condition => Ok(()),
        ExprType::Scaled(_, _) => Err(TypeFault::Kind(place)),
    }
}
