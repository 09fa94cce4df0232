ghost use Rattle.std.specs.Prelude.{◌≡◌, ◌++◌, ◌∷◌, [], IfOk, OnOk, position};
ghost use Rattle.std.specs.Str.{bytes_eq};
ghost use Rattle.kern_types.specs.Names.{declaration as declaration_of};
ghost use Rattle.kern_meaning.specs.Links as rules;
ghost use Rattle.kern_meaning.specs.Pair as meanings;
ghost use Rattle.kern_meaning.specs.Walks.{number_of as numbered};

use crate::link::Link;
use crate::variable::variable_of;
use kern_token::Name;
use kern_tree::{Act, Decl, DeclKind, Expr, Form, Stmt};
use kern_types::{ExprType, declaration};
use std::alloc::{AllocError, Global};

/// What the statements of a block are resolved to, where these are the names.
#[cycle(statements)]
pub(crate) fn block_links(
    alloc: Global,
    names: &[Name],
    decls: &[Decl],
    block: &[Stmt],
) -> Result<Vec<Link>, AllocError>
    ensures { IfOk result (λ links. links.items ≡ rules.links_of_block names.now decls.now block.now) }
{
    let mut links = Vec::new(alloc);
    for stmt in block {
        let own = act_links(alloc, names, decls, &stmt.act)?;
        push_counted(&mut links, &own)?;
    }
    Ok(links)
}

#[cycle(statements)]
fn act_links(
    alloc: Global,
    names: &[Name],
    decls: &[Decl],
    act: &Act,
) -> Result<Vec<Link>, AllocError>
    ensures { IfOk result (λ links. links.items ≡ rules.links_of_act names.now decls.now act.now) }
{
    match act {
        Act::Set(name, value) => {
            let own = expr_links(alloc, names, decls, value)?;
            after(alloc, Link::Assigned(number_of(names, name)), &own)
        }
        Act::Give(name, value) => {
            let own = expr_links(alloc, names, decls, value)?;
            after(alloc, Link::Force(force_of(decls, name)), &own)
        }
        Act::If(condition, body, others) => {
            let condition = expr_links(alloc, names, decls, condition)?;
            let body = block_links(alloc, names, decls, body.as_slice())?;
            let others = block_links(alloc, names, decls, others.as_slice())?;
            let blocks = joined(alloc, &body, &others)?;
            joined(alloc, &condition, &blocks)
        }
    }
}

fn expr_links(
    alloc: Global,
    names: &[Name],
    decls: &[Decl],
    expr: &Expr,
) -> Result<Vec<Link>, AllocError>
    ensures { IfOk result (λ links. links.items ≡ rules.links_of names.now decls.now expr.now) }
{
    match &expr.form {
        Form::Number(_, _) => Ok(Vec::new(alloc)),
        Form::Name(name) => after(alloc, link_of(names, decls, name), &[]),
        Form::Part(a, _) => expr_links(alloc, names, decls, a.get()),
        Form::One(_, a) => expr_links(alloc, names, decls, a.get()),
        Form::Two(_, a, b) => {
            let first = expr_links(alloc, names, decls, a.get())?;
            let second = expr_links(alloc, names, decls, b.get())?;
            joined(alloc, &first, &second)
        }
        Form::Three(_, a, b, c) => {
            let first = expr_links(alloc, names, decls, a.get())?;
            let second = expr_links(alloc, names, decls, b.get())?;
            let third = expr_links(alloc, names, decls, c.get())?;
            let later = joined(alloc, &second, &third)?;
            joined(alloc, &first, &later)
        }
        Form::To(_, a) => expr_links(alloc, names, decls, a.get()),
    }
}

// The first links, counted, and the others.
fn joined(alloc: Global, first: &[Link], others: &[Link]) -> Result<Vec<Link>, AllocError>
    ensures { IfOk result (λ links. links.items ≡ rules.with_count first.now ++ others.now) }
{
    let mut links = Vec::new(alloc);
    push_counted(&mut links, first)?;
    links.extend_from_slice(others)?;
    Ok(links)
}

fn push_counted(links: &mut Vec<Link>, part: &[Link]) -> Result<(), AllocError>
    ensures { OnOk result (links.new.items ≡ links.old.items ++ rules.with_count part.now) }
{
    links.push(Link::Count(part.len()))?;
    links.extend_from_slice(part)?;
    Ok(())
}

fn after(alloc: Global, first: Link, others: &[Link]) -> Result<Vec<Link>, AllocError>
    ensures { IfOk result (λ links. links.items ≡ first ∷ others.now) }
{
    let mut links = Vec::new(alloc);
    links.push(first)?;
    links.extend_from_slice(others)?;
    Ok(links)
}

fn link_of(names: &[Name], decls: &[Decl], name: &Name) -> Link
    ensures { result ≡ rules.link_of names.now decls.now name.now }
{
    let number = number_of(names, name);
    if number < names.len() {
        Link::Assigned(number)
    } else {
        Link::Declared(variable_of(decls, name))
    }
}

// A name's number: its first place among the names, or their count.
fn number_of(names: &[Name], name: &Name) -> usize
    ensures { result ≡ numbered names.now name.now }
{
    place_of(names, name).unwrap_or(names.len())
}

fn place_of(names: &[Name], name: &Name) -> Option<usize>
    ensures { result ≡ position (λ other. bytes_eq other name.now) names.now }
{
    names.iter().position(|other| other == name)
}

// The kind and the scale of a FORCE variable of this name.
fn force_of(decls: &[Decl], name: &Name) -> Option<ExprType>
    ensures { result ≡ meanings.force_type (declaration_of decls.now name.now) }
{
    match declaration(decls, name.as_bytes()) {
        Some(decl) => force_type(&decl.what),
        None => None,
    }
}

fn force_type(what: &DeclKind) -> Option<ExprType>
    ensures { result ≡ meanings.declared_force what.now }
{
    match what {
        DeclKind::Force(kind, scale, _) => Some(ExprType::Scaled(*kind, *scale)),
        _ => None,
    }
}
