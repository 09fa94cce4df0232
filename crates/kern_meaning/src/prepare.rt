ghost use Rattle.std.specs.Prelude.{◌≡◌, ◌++◌, None, OnOk, IfOk, length, map, replicate};
ghost use Rattle.kern_types.specs.Names.{declaration as declaration_of};
ghost use Rattle.kern_types.specs.Statements.{slots_in};
ghost use Rattle.kern_meaning.specs.Prepared.{IsMadeFor};
ghost use Rattle.kern_meaning.specs.Variables as rules;
ghost use Rattle.kern_meaning.specs.Walks.{assigned_by, assigned_in, names_of as all_names};

use crate::resolve::block_links;
use crate::variable::{Variable, variable_of};
use crate::{Scratch, Value};
use kern_token::Name;
use kern_tree::{Act, Decl, Kernel, Stmt};
use kern_types::{Typed, kernel, slots};
use pf_num::OutOfMemory;
use std::alloc::{AllocError, Global};

/// Room for the pairs of a kernel, in which its names are resolved. No name has a value and no `+=` has given anything
/// yet.
pub fn for_kernel(alloc: Global, t: &Typed) -> Result<Scratch, OutOfMemory>
    ensures made { IfOk result (IsMadeFor t.now) }
    ensures empty { IfOk result (λ s. s.given ≡ replicate (slots_in t.now.body) None) }
    ensures unset { IfOk result (λ s. s.values ≡ replicate (length s.names) None) }
{
    let k = kernel(t);
    let names = names_of(alloc, k)?;
    let links = block_links(alloc, &names, k.decls.as_slice(), k.body.as_slice())?;
    let variables = variables_of(alloc, k.decls.as_slice(), &names)?;
    let values = nothing(alloc, names.len())?;
    let given = nothing(alloc, slots(t) as usize)?;
    Ok(Scratch {
        names,
        links,
        variables,
        values,
        slots: given,
    })
}

// The names that are assigned.
fn names_of(alloc: Global, k: &Kernel) -> Result<Vec<Name>, AllocError>
    ensures { IfOk result (λ names. names.items ≡ all_names k.now) }
{
    let mut names = Vec::new(alloc);
    push_assigned(&mut names, k.body.as_slice())?;
    Ok(names)
}

#[cycle(assigned)]
fn push_assigned(names: &mut Vec<Name>, block: &[Stmt]) -> Result<(), AllocError>
    ensures { OnOk result (names.new.items ≡ names.old.items ++ assigned_in block.now) }
{
    for stmt in block {
        push_assigned_by(names, &stmt.act)?;
    }
    Ok(())
}

#[cycle(assigned)]
fn push_assigned_by(names: &mut Vec<Name>, act: &Act) -> Result<(), AllocError>
    ensures { OnOk result (names.new.items ≡ names.old.items ++ assigned_by act.now) }
{
    match act {
        Act::Set(name, _) => {
            names.push(name.clone()?)?;
            Ok(())
        }
        Act::Give(_, _) => Ok(()),
        Act::If(_, body, others) => {
            push_assigned(names, body.as_slice())?;
            push_assigned(names, others.as_slice())
        }
    }
}

// What the names are declared as, which a typed kernel assigns to none that is declared.
fn variables_of(alloc: Global, decls: &[Decl], names: &[Name]) -> Result<Vec<Variable>, AllocError>
    ensures { IfOk result (λ variables. variables.items
        ≡ map (λ name. rules.variable_of (declaration_of decls.now name)) names.now) }
{
    let mut variables = Vec::new(alloc);
    for name in names {
        variables.push(variable_of(decls, name))?;
    }
    Ok(variables)
}

// So many places without a value.
fn nothing(alloc: Global, count: usize) -> Result<Vec<Option<Value>>, AllocError>
    ensures { IfOk result (λ places. places.items ≡ replicate count None) }
{
    let mut places = Vec::new(alloc);
    for made in 0..count {
        places.push(None)?;
    }
    Ok(places)
}
