ghost use Rattle.std.specs.Prelude.{◌≡◌, ◌++◌, IfOk, OnOk, position};
ghost use Rattle.std.specs.Str.{bytes_eq};
ghost use Rattle.kern_meaning.specs.Walks.{assigned_by, assigned_in, names_of as all_names, number_of as numbered};

use kern_token::Name;
use kern_tree::{Act, Kernel, Stmt};
use std::alloc::{AllocError, Global};

/// The names that a kernel assigns, in text order.
pub fn names_of(alloc: Global, k: &Kernel) -> Result<Vec<Name>, AllocError>
    ensures { IfOk result (λ names. names.items ≡ all_names k.now) }
{
    let mut names = Vec::new(alloc);
    push_assigned(&mut names, k.body.as_slice())?;
    Ok(names)
}

#[cycle(assigned)]
fn push_assigned(names: &mut Vec<Name>, block: &[Stmt]) -> Result<(), AllocError>
    ensures { OnOk result (names.new.items ≡ names.old.items ++ assigned_in block.now) }
{
    for stmt in block {
        push_assigned_by(names, &stmt.act)?;
    }
    Ok(())
}

#[cycle(assigned)]
fn push_assigned_by(names: &mut Vec<Name>, act: &Act) -> Result<(), AllocError>
    ensures { OnOk result (names.new.items ≡ names.old.items ++ assigned_by act.now) }
{
    match act {
        Act::Set(name, _) => {
            names.push(name.clone()?)?;
            Ok(())
        }
        Act::Give(_, _) => Ok(()),
        Act::If(_, body, others) => {
            push_assigned(names, body.as_slice())?;
            push_assigned(names, others.as_slice())
        }
    }
}

/// A name's number: its first place among the names, or their count.
pub(crate) fn number_of(names: &[Name], name: &Name) -> usize
    ensures { result ≡ numbered names.now name.now }
{
    place_of(names, name).unwrap_or(names.len())
}

fn place_of(names: &[Name], name: &Name) -> Option<usize>
    ensures { result ≡ position (λ other. bytes_eq other name.now) names.now }
{
    names.iter().position(|other| other == name)
}
