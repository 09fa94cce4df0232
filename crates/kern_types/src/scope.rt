ghost use Rattle.std.specs.Prelude.{◌≡◌, ◌==◌, OnOk, IfOk, length, position, unwrap_or};
ghost use Rattle.std.specs.List.{list_any};
ghost use Rattle.std.specs.Option.{option_copied};
ghost use Rattle.std.specs.Str.{bytes_eq};
ghost use Rattle.kern_types.specs.NameLists.{is_among, common};
ghost use Rattle.kern_types.specs.Names.{earlier_assignment};
ghost use Rattle.kern_types.specs.Scopes.{AreNumbers, StandFor, names_at};
ghost use Rattle.kern_types.specs.Statements.{with_assigned};
ghost use Rattle.kern_types.specs.WellTyped.{at_start};

use kern_token::Name;
use kern_tree::Kind;
use std::alloc::{AllocError, Global};
use std::marker::Model;
use std::mem;

/// A name that was assigned, with the kind and the scale of its value.
#[derive(Debug, Drop)]
pub struct Variable {
    pub name: Name,
    pub kind: Kind,
    pub scale: u32,
}

/// What is assigned before a place of the text. Names that are certain are kept by number, so that an `if` compares
/// numbers alone: names can be long.
#[derive(Drop)]
pub(crate) struct Scope {
    // The assignments that stand earlier in the text, in its order. A name's number is its first place.
    earlier: Vec<Variable>,
    // The numbers of the names that every path from the start to the place assigns.
    certain: Vec<usize>,
}

impl Model for Scope {
    ghost use Rattle.kern_types.specs.Scopes as scopes;

    ghost Value = { scopes.Scope };

    ghost view = { λ s. record {
      earlier = s.earlier.items;
      certain = scopes.names_at s.earlier.items s.certain.items;
    } };

    ghost invariant = { λ s. scopes.AreNumbers s.earlier.items s.certain.items };
}

impl Scope {
    /// Where nothing is assigned.
    pub(crate) fn new(alloc: Global) -> Self
        ensures { result ≡ at_start }
    {
        Scope {
            earlier: Vec::new(alloc),
            certain: Vec::new(alloc),
        }
    }

    /// The earliest assignment to the name.
    pub(crate) fn assignment(&self, name: &Name) -> Option<&Variable>
        ensures { option_copied result ≡ earlier_assignment self.now.earlier name.now }
    {
        self.earlier.iter().find(|variable| variable.name == *name)
    }

    // The number of the name, if it is assigned.
    fn number(&self, name: &Name) -> Option<usize>
        ensures { result ≡ position (λ variable. bytes_eq variable.name name.now) self.now.earlier }
    {
        self.earlier
            .iter()
            .position(|variable| variable.name == *name)
    }

    // The number of the name where it is assigned next.
    fn number_or_next(&self, name: &Name) -> usize
        ensures { result ≡ unwrap_or (position (λ variable. bytes_eq variable.name name.now) self.now.earlier)
            (length self.now.earlier) }
    {
        self.number(name).unwrap_or(self.earlier.len())
    }

    /// Whether every path assigns the name.
    pub(crate) fn is_certain(&self, name: &Name) -> bool
        ensures { result ≡ is_among self.now.certain name.now }
    {
        match self.number(name) {
            Some(number) => is_one_of(self.certain.as_slice(), number),
            None => false,
        }
    }

    pub(crate) fn assign(&mut self, name: &Name, kind: Kind, scale: u32) -> Result<(), AllocError>
        ensures { OnOk result (self.new ≡ with_assigned self.old name.now kind scale) }
    {
        let number = self.number_or_next(name);
        self.earlier.push(Variable {
            name: name.clone()?,
            kind,
            scale,
        })?;
        self.certain.push(number)?;
        Ok(())
    }

    /// The numbers of the certain names.
    pub(crate) fn certain(&self) -> Result<Vec<usize>, AllocError>
        ensures { IfOk result (λ numbers. StandFor self.now.earlier numbers.items self.now.certain) }
    {
        self.certain.clone()
    }

    /// Begins another block where the names of these numbers were certain. The result is the numbers of the names that
    /// are certain at the end of the one before.
    pub(crate) fn begin_other(&mut self, certain: Vec<usize>) -> Vec<usize>
        requires { AreNumbers self.old.earlier certain.items }
        ensures ended { StandFor self.old.earlier result.items self.old.certain }
        ensures begun { self.new ≡ record self.old { certain = names_at self.old.earlier certain.items } }
    {
        mem::replace(&mut self.certain, certain)
    }

    /// Joins the end of a block with that of one before it.
    pub(crate) fn join(&mut self, first: &[usize])
        requires { AreNumbers self.old.earlier first.now }
        ensures { self.new ≡ record self.old { certain = common (names_at self.old.earlier first.now) self.old.certain } }
    {
        self.certain.retain(|number| is_one_of(first, *number));
    }
}

fn is_one_of(numbers: &[usize], number: usize) -> bool
    ensures { result ≡ list_any (λ other. other == number) numbers.now }
{
    numbers.iter().any(|other| *other == number)
}
