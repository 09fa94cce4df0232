use crate::Value;
use crate::link::Link;
use crate::variable::Variable;
use kern_token::Name;
use std::marker::Model;

/// What the executor keeps of a kernel, and what the last pair gave.
#[derive(Debug, Drop)]
pub struct Scratch {
    /// The names that are assigned. A name's number is its first place.
    pub(crate) names: Vec<Name>,
    /// What the statements are resolved to, in text order.
    pub(crate) links: Vec<Link>,
    /// What the names are declared as, by number.
    pub(crate) variables: Vec<Variable>,
    /// The values of names, by number.
    pub(crate) values: Vec<Option<Value>>,
    /// What each `+=` gave in the last pair.
    pub(crate) slots: Vec<Option<Value>>,
}

impl Model for Scratch {
    ghost use Rattle.kern_meaning.specs.Prepared.{Prepared};

    ghost Value = { Prepared };

    ghost view = { λ s. record {
      names = s.names.items;
      links = s.links.items;
      variables = s.variables.items;
      values = s.values.items;
      given = s.slots.items;
    } };
}
