ghost use Rattle.std.specs.Prelude.{◌≡◌, All, IfOk, map};
ghost use Rattle.group_lists.specs.Whole.{HasMembers};
ghost use Rattle.force_phase.specs.Partner as rules;

use moments::item;
use pf_model::{Entry, Item, Moment};
use std::alloc::{AllocError, Global};

/// An entry of a list as a kernel sees it, with its id where it is a particle.
#[derive(Clone, Copy, Debug)]
pub(crate) struct Partner {
    pub(crate) id: Option<u32>,
    pub(crate) item: Item,
}

/// The entries of a group's list as its particles see them.
pub(crate) fn partners(alloc: Global, entries: &[Entry]) -> Result<Vec<Partner>, AllocError>
    requires { All HasMembers entries.now }
    ensures { IfOk result (λ partners. partners.items ≡ map rules.partner_of entries.now) }
{
    let mut partners = Vec::with_capacity(alloc, entries.len())?;
    for entry in entries {
        partners.push(as_partner(entry))?;
    }
    Ok(partners)
}

fn as_partner(entry: &Entry) -> Partner
    requires { HasMembers entry.now }
    ensures { result ≡ rules.partner_of entry.now }
{
    match entry {
        Entry::Cell(_, moment) => Partner {
            id: None,
            item: item(moment),
        },
        Entry::One(body) => Partner {
            id: Some(body.id),
            item: item(&Moment::of_one(body)),
        },
    }
}
