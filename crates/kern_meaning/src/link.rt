ghost use Rattle.std.specs.Prelude.{◌≡◌, take, drop};
ghost use Rattle.kern_meaning.specs.Links as rules;

use crate::variable::Variable;
use kern_types::ExprType;

/// What a name or a form of a kernel is resolved to. The links of a kernel stand in text order.
#[derive(Clone, Copy, Debug, PartialEq, Eq, Hash)]
pub(crate) enum Link {
    /// A name that is assigned, by its number.
    Assigned(usize),
    /// A name that is only read, by what it is declared as.
    Declared(Variable),
    /// The type of the FORCE variable to which a `+=` gives.
    Force(Option<ExprType>),
    /// So many links after this one are those of an operand, a block or a statement; what follows it has
    /// the others.
    Count(usize),
}

/// The links that are counted first, and those after them.
pub(crate) fn split(links: &[Link]) -> (&[Link], &[Link])
    ensures first { result.0.now ≡ rules.first_part links.now }
    ensures others { result.1.now ≡ rules.other_part links.now }
{
    match links.split_first() {
        Some((Link::Count(count), others)) => split_at(others, *count),
        _ => (&[], &[]),
    }
}

fn split_at(links: &[Link], count: usize) -> (&[Link], &[Link])
    ensures first { result.0.now ≡ take count links.now }
    ensures others { result.1.now ≡ drop count links.now }
{
    if count < links.len() {
        links.split_at(count)
    } else {
        (links, &[])
    }
}

/// The number of the name that stands first.
pub(crate) fn assigned_number(links: &[Link]) -> Option<usize>
    ensures { result ≡ rules.assigned_number links.now }
{
    match links.first() {
        Some(Link::Assigned(number)) => Some(*number),
        _ => None,
    }
}

/// The type of the FORCE variable that stands first.
pub(crate) fn force_at(links: &[Link]) -> Option<ExprType>
    ensures { result ≡ rules.force_at links.now }
{
    match links.first() {
        Some(Link::Force(force)) => *force,
        _ => None,
    }
}

/// The links after the first.
pub(crate) fn later(links: &[Link]) -> &[Link]
    ensures { result.now ≡ drop 1 links.now }
{
    match links.split_first() {
        Some((_, others)) => others,
        None => links,
    }
}
