ghost use Rattle.std.specs.Prelude.{◌≡◌, List, ℕ};
ghost use Rattle.std.specs.Option.{option_copied};
ghost use Rattle.kern_meaning.specs.Walks.{number_of as numbered};
ghost use Rattle.kern_range.specs.Bodies.{ranges_at_start};
ghost use Rattle.kern_range.specs.Nodes as nodes;
ghost use Rattle.kern_range.specs.Nodes.{Known};
ghost use Rattle.kern_range.specs.Walks.{known_by};

use crate::bodies::declared_range;
use crate::interval::Bad;
use crate::names::number_of;
use crate::operators::{literal_range, one_range, part_range, three_range, to_range, two_range};
use crate::range::Range;
use kern_token::Name;
use kern_tree::{Decl, Expr, Form};
use kern_types::declaration;
use pf_model::Body;

/// What is known of names: the declarations of a kernel, the names that it assigns, and the particles, of which the first
/// stands apart so that there is one.
#[derive(Clone, Copy)]
pub struct Walk<'k> {
    pub decls: &'k [Decl],
    /// The names that are assigned (`names_of`). A name's number is its first place.
    pub names: &'k [Name],
    pub first: &'k Body,
    pub others: &'k [Body],
}

impl Walk<'_> {
    /// What an expression can be, where the names that are assigned have these ranges, by number.
    pub fn range_of(&self, expr: &Expr, ranges: &[Result<Range, Bad>]) -> Result<Range, Bad>
        ensures { result ≡ nodes.range_of (known_by
            (ranges_at_start self.now.first.now self.now.others.now self.now.decls.now) self.now.names.now ranges.now)
            expr.now }
    {
        range_of(expr, self, ranges)
    }

    fn read(&self, name: &Name, ranges: &[Result<Range, Bad>]) -> Result<Range, Bad>
        ensures { result ≡ known_by
            (ranges_at_start self.now.first.now self.now.others.now self.now.decls.now) self.now.names.now ranges.now
            name.now }
    {
        match ranges.get(number_of(self.names, name)) {
            Some(range) => *range,
            None => self.at_start(name),
        }
    }

    // Whether both are one name in the text.
    fn have_one_name(&self, a: &Expr, b: &Expr, ranges: &[Result<Range, Bad>]) -> bool
        ensures { result ≡ nodes.is_one_name
            (nodes.node_of (known_by
            (ranges_at_start self.now.first.now self.now.others.now self.now.decls.now) self.now.names.now ranges.now)
            a.now).called
            (nodes.node_of (known_by
            (ranges_at_start self.now.first.now self.now.others.now self.now.decls.now) self.now.names.now ranges.now)
            b.now).called }
    {
        is_one_name(a, b)
    }

    /// What a name can be at the start of a pair.
    pub fn at_start(&self, name: &Name) -> Result<Range, Bad>
        ensures { result
            ≡ ranges_at_start self.now.first.now self.now.others.now self.now.decls.now name.now }
    {
        match declaration(self.decls, name.as_bytes()) {
            Some(decl) => declared_range(&decl.what, self.first, self.others),
            None => Err(Bad),
        }
    }
}

fn range_of(expr: &Expr, walk: &Walk, ranges: &[Result<Range, Bad>]) -> Result<Range, Bad>
    ensures { result ≡ nodes.range_of (known_by
        (ranges_at_start walk.now.first.now walk.now.others.now walk.now.decls.now) walk.now.names.now ranges.now)
        expr.now }
{
    match &expr.form {
        Form::Number(mantissa, scale) => literal_range(*mantissa, *scale),
        Form::Name(name) => walk.read(name, ranges),
        Form::Part(a, axis) => part_range(*axis, range_of(a.get(), walk, ranges)?),
        Form::One(op, a) => one_range(*op, range_of(a.get(), walk, ranges)?),
        Form::Two(op, a, b) => {
            let first = range_of(a.get(), walk, ranges)?;
            let second = range_of(b.get(), walk, ranges)?;
            two_range(
                *op,
                walk.have_one_name(a.get(), b.get(), ranges),
                first,
                second,
            )
        }
        Form::Three(op, a, b, c) => {
            let first = range_of(a.get(), walk, ranges)?;
            let second = range_of(b.get(), walk, ranges)?;
            let third = range_of(c.get(), walk, ranges)?;
            three_range(
                *op,
                walk.have_one_name(a.get(), b.get(), ranges),
                first,
                second,
                third,
            )
        }
        Form::To(scale, a) => to_range(*scale, range_of(a.get(), walk, ranges)?),
    }
}

// Whatever else is known of names.
fn is_one_name(a: &Expr, b: &Expr) -> bool
    ensures { (known : Known) → result
        ≡ nodes.is_one_name (nodes.node_of known a.now).called (nodes.node_of known b.now).called }
{
    match (called(a), called(b)) {
        (Some(a), Some(b)) => a == b,
        _ => false,
    }
}

// The name, where the expression is one.
fn called(expr: &Expr) -> Option<&Name>
    ensures { (known : Known) → option_copied result ≡ (nodes.node_of known expr.now).called }
{
    match &expr.form {
        Form::Name(name) => Some(name),
        Form::Number(_, _)
        | Form::Part(_, _)
        | Form::One(_, _)
        | Form::Two(_, _, _)
        | Form::Three(_, _, _, _)
        | Form::To(_, _) => None,
    }
}
