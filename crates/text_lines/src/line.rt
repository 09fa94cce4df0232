use crate::fields::Fields;
use std::marker::Model;

/// A line that isn't skipped.
#[derive(Debug, Drop)]
pub struct Line<'a> {
    /// From 1, over all lines of the text.
    pub number: u32,
    pub fields: Fields<'a>,
}

impl<'a> Model for Line<'a> {
    ghost use Rattle.text_lines.specs.Lines.{FieldLine};

    ghost Value = { FieldLine };

    ghost view = { λ l. record { number = l.number; fields = l.fields } };
}
