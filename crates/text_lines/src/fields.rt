ghost use Rattle.std.specs.Prelude.{◌≡◌, ◌<◌, ◌∷◌, [], not, length, take_while, MatchOption};
ghost use Rattle.text_lines.specs.Lines.{is_blank, fields};

use std::marker::Model;

/// The fields of a line that are still to be read, from the left. Contracts see it as the list of them.
#[derive(Debug, Drop)]
pub struct Fields<'a> {
    rest: &'a [u8],
}

impl<'a> Model for Fields<'a> {
    ghost use Rattle.std.specs.Prelude.{List, ℕ};
    ghost use Rattle.text_lines.specs.Lines.{fields};

    ghost Value = { List (List ℕ) };

    ghost view = { λ f. fields f.rest.now };
}

impl<'a> Fields<'a> {
    /// The fields of a line.
    pub fn new(line: &'a [u8]) -> Self
        ensures { result ≡ fields line.now }
    {
        Fields { rest: line }
    }

    /// The next field, which has at least one byte and neither a space nor a tab.
    pub fn next_field(&mut self) -> Option<&'a [u8]>
        ensures { MatchOption result ((self.old ≡ []) × (self.new ≡ [])) (λ field. self.old ≡ field.now ∷ self.new) }
    {
        let (field, rest) = split_field(self.rest);
        self.rest = rest;
        if field.is_empty() { None } else { Some(field) }
    }
}

// The first field and what follows it. Where there is none both are empty.
fn split_field(line: &[u8]) -> (&[u8], &[u8])
    ensures none { length result.0.now ≡ 0 → (fields line.now ≡ []) × (fields result.1.now ≡ []) }
    ensures some { 0 < length result.0.now → fields line.now ≡ result.0.now ∷ fields result.1.now }
{
    let (_, line) = line.split_at(blanks_len(line));
    line.split_at(field_len(line))
}

// Space and tab.
pub(crate) fn is_blank(byte: u8) -> bool
    ensures { result ≡ is_blank byte }
{
    matches!(byte, b' ' | b'\t')
}

// How many blanks stand at the front.
fn blanks_len(text: &[u8]) -> usize
    ensures { result ≡ length (take_while is_blank text.now) }
{
    text.iter().take_while(|byte| is_blank(**byte)).count()
}

// How many bytes from the front on are no blanks.
fn field_len(text: &[u8]) -> usize
    ensures { result ≡ length (take_while (λ b. not (is_blank b)) text.now) }
{
    text.iter().take_while(|byte| !is_blank(**byte)).count()
}
