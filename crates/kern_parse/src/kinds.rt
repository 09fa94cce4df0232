ghost use Rattle.std.specs.Prelude.{◌≡◌, Some, MatchOption};
ghost use Rattle.std.specs.Option.{option_copied};
ghost use Rattle.kern_parse.specs.Required.{Part, Refuses};

use kern_token::{Name, TokenKind};

// What the next token holds, where it is of the kind that is looked for.

pub(crate) fn name_in(next: Option<&TokenKind>) -> Option<&Name>
    ensures { MatchOption result (Refuses Part.Name (option_copied next.entry))
        (λ name. option_copied next.entry ≡ Some (TokenKind.Name name.now)) }
{
    match next? {
        TokenKind::Name(name) => Some(name),
        _ => None,
    }
}

pub(crate) fn scale_in(next: Option<&TokenKind>) -> Option<u32>
    ensures { MatchOption result (Refuses Part.Scale (option_copied next.entry))
        (λ bits. option_copied next.entry ≡ Some (TokenKind.Scale bits)) }
{
    match next? {
        TokenKind::Scale(bits) => Some(*bits),
        _ => None,
    }
}
