ghost use Rattle.std.specs.Prelude.{◌≡◌, ℕ, ◌<◌, ◌≤◌, ◌⊎◌, List, length, ◌++◌, Result, Ok, Err, IfOk, IfErr, OnOk};
ghost use Rattle.kern_token.specs.Reading.{Spells, token_of, HasFirstTokenFault, Reads, GivesUnlessMemory};
ghost use Rattle.kern_token.specs.declared.fault.KernFault.{KernFault};
ghost use Rattle.kern_token.specs.declared.fault.KernFault.TheVariants.{Memory};
ghost use Rattle.kern_token.specs.declared.limits.TheConstants.{MOST_TEXT};
ghost use Rattle.kern_token.specs.declared.token.Token.{Token};

use crate::front::{Front, front_of};
use crate::{KernFault, Token, TokenKind};
use std::alloc::{AllocError, Global};

/// The tokens that a kernel text spells. Where it spells none the answer is its first fault, which
/// is `BadByte` or `NumberTooLarge`.
pub fn tokens(alloc: Global, text: &[u8]) -> Result<Vec<Token>, KernFault>
    requires { length text.now ≤ MOST_TEXT }
    ensures ok { IfOk result (λ found. Spells text.now found.items) }
    ensures err { IfErr result (λ fault. (fault ≡ Memory) ⊎ HasFirstTokenFault text.now fault) }
    // Each answer comes wherever it is the text's reading, but for want of memory.
    ensures exact { (reading : Result (List Token) KernFault) → Reads text.now reading
        → GivesUnlessMemory (λ found. found.items) result reading }
{
    let mut found = Vec::new(alloc);
    let mut rest = text;
    let mut place = 0;
    while !rest.is_empty() {
        let Front { kind, len } = front_of(alloc, rest, place)?;
        let end = place + len as u32;
        push_token(&mut found, kind, place, end)?;
        rest = rest.split_at(len).1;
        place = end;
    }
    Ok(found)
}

// A blank or a comment, which has no kind, adds nothing.
fn push_token(
    found: &mut Vec<Token>,
    kind: Option<TokenKind>,
    place: u32,
    end: u32,
) -> Result<(), AllocError>
    ensures { OnOk result (found.new.items ≡ found.old.items ++ token_of place end kind) }
{
    match kind {
        Some(kind) => {
            found.push(Token { kind, place, end })?;
            Ok(())
        }
        None => Ok(()),
    }
}
