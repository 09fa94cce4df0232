ghost use Rattle.std.specs.Prelude.{◌≡◌, ℕ, ◌<◌, ◌⊎◌, length, IfOk, IfErr, MatchOption, IsTrue, IsFalse, slice_index};
ghost use Rattle.std.specs.Char.{is_ascii_digit};
ghost use Rattle.kern_token.specs.Front.{HasFront};
ghost use Rattle.kern_token.specs.Pieces.{IsNameLike, IsToken, is_name_byte, is_name_start, is_space};
ghost use Rattle.kern_token.specs.Reading.{IsFaultAt, IsInLimit, BeginsBadly};
ghost use Rattle.kern_token.specs.declared.fault.KernFault.TheVariants.{Memory};

use crate::bytes::{is_name_start, is_space};
use crate::number::number_of;
use crate::runs::{digits_len, line_len, name_len};
use crate::spelling::{double_symbol, scale_of, single_symbol, word_of};
use crate::{KernFault, Name, Symbol, TokenKind};
use std::alloc::{AllocError, Global};

/// What stands at the front of a text: a token, or without a kind a blank or a comment.
#[derive(Drop)]
pub(crate) struct Front {
    pub(crate) kind: Option<TokenKind>,
    pub(crate) len: usize,
}

// The place is that of the text's first byte.
pub(crate) fn front_of(alloc: Global, text: &[u8], place: u32) -> Result<Front, KernFault>
    requires { 0 < length text.now }
    ensures ok { IfOk result (λ front. HasFront text.now front) }
    ensures err { IfErr result (λ fault. (fault ≡ Memory) ⊎ IsFaultAt fault place text.now) }
{
    let first = text[0];
    if is_space(first) {
        return Ok(Front { kind: None, len: 1 });
    }
    if first == b'#' {
        return Ok(Front {
            kind: None,
            len: line_len(text),
        });
    }
    if is_name_start(first) {
        return Ok(name_front(alloc, text)?);
    }
    if first.is_ascii_digit() {
        return number_front(text, place);
    }
    match symbol_front(text) {
        Some(front) => Ok(front),
        None => Err(KernFault::BadByte(place)),
    }
}

fn name_front(alloc: Global, text: &[u8]) -> Result<Front, AllocError>
    requires nonempty { 0 < length text.now }
    requires name { IsTrue (is_name_start (slice_index text.now 0)) }
    ensures { IfOk result (λ front. HasFront text.now front) }
{
    let len = name_len(text);
    let kind = name_kind(alloc, &text[..len])?;
    Ok(Front {
        kind: Some(kind),
        len,
    })
}

fn name_kind(alloc: Global, text: &[u8]) -> Result<TokenKind, AllocError>
    requires { IsNameLike text.now }
    ensures token { IfOk result (λ kind. IsToken kind text.now) }
    ensures in_limit { IfOk result (λ kind. IsInLimit kind) }
{
    if let Some(word) = word_of(text) {
        return Ok(TokenKind::Word(word));
    }
    if let Some(scale) = scale_of(text) {
        return Ok(TokenKind::Scale(scale));
    }
    Ok(TokenKind::Name(Name::from_bytes(text.to_vec(alloc)?)))
}

fn number_front(text: &[u8], place: u32) -> Result<Front, KernFault>
    requires nonempty { 0 < length text.now }
    requires digit { IsTrue (is_ascii_digit (slice_index text.now 0)) }
    ensures ok { IfOk result (λ front. HasFront text.now front) }
    ensures err { IfErr result (λ fault. IsFaultAt fault place text.now) }
{
    let len = digits_len(text);
    match number_of(&text[..len]) {
        Some(number) => Ok(Front {
            kind: Some(TokenKind::Number(number)),
            len,
        }),
        None => Err(KernFault::NumberTooLarge(place)),
    }
}

fn symbol_front(text: &[u8]) -> Option<Front>
    requires nonempty { 0 < length text.now }
    requires no_blank { IsFalse (is_space (slice_index text.now 0)) }
    requires no_comment { slice_index text.now 0 ≡ 35 → ⊥ }
    requires no_name_byte { IsFalse (is_name_byte (slice_index text.now 0)) }
    ensures { MatchOption result (BeginsBadly text.now) (λ front. HasFront text.now front) }
{
    if let [first, second, ..] = *text
        && let Some(symbol) = double_symbol(first, second)
    {
        return Some(Front {
            kind: Some(TokenKind::Symbol(symbol)),
            len: 2,
        });
    }
    let symbol = single_symbol(text[0])?;
    Some(Front {
        kind: Some(TokenKind::Symbol(symbol)),
        len: 1,
    })
}
