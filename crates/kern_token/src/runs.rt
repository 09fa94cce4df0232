ghost use Rattle.std.specs.Prelude.{◌≡◌, ◌==◌, not, length, take_while};
ghost use Rattle.std.specs.Char.{is_ascii_digit};
ghost use Rattle.kern_token.specs.Pieces.{is_name_byte};

use crate::bytes::is_name_byte;

// How many bytes from the front on a name can have.
pub(crate) fn name_len(text: &[u8]) -> usize
    ensures { result ≡ length (take_while is_name_byte text.now) }
{
    text.iter().take_while(|byte| is_name_byte(**byte)).count()
}

pub(crate) fn digits_len(text: &[u8]) -> usize
    ensures { result ≡ length (take_while is_ascii_digit text.now) }
{
    text.iter().take_while(|byte| byte.is_ascii_digit()).count()
}

// How many bytes stand before the next line feed, or before the end.
pub(crate) fn line_len(text: &[u8]) -> usize
    ensures { result ≡ length (take_while (λ b. not (b == 10)) text.now) }
{
    text.iter().take_while(|byte| **byte != b'\n').count()
}
