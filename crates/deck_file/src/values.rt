ghost use Rattle.std.specs.Prelude.{◌≡◌, ◌==◌, ◌<◌, ◌≤◌, length, position, IfSome, option_map};
ghost use Rattle.std.specs.List.{list_all};
ghost use Rattle.pf_model.specs.Criterion.{IsAngle};
ghost use Rattle.deck_file.specs.Settings.{is_of_form};
ghost use Rattle.deck_file.specs.Values.{angle_of, cut_at, division_of, edge_of, is_name, is_visible, number_within};

use crate::keyword::Keyword;
use crate::limits::{MOST_DT, MOST_NAME, MOST_REUSE, MOST_STEPS};
use pf_geom::Edge;
use pf_model::{Grid, MOST_GROUP, MOST_RANKS};
use text_lines::digits_in;

/// Whether the value is of the key's form.
pub(crate) fn is_of_form(key: Keyword, value: &[u8]) -> bool
    ensures { result ≡ is_of_form key value.now }
{
    match key {
        Keyword::Kernel | Keyword::Particles | Keyword::Out => is_name(value),
        Keyword::Grid => grid(value).is_some(),
        Keyword::Theta => angle(value).is_some(),
        Keyword::Group => number(value, 1, MOST_GROUP).is_some(),
        Keyword::Steps => number(value, 0, MOST_STEPS).is_some(),
        Keyword::Dt => number(value, 1, MOST_DT).is_some(),
        Keyword::Reuse => number(value, 1, MOST_REUSE).is_some(),
        Keyword::Box => edge(value).is_some(),
    }
}

// Whether the value is the name of a file.
fn is_name(value: &[u8]) -> bool
    ensures { result ≡ is_name value.now }
{
    !value.is_empty() && value.len() <= MOST_NAME && is_visible(value)
}

// Whether all bytes are from `!` to `~`.
fn is_visible(value: &[u8]) -> bool
    ensures { result ≡ list_all is_visible value.now }
{
    value.iter().all(|byte| b'!' <= *byte && *byte <= b'~')
}

/// A number of at most ten digits within these limits.
pub(crate) fn number(value: &[u8], least: u32, most: u32) -> Option<u32>
    ensures value { result ≡ number_within least most value.now }
    ensures within { IfSome result (λ n. (least ≤ n) × (n ≤ most)) }
{
    if value.len() <= 10 {
        digits_in(value, least, most).ok()
    } else {
        None
    }
}

/// The opening angle `A/B`, as its two numbers.
pub(crate) fn angle(value: &[u8]) -> Option<(u32, u32)>
    ensures value { result ≡ angle_of value.now }
    ensures within { IfSome result (λ parts. IsAngle parts.0 parts.1) }
{
    let (a, b) = cut_at(b'/', value)?;
    Some((number(a, 0, 1024)?, number(b, 1, 1024)?))
}

/// The grid `AxBxC`.
pub(crate) fn grid(value: &[u8]) -> Option<Grid>
    ensures { result ≡ division_of value.now }
{
    let (x, rest) = cut_at(b'x', value)?;
    let (y, z) = cut_at(b'x', rest)?;
    let nx = number(x, 1, MOST_RANKS)?;
    let ny = number(y, 1, MOST_RANKS)?;
    let nz = number(z, 1, MOST_RANKS)?;
    if nx * ny * nz <= MOST_RANKS {
        Some(Grid { nx, ny, nz })
    } else {
        None
    }
}

/// What lies past the edge of the cube.
pub(crate) fn edge(value: &[u8]) -> Option<Edge>
    ensures { result ≡ edge_of value.now }
{
    if value == b"open".as_slice() {
        Some(Edge::Open)
    } else if value == b"periodic".as_slice() {
        Some(Edge::Periodic)
    } else {
        None
    }
}

// What stands before the first such byte, and what stands after it.
fn cut_at(byte: u8, value: &[u8]) -> Option<(&[u8], &[u8])>
    ensures { option_map (λ parts. (parts.0.now, parts.1.now)) result ≡ cut_at byte value.now }
{
    let place = place_of(byte, value)?;
    Some((&value[..place], &value[place + 1..]))
}

// The place of the first such byte.
fn place_of(byte: u8, value: &[u8]) -> Option<usize>
    ensures value { result ≡ position (λ b. b == byte) value.now }
    ensures within { IfSome result (λ place. place < length value.now) }
{
    value.iter().position(|b| *b == byte)
}
