ghost use Rattle.std.specs.Prelude.{◌≡◌, ◌≢◌, ℕ, ◌^◌, ◌≤◌, ◌⊎◌, true, false, List, [], ◌∷◌, length};
ghost use Rattle.std.specs.Prelude.{Result, IfOk, IfErr, option_map, MatchOption};
ghost use Rattle.text_lines.specs.Lines.{field_lines};
ghost use Rattle.pf_model.specs.Criterion.{IsAngle};
ghost use Rattle.deck_file.specs.Deck.{angle_in, deck_of, edge_in, grid_in, setting};
ghost use Rattle.deck_file.specs.Reading.{GivesDeckUnlessMemory, HasFaultyLine, HasFirstDeckFault};
ghost use Rattle.deck_file.specs.Reading.{IsFaultAfter, ReadsDeck, SpellsDeck};
ghost use Rattle.deck_file.specs.Keywords.{keyword_text};
ghost use Rattle.deck_file.specs.Settings.{GiveSettings, IsNext, is_of_form, value_in};
ghost use Rattle.deck_file.specs.Values.{number_within};
ghost use Rattle.deck_file.specs.declared.deck.Deck.{Deck as AnyDeck};
ghost use Rattle.deck_file.specs.declared.fault.DeckFault.{DeckFault as AnyFault};
ghost use Rattle.deck_file.specs.declared.fault.DeckFault.TheVariants.{Memory};
ghost use Rattle.deck_file.specs.declared.keyword.Keyword.{Keyword as AnyKeyword};

use crate::deck::Deck;
use crate::fault::{DeckFault, Key};
use crate::keyword::{Keyword, is_same, keyword_of};
use crate::limits::{MOST_DT, MOST_REUSE, MOST_STEPS};
use crate::setting::KeyValue;
use crate::values::{angle, edge, grid, is_of_form, number};
use kern_token::Name;
use pf_geom::Edge;
use pf_model::{Grid, MOST_GROUP, Theta};
use std::alloc::{AllocError, Global};
use text_lines::{Fields, Line, Lines};

/// The deck that the text spells. Where it spells none the answer is its first fault.
pub fn read(alloc: Global, text: &[u8]) -> Result<Deck, DeckFault>
    requires { length text.now ≤ 2 ^ 31 }
    ensures ok { IfOk result (SpellsDeck text.now) }
    ensures err { IfErr result (λ fault. (fault ≡ Memory) ⊎ HasFirstDeckFault text.now fault) }
    // Each answer comes wherever it is the text's reading, but for want of memory.
    ensures exact { (reading : Result AnyDeck AnyFault) → ReadsDeck text.now reading
        → GivesDeckUnlessMemory result reading }
{
    let settings = settings_of(alloc, text)?;
    deck_of(alloc, &settings)
}

// The settings of all lines.
fn settings_of<'a>(alloc: Global, text: &'a [u8]) -> Result<Vec<KeyValue<'a>>, DeckFault>
    requires { length text.now ≤ 2 ^ 31 }
    ensures ok { IfOk result (λ settings. GiveSettings [] (field_lines text.now) settings.items) }
    ensures err { IfErr result (λ fault. (fault ≡ Memory) ⊎ HasFaultyLine text.now fault) }
{
    let mut settings = Vec::new(alloc);
    let mut lines = Lines::new(text);
    while let Some(line) = lines.next_line() {
        let setting = setting_after(&settings, line)?;
        settings.push(setting)?;
    }
    Ok(settings)
}

// The setting of a line after lines that gave these settings.
fn setting_after<'a>(settings: &[KeyValue], line: Line<'a>) -> Result<KeyValue<'a>, DeckFault>
    ensures ok { IfOk result (λ setting. IsNext settings.now line.entry setting) }
    ensures err { IfErr result (λ fault. IsFaultAfter settings.now line.entry fault) }
{
    let number = line.number;
    let mut fields = line.fields;
    let Some(key) = next_key(&mut fields) else {
        return Err(DeckFault::UnknownKey(number));
    };
    if value_in(settings, key).is_some() {
        return Err(DeckFault::Twice(number));
    }
    match only_value(key, fields) {
        Some(value) => Ok(KeyValue { key, value }),
        None => Err(DeckFault::Value(number)),
    }
}

// The key that the next field spells.
fn next_key(fields: &mut Fields) -> Option<Keyword>
    ensures { MatchOption result ((key : AnyKeyword) (values : List (List ℕ)) → fields.old ≢ keyword_text key ∷ values)
        (λ key. fields.old ≡ keyword_text key ∷ fields.new) }
{
    keyword_of(fields.next_field()?)
}

// The only field, where it is of the key's form.
fn only_value<'a>(key: Keyword, mut fields: Fields<'a>) -> Option<&'a [u8]>
    ensures { MatchOption result ((value : List ℕ) → fields.entry ≡ value ∷ [] → is_of_form key value ≡ false)
        (λ value. (fields.entry ≡ value.now ∷ []) × (is_of_form key value.now ≡ true)) }
{
    let value = fields.next_field()?;
    if fields.next_field().is_none() && is_of_form(key, value) {
        Some(value)
    } else {
        None
    }
}

// The value that the settings give a key.
fn value_in<'a>(settings: &[KeyValue<'a>], key: Keyword) -> Option<&'a [u8]>
    ensures { option_map (λ value. value.now) result ≡ value_in settings.now key }
{
    for setting in settings {
        if is_same(setting.key, key) {
            return Some(setting.value);
        }
    }
    None
}

// The deck that all settings make.
fn deck_of(alloc: Global, settings: &[KeyValue]) -> Result<Deck, DeckFault>
    ensures ok { IfOk result (λ deck. deck_of settings.now ≡ Ok deck) }
    ensures err { IfErr result (λ fault. (fault ≡ Memory) ⊎ (deck_of settings.now ≡ Err fault)) }
{
    let missing = DeckFault::Missing;
    let kernel = value_in(settings, Keyword::Kernel).ok_or(missing(Key::Kernel))?;
    let particles = value_in(settings, Keyword::Particles).ok_or(missing(Key::Particles))?;
    let out = value_in(settings, Keyword::Out).ok_or(missing(Key::Out))?;
    let (a, b) = angle_in(settings);
    let edge = edge_in(settings);
    let reuse = number_in(settings, Keyword::Reuse, 1, MOST_REUSE, 1);
    if edge == Edge::Periodic && reuse != 1 {
        return Err(DeckFault::Reuse);
    }
    Ok(Deck {
        kernel: name(alloc, kernel)?,
        particles: name(alloc, particles)?,
        out: name(alloc, out)?,
        grid: grid_in(settings),
        theta: Theta { a, b, edge },
        group: number_in(settings, Keyword::Group, 1, MOST_GROUP, 64),
        steps: number_in(settings, Keyword::Steps, 0, MOST_STEPS, 0),
        dt: number_in(settings, Keyword::Dt, 1, MOST_DT, 1),
        reuse,
    })
}

fn name(alloc: Global, value: &[u8]) -> Result<Name, AllocError>
    ensures { IfOk result (λ name. name ≡ value.now) }
{
    Ok(Name::from_bytes(value.to_vec(alloc)?))
}

// The value of a key that is a number, or the default.
fn number_in(settings: &[KeyValue], key: Keyword, least: u32, most: u32, default: u32) -> u32
    ensures { result ≡ setting settings.now key (number_within least most) default }
{
    match value_in(settings, key) {
        Some(value) => number(value, least, most).unwrap_or(default),
        None => default,
    }
}

fn grid_in(settings: &[KeyValue]) -> Grid
    ensures { result ≡ grid_in settings.now }
{
    let default = Grid {
        nx: 1,
        ny: 1,
        nz: 1,
    };
    match value_in(settings, Keyword::Grid) {
        Some(value) => grid(value).unwrap_or(default),
        None => default,
    }
}

fn angle_in(settings: &[KeyValue]) -> (u32, u32)
    ensures value { result ≡ angle_in settings.now }
    ensures within { IsAngle result.0 result.1 }
{
    match value_in(settings, Keyword::Theta) {
        Some(value) => angle(value).unwrap_or((1, 2)),
        None => (1, 2),
    }
}

fn edge_in(settings: &[KeyValue]) -> Edge
    ensures { result ≡ edge_in settings.now }
{
    match value_in(settings, Keyword::Box) {
        Some(value) => edge(value).unwrap_or(Edge::Open),
        None => Edge::Open,
    }
}
