ghost use Rattle.std.specs.Prelude.{◌≡◌, ◌≢◌, ℕ, MatchOption};
ghost use Rattle.deck_file.specs.Keywords.{is_same, keyword_text};
ghost use Rattle.deck_file.specs.declared.keyword.Keyword.{Keyword as AnyKeyword};

/// The key of a line.
#[derive(Clone, Copy, Debug, PartialEq, Eq)]
pub(crate) enum Keyword {
    Kernel,
    Particles,
    Out,
    Grid,
    Theta,
    Group,
    Steps,
    Dt,
    Reuse,
    Box,
}

// The key that the field spells.
pub(crate) fn keyword_of(field: &[u8]) -> Option<Keyword>
    ensures { MatchOption result ((key : AnyKeyword) → field.now ≢ keyword_text key)
        (λ key. field.now ≡ keyword_text key) }
{
    match field {
        b"kernel" => Some(Keyword::Kernel),
        b"particles" => Some(Keyword::Particles),
        b"out" => Some(Keyword::Out),
        b"grid" => Some(Keyword::Grid),
        b"theta" => Some(Keyword::Theta),
        b"group" => Some(Keyword::Group),
        b"steps" => Some(Keyword::Steps),
        b"dt" => Some(Keyword::Dt),
        b"reuse" => Some(Keyword::Reuse),
        b"box" => Some(Keyword::Box),
        _ => None,
    }
}

pub(crate) fn is_same(a: Keyword, b: Keyword) -> bool
    ensures { result ≡ is_same a b }
{
    a == b
}

// How the key is spelled.
pub(crate) fn spelling(key: Keyword) -> &'static str
    ensures { result.now ≡ keyword_text key }
{
    match key {
        Keyword::Kernel => "kernel",
        Keyword::Particles => "particles",
        Keyword::Out => "out",
        Keyword::Grid => "grid",
        Keyword::Theta => "theta",
        Keyword::Group => "group",
        Keyword::Steps => "steps",
        Keyword::Dt => "dt",
        Keyword::Reuse => "reuse",
        Keyword::Box => "box",
    }
}
