use crate::keyword::Keyword;
use std::marker::Model;

/// A key with its value.
#[derive(Debug, Drop)]
pub(crate) struct KeyValue<'a> {
    pub(crate) key: Keyword,
    pub(crate) value: &'a [u8],
}

impl<'a> Model for KeyValue<'a> {
    ghost use Rattle.deck_file.specs.Settings.{KeyValue as Setting};

    ghost Value = { Setting };

    ghost view = { λ s. record { key = s.key; value = s.value.now } };
}
