ghost use Rattle.std.specs.Prelude.{◌≡◌};

use std::marker::Model;

/// A `Vec` that contracts see as the list of its elements, so that a value that holds one can be
/// compared whole.
#[derive(Debug, Drop)]
pub struct Sequence<T> {
    elements: Vec<T>,
}

impl<T> Model for Sequence<T> {
    ghost use Rattle.std.specs.Prelude.{List};
    ghost use Rattle.std.specs.Coded.{coded_list};

    ghost Value = { List T };

    ghost coded = { coded_list T.code };

    ghost view = { λ s. s.elements.items };
}

impl<T> Sequence<T> {
    /// The sequence of these elements. It takes no memory.
    pub fn from_vec(elements: Vec<T>) -> Sequence<T>
        ensures { result ≡ elements.items }
    {
        Sequence { elements }
    }

    /// The elements. It takes no memory.
    pub fn into_vec(self) -> Vec<T>
        ensures { result.items ≡ self }
    {
        let Sequence { elements } = self;
        elements
    }

    pub fn as_slice(&self) -> &[T]
        ensures { result.now ≡ self.now }
    {
        self.elements.as_slice()
    }
}
