ghost use Rattle.std.specs.Prelude.{◌≡◌, ◌<◌, ◌∷◌, [], ◌++◌, IfOk, OnOk, OnErr, drop, length};

use pf_num::OutOfMemory;
use std::alloc::Global;
use std::marker::Model;

// A `Vec` that contracts see as the list of its elements, so that a list of them can be compared whole.
#[derive(Drop)]
pub(crate) struct Sequence<T> {
    elements: Vec<T>,
}

impl<T> Model for Sequence<T> {
    ghost use Rattle.std.specs.Prelude.{List};
    ghost use Rattle.std.specs.Coded.{coded_list};

    ghost Value = { List T };

    ghost coded = { coded_list T.code };

    ghost view = { λ s. s.elements.items };
}

impl<T> Sequence<T> {
    pub(crate) fn new(alloc: Global) -> Sequence<T>
        ensures { result ≡ [] }
    {
        Sequence {
            elements: Vec::new(alloc),
        }
    }

    pub(crate) fn from_vec(elements: Vec<T>) -> Sequence<T>
        ensures { result ≡ elements.items }
    {
        Sequence { elements }
    }

    pub(crate) fn as_slice(&self) -> &[T]
        ensures { result.now ≡ self.now }
    {
        self.elements.as_slice()
    }
}

impl<T: Copy> Sequence<T> {
    pub(crate) fn copy(&self, alloc: Global) -> Result<Sequence<T>, OutOfMemory>
        ensures { IfOk result (λ copy. copy ≡ self.now) }
    {
        Ok(Sequence {
            elements: Vec::from_slice(alloc, &self.elements)?,
        })
    }
}

impl<T: Drop> Sequence<T> {
    // Puts an element at the back.
    pub(crate) fn push(&mut self, element: T) -> Result<(), OutOfMemory>
        ensures ok { OnOk result (self.new ≡ self.old ++ element ∷ []) }
        ensures err { OnErr result (self.new ≡ self.old) }
    {
        self.elements.push(element)?;
        Ok(())
    }

    // Takes the element at the front away.
    pub(crate) fn drop_front(&mut self)
        requires { 0 < length self.old }
        ensures { self.new ≡ drop 1 self.old }
    {
        self.elements.remove(0);
    }
}
