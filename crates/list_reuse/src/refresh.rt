use let_inbox::Named;
use pf_model::Entry;
use std::marker::Model;

/// The present values of the items of the essential tree that rank `src` sent rank `dst` at the build, in the order in
/// which they were sent.
#[derive(Drop)]
pub struct Refresh {
    pub src: u32,
    pub dst: u32,
    pub values: Vec<Entry>,
}

impl Model for Refresh {
    ghost use Rattle.list_reuse.specs.Refreshing.{Renewal};

    ghost Value = { Renewal };

    ghost view = { λ r. record { src = r.src; dst = r.dst; values = r.values.items } };
}

impl Named for Refresh {
    ghost use Rattle.std.specs.Prelude.{⊤};

    ghost source = { λ r. r.src };

    ghost target = { λ r. r.dst };

    ghost has_terms = { λ r. ⊤ };

    fn src(&self) -> u32 {
        self.src
    }

    fn dst(&self) -> u32 {
        self.dst
    }
}
