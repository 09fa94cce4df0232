ghost use Rattle.std.specs.Prelude.{◌≡◌, [], ◌∷◌, ◌++◌, OnOk};

use let_inbox::Named;
use pf_model::Body;
use pf_num::OutOfMemory;
use std::alloc::Global;
use std::marker::Model;

/// The bodies that rank `src` hands over to rank `dst`.
#[derive(Drop)]
pub struct Parcel {
    pub src: u32,
    pub dst: u32,
    pub bodies: Vec<Body>,
}

impl Model for Parcel {
    ghost use Rattle.exchange.specs.States.{Package};

    ghost Value = { Package };

    ghost view = { λ p. record { src = p.src; dst = p.dst; bodies = p.bodies.items } };
}

impl Named for Parcel {
    ghost use Rattle.std.specs.Prelude.{⊤};

    ghost source = { λ p. p.src };

    ghost target = { λ p. p.dst };

    ghost has_terms = { λ p. ⊤ };

    fn src(&self) -> u32 {
        self.src
    }

    fn dst(&self) -> u32 {
        self.dst
    }
}

impl Parcel {
    // A parcel without bodies.
    pub(crate) fn empty(alloc: Global, src: u32, dst: u32) -> Parcel
        ensures { result ≡ record { src = src; dst = dst; bodies = [] } }
    {
        Parcel {
            src,
            dst,
            bodies: Vec::new(alloc),
        }
    }

    // Puts a body into the parcel.
    pub(crate) fn put(&mut self, body: Body) -> Result<(), OutOfMemory>
        ensures { OnOk result (self.new ≡ record self.old { bodies = self.old.bodies ++ body ∷ [] }) }
    {
        self.bodies.push(body)?;
        Ok(())
    }
}
