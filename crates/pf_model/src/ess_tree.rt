use crate::entry::Entry;
use crate::terms::Terms;
use std::marker::{Model, PhantomData};

/// The essential tree that rank `src` sends rank `dst`: what the particles of the one are to the
/// interaction lists of the other (Warren and Salmon 1993).
#[derive(Drop)]
pub struct EssTree<T: Terms> {
    pub src: u32,
    pub dst: u32,
    pub items: Vec<Entry>,
    pub terms: PhantomData<T>,
}

impl<T: Terms> Model for EssTree<T> {
    ghost use Rattle.std.specs.Prelude.{◌≡◌};
    ghost use Rattle.pf_model.specs.EssentialTree.{Essential, essential_tree};

    ghost Value = { Essential };

    ghost view = { λ t. record { src = t.src; dst = t.dst; items = t.items.items } };

    ghost invariant = { λ t. t.items.items ≡ essential_tree T.theta T.grid T.particles t.src t.dst };
}
