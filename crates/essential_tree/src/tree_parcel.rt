use let_inbox::Named;
use pf_model::{EssTree, Terms};

/// An essential tree on its way from one rank to another.
#[derive(Drop)]
pub struct TreeParcel<T: Terms> {
    pub tree: EssTree<T>,
}

impl<T: Terms> Named for TreeParcel<T> {
    ghost use Rattle.std.specs.Prelude.{◌≡◌};
    ghost use Rattle.pf_model.specs.EssentialTree.{essential_tree};

    ghost source = { λ p. p.tree.src };

    ghost target = { λ p. p.tree.dst };

    ghost has_terms = { λ p. p.tree.items ≡ essential_tree T.theta T.grid T.particles p.tree.src p.tree.dst };

    fn src(&self) -> u32 {
        self.tree.src
    }

    fn dst(&self) -> u32 {
        self.tree.dst
    }
}
