use std::marker::Model;

/// How the cube is divided among ranks: into `nx` slabs along x, each into `ny` columns along y, each
/// into `nz` boxes along z. All are at least 1, and the boxes are at most `MOST_RANKS`.
#[derive(Clone, Copy, Debug, PartialEq, Eq)]
pub struct Grid {
    pub nx: u32,
    pub ny: u32,
    pub nz: u32,
}

impl Model for Grid {
    ghost use Rattle.pf_model.specs.Division.{Division, IsGrid};

    ghost Value = { Division };

    ghost view = { λ g. record { nx = g.nx; ny = g.ny; nz = g.nz } };

    ghost invariant = { λ g. IsGrid g.nx g.ny g.nz };

    ghost inverse = { λ g. record { nx = g.nx; ny = g.ny; nz = g.nz } };
}
