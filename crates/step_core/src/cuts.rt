ghost use Rattle.std.specs.Prelude.{◌≡◌, ◌<◌, ◌+◌, ◌*◌, ◌-◌, ◌≤◌, length};
ghost use Rattle.pf_model.specs.Domains.{owner_by, slab_of, piece_at, IsMultisection};

use model_laws::owners_by_cuts_are_ranks;
use pf_geom::Point;
use pf_model::Grid;
use std::marker::Model;

// Where the cube is cut: along x, then along y in each slab of x, then along z in each column of each slab.
#[derive(Drop)]
pub(crate) struct Cuts {
    pub(crate) grid: Grid,
    pub(crate) x: Vec<u32>,
    pub(crate) y: Vec<u32>,
    pub(crate) z: Vec<u32>,
}

impl Model for Cuts {
    ghost use Rattle.pf_model.specs.Domains.{Multisection, IsMultisection};

    ghost Value = { Multisection };

    ghost view = { λ c. record { grid = c.grid; x = c.x.items; y = c.y.items; z = c.z.items } };

    ghost invariant = { λ c. IsMultisection (record { grid = c.grid; x = c.x.items; y = c.y.items; z = c.z.items }) };
}

impl Cuts {
    // The rank that owns a position.
    pub(crate) fn owner(&self, at: Point) -> u32
        ensures { result ≡ owner_by self.now at }
    {
        owners_by_cuts_are_ranks();
        let ix = slab_of(&self.x, at.x);
        let iy = slab_of(self.in_slab(ix), at.y);
        let column = ix * self.grid.ny as usize + iy;
        let iz = slab_of(self.in_column(column), at.z);
        let rank = column * self.grid.nz as usize + iz;
        rank as u32
    }

    // The cuts along y in a slab.
    fn in_slab(&self, ix: usize) -> &[u32]
        requires { ix < self.now.grid.nx }
        ensures { result.now ≡ piece_at (self.now.grid.ny - 1) self.now.y ix }
    {
        let len = self.grid.ny as usize - 1;
        &self.y[ix * len..ix * len + len]
    }

    // The cuts along z in a column, which are numbered slab by slab.
    fn in_column(&self, column: usize) -> &[u32]
        requires { column * (self.now.grid.nz - 1) + (self.now.grid.nz - 1) ≤ length self.now.z }
        ensures { result.now ≡ piece_at (self.now.grid.nz - 1) self.now.z column }
    {
        let len = self.grid.nz as usize - 1;
        &self.z[column * len..column * len + len]
    }
}

// The slab of a coordinate: how many cuts are at most it.
pub(crate) fn slab_of(cuts: &[u32], coordinate: u32) -> usize
    ensures value { result ≡ slab_of cuts.now coordinate }
    ensures bound { result ≤ length cuts.now }
{
    cuts.iter().filter(|cut| **cut <= coordinate).count()
}
