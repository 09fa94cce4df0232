ghost use Rattle.std.specs.Prelude.{◌≡◌, ◌+◌, ◌-◌, ◌*◌, ◌/◌, ◌%◌, ◌<◌};
ghost use Rattle.pf_geom.specs.Bounds.{IsBox};
ghost use Rattle.pf_model.specs.Division.{rank_count};
ghost use Rattle.pf_model.specs.Domains.{owner_by, box_by, IsMultisection, AreCuts, cuts_in_slab, cuts_in_column};

use crate::slab::{slab_end, slab_of, slab_start};
use model_laws::owners_by_cuts_are_ranks;
use pf_geom::{Box3, Point};
use pf_model::Grid;
use std::marker::Model;

// Where the cube is cut: along x, then along y in each slab of x, then along z in each column of each slab.
#[derive(Drop)]
pub(crate) struct Cuts {
    pub(crate) grid: Grid,
    pub(crate) x: Vec<u32>,
    pub(crate) y: Vec<u32>,
    pub(crate) z: Vec<u32>,
}

impl Model for Cuts {
    ghost use Rattle.pf_model.specs.Domains.{Multisection, IsMultisection};

    ghost Value = { Multisection };

    ghost view = { λ c. record { grid = c.grid; x = c.x.items; y = c.y.items; z = c.z.items } };

    ghost invariant = { λ c. IsMultisection (record { grid = c.grid; x = c.x.items; y = c.y.items; z = c.z.items }) };
}

impl Cuts {
    // The number of ranks.
    pub(crate) fn rank_count(&self) -> u32
        ensures value { result ≡ rank_count self.now.grid }
        ensures cuts { IsMultisection self.now }
    {
        self.grid.nx * self.grid.ny * self.grid.nz
    }

    // The rank that owns a position.
    pub(crate) fn owner(&self, at: Point) -> u32
        ensures value { result ≡ owner_by self.now at }
        ensures rank { result < rank_count self.now.grid }
        ensures cuts { IsMultisection self.now }
    {
        owners_by_cuts_are_ranks();
        let ix = slab_of(self.in_cube(), at.x);
        let iy = slab_of(self.in_slab(ix), at.y);
        let iz = slab_of(self.in_column(ix, iy), at.z);
        self.rank_at(ix, iy, iz)
    }

    // The rank at these places along the axes.
    fn rank_at(&self, ix: usize, iy: usize, iz: usize) -> u32
        requires x { ix < self.now.grid.nx }
        requires y { iy < self.now.grid.ny }
        requires z { iz < self.now.grid.nz }
        ensures { result ≡ (ix * self.now.grid.ny + iy) * self.now.grid.nz + iz }
    {
        let grid = self.grid;
        let rank = (ix * grid.ny as usize + iy) * grid.nz as usize + iz;
        rank as u32
    }

    // The domain box of a rank that owns a position.
    pub(crate) fn domain_box(&self, rank: u32) -> Box3
        requires rank { rank < rank_count self.now.grid }
        requires owns { IsBox (box_by self.now rank) }
        ensures { result ≡ box_by self.now rank }
    {
        let (ix, iy, iz) = self.places_of(rank);
        let x = self.in_cube();
        let y = self.in_slab(ix);
        let z = self.in_column(ix, iy);
        Box3 {
            lo: Point {
                x: slab_start(x, ix),
                y: slab_start(y, iy),
                z: slab_start(z, iz),
            },
            hi: Point {
                x: slab_end(x, ix),
                y: slab_end(y, iy),
                z: slab_end(z, iz),
            },
        }
    }

    // The places of a rank along the axes.
    fn places_of(&self, rank: u32) -> (usize, usize, usize)
        requires { rank < rank_count self.now.grid }
        ensures x { result.0 ≡ rank / self.now.grid.nz / self.now.grid.ny }
        ensures y { result.1 ≡ rank / self.now.grid.nz % self.now.grid.ny }
        ensures z { result.2 ≡ rank % self.now.grid.nz }
        ensures in_x { result.0 < self.now.grid.nx }
        ensures in_y { result.1 < self.now.grid.ny }
    {
        let grid = self.grid;
        let column = rank / grid.nz;
        (
            (column / grid.ny) as usize,
            (column % grid.ny) as usize,
            (rank % grid.nz) as usize,
        )
    }

    // The cuts along x.
    fn in_cube(&self) -> &[u32]
        ensures value { result.now ≡ self.now.x }
        ensures cuts { AreCuts (self.now.grid.nx - 1) result.now }
        ensures whole { IsMultisection self.now }
    {
        &self.x
    }

    // The cuts along y in a slab.
    fn in_slab(&self, ix: usize) -> &[u32]
        requires { ix < self.now.grid.nx }
        ensures value { result.now ≡ cuts_in_slab self.now ix }
        ensures cuts { AreCuts (self.now.grid.ny - 1) result.now }
    {
        let len = self.grid.ny as usize - 1;
        let start = ix * len;
        &self.y[start..start + len]
    }

    // The cuts along z in a column of a slab.
    fn in_column(&self, ix: usize, iy: usize) -> &[u32]
        requires x { ix < self.now.grid.nx }
        requires y { iy < self.now.grid.ny }
        ensures value { result.now ≡ cuts_in_column self.now ix iy }
        ensures cuts { AreCuts (self.now.grid.nz - 1) result.now }
    {
        let len = self.grid.nz as usize - 1;
        let start = (ix * self.grid.ny as usize + iy) * len;
        &self.z[start..start + len]
    }
}
