ghost use Rattle.std.specs.Prelude.{◌≡◌, ◌^◌, ◌≤◌, length, slice_index_or};
ghost use Rattle.std.specs.List.Sorted.{IsNonDecreasing};
ghost use Rattle.pf_model.specs.Domains.{slab_of, slab_start, slab_end};

// The side of the cube, which is also a cut where there are no bodies to cut.
pub(crate) const CUBE_SIDE: u32 = 1 << 30;

// The slab of a coordinate: how many cuts are at most it.
pub(crate) fn slab_of(cuts: &[u32], coordinate: u32) -> usize
    requires { IsNonDecreasing cuts.now }
    ensures value { result ≡ slab_of cuts.now coordinate }
    ensures bound { result ≤ length cuts.now }
{
    cuts.partition_point(|cut| *cut <= coordinate)
}

// The lowest coordinate of a slab that isn't empty.
pub(crate) fn slab_start(cuts: &[u32], slab: usize) -> u32
    ensures { result ≡ slab_start cuts.now slab }
{
    if slab == 0 { 0 } else { cut_at(cuts, slab - 1) }
}

// The highest coordinate of a slab that isn't empty.
pub(crate) fn slab_end(cuts: &[u32], slab: usize) -> u32
    ensures { result ≡ slab_end cuts.now slab }
{
    cut_at(cuts, slab).saturating_sub(1)
}

// The cut at a place, where the cube ends at the last.
fn cut_at(cuts: &[u32], place: usize) -> u32
    ensures { result ≡ slice_index_or cuts.now place (2 ^ 30) }
{
    if place < cuts.len() {
        cuts[place]
    } else {
        CUBE_SIDE
    }
}
