ghost use Rattle.std.specs.Prelude.{◌≡◌, List};
ghost use Rattle.pf_geom.specs.Bounds.{Bounds};
ghost use Rattle.pf_model.specs.Particle.{Particle};
ghost use Rattle.pf_model.specs.Particles.{HaveDistinctIds};
ghost use Rattle.pf_model.specs.Criterion.{Criterion};
ghost use Rattle.pf_model.specs.Interaction.{entry_place, list_of};
ghost use Rattle.group_lists.specs.Runs.{HasEntriesOf};

use model_laws::{levels_are_least, lists_hold_their_entries, particles_of_one_id_are_one};
use pf_geom::DEEPEST;
use pf_model::Entry;

// Particles come after cells of every level.
const AFTER_CELLS: u32 = DEEPEST + 1;

// Puts the entries that particles lead to into the order of lists, each once.
pub(crate) fn put_in_order(entries: &mut Vec<Entry>)
    ensures { (t : Criterion) (box : Bounds) (js : List Particle) → HaveDistinctIds js
        → HasEntriesOf t box js entries.old.items → entries.new.items ≡ list_of t box js }
{
    levels_are_least();
    lists_hold_their_entries();
    particles_of_one_id_are_one();
    entries.sort_unstable_by_key(|entry| entry_place(entry));
    entries.dedup_by_key(|entry| entry_place(entry));
}

// Where an entry stands in lists: cells by level and key, and after them particles by id.
fn entry_place(entry: &Entry) -> (u32, u128)
    ensures { result ≡ entry_place entry.now }
{
    match entry {
        Entry::Cell(cell, _) => (cell.level, cell.key),
        Entry::One(body) => (AFTER_CELLS, u128::from(body.id)),
    }
}
