// The base table and the layer over it.
ghost use Rattle.std.specs.Prelude.{◌≤◌};
ghost use Rattle.base.specs.Base.{most_base};

use crate::Counts;

// The base table, with room for 512 rows in three columns, the layer over it, and what is counted.
#[derive(Drop)]
pub struct Desk {
    pub counts: Counts,
    pub table: [u64; 1536],
    pub layer: [u64; 2560],
    pub ghost standing: { counts.rows ≤ most_base },
}
