ghost use Rattle.std.specs.Prelude.{◌≡◌};
ghost use Rattle.steps.specs.Law.{limit, cells as of_cells, points as of_points, names as of_names};
ghost use Rattle.document.specs.Stands.{lent_of, used_of, Stands, stands_prop};

use steps::parts::{Cell, Node};
use steps::pile::Pile;

mod backs;
mod cells;
mod checks;
mod edits;
mod reads;

// The memories that an owner lends to a store.
#[derive(Drop)]
pub struct Memories<'a> {
    pub cells: &'a mut [Cell],
    pub codepoints: &'a mut [u32],
    pub names: &'a mut [u8],
}

// A document in lent memory: its values in the order begun, their codepoints and names, the innermost open value, and how
// many are open.
#[derive(Drop)]
pub struct Store<'a> {
    cells: Pile<'a, Cell>,
    codepoints: Pile<'a, u32>,
    names: Pile<'a, u8>,
    innermost: Node,
    depth: u32,
    pub ghost cells_bound: { cells.bound ≡ limit of_cells },
    pub ghost points_bound: { codepoints.bound ≡ limit of_points },
    pub ghost names_bound: { names.bound ≡ limit of_names },
    // what is in use is what its steps build, and each of them was accepted in this memory
    pub ghost stands: { Stands (lent_of cells codepoints names) (used_of cells codepoints names innermost depth) } by { stands_prop (lent_of cells codepoints names) (used_of cells codepoints names innermost depth) },
}
