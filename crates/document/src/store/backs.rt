// Steps taken back.
ghost use Rattle.std.specs.Prelude.{◌≡◌, ◌+◌, ◌<◌, length};
ghost use Rattle.steps.specs.Items.{items};
ghost use Rattle.steps.specs.Build.{cell_at};
ghost use Rattle.document.specs.Standing.{Shrunk, TookBack, Emptied};

use crate::store::Store;
use refusal::Reason;
use steps::parts::{Cell, Node};

impl<'a> Store<'a> {
    // Takes back the newest step.
    pub fn take_back(&mut self) -> Result<(), Reason>
        ensures { TookBack self.old result self.new }
    {
        let count = self.cells.count();
        if count == 0 {
            return Err(Reason::NothingThere);
        }
        let last = count - 1;
        let cell = self.cells.get(last);
        if cell.closes > 0 {
            self.reopen(cell, last);
        } else {
            self.remove(cell, last);
        }
        Ok(())
    }

    // Takes back the newest close. It came after the last value, which has this cell and number.
    fn reopen(&mut self, cell: Cell, number: u32)
        requires counted { length (items self.old.cells) ≡ number + 1 }
        requires read { cell ≡ cell_at (items self.old.cells) number }
        requires closes { 0 < cell.closes }
        ensures { Shrunk self.old self.new }
    {
        let start = cell.sort.inside(number, cell.holder);
        let innermost = self.cells.climb(start, cell.closes - 1);
        self.cells.drop_close(number);
        self.innermost = innermost;
        self.depth += 1;
    }

    // Takes back the begin of the last value, which has this cell and number.
    fn remove(&mut self, cell: Cell, number: u32)
        requires counted { length (items self.old.cells) ≡ number + 1 }
        requires read { cell ≡ cell_at (items self.old.cells) number }
        requires closes { cell.closes ≡ 0 }
        ensures { Shrunk self.old self.new }
    {
        let codepoints = cell.sort.codepoints_before(self.codepoints.count());
        self.cells.cut(number);
        self.cells.lower(cell.holder);
        self.codepoints.cut(codepoints);
        self.names.cut(cell.name.start);
        self.innermost = cell.holder;
        self.depth = cell.sort.depth_without(self.depth);
    }

    // Takes back all steps.
    pub fn clear(&mut self)
        ensures { Emptied self.old self.new }
    {
        self.cells.cut(0);
        self.codepoints.cut(0);
        self.names.cut(0);
        self.innermost = Node::Root;
        self.depth = 0;
    }
}
