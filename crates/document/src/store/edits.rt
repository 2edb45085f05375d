// The calls that add steps.
ghost use Rattle.std.specs.Prelude.{◌≡◌, [], ◌∷◌, length, None as accepted};
ghost use Rattle.steps.specs.Given.{tag, content, begun};
ghost use Rattle.steps.specs.Steps.{begin as began, close as closed, put as putting, open' as opening, share as sharing};
ghost use Rattle.steps.specs.Outline.{values};
ghost use Rattle.steps.specs.Law.{so_much, refusal};
ghost use Rattle.document.specs.Standing.{standing, memory_lent, Grown, Took};

use crate::store::{Memories, Store};
use refusal::Reason;
use steps::limits::{CELLS, CODEPOINTS, NAME_BYTES};
use steps::parts::{Holder, Item, Label, Node, Share, Value};
use steps::pile::Pile;

impl<'a> Store<'a> {
    // A store in which no step stands.
    pub fn new(memories: Memories<'a>) -> Store<'a>
        ensures standing { standing result ≡ [] }
        ensures memory { memory_lent result ≡ so_much (length memories.entry.cells.now) (length memories.entry.codepoints.now) (length memories.entry.names.now) }
    {
        let Memories {
            cells,
            codepoints,
            names,
        } = memories;
        Store {
            cells: Pile::new(cells, CELLS),
            codepoints: Pile::new(codepoints, CODEPOINTS),
            names: Pile::new(names, NAME_BYTES),
            innermost: Node::Root,
            depth: 0,
        }
    }

    // Begins a value that the law accepts.
    fn add(&mut self, label: Label<'_>, item: Item<'_>)
        requires { refusal (memory_lent self.old) (standing self.old) (began (tag label) (begun item)) ≡ accepted }
        ensures { Grown self.old (began (tag label.entry) (begun item.entry)) self.new }
    {
        let sort = item.sort(self.codepoints.count());
        self.copy_codepoints(item.codepoints());
        self.add_cell(label, sort);
    }

    // Begins a value, or says why not.
    fn begin(&mut self, label: Label<'_>, item: Item<'_>) -> Result<u32, Reason>
        ensures { Took self.old (began (tag label.entry) (begun item.entry)) (length (values (standing self.old))) result self.new }
    {
        self.check(label, item)?;
        let number = self.count();
        self.add(label, item);
        Ok(number)
    }

    // Puts a value that holds no others. The answer is its number.
    pub fn put(&mut self, label: Label<'_>, value: Value<'_>) -> Result<u32, Reason>
        ensures { Took self.old (began (tag label.entry) (putting (content value.entry))) (length (values (standing self.old))) result self.new }
    {
        self.begin(label, Item::Put(value))
    }

    // Opens a list or an object. The answer is its number.
    pub fn open(&mut self, label: Label<'_>, holder: Holder) -> Result<u32, Reason>
        ensures { Took self.old (began (tag label.entry) (opening holder)) (length (values (standing self.old))) result self.new }
    {
        self.begin(label, Item::Open(holder))
    }

    // Shares an earlier value. The answer is the new value's number.
    pub fn share(&mut self, label: Label<'_>, share: Share, target: Node) -> Result<u32, Reason>
        ensures { Took self.old (began (tag label.entry) (sharing share target)) (length (values (standing self.old))) result self.new }
    {
        self.begin(label, Item::Share(share, target))
    }

    // Closes the innermost open value.
    pub fn close(&mut self) -> Result<(), Reason>
        ensures { Took self.old closed tt result self.new }
    {
        let Node::At(number) = self.innermost else {
            return Err(Reason::NothingThere);
        };
        let holder = self.cells.get(number).holder;
        let last = self.cells.count() - 1;
        self.cells.add_close(last);
        self.innermost = holder;
        self.depth -= 1;
        Ok(())
    }
}
