// What the law asks of a step, part by part.
ghost use Rattle.std.specs.Prelude.{◌≡◌, length};
ghost use Rattle.steps.specs.Given.{tag, begun};
ghost use Rattle.steps.specs.Steps.{begin};
ghost use Rattle.steps.specs.Outline.{values, opened, in_object, suits};
ghost use Rattle.steps.specs.Law.{so_much, name_ok, begun_ok, has_room, refusal, refused};
ghost use Rattle.document.specs.Standing.{standing, memory_lent};

use crate::store::Store;
use refusal::Reason;
use steps::limits::DEEPEST;
use steps::name::is_name;
use steps::parts::{Family, Item, Label, Node};

impl<'a> Store<'a> {
    // Whether the next value stands directly in an object.
    fn in_object(&self) -> bool
        ensures { result ≡ in_object (opened (standing self.now)) }
    {
        match self.innermost {
            Node::Root => false,
            Node::At(number) => self.cells.get(number).sort.is_object(),
        }
    }

    // Whether the next value may have this name.
    fn name_ok(&self, name: &[u8]) -> bool
        ensures { result ≡ name_ok (opened (standing self.now)) name.now }
    {
        if self.in_object() {
            is_name(name)
        } else {
            name.is_empty()
        }
    }

    // Whether a share of this family may have this target.
    pub fn suits(&self, target: Node, family: Family) -> bool
        ensures { result ≡ suits (values (standing self.now)) target family }
    {
        match target {
            Node::Root => false,
            Node::At(number) => match self.cell(number) {
                Some(cell) => cell.sort.suits(family),
                None => false,
            },
        }
    }

    // Whether the value is allowed, and the target of a share.
    fn item_ok(&self, item: Item<'_>) -> bool
        ensures { result ≡ begun_ok (values (standing self.now)) (begun item.entry) }
    {
        match item {
            Item::Put(value) => value.is_ok(),
            Item::Open(holder) => holder.is_ok(),
            Item::Share(share, target) => share.is_ok() && self.suits(target, share.family()),
        }
    }

    // Whether the memories have room for one more value with so many codepoints and name bytes.
    pub fn has_room(&self, codepoints: usize, names: usize) -> bool
        ensures { result ≡ has_room (memory_lent self.now) (standing self.now) (so_much 1 codepoints names) }
    {
        let cells_fit = self.cells.takes(1);
        let codepoints_fit = self.codepoints.takes(codepoints);
        let names_fit = self.names.takes(names);
        cells_fit & (codepoints_fit & names_fit)
    }

    // The first reason, if there is one, for which the step is refused that begins this value.
    pub fn check(&self, label: Label<'_>, item: Item<'_>) -> Result<(), Reason>
        ensures { refused result ≡ refusal (memory_lent self.now) (standing self.now) (begin (tag label.entry) (begun item.entry)) }
    {
        if !self.name_ok(label.name) {
            return Err(Reason::BadName);
        }
        if !self.item_ok(item) {
            return Err(Reason::NotAllowed);
        }
        if self.depth >= DEEPEST {
            return Err(Reason::TooDeep);
        }
        if !self.has_room(item.codepoints().len(), label.name.len()) {
            return Err(Reason::NoMemory);
        }
        Ok(())
    }
}
