// What stands in a store, value by value.
ghost use Rattle.std.specs.Prelude.{◌≡◌, ◌<◌, ◌≤◌, length, Some as some, None as nothing, MatchOption, nat_lt};
ghost use Rattle.std.specs.Option.{option_map};
ghost use Rattle.steps.specs.declared.parts.Node.TheVariants.{At as at};
ghost use Rattle.steps.specs.Given.{entry, tag};
ghost use Rattle.steps.specs.Steps.{open' as opening};
ghost use Rattle.steps.specs.Outline.{values, opened, entry_at, begun_at, label_in, holder_in, held_by, inner_names};
ghost use Rattle.steps.specs.Items.{items};
ghost use Rattle.steps.specs.Build.{cell_at, object_in};
ghost use Rattle.document.specs.Standing.{standing, none_stands};

use crate::store::Store;
use steps::parts::{Cell, Entry, Holder, Label, Node};

impl<'a> Store<'a> {
    // Whether no step stands.
    pub fn is_empty(&self) -> bool
        ensures { result ≡ none_stands (standing self.now) }
    {
        self.cells.count() == 0
    }

    // Whether something is open.
    pub fn has_open(&self) -> bool
        ensures { result ≡ nat_lt 0 (length (opened (standing self.now))) }
    {
        self.depth > 0
    }

    // How many values have begun.
    pub fn count(&self) -> u32
        ensures { result ≡ length (values (standing self.now)) }
    {
        self.cells.count()
    }

    // The cell of a number, if there is one. It is not copied, since most look at one field.
    #[inline(always)]
    pub(crate) fn cell(&self, number: u32) -> Option<&Cell>
        ensures { MatchOption result (length (items self.now.cells) ≤ number) (λ c. (number < length (items self.now.cells)) × (c.now ≡ cell_at (items self.now.cells) number)) }
    {
        if number < self.cells.count() {
            Some(self.cells.at(number))
        } else {
            None
        }
    }

    // What holds the value of a number, if there is such a value.
    #[inline(always)]
    pub fn holder_of(&self, number: u32) -> Option<Node>
        ensures { result ≡ holder_in (entry_at (values (standing self.now)) number) }
    {
        Some(self.cell(number)?.holder)
    }

    // Whether the value of a number stands directly in a list or object, or at the root.
    #[inline(always)]
    pub fn is_held(&self, number: u32, holder: Node) -> bool
        ensures { result ≡ held_by (entry_at (values (standing self.now)) number) holder }
    {
        self.holder_of(number) == Some(holder)
    }

    // The new-line mark and the name of the value of a number, if there is one.
    #[inline(always)]
    pub fn label(&self, number: u32) -> Option<Label<'_>>
        ensures { MatchOption result (entry_at (values (standing self.now)) number ≡ nothing) (λ l. label_in (entry_at (values (standing self.now)) number) ≡ some (tag l)) }
    {
        let cell = self.cell(number)?;
        let text = self.names.part(cell.name);
        Some(Label {
            new_line: cell.new_line,
            name: text,
        })
    }

    // Whether the value of a number is an opened object.
    pub fn is_object(&self, number: u32) -> bool
        ensures { result ≡ object_in (entry_at (values (standing self.now)) number) }
    {
        match self.cell(number) {
            Some(cell) => cell.sort.is_object(),
            None => false,
        }
    }

    // The value of a number, if there is one.
    pub fn entry(&self, number: u32) -> Option<Entry<'_>>
        ensures { option_map entry result ≡ entry_at (values (standing self.now)) number }
    {
        let cell = self.cell(number)?;
        let name = self.names.part(cell.name);
        let codepoints = self.codepoints.part(cell.sort.span());
        Some(Entry {
            label: Label {
                new_line: cell.new_line,
                name,
            },
            item: cell.sort.item(codepoints),
            holder: cell.holder,
        })
    }

    // How many values stand directly in an opened list or object.
    pub fn inner_count(&self, number: u32) -> u32
        ensures { (h : Holder) → begun_at (values (standing self.now)) number ≡ some (opening h) → result ≡ length (inner_names (values (standing self.now)) (at number)) }
    {
        match self.cell(number) {
            Some(cell) => cell.sort.count(),
            None => 0,
        }
    }
}
