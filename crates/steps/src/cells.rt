// Changes of cells in their place, and what cells tell.
ghost use Rattle.std.specs.Prelude.{◌≡◌, ℕ, ◌+◌, ◌-◌, ◌^◌, ◌<◌, length};
ghost use Rattle.steps.specs.Adjust.{adjust};
ghost use Rattle.steps.specs.Items.{items, Sized};
ghost use Rattle.steps.specs.Build.{more, less, shut, unshut, count_in, adjust_at, inside, deeper, shallower, Under, AtCell, Raisable, cell_at, holders, up, ups, cut_at, sort_suits, sort_is_object, span_of};

use crate::parts::{Cell, Content, Family, Holder, Node, Sort, Span};
use crate::pile::Pile;

impl Cell {
    // With one more inner value, if it can hold any.
    fn raised(self) -> Cell
        requires { count_in self.sort + 1 < 2 ^ 32 }
        ensures { result ≡ more self }
    {
        match self.sort {
            Sort::Open { holder, count } => Cell {
                sort: Sort::Open {
                    holder,
                    count: count + 1,
                },
                ..self
            },
            _ => self,
        }
    }

    // With one inner value less, if it can hold any.
    fn lowered(self) -> Cell
        ensures { result ≡ less self }
    {
        match self.sort {
            Sort::Open { holder, count } => Cell {
                sort: Sort::Open {
                    holder,
                    count: count.saturating_sub(1),
                },
                ..self
            },
            _ => self,
        }
    }

    // With one more close after the value.
    fn shut(self) -> Cell
        requires { self.closes + 1 < 2 ^ 32 }
        ensures { result ≡ shut self }
    {
        Cell {
            closes: self.closes + 1,
            ..self
        }
    }

    // With one close less after the value.
    fn unshut(self) -> Cell
        requires { 0 < self.closes }
        ensures { result ≡ unshut self }
    {
        Cell {
            closes: self.closes - 1,
            ..self
        }
    }
}

// The cell of a value changed in its place; the root has none.
fn change<F: FnOnce(Cell) -> Cell>(cells: &mut [Cell], value: Node, change: F)
    requires inside { Under (length cells.old) value }
    requires allowed { AtCell (F.pre change) cells.old value }
    ensures { (f : Cell → Cell) → ((x y : Cell) → F.post change x y → y ≡ f x) → cells.new ≡ adjust_at value f cells.old }
{
    if let Node::At(number) = value {
        let at = number as usize;
        cells[at] = change(cells[at]);
    }
}

impl Sort {
    // The innermost open value once the value `number`, which is of this sort, has begun.
    pub fn inside(self, number: u32, before: Node) -> Node
        ensures { result ≡ inside self number before }
    {
        match self {
            Sort::Open { .. } => Node::At(number),
            _ => before,
        }
    }

    // How many values are open once a value of this sort has begun.
    pub fn depth_with(self, depth: u32) -> u32
        requires { depth + 1 < 2 ^ 32 }
        ensures { result ≡ deeper self depth }
    {
        match self {
            Sort::Open { .. } => depth + 1,
            _ => depth,
        }
    }

    // How many values were open before a value of this sort began.
    pub fn depth_without(self, depth: u32) -> u32
        ensures { result ≡ shallower self depth }
    {
        match self {
            Sort::Open { .. } => depth.saturating_sub(1),
            _ => depth,
        }
    }

    // How many codepoints stand before those of the last value, which is of this sort, of `all`.
    pub fn codepoints_before(self, all: u32) -> u32
        ensures { result ≡ cut_at self all }
    {
        match self {
            Sort::Put(Content::Text { codepoints, .. }) => codepoints.start,
            _ => all,
        }
    }

    // The part of the codepoints that a value of this sort has.
    pub fn span(self) -> Span
        ensures { result ≡ span_of self }
    {
        match self {
            Sort::Put(Content::Text { codepoints, .. }) => codepoints,
            _ => Span { start: 0, len: 0 },
        }
    }

    // How many values a value of this sort holds.
    pub fn count(self) -> u32
        ensures { result ≡ count_in self }
    {
        match self {
            Sort::Open { count, .. } => count,
            _ => 0,
        }
    }

    // Whether a share of this family may have a value of this sort as its target.
    pub fn suits(self, family: Family) -> bool
        ensures { result ≡ sort_suits self family }
    {
        match self {
            Sort::Put(Content::Text { .. }) => matches!(family, Family::Texts),
            Sort::Open {
                holder: Holder::List { .. },
                ..
            } => matches!(family, Family::Lists),
            Sort::Open {
                holder: Holder::Object { .. },
                ..
            } => matches!(family, Family::Objects),
            _ => false,
        }
    }

    // Whether a value of this sort is an object.
    pub fn is_object(self) -> bool
        ensures { result ≡ sort_is_object self }
    {
        matches!(self, Sort::Open { holder, .. } if holder.is_object())
    }
}

impl<'a> Pile<'a, Cell> {
    // One more value in the value `holder`.
    pub fn raise(&mut self, holder: Node)
        requires inside { Under (length (items self.old)) holder }
        requires room { Raisable (items self.old) holder }
        ensures items { items self.new ≡ adjust_at holder more (items self.old) }
        ensures sized { Sized self.old self.new }
    {
        change(self.memory, holder, |cell| cell.raised());
    }

    // One value less in the value `holder`.
    pub fn lower(&mut self, holder: Node)
        requires { Under (length (items self.old)) holder }
        ensures items { items self.new ≡ adjust_at holder less (items self.old) }
        ensures sized { Sized self.old self.new }
    {
        change(self.memory, holder, |cell| cell.lowered());
    }

    // One more close after the value `number`.
    pub fn add_close(&mut self, number: u32)
        requires inside { number < length (items self.old) }
        requires room { (cell_at (items self.old) number).closes + 1 < 2 ^ 32 }
        ensures items { items self.new ≡ adjust (items self.old) number shut }
        ensures sized { Sized self.old self.new }
    {
        change(self.memory, Node::At(number), |cell| cell.shut());
    }

    // One close less after the value `number`.
    pub fn drop_close(&mut self, number: u32)
        requires inside { number < length (items self.old) }
        requires closed { 0 < (cell_at (items self.old) number).closes }
        ensures items { items self.new ≡ adjust (items self.old) number unshut }
        ensures sized { Sized self.old self.new }
    {
        change(self.memory, Node::At(number), |cell| cell.unshut());
    }

    // What holds `at`. Save has this over a store's values; here cells stand alone, in the middle of a change.
    fn holder_of(&self, at: Node) -> Node
        ensures { result ≡ up (holders (items self.now)) at }
    {
        match at {
            Node::At(number) if number < self.count() => self.get(number).holder,
            _ => Node::Root,
        }
    }

    // What is so many holders up from `from`.
    pub fn climb(&self, from: Node, times: u32) -> Node
        ensures { result ≡ ups (holders (items self.now)) times from }
    {
        let mut at = from;
        for k in 0..times {
            at = self.holder_of(at);
        }
        at
    }
}
