// The cell of a value that is added, whose codepoints were written into free memory before.
ghost use Rattle.std.specs.Prelude.{◌≡◌, ◌+◌, ◌<◌, ◌≤◌, length, take, None as accepted};
ghost use Rattle.steps.specs.Given.{tag};
ghost use Rattle.steps.specs.Steps.{begin as began, put as putting, text};
ghost use Rattle.steps.specs.Law.{points, used, usable, refusal};
ghost use Rattle.steps.specs.Build.{sort_of};
ghost use Rattle.document.specs.Standing.{standing, memory_lent, free_points, next_value, Grown, Laid, Wrote};

use crate::store::Store;
use steps::parts::{Cell, Content, Label, Sort, Span, TextKind};

impl<'a> Store<'a> {
    // Adds a value of this sort whose codepoints are the first of free memory.
    pub(crate) fn add_cell(&mut self, label: Label<'_>, sort: Sort)
        requires placed { sort ≡ sort_of (used (standing self.old) points) (next_value self.old sort) }
        requires lawful { refusal (memory_lent self.old) (standing self.old) (began (tag label) (next_value self.old sort)) ≡ accepted }
        ensures { Grown self.old (began (tag label.entry) (next_value self.old sort)) self.new }
    {
        let name = label.name;
        let number = self.cells.count();
        let cell = Cell {
            new_line: label.new_line,
            name: Span {
                start: self.names.count(),
                len: name.len() as u32,
            },
            holder: self.innermost,
            closes: 0,
            sort,
        };
        self.names.append(name);
        self.cells.raise(self.innermost);
        self.cells.push(cell);
        self.codepoints.extend(sort.span().len);
        self.innermost = sort.inside(number, cell.holder);
        self.depth = sort.depth_with(self.depth);
    }

    // Copies the codepoints of a value that is added afterwards into free memory.
    pub(crate) fn copy_codepoints(&mut self, codepoints: &[u32])
        requires { used (standing self.old) points + length codepoints.now ≤ usable (memory_lent self.old) points }
        ensures { Laid self.old codepoints.now self.new }
    {
        self.codepoints.copy_free(codepoints);
    }

    // Writes a codepoint into free memory, behind `at` others, for a text that is added afterwards.
    pub fn write_codepoint(&mut self, at: u32, point: u32)
        requires { used (standing self.old) points + at < usable (memory_lent self.old) points }
        ensures { Wrote self.old at point self.new }
    {
        self.codepoints.write_free(at, point);
    }

    // Adds a text whose codepoints are the first `count` of free memory.
    pub fn add_text(&mut self, label: Label<'_>, kind: TextKind, head: u32, count: u32)
        requires counted { length (take count (free_points self.old)) ≡ count }
        requires lawful { refusal (memory_lent self.old) (standing self.old) (began (tag label) (putting (text kind head (take count (free_points self.old))))) ≡ accepted }
        ensures { Grown self.old (began (tag label.entry) (putting (text kind head (take count (free_points self.old))))) self.new }
    {
        let codepoints = Span {
            start: self.codepoints.count(),
            len: count,
        };
        self.add_cell(
            label,
            Sort::Put(Content::Text {
                kind,
                head,
                codepoints,
            }),
        );
    }
}
