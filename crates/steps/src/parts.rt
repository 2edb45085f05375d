// What documents are made of, as callers give it and as cells hold it.

#[derive(Clone, Copy, PartialEq, Eq, Debug)]
pub enum ListKind {
    Block,
    Paren,
    Path,
    LitPath,
    SetPath,
    GetPath,
}

#[derive(Clone, Copy, PartialEq, Eq, Debug)]
pub enum TextKind {
    String,
    File,
    Url,
}

// A share and its target are of one family.
#[derive(Clone, Copy, PartialEq, Eq, Debug)]
pub enum Family {
    Lists,
    Texts,
    Objects,
}

// The root of a document, or a value by its number. No `Option`: the root is a holder, and `None` would read as no holder.
#[derive(Clone, Copy, PartialEq, Eq, Debug)]
pub enum Node {
    Root,
    At(u32),
}

// What every value has, whatever its sort.
#[derive(Clone, Copy, PartialEq, Eq, Debug)]
pub struct Label<'n> {
    pub new_line: bool,
    pub name: &'n [u8],
}

// A value that holds no others, by how its codepoints are given. A float is its 64 bits.
#[derive(Clone, Copy, PartialEq, Eq, Debug, Drop)]
pub enum Content<C> {
    Nothing,
    Logic(bool),
    Char(u32),
    Integer(i32),
    Float(u64),
    Text {
        kind: TextKind,
        head: u32,
        codepoints: C,
    },
}

// As callers give it.
pub type Value<'v> = Content<&'v [u32]>;

// A value that holds others.
#[derive(Clone, Copy, PartialEq, Eq, Debug)]
pub enum Holder {
    List {
        kind: ListKind,
        head: u32,
    },
    Object {
        owner: bool,
        self_mark: bool,
        class: u32,
        on_set: u32,
        arity: u32,
    },
}

// A value that is a share, but for its target.
#[derive(Clone, Copy, PartialEq, Eq, Debug)]
pub enum Share {
    List { kind: ListKind, head: u32 },
    Text { kind: TextKind, head: u32 },
    Object { owner: bool },
}

// A value that a step begins, by how its codepoints are given.
#[derive(Clone, Copy, PartialEq, Eq, Debug, Drop)]
pub enum Begun<C> {
    Put(Content<C>),
    Open(Holder),
    Share(Share, Node),
}

// As callers give it.
pub type Item<'v> = Begun<&'v [u32]>;

// A value that was begun, and what holds it.
#[derive(Clone, Copy, PartialEq, Eq, Debug)]
pub struct Entry<'v> {
    pub label: Label<'v>,
    pub item: Item<'v>,
    pub holder: Node,
}

// A part of a memory.
#[derive(Clone, Copy, PartialEq, Eq, Debug)]
pub struct Span {
    pub start: u32,
    pub len: u32,
}

// The value of a cell. Its codepoints are a part of their own memory; `count` is how many values it holds.
#[derive(Clone, Copy, PartialEq, Eq, Debug)]
pub enum Sort {
    Put(Content<Span>),
    Open { holder: Holder, count: u32 },
    Share { share: Share, target: Node },
}

// A value, what holds it, and how many closes come right after it, before the next value begins. Values name one another by
// number, since a draft has no heap.
#[derive(Clone, Copy, PartialEq, Eq, Debug)]
pub struct Cell {
    pub new_line: bool,
    pub name: Span,
    pub holder: Node,
    pub closes: u32,
    pub sort: Sort,
}

// A cell that no value uses.
pub const FREE: Cell = Cell {
    new_line: false,
    name: Span { start: 0, len: 0 },
    holder: Node::Root,
    closes: 0,
    sort: Sort::Put(Content::Nothing),
};
