// Commands: what a line asks for.
use crate::words;
use crate::words::Unread;
use redbin::layout::LARGEST_FILE;
use std::alloc::{AllocError, Global};
use steps::limits::{CELLS, CODEPOINTS, NAME_BYTES};
use steps::parts::{Begun, Content, Holder, Node, Share};

#[derive(Drop)]
pub enum Command {
    Begin {
        new_line: bool,
        name: Vec<u8>,
        begun: Begun<Vec<u32>>,
    },
    Close,
    TakeBack,
    Load(Vec<u8>),
    Save {
        room: usize,
    },
    Print {
        kind: Kind,
        room: usize,
    },
}

// The kinds of listings.
#[derive(Clone, Copy, PartialEq, Eq, Debug)]
pub enum Kind {
    Header,
    Table,
}

// How much memory of each kind is lent.
#[derive(Clone, Copy, PartialEq, Eq, Debug)]
pub struct Sizes {
    pub cells: usize,
    pub codepoints: usize,
    pub names: usize,
}

// The most that a draft uses.
pub const FULL: Sizes = Sizes {
    cells: CELLS as usize,
    codepoints: CODEPOINTS as usize,
    names: NAME_BYTES as usize,
};

// The most of each memory that a script can ask for.
const MOST: u32 = 1_000_000;

// The words of a line, which single spaces part.
pub fn words_of<'t>(heap: Global, line: &'t str) -> Result<Vec<&'t str>, AllocError> {
    line.split(' ').collect(heap)
}

// The memory that a line asks for, if it is that command.
pub fn read_memory(words: &[&str]) -> Option<Sizes> {
    match words {
        [verb, cells, codepoints, names] if *verb == "memory" => Some(Sizes {
            cells: words::number_to(MOST, cells).ok()?,
            codepoints: words::number_to(MOST, codepoints).ok()?,
            names: words::number_to(MOST, names).ok()?,
        }),
        _ => None,
    }
}

// The call that a line asks for.
pub fn read_command(heap: Global, words: &[&str]) -> Result<Command, Unread> {
    match words {
        [verb] if *verb == "close" => Ok(Command::Close),
        [verb] if *verb == "take-back" => Ok(Command::TakeBack),
        [verb, bytes] if *verb == "load" => Ok(Command::Load(words::bytes(heap, bytes)?)),
        [verb, room] if *verb == "save" => Ok(Command::Save {
            room: words::number_to(LARGEST_FILE as u32, room)?,
        }),
        [verb, kind, room] if *verb == "print" => Ok(Command::Print {
            kind: Kind::try_from(*kind)?,
            room: words::number_to(LARGEST_FILE as u32, room)?,
        }),
        [verb, mark, name, rest @ ..] => Ok(Command::Begin {
            new_line: words::mark(mark, "newline")?,
            begun: read_begun(heap, verb, rest)?,
            name: words::bytes(heap, name)?,
        }),
        _ => Err(Unread::Unknown),
    }
}

impl TryFrom<&str> for Kind {
    type Error = Unread;

    fn try_from(word: &str) -> Result<Kind, Unread> {
        match word {
            "header" => Ok(Kind::Header),
            "table" => Ok(Kind::Table),
            _ => Err(Unread::Unknown),
        }
    }
}

fn read_begun(heap: Global, verb: &str, rest: &[&str]) -> Result<Begun<Vec<u32>>, Unread> {
    match verb {
        "put" => Ok(Begun::Put(read_value(heap, rest)?)),
        "open" => Ok(Begun::Open(read_holder(rest)?)),
        "share" => read_share(rest),
        _ => Err(Unread::Unknown),
    }
}

fn read_value(heap: Global, words: &[&str]) -> Result<Content<Vec<u32>>, Unread> {
    match words {
        [sort] if *sort == "none" => Ok(Content::Nothing),
        [sort, word] if words::text_kind(sort).is_none() => read_plain(sort, word),
        [sort, head, codepoints @ ..] => Ok(Content::Text {
            kind: words::text_kind(sort).ok_or(Unread::Unknown)?,
            head: words::number(head)?,
            codepoints: words::numbers(heap, codepoints)?,
        }),
        _ => Err(Unread::Unknown),
    }
}

fn read_plain(sort: &str, word: &str) -> Result<Content<Vec<u32>>, Unread> {
    match sort {
        "logic" => Ok(Content::Logic(words::logic(word)?)),
        "char" => Ok(Content::Char(words::number(word)?)),
        "integer" => Ok(Content::Integer(words::number(word)?)),
        "float" => Ok(Content::Float(words::bits(word)?)),
        _ => Err(Unread::Unknown),
    }
}

fn read_holder(words: &[&str]) -> Result<Holder, Unread> {
    match words {
        [kind, head] => Ok(Holder::List {
            kind: words::list_kind(kind).ok_or(Unread::Unknown)?,
            head: words::number(head)?,
        }),
        [sort, owner, self_mark, class, on_set, arity] if *sort == "object" => Ok(Holder::Object {
            owner: words::mark(owner, "owner")?,
            self_mark: words::mark(self_mark, "self")?,
            class: words::number(class)?,
            on_set: words::number(on_set)?,
            arity: words::number(arity)?,
        }),
        _ => Err(Unread::Unknown),
    }
}

fn read_share(words: &[&str]) -> Result<Begun<Vec<u32>>, Unread> {
    let [sort, field, target] = words else {
        return Err(Unread::Unknown);
    };
    let share = if *sort == "object" {
        let owner = words::mark(field, "owner")?;
        Share::Object { owner }
    } else if let Some(kind) = words::text_kind(sort) {
        let head = words::number(field)?;
        Share::Text { kind, head }
    } else {
        let kind = words::list_kind(sort).ok_or(Unread::Unknown)?;
        let head = words::number(field)?;
        Share::List { kind, head }
    };
    let target = Node::At(words::number(target)?);
    Ok(Begun::Share(share, target))
}
