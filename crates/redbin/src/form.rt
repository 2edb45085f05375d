use crate::width::Width;
use steps::parts::{ListKind, TextKind};

// What the header of a value's record announces. A text has codepoints of this width.
#[derive(Clone, Copy, PartialEq, Eq, Debug)]
pub enum Form {
    Nothing,
    Logic,
    Char,
    Integer,
    Float,
    Text { kind: TextKind, unit: Width },
    List { kind: ListKind },
    Object { owner: bool },
    ShareText { kind: TextKind },
    ShareList { kind: ListKind },
    ShareObject { owner: bool },
}
