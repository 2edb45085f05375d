use crate::levels::LevelRecord;
use load::symbols::Symbols;
use steps::parts::Holder;

// What stays the same while the records of a file are read: its symbols, and the size of its payload.
#[derive(Clone, Copy)]
pub struct Scope<'f> {
    pub symbols: Symbols<'f>,
    pub payload: u32,
}

// A list or an object whose values are to be read.
#[derive(Clone, Copy)]
pub struct Opening<'f> {
    pub holder: Holder,
    pub level: LevelRecord<'f>,
}

// The fields of an object that stand before its context.
#[derive(Clone, Copy)]
pub struct Fields {
    pub owner: bool,
    pub class: u32,
    pub on_set: u32,
    pub arity: u32,
}
