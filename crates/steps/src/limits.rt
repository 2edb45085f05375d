// What bounds a document.

// Codepoints stop here.
pub const CODEPOINT_END: u32 = 0x11_0000;

// Heads, classes and arities stop here.
pub const FIELD_END: u32 = 0x8000_0000;

// The most bytes of a name.
pub const LONGEST_NAME: usize = 255;

// The depth of the deepest value.
pub const DEEPEST: u32 = 32;

// Of the memory that is lent, no more than this is used.
pub const CELLS: u32 = 16_384;

pub const CODEPOINTS: u32 = 262_144;

pub const NAME_BYTES: u32 = 65_536;
