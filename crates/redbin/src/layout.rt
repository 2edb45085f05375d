// The numbers of the format, for reading and for writing. specs/Layout says what each means.

use steps::limits;

// ---- the file

pub const LETTERS: &[u8] = b"REDBIN";

// Where the version, the flags and the payload's size stand.
pub const VERSION_PLACE: usize = 6;

pub const FLAGS_PLACE: usize = 7;

pub const PAYLOAD_SIZE_PLACE: usize = 12;

// How many bytes the letters, the version and the flags have together.
pub const START_SIZE: usize = 8;

// How many bytes the whole header has.
pub const FILE_HEADER_SIZE: usize = 16;

pub const VERSION: u8 = 2;

// The only flag that may be set: a symbol table is present.
pub const TABLE_FLAG: u8 = 1 << 2;

// A file has at most so many bytes.
pub const LARGEST_FILE: usize = 1 << 20;

// ---- limits of fields

// Counts, sizes, lengths, heads, classes, arities and offsets stop here. Limits are `u64`, since `WORD_END` needs it.
pub const FIELD_END: u64 = limits::FIELD_END as u64;

// No four bytes reach this.
pub const WORD_END: u64 = 1 << 32;

pub const CODEPOINT_END: u64 = limits::CODEPOINT_END as u64;

// The length of a text stops here.
pub const TEXT_LENGTH_END: u64 = 1 << 24;

// Codepoints of one byte, and of two, stop here.
pub const ONE_BYTE_END: u32 = 1 << 8;

pub const TWO_BYTES_END: u32 = 1 << 16;

// ---- headers of records

// Bits 7-0 are the type, below this, and bits 30-8 are taken as one number, below that.
pub const TYPE_END: u32 = 1 << 8;

pub const BITS_END: u32 = 1 << 23;

// Bit 31 is the new-line mark.
pub const NEW_LINE: u32 = 1 << 31;

// Bits 19 and 24, in the number: a list, text or object is a share; an object has the owner mark.
pub const SHARE_MARK: u32 = 1 << (19 - 8);

pub const OWNER_MARK: u32 = 1 << (24 - 8);

// Bits 27-26 of every context, and the self mark of its object, bit 28.
pub const CONTEXT_BITS: u32 = 2 << 26;

pub const SELF_MARK: u32 = 1 << 28;

// The types. The enum of kinds is `Form`; one of these numbers besides would only add a match to each direction.
pub const PADDING_TYPE: u8 = 0;

pub const NONE_TYPE: u8 = 3;

pub const LOGIC_TYPE: u8 = 4;

pub const BLOCK_TYPE: u8 = 5;

pub const PAREN_TYPE: u8 = 6;

pub const STRING_TYPE: u8 = 7;

pub const FILE_TYPE: u8 = 8;

pub const URL_TYPE: u8 = 9;

pub const CHAR_TYPE: u8 = 10;

pub const INTEGER_TYPE: u8 = 11;

pub const FLOAT_TYPE: u8 = 12;

pub const CONTEXT_TYPE: u8 = 14;

pub const PATH_TYPE: u8 = 25;

pub const LIT_PATH_TYPE: u8 = 26;

pub const SET_PATH_TYPE: u8 = 27;

pub const GET_PATH_TYPE: u8 = 28;

pub const OBJECT_TYPE: u8 = 32;

pub const REFERENCE_TYPE: u8 = 255;

// References and paddings have no bit besides the type.
pub const REFERENCE_HEADER: u32 = REFERENCE_TYPE as u32;

pub const PADDING_HEADER: u32 = PADDING_TYPE as u32;
