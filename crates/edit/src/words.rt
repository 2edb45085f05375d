// What the words of a command stand for.
use hex::{FromHex, FromHexError};
use std::alloc::{AllocError, AllocFailed, Global};
use std::num::ParseIntError;
use std::str::FromStr;
use steps::parts::{ListKind, TextKind};

// Why a line is not read as a command.
#[derive(Debug, Drop)]
pub enum Unread {
    // it is none
    Unknown,
    // the heap has too little left
    Memory(AllocError),
}

impl From<AllocError> for Unread {
    fn from(e: AllocError) -> Unread {
        Unread::Memory(e)
    }
}

impl<T: Drop> From<AllocFailed<T>> for Unread {
    fn from(e: AllocFailed<T>) -> Unread {
        Unread::Memory(AllocError::from(e))
    }
}

impl From<ParseIntError> for Unread {
    fn from(_e: ParseIntError) -> Unread {
        Unread::Unknown
    }
}

impl From<FromHexError> for Unread {
    fn from(e: FromHexError) -> Unread {
        match e {
            FromHexError::OutOfMemory => Unread::Memory(AllocError),
            _ => Unread::Unknown,
        }
    }
}

// A decimal number that fits its type, with no plus before it.
pub fn number<N: FromStr<Err = ParseIntError>>(word: &str) -> Result<N, Unread> {
    if word.starts_with('+') {
        return Err(Unread::Unknown);
    }
    Ok(word.parse::<N>()?)
}

// A decimal number that is at most so large.
pub fn number_to(most: u32, word: &str) -> Result<usize, Unread> {
    let n: u32 = number(word)?;
    if n > most {
        return Err(Unread::Unknown);
    }
    Ok(n as usize)
}

// Which of two words it is.
fn choice(word: &str, yes: &str, no: &str) -> Result<bool, Unread> {
    if word == yes {
        Ok(true)
    } else if word == no {
        Ok(false)
    } else {
        Err(Unread::Unknown)
    }
}

// A mark that is set by this word and left out by `-`.
pub fn mark(word: &str, set: &str) -> Result<bool, Unread> {
    choice(word, set, "-")
}

pub fn logic(word: &str) -> Result<bool, Unread> {
    choice(word, "true", "false")
}

// The words for kinds are this program's own, so they are not conversions of the kinds in `steps`.
pub fn text_kind(word: &str) -> Option<TextKind> {
    match word {
        "string" => Some(TextKind::String),
        "file" => Some(TextKind::File),
        "url" => Some(TextKind::Url),
        _ => None,
    }
}

pub fn list_kind(word: &str) -> Option<ListKind> {
    match word {
        "block" => Some(ListKind::Block),
        "paren" => Some(ListKind::Paren),
        "path" => Some(ListKind::Path),
        "lit-path" => Some(ListKind::LitPath),
        "set-path" => Some(ListKind::SetPath),
        "get-path" => Some(ListKind::GetPath),
        _ => None,
    }
}

// 64 bits as 16 hexadecimal digits.
pub fn bits(word: &str) -> Result<u64, Unread> {
    let bytes = <[u8; 8] as FromHex>::from_hex(word)?;
    Ok(u64::from_be_bytes(bytes))
}

// A byte as two hexadecimal digits.
fn byte(digits: &[u8]) -> Result<u8, Unread> {
    let [byte] = <[u8; 1] as FromHex>::from_hex(digits)?;
    Ok(byte)
}

// Bytes as `x` and two hexadecimal digits for each, or `-` for none.
pub fn bytes(heap: Global, word: &str) -> Result<Vec<u8>, Unread> {
    match word.as_bytes() {
        [b'-'] => Ok(Vec::new(heap)),
        [b'x', digits @ ..] if digits.len() % 2 == 0 => {
            digits.chunks_exact(2).map(byte).try_collect(heap)
        }
        _ => Err(Unread::Unknown),
    }
}

// Decimal numbers, each a word.
pub fn numbers(heap: Global, words: &[&str]) -> Result<Vec<u32>, Unread> {
    words.iter().map(|word| number(word)).try_collect(heap)
}
