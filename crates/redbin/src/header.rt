// Headers of records, as they are written and as they are read.
ghost use Rattle.std.specs.Prelude.{◌≡◌, ◌/◌, ◌%◌, ◌<◌, ◌^◌};
ghost use Rattle.redbin.specs.Bytes.{bit};
ghost use Rattle.redbin.specs.Layout.{text_type, list_type, type_of, bits_of, header, context_header};
ghost use Rattle.redbin.specs.Reading.{plain, text_form, list_form, object_form, announced, is_nonzero};

use crate::form::Form;
use crate::layout;
use crate::layout::{BITS_END, NEW_LINE, OWNER_MARK, SHARE_MARK, TYPE_END};
use crate::width::Width;
use refusal::Reason;
use steps::parts::{ListKind, TextKind};

// ---- writing

fn text_type(kind: TextKind) -> u8
    ensures { result ≡ text_type kind }
{
    match kind {
        TextKind::String => layout::STRING_TYPE,
        TextKind::File => layout::FILE_TYPE,
        TextKind::Url => layout::URL_TYPE,
    }
}

fn list_type(kind: ListKind) -> u8
    ensures { result ≡ list_type kind }
{
    match kind {
        ListKind::Block => layout::BLOCK_TYPE,
        ListKind::Paren => layout::PAREN_TYPE,
        ListKind::Path => layout::PATH_TYPE,
        ListKind::LitPath => layout::LIT_PATH_TYPE,
        ListKind::SetPath => layout::SET_PATH_TYPE,
        ListKind::GetPath => layout::GET_PATH_TYPE,
    }
}

// The header of a context, with the self mark of its object.
pub fn context_header(self_mark: bool) -> u32
    ensures { result ≡ context_header self_mark }
{
    let mark = if self_mark { layout::SELF_MARK } else { 0 };
    u32::from(layout::CONTEXT_TYPE) + layout::CONTEXT_BITS + mark
}

impl Form {
    fn type_number(self) -> u8
        ensures { result ≡ type_of self }
    {
        match self {
            Form::Nothing => layout::NONE_TYPE,
            Form::Logic => layout::LOGIC_TYPE,
            Form::Char => layout::CHAR_TYPE,
            Form::Integer => layout::INTEGER_TYPE,
            Form::Float => layout::FLOAT_TYPE,
            Form::Text { kind, .. } | Form::ShareText { kind } => text_type(kind),
            Form::List { kind } | Form::ShareList { kind } => list_type(kind),
            Form::Object { .. } | Form::ShareObject { .. } => layout::OBJECT_TYPE,
        }
    }

    // Bits 30-8 of the header, as one number.
    fn bits(self) -> u32
        ensures value { result ≡ bits_of self }
        ensures bound { result < 2 ^ 23 }
    {
        match self {
            Form::Nothing | Form::Logic | Form::Char | Form::Integer | Form::Float => 0,
            Form::Text { unit, .. } => unit.bytes(),
            Form::List { .. } => 0,
            Form::Object { owner } => if owner { OWNER_MARK } else { 0 },
            Form::ShareText { .. } => SHARE_MARK + Width::One.bytes(),
            Form::ShareList { .. } => SHARE_MARK,
            Form::ShareObject { owner } => SHARE_MARK + if owner { OWNER_MARK } else { 0 },
        }
    }

    // The header of a value.
    pub fn header(self, new_line: bool) -> u32
        ensures { result ≡ header self new_line }
    {
        let mark = if new_line { NEW_LINE } else { 0 };
        u32::from(self.type_number()) + TYPE_END * self.bits() + mark
    }
}

// ---- reading

// The bits of a shared object with the owner mark.
const SHARED_OWNED: u32 = SHARE_MARK + OWNER_MARK;

// The type in a header.
pub fn type_in(header: u32) -> u8
    ensures { result ≡ header % bit 8 }
{
    (header % TYPE_END) as u8
}

// Whether a header has the new-line mark.
pub fn is_marked(header: u32) -> bool
    ensures { result ≡ is_nonzero (header / bit 31) }
{
    header >= NEW_LINE
}

fn plain(bits: u32, form: Form) -> Result<Form, Reason>
    ensures { result ≡ plain bits form }
{
    if bits == 0 {
        Ok(form)
    } else {
        Err(Reason::BadBits)
    }
}

// A shared text has a width too, which says nothing.
fn text_form(bits: u32, kind: TextKind) -> Result<Form, Reason>
    ensures { result ≡ text_form bits kind }
{
    let unit = match bits % SHARE_MARK {
        1 => Width::One,
        2 => Width::Two,
        4 => Width::Four,
        _ => return Err(Reason::BadBits),
    };
    match bits / SHARE_MARK {
        0 => Ok(Form::Text { kind, unit }),
        1 => Ok(Form::ShareText { kind }),
        _ => Err(Reason::BadBits),
    }
}

fn list_form(bits: u32, kind: ListKind) -> Result<Form, Reason>
    ensures { result ≡ list_form bits kind }
{
    match bits {
        0 => Ok(Form::List { kind }),
        SHARE_MARK => Ok(Form::ShareList { kind }),
        _ => Err(Reason::BadBits),
    }
}

fn object_form(bits: u32) -> Result<Form, Reason>
    ensures { result ≡ object_form bits }
{
    match bits {
        0 => Ok(Form::Object { owner: false }),
        OWNER_MARK => Ok(Form::Object { owner: true }),
        SHARE_MARK => Ok(Form::ShareObject { owner: false }),
        SHARED_OWNED => Ok(Form::ShareObject { owner: true }),
        _ => Err(Reason::BadBits),
    }
}

// What a type and the bits 30-8 of a header announce.
#[tactic(auto, unfolding(crate::specs::Reading::announced))]
fn announced(code: u8, bits: u32) -> Result<Form, Reason>
    ensures { result ≡ announced code bits }
{
    match code {
        layout::NONE_TYPE => plain(bits, Form::Nothing),
        layout::LOGIC_TYPE => plain(bits, Form::Logic),
        layout::CHAR_TYPE => plain(bits, Form::Char),
        layout::INTEGER_TYPE => plain(bits, Form::Integer),
        layout::FLOAT_TYPE => plain(bits, Form::Float),
        layout::STRING_TYPE => text_form(bits, TextKind::String),
        layout::FILE_TYPE => text_form(bits, TextKind::File),
        layout::URL_TYPE => text_form(bits, TextKind::Url),
        layout::BLOCK_TYPE => list_form(bits, ListKind::Block),
        layout::PAREN_TYPE => list_form(bits, ListKind::Paren),
        layout::PATH_TYPE => list_form(bits, ListKind::Path),
        layout::LIT_PATH_TYPE => list_form(bits, ListKind::LitPath),
        layout::SET_PATH_TYPE => list_form(bits, ListKind::SetPath),
        layout::GET_PATH_TYPE => list_form(bits, ListKind::GetPath),
        layout::OBJECT_TYPE => object_form(bits),
        _ => Err(Reason::BadType),
    }
}

impl Form {
    // What a value's header announces: first the type is checked, then the other bits.
    pub fn announced(header: u32) -> Result<Form, Reason>
        ensures { result ≡ announced (header % bit 8) (header / bit 8 % bit 23) }
    {
        announced(type_in(header), header / TYPE_END % BITS_END)
    }
}
