use redbin::form::Form;

pub mod headings;

// A value's header that was read: its place, what it announces and the new-line mark.
#[derive(Clone, Copy)]
pub struct Heading {
    pub place: usize,
    pub form: Form,
    pub new_line: bool,
}
