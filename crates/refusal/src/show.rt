use crate::{Part, Refusal};
use std::fmt;

impl fmt::Display for Part {
    fn fmt<W: fmt::Write>(&self, f: &mut fmt::Formatter<W>) -> fmt::Result {
        match *self {
            Part::Header => write!(f, "header"),
            Part::Symbols => write!(f, "symbols"),
            Part::Record => write!(f, "record"),
            Part::Reference => write!(f, "reference"),
            Part::Draft => write!(f, "draft"),
        }
    }
}

// `refused`, the reason's number, the part and the place.
impl fmt::Display for Refusal {
    fn fmt<W: fmt::Write>(&self, f: &mut fmt::Formatter<W>) -> fmt::Result {
        write!(
            f,
            "refused {} {} {}",
            self.reason.number(),
            self.part,
            self.place
        )
    }
}
