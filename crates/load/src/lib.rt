// Files read into a store.
#![tactic(auto)]

pub mod add;
pub mod encoded;
pub mod filler;
pub mod header;
pub mod holders;
pub mod paths;
pub mod reader;
pub mod runs;
pub mod scalars;
pub mod shares;
pub mod start;
pub mod symbols;
pub mod texts;
