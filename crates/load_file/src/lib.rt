// Files loaded into a store.
#![tactic(auto)]

pub mod depth;
pub mod file;
pub mod levels;
pub mod loader;
pub mod records;
pub mod scope;
pub mod starts;
