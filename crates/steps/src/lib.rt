#![tactic(auto)]

pub mod cells;
pub mod item;
pub mod limits;
pub mod name;
pub mod parts;
pub mod pile;
