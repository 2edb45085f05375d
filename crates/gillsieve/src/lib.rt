// Drafts of tuning documents: documents that are edited step by step in lent memory.
#![tactic(auto)]

pub mod draft;
pub mod promise;
