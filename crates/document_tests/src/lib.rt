// Tests of the crate `document`.
#![tactic(auto)]

#[cfg(test)]
mod tests;
