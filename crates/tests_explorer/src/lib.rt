//! Tests of explored programs by the public calls of `calls`, so that the crate is not proved once
//! more for them. Read `programs`.
#![tactic(auto)]

#[cfg(test)]
mod programs;
