//! What is true of histories and of the seats that make them, whatever the entries are:
//! a base for every table of words that seats share under a rule.
//! Definitions and lemmas, and a few laws; nothing here runs.
//! Read `specs/History.antt`, `account`, `specs/Account.antt`, `specs/Changes.antt`,
//! `specs/Ledger.antt`, and then `laws`.
#![tactic(auto)]

pub mod account;
pub mod laws;

pub use account::{Account, Share};
