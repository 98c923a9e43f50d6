//! Tests of the library by its public calls, above all of its crates, so that no crate is proved
//! once more for its tests. Read `kernels`, which opens kernels for all others, and `dice`, the
//! choices of a crowd; `sleepers`, which sleep and are woken, and `looks` at them; `queues`,
//! `pipes`, `many` and `streams`, at queues and pipes; `partners`, two that meet, `members`, which
//! meet in a crowd, and `member_forks`, what rfork makes of a member; `acquirers` of units,
//! `turns`, in which several units are taken at once, and `tickers`; `timed`, a crowd at a pipe and
//! a crowd of sleepers, whose calls have deadlines, and `deadlines`, one such call after another;
//! `crews`, writers and a reader; and `pages`, the examples of the manual.
#![tactic(auto)]

#[cfg(test)]
mod acquirers;
#[cfg(test)]
mod crews;
#[cfg(test)]
mod deadlines;
#[cfg(test)]
mod dice;
#[cfg(test)]
mod kernels;
#[cfg(test)]
mod looks;
#[cfg(test)]
mod many;
#[cfg(test)]
mod member_forks;
#[cfg(test)]
mod members;
#[cfg(test)]
mod pages;
#[cfg(test)]
mod partners;
#[cfg(test)]
mod pipes;
#[cfg(test)]
mod queues;
#[cfg(test)]
mod sleepers;
#[cfg(test)]
mod streams;
#[cfg(test)]
mod tickers;
#[cfg(test)]
mod timed;
#[cfg(test)]
mod turns;
