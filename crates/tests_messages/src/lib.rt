//! Tests of queues of values and of teams by their public calls, so that their crates are not
//! proved once more for them. Read `scenes`, which opens kernels and queues for those after it;
//! `crowds`, senders and receivers that are noted and try; `hangups`, which come while others send
//! or wait; `closes`, which end a queue with the last handle of a side; `refusals`, and what each
//! call answers alone; `deadlines`; `pages`, with the manual
//! page's example; and `teams`.
#![tactic(auto)]

#[cfg(test)]
mod closes;
#[cfg(test)]
mod crowds;
#[cfg(test)]
mod deadlines;
#[cfg(test)]
mod hangups;
#[cfg(test)]
mod pages;
#[cfg(test)]
mod refusals;
#[cfg(test)]
mod scenes;
#[cfg(test)]
mod teams;
