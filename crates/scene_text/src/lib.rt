//! The text of a scene: how a line is cut into words, what it asks for, what it is answered, and
//! the page on which all that is printed. Reading order: `words`, `verbs`, `line`, `answer`,
//! `told`, `page`.
#![tactic(auto)]

pub mod answer;
pub mod line;
pub mod page;
pub mod told;
pub mod verbs;
pub mod words;
