// What the command line tool does, apart from reading words and printing lines.

#![tactic(auto)]

pub mod command;
pub mod image;
pub mod letters;
pub mod refusal;
pub mod summary;
