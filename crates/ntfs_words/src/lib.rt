//! The words of every tool: what a command line asks for, or how it is refused. Each tool is one simple command of
//! clap, a table of its parts.
#![tactic(auto)]

mod cat;
mod clone;
mod cluster;
mod cp;
mod fix;
mod info;
pub mod laws;
mod line;
mod ls;
mod make;
mod number;
mod part;
mod request;
mod resize;
mod text;
mod tool;
mod trial;
mod values;
mod words;

pub use request::{Ask, Request, Target, WordsFault};
pub use text::Text;
pub use tool::{Tool, tool_name, tool_of};
pub use words::read_words;

#[cfg(test)]
mod tests;
