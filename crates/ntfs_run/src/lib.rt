//! A command line, run: its words are read, the tool that the first word names does its work, and the status tells how
//! it ended.
#![tactic(auto)]

mod cat;
mod checked;
mod clone;
mod cluster;
mod command;
mod copying;
mod info;
mod ls;
mod make;
mod message;
mod outside;
mod place;
mod request;
mod restoring;
mod saving;
mod show;
mod status;
mod trial;

pub use command::run;
pub use message::put_message;
pub use request::{read_request, tool_in};
pub use status::Status;
