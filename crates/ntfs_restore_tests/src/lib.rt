//! Clone images as command lines take them over a shelf in memory: which are refused, and what the others restore. The
//! crate has tests alone.
#![tactic(auto)]

#[cfg(test)]
mod case;
#[cfg(test)]
mod commands;
#[cfg(test)]
mod header;
#[cfg(test)]
mod image;
#[cfg(test)]
mod layout;
#[cfg(test)]
mod restore;
#[cfg(test)]
mod tail;
#[cfg(test)]
mod ways;
