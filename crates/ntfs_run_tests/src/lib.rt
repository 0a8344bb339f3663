//! Command lines over a shelf in memory: what each answers, puts and leaves. The crate has tests alone.
#![tactic(auto)]

#[cfg(test)]
mod case;
#[cfg(test)]
mod cat;
#[cfg(test)]
mod cluster;
#[cfg(test)]
mod faults;
#[cfg(test)]
mod info;
#[cfg(test)]
mod large;
#[cfg(test)]
mod ls;
#[cfg(test)]
mod made;
#[cfg(test)]
mod make;
#[cfg(test)]
mod memory;
#[cfg(test)]
mod message;
#[cfg(test)]
mod statuses;
#[cfg(test)]
mod trial;
#[cfg(test)]
mod volume;
#[cfg(test)]
mod words;
