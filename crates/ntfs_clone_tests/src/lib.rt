//! Command lines of `ntfsclone` over a shelf in memory: what each answers, puts and leaves. The crate has tests alone.
#![tactic(auto)]

#[cfg(test)]
mod case;
#[cfg(test)]
mod faults;
#[cfg(test)]
mod refused;
#[cfg(test)]
mod save;
#[cfg(test)]
mod volume;
