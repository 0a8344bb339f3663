//! What the checks of records share: a record with a view of what it says, and the search for the first record in use
//! of which what is asked doesn't hold.
#![tactic(auto)]

mod question;
mod records;
mod search;

pub use question::Question;
pub use records::{read_sound, sound_record, tells_own};
pub use search::{ask_all, buffer_for};
