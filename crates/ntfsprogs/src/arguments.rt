//! The words of the command line.
ghost use Rattle.std.specs.Prelude.{◌≡◌};

use ntfs_words::tool_of;
use std::alloc::{AllocError, Global};
use std::env::{Env, FillError};
use std::path::Path;

#[cfg(test)]
mod tests;

/// Why there are no words: memory is wanting, or a word isn't text.
#[derive(Clone, Copy, Debug, PartialEq, Eq)]
pub enum ArgumentFault {
    NoMemory,
    NoText,
}

impl ArgumentFault {
    /// The exit status of the program.
    pub fn code(self) -> u8
        ensures memory { self ≡ ArgumentFault.NoMemory → result ≡ 12 }
        ensures text { self ≡ ArgumentFault.NoText → result ≡ 16 }
    {
        match self {
            ArgumentFault::NoMemory => 12,
            ArgumentFault::NoText => 16,
        }
    }
}

impl From<AllocError> for ArgumentFault {
    ghost use Rattle.ntfsprogs.specs.declared.arguments.ArgumentFault.TheVariants.{NoMemory};

    ghost from_gives = { λ _ fault. fault ≡ NoMemory };

    fn from(_error: AllocError) -> ArgumentFault {
        ArgumentFault::NoMemory
    }
}

/// The words of a command line: those after the program's own name, and in front of them the last part of that name,
/// where it is a tool's. Each takes as much memory as it has bytes.
pub fn arguments<E: Env>(alloc: Global, env: &E) -> Result<Vec<String>, ArgumentFault> {
    let mut room = zeros(alloc, 4096)?;
    let mut words = own_tool(alloc, env, &mut room)?;
    'words: for number in 1..usize::MAX {
        match argument(alloc, env, number, &mut room)? {
            None => break,
            Some(word) => words.push(word).map_err(AllocError::from)?,
        }
    }
    Ok(words)
}

/// The last part of the program's own name, where a tool has that name, and else nothing. A name that isn't text is no
/// tool's.
fn own_tool<E: Env>(
    alloc: Global,
    env: &E,
    room: &mut Vec<u8>,
) -> Result<Vec<String>, ArgumentFault> {
    let mut words = Vec::new(alloc);
    let own = match argument(alloc, env, 0, room) {
        Ok(Some(own)) => own,
        Ok(None) | Err(ArgumentFault::NoText) => return Ok(words),
        Err(fault) => return Err(fault),
    };
    if let Some(last) = Path::new(own.as_str()).file_name() {
        words
            .push(String::from_str(alloc, last)?)
            .map_err(AllocError::from)?;
    }
    if tool_of(&words).is_none() {
        words.clear();
    }
    Ok(words)
}

/// The word of a number, of which the program's own name has 0, where there is one. It is read into the room, which
/// grows where the word is longer.
fn argument<E: Env>(
    alloc: Global,
    env: &E,
    number: usize,
    room: &mut Vec<u8>,
) -> Result<Option<String>, ArgumentFault> {
    'rooms: for _ in 0..usize::BITS {
        match env.arg(number, room.as_mut_slice()) {
            Ok(length) => return Ok(Some(text_of(alloc, &room[..length])?)),
            Err(FillError::NotPresent) => return Ok(None),
            Err(FillError::TooLong) => *room = zeros(alloc, room.len().saturating_mul(2))?,
        }
    }
    Err(ArgumentFault::NoMemory)
}

fn text_of(alloc: Global, bytes: &[u8]) -> Result<String, ArgumentFault> {
    match std::str::from_utf8(bytes) {
        Ok(text) => Ok(String::from_str(alloc, text)?),
        Err(_) => Err(ArgumentFault::NoText),
    }
}

fn zeros(alloc: Global, count: usize) -> Result<Vec<u8>, AllocError> {
    vec![in alloc; 0; count]
}
