//! What the system lets this process do with files.
use std::fs::{File, Files};
use std::io::Read;

/// Where the system tells this process's limits.
const LIMITS: &str = "/proc/self/limits";

/// Where the system lets a file end that this process writes, in bytes. Where it tells no limit, there is none.
pub(crate) fn size_limit<R: Files<File = File>>(files: &R) -> u64 {
    let mut text = [0; 4096];
    let Ok(mut file) = File::open(files, LIMITS) else {
        return u64::MAX;
    };
    match file.read(&mut text) {
        Ok(count) => limit_in(&text[..count]),
        Err(_) => u64::MAX,
    }
}

/// The first number of the line on file sizes.
pub(crate) fn limit_in(text: &[u8]) -> u64 {
    let Ok(text) = str::from_utf8(text) else {
        return u64::MAX;
    };
    'lines: for line in text.lines() {
        if let Some(rest) = line.strip_prefix("Max file size") {
            return match rest.split_whitespace().next() {
                Some(word) => word.parse().unwrap_or(u64::MAX),
                None => u64::MAX,
            };
        }
    }
    u64::MAX
}
