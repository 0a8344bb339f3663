//! The counts of what failed outside the program.
ghost use Rattle.std.specs.Prelude.{◌≡◌, Ok, IfOk, IsErr, OnErr};
ghost use Rattle.std.specs.IoError.{error_kind};
ghost use Rattle.ntfs_base.specs.Calls.{count_after};
ghost use Rattle.ntfs_host.specs.Counting.{create_refusal_of, faults_after, faults_after_create, refusal_of};

use ntfs_base::{Failed, Faults, ShelfFault, one_more};
use std::io;
use std::io::ErrorKind;

/// The answer of a call of the system, which counts one failure more where it failed.
pub(crate) fn count_fault<T>(failures: &mut u64, answer: io::Result<T>) -> Result<T, Failed>
    ensures value { IfOk result (λ value. answer ≡ Ok value) }
    ensures failed { OnErr result (IsErr answer) }
    ensures count { failures.new ≡ count_after failures.old result }
{
    match answer {
        Ok(value) => Ok(value),
        Err(_) => {
            *failures = one_more(*failures);
            Err(Failed)
        }
    }
}

/// Why a file wasn't handed out: there is none, memory was wanting, or else the call failed, which counts as a read.
pub(crate) fn refusal_of(faults: &mut Faults, error: &io::Error) -> ShelfFault
    ensures fault { result ≡ refusal_of (error_kind error.now) }
    ensures count { faults.new ≡ faults_after result faults.old }
{
    match error.kind() {
        ErrorKind::NotFound => ShelfFault::Absent,
        ErrorKind::OutOfMemory => ShelfFault::NoMemory,
        _ => {
            faults.reads = one_more(faults.reads);
            ShelfFault::Failed
        }
    }
}

/// Why a file wasn't made: it had to be new and is there, memory was wanting, or else the call failed, which counts as
/// a write.
pub(crate) fn create_refused(
    faults: &mut Faults,
    must_be_new: bool,
    error: &io::Error,
) -> ShelfFault
    ensures fault { result ≡ create_refusal_of must_be_new (error_kind error.now) }
    ensures count { faults.new ≡ faults_after_create result faults.old }
{
    match error.kind() {
        ErrorKind::AlreadyExists if must_be_new => ShelfFault::Present,
        ErrorKind::OutOfMemory => ShelfFault::NoMemory,
        _ => {
            faults.writes = one_more(faults.writes);
            ShelfFault::Failed
        }
    }
}
