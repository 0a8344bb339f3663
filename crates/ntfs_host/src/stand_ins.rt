use ntfs_base::Failed;
use std::fs::{File, Files};
use std::os::fd::AsFd;

/// Files in the place of those standard streams that were closed when the program began. While they are held, no other
/// file has the descriptor of a standard stream, so that what is written to a closed stream reaches no file.
#[derive(Drop)]
pub struct StandIns<F> {
    pub(crate) input: Option<F>,
    pub(crate) output: Option<F>,
    pub(crate) messages: Option<F>,
}

impl<F> StandIns<F> {
    /// Opens a file for each of the three streams that is closed, or fails where the system refuses that. A file that
    /// is opened takes the lowest descriptor that is free, so this comes before any other file is opened.
    pub fn open<R: Files<File = F>, I: AsFd, O: AsFd, E: AsFd>(
        files: &R,
        input: &I,
        output: &O,
        messages: &E,
    ) -> Result<StandIns<F>, Failed> {
        let input = stand_in(files, input)?;
        let output = stand_in(files, output)?;
        let messages = stand_in(files, messages)?;
        Ok(StandIns {
            input,
            output,
            messages,
        })
    }
}

/// What the system answers to a call on a descriptor under which no file is open.
const BAD_DESCRIPTOR: i32 = 9;

/// The root folder, opened for reading, where a stream is closed: a folder can neither be read as a file nor written.
fn stand_in<R: Files, S: AsFd>(files: &R, stream: &S) -> Result<Option<R::File>, Failed> {
    if !is_closed(stream) {
        return Ok(None);
    }
    match File::open(files, "/") {
        Ok(file) => Ok(Some(file)),
        Err(_) => Err(Failed),
    }
}

/// Whether the system knows no open file under the descriptor. One more descriptor of an open file may be refused too,
/// for another reason.
fn is_closed<S: AsFd>(stream: &S) -> bool {
    match stream.as_fd().try_clone_to_owned() {
        Ok(_) => false,
        Err(error) => error.raw_os_error() == Some(BAD_DESCRIPTOR),
    }
}
