/// What may be done with the files of a shelf, or with one of them.
#[derive(Clone, Copy, Debug, PartialEq, Eq)]
pub enum Access {
    /// They are only read.
    ReadOnly,
    /// They are read, written and made.
    ReadWrite,
}
