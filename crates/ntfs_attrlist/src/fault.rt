/// The place in an attribute list, in bytes from its first, at which bytes are left but no entry stands.
#[derive(Clone, Copy, Debug, PartialEq, Eq)]
pub struct BadEntry {
    pub place: usize,
}
