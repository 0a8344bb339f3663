//! One entry of a node, by the bytes from its first on: its rules, and what a walk does at it.

ghost use Rattle.std.specs.Prelude.{◌≡◌, ◌+◌, ◌≤◌, ℕ, true, None, length};
ghost use Rattle.ntfs_index.specs.Entry.{HasSoundLength, IsSoundEntry, IsStep};
ghost use Rattle.ntfs_index.specs.Layout as layout;
ghost use Rattle.ntfs_index.specs.Node as node;

use crate::layout::{
    child_vcn, entry_flags, file_name_length, index_entry_length, indexed_file, key_length,
};

/// An entry that a walk gave; its key is the walk's.
#[derive(Clone, Copy, Debug, PartialEq, Eq)]
pub struct Entry {
    /// The reference of the file that the key names.
    pub reference: u64,
}

/// The entry has a child.
#[tactic(auto, unfolding(crate::specs::Node::has_child))]
fn has_child(entry: &[u8]) -> bool
    requires { 0x10 ≤ length entry.now }
    ensures { result ≡ node.has_child entry.now }
{
    entry_flags(entry) & 1 != 0
}

/// The entry ends its node.
#[tactic(auto, unfolding(crate::specs::Node::ends_node))]
fn ends_node(entry: &[u8]) -> bool
    requires { 0x10 ≤ length entry.now }
    ensures { result ≡ node.ends_node entry.now }
{
    entry_flags(entry) & 2 != 0
}

/// The bytes that the child's VCN takes.
#[tactic(auto, unfolding(crate::specs::Node::child_length))]
fn child_length(entry: &[u8]) -> usize
    requires { 0x10 ≤ length entry.now }
    ensures length { result ≡ node.child_length entry.now }
    ensures fits { result ≤ 8 }
{
    if has_child(entry) { 8 } else { 0 }
}

/// Rule 4.
#[tactic(auto, unfolding(crate::specs::Node::has_right_length))]
fn has_right_length(entry: &[u8]) -> bool
    ensures value { result ≡ node.has_right_length entry.now }
    ensures sound { result ≡ true → HasSoundLength entry.now }
{
    if entry.len() < 16 {
        return false;
    }
    let length = usize::from(index_entry_length(entry));
    16 <= length && length % 8 == 0 && length <= entry.len()
}

/// Rule 5 of an entry with a key.
#[tactic(auto, unfolding(crate::specs::Node::has_right_key))]
fn has_right_key(entry: &[u8]) -> bool
    requires { HasSoundLength entry.now }
    ensures value { result ≡ node.has_right_key entry.now }
    ensures fits { result ≡ true →
        0x10 + layout.key_length entry.now + node.child_length entry.now ≤ layout.index_entry_length entry.now }
{
    let key = usize::from(key_length(entry));
    if 0x10 + key + child_length(entry) > usize::from(index_entry_length(entry)) || key < 0x42 {
        return false;
    }
    0x42 + 2 * usize::from(file_name_length(entry)) <= key
}

/// Rule 5 of an entry that ends the node.
#[tactic(auto, unfolding(crate::specs::Node::has_right_child))]
fn has_right_child(entry: &[u8]) -> bool
    requires { HasSoundLength entry.now }
    ensures value { result ≡ node.has_right_child entry.now }
    ensures fits { result ≡ true → 0x10 + node.child_length entry.now ≤ layout.index_entry_length entry.now }
{
    0x10 + child_length(entry) <= usize::from(index_entry_length(entry))
}

/// Rule 5.
fn has_right_parts(entry: &[u8]) -> bool
    requires { HasSoundLength entry.now }
    ensures value { result ≡ node.has_right_parts entry.now }
    ensures sound { result ≡ true → IsSoundEntry entry.now }
{
    if ends_node(entry) {
        has_right_child(entry)
    } else {
        has_right_key(entry)
    }
}

/// The first rule that the entry breaks.
#[tactic(auto, unfolding(crate::specs::Node::broken_rule))]
fn broken_rule(entry: &[u8]) -> Option<u8>
    ensures value { result ≡ node.broken_rule entry.now }
    ensures sound { result ≡ None → IsSoundEntry entry.now }
{
    if !has_right_length(entry) {
        return Some(4);
    }
    if !has_right_parts(entry) {
        return Some(5);
    }
    None
}

/// What a walk meets first at an entry.
#[derive(Clone, Copy)]
pub(crate) enum Step {
    /// The entry's child.
    Child { vcn: u64 },
    /// The entry itself, of so many bytes.
    Own { reference: u64, length: u16 },
    /// A rule that it breaks.
    Damage { rule: u8 },
    /// The node's end.
    End,
}

/// What a walk meets first at an entry, whose child has been entered or not.
#[tactic(auto, unfolding(crate::specs::Node::child_length), using(crate::proofs::NodeLemmas::steps))]
pub(crate) fn step_of(entry: &[u8], entered: bool) -> Step
    ensures { (vcn : ℕ) → IsStep vcn entered entry.now result }
{
    if let Some(rule) = broken_rule(entry) {
        return Step::Damage { rule };
    }
    if !entered && has_child(entry) {
        return Step::Child {
            vcn: child_vcn(entry),
        };
    }
    if ends_node(entry) {
        return Step::End;
    }
    Step::Own {
        reference: indexed_file(entry),
        length: index_entry_length(entry),
    }
}

/// The key of an entry.
#[tactic(auto, unfolding(crate::specs::Node::key_of, ntfs_base::specs::Bytes::piece_at))]
pub(crate) fn key_of(entry: &[u8]) -> &[u8]
    requires fields { 0x10 ≤ length entry.now }
    requires within { 0x10 + layout.key_length entry.now ≤ length entry.now }
    ensures { result.now ≡ node.key_of entry.now }
{
    &entry[0x10..0x10 + usize::from(key_length(entry))]
}
