//! Attributes of one type and name, joined one after the other.

ghost use Rattle.std.specs.Prelude.{◌≡◌};
ghost use Rattle.ntfs_check_streams.specs.Join as spec;
ghost use Rattle.ntfs_record.specs.Views.{shown_view};
ghost use Rattle.ntfs_volume.specs.StreamBytes as room;

use ntfs_record::{AttributeView, Body};

/// The type of $FILE_NAME.
const FILE_NAME: u32 = 0x30;

/// What an attribute tells of its part of a stream; of a value all numbers are 0.
#[derive(Clone, Copy)]
pub(crate) struct Span {
    pub(crate) is_resident: bool,
    pub(crate) lowest: u64,
    pub(crate) next: u64,
    pub(crate) size: u64,
    pub(crate) valid: u64,
}

/// What attributes of one type and name are so far.
#[derive(Clone, Copy)]
pub(crate) enum Joined {
    /// There is none.
    Nothing,
    /// A value, or more than one that may stand side by side.
    Values,
    /// Extents that join up to a VCN; the first has these sizes.
    Runs { next: u64, size: u64, valid: u64 },
    /// They don't join.
    Apart,
}

/// What an attribute tells of its part of a stream.
pub(crate) fn span_of(view: &AttributeView<'_>) -> Span
    ensures { result ≡ spec.span_shown (shown_view view.now).body }
{
    match view.body {
        Body::Resident { .. } => Span {
            is_resident: true,
            lowest: 0,
            next: 0,
            size: 0,
            valid: 0,
        },
        Body::Runs {
            lowest,
            next,
            size,
            valid,
            ..
        } => Span {
            is_resident: false,
            lowest,
            next,
            size,
            valid,
        },
    }
}

/// An attribute that stands first.
fn start(span: Span) -> Joined
    ensures { result ≡ spec.start span }
{
    if span.is_resident {
        return Joined::Values;
    }
    if span.lowest != 0 {
        return Joined::Apart;
    }
    Joined::Runs {
        next: span.next,
        size: span.size,
        valid: span.valid,
    }
}

/// Those so far, and one more.
#[tactic(auto, unfolding(crate::specs::Join::join))]
pub(crate) fn join(kind: u32, before: Joined, span: Span) -> Joined
    ensures { result ≡ spec.join kind before span }
{
    match before {
        Joined::Nothing => start(span),
        Joined::Values => {
            if kind == FILE_NAME && span.is_resident {
                Joined::Values
            } else {
                Joined::Apart
            }
        }
        Joined::Runs { next, size, valid } => {
            if !span.is_resident && span.lowest == next {
                Joined::Runs {
                    next: span.next,
                    size,
                    valid,
                }
            } else {
                Joined::Apart
            }
        }
        Joined::Apart => Joined::Apart,
    }
}

/// The sizes fit so many VCNs of a cluster's bytes.
fn have_room(cluster: u32, vcns: u64, size: u64, valid: u64) -> bool
    ensures { result ≡ room.have_room cluster vcns size valid }
{
    size <= vcns.saturating_mul(u64::from(cluster)) && valid <= size
}

/// They are a stream, where a cluster has so many bytes.
#[tactic(auto, unfolding(crate::specs::Join::is_stream))]
pub(crate) fn is_stream(cluster: u32, joined: Joined) -> bool
    ensures { result ≡ spec.is_stream cluster joined }
{
    match joined {
        Joined::Nothing => true,
        Joined::Values => true,
        Joined::Runs { next, size, valid } => have_room(cluster, next, size, valid),
        Joined::Apart => false,
    }
}
