//! A stream as it was gathered.

ghost use Rattle.std.specs.Prelude.{◌≡◌, not, Some, None, if◌then◌else◌, is_some, IfSome};
ghost use Rattle.std.specs.Option.{option_map};
ghost use Rattle.ntfs_runs.specs.Clusters.{AreWithin, vcns};
ghost use Rattle.ntfs_volume.specs.StreamViews.{HasNumbers, gathered_by};

use ntfs_runs::RunList;
use std::marker::Model;

/// What a stream has: its value, or its sizes and where its clusters lie.
#[derive(Drop)]
pub(crate) enum Content {
    Value {
        bytes: Vec<u8>,
    },
    Runs {
        size: u64,
        valid: u64,
        runs: RunList,
    },
}

/// A stream of a file: its value, or its sizes and where its clusters lie, with the record and the place of its first
/// extent.
#[derive(Drop)]
pub struct Stream {
    flags: u16,
    number: u64,
    place: u32,
    extents: u64,
    content: Content,
}

impl Model for Stream {
    ghost use Rattle.std.specs.Prelude.{ℕ};
    ghost use Rattle.ntfs_volume.specs.Streams.{Gathered};
    ghost use Rattle.ntfs_volume.specs.StreamViews.{HasNumbers, gathered_by};

    ghost Value = { Gathered ℕ };

    ghost view = { λ s. gathered_by s.flags s.number s.place s.extents s.content };

    ghost invariant = { λ s. HasNumbers s.content };
}

impl Stream {
    pub(crate) fn new(flags: u16, number: u64, place: u32, extents: u64, content: Content) -> Stream
        requires { HasNumbers content }
        ensures { result ≡ gathered_by flags number place extents content }
    {
        Stream {
            flags,
            number,
            place,
            extents,
            content,
        }
    }

    /// The flags of the first extent: a compression in the low byte, 0x4000 is encrypted, 0x8000 sparse.
    pub fn flags(&self) -> u16
        ensures { result ≡ self.now.stream.flags }
    {
        self.flags
    }

    /// The size; that of a value is its length.
    pub fn size(&self) -> u64
        ensures { result ≡ self.now.stream.size }
    {
        match &self.content {
            Content::Value { bytes } => bytes.len() as u64,
            Content::Runs { size, .. } => *size,
        }
    }

    /// The initialised size; that of a value is its length.
    pub fn valid(&self) -> u64
        ensures { result ≡ self.now.stream.valid }
    {
        match &self.content {
            Content::Value { bytes } => bytes.len() as u64,
            Content::Runs { valid, .. } => *valid,
        }
    }

    /// The value of a resident stream.
    pub fn value(&self) -> Option<&[u8]>
        ensures { option_map (λ value. value.now) result ≡
            (if self.now.stream.is_resident then Some self.now.stream.value else None) }
    {
        match &self.content {
            Content::Value { bytes } => Some(bytes),
            Content::Runs { .. } => None,
        }
    }

    /// The runs of a stream that isn't resident.
    pub fn runs(&self) -> Option<&RunList>
        ensures cells { option_map (λ runs. vcns runs.now) result ≡
            (if self.now.stream.is_resident then None else Some self.now.stream.cells) }
        ensures within { IfSome result (λ runs. AreWithin runs.now) }
    {
        match &self.content {
            Content::Value { .. } => None,
            Content::Runs { runs, .. } => Some(runs),
        }
    }

    /// The record of the first extent, and its place there.
    pub fn first(&self) -> (u64, u32)
        ensures number { result.0 ≡ self.now.number }
        ensures place { result.1 ≡ self.now.place }
    {
        (self.number, self.place)
    }

    /// How many extents the stream has.
    pub fn extents(&self) -> u64
        ensures { result ≡ self.now.extents }
    {
        self.extents
    }
}
