//! The allocation of a directory's index.

ghost use Rattle.std.specs.Prelude.{◌≡◌, ◌≤◌, ◌+◌, length, OnOk};
ghost use Rattle.ntfs_base.specs.Bytes.{piece_at};
ghost use Rattle.ntfs_base.specs.Frames.{IfTold, OnlyReads};
ghost use Rattle.ntfs_directory.specs.Allocation.{CanRead, allocation_bytes, allocation_length, allocation_of};
ghost use Rattle.ntfs_directory.specs.Fault.{failed_origin};

use crate::runs::{Placed, read_runs};
use ntfs_base::{Failed, Image};
use ntfs_boot::Geometry;
use ntfs_volume::Stream;
use std::marker::Model;

/// The stream of the blocks of a directory's index, where it has one.
#[derive(Drop)]
pub(crate) struct Allocation {
    stream: Option<Stream>,
}

impl Model for Allocation {
    ghost use Rattle.std.specs.Prelude.{ℕ};
    ghost use Rattle.ntfs_directory.specs.Allocation.{allocation_of};
    ghost use Rattle.ntfs_volume.specs.Streams.{Stream};

    ghost Value = { Stream ℕ };

    ghost view = { λ a. allocation_of a.stream };
}

impl Allocation {
    /// The allocation that a stream is; without one there is none.
    pub(crate) fn new(stream: Option<Stream>) -> Allocation
        ensures { result ≡ allocation_of stream }
    {
        Allocation { stream }
    }

    /// How many bytes it has.
    pub(crate) fn len(&self) -> u64
        ensures { result ≡ allocation_length self.now }
    {
        match &self.stream {
            None => 0,
            Some(stream) => match stream.value() {
                Some(value) => value.len() as u64,
                None => stream.size(),
            },
        }
    }

    /// Reads its bytes from a place on. After `Failed` the slice holds anything.
    pub(crate) fn read<G: Image>(
        &self,
        image: &mut G,
        geometry: &Geometry,
        place: u64,
        into: &mut [u8],
    ) -> Result<(), Failed>
        requires readable { CanRead (G.seen image.old).size geometry.now self.now }
        requires within { place + length into.old ≤ allocation_length self.now }
        ensures bytes { OnOk result (IfTold G.Image image.old (λ content. into.new ≡
            piece_at place (length into.old) (allocation_bytes geometry.now content self.now))) }
        ensures reads { OnlyReads G.Image failed_origin image.old image.new result }
    {
        match &self.stream {
            None => Ok(()),
            Some(stream) => read_stream(image, geometry, stream, place, into),
        }
    }
}

/// Reads the bytes of a stream from a place on. After `Failed` the slice holds anything.
pub(crate) fn read_stream<G: Image>(
    image: &mut G,
    geometry: &Geometry,
    stream: &Stream,
    place: u64,
    into: &mut [u8],
) -> Result<(), Failed>
    requires readable { CanRead (G.seen image.old).size geometry.now stream.now.stream }
    requires within { place + length into.old ≤ allocation_length stream.now.stream }
    ensures bytes { OnOk result (IfTold G.Image image.old (λ content. into.new ≡
        piece_at place (length into.old) (allocation_bytes geometry.now content stream.now.stream))) }
    ensures reads { OnlyReads G.Image failed_origin image.old image.new result }
{
    if let Some(value) = stream.value() {
        let place = place as usize;
        into.copy_from_slice(&value[place..place + into.len()]);
        return Ok(());
    }
    match stream.runs() {
        None => unreachable!(),
        Some(runs) => {
            let placed = Placed {
                runs,
                size: stream.size(),
                valid: stream.valid(),
            };
            read_runs(image, geometry, &placed, place, into)?;
            Ok(())
        }
    }
}
