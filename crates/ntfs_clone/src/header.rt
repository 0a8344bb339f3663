//! The header of a clone image.

ghost use Rattle.std.specs.Prelude.{◌≡◌, ◌≤◌, ◌<◌, ◌*◌, ◌^◌, ◌-◌, ◌++◌, take, replicate, true, false, IfOk, IfErr, IsTrue, OnOk, OnErr};
ghost use Rattle.ntfs_base.specs.Frames.{Gives, OnlyTakes};
ghost use Rattle.ntfs_base.specs.Source.{after_take};
ghost use Rattle.ntfs_clone.specs.Header.{IsHeader, clone_header, header_fields, header_in, is_clone_cluster, is_clone_count, is_device, magic_of, version_of, clone_magic, clone_version};
ghost use Rattle.ntfs_clone.specs.Fault.{IsBad, IsReadFault, clone_origin};
ghost use Rattle.ntfs_clone.specs.Taking.{HasGiven, to_come};
ghost use Rattle.std.specs.Str.{bytes_eq};

use crate::fault::CloneFault;
use crate::taking::{fill, skip};
use byteorder::{ByteOrder, LittleEndian};
use ntfs_base::Source;

/// The header of a clone image.
#[derive(Clone, Copy, Debug, PartialEq, Eq)]
pub struct CloneHeader {
    /// Bytes of a cluster.
    pub cluster: u32,
    /// Bytes of the device.
    pub device: u64,
    /// The number of clusters of the volume.
    pub clusters: u64,
    /// How many of them are owned, as the image says it; nothing tests it.
    pub in_use: u64,
    /// The place in bytes of the first command.
    pub offset: u32,
}

impl CloneHeader {
    /// Reads the fields at their places.
    #[tactic(auto, unfolding(crate::specs::Header::header_fields))]
    fn read(front: &[u8; 50]) -> CloneHeader
        ensures { result ≡ header_fields front.now }
    {
        CloneHeader {
            cluster: LittleEndian::read_u32(&front[18..]),
            device: LittleEndian::read_u64(&front[22..]),
            clusters: LittleEndian::read_u64(&front[30..]),
            in_use: LittleEndian::read_u64(&front[38..]),
            offset: LittleEndian::read_u32(&front[46..]),
        }
    }
}

#[tactic(auto, unfolding(crate::specs::Header::magic_of))]
fn has_magic(front: &[u8; 50]) -> bool
    ensures { result ≡ bytes_eq (magic_of front.now) clone_magic }
{
    front[..16] == b"\0ntfsclone-image"[..]
}

#[tactic(auto, unfolding(crate::specs::Header::version_of, ntfs_base::specs::Bytes::piece_at))]
fn has_version(front: &[u8; 50]) -> bool
    ensures { result ≡ bytes_eq (version_of front.now) clone_version }
{
    front[16..18] == [10, 0]
}

#[tactic(auto, unfolding(crate::specs::Header::is_clone_cluster))]
fn is_clone_cluster(bytes: u32) -> bool
    ensures value { result ≡ is_clone_cluster bytes }
    ensures least { result ≡ true → 512 ≤ bytes }
    ensures most { result ≡ true → bytes ≤ 65536 }
{
    bytes == 512
        || bytes == 1024
        || bytes == 2048
        || bytes == 4096
        || bytes == 8192
        || bytes == 16_384
        || bytes == 32_768
        || bytes == 65_536
}

#[tactic(auto, unfolding(crate::specs::Header::is_device))]
fn is_device(len: usize, header: &CloneHeader) -> bool
    ensures value { result ≡ is_device len header.now }
    ensures most { result ≡ true → header.now.device ≤ 2 ^ 62 }
    ensures held { result ≡ true → 38 ≤ len → header.now.clusters * header.now.cluster ≤ header.now.device }
{
    let bytes = u128::from(header.clusters) * u128::from(header.cluster);
    header.device <= 1 << 62 && (len < 38 || bytes <= u128::from(header.device))
}

#[tactic(auto, unfolding(crate::specs::Header::is_clone_count))]
fn is_clone_count(clusters: u64) -> bool
    ensures value { result ≡ is_clone_count clusters }
    ensures least { result ≡ true → 0 < clusters }
    ensures most { result ≡ true → clusters < 2 ^ 32 }
{
    0 < clusters && clusters < 1 << 32
}

/// Refuses the field at a place where it isn't right.
fn must(is_right: bool, place: u64) -> Result<(), CloneFault>
    ensures right { OnOk result (is_right ≡ true) }
    ensures wrong { OnErr result (is_right ≡ false) }
    ensures refuses { IfErr result (λ fault. fault ≡ CloneFault.BadClone place) }
{
    if is_right {
        Ok(())
    } else {
        Err(CloneFault::BadClone { place })
    }
}

/// Puts zeros from a place on.
fn clear_behind(front: &mut [u8; 50], count: usize)
    requires { count ≤ 50 }
    ensures { front.new ≡ take count front.old ++ replicate (50 - count) 0 }
{
    front[count..].fill(0);
}

/// The header of an image of which so many bytes could be read, up to the end of the last field.
#[tactic(auto, unfolding(crate::specs::Header::header_in))]
fn header_in(len: usize, front: &[u8; 50]) -> Result<CloneHeader, CloneFault>
    ensures exact { result ≡ header_in len front.now }
    ensures good { IfOk result IsHeader }
    ensures whole { OnOk result (50 ≤ len) }
    ensures refuses { IfErr result IsBad }
{
    let header = CloneHeader::read(front);
    must(len >= 16 && has_magic(front), 0)?;
    must(len >= 18 && has_version(front), 16)?;
    must(len >= 22 && is_clone_cluster(header.cluster), 18)?;
    must(len >= 30 && is_device(len, &header), 22)?;
    must(len >= 38 && is_clone_count(header.clusters), 30)?;
    must(len >= 46, 38)?;
    must(len >= 50 && header.offset >= 50, 46)?;
    Ok(header)
}

/// Reads the header of a clone image, and then the bytes up to the first command. It takes no memory.
///
/// A clone image begins with the 16 bytes of a zero and `ntfsclone-image`, and the version 10.0. A cluster has a power
/// of two from 512 to 65,536 bytes; the device has at most 2^62 bytes and holds the clusters, of which there are 1 to
/// 2^32 - 1; the commands begin at 50 or later. The first field that is wrong or cut off is refused by its place.
pub fn read_header<I: Source>(source: &mut I) -> Result<CloneHeader, CloneFault>
    ensures gives { IsTrue (I.seen source.old).is_told
        → Gives clone_origin (λ header. header) (clone_header (to_come (I.seen source.old))) result }
    ensures good { IfOk result IsHeader }
    ensures refuses { IfErr result IsReadFault }
    ensures given { IfOk result (λ header. I.seen source.new ≡ after_take header.offset (I.seen source.old)) }
    ensures kept { HasGiven (I.seen source.old) (I.seen source.new) }
    ensures takes { OnlyTakes I.Source clone_origin source.old source.new result }
{
    let mut front = [0; 50];
    let count = fill(source, &mut front)?;
    clear_behind(&mut front, count);
    let header = header_in(count, &front)?;
    if !skip(source, u64::from(header.offset) - 50)? {
        return Err(CloneFault::BadClone { place: 50 });
    }
    Ok(header)
}
