//! Volumes that `ntfsmake` makes, and what they give: their clone images, spelled from their bytes and their $Bitmap,
//! and what is restored from these.
use crate::case::{front, run_files};
use std::alloc::{AllocError, Global};
use std::test::Fail;

/// Bytes at a place.
pub type Patch<'a> = (usize, &'a [u8]);

/// A volume, by the words that make it.
#[derive(Clone, Copy)]
pub struct Layout<'a> {
    pub make: [&'a str; 5],
    /// The bytes of a cluster.
    pub cluster: u32,
    /// How many clusters there are, and how many of them are owned.
    pub clusters: u64,
    pub owned: u64,
    /// The bytes of the device: all sectors and one more.
    pub device: u64,
    /// Where $Bitmap begins.
    pub bitmap: usize,
    /// Where a cluster begins that nobody owns.
    pub free: usize,
    /// The bytes of the clone image: a header of 56, a byte and a cluster for each owned one and for the tail, and nine
    /// bytes for each gap.
    pub clone: usize,
}

/// Clusters of 4,096 bytes; 30 gaps.
pub const USUAL: Layout = Layout {
    make: ["ntfsmake", "v", "0", "1024", "4096"],
    cluster: 4096,
    clusters: 1024,
    owned: 119,
    device: 4_194_816,
    bitmap: 126_976,
    free: 8192,
    clone: 491_966,
};

/// The same, with seven sectors behind the last cluster.
pub const ODD: Layout = Layout {
    make: ["ntfsmake", "v", "1", "1024", "4096"],
    device: 4_198_400,
    ..USUAL
};

/// The same clusters from the end on; 29 gaps.
pub const BACKWARD: Layout = Layout {
    make: ["ntfsmake", "v", "2", "1024", "4096"],
    bitmap: 4_075_520,
    clone: 491_957,
    ..USUAL
};

/// Clusters of 1,024 bytes; 30 gaps.
pub const SMALL: Layout = Layout {
    make: ["ntfsmake", "v", "0", "1024", "1024"],
    cluster: 1024,
    clusters: 1024,
    owned: 323,
    device: 1_049_088,
    bitmap: 114_688,
    free: 8192,
    clone: 332_426,
};

/// The same from the end on, with a sector behind the last cluster; 29 gaps.
pub const SMALL_ODD: Layout = Layout {
    make: ["ntfsmake", "v", "3", "1024", "1024"],
    device: 1_049_600,
    bitmap: 942_080,
    clone: 332_417,
    ..SMALL
};

/// Clusters of one sector; 30 gaps.
pub const SECTORS: Layout = Layout {
    make: ["ntfsmake", "v", "0", "2048", "512"],
    cluster: 512,
    clusters: 2048,
    owned: 595,
    device: 1_049_088,
    bitmap: 112_640,
    free: 8192,
    clone: 306_074,
};

/// Clusters of 65,536 bytes; 30 gaps.
pub const LARGE: Layout = Layout {
    make: ["ntfsmake", "v", "0", "1024", "65536"],
    cluster: 65_536,
    clusters: 1024,
    owned: 59,
    device: 67_109_376,
    bitmap: 524_288,
    free: 65_536,
    clone: 3_932_546,
};

/// Sixteen clusters of a sector, of which 0, 5, 7 and 15 are owned; no words make it, and no check would accept it.
pub const TINY: Layout = Layout {
    make: [""; 5],
    cluster: 512,
    clusters: 16,
    owned: 4,
    device: 8704,
    bitmap: 2560,
    free: 512,
    clone: 2648,
};

/// Its boot sector: the name, 512 bytes a sector, a sector a cluster, 16 sectors, $MFT and its mirror at clusters 2 and
/// 4, records of 1,024 bytes and index blocks of 4,096.
const TINY_BOOT: [Patch; 8] = [
    (0x03, b"NTFS    "),
    (0x0B, b"\0\x02"),
    (0x0D, b"\x01"),
    (0x28, b"\x10"),
    (0x30, b"\x02"),
    (0x38, b"\x04"),
    (0x40, b"\xF6"),
    (0x44, b"\xF4"),
];

/// Its $Bitmap, and what stands in two owned clusters and in one that isn't.
const TINY_BYTES: [Patch; 4] = [
    (2560, b"\xA1\x80"),
    (3584, b"the seventh"),
    (7680, b"the fifteenth"),
    (512, b"nobody's"),
];

/// The flag of a dirty volume, in record 3 of the small volume and its mirror.
pub const DIRTY: [Patch; 2] = [(12_578, b"\x01"), (46_370, b"\x01")];

/// Writes a text over the bytes.
fn put(bytes: &mut [u8], at: usize, text: &[u8]) -> Result<(), Fail> {
    if at > bytes.len() || text.len() > bytes.len() - at {
        return Err("no such place")?;
    }
    bytes[at..at + text.len()].copy_from_slice(text);
    Ok(())
}

/// Writes each of these texts over the bytes.
fn patch(bytes: &mut [u8], patches: &[Patch]) -> Result<(), Fail> {
    for (at, text) in patches {
        put(bytes, *at, text)?;
    }
    Ok(())
}

/// A copy of some bytes, with these in place of its own.
pub fn patched(alloc: Global, bytes: &[u8], patches: &[Patch]) -> Result<Vec<u8>, Fail> {
    let mut copy = Vec::from_slice(alloc, bytes)?;
    patch(&mut copy, patches)?;
    Ok(copy)
}

/// The volume of a layout, with these bytes in place of its own.
pub fn volume_with(alloc: Global, layout: &Layout, patches: &[Patch]) -> Result<Vec<u8>, Fail> {
    let made = run_files(alloc, &layout.make, &[])?;
    patched(alloc, made.shelf.content("v").ok_or("no volume")?, patches)
}

/// The tiny volume, with a copy of its boot sector behind the last cluster.
pub fn tiny_volume(alloc: Global) -> Result<Vec<u8>, Fail> {
    let mut volume = zeros(alloc, 8704)?;
    patch(&mut volume, &TINY_BOOT)?;
    let boot = Vec::from_slice(alloc, front(&volume, 512)?)?;
    patch(&mut volume, &[(8192, &boot)])?;
    patch(&mut volume, &TINY_BYTES)?;
    Ok(volume)
}

/// The volume of a layout, with bytes in a cluster that nobody owns.
pub fn volume_of(alloc: Global, layout: &Layout) -> Result<Vec<u8>, Fail> {
    volume_with(alloc, layout, &[(layout.free, b"nobody's")])
}

/// So many zeros.
pub fn zeros(alloc: Global, count: usize) -> Result<Vec<u8>, AllocError> {
    let mut bytes = Vec::new(alloc);
    bytes.resize(count, 0)?;
    Ok(bytes)
}

/// A cluster's bit is set.
fn is_owned(bits: &[u8], number: u64) -> bool {
    match bits.get((number / 8) as usize) {
        None => false,
        Some(byte) => (*byte >> (number % 8)) & 1 == 1,
    }
}

/// The header of a clone image: name and version, the bytes of a cluster, the bytes of the device, how many clusters
/// there are and are owned, where the commands begin, and zeros.
pub fn header_of(alloc: Global, layout: &Layout) -> Result<Vec<u8>, AllocError> {
    let mut header = Vec::from_slice(alloc, b"\0ntfsclone-image\x0A\0")?;
    header.extend_from_slice(&layout.cluster.to_le_bytes())?;
    header.extend_from_slice(&layout.device.to_le_bytes())?;
    header.extend_from_slice(&layout.clusters.to_le_bytes())?;
    header.extend_from_slice(&layout.owned.to_le_bytes())?;
    header.extend_from_slice(&56u32.to_le_bytes())?;
    header.resize(56, 0)?;
    Ok(header)
}

/// Puts the command of a gap, where there is one.
fn put_gap(clone: &mut Vec<u8>, count: u64) -> Result<(), AllocError> {
    if count > 0 {
        clone.push(0)?;
        clone.extend_from_slice(&count.to_le_bytes())?;
    }
    Ok(())
}

/// Puts the command of a cluster.
fn put_cluster(clone: &mut Vec<u8>, bytes: &[u8]) -> Result<(), AllocError> {
    clone.push(1)?;
    clone.extend_from_slice(bytes)
}

/// A cluster of a volume.
fn cluster_at<'a>(layout: &Layout, volume: &'a [u8], number: u64) -> Result<&'a [u8], Fail> {
    let size = layout.cluster as usize;
    let start = (number as usize).wrapping_mul(size);
    let cluster = volume.get(start..start.wrapping_add(size));
    Ok(cluster.ok_or("too short")?)
}

/// The bytes of an image behind the last cluster, up to the end of the device.
fn tail_of<'a>(layout: &Layout, volume: &'a [u8]) -> Result<&'a [u8], Fail> {
    let start = u64::from(layout.cluster).wrapping_mul(layout.clusters) as usize;
    let end = volume.len().min(layout.device as usize);
    Ok(volume.get(start..end).ok_or("too short")?)
}

/// The clone image of a volume: the owned clusters, the gaps between them, and the tail with zeros behind it.
pub fn clone_of(alloc: Global, layout: &Layout, volume: &[u8]) -> Result<Vec<u8>, Fail> {
    let bits = volume.get(layout.bitmap..).ok_or("no $Bitmap")?;
    let mut clone = header_of(alloc, layout)?;
    let mut gap = 0u64;
    for number in 0..layout.clusters {
        if is_owned(bits, number) {
            put_gap(&mut clone, gap)?;
            put_cluster(&mut clone, cluster_at(layout, volume, number)?)?;
            gap = 0;
        } else {
            gap = gap.wrapping_add(1);
        }
    }
    put_gap(&mut clone, gap)?;
    let mut last = Vec::from_slice(alloc, tail_of(layout, volume)?)?;
    last.resize(layout.cluster as usize, 0)?;
    put_cluster(&mut clone, &last)?;
    Ok(clone)
}

/// What is restored from that: the owned clusters, zeros between them, and the tail up to the end of the device.
pub fn restored_of(alloc: Global, layout: &Layout, volume: &[u8]) -> Result<Vec<u8>, Fail> {
    let bits = volume.get(layout.bitmap..).ok_or("no $Bitmap")?;
    let blank = zeros(alloc, layout.cluster as usize)?;
    let mut restored = Vec::new(alloc);
    for number in 0..layout.clusters {
        if is_owned(bits, number) {
            restored.extend_from_slice(cluster_at(layout, volume, number)?)?;
        } else {
            restored.extend_from_slice(&blank)?;
        }
    }
    restored.extend_from_slice(tail_of(layout, volume)?)?;
    restored.resize(layout.device as usize, 0)?;
    Ok(restored)
}
