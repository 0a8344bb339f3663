//! Images byte by byte: bytes at places of zeros, and file records. The small volume has sectors of 512 bytes, clusters
//! and records of 1,024, and $MFT's 32 records from cluster 4 on.
ghost use Rattle.std.specs.Prelude.{◌≡◌, IfOk, vec_len};

use std::alloc::{AllocError, Global};

/// Bytes at a place.
pub type Patch<'a> = (usize, &'a [u8]);

/// The boot sector of a volume of 1,024 clusters of 4,096 bytes: name, bytes a sector, sectors a cluster, sectors,
/// clusters of $MFT and of its mirror, sizes of a record and of an index block.
pub const BOOT: [Patch; 8] = [
    (0x03, b"NTFS    "),
    (0x0B, &[0x00, 0x02]),
    (0x0D, &[8]),
    (0x28, &[0x00, 0x20]),
    (0x30, &[3]),
    (0x38, &[12]),
    (0x40, &[0xF6]),
    (0x44, &[0xF4]),
];

/// The length of that volume, with the copy of the boot sector.
pub const BOOT_LEN: usize = 4_198_400;

/// The boot sector of the small volume.
const SMALL_BOOT: [Patch; 8] = [
    (0x03, b"NTFS    "),
    (0x0B, &[0x00, 0x02]),
    (0x0D, &[2]),
    (0x28, &[128]),
    (0x30, &[4]),
    (0x38, &[40]),
    (0x40, &[0xF6]),
    (0x44, &[0xF4]),
];

/// The length of the small volume, with one cluster more for the copy of the boot sector.
pub const SMALL_LEN: usize = 66_560;

/// The type of $DATA.
pub const DATA: u32 = 0x80;

/// The type of $ATTRIBUTE_LIST.
pub const LIST: u32 = 0x20;

/// The flags of a record in use.
pub const IN_USE: u16 = 1;

/// An attribute without a name.
#[derive(Clone, Copy)]
pub enum Attribute<'a> {
    Resident {
        kind: u32,
        flags: u16,
        value: &'a [u8],
    },
    /// A $DATA by its runs: how many clusters it has, its sizes, and the mapping pairs.
    Runs {
        clusters: u64,
        size: u64,
        valid: u64,
        pairs: &'a [u8],
    },
}

/// A file record.
#[derive(Clone, Copy)]
pub struct Record<'a> {
    pub number: u32,
    pub flags: u16,
    pub base: u64,
    pub attributes: &'a [Attribute<'a>],
}

/// Record 0, which says where the records lie.
pub const FIRST: Record = Record {
    number: 0,
    flags: IN_USE,
    base: 0,
    attributes: &[Attribute::Runs {
        clusters: 32,
        size: 32_768,
        valid: 32_768,
        pairs: &[0x11, 0x20, 0x04, 0],
    }],
};

/// A record with a short text.
const HELLO: Record = Record {
    number: 16,
    flags: IN_USE,
    base: 0,
    attributes: &[Attribute::Resident {
        kind: DATA,
        flags: 0,
        value: b"hello, ntfs\n",
    }],
};

/// A record with a stream of two runs, of whose 1,500 bytes 1,030 are initialised.
const TWO_RUNS: Record = Record {
    number: 17,
    flags: IN_USE,
    base: 0,
    attributes: &[Attribute::Runs {
        clusters: 2,
        size: 1500,
        valid: 1030,
        pairs: &[0x11, 0x01, 0x32, 0x11, 0x01, 0xFF, 0],
    }],
};

pub fn zeros(alloc: Global, len: usize) -> Result<Vec<u8>, AllocError>
    ensures { IfOk result (λ bytes. vec_len bytes ≡ len) }
{
    let mut bytes = Vec::new(alloc);
    bytes.resize(len, 0)?;
    Ok(bytes)
}

/// So many zeros, so many bytes of which the first is this and each one more than the one before, modulo 256, and so
/// many zeros again.
pub fn between_zeros(alloc: Global, first: u8, counts: [usize; 3]) -> Result<Vec<u8>, AllocError> {
    let [before, count, behind] = counts;
    let mut bytes = zeros(alloc, before)?;
    let mut next = first;
    for _ in 0..count {
        bytes.push(next)?;
        next = next.wrapping_add(1);
    }
    for _ in 0..behind {
        bytes.push(0)?;
    }
    Ok(bytes)
}

/// Puts bytes at a place of an image, where it has that place.
fn put(image: &mut [u8], place: usize, bytes: &[u8]) -> Option<()> {
    if place > image.len() || bytes.len() > image.len() - place {
        return None;
    }
    image[place..place + bytes.len()].copy_from_slice(bytes);
    Some(())
}

/// Puts bytes at their places, one after the other.
pub fn patch(image: &mut [u8], patches: &[Patch]) -> Option<()> {
    for (place, bytes) in patches {
        put(image, *place, bytes)?;
    }
    Some(())
}

/// Writes an attribute and answers the place behind it.
fn write_attribute(image: &mut [u8], at: usize, attribute: &Attribute) -> Option<usize> {
    match *attribute {
        Attribute::Resident { kind, flags, value } => write_resident(image, at, kind, flags, value),
        Attribute::Runs {
            clusters,
            size,
            valid,
            pairs,
        } => write_runs(image, at, [clusters, size, valid], pairs),
    }
}

/// The length of an attribute with so many bytes of head and of body.
fn attribute_len(head: usize, body: &[u8]) -> usize {
    head.saturating_add(body.len()).saturating_add(7) / 8 * 8
}

fn write_resident(
    image: &mut [u8],
    at: usize,
    kind: u32,
    flags: u16,
    value: &[u8],
) -> Option<usize> {
    let len = attribute_len(0x18, value);
    let kind = kind.to_le_bytes();
    let spelled = (len as u64).to_le_bytes();
    let flags = flags.to_le_bytes();
    let count = (value.len() as u64).to_le_bytes();
    patch_from(
        image,
        at,
        &[
            (0x00, &kind),
            (0x04, &spelled[..4]),
            (0x08, &[0, 0, 0x18, 0]),
            (0x0C, &flags),
            (0x10, &count[..4]),
            (0x14, &[0x18, 0, 0, 0]),
        ],
    )?;
    put(image, at.saturating_add(0x18), value)?;
    Some(at.saturating_add(len))
}

fn write_runs(image: &mut [u8], at: usize, sizes: [u64; 3], pairs: &[u8]) -> Option<usize> {
    let [clusters, size, valid] = sizes;
    let len = attribute_len(0x40, pairs);
    let kind = DATA.to_le_bytes();
    let spelled = (len as u64).to_le_bytes();
    let highest = clusters.wrapping_sub(1).to_le_bytes();
    let allocated = clusters.wrapping_mul(1024).to_le_bytes();
    let size = size.to_le_bytes();
    let valid = valid.to_le_bytes();
    patch_from(
        image,
        at,
        &[
            (0x00, &kind),
            (0x04, &spelled[..4]),
            (0x08, &[1, 0, 0x40, 0]),
            (0x18, &highest),
            (0x20, &[0x40]),
            (0x28, &allocated),
            (0x30, &size),
            (0x38, &valid),
        ],
    )?;
    put(image, at.saturating_add(0x40), pairs)?;
    Some(at.saturating_add(len))
}

/// Puts bytes at places that count from one.
fn patch_from(image: &mut [u8], from: usize, patches: &[Patch]) -> Option<()> {
    for (place, bytes) in patches {
        put(image, from.saturating_add(*place), bytes)?;
    }
    Some(())
}

/// Writes a record of the small volume, in place of what stands there.
fn write_record(image: &mut [u8], file_record: &Record) -> Option<()> {
    let at = (file_record.number as usize)
        .saturating_add(4)
        .saturating_mul(1024);
    put(image, at, &[0; 1024])?;
    let mut end = at.saturating_add(0x38);
    for attribute in file_record.attributes {
        end = write_attribute(image, end, attribute)?;
    }
    put(image, end, &[0xFF, 0xFF, 0xFF, 0xFF])?;
    write_head(
        image,
        at,
        file_record,
        end.saturating_sub(at).saturating_add(8),
    )
}

/// Writes the head of a record with so many bytes in use, and the check words at the ends of its sectors.
fn write_head(image: &mut [u8], at: usize, file_record: &Record, in_use: usize) -> Option<()> {
    let flags = file_record.flags.to_le_bytes();
    let count = (in_use as u64).to_le_bytes();
    let base = file_record.base.to_le_bytes();
    let number = file_record.number.to_le_bytes();
    patch_from(
        image,
        at,
        &[
            (0x00, b"FILE\x30\x00\x03\x00"),
            (0x10, &[1, 0, 1, 0, 0x38, 0]),
            (0x16, &flags),
            (0x18, &count[..4]),
            (0x1C, &[0, 4, 0, 0]),
            (0x20, &base),
            (0x28, &[1]),
            (0x2C, &number),
            (0x30, &[1]),
            (0x1FE, &[1]),
            (0x3FE, &[1]),
        ],
    )
}

/// Writes records of the small volume.
pub fn write_records(image: &mut [u8], records: &[Record]) -> Option<()> {
    for record in records {
        write_record(image, record)?;
    }
    Some(())
}

/// An image of zeros with these bytes at their places.
pub fn image_of(alloc: Global, len: usize, patches: &[Patch]) -> Option<Vec<u8>> {
    let mut bytes = zeros(alloc, len).ok()?;
    patch(&mut bytes, patches)?;
    Some(bytes)
}

/// The small volume without records. Cluster 49 has bytes `1`, cluster 50 bytes `2`.
pub fn bare_volume(alloc: Global) -> Option<Vec<u8>> {
    let mut bytes = zeros(alloc, 49 * 1024).ok()?;
    bytes.resize(50 * 1024, b'1').ok()?;
    bytes.resize(51 * 1024, b'2').ok()?;
    bytes.resize(SMALL_LEN, 0).ok()?;
    patch(&mut bytes, &SMALL_BOOT)?;
    Some(bytes)
}

/// The small volume with a short text in record 16, and a stream of two runs in record 17.
pub fn small_volume(alloc: Global) -> Option<Vec<u8>> {
    let mut bytes = bare_volume(alloc)?;
    write_records(&mut bytes, &[FIRST, HELLO, TWO_RUNS])?;
    Some(bytes)
}

/// The stream of record 17: the first cluster, six bytes of the second, and zeros.
pub fn two_runs(alloc: Global) -> Result<Vec<u8>, AllocError> {
    let mut bytes = Vec::new(alloc);
    bytes.resize(1024, b'2')?;
    bytes.resize(1030, b'1')?;
    bytes.resize(1500, 0)?;
    Ok(bytes)
}
