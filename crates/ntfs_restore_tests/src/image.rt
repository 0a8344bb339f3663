//! Clone images and what they restore, spelled from the format in words.
use std::alloc::{AllocError, Global};
use std::test::Fail;

/// The fields of a header.
#[derive(Clone, Copy)]
pub struct Header {
    /// Bytes of a cluster.
    pub cluster: u32,
    /// Bytes of the device.
    pub device: u64,
    /// The number of clusters.
    pub clusters: u64,
    /// How many of them are in use.
    pub in_use: u64,
    /// The place of the first command.
    pub offset: u32,
}

/// Four clusters of 512 bytes on a device that has room for five.
pub const SMALL: Header = Header {
    cluster: 512,
    device: 2560,
    clusters: 4,
    in_use: 2,
    offset: 56,
};

impl Header {
    /// So many bytes of the header: it is cut off, or zeros stand behind its fields.
    pub fn spell(&self, alloc: Global, len: usize) -> Result<Vec<u8>, AllocError> {
        let mut bytes = Vec::from_slice(alloc, b"\0ntfsclone-image\x0A\0")?;
        bytes.extend_from_slice(&self.cluster.to_le_bytes())?;
        bytes.extend_from_slice(&self.device.to_le_bytes())?;
        bytes.extend_from_slice(&self.clusters.to_le_bytes())?;
        bytes.extend_from_slice(&self.in_use.to_le_bytes())?;
        bytes.extend_from_slice(&self.offset.to_le_bytes())?;
        bytes.resize(len, 0)?;
        Ok(bytes)
    }
}

/// A piece of a clone image behind its header.
#[derive(Clone, Copy)]
pub enum Piece<'a> {
    /// A gap of so many clusters.
    Gap(u64),
    /// A cluster of one byte throughout.
    Cluster(u8),
    /// The command of a cluster with so many bytes behind it.
    Cut(usize),
    Raw(&'a [u8]),
}

/// Adds a piece whose clusters have so many bytes.
pub fn add_piece(
    alloc: Global,
    bytes: &mut Vec<u8>,
    cluster: usize,
    piece: Piece<'_>,
) -> Result<(), AllocError> {
    match piece {
        Piece::Gap(count) => {
            bytes.push(0)?;
            bytes.extend_from_slice(&count.to_le_bytes())
        }
        Piece::Cluster(byte) => {
            bytes.push(1)?;
            bytes.extend_from_slice(&vec![in alloc; byte; cluster]?)
        }
        Piece::Cut(count) => {
            bytes.push(1)?;
            bytes.extend_from_slice(&vec![in alloc; 0x11; count]?)
        }
        Piece::Raw(raw) => bytes.extend_from_slice(raw),
    }
}

/// A header, zeros up to the place of its first command, and these pieces.
pub fn image_of(
    alloc: Global,
    header: &Header,
    pieces: &[Piece<'_>],
) -> Result<Vec<u8>, AllocError> {
    let mut bytes = header.spell(alloc, header.offset as usize)?;
    for piece in pieces {
        add_piece(alloc, &mut bytes, header.cluster as usize, *piece)?;
    }
    Ok(bytes)
}

/// So many bytes of each of these, in their order.
pub fn runs_of(alloc: Global, runs: &[(usize, u8)]) -> Result<Vec<u8>, AllocError> {
    let mut bytes = Vec::new(alloc);
    for (count, byte) in runs {
        bytes.extend_from_slice(&vec![in alloc; *byte; *count]?)?;
    }
    Ok(bytes)
}

/// The bytes with a text at a place.
pub fn patched(alloc: Global, bytes: &[u8], at: usize, text: &[u8]) -> Result<Vec<u8>, Fail> {
    let (before, rest) = bytes.split_at_checked(at).ok_or("too short")?;
    let (_, behind) = rest.split_at_checked(text.len()).ok_or("too short")?;
    let mut all = Vec::from_slice(alloc, before)?;
    all.extend_from_slice(text)?;
    all.extend_from_slice(behind)?;
    Ok(all)
}
