//! The volumes that `ntfsmake` makes, which of their clusters are owned, and what their clone images have and restore.
use crate::case::run_files;
use crate::image::Header;
use std::alloc::{AllocError, Global};
use std::test::Fail;

/// A volume of a seed below 4.
#[derive(Clone, Copy)]
pub struct Volume<'a> {
    /// The command line that makes it as `v`.
    pub make: [&'a str; 5],
    /// Bytes of a cluster.
    pub cluster: u32,
    /// The number of clusters.
    pub clusters: usize,
    /// Bytes of the device.
    pub device: usize,
    /// How many clusters are owned.
    pub owned: u64,
    /// The cluster that is marked as bad, in the middle.
    pub bad: usize,
    /// The clusters of $Boot.
    pub boot: usize,
    /// Those of $MFT's first part, $MFTMirr, $LogFile, $Bitmap, $UpCase, the root's index and $MFT's second part.
    pub parts: [usize; 7],
    /// Whether the parts behind $Boot follow each other from the end down.
    pub is_downward: bool,
}

/// The clusters of the files, which are the same whatever the bytes of a cluster.
const FILES: [usize; 21] = [
    1, 2, 4, 1, 1, 1, 2, 3, 4, 1, 2, 3, 4, 1, 2, 3, 4, 1, 2, 3, 4,
];

/// 1,024 clusters of 4,096 bytes.
pub const PAGES: Volume = Volume {
    make: ["ntfsmake", "v", "0", "1024", "4096"],
    cluster: 4096,
    clusters: 1024,
    device: 4_194_816,
    owned: 119,
    bad: 512,
    boot: 2,
    parts: [8, 1, 16, 1, 32, 1, 8],
    is_downward: false,
};

/// The same with as many sectors more as a cluster has but one.
pub const ODD_PAGES: Volume = Volume {
    make: ["ntfsmake", "v", "1", "1024", "4096"],
    device: 4_198_400,
    ..PAGES
};

/// The same from the end down.
pub const DOWNWARD_PAGES: Volume = Volume {
    make: ["ntfsmake", "v", "2", "1024", "4096"],
    is_downward: true,
    ..PAGES
};

/// 2,048 clusters of 512 bytes.
pub const SECTORS: Volume = Volume {
    make: ["ntfsmake", "v", "0", "2048", "512"],
    cluster: 512,
    clusters: 2048,
    device: 1_049_088,
    owned: 595,
    bad: 1024,
    boot: 16,
    parts: [64, 8, 128, 1, 256, 8, 64],
    is_downward: false,
};

/// 1,024 clusters of 1,024 bytes.
pub const RECORDS: Volume = Volume {
    make: ["ntfsmake", "v", "0", "1024", "1024"],
    cluster: 1024,
    clusters: 1024,
    device: 1_049_088,
    owned: 323,
    bad: 512,
    boot: 8,
    parts: [32, 4, 64, 1, 128, 4, 32],
    is_downward: false,
};

/// 1,024 clusters of 65,536 bytes.
pub const LARGE: Volume = Volume {
    make: ["ntfsmake", "v", "0", "1024", "65536"],
    cluster: 65_536,
    clusters: 1024,
    device: 67_109_376,
    owned: 59,
    bad: 512,
    boot: 1,
    parts: [1, 1, 1, 1, 2, 1, 1],
    is_downward: false,
};

/// Marks so many clusters from one on as owned.
fn mark(owned: &mut [bool], first: usize, count: usize) {
    for is_owned in owned.iter_mut().skip(first).take(count) {
        *is_owned = true;
    }
}

impl Volume<'_> {
    /// The clusters of the parts behind $Boot, in their order.
    fn lengths(&self, alloc: Global) -> Result<Vec<usize>, AllocError> {
        let mut lengths = Vec::from_slice(alloc, &self.parts)?;
        lengths.extend_from_slice(&FILES)?;
        Ok(lengths)
    }

    /// Which clusters are owned: between two parts stands a free cluster.
    pub fn owners(&self, alloc: Global) -> Result<Vec<bool>, AllocError> {
        let mut owned = vec![in alloc; false; self.clusters]?;
        mark(&mut owned, 0, self.boot);
        mark(&mut owned, self.bad, 1);
        let mut up = self.boot.saturating_add(1);
        let mut down = self.clusters;
        for count in &self.lengths(alloc)? {
            down = down.saturating_sub(*count);
            mark(&mut owned, if self.is_downward { down } else { up }, *count);
            down = down.saturating_sub(1);
            up = up.saturating_add(*count).saturating_add(1);
        }
        Ok(owned)
    }

    /// The bytes of a file with this volume, with one byte throughout the clusters that nobody owns.
    fn with_free(&self, alloc: Global, bytes: &[u8], free: u8) -> Result<Vec<u8>, Fail> {
        let blank = vec![in alloc; free; self.cluster as usize]?;
        let mut all = Vec::new(alloc);
        let mut left = bytes;
        for is_owned in &self.owners(alloc)? {
            let (cluster, rest) = left
                .split_at_checked(self.cluster as usize)
                .ok_or("too short")?;
            all.extend_from_slice(if *is_owned { cluster } else { &blank })?;
            left = rest;
        }
        all.extend_from_slice(left)?;
        Ok(all)
    }

    /// The file that `ntfsmake` makes, with the byte 0x55 in each cluster that nobody owns and behind the device.
    pub fn file(&self, alloc: Global) -> Result<Vec<u8>, Fail> {
        let made = run_files(alloc, &self.make, &[])?;
        let whole = made.shelf.content("v").ok_or("no volume")?;
        let mut bytes = self.with_free(alloc, whole, 0x55)?;
        bytes.truncate(self.device);
        bytes.resize(whole.len(), 0x55)?;
        Ok(bytes)
    }

    /// What a clone of a file with this volume restores: as much as the device has, and zeros where nobody owns.
    pub fn restored(&self, alloc: Global, file: &[u8]) -> Result<Vec<u8>, Fail> {
        let mut bytes = self.with_free(alloc, file, 0)?;
        bytes.truncate(self.device);
        Ok(bytes)
    }

    /// The header of its clone image.
    pub fn header(&self) -> Header {
        Header {
            cluster: self.cluster,
            device: self.device as u64,
            clusters: self.clusters as u64,
            in_use: self.owned,
            offset: 56,
        }
    }

    /// The clone image of a file with this volume without the tail: the header, each owned cluster, and a gap for each
    /// longest row of others.
    pub fn untailed(&self, alloc: Global, file: &[u8]) -> Result<Vec<u8>, Fail> {
        let mut image = self.header().spell(alloc, 56)?;
        let mut left = file;
        let mut gap = 0;
        for is_owned in &self.owners(alloc)? {
            let (cluster, rest) = left
                .split_at_checked(self.cluster as usize)
                .ok_or("too short")?;
            left = rest;
            if *is_owned {
                close_gap(&mut image, gap)?;
                gap = 0;
                image.push(1)?;
                image.extend_from_slice(cluster)?;
            } else {
                gap = one_more(gap);
            }
        }
        close_gap(&mut image, gap)?;
        Ok(image)
    }

    /// The clone image: behind all clusters stands the tail, which is what the device has there, and zeros.
    pub fn clone_image(&self, alloc: Global, file: &[u8]) -> Result<Vec<u8>, Fail> {
        let mut image = self.untailed(alloc, file)?;
        let device = file.get(..self.device).ok_or("too short")?;
        let tail = device
            .get(self.clusters.saturating_mul(self.cluster as usize)..)
            .ok_or("too short")?;
        let mut cluster = Vec::from_slice(alloc, tail)?;
        cluster.resize(self.cluster as usize, 0)?;
        image.push(1)?;
        image.extend_from_slice(&cluster)?;
        Ok(image)
    }
}

fn one_more(count: u64) -> u64 {
    count.saturating_add(1)
}

/// Adds the command of a gap, if it has a cluster.
fn close_gap(image: &mut Vec<u8>, count: u64) -> Result<(), AllocError> {
    if count > 0 {
        image.push(0)?;
        image.extend_from_slice(&count.to_le_bytes())?;
    }
    Ok(())
}
