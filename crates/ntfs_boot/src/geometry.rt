ghost use Rattle.std.specs.Prelude.{◌≡◌, ◌<◌, ◌^◌, ◌≤◌, ◌+◌, ◌%◌, IfOk, IfErr, OnOk, OnErr, true, false};
ghost use Rattle.std.specs.Str.{bytes_eq};
ghost use Rattle.ntfs_base.specs.Bytes.{clusters_for};
ghost use Rattle.ntfs_boot.specs.BootSector.{oem_id_of, ntfs_id};
ghost use Rattle.ntfs_boot.specs.Geometry.{IsBootRefusal, IsGood, boot_geometry, coded_size};
ghost use Rattle.ntfs_boot.specs.Geometry.{is_block_size, is_cluster_count, is_record_size, is_sector_count, is_sector_size};
ghost use Rattle.ntfs_boot.specs.Geometry.{lies_within, sector_geometry};

use crate::boot_sector::BootSector;

/// The geometry of a volume.
#[derive(Clone, Copy, Debug, PartialEq, Eq)]
pub struct Geometry {
    /// Bytes of a sector.
    pub sector: u32,
    /// Bytes of a cluster.
    pub cluster: u32,
    /// Bytes of a file record.
    pub record_size: u32,
    /// Bytes of an index block.
    pub block: u32,
    /// The number of sectors, without the backup boot sector.
    pub sectors: u64,
    /// The number of clusters.
    pub clusters: u64,
    /// The first cluster of $MFT.
    pub mft: u64,
    /// The first cluster of $MFTMirr.
    pub mirror: u64,
    /// The serial number of the volume.
    pub serial: u64,
}

/// Why a boot sector gives no geometry.
#[derive(Clone, Copy, Debug, PartialEq, Eq)]
pub enum BootFault {
    /// The eight bytes from 3 on aren't `NTFS` and four spaces.
    NotNtfs,
    /// The first field, of eight in their order, that is wrong, and its value: 1 `bytes_per_sector`,
    /// 2 `sectors_per_cluster`, 3 the bytes of a cluster, 4 `clusters_per_mft_record`, 5 `clusters_per_index_record`,
    /// 6 `number_of_sectors`, 7 `mft_lcn`, 8 `mftmirr_lcn`.
    BadGeometry { field: u8, value: u64 },
}

/// Reads the geometry of a volume from the first 512 bytes of its image.
///
/// The fields are those of the boot sector as the Linux-NTFS documentation has them under "$Boot". A sector has 512 to
/// 4,096 bytes, a cluster at most 65,536, a record 1,024 to 4,096 and an index block 1,024 to 65,536; there are 1 to
/// 2^32 - 1 clusters, and the first record and the first four of the mirror lie among them.
#[tactic(auto, unfolding(crate::specs::Geometry::sector_geometry))]
pub fn read_geometry(sector: &[u8; 512]) -> Result<Geometry, BootFault>
    ensures exact { result ≡ sector_geometry sector.now }
    ensures good { IfOk result IsGood }
    ensures refuses { IfErr result IsBootRefusal }
{
    if !says_ntfs(sector) {
        return Err(BootFault::NotNtfs);
    }
    geometry_of(&BootSector::read(sector))
}

#[tactic(auto, unfolding(crate::specs::BootSector::oem_id_of))]
fn says_ntfs(sector: &[u8; 512]) -> bool
    ensures { result ≡ bytes_eq (oem_id_of sector.now) ntfs_id }
{
    sector[3..11] == b"NTFS    "[..]
}

/// The geometry of good fields, or the first that is wrong.
#[tactic(auto, unfolding(crate::specs::Geometry::boot_geometry))]
fn geometry_of(b: &BootSector) -> Result<Geometry, BootFault>
    ensures exact { result ≡ boot_geometry b.now }
    ensures good { IfOk result IsGood }
{
    let sector = u32::from(b.bytes_per_sector);
    must(is_sector_size(sector), 1, u64::from(sector))?;
    let count = u32::from(b.sectors_per_cluster);
    must(is_sector_count(count), 2, u64::from(count))?;
    let cluster = sector * count;
    must(cluster <= 65_536, 3, u64::from(cluster))?;
    let record_size = coded_size(b.record_code, cluster);
    must(is_record_size(record_size), 4, u64::from(b.record_code))?;
    let block = coded_size(b.block_code, cluster);
    must(is_block_size(block), 5, u64::from(b.block_code))?;
    let clusters = b.sectors / u64::from(b.sectors_per_cluster);
    must(is_cluster_count(clusters), 6, b.sectors)?;
    must(lies_within(b.mft, record_size, cluster, clusters), 7, b.mft)?;
    must(
        lies_within(b.mirror, 4 * record_size, cluster, clusters),
        8,
        b.mirror,
    )?;
    Ok(Geometry {
        sector,
        cluster,
        record_size,
        block,
        sectors: b.sectors,
        clusters,
        mft: b.mft,
        mirror: b.mirror,
        serial: b.serial,
    })
}

/// Refuses the value of a field where it isn't right.
fn must(is_right: bool, field: u8, value: u64) -> Result<(), BootFault>
    ensures right { OnOk result (is_right ≡ true) }
    ensures wrong { OnErr result (is_right ≡ false) }
    ensures refuses { IfErr result (λ fault. fault ≡ BootFault.BadGeometry field value) }
{
    if is_right {
        Ok(())
    } else {
        Err(BootFault::BadGeometry { field, value })
    }
}

#[tactic(auto, unfolding(crate::specs::Geometry::is_sector_size))]
fn is_sector_size(bytes: u32) -> bool
    ensures value { result ≡ is_sector_size bytes }
    ensures least { result ≡ true → 512 ≤ bytes }
    ensures most { result ≡ true → bytes ≤ 4096 }
{
    bytes == 512 || bytes == 1024 || bytes == 2048 || bytes == 4096
}

#[tactic(auto, unfolding(crate::specs::Geometry::is_sector_count))]
fn is_sector_count(count: u32) -> bool
    ensures value { result ≡ is_sector_count count }
    ensures least { result ≡ true → 1 ≤ count }
    ensures most { result ≡ true → count ≤ 128 }
{
    count == 1
        || count == 2
        || count == 4
        || count == 8
        || count == 16
        || count == 32
        || count == 64
        || count == 128
}

#[tactic(auto, unfolding(crate::specs::Geometry::is_cluster_count))]
fn is_cluster_count(count: u64) -> bool
    ensures value { result ≡ is_cluster_count count }
    ensures least { result ≡ true → 0 < count }
    ensures most { result ≡ true → count < 2 ^ 32 }
{
    0 < count && count < 1 << 32
}

#[tactic(auto, unfolding(crate::specs::Geometry::lies_within, ntfs_base::specs::Bytes::clusters_for))]
fn lies_within(first: u64, bytes: u32, cluster: u32, clusters: u64) -> bool
    requires cluster { (512 ≤ cluster) × (cluster ≤ 65536) }
    requires bytes { bytes ≤ 65536 }
    ensures value { result ≡ lies_within first bytes cluster clusters }
    ensures within { result ≡ true → first + clusters_for bytes cluster ≤ clusters }
{
    let need = u64::from((bytes + (cluster - 1)) / cluster);
    need <= clusters && first <= clusters - need
}

/// The size that a signed byte tells, or 0 for one of 2^32 bytes or more.
#[tactic(auto, unfolding(crate::specs::Geometry::coded_size))]
fn coded_size(code: u8, cluster: u32) -> u32
    requires { cluster ≤ 65536 }
    ensures { result ≡ coded_size code cluster }
{
    if code < 128 {
        u32::from(code) * cluster
    } else if code > 224 {
        1 << (256 - u32::from(code))
    } else {
        0
    }
}

#[tactic(auto, unfolding(crate::specs::Geometry::is_block_size))]
fn is_block_size(bytes: u32) -> bool
    ensures value { result ≡ is_block_size bytes }
    ensures least { result ≡ true → 1024 ≤ bytes }
    ensures most { result ≡ true → bytes ≤ 65536 }
    ensures strides { result ≡ true → bytes % 512 ≡ 0 }
{
    bytes == 1024
        || bytes == 2048
        || bytes == 4096
        || bytes == 8192
        || bytes == 16384
        || bytes == 32768
        || bytes == 65536
}

#[tactic(auto, unfolding(crate::specs::Geometry::is_record_size))]
fn is_record_size(bytes: u32) -> bool
    ensures value { result ≡ is_record_size bytes }
    ensures least { result ≡ true → 1024 ≤ bytes }
    ensures most { result ≡ true → bytes ≤ 4096 }
    ensures strides { result ≡ true → bytes % 512 ≡ 0 }
{
    bytes == 1024 || bytes == 2048 || bytes == 4096
}
