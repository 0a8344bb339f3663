ghost use Rattle.std.specs.Prelude.{◌≡◌};
ghost use Rattle.ntfs_boot.specs.BootSector.{fields_of};

use byteorder::{ByteOrder, LittleEndian};

/// The fields of a boot sector that tell the geometry, as they stand there. Their places, units and names in the
/// documentation stand at `fields_of`.
#[derive(Clone, Copy)]
pub(crate) struct BootSector {
    pub bytes_per_sector: u16,
    pub sectors_per_cluster: u8,
    pub sectors: u64,
    pub mft: u64,
    pub mirror: u64,
    pub record_code: u8,
    pub block_code: u8,
    pub serial: u64,
}

impl BootSector {
    /// Reads the fields at their places.
    pub fn read(sector: &[u8; 512]) -> BootSector
        ensures { result ≡ fields_of sector.now }
    {
        BootSector {
            bytes_per_sector: LittleEndian::read_u16(&sector[0x0B..]),
            sectors_per_cluster: sector[0x0D],
            sectors: LittleEndian::read_u64(&sector[0x28..]),
            mft: LittleEndian::read_u64(&sector[0x30..]),
            mirror: LittleEndian::read_u64(&sector[0x38..]),
            record_code: sector[0x40],
            block_code: sector[0x44],
            serial: LittleEndian::read_u64(&sector[0x48..]),
        }
    }
}
