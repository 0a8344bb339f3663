//! The boot sector.

ghost use Rattle.std.specs.Prelude.{◌≡◌, ◌++◌, ◌≤◌, OnOk, IfOk};
ghost use Rattle.ntfs_make.specs.Boot as spec;

use crate::field::{Field, put_fields};
use crate::layout::Layout;
use crate::shape::{Shape, sectors};
use std::alloc::{AllocError, Global};

// Puts the fields up to the number of sectors.
#[tactic(auto, unfolding(crate::specs::Boot::boot_front))]
fn put_front(out: &mut Vec<u8>, shape: &Shape) -> Result<(), AllocError>
    ensures { OnOk result (out.new.items ≡ out.old.items ++ spec.boot_front shape.now) }
{
    put_fields(
        out,
        &[
            Field::U8(0xEB), // 0x00 jump
            Field::U8(0x52),
            Field::U8(0x90),
            Field::U64(0x2020_2020_5346_544E), // 0x03 oem_id, `NTFS` and four spaces
            Field::U16(512), // 0x0B bytes_per_sector
            Field::U8(shape.cluster / 512), // 0x0D sectors_per_cluster
            Field::Zeros(0x28 - 0x0E),
        ],
    )
}

// The boot sector.
#[tactic(auto, unfolding(crate::specs::Boot::boot_sector))]
pub(crate) fn boot_sector(alloc: Global, layout: &Layout) -> Result<Vec<u8>, AllocError>
    ensures { IfOk result (λ bytes. bytes.items ≡ spec.boot_sector layout.now) }
{
    let shape = layout.shape();
    let mut bytes = Vec::new(alloc);
    put_front(&mut bytes, &shape)?;
    put_fields(
        &mut bytes,
        &[
            Field::U64(sectors(&shape)), // 0x28 number_of_sectors
            Field::U64(layout.area(1).start), // 0x30 mft_lcn
            Field::U64(layout.area(2).start), // 0x38 mftmirr_lcn
            Field::U8(0xF6), // 0x40 clusters_per_mft_record, the code of 1,024 bytes
            Field::Zeros(3),
            Field::U8(0xF4), // 0x44 clusters_per_index_record, the code of 4,096 bytes
            Field::Zeros(3),
            Field::U64(shape.seed), // 0x48 volume_serial_number
            Field::Zeros(0x1FE - 0x50),
            Field::U8(0x55), // 0x1FE end_of_sector_marker
            Field::U8(0xAA),
        ],
    )?;
    Ok(bytes)
}
