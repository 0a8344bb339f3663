//! Clusters that streams begin with, and copies of records.

use crate::cells::Cells;
use crate::mirror::is_copy;
use ntfs_runs::Run;

#[test]
fn rows_of_clusters_begin_streams(rt: HostRuntime) {
    let runs = [
        Run {
            length: 2,
            lcn: Some(4),
        },
        Run {
            length: 1,
            lcn: None,
        },
    ];
    assert!(rt; Cells::new(&runs).begin_with_row(4, 2));
    assert!(rt; !Cells::new(&runs).begin_with_row(4, 3));
    assert!(rt; !Cells::new(&runs).begin_with_row(5, 1));
}

#[test]
fn copies_are_compared_in_use_alone(rt: HostRuntime) {
    let mut block = [0u8; 64];
    block[0x04] = 0x30;
    block[0x06] = 3;
    block[0x18] = 60;
    let mut copy = block;
    copy[0x31] = 9;
    copy[60] = 9;
    assert!(rt; is_copy(&block, &copy));
    copy[59] = 9;
    assert!(rt; !is_copy(&block, &copy));
}
