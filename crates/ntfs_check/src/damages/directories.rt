//! Damages of directories.

use crate::damages::Damage;
use ntfs_base::Rule;

/// Volumes that break rule C13 alone.
pub(crate) const C13: &[Damage] = &[
    Damage {
        name: "C13: record 0 is no directory",
        patches: &[
            (12310, &[3]),
            (12336, &[2]),
            (12798, &[2]),
            (13310, &[2]),
            (49174, &[3]),
            (49200, &[2]),
            (49662, &[2]),
            (50174, &[2]),
        ],
        rule: Rule::C13,
        number: 0,
    },
    Damage {
        name: "C13: $UpCase puts f behind",
        patches: &[(135372, &[90])],
        rule: Rule::C13,
        number: 5,
    },
    Damage {
        name: "C13: $UpCase has a flag",
        patches: &[(22576, &[2]), (22796, &[1]), (23038, &[2]), (23550, &[2])],
        rule: Rule::C13,
        number: 10,
    },
    Damage {
        name: "C13: record 11's block size",
        patches: &[(23600, &[2]), (23849, &[32]), (24062, &[2]), (24574, &[2])],
        rule: Rule::C13,
        number: 11,
    },
];

/// Volumes that break rule C14 alone.
pub(crate) const C14: &[Damage] = &[
    Damage {
        name: "C14: record 4 as a directory, entry of a dead record",
        patches: &[
            (16406, &[3, 0, 208]),
            (16432, &[3]),
            (
                16672,
                &[
                    144, 0, 0, 0, 168, 0, 0, 0, 0, 4, 24, 0, 0, 0, 9, 0, 136, 0, 0, 0, 32, 0, 0, 0,
                    36, 0, 73, 0, 51, 0, 48, 0, 48, 0, 0, 0, 1, 0, 0, 0, 0, 16, 0, 0, 1, 0, 0, 0,
                    16, 0, 0, 0, 120, 0, 0, 0, 120, 0, 0, 0, 0, 0, 0, 0, 48, 0, 0, 0, 0, 0, 1, 0,
                    88, 0, 68, 0, 0, 0, 0, 0, 4, 0, 0, 0, 0, 0, 1,
                ],
            ),
            (16816, &[1, 3, 120]),
            (16832, &[16, 0, 0, 0, 2, 0, 0, 0, 255, 255, 255, 255]),
            (16894, &[3]),
            (17406, &[3]),
        ],
        rule: Rule::C14,
        number: 4,
    },
    Damage {
        name: "C14: record 16 dead",
        patches: &[(28694, &[0]), (28720, &[2]), (29182, &[2]), (29694, &[2])],
        rule: Rule::C14,
        number: 5,
    },
    Damage {
        name: "C14: record 11, entry of a dead record",
        patches: &[
            (23576, &[176]),
            (23600, &[3]),
            (23812, &[168, 0, 0, 0, 0, 4, 24, 0, 0, 0, 9, 0, 136]),
            (
                23860,
                &[
                    120, 0, 0, 0, 120, 0, 0, 0, 0, 0, 0, 0, 48, 0, 0, 0, 0, 0, 1, 0, 88, 0, 68, 0,
                    0, 0, 0, 0, 11, 0, 0, 0, 0, 0, 1,
                ],
            ),
            (23952, &[1, 3, 120]),
            (23968, &[16, 0, 0, 0, 2, 0, 0, 0, 255, 255, 255, 255]),
            (24062, &[3]),
            (24574, &[3]),
        ],
        rule: Rule::C14,
        number: 11,
    },
    Damage {
        name: "C14: record 23, inner.txt has another parent",
        patches: &[(36912, &[2]), (37040, &[5]), (37374, &[2]), (37886, &[2])],
        rule: Rule::C14,
        number: 23,
    },
];
