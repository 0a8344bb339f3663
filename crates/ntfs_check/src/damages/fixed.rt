//! Damages of the records with fixed numbers.

use crate::damages::Damage;
use ntfs_base::Rule;

/// Volumes that break rule C15 alone.
pub(crate) const C15: &[Damage] = &[
    Damage {
        name: "C15: record 0, boot sector at the mirror",
        patches: &[(48, &[12])],
        rule: Rule::C15,
        number: 0,
    },
    Damage {
        name: "C15: record 1, first LCN",
        patches: &[(56, &[13])],
        rule: Rule::C15,
        number: 1,
    },
    Damage {
        name: "C15: record 2, flag",
        patches: &[
            (14384, &[2]),
            (14613, &[64]),
            (14846, &[2]),
            (15358, &[2]),
            (51248, &[2]),
            (51477, &[64]),
            (51710, &[2]),
            (52222, &[2]),
        ],
        rule: Rule::C15,
        number: 2,
    },
    Damage {
        name: "C15: record 3, 11 bytes",
        patches: &[
            (15408, &[2]),
            (15632, &[11]),
            (15870, &[2]),
            (16382, &[2]),
            (52272, &[2]),
            (52496, &[11]),
            (52734, &[2]),
            (53246, &[2]),
        ],
        rule: Rule::C15,
        number: 3,
    },
];

/// Volumes that break rule C16 alone.
pub(crate) const C16: &[Damage] = &[
    Damage {
        name: "C16: mirror 0, a byte",
        patches: &[(49160, &[1])],
        rule: Rule::C16,
        number: 0,
    },
    Damage {
        name: "C16: mirror 1, a byte",
        patches: &[(50184, &[1])],
        rule: Rule::C16,
        number: 1,
    },
    Damage {
        name: "C16: mirror 2, a byte",
        patches: &[(51208, &[1])],
        rule: Rule::C16,
        number: 2,
    },
    Damage {
        name: "C16: mirror 3, a byte",
        patches: &[(52232, &[1])],
        rule: Rule::C16,
        number: 3,
    },
];
