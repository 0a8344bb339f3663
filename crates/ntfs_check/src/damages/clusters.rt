//! Damages of clusters and their owners.

use crate::damages::Damage;
use ntfs_base::Rule;

/// Volumes that break rule C7 alone.
pub(crate) const C7: &[Damage] = &[
    Damage {
        name: "C7: record 0, a further attribute too long",
        patches: &[
            (12312, &[112]),
            (12336, &[2]),
            (12798, &[2]),
            (
                12832,
                &[
                    0, 1, 0, 0, 72, 0, 0, 0, 1, 0, 64, 0, 0, 0, 9, 0, 0, 0, 0, 0, 0, 0, 0, 0, 1, 0,
                    0, 0, 0, 0, 0, 0, 64,
                ],
            ),
            (12896, &[33, 1, 44, 1, 0, 0, 0, 0, 255, 255, 255, 255]),
            (13310, &[2]),
            (49176, &[112]),
            (49200, &[2]),
            (49662, &[2]),
            (
                49696,
                &[
                    0, 1, 0, 0, 72, 0, 0, 0, 1, 0, 64, 0, 0, 0, 9, 0, 0, 0, 0, 0, 0, 0, 0, 0, 1, 0,
                    0, 0, 0, 0, 0, 0, 64,
                ],
            ),
            (49760, &[33, 1, 44, 1, 0, 0, 0, 0, 255, 255, 255, 255]),
            (50174, &[2]),
        ],
        rule: Rule::C7,
        number: 0,
    },
    Damage {
        name: "C7: record 1, pairs cover too few",
        patches: &[
            (13360, &[2]),
            (13600, &[1]),
            (13822, &[2]),
            (14334, &[2]),
            (50224, &[2]),
            (50464, &[1]),
            (50686, &[2]),
            (51198, &[2]),
        ],
        rule: Rule::C7,
        number: 1,
    },
    Damage {
        name: "C7: record 2, pairs cover too many",
        patches: &[
            (14384, &[2]),
            (14624, &[14]),
            (14846, &[2]),
            (15358, &[2]),
            (51248, &[2]),
            (51488, &[14]),
            (51710, &[2]),
            (52222, &[2]),
        ],
        rule: Rule::C7,
        number: 2,
    },
    Damage {
        name: "C7: pairs offset at the end",
        patches: &[(29744, &[2]), (29992, &[72]), (30206, &[2]), (30718, &[2])],
        rule: Rule::C7,
        number: 17,
    },
];

/// Volumes that break rule C8 alone.
pub(crate) const C8: &[Damage] = &[
    Damage {
        name: "C8: record 0 within itself",
        patches: &[
            (12312, &[112]),
            (12336, &[2]),
            (12798, &[2]),
            (12832, &[0, 1, 0, 0, 72, 0, 0, 0, 1, 0, 64, 0, 0, 0, 9]),
            (12864, &[64]),
            (12896, &[17, 1, 3, 0, 0, 0, 0, 0, 255, 255, 255, 255]),
            (13310, &[2]),
            (49176, &[112]),
            (49200, &[2]),
            (49662, &[2]),
            (49696, &[0, 1, 0, 0, 72, 0, 0, 0, 1, 0, 64, 0, 0, 0, 9]),
            (49728, &[64]),
            (49760, &[17, 1, 3, 0, 0, 0, 0, 0, 255, 255, 255, 255]),
            (50174, &[2]),
        ],
        rule: Rule::C8,
        number: 0,
    },
    Damage {
        name: "C8: $Bad over the mirror",
        patches: &[
            (20528, &[2]),
            (20840, &[1, 12, 17, 1, 12, 2, 243, 3, 0, 0]),
            (20990, &[2]),
            (21502, &[2]),
        ],
        rule: Rule::C8,
        number: 8,
    },
    Damage {
        name: "C8: extension 22 with record 21's cluster",
        patches: &[(34864, &[2]), (34938, &[87]), (35326, &[2]), (35838, &[2])],
        rule: Rule::C8,
        number: 22,
    },
    Damage {
        name: "C8: last of file00's and first of $Boot",
        patches: &[
            (278576, &[2]),
            (278850, &[1]),
            (279038, &[2]),
            (279550, &[2]),
        ],
        rule: Rule::C8,
        number: 32,
    },
];

/// Volumes that break rule C9 alone.
pub(crate) const C9: &[Damage] = &[
    Damage {
        name: "C9: bit 127, last of a word",
        patches: &[(126991, &[246])],
        rule: Rule::C9,
        number: 6,
    },
    Damage {
        name: "C9: bit 128, first of a word",
        patches: &[(126992, &[174])],
        rule: Rule::C9,
        number: 6,
    },
    Damage {
        name: "C9: bit 2",
        patches: &[(126976, &[255])],
        rule: Rule::C9,
        number: 6,
    },
    Damage {
        name: "C9: bit 63, last of a word",
        patches: &[(126983, &[127])],
        rule: Rule::C9,
        number: 6,
    },
];
