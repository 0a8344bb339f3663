//! Damages of records.

use crate::damages::Damage;
use ntfs_base::Rule;

/// Volumes that break rule C4 alone.
pub(crate) const C4: &[Damage] = &[
    Damage {
        name: "C3: number of record 0 is C4's",
        patches: &[
            (12332, &[1, 0, 0, 0, 2]),
            (12798, &[2]),
            (13310, &[2]),
            (49196, &[1, 0, 0, 0, 2]),
            (49662, &[2]),
            (50174, &[2]),
        ],
        rule: Rule::C4,
        number: 0,
    },
    Damage {
        name: "C4: record 1 torn",
        patches: &[(13822, &[119, 119])],
        rule: Rule::C4,
        number: 1,
    },
    Damage {
        name: "C4: empty value past the length",
        patches: &[(16432, &[2]), (16668, &[32]), (16894, &[2]), (17406, &[2])],
        rule: Rule::C4,
        number: 4,
    },
    Damage {
        name: "C4: record 12 BAAD",
        patches: &[(24576, &[66, 65, 65, 68])],
        rule: Rule::C4,
        number: 12,
    },
];

/// Volumes that break rule C5 alone.
pub(crate) const C5: &[Damage] = &[
    Damage {
        name: "C5: bit 0",
        patches: &[
            (12336, &[2]),
            (12798, &[2]),
            (12824, &[254]),
            (13310, &[2]),
            (49200, &[2]),
            (49662, &[2]),
            (49688, &[254]),
            (50174, &[2]),
        ],
        rule: Rule::C5,
        number: 0,
    },
    Damage {
        name: "C5: bits 47 and 1",
        patches: &[
            (12336, &[3]),
            (12798, &[3]),
            (12824, &[253, 15, 255, 31, 255, 127]),
            (13310, &[3]),
            (49200, &[3]),
            (49662, &[3]),
            (49688, &[253, 15, 255, 31, 255, 127]),
            (50174, &[3]),
        ],
        rule: Rule::C5,
        number: 1,
    },
    Damage {
        name: "C5: bit 24",
        patches: &[
            (12336, &[2]),
            (12798, &[2]),
            (12827, &[30]),
            (13310, &[2]),
            (49200, &[2]),
            (49662, &[2]),
            (49691, &[30]),
            (50174, &[2]),
        ],
        rule: Rule::C5,
        number: 24,
    },
    Damage {
        name: "C5: 5 bytes alone",
        patches: &[
            (12336, &[2]),
            (12798, &[2]),
            (12816, &[5]),
            (13310, &[2]),
            (49200, &[2]),
            (49662, &[2]),
            (49680, &[5]),
            (50174, &[2]),
        ],
        rule: Rule::C5,
        number: 40,
    },
];

/// Volumes that break rule C6 alone.
pub(crate) const C6: &[Damage] = &[
    Damage {
        name: "C6: record 0, a name over its value",
        patches: &[
            (12336, &[2]),
            (12353, &[1]),
            (12798, &[2]),
            (13310, &[2]),
            (49200, &[2]),
            (49217, &[1]),
            (49662, &[2]),
            (50174, &[2]),
        ],
        rule: Rule::C6,
        number: 0,
    },
    Damage {
        name: "C6: record 5's allocation begins at 56",
        patches: &[(17456, &[2]), (17754, &[56]), (17918, &[2]), (18430, &[2])],
        rule: Rule::C6,
        number: 5,
    },
    Damage {
        name: "C6: record 8's $Bad passes its pairs",
        patches: &[(20528, &[2]), (20778, &[66]), (20990, &[2]), (21502, &[2])],
        rule: Rule::C6,
        number: 8,
    },
    Damage {
        name: "C6: record 23's root begins at 22",
        patches: &[(35888, &[2]), (36098, &[22]), (36350, &[2]), (36862, &[2])],
        rule: Rule::C6,
        number: 23,
    },
];
