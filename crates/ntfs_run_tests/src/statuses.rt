//! Statuses in few words.
use ntfs_base::{Lack, Missing, Named, Rule, UsageKind};
use ntfs_run::Status;

pub const TOOL: Status = Status::Usage {
    kind: UsageKind::Tool,
};

pub const LINE: Status = Status::Usage {
    kind: UsageKind::Line,
};

pub const COMBINATION: Status = Status::Usage {
    kind: UsageKind::Combination,
};

pub const NUMBER: Status = Status::Usage {
    kind: UsageKind::Number,
};

pub const NO_IMAGE: Status = Status::Absent { file: Named::Image };

pub const OUTPUT_THERE: Status = Status::Present {
    file: Named::Output,
};

pub fn bad_geometry(field: u8, value: u64) -> Status {
    Status::BadGeometry { field, value }
}

pub fn image_short(len: u64, need: u64) -> Status {
    Status::ImageShort { len, need }
}

pub fn damage_of(rule: Rule, number: u64) -> Status {
    Status::Damaged { rule, number }
}

pub fn no_record(number: u64) -> Status {
    Status::NotFound {
        what: Missing::Record { number },
    }
}

pub fn not_plain(flags: u16) -> Status {
    Status::NotPlain { flags }
}

pub fn guarded_refusal(number: u64, kind: u32) -> Status {
    Status::Guarded { number, kind }
}

pub fn no_geometry(lack: Lack) -> Status {
    Status::ShortGeometry {
        lack,
        have: 4_198_400,
        need: 5_000_000,
    }
}
