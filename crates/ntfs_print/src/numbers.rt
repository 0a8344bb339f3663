//! Lines of a label and a number.

ghost use Rattle.std.specs.Prelude.{◌≡◌, ◌≤◌, ◌+◌, ◌++◌, length};
ghost use Rattle.ntfs_print.specs.Numbers.{label_text, number_line, serial_line};

use ntfs_base::Line;

/// What a line is about.
#[derive(Clone, Copy)]
pub enum Label {
    SectorSize,
    ClusterSize,
    RecordSize,
    IndexBlockSize,
    Sectors,
    Clusters,
    MftCluster,
    MirrorCluster,
    Serial,
    Owned,
    Bad,
    Free,
}

/// Appends a label and a decimal number, as a line of at most 40 bytes.
pub fn push_number_line(text: &mut Line, label: Label, number: u64)
    requires { length text.old + 40 ≤ 512 }
    ensures value { text.new ≡ text.old ++ number_line label number }
    ensures room { length text.new ≤ length text.old + 40 }
{
    text.push(label_text(label));
    text.push_number(number);
    text.push(b"\n");
}

/// Appends the serial number of a volume in 16 hexadecimal digits, as a line.
pub fn push_serial_line(text: &mut Line, number: u64)
    requires { length text.old + 40 ≤ 512 }
    ensures value { text.new ≡ text.old ++ serial_line number }
    ensures room { length text.new ≤ length text.old + 40 }
{
    text.push(label_text(Label::Serial));
    text.push_hex(&number.to_be_bytes());
    text.push(b"\n");
}

#[tactic(auto, unfolding(crate::specs::Numbers::label_text))]
fn label_text(label: Label) -> &'static [u8]
    ensures value { result.now ≡ label_text label }
    ensures room { length result.now ≤ 18 }
{
    match label {
        Label::SectorSize => b"sector size: ",
        Label::ClusterSize => b"cluster size: ",
        Label::RecordSize => b"record size: ",
        Label::IndexBlockSize => b"index block size: ",
        Label::Sectors => b"sectors: ",
        Label::Clusters => b"clusters: ",
        Label::MftCluster => b"mft cluster: ",
        Label::MirrorCluster => b"mirror cluster: ",
        Label::Serial => b"serial: ",
        Label::Owned => b"owned: ",
        Label::Bad => b"bad: ",
        Label::Free => b"free: ",
    }
}
