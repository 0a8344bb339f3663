//! `ntfsls` over a volume that `ntfsmake` makes.
use crate::case::{Case, Image, all_follow};
use crate::statuses::NO_IMAGE;
use ntfs_base::{MemShelf, Missing};
use ntfs_run::Status;
use std::test::Fail;

const MAKE: [&str; 5] = ["ntfsmake", "v", "0", "1024", "4096"];

/// The names behind those that begin with a capital.
const FILES: &str =
    "empty.bin\nfile00\nfile01\nfile02\nfile03\nfile04\nfile05\nfile06\nfile07\nfile08\nfile09\n\
    file10\nfile11\nfile12\nfile13\nfile14\nfile15\nhalf.bin\nlisted.bin\n";

const LAST: &str = "packed.bin\nresident.txt\nsparse.bin\n";

fn no_part(index: u64) -> Status {
    Status::NotFound {
        what: Missing::Part { index },
    }
}

#[test]
fn the_root_is_listed(rt: HostRuntime) -> Result<(), Fail> {
    let alloc = rt.alloc();
    let mut shelf = MemShelf::new(alloc);
    let empty = Image::of(0);
    let plain = format!(in alloc; ".\nDir\n{FILES}long name.txt\n{LAST}")?;
    let dos = format!(in alloc; ".\nDir\n{FILES}LONGNA~1.TXT\n{LAST}")?;
    let all = format!(in alloc; ".\nA.txt\na.txt\nDir\n{FILES}long name.txt\n{LAST}")?;
    let below = format!(in alloc; ".\nDir\nDir/inner.txt\n{FILES}long name.txt\n{LAST}")?;
    let marked = format!(in alloc; "./\nDir/\n{FILES}long name.txt\n{LAST}")?;
    let system = format!(in alloc;
        "$AttrDef\n$BadClus\n$Bitmap\n$Boot\n$Extend\n$LogFile\n$MFT\n$MFTMirr\n$Secure\n$UpCase\n$Volume\n{plain}"
    )?;
    let list = Case::puts(&["ntfsls", "v"], empty, plain.as_bytes());
    let cases = [
        Case::puts(&MAKE, empty, b""),
        list,
        list.with_words(&["ntfsls", "-p", "/", "v"]),
        list.with_words(&["ntfsls", "v", "--path="]),
        list.with_output(dos.as_bytes())
            .with_words(&["ntfsls", "-x", "v"]),
        list.with_output(all.as_bytes())
            .with_words(&["ntfsls", "--all", "v"]),
        list.with_output(below.as_bytes())
            .with_words(&["ntfsls", "-R", "v"]),
        list.with_output(marked.as_bytes())
            .with_words(&["ntfsls", "-F", "v"]),
        list.with_output(system.as_bytes())
            .with_words(&["ntfsls", "-s", "v"]),
    ];
    all_follow(&rt, alloc, &mut shelf, &cases)
}

#[test]
fn a_directory_is_listed_by_its_path(rt: HostRuntime) -> Result<(), Fail> {
    let alloc = rt.alloc();
    let mut shelf = MemShelf::new(alloc);
    let empty = Image::of(0);
    let list = Case::puts(&[], empty, b"inner.txt\n");
    let missing = Case::refuses(
        &[],
        empty,
        no_part(0),
        7,
        "ntfsls: not found: path part 0\n",
    );
    let file = missing.with_refusal(no_part(1), "ntfsls: not found: path part 1\n");
    let cases = [
        Case::puts(&MAKE, empty, b""),
        list.with_words(&["ntfsls", "-p", "/Dir", "v"]),
        list.with_words(&["ntfsls", "-pdir", "v"]),
        list.with_output(b"24 inner.txt\n")
            .with_words(&["ntfsls", "-iR", "-p", "/Dir/", "v"]),
        missing.with_words(&["ntfsls", "-p", "/none", "v"]),
        file.with_words(&["ntfsls", "-p", "/resident.txt", "v"]),
        file.with_words(&["ntfsls", "-p", "/Dir/none", "v"]),
        Case::refuses(
            &["ntfsls", "w"],
            empty,
            NO_IMAGE,
            2,
            "ntfsls: no such file: w\n",
        ),
    ];
    all_follow(&rt, alloc, &mut shelf, &cases)
}
