ghost use Rattle.std.specs.Prelude.{◌≡◌, ◌+◌, ◌≤◌, ◌<◌, length, IfOk, vec_len};
ghost use Rattle.ntfs_fixup.specs.Fixups.{HasWholeStrides};

use crate::header::{has_good_array, has_magic, word_at};
use crate::laws::{any_good_array_is_taken, unfix_accepts_refixed, unfix_after_refix};
use crate::{FixFault, Magic, refix, unfix};
use byteorder::{ByteOrder, LittleEndian};
use std::alloc::{AllocError, Global};
use std::process::Abort;
use std::test::Fail;

fn put(block: &mut [u8], place: usize, word: u16)
    requires { place + 2 ≤ length block.old }
{
    LittleEndian::write_u16(&mut block[place..], word);
}

// Writes the front of a block of zeros: its magic, and where the array lies and how many words it has.
fn begin(block: &mut [u8], magic: Magic, offset: u16, count: u16)
    requires { HasWholeStrides block.old }
{
    block[..4].copy_from_slice(match magic {
        Magic::File => b"FILE",
        Magic::Indx => b"INDX",
    });
    put(block, 4, offset);
    put(block, 6, count);
}

// A block of two strides with these ends, whose array at `offset` has the number 5 and the saved words 0xBBAA and
// 0xDDCC.
fn two_strides(magic: Magic, offset: u16, count: u16, ends: [u16; 2]) -> [u8; 1024]
    requires { offset < 1000 }
{
    let mut block = [0; 1024];
    begin(&mut block, magic, offset, count);
    let at = usize::from(offset);
    put(&mut block, at, 5);
    put(&mut block, at + 2, 0xBBAA);
    put(&mut block, at + 4, 0xDDCC);
    put(&mut block, 510, ends[0]);
    put(&mut block, 1022, ends[1]);
    block
}

#[test]
fn a_whole_block_gets_its_saved_words(rt: HostRuntime) {
    let mut block = two_strides(Magic::File, 0x30, 3, [5, 5]);
    let mut want = block;
    put(&mut want, 510, 0xBBAA);
    put(&mut want, 1022, 0xDDCC);
    assert_eq!(rt; unfix(&mut block, Magic::File), Ok(()));
    assert_eq!(rt; block, want);
}

#[test]
fn a_torn_block_stays(rt: HostRuntime) {
    for (ends, stride) in [([5, 4], 1), ([4, 5], 0), ([4, 4], 0), ([5, 0x0105], 1)] {
        let mut block = two_strides(Magic::File, 0x30, 3, ends);
        let before = block;
        assert_eq!(rt;
            unfix(&mut block, Magic::File),
            Err(FixFault::Torn { stride })
        );
        assert_eq!(rt; block, before);
    }
}

#[test]
fn an_array_is_good_or_refused(rt: HostRuntime) {
    let bad = Err(FixFault::BadArray);
    for (name, magic, offset, count, want) in [
        ("least for FILE", Magic::File, 0x2A, 3, Ok(())),
        ("too low for FILE", Magic::File, 0x28, 3, bad),
        ("least for INDX", Magic::Indx, 0x28, 3, Ok(())),
        ("too low for INDX", Magic::Indx, 0x26, 3, bad),
        ("odd", Magic::File, 0x31, 3, bad),
        ("a word too few", Magic::File, 0x30, 2, bad),
        ("a word too many", Magic::File, 0x30, 4, bad),
        ("ends at 510", Magic::File, 504, 3, Ok(())),
        ("ends at 512", Magic::File, 506, 3, bad),
    ] {
        assert!(rt; offset < 1000);
        let mut block = two_strides(magic, offset, count, [5, 5]);
        let before = block;
        assert_eq!(rt; unfix(&mut block, magic), want, "{name}");
        assert_eq!(rt; block == before, want.is_err(), "{name}");
    }
}

#[test]
fn the_magic_comes_first(rt: HostRuntime) {
    let mut block = two_strides(Magic::Indx, 0x31, 9, [4, 4]);
    assert_eq!(rt; unfix(&mut block, Magic::File), Err(FixFault::NoMagic));
    let mut block = two_strides(Magic::File, 0x31, 9, [4, 4]);
    assert_eq!(rt; unfix(&mut block, Magic::Indx), Err(FixFault::NoMagic));
}

#[test]
fn the_next_number_is_neither_0_nor_0xffff(rt: HostRuntime) {
    for (number, next) in [
        (0xFFFE, 1),
        (0xFFFF, 1),
        (0xFFFD, 0xFFFE),
        (5, 6),
        (0, 1),
        (0x00FF, 0x0100),
    ] {
        let mut block = two_strides(Magic::File, 0x30, 3, [0x2211, 0x4433]);
        put(&mut block, 0x30, number);
        assert!(rt; has_good_array(&block, Magic::Indx));
        refix(&mut block);
        for (place, word) in [
            (0x30, next),
            (0x32, 0x2211),
            (0x34, 0x4433),
            (510, next),
            (1022, next),
        ] {
            assert!(rt; place <= 1022);
            assert_eq!(rt; word_at(&block, place), word);
        }
    }
}

// A block of zeros.
fn zeros(alloc: Global, len: usize) -> Result<Vec<u8>, AllocError>
    ensures { IfOk result (λ v. vec_len v ≡ len) }
{
    vec![in alloc; 0; len]
}

// Whether two blocks agree before `first` and from `end` on.
fn is_same_outside(a: &[u8], b: &[u8], first: usize, end: usize) -> bool
    requires { length a.now ≡ length b.now }
{
    for (i, byte) in a.iter().enumerate() {
        if (i < first || end <= i) && *byte != b[i] {
            return false;
        }
    }
    true
}

// Fills a block, refixes and unfixes it, and compares all bytes outside the array.
fn round_trip(rt: &impl Abort, block: &mut [u8], before: &mut [u8], magic: Magic)
    requires block { HasWholeStrides block.old }
    requires before { length before.old ≡ length block.old }
{
    for i in 0..block.len() {
        block[i] = (i % 251) as u8;
    }
    let count = 1 + block.len() / 512;
    begin(block, magic, 0x30, count as u16);
    before.copy_from_slice(block);
    assert!(rt; has_magic(block, magic) && has_good_array(block, magic));
    unfix_accepts_refixed(block, magic);
    any_good_array_is_taken(block, magic);
    unfix_after_refix(block);
    refix(block);
    assert!(rt; word_at(block, 0x30) == word_at(block, 510));
    assert!(rt; unfix(block, magic) == Ok(()));
    assert!(rt; is_same_outside(block, before, 0x30, 0x30 + 2 * count));
}

#[test]
fn blocks_of_three_sizes_come_back(rt: HostRuntime) -> Result<(), Fail> {
    for len in [1_024, 4_096, 65_536] {
        assert!(rt; len % 512 == 0 && 1_024 <= len && len <= 65_536);
        let mut block = zeros(rt.alloc(), len)?;
        let mut before = zeros(rt.alloc(), len)?;
        round_trip(&rt, &mut block, &mut before, Magic::File);
        round_trip(&rt, &mut block, &mut before, Magic::Indx);
    }
    Ok(())
}
