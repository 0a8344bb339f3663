// The table below maps some units as Unicode's simple upper-case mappings do, and each other unit to itself. The
// units and bytes of the texts are Unicode's; the broken text is the example of Rust's `String::from_utf16_lossy`.
ghost use Rattle.std.specs.Prelude.{◌≡◌, vec_len, IfOk};

use crate::{UpCase, text_of, units_of};
use std::alloc::{AllocError, Global};
use std::cmp::Ordering;
use std::process::Abort;
use std::test::Fail;

fn upper(unit: u16) -> u16 {
    match unit {
        0x61..=0x7A => unit - 0x20,
        0xE9 => 0xC9,
        0xFF => 0x178,
        0x430 => 0x410,
        _ => unit,
    }
}

fn table_bytes(alloc: Global) -> Result<Vec<u8>, AllocError>
    ensures { IfOk result (λ table. vec_len table ≡ 131072) }
{
    let mut table = Vec::new(alloc);
    'units: for unit in 0..0x1_0000u32 {
        table.extend_from_slice(&upper(unit as u16).to_le_bytes())?;
    }
    Ok(table)
}

fn up_case(alloc: Global) -> Result<UpCase, AllocError> {
    let bytes = table_bytes(alloc)?;
    UpCase::from_bytes(alloc, &bytes)
}

#[test]
fn names_are_ordered_unit_by_unit(rt: HostRuntime) -> Result<(), Fail> {
    let table = up_case(rt.alloc())?;
    for (first, second, order) in [
        ("", "", Ordering::Equal),
        ("", "a", Ordering::Less),
        ("a", "", Ordering::Greater),
        ("report", "REPORT", Ordering::Equal),
        ("report.txt", "REPORT.txu", Ordering::Less),
        ("report", "Report 2", Ordering::Less),
        ("Report 2", "report", Ordering::Greater),
        ("B", "a", Ordering::Greater),
        ("_", "a", Ordering::Greater),
        ("ÿ", "Ÿ", Ordering::Equal),
        ("café", "CAFÉ", Ordering::Equal),
        ("þ", "Ā", Ordering::Less),
        ("\u{430}", "\u{410}", Ordering::Equal),
        ("𐐀", "\u{E000}", Ordering::Less),
        ("𐐨", "𐐀", Ordering::Greater),
        ("𐐀", "𐐀a", Ordering::Less),
    ] {
        let a = units_of(rt.alloc(), first)?;
        let b = units_of(rt.alloc(), second)?;
        assert_eq!(rt; table.collate(&a, &b), order, "{first} and {second}");
        assert_eq!(rt;
            table.same_name(&a, &b),
            order.is_eq(),
            "{first} and {second}"
        );
    }
    Ok(())
}

#[test]
fn lone_surrogates_are_ordered_too(rt: HostRuntime) -> Result<(), Fail> {
    let table = up_case(rt.alloc())?;
    let high: &[u8] = &[0x61, 0, 0x34, 0xD8];
    let low: &[u8] = &[0x41, 0, 0x1E, 0xDD];
    assert_eq!(rt; table.collate(high, low), Ordering::Less);
    assert_eq!(rt; table.collate(low, high), Ordering::Greater);
    assert!(rt; table.same_name(low, &[0x61, 0, 0x1E, 0xDD]));
    assert!(rt; !table.same_name(high, low));
    Ok(())
}

#[test]
fn a_text_is_written_in_units(rt: HostRuntime) -> Result<(), Fail> {
    let name = units_of(rt.alloc(), "aé€𝄞")?;
    let units: &[u8] = &[0x61, 0, 0xE9, 0, 0xAC, 0x20, 0x34, 0xD8, 0x1E, 0xDD];
    assert_eq!(rt; name.as_slice(), units);
    let text = text_of(rt.alloc(), &name)?;
    assert_eq!(rt; text.as_str(), "aé€𝄞");
    let none = units_of(rt.alloc(), "")?;
    assert!(rt; none.is_empty());
    Ok(())
}

#[test]
fn a_lone_surrogate_is_replaced(rt: HostRuntime) -> Result<(), Fail> {
    let name: &[u8] = &[
        0x34, 0xD8, 0x1E, 0xDD, 0x6D, 0, 0x75, 0, 0x73, 0, 0x1E, 0xDD, 0x69, 0, 0x63, 0, 0x34, 0xD8,
    ];
    let text = text_of(rt.alloc(), name)?;
    assert_eq!(rt; text.as_str(), "𝄞mus\u{FFFD}ic\u{FFFD}");
    let odd = text_of(rt.alloc(), &[0x61, 0, 0x62])?;
    assert_eq!(rt; odd.as_str(), "a");
    Ok(())
}

/// Makes a name, its text and a table: whether all came, each whole. `tools/refused_memory.py` has each allocation of
/// it refused in turn.
fn naming_is_whole(rt: &impl Abort, host: &HostRuntime) -> Result<bool, Fail> {
    let alloc = host.alloc();
    let Ok(name) = units_of(alloc, "a€𝄞") else {
        return Ok(false);
    };
    let units: &[u8] = &[0x61, 0, 0xAC, 0x20, 0x34, 0xD8, 0x1E, 0xDD];
    assert_eq!(rt; name.as_slice(), units);
    let Ok(text) = text_of(alloc, &name) else {
        return Ok(false);
    };
    assert_eq!(rt; text.as_str(), "a€𝄞");
    let Ok(bytes) = table_bytes(alloc) else {
        return Ok(false);
    };
    let Ok(table) = UpCase::from_bytes(alloc, &bytes) else {
        return Ok(false);
    };
    assert!(rt; table.same_name(b"a\0", b"A\0"));
    Ok(true)
}

#[test]
fn with_ample_memory_all_names_come(rt: HostRuntime) -> Result<(), Fail> {
    assert!(rt; naming_is_whole(&rt, &rt)?);
    Ok(())
}
