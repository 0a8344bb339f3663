//! Volumes that the tests make: $MFT's records of 1,024 bytes one behind the other, and then an image with these bytes
//! in runs of clusters.

use std::alloc::{AllocError, Global};

/// Writes a text over the bytes, where it lies in them.
pub(crate) fn patch(bytes: &mut [u8], at: usize, text: &[u8]) {
    if at <= bytes.len() && text.len() <= bytes.len() - at {
        bytes[at..at + text.len()].copy_from_slice(text);
    }
}

/// What an attribute says that isn't resident.
#[derive(Clone, Copy)]
pub(crate) struct Told<'a> {
    pub(crate) kind: u8,
    pub(crate) name: &'a [u8],
    pub(crate) units: u8,
    pub(crate) flags: u16,
    pub(crate) instance: u16,
    pub(crate) lowest: u64,
    pub(crate) next: u64,
    pub(crate) size: u64,
    pub(crate) valid: u64,
    pub(crate) pairs: &'a [u8],
}

/// An entry of a list: the attribute that it names, and the reference of its record.
pub(crate) type Entry<'a> = (Told<'a>, u64);

/// Puts an entry of 32 bytes at a place.
pub(crate) fn entry(bytes: &mut [u8], at: usize, told: Told<'_>, reference: u64) {
    let text = [told.kind, 0, 0, 0, 32, 0, told.units, 26];
    patch(bytes, at, &text);
    patch(bytes, at.saturating_add(8), &told.lowest.to_le_bytes());
    patch(bytes, at.saturating_add(0x10), &reference.to_le_bytes());
    patch(bytes, at.saturating_add(0x18), &told.instance.to_le_bytes());
    patch(bytes, at.saturating_add(26), told.name);
}

/// The bytes of $MFT. Attributes go behind those of the record that was begun last.
#[derive(Drop)]
pub(crate) struct Made {
    pub(crate) table: Vec<u8>,
    record: usize,
    place: u32,
}

impl Made {
    /// So many records, none in use.
    pub(crate) fn new(alloc: Global, records: u8) -> Result<Made, AllocError> {
        Ok(Made {
            table: vec![in alloc; 0; 1024 * usize::from(records)]?,
            record: 0,
            place: 56,
        })
    }

    /// Puts a text so many bytes behind the place at which the next attribute begins.
    fn put(&mut self, offset: u32, text: &[u8]) {
        let place = self.place.saturating_add(offset);
        let at = self.record.saturating_add(place as usize);
        patch(&mut self.table, at, text);
    }

    /// A record in use without attributes, of sequence number 3, with this base reference; its fixup number is 5.
    pub(crate) fn begin(&mut self, number: u8, base: u64) {
        self.record = 1024 * usize::from(number);
        self.place = 0;
        self.put(0, b"FILE\x30\0\x03\0");
        self.put(0x10, &[3, 0, 1, 0, 56, 0, 1, 0]);
        self.put(0x1C, &[0, 4, 0, 0]);
        self.put(0x20, &base.to_le_bytes());
        self.put(0x2C, &[number, 0, 0, 0, 5, 0]);
        self.put(510, &[5, 0]);
        self.put(1022, &[5, 0]);
        self.place = 56;
    }

    /// The head of an attribute of this length.
    fn head(&mut self, told: Told<'_>, length: u32, form: u8, name: u8) {
        self.put(0, &[told.kind]);
        self.put(4, &length.to_le_bytes());
        self.put(8, &[form, told.units, name, 0]);
        self.put(0x0C, &told.flags.to_le_bytes());
        self.put(0x0E, &told.instance.to_le_bytes());
    }

    /// An attribute of 104 bytes that isn't resident: its name stands at 64, its pairs at 72.
    pub(crate) fn runs(&mut self, told: Told<'_>) {
        self.head(told, 104, 1, 64);
        self.put(0x10, &told.lowest.to_le_bytes());
        self.put(0x18, &told.next.wrapping_sub(1).to_le_bytes());
        self.put(0x20, &[72, 0]);
        self.put(0x30, &told.size.to_le_bytes());
        self.put(0x38, &told.valid.to_le_bytes());
        self.put(64, told.name);
        self.put(72, told.pairs);
        self.place = self.place.saturating_add(104);
    }

    /// An attribute of 40 bytes with the value `value`; its name stands at 24.
    pub(crate) fn value(&mut self, told: Told<'_>) {
        self.head(told, 40, 0, 24);
        self.put(0x10, &[5, 0, 0, 0, 32, 0]);
        self.put(24, told.name);
        self.put(32, b"value");
        self.place = self.place.saturating_add(40);
    }

    /// A resident list of these entries, each of 32 bytes.
    pub(crate) fn list(&mut self, entries: &[Entry<'_>]) {
        let mut length: u32 = 24;
        for (told, reference) in entries {
            let place = self.place.saturating_add(length);
            let at = self.record.saturating_add(place as usize);
            entry(&mut self.table, at, *told, *reference);
            length = length.saturating_add(32);
        }
        self.put(0, &[0x20, 0, 0, 0]);
        self.put(4, &length.to_le_bytes());
        self.put(8, &[0, 0, 24, 0, 0, 0, 9, 0]);
        self.put(0x10, &length.saturating_sub(24).to_le_bytes());
        self.put(0x14, &[24, 0]);
        self.place = self.place.saturating_add(length);
    }

    /// The end of the record's attributes.
    pub(crate) fn end(&mut self) {
        self.put(0, &[0xFF; 4]);
        let used = self.place.saturating_add(8);
        self.place = 0;
        self.put(0x18, &used.to_le_bytes());
    }
}

/// A volume: how many sectors a cluster has, how many clusters there are, and the runs of $MFT, each a first cluster
/// and how many follow.
#[derive(Clone, Copy)]
pub(crate) struct Shape<'a> {
    pub(crate) sectors: u8,
    pub(crate) clusters: u8,
    pub(crate) runs: &'a [(u8, u8)],
}

/// The boot sector of a volume whose $MFT begins at a cluster.
fn boot(bytes: &mut [u8], sectors: u8, clusters: u8, first: u8) {
    patch(bytes, 3, b"NTFS    \0\x02");
    patch(bytes, 0x0D, &[sectors]);
    let count = u64::from(sectors) * u64::from(clusters);
    patch(bytes, 0x28, &count.to_le_bytes());
    patch(bytes, 0x30, &[first]);
    patch(bytes, 0x38, &[first]);
    patch(bytes, 0x40, &[0xF6]);
    patch(bytes, 0x44, &[0xF4]);
}

/// The image of a volume with these bytes of $MFT.
pub(crate) fn image(alloc: Global, shape: Shape<'_>, table: &[u8]) -> Result<Vec<u8>, AllocError> {
    let cluster = 512 * usize::from(shape.sectors);
    let mut bytes = vec![in alloc; 0; cluster * (usize::from(shape.clusters) + 1)]?;
    let mut rest = table;
    for (k, (first, count)) in shape.runs.iter().enumerate() {
        if k == 0 {
            boot(&mut bytes, shape.sectors, shape.clusters, *first);
        }
        let length = (cluster * usize::from(*count)).min(rest.len());
        let (front, behind) = rest.split_at(length);
        patch(&mut bytes, cluster * usize::from(*first), front);
        rest = behind;
    }
    Ok(bytes)
}
