ghost use Rattle.std.specs.Prelude.{map, string_bytes, IsTrue};
ghost use Rattle.ntfs_base.specs.MemShelf.{all_placed};

use crate::calls::{Calls, FailingCall, Leaves, one_more};
use crate::fault::{Faults, ShelfFault};
use crate::memory::content::MemContent;
use crate::memory::file::MemFile;
use crate::memory::place::{
    Place, attach_in, content_at, create_in, fail_at, find, index_for, made_at, put_back,
};
use crate::names::remove_name;
use crate::shelf::Shelf;
use std::alloc::{AllocError, Global};

/// A shelf in memory. It numbers the calls under each name by themselves, `attach` and `create` among them, and hands
/// each file its name's count and list of failing calls.
#[derive(Drop)]
pub struct MemShelf {
    pub places: Vec<Place>,
    pub attached: Vec<String>,
    pub faults: Faults,
    ghost held: { IsTrue (all_placed places.items (map string_bytes attached.items)) },
}

impl MemShelf {
    ghost use Rattle.std.specs.Prelude.{◌≡◌, [], OnOk, OnErr};
    ghost use Rattle.std.specs.Option.{option_map};
    ghost use Rattle.std.specs.FinMap.{empty};
    ghost use Rattle.ntfs_base.specs.MemShelf.{files_of, place_of, made_by, AddsFile, KeepsAll, PlansCall};
    ghost use Rattle.ntfs_base.specs.Shelf.{file_of};

    /// A shelf without files.
    pub fn new(alloc: Global) -> MemShelf
        ensures files { files_of result.places.items ≡ empty }
        ensures attached { result.attached.items ≡ [] }
        ensures reads { result.faults.reads ≡ 0 }
        ensures writes { result.faults.writes ≡ 0 }
    {
        MemShelf {
            places: Vec::new(alloc),
            attached: Vec::new(alloc),
            faults: Faults {
                reads: 0,
                writes: 0,
            },
        }
    }

    /// Puts a file on the shelf, in place of one of that name, with no call under it yet and none that is to fail.
    /// Where memory is wanting, all is as before.
    pub fn add(&mut self, alloc: Global, name: &str, bytes: Vec<u8>) -> Result<(), AllocError>
        ensures added { OnOk result (AddsFile name.now bytes.items self.old.places.items self.new.places.items) }
        ensures refused { OnErr result (KeepsAll self.old.places.items self.new.places.items) }
        ensures attached { self.new.attached ≡ self.old.attached }
        ensures faults { self.new.faults ≡ self.old.faults }
    {
        index_for(alloc, &mut self.places, name)?;
        put_back(&mut self.places, name, bytes, Calls::new(alloc));
        Ok(())
    }

    /// Lets the call of this number under a name fail. Where memory is wanting, all is as before.
    pub fn fail(
        &mut self,
        alloc: Global,
        name: &str,
        number: u64,
        leaves: Leaves,
    ) -> Result<(), AllocError>
        ensures added { OnOk result (PlansCall name.now number leaves self.old.places.items self.new.places.items) }
        ensures refused { OnErr result (KeepsAll self.old.places.items self.new.places.items) }
        ensures attached { self.new.attached ≡ self.old.attached }
        ensures faults { self.new.faults ≡ self.old.faults }
    {
        let index = index_for(alloc, &mut self.places, name)?;
        fail_at(alloc, &mut self.places, name, index, number, leaves)
    }

    /// The bytes of the file of a name.
    pub fn content(&self, name: &str) -> Option<&[u8]>
        ensures { option_map (λ bytes. bytes.now) result ≡ file_of (files_of self.now.places.items) name.now }
    {
        match find(&self.places, name) {
            Some(index) => content_at(&self.places, name, index),
            None => None,
        }
    }

    /// How many calls were made under a name.
    pub fn made(&self, name: &str) -> u64
        ensures { result ≡ made_by (place_of name.now self.now.places.items) }
    {
        match find(&self.places, name) {
            Some(index) => made_at(&self.places, name, index),
            None => 0,
        }
    }
}

impl Shelf for MemShelf {
    type File = MemFile;

    ghost use Rattle.std.specs.Prelude.{◌≡◌, false, true, string_bytes, IsSomeAnd, IfOk, IfErr, OnOk, OnErr};
    ghost use Rattle.ntfs_base.specs.Causes.{HaveNotFallen};
    ghost use Rattle.ntfs_base.specs.MemShelf.{seen_mem_file, seen_mem_shelf, place_of, after_attach_fault, after_create_fault, AttachesAsPlanned, CreatesAsPlanned, KeepsOthers};
    ghost use Rattle.ntfs_base.specs.Shelf.{IsHandedOut, IsCreated, AttachCause, CreateCause, after_attach, after_create, after_release, has_name, added_count};

    ghost seen = { λ shelf. seen_mem_shelf shelf.places.items shelf.attached.items };

    ghost faults = { λ shelf. shelf.faults };

    fn attach(&mut self, name: &str) -> Result<MemFile, ShelfFault>
        requires { has_name name.now (seen_mem_shelf self.old.places.items self.old.attached.items).attached ≡ false }
        ensures file { IfOk result (λ file. IsHandedOut (seen_mem_shelf self.old.places.items self.old.attached.items)
            name.now (seen_mem_file file) file.inside.faults) }
        ensures attached { OnOk result (seen_mem_shelf self.new.places.items self.new.attached.items
            ≡ after_attach name.now (seen_mem_shelf self.old.places.items self.old.attached.items)) }
        ensures refused { OnErr result (seen_mem_shelf self.new.places.items self.new.attached.items
            ≡ seen_mem_shelf self.old.places.items self.old.attached.items) }
        ensures refusal { IfErr result (λ fault. AttachCause fault
            (seen_mem_shelf self.old.places.items self.old.attached.items) name.now self.old.faults self.new.faults) }
        ensures counts { HaveNotFallen self.old.faults self.new.faults }
        ensures faults { self.new.faults ≡ after_attach_fault result self.old.faults }
        ensures planned { AttachesAsPlanned (place_of name.now self.old.places.items) result
            (place_of name.now self.new.places.items) }
        ensures others { KeepsOthers name.now self.old.places.items self.new.places.items }
    {
        let alloc = *self.places.allocator();
        let text = String::from_str(alloc, name)?;
        self.attached.reserve(1)?;
        match attach_in(alloc, &mut self.places, name) {
            Ok(file) => {
                self.attached.insert(0, text).unwrap();
                Ok(file)
            }
            Err(ShelfFault::Failed) => {
                self.faults.reads = one_more(self.faults.reads);
                Err(ShelfFault::Failed)
            }
            Err(fault) => Err(fault),
        }
    }

    fn create(&mut self, name: &str, must_be_new: bool) -> Result<MemFile, ShelfFault>
        requires { has_name name.now (seen_mem_shelf self.old.places.items self.old.attached.items).attached ≡ false }
        ensures file { IfOk result (λ file. IsCreated (seen_mem_shelf self.old.places.items self.old.attached.items)
            name.now must_be_new (seen_mem_file file) file.inside.faults) }
        ensures created { OnOk result (seen_mem_shelf self.new.places.items self.new.attached.items
            ≡ after_create name.now (seen_mem_shelf self.old.places.items self.old.attached.items)) }
        ensures refused { OnErr result (seen_mem_shelf self.new.places.items self.new.attached.items
            ≡ seen_mem_shelf self.old.places.items self.old.attached.items) }
        ensures refusal { IfErr result (λ fault. CreateCause fault
            (seen_mem_shelf self.old.places.items self.old.attached.items) name.now must_be_new
            self.old.faults self.new.faults) }
        ensures counts { HaveNotFallen self.old.faults self.new.faults }
        ensures faults { self.new.faults ≡ after_create_fault result self.old.faults }
        ensures planned { CreatesAsPlanned (place_of name.now self.old.places.items) result
            (place_of name.now self.new.places.items) }
        ensures others { KeepsOthers name.now self.old.places.items self.new.places.items }
    {
        let alloc = *self.places.allocator();
        let text = String::from_str(alloc, name)?;
        self.attached.reserve(1)?;
        match create_in(alloc, &mut self.places, name, must_be_new) {
            Ok(file) => {
                self.attached.insert(0, text).unwrap();
                Ok(file)
            }
            Err(ShelfFault::Failed) => {
                self.faults.writes = one_more(self.faults.writes);
                Err(ShelfFault::Failed)
            }
            Err(fault) => Err(fault),
        }
    }

    fn release(&mut self, file: MemFile)
        requires { has_name (string_bytes file.name)
            (seen_mem_shelf self.old.places.items self.old.attached.items).attached ≡ true }
        ensures released { seen_mem_shelf self.new.places.items self.new.attached.items
            ≡ after_release (seen_mem_file file) (seen_mem_shelf self.old.places.items self.old.attached.items) }
        ensures reads { self.new.faults.reads ≡ added_count self.old.faults.reads file.inside.faults.reads }
        ensures writes { self.new.faults.writes ≡ added_count self.old.faults.writes file.inside.faults.writes }
        ensures counts { HaveNotFallen self.old.faults self.new.faults }
        ensures calls { IsSomeAnd (place_of (string_bytes file.name) self.new.places.items)
            (λ place. place.calls ≡ file.inside.calls) }
        ensures others { KeepsOthers (string_bytes file.name) self.old.places.items self.new.places.items }
    {
        let MemFile { name, inside } = file;
        let MemContent {
            bytes,
            calls,
            faults,
        } = inside;
        put_back(&mut self.places, name.as_str(), bytes, calls);
        remove_name(&mut self.attached, name.as_str());
        self.faults.reads = self.faults.reads.saturating_add(faults.reads);
        self.faults.writes = self.faults.writes.saturating_add(faults.writes);
    }
}
