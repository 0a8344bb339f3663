use crate::calls::{Calls, Leaves};
use crate::fault::{Faults, ShelfFault};
use crate::memory::content::MemContent;
use crate::memory::file::MemFile;
use std::alloc::{AllocError, Global};
use std::mem;

/// A name of a shelf in memory, with the calls under it and its file, where it has one.
#[derive(Drop)]
pub struct Place {
    pub name: String,
    pub content: Option<Vec<u8>>,
    pub calls: Calls,
}

ghost use Rattle.std.specs.Prelude.{◌≡◌, [], Some, None, is_some, true, string_bytes, IfOk, IsSome, IsSomeAnd, IsTrue, OnOk, OnErr, IsErrOf};
ghost use Rattle.std.specs.FinMap.{insert};
ghost use Rattle.std.specs.Option.{option_map};
ghost use Rattle.ntfs_base.specs.Calls.{plan_call};
ghost use Rattle.ntfs_base.specs.MemShelf.{index_of, place_of, place_bytes, files_of, made_by, IsFresh, IsEmptyFile, KeepsFiles, KeepsCalls, CreatesFile, AttachesAsPlanned, CreatesAsPlanned, KeepsOthers, KeepsPlaces, PlansCall};
ghost use Rattle.ntfs_base.specs.Shelf.{file_of};

/// Where the first place of a name stands.
pub(crate) fn find(places: &[Place], name: &str) -> Option<usize>
    ensures { result ≡ index_of name.now places.now }
{
    for (index, place) in places.iter().enumerate() {
        if name == place.name.as_str() {
            return Some(index);
        }
    }
    None
}

fn fresh(alloc: Global, name: &str) -> Result<Place, AllocError>
    ensures { IfOk result (IsFresh name.now) }
{
    Ok(Place {
        name: String::from_str(alloc, name)?,
        content: None,
        calls: Calls::new(alloc),
    })
}

/// Where the place of a name stands; one without a file is made where there is none.
pub(crate) fn index_for(
    alloc: Global,
    places: &mut Vec<Place>,
    name: &str,
) -> Result<usize, AllocError>
    ensures found { IfOk result (λ index. index_of name.now places.new.items ≡ Some index) }
    ensures files { KeepsFiles name.now places.old.items places.new.items }
    ensures calls { KeepsCalls name.now places.old.items places.new.items }
{
    match find(places, name) {
        Some(index) => Ok(index),
        None => {
            let index = places.len();
            places.push(fresh(alloc, name)?)?;
            Ok(index)
        }
    }
}

/// A file with these bytes under the name of a place, with no fault yet. It takes the calls of the place.
fn lend(alloc: Global, place: &mut Place, bytes: Vec<u8>) -> Result<MemFile, AllocError>
    ensures name { place.new.name ≡ place.old.name }
    ensures content { place.new.content ≡ place.old.content }
    ensures calls { IfOk result (λ file. file.inside.calls ≡ place.old.calls) }
    ensures same { OnErr result (place.new.calls ≡ place.old.calls) }
    ensures bears { IfOk result (λ file. string_bytes file.name ≡ string_bytes place.old.name) }
    ensures bytes { IfOk result (λ file. file.inside.bytes ≡ bytes) }
    ensures reads { IfOk result (λ file. file.inside.faults.reads ≡ 0) }
    ensures writes { IfOk result (λ file. file.inside.faults.writes ≡ 0) }
{
    let name = place.name.clone()?;
    let calls = mem::replace(&mut place.calls, Calls::new(alloc));
    let faults = Faults {
        reads: 0,
        writes: 0,
    };
    Ok(MemFile {
        name,
        inside: MemContent {
            bytes,
            calls,
            faults,
        },
    })
}

/// Counts an attach, and makes the file that it hands out, with the calls of the place.
pub(crate) fn hand_out(alloc: Global, place: &mut Place) -> Result<MemFile, ShelfFault>
    ensures name { place.new.name ≡ place.old.name }
    ensures content { place.new.content ≡ place.old.content }
    ensures planned { AttachesAsPlanned (Some place.old) result (Some place.new) }
    ensures bears { IfOk result (λ file. string_bytes file.name ≡ string_bytes place.old.name) }
    ensures bytes { IfOk result (λ file. place_bytes place.old ≡ Some file.inside.bytes.items) }
    ensures reads { IfOk result (λ file. file.inside.faults.reads ≡ 0) }
    ensures writes { IfOk result (λ file. file.inside.faults.writes ≡ 0) }
    ensures absent { IsErrOf result ShelfFault.Absent → place_bytes place.old ≡ None }
{
    if place.calls.next().is_some() {
        return Err(ShelfFault::Failed);
    }
    let bytes = match &place.content {
        None => return Err(ShelfFault::Absent),
        Some(bytes) => bytes.clone()?,
    };
    Ok(lend(alloc, place, bytes)?)
}

/// Hands out the file of a name, and counts the call under it.
pub(crate) fn attach_in(
    alloc: Global,
    places: &mut Vec<Place>,
    name: &str,
) -> Result<MemFile, ShelfFault>
    ensures files { KeepsFiles name.now places.old.items places.new.items }
    ensures planned { AttachesAsPlanned (place_of name.now places.old.items) result
        (place_of name.now places.new.items) }
    ensures placed { OnOk result (is_some (place_of name.now places.new.items) ≡ true) }
    ensures bears { IfOk result (λ file. string_bytes file.name ≡ name.now) }
    ensures bytes { IfOk result (λ file. file_of (files_of places.old.items) name.now ≡ Some file.inside.bytes.items) }
    ensures reads { IfOk result (λ file. file.inside.faults.reads ≡ 0) }
    ensures writes { IfOk result (λ file. file.inside.faults.writes ≡ 0) }
    ensures absent { IsErrOf result ShelfFault.Absent → file_of (files_of places.old.items) name.now ≡ None }
{
    let index = index_for(alloc, places, name)?;
    attach_at(alloc, places, name, index)
}

fn attach_at(
    alloc: Global,
    places: &mut Vec<Place>,
    name: &str,
    index: usize,
) -> Result<MemFile, ShelfFault>
    requires { index_of name.now places.old.items ≡ Some index }
    ensures files { KeepsFiles name.now places.old.items places.new.items }
    ensures planned { AttachesAsPlanned (place_of name.now places.old.items) result
        (place_of name.now places.new.items) }
    ensures placed { is_some (place_of name.now places.new.items) ≡ true }
    ensures bears { IfOk result (λ file. string_bytes file.name ≡ name.now) }
    ensures bytes { IfOk result (λ file. file_of (files_of places.old.items) name.now ≡ Some file.inside.bytes.items) }
    ensures reads { IfOk result (λ file. file.inside.faults.reads ≡ 0) }
    ensures writes { IfOk result (λ file. file.inside.faults.writes ≡ 0) }
    ensures absent { IsErrOf result ShelfFault.Absent → file_of (files_of places.old.items) name.now ≡ None }
{
    hand_out(alloc, &mut places[index])
}

/// Counts a create, and makes the empty file that it hands out, with the calls of the place.
fn make(alloc: Global, place: &mut Place, must_be_new: bool) -> Result<MemFile, ShelfFault>
    ensures name { place.new.name ≡ place.old.name }
    ensures planned { CreatesAsPlanned (Some place.old) result (Some place.new) }
    ensures file { IfOk result (IsEmptyFile (string_bytes place.old.name)) }
    ensures created { OnOk result (place_bytes place.new ≡ Some []) }
    ensures refused { OnErr result (place.new.content ≡ place.old.content) }
    ensures fresh { IsTrue must_be_new → OnOk result (place_bytes place.old ≡ None) }
    ensures present { IsErrOf result ShelfFault.Present → IsTrue must_be_new × IsSome (place_bytes place.old) }
{
    if place.calls.next().is_some() {
        return Err(ShelfFault::Failed);
    }
    if must_be_new && place.content.is_some() {
        return Err(ShelfFault::Present);
    }
    let file = lend(alloc, place, Vec::new(alloc))?;
    place.content = Some(Vec::new(alloc));
    Ok(file)
}

/// Makes an empty file of a name, hands it out, and counts the call under it.
pub(crate) fn create_in(
    alloc: Global,
    places: &mut Vec<Place>,
    name: &str,
    must_be_new: bool,
) -> Result<MemFile, ShelfFault>
    ensures files { CreatesFile name.now places.old.items result places.new.items }
    ensures planned { CreatesAsPlanned (place_of name.now places.old.items) result
        (place_of name.now places.new.items) }
    ensures placed { OnOk result (is_some (place_of name.now places.new.items) ≡ true) }
    ensures file { IfOk result (IsEmptyFile name.now) }
    ensures fresh { IsTrue must_be_new → OnOk result (file_of (files_of places.old.items) name.now ≡ None) }
    ensures present { IsErrOf result ShelfFault.Present → IsTrue must_be_new
        × IsSome (file_of (files_of places.old.items) name.now) }
{
    let index = index_for(alloc, places, name)?;
    create_at(alloc, places, name, index, must_be_new)
}

fn create_at(
    alloc: Global,
    places: &mut Vec<Place>,
    name: &str,
    index: usize,
    must_be_new: bool,
) -> Result<MemFile, ShelfFault>
    requires { index_of name.now places.old.items ≡ Some index }
    ensures files { CreatesFile name.now places.old.items result places.new.items }
    ensures planned { CreatesAsPlanned (place_of name.now places.old.items) result
        (place_of name.now places.new.items) }
    ensures placed { is_some (place_of name.now places.new.items) ≡ true }
    ensures file { IfOk result (IsEmptyFile name.now) }
    ensures fresh { IsTrue must_be_new → OnOk result (file_of (files_of places.old.items) name.now ≡ None) }
    ensures present { IsErrOf result ShelfFault.Present → IsTrue must_be_new
        × IsSome (file_of (files_of places.old.items) name.now) }
{
    make(alloc, &mut places[index], must_be_new)
}

fn fill(place: &mut Place, bytes: Vec<u8>, calls: Calls)
    ensures name { place.new.name ≡ place.old.name }
    ensures bytes { place_bytes place.new ≡ Some bytes.items }
    ensures calls { place.new.calls ≡ calls }
{
    place.content = Some(bytes);
    place.calls = calls;
}

/// Puts a file back into the place of its name.
pub(crate) fn put_back(places: &mut Vec<Place>, name: &str, bytes: Vec<u8>, calls: Calls)
    requires { is_some (place_of name.now places.old.items) ≡ true }
    ensures files { files_of places.new.items ≡ insert (files_of places.old.items) name.now bytes.items }
    ensures calls { IsSomeAnd (place_of name.now places.new.items) (λ place. place.calls ≡ calls) }
    ensures others { KeepsOthers name.now places.old.items places.new.items }
    ensures kept { KeepsPlaces places.old.items places.new.items }
{
    let index = find(places, name).unwrap();
    fill(&mut places[index], bytes, calls);
}

/// Lets a call under a name fail, whose place stands at this index.
pub(crate) fn fail_at(
    alloc: Global,
    places: &mut Vec<Place>,
    name: &str,
    index: usize,
    number: u64,
    leaves: Leaves,
) -> Result<(), AllocError>
    requires { index_of name.now places.old.items ≡ Some index }
    ensures files { KeepsFiles name.now places.old.items places.new.items }
    ensures added { OnOk result (PlansCall name.now number leaves places.old.items places.new.items) }
    ensures refused { OnErr result (KeepsCalls name.now places.old.items places.new.items) }
{
    fail_here(alloc, &mut places[index], number, leaves)
}

fn fail_here(
    alloc: Global,
    place: &mut Place,
    number: u64,
    leaves: Leaves,
) -> Result<(), AllocError>
    ensures name { place.new.name ≡ place.old.name }
    ensures content { place.new.content ≡ place.old.content }
    ensures made { place.new.calls.made ≡ place.old.calls.made }
    ensures added { OnOk result (place.new.calls.failing.items
        ≡ plan_call number leaves place.old.calls.failing.items) }
    ensures refused { OnErr result (place.new.calls.failing.items ≡ place.old.calls.failing.items) }
{
    place.calls.fail(alloc, number, leaves)
}

/// The bytes under a name, whose place stands at this index.
pub(crate) fn content_at<'a>(places: &'a Vec<Place>, name: &str, index: usize) -> Option<&'a [u8]>
    requires { index_of name.now places.now.items ≡ Some index }
    ensures { option_map (λ bytes. bytes.now) result ≡ file_of (files_of places.now.items) name.now }
{
    match &places[index].content {
        Some(bytes) => Some(bytes.as_slice()),
        None => None,
    }
}

/// How many calls were made under a name, whose place stands at this index.
pub(crate) fn made_at(places: &Vec<Place>, name: &str, index: usize) -> u64
    requires { index_of name.now places.now.items ≡ Some index }
    ensures { result ≡ made_by (place_of name.now places.now.items) }
{
    places[index].calls.made
}
