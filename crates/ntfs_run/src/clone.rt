//! `ntfsclone`.
ghost use Rattle.std.specs.Prelude.{◌≡◌, ◌≤◌, [], Some, false, true, IfErr, IsTrue, OnOk};
ghost use Rattle.std.specs.Option.{is_none};
ghost use Rattle.std.specs.Str.{bytes_eq};
ghost use Rattle.ntfs_base.specs.Causes.{HaveNotFallen, Rose};
ghost use Rattle.ntfs_base.specs.Frames.{Copies, IfFiles, IfTold, Puts};
ghost use Rattle.ntfs_base.specs.Shelf.{has_name};
ghost use Rattle.ntfs_check.specs.Findings.{Fit};
ghost use Rattle.ntfs_clone.specs.Header.{IsHeader};
ghost use Rattle.ntfs_clone.specs.Restored.{IsPartOf};
ghost use Rattle.ntfs_clone.specs.Taking.{HasGiven, to_come};
ghost use Rattle.ntfs_volume.specs.Opened.{HasClusters};
ghost use Rattle.ntfs_words.specs.Clone.{are_same};
ghost use Rattle.ntfs_run.specs.Clone.{IsDetached, ImageRefuses, IsPartSaved, IsRestoredFrom, IsSavedFrom, LeavesOutput, LeavesRestored};
ghost use Rattle.ntfs_run.specs.Clone.{LeavesSaved, RestoreRefuses, PutRefuses, SaveRefuses, clone_put, clone_put_of, restore_work};
ghost use Rattle.ntfs_run.specs.Clone.{restored_image, restored_in, restored_into, save_work, saved_image, saved_in, volume_in};
ghost use Rattle.ntfs_run.specs.Filling.{FileRefuses, Fills, IsCutOff, IsFilled, OutputRefuses};
ghost use Rattle.ntfs_run.specs.Outcome.{Does, Ends, IfInput, IfNone, KeepsOtherFiles, MakesFiles, MayReadInput};
ghost use Rattle.ntfs_run.specs.Outcome.{MayWriteFiles, OnlyShows, TakesInput, outcome_of, outcome_or, status_of};
ghost use Rattle.ntfs_run.specs.Outcome.{status_origin};

use crate::checked::Accepted;
use crate::copying::copy_to_file;
use crate::outside::{attach_file, create_file, flush};
use crate::restoring::{read_clone_header, read_to_end, restore_to_file};
use crate::saving::{check_for_save, save_to, save_to_file};
use crate::status::Status;
use ntfs_base::{FileSource, HostFile, Image, Named, Shelf, Sink, Source};
use ntfs_clone::CloneHeader;
use ntfs_words::Text;
use std::alloc::Global;

/// What is saved as a clone image or copied raw, also where it is dirty or not, and to which file, which must be new or
/// may be overwritten. Without a file a clone image goes to the output.
#[derive(Clone, Copy)]
pub struct SaveRequest<'a> {
    pub save: bool,
    pub force: bool,
    pub output: &'a Option<Text>,
    pub overwrite: bool,
    pub source: &'a Option<Text>,
}

/// What is restored, from a file or else from the input, and to which file, which must be new or may be overwritten.
/// Without a file the clone image is only read.
#[derive(Clone, Copy)]
pub struct RestoreRequest<'a> {
    pub output: &'a Option<Text>,
    pub overwrite: bool,
    pub source: &'a Option<Text>,
}

/// A file that is made: which of a tool's files it is, its name, and whether one that is there is overwritten.
#[derive(Clone, Copy)]
pub struct Output<'a> {
    pub file: Named,
    pub name: &'a str,
    pub overwrite: bool,
}

// ---- saving and copying

/// Saves the volume of a file, or copies it raw.
///
/// Where the clone image goes to the output, that is flushed at the end; else before any file is made, so that its
/// faults leave none.
pub fn save_volume<S: Shelf, O: Sink>(
    alloc: Global,
    request: &SaveRequest,
    shelf: &mut S,
    out: &mut O,
) -> Result<(), Status>
    requires attached { (S.seen shelf.old).attached ≡ [] }
    requires apart { are_same request.now.source.now request.now.output.now ≡ false }
    ensures does { IfFiles S.Shelf shelf.old (λ files.
        let r = request.now in
        Does (outcome_of files (save_work r.save r.force r.output.now r.overwrite r.source.now files))
        (status_of result)
        (O.seen out.old) (O.seen out.new) (S.seen shelf.new).files) }
    ensures left { IfFiles S.Shelf shelf.old (λ files.
        let r = request.now in
        LeavesSaved r.save r.force r.output.now r.overwrite r.source.now files (S.seen shelf.new).files) }
    ensures others { IfFiles S.Shelf shelf.old (λ files.
        KeepsOtherFiles request.now.output.now files (S.seen shelf.new).files) }
    ensures shows { IfNone request.now.output.now (S.seen shelf.new ≡ S.seen shelf.old) }
    ensures runs { MayWriteFiles S.Shelf O.Sink
        (SaveRefuses request.now.force request.now.output.now request.now.overwrite) shelf.old shelf.new out.old out.new
        result }
{
    let Some(source) = request.source else {
        return Err(Status::Absent {
            file: Named::Source,
        });
    };
    match request.output {
        None => save_out(alloc, request.force, source.as_str(), shelf, out),
        Some(output) => {
            flush(out)?;
            save_named(alloc, request, source.as_str(), output.as_str(), shelf)
        }
    }
}

/// Puts the clone image of the volume of a file to the output, and flushes it.
fn save_out<S: Shelf, O: Sink>(
    alloc: Global,
    force: bool,
    source: &str,
    shelf: &mut S,
    out: &mut O,
) -> Result<(), Status>
    requires { (S.seen shelf.old).attached ≡ [] }
    ensures puts { IfFiles S.Shelf shelf.old (λ files.
        Puts status_origin (clone_put_of force source.now files) (O.seen out.old) result (O.seen out.new)) }
    ensures shows { OnlyShows S.Shelf O.Sink (PutRefuses force) shelf.old shelf.new out.old out.new result }
{
    let mut file = attach_file(Named::Source, source, shelf)?;
    let result = put_clone(alloc, force, &mut file, out);
    shelf.release(file);
    result
}

/// Puts the clone image of the volume of an image to the output, and flushes it.
fn put_clone<G: Image, O: Sink>(
    alloc: Global,
    force: bool,
    image: &mut G,
    out: &mut O,
) -> Result<(), Status>
    ensures puts { IfTold G.Image image.old (λ content.
        Puts status_origin (clone_put force content) (O.seen out.old) result (O.seen out.new)) }
    ensures copies { Copies G.Image O.Sink status_origin image.old image.new out.old out.new result }
    ensures refusal { IfErr result (PutRefuses force) }
    ensures flushed { OnOk result (O.is_flushed out.new ≡ true) }
{
    let checked = check_for_save(alloc, force, image)?;
    save_to(alloc, image, &checked, out)?;
    flush(out)
}

/// Saves or copies the volume of a file to another one.
fn save_named<S: Shelf>(
    alloc: Global,
    request: &SaveRequest,
    source: &str,
    output: &str,
    shelf: &mut S,
) -> Result<(), Status>
    requires attached { (S.seen shelf.old).attached ≡ [] }
    requires apart { bytes_eq source.now output.now ≡ false }
    ensures ends { IfFiles S.Shelf shelf.old (λ files.
        let r = request.now in
        Ends (outcome_of files (save_work r.save r.force (Some output.now) r.overwrite (Some source.now) files))
        (status_of result) (S.seen shelf.new).files) }
    ensures left { IfFiles S.Shelf shelf.old (λ files.
        let r = request.now in
        LeavesSaved r.save r.force (Some output.now) r.overwrite (Some source.now) files (S.seen shelf.new).files) }
    ensures others { IfFiles S.Shelf shelf.old (λ files.
        KeepsOtherFiles (Some output.now) files (S.seen shelf.new).files) }
    ensures makes { MakesFiles S.Shelf (SaveRefuses request.now.force (Some output.now) request.now.overwrite)
        shelf.old shelf.new ⊥ result }
{
    let mut file = attach_file(Named::Source, source, shelf)?;
    let result = save_image(alloc, request, output, &mut file, shelf);
    shelf.release(file);
    result
}

/// Saves or copies the volume of an image to a file.
fn save_image<G: Image, S: Shelf>(
    alloc: Global,
    request: &SaveRequest,
    output: &str,
    image: &mut G,
    shelf: &mut S,
) -> Result<(), Status>
    requires { has_name output.now (S.seen shelf.old).attached ≡ false }
    ensures ends { IfTold G.Image image.old (λ content. IfFiles S.Shelf shelf.old (λ files.
        let r = request.now in
        Ends (outcome_of files (saved_image r.save r.force (Some output.now) r.overwrite content files))
        (status_of result) (S.seen shelf.new).files)) }
    ensures left { IfTold G.Image image.old (λ content. IfFiles S.Shelf shelf.old (λ files.
        LeavesOutput (Some output.now) request.now.overwrite
        (IsSavedFrom request.now.save request.now.force content) files (S.seen shelf.new).files)) }
    ensures others { IfFiles S.Shelf shelf.old (λ files.
        KeepsOtherFiles (Some output.now) files (S.seen shelf.new).files) }
    ensures seen { G.seen image.new ≡ G.seen image.old }
    ensures counts { HaveNotFallen (G.faults image.old) (G.faults image.new) }
    ensures makes { MakesFiles S.Shelf (SaveRefuses request.now.force (Some output.now) request.now.overwrite)
        shelf.old shelf.new (Rose (G.faults image.old).reads (G.faults image.new).reads) result }
{
    let checked = check_for_save(alloc, request.force, image)?;
    let output = Output {
        file: Named::Output,
        name: output,
        overwrite: request.overwrite,
    };
    save_checked(alloc, request.save, &output, &checked, image, shelf)
}

/// Saves or copies a checked volume to a file.
pub fn save_checked<G: Image, S: Shelf>(
    alloc: Global,
    save: bool,
    output: &Output,
    checked: &Accepted,
    image: &mut G,
    shelf: &mut S,
) -> Result<(), Status>
    requires free { has_name output.now.name.now (S.seen shelf.old).attached ≡ false }
    requires held { HasClusters (G.seen image.old).size checked.now.table }
    requires fit { Fit checked.now.table checked.now.findings }
    ensures ends { IfTold G.Image image.old (λ content. IfFiles S.Shelf shelf.old (λ files.
        let o = output.now in
        Ends (outcome_of files (saved_in o.file save o.name.now o.overwrite (volume_in checked.now content) files))
        (status_of result) (S.seen shelf.new).files)) }
    ensures left { IfTold G.Image image.old (λ content. IfFiles S.Shelf shelf.old (λ files.
        LeavesOutput (Some output.now.name.now) output.now.overwrite
        (IsPartSaved save (volume_in checked.now content)) files (S.seen shelf.new).files)) }
    ensures others { IfFiles S.Shelf shelf.old (λ files.
        KeepsOtherFiles (Some output.now.name.now) files (S.seen shelf.new).files) }
    ensures seen { G.seen image.new ≡ G.seen image.old }
    ensures counts { HaveNotFallen (G.faults image.old) (G.faults image.new) }
    ensures makes { MakesFiles S.Shelf (OutputRefuses output.now.file output.now.overwrite)
        shelf.old shelf.new (Rose (G.faults image.old).reads (G.faults image.new).reads) result }
{
    let empty = create_file(output.file, output.name, output.overwrite, shelf)?;
    let (file, result) = fill(alloc, save, checked, image, empty);
    shelf.release(file);
    result
}

/// Saves or copies a checked volume to an empty file, which is given back with the answer.
fn fill<G: Image, F: HostFile>(
    alloc: Global,
    save: bool,
    checked: &Accepted,
    image: &mut G,
    mut file: F,
) -> (F, Result<(), Status>)
    requires held { HasClusters (G.seen image.old).size checked.now.table }
    requires fit { Fit checked.now.table checked.now.findings }
    requires empty { IsTrue (F.seen file).is_told → (F.seen file).content ≡ [] }
    requires size { (F.seen file).size ≡ 0 }
    ensures filled { IfTold G.Image image.old (λ content. IsTrue (F.seen file).is_told
        → IsFilled save (volume_in checked.now content) result.1 (F.seen result.0).content) }
    ensures fills { Fills G.Image F.Image image.old image.new file result.0 result.1 }
    ensures refusal { IfErr result.1 IsCutOff }
{
    if save {
        save_to_file(alloc, image, checked, file)
    } else {
        let result = copy_to_file(alloc, image, checked, &mut file);
        (file, result)
    }
}

// ---- restoring

/// Restores a clone image, or reads it to its end.
pub fn restore_clone<S: Shelf, I: Source, O: Sink>(
    alloc: Global,
    request: &RestoreRequest,
    shelf: &mut S,
    input: &mut I,
    out: &mut O,
) -> Result<(), Status>
    requires attached { (S.seen shelf.old).attached ≡ [] }
    requires apart { are_same request.now.source.now request.now.output.now ≡ false }
    ensures does { IfFiles S.Shelf shelf.old (λ files. IfInput I.Source (is_none request.now.source.now) input.old
        (λ bytes.
        let r = request.now in
        Does (outcome_or files (restore_work r.output.now r.overwrite r.source.now files bytes)) (status_of result)
        (O.seen out.old) (O.seen out.new) (S.seen shelf.new).files)) }
    ensures left { IfFiles S.Shelf shelf.old (λ files. IfInput I.Source (is_none request.now.source.now) input.old
        (λ bytes.
        let r = request.now in
        LeavesRestored r.output.now r.overwrite r.source.now files bytes (S.seen shelf.new).files)) }
    ensures others { IfFiles S.Shelf shelf.old (λ files.
        KeepsOtherFiles request.now.output.now files (S.seen shelf.new).files) }
    ensures shows { IfNone request.now.output.now (S.seen shelf.new ≡ S.seen shelf.old) }
    ensures input { TakesInput I.Source (is_none request.now.source.now) (status_of result) input.old input.new }
    ensures runs { MayReadInput S.Shelf I.Source O.Sink
        (RestoreRefuses request.now.output.now request.now.overwrite request.now.source.now) shelf.old shelf.new
        input.old input.new out.old out.new result }
{
    flush(out)?;
    match request.source {
        None => restore_from(alloc, request, shelf, input),
        Some(source) => restore_named(alloc, request, source.as_str(), shelf),
    }
}

/// Restores or reads the clone image of a file.
fn restore_named<S: Shelf>(
    alloc: Global,
    request: &RestoreRequest,
    source: &str,
    shelf: &mut S,
) -> Result<(), Status>
    requires attached { (S.seen shelf.old).attached ≡ [] }
    requires apart { are_same (Some source.now) request.now.output.now ≡ false }
    ensures ends { IfFiles S.Shelf shelf.old (λ files.
        let r = request.now in
        Ends (outcome_or files (restore_work r.output.now r.overwrite (Some source.now) files [])) (status_of result)
        (S.seen shelf.new).files) }
    ensures left { IfFiles S.Shelf shelf.old (λ files.
        LeavesRestored request.now.output.now request.now.overwrite (Some source.now) files []
        (S.seen shelf.new).files) }
    ensures others { IfFiles S.Shelf shelf.old (λ files.
        KeepsOtherFiles request.now.output.now files (S.seen shelf.new).files) }
    ensures shows { IfNone request.now.output.now (S.seen shelf.new ≡ S.seen shelf.old) }
    ensures makes { MakesFiles S.Shelf
        (RestoreRefuses request.now.output.now request.now.overwrite (Some source.now)) shelf.old shelf.new ⊥ result }
{
    let file = attach_file(Named::Source, source, shelf)?;
    let mut clone = FileSource::new(file);
    let result = restore_from(alloc, request, shelf, &mut clone);
    shelf.release(clone.into_file());
    result
}

/// Restores or reads the clone image of a source. Its header is read before a file is made.
fn restore_from<S: Shelf, I: Source>(
    alloc: Global,
    request: &RestoreRequest,
    shelf: &mut S,
    source: &mut I,
) -> Result<(), Status>
    requires { IsDetached request.now.output.now (S.seen shelf.old).attached }
    ensures ends { IfFiles S.Shelf shelf.old (λ files. IsTrue (I.seen source.old).is_told
        → let r = request.now in
        Ends (outcome_or files (restored_image r.output.now r.overwrite (to_come (I.seen source.old)) files))
        (status_of result) (S.seen shelf.new).files) }
    ensures left { IfFiles S.Shelf shelf.old (λ files. IsTrue (I.seen source.old).is_told
        → LeavesOutput request.now.output.now request.now.overwrite (IsRestoredFrom (to_come (I.seen source.old))) files
        (S.seen shelf.new).files) }
    ensures others { IfFiles S.Shelf shelf.old (λ files.
        KeepsOtherFiles request.now.output.now files (S.seen shelf.new).files) }
    ensures shows { IfNone request.now.output.now (S.seen shelf.new ≡ S.seen shelf.old) }
    ensures end { OnOk result (IsTrue (I.seen source.old).is_told → to_come (I.seen source.new) ≡ []) }
    ensures kept { HasGiven (I.seen source.old) (I.seen source.new) }
    ensures takes { I.faults source.old ≤ I.faults source.new }
    ensures makes { MakesFiles S.Shelf (ImageRefuses request.now.output.now request.now.overwrite)
        shelf.old shelf.new (Rose (I.faults source.old) (I.faults source.new)) result }
{
    let header = read_clone_header(source)?;
    restore_into(alloc, request, &header, shelf, source)
}

/// Restores or reads what stands behind the header of a clone image.
fn restore_into<S: Shelf, I: Source>(
    alloc: Global,
    request: &RestoreRequest,
    header: &CloneHeader,
    shelf: &mut S,
    source: &mut I,
) -> Result<(), Status>
    requires header { IsHeader header.now }
    requires free { IsDetached request.now.output.now (S.seen shelf.old).attached }
    ensures ends { IfFiles S.Shelf shelf.old (λ files. IsTrue (I.seen source.old).is_told
        → let r = request.now in
        Ends (outcome_or files (restored_into r.output.now r.overwrite header.now (to_come (I.seen source.old)) files))
        (status_of result) (S.seen shelf.new).files) }
    ensures left { IfFiles S.Shelf shelf.old (λ files. IsTrue (I.seen source.old).is_told
        → LeavesOutput request.now.output.now request.now.overwrite
        (IsPartOf header.now (to_come (I.seen source.old))) files (S.seen shelf.new).files) }
    ensures others { IfFiles S.Shelf shelf.old (λ files.
        KeepsOtherFiles request.now.output.now files (S.seen shelf.new).files) }
    ensures shows { IfNone request.now.output.now (S.seen shelf.new ≡ S.seen shelf.old) }
    ensures end { OnOk result (IsTrue (I.seen source.old).is_told → to_come (I.seen source.new) ≡ []) }
    ensures kept { HasGiven (I.seen source.old) (I.seen source.new) }
    ensures takes { I.faults source.old ≤ I.faults source.new }
    ensures makes { MakesFiles S.Shelf (ImageRefuses request.now.output.now request.now.overwrite)
        shelf.old shelf.new (Rose (I.faults source.old) (I.faults source.new)) result }
{
    match request.output {
        None => read_to_end(alloc, header, source),
        Some(output) => {
            let output = Output {
                file: Named::Output,
                name: output.as_str(),
                overwrite: request.overwrite,
            };
            restore_behind(alloc, &output, header, shelf, source)
        }
    }
}

/// Restores what stands behind the header of a clone image to a file.
pub fn restore_behind<S: Shelf, I: Source>(
    alloc: Global,
    output: &Output,
    header: &CloneHeader,
    shelf: &mut S,
    source: &mut I,
) -> Result<(), Status>
    requires header { IsHeader header.now }
    requires free { has_name output.now.name.now (S.seen shelf.old).attached ≡ false }
    ensures ends { IfFiles S.Shelf shelf.old (λ files. IsTrue (I.seen source.old).is_told
        → let o = output.now in
        Ends (outcome_or files
        (restored_in o.file o.name.now o.overwrite header.now (to_come (I.seen source.old)) files))
        (status_of result) (S.seen shelf.new).files) }
    ensures left { IfFiles S.Shelf shelf.old (λ files. IsTrue (I.seen source.old).is_told
        → LeavesOutput (Some output.now.name.now) output.now.overwrite
        (IsPartOf header.now (to_come (I.seen source.old))) files (S.seen shelf.new).files) }
    ensures others { IfFiles S.Shelf shelf.old (λ files.
        KeepsOtherFiles (Some output.now.name.now) files (S.seen shelf.new).files) }
    ensures end { OnOk result (IsTrue (I.seen source.old).is_told → to_come (I.seen source.new) ≡ []) }
    ensures kept { HasGiven (I.seen source.old) (I.seen source.new) }
    ensures takes { I.faults source.old ≤ I.faults source.new }
    ensures makes { MakesFiles S.Shelf (FileRefuses output.now.file output.now.overwrite)
        shelf.old shelf.new (Rose (I.faults source.old) (I.faults source.new)) result }
{
    let mut file = create_file(output.file, output.name, output.overwrite, shelf)?;
    let result = restore_to_file(alloc, header, source, &mut file);
    shelf.release(file);
    result
}
