//! `ntfstrial`.
ghost use Rattle.std.specs.Prelude.{◌≡◌, ◌≤◌, ◌++◌, ◌∷◌, ℕ, List, [], true, false, length, Some, Ok, IfErr, IfOk};
ghost use Rattle.std.specs.Prelude.{IsSome, IsTrue, OnOk, string_bytes};
ghost use Rattle.std.specs.Str.{bytes_eq};
ghost use Rattle.ntfs_base.specs.Causes.{Rose};
ghost use Rattle.ntfs_base.specs.Frames.{IfFiles, IfTold, OnlyPuts, Puts};
ghost use Rattle.ntfs_base.specs.Shelf.{file_of, has_name};
ghost use Rattle.ntfs_bitmap.specs.ClusterSet.{has};
ghost use Rattle.ntfs_clone.specs.CloneOf.{owned_count};
ghost use Rattle.ntfs_clone.specs.Taking.{HasGiven, to_come};
ghost use Rattle.ntfs_run.specs.Clone.{IsRestoredFrom, IsSavedFrom, LeavesOutput};
ghost use Rattle.ntfs_run.specs.Job.{IsRestoredOf, IsSavedOf, MakesAndPuts, restored_as, restored_behind_line};
ghost use Rattle.ntfs_run.specs.Job.{restored_of, saved_from, saved_of};
ghost use Rattle.ntfs_run.specs.Make.{FillRefuses};
ghost use Rattle.ntfs_run.specs.Message.{with_number};
ghost use Rattle.ntfs_run.specs.Outcome.{Does, KeepsOtherFiles, MayWriteFiles, outcome_or, status_of, status_origin};
ghost use Rattle.ntfs_run.specs.Trial.{LeavesTrial, TrialRefuses, back_name, clone_name, trial_names, trial_outcome};

use crate::checked::{Accepted, check_volume};
use crate::clone::{Output, restore_behind, save_checked};
use crate::make::{MakeRequest, make_file};
use crate::outside::{attach_file, flush};
use crate::restoring::read_clone_header;
use crate::status::Status;
use ntfs_base::{FileSource, Image, Line, Named, Shelf, Sink, Source};
use std::alloc::{AllocError, Global};

/// Tries a volume: makes it in a new file, checks it, saves its clone image to a second file and restores that to a
/// third one. A line is put, and flushed, after each job.
pub fn try_volume<S: Shelf, O: Sink>(
    alloc: Global,
    seed: u64,
    name: &str,
    shelf: &mut S,
    out: &mut O,
) -> Result<(), Status>
    requires attached { (S.seen shelf.old).attached ≡ [] }
    ensures does { IfFiles S.Shelf shelf.old (λ files. Does (trial_outcome seed name.now files) (status_of result)
        (O.seen out.old) (O.seen out.new) (S.seen shelf.new).files) }
    ensures left { IfFiles S.Shelf shelf.old (λ files. LeavesTrial seed name.now files (S.seen shelf.new).files) }
    ensures others { IfFiles S.Shelf shelf.old (λ files. (other : List ℕ)
        → has_name other (trial_names name.now) ≡ false
        → file_of (S.seen shelf.new).files other ≡ file_of files other) }
    ensures runs { MayWriteFiles S.Shelf O.Sink TrialRefuses shelf.old shelf.new out.old out.new result }
{
    let clone = joined(alloc, name, ".clone")?;
    let back = joined(alloc, name, ".back")?;
    do_jobs(alloc, seed, name, clone.as_str(), back.as_str(), shelf, out)
}

/// Two texts as one.
fn joined(alloc: Global, text: &str, end: &str) -> Result<String, AllocError>
    ensures { IfOk result (λ whole. string_bytes whole ≡ text.now ++ end.now) }
{
    let mut whole = String::from_str(alloc, text)?;
    whole.push_str(end)?;
    Ok(whole)
}

/// Does the three jobs, one after another. The first refusal ends it.
fn do_jobs<S: Shelf, O: Sink>(
    alloc: Global,
    seed: u64,
    name: &str,
    clone: &str,
    back: &str,
    shelf: &mut S,
    out: &mut O,
) -> Result<(), Status>
    requires attached { (S.seen shelf.old).attached ≡ [] }
    requires clone { clone.now ≡ clone_name name.now }
    requires back { back.now ≡ back_name name.now }
    ensures does { IfFiles S.Shelf shelf.old (λ files. Does (trial_outcome seed name.now files) (status_of result)
        (O.seen out.old) (O.seen out.new) (S.seen shelf.new).files) }
    ensures left { IfFiles S.Shelf shelf.old (λ files. LeavesTrial seed name.now files (S.seen shelf.new).files) }
    ensures others { IfFiles S.Shelf shelf.old (λ files. (other : List ℕ)
        → has_name other (trial_names name.now) ≡ false
        → file_of (S.seen shelf.new).files other ≡ file_of files other) }
    ensures runs { MayWriteFiles S.Shelf O.Sink TrialRefuses shelf.old shelf.new out.old out.new result }
{
    let request = MakeRequest {
        file: name,
        seed,
        clusters: 16_384,
        cluster: 4096,
    };
    make_file(alloc, &request, shelf, out)?;
    save_trial(alloc, name, clone, shelf, out)?;
    restore_trial(alloc, clone, back, shelf, out)
}

// ---- the clone image

/// Checks the volume of a file and saves its clone image to a new one.
fn save_trial<S: Shelf, O: Sink>(
    alloc: Global,
    name: &str,
    clone: &str,
    shelf: &mut S,
    out: &mut O,
) -> Result<(), Status>
    requires attached { (S.seen shelf.old).attached ≡ [] }
    requires apart { bytes_eq name.now clone.now ≡ false }
    ensures does { IfFiles S.Shelf shelf.old (λ files. Does (outcome_or files (saved_of name.now clone.now files))
        (status_of result) (O.seen out.old) (O.seen out.new) (S.seen shelf.new).files) }
    ensures left { IfFiles S.Shelf shelf.old (λ files.
        LeavesOutput (Some clone.now) false (IsSavedOf name.now files) files (S.seen shelf.new).files) }
    ensures made { IfFiles S.Shelf shelf.old (λ files.
        OnOk result (IsSome (file_of (S.seen shelf.new).files clone.now))) }
    ensures others { IfFiles S.Shelf shelf.old (λ files.
        KeepsOtherFiles (Some clone.now) files (S.seen shelf.new).files) }
    ensures runs { MayWriteFiles S.Shelf O.Sink TrialRefuses shelf.old shelf.new out.old out.new result }
{
    let mut file = attach_file(Named::Output, name, shelf)?;
    let result = save_attached(alloc, clone, &mut file, shelf, out);
    shelf.release(file);
    result
}

/// Checks the volume of an image, puts how many clusters it has, and saves its clone image to a new file.
fn save_attached<G: Image, S: Shelf, O: Sink>(
    alloc: Global,
    clone: &str,
    image: &mut G,
    shelf: &mut S,
    out: &mut O,
) -> Result<(), Status>
    requires { has_name clone.now (S.seen shelf.old).attached ≡ false }
    ensures does { IfTold G.Image image.old (λ content. IfFiles S.Shelf shelf.old (λ files.
        Does (outcome_or files (saved_from clone.now content files)) (status_of result) (O.seen out.old)
        (O.seen out.new) (S.seen shelf.new).files)) }
    ensures left { IfTold G.Image image.old (λ content. IfFiles S.Shelf shelf.old (λ files.
        LeavesOutput (Some clone.now) false (IsSavedFrom true true content) files (S.seen shelf.new).files)) }
    ensures made { IfTold G.Image image.old (λ content. IfFiles S.Shelf shelf.old (λ files.
        OnOk result (IsSome (file_of (S.seen shelf.new).files clone.now)))) }
    ensures others { IfFiles S.Shelf shelf.old (λ files.
        KeepsOtherFiles (Some clone.now) files (S.seen shelf.new).files) }
    ensures seen { G.seen image.new ≡ G.seen image.old }
    ensures makes { MakesAndPuts S.Shelf O.Sink shelf.old shelf.new out.old out.new
        (Rose (G.faults image.old).reads (G.faults image.new).reads) result }
{
    let checked = check_volume(alloc, image)?;
    put_count(
        b"made: 16384 clusters, ",
        owned_clusters(&checked),
        b" owned",
        out,
    )?;
    let output = Output {
        file: Named::Clone,
        name: clone,
        overwrite: false,
    };
    save_checked(alloc, true, &output, &checked, image, shelf)
}

/// How many clusters of a checked volume are owned.
fn owned_clusters(checked: &Accepted) -> u64
    ensures { result ≡ owned_count (has checked.now.findings.owned) 0 checked.now.table.geometry.clusters }
{
    let clusters = checked.table.geometry().clusters;
    checked.findings.owned().count_below(clusters)
}

// ---- what it restores

/// Restores the clone image of a file to a new one.
fn restore_trial<S: Shelf, O: Sink>(
    alloc: Global,
    clone: &str,
    back: &str,
    shelf: &mut S,
    out: &mut O,
) -> Result<(), Status>
    requires attached { (S.seen shelf.old).attached ≡ [] }
    requires apart { bytes_eq clone.now back.now ≡ false }
    ensures does { IfFiles S.Shelf shelf.old (λ files. Does (outcome_or files (restored_of clone.now back.now files))
        (status_of result) (O.seen out.old) (O.seen out.new) (S.seen shelf.new).files) }
    ensures left { IfFiles S.Shelf shelf.old (λ files.
        LeavesOutput (Some back.now) false (IsRestoredOf clone.now files) files (S.seen shelf.new).files) }
    ensures others { IfFiles S.Shelf shelf.old (λ files.
        KeepsOtherFiles (Some back.now) files (S.seen shelf.new).files) }
    ensures runs { MayWriteFiles S.Shelf O.Sink TrialRefuses shelf.old shelf.new out.old out.new result }
{
    let file = attach_file(Named::Clone, clone, shelf)?;
    let len = file.len();
    let mut source = FileSource::new(file);
    let result = restore_attached(alloc, len, back, shelf, &mut source, out);
    shelf.release(source.into_file());
    result
}

/// Puts how long a clone image is, and restores it to a new file.
fn restore_attached<S: Shelf, I: Source, O: Sink>(
    alloc: Global,
    len: u64,
    back: &str,
    shelf: &mut S,
    source: &mut I,
    out: &mut O,
) -> Result<(), Status>
    requires { has_name back.now (S.seen shelf.old).attached ≡ false }
    ensures does { IfFiles S.Shelf shelf.old (λ files. IsTrue (I.seen source.old).is_told
        → Does (restored_behind_line len back.now (to_come (I.seen source.old)) files) (status_of result)
        (O.seen out.old) (O.seen out.new) (S.seen shelf.new).files) }
    ensures left { IfFiles S.Shelf shelf.old (λ files. IsTrue (I.seen source.old).is_told
        → LeavesOutput (Some back.now) false (IsRestoredFrom (to_come (I.seen source.old))) files
        (S.seen shelf.new).files) }
    ensures others { IfFiles S.Shelf shelf.old (λ files.
        KeepsOtherFiles (Some back.now) files (S.seen shelf.new).files) }
    ensures kept { HasGiven (I.seen source.old) (I.seen source.new) }
    ensures makes { MakesAndPuts S.Shelf O.Sink shelf.old shelf.new out.old out.new
        (Rose (I.faults source.old) (I.faults source.new)) result }
{
    put_count(b"clone: ", len, b" bytes", out)?;
    restore_back(alloc, back, shelf, source, out)
}

/// Restores a clone image to a new file, and puts how long that is.
fn restore_back<S: Shelf, I: Source, O: Sink>(
    alloc: Global,
    back: &str,
    shelf: &mut S,
    source: &mut I,
    out: &mut O,
) -> Result<(), Status>
    requires { has_name back.now (S.seen shelf.old).attached ≡ false }
    ensures does { IfFiles S.Shelf shelf.old (λ files. IsTrue (I.seen source.old).is_told
        → Does (restored_as back.now (to_come (I.seen source.old)) files) (status_of result) (O.seen out.old)
        (O.seen out.new) (S.seen shelf.new).files) }
    ensures left { IfFiles S.Shelf shelf.old (λ files. IsTrue (I.seen source.old).is_told
        → LeavesOutput (Some back.now) false (IsRestoredFrom (to_come (I.seen source.old))) files
        (S.seen shelf.new).files) }
    ensures others { IfFiles S.Shelf shelf.old (λ files.
        KeepsOtherFiles (Some back.now) files (S.seen shelf.new).files) }
    ensures kept { HasGiven (I.seen source.old) (I.seen source.new) }
    ensures makes { MakesAndPuts S.Shelf O.Sink shelf.old shelf.new out.old out.new
        (Rose (I.faults source.old) (I.faults source.new)) result }
{
    let header = read_clone_header(source)?;
    let output = Output {
        file: Named::Back,
        name: back,
        overwrite: false,
    };
    restore_behind(alloc, &output, &header, shelf, source)?;
    put_count(b"restored: ", header.device, b" bytes", out)
}

// ---- lines

/// Puts a line with a number, and flushes it. It takes no memory.
fn put_count<O: Sink>(label: &[u8], count: u64, unit: &[u8], out: &mut O) -> Result<(), Status>
    requires label { length label.now ≤ 40 }
    requires unit { length unit.now ≤ 40 }
    ensures puts { Puts status_origin (Ok ((with_number label.now count ++ unit.now) ++ (10 ∷ []))) (O.seen out.old)
        result (O.seen out.new) }
    ensures frame { OnlyPuts O.Sink status_origin out.old out.new result }
    ensures refusal { IfErr result FillRefuses }
    ensures flushed { OnOk result (O.is_flushed out.new ≡ true) }
{
    let mut line = Line::new();
    line.push(label);
    line.push_number(count);
    line.push(unit);
    line.push(b"\n");
    put_flushed(&line, out)
}

/// Puts a line and flushes it.
fn put_flushed<O: Sink>(line: &Line, out: &mut O) -> Result<(), Status>
    ensures puts { Puts status_origin (Ok line.now) (O.seen out.old) result (O.seen out.new) }
    ensures frame { OnlyPuts O.Sink status_origin out.old out.new result }
    ensures refusal { IfErr result FillRefuses }
    ensures flushed { OnOk result (O.is_flushed out.new ≡ true) }
{
    out.put(line.as_bytes())?;
    flush(out)
}
