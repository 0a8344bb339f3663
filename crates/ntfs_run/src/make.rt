//! `ntfsmake`.
ghost use Rattle.std.specs.Prelude.{◌≡◌, ◌+◌, ◌*◌, [], IfErr, IsTrue, OnOk};
ghost use Rattle.ntfs_base.specs.Frames.{IfFiles, IfTold, OnlyWrites};
ghost use Rattle.ntfs_make.specs.Volume.{volume_bytes_of};
ghost use Rattle.ntfs_make.specs.Shape.{IsShape, shape_of};
ghost use Rattle.ntfs_run.specs.Make.{FillRefuses, IsPart, LeavesFile, MakeRefuses, make_work};
ghost use Rattle.ntfs_run.specs.Outcome.{Does, MayWriteFiles, outcome_of, status_of, status_origin};

use crate::outside::{create_file, flush};
use crate::status::Status;
use ntfs_base::{HostFile, Named, Shelf, Sink};
use ntfs_make::make;
use std::alloc::Global;

/// What is made: the file, the seed, how many clusters the volume has, and their size in bytes.
#[derive(Clone, Copy)]
pub struct MakeRequest<'a> {
    pub file: &'a str,
    pub seed: u64,
    pub clusters: u32,
    pub cluster: u32,
}

/// Makes a volume in a new file. The output is flushed before, so that its faults leave no file.
pub fn make_file<S: Shelf, O: Sink>(
    alloc: Global,
    request: &MakeRequest,
    shelf: &mut S,
    out: &mut O,
) -> Result<(), Status>
    requires attached { (S.seen shelf.old).attached ≡ [] }
    requires shape { IsShape (shape_of request.now.seed request.now.clusters request.now.cluster) }
    ensures does { IfFiles S.Shelf shelf.old (λ files.
        let work = make_work request.now.file.now request.now.seed request.now.clusters request.now.cluster files in
        Does (outcome_of files work) (status_of result) (O.seen out.old) (O.seen out.new) (S.seen shelf.new).files) }
    ensures left { IfFiles S.Shelf shelf.old (λ files.
        LeavesFile request.now.file.now request.now.seed request.now.clusters request.now.cluster files
        (S.seen shelf.new).files) }
    ensures runs { MayWriteFiles S.Shelf O.Sink MakeRefuses shelf.old shelf.new out.old out.new result }
{
    flush(out)?;
    let mut file = create_file(Named::Output, request.file, false, shelf)?;
    let result = fill(alloc, request, &mut file);
    shelf.release(file);
    result
}

/// Sets the length of an empty file and makes the volume in it.
fn fill<F: HostFile>(alloc: Global, request: &MakeRequest, file: &mut F) -> Result<(), Status>
    requires shape { IsShape (shape_of request.now.seed request.now.clusters request.now.cluster) }
    requires empty { IsTrue (F.seen file.old).is_told → (F.seen file.old).content ≡ [] }
    requires size { (F.seen file.old).size ≡ 0 }
    ensures name { (F.seen file.new).name ≡ (F.seen file.old).name }
    ensures made { IfTold F.Image file.old (λ content.
        OnOk result
        ((F.seen file.new).content ≡ volume_bytes_of request.now.seed request.now.clusters request.now.cluster)) }
    ensures left { IfTold F.Image file.old (λ content.
        IsPart request.now.seed request.now.clusters request.now.cluster (F.seen file.new).content) }
    ensures writes { OnlyWrites F.Image status_origin file.old file.new result }
    ensures refusal { IfErr result FillRefuses }
{
    file.set_len(volume_len(request))?;
    make(alloc, file, request.seed, request.clusters, request.cluster)?;
    Ok(())
}

/// How many bytes the volume has, with the copy of its boot sector.
fn volume_len(request: &MakeRequest) -> u64
    ensures { result ≡ (request.now.clusters + 1) * request.now.cluster }
{
    (u64::from(request.clusters) + 1) * u64::from(request.cluster)
}
