//! Laws of the definitions. Each function does nothing, and its contract is the law.

ghost use Rattle.std.specs.Prelude.{◌≡◌, ℕ, List, Result, Some, Err, Ok};
ghost use Rattle.ntfs_base.specs.Frames.{OnlyReads, Origin};
ghost use Rattle.ntfs_base.specs.declared.refusal.Rule.{Rule};
ghost use Rattle.ntfs_check.specs.Checked.{StandsOn};
ghost use Rattle.ntfs_check.specs.Findings.{VolumeFindings, examined, findings_of};
ghost use Rattle.ntfs_rules.specs.Accepts.{Accepts, Broken, damaged, first_fault};
ghost use Rattle.ntfs_rules.specs.Laws.{data_in};
ghost use Rattle.ntfs_rules.specs.declared.fault.CheckFault.TheVariants as check;
ghost use Rattle.ntfs_volume.specs.Opened.{Opened, opened_of};

use ntfs_base::Image;

/// Of an image that opens: it is accepted exactly where it is examined with no refusal, and what is found is what its
/// volume has; it is examined with the refusal of a rule exactly where this is its first fault.
pub fn accepted_images_are_examined()
    ensures accepted { (image : List ℕ) (o : Opened) (f : VolumeFindings) → opened_of image ≡ Ok o
        → examined (data_in image o) ≡ Ok f → Accepts image }
    ensures found { (image : List ℕ) (o : Opened) (f : VolumeFindings) → opened_of image ≡ Ok o
        → examined (data_in image o) ≡ Ok f → f ≡ findings_of (data_in image o) }
    ensures examined { (image : List ℕ) (o : Opened) → opened_of image ≡ Ok o → Accepts image
        → examined (data_in image o) ≡ Ok (findings_of (data_in image o)) }
    ensures refused { (image : List ℕ) (o : Opened) (broken : Broken) → opened_of image ≡ Ok o
        → examined (data_in image o) ≡ Err (check.Damaged broken.rule broken.number)
        → first_fault image ≡ Some (damaged broken) }
    ensures broken { (image : List ℕ) (o : Opened) (broken : Broken) → opened_of image ≡ Ok o
        → first_fault image ≡ Some (damaged broken)
        → examined (data_in image o) ≡ Err (check.Damaged broken.rule broken.number) }
{}

/// Reading keeps what stands: it looks at the image only as it is seen.
pub fn reading_keeps_what_stands<G: Image, T, E>()
    ensures { (origin : E → Origin) (old new : G) (result : Result T E) (o : Opened) (f : VolumeFindings)
        → OnlyReads G.Image origin old new result → StandsOn (G.seen old) o f → StandsOn (G.seen new) o f }
{}
