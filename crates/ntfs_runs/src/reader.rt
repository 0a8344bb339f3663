ghost use Rattle.std.specs.Prelude.{◌≡◌, ◌↔◌, ℕ, List, map};
ghost use Rattle.ntfs_runs.specs.declared.run.Run.{Run};
ghost use Rattle.ntfs_runs.specs.Spelling.{SpelledInFront, IsWrongAfter};
ghost use Rattle.ntfs_runs.specs.Reading.{reading, items, with_fault};

use crate::walk::Pairs;

/// The runs that mapping pairs spell, up to the closing 0 or to the first header that isn't right. It takes no memory.
pub fn pairs<'a>(bytes: &'a [u8]) -> Pairs<'a>
    // Runs without a fault come exactly where a front of the bytes spells them.
    ensures spelled { (runs : List Run) → (result ≡ map Ok runs) ↔ SpelledInFront bytes.now runs }
    // A fault comes behind these runs exactly where the first header that isn't right stands behind their pairs.
    ensures fault { (runs : List Run) (place : ℕ)
        → (result ≡ with_fault runs place) ↔ IsWrongAfter bytes.now runs place }
    ensures exact { result ≡ items (reading bytes.now) }
{
    Pairs::new(bytes)
}
