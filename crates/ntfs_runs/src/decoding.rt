ghost use Rattle.std.specs.Prelude.{◌≡◌, ℕ, List, IfOk};
ghost use Rattle.ntfs_runs.specs.declared.run.Run.{Run};
ghost use Rattle.ntfs_runs.specs.Clusters.{AreSpellable, AreWithin};
ghost use Rattle.ntfs_runs.specs.Spelling.{SpelledInFront, IsWrongAfter};
ghost use Rattle.ntfs_runs.specs.Reading.{reading};
ghost use Rattle.ntfs_runs.specs.Decoding.{IsUnlessNoMemory, GivesReading};

use crate::fault::PairsFault;
use crate::reader::pairs;
use crate::run_list::RunList;
use std::alloc::Global;

fn decode_all(alloc: Global, bytes: &[u8]) -> Result<RunList, PairsFault>
    ensures { GivesReading result (reading bytes.now) }
{
    let mut runs = RunList::new(alloc);
    'pairs: for item in pairs(bytes) {
        match item {
            Ok(run) => runs.push(run)?,
            Err(fault) => return Err(PairsFault::BadPairs { place: fault.place }),
        }
    }
    Ok(runs)
}

/// The runs that the bytes of mapping pairs spell. What follows the closing 0 plays no part.
pub fn decode(alloc: Global, bytes: &[u8]) -> Result<RunList, PairsFault>
    // What is read is spelled so.
    ensures found { IfOk result (λ list. SpelledInFront bytes.now list) }
    // What is spelled so is read, unless memory runs out.
    ensures only { (runs : List Run) → SpelledInFront bytes.now runs → IsUnlessNoMemory result (Ok runs) }
    // A place is that of the first header that isn't right, and comes wherever there is one, unless memory runs out.
    ensures bad { (place : ℕ) → result ≡ Err (PairsFault.BadPairs place)
        → (runs : List Run) × IsWrongAfter bytes.now runs place }
    ensures first { (runs : List Run) (place : ℕ) → IsWrongAfter bytes.now runs place
        → IsUnlessNoMemory result (Err (PairsFault.BadPairs place)) }
    ensures exact { GivesReading result (reading bytes.now) }
    // What is read can be spelled again, and looked up.
    ensures spellable { IfOk result (λ list. AreSpellable list) }
    ensures within { IfOk result (λ list. AreWithin list) }
{
    decode_all(alloc, bytes)
}
