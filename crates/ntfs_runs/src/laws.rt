//! Laws of the definitions, each the contract of a function that does nothing.

ghost use Rattle.std.specs.Prelude.{◌≡◌, ◌≤◌, ◌<◌, ◌↔◌, ℕ, List, [], ◌++◌, length, slice_index, IfSome, Option, true, false};
ghost use Rattle.std.specs.List.{AllByRecursion};
ghost use Rattle.ntfs_runs.specs.declared.run.Run.{Run};
ghost use Rattle.ntfs_runs.specs.Clusters.{vcns};
ghost use Rattle.ntfs_runs.specs.Spelling.{Spells, SpelledInFront, IsWrongHeader, IsCaused};
ghost use Rattle.ntfs_runs.specs.Cells.{cells_of, map_cells};
ghost use Rattle.ntfs_runs.specs.Canon.{canon, AreMaximal, AreCells};

/// The canonical spelling of cells spells runs with these cells, of which no two neighbours can be joined, and no
/// others.
pub fn canon_is_read_back()
    ensures spelled { (cells : List (Option ℕ)) → AreCells cells
        → (runs : List Run) × Spells (canon cells) runs × AreMaximal runs × (vcns runs ≡ cells) }
    ensures back { (cells : List (Option ℕ)) (runs : List Run) → AreCells cells → Spells (canon cells) runs
        → vcns runs ≡ cells }
{}

/// No spelling of runs that can't be joined is shorter than the canonical one of their cells.
pub fn canon_is_shortest()
    ensures { (text : List ℕ) (runs : List Run) → ((i : ℕ) → slice_index text i < 256) → Spells text runs
        → AreMaximal runs → length (canon (vcns runs)) ≤ length text }
{}

/// No spelling is a proper front of another, and bytes have one reading at most.
pub fn no_spelling_begins_another()
    ensures front { (text other more : List ℕ) (runs others : List Run) → Spells text runs → Spells other others
        → text ++ more ≡ other → more ≡ [] }
    ensures one { (text other more rest : List ℕ) (runs others : List Run) → Spells text runs → Spells other others
        → text ++ more ≡ other ++ rest → (text ≡ other) × (runs ≡ others) }
{}

/// The cells of pairs are right exactly where a front of the bytes spells runs, and are then the runs' cells.
pub fn cells_are_spelled()
    ensures spelled { (bytes : List ℕ) (runs : List Run) → SpelledInFront bytes runs
        → cells_of bytes ≡ record { is_right = true; cells = vcns runs } }
    ensures right { (bytes : List ℕ) → (cells_of bytes).is_right ≡ true
        → (runs : List Run) × SpelledInFront bytes runs × ((cells_of bytes).cells ≡ vcns runs) }
    ensures wrong { (bytes : List ℕ) → (cells_of bytes).is_right ≡ false → (cells_of bytes).cells ≡ [] }
{}

/// The canonical spelling of cells is read as these cells, whatever stands behind it.
pub fn canon_is_read_before_padding()
    ensures { (cells : List (Option ℕ)) (more : List ℕ) → AreCells cells
        → cells_of (canon cells ++ more) ≡ record { is_right = true; cells = cells } }
{}

/// Cells mapped twice are mapped once by one function after the other, and functions that agree on the clusters that
/// are there map cells alike.
pub fn maps_of_cells_compose()
    ensures twice { (f g : ℕ → ℕ) (cells : List (Option ℕ))
        → map_cells g (map_cells f cells) ≡ map_cells (λ k. g (f k)) cells }
    ensures alike { (f g : ℕ → ℕ) (cells : List (Option ℕ))
        → AllByRecursion (λ cell. IfSome cell (λ k. f k ≡ g k)) cells → map_cells f cells ≡ map_cells g cells }
{}

/// A header is wrong exactly where it has one of the format's causes.
pub fn wrong_headers_have_causes()
    ensures { (last room : ℕ) (bytes : List ℕ) → IsWrongHeader last room bytes ↔ IsCaused last room bytes }
{}
