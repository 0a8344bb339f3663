//! What holds of the words of the contracts, for all sets and numbers: each function is a law, and does nothing.

ghost use Rattle.std.specs.Prelude.{◌≡◌, ◌↔◌, ◌+◌, ◌*◌, ◌<◌, ◌≤◌, ◌||◌, ◌++◌, ℕ, false, true, List, length};
ghost use Rattle.std.specs.List.{Contains};
ghost use Rattle.std.specs.List.Sorted.{IsStrictlyIncreasing};
ghost use Rattle.ntfs_bitmap.specs.Bits.{bit_of};
ghost use Rattle.ntfs_bitmap.specs.ClusterSet.{Clusters, bound_of, with_claim, count_below, empty_set, has, in_run, members};

/// A set is its bound and its members, which are below the bound.
pub fn sets_are_their_members()
    ensures below { (set : Clusters) (cluster : ℕ) → has set cluster ≡ true → cluster < bound_of set }
    ensures same { (a b : Clusters) → bound_of a ≡ bound_of b
        → ((cluster : ℕ) → has a cluster ≡ has b cluster) → a ≡ b }
{}

/// The empty set has its bound and no number; a claim keeps the bound, and adds just the numbers of its run.
pub fn claims_add_their_runs()
    ensures empty_bound { (bound : ℕ) → bound_of (empty_set bound) ≡ bound }
    ensures empty { (bound cluster : ℕ) → has (empty_set bound) cluster ≡ false }
    ensures bound { (first length : ℕ) (set : Clusters) → bound_of (with_claim first length set) ≡ bound_of set }
    ensures claimed { (first length : ℕ) (set : Clusters) (cluster : ℕ) → first + length ≤ bound_of set
        → has (with_claim first length set) cluster ≡ has set cluster || in_run first length cluster }
{}

/// Claims in any order give one set.
pub fn claims_come_in_any_order()
    ensures { (first length next more : ℕ) (set : Clusters)
        → with_claim first length (with_claim next more set) ≡ with_claim next more (with_claim first length set) }
{}

/// Two claims of runs in a row are one.
pub fn claims_in_a_row_are_one()
    ensures { (first length more : ℕ) (set : Clusters)
        → with_claim (first + length) more (with_claim first length set) ≡ with_claim first (length + more) set }
{}

/// What is counted below a number are the members below it, each once; from the bound on these are all.
pub fn members_are_counted()
    ensures counted { (set : Clusters) (n : ℕ) → count_below set n ≡ length (members set n) }
    ensures member { (set : Clusters) (n cluster : ℕ)
        → Contains (members set n) cluster ↔ ((cluster < n) × (has set cluster ≡ true)) }
    ensures ascending { (set : Clusters) (n : ℕ) → IsStrictlyIncreasing (members set n) }
    ensures all { (set : Clusters) (n : ℕ) → bound_of set ≤ n → count_below set n ≡ count_below set (bound_of set) }
{}

/// Bits in two pieces: those of the first, and behind them those of the second.
pub fn bits_come_in_pieces()
    ensures first { (bits more : List ℕ) (place : ℕ) → place < 8 * length bits
        → bit_of (bits ++ more) place ≡ bit_of bits place }
    ensures second { (bits more : List ℕ) (place : ℕ)
        → bit_of (bits ++ more) (8 * length bits + place) ≡ bit_of more place }
{}
