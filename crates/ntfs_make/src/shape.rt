ghost use Rattle.std.specs.Prelude.{◌≡◌, ◌≤◌, ◌<◌, ◌^◌, ℕ, IsTrue, IsFalse};
ghost use Rattle.ntfs_base.specs.Bytes.{clusters_for};
ghost use Rattle.ntfs_make.specs.Shape as spec;

/// What a volume is made from: the seed, the number of clusters and the bytes of each.
#[derive(Clone, Copy)]
pub struct Shape {
    pub seed: u64,
    pub clusters: u64,
    pub cluster: u64,
}

// How many clusters these bytes need.
#[tactic(auto, unfolding(ntfs_base::specs::Bytes::clusters_for))]
pub(crate) fn clusters_for(bytes: u64, cluster: u64) -> u64
    requires bytes { bytes < 2 ^ 40 }
    requires cluster { 512 ≤ cluster }
    requires most { cluster ≤ 65536 }
    ensures { result ≡ clusters_for bytes cluster }
{
    (bytes + (cluster - 1)) / cluster
}

// The bytes of $Bitmap: whole words of 64 bits.
#[tactic(auto, unfolding(crate::specs::Shape::bitmap_size))]
pub(crate) fn bitmap_size(clusters: u64) -> u64
    requires { clusters < 2 ^ 40 }
    ensures { result ≡ spec.bitmap_size clusters }
{
    8 * ((clusters + 63) / 64)
}

// The sectors that the boot sector tells.
#[tactic(auto, unfolding(crate::specs::Shape::sectors))]
pub(crate) fn sectors(shape: &Shape) -> u64
    requires { spec.IsShape shape.now }
    ensures { result ≡ spec.sectors shape.now }
{
    let each = shape.cluster / 512;
    let odd = if shape.seed % 2 == 1 { each - 1 } else { 0 };
    shape.clusters * each + odd
}

// The bad cluster.
#[tactic(auto, unfolding(crate::specs::Shape::bad_cluster))]
pub(crate) fn bad_cluster(clusters: u64) -> u64
    ensures { result ≡ spec.bad_cluster clusters }
{
    clusters / 2
}

// Whether the number is a power of two from 512 to 65,536.
#[tactic(auto, unfolding(crate::specs::Shape::is_cluster_size))]
fn is_cluster_size(cluster: u32) -> bool
    ensures { result ≡ spec.is_cluster_size cluster }
{
    cluster == 512
        || cluster == 1024
        || cluster == 2048
        || cluster == 4096
        || cluster == 8192
        || cluster == 16384
        || cluster == 32768
        || cluster == 65536
}

/// Whether `make` makes a volume of so many clusters of so many bytes.
pub fn is_in_range(clusters: u32, cluster: u32) -> bool
    ensures yes { IsTrue result → (seed : ℕ) → spec.IsShape (spec.shape_of seed clusters cluster) }
    ensures no { IsFalse result → (seed : ℕ) → ¬ spec.IsShape (spec.shape_of seed clusters cluster) }
{
    let least = if cluster == 512 { 2048 } else { 1024 };
    is_cluster_size(cluster) && least <= clusters && clusters <= 1_048_576
}
