/// Clusters in a row, or a hole of so many clusters where there is no first cluster.
#[derive(Clone, Copy, Debug, PartialEq, Eq)]
pub struct Run {
    pub length: u64,
    pub lcn: Option<u64>,
}
