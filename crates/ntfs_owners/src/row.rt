//! A row of clusters.

ghost use Rattle.std.specs.Prelude.{◌<◌, ◌+◌, ◌-◌, ◌^◌};

/// Clusters in a row from a first one on, below an end, from a VCN on, and the text that tells whose they are.
#[derive(Clone, Copy)]
pub(crate) struct Row<'a> {
    pub(crate) text: &'a str,
    pub(crate) vcn: u64,
    pub(crate) first: u64,
    pub(crate) end: u64,
    ghost some: { first < end },
    ghost fits: { vcn + (end - first) < 2 ^ 64 },
}
