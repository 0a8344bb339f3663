//! What the rows of the tables are made of.

/// A row of the table of areas: how many clusters an area has, from which VCN on it holds its stream, and what that
/// has.
#[derive(Clone, Copy)]
pub struct AreaRow {
    pub length: ClusterCount,
    pub first_vcn: ClusterCount,
    pub content: Content,
}

/// A number of clusters.
#[derive(Clone, Copy)]
pub enum ClusterCount {
    /// As many as these bytes need.
    ForBytes(u32),
    /// As many as the bytes of $Bitmap need.
    ForBitmap,
    Exactly(u32),
    /// Those of `fileNN`.
    OfFile(u32),
}

/// What a stream in clusters has. Behind it the stream has zeros.
#[derive(Clone, Copy)]
pub enum Content {
    Boot,
    /// All records.
    Mft,
    /// The records below 4.
    Mirror,
    Log,
    Bitmap,
    UpCase,
    Index,
    /// Bytes that count up from this number, in so many clusters.
    Counting(u32, ClusterCount),
}

/// An area of the volume: its first cluster, how many it has, and the stream that it holds from a VCN on.
#[derive(Clone, Copy)]
pub struct Area {
    pub start: u64,
    pub length: u64,
    pub first_vcn: u64,
    pub content: Content,
}

/// A file record. One that is not in use has no flags.
#[derive(Clone, Copy)]
pub struct Row {
    pub number: u32,
    pub flags: u16,
    /// The base record of an extension.
    pub base: Option<u32>,
    pub attributes: &'static [Attribute],
}

/// An attribute: its type, its name in ASCII, and what it has.
#[derive(Clone, Copy)]
pub struct Attribute {
    pub kind: u32,
    pub name: &'static [u8],
    pub body: AttributeBody,
}

/// What an attribute has.
#[derive(Clone, Copy)]
pub enum AttributeBody {
    /// A resident value of so many zeros.
    Zeros(usize),
    /// A resident value of these bytes.
    Bytes(&'static [u8]),
    /// A resident list of attributes.
    List(&'static [ListEntry]),
    /// A resident file name.
    Name(FileName),
    /// A resident index root.
    Root(Root),
    /// Clusters.
    Extent(Extent),
}

/// A file name: the record of its directory, its namespace, and its letters in ASCII.
#[derive(Clone, Copy)]
pub struct FileName {
    pub parent: u32,
    pub space: u8,
    pub letters: &'static [u8],
}

/// An entry of an attribute list.
#[derive(Clone, Copy)]
pub struct ListEntry {
    pub kind: u32,
    pub lowest: LowestVcn,
    pub number: u32,
    pub instance: u16,
}

/// The lowest VCN that an entry of an attribute list tells.
#[derive(Clone, Copy)]
pub enum LowestVcn {
    Zero,
    /// The VCN behind the clusters of this area.
    Behind(usize),
}

/// What an index root has.
#[derive(Clone, Copy)]
pub enum Root {
    /// The end alone, with all names in the block 0.
    Child,
    /// The end alone.
    Empty,
    /// One name, of this record, and the end.
    One(u32, FileName),
}

/// An extent of a stream: what stands before it in the stream, the three runs that it has, and what stands behind it.
/// The sizes are the stream's; an extent that isn't the first tells 0.
#[derive(Clone, Copy)]
pub struct Extent {
    pub flags: u16,
    /// The compression unit.
    pub unit: u16,
    /// The bytes of the clusters, where the extent tells them.
    pub compressed_size: Option<Size>,
    pub before: PlannedRun,
    pub first: PlannedRun,
    pub second: PlannedRun,
    pub third: PlannedRun,
    pub behind: PlannedRun,
    pub size: Size,
    pub initialised: Size,
}

/// A run, before the areas have their places.
#[derive(Clone, Copy)]
pub enum PlannedRun {
    NoRun,
    /// The clusters of an area.
    InArea(usize),
    /// So many holes.
    Holes(u32),
    /// The holes before the bad cluster.
    BeforeBad,
    Bad,
    /// The holes behind the bad cluster.
    BehindBad,
}

/// A number of bytes.
#[derive(Clone, Copy)]
pub enum Size {
    Exact(u64),
    /// Those of so many clusters.
    Clusters(u32),
    /// Those of a cluster and so many more.
    ClusterAnd(u32),
    /// Those of the clusters of an area.
    InArea(usize),
    Bitmap,
    /// Those of all clusters.
    Volume,
}

/// A name of the root's index, and the record that has it.
#[derive(Clone, Copy)]
pub struct RootName {
    pub number: u32,
    pub name: FileName,
}
