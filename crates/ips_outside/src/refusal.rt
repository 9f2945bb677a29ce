//! Why a tree refuses an entry.

/// Why nothing was made at a path of a tree. They are tested in this order.
#[derive(Clone, Copy, Debug, PartialEq, Eq, Drop)]
pub enum TreeFault {
    /// The path has a parent, at which no directory stands.
    NoParent,
    /// Something stands at the path.
    Taken,
    /// No file stands at the path that is to get a further name. `Tree::hard` alone tells it.
    NoFile,
}
