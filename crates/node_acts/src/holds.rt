//! What has the record of a node.

/// What has a record that calls are asked of. The calls of a kind of nodes ask for the record as this type lays it out. For
/// a node of rows that is what it keeps of them. For a record that lies beside the node it is the record's own type.
pub trait Holds {
    type By;
}
