//! Files of a tree that are cut, by the names that they have.

ghost use Rattle.std.specs.Prelude.{◌≡◌, ◌==◌, ◌&&◌, ◌||◌, not, ℕ, Some, true, IfOk, length, slice_index_or, cond};
ghost use Rattle.ips_outside.specs.Table.{node_of, one_node, file_of};
ghost use Rattle.ips_outside.specs.Tearing.{halved, in_set, AreKept, IsHalf};

use crate::table::{Kind, Node, Paths};
use std::alloc::{AllocError, Global};
use std::collections::BTreeSet;

/// Of each node whether it has a name that isn't among these.
pub fn kept_nodes(
    alloc: Global,
    paths: &Paths,
    count: usize,
    names: &BTreeSet<Vec<u8>>,
) -> Result<Vec<bool>, AllocError>
    ensures length { IfOk result (λ kept. length kept.items ≡ count) }
    ensures kept { IfOk result (λ kept. AreKept paths.now.entries count (in_set names.now) kept.items) }
{
    let mut kept = vec![in alloc; false; count]?;
    for (path, kind) in paths.iter() {
        mark(&mut kept, path, kind, names);
    }
    Ok(kept)
}

// Says of the node of what stands at a path that it is kept, if the path isn't among these.
fn mark(kept: &mut Vec<bool>, path: &[u8], kind: &Kind, names: &BTreeSet<Vec<u8>>)
    ensures length { length kept.new.items ≡ length kept.old.items }
    ensures marked { (n : ℕ) → slice_index_or kept.new.items n true ≡ (slice_index_or kept.old.items n true || (one_node (node_of (Some kind.now)) (Some n) && not (in_set names.now path.now))) }
{
    if let Kind::File { node } = kind {
        if !is_in(names, path) {
            set(kept, *node);
        }
    }
}

// Sets a flag, where there is one.
fn set(flags: &mut Vec<bool>, at: usize)
    ensures length { length flags.new.items ≡ length flags.old.items }
    ensures set { (n : ℕ) → slice_index_or flags.new.items n true ≡ (slice_index_or flags.old.items n true || (at == n)) }
{
    if at < flags.len() {
        flags[at] = true;
    }
}

// Whether a path is in a set.
fn is_in(names: &BTreeSet<Vec<u8>>, path: &[u8]) -> bool
    ensures { result ≡ in_set names.now path.now }
{
    names.contains(path)
}

/// Cuts each file to half its length that isn't kept.
pub fn cut_others(nodes: &mut Vec<Node>, kept: &[bool])
    requires { length kept.now ≡ length nodes.old.items }
    ensures cut { (n : ℕ) → file_of nodes.new.items n ≡ cond (slice_index_or kept.now n true) (file_of nodes.old.items n) (halved (file_of nodes.old.items n)) }
{
    for i in 0..kept.len() {
        if !kept[i] {
            halve(&mut nodes[i]);
        }
    }
}

// Cuts a file to half its length.
fn halve(node: &mut Node)
    ensures { IsHalf node.old node.new }
{
    let half = node.bytes.len() / 2;
    node.bytes.truncate(half);
}
