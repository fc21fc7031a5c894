ghost use Rattle.std.specs.Prelude.{◌≡◌, IfOk};
ghost use Rattle.branch.specs.Ids.{node_ids};
ghost use Rattle.branch.specs.Path.{IsFirst, IsAdded, next};

use crate::node::Node;
use sqlite_items::Items;
use std::alloc::{AllocError, Global};

/// The path to the next child behind the path's last place, or else behind the place above it, and so on.
pub(crate) fn next_path(
    alloc: Global,
    node: &Node,
    path: &[usize],
) -> Result<Option<Items<usize>>, AllocError>
    requires { IsFirst path.now (node_ids node.now) }
    ensures { IfOk result (λ r. r ≡ next path.now (node_ids node.now)) }
{
    let mut found = Items::new(alloc);
    if add_next(&mut found, node, path)? {
        Ok(Some(found))
    } else {
        Ok(None)
    }
}

// Adds the next path at the end of the places above it. Where there is none, they stay.
fn add_next(found: &mut Items<usize>, node: &Node, path: &[usize]) -> Result<bool, AllocError>
    requires { IsFirst path.now (node_ids node.now) }
    ensures { IfOk result (IsAdded found.old found.new (next path.now (node_ids node.now))) }
{
    match path {
        [] => Ok(false),
        [place, rest @ ..] => match node {
            Node::Step { children, .. } => {
                found.push(*place)?;
                if add_next(found, &children[*place].node, rest)? {
                    return Ok(true);
                }
                let _ = found.pop();
                let behind = *place + 1;
                if behind < children.len() {
                    found.push(behind)?;
                    Ok(true)
                } else {
                    Ok(false)
                }
            }
            Node::Closed(_) | Node::Open | Node::Skipped => Ok(false),
        },
    }
}
