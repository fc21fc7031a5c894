ghost use Rattle.std.specs.Prelude.{◌≡◌, map};
ghost use Rattle.std.specs.Option.{option_map, option_copied};
ghost use Rattle.branch.specs.Ids.{node_ids, child_ids, children_of};
ghost use Rattle.branch.specs.Path.{put, put_in as spec_put_in, child_at as spec_child_at, IsFirst, IsFirstOf};

use crate::node::{Child, Node};
use sqlite_items::at;
use std::mem;

/// The child of a node at a place, if there is one.
pub(crate) fn child_at(node: &Node, place: usize) -> Option<&Child>
    ensures { option_map child_ids (option_copied result) ≡ spec_child_at place (node_ids node.now) }
{
    match node {
        Node::Step { children, .. } => at(children, place),
        Node::Closed(_) | Node::Open | Node::Skipped => None,
    }
}

/// Puts a node in the place of the first Open leaf, to which a path leads.
#[cycle(put_at)]
pub(crate) fn put_at(node: Node, path: &[usize], new: Node) -> Node
    requires { IsFirst path.now (node_ids node) }
    ensures { node_ids result ≡ put path.now (node_ids new) (node_ids node) }
{
    match path {
        [] => new,
        [place, rest @ ..] => match node {
            Node::Step {
                pick,
                kind,
                act,
                mut children,
            } => {
                put_in(&mut children, *place, rest, new);
                Node::Step {
                    pick,
                    kind,
                    act,
                    children,
                }
            }
            Node::Closed(_) | Node::Open | Node::Skipped => node,
        },
    }
}

// Puts a node in the place of the first Open leaf among children: below the one at this place, where a path leads from it.
#[cycle(put_at)]
fn put_in(children: &mut Vec<Child>, place: usize, rest: &[usize], new: Node)
    requires { IsFirstOf place rest.now (children_of (map child_ids children.old.items)) }
    ensures { children_of (map child_ids children.new.items) ≡ spec_put_in place rest.now (node_ids new) (children_of (map child_ids children.old.items)) }
{
    let child = &mut children[place];
    let node = mem::replace(&mut child.node, Node::Open);
    child.node = put_at(node, rest, new);
}
