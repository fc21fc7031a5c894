ghost use Rattle.std.specs.Prelude.{◌≡◌, OnOk};
ghost use Rattle.param_store.specs.View.{HasForms, forms_of, lists_of};
ghost use Rattle.branch.specs.Ids.{node_ids, HasNode};
ghost use Rattle.branch.specs.Path.{along, extend_all, brought as spec_brought};

use crate::entering::add_all;
use crate::node::Node;
use crate::place::child_at;
use std::alloc::AllocError;
use term_store::{FormId, FormIds, Store};

/// Adds the normal formulas of the children along a path, each unless it stands there already.
pub(crate) fn add_along(
    store: &Store,
    forms: &mut FormIds,
    node: &Node,
    path: &[usize],
) -> Result<(), AllocError>
    requires has { HasForms store.now forms.old }
    requires has_node { HasNode store.now (node_ids node.now) }
    ensures forms { OnOk result (forms_of store.now forms.new ≡ extend_all (forms_of store.now forms.old) (lists_of store.now (along path.now (node_ids node.now)))) }
    ensures has { HasForms store.now forms.new }
{
    match path {
        [] => Ok(()),
        [place, rest @ ..] => match child_at(node, *place) {
            Some(child) => {
                add_all(store, forms, child.normal.as_slice())?;
                add_along(store, forms, &child.node, rest)
            }
            None => Ok(()),
        },
    }
}

/// The normal formulas of the child to which a path leads.
pub(crate) fn brought<'a>(node: &'a Node, path: &[usize]) -> &'a [FormId]
    ensures { result.now ≡ spec_brought path.now (node_ids node.now) }
{
    match path {
        [] => &[],
        [place, rest @ ..] => match child_at(node, *place) {
            Some(child) => {
                if rest.is_empty() {
                    child.normal.as_slice()
                } else {
                    brought(&child.node, rest)
                }
            }
            None => &[],
        },
    }
}
