ghost use Rattle.std.specs.Prelude.{◌≡◌, ◌≤◌, ◌++◌, All, map, OnOk, IfOk, IfErr};
ghost use Rattle.std.specs.Option.{option_map};
ghost use Rattle.zm_logic.specs.View.{symbol_tree};
ghost use Rattle.term_store.specs.Trees.{Extends, form_of};
ghost use Rattle.term_store.specs.Open.{HasPart, part_of};
ghost use Rattle.param_store.specs.Depth.{deepest};
ghost use Rattle.param_store.specs.Fault.{IfDeepAt};
ghost use Rattle.param_store.specs.View.{AreRaws, HasForms, forms_of};
ghost use Rattle.unify.specs.Answer.{HasIds};
ghost use Rattle.unify.specs.View.{binding_of};
ghost use Rattle.equality_rules.specs.Instances as tree;
ghost use Rattle.equality_rules.specs.Offered.{HasSome, IsOffer, NamesInstance, listed};

use crate::typing::has_type;
use param_store::{OfferFault, Params, RawOffer, RawOffers, as_quantified, opened};
use sqlite_items::Items;
use std::alloc::{AllocError, Global};
use term_store::{FormId, Opening, Store};
use unify::Binding;
use zm_logic::Symbols;

// The instance of the formula of a number, where there is one.
fn instance_of(
    alloc: Global,
    store: &mut Store,
    form: Option<FormId>,
    with: Opening,
) -> Result<Option<RawOffer>, OfferFault>
    requires form { HasSome store.old form }
    requires part { HasPart store.old with }
    ensures offer { IfOk result (IsOffer store.new (tree.instance_of (option_map (form_of store.old) form) (part_of store.old with))) }
    ensures kept { Extends store.old store.new }
    ensures bounded { OnOk result (deepest (tree.instance_of (option_map (form_of store.old) form) (part_of store.old with)) ≤ 2000) }
    ensures deep { IfErr result (IfDeepAt (NamesInstance store.new (tree.instance_of (option_map (form_of store.old) form) (part_of store.old with)))) }
{
    let Some(acted) = form else {
        return Ok(None);
    };
    match as_quantified(store, acted) {
        Some(quantified) => Ok(Some(opened(alloc, store, acted, quantified, with)?)),
        None => Ok(None),
    }
}

// The instance of a binding, where it gives one.
fn instance(
    alloc: Global,
    store: &mut Store,
    symbols: &Symbols,
    params: &Params,
    binding: Binding,
) -> Result<Option<RawOffer>, OfferFault>
    requires has { HasIds store.old binding }
    requires numbered { HasForms store.old params.now }
    ensures offer { IfOk result (IsOffer store.new (tree.instance (map symbol_tree symbols.now) (forms_of store.old params.now) (binding_of store.old binding))) }
    ensures kept { Extends store.old store.new }
    ensures bounded { OnOk result (deepest (tree.instance (map symbol_tree symbols.now) (forms_of store.old params.now) (binding_of store.old binding)) ≤ 2000) }
    ensures deep { IfErr result (IfDeepAt (NamesInstance store.new (tree.instance (map symbol_tree symbols.now) (forms_of store.old params.now) (binding_of store.old binding)))) }
{
    match binding {
        Binding::OfType { meta, to } => {
            instance_of(alloc, store, params.form_of(meta), Opening::OfType(to))
        }
        Binding::OfTerm { meta, ty, to } => {
            if !has_type(alloc, store, symbols, to, ty)? {
                return Ok(None);
            }
            instance_of(alloc, store, params.form_of(meta), Opening::OfTerm(to))
        }
    }
}

// Lists an offer where there is one.
#[tactic(auto, using(crate::proofs::Listing::none_more))]
fn put(offers: &mut RawOffers, offer: Option<RawOffer>) -> Result<(), AllocError>
    ensures { OnOk result (offers.new ≡ offers.old ++ listed offer) }
{
    match offer {
        Some(offer) => offers.push(offer),
        None => Ok(()),
    }
}

/// The instances of bindings, in their order. `Deep` names the quantified formula of the first that is deeper than 2,000.
pub(crate) fn instances(
    alloc: Global,
    store: &mut Store,
    symbols: &Symbols,
    params: &Params,
    bindings: &[Binding],
) -> Result<RawOffers, OfferFault>
    requires has { All (HasIds store.old) bindings.now }
    requires numbered { HasForms store.old params.now }
    ensures offers { IfOk result (AreRaws store.new (tree.instances (map symbol_tree symbols.now) (forms_of store.old params.now) (map (binding_of store.old) bindings.now))) }
    ensures kept { Extends store.old store.new }
    ensures bounded { OnOk result (deepest (tree.instances (map symbol_tree symbols.now) (forms_of store.old params.now) (map (binding_of store.old) bindings.now)) ≤ 2000) }
    ensures deep { IfErr result (IfDeepAt (NamesInstance store.new (tree.instances (map symbol_tree symbols.now) (forms_of store.old params.now) (map (binding_of store.old) bindings.now)))) }
{
    let mut offers = Items::new(alloc);
    for binding in bindings {
        let offer = instance(alloc, store, symbols, params, *binding)?;
        put(&mut offers, offer)?;
    }
    Ok(offers)
}
