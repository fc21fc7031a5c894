ghost use Rattle.std.specs.Prelude.{◌≡◌, ◌<◌, ◌≤◌, ◌∷◌, [], map, OnOk, IfOk, IfErr};
ghost use Rattle.zm_logic.specs.Tree as tree;
ghost use Rattle.zm_logic.specs.Measure.{type_depth, depth};
ghost use Rattle.term_store.specs.Trees.{Extends, HasForm, HasType, form_of, type_of};
ghost use Rattle.term_store.specs.Open.{HasPart, part_of};
ghost use Rattle.term_store.specs.declared.opening.Redex.TheVariants.{OfForm};
ghost use Rattle.param_store.specs.RawOffers as raw;
ghost use Rattle.param_store.specs.Fault.{IfDeepAt};
ghost use Rattle.param_store.specs.View.{kind_of, binder_of, quantified_of, raw_of, HasBinder, HasQuantified, HasRaw};

use param_store::{Binder, OfferFault, Quantified, QuantifierKind, RawOffer, opened};
use std::alloc::{AllocError, Global};
use term_store::{FormId, MkFault, Opening, Store, TermNode, TyId, TyNode};

// The type parameter, or the metavariable over types, of a number.
fn own_type(store: &mut Store, kind: QuantifierKind, number: u64) -> Result<Opening, AllocError>
    ensures has { IfOk result (HasPart store.new) }
    ensures tree { IfOk result (λ w. part_of store.new w ≡ raw.part_for (kind_of kind) tree.Binder.of_type number) }
    ensures kept { Extends store.old store.new }
{
    let node = match kind {
        QuantifierKind::Delta => TyNode::Param(number),
        QuantifierKind::Gamma => TyNode::Meta(number),
    };
    match store.mk_ty(node) {
        Ok(id) => Ok(Opening::OfType(id)),
        Err(MkFault::Memory) => Err(AllocError),
        Err(MkFault::Deep(_)) => unreachable!(),
    }
}

// The epsilon term, or the metavariable over terms, of a number.
fn own_term(
    store: &mut Store,
    kind: QuantifierKind,
    ty: TyId,
    number: u64,
) -> Result<Opening, AllocError>
    requires has { HasType store.old ty }
    requires room { type_depth (type_of store.old ty) ≤ 1999 }
    ensures has { IfOk result (HasPart store.new) }
    ensures tree { IfOk result (λ w. part_of store.new w ≡ raw.part_for (kind_of kind) (tree.Binder.of_term (type_of store.old ty)) number) }
    ensures kept { Extends store.old store.new }
{
    let node = match kind {
        QuantifierKind::Delta => TermNode::Eps(number, ty),
        QuantifierKind::Gamma => TermNode::Meta(number, ty),
    };
    match store.mk_term(node) {
        Ok(id) => Ok(Opening::OfTerm(id)),
        Err(MkFault::Memory) => Err(AllocError),
        Err(MkFault::Deep(_)) => unreachable!(),
    }
}

// What a formula of a number is opened with by its own Step.
fn own_part(store: &mut Store, quantified: Quantified, number: u64) -> Result<Opening, AllocError>
    requires { HasQuantified store.old quantified }
    ensures has { IfOk result (HasPart store.new) }
    ensures tree { IfOk result (λ w. part_of store.new w ≡ raw.own_part number (quantified_of store.old quantified)) }
    ensures kept { Extends store.old store.new }
{
    match quantified.binder {
        Binder::OfType => own_type(store, quantified.kind, number),
        Binder::OfTerm(ty) => own_term(store, quantified.kind, ty, number),
    }
}

/// The offer of a quantified formula of a number.
pub(crate) fn own_opening(
    alloc: Global,
    store: &mut Store,
    acted: FormId,
    quantified: Quantified,
    number: u64,
) -> Result<RawOffer, OfferFault>
    requires acted { HasForm store.old acted }
    requires has { HasQuantified store.old quantified }
    ensures has { IfOk result (HasRaw store.new) }
    ensures offer { IfOk result (λ r. raw_of store.new r ≡ raw.opened (form_of store.old acted) (quantified_of store.old quantified) (raw.own_part number (quantified_of store.old quantified))) }
    ensures kept { Extends store.old store.new }
    ensures bounded { OnOk result (depth (raw.at_part (quantified_of store.old quantified) (raw.own_part number (quantified_of store.old quantified))) ≤ 2000) }
    ensures deep { IfErr result (IfDeepAt (λ at. (at ≡ OfForm acted) × (2000 < depth (raw.at_part (quantified_of store.old quantified) (raw.own_part number (quantified_of store.old quantified)))))) }
{
    let with = own_part(store, quantified, number)?;
    opened(alloc, store, acted, quantified, with)
}
