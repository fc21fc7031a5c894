ghost use Rattle.std.specs.Prelude.{◌≡◌, ◌<◌, ◌≤◌, ◌∷◌, [], OnOk, IfOk, IfErr};
ghost use Rattle.zm_logic.specs.Measure.{depth};
ghost use Rattle.term_store.specs.Trees.{HasForm, form_of, Extends};
ghost use Rattle.term_store.specs.Open.{HasPart, part_of};
ghost use Rattle.term_store.specs.declared.opening.Redex.TheVariants.{OfForm};
ghost use Rattle.param_store.specs.RawOffers as raw;
ghost use Rattle.param_store.specs.Fault.{IfDeepAt};
ghost use Rattle.param_store.specs.View.{quantified_of, raw_of, HasQuantified, HasRaw};

use crate::fault::OfferFault;
use crate::offer::{Act, FormLists, RawOffer};
use crate::quantified::Quantified;
use sqlite_items::Items;
use std::alloc::{AllocError, Global};
use term_store::{FormId, FormNode, MkFault, OpenFault, Opening, Redex, Store};

/// The formula, or its negation. `Deep` names the formula acted on, and comes exactly where the negation would be deeper
/// than 2,000.
pub fn signed(
    store: &mut Store,
    holds: bool,
    form: FormId,
    acted: FormId,
) -> Result<FormId, OfferFault>
    requires { HasForm store.old form }
    ensures has { IfOk result (HasForm store.new) }
    ensures tree { IfOk result (λ id. form_of store.new id ≡ raw.signed holds (form_of store.old form)) }
    ensures kept { Extends store.old store.new }
    ensures bounded { OnOk result (depth (raw.signed holds (form_of store.old form)) ≤ 2000) }
    ensures deep { IfErr result (IfDeepAt (λ at. (at ≡ OfForm acted) × (2000 < depth (raw.signed holds (form_of store.old form))))) }
{
    if holds {
        let _ = store.form_node(form);
        return Ok(form);
    }
    match store.mk_form(FormNode::Not(form)) {
        Ok(id) => Ok(id),
        Err(MkFault::Memory) => Err(OfferFault::Memory),
        Err(MkFault::Deep(_)) => Err(OfferFault::Deep {
            at: Redex::OfForm(acted),
        }),
    }
}

/// The body of a quantified formula at a term or a type, negated where the formula is the negation of a quantified one.
/// `Deep` names the formula acted on, and comes exactly where the answer would be deeper than 2,000. After an error more
/// nodes may stand in the store.
pub fn at_part(
    store: &mut Store,
    quantified: Quantified,
    with: Opening,
    acted: FormId,
) -> Result<FormId, OfferFault>
    requires has { HasQuantified store.old quantified }
    requires part { HasPart store.old with }
    ensures has { IfOk result (HasForm store.new) }
    ensures tree { IfOk result (λ id. form_of store.new id ≡ raw.at_part (quantified_of store.old quantified) (part_of store.old with)) }
    ensures kept { Extends store.old store.new }
    ensures bounded { OnOk result (depth (raw.at_part (quantified_of store.old quantified) (part_of store.old with)) ≤ 2000) }
    ensures deep { IfErr result (IfDeepAt (λ at. (at ≡ OfForm acted) × (2000 < depth (raw.at_part (quantified_of store.old quantified) (part_of store.old with))))) }
{
    match store.open(quantified.body, with) {
        Ok(body) => signed(store, quantified.holds, body, acted),
        Err(OpenFault::Memory) => Err(OfferFault::Memory),
        Err(OpenFault::Deep { .. }) => Err(OfferFault::Deep {
            at: Redex::OfForm(acted),
        }),
    }
}

// The one child that has the one formula.
fn single(alloc: Global, form: FormId) -> Result<FormLists, AllocError>
    ensures { IfOk result (λ all. all ≡ (form ∷ []) ∷ []) }
{
    let mut child = Items::new(alloc);
    child.push(form)?;
    let mut children = Items::new(alloc);
    children.push(child)?;
    Ok(children)
}

/// The offer that opens the quantified formula acted on with a term or a type. `Deep` names that formula, and comes
/// exactly where the child's formula would be deeper than 2,000. After an error more nodes may stand in the store.
pub fn opened(
    alloc: Global,
    store: &mut Store,
    acted: FormId,
    quantified: Quantified,
    with: Opening,
) -> Result<RawOffer, OfferFault>
    requires acted { HasForm store.old acted }
    requires has { HasQuantified store.old quantified }
    requires part { HasPart store.old with }
    ensures has { IfOk result (HasRaw store.new) }
    ensures offer { IfOk result (λ r. raw_of store.new r ≡ raw.opened (form_of store.old acted) (quantified_of store.old quantified) (part_of store.old with)) }
    ensures kept { Extends store.old store.new }
    ensures bounded { OnOk result (depth (raw.at_part (quantified_of store.old quantified) (part_of store.old with)) ≤ 2000) }
    ensures deep { IfErr result (IfDeepAt (λ at. (at ≡ OfForm acted) × (2000 < depth (raw.at_part (quantified_of store.old quantified) (part_of store.old with))))) }
{
    let form = at_part(store, quantified, with, acted)?;
    let children = single(alloc, form)?;
    let act = Act {
        first: acted,
        second: None,
        with: Some(with),
        other: false,
    };
    Ok(RawOffer { act, children })
}
