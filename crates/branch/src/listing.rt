ghost use Rattle.std.specs.Prelude.{◌≡◌, ◌<◌, ◌≤◌, true, false, [], List, map, length, OnOk, IfOk, IfErr};
ghost use Rattle.std.specs.List.{Contains};
ghost use Rattle.zm_logic.specs.Tree as tree;
ghost use Rattle.zm_logic.specs.View.{symbol_tree};
ghost use Rattle.term_store.specs.Open.{HasRedex, redex_of};
ghost use Rattle.term_store.specs.Trees.{Extends, HasForm, Tables, form_of};
ghost use Rattle.term_store.specs.declared.opening.Redex.TheVariants.{OfForm};
ghost use Rattle.param_store.specs.Depth.{deepest};
ghost use Rattle.param_store.specs.Fault.{IfDeepAt};
ghost use Rattle.param_store.specs.RawOffers.{is_quantified, own_offers as spec_own_offers};
ghost use Rattle.param_store.specs.View.{AreRaws, HasForms, forms_of, raw_of, kind_of as quantifier_of};
ghost use Rattle.branch.specs.Setting.{Setting};
ghost use Rattle.branch.specs.Ids.{kind_of};
ghost use Rattle.branch.specs.Normal.{Fault};
ghost use Rattle.branch.specs.BranchOffers.{has_equality, split_kind as spec_split_kind, opened_kind as spec_opened_kind};
ghost use Rattle.branch.specs.Offers.{AreOffers, HasFault};
ghost use Rattle.branch.specs.Listed.{EachListed, IfStop, listed_of};
ghost use Rattle.branch.specs.Left.{OwnAt, SingleAt, PairAt, PairsTo, OthersAt, PlaceAt, first_kind, own_kind as spec_own_kind};
ghost use Rattle.branch.specs.Listing.{AddsPart, AreNumbered, IsTooDeep};
ghost use Rattle.branch.specs.Lookup.{IsLookup};
ghost use Rattle.branch.specs.Sizes.{KnowsSizes};

use crate::listed::{Listed, Listing, Place, put_all};
use crate::lookup::{Lookup, lookup_of, opposed};
use crate::stop::BranchStop;
use choosers::Kind;
use equality_rules::{pair_offers, single_offers};
use param_store::{OfferFault, Params, QuantifierKind, RawOffer, RawOffers, as_quantified};
use sqlite_items::Items;
use std::alloc::Global;
use tableau_rules::own_offers;
use term_store::{FormId, Store};
use zm_logic::Symbols;

// The kind of an offer of an alpha or a beta formula, from its children.
fn children_kind(raw: &RawOffer) -> Kind
    ensures { (s : Tables) → kind_of result ≡ spec_split_kind (raw_of s raw.now).children }
{
    if raw.children.len() > 1 {
        Kind::Beta
    } else {
        Kind::Alpha
    }
}

// The kind of an alpha or a beta formula's offer.
fn split_kind(raws: &[RawOffer]) -> Kind
    ensures { (s : Tables) → kind_of result ≡ first_kind (map (raw_of s) raws.now) }
{
    match raws {
        [raw, ..] => children_kind(raw),
        [] => Kind::Alpha,
    }
}

// The kind of a quantified formula's offer.
fn opened_kind(kind: QuantifierKind) -> Kind
    ensures { kind_of result ≡ spec_opened_kind (quantifier_of kind) }
{
    match kind {
        QuantifierKind::Delta => Kind::Delta,
        QuantifierKind::Gamma => Kind::Gamma,
    }
}

// The kind of a formula's own offer.
fn own_kind(store: &Store, form: FormId, raws: &[RawOffer]) -> Kind
    requires has { HasForm store.now form }
    ensures { (table : List tree.Form) → map (raw_of store.now) raws.now ≡ spec_own_offers table (form_of store.now form) → kind_of result ≡ spec_own_kind (form_of store.now form) }
{
    match as_quantified(store, form) {
        Some(quantified) => opened_kind(quantified.kind),
        None => split_kind(raws),
    }
}

// The own offers of a formula, which has its number if it is quantified.
fn own_raws(
    alloc: Global,
    store: &mut Store,
    params: &mut Params,
    form: FormId,
) -> Result<RawOffers, OfferFault>
    requires has { HasForm store.old form }
    requires numbered { HasForms store.old params.old }
    requires known { is_quantified (form_of store.old form) ≡ true → Contains (forms_of store.old params.old) (form_of store.old form) }
    ensures offers { IfOk result (AreRaws store.new (spec_own_offers (forms_of store.new params.old) (form_of store.new form))) }
    ensures bounded { OnOk result (deepest (spec_own_offers (forms_of store.old params.old) (form_of store.old form)) ≤ 2000) }
    ensures deep { IfErr result (IfDeepAt (λ at. (at ≡ OfForm form) × (2000 < deepest (spec_own_offers (forms_of store.old params.old) (form_of store.old form))))) }
    ensures kept { Extends store.old store.new }
    ensures params { params.new ≡ params.old }
{
    store.shared();
    own_offers(alloc, store, params, form)
}

// Lists the own offers of the formula at a place.
fn list_own(
    alloc: Global,
    store: &mut Store,
    params: &mut Params,
    forms: &[FormId],
    lookup: &Lookup,
    later: usize,
    listing: &mut Listing,
) -> Result<(), BranchStop>
    requires within { later < length forms.now }
    requires has { HasForms store.old forms.now }
    requires lookup { IsLookup store.old forms.now lookup.now }
    requires numbered { HasForms store.old params.old }
    requires known { AreNumbered (forms_of store.old params.old) (forms_of store.old forms.now) }
    requires knows { KnowsSizes store.old listing.old.sizes }
    ensures adds { (symbols : List tree.Symbol) → OnOk result (AddsPart (OwnAt later) store.old store.new symbols params.old forms.now listing.old.offers listing.new.offers) }
    ensures deep { (symbols : List tree.Symbol) → IfErr result (IfStop (IsTooDeep (OwnAt later) store.old store.new symbols params.old forms.now)) }
    ensures knows { OnOk result (KnowsSizes store.new listing.new.sizes) }
    ensures kept { Extends store.old store.new }
    ensures params { params.new ≡ params.old }
{
    let form = forms[later];
    let raws = own_raws(alloc, store, params, form)?;
    let place = Place {
        kind: own_kind(store, form, raws.as_slice()),
        later,
        earlier: None,
    };
    Ok(put_all(alloc, store, &lookup.found, place, raws, listing)?)
}

// Lists what the formula at a place gives beyond its rule.
fn list_single(
    alloc: Global,
    store: &mut Store,
    params: &Params,
    symbols: &Symbols,
    forms: &[FormId],
    lookup: &Lookup,
    later: usize,
    listing: &mut Listing,
) -> Result<(), BranchStop>
    requires within { later < length forms.now }
    requires has { HasForms store.old forms.now }
    requires lookup { IsLookup store.old forms.now lookup.now }
    requires numbered { HasForms store.old params.now }
    requires knows { KnowsSizes store.old listing.old.sizes }
    ensures adds { OnOk result (AddsPart (SingleAt later) store.old store.new (map symbol_tree symbols.now) params.now forms.now listing.old.offers listing.new.offers) }
    ensures deep { IfErr result (IfStop (IsTooDeep (SingleAt later) store.old store.new (map symbol_tree symbols.now) params.now forms.now)) }
    ensures knows { OnOk result (KnowsSizes store.new listing.new.sizes) }
    ensures kept { Extends store.old store.new }
{
    let raws = single_offers(alloc, store, symbols, params, forms[later], false)?;
    let place = Place {
        kind: Kind::Instance,
        later,
        earlier: None,
    };
    Ok(put_all(alloc, store, &lookup.found, place, raws, listing)?)
}

// Lists what the formulas at two places give together.
fn list_pair(
    alloc: Global,
    store: &mut Store,
    params: &Params,
    symbols: &Symbols,
    forms: &[FormId],
    lookup: &Lookup,
    later: usize,
    earlier: usize,
    listing: &mut Listing,
) -> Result<(), BranchStop>
    requires within { later < length forms.now }
    requires has { HasForms store.old forms.now }
    requires lookup { IsLookup store.old forms.now lookup.now }
    requires numbered { HasForms store.old params.now }
    requires earlier { earlier < length forms.now }
    requires knows { KnowsSizes store.old listing.old.sizes }
    ensures adds { OnOk result (AddsPart (PairAt later earlier) store.old store.new (map symbol_tree symbols.now) params.now forms.now listing.old.offers listing.new.offers) }
    ensures deep { IfErr result (IfStop (IsTooDeep (PairAt later earlier) store.old store.new (map symbol_tree symbols.now) params.now forms.now)) }
    ensures knows { OnOk result (KnowsSizes store.new listing.new.sizes) }
    ensures kept { Extends store.old store.new }
{
    let (first, second) = (forms[earlier], forms[later]);
    let raws = pair_offers(alloc, store, symbols, params, first, second, false)?;
    let place = Place {
        kind: Kind::Instance,
        later,
        earlier: Some(earlier),
    };
    Ok(put_all(alloc, store, &lookup.found, place, raws, listing)?)
}

// Lists what the formula at a place gives with each earlier one, by their places. Only opposites give something.
fn list_pairs(
    alloc: Global,
    store: &mut Store,
    params: &Params,
    symbols: &Symbols,
    forms: &[FormId],
    lookup: &Lookup,
    later: usize,
    listing: &mut Listing,
) -> Result<(), BranchStop>
    requires within { later < length forms.now }
    requires has { HasForms store.old forms.now }
    requires lookup { IsLookup store.old forms.now lookup.now }
    requires numbered { HasForms store.old params.now }
    requires knows { KnowsSizes store.old listing.old.sizes }
    ensures adds { OnOk result (AddsPart (PairsTo later later) store.old store.new (map symbol_tree symbols.now) params.now forms.now listing.old.offers listing.new.offers) }
    ensures deep { IfErr result (IfStop (IsTooDeep (PairsTo later later) store.old store.new (map symbol_tree symbols.now) params.now forms.now)) }
    ensures knows { OnOk result (KnowsSizes store.new listing.new.sizes) }
    ensures kept { Extends store.old store.new }
{
    let places = opposed(store, forms, lookup, later);
    for earlier in places {
        if *earlier >= later {
            return Ok(());
        }
        list_pair(
            alloc, store, params, symbols, forms, lookup, later, *earlier, listing,
        )?;
    }
    Ok(())
}

// Lists what the formula at a place gives beyond its rule, and then with each earlier one.
fn list_others(
    alloc: Global,
    store: &mut Store,
    params: &Params,
    symbols: &Symbols,
    forms: &[FormId],
    lookup: &Lookup,
    later: usize,
    listing: &mut Listing,
) -> Result<(), BranchStop>
    requires within { later < length forms.now }
    requires has { HasForms store.old forms.now }
    requires lookup { IsLookup store.old forms.now lookup.now }
    requires numbered { HasForms store.old params.now }
    requires knows { KnowsSizes store.old listing.old.sizes }
    ensures adds { OnOk result (AddsPart (OthersAt later) store.old store.new (map symbol_tree symbols.now) params.now forms.now listing.old.offers listing.new.offers) }
    ensures deep { IfErr result (IfStop (IsTooDeep (OthersAt later) store.old store.new (map symbol_tree symbols.now) params.now forms.now)) }
    ensures knows { OnOk result (KnowsSizes store.new listing.new.sizes) }
    ensures kept { Extends store.old store.new }
{
    list_single(alloc, store, params, symbols, forms, lookup, later, listing)?;
    list_pairs(alloc, store, params, symbols, forms, lookup, later, listing)
}

// Lists all that the formula at a place gives.
fn list_place(
    alloc: Global,
    store: &mut Store,
    params: &mut Params,
    symbols: &Symbols,
    forms: &[FormId],
    lookup: &Lookup,
    later: usize,
    listing: &mut Listing,
) -> Result<(), BranchStop>
    requires within { later < length forms.now }
    requires has { HasForms store.old forms.now }
    requires lookup { IsLookup store.old forms.now lookup.now }
    requires numbered { HasForms store.old params.old }
    requires known { AreNumbered (forms_of store.old params.old) (forms_of store.old forms.now) }
    requires knows { KnowsSizes store.old listing.old.sizes }
    ensures adds { OnOk result (AddsPart (PlaceAt later) store.old store.new (map symbol_tree symbols.now) params.old forms.now listing.old.offers listing.new.offers) }
    ensures deep { IfErr result (IfStop (IsTooDeep (PlaceAt later) store.old store.new (map symbol_tree symbols.now) params.old forms.now)) }
    ensures knows { OnOk result (KnowsSizes store.new listing.new.sizes) }
    ensures kept { Extends store.old store.new }
    ensures params { params.new ≡ params.old }
{
    list_own(alloc, store, params, forms, lookup, later, listing)?;
    list_others(alloc, store, params, symbols, forms, lookup, later, listing)
}

/// The offers of a branch, by the place of the formula that gives them, and for two by that of the later one and then
/// that of the earlier one: a formula's own offers, then the instances that it gives by itself, and then those with each
/// earlier formula. An offer is left out where a child has all its formulas on the branch. There are no rules, so each
/// formula is its own normal form.
///
/// Each quantified formula of the branch has a number in `params`, and no unnegated equality is on the branch. `Deep`
/// names the first binding that is too deep, or what is acted on for the first child that is. `params` is as it was after
/// any answer. After an error more nodes may stand in the store.
pub(crate) fn listed_offers(
    alloc: Global,
    store: &mut Store,
    params: &mut Params,
    symbols: &Symbols,
    forms: &[FormId],
) -> Result<Items<Listed>, BranchStop>
    requires has { HasForms store.old forms.now }
    requires numbered { HasForms store.old params.old }
    requires known { AreNumbered (forms_of store.old params.old) (forms_of store.old forms.now) }
    requires no_equality { has_equality (forms_of store.old forms.now) ≡ false }
    ensures offers { IfOk result (λ os. (s : Setting) → s.symbols ≡ map symbol_tree symbols.now → s.rules ≡ [] → AreOffers s (forms_of store.new params.new) (forms_of store.new forms.now) (map (listed_of store.new) os)) }
    ensures listed { IfOk result (EachListed store.new) }
    ensures deep { IfErr result (IfStop (λ at. HasRedex store.new at × ((s : Setting) → s.symbols ≡ map symbol_tree symbols.now → s.rules ≡ [] → HasFault s (forms_of store.new params.new) (forms_of store.new forms.now) (Fault.deep (redex_of store.new at))))) }
    ensures kept { Extends store.old store.new }
    ensures params { params.new ≡ params.old }
{
    let lookup = lookup_of(alloc, store, forms)?;
    let mut listing = Listing::new(alloc);
    for later in 0..forms.len() {
        list_place(
            alloc,
            store,
            params,
            symbols,
            forms,
            &lookup,
            later,
            &mut listing,
        )?;
    }
    Ok(listing.offers)
}
