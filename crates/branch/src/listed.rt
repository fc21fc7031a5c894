ghost use Rattle.std.specs.Prelude.{◌≡◌, [], ◌∷◌, ◌++◌, List, map, OnOk, IfOk};
ghost use Rattle.indexmap.specs.IndexMap.{IsEmpty};
ghost use Rattle.term_store.specs.Trees.{Tables};
ghost use Rattle.param_store.specs.View.{HasForms, HasLists, HasRaw, HasRaws, forms_of, lists_of, raw_of};
ghost use Rattle.branch.specs.Ids.{kind_of};
ghost use Rattle.branch.specs.Offers as offers;
ghost use Rattle.branch.specs.Listed.{AreListed, IsListed, capped, forms_size, lists_size, listed_of};
ghost use Rattle.branch.specs.Left.{offer_at, offers_at};
ghost use Rattle.branch.specs.Sizes.{KnowsSizes};

use crate::form_set::FormSet;
use crate::sizes::{Sizes, form_size};
use choosers::{Kind, Offer};
use param_store::{Act, FormLists, RawOffer, RawOffers};
use sqlite_items::Items;
use std::alloc::{AllocError, Global};
use term_store::{FormId, FormIds, Store};

/// An offer of a branch, with what the Step needs that takes it.
#[derive(Drop)]
pub(crate) struct Listed {
    pub(crate) offer: Offer,
    pub(crate) act: Act,
    /// The formulas of each child, before normalising.
    pub(crate) raw: FormLists,
    /// Their normal forms.
    pub(crate) normal: FormLists,
}

/// The offers of a branch that are listed so far, and the sizes that were needed for them.
#[derive(Drop)]
pub(crate) struct Listing {
    pub(crate) sizes: Sizes,
    pub(crate) offers: Items<Listed>,
}

impl Listing {
    /// No offers. It takes no memory.
    pub(crate) fn new(alloc: Global) -> Listing
        ensures offers { result.offers ≡ [] }
        ensures types { IsEmpty result.sizes.types }
        ensures terms { IsEmpty result.sizes.terms }
        ensures forms { IsEmpty result.sizes.forms }
    {
        Listing {
            sizes: Sizes::new(alloc),
            offers: Items::new(alloc),
        }
    }
}

/// What kind of Step an offer is, and the places of the formulas that give it.
#[derive(Clone, Copy)]
pub(crate) struct Place {
    pub(crate) kind: Kind,
    pub(crate) later: usize,
    pub(crate) earlier: Option<usize>,
}

// Whether all formulas of a child stand on the branch.
fn has_all(store: &Store, found: &FormSet, child: &[FormId]) -> bool
    requires has { HasForms store.now found.now }
    requires has_child { HasForms store.now child.now }
    ensures { result ≡ offers.has_all (forms_of store.now found.now) (forms_of store.now child.now) }
{
    for form in child {
        if !found.has(store, *form) {
            return false;
        }
    }
    true
}

// Whether some child has all its formulas on the branch.
fn has_some(store: &Store, found: &FormSet, children: &[FormIds]) -> bool
    requires has { HasForms store.now found.now }
    requires has_children { HasLists store.now children.now }
    ensures { result ≡ offers.has_some (forms_of store.now found.now) (lists_of store.now children.now) }
{
    for child in children {
        if has_all(store, found, child.as_slice()) {
            return true;
        }
    }
    false
}

// The sum of the sizes of formulas.
fn child_size(store: &Store, kept: &mut Sizes, child: &[FormId]) -> Result<u64, AllocError>
    requires has { HasForms store.now child.now }
    requires knows { KnowsSizes store.now kept.old }
    ensures value { IfOk result (λ n. n ≡ capped (forms_size (forms_of store.now child.now))) }
    ensures knows { OnOk result (KnowsSizes store.now kept.new) }
{
    let mut all: u64 = 0;
    for form in child {
        let size = form_size(store, kept, *form)?;
        all = all.saturating_add(size);
    }
    Ok(all)
}

// The sum of the sizes of the formulas of all children.
fn children_size(store: &Store, kept: &mut Sizes, children: &[FormIds]) -> Result<u64, AllocError>
    requires has { HasLists store.now children.now }
    requires knows { KnowsSizes store.now kept.old }
    ensures value { IfOk result (λ n. n ≡ capped (lists_size (lists_of store.now children.now))) }
    ensures knows { OnOk result (KnowsSizes store.now kept.new) }
{
    let mut all: u64 = 0;
    for child in children {
        let size = child_size(store, kept, child.as_slice())?;
        all = all.saturating_add(size);
    }
    Ok(all)
}

// An equal list of lists.
fn copied(alloc: Global, lists: &[FormIds]) -> Result<FormLists, AllocError>
    ensures { IfOk result (λ all. all ≡ lists.now) }
{
    let mut all = Items::new(alloc);
    for list in lists {
        let copy = Items::from_slice(alloc, list.as_slice())?;
        all.push(copy)?;
    }
    Ok(all)
}

// A raw offer of a known size, each of whose formulas is its own normal form.
fn of_size(alloc: Global, place: Place, raw: RawOffer, size: u64) -> Result<Listed, AllocError>
    ensures listed { (s : Tables) → HasRaw s raw → size ≡ capped (lists_size (lists_of s raw.children)) → IfOk result (IsListed s) }
    ensures tree { (s : Tables) → IfOk result (λ l. listed_of s l ≡ offer_at (kind_of place.kind) place.later place.earlier (raw_of s raw)) }
{
    let normal = copied(alloc, raw.children.as_slice())?;
    Ok(Listed {
        offer: Offer {
            kind: place.kind,
            children: raw.children.len(),
            size,
            later: place.later,
            earlier: place.earlier,
        },
        act: raw.act,
        raw: raw.children,
        normal,
    })
}

// A raw offer, each of whose formulas is its own normal form.
fn made(
    alloc: Global,
    store: &Store,
    kept: &mut Sizes,
    place: Place,
    raw: RawOffer,
) -> Result<Listed, AllocError>
    requires has { HasRaw store.now raw }
    requires knows { KnowsSizes store.now kept.old }
    ensures listed { IfOk result (IsListed store.now) }
    ensures tree { IfOk result (λ l. listed_of store.now l ≡ offer_at (kind_of place.kind) place.later place.earlier (raw_of store.now raw)) }
    ensures knows { OnOk result (KnowsSizes store.now kept.new) }
{
    let size = children_size(store, kept, raw.children.as_slice())?;
    of_size(alloc, place, raw, size)
}

// Lists a raw offer, unless one of its children has all its formulas on the branch.
fn put(
    alloc: Global,
    store: &Store,
    found: &FormSet,
    place: Place,
    raw: RawOffer,
    listing: &mut Listing,
) -> Result<(), AllocError>
    requires has { HasForms store.now found.now }
    requires has_raw { HasRaw store.now raw }
    requires knows { KnowsSizes store.now listing.old.sizes }
    ensures listed { OnOk result ((os : List offers.Offer) → AreListed store.now os listing.old.offers → AreListed store.now (os ++ offers_at (forms_of store.now found.now) (kind_of place.kind) place.later place.earlier (raw_of store.now raw ∷ [])) listing.new.offers) }
    ensures knows { OnOk result (KnowsSizes store.now listing.new.sizes) }
{
    if has_some(store, found, raw.children.as_slice()) {
        return Ok(());
    }
    let offer = made(alloc, store, &mut listing.sizes, place, raw)?;
    listing.offers.push(offer)
}

/// Lists raw offers of one place in order, each unless one of its children has all its formulas among those found. The
/// one error is want of memory.
pub(crate) fn put_all(
    alloc: Global,
    store: &Store,
    found: &FormSet,
    place: Place,
    raws: RawOffers,
    listing: &mut Listing,
) -> Result<(), AllocError>
    requires has { HasForms store.now found.now }
    requires has_raws { HasRaws store.now raws }
    requires knows { KnowsSizes store.now listing.old.sizes }
    ensures listed { OnOk result ((os : List offers.Offer) → AreListed store.now os listing.old.offers → AreListed store.now (os ++ offers_at (forms_of store.now found.now) (kind_of place.kind) place.later place.earlier (map (raw_of store.now) raws)) listing.new.offers) }
    ensures knows { OnOk result (KnowsSizes store.now listing.new.sizes) }
{
    let mut raws = raws;
    while !raws.is_empty() {
        let raw = raws.remove(0);
        put(alloc, store, found, place, raw, listing)?;
    }
    Ok(())
}
