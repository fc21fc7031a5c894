ghost use Rattle.std.specs.Prelude.{◌≡◌, ◌<◌, length, OnOk, IfOk};
ghost use Rattle.term_store.specs.Trees.{HasForm, form_of};
ghost use Rattle.param_store.specs.View.{HasForms, forms_of};
ghost use Rattle.branch.specs.Branch as spec;
ghost use Rattle.branch.specs.Lookup as lookups;
ghost use Rattle.branch.specs.Lookup.{IsLookup, ArePaired, with_place};

use crate::form_set::FormSet;
use sqlite_items::Items;
use std::alloc::{AllocError, Global};
use term_store::{FormId, FormNode, Store};

/// Where the formulas of a branch are found, and where its literals stand.
#[derive(Drop)]
pub(crate) struct Lookup {
    pub(crate) found: FormSet,
    /// The places of the atoms and the equalities, in order.
    pub(crate) plain: Items<usize>,
    /// The places of their negations, in order.
    pub(crate) denied: Items<usize>,
}

// Whether a formula is an atom or an equality.
fn is_plain(store: &Store, form: FormId) -> bool
    requires { HasForm store.now form }
    ensures { result ≡ lookups.is_plain (form_of store.now form) }
{
    match store.form_node(form) {
        FormNode::Atom(_, _, _) | FormNode::Equal(_, _, _) => true,
        FormNode::True
        | FormNode::False
        | FormNode::Not(_)
        | FormNode::And(_, _)
        | FormNode::Or(_, _)
        | FormNode::Imp(_, _)
        | FormNode::Iff(_, _)
        | FormNode::All(_, _)
        | FormNode::Ex(_, _)
        | FormNode::AllType(_)
        | FormNode::ExType(_) => false,
    }
}

// Whether a formula is the negation of an atom or of an equality.
fn is_denial(store: &Store, form: FormId) -> bool
    requires { HasForm store.now form }
    ensures { result ≡ lookups.is_denial (form_of store.now form) }
{
    match store.form_node(form) {
        FormNode::Not(denied) => is_plain(store, *denied),
        FormNode::True
        | FormNode::False
        | FormNode::Atom(_, _, _)
        | FormNode::Equal(_, _, _)
        | FormNode::And(_, _)
        | FormNode::Or(_, _)
        | FormNode::Imp(_, _)
        | FormNode::Iff(_, _)
        | FormNode::All(_, _)
        | FormNode::Ex(_, _)
        | FormNode::AllType(_)
        | FormNode::ExType(_) => false,
    }
}

// Notes a place, if it is to be noted.
fn note_if(there: bool, places: &mut Items<usize>, place: usize) -> Result<(), AllocError>
    ensures { OnOk result (places.new ≡ with_place there places.old place) }
{
    if there {
        return places.push(place);
    }
    Ok(())
}

// Notes the formula at the next place.
fn note_form(
    store: &Store,
    lookup: &mut Lookup,
    form: FormId,
    place: usize,
) -> Result<(), AllocError>
    requires found { HasForms store.now lookup.old.found }
    requires form { HasForm store.now form }
    ensures has_found { OnOk result (HasForms store.now lookup.new.found) }
    ensures found { OnOk result (forms_of store.now lookup.new.found ≡ spec.add (forms_of store.now lookup.old.found) (form_of store.now form)) }
    ensures plain { OnOk result (lookup.new.plain ≡ with_place (lookups.is_plain (form_of store.now form)) lookup.old.plain place) }
    ensures denied { OnOk result (lookup.new.denied ≡ with_place (lookups.is_denial (form_of store.now form)) lookup.old.denied place) }
{
    lookup.found.add(store, form)?;
    note_if(is_plain(store, form), &mut lookup.plain, place)?;
    note_if(is_denial(store, form), &mut lookup.denied, place)
}

/// The lookup of a branch. The one error is want of memory.
pub(crate) fn lookup_of(
    alloc: Global,
    store: &Store,
    forms: &[FormId],
) -> Result<Lookup, AllocError>
    requires { HasForms store.now forms.now }
    ensures { IfOk result (IsLookup store.now forms.now) }
{
    let mut lookup = Lookup {
        found: FormSet::with_room(alloc, forms.len())?,
        plain: Items::new(alloc),
        denied: Items::new(alloc),
    };
    for place in 0..forms.len() {
        note_form(store, &mut lookup, forms[place], place)?;
    }
    Ok(lookup)
}

/// The places of all formulas of the branch that may offer something together with the one at a place.
pub(crate) fn opposed<'a>(
    store: &Store,
    forms: &[FormId],
    lookup: &'a Lookup,
    place: usize,
) -> &'a [usize]
    requires within { place < length forms.now }
    requires has { HasForms store.now forms.now }
    requires lookup { IsLookup store.now forms.now lookup.now }
    ensures { ArePaired (forms_of store.now forms.now) place result.now (length forms.now) }
{
    let form = forms[place];
    if is_plain(store, form) {
        lookup.denied.as_slice()
    } else if is_denial(store, form) {
        lookup.plain.as_slice()
    } else {
        &[]
    }
}
