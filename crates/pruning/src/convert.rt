ghost use Rattle.std.specs.Prelude.{ℕ, ◌≡◌, ◌≤◌, ◌<◌, [], ◌∷◌, Some, None, map, length, IfOk};
ghost use Rattle.std.specs.Option.{option_map};
ghost use Rattle.zm_logic.specs.Same.{same as spec_same};
ghost use Rattle.zm_logic.specs.View.{form_tree};
ghost use Rattle.term_store.specs.Trees.{HasForm, form_of};
ghost use Rattle.term_store.specs.Open as opening;
ghost use Rattle.param_store.specs.View.{forms_of, HasForms, HasSecond, HasWith};
ghost use Rattle.sequent_proof.specs.Rules as rules;
ghost use Rattle.sequent_proof.specs.Tree as plain;
ghost use Rattle.sequent_proof.specs.View.{name_of, part_of, tree_of, trees_of};
ghost use Rattle.pruning.specs.Walked.{with_added, conversion as spec_conversion, conversions};

use sequent_proof::{DTree, DTrees, Forms, RuleName, With};
use std::alloc::{AllocError, Global};
use term_store::{FormId, Opening, Store};
use zm_logic::Form;

/// What a rule acts on, and what a quantifier's variable becomes.
#[derive(Drop)]
pub(crate) struct Acted {
    pub(crate) first: Form,
    pub(crate) second: Option<Form>,
    pub(crate) with: Option<With>,
}

// The tree of a formula, if there is one.
fn second_of(store: &Store, second: Option<FormId>) -> Result<Option<Form>, AllocError>
    requires { HasSecond store.now second }
    ensures { IfOk result (λ f. option_map form_tree f ≡ option_map (form_of store.now) second) }
{
    match second {
        None => Ok(None),
        Some(id) => Ok(Some(store.form_tree(id)?)),
    }
}

// The tree of a term or a type.
fn part(store: &Store, with: Opening) -> Result<With, AllocError>
    requires { opening.HasPart store.now with }
    ensures { IfOk result (λ w. part_of w ≡ opening.part_of store.now with) }
{
    match with {
        Opening::OfTerm(term) => Ok(With::OfTerm(store.term_tree(term)?)),
        Opening::OfType(ty) => Ok(With::OfType(store.ty_tree(ty)?)),
    }
}

// The tree of a term or a type, if there is one.
fn part_if(store: &Store, with: Option<Opening>) -> Result<Option<With>, AllocError>
    requires { HasWith store.now with }
    ensures { IfOk result (λ w. option_map part_of w ≡ option_map (opening.part_of store.now) with) }
{
    match with {
        None => Ok(None),
        Some(with) => Ok(Some(part(store, with)?)),
    }
}

// What a rule acts on beside a formula.
fn acted_beside(
    store: &Store,
    first: Form,
    second: Option<FormId>,
    with: Option<Opening>,
) -> Result<Acted, AllocError>
    requires second { HasSecond store.now second }
    requires with { HasWith store.now with }
    ensures first { IfOk result (λ a. a.first ≡ first) }
    ensures second { IfOk result (λ a. option_map form_tree a.second ≡ option_map (form_of store.now) second) }
    ensures with { IfOk result (λ a. option_map part_of a.with ≡ option_map (opening.part_of store.now) with) }
{
    let second = second_of(store, second)?;
    let with = part_if(store, with)?;
    Ok(Acted {
        first,
        second,
        with,
    })
}

/// What a rule acts on, from the ids.
pub(crate) fn acted_on(
    store: &Store,
    first: FormId,
    second: Option<FormId>,
    with: Option<Opening>,
) -> Result<Acted, AllocError>
    requires first { HasForm store.now first }
    requires second { HasSecond store.now second }
    requires with { HasWith store.now with }
    ensures first { IfOk result (λ a. form_tree a.first ≡ form_of store.now first) }
    ensures second { IfOk result (λ a. option_map form_tree a.second ≡ option_map (form_of store.now) second) }
    ensures with { IfOk result (λ a. option_map part_of a.with ≡ option_map (opening.part_of store.now) with) }
{
    let first = store.form_tree(first)?;
    acted_beside(store, first, second, with)
}

/// A rule that adds nothing yet.
pub(crate) fn rule(alloc: Global, name: RuleName, acted: Acted, children: DTrees) -> DTree
    ensures { tree_of result
        ≡ plain.DTree.node [] (name_of name) (form_tree acted.first) (option_map form_tree acted.second) (option_map part_of acted.with) (trees_of children) }
{
    let Acted {
        first,
        second,
        with,
    } = acted;
    DTree {
        added: Forms::new(alloc),
        name,
        first,
        second,
        with,
        children,
    }
}

// The trees of formulas.
fn forms(alloc: Global, store: &Store, ids: &[FormId]) -> Result<Forms, AllocError>
    requires { HasForms store.now ids.now }
    ensures { IfOk result (λ fs. map form_tree fs ≡ forms_of store.now ids.now) }
{
    let mut all = Forms::new(alloc);
    for id in ids {
        all.push(store.form_tree(*id)?)?;
    }
    Ok(all)
}

// A tree with these formulas as what it adds.
fn adding(alloc: Global, store: &Store, ids: &[FormId], tree: DTree) -> Result<DTree, AllocError>
    requires { HasForms store.now ids.now }
    ensures { IfOk result (λ t. tree_of t ≡ with_added (forms_of store.now ids.now) (tree_of tree)) }
{
    let added = forms(alloc, store, ids)?;
    let DTree {
        name,
        first,
        second,
        with,
        children,
        ..
    } = tree;
    Ok(DTree {
        added,
        name,
        first,
        second,
        with,
        children,
    })
}

// Whether two ids are those of one formula.
fn same(store: &Store, left: FormId, right: FormId) -> bool
    requires left { HasForm store.now left }
    requires right { HasForm store.now right }
    ensures { result ≡ spec_same (form_of store.now left) (form_of store.now right) }
{
    store.shared();
    left.0 == right.0
}

// The conversion of a formula to its normal form, below a tree.
fn converting(
    alloc: Global,
    store: &Store,
    raw: FormId,
    normal: FormId,
    tree: DTree,
) -> Result<DTree, AllocError>
    requires raw { HasForm store.now raw }
    requires normal { HasForm store.now normal }
    ensures { IfOk result (λ t. tree_of t ≡ plain.DTree.node [] rules.RuleName.conversion (form_of store.now raw) (Some (form_of store.now normal)) None
        (plain.DTrees.more (with_added (form_of store.now normal ∷ []) (tree_of tree)) plain.DTrees.none)) }
{
    let above = adding(alloc, store, &[normal], tree)?;
    let mut children = DTrees::new(alloc);
    children.push(above)?;
    let acted = acted_on(store, raw, Some(normal), None)?;
    Ok(rule(alloc, RuleName::Conversion, acted, children))
}

// The conversion of a formula, unless it is its own normal form, below a tree.
fn converted_once(
    alloc: Global,
    store: &Store,
    raw: FormId,
    normal: FormId,
    tree: DTree,
) -> Result<DTree, AllocError>
    requires raw { HasForm store.now raw }
    requires normal { HasForm store.now normal }
    ensures { IfOk result (λ t. tree_of t ≡ spec_conversion (form_of store.now raw) (form_of store.now normal) (tree_of tree)) }
{
    if same(store, raw, normal) {
        Ok(tree)
    } else {
        converting(alloc, store, raw, normal, tree)
    }
}

// The length of the shorter list.
fn shorter(raw: &[FormId], normal: &[FormId]) -> usize
    ensures raw { result ≤ length raw.now }
    ensures normal { result ≤ length normal.now }
    ensures most { (n : ℕ) → n < length raw.now → n < length normal.now → n < result }
{
    if raw.len() < normal.len() {
        raw.len()
    } else {
        normal.len()
    }
}

// The conversions of formulas to their normal forms, in order, below a tree.
fn all_converted(
    alloc: Global,
    store: &Store,
    raw: &[FormId],
    normal: &[FormId],
    tree: DTree,
) -> Result<DTree, AllocError>
    requires raw { HasForms store.now raw.now }
    requires normal { HasForms store.now normal.now }
    ensures { IfOk result (λ t. tree_of t ≡ conversions (forms_of store.now raw.now) (forms_of store.now normal.now) (tree_of tree)) }
{
    let mut tree = tree;
    let mut place = shorter(raw, normal);
    while place > 0 {
        place -= 1;
        tree = converted_once(alloc, store, raw[place], normal[place], tree)?;
    }
    Ok(tree)
}

/// A tree with the conversions of formulas to their normal forms below it, the lowest of which adds the formulas.
pub(crate) fn converted(
    alloc: Global,
    store: &Store,
    raw: &[FormId],
    normal: &[FormId],
    tree: DTree,
) -> Result<DTree, AllocError>
    requires raw { HasForms store.now raw.now }
    requires normal { HasForms store.now normal.now }
    ensures { IfOk result (λ t. tree_of t
        ≡ with_added (forms_of store.now raw.now) (conversions (forms_of store.now raw.now) (forms_of store.now normal.now) (tree_of tree))) }
{
    let tree = all_converted(alloc, store, raw, normal, tree)?;
    adding(alloc, store, raw, tree)
}
