ghost use Rattle.std.specs.Prelude.{◌≡◌, IfOk};
ghost use Rattle.zm_logic.specs.Tree as tree;
ghost use Rattle.zm_logic.specs.View.{type_tree, term_tree, form_tree, types_tree, terms_tree};
ghost use Rattle.rule_index.specs.View.{rules_of};
ghost use Rattle.normaliser.specs.NextStep as step;
ghost use Rattle.normaliser.specs.View.{some_form, connective_of, quantifier_of};
ghost use Rattle.normaliser.specs.Parts.{part_step};

use crate::connective::{Connective, Quantifier, bound, bound_types, joined};
use crate::copies::{copy_boxed, copy_terms, copy_types};
use crate::terms::{next_term, next_terms};
use rule_index::Index;
use sqlite_items::Boxed;
use std::alloc::{AllocError, Global};
use zm_logic::{Form, Side, SymId, Term, Terms, Ty, Tys};

// What the first rule that fits a formula makes of it.
fn root_form(alloc: Global, index: &Index, form: &Form) -> Result<Option<Form>, AllocError>
    ensures { IfOk result (λ m. some_form m ≡ step.root_form (rules_of index.now) (form_tree form.now)) }
{
    let place = Side::OfForm(form.copy(alloc)?);
    match index.rewrite(alloc, &place)? {
        Some(Side::OfForm(next)) => Ok(Some(next)),
        Some(Side::OfTerm(_)) => Ok(None),
        None => Ok(None),
    }
}

// The step in the arguments of an atom.
fn atom_part(
    alloc: Global,
    index: &Index,
    symbol: SymId,
    types: &Tys,
    terms: &Terms,
) -> Result<Option<Form>, AllocError>
    ensures { IfOk result (λ m. some_form m ≡ step.under (tree.Form.atom symbol.0 (types_tree types.now)) (step.next_terms (rules_of index.now) (terms_tree terms.now))) }
{
    let types = copy_types(alloc, types)?;
    match next_terms(alloc, index, terms)? {
        Some(terms) => Ok(Some(Form::Atom(symbol, types, terms))),
        None => Ok(None),
    }
}

// The step in the left side of an equality.
fn left_part(
    alloc: Global,
    index: &Index,
    ty: &Ty,
    left: &Term,
    right: &Term,
) -> Result<Option<Form>, AllocError>
    ensures { IfOk result (λ m. some_form m ≡ step.under (λ c. tree.Form.equal (type_tree ty.now) c (term_tree right.now)) (step.next_term (rules_of index.now) (term_tree left.now))) }
{
    let ty = ty.copy(alloc)?;
    let right = right.copy(alloc)?;
    match next_term(alloc, index, left)? {
        Some(left) => Ok(Some(Form::Equal(ty, left, right))),
        None => Ok(None),
    }
}

// The step in the right side of an equality.
fn right_part(
    alloc: Global,
    index: &Index,
    ty: &Ty,
    left: &Term,
    right: &Term,
) -> Result<Option<Form>, AllocError>
    ensures { IfOk result (λ m. some_form m ≡ step.under (tree.Form.equal (type_tree ty.now) (term_tree left.now)) (step.next_term (rules_of index.now) (term_tree right.now))) }
{
    let ty = ty.copy(alloc)?;
    let left = left.copy(alloc)?;
    match next_term(alloc, index, right)? {
        Some(right) => Ok(Some(Form::Equal(ty, left, right))),
        None => Ok(None),
    }
}

// The step in a side of an equality.
fn equal_part(
    alloc: Global,
    index: &Index,
    ty: &Ty,
    left: &Term,
    right: &Term,
) -> Result<Option<Form>, AllocError>
    ensures { IfOk result (λ m. some_form m ≡ part_step (rules_of index.now) (tree.Form.equal (type_tree ty.now) (term_tree left.now) (term_tree right.now))) }
{
    match left_part(alloc, index, ty, left, right)? {
        Some(next) => Ok(Some(next)),
        None => right_part(alloc, index, ty, left, right),
    }
}

/// The leftmost innermost step of a formula, or None where it has none. The one error is want of memory.
#[cycle(next_step)]
#[tactic(auto, using(crate::proofs::PartSteps::parts_then_root))]
pub(crate) fn next_step(
    alloc: Global,
    index: &Index,
    form: &Form,
) -> Result<Option<Form>, AllocError>
    ensures { IfOk result (λ m. some_form m ≡ step.next_step (rules_of index.now) (form_tree form.now)) }
{
    match next_part(alloc, index, form)? {
        Some(next) => Ok(Some(next)),
        None => root_form(alloc, index, form),
    }
}

// The step in a part of a formula.
#[cycle(next_step)]
fn next_part(alloc: Global, index: &Index, form: &Form) -> Result<Option<Form>, AllocError>
    ensures { IfOk result (λ m. some_form m ≡ part_step (rules_of index.now) (form_tree form.now)) }
{
    match form {
        Form::True | Form::False => Ok(None),
        Form::Atom(symbol, types, terms) => atom_part(alloc, index, *symbol, types, terms),
        Form::Equal(ty, left, right) => equal_part(alloc, index, ty, left, right),
        Form::Not(f) => not_part(alloc, index, f),
        Form::And(f, g) => binary_part(alloc, index, Connective::And, f, g),
        Form::Or(f, g) => binary_part(alloc, index, Connective::Or, f, g),
        Form::Imp(f, g) => binary_part(alloc, index, Connective::Imp, f, g),
        Form::Iff(f, g) => binary_part(alloc, index, Connective::Iff, f, g),
        Form::All(ty, f) => quantified_part(alloc, index, Quantifier::All, ty, f),
        Form::Ex(ty, f) => quantified_part(alloc, index, Quantifier::Ex, ty, f),
        Form::AllType(f) => quantified_types_part(alloc, index, Quantifier::All, f),
        Form::ExType(f) => quantified_types_part(alloc, index, Quantifier::Ex, f),
    }
}

// The step of a formula, in a box of its own.
#[cycle(next_step)]
fn next_boxed(
    alloc: Global,
    index: &Index,
    form: &Boxed<Form>,
) -> Result<Option<Boxed<Form>>, AllocError>
    ensures { IfOk result (λ m. some_form m ≡ step.next_step (rules_of index.now) (form_tree form.now)) }
{
    match next_step(alloc, index, form.get())? {
        Some(next) => Ok(Some(Boxed::new(alloc, next)?)),
        None => Ok(None),
    }
}

#[cycle(next_step)]
fn not_part(alloc: Global, index: &Index, form: &Boxed<Form>) -> Result<Option<Form>, AllocError>
    ensures { IfOk result (λ m. some_form m ≡ step.under tree.Form.negation (step.next_step (rules_of index.now) (form_tree form.now))) }
{
    match next_boxed(alloc, index, form)? {
        Some(next) => Ok(Some(Form::Not(next))),
        None => Ok(None),
    }
}

#[cycle(next_step)]
fn binary_part(
    alloc: Global,
    index: &Index,
    connective: Connective,
    first: &Boxed<Form>,
    second: &Boxed<Form>,
) -> Result<Option<Form>, AllocError>
    ensures { IfOk result (λ m. some_form m ≡ part_step (rules_of index.now) (tree.Form.binary (connective_of connective) (form_tree first.now) (form_tree second.now))) }
{
    match next_boxed(alloc, index, first)? {
        Some(next) => Ok(Some(joined(connective, next, copy_boxed(alloc, second)?))),
        None => second_part(alloc, index, connective, first, second),
    }
}

// The step in the second of two formulas.
#[cycle(next_step)]
fn second_part(
    alloc: Global,
    index: &Index,
    connective: Connective,
    first: &Boxed<Form>,
    second: &Boxed<Form>,
) -> Result<Option<Form>, AllocError>
    ensures { IfOk result (λ m. some_form m ≡ step.under (tree.Form.binary (connective_of connective) (form_tree first.now)) (step.next_step (rules_of index.now) (form_tree second.now))) }
{
    match next_boxed(alloc, index, second)? {
        Some(next) => Ok(Some(joined(connective, copy_boxed(alloc, first)?, next))),
        None => Ok(None),
    }
}

#[cycle(next_step)]
fn quantified_part(
    alloc: Global,
    index: &Index,
    quantifier: Quantifier,
    ty: &Ty,
    body: &Boxed<Form>,
) -> Result<Option<Form>, AllocError>
    ensures { IfOk result (λ m. some_form m ≡ step.under (tree.Form.quantified (quantifier_of quantifier) (type_tree ty.now)) (step.next_step (rules_of index.now) (form_tree body.now))) }
{
    match next_boxed(alloc, index, body)? {
        Some(next) => Ok(Some(bound(quantifier, ty.copy(alloc)?, next))),
        None => Ok(None),
    }
}

#[cycle(next_step)]
fn quantified_types_part(
    alloc: Global,
    index: &Index,
    quantifier: Quantifier,
    body: &Boxed<Form>,
) -> Result<Option<Form>, AllocError>
    ensures { IfOk result (λ m. some_form m ≡ step.under (tree.Form.quantified_types (quantifier_of quantifier)) (step.next_step (rules_of index.now) (form_tree body.now))) }
{
    match next_boxed(alloc, index, body)? {
        Some(next) => Ok(Some(bound_types(quantifier, next))),
        None => Ok(None),
    }
}
