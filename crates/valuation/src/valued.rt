ghost use Rattle.std.specs.Prelude.{◌≡◌, map, filter, IfOk, OnOk};
ghost use Rattle.zm_logic.specs.Same.{has as spec_has};
ghost use Rattle.zm_logic.specs.View.{form_tree, problem_tree};
ghost use Rattle.term_store.specs.Trees.{HasForm, form_of};
ghost use Rattle.param_store.specs.View.{HasForms, forms_of};
ghost use Rattle.branch.specs.Branch as branches;
ghost use Rattle.branch.specs.Stepped.{IsOpen, AtLeaf};
ghost use Rattle.valuation.specs.Valuation as spec;
ghost use Rattle.valuation.specs.View.{valued_tree};

use branch::{Open, Tableau};
use sqlite_items::Items;
use std::alloc::{AllocError, Global};
use term_store::{FormId, FormNode, Store};
use zm_logic::{Form, Problem, TypedProblem};

/// An atom with its truth value.
#[derive(Drop)]
pub struct Valued {
    pub atom: Form,
    pub truth: bool,
}

/// A list of atoms with truth values. An atom that isn't listed counts as false.
pub type Valuation = Items<Valued>;

/// The atoms of a problem in order of first appearance in the premises in order and then the conjecture, true exactly where
/// the atom stands on the tableau's current branch, that of its first Open leaf. The condition is that some leaf is Open.
/// The one error is want of memory.
pub fn valuation_of(
    alloc: Global,
    tableau: &Tableau<Open>,
    problem: &TypedProblem,
) -> Result<Valuation, AllocError>
    requires open { IsOpen tableau.now }
    ensures { IfOk result (λ v. AtLeaf tableau.now (λ leaf. map valued_tree v ≡ spec.valuation leaf.branch (problem_tree problem.now))) }
{
    let standing = standing(alloc, tableau)?;
    let atoms = problem_atoms(alloc, problem.problem())?;
    values_on(alloc, standing.as_slice(), atoms.as_slice())
}

// The atoms that stand on the current branch.
fn standing(alloc: Global, tableau: &Tableau<Open>) -> Result<Items<Form>, AllocError>
    requires open { IsOpen tableau.now }
    ensures { IfOk result (λ all. AtLeaf tableau.now (λ leaf. map form_tree all ≡ filter spec.is_atom leaf.branch)) }
{
    let branch = tableau.branch();
    atoms_among(alloc, tableau.store(), branch.forms())
}

// The atoms among some formulas of the store.
fn atoms_among(alloc: Global, store: &Store, forms: &[FormId]) -> Result<Items<Form>, AllocError>
    requires { HasForms store.now forms.now }
    ensures { IfOk result (λ all. map form_tree all ≡ filter spec.is_atom (forms_of store.now forms.now)) }
{
    let mut all = Items::new(alloc);
    for form in forms {
        add_atom(store, *form, &mut all)?;
    }
    Ok(all)
}

// Adds a formula of the store to a list, if it is an atom.
fn add_atom(store: &Store, form: FormId, all: &mut Items<Form>) -> Result<(), AllocError>
    requires { HasForm store.now form }
    ensures { OnOk result (map form_tree all.new ≡ spec.with_atom (map form_tree all.old) (form_of store.now form)) }
{
    if is_atom(store, form) {
        all.push(store.form_tree(form)?)?;
    }
    Ok(())
}

// Whether a formula of the store is an atom.
fn is_atom(store: &Store, form: FormId) -> bool
    requires { HasForm store.now form }
    ensures { result ≡ spec.is_atom (form_of store.now form) }
{
    match store.form_node(form) {
        FormNode::Atom(_, _, _) => true,
        FormNode::True
        | FormNode::False
        | FormNode::Equal(_, _, _)
        | FormNode::Not(_)
        | FormNode::And(_, _)
        | FormNode::Or(_, _)
        | FormNode::Imp(_, _)
        | FormNode::Iff(_, _)
        | FormNode::All(_, _)
        | FormNode::Ex(_, _)
        | FormNode::AllType(_)
        | FormNode::ExType(_) => false,
    }
}

// Each of the atoms, true exactly where it is listed.
fn values_on(alloc: Global, standing: &[Form], atoms: &[Form]) -> Result<Valuation, AllocError>
    ensures { IfOk result (λ v. map valued_tree v ≡ map (spec.value_on (map form_tree standing.now)) (map form_tree atoms.now)) }
{
    let mut all = Items::new(alloc);
    for a in atoms {
        let atom = a.copy(alloc)?;
        let truth = has(standing, a);
        all.push(Valued { atom, truth })?;
    }
    Ok(all)
}

// Whether a formula stands in a list.
fn has(forms: &[Form], form: &Form) -> bool
    ensures { result ≡ spec_has (map form_tree forms.now) (form_tree form.now) }
{
    for other in forms {
        if other.same(form) {
            return true;
        }
    }
    false
}

// Adds a formula to a list, unless it stands there.
fn add(alloc: Global, all: &mut Items<Form>, form: &Form) -> Result<(), AllocError>
    ensures { OnOk result (map form_tree all.new ≡ branches.add (map form_tree all.old) (form_tree form.now)) }
{
    if has(all.as_slice(), form) {
        return Ok(());
    }
    all.push(form.copy(alloc)?)
}

// The distinct atoms of a problem, in order of first appearance in the premises in order and then the conjecture.
fn problem_atoms(alloc: Global, problem: &Problem) -> Result<Items<Form>, AllocError>
    ensures { IfOk result (λ all. map form_tree all ≡ spec.problem_atoms (problem_tree problem.now)) }
{
    let mut all = Items::new(alloc);
    for premise in problem.premises.as_slice() {
        add_atoms(alloc, &premise.form, &mut all)?;
    }
    add_atoms(alloc, &problem.conjecture, &mut all)?;
    Ok(all)
}

// Adds the atoms of a formula to a list, but for those that stand there.
#[cycle(add_atoms)]
fn add_atoms(alloc: Global, form: &Form, all: &mut Items<Form>) -> Result<(), AllocError>
    ensures { OnOk result (map form_tree all.new ≡ branches.extend (map form_tree all.old) (spec.atoms (form_tree form.now))) }
{
    match form {
        Form::Atom(_, _, _) => add(alloc, all, form),
        Form::Not(f) => add_atoms(alloc, f.get(), all),
        Form::And(f, g) | Form::Or(f, g) | Form::Imp(f, g) | Form::Iff(f, g) => {
            add_atoms(alloc, f.get(), all)?;
            add_atoms(alloc, g.get(), all)
        }
        Form::True
        | Form::False
        | Form::Equal(_, _, _)
        | Form::All(_, _)
        | Form::Ex(_, _)
        | Form::AllType(_)
        | Form::ExType(_) => Ok(()),
    }
}
