ghost use Rattle.std.specs.Prelude.{ℕ, ◌≡◌, ◌≢◌, ◌≤◌, ◌<◌, suc, true, false, None, OnOk, IfOk, IfErr};
ghost use Rattle.zm_logic.specs.Tree.{Problem};
ghost use Rattle.zm_logic.specs.View.{side_tree, problem_tree};
ghost use Rattle.zm_logic.specs.Truth.{refuted};
ghost use Rattle.term_store.specs.Open.{HasRedex, redex_of};
ghost use Rattle.rule_select.specs.Selection.{KeepsAll};
ghost use Rattle.rule_select.specs.View.{selection_tree};
ghost use Rattle.branch.specs.Branch.{closing};
ghost use Rattle.branch.specs.EqualityFree.{AreEqualityFree};
ghost use Rattle.branch.specs.Tableau as spec;
ghost use Rattle.branch.specs.Listed.{IfStop};
ghost use Rattle.branch.specs.State.{tree};
ghost use Rattle.branch.specs.Stepped.{IsOpen, IsUnclosed, IsSame, IsTooDeep, AtLeaf, HasOffer};
ghost use Rattle.search.specs.OpenLeaves.{open_leaves};
ghost use Rattle.search.specs.Searched.{IsGrownOf, StaysGrown, IsSettled, HasOffers, HasStop, IsWhyOf, IsChecked, IsEnded, IsTurn, IsFound};

use branch::{BranchStop, Closed, Open, StartStop, Tableau, Why};
use rule_select::Selection;
use std::alloc::{AllocError, Global};
use term_store::{Redex, Store};
use zm_logic::{Side, TypedProblem};

/// The greatest number of Steps on a branch.
const LONGEST: u32 = 512;

/// What a search may spend.
#[derive(Clone, Copy, Debug, PartialEq, Eq)]
pub struct Budget {
    /// The most Steps, from 1 to 1,000,000.
    pub steps: u32,
    /// The most steps of rewriting for a normal form, from 1 to 1,000,000.
    pub rewrites: u32,
}

/// What a search answers.
#[derive(Drop)]
pub enum Searched {
    /// No leaf is Open.
    Closed(Tableau<Closed>),
    /// The search stopped at the first Open leaf, for this reason.
    Open(Tableau<Open>, Why),
}

/// What one turn of a search does.
#[derive(Drop)]
enum Turned {
    /// A Step was put.
    Grown,
    /// No leaf is Open, or the search stops, for this reason.
    Ended(Option<Why>),
}

// The tree of a place in the store.
fn side_of(store: &Store, at: Redex) -> Result<Side, AllocError>
    requires { HasRedex store.now at }
    ensures { IfOk result (λ side. side_tree side ≡ redex_of store.now at) }
{
    match at {
        Redex::OfTerm(term) => Ok(Side::OfTerm(store.term_tree(term)?)),
        Redex::OfForm(form) => Ok(Side::OfForm(store.form_tree(form)?)),
    }
}

// Why the offers of a branch can't be made.
fn why_of(store: &Store, stop: BranchStop) -> Result<Why, AllocError>
    requires { HasStop store.now stop }
    ensures { IfOk result (IsWhyOf store.now stop) }
{
    match stop {
        BranchStop::Memory => Err(AllocError),
        BranchStop::Spent { from } => Ok(Why::Rewrites {
            from: store.form_tree(from)?,
        }),
        BranchStop::Deep { at } => Ok(Why::Deep {
            at: side_of(store, at)?,
        }),
    }
}

// Whether some leaf is Open, and the first of them has a closed branch.
fn can_close(tableau: &Tableau<Open>) -> bool
    ensures open { result ≡ true → IsOpen tableau.now }
    ensures closed { result ≡ true → AtLeaf tableau.now (λ leaf. closing leaf.branch ≢ None) }
    ensures settled { result ≡ false → IsSettled tableau.now }
{
    !tableau.is_finished() && tableau.branch().closing_pair().is_some()
}

// Closes the current leaf.
fn close(tableau: &mut Tableau<Open>) -> Result<(), AllocError>
    requires open { IsOpen tableau.old }
    requires closed { AtLeaf tableau.old (λ leaf. closing leaf.branch ≢ None) }
    ensures grown { OnOk result (StaysGrown tableau.old tableau.new) }
    ensures fewer { OnOk result (suc (open_leaves (tree tableau.new)) ≤ open_leaves (tree tableau.old)) }
    ensures same { OnOk result (spec.count (tree tableau.new) ≡ spec.count (tree tableau.old)) }
{
    tableau.kept();
    tableau.close_leaf()?;
    tableau.kept();
    Ok(())
}

// Closes leaves up to the first whose branch isn't closed.
fn close_leaves(tableau: &mut Tableau<Open>) -> Result<(), AllocError>
    ensures grown { OnOk result (StaysGrown tableau.old tableau.new) }
    ensures settled { OnOk result (IsSettled tableau.new) }
    ensures same { OnOk result (spec.count (tree tableau.new) ≡ spec.count (tree tableau.old)) }
{
    while can_close(tableau) {
        close(tableau)?;
    }
    Ok(())
}

// Why no Step is put at a leaf with so many offers.
fn stop_at(tableau: &Tableau<Open>, offers: usize, steps: u32) -> Option<Why>
    requires open { IsOpen tableau.now }
    requires unclosed { IsUnclosed tableau.now }
    requires listed { HasOffers tableau.now offers }
    requires within { spec.count (tree tableau.now) ≤ steps }
    ensures { IsChecked steps tableau.now result }
{
    tableau.kept();
    if offers == 0 {
        return Some(Why::Saturated);
    }
    if tableau.steps() == steps {
        return Some(Why::Steps);
    }
    if tableau.branch_steps() == LONGEST {
        return Some(Why::BranchLength);
    }
    None
}

// How many offers the current branch has, or what stops them.
fn count_offers(tableau: &mut Tableau<Open>) -> Result<usize, BranchStop>
    requires open { IsOpen tableau.old }
    requires unclosed { IsUnclosed tableau.old }
    ensures listed { IfOk result (HasOffers tableau.new) }
    ensures stop { IfErr result (IfStop (IsTooDeep tableau.new)) }
    ensures same { IsSame tableau.old tableau.new }
{
    Ok(tableau.offers()?.len())
}

// Why no Step is put at the current leaf.
fn stop(tableau: &mut Tableau<Open>, steps: u32) -> Result<Option<Why>, AllocError>
    requires open { IsOpen tableau.old }
    requires unclosed { IsUnclosed tableau.old }
    requires within { spec.count (tree tableau.old) ≤ steps }
    ensures checked { IfOk result (IsChecked steps tableau.new) }
    ensures open { IsOpen tableau.new }
    ensures unclosed { IsUnclosed tableau.new }
    ensures grown { StaysGrown tableau.old tableau.new }
    ensures same { spec.count (tree tableau.new) ≡ spec.count (tree tableau.old) }
{
    tableau.kept();
    let counted = count_offers(tableau);
    tableau.kept();
    match counted {
        Ok(count) => Ok(stop_at(tableau, count, steps)),
        Err(stop) => Ok(Some(why_of(tableau.store(), stop)?)),
    }
}

// Puts the Step that takes the first offer.
fn grow(tableau: &mut Tableau<Open>) -> Result<(), AllocError>
    requires open { IsOpen tableau.old }
    requires unclosed { IsUnclosed tableau.old }
    requires offer { HasOffer tableau.old 0 }
    requires short { AtLeaf tableau.old (λ leaf. leaf.above < 512) }
    requires few { spec.count (tree tableau.old) < 1000000 }
    ensures grown { OnOk result (StaysGrown tableau.old tableau.new) }
    ensures more { OnOk result (spec.count (tree tableau.new) ≡ suc (spec.count (tree tableau.old))) }
{
    tableau.kept();
    tableau.apply(0)?;
    tableau.kept();
    Ok(())
}

// Puts a Step at the current leaf, or stops there.
fn turn_at_leaf(tableau: &mut Tableau<Open>, steps: u32) -> Result<Turned, AllocError>
    requires open { IsOpen tableau.old }
    requires unclosed { IsUnclosed tableau.old }
    requires within { spec.count (tree tableau.old) ≤ steps }
    requires few { steps ≤ 1000000 }
    ensures grown { OnOk result (StaysGrown tableau.old tableau.new) }
    ensures turn { IfOk result (IsTurn steps tableau.old tableau.new) }
{
    match stop(tableau, steps)? {
        Some(why) => Ok(Turned::Ended(Some(why))),
        None => {
            grow(tableau)?;
            Ok(Turned::Grown)
        }
    }
}

// Closes leaves, and puts a Step or stops at the first one whose branch isn't closed, if there is one.
fn turn(tableau: &mut Tableau<Open>, steps: u32) -> Result<Turned, AllocError>
    requires within { spec.count (tree tableau.old) ≤ steps }
    requires few { steps ≤ 1000000 }
    ensures grown { OnOk result (StaysGrown tableau.old tableau.new) }
    ensures turn { IfOk result (IsTurn steps tableau.old tableau.new) }
{
    close_leaves(tableau)?;
    if tableau.is_finished() {
        return Ok(Turned::Ended(None));
    }
    turn_at_leaf(tableau, steps)
}

// Puts Steps, each with the first offer, until no leaf is Open or the search stops.
fn grow_on(tableau: &mut Tableau<Open>, steps: u32) -> Result<Option<Why>, AllocError>
    requires within { spec.count (tree tableau.old) ≤ steps }
    requires few { steps ≤ 1000000 }
    ensures grown { OnOk result (StaysGrown tableau.old tableau.new) }
    ensures within { OnOk result (spec.count (tree tableau.new) ≤ steps) }
    ensures ended { IfOk result (IsEnded steps tableau.new) }
{
    loop {
        match turn(tableau, steps)? {
            Turned::Grown => {}
            Turned::Ended(why) => return Ok(why),
        }
    }
}

// A tableau with what stopped it.
fn answer_of(tableau: Tableau<Open>, why: Option<Why>) -> Searched
    requires { why ≡ None → spec.is_finished (tree tableau) ≡ true }
    ensures { (p : Problem) (steps rewrites : ℕ) → IsGrownOf p steps rewrites tableau → IsEnded steps tableau why → IsFound p steps rewrites result }
{
    match why {
        Some(why) => Searched::Open(tableau, why),
        None => match tableau.finish() {
            Ok(closed) => Searched::Closed(closed),
            Err(_) => unreachable!(),
        },
    }
}

/// Searches for a closed tableau of the problem's kept premises and its negated conjecture, in at most so many Steps. It
/// works depth first, from left to right, and takes the first offer of the branch at each Step.
///
/// No branch gets more than 512 Steps. The one error is want of memory.
pub fn search(
    alloc: Global,
    problem: &TypedProblem,
    selection: &Selection,
    budget: Budget,
) -> Result<Searched, AllocError>
    requires kept { KeepsAll (problem_tree problem.now) (selection_tree selection.now) }
    requires equality_free { AreEqualityFree (refuted (problem_tree problem.now)) }
    requires few { budget.steps ≤ 1000000 }
    ensures { IfOk result (IsFound (problem_tree problem.now) budget.steps budget.rewrites) }
{
    match Tableau::start(alloc, problem, selection, budget.rewrites) {
        Ok(mut tableau) => {
            tableau.kept();
            let why = grow_on(&mut tableau, budget.steps)?;
            Ok(answer_of(tableau, why))
        }
        Err(StartStop::Memory) => Err(AllocError),
        Err(StartStop::Stopped { tableau, why }) => Ok(Searched::Open(tableau, why)),
    }
}
