ghost use Rattle.std.specs.Prelude.{◌≡◌, IfOk, map, option_map};
ghost use Rattle.tptp_reader.specs.Raw as raw;
ghost use Rattle.tptp_reader.specs.SlowForms.{binder_quantifier, truth_of, bound_all, joins};
ghost use Rattle.tptp_reader.specs.Kept.{whole, limited, kept_tree, joint_connective};
ghost use Rattle.tptp_reader.specs.View.{raw_form_tree, raw_term_tree, raw_variable_tree};

use crate::depths::{greater, term_depth, written_depth};
use crate::heads::Binder;
use crate::tree::{RawForm, RawTerm, RawVar, RawVars};
use sqlite_items::Boxed;
use std::alloc::{AllocError, Global};
use tptp_lex::Sign;

/// The greatest depth of a formula that is kept.
pub const DEPTH: u32 = 1000;

/// A formula with its depth, or that it is too deep. No deeper one is ever made.
#[derive(Drop)]
pub enum Built {
    Whole(Boxed<RawForm>, u32),
    TooDeep,
}

/// What joins two formulas.
#[derive(Clone, Copy)]
pub enum Joint {
    And,
    Or,
    Imp,
    Iff,
}

// A formula of this depth.
fn kept(alloc: Global, form: RawForm, depth: u32) -> Result<Built, AllocError>
    ensures { IfOk result (λ b. kept_tree b ≡ whole (raw_form_tree form) depth) }
{
    let form = Boxed::new(alloc, form)?;
    Ok(Built::Whole(form, depth))
}

/// `$true` or `$false`.
pub fn constant(alloc: Global, value: bool) -> Result<Built, AllocError>
    ensures { IfOk result (λ b. kept_tree b ≡ truth_of limited value) }
{
    if value {
        return kept(alloc, RawForm::True, 1);
    }
    kept(alloc, RawForm::False, 1)
}

/// The atom.
pub fn plain(alloc: Global, term: RawTerm) -> Result<Built, AllocError>
    ensures { IfOk result (λ b. kept_tree b ≡ limited.of_plain (raw_term_tree term)) }
{
    let depth = term_depth(&term);
    if depth > DEPTH {
        return Ok(Built::TooDeep);
    }
    kept(alloc, RawForm::Plain(term), depth)
}

/// The equation of two terms.
pub fn equal(alloc: Global, left: RawTerm, right: RawTerm) -> Result<Built, AllocError>
    ensures { IfOk result (λ b. kept_tree b ≡ limited.of_equal (raw_term_tree left) (raw_term_tree right)) }
{
    let inside = greater(term_depth(&left), term_depth(&right));
    if inside >= DEPTH {
        return Ok(Built::TooDeep);
    }
    kept(alloc, RawForm::Equal(left, right), 1 + inside)
}

/// The negation.
pub fn negated(alloc: Global, inner: Built) -> Result<Built, AllocError>
    ensures { IfOk result (λ b. kept_tree b ≡ limited.of_not (kept_tree inner)) }
{
    match inner {
        Built::TooDeep => Ok(Built::TooDeep),
        Built::Whole(form, depth) => {
            if depth >= DEPTH {
                return Ok(Built::TooDeep);
            }
            kept(alloc, RawForm::Not(form), 1 + depth)
        }
    }
}

fn joint_form(joint: Joint, first: Boxed<RawForm>, second: Boxed<RawForm>) -> RawForm
    ensures { raw_form_tree result ≡ raw.RawForm.binary (joint_connective joint) (raw_form_tree first) (raw_form_tree second) }
{
    match joint {
        Joint::And => RawForm::And(first, second),
        Joint::Or => RawForm::Or(first, second),
        Joint::Imp => RawForm::Imp(first, second),
        Joint::Iff => RawForm::Iff(first, second),
    }
}

// The two joined, where the second isn't too deep.
fn joined_second(
    alloc: Global,
    joint: Joint,
    first: Boxed<RawForm>,
    depth: u32,
    second: Built,
) -> Result<Built, AllocError>
    ensures { IfOk result (λ b. kept_tree b ≡ limited.of_join (joint_connective joint) (whole (raw_form_tree first) depth) (kept_tree second)) }
{
    match second {
        Built::TooDeep => Ok(Built::TooDeep),
        Built::Whole(second, other) => {
            let inside = greater(depth, other);
            if inside >= DEPTH {
                return Ok(Built::TooDeep);
            }
            kept(alloc, joint_form(joint, first, second), 1 + inside)
        }
    }
}

/// The two joined.
pub fn joined(alloc: Global, joint: Joint, first: Built, second: Built) -> Result<Built, AllocError>
    ensures { IfOk result (λ b. kept_tree b ≡ limited.of_join (joint_connective joint) (kept_tree first) (kept_tree second)) }
{
    match first {
        Built::TooDeep => Ok(Built::TooDeep),
        Built::Whole(first, depth) => joined_second(alloc, joint, first, depth, second),
    }
}

// The negation of the two joined.
fn not_joined(alloc: Global, joint: Joint, first: Built, second: Built) -> Result<Built, AllocError>
    ensures { IfOk result (λ b. kept_tree b ≡ limited.of_not (limited.of_join (joint_connective joint) (kept_tree first) (kept_tree second))) }
{
    let inner = joined(alloc, joint, first, second)?;
    negated(alloc, inner)
}

/// What a binary connective makes of two formulas, where it joins just two.
pub fn two(
    alloc: Global,
    sign: Sign,
    first: Built,
    second: Built,
) -> Result<Option<Built>, AllocError>
    ensures { IfOk result (λ b. joins limited sign (kept_tree first) (kept_tree second) ≡ option_map kept_tree b) }
{
    match sign {
        Sign::Implies => Ok(Some(joined(alloc, Joint::Imp, first, second)?)),
        Sign::If => Ok(Some(joined(alloc, Joint::Imp, second, first)?)),
        Sign::Iff => Ok(Some(joined(alloc, Joint::Iff, first, second)?)),
        Sign::Xor => Ok(Some(not_joined(alloc, Joint::Iff, first, second)?)),
        Sign::NotAnd => Ok(Some(not_joined(alloc, Joint::And, first, second)?)),
        Sign::NotOr => Ok(Some(not_joined(alloc, Joint::Or, first, second)?)),
        Sign::Open
        | Sign::Close
        | Sign::OpenList
        | Sign::CloseList
        | Sign::Comma
        | Sign::Stop
        | Sign::Colon
        | Sign::And
        | Sign::Or
        | Sign::Not
        | Sign::Equal
        | Sign::NotEqual
        | Sign::All
        | Sign::Exists
        | Sign::AllTypes
        | Sign::Arrow
        | Sign::Star
        | Sign::At
        | Sign::Caret
        | Sign::Plus
        | Sign::Minus => Ok(None),
    }
}

fn binder_form(binder: Binder, variable: RawVar, body: Boxed<RawForm>) -> RawForm
    ensures { raw_form_tree result ≡ raw.RawForm.quantified (binder_quantifier binder) (raw_variable_tree variable) (raw_form_tree body) }
{
    match binder {
        Binder::All => RawForm::All(variable, body),
        Binder::Ex => RawForm::Ex(variable, body),
    }
}

// The formula under a quantifier for one variable.
fn bound(alloc: Global, binder: Binder, variable: RawVar, body: Built) -> Result<Built, AllocError>
    ensures { IfOk result (λ b. kept_tree b ≡ limited.of_bound (binder_quantifier binder) (raw_variable_tree variable) (kept_tree body)) }
{
    match body {
        Built::TooDeep => Ok(Built::TooDeep),
        Built::Whole(form, depth) => {
            let inside = greater(written_depth(&variable.ty), depth);
            if inside >= DEPTH {
                return Ok(Built::TooDeep);
            }
            kept(alloc, binder_form(binder, variable, form), 1 + inside)
        }
    }
}

/// The formula under one quantifier for each variable, the first outermost.
pub fn quantified(
    alloc: Global,
    binder: Binder,
    variables: RawVars,
    body: Built,
) -> Result<Built, AllocError>
    ensures { IfOk result (λ b. kept_tree b ≡ bound_all limited (binder_quantifier binder) (map raw_variable_tree variables) (kept_tree body)) }
{
    let mut variables = variables;
    let mut formula = body;
    while let Some(variable) = variables.pop() {
        formula = bound(alloc, binder, variable, formula)?;
    }
    Ok(formula)
}
