ghost use Rattle.std.specs.Prelude.{◌≡◌, Some, None, true, []};
ghost use Rattle.std.specs.Option.{option_map};
ghost use Rattle.zm_logic.specs.View.{role_tree, form_tree};
ghost use Rattle.tptp_reader.specs.View.{raw_form_tree, statement_tree};
ghost use Rattle.tff_typing.specs.Written as written;
ghost use Rattle.tff_typing.specs.Indexed as at;
ghost use Rattle.tff_typing.specs.View.{table_tree, state_tree, GivesIn, GivesState};

use crate::declarations::declare;
use crate::fault::{Fault, Stop};
use crate::forms::form_in;
use crate::state::State;
use crate::symbols::Symbols;
use std::alloc::Global;
use tptp_reader::{Body, RawForm, RawRole, Statement};
use zm_logic::{Form, Premise, Role, Text};

// The role of a premise; a conjecture is none.
fn premise_role(role: RawRole) -> Option<Role>
    ensures { option_map role_tree result ≡ written.premise_role role }
{
    match role {
        RawRole::Axiom => Some(Role::Axiom),
        RawRole::Hypothesis => Some(Role::Hypothesis),
        RawRole::Definition => Some(Role::Definition),
        RawRole::Assumption => Some(Role::Assumption),
        RawRole::Lemma => Some(Role::Lemma),
        RawRole::Theorem => Some(Role::Theorem),
        RawRole::Corollary => Some(Role::Corollary),
        RawRole::NegatedConjecture => Some(Role::NegatedConjecture),
        RawRole::Conjecture => None,
    }
}

// A formula outside of which no variable is bound.
fn closed_form<'a>(alloc: Global, symbols: &mut Symbols<'a>, raw: &'a RawForm) -> Result<Form, Stop>
    ensures { GivesIn form_tree result symbols.new
        (at.form_at (table_tree symbols.old) [] (raw_form_tree raw.entry.now)) }
{
    let mut scope = Vec::new(alloc);
    form_in(alloc, symbols, &mut scope, raw)
}

// One more premise.
#[tactic(auto, using(crate::proofs::States::premise_push))]
fn premise<'a>(
    alloc: Global,
    state: &mut State<'a>,
    name: &str,
    role: Role,
    raw: &'a RawForm,
) -> Result<(), Stop>
    ensures { GivesState result state.new
        (at.formula_at (state_tree state.old) name.now (Some (role_tree role)) (raw_form_tree raw.entry.now)) }
{
    let form = closed_form(alloc, &mut state.symbols, raw)?;
    let name = Text::of(alloc, name)?;
    state.premises.push(Premise { name, role, form })?;
    Ok(())
}

// The conjecture, which is the first one.
fn conjecture<'a>(alloc: Global, state: &mut State<'a>, raw: &'a RawForm) -> Result<(), Stop>
    ensures { GivesState result state.new (at.formula_at (state_tree state.old) [] None (raw_form_tree raw.entry.now)) }
{
    if state.conjecture.is_some() {
        return Err(Stop::Refused(Fault::SecondConjecture));
    }
    let form = closed_form(alloc, &mut state.symbols, raw)?;
    state.conjecture = Some(form);
    Ok(())
}

/// What one more statement makes.
pub fn statement_in<'a>(
    alloc: Global,
    state: &mut State<'a>,
    statement: &'a Statement,
) -> Result<(), Stop>
    ensures { GivesState result state.new
        (at.statement_at (state_tree state.old) (statement_tree statement.entry.now)) }
{
    match &statement.body {
        Body::Formula { name, role, form } => match premise_role(*role) {
            Some(role) => premise(alloc, state, name.text(), role, form),
            None => conjecture(alloc, state, form),
        },
        Body::Typing {
            name: _,
            subject,
            declared,
        } => declare(alloc, &mut state.symbols, subject.text(), declared),
        Body::Include { file: _, names: _ } => Ok(()),
    }
}
