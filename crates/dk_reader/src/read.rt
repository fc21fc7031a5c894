ghost use Rattle.std.specs.Prelude.{◌≡◌, [], false, IfOk, IfErr, IfSome, OnOk, map};
ghost use Rattle.lp_terms.specs.Names.{is_among};
ghost use Rattle.lp_terms.specs.View.{entry_of, entries_of};
ghost use Rattle.dk_text.specs.Names.{Reads};
ghost use Rattle.dk_text.specs.Refusals.{Answers, FileAnswers};
ghost use Rattle.dk_text.specs.Refusals as plain;
ghost use Rattle.dk_reader.specs.Seen.{seen, form_of};
ghost use Rattle.dk_reader.specs.Judged.{refusal_seen, name_at, with_name};
ghost use Rattle.dk_reader.specs.Told.{form_told, told_of, Refuses};
ghost use Rattle.dk_reader.specs.Proper.{AreProper};
ghost use Rattle.dk_reader.specs.Advance.{Accepts, Advances, Stops};

use crate::blank::after_blank;
use crate::judge::{Refusal, judge};
use crate::lexer::entry_tokens;
use crate::mark::declared_name;
use crate::names::Names;
use crate::refusal::{DkReadRefusal, Form};
use crate::token::{LeftOut, Token};
use lp_terms::{DkFile, Entries, Entry};
use std::alloc::{AllocError, Global};

/// An entry that was read, and the text behind it.
#[derive(Drop)]
struct Next<'a> {
    entry: Entry,
    rest: &'a [u8],
}

// The form that the refusal of a token names.
fn form_named(form: LeftOut) -> Form
    ensures { result ≡ form_told (form_of form) }
{
    match form {
        LeftOut::Command => Form::Command,
        LeftOut::Quoted => Form::Name,
        LeftOut::Pattern => Form::Pattern,
    }
}

// The refusal of an entry at its place in a text of so many bytes.
fn told(refusal: Refusal, all: usize, at: usize) -> DkReadRefusal
    ensures { result ≡ told_of all at (refusal_seen refusal) }
{
    match refusal {
        Refusal::Unsupported(form, left) => DkReadRefusal::Unsupported {
            form: form_named(form),
            at: all.saturating_sub(left),
        },
        Refusal::Syntax => DkReadRefusal::Syntax { at },
        Refusal::TooDeep => DkReadRefusal::TooDeep { at },
        Refusal::Duplicate => DkReadRefusal::Duplicate { at },
        Refusal::VariableName => DkReadRefusal::Unsupported {
            form: Form::Name,
            at,
        },
        Refusal::UnknownName(left) => DkReadRefusal::UnknownName {
            at: all.saturating_sub(left),
        },
        Refusal::BadRule => DkReadRefusal::Unsupported {
            form: Form::Rule,
            at,
        },
        Refusal::Memory => DkReadRefusal::Memory,
    }
}

// Declares the name that an entry of these tokens has, if it has one.
fn declare<'a>(names: &mut Names<'a>, tokens: &[Token<'a>]) -> Result<(), AllocError>
    requires { IfSome (name_at (map seen tokens.now)) (λ x. is_among x names.old ≡ false) }
    ensures { OnOk result (names.new ≡ with_name (name_at (map seen tokens.now)) names.old) }
{
    match declared_name(tokens) {
        Some(name) => names.declare(name),
        None => Ok(()),
    }
}

// Reads the entry of these tokens, with the text behind it, and declares its name.
fn accept<'a>(
    alloc: Global,
    names: &mut Names<'a>,
    tokens: &[Token<'a>],
    rest: &'a [u8],
) -> Result<Next<'a>, Refusal>
    requires { AreProper (map seen tokens.now) }
    ensures accepted { IfOk result (λ n. Accepts names.old names.new (map seen tokens.now) (entry_of n.entry)) }
    ensures rest { IfOk result (λ n. n.rest.now ≡ rest.entry.now) }
    ensures refused { IfErr result (λ r. IfSome (refusal_seen r) (λ s. Answers names.old (map seen tokens.now) (plain.Answer.refused s))) }
{
    let entry = judge(alloc, names, tokens)?;
    match declare(names, tokens) {
        Ok(()) => Ok(Next { entry, rest }),
        Err(_) => Err(Refusal::Memory),
    }
}

// Reads the entry at the front of the text, where no blank stands, and declares its name.
fn read_next<'a>(alloc: Global, names: &mut Names<'a>, here: &'a [u8]) -> Result<Next<'a>, Refusal>
    ensures read { IfOk result (λ n. Advances names.old names.new here.entry.now (entry_of n.entry) n.rest.now) }
    ensures refused { IfErr result (λ r. IfSome (refusal_seen r) (λ s. Stops names.old here.entry.now s)) }
{
    match entry_tokens(alloc, here) {
        Ok(lexed) => accept(alloc, names, lexed.tokens.as_slice(), lexed.rest),
        Err(_) => Err(Refusal::Memory),
    }
}

/// Reads Dedukti text: the file that it has as its one reading, where no term of it nests deeper than
/// 8,000.
///
/// # Errors
///
/// The refusal of the first entry that has one, and of its refusals the first in this order: a
/// command, a quoted name or a wildcard; what is no entry; a term that nests 8,001 deep or deeper; a
/// name declared before; a declared name that is `x` and digits; an identifier that stands for
/// nothing; a rule whose left side is no constant applied to patterns or lacks a context variable.
/// Want of memory may come at any point before.
pub fn read_dk(alloc: Global, bytes: &[u8]) -> Result<DkFile, DkReadRefusal>
    ensures answered { IfOk result (λ f. FileAnswers [] bytes.now (plain.FileAnswer.file (entries_of f))) }
    ensures read { IfOk result (λ f. Reads [] bytes.now (entries_of f)) }
    ensures refused { IfErr result (λ r. Refuses bytes.now r) }
{
    let mut entries = Entries::new(alloc);
    let mut names = Names::new(alloc);
    let mut rest = bytes;
    loop {
        let here = after_blank(rest);
        if here.is_empty() {
            return Ok(DkFile::make(entries));
        }
        let next = match read_next(alloc, &mut names, here) {
            Ok(next) => next,
            Err(refusal) => return Err(told(refusal, bytes.len(), bytes.len() - here.len())),
        };
        rest = next.rest;
        entries.push(next.entry)?;
    }
}
