ghost use Rattle.std.specs.Prelude.{◌≡◌};
ghost use Rattle.lp_terms.specs.Same.{same};
ghost use Rattle.lp_terms.specs.WellFormed.{head};
ghost use Rattle.lp_terms.specs.View.{term_of, entries_of};
ghost use Rattle.dk_checker.specs.Asking as plain;
ghost use Rattle.dk_checker.specs.View.{class_of, classes_of, normal_classes, Tells};

use crate::lookup::is_by_def;
use crate::stop::{Halt, Refusal, Stop, refused};
use crate::verdict::Class;
use lp_reduce::{ReduceStop, lp_normal_from};
use lp_terms::{Entry, Lp};
use std::alloc::Global;

fn is_same_class(left: &Class, right: &Class) -> bool
    ensures { result ≡ plain.same_class (class_of left.now) (class_of right.now) }
{
    match (left, right) {
        (Class::Kind, Class::Kind) => true,
        (Class::Of(t), Class::Of(u)) => is_same_term(t, u),
        (Class::Kind | Class::Of(_), _) => false,
    }
}

fn is_same_term(left: &Lp, right: &Lp) -> bool
    ensures { result ≡ same (term_of left.now) (term_of right.now) }
{
    left.is_same(right)
}

fn is_sort(class: &Class) -> bool
    ensures { result ≡ plain.is_sort (class_of class.now) }
{
    match class {
        Class::Kind | Class::Of(Lp::Sort) => true,
        Class::Of(
            Lp::Const(_)
            | Lp::Free(_)
            | Lp::Index(_)
            | Lp::App(_, _)
            | Lp::Abs(_, _)
            | Lp::Prod(_, _),
        ) => false,
    }
}

/// The normal form of a type behind `number` variables.
#[tactic(auto, using(crate::proofs::Told::normal_told, crate::proofs::Told::spent_told))]
pub fn normal_form(
    alloc: Global,
    signature: &[Entry],
    limit: u32,
    number: u32,
    ty: &Lp,
) -> Result<Lp, Stop>
    ensures { Tells term_of (plain.normal_form (entries_of signature.now) limit number (term_of ty.now)) result }
{
    match lp_normal_from(alloc, signature, number, ty, limit) {
        Ok((form, _)) => Ok(form),
        Err(ReduceStop::Memory) => Err(Stop::Memory),
        Err(ReduceStop::Spent) => Err(Stop::Halted(Halt::Spent(ty.copy(alloc)?))),
    }
}

#[tactic(auto, using(crate::proofs::Told::stopped_then))]
fn normal_class(
    alloc: Global,
    signature: &[Entry],
    limit: u32,
    number: u32,
    class: &Class,
) -> Result<Class, Stop>
    ensures { Tells class_of (plain.normal_class (entries_of signature.now) limit number (class_of class.now)) result }
{
    match class {
        Class::Kind => Ok(Class::Kind),
        Class::Of(ty) => {
            let form = normal_form(alloc, signature, limit, number, ty)?;
            Ok(Class::Of(form))
        }
    }
}

/// What is found behind `number` variables where a type is wanted.
#[tactic(auto, using(crate::proofs::Told::stopped_then))]
pub fn asks(
    alloc: Global,
    signature: &[Entry],
    limit: u32,
    number: u32,
    wanted: Class,
    found: Class,
) -> Result<(), Stop>
    ensures { Tells (λ _. tt) (plain.asks (entries_of signature.now) limit number (class_of wanted) (class_of found)) result }
{
    if is_same_class(&found, &wanted) {
        return Ok(());
    }
    let (found_normal, wanted_normal) = normal_classes(
        alloc, signature, limit, number, &found, &wanted,
    )?;
    if is_same_class(&found_normal, &wanted_normal) {
        return Ok(());
    }
    Err(Stop::Halted(refused(
        alloc,
        Refusal::Mismatch {
            found,
            wanted,
            found_normal,
            wanted_normal,
        },
    )))
}

#[tactic(auto, using(crate::proofs::Told::stopped_then))]
fn normal_classes(
    alloc: Global,
    signature: &[Entry],
    limit: u32,
    number: u32,
    found: &Class,
    wanted: &Class,
) -> Result<(Class, Class), Stop>
    ensures { Tells classes_of (normal_classes (entries_of signature.now) limit number (class_of found.now) (class_of wanted.now)) result }
{
    let found_normal = normal_class(alloc, signature, limit, number, found)?;
    match normal_class(alloc, signature, limit, number, wanted) {
        Ok(wanted_normal) => Ok((found_normal, wanted_normal)),
        Err(stop) => Err(stop),
    }
}

/// What is found behind `number` variables where a sort is wanted.
#[tactic(auto, using(crate::proofs::Told::stopped_then))]
pub fn asks_sort(
    alloc: Global,
    signature: &[Entry],
    limit: u32,
    number: u32,
    found: Class,
) -> Result<Class, Stop>
    ensures { Tells class_of (plain.asks_sort (entries_of signature.now) limit number (class_of found)) result }
{
    if is_sort(&found) {
        return Ok(found);
    }
    let normal = normal_class(alloc, signature, limit, number, &found)?;
    if is_sort(&normal) {
        return Ok(normal);
    }
    Err(Stop::Halted(refused(alloc, Refusal::NotSort { found, normal })))
}

/// The type of an abstraction's body, which isn't Kind.
pub fn asks_body(alloc: Global, found: Class) -> Result<Lp, Stop>
    ensures { Tells term_of (plain.asks_body (class_of found)) result }
{
    match found {
        Class::Kind => Err(Stop::Halted(refused(alloc, Refusal::BodyKind))),
        Class::Of(ty) => Ok(ty),
    }
}

/// What is found at the head of a rule's left side.
pub fn asks_head(alloc: Global, signature: &[Entry], limit: u32, left: &Lp) -> Result<(), Stop>
    ensures { Tells (λ _. tt) (plain.asks_head (entries_of signature.now) limit (head (term_of left.now))) result }
{
    match head(left) {
        Lp::Const(name) => {
            if is_by_def(signature, name) {
                Ok(())
            } else {
                Err(Stop::Halted(refused(alloc, Refusal::RuleHead)))
            }
        }
        Lp::Sort | Lp::Free(_) | Lp::Index(_) | Lp::App(_, _) | Lp::Abs(_, _) | Lp::Prod(_, _) => {
            Err(Stop::Halted(refused(alloc, Refusal::RuleHead)))
        }
    }
}

// What a term is an application of.
fn head(term: &Lp) -> &Lp
    ensures { term_of result.now ≡ head (term_of term.now) }
{
    match term {
        Lp::App(f, _) => head(f.get()),
        Lp::Sort | Lp::Const(_) | Lp::Free(_) | Lp::Index(_) | Lp::Abs(_, _) | Lp::Prod(_, _) =>
            term,
    }
}
