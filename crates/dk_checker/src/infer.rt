ghost use Rattle.std.specs.Prelude.{◌≡◌, suc, IfOk, IfErr, OnOk, MatchResult, false, length, []};
ghost use Rattle.lp_terms.specs.Term as plain;
ghost use Rattle.lp_terms.specs.Term.{opened};
ghost use Rattle.lp_terms.specs.Typing as typing;
ghost use Rattle.lp_terms.specs.Reduction.{instance_at};
ghost use Rattle.lp_terms.specs.View.{term_of, entries_of};
ghost use Rattle.dk_checker.specs.Found as found;
ghost use Rattle.dk_checker.specs.Found.{here};
ghost use Rattle.dk_checker.specs.Asking.{depth, or_unbound, type_of_constant, of_variable};
ghost use Rattle.dk_checker.specs.Inference.{more_types};
ghost use Rattle.dk_checker.specs.View.{class_of, pair_of, under_of, context_of, variables, IsStop, Tells};
ghost use Rattle.dk_checker.specs.declared.stop.Stop.TheVariants.{Memory};
ghost use Rattle.dk_checker.specs.Told.{is_product, found_in, found_as, product_found, under_found, binder_found, reduced_found, abstraction_found};

use crate::asking::{asks, asks_body, asks_sort, normal_form};
use crate::lookup::type_of_constant;
use crate::stop::{Halt, Refusal, Stop, in_part, refused, stop_here};
use crate::term::{variable_for, with_variables};
use crate::verdict::Class;
use lp_terms::{Entry, Lp, Text, close, open};
use sqlite_items::Items;
use std::alloc::{AllocError, Global};

/// The inferred type of a part. The variables of the binders and context variables round it have these types and are
/// numbered from 0; the part's indices stand for the last `inner` of them. A chain of types may get `chain` types more.
/// What lies below `levels` levels counts as memory that isn't there.
#[cycle(infer)]
pub fn infer(
    alloc: Global,
    signature: &[Entry],
    limit: u32,
    types: &mut Items<Lp>,
    inner: u32,
    chain: u32,
    levels: u32,
    term: &Lp,
) -> Result<Class, Stop>
    ensures told { Tells class_of (found_in (entries_of signature.now) limit chain types.old inner (term_of term.now)) result }
    ensures kept { OnOk result (types.new ≡ types.old) }
{
    match levels.checked_sub(1) {
        None => Err(Stop::Memory),
        Some(below) => match term {
            Lp::Sort => Ok(Class::Kind),
            Lp::Const(name) => constant_class(alloc, signature, name),
            Lp::Free(n) => variable_class(alloc, types.as_slice(), *n),
            Lp::Index(i) => index_class(alloc, types.as_slice(), inner, *i),
            Lp::App(f, a) => {
                let (f, a) = (f.get(), a.get());
                infer_application(alloc, signature, limit, types, inner, chain, below, f, a)
            }
            Lp::Abs(a, t) => {
                let (a, t) = (a.get(), t.get());
                infer_abstraction(alloc, signature, limit, types, inner, chain, below, a, t)
            }
            Lp::Prod(a, b) => {
                let (a, b) = (a.get(), b.get());
                infer_product(alloc, signature, limit, types, inner, chain, below, a, b)
            }
        },
    }
}

#[cycle(infer)]
fn infer_application(
    alloc: Global,
    signature: &[Entry],
    limit: u32,
    types: &mut Items<Lp>,
    inner: u32,
    chain: u32,
    levels: u32,
    f: &Lp,
    a: &Lp,
) -> Result<Class, Stop>
    ensures told { Tells class_of (found_in (entries_of signature.now) limit chain types.old inner (plain.Lp.app (term_of f.now) (term_of a.now))) result }
    ensures kept { OnOk result (types.new ≡ types.old) }
{
    let product = infer_function(alloc, signature, limit, types, inner, chain, levels, f);
    let (domain, codomain) = in_part(product, 0)?;
    let wanted = Class::Of(domain);
    let asked = infer_as(
        alloc, signature, limit, types, inner, chain, levels, wanted, a,
    );
    in_part(asked, 1)?;
    applied_type(alloc, types.as_slice(), inner, &codomain, a)
}

// An applied part: the domain and the codomain of its product.
#[cycle(infer)]
fn infer_function(
    alloc: Global,
    signature: &[Entry],
    limit: u32,
    types: &mut Items<Lp>,
    inner: u32,
    chain: u32,
    levels: u32,
    f: &Lp,
) -> Result<(Lp, Lp), Stop>
    ensures told { Tells pair_of (product_found (entries_of signature.now) limit chain types.old inner (term_of f.now)) result }
    ensures kept { OnOk result (types.new ≡ types.old) }
{
    match infer(alloc, signature, limit, types, inner, chain, levels, f) {
        Err(stop) => Err(stop),
        Ok(Class::Kind) => Err(no_product(alloc, Class::Kind, Class::Kind)),
        Ok(Class::Of(ty)) => match split(ty) {
            Ok(parts) => Ok(parts),
            Err(ty) => reduced_product(alloc, signature, limit, types, chain, levels, ty),
        },
    }
}

// A type that is no product: the parts of its normal form, which is inferred first.
#[cycle(infer)]
fn reduced_product(
    alloc: Global,
    signature: &[Entry],
    limit: u32,
    types: &mut Items<Lp>,
    chain: u32,
    levels: u32,
    ty: Lp,
) -> Result<(Lp, Lp), Stop>
    ensures told { Tells pair_of (reduced_found (entries_of signature.now) limit chain types.old (term_of ty)) result }
    ensures kept { OnOk result (types.new ≡ types.old) }
{
    let number = depth(types.as_slice())?;
    let form = normal_form(alloc, signature, limit, number, &ty)?;
    match split(form) {
        Err(form) => Err(no_product(alloc, Class::Of(ty), Class::Of(form))),
        Ok((a, b)) => match ask_more(alloc, signature, limit, types, chain, levels, &ty, &a, &b) {
            Err(stop) => Err(stop),
            Ok(()) => Ok((a, b)),
        },
    }
}

// What is asked further of a product that is the normal form of an applied part's type.
#[cycle(infer)]
fn ask_more(
    alloc: Global,
    signature: &[Entry],
    limit: u32,
    types: &mut Items<Lp>,
    chain: u32,
    levels: u32,
    ty: &Lp,
    a: &Lp,
    b: &Lp,
) -> Result<(), Stop>
    ensures told { Tells (λ _. tt) (here (more_types (entries_of signature.now) limit chain (context_of types.old) (term_of ty.now) (plain.Lp.prod (term_of a.now) (term_of b.now)))) result }
    ensures kept { OnOk result (types.new ≡ types.old) }
{
    match chain.checked_sub(1) {
        None => Err(spent(alloc, ty)),
        Some(left) => match infer_product(alloc, signature, limit, types, 0, left, levels, a, b) {
            Err(stop) => Err(stop_here(alloc, stop)),
            Ok(_) => Ok(()),
        },
    }
}

/// A part that is to have the class.
#[cycle(infer)]
pub fn infer_as(
    alloc: Global,
    signature: &[Entry],
    limit: u32,
    types: &mut Items<Lp>,
    inner: u32,
    chain: u32,
    levels: u32,
    wanted: Class,
    term: &Lp,
) -> Result<(), Stop>
    ensures told { Tells (λ _. tt) (found_as (entries_of signature.now) limit chain types.old inner (class_of wanted) (term_of term.now)) result }
    ensures kept { OnOk result (types.new ≡ types.old) }
{
    let number = depth(types.as_slice())?;
    match infer(alloc, signature, limit, types, inner, chain, levels, term) {
        Err(stop) => Err(stop),
        Ok(found) => asks(alloc, signature, limit, number, wanted, found),
    }
}

#[cycle(infer)]
fn infer_abstraction(
    alloc: Global,
    signature: &[Entry],
    limit: u32,
    types: &mut Items<Lp>,
    inner: u32,
    chain: u32,
    levels: u32,
    a: &Lp,
    t: &Lp,
) -> Result<Class, Stop>
    ensures told { Tells class_of (found_in (entries_of signature.now) limit chain types.old inner (plain.Lp.abs (term_of a.now) (term_of t.now))) result }
    ensures kept { OnOk result (types.new ≡ types.old) }
{
    let number = depth(types.as_slice())?;
    match infer_binder(alloc, signature, limit, types, inner, chain, levels, a, t) {
        Err(stop) => Err(stop),
        Ok((domain, found)) => abstraction_type(alloc, number, domain, found),
    }
}

#[cycle(infer)]
fn infer_product(
    alloc: Global,
    signature: &[Entry],
    limit: u32,
    types: &mut Items<Lp>,
    inner: u32,
    chain: u32,
    levels: u32,
    a: &Lp,
    b: &Lp,
) -> Result<Class, Stop>
    ensures told { Tells class_of (found_in (entries_of signature.now) limit chain types.old inner (plain.Lp.prod (term_of a.now) (term_of b.now))) result }
    ensures kept { OnOk result (types.new ≡ types.old) }
{
    let above = one_more(depth(types.as_slice())?)?;
    match infer_binder(alloc, signature, limit, types, inner, chain, levels, a, b) {
        Err(stop) => Err(stop),
        Ok((_, found)) => in_part(asks_sort(alloc, signature, limit, above, found), 1),
    }
}

// A binder: its domain, which is to have Type, and what the part under it has.
#[cycle(infer)]
fn infer_binder(
    alloc: Global,
    signature: &[Entry],
    limit: u32,
    types: &mut Items<Lp>,
    inner: u32,
    chain: u32,
    levels: u32,
    a: &Lp,
    t: &Lp,
) -> Result<(Lp, Class), Stop>
    ensures told { Tells under_of (binder_found (entries_of signature.now) limit chain types.old inner (term_of a.now) (term_of t.now)) result }
    ensures kept { OnOk result (types.new ≡ types.old) }
{
    let sort = Class::Of(Lp::Sort);
    let asked = infer_as(
        alloc, signature, limit, types, inner, chain, levels, sort, a,
    );
    in_part(asked, 0)?;
    let domain = with_context(alloc, types.as_slice(), inner, a)?;
    let under = infer_under(
        alloc, signature, limit, types, inner, chain, levels, domain, t,
    );
    in_part(under, 1)
}

// The part under a binder with this domain.
#[cycle(infer)]
fn infer_under(
    alloc: Global,
    signature: &[Entry],
    limit: u32,
    types: &mut Items<Lp>,
    inner: u32,
    chain: u32,
    levels: u32,
    domain: Lp,
    t: &Lp,
) -> Result<(Lp, Class), Stop>
    ensures told { Tells under_of (under_found (entries_of signature.now) limit chain types.old inner (term_of domain) (term_of t.now)) result }
    ensures kept { OnOk result (types.new ≡ types.old) }
{
    let under = one_more(inner)?;
    let place = types.len();
    types.push(domain)?;
    match infer(alloc, signature, limit, types, under, chain, levels, t) {
        Err(stop) => Err(stop),
        Ok(found) => Ok((types.remove(place), found)),
    }
}

/// The number of variables. One past the bound on binders counts as memory that isn't there.
#[tactic(auto, using(crate::proofs::Variables::depth_context))]
pub fn depth(types: &[Lp]) -> Result<u32, Stop>
    ensures many { IfOk result (λ n. n ≡ length types.now) }
    ensures deep { IfOk result (λ n. n ≡ depth (context_of types.now)) }
    ensures stopped { IfErr result (λ e. e ≡ Memory) }
{
    match u32::try_from(types.len()) {
        Ok(number) => Ok(number),
        Err(_) => Err(Stop::Memory),
    }
}

/// The next number.
pub fn one_more(number: u32) -> Result<u32, AllocError>
    ensures { IfOk result (λ n. n ≡ suc number) }
{
    number.checked_add(1).ok_or(AllocError)
}

fn no_product(alloc: Global, ty: Class, normal: Class) -> Stop
    ensures { IsStop (found.Stop.refused [] (found.Refusal.not_product (class_of ty) (class_of normal))) result }
{
    Stop::Halted(refused(alloc, Refusal::NotProduct { found: ty, normal }))
}

fn spent(alloc: Global, ty: &Lp) -> Stop
    ensures { IsStop (found.Stop.spent (term_of ty.now)) result }
{
    match ty.copy(alloc) {
        Ok(from) => Stop::Halted(Halt::Spent(from)),
        Err(_) => Stop::Memory,
    }
}

// The term with the variables of the types for its indices.
fn with_context(alloc: Global, types: &[Lp], inner: u32, a: &Lp) -> Result<Lp, Stop>
    ensures ok { IfOk result (λ t. term_of t ≡ instance_at 0 (variables (length types.now) inner) (term_of a.now)) }
    ensures err { IfErr result (λ e. e ≡ Memory) }
{
    let number = depth(types)?;
    let domain = with_variables(alloc, a, number, inner, 0)?;
    Ok(domain)
}

// The parts of a product, or the same term.
fn split(term: Lp) -> Result<(Lp, Lp), Lp>
    ensures { MatchResult result (λ p. term_of term ≡ plain.Lp.prod (term_of p.0) (term_of p.1)) (λ t. (t ≡ term) × (is_product (term_of term) ≡ false)) }
{
    match term {
        Lp::Prod(a, b) => Ok((a.into_inner(), b.into_inner())),
        Lp::Sort => Err(Lp::Sort),
        Lp::Const(name) => Err(Lp::Const(name)),
        Lp::Free(n) => Err(Lp::Free(n)),
        Lp::Index(i) => Err(Lp::Index(i)),
        Lp::App(f, a) => Err(Lp::App(f, a)),
        Lp::Abs(a, t) => Err(Lp::Abs(a, t)),
    }
}

fn constant_class(alloc: Global, signature: &[Entry], name: &Text) -> Result<Class, Stop>
    ensures { Tells class_of (or_unbound (type_of_constant (entries_of signature.now) name.now)) result }
{
    match type_of_constant(signature, name) {
        Some(ty) => Ok(Class::Of(ty.copy(alloc)?)),
        None => Err(Stop::Halted(Halt::Unbound)),
    }
}

// The type of the variable of that number.
fn variable_class(alloc: Global, types: &[Lp], number: u32) -> Result<Class, Stop>
    ensures { Tells class_of (of_variable (context_of types.now) (plain.Lp.free number)) result }
{
    match types.get(number as usize) {
        Some(ty) => Ok(Class::Of(ty.copy(alloc)?)),
        None => Err(Stop::Halted(Halt::Unbound)),
    }
}

// The type of the variable that an index stands for.
fn index_class(alloc: Global, types: &[Lp], inner: u32, i: u32) -> Result<Class, Stop>
    ensures { Tells class_of (of_variable (context_of types.now) (instance_at 0 (variables (length types.now) inner) (plain.Lp.index i))) result }
{
    let depth = depth(types)?;
    let variable = variable_for(i, depth, inner, 0);
    class_of_variable(alloc, types, &variable)
}

// The type of a variable; no other term has one here.
fn class_of_variable(alloc: Global, types: &[Lp], variable: &Lp) -> Result<Class, Stop>
    ensures { Tells class_of (of_variable (context_of types.now) (term_of variable.now)) result }
{
    match variable {
        Lp::Free(number) => variable_class(alloc, types, *number),
        Lp::Sort | Lp::Const(_) | Lp::Index(_) | Lp::App(_, _) | Lp::Abs(_, _) | Lp::Prod(_, _) => {
            Err(Stop::Halted(Halt::Unbound))
        }
    }
}

// The codomain at the argument.
fn applied_type(
    alloc: Global,
    types: &[Lp],
    inner: u32,
    codomain: &Lp,
    argument: &Lp,
) -> Result<Class, Stop>
    ensures { Tells class_of (found.Found.gives (typing.Class.of (opened (term_of codomain.now) (instance_at 0 (variables (length types.now) inner) (term_of argument.now))))) result }
{
    let argument = with_context(alloc, types, inner, argument)?;
    Ok(Class::Of(open(alloc, codomain, &argument)?))
}

// The product that an abstraction has.
fn abstraction_type(alloc: Global, number: u32, domain: Lp, found: Class) -> Result<Class, Stop>
    ensures { Tells class_of (abstraction_found number (term_of domain, class_of found)) result }
{
    let body = in_part(asks_body(alloc, found), 1)?;
    let codomain = close(alloc, &body, number)?;
    Ok(Class::Of(Lp::product(alloc, domain, codomain)?))
}
