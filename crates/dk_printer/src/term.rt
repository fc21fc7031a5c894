ghost use Rattle.std.specs.Prelude.{◌≡◌, ◌+◌, ◌<◌, ◌||◌, ◌++◌, suc, cond, [], codes};
ghost use Rattle.lp_terms.specs.Term.{IsClosedAt};
ghost use Rattle.lp_terms.specs.Measure.{binder_depth, limit};
ghost use Rattle.lp_terms.specs.File.{occurs};
ghost use Rattle.lp_terms.specs.View.{term_of};
ghost use Rattle.dk_text.specs.Text.{binder_text, term_text, part_text, is_binder, is_compound};
ghost use Rattle.dk_printer.specs.Writes.{Writes};

use crate::pieces::{write, write_binder_if, write_if, write_variable};
use lp_terms::Lp;
use zm_base::{Failed, Sink};

/// Whether the term is a product or an abstraction.
fn is_binder(term: &Lp) -> bool
    ensures { result ≡ is_binder (term_of term.now) }
{
    match term {
        Lp::Prod(_, _) | Lp::Abs(_, _) => true,
        Lp::Sort | Lp::Const(_) | Lp::Free(_) | Lp::Index(_) | Lp::App(_, _) => false,
    }
}

/// Whether the term is neither a name nor Type.
fn is_compound(term: &Lp) -> bool
    ensures { result ≡ is_compound (term_of term.now) }
{
    match term {
        Lp::App(_, _) | Lp::Prod(_, _) | Lp::Abs(_, _) => true,
        Lp::Sort | Lp::Const(_) | Lp::Free(_) | Lp::Index(_) => false,
    }
}

/// Whether the index occurs. It is asked at each product, so printing n nested products takes n walks.
fn occurs(term: &Lp, index: u32) -> bool
    requires { index + binder_depth (term_of term.now) < limit }
    ensures { result ≡ occurs index (term_of term.now) }
{
    match term {
        Lp::Sort | Lp::Const(_) | Lp::Free(_) => false,
        Lp::Index(i) => *i == index,
        Lp::App(f, a) => either(occurs(f.get(), index), occurs(a.get(), index)),
        Lp::Abs(a, b) => either(occurs(a.get(), index), occurs(b.get(), index + 1)),
        Lp::Prod(a, b) => either(occurs(a.get(), index), occurs(b.get(), index + 1)),
    }
}

fn either(first: bool, second: bool) -> bool
    ensures { result ≡ (first || second) }
{
    first || second
}

/// Prints one term. Its first binder has the number `depth`, and a free variable is `x` and its number.
/// Each index of the term is below the sum of `depth` and the number of binders round it, and this sum
/// is below `NUMBER_LIMIT`.
///
/// It takes no memory, and fails only where a write failed; the sink has then taken a proper prefix
/// of the text. It recurses once for each level of the term.
#[cycle(print)]
#[tactic(auto, using(crate::proofs::Parts::parts))]
pub fn print_term<K: Sink>(term: &Lp, depth: u32, sink: &mut K) -> Result<(), Failed>
    requires room { depth + binder_depth (term_of term.now) < limit }
    requires below { IsClosedAt depth (term_of term.now) }
    ensures { Writes K.Sink (term_text depth (term_of term.now)) sink.old sink.new result }
{
    match term {
        Lp::Sort => write(sink, b"Type"),
        Lp::Const(name) => write(sink, name.text().as_bytes()),
        Lp::Free(n) => write_variable(sink, *n),
        Lp::Index(i) => write_variable(sink, depth - 1 - *i),
        Lp::App(f, a) => {
            print_front(f.get(), depth, sink)?;
            print_argument(a.get(), depth, sink)
        }
        Lp::Abs(a, b) => {
            print_domain(a.get(), true, depth, sink)?;
            print_behind(b" => ", b.get(), depth, sink)
        }
        Lp::Prod(a, b) => {
            let named = occurs(b.get(), 0);
            print_domain(a.get(), named, depth, sink)?;
            print_behind(b" -> ", b.get(), depth, sink)
        }
    }
}

/// Prints a function or a domain: in brackets where it is a product or an abstraction.
#[cycle(print)]
fn print_front<K: Sink>(term: &Lp, depth: u32, sink: &mut K) -> Result<(), Failed>
    requires room { depth + binder_depth (term_of term.now) < limit }
    requires below { IsClosedAt depth (term_of term.now) }
    ensures { Writes K.Sink (part_text (is_binder (term_of term.now)) (term_text depth (term_of term.now)))
        sink.old sink.new result }
{
    let brackets = is_binder(term);
    print_part(term, brackets, depth, sink)
}

/// Prints a domain behind its binder's name, where that is wanted. The binder doesn't enclose it.
#[cycle(print)]
fn print_domain<K: Sink>(term: &Lp, named: bool, depth: u32, sink: &mut K) -> Result<(), Failed>
    requires room { depth + binder_depth (term_of term.now) < limit }
    requires below { IsClosedAt depth (term_of term.now) }
    ensures { Writes K.Sink (cond named (binder_text depth) []
        ++ part_text (is_binder (term_of term.now)) (term_text depth (term_of term.now)))
        sink.old sink.new result }
{
    write_binder_if(sink, named, depth)?;
    print_front(term, depth, sink)
}

/// Prints a space and an argument: in brackets unless it is a name or Type.
#[cycle(print)]
fn print_argument<K: Sink>(term: &Lp, depth: u32, sink: &mut K) -> Result<(), Failed>
    requires room { depth + binder_depth (term_of term.now) < limit }
    requires below { IsClosedAt depth (term_of term.now) }
    ensures { Writes K.Sink (codes " "
        ++ part_text (is_compound (term_of term.now)) (term_text depth (term_of term.now)))
        sink.old sink.new result }
{
    write(sink, b" ")?;
    let brackets = is_compound(term);
    print_part(term, brackets, depth, sink)
}

/// Prints a part of a term, in brackets or not.
#[cycle(print)]
fn print_part<K: Sink>(term: &Lp, brackets: bool, depth: u32, sink: &mut K) -> Result<(), Failed>
    requires room { depth + binder_depth (term_of term.now) < limit }
    requires below { IsClosedAt depth (term_of term.now) }
    ensures { Writes K.Sink (part_text brackets (term_text depth (term_of term.now))) sink.old sink.new result }
{
    write_if(sink, brackets, b"(")?;
    print_term(term, depth, sink)?;
    write_if(sink, brackets, b")")
}

/// Prints an arrow and the term behind it, which stands in one more binder.
#[cycle(print)]
fn print_behind<K: Sink>(arrow: &[u8], term: &Lp, depth: u32, sink: &mut K) -> Result<(), Failed>
    requires room { suc depth + binder_depth (term_of term.now) < limit }
    requires below { IsClosedAt (suc depth) (term_of term.now) }
    ensures { Writes K.Sink (arrow.now ++ term_text (suc depth) (term_of term.now)) sink.old sink.new result }
{
    write(sink, arrow)?;
    print_term(term, depth + 1, sink)
}
