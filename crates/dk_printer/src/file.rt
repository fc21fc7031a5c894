ghost use Rattle.std.specs.Prelude.{◌≡◌, ◌<◌, ◌++◌, codes, length};
ghost use Rattle.lp_terms.specs.Measure.{limit};
ghost use Rattle.lp_terms.specs.Signature as signature;
ghost use Rattle.lp_terms.specs.View.{term_of, terms_of, entry_of, entries_of};
ghost use Rattle.dk_text.specs.Text.{bindings_text, entry_text, file_text};
ghost use Rattle.dk_printer.specs.Writes.{Writes};
ghost use Rattle.dk_printer.specs.Reading.{HasOneReading};
ghost use Rattle.dk_printer.specs.Parts.{IsPrintable, ArePrintable, IsPrintableEntry};
ghost use Rattle.dk_printer.specs.Parts.{ended_text, typed_text, binding_text, context_text, line_text};

use crate::pieces::{write, write_binder, write_if};
use crate::term::print_term;
use lp_terms::{DkFile, Entry, Lp, Text};
use zm_base::{Failed, Sink};

/// Prints a file, one entry a line. The text is read as this file, and as no other.
///
/// It takes no memory, and fails only where a write failed; the sink has then taken a proper prefix
/// of the text. Each name and each sign is a write of its own, so a sink whose writes cost much
/// should gather them.
pub fn print<K: Sink>(file: &DkFile, sink: &mut K) -> Result<(), Failed>
    ensures printed { Writes K.Sink (file_text (entries_of file.now)) sink.old sink.new result }
    ensures one_reading { HasOneReading (file_text (entries_of file.now)) (entries_of file.now) }
{
    for entry in file.entries() {
        print_line(entry, sink)?;
    }
    Ok(())
}

/// Prints an entry and the end of its line.
fn print_line<K: Sink>(entry: &Entry, sink: &mut K) -> Result<(), Failed>
    requires { IsPrintableEntry (entry_of entry.now) }
    ensures { Writes K.Sink (line_text (entry_of entry.now)) sink.old sink.new result }
{
    print_entry(entry, sink)?;
    write(sink, b"\n")
}

/// Prints an entry.
fn print_entry<K: Sink>(entry: &Entry, sink: &mut K) -> Result<(), Failed>
    requires { IsPrintableEntry (entry_of entry.now) }
    ensures { Writes K.Sink (entry_text (entry_of entry.now)) sink.old sink.new result }
{
    match entry {
        Entry::Declare {
            name,
            definable,
            ty,
        } => print_declaration(name, *definable, ty, sink),
        Entry::Define { name, ty, body } => print_definition(name, ty, body, sink),
        Entry::Rule {
            context,
            left,
            right,
        } => print_rule(context.as_slice(), left, right, sink),
    }
}

/// Prints a declaration.
fn print_declaration<K: Sink>(
    name: &Text,
    definable: bool,
    ty: &Lp,
    sink: &mut K,
) -> Result<(), Failed>
    requires { IsPrintable 0 (term_of ty.now) }
    ensures { Writes K.Sink (entry_text (signature.Entry.declare name.now definable (term_of ty.now)))
        sink.old sink.new result }
{
    write_if(sink, definable, b"def ")?;
    print_typed(name, ty, b".", sink)
}

/// Prints a definition.
fn print_definition<K: Sink>(name: &Text, ty: &Lp, body: &Lp, sink: &mut K) -> Result<(), Failed>
    requires ty { IsPrintable 0 (term_of ty.now) }
    requires body { IsPrintable 0 (term_of body.now) }
    ensures { Writes K.Sink (entry_text (signature.Entry.define name.now (term_of ty.now) (term_of body.now)))
        sink.old sink.new result }
{
    write(sink, b"def ")?;
    print_typed(name, ty, b" := ", sink)?;
    print_ended(body, 0, b".", sink)
}

/// Prints a rule.
fn print_rule<K: Sink>(context: &[Lp], left: &Lp, right: &Lp, sink: &mut K) -> Result<(), Failed>
    requires context { ArePrintable 0 (terms_of context.now) }
    requires left { IsPrintable (length context.now) (term_of left.now) }
    requires right { IsPrintable (length context.now) (term_of right.now) }
    ensures { Writes K.Sink
        (entry_text (signature.Entry.rule (terms_of context.now) (term_of left.now) (term_of right.now)))
        sink.old sink.new result }
{
    let depth = context.len() as u32;
    print_context(context, sink)?;
    print_ended(left, depth, b" --> ", sink)?;
    print_ended(right, depth, b".", sink)
}

/// Prints a context in its brackets, and a space.
fn print_context<K: Sink>(context: &[Lp], sink: &mut K) -> Result<(), Failed>
    requires printable { ArePrintable 0 (terms_of context.now) }
    requires few { length context.now < limit }
    ensures { Writes K.Sink (context_text (terms_of context.now)) sink.old sink.new result }
{
    write(sink, b"[")?;
    print_bindings(context, sink)?;
    write(sink, b"] ")
}

/// Prints the variables of a context, a comma between two.
fn print_bindings<K: Sink>(context: &[Lp], sink: &mut K) -> Result<(), Failed>
    requires printable { ArePrintable 0 (terms_of context.now) }
    requires few { length context.now < limit }
    ensures { Writes K.Sink (bindings_text 0 (terms_of context.now)) sink.old sink.new result }
{
    let mut depth = 0;
    for ty in context {
        write_if(sink, depth > 0, b", ")?;
        print_binding(ty, depth, sink)?;
        depth += 1;
    }
    Ok(())
}

/// Prints a context variable.
fn print_binding<K: Sink>(ty: &Lp, depth: u32, sink: &mut K) -> Result<(), Failed>
    requires { IsPrintable depth (term_of ty.now) }
    ensures { Writes K.Sink (binding_text depth (term_of ty.now)) sink.old sink.new result }
{
    write_binder(sink, depth)?;
    print_term(ty, depth, sink)
}

/// Prints a name, its type and what stands behind it.
fn print_typed<K: Sink>(name: &Text, ty: &Lp, end: &[u8], sink: &mut K) -> Result<(), Failed>
    requires { IsPrintable 0 (term_of ty.now) }
    ensures { Writes K.Sink (typed_text name.now (term_of ty.now) end.now) sink.old sink.new result }
{
    write_typed_name(name, sink)?;
    print_ended(ty, 0, end, sink)
}

/// Writes a name and the colon behind it.
fn write_typed_name<K: Sink>(name: &Text, sink: &mut K) -> Result<(), Failed>
    ensures { Writes K.Sink (name.now ++ codes " : ") sink.old sink.new result }
{
    write(sink, name.text().as_bytes())?;
    write(sink, b" : ")
}

/// Prints a term and what stands behind it.
fn print_ended<K: Sink>(term: &Lp, depth: u32, end: &[u8], sink: &mut K) -> Result<(), Failed>
    requires { IsPrintable depth (term_of term.now) }
    ensures { Writes K.Sink (ended_text depth (term_of term.now) end.now) sink.old sink.new result }
{
    print_term(term, depth, sink)?;
    write(sink, end)
}
