ghost use Rattle.std.specs.Prelude.{◌≡◌, ◌++◌, cond, codes, []};
ghost use Rattle.dk_text.specs.Text.{variable, binder_text};
ghost use Rattle.dk_printer.specs.Writes.{Writes};

use itoa::Buffer;
use zm_base::{Failed, Sink, write_all};

/// Writes the bytes.
pub fn write<K: Sink>(sink: &mut K, bytes: &[u8]) -> Result<(), Failed>
    ensures { Writes K.Sink (bytes.now) sink.old sink.new result }
{
    write_all(sink, bytes)
}

/// Writes the bytes where they are wanted.
pub fn write_if<K: Sink>(sink: &mut K, wanted: bool, bytes: &[u8]) -> Result<(), Failed>
    ensures { Writes K.Sink (cond wanted bytes.now []) sink.old sink.new result }
{
    if wanted { write(sink, bytes) } else { Ok(()) }
}

/// Writes a variable's name.
pub fn write_variable<K: Sink>(sink: &mut K, number: u32) -> Result<(), Failed>
    ensures { Writes K.Sink (variable number) sink.old sink.new result }
{
    write(sink, b"x")?;
    let mut buffer = Buffer::new();
    write(sink, buffer.format(number).as_bytes())
}

/// Writes a binder's name and the colon behind it.
pub fn write_binder<K: Sink>(sink: &mut K, number: u32) -> Result<(), Failed>
    ensures { Writes K.Sink (binder_text number) sink.old sink.new result }
{
    write_variable(sink, number)?;
    write(sink, b" : ")
}

/// The same where the binder is named.
pub fn write_binder_if<K: Sink>(sink: &mut K, named: bool, number: u32) -> Result<(), Failed>
    ensures { Writes K.Sink (cond named (binder_text number) []) sink.old sink.new result }
{
    if named {
        write_binder(sink, number)
    } else {
        Ok(())
    }
}
