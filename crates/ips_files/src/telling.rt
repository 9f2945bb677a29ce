//! Writes texts to a sink.

ghost use Rattle.ips_files.specs.Telling.{Tells};

use ips_outside::Sink;

/// Writes the whole text, and answers whether that was done. Where it wasn't, a front of the text was written.
pub fn tell<O: Sink>(out: &mut O, text: &[u8]) -> bool
    ensures { Tells O.taking text.now out.old out.new result }
{
    let mut rest = text;
    while !rest.is_empty() {
        match out.write(rest) {
            Ok(count) => rest = &rest[count..],
            Err(_) => return false,
        }
    }
    true
}
