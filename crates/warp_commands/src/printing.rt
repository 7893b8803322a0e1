//! The lines of a server.
ghost use Rattle.std.specs.Prelude.{◌++◌, decimal};
ghost use Rattle.outside.specs.SinkCauses.{Puts};
ghost use Rattle.warp_commands.specs.Driven.{load_lines, number_line};

use itoa::Buffer;
use outside::{Sink, SinkOut};

/// Prints the three lines of a load that was served. It takes no memory.
pub(crate) fn print_lines<O: Sink>(
    out: &mut O,
    connections: u64,
    requests: u128,
    bytes: u128,
) -> SinkOut
    ensures { Puts result (load_lines connections requests bytes) (O.told out.old) (O.told out.new) }
{
    if let SinkOut::Failed = print_line(out, "connections ", connections as u128) {
        return SinkOut::Failed;
    }
    if let SinkOut::Failed = print_line(out, "requests ", requests) {
        return SinkOut::Failed;
    }
    print_line(out, "bytes ", bytes)
}

/// Prints a line that tells a number.
pub(crate) fn print_line<O: Sink>(out: &mut O, name: &str, number: u128) -> SinkOut
    ensures { Puts result (number_line name.now number) (O.told out.old) (O.told out.new) }
{
    if let SinkOut::Failed = print_number(out, name, number) {
        return SinkOut::Failed;
    }
    out.put(b"\n")
}

/// Prints a name and a number.
fn print_number<O: Sink>(out: &mut O, name: &str, number: u128) -> SinkOut
    ensures { Puts result (name.now ++ decimal number) (O.told out.old) (O.told out.new) }
{
    if let SinkOut::Failed = out.put(name.as_bytes()) {
        return SinkOut::Failed;
    }
    out.put(Buffer::new().format(number).as_bytes())
}
