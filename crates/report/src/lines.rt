// The lines that only this text has.
ghost use Rattle.text.specs.Writes.{HasRoom, Writes};
ghost use Rattle.report.specs.Report.{full_text, header as header_text};

use format::program::Program;
use text::Writer;

pub fn full(writer: &mut Writer, updates: u64)
    requires { HasRoom writer.old 64 }
    ensures { Writes writer.old writer.new (full_text updates) }
{
    writer.named(b"full ", updates);
    writer.put(b"\n");
}

pub fn header(writer: &mut Writer, program: Program, total: u64, updates: u64)
    requires { HasRoom writer.old 128 }
    ensures { Writes writer.old writer.new
        (header_text program.entry.facts program.entry.derived total updates) }
{
    writer.named(b"atoms ", program.atoms() as u64);
    writer.named(b" facts ", program.facts as u64);
    writer.named(b" total ", total);
    writer.named(b" updates ", updates);
    writer.put(b"\n");
}
