// Lines to a writer, many at a time: they wait in a vector of fixed room until there is none for one more.
ghost use Rattle.std.specs.Prelude.{◌≡◌, [], OnOk};
ghost use Rattle.std.specs.Io.KnownBytes.{Appends};
ghost use Rattle.runner.specs.Room.{writes, waits};

use arrayvec::ArrayVec;
use std::io;
use std::io::Write;
use streams::write_out;
use texts::put;

// How many bytes of answers wait at most.
const OUT_LENGTH: usize = 65536;

// Room for a line, its end included, in bytes: two buffers of 4,096 bytes in hexadecimal, and the rest.
pub(crate) const LINE_ROOM: usize = 17000;

// A line, or nothing.
pub(crate) type Line = ArrayVec<u8, LINE_ROOM>;

// The lines that wait.
#[derive(Drop)]
pub(crate) struct Sheet {
    lines: ArrayVec<u8, OUT_LENGTH>,
}

impl Sheet {
    pub(crate) fn new() -> Sheet {
        Sheet {
            lines: ArrayVec::new(),
        }
    }

    // A line joins those that wait; where there might be no room for it, those are written first, and it waits alone.
    #[tactic(auto, unfolding(crate::specs::Room::writes, crate::specs::Room::waits))]
    pub(crate) fn add<W: Write>(&mut self, output: &mut W, line: &Line) -> io::Result<()>
        ensures joins { OnOk result (self.new.lines.items ≡ waits self.old.lines.items line.now.items) }
        ensures written { OnOk result (Appends (W.contents output.old) (W.contents output.new) (writes self.old.lines.items)) }
    {
        if self.lines.remaining_capacity() < LINE_ROOM {
            self.write_out(output)?;
        }
        put(&mut self.lines, line);
        Ok(())
    }

    // Writes the lines that wait.
    pub(crate) fn write_out<W: Write>(&mut self, output: &mut W) -> io::Result<()>
        ensures written { OnOk result (Appends (W.contents output.old) (W.contents output.new) self.old.lines.items) }
        ensures empty { self.new.lines.items ≡ [] }
    {
        write_out(output, &mut self.lines)
    }
}
