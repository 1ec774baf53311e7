// The capture lister (document 01, "Capture lister"): standard input to its end, a line an item, in constant memory.
#![tactic(auto)]

ghost use Rattle.std.specs.Prelude.{◌≡◌, ◌≤◌, OnOk, OnErr};
ghost use Rattle.std.specs.Io.KnownBytes.{Appends};
ghost use Rattle.line.specs.Receiving.{held_max};
ghost use Rattle.listing.specs.Moving.{ListsWell};

use arrayvec::ArrayVec;
use line::HELD_MAX;
use line_receiving::receive;
use listing_lines::add_line;
use listing_lines::text::put_end;
use std::io;
use std::io::{Read, Write};
pub use streams::failure::Failure;
use streams::write_out;

// How many bytes are read at once, and how many bytes of lines wait at most.
const PIECE_LENGTH: usize = 65536;

const OUT_LENGTH: usize = 4096;

// How far a listing is: the bytes that the line holds, at the front of an array, and the lines that wait.
// Stays: an array with a count, since `line_receiving::receive` takes an array and a count.
#[derive(Drop)]
struct Listing {
    held: [u8; HELD_MAX],
    count: usize,
    waiting: ArrayVec<u8, OUT_LENGTH>,
    ghost within: { count ≤ held_max },
}

// Lists standard input on standard output. Where a read or a write fails, standard error says so and `end` is not printed. No
// contract can say what a program reads or writes: that much is tested, and what `list` does with a reader and a writer is proved.
pub fn list_standard_input(rt: &(impl Input + Print + Eprint)) {
    if let Err(failure) = list(&mut rt.reader(), &mut io::writer(rt)) {
        let _ = eprintln!(rt; "lister: {failure}");
    }
}

// Lists what a reader gives to a writer. Where a read or a write fails, `end` is not written.
// Ruled out: an item without its line, a line that is lost, and a piece that is not read.
pub fn list<R: Read, W: Write>(input: &mut R, output: &mut W) -> Result<(), Failure>
    ensures { OnOk result (ListsWell (R.remaining input.old) (R.remaining input.new) (W.contents output.old) (W.contents output.new)) }
{
    output.write_all(b"items\n").map_err(|_| Failure::Write)?;
    let mut listing = Listing::new();
    if let Err(failure) = listing.list_all(input, output) {
        // what waits is written where it was a read that failed
        if let Failure::Read = failure {
            let _ = write_out(output, &mut listing.waiting);
        }
        return Err(failure);
    }
    listing.finish(output).map_err(|_| Failure::Write)
}

impl Listing {
    ghost use Rattle.listing.specs.Standing.{fresh, writes_in, listed};
    ghost use Rattle.listing.specs.Promises.{out_room, Fails, ListsSome, ListsAll};
    ghost use Rattle.listing.specs.Reached.{standing};
    ghost use Rattle.listing.specs.Moving.{MovesSome, MovesAll, last_of};

    // Before anything is read.
    fn new() -> Listing
        ensures { standing result ≡ fresh }
    {
        Listing {
            held: [0; HELD_MAX],
            count: 0,
            waiting: ArrayVec::new(),
        }
    }

    // Reads until the input ends or something fails. A proved loop has to end, and nothing says that an input does: so it has a
    // number of turns that no run uses up. The contract speaks of some input: of a reader whose bytes are known it is what was read.
    fn list_all<R: Read, W: Write>(&mut self, input: &mut R, output: &mut W) -> Result<(), Failure>
        ensures lists_all { standing self.old ≡ fresh → ListsAll result out_room (standing self.new) }
        ensures moves_all { standing self.old ≡ fresh → MovesAll result out_room (standing self.new)
            (R.remaining input.old) (R.remaining input.new) (W.contents output.old) (W.contents output.new) }
    {
        for _ in 0..u64::MAX {
            if !self.list_some(input, output)? {
                return Ok(());
            }
        }
        Err(Failure::Endless)
    }

    // Reads once, and lists what came: in the contract, some piece. Answers whether anything came.
    fn list_some<R: Read, W: Write>(
        &mut self,
        input: &mut R,
        output: &mut W,
    ) -> Result<bool, Failure>
        ensures lists_some { ListsSome result out_room (standing self.old) (standing self.new) }
        ensures moves_some { MovesSome result out_room (standing self.old) (standing self.new)
            (R.remaining input.old) (R.remaining input.new) (W.contents output.old) (W.contents output.new) }
    {
        let mut piece = [0; PIECE_LENGTH];
        let n = input.read(&mut piece).map_err(|_| Failure::Read)?;
        if n == 0 {
            return Ok(false);
        }
        self.list_piece(output, &piece[..n])
            .map_err(|_| Failure::Write)?;
        Ok(true)
    }

    // Hands the piece in, its untaken rest again, until *more*: a line for each item joins those that wait.
    // Ruled out: an item without its line, and lines of the pieces before that are forgotten.
    #[tactic(auto, using(crate::proofs::Turn::taken_short, crate::proofs::Turn::short, crate::proofs::Turn::listed_more, crate::proofs::Turn::sent_none))]
    fn list_piece<W: Write>(&mut self, output: &mut W, piece: &[u8]) -> io::Result<()>
        ensures lists { OnOk result (standing self.new ≡ listed out_room (standing self.old) piece.now) }
        ensures written { OnOk result (Appends (W.contents output.old) (W.contents output.new)
            (writes_in out_room (standing self.old) piece.now)) }
        ensures fails { OnErr result (Fails out_room (standing self.old) piece.now (standing self.new)) }
    {
        let mut rest = piece;
        loop {
            let received = receive(&mut self.held, self.count, rest);
            self.count = received.count;
            let Some(item) = received.answer else {
                return Ok(());
            };
            add_line(output, &mut self.waiting, item)?;
            rest = &rest[received.taken..];
        }
    }

    // All lines that wait are written, and the last one behind them.
    fn finish<W: Write>(&mut self, output: &mut W) -> io::Result<()>
        ensures { OnOk result (Appends (W.contents output.old) (W.contents output.new) (last_of (standing self.old))) }
    {
        write_out(output, &mut self.waiting)?;
        put_end(&mut self.waiting, self.count);
        write_out(output, &mut self.waiting)
    }
}
