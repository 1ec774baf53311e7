// What a reader gives, as lines: each is gathered, and run.
use crate::complaints::Stop;
use crate::running::Session;
use crate::sheet::{Line, Sheet};
use arrayvec::ArrayVec;
use script_bytes::faults::Fault;
use std::io::{Read, Write};
use streams::failure::Failure;

// How many bytes are read at once, and how many a line may have.
const PIECE_LENGTH: usize = 65536;

const LINE_LENGTH: usize = 65536;

// A script that is run: its session, the line that is gathered and its number, the line's answer, and the answers that wait.
#[derive(Drop)]
pub(crate) struct Script {
    session: Session,
    line: ArrayVec<u8, LINE_LENGTH>,
    number: u64,
    answer: Line,
    sheet: Sheet,
}

impl Script {
    // Before the first line.
    pub(crate) fn new() -> Script {
        Script {
            session: Session::new(),
            line: ArrayVec::new(),
            number: 1,
            answer: Line::new(),
            sheet: Sheet::new(),
        }
    }

    // Reads until the input ends or something is wrong. A proved loop has to end, and nothing says that an input does: so it counts
    // up to a number that no run reaches.
    // Stays: turns are counted here and in `listing`, whose clause `moves_all` says of them what was read and written: no one function has both.
    pub(crate) fn run<R: Read, W: Write>(
        &mut self,
        input: &mut R,
        output: &mut W,
    ) -> Result<(), Stop> {
        for _ in 0..u64::MAX {
            if !self.run_some(input, output)? {
                return Ok(());
            }
        }
        Err(Stop::Failed(Failure::Endless))
    }

    // Reads once, runs the lines that came to their end, and writes their answers. Whether there may be more to read.
    fn run_some<R: Read, W: Write>(&mut self, input: &mut R, output: &mut W) -> Result<bool, Stop> {
        let mut piece = [0; PIECE_LENGTH];
        let n = input.read(&mut piece).map_err(|_| Failure::Read)?;
        let ran = match n {
            // the last line may lack its end
            0 => self.run_line(output),
            _ => self.run_piece(output, &piece[..n]),
        };
        // what was answered is written before what is wrong is told
        self.sheet.write_out(output).map_err(|_| Failure::Write)?;
        ran?;
        Ok(0 < n)
    }

    // Gathers the lines of a piece, and runs each that came to its end: a line ends in front of every part but the first.
    fn run_piece<W: Write>(&mut self, output: &mut W, piece: &[u8]) -> Result<(), Stop> {
        for (ended, part) in piece.split(|byte| *byte == b'\n').enumerate() {
            if 0 < ended {
                self.run_line(output)?;
            }
            let number = self.number;
            let fault = Fault::LongLine;
            self.line
                .try_extend_from_slice(part)
                .map_err(|_| Stop::Wrong { number, fault })?;
        }
        Ok(())
    }

    // Runs the line that is gathered.
    fn run_line<W: Write>(&mut self, output: &mut W) -> Result<(), Stop> {
        let number = self.number;
        self.session
            .run_line(&self.line, &mut self.answer)
            .map_err(|fault| Stop::Wrong { number, fault })?;
        self.sheet
            .add(output, &self.answer)
            .map_err(|_| Failure::Write)?;
        self.line.clear();
        self.number = number.saturating_add(1);
        Ok(())
    }
}
