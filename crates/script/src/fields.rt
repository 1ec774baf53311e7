// The fields of a line, one space between them.
ghost use Rattle.std.specs.Prelude.{◌≤◌, length, IfOk};
ghost use Rattle.script.specs.Limits.{lent_max};

use crate::calls::LENT_MAX;
use crate::numbers::value_of;
use script_bytes::decode;
use script_bytes::faults::Fault;

// What is left of a line behind a field: nothing, or a space and the fields that follow.
#[derive(Drop)]
pub(crate) struct Reader<'a> {
    rest: &'a [u8],
}

// The first field of a line, and a reader of the others.
pub(crate) fn first(line: &[u8]) -> (&[u8], Reader<'_>) {
    let (field, rest) = cut(line);
    (field, Reader { rest })
}

// The bytes up to the first space, and those from there on.
fn cut(text: &[u8]) -> (&[u8], &[u8]) {
    let end = text.iter().position(|byte| *byte == b' ');
    text.split_at(end.unwrap_or(text.len()))
}

impl<'a> Reader<'a> {
    // The next field, behind one space.
    fn next(&mut self) -> Result<&'a [u8], Fault> {
        let Some((_, text)) = self.rest.split_first() else {
            return Err(Fault::MissingField);
        };
        let (field, rest) = cut(text);
        self.rest = rest;
        Ok(field)
    }

    // Reads a number of at most `most`.
    pub(crate) fn number(&mut self, most: u64) -> Result<u64, Fault>
        ensures { IfOk result (λ number. number ≤ most) }
    {
        value_of(self.next()?, most)
    }

    // Reads a number of one byte.
    pub(crate) fn byte(&mut self) -> Result<u8, Fault> {
        Ok(self.number(u8::MAX as u64)? as u8)
    }

    // Reads the length of a lent buffer.
    pub(crate) fn lent(&mut self) -> Result<usize, Fault>
        ensures { IfOk result (λ len. len ≤ lent_max) }
    {
        Ok(self.number(LENT_MAX as u64)? as usize)
    }

    // Reads `wanted` or `unwanted`: whether a response is wanted.
    pub(crate) fn wanted(&mut self) -> Result<bool, Fault> {
        match self.next()? {
            b"wanted" => Ok(true),
            b"unwanted" => Ok(false),
            _ => Err(Fault::NotWanted),
        }
    }

    // Reads bytes, `-` for none, to the front of a lent buffer, and answers how many they are.
    pub(crate) fn bytes(&mut self, bytes: &mut [u8]) -> Result<usize, Fault>
        ensures { IfOk result (λ count. count ≤ length bytes.old) }
    {
        match self.next()? {
            b"-" => Ok(0),
            digits => decode(digits, bytes),
        }
    }

    // Sees to it that the last field was read.
    pub(crate) fn end(&self) -> Result<(), Fault> {
        if !self.rest.is_empty() {
            return Err(Fault::TextAfter);
        }
        Ok(())
    }
}
