// Where text is put: behind the text that stands there, while there is room.
ghost use Rattle.std.specs.Prelude.{◌≡◌, List, [], ℕ, ◌++◌, ◌+◌, ◌≤◌, length, take};
ghost use Rattle.texts.specs.Text.{PutsBehind};

use arrayvec::ArrayVec;

// Room for text: a vector of fixed room, or a lent buffer behind a place.
pub trait Room {
    // the text that it holds
    ghost text: { Self → List ℕ };

    // the most bytes of text that it holds
    ghost most: { Self → ℕ };

    // which buffer it writes to, where that is lent
    ghost lent: { Self → ℕ };

    // Puts more text behind it.
    // Ruled out: a text over the one before, and another buffer.
    fn append(&mut self, more: &[u8])
        requires { length (text self.old) + length more.now ≤ most self.old }
        ensures text { text self.new ≡ text self.old ++ more.now }
        ensures stays { (most self.new ≡ most self.old) × (lent self.new ≡ lent self.old) };

    // The text that it holds.
    // Ruled out: what stands behind the text, and a text that lacks its last byte.
    fn bytes(&self) -> &[u8]
        ensures { result.now ≡ text self.now };

    // How many more bytes of text it holds.
    // Ruled out: the room counted with the text that fills it, and none where there is some.
    fn left(&self) -> usize
        ensures { result + length (text self.now) ≡ most self.now };

    // It holds no text then, and has the room that it had.
    // Ruled out: a text that it holds still, and another buffer.
    fn clear(&mut self)
        ensures stays { (most self.new ≡ most self.old) × (lent self.new ≡ lent self.old) }
        ensures empty { text self.new ≡ [] };
}

impl<const N: usize> Room for ArrayVec<u8, N> {
    ghost text = { λ v. v.items };

    ghost most = { λ _. N };

    ghost lent = { λ _. 0 };

    fn append(&mut self, more: &[u8]) {
        let _ = self.try_extend_from_slice(more);
    }

    fn bytes(&self) -> &[u8] {
        self.as_slice()
    }

    fn left(&self) -> usize {
        self.remaining_capacity()
    }

    fn clear(&mut self) {
        self.clear();
    }
}

// A lent buffer, with text in its first `at` bytes.
#[derive(Drop)]
pub struct Lent<'a> {
    pub out: &'a mut [u8],
    pub at: usize,
    pub ghost within: { at ≤ length out.now },
}

impl Room for Lent<'_> {
    ghost text = { λ it. take it.at it.out.now };

    ghost most = { λ it. length it.out.now };

    ghost lent = { λ it. it.out.ghost_name };

    fn append(&mut self, more: &[u8]) {
        let end = self.at + more.len();
        self.out[self.at..end].copy_from_slice(more);
        self.at = end;
    }

    fn bytes(&self) -> &[u8] {
        &self.out[..self.at]
    }

    fn left(&self) -> usize {
        self.out.len() - self.at
    }

    fn clear(&mut self) {
        self.at = 0;
    }
}

// A text behind the first `at` bytes of a lent buffer: where it ends.
// Ruled out: a text at the front, and an end that leaves out its last byte.
pub fn put_behind(out: &mut [u8], at: usize, text: &[u8]) -> usize
    requires { at + length text.now ≤ length out.old }
    ensures { PutsBehind (length text.now) at text.now out.old out.new result }
{
    let mut room = Lent { out, at };
    room.append(text);
    room.at
}
