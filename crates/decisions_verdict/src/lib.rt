// The verdict on a message (document 01, "**Receive** replies and acts by item"): the word that it earns, the change that it makes to
// the live requests, and what is remembered of the controller's frames. The crates above judge; nothing is changed here.
#![tactic(auto)]

ghost use Rattle.std.specs.Prelude.{◌≡◌, None, Some};

use ledger::Word;
use link::repeats::Seen;
use live_changes::Change;

// What a message does.
#[derive(Drop)]
pub struct Verdict {
    pub word: Option<Word>,
    pub change: Option<Change>,
    pub seen: Seen,
}

// What a message does to the live requests, and the word that it earns: a verdict that leaves open what is remembered.
#[derive(Drop)]
pub struct Effect {
    pub word: Option<Word>,
    pub change: Option<Change>,
}

impl Effect {
    // The verdict with this effect, after which this is remembered.
    // Ruled out: another word or change, and a SEQ that is forgotten.
    pub fn remembering(self, seen: Seen) -> Verdict
        ensures { result ≡ record { word = self.word; change = self.change; seen = seen } }
    {
        Verdict {
            word: self.word,
            change: self.change,
            seen,
        }
    }
}

// A word, and no more: the effect of a message that changes nothing.
// Ruled out: a change of the live requests, and another word.
pub fn says(word: Word) -> Effect
    ensures { result ≡ record { word = Some word; change = None } }
{
    Effect {
        word: Some(word),
        change: None,
    }
}

// A word, if any, and no more.
// Ruled out: a change of the live requests, and a SEQ that is forgotten.
pub fn only(word: Option<Word>, seen: Seen) -> Verdict
    ensures { (result.word ≡ word) × (result.change ≡ None) × (result.seen ≡ seen) }
{
    Verdict {
        word,
        change: None,
        seen,
    }
}
