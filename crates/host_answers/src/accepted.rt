// What an accepted call works with.
ghost use Rattle.std.specs.Prelude.{◌≡◌};
ghost use Rattle.host_answers.specs.Code.{Sound};

use endpoint::Endpoint;
use live_changes::Live;

// An endpoint that is not malformed, and a reading not below its clock: what the table's first two lines leave.
#[derive(Clone, Copy)]
pub struct Accepted {
    pub e: Endpoint,
    pub clock: u64,
    pub ghost sound: { Sound e clock },
}

impl Accepted {
    // The live requests, whose rows fit.
    // Ruled out: those of another endpoint, and a row outside the array.
    pub fn live(&self) -> Live
        ensures { result.requests ≡ self.now.e.live }
    {
        Live {
            requests: self.e.live,
        }
    }

    // R, which is 255 at most.
    // Ruled out: another R than the endpoint's, and the low byte of one over 255.
    #[tactic(auto, using(refinement::proofs::Sound::reserved_of))]
    pub fn reserved(&self) -> u8
        ensures { result ≡ self.now.e.reserved }
    {
        self.e.reserved as u8
    }
}
