ghost use Rattle.std.specs.Prelude.{◌≡◌, ◌<◌, ℕ};
ghost use Rattle.key_chains.specs.Known.{Known, Grows};

use rules::Flag;

/// The verdicts of a block's candidates, as far as they are known. An unknown one may become known during any call, and
/// a known one never changes.
pub trait Board {
    // for how many candidates it has verdicts
    ghost count: { Self → ℕ };

    ghost known: { Self → Known };

    // what a call may make of the board
    ghost moves: { Self → Self → Type 0 };

    /// Whether a candidate passed the endorsement rule, or none where that is unknown.
    fn endorsed(&mut self, i: u32) -> Option<bool>
        requires { i < count self.old }
        ensures value { result ≡ (known self.new).endorsed i }
        ensures moves { moves self.old self.new };

    /// A candidate's flag, or none where it is unknown.
    fn flag(&mut self, i: u32) -> Option<Flag>
        requires { i < count self.old }
        ensures value { result ≡ (known self.new).flag i }
        ensures moves { moves self.old self.new };

    ghost stays: { (a : Self) → moves a a };

    ghost goes_on: { (a b c : Self) → moves a b → moves b c → moves a c };

    ghost same_count: { (a b : Self) → moves a b → count b ≡ count a };

    ghost grows: { (a b : Self) → moves a b → Grows (known a) (known b) };
}
