//! Running to the end.

ghost use Rattle.std.specs.Prelude.{◌≡◌, ◌<◌, ◌≤◌, [], ℕ, true, List, length, OnOk};
ghost use Rattle.krb_base.specs.Prefix.{IsPrefix};
ghost use Rattle.krb_core.specs.declared.turn.Turn.{Turn};
ghost use Rattle.krb_peers.specs.Log.{has_ended};
ghost use Rattle.krb_core.specs.Stepped.{after, is_done};
ghost use Rattle.krb_core.specs.Relayed.{GoesOn, HasTurned, KeepsHeadline};
ghost use Rattle.krb_peers.specs.Ends.{Ends};
ghost use Rattle.krb_peers.specs.Whole.{IsPart, IsRelayed, IsWhole};
ghost use Rattle.krb_core.specs.Finish.{round_turns, finishing, longest_wire, WithRoom, FromStart, whole_log};

use super::Stepped;
use crate::turn::Turn;
use std::alloc::AllocError;

impl Stepped {
    /// Steps a send and a take of each lane in turn, round after round, until every end was taken.
    ///
    /// Each queue needs room for a frame. If there were no turns before, the log then has the
    /// outcomes of all frames, in rounds: of the first frame of each lane, by lane number, then of
    /// the second of each, and so on.
    ///
    /// It ends when it first runs out of memory, with the earlier turns done. The log then has a
    /// prefix of those entries: the outcomes of the frames that were taken of each lane.
    pub fn finish(&mut self) -> Result<(), AllocError>
        ensures after { (done : List Turn) × IsPrefix done (finishing self.old.tracks)
            × (self.new ≡ after self.old done) }
        ensures turned { (done : List Turn) × GoesOn self.old done self.new }
        ensures headline { KeepsHeadline self.old self.new }
        ensures ok { OnOk result (self.new ≡ after self.old (finishing self.old.tracks)) }

        ensures done { WithRoom self.old (OnOk result (is_done self.new ≡ true)) }
        ensures ended { WithRoom self.old (OnOk result ((lane : ℕ)
            → lane < length self.old.tracks → has_ended lane self.new.log ≡ true)) }

        ensures rounds { FromStart self.old (OnOk result
            (self.new.log.entries ≡ whole_log self.old)) }
        ensures front { FromStart self.old (IsPrefix self.new.log.entries (whole_log self.old)) }

        // The same by the lanes: the outcomes of all their frames, and the headline of each. If
        // memory ran out, the outcomes of those that were taken, and the headline too.
        ensures whole { (lanes : List Ends) (capacity : ℕ) → 1 ≤ capacity
            → HasTurned lanes capacity [] self.old → OnOk result
            (IsWhole lanes self.new.log self.new.sents) }
        ensures relayed { (lanes : List Ends) (capacity : ℕ) → 1 ≤ capacity
            → HasTurned lanes capacity [] self.old → IsRelayed lanes self.new.log }
        ensures part { (lanes : List Ends) (capacity : ℕ) → 1 ≤ capacity
            → HasTurned lanes capacity [] self.old → IsPart lanes self.new.log }
    {
        for _ in 0..self.longest() {
            self.round()?;
        }
        self.round()
    }

    /// A send and a take of each lane, by lane number.
    fn round(&mut self) -> Result<(), AllocError>
        ensures turns { (done : List Turn)
            × IsPrefix done (round_turns 0 (length self.old.tracks))
            × (self.new ≡ after self.old done) }
        ensures ok { OnOk result
            (self.new ≡ after self.old (round_turns 0 (length self.old.tracks))) }
    {
        for lane in 0..self.log.lanes() {
            self.step(Turn::Send(lane))?;
            self.step(Turn::Take(lane))?;
        }
        Ok(())
    }

    /// How many frames the longest wire has.
    fn longest(&self) -> usize
        ensures { result ≡ longest_wire self.now.tracks }
    {
        let mut longest = 0;
        for track in &self.tracks {
            longest = longest.max(track.frames());
        }
        longest
    }
}
