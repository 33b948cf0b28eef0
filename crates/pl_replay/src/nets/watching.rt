//! Moves that are watched.

ghost use Rattle.std.specs.Prelude.{◌≡◌, ℕ, List};
ghost use Rattle.pl_context.specs.WaitingViews.{Entry};
ghost use Rattle.pl_world.specs.Plans.{Plan};
ghost use Rattle.pl_replay.specs.MoveModel.{is_there};

use super::Net;
use pl_event::Stage;
use pl_flow::HeadMove;
use pl_head::Transport;
use pl_net::Watch;
use pl_world::{Move, ReplayFault};

impl<S: Stage, T: Transport> Net<S, T> {
    ghost use Rattle.pl_replay.specs.Applied.{IsApplied};
    ghost use Rattle.pl_replay.specs.NetStand.{NetStands};

    /// Makes a move as `apply` does, with the same answer. `watch` sees each item that an executor has in hand in it.
    pub fn apply_watched<W: Watch>(
        &mut self,
        step: Move,
        watch: &mut W,
    ) -> Result<bool, ReplayFault>
        ensures applied { IsApplied S.meaning S.stands_after S.is_spent T.state T.may_refuse step self.old result self.new }
    {
        if !self.is_there(step) {
            return Err(ReplayFault::NoSuch);
        }
        match step {
            Move::Read(channel) => Ok(
                self.stations
                    .move_head(HeadMove::Read, channel as usize, watch),
            ),
            Move::Task(executor) => Ok(self.stations.run_task(executor as usize, watch)),
            Move::Hand(executor) => Ok(self.stations.hand(executor as usize)?),
            Move::Out(channel) => Ok(
                self.stations
                    .move_head(HeadMove::Out, channel as usize, watch),
            ),
        }
    }

    /// Whether the channel or the executor of a move is there.
    fn is_there(&self, step: Move) -> bool
        ensures { (plan : Plan) (backlogs : ℕ → List (Entry Unit)) → NetStands S.meaning S.stands_after T.state plan backlogs self.now → result ≡ is_there plan step }
    {
        match step {
            Move::Read(channel) | Move::Out(channel) => (channel as usize) < self.parts().len(),
            Move::Task(executor) | Move::Hand(executor) => {
                (executor as usize) < self.stations.executors()
            }
        }
    }
}
