//! What is where between two moves.

ghost use Rattle.std.specs.Prelude.{◌≡◌, ◌≤◌, ◌<◌, ℕ, List, length, find, MatchOption, slice_get, None, Some};
ghost use Rattle.std.specs.Option.{option_copied, option_map};
ghost use Rattle.pl_context.specs.WaitingViews.{Entry};
ghost use Rattle.pl_net.specs.Nets.{has_room};
ghost use Rattle.pl_part.specs.Parts.{ChannelPartView};
ghost use Rattle.pl_world.specs.Plans.{Plan};

use super::Net;
use pl_context::Tail;
use pl_event::Stage;
use pl_head::{Head, Transport};
use pl_net::Station;

impl<S: Stage, T: Transport> Net<S, T> {
    ghost use Rattle.pl_replay.specs.NetStand.{NetStands};

    /// What waits at an executor. None where there is no such executor.
    pub fn station(&self, executor: usize) -> Option<&Station>
        ensures { option_copied result ≡ slice_get self.now.stations.items executor }
    {
        self.stations.station(executor)
    }

    /// The executor to which a hand-over of this one would go now: that of the oldest item of its backlog whose queue has room.
    /// None where there is no such item, or no such executor: where the move is not enabled.
    pub fn next_target(&self, executor: usize) -> Option<usize>
        ensures next { (plan : Plan) (backlogs : ℕ → List (Entry Unit)) → NetStands S.meaning S.stands_after T.state plan backlogs self.now → executor < length self.now.stations.items
            → result ≡ option_map (λ entry. entry.target) (find (λ entry. has_room self.now.stations.items self.now.capacity entry.target) (backlogs executor)) }
        ensures none { length self.now.stations.items ≤ executor → result ≡ None }
    {
        if executor >= self.stations.executors() {
            return None;
        }
        self.stations.next_target(executor)
    }

    /// The tail of a channel. None where there is no such channel.
    pub fn tail(&self, channel: u16) -> Option<&Tail>
        ensures { MatchOption result (length self.now.nodes.parts.items ≤ channel)
            (λ tail. (part : ChannelPartView S T) × (slice_get self.now.nodes.parts.items channel ≡ Some part) × (part.path.tail ≡ Some tail.now)) }
    {
        self.parts().get(channel as usize)?.tail()
    }

    /// The head of a channel. None where there is no such channel.
    pub fn head(&self, channel: u16) -> Option<&Head<T>>
        ensures { MatchOption result (length self.now.nodes.parts.items ≤ channel)
            (λ head. (part : ChannelPartView S T) × (slice_get self.now.nodes.parts.items channel ≡ Some part) × (part.head ≡ Some head.now)) }
    {
        self.parts().get(channel as usize)?.head()
    }
}
