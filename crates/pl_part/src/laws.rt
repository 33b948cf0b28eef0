//! What holds of a head in a world. No one calls this: its contract is the law.

ghost use Rattle.std.specs.Prelude.{◌≡◌, ◌++◌, ℕ, List, length, Some};
ghost use Rattle.pl_event.specs.declared.events.Event.{Event};
ghost use Rattle.pl_event.specs.Hops.{data_lane};
ghost use Rattle.pl_event.specs.Worlds.{World, content_of};
ghost use Rattle.pl_head.specs.Writes.{out};
ghost use Rattle.pl_head.specs.HeadStand.{HeadView};
ghost use Rattle.pl_part.specs.HeadHolds.{HeadHolds};

use pl_head::Transport;

/// The bytes that a transport accepted begin the output of all that the head's lane carries, behind those that are gone.
pub fn head_law<T: Transport>()
    ensures { (world : World) (h : HeadView T) → HeadHolds T.state world h
        → (events : List Event) × (content_of world (data_lane h.channel h.hop) ≡ Some events) × (gone rest : List ℕ) × (length gone ≡ h.gone) × (gone ++ (T.state h.transport).accepted ++ rest ≡ out events) }
{}
