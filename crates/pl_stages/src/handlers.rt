//! The built-in handlers as one type, so that any of them stand in one pipeline.

use crate::command_decoder::CommandDecoder;
use crate::flush_every::FlushEvery;
use crate::length_framer::LengthFramer;
use crate::length_prepender::LengthPrepender;
use crate::line_end::LineEnd;
use crate::line_framer::LineFramer;
use crate::line_service::LineService;
use crate::reply_encoder::ReplyEncoder;
use pl_event::{Changed, Direction, Event, Fused, MapDown, MapUp, Stage, Stepped};

/// Any of the built-in handlers. It means what the handler inside means.
#[derive(Debug, Drop)]
pub enum Handler {
    Lines(Fused<LineFramer>),
    Length(Fused<LengthFramer>),
    Decode(MapUp<CommandDecoder>),
    LineEnd(MapDown<LineEnd>),
    Prepend(MapDown<LengthPrepender>),
    Encode(Fused<ReplyEncoder>),
    FlushEvery(Fused<FlushEvery>),
    Service(Fused<LineService>),
}

impl Stage for Handler {
    ghost use Rattle.pl_stages.specs.declared.handlers.Handler.TheVariants.{Lines, Length, Decode, LineEnd, Prepend, Encode, FlushEvery, Service};

    ghost meaning = { elim [
      | Lines s ↦ ⟦<Fused<LineFramer> as Stage>⟧.meaning s
      | Length s ↦ ⟦<Fused<LengthFramer> as Stage>⟧.meaning s
      | Decode s ↦ ⟦<MapUp<CommandDecoder> as Stage>⟧.meaning s
      | LineEnd s ↦ ⟦<MapDown<LineEnd> as Stage>⟧.meaning s
      | Prepend s ↦ ⟦<MapDown<LengthPrepender> as Stage>⟧.meaning s
      | Encode s ↦ ⟦<Fused<ReplyEncoder> as Stage>⟧.meaning s
      | FlushEvery s ↦ ⟦<Fused<FlushEvery> as Stage>⟧.meaning s
      | Service s ↦ ⟦<Fused<LineService> as Stage>⟧.meaning s
    ] };

    ghost stands_after = { elim [
      | Lines s ↦ ⟦<Fused<LineFramer> as Stage>⟧.stands_after s
      | Length s ↦ ⟦<Fused<LengthFramer> as Stage>⟧.stands_after s
      | Decode s ↦ ⟦<MapUp<CommandDecoder> as Stage>⟧.stands_after s
      | LineEnd s ↦ ⟦<MapDown<LineEnd> as Stage>⟧.stands_after s
      | Prepend s ↦ ⟦<MapDown<LengthPrepender> as Stage>⟧.stands_after s
      | Encode s ↦ ⟦<Fused<ReplyEncoder> as Stage>⟧.stands_after s
      | FlushEvery s ↦ ⟦<Fused<FlushEvery> as Stage>⟧.stands_after s
      | Service s ↦ ⟦<Fused<LineService> as Stage>⟧.stands_after s
    ] };

    ghost is_spent = { elim [
      | Lines s ↦ ⟦<Fused<LineFramer> as Stage>⟧.is_spent s
      | Length s ↦ ⟦<Fused<LengthFramer> as Stage>⟧.is_spent s
      | Decode s ↦ ⟦<MapUp<CommandDecoder> as Stage>⟧.is_spent s
      | LineEnd s ↦ ⟦<MapDown<LineEnd> as Stage>⟧.is_spent s
      | Prepend s ↦ ⟦<MapDown<LengthPrepender> as Stage>⟧.is_spent s
      | Encode s ↦ ⟦<Fused<ReplyEncoder> as Stage>⟧.is_spent s
      | FlushEvery s ↦ ⟦<Fused<FlushEvery> as Stage>⟧.is_spent s
      | Service s ↦ ⟦<Fused<LineService> as Stage>⟧.is_spent s
    ] };

    fn direction(&self) -> Direction {
        match self {
            Handler::Lines(stage) => stage.direction(),
            Handler::Length(stage) => stage.direction(),
            Handler::Decode(stage) => stage.direction(),
            Handler::LineEnd(stage) => stage.direction(),
            Handler::Prepend(stage) => stage.direction(),
            Handler::Encode(stage) => stage.direction(),
            Handler::FlushEvery(stage) => stage.direction(),
            Handler::Service(stage) => stage.direction(),
        }
    }

    fn step(&mut self, event: Event, up: &mut Vec<Event>, down: &mut Vec<Event>) -> Stepped {
        match self {
            Handler::Lines(stage) => stage.step(event, up, down),
            Handler::Length(stage) => stage.step(event, up, down),
            Handler::Decode(stage) => stage.step(event, up, down),
            Handler::LineEnd(stage) => stage.step(event, up, down),
            Handler::Prepend(stage) => stage.step(event, up, down),
            Handler::Encode(stage) => stage.step(event, up, down),
            Handler::FlushEvery(stage) => stage.step(event, up, down),
            Handler::Service(stage) => stage.step(event, up, down),
        }
    }

    fn change(&mut self, event: &mut Event, down: &mut Vec<Event>) -> Changed {
        match self {
            Handler::Lines(stage) => stage.change(event, down),
            Handler::Length(stage) => stage.change(event, down),
            Handler::Decode(stage) => stage.change(event, down),
            Handler::LineEnd(stage) => stage.change(event, down),
            Handler::Prepend(stage) => stage.change(event, down),
            Handler::Encode(stage) => stage.change(event, down),
            Handler::FlushEvery(stage) => stage.change(event, down),
            Handler::Service(stage) => stage.change(event, down),
        }
    }

    ghost use Rattle.pl_event.specs.Mappings.{mapping_up-lawful, mapping_down-lawful};
    ghost use Rattle.pl_stages.specs.Cutting.{cutting-lawful};
    ghost use Rattle.pl_stages.specs.LineFraming.{lines_of};
    ghost use Rattle.pl_stages.specs.LengthFraming.{frames_of};
    ghost use Rattle.pl_stages.specs.Flushes.{flush_every-lawful};
    ghost use Rattle.pl_stages.specs.Service.{line_service-lawful};

    ghost lawful = { elim [
      | Lines s ↦ cutting-lawful (lines_of s.stage.max)
      | Length s ↦ cutting-lawful (frames_of s.stage.width s.stage.max)
      | Decode s ↦ mapping_up-lawful _
      | LineEnd s ↦ mapping_down-lawful _
      | Prepend s ↦ mapping_down-lawful _
      | Encode s ↦ mapping_down-lawful _
      | FlushEvery s ↦ flush_every-lawful _
      | Service s ↦ line_service-lawful
    ] };
}
