//! Pipelines are edited by name, and built.

ghost use Rattle.std.specs.Prelude.{◌≡◌, ℕ, ◌+◌, ◌<◌, ◌≤◌, ◌<◌, List, [], ◌∷◌, ◌++◌, length, map, IfOk, IfErr, IfSome, OnOk, OnErr, None, Some, Option, if◌then◌else◌, is_ok, is_some, unwrap_or, insert, vec_len, vec_capacity, count_by, All};
ghost use Rattle.std.specs.List.{list_all};
ghost use Rattle.std.specs.Option.{option_copied};
ghost use Rattle.pl_event.specs.Paths.{inbound_chain, outbound_chain};
ghost use Rattle.pl_build.specs.declared.faults.BuildFault.TheVariants as fault;
ghost use Rattle.pl_build.specs.Refusals.{naming_fault, beside_fault, marks_answer, building_fault, unless, is_known, executor_count};
ghost use Rattle.pl_build.specs.Pipelines.{handler_of, index_of, without, stage_of, meanings, inbound_handlers, outbound_handlers, is_turn_stage};
ghost use Rattle.pl_build.specs.Executors.{HasPlaced, sizes_of, groups_of, executor_after, hop_executors};
ghost use Rattle.pl_build.specs.Counts.{executor_now};

use crate::faults::BuildFault;
use crate::grouping::Groups;
use crate::limits::{DEFAULT_HIGH, DEFAULT_LOW, MAX_HANDLERS, MAX_MARK};
use crate::named_stages::{Inserted, NamedStage, Unadded};
use crate::names::is_name;
use crate::placed::Placed;
use crate::splitting::{Chains, Room, hop_executors, split};
use pl_event::Stage;
use std::alloc::Global;
use std::marker::Model;

/// A pipeline that is being built: handlers in order, each with a name of its own and perhaps in a group of executors,
/// and the marks of its channel. It has at most `MAX_HANDLERS` handlers. A refused call leaves it unchanged.
#[derive(Drop)]
pub struct PipelineBuilder<S: Stage> {
    alloc: Global,
    handlers: Vec<NamedStage<S>>,
    low: u32,
    high: u32,
}

impl<S: Stage> Model for PipelineBuilder<S> {
    ghost use Rattle.pl_build.specs.Pipelines.{PipelineBuilderView};
    ghost use Rattle.pl_build.specs.Paths.{IsPipeline};

    ghost Value = { PipelineBuilderView S };

    ghost view = { λ b. record { handlers = b.handlers.items; low = b.low; high = b.high } };

    ghost invariant = { λ b. IsPipeline S.stands_after (record { handlers = b.handlers.items; low = b.low; high = b.high }) };
}

/// What a refused build returns. It prints by its fault, since a stage need not have a `Debug`.
#[derive(Drop)]
#[derive_where(Debug)]
pub struct Unbuilt<S: Stage> {
    pub fault: BuildFault,
    #[derive_where(skip)]
    pub builder: PipelineBuilder<S>,
}

impl<S: Stage> From<Unbuilt<S>> for BuildFault {
    ghost from_gives = { λ unbuilt e. e ≡ unbuilt.fault };

    fn from(unbuilt: Unbuilt<S>) -> BuildFault {
        unbuilt.fault
    }
}

impl<S: Stage> PipelineBuilder<S> {
    /// No handler, and the default marks. It takes no memory.
    pub fn new(alloc: Global) -> Self
        ensures handlers { result.handlers ≡ [] }
        ensures marks { (result.low ≡ DEFAULT_LOW) × (result.high ≡ DEFAULT_HIGH) }
    {
        PipelineBuilder {
            alloc,
            handlers: Vec::new(alloc),
            low: DEFAULT_LOW,
            high: DEFAULT_HIGH,
        }
    }

    /// Adds a handler before all others. Refused as `Limit` where the name is not 1 to `MAX_NAME_LENGTH` bytes or
    /// `MAX_HANDLERS` handlers are there, then as `DuplicateName`, then as `Memory`; the stage comes back, and the builder
    /// is unchanged.
    pub fn add_first(&mut self, name: &str, group: Option<&str>, stage: S) -> Inserted<S>
        requires { S.stands_after stage [] }
        ensures added { OnOk result (self.new ≡ record self.old { handlers = handler_of name.now (option_copied group.entry) stage ∷ self.old.handlers }) }
        ensures allowed { OnOk result (naming_fault name.now self.old.handlers ≡ None) }
        ensures refused { IfErr result (λ unadded. unadded.fault ≡ unwrap_or (naming_fault name.now self.old.handlers) fault.Memory) }
        ensures handed_back { IfErr result (λ unadded. unadded.stage ≡ stage) }
        ensures unchanged { OnErr result (self.new ≡ self.old) }
    {
        match self.checked(name) {
            Ok(()) => self.insert(0, name, group, stage),
            Err(fault) => Err(Unadded { fault, stage }),
        }
    }

    /// Adds a handler after all others. Refused as `add_first` is.
    pub fn add_last(&mut self, name: &str, group: Option<&str>, stage: S) -> Inserted<S>
        requires { S.stands_after stage [] }
        ensures added { OnOk result (self.new ≡ record self.old { handlers = self.old.handlers ++ handler_of name.now (option_copied group.entry) stage ∷ [] }) }
        ensures allowed { OnOk result (naming_fault name.now self.old.handlers ≡ None) }
        ensures refused { IfErr result (λ unadded. unadded.fault ≡ unwrap_or (naming_fault name.now self.old.handlers) fault.Memory) }
        ensures handed_back { IfErr result (λ unadded. unadded.stage ≡ stage) }
        ensures unchanged { OnErr result (self.new ≡ self.old) }
    {
        let end = self.handlers.len();
        match self.checked(name) {
            Ok(()) => self.insert(end, name, group, stage),
            Err(fault) => Err(Unadded { fault, stage }),
        }
    }

    /// Adds a handler just before the handler `at`. Refused as `add_first` is, and as `NoSuchName` before `Memory`.
    pub fn add_before(&mut self, at: &str, name: &str, group: Option<&str>, stage: S) -> Inserted<S>
        requires { S.stands_after stage [] }
        ensures added { OnOk result (IfSome (index_of at.now self.old.handlers) (λ index. self.new ≡ record self.old { handlers = insert self.old.handlers index (handler_of name.now (option_copied group.entry) stage) })) }
        ensures allowed { OnOk result (beside_fault at.now name.now self.old.handlers ≡ None) }
        ensures refused { IfErr result (λ unadded. unadded.fault ≡ unwrap_or (beside_fault at.now name.now self.old.handlers) fault.Memory) }
        ensures handed_back { IfErr result (λ unadded. unadded.stage ≡ stage) }
        ensures unchanged { OnErr result (self.new ≡ self.old) }
    {
        match self.index_beside(at, name) {
            Ok(index) => self.insert(index, name, group, stage),
            Err(fault) => Err(Unadded { fault, stage }),
        }
    }

    /// Adds a handler just after the handler `at`. Refused as `add_before` is.
    pub fn add_after(&mut self, at: &str, name: &str, group: Option<&str>, stage: S) -> Inserted<S>
        requires { S.stands_after stage [] }
        ensures added { OnOk result (IfSome (index_of at.now self.old.handlers) (λ index. self.new ≡ record self.old { handlers = insert self.old.handlers (index + 1) (handler_of name.now (option_copied group.entry) stage) })) }
        ensures allowed { OnOk result (beside_fault at.now name.now self.old.handlers ≡ None) }
        ensures refused { IfErr result (λ unadded. unadded.fault ≡ unwrap_or (beside_fault at.now name.now self.old.handlers) fault.Memory) }
        ensures handed_back { IfErr result (λ unadded. unadded.stage ≡ stage) }
        ensures unchanged { OnErr result (self.new ≡ self.old) }
    {
        match self.index_beside(at, name) {
            Ok(index) => self.insert(index + 1, name, group, stage),
            Err(fault) => Err(Unadded { fault, stage }),
        }
    }

    /// Takes the handler of this name out, and gives its stage. Refused as `NoSuchName`.
    pub fn remove(&mut self, name: &str) -> Result<S, BuildFault>
        ensures stage { result ≡ stage_of name.now self.old.handlers }
        ensures removed { self.new ≡ record self.old { handlers = without name.now self.old.handlers } }
    {
        match self.index_of(name) {
            Some(index) => {
                let NamedStage { stage, .. } = self.handlers.remove(index);
                Ok(stage)
            }
            None => Err(BuildFault::NoSuchName),
        }
    }

    /// Sets the marks, in bytes. Refused as `Limit` where one is above `MAX_MARK`, then as `Marks` where low is above
    /// high.
    pub fn marks(&mut self, low: u32, high: u32) -> Result<(), BuildFault>
        ensures answer { result ≡ marks_answer low high }
        ensures set { OnOk result (self.new ≡ record self.old { low = low; high = high }) }
        ensures unchanged { OnErr result (self.new ≡ self.old) }
    {
        if low > MAX_MARK || high > MAX_MARK {
            return Err(BuildFault::Limit);
        }
        if low > high {
            return Err(BuildFault::Marks);
        }
        self.low = low;
        self.high = high;
        Ok(())
    }

    /// Builds the pipeline of the next channel, and places it with these groups.
    ///
    /// Refused as `NoSuchGroup` where a handler names a group that is not there, then as `NoTurn` or `TwoTurns`, then as
    /// `Memory`; the builder comes back, and the groups are unchanged.
    pub fn build(self, groups: &mut Groups) -> Result<Placed<S>, Unbuilt<S>>
        ensures inbound { IfOk result (λ placed. placed.inbound ≡ map (λ handler. handler.stage) (inbound_handlers S.meaning self.handlers)) }
        ensures outbound { IfOk result (λ placed. placed.outbound ≡ map (λ handler. handler.stage) (outbound_handlers S.meaning self.handlers)) }
        ensures inbound_path { IfOk result (λ placed. map S.meaning placed.inbound ≡ inbound_chain (meanings S.meaning self.handlers)) }
        ensures outbound_path { IfOk result (λ placed. map S.meaning placed.outbound ≡ outbound_chain (meanings S.meaning self.handlers)) }
        ensures marks { IfOk result (λ placed. (placed.low ≡ self.low) × (placed.high ≡ self.high)) }

        // Each hop runs where these groups, which have placed the channels before, place it.
        ensures executors { IfOk result (λ placed. (earlier : List (List (Option (List ℕ)))) → HasPlaced groups.old earlier →
            placed.executors ≡ hop_executors (executor_after groups.old.loops (sizes_of groups.old) earlier) S.meaning self.handlers) }
        ensures executors_are_there { IfOk result (λ placed. All (λ executor. executor < executor_count groups.old.loops (sizes_of groups.old)) placed.executors) }
        ensures counted { OnOk result ((earlier : List (List (Option (List ℕ)))) → HasPlaced groups.old earlier → HasPlaced groups.new (earlier ++ groups_of self.handlers ∷ [])) }
        ensures same_groups { (groups.new.loops ≡ groups.old.loops) × (sizes_of groups.new ≡ sizes_of groups.old) }

        ensures allowed { OnOk result (building_fault S.meaning (sizes_of groups.old) self.handlers ≡ None) }
        ensures refused { IfErr result (λ unbuilt. unbuilt.fault ≡ unwrap_or (building_fault S.meaning (sizes_of groups.old) self.handlers) fault.Memory) }
        ensures handed_back { IfErr result (λ unbuilt. unbuilt.builder ≡ self) }
        ensures unchanged { OnErr result (groups.new ≡ groups.old) }
    {
        match self.room(groups) {
            Ok(room) => {
                groups.count_pipeline(self.handlers.as_slice());
                Ok(self.into_placed(room))
            }
            Err(fault) => Err(Unbuilt {
                fault,
                builder: self,
            }),
        }
    }

    /// The index of the handler of this name.
    fn index_of(&self, name: &str) -> Option<usize>
        ensures { result ≡ index_of name.now self.now.handlers }
    {
        self.handlers
            .iter()
            .position(|handler| handler.is_named(name))
    }

    /// Tests whether a handler of this name may be added.
    fn checked(&self, name: &str) -> Result<(), BuildFault>
        ensures { result ≡ unless (naming_fault name.now self.now.handlers) }
    {
        if !is_name(name) || self.handlers.len() >= MAX_HANDLERS {
            return Err(BuildFault::Limit);
        }
        match self.index_of(name) {
            Some(_) => Err(BuildFault::DuplicateName),
            None => Ok(()),
        }
    }

    /// The index of the handler `at`, if a handler of this name may be added beside it.
    fn index_beside(&self, at: &str, name: &str) -> Result<usize, BuildFault>
        ensures index { IfOk result (λ index. index_of at.now self.now.handlers ≡ Some index) }
        ensures within { IfOk result (λ index. index < length self.now.handlers) }
        ensures allowed { OnOk result (beside_fault at.now name.now self.now.handlers ≡ None) }
        ensures room { OnOk result (length self.now.handlers < MAX_HANDLERS) }
        ensures refused { IfErr result (λ e. beside_fault at.now name.now self.now.handlers ≡ Some e) }
    {
        self.checked(name)?;
        self.index_of(at).ok_or(BuildFault::NoSuchName)
    }

    /// Inserts a handler at an index. An `Err` says that memory ran out, and changes nothing.
    fn insert(&mut self, index: usize, name: &str, group: Option<&str>, stage: S) -> Inserted<S>
        requires new { S.stands_after stage [] }
        requires index { index ≤ length self.old.handlers }
        requires room { length self.old.handlers < MAX_HANDLERS }
        ensures added { OnOk result (self.new ≡ record self.old { handlers = insert self.old.handlers index (handler_of name.now (option_copied group.entry) stage) }) }
        ensures err { IfErr result (λ unadded. unadded ≡ record { fault = fault.Memory; stage = stage }) }
        ensures unchanged { OnErr result (self.new ≡ self.old) }
    {
        let handler = NamedStage::new(self.alloc, name, group, stage)?;
        self.handlers
            .insert(index, handler)
            .map_err(|refused| refused_memory(refused.value))
    }

    /// Why the pipeline cannot be built, apart from memory.
    fn building_fault(&self, groups: &Groups) -> Option<BuildFault>
        ensures { result ≡ building_fault S.meaning (sizes_of groups.now) self.now.handlers }
    {
        let handlers = self.handlers.as_slice();
        if !are_known(handlers, groups) {
            return Some(BuildFault::NoSuchGroup);
        }
        match count_turns(handlers) {
            0 => Some(BuildFault::NoTurn),
            1 => None,
            _ => Some(BuildFault::TwoTurns),
        }
    }

    /// Allocates what a built pipeline needs, where it can be built.
    fn room(&self, groups: &Groups) -> Result<Room<S>, BuildFault>
        ensures executors { IfOk result (λ room. room.executors.items ≡ hop_executors (executor_now groups.now) S.meaning self.now.handlers) }
        ensures empty { IfOk result (λ room. (room.chains.inbound.items ≡ []) × (room.chains.outbound.items ≡ []) × (room.chains.turn ≡ 0)) }
        ensures inbound { IfOk result (λ room. length self.now.handlers ≤ vec_capacity room.chains.inbound) }
        ensures outbound { IfOk result (λ room. length self.now.handlers ≤ vec_capacity room.chains.outbound) }
        ensures allowed { OnOk result (building_fault S.meaning (sizes_of groups.now) self.now.handlers ≡ None) }
        ensures refused { IfErr result (λ e. e ≡ unwrap_or (building_fault S.meaning (sizes_of groups.now) self.now.handlers) fault.Memory) }
    {
        if let Some(fault) = self.building_fault(groups) {
            return Err(fault);
        }
        Ok(Room {
            executors: hop_executors(self.alloc, groups, self.handlers.as_slice())?,
            chains: Chains::with_capacity(self.alloc, self.handlers.len())?,
        })
    }

    /// Splits the handlers into chains that have room for them.
    fn into_placed(self, room: Room<S>) -> Placed<S>
        requires turn { count_by (is_turn_stage S.meaning) self.handlers ≡ 1 }
        requires empty { (room.chains.inbound.items ≡ []) × (room.chains.outbound.items ≡ []) × (room.chains.turn ≡ 0) }
        requires inbound { length self.handlers ≤ vec_capacity room.chains.inbound }
        requires outbound { length self.handlers ≤ vec_capacity room.chains.outbound }
        requires executors { length room.executors.items ≡ length (inbound_handlers S.meaning self.handlers) + length (outbound_handlers S.meaning self.handlers) + 2 }
        ensures inbound { result.inbound ≡ map (λ handler. handler.stage) (inbound_handlers S.meaning self.handlers) }
        ensures outbound { result.outbound ≡ map (λ handler. handler.stage) (outbound_handlers S.meaning self.handlers) }
        ensures executors { result.executors ≡ room.executors.items }
        ensures marks { (result.low ≡ self.low) × (result.high ≡ self.high) }
    {
        let PipelineBuilder {
            handlers,
            low,
            high,
            ..
        } = self;
        let Chains {
            inbound,
            outbound,
            turn,
        } = split(handlers, room.chains);
        Placed {
            inbound,
            outbound,
            turn,
            executors: room.executors,
            low,
            high,
        }
    }
}

/// Out of memory for this handler: its stage is handed back.
fn refused_memory<S>(handler: NamedStage<S>) -> Unadded<S>
    ensures { result ≡ record { fault = fault.Memory; stage = handler.stage } }
{
    let NamedStage { stage, .. } = handler;
    Unadded {
        fault: BuildFault::Memory,
        stage,
    }
}

/// Whether each handler is in a group that is there, or in none.
fn are_known<S>(handlers: &[NamedStage<S>], groups: &Groups) -> bool
    ensures { result ≡ list_all (λ handler. is_known (sizes_of groups.now) handler.group) handlers.now }
{
    handlers.iter().all(|handler| groups.has(&handler.group))
}

/// How many of these handlers are the turn.
fn count_turns<S: Stage>(handlers: &[NamedStage<S>]) -> usize
    ensures { result ≡ count_by (is_turn_stage S.meaning) handlers.now }
{
    handlers.iter().filter(|handler| handler.is_turn()).count()
}
