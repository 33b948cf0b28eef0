//! The executors of a session: its loops, and the groups of executors that handlers name.

ghost use Rattle.std.specs.Prelude.{◌≡◌, ℕ, ◌+◌, ◌<◌, ◌≤◌, ◌&&◌, List, [], length, map, IfOk, IfErr, OnOk, All, None, Some, Option, if◌then◌else◌, unwrap_or, sum_by, nat_le};
ghost use Rattle.std.specs.List.{list_all, list_any};
ghost use Rattle.std.specs.Str.{bytes_eq};
ghost use Rattle.pl_build.specs.Names.{is_name, is_among, names_and_sizes};
ghost use Rattle.pl_build.specs.Executors.{uses, groups_of};
ghost use Rattle.pl_build.specs.Counts.{executor_from, groups_after};
ghost use Rattle.pl_build.specs.Refusals.{are_groups_within, has_double, grouping_fault, is_known, executor_count};
ghost use Rattle.pl_build.specs.declared.faults.BuildFault.TheVariants as fault;

use crate::faults::BuildFault;
use crate::limits::MAX_EXECUTORS;
use crate::named_stages::NamedStage;
use crate::names::{has_text, is_name, kept};
use pl_event::ByteString;
use std::alloc::{AllocError, Global};
use std::marker::Model;

/// A group of executors.
#[derive(Drop)]
pub struct Group {
    pub(crate) name: ByteString,
    /// How many executors it has.
    pub(crate) size: u16,
    /// Which of them the next pipeline that uses it gets: the number of pipelines that did, modulo the size.
    pub(crate) next: u16,
}

impl Group {
    ghost use Rattle.pl_build.specs.Counts.{group_after};

    /// Gives its next executor to the next pipeline, if the one that was placed uses this group.
    fn advance(&mut self, is_used: bool)
        requires { self.old.next < self.old.size }
        ensures { self.new ≡ (if is_used then group_after self.old else self.old) }
    {
        if is_used {
            self.next = (self.next + 1) % self.size;
        }
    }
}

/// The loops and the named groups of a session, which place its channels one after another: channel c lives on loop
/// c modulo the loops, and handlers in a group on the group's executor u modulo its size, where u earlier channels use it.
/// Executors are numbered: the loops from 0, then those of each group in order. There are 1 to `MAX_EXECUTORS`.
#[derive(Drop)]
pub struct Groups {
    loops: u16,
    /// Where the next channel lives.
    next_loop: u16,
    groups: Vec<Group>,
}

impl Model for Groups {
    ghost use Rattle.pl_build.specs.Executors.{GroupsView, IsGrouping};

    ghost Value = { GroupsView };

    ghost view = { λ g. record { loops = g.loops; next_loop = g.next_loop; groups = g.groups.items } };

    ghost invariant = { λ g. IsGrouping (record { loops = g.loops; next_loop = g.next_loop; groups = g.groups.items }) };
}

impl Groups {
    ghost use Rattle.pl_build.specs.Executors.{HasPlaced, IsGrouping, sizes_of};
    ghost use Rattle.pl_build.specs.Counts.{executor_now, grouping_after};

    /// Loops, and groups by name and size, that have not placed a pipeline yet.
    ///
    /// Refused as `Limit` with no loop, more than `MAX_EXECUTORS`, a size of 0, or a name that is not 1 to
    /// `MAX_NAME_LENGTH` bytes; then as `DuplicateName` with two groups of one name; then as `Memory`.
    pub fn new(alloc: Global, loops: u16, groups: &[(&str, u16)]) -> Result<Groups, BuildFault>
        ensures loops { IfOk result (λ g. g.loops ≡ loops) }
        ensures sizes { IfOk result (λ g. sizes_of g ≡ names_and_sizes groups.now) }
        ensures unused { IfOk result (λ g. HasPlaced g []) }
        ensures allowed { OnOk result (grouping_fault loops (names_and_sizes groups.now) ≡ None) }
        ensures refused { IfErr result (λ e. e ≡ unwrap_or (grouping_fault loops (names_and_sizes groups.now)) fault.Memory) }
    {
        if let Some(fault) = grouping_fault(loops, groups) {
            return Err(fault);
        }
        let groups = unused_groups(alloc, groups)?;
        Ok(Groups {
            loops,
            next_loop: 0,
            groups,
        })
    }

    /// How many executors there are in all.
    pub fn executors(&self) -> u16
        ensures count { result ≡ executor_count self.now.loops (sizes_of self.now) }
        ensures within { result ≤ MAX_EXECUTORS }
    {
        let sizes: u16 = self.groups.iter().map(|group| group.size).sum();
        self.loops + sizes
    }

    /// Whether the group, if any, is there.
    pub(crate) fn has(&self, group: &Option<ByteString>) -> bool
        ensures { result ≡ is_known (sizes_of self.now) group.now }
    {
        match group {
            Some(name) => has_name(self.groups.as_slice(), name),
            None => true,
        }
    }

    /// The executor of a handler in this group, or in none, in the channel that is placed next.
    pub(crate) fn executor(&self, group: &Option<ByteString>) -> u16
        ensures { result ≡ executor_now self.now group.now }
    {
        match group {
            Some(name) => executor_from(self.loops, self.groups.as_slice(), name),
            None => self.next_loop,
        }
    }

    /// Notes that a pipeline of these handlers was placed: the next one gets the next loop, and the next executor of each
    /// group that these handlers use.
    pub(crate) fn count_pipeline<S>(&mut self, handlers: &[NamedStage<S>])
        ensures after { self.new ≡ grouping_after self.old (groups_of handlers.now) }
        ensures valid { IsGrouping self.old }
    {
        self.next_loop = (self.next_loop + 1) % self.loops;
        advance_used(&mut self.groups, handlers);
    }
}

/// Whether one of these groups has this name.
fn has_name(groups: &[Group], name: &ByteString) -> bool
    ensures { result ≡ list_any (λ group. bytes_eq group.name name.now) groups.now }
{
    groups.iter().any(|group| group.name == *name)
}

/// Why these groups are refused, apart from memory.
fn grouping_fault(loops: u16, groups: &[(&str, u16)]) -> Option<BuildFault>
    ensures { result ≡ grouping_fault loops (names_and_sizes groups.now) }
{
    if !is_within(loops, groups) {
        Some(BuildFault::Limit)
    } else if has_double(groups) {
        Some(BuildFault::DuplicateName)
    } else {
        None
    }
}

/// Whether the names and numbers are within their limits.
fn is_within(loops: u16, groups: &[(&str, u16)]) -> bool
    ensures { result ≡ are_groups_within loops (names_and_sizes groups.now) }
{
    if loops == 0 {
        return false;
    }
    if !are_possible(groups) {
        return false;
    }
    are_few(loops, groups)
}

/// Whether each group has a name that may be given and one executor at least.
fn are_possible(groups: &[(&str, u16)]) -> bool
    ensures { result ≡ list_all (λ group. is_name group.0.now && nat_le 1 group.1) groups.now }
{
    groups.iter().all(|group| is_name(group.0) && 1 <= group.1)
}

/// Whether there are not too many executors in all.
fn are_few(loops: u16, groups: &[(&str, u16)]) -> bool
    ensures { result ≡ nat_le (executor_count loops (names_and_sizes groups.now)) MAX_EXECUTORS }
{
    if loops > MAX_EXECUTORS {
        return false;
    }
    let mut left = MAX_EXECUTORS - loops;
    for group in groups {
        if group.1 > left {
            return false;
        }
        left -= group.1;
    }
    true
}

/// Whether one of these groups has this name already.
fn is_taken(name: &str, groups: &[(&str, u16)]) -> bool
    ensures { result ≡ list_any (λ group. bytes_eq group.0.now name.now) groups.now }
{
    groups.iter().any(|group| group.0 == name)
}

/// Whether two groups have one name.
fn has_double(groups: &[(&str, u16)]) -> bool
    ensures { result ≡ has_double (names_and_sizes groups.now) }
{
    match groups.split_first() {
        Some((first, rest)) => is_taken(first.0, rest) || has_double(rest),
        None => false,
    }
}

/// Groups of these names and sizes that no pipeline has used.
fn unused_groups(alloc: Global, groups: &[(&str, u16)]) -> Result<Vec<Group>, AllocError>
    ensures { IfOk result (λ unused. unused.items ≡ map (λ group. record { name = group.0.now; size = group.1; next = 0 }) groups.now) }
{
    let mut unused = Vec::new(alloc);
    for group in groups {
        unused.push(Group {
            name: kept(alloc, group.0)?,
            size: group.1,
            next: 0,
        })?;
    }
    Ok(unused)
}

/// The executor that the group of this name gives next, where the groups begin with executor `first`.
fn executor_from(first: u16, groups: &[Group], name: &ByteString) -> u16
    requires within { first + sum_by (λ group. group.size) groups.now ≤ MAX_EXECUTORS }
    requires nexts { All (λ group. group.next < group.size) groups.now }
    ensures { result ≡ executor_from first groups.now name.now }
{
    let mut first = first;
    for group in groups {
        if group.name == *name {
            return first + group.next;
        }
        first += group.size;
    }
    first
}

/// Each group that a handler is in gives its next executor to the next pipeline.
fn advance_used<S>(groups: &mut [Group], handlers: &[NamedStage<S>])
    requires { All (λ group. group.next < group.size) groups.old }
    ensures { groups.new ≡ groups_after groups.old (groups_of handlers.now) }
{
    for group in groups.iter_mut() {
        let is_used = is_used(&group.name, handlers);
        group.advance(is_used);
    }
}

/// Whether one of these handlers is in the group of this name.
fn is_used<S>(group: &ByteString, handlers: &[NamedStage<S>]) -> bool
    ensures { result ≡ list_any (λ handler. is_among handler.group group.now) handlers.now }
{
    handlers.iter().any(|handler| handler.is_in(group))
}
