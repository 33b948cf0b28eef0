//! Reads the members of a session, a line for each row of its tables.

ghost use Rattle.std.specs.Prelude.{◌≡◌, codes};
ghost use Rattle.serde_json.specs.View.{view};
ghost use Rattle.pl_text.specs.SessionReading.{AnswersMeaning};
ghost use Rattle.pl_text.specs.SessionOutlines.{version_in, group_in, groups_in, outline_in};
ghost use Rattle.pl_text.specs.SessionMembers.{except};

use crate::faults::SessionFault;
use crate::session_text::limits::MAX_GROUP_SIZE;
use crate::session_text::outline::{ChannelOutline, GroupOutline, Outline};
use crate::session_text::values::{
    FromData, an_object, array_in, name_in, required, taken, whole, whole_in,
};
use crate::session_text::version::Version;
use pl_build::MAX_EXECUTORS;
use pl_event::Sequence;
use pl_world::{MAX_CAPACITY, MAX_CHANNELS};
use serde_json::Value;
use std::alloc::Global;

/// The version of this number.
#[tactic(auto, unfolding(crate::specs::SessionOutlines::version_in))]
fn version_in(value: &Value) -> Result<Version, SessionFault>
    ensures { result ≡ version_in (view value.now) }
{
    match whole(value)? {
        1 => Ok(Version::One),
        2 => Ok(Version::Two),
        _ => Err(SessionFault::Version),
    }
}

impl FromData for GroupOutline {
    type Read = GroupOutline;

    ghost meaning = { λ _. group_in };

    #[tactic(auto, unfolding(crate::specs::SessionOutlines::group_in))]
    fn from_data(
        alloc: Global,
        _version: Version,
        value: Value,
    ) -> Result<GroupOutline, SessionFault> {
        let group = an_object(value)?;
        let name = name_in(alloc, required(&group, "name")?)?;
        let size = whole_in(0, u64::from(MAX_GROUP_SIZE), required(&group, "size")?)?;
        Ok(GroupOutline {
            name,
            size: size as u16,
        })
    }
}

/// The groups, of which there may be none.
#[tactic(auto, unfolding(crate::specs::SessionOutlines::groups_in, crate::specs::SessionReading::present))]
fn groups_in(
    alloc: Global,
    version: Version,
    top: &mut Value,
) -> Result<Sequence<GroupOutline>, SessionFault>
    ensures meaning { AnswersMeaning result (groups_in (view top.old)) }
    ensures others { view top.new ≡ except (codes "groups") (view top.old) }
{
    match taken(top, "groups") {
        Some(Value::Null) | None => Ok(Sequence::new(alloc)),
        Some(groups) => Sequence::<GroupOutline>::from_data(alloc, version, groups),
    }
}

/// The members of the top object, in the order of its table.
#[tactic(auto, using(crate::proofs::SessionMembers::get_except), unfolding(crate::specs::SessionOutlines::outline_in))]
pub(crate) fn outline_in(alloc: Global, value: Value) -> Result<Outline, SessionFault>
    ensures { AnswersMeaning result (outline_in (view value)) }
{
    let mut top = an_object(value)?;
    let version = version_in(required(&top, "version")?)?;
    let capacity = whole_in(1, u64::from(MAX_CAPACITY), required(&top, "capacity")?)?;
    let loops = whole_in(1, u64::from(MAX_EXECUTORS), required(&top, "loops")?)?;
    let groups = groups_in(alloc, version, &mut top)?;
    let channels = taken(&mut top, "channels").ok_or(SessionFault::Missing)?;
    let channels = array_in::<ChannelOutline>(alloc, version, MAX_CHANNELS, channels)?;
    Ok(Outline {
        capacity: capacity as u32,
        loops: loops as u16,
        groups,
        channels,
    })
}
