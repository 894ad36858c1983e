//! Rows that are their records' own.
ghost use Rattle.std.specs.Prelude.{◌≡◌, ◌<◌, ◌^◌, length, IfOk};
ghost use Rattle.std.specs.Option.{option_copied};
ghost use Rattle.dq_tables.specs.Sound.{is_value, has_key, has_above, is_within_limits, may_be_started, is_own_row};

use crate::keys::{entry_id, uid_at};
use crate::row::{Kind, Row};
use dq_dataset::laws::spelling_law;
use dq_dataset::{DataSet, ReadFault, Syntax, read, write};
use dq_value::is_uid;
use dq_vr::tags;
use std::alloc::{AllocError, Global};

/// The octets of an entry are at most so many.
const ENTRY_LIMIT: usize = 0x100_0000;

fn is_value(value: Option<&[u8]>, octets: &[u8]) -> bool
    ensures { result ≡ is_value (option_copied value.entry) octets.now }
{
    match value {
        Some(value) => value == octets,
        None => false,
    }
}

/// Whether a key is that of a data set.
#[tactic(auto, unfolding(crate::specs::Sound::has_key))]
fn has_key(kind: Kind, key: &[u8], data_set: &DataSet) -> bool
    ensures { result ≡ has_key kind key.now data_set.now }
{
    match kind {
        Kind::Study => is_value(uid_at(data_set, tags::STUDY_INSTANCE_UID), key),
        Kind::Series => is_value(uid_at(data_set, tags::SERIES_INSTANCE_UID), key),
        Kind::Image => is_value(uid_at(data_set, tags::SOP_INSTANCE_UID), key),
        Kind::Entry => is_value(entry_id(data_set), key),
        Kind::Step => is_uid(key),
    }
}

/// Whether a key above is that of a data set.
#[tactic(auto, unfolding(crate::specs::Sound::has_above))]
fn has_above(kind: Kind, above: &[u8], data_set: &DataSet) -> bool
    ensures { result ≡ has_above kind above.now data_set.now }
{
    match kind {
        Kind::Series => is_value(uid_at(data_set, tags::STUDY_INSTANCE_UID), above),
        Kind::Image => is_value(uid_at(data_set, tags::SERIES_INSTANCE_UID), above),
        Kind::Study | Kind::Entry | Kind::Step => above.is_empty(),
    }
}

#[tactic(auto, unfolding(crate::specs::Sound::is_within_limits))]
fn is_within(kind: Kind, octets: &[u8]) -> bool
    ensures { result ≡ is_within_limits kind octets.now }
{
    match kind {
        Kind::Entry => octets.len() <= ENTRY_LIMIT,
        Kind::Study | Kind::Series | Kind::Image | Kind::Step => true,
    }
}

/// Whether a row of a kind may be started, or not, as it is.
fn may_be_started(kind: Kind, started: bool) -> bool
    ensures { result ≡ may_be_started kind started }
{
    !started || kind == Kind::Entry
}

impl Row {
    /// Returns whether the row is its record's own: its octets are the one Explicit spelling of a
    /// data set, its keys are those of that data set, and it is started only if it is an entry.
    #[tactic(auto, unfolding(crate::specs::Sound::is_own_row))]
    pub fn is_own(&self, alloc: Global) -> Result<bool, AllocError>
        requires { length self.now.octets < 2 ^ 31 }
        ensures { IfOk result (λ own. own ≡ is_own_row self.now) }
    {
        spelling_law();
        let octets = self.octets.as_slice();
        let data_set = match read(alloc, octets, Syntax::Explicit) {
            Ok(data_set) => data_set,
            Err(ReadFault::NoMemory) => return Err(AllocError),
            Err(_) => return Ok(false),
        };
        let spelled = write(alloc, &data_set, Syntax::Explicit)?;
        let (kind, key, above) = (self.kind, self.key.as_slice(), self.above.as_slice());
        Ok(
            may_be_started(kind, self.started)
                && spelled.as_slice() == octets
                && has_key(kind, key, &data_set)
                && has_above(kind, above, &data_set)
                && is_within(kind, octets),
        )
    }
}
