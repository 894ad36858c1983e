//! The levels of a Study Root query (PS3.4 section C.6.2.1).
ghost use Rattle.std.specs.Prelude.{◌≡◌};
ghost use Rattle.dq_find.specs.Levels.{kind_of, level_keys, level_name, unique_key, level_named, level_of, keys_above, has_keys_above};

use crate::computed_keys::octets_at;
use dq_dataset::DataSet;
use dq_match::KeyList;
use dq_tables::{Kind, uid_at};
use dq_value::trimmed;
use dq_vr::tags::{
    QUERY_RETRIEVE_LEVEL, SERIES_INSTANCE_UID, SOP_INSTANCE_UID, STUDY_INSTANCE_UID,
};
use dq_vr::{Tag, Vr};

/// A level of a Study Root query, by which records it is answered.
#[derive(Clone, Copy, Debug, PartialEq, Eq)]
pub enum Level {
    Study,
    Series,
    Image,
}

static ABOVE_SERIES: [Tag; 1] = [STUDY_INSTANCE_UID];

static ABOVE_IMAGES: [Tag; 2] = [STUDY_INSTANCE_UID, SERIES_INSTANCE_UID];

impl Level {
    /// The level that an identifier names in (0008,0052).
    pub(crate) fn of(identifier: &DataSet) -> Option<Level>
        ensures { result ≡ level_of identifier.now }
    {
        level_named(trimmed(Vr::CS, octets_at(identifier, QUERY_RETRIEVE_LEVEL)))
    }

    pub(crate) fn name(self) -> &'static [u8]
        ensures { result.now ≡ level_name self }
    {
        match self {
            Level::Study => b"STUDY",
            Level::Series => b"SERIES",
            Level::Image => b"IMAGE",
        }
    }

    /// The keys that are supported at the level.
    pub(crate) fn keys(self) -> KeyList
        ensures { result ≡ level_keys self }
    {
        match self {
            Level::Study => KeyList::Study,
            Level::Series => KeyList::Series,
            Level::Image => KeyList::Image,
        }
    }

    /// The kind of the level's records.
    pub(crate) fn kind(self) -> Kind
        ensures { result ≡ kind_of self }
    {
        match self {
            Level::Study => Kind::Study,
            Level::Series => Kind::Series,
            Level::Image => Kind::Image,
        }
    }

    /// The level's own unique key.
    pub(crate) fn unique_key(self) -> Tag
        ensures { result ≡ unique_key self }
    {
        match self {
            Level::Study => STUDY_INSTANCE_UID,
            Level::Series => SERIES_INSTANCE_UID,
            Level::Image => SOP_INSTANCE_UID,
        }
    }

    fn keys_above(self) -> &'static [Tag]
        ensures { result.now ≡ keys_above self }
    {
        match self {
            Level::Study => &[],
            Level::Series => &ABOVE_SERIES,
            Level::Image => &ABOVE_IMAGES,
        }
    }

    /// Whether each unique key of the levels above is exactly one UID.
    #[tactic(auto, unfolding(crate::specs::Levels::has_keys_above))]
    pub(crate) fn has_keys_above(self, keys: &DataSet) -> bool
        ensures { result ≡ has_keys_above self keys.now }
    {
        self.keys_above()
            .iter()
            .all(|tag| uid_at(keys, *tag).is_some())
    }
}

#[tactic(auto, unfolding(crate::specs::Levels::level_named))]
fn level_named(name: &[u8]) -> Option<Level>
    ensures { result ≡ level_named name.now }
{
    if name == Level::Study.name() {
        return Some(Level::Study);
    }
    if name == Level::Series.name() {
        return Some(Level::Series);
    }
    if name == Level::Image.name() {
        return Some(Level::Image);
    }
    None
}
