//! The additions to institutions while searches were open.
ghost use Rattle.std.specs.Prelude.{◌≡◌, [], IfOk, length};
ghost use Rattle.dq_core.specs.Additions.{log_at, log_of, with_log};

use crate::open_associations::place_of;
use dq_archive::Addition;
use dq_config::Config;
use dq_list::Listed;
use std::alloc::{AllocError, Global};
use std::mem;

/// The studies, the series and the images that were added to each institution, in the order of the
/// configuration, since a search was open there and none before it. What an open search finds are
/// the records that there are, without those that were added since it began.
#[derive(Drop)]
pub(crate) struct Additions {
    pub logs: Vec<Listed<Addition>>,
}

impl Additions {
    /// Nothing was added.
    pub(crate) fn new(alloc: Global, config: &Config) -> Result<Self, AllocError>
        ensures { IfOk result (λ additions. length additions.logs.items ≡ length config.now) }
    {
        let count = config.institutions().len();
        let mut logs = Vec::new(alloc);
        for _ in 0..count {
            logs.push(Listed::empty(alloc))?;
        }
        Ok(Additions { logs })
    }

    /// Returns the additions to the institution of a name.
    pub(crate) fn of(&self, config: &Config, name: &[u8]) -> &[Addition]
        ensures { result.now ≡ log_of config.now self.now.logs.items name.now }
    {
        match place_of(config, name) {
            None => &[],
            Some(place) => match self.logs.get(place) {
                Some(log) => log.as_slice(),
                None => &[],
            },
        }
    }

    /// Takes the log at a place out, so that something can be added to it.
    pub(crate) fn take(&mut self, alloc: Global, place: Option<usize>) -> Listed<Addition>
        ensures taken { result ≡ log_at self.old.logs.items place }
        ensures left { self.new.logs.items ≡ with_log self.old.logs.items place [] }
    {
        let mut log = Listed::empty(alloc);
        if let Some(place) = place {
            if let Some(kept) = self.logs.get_mut(place) {
                mem::swap(&mut log, kept);
            }
        }
        log
    }

    /// Puts a log in its place.
    pub(crate) fn put(&mut self, place: Option<usize>, log: Listed<Addition>)
        ensures { self.new.logs.items ≡ with_log self.old.logs.items place log }
    {
        if let Some(place) = place {
            if let Some(kept) = self.logs.get_mut(place) {
                *kept = log;
            }
        }
    }
}
