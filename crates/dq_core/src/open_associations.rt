//! How many associations each institution has open.

ghost use Rattle.std.specs.Prelude.{◌≡◌, IfOk, length, replicate};
ghost use Rattle.std.specs.Option.{option_copied};
ghost use Rattle.dq_core.specs.OpenAssociations.{institution_index, tally_of_name, one_more, one_less, retallied_by};

use dq_config::{Config, Institution};
use std::alloc::{AllocError, Global};

/// How many associations each institution has open, in the order of the configuration, so that no
/// piece has to count them anew.
#[derive(Drop)]
pub(crate) struct OpenAssociations {
    pub counts: Vec<usize>,
}

impl OpenAssociations {
    /// None is open.
    pub(crate) fn new(alloc: Global, config: &Config) -> Result<Self, AllocError>
        ensures { IfOk result (λ tally. tally.counts.items ≡ replicate (length config.now) 0) }
    {
        let counts = vec![in alloc; 0; config.institutions().len()]?;
        Ok(OpenAssociations { counts })
    }

    /// How many the institution of a name has open.
    pub(crate) fn count(&self, config: &Config, name: &[u8]) -> usize
        ensures { result ≡ tally_of_name config.now self.now.counts.items name.now }
    {
        match place_of(config, name) {
            None => 0,
            Some(place) => self.counts.get(place).copied().unwrap_or(0),
        }
    }

    /// Counts an association that was opened at the institution of a name.
    pub(crate) fn opened(&mut self, config: &Config, name: &[u8])
        ensures { self.new.counts.items
            ≡ one_more self.old.counts.items (institution_index config.now name.now) }
    {
        if let Some(place) = place_of(config, name) {
            if let Some(count) = self.counts.get_mut(place) {
                *count = count.saturating_add(1);
            }
        }
    }

    /// Counts one that ended there.
    pub(crate) fn ended(&mut self, config: &Config, name: &[u8])
        ensures { self.new.counts.items
            ≡ one_less self.old.counts.items (institution_index config.now name.now) }
    {
        if let Some(place) = place_of(config, name) {
            if let Some(count) = self.counts.get_mut(place) {
                *count = count.saturating_sub(1);
            }
        }
    }

    /// Counts an association that was opened at an institution, or that ended there.
    pub(crate) fn retally(
        &mut self,
        config: &Config,
        institution: Option<&Institution>,
        was_open: bool,
        is_open: bool,
    )
        ensures { self.new.counts.items ≡ retallied_by config.now self.old.counts.items
            (option_copied institution.entry) was_open is_open }
    {
        let Some(institution) = institution else {
            return;
        };
        let name = institution.name.as_slice();
        match (was_open, is_open) {
            (false, true) => self.opened(config, name),
            (true, false) => self.ended(config, name),
            _ => {}
        }
    }
}

/// Where the institution of a name stands.
pub(crate) fn place_of(config: &Config, name: &[u8]) -> Option<usize>
    ensures { result ≡ institution_index config.now name.now }
{
    config
        .institutions()
        .iter()
        .position(|institution| institution.name.as_slice() == name)
}
