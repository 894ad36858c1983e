//! The institutions that share the server.
ghost use Rattle.std.specs.Prelude.{◌≡◌, ◌≢◌, ◌↔◌, IsTrue, IfOk, IfErr};
ghost use Rattle.toml.specs.Errors.{IsMemory};
ghost use Rattle.dq_config.specs.declared.fault.ConfigFault.TheVariants.{Syntax, NoMemory};
ghost use Rattle.dq_config.specs.Conditions.{configuration, is_sound_configuration};
ghost use Rattle.dq_config.specs.Document.{built_in};
ghost use Rattle.std.specs.Option.{option_copied};
ghost use Rattle.dq_config.specs.Routing.{joins, has_route, institution_routed, institution_named, same_octets};

use crate::conditions::judge;
use crate::document_reader::institutions_in;
use crate::fault::ConfigFault;
use dq_list::Listed;
use dq_value::stripped;
use std::alloc::{AllocError, Global};
use std::marker::Model;

/// The text of the configuration that is built in.
pub const BUILT_IN: &str = "\
[[institution]]
name = \"DEMO\"
routes = [{ called = \"ARCHIVE\", calling = \"MODALITY\" }]
studies = 100
images = 1000
entries = 100
steps = 100
associations = 4
";

/// A pair of application entity titles, without the spaces at their ends.
#[derive(Drop)]
pub struct Route {
    pub called: Listed<u8>,
    pub calling: Listed<u8>,
}

/// An institution: its name, the pairs of titles that are its own, and how many studies, images,
/// worklist entries, performed steps and open associations it may have.
#[derive(Drop)]
pub struct Institution {
    pub name: Listed<u8>,
    pub routes: Listed<Route>,
    pub studies: u32,
    pub images: u32,
    pub entries: u32,
    pub steps: u32,
    pub associations: u32,
}

/// The institutions, in the order of the configuration. No name and no pair of titles comes twice,
/// and each limit is in its range.
#[derive(Drop)]
pub struct Config {
    institutions: Listed<Institution>,
}

impl Model for Config {
    ghost use Rattle.std.specs.Prelude.{List, IsTrue};
    ghost use Rattle.dq_config.specs.declared.config.Institution.{Institution};
    ghost use Rattle.dq_config.specs.Conditions.{is_sound_configuration};

    ghost Value = { List Institution };

    ghost view = { λ a. a.institutions };

    ghost invariant = { λ a. IsTrue (is_sound_configuration a.institutions) };
}

impl Institution {
    /// Whether one of its routes is the pair of titles.
    #[tactic(auto, unfolding(crate::specs::Routing::has_route))]
    pub(crate) fn has_route(&self, called: &[u8], calling: &[u8]) -> bool
        ensures { result ≡ has_route called.now calling.now self.now }
    {
        self.routes
            .inner()
            .iter()
            .any(|route| route.joins(called, calling))
    }

    /// Whether the name is its own.
    pub(crate) fn is_named(&self, name: &[u8]) -> bool
        ensures { result ≡ same_octets self.now.name name.now }
    {
        self.name.as_slice() == name
    }
}

impl Route {
    /// Whether it is the pair of titles.
    #[tactic(auto, unfolding(crate::specs::Routing::joins))]
    pub(crate) fn joins(&self, called: &[u8], calling: &[u8]) -> bool
        ensures { result ≡ joins called.now calling.now self.now }
    {
        self.called.as_slice() == called && self.calling.as_slice() == calling
    }
}

impl Config {
    /// The configuration that a TOML text spells: for each institution a table `[[institution]]`
    /// with its `name`, its `routes`, each a table of the titles `called` and `calling`, and its
    /// limits `studies`, `images`, `entries`, `steps` (1 to 1,000,000) and `associations` (1 to
    /// 64).
    ///
    /// # Errors
    /// The fault of the first condition that the text does not meet, or want of memory.
    #[tactic(auto, unfolding(crate::specs::Conditions::configuration, crate::specs::Conditions::is_sound_configuration))]
    pub fn read(alloc: Global, text: &str) -> Result<Config, ConfigFault>
        ensures spelled { IfOk result (λ config. configuration text.now ≡ Ok config) }
        ensures refused { IfErr result (λ fault. fault ≢ NoMemory
            → configuration text.now ≡ Err fault) }
    {
        let document = match toml::table_from_str(alloc, text) {
            Ok(document) => document,
            Err(error) => return Err(fault_of(&error)),
        };
        let institutions = institutions_in(alloc, &document)?;
        judge(institutions.as_slice())?;
        Ok(Config { institutions })
    }

    /// The configuration that is built in: one institution, DEMO, with one route. It is what its
    /// text spells.
    #[tactic(auto, using(crate::proofs::Literals::built_in_spelled), unfolding(crate::specs::Conditions::configuration))]
    pub fn built_in(alloc: Global) -> Result<Config, AllocError>
        ensures value { IfOk result (λ config. config ≡ built_in) }
        ensures spelled { configuration BUILT_IN.now ≡ Ok built_in }
    {
        Config::read(alloc, BUILT_IN).map_err(|_| AllocError)
    }

    /// The institutions, in the order of the configuration.
    pub fn institutions(&self) -> &[Institution]
        ensures { result.now ≡ self.now }
    {
        self.institutions.as_slice()
    }

    /// Each configuration meets the conditions on its institutions, from which the laws follow.
    pub fn is_sound(&self)
        ensures { IsTrue (is_sound_configuration self.now) }
    {
        let _institutions = &self.institutions;
    }

    /// The institution that has the pair of titles, which are compared without the spaces at their
    /// ends.
    #[tactic(auto, unfolding(crate::specs::Routing::institution_routed))]
    pub fn route(&self, called: &[u8], calling: &[u8]) -> Option<&Institution>
        ensures { option_copied result ≡ institution_routed self.now called.now calling.now }
    {
        let called = stripped(called);
        let calling = stripped(calling);
        self.institutions
            .inner()
            .iter()
            .find(|institution| institution.has_route(called, calling))
    }

    /// The institution of a name.
    #[tactic(auto, unfolding(crate::specs::Routing::institution_named))]
    pub fn institution(&self, name: &[u8]) -> Option<&Institution>
        ensures { option_copied result ≡ institution_named self.now name.now }
    {
        self.institutions
            .inner()
            .iter()
            .find(|institution| institution.is_named(name))
    }
}

fn fault_of(error: &toml::de::Error) -> ConfigFault
    ensures memory { (result ≡ NoMemory) ↔ IsMemory error.now }
    ensures syntax { result ≢ NoMemory → result ≡ Syntax }
{
    if error.is_memory() {
        ConfigFault::NoMemory
    } else {
        ConfigFault::Syntax
    }
}
