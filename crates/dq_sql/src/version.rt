//! The versions of a store of rows.
ghost use Rattle.std.specs.Prelude.{◌≡◌, pos};

/// A version of a store of rows. One of version 1 does not say which entries are started, and none
/// is.
#[derive(Clone, Copy, Debug, PartialEq, Eq)]
pub enum Version {
    One = 1,
    Two = 2,
}

impl Version {
    ghost use Rattle.dq_sql.specs.Schema.{version_number};

    /// The number by which a store says its version.
    pub(crate) fn number(self) -> i64
        ensures { result ≡ pos (version_number self) }
    {
        i64::from(self as u8)
    }
}
