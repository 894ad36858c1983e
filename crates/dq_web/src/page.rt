//! The page for people: its three documents, which tools/web_page makes of the files in web/.
mod index;
mod script;
mod style;

pub(crate) use index::INDEX;
pub(crate) use script::SCRIPT;
pub(crate) use style::STYLE;
