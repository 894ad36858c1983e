//! Tables for tests, which no server has.
mod fuse;
mod fused;

pub use fuse::Fuse;
pub use fused::Fused;
