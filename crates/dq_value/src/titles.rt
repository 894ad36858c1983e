//! AE titles (PS3.5 section 6.2).
ghost use Rattle.std.specs.Prelude.{◌≡◌, ℕ, List};
ghost use Rattle.dq_value.specs.Title.{IsStripped, without_spaces};

use crate::padding::{Padding, without_leading_spaces, without_trailing};

/// An application entity title without the spaces (20H) at its ends (PS3.5 table 6.2-1, AE).
#[tactic(auto, unfolding(crate::specs::Title::without_spaces))]
pub fn stripped(title: &[u8]) -> &[u8]
    ensures { result.now ≡ without_spaces title.now }
{
    without_leading_spaces(without_trailing(title, Padding::Spaces))
}

/// Nothing but spaces at the ends of a title is lost, and none is left there.
pub fn stripping_law()
    ensures strips { (title : List ℕ) → IsStripped title (without_spaces title) }
    ensures alone { (title kept : List ℕ) → IsStripped title kept → kept ≡ without_spaces title }
    ensures again { (title : List ℕ) → without_spaces (without_spaces title) ≡ without_spaces title }
{}
