//! Lists that were scanned for marks.
ghost use Rattle.std.specs.Prelude.{◌≡◌};
ghost use Rattle.sudo_policy.specs.Definitions.{list_view};
ghost use Rattle.review_cautions.specs.Marks.{list_is_marked};

use sudo_policy::MemberList;

/// A list, and whether one of its members has a character that most classes of lists look for.
#[derive(Clone, Copy)]
pub(crate) struct ScannedList<'a> {
    pub(crate) list: MemberList<'a>,
    pub(crate) marked: bool,
    ghost is_marked: { marked ≡ list_is_marked (list_view list) },
}
