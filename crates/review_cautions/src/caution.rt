//! Cautions.
ghost use Rattle.std.specs.Prelude.{◌≡◌};

use crate::CautionClass;
use std::alloc::Global;
use sudo_text::{Place, Seq};

/// A caution: its class, the place of the line, and its subject: the name of the parameter for a `Defaults` line, that of
/// the note for a command that stands for one, otherwise empty.
#[derive(Clone, Debug, Drop, PartialEq, Eq)]
pub struct Caution {
    pub class: CautionClass,
    pub place: Place,
    pub subject: Seq<u8>,
}

impl Caution {
    ghost use Rattle.review_cautions.specs.Cautions.{caution_at};

    /// Creates a caution without a subject. Does not allocate.
    pub(crate) fn on_line(alloc: Global, class: CautionClass, place: Place) -> Caution
        ensures { result ≡ caution_at class place }
    {
        Caution {
            class,
            place,
            subject: Seq::new(alloc),
        }
    }
}
