//! Counts that contracts alone see.
ghost use Rattle.std.specs.Prelude.{◌≡◌, ◌+◌};
ghost use Rattle.audit_files.specs.Count.{times};

use std::snapshot::Snapshot;

/// A count of events. Only contracts see its value, which has no upper bound.
#[derive(Drop)]
pub enum Count {
    Never,
    Again(Snapshot<Count>),
}

impl Count {
    /// Adds one.
    pub fn add_one(&mut self)
        ensures { times self.new ≡ times self.old + 1 }
    {
        let before = Snapshot::of(&*self);
        *self = Count::Again(before);
    }
}
