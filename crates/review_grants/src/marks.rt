//! Which notes a grant, or a chain of them, depends on.
ghost use Rattle.std.specs.Prelude.{◌≡◌, ◌||◌, filter};
ghost use Rattle.review_texts.specs.declared.note.Note.{Note as TheNote};
ghost use Rattle.review_texts.specs.Notes.{notes};
ghost use Rattle.review_grants.specs.Depends as spec;

use review_texts::Note;

/// Which notes something depends on.
#[derive(Clone, Copy, Debug, PartialEq, Eq)]
pub struct Marks {
    digest: bool,
    time: bool,
    chroot: bool,
    regex: bool,
}

/// The marks of what depends on no note.
pub const UNMARKED: Marks = Marks {
    digest: false,
    time: false,
    chroot: false,
    regex: false,
};

impl Marks {
    // Returns the marks with that of a note.
    pub(crate) fn with_note(mut self, note: Note) -> Marks
        ensures { (other : TheNote) → spec.has_mark result other
            ≡ (spec.has_mark self other || spec.same_note other note) }
    {
        match note {
            Note::Digest => self.digest = true,
            Note::Time => self.time = true,
            Note::Chroot => self.chroot = true,
            Note::Regex => self.regex = true,
        }
        self
    }

    /// Whether no note is marked.
    pub fn is_unmarked(self) -> bool
        ensures { result ≡ spec.is_unmarked self }
    {
        !self.digest && !self.time && !self.chroot && !self.regex
    }

    /// Returns the marks of both.
    pub fn joined(self, other: Marks) -> Marks
        ensures { result ≡ spec.joined_marks self other }
    {
        Marks {
            digest: self.digest || other.digest,
            time: self.time || other.time,
            chroot: self.chroot || other.chroot,
            regex: self.regex || other.regex,
        }
    }

    /// Returns the names of the notes that are marked, `digest`, `time`, `chroot` and `regex`, with a blank between them.
    pub fn text(self) -> &'static [u8]
        ensures { result.now ≡ spec.depends_text (filter (spec.has_mark self) notes) }
    {
        match (self.digest, self.time, self.chroot, self.regex) {
            (false, false, false, false) => b"",
            (true, false, false, false) => b"digest",
            (false, true, false, false) => b"time",
            (false, false, true, false) => b"chroot",
            (true, true, false, false) => b"digest time",
            (true, false, true, false) => b"digest chroot",
            (false, true, true, false) => b"time chroot",
            (true, true, true, false) => b"digest time chroot",
            (false, false, false, true) => b"regex",
            (true, false, false, true) => b"digest regex",
            (false, true, false, true) => b"time regex",
            (false, false, true, true) => b"chroot regex",
            (true, true, false, true) => b"digest time regex",
            (true, false, true, true) => b"digest chroot regex",
            (false, true, true, true) => b"time chroot regex",
            (true, true, true, true) => b"digest time chroot regex",
        }
    }
}
