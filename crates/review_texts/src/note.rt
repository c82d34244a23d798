//! What is noted and not judged.
ghost use Rattle.std.specs.Prelude.{◌≡◌, find, take};
ghost use Rattle.std.specs.Str.{bytes_eq};
ghost use Rattle.sudo_grammar.specs.Words.{bytes_of, has_no_escape};
ghost use Rattle.review_texts.specs.Notes as spec;
ghost use Rattle.review_texts.specs.Notes.{note_path, notes};

use sudo_grammar::Atom;
use sudo_text::Ch;

/// What decides for sudo and is not judged, in the order in which notes are listed.
#[derive(Clone, Copy, Debug, PartialEq, Eq)]
pub enum Note {
    /// The digest of a command's file.
    Digest,
    /// The time at which a command is run.
    Time,
    /// The root below which a command is run.
    Chroot,
    /// The regular expression that a command or its arguments have to fit.
    Regex,
}

impl Note {
    /// Returns the name of the note.
    pub fn name(self) -> &'static [u8]
        ensures { result.now ≡ spec.note_name self }
    {
        match self {
            Note::Digest => b"digest",
            Note::Time => b"time",
            Note::Chroot => b"chroot",
            Note::Regex => b"regex",
        }
    }
}

// Whether no character is escaped.
fn is_unescaped(chars: &[Ch]) -> bool
    ensures { result ≡ has_no_escape chars.now }
{
    chars.iter().all(|ch| !ch.escaped)
}

// Whether the bytes of characters are a text.
fn spells(chars: &[Ch], text: &[u8]) -> bool
    ensures { result ≡ bytes_eq (bytes_of chars.now) text.now }
{
    match (chars, text) {
        ([], []) => true,
        ([ch, chars @ ..], [byte, text @ ..]) => ch.byte == *byte && spells(chars, text),
        _ => false,
    }
}

// Returns the first seven characters, or all of fewer.
#[tactic(auto, using(crate::proofs::Fronts::take_shorter))]
fn front_of(path: &[Ch]) -> &[Ch]
    ensures { result.now ≡ take 7 path.now }
{
    if path.len() > 7 { &path[..7] } else { path }
}

// Returns the note for which a path stands that begins so, if it does.
fn named_note(front: &[Ch]) -> Option<Note>
    ensures { result ≡ find (λ note. bytes_eq (bytes_of front.now) (note_path note)) notes }
{
    if spells(front, b"/d[z-a]") {
        Some(Note::Digest)
    } else if spells(front, b"/t[z-a]") {
        Some(Note::Time)
    } else if spells(front, b"/c[z-a]") {
        Some(Note::Chroot)
    } else if spells(front, b"/r[z-a]") {
        Some(Note::Regex)
    } else {
        None
    }
}

// Returns the note for which a path without arguments stands, if it does.
fn note_of(path: &[Ch]) -> Option<Note>
    ensures { result ≡ spec.note_of path.now }
{
    let note = named_note(front_of(path))?;
    if is_unescaped(path) { Some(note) } else { None }
}

/// Returns the note for which a command stands, if it does.
pub fn note_in(atom: &Atom) -> Option<Note>
    ensures { result ≡ spec.note_in atom.now }
{
    match atom {
        Atom::Command { path, args: None } => note_of(path.as_slice()),
        _ => None,
    }
}
