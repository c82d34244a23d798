//! The classes of cautions.
ghost use Rattle.std.specs.Prelude.{◌≡◌, ◌↔◌, Some, find, bytes_eq};
ghost use Rattle.review_cautions.specs.Classes.{class_name, class_text, classes};

/// The classes of cautions, in the order in which they are listed.
#[derive(Clone, Copy, Debug, PartialEq, Eq)]
pub enum CautionClass {
    /// A carriage return at the end of a line.
    Return,
    /// Blanks between the last backslash of a line and its end.
    BlankAfterBackslash,
    /// A line that is joined to the next one inside a word.
    Join,
    /// A line that is joined to the next one at a mark, where sudo joins no lines.
    TornMark,
    /// An include line with a backslash.
    IncludeEscape,
    /// An include line that begins with `#` behind blanks.
    IncludeIndent,
    /// A comment whose `#` stands before a number or a carriage return.
    Comment,
    /// A list of users to run as with a colon and no group behind it.
    EmptyGroup,
    /// A bracket of a pattern that begins with `^`.
    Caret,
    /// An escape that sudo reads as a wildcard, as the mark of an ID, as two characters, or not at all.
    Escape,
    /// A name of a user or a group with a capital letter.
    Case,
    /// A quoted host with a byte that is a mark of a pattern for sudo.
    QuotedHost,
    /// A quoted name with an escape, whose backslash sudo keeps.
    QuotedEscape,
    /// A command below a folder that is a link on most machines.
    Linked,
    /// A parameter of a `Defaults` line that decides.
    Defaults,
    /// A parameter of a `Defaults` line that sudo does not know.
    UnknownParameter,
    /// A path that ends in `/sudoedit`.
    Sudoedit,
    /// An address or a network that sudo reads otherwise.
    Network,
    /// A bracket of a pattern with a slash, a class or an equivalence.
    Bracket,
    /// `ALL` among commands, where SETENV is given or an alias stands for it.
    Setenv,
    /// A runas that names no user, or `%group` as a group.
    GroupForm,
    /// An alias with the name of an option, or one with that of a tag before a colon.
    Reserved,
    /// Arguments behind a folder, that begin with `^`, or of which one is `=` alone.
    Arguments,
    /// A command that stands for a note.
    Depends,
}

impl CautionClass {
    /// Returns the name of the class.
    pub fn name(self) -> &'static [u8]
        ensures { result.now ≡ class_name self }
    {
        match self {
            CautionClass::Return => b"return",
            CautionClass::BlankAfterBackslash => b"blank-after-backslash",
            CautionClass::Join => b"join",
            CautionClass::TornMark => b"torn-mark",
            CautionClass::IncludeEscape => b"include-escape",
            CautionClass::IncludeIndent => b"include-indent",
            CautionClass::Comment => b"comment",
            CautionClass::EmptyGroup => b"empty-group",
            CautionClass::Caret => b"caret",
            CautionClass::Escape => b"escape",
            CautionClass::Case => b"case",
            CautionClass::QuotedHost => b"quoted-host",
            CautionClass::QuotedEscape => b"quoted-escape",
            CautionClass::Linked => b"linked",
            CautionClass::Defaults => b"defaults",
            CautionClass::UnknownParameter => b"unknown-parameter",
            CautionClass::Sudoedit => b"sudoedit",
            CautionClass::Network => b"network",
            CautionClass::Bracket => b"bracket",
            CautionClass::Setenv => b"setenv",
            CautionClass::GroupForm => b"group-form",
            CautionClass::Reserved => b"reserved",
            CautionClass::Arguments => b"arguments",
            CautionClass::Depends => b"depends",
        }
    }

    /// Returns the text that explains the cautions of the class.
    pub fn text(self) -> &'static [u8]
        ensures { result.now ≡ class_text self }
    {
        match self {
            CautionClass::Return => {
                b"a carriage return ends the line: dropped here, for sudo a byte of the line"
            }
            CautionClass::BlankAfterBackslash => {
                b"blanks stand between the last backslash and the end of the line: an escaped blank here, for sudo a join of two lines"
            }
            CautionClass::Join => {
                b"lines are joined inside a word: nothing stands between them here, for sudo a blank"
            }
            CautionClass::TornMark => {
                b"lines are joined where sudo does not join them: read here, refused by sudo"
            }
            CautionClass::IncludeEscape => {
                b"an include line has a backslash: read here as everywhere, for sudo a part of the path"
            }
            CautionClass::IncludeIndent => {
                b"blanks stand before #include: the file is read here, for sudo the line is a comment"
            }
            CautionClass::Comment => {
                b"a number or a carriage return stands behind the # of a comment: a comment here, none for sudo, which mostly refuses it"
            }
            CautionClass::EmptyGroup => {
                b"a runas has users, a colon and no group behind it: as without the colon here, refused by sudo"
            }
            CautionClass::Caret => {
                b"`[^` begins a bracket: `^` is one of its characters here, for sudo a complement"
            }
            CautionClass::Escape => {
                b"an escape is read otherwise by sudo: as a wildcard, as an ID, as two characters, or refused"
            }
            CautionClass::Case => {
                b"a name has a capital letter: letter case counts here, not for sudo"
            }
            CautionClass::QuotedHost => {
                b"a quoted host has a wildcard: it stands for itself here, for sudo it is a pattern"
            }
            CautionClass::QuotedEscape => {
                b"a backslash stands between double quotes: an escape here, for sudo a byte of the name"
            }
            CautionClass::Linked => {
                b"a command is below a folder that is a link on most machines: two paths here, for sudo one file"
            }
            CautionClass::Defaults => b"decides for sudo, has no effect here",
            CautionClass::UnknownParameter => {
                b"sudo 1.9 has no such parameter: passed over here in silence, by sudo with a warning"
            }
            CautionClass::Sudoedit => {
                b"a path ends in sudoedit: a program here, for sudo the editing of files"
            }
            CautionClass::Network => {
                b"an address is read otherwise by sudo: a mask of 0, a zero in front of a number, or an address of the loopback"
            }
            CautionClass::Bracket => {
                b"a bracket is read otherwise by sudo: a slash, a class or an equivalence stands in it"
            }
            CautionClass::Setenv => {
                b"SETENV is given otherwise: ALL has it for sudo whatever the tag, an alias of ALL has it here alone"
            }
            CautionClass::GroupForm => {
                b"a runas names no user, which sudo allows only where a group is asked for, or a group by %, which it refuses"
            }
            CautionClass::Reserved => {
                b"an alias has the name of an option, or of a tag before a colon: read here, reserved for sudo, which refuses the line"
            }
            CautionClass::Arguments => {
                b"arguments stand behind a folder, begin with ^, or one is = alone: arguments here, mostly refused by sudo"
            }
            CautionClass::Depends => b"sudo asks for it too: not judged here",
        }
    }
}

/// The classes, in the order in which they are listed.
pub const CAUTION_CLASSES: [CautionClass; 24] = [
    CautionClass::Return,
    CautionClass::BlankAfterBackslash,
    CautionClass::Join,
    CautionClass::TornMark,
    CautionClass::IncludeEscape,
    CautionClass::IncludeIndent,
    CautionClass::Comment,
    CautionClass::EmptyGroup,
    CautionClass::Caret,
    CautionClass::Escape,
    CautionClass::Case,
    CautionClass::QuotedHost,
    CautionClass::QuotedEscape,
    CautionClass::Linked,
    CautionClass::Defaults,
    CautionClass::UnknownParameter,
    CautionClass::Sudoedit,
    CautionClass::Network,
    CautionClass::Bracket,
    CautionClass::Setenv,
    CautionClass::GroupForm,
    CautionClass::Reserved,
    CautionClass::Arguments,
    CautionClass::Depends,
];

// Returns the first class of a name.
fn first_class(name: &[u8]) -> Option<CautionClass>
    ensures { result ≡ find (λ class. bytes_eq (class_name class) name.now) classes }
{
    CAUTION_CLASSES
        .iter()
        .copied()
        .find(|class| class.name() == name)
}

/// Returns the class of a name, or `None` if no class has it.
pub fn class_named(name: &[u8]) -> Option<CautionClass>
    ensures { (class : CautionClass) → (result ≡ Some class) ↔ (name.now ≡ class_name class) }
{
    first_class(name)
}
