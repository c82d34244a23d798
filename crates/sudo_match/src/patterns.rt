//! Patterns over bytes, as in glob(7) and sudoers(5), "Wildcards".

ghost use Rattle.std.specs.Prelude.{ℕ, ◌≡◌, false, ◌+◌, ◌^◌, ◌<◌, ◌≤◌, ◌&&◌, ◌||◌, not, true, length, drop, map};
ghost use Rattle.std.specs.Prelude.{slice_get, option_map, IfSome, None, if◌then◌else◌};
ghost use Rattle.std.specs.List.{list_any};
ghost use Rattle.sudo_match.specs.Class as class;
ghost use Rattle.sudo_match.specs.Class.{class_holds, class_name, is_between, is_alpha, is_alnum};
ghost use Rattle.sudo_match.specs.Pattern.{is_byte, is_plain, has, begins, item_holds, class_form, class_end};
ghost use Rattle.sudo_match.specs.Pattern.{range_at, items_after, bracket_after, is_free};
ghost use Rattle.sudo_match.specs.Body.Pattern.{item_of, part_of};
ghost use Rattle.sudo_match.specs.Pattern.{set_holds, parts, any_name, fits};
ghost use Rattle.sudo_match.specs.Body.Pattern.{part_holds};
ghost use Rattle.sudo_match.specs.Body.Closing.{Knows};

use crate::unclosed::Unclosed;
use std::marker::Model;
use sudo_text::Ch;

/// Whether `*`, `?` and brackets fit the byte `/`.
#[derive(Clone, Copy, PartialEq, Eq, Debug)]
pub enum Slash {
    /// They fit it like any other byte.
    Any,
    /// They do not fit it; only a written `/` does.
    Not,
}

impl Slash {
    fn is_free(self, byte: u8) -> bool
        ensures { result ≡ is_free self byte }
    {
        match self {
            Slash::Any => true,
            Slash::Not => byte != b'/',
        }
    }
}

// A POSIX character class, over ASCII.
#[derive(Clone, Copy, PartialEq, Eq, Debug)]
enum Class {
    Alnum,
    Alpha,
    Blank,
    Cntrl,
    Digit,
    Graph,
    Lower,
    Print,
    Punct,
    Space,
    Upper,
    Xdigit,
}

fn is_between(low: u8, high: u8, byte: u8) -> bool
    ensures { result ≡ is_between low high byte }
{
    low <= byte && byte <= high
}

fn is_alpha(byte: u8) -> bool
    ensures { result ≡ is_alpha byte }
{
    is_between(b'A', b'Z', byte) || is_between(b'a', b'z', byte)
}

fn is_alnum(byte: u8) -> bool
    ensures { result ≡ is_alnum byte }
{
    is_between(b'0', b'9', byte) || is_alpha(byte)
}

fn is_xdigit(byte: u8) -> bool
    ensures { result ≡ class_holds class.Xdigit byte }
{
    is_between(b'0', b'9', byte) || is_between(b'A', b'F', byte) || is_between(b'a', b'f', byte)
}

impl Class {
    ghost use Rattle.sudo_match.specs.Body.Shown.{class_of};

    fn holds(self, byte: u8) -> bool
        ensures { result ≡ class_holds (class_of self) byte }
    {
        match self {
            Class::Alnum => is_alnum(byte),
            Class::Alpha => is_alpha(byte),
            Class::Blank => byte == b' ' || byte == b'\t',
            Class::Cntrl => byte <= 31 || byte == 127,
            Class::Digit => is_between(b'0', b'9', byte),
            Class::Graph => is_between(33, 126, byte),
            Class::Lower => is_between(b'a', b'z', byte),
            Class::Print => is_between(32, 126, byte),
            Class::Punct => is_between(33, 126, byte) && !is_alnum(byte),
            Class::Space => byte == b' ' || is_between(9, 13, byte),
            Class::Upper => is_between(b'A', b'Z', byte),
            Class::Xdigit => is_xdigit(byte),
        }
    }

    fn name(self) -> &'static [u8]
        ensures { result.now ≡ class_name (class_of self) }
    {
        match self {
            Class::Alnum => b"alnum",
            Class::Alpha => b"alpha",
            Class::Blank => b"blank",
            Class::Cntrl => b"cntrl",
            Class::Digit => b"digit",
            Class::Graph => b"graph",
            Class::Lower => b"lower",
            Class::Print => b"print",
            Class::Punct => b"punct",
            Class::Space => b"space",
            Class::Upper => b"upper",
            Class::Xdigit => b"xdigit",
        }
    }
}

// A way to read the characters of a pattern.
#[derive(Clone, Copy, PartialEq, Eq, Debug)]
pub(crate) enum Reading {
    // Unchanged.
    Exact,
    // As a host name: in lower case, and an escaped `!` directly after an unescaped `[` counts as unescaped.
    Host,
    // As a quoted host name: in lower case, with no special character.
    Quoted,
}

impl Reading {
    ghost use Rattle.sudo_match.specs.Body.Reading.{read_one};

    // Returns a character as it is read. `is_after`: it directly follows an unescaped `[`.
    fn read(self, ch: Ch, is_after: bool) -> Ch
        ensures { result ≡ read_one self is_after ch }
    {
        let byte = ch.byte.to_ascii_lowercase();
        match self {
            Reading::Exact => ch,
            Reading::Host => Ch {
                byte,
                escaped: ch.escaped && !(is_after && ch.byte == b'!'),
            },
            Reading::Quoted => Ch {
                byte,
                escaped: true,
            },
        }
    }
}

// A text as it is read: unchanged, or in lower case.
#[derive(Clone, Copy)]
pub(crate) struct Text<'a> {
    pub(crate) bytes: &'a [u8],
    pub(crate) lower: bool,
    ghost short: { length bytes.now < 2 ^ 63 },
}

impl Text<'_> {
    ghost use Rattle.sudo_match.specs.Body.Reading.{text_of, is_free_byte};

    // Whether there is a byte at this index and a star may fit it.
    fn is_free_at(&self, offset: usize, slash: Slash) -> bool
        ensures { result ≡ is_free_byte slash (slice_get (text_of self.now) offset) }
    {
        match self.get(offset) {
            Some(byte) => slash.is_free(byte),
            None => false,
        }
    }

    fn get(&self, offset: usize) -> Option<u8>
        ensures { result ≡ slice_get (text_of self.now) offset }
    {
        let byte = *self.bytes.get(offset)?;
        if self.lower {
            Some(byte.to_ascii_lowercase())
        } else {
            Some(byte)
        }
    }
}

// The characters of a pattern as they are read.
#[derive(Clone, Copy)]
pub(crate) struct Chars<'a> {
    pub(crate) chars: &'a [Ch],
    pub(crate) reading: Reading,
    // Whether `?*` follows the characters.
    pub(crate) is_folder: bool,
    ghost short: { length chars.now < 2 ^ 62 },
}

// One step of a match: the part at an index of the pattern, compared with the byte at an index of the text.
enum Step {
    // The part is a star.
    Starred,
    // The part fits the byte, and has this many characters after its first.
    Taken(usize),
    // The pattern and the text both end.
    Finished,
    // The part does not fit the byte, or only one of the pattern and the text ends.
    Stuck,
}

// The known classes, in the order in which they are tried.
const CLASSES: [Class; 12] = [
    Class::Alnum,
    Class::Alpha,
    Class::Blank,
    Class::Cntrl,
    Class::Digit,
    Class::Graph,
    Class::Lower,
    Class::Print,
    Class::Punct,
    Class::Space,
    Class::Upper,
    Class::Xdigit,
];

fn any_name_at(is_folder: bool, at: usize) -> Option<Ch>
    ensures { result ≡ slice_get (any_name is_folder) at }
{
    if !is_folder {
        return None;
    }
    match at {
        0 => Some(Ch {
            byte: b'?',
            escaped: false,
        }),
        1 => Some(Ch {
            byte: b'*',
            escaped: false,
        }),
        _ => None,
    }
}

fn is_plain(ch: Ch, byte: u8) -> bool
    ensures { result ≡ is_plain byte ch }
{
    !ch.escaped && ch.byte == byte
}

/// Whether the character may fit a byte other than its own: an unescaped `*`, `?` or `[`.
pub fn is_special(ch: Ch) -> bool
    ensures { result ≡ (is_plain 42 ch || (is_plain 63 ch || is_plain 91 ch)) }
{
    match ch.byte {
        b'*' | b'?' | b'[' => !ch.escaped,
        _ => false,
    }
}

impl<'a> Chars<'a> {
    ghost use Rattle.sudo_match.specs.Reading.{seen, read};
    ghost use Rattle.sudo_match.specs.Body.Reading.{text_of, follows_bracket};
    ghost use Rattle.sudo_match.specs.Body.Shown.{class_of, class_at_start, held_by};
    ghost use Rattle.sudo_match.specs.Body.Step.{StepIs};
    ghost use Rattle.sudo_match.specs.declared.patterns.Reading.TheVariants.{Exact};

    fn len(&self) -> usize
        ensures { result ≡ length (seen self.now) }
    {
        if self.is_folder {
            self.chars.len() + 2
        } else {
            self.chars.len()
        }
    }

    // Whether the character at this index directly follows an unescaped `[`.
    fn follows_bracket(&self, at: usize) -> bool
        ensures { result ≡ follows_bracket self.now.chars.now at }
    {
        if at == 0 {
            return false;
        }
        match self.chars.get(at - 1) {
            Some(ch) => is_plain(*ch, b'['),
            None => false,
        }
    }

    // Returns the character at this index of the slice, as it is read.
    fn read_at(&self, at: usize) -> Option<Ch>
        ensures { result ≡ slice_get (read self.now.reading self.now.chars.now) at }
    {
        let ch = *self.chars.get(at)?;
        match self.reading {
            Reading::Exact => Some(ch),
            reading => Some(reading.read(ch, self.follows_bracket(at))),
        }
    }

    fn get(&self, at: usize) -> Option<Ch>
        ensures { result ≡ slice_get (seen self.now) at }
    {
        if at < self.chars.len() {
            self.read_at(at)
        } else {
            any_name_at(self.is_folder, at - self.chars.len())
        }
    }

    fn is_at(&self, at: usize, byte: u8) -> bool
        ensures { result ≡ has (is_byte byte) (slice_get (seen self.now) at) }
    {
        match self.get(at) {
            Some(ch) => ch.byte == byte,
            None => false,
        }
    }

    fn is_plain_at(&self, at: usize, byte: u8) -> bool
        ensures { result ≡ has (is_plain byte) (slice_get (seen self.now) at) }
    {
        match self.get(at) {
            Some(ch) => is_plain(ch, byte),
            None => false,
        }
    }

    // Whether the characters from this index on begin with these bytes, all unescaped.
    pub(crate) fn spells_at(&self, at: usize, name: &[u8]) -> bool
        requires { at + length name.now < 2 ^ 64 }
        ensures { result ≡ begins (map is_plain name.now) (drop at (seen self.now)) }
    {
        for (i, byte) in name.iter().enumerate() {
            if !self.is_plain_at(at + i, *byte) {
                return false;
            }
        }
        true
    }

    // Whether a class may end at this index: with a `:`, escaped or not, and an unescaped `]`.
    fn closes_class(&self, at: usize) -> bool
        requires { at + 1 < 2 ^ 64 }
        ensures { result ≡ begins class_end (drop at (seen self.now)) }
    {
        self.is_at(at, b':') && self.is_plain_at(at + 1, b']')
    }

    // Whether the characters from this index on begin with `[:name:]`.
    fn opens_class(&self, at: usize, class: Class) -> bool
        requires { at ≤ length (seen self.now) }
        ensures { result ≡ begins (class_form (class_of class)) (drop at (seen self.now)) }
    {
        if !self.is_plain_at(at, b'[') {
            return false;
        }
        if !self.is_at(at + 1, b':') {
            return false;
        }
        let name = class.name();
        if !self.spells_at(at + 2, name) {
            return false;
        }
        self.closes_class(at + 2 + name.len())
    }

    fn class_at(&self, at: usize) -> Option<Class>
        requires { at ≤ length (seen self.now) }
        ensures { result ≡ class_at_start (drop at (seen self.now)) }
    {
        if !self.is_plain_at(at, b'[') {
            return None;
        }
        CLASSES
            .iter()
            .copied()
            .find(|class| self.opens_class(at, *class))
    }

    // Whether the range or single byte that begins at this index holds the byte, and the number of its characters after
    // the first. `first` is the character at this index.
    fn range_at(&self, at: usize, first: Ch, byte: u8) -> (bool, usize)
        requires { at < length (seen self.now) }
        ensures value { result ≡ held_by byte (range_at first (drop (at + 1) (seen self.now))) }
        ensures within { at + result.1 < length (seen self.now) }
    {
        let single = (byte == first.byte, 0);
        let Some(last) = self.get(at + 2) else {
            return single;
        };
        let is_range = self.is_plain_at(at + 1, b'-') && !is_plain(last, b']');
        if is_range {
            (is_between(first.byte, last.byte, byte), 2)
        } else {
            single
        }
    }

    // Whether the bracket item at this index holds the byte, and the number of its characters after the first.
    fn item_at(&self, at: usize, byte: u8) -> Option<(bool, usize)>
        requires { at ≤ length (seen self.now) }
        ensures value { result ≡ option_map (held_by byte) (item_of (drop at (seen self.now))) }
        ensures within { IfSome result (λ r. at + r.1 < length (seen self.now)) }
    {
        let first = self.get(at)?;
        match self.class_at(at) {
            Some(class) => Some((class.holds(byte), class.name().len() + 3)),
            None => Some(self.range_at(at, first, byte)),
        }
    }

    // Whether the character at this index closes a bracket: an unescaped `]` that is not the first item.
    fn closes_at(&self, at: usize, is_first: bool) -> bool
        ensures { result ≡ (not is_first && has (is_plain 93) (slice_get (seen self.now) at)) }
    {
        !is_first && self.is_plain_at(at, b']')
    }

    // Moves the window one position forward, or past a class that begins at its first position, if that is flagged.
    fn moved_on(&self, known: Unclosed) -> Unclosed
        requires within { known.at < length (seen self.now) }
        requires knows { Knows (seen self.now) known }
        ensures knows { Knows (seen self.now) result }
        ensures further { known.at < result.at }
    {
        let next = Unclosed {
            at: known.at + 1,
            first: known.second,
            second: known.third,
            third: false,
        };
        if !known.first {
            return next;
        }
        // An item has the same number of characters whichever byte is tested.
        match self.item_at(known.at, 0) {
            Some((_, 0)) => next.with_first(),
            Some((_, 2)) => Unclosed {
                third: true,
                ..next
            },
            Some((_, more)) => Unclosed::none(known.at + 1 + more).with_first(),
            None => Unclosed::none(known.at + 1),
        }
    }

    // Moves the window forward, to this index or past it.
    fn moved_to(&self, known: Unclosed, to: usize) -> Unclosed
        requires within { to ≤ length (seen self.now) }
        requires knows { Knows (seen self.now) known }
        ensures knows { Knows (seen self.now) result }
    {
        let mut known = known;
        while known.at < to {
            if known.is_empty() {
                return Unclosed::none(to);
            }
            known = self.moved_on(known);
        }
        known
    }

    // Flags the first item of the unclosed bracket whose `[` directly precedes this index, unless `]` begins that item.
    fn noted(&self, known: Unclosed, at: usize) -> Unclosed
        requires within { at ≤ length (seen self.now) }
        requires open { bracket_after (drop at (seen self.now)) ≡ None }
        requires knows { Knows (seen self.now) known }
        ensures knows { Knows (seen self.now) result }
    {
        let start = self.items_start(at);
        if self.is_plain_at(start, b']') {
            return known;
        }
        let known = self.moved_to(known, start);
        if known.at == start {
            known.with_first()
        } else {
            Unclosed::none(start).with_first()
        }
    }

    // Returns the index of the first item of the bracket whose `[` directly precedes this index.
    fn items_start(&self, at: usize) -> usize
        requires { at ≤ length (seen self.now) }
        ensures within { result ≤ length (seen self.now) }
        ensures open { bracket_after (drop at (seen self.now)) ≡ None
            → items_after 0 true (drop result (seen self.now)) ≡ None }
    {
        if self.is_plain_at(at, b'!') {
            at + 1
        } else {
            at
        }
    }

    // Whether one of the items from this index on holds the byte, and the number of characters up to and including the
    // closing `]`, or `None` if the bracket is unclosed.
    fn items_hold(&self, start: usize, byte: u8, known: Unclosed) -> Option<(bool, usize)>
        requires within { start ≤ length (seen self.now) }
        requires knows { Knows (seen self.now) known }
        ensures value { result ≡ option_map (λ r. (list_any (item_holds byte) r.0, r.1))
            (items_after 0 true (drop start (seen self.now))) }
        ensures within { IfSome result (λ r. start + r.1 ≤ length (seen self.now)) }
    {
        let mut known = known;
        let mut at = start;
        let mut holds = false;
        let mut is_first = true;
        loop {
            known = self.moved_to(known, at);
            if known.has(at) {
                return None;
            }
            let (is_held, more) = self.item_at(at, byte)?;
            if self.closes_at(at, is_first) {
                return Some((holds, at + 1 - start));
            }
            holds = holds | is_held;
            at = at + 1 + more;
            is_first = false;
        }
    }

    // Whether the bracket whose `[` directly precedes this index holds the byte, and how many more characters it has.
    fn bracket_holds(
        &self,
        at: usize,
        byte: u8,
        slash: Slash,
        known: Unclosed,
    ) -> Option<(bool, usize)>
        requires within { at ≤ length (seen self.now) }
        requires knows { Knows (seen self.now) known }
        ensures value { result ≡ option_map (λ r. (set_holds slash r.0 byte, r.1))
            (bracket_after (drop at (seen self.now))) }
        ensures within { IfSome result (λ r. at + r.1 ≤ length (seen self.now)) }
    {
        let is_free = slash.is_free(byte);
        if self.is_plain_at(at, b'!') {
            let (holds, taken) = self.items_hold(at + 1, byte, known)?;
            Some((is_free & !holds, taken + 1))
        } else {
            let (holds, taken) = self.items_hold(at, byte, known)?;
            Some((is_free & holds, taken))
        }
    }

    // Whether the bracket at this index holds the byte, and the number of its characters after the `[`, or `None` if no
    // bracket begins there. `first` is the character at this index.
    fn bracket_at(
        &self,
        at: usize,
        first: Ch,
        byte: u8,
        slash: Slash,
        known: &mut Unclosed,
    ) -> Option<(bool, usize)>
        requires within { at < length (seen self.now) }
        requires knows { Knows (seen self.now) known.old }
        ensures value { result ≡ (if is_plain 91 first then option_map
            (λ r. (set_holds slash r.0 byte, r.1))
            (bracket_after (drop (at + 1) (seen self.now))) else None) }
        ensures within { IfSome result (λ r. at + r.1 < length (seen self.now)) }
        ensures knows { Knows (seen self.now) known.new }
    {
        if !is_plain(first, b'[') {
            return None;
        }
        *known = self.moved_to(*known, at + 1);
        let bracket = self.bracket_holds(at + 1, byte, slash, *known);
        if bracket.is_none() {
            *known = self.noted(*known, at + 1);
        }
        bracket
    }

    // Whether the part at this index fits this byte alone, and the number of its characters after the first.
    fn part_holds(
        &self,
        at: usize,
        byte: u8,
        slash: Slash,
        known: &mut Unclosed,
    ) -> Option<(bool, usize)>
        requires within { at ≤ length (seen self.now) }
        requires knows { Knows (seen self.now) known.old }
        ensures value { result ≡ option_map (λ r. (part_holds slash r.0 byte, r.1))
            (part_of (drop at (seen self.now))) }
        ensures within { IfSome result (λ r. at + r.1 < length (seen self.now)) }
        ensures knows { Knows (seen self.now) known.new }
    {
        let first = self.get(at)?;
        if is_plain(first, b'*') {
            return Some((false, 0));
        }
        if is_plain(first, b'?') {
            return Some((slash.is_free(byte), 0));
        }
        match self.bracket_at(at, first, byte, slash, known) {
            Some(bracket) => Some(bracket),
            None => Some((byte == first.byte, 0)),
        }
    }

    // Compares the part at an index of the characters with the byte at an index of the text.
    fn step(
        &self,
        text: &Text<'_>,
        slash: Slash,
        at: usize,
        offset: usize,
        known: &mut Unclosed,
    ) -> Step
        requires within { at ≤ length (seen self.now) }
        requires knows { Knows (seen self.now) known.old }
        ensures is { StepIs slash (seen self.now) (text_of text.now) at offset result }
        ensures knows { Knows (seen self.now) known.new }
    {
        if self.is_plain_at(at, b'*') {
            return Step::Starred;
        }
        match text.get(offset) {
            Some(byte) => {
                let Some((holds, more)) = self.part_holds(at, byte, slash, known) else {
                    return Step::Stuck;
                };
                if holds {
                    Step::Taken(more)
                } else {
                    Step::Stuck
                }
            }
            None => {
                if at < self.len() {
                    Step::Stuck
                } else {
                    Step::Finished
                }
            }
        }
    }

    // Returns the same as `literal_start`, or less, for characters and a text that are read as they stand.
    fn exact_start(&self, text: &Text<'_>, slash: Slash) -> Option<usize>
        requires exact { self.now.reading ≡ Exact }
        requires plain { text.now.lower ≡ false }
        ensures within { IfSome result (λ n. n ≤ length (seen self.now)) }
        ensures rest { IfSome result (λ n. fits (parts (seen self.now)) (text_of text.now) slash
            ≡ fits (parts (drop n (seen self.now))) (drop n (text_of text.now)) slash) }
        ensures differs { result ≡ None
            → fits (parts (seen self.now)) (text_of text.now) slash ≡ false }
    {
        let count = self.chars.len().min(text.bytes.len());
        for at in 0..count {
            let ch = self.chars[at];
            if is_special(ch) {
                return Some(at);
            }
            if text.bytes[at] != ch.byte {
                return None;
            }
        }
        Some(count)
    }

    // Returns the number of characters before the first special one, or `None` if they differ from the first bytes of
    // the text, so that the pattern does not fit: most patterns are rejected here.
    fn literal_start(&self, text: &Text<'_>, slash: Slash) -> Option<usize>
        ensures within { IfSome result (λ n. n ≤ length (seen self.now)) }
        ensures rest { IfSome result (λ n. fits (parts (seen self.now)) (text_of text.now) slash
            ≡ fits (parts (drop n (seen self.now))) (drop n (text_of text.now)) slash) }
        ensures differs { result ≡ None
            → fits (parts (seen self.now)) (text_of text.now) slash ≡ false }
    {
        let mut at = match self.reading {
            Reading::Exact if !text.lower => self.exact_start(text, slash)?,
            _ => 0,
        };
        while let Some(ch) = self.get(at) {
            if is_special(ch) {
                return Some(at);
            }
            let byte = text.get(at)?;
            if byte != ch.byte {
                return None;
            }
            at += 1;
        }
        Some(at)
    }

    // Whether the whole pattern fits the whole text. If a part does not fit, the last star fits one more byte: an
    // earlier star could only move the parts between the two to a later position, from which no other text is reached.
    pub(crate) fn fits(&self, text: &Text<'_>, slash: Slash) -> bool
        ensures { result ≡ fits (parts (seen self.now)) (text_of text.now) slash }
    {
        let Some(literal) = self.literal_start(text, slash) else {
            return false;
        };
        let mut at = literal;
        let mut offset = literal;
        let mut retry: Option<(usize, usize)> = None;
        let mut known = Unclosed::none(0);
        loop {
            match self.step(text, slash, at, offset, &mut known) {
                Step::Starred => {
                    at += 1;
                    retry = Some((at, offset));
                }
                Step::Taken(more) => {
                    at = at + 1 + more;
                    offset += 1;
                }
                Step::Finished => return true,
                Step::Stuck => {
                    let Some((start, from)) = retry else {
                        return false;
                    };
                    if !text.is_free_at(from, slash) {
                        return false;
                    }
                    at = start;
                    offset = from + 1;
                    retry = Some((start, from + 1));
                }
            }
        }
    }
}
