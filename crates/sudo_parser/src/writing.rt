//! The text of the members of a written-out alias.
ghost use Rattle.std.specs.Prelude.{◌≡◌, ◌++◌, ◌∷◌, ◌<◌, ◌||◌, ◌^◌, [], OnOk, IfOk, codes, decimal, true};
ghost use Rattle.std.specs.Str.{bytes_eq};
ghost use Rattle.sudo_grammar.specs.Words.{is_name};
ghost use Rattle.sudo_parser.specs.Texts.{hex_digit, needs_backslash, is_ascii_control, byte_text, name_text};
ghost use Rattle.sudo_parser.specs.Texts.{first_text, user_text, ch_text, chars_text, quoted_ch_text, host_text};
ghost use Rattle.sudo_parser.specs.Texts.{address_text, command_text, atom_text, signed_text};

use crate::words::{ALL, is_alias_name};
use itoa::Buffer;
use std::alloc::{AllocError, Global};
use sudo_grammar::{Atom, Signed};
use sudo_text::{Ch, Seq};

// Returns a hexadecimal digit, in lower case.
fn hex(digit: u8) -> u8
    requires { digit < 16 }
    ensures { result ≡ hex_digit digit }
{
    if digit < 10 {
        b'0' + digit
    } else {
        b'a' - 10 + digit
    }
}

// Whether a byte is a space or a byte with a special meaning between words.
fn has_meaning(b: u8) -> bool
    ensures { result ≡ needs_backslash b }
{
    matches!(
        b,
        b' ' | b'!' | b'=' | b':' | b',' | b'(' | b')' | b'\\' | b'"' | b'#'
    )
}

// Appends one byte of a name.
fn push_byte(out: &mut Vec<u8>, b: u8) -> Result<(), AllocError>
    ensures { OnOk result (out.new.items ≡ out.old.items ++ byte_text b) }
{
    if has_meaning(b) {
        out.extend_from_slice(&[b'\\', b])
    } else if b < 32 || b == 127 {
        out.extend_from_slice(&[b'\\', b'x', hex(b / 16), hex(b % 16)])
    } else {
        out.extend_from_slice(&[b])
    }
}

// Appends a name.
fn push_name(out: &mut Vec<u8>, name: &[u8]) -> Result<(), AllocError>
    ensures { OnOk result (out.new.items ≡ out.old.items ++ name_text name.now) }
{
    for b in name {
        push_byte(out, *b)?;
    }
    Ok(())
}

// Appends the name of a user: in double quotes if it would be read as `ALL` or as an alias, and otherwise with an
// escape before a first percent sign or plus.
fn push_user(out: &mut Vec<u8>, name: &[u8]) -> Result<(), AllocError>
    ensures { OnOk result (out.new.items ≡ out.old.items ++ user_text name.now) }
{
    match name {
        [] => Ok(()),
        [first, rest @ ..] => {
            if is_alias_name(name) || name == ALL {
                out.extend_from_slice(b"\"")?;
                out.extend_from_slice(name)?;
                return out.extend_from_slice(b"\"");
            }
            if *first == b'%' || *first == b'+' {
                out.extend_from_slice(&[b'\\', *first])?;
            } else {
                push_byte(out, *first)?;
            }
            push_name(out, rest)
        }
    }
}

// Appends the characters of a pattern.
fn push_chars(out: &mut Vec<u8>, chars: &[Ch]) -> Result<(), AllocError>
    ensures { OnOk result (out.new.items ≡ out.old.items ++ chars_text chars.now) }
{
    for c in chars {
        if c.escaped {
            out.extend_from_slice(&[b'\\', c.byte])?;
        } else {
            out.extend_from_slice(&[c.byte])?;
        }
    }
    Ok(())
}

// Appends characters between double quotes.
fn push_quoted(out: &mut Vec<u8>, chars: &[Ch]) -> Result<(), AllocError>
    ensures { OnOk result (out.new.items ≡ out.old.items ++ host_text chars.now true) }
{
    out.extend_from_slice(b"\"")?;
    for c in chars {
        if c.byte == b'"' || c.byte == b'\\' {
            out.extend_from_slice(&[b'\\', c.byte])?;
        } else {
            out.extend_from_slice(&[c.byte])?;
        }
    }
    out.extend_from_slice(b"\"")
}

// Appends a number in decimal.
fn push_number(out: &mut Vec<u8>, n: u32) -> Result<(), AllocError>
    ensures { OnOk result (out.new.items ≡ out.old.items ++ decimal n) }
{
    let mut buffer = Buffer::new();
    out.extend_from_slice(buffer.format(n).as_bytes())
}

// Appends an address as four numbers with dots between them.
fn push_address(out: &mut Vec<u8>, address: u32) -> Result<(), AllocError>
    ensures { OnOk result (out.new.items ≡ out.old.items ++ address_text address) }
{
    push_number(out, address / 16_777_216)?;
    out.extend_from_slice(b".")?;
    push_number(out, address / 65_536 % 256)?;
    out.extend_from_slice(b".")?;
    push_number(out, address / 256 % 256)?;
    out.extend_from_slice(b".")?;
    push_number(out, address % 256)
}

// Appends a command: its path, and its arguments after a space.
fn push_command(out: &mut Vec<u8>, path: &[Ch], args: &Option<Seq<Ch>>) -> Result<(), AllocError>
    ensures { OnOk result (out.new.items ≡ out.old.items ++ command_text path.now args.now) }
{
    push_chars(out, path)?;
    match args {
        None => Ok(()),
        Some(args) => {
            out.extend_from_slice(b" ")?;
            push_chars(out, args)
        }
    }
}

fn push_atom(out: &mut Vec<u8>, atom: &Atom) -> Result<(), AllocError>
    ensures { OnOk result (out.new.items ≡ out.old.items ++ atom_text atom.now) }
{
    match atom {
        Atom::All => out.extend_from_slice(ALL),
        Atom::Alias(name) => push_name(out, name),
        Atom::Name(name) => push_user(out, name),
        Atom::Uid(id) => {
            out.extend_from_slice(b"#")?;
            push_number(out, *id)
        }
        Atom::Group(name) => {
            out.extend_from_slice(b"%")?;
            push_name(out, name)
        }
        Atom::Gid(id) => {
            out.extend_from_slice(b"%#")?;
            push_number(out, *id)
        }
        Atom::Host { chars, quoted } => {
            if *quoted {
                push_quoted(out, chars)
            } else {
                push_chars(out, chars)
            }
        }
        Atom::Address(address) => push_address(out, *address),
        Atom::Net { addr, mask } => {
            push_address(out, *addr)?;
            out.extend_from_slice(b"/")?;
            push_address(out, *mask)
        }
        Atom::Command { path, args } => push_command(out, path, args),
    }
}

/// Returns the text of a written-out member in the syntax of sudoers(5): `!` if it is negated, and its atom with the
/// escapes that preserve each byte.
pub fn member_text(alloc: Global, member: &Signed) -> Result<Vec<u8>, AllocError>
    ensures { IfOk result (λ text. text.items ≡ signed_text member.now) }
{
    let mut out = Vec::new(alloc);
    if member.negated {
        out.extend_from_slice(b"!")?;
    }
    push_atom(&mut out, &member.atom)?;
    Ok(out)
}
