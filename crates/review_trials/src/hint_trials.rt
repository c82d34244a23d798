//! The hints at the faults of policies of one file.
//!
//! Each line of a table has a policy, with `;` for the end of each line of it, ` =>`, and the hint, if there is one.

use review_hints::hint;
use std::alloc::{AllocError, Global};
use std::test::Fail;
use sudo_grammar::ParseFault;
use sudo_load::{LoadFault, load};
use sudo_text::Seq;

// Returns the text of a policy, with line feeds in place of `;`.
fn policy(alloc: Global, shown: &str) -> Result<Seq<u8>, AllocError> {
    let mut text = Seq::new(alloc);
    for byte in shown.as_bytes() {
        text.push(if *byte == b';' { b'\n' } else { *byte })?;
    }
    Ok(text)
}

/// Returns the hint at the fault of a policy, and nothing if there is no hint or no fault.
pub(crate) fn hint_at(alloc: Global, text: &[u8]) -> Result<Seq<u8>, AllocError> {
    match load(alloc, b"p", text, &[]) {
        Err((_, LoadFault::Parse(ParseFault::Memory))) | Err((_, LoadFault::Memory)) => Err(
            AllocError,
        ),
        Err((_, LoadFault::Parse(fault))) => {
            let found = hint(alloc, text, &fault)?;
            Ok(found.unwrap_or(Seq::new(alloc)))
        }
        _ => Ok(Seq::new(alloc)),
    }
}

// Whether the policy of a line of a table has the hint of the line.
fn is_explained(alloc: Global, row: &str) -> Result<bool, AllocError> {
    let Some((shown, wanted)) = row.split_once(" =>") else {
        return Ok(false);
    };
    let text = policy(alloc, shown)?;
    let hint = hint_at(alloc, text.as_slice())?;
    Ok(hint.as_slice() == wanted.trim_start().as_bytes())
}

// Whether each policy of a table has its hint.
fn are_explained(alloc: Global, table: &str) -> Result<bool, AllocError> {
    for row in table.lines() {
        if !is_explained(alloc, row)? {
            return Ok(false);
        }
    }
    Ok(true)
}

#[test]
fn misspelled_words_are_explained(rt: HostRuntime) -> Result<(), Fail> {
    let table = "\
User_alias A = bob => did you mean User_Alias?
USER_ALIAS A = bob => did you mean User_Alias?
# a;  UserAlias A = \\; bob => did you mean User_Alias?
Runas_Aliases A = bob => did you mean Runas_Alias?
Host_alias A = bob => did you mean Host_Alias?
Cmnd_Alais A = /b, c => did you mean Cmnd_Alias?
Default env_reset => did you mean Defaults?
Default:alice env_reset => did you mean Defaults?
defaults !env_reset => did you mean Defaults?
@includ /etc/x => did you mean @include?
@Include /etc/x => did you mean @include?
@includedirs /etc/x => did you mean @includedir?
a ALL = NOPASWD: /bin/ls => did you mean NOPASSWD?
a ALL = (root) NOPASWD:ALL => did you mean NOPASSWD?
a ALL=(ALL:ALL) NOPASWD : ALL; => did you mean NOPASSWD?
a ALL = \\;  NOPASWD: /bin/ls => did you mean NOPASSWD?
a ALL = nopasswd: /bin/ls => did you mean NOPASSWD?
a ALL = /b, NOPASSWD: NOEXECC: /c => did you mean NOEXEC?
a ALL = LOGINPUT: /b => did you mean LOG_INPUT?";
    assert!(rt; are_explained(rt.alloc(), table)?);
    Ok(())
}

#[test]
fn addresses_and_marks_are_explained(rt: HostRuntime) -> Result<(), Fail> {
    let table = "\
a fd00::2 = ALL => IPv6 addresses are not supported
a fe80::/10 = ALL => IPv6 addresses are not supported
a b, !fd00:0:0:0:0:0:0:1 = ALL => IPv6 addresses are not supported
a ::1 = ALL => IPv6 addresses are not supported
a ALL = /b : ::1 = ALL => IPv6 addresses are not supported
a \\; fd00::2 = ALL => IPv6 addresses are not supported
Host_Alias H = fd00::1 => IPv6 addresses are not supported
Host_Alias H = b, fd00:AB:0::1/64 => IPv6 addresses are not supported
Host_Alias H = fe80::1%eth0 => IPv6 addresses are not supported
Defaults@fd00::1 env_reset => IPv6 addresses are not supported
\u{feff}Defaults env_reset => the file begins with a byte order mark
\u{feff}# a;b ALL = ALL => the file begins with a byte order mark";
    assert!(rt; are_explained(rt.alloc(), table)?);
    Ok(())
}

#[test]
fn other_faults_have_no_hint(rt: HostRuntime) -> Result<(), Fail> {
    let table = "\
a ALL =>
a ALL = NOPASSWD /bin/ls =>
a ALL = MAKE : /bin/ls =>
a ALL = nopasswd /bin/ls =>
Cmnd_Alias A = nopasswd: /bin/ls =>
Cmnd_Alias A = NOPASWD: /bin/ls =>
Host_Alias A = MAL : B c =>
a ALL = MAL : B c = ALL =>
a ALL = /bin/ping fd00::2 =>
a ALL = /bin/ping ::1 =>
a ALL = (fd00::1) ALL =>
Cmnd_Alias A = /bin/ping fd00::1 =>
Host_Alias H = 00:11:22:33:44:55 =>
Host_Alias H = a::b::c =>
fd00::1 ALL = ALL =>
User_Alias a = bob =>
Defaults env_reset, =>
@include =>
#includ /etc/x;a =>
Cmnd_alias A = /bin/ls =>
\u{feff}a ALL = ALL;b =>
\u{feff}a ALL = ALL =>";
    assert!(rt; are_explained(rt.alloc(), table)?);
    Ok(())
}
