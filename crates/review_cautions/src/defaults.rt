//! Cautions on the parameters of `Defaults` lines.
ghost use Rattle.std.specs.Prelude.{◌≡◌, ◌++◌, ◌∷◌, [], OnOk, IfOk, not, if◌then◌else◌};
ghost use Rattle.std.specs.List.{list_all};
ghost use Rattle.sudo_grammar.specs.Words.{bytes_of};
ghost use Rattle.review_cautions.specs.Parameters as spec;
ghost use Rattle.review_cautions.specs.Cautions as cautions;

use crate::bytes::{is_text, spells};
use crate::{Caution, CautionClass};
use std::alloc::{AllocError, Global};
use sudo_policy::{Entry, EntryBody, Operator, Parameter};
use sudo_text::{Ch, Place, Seq, TokenKind};

// Whether a name is that of a flag that is on by default.
fn is_on_flag(name: &[u8]) -> bool
    ensures { result ≡ spec.is_on_flag name.now }
{
    is_text(name, b"authenticate") || is_text(name, b"root_sudo") || is_text(name, b"use_netgroups")
}

// Whether a name is that of a flag that is off by default.
fn is_off_flag(name: &[u8]) -> bool
    ensures { result ≡ spec.is_off_flag name.now }
{
    is_text(name, b"targetpw")
        || is_text(name, b"rootpw")
        || is_text(name, b"runaspw")
        || is_text(name, b"match_group_by_gid")
        || is_text(name, b"setenv")
        || is_text(name, b"noexec")
        || is_text(name, b"intercept")
        || is_text(name, b"requiretty")
        || is_text(name, b"runas_allow_unknown_id")
        || is_text(name, b"runas_check_shell")
        || is_text(name, b"fast_glob")
        || is_text(name, b"netgroup_tuple")
}

// Whether a name is that of the flag that is on or off by default, as sudo was built.
fn is_either_flag(name: &[u8]) -> bool
    ensures { result ≡ spec.is_either_flag name.now }
{
    is_text(name, b"fqdn")
}

// Whether a name is that of a parameter with a value.
fn has_value(name: &[u8]) -> bool
    ensures { result ≡ spec.has_value name.now }
{
    is_text(name, b"runas_default")
        || is_text(name, b"exempt_group")
        || is_text(name, b"group_plugin")
        || is_text(name, b"sudoers_locale")
        || is_text(name, b"runchroot")
}

// Whether turning a parameter on or off decides.
fn switch_decides(on: bool, name: &[u8]) -> bool
    ensures { result ≡ spec.switch_decides on name.now }
{
    if on {
        is_off_flag(name) || is_either_flag(name)
    } else {
        is_on_flag(name) || is_either_flag(name)
    }
}

// Whether no escape yields one of the characters.
fn are_plain(chars: &[Ch]) -> bool
    ensures { result ≡ list_all (λ c. not c.escaped) chars.now }
{
    chars.iter().all(|ch| !ch.escaped)
}

// Whether a token is a word without an escape, of this text.
fn is_plainly(text: &[u8], token: &TokenKind) -> bool
    ensures { result ≡ spec.is_plainly text.now token.now }
{
    match token {
        TokenKind::Word { chars, .. } => {
            let chars = chars.as_slice();
            spells(chars, text) && are_plain(chars)
        }
        _ => false,
    }
}

// Whether a value is the one that a parameter has by default.
fn is_default_value(name: &[u8], value: &TokenKind) -> bool
    ensures { result ≡ spec.is_default_value name.now value.now }
{
    (is_text(name, b"runas_default") && is_plainly(b"root", value))
        || (is_text(name, b"sudoers_locale") && is_plainly(b"C", value))
}

// Whether an assignment to a parameter decides.
fn assignment_decides(name: &[u8], operator: Operator, value: &TokenKind) -> bool
    ensures { result ≡ spec.assignment_decides name.now operator value.now }
{
    has_value(name) && matches!(operator, Operator::Set) && !is_default_value(name, value)
}

// Copies the bytes of characters.
fn bytes(alloc: Global, chars: &[Ch]) -> Result<Seq<u8>, AllocError>
    ensures { IfOk result (λ bytes. bytes ≡ bytes_of chars.now) }
{
    let bytes: Vec<u8> = chars.iter().map(|ch| ch.byte).collect(alloc)?;
    Ok(Seq::from_vec(bytes))
}

// Copies the bytes of a word, and none of another token.
fn word_bytes(alloc: Global, token: &TokenKind) -> Result<Seq<u8>, AllocError>
    ensures { IfOk result (λ bytes. bytes ≡ spec.word_bytes token.now) }
{
    match token {
        TokenKind::Word { chars, .. } => bytes(alloc, chars.as_slice()),
        _ => Ok(Seq::new(alloc)),
    }
}

/// Copies the name of a parameter.
pub(crate) fn name_of(alloc: Global, parameter: &Parameter) -> Result<Seq<u8>, AllocError>
    ensures { IfOk result (λ name. name ≡ spec.name_of parameter.now) }
{
    match parameter {
        Parameter::Switch { name, .. } => word_bytes(alloc, &name.kind),
        Parameter::Assign { name, .. } => word_bytes(alloc, &name.kind),
    }
}

// Whether a parameter of this name decides.
fn decides(parameter: &Parameter, name: &[u8]) -> bool
    requires { name.now ≡ spec.name_of parameter.now }
    ensures { result ≡ spec.decides parameter.now }
{
    match parameter {
        Parameter::Switch { bangs, .. } => switch_decides(*bangs % 2 != 1, name),
        Parameter::Assign {
            operator,
            value,
            ..
        } => assignment_decides(name, *operator, &value.kind),
    }
}

// Appends the caution on a parameter of a line, if it decides.
fn push_parameter(
    alloc: Global,
    place: Place,
    parameter: &Parameter,
    found: &mut Vec<Caution>,
) -> Result<(), AllocError>
    ensures { OnOk result (found.new.items ≡ found.old.items
        ++ (if spec.decides parameter.now then cautions.parameter_caution place parameter.now ∷ []
        else [])) }
{
    let subject = name_of(alloc, parameter)?;
    if decides(parameter, subject.as_slice()) {
        found.push(Caution {
            class: CautionClass::Defaults,
            place,
            subject,
        })?;
    }
    Ok(())
}

// Appends the cautions on the parameters of a line.
fn push_parameters(
    alloc: Global,
    place: Place,
    parameters: &[Parameter],
    found: &mut Vec<Caution>,
) -> Result<(), AllocError>
    ensures { OnOk result (found.new.items ≡ found.old.items
        ++ cautions.parameter_cautions place parameters.now) }
{
    for parameter in parameters {
        push_parameter(alloc, place, parameter, found)?;
    }
    Ok(())
}

// Appends the cautions on an entry, if it is a `Defaults` line.
fn push_entry(alloc: Global, entry: &Entry, found: &mut Vec<Caution>) -> Result<(), AllocError>
    ensures { OnOk result (found.new.items ≡ found.old.items
        ++ cautions.body_cautions entry.now.place entry.now.body) }
{
    match &entry.body {
        EntryBody::Defaults { parameters, .. } => {
            push_parameters(alloc, entry.place, parameters.as_slice(), found)
        }
        _ => Ok(()),
    }
}

/// Appends the cautions on the `Defaults` lines among entries.
pub(crate) fn push_defaults(
    alloc: Global,
    entries: &[Entry],
    found: &mut Vec<Caution>,
) -> Result<(), AllocError>
    ensures { OnOk result (found.new.items ≡ found.old.items
        ++ cautions.defaults_cautions entries.now) }
{
    for entry in entries {
        push_entry(alloc, entry, found)?;
    }
    Ok(())
}
