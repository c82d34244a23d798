//! What a line by itself is read as.
ghost use Rattle.std.specs.Prelude.{◌≡◌, ◌≢◌, ◌≤◌, length, Decides, IfOk, MatchOption, None};
ghost use Rattle.sudo_text.specs.declared.line.Place.{Place as APlace};
ghost use Rattle.sudo_grammar.specs.declared.policy.EntryBody.{EntryBody as AnEntry};
ghost use Rattle.sudo_grammar.specs.declared.fault.Unsupported.{Unsupported as AForm};
ghost use Rattle.review_texts.specs.declared.mask.Form.{Form as TheForm};
ghost use Rattle.review_texts.specs.Body.Faults.{IsFormOf};
ghost use Rattle.review_texts.specs.Places.{IsBadNumberAt, IsEntryIn, IsRefusedAs, IsRefusedFor};
ghost use Rattle.review_texts.specs.MaskedTexts.{HasEntries, IsRead};

use crate::Form;
use std::alloc::{AllocError, Global};
use std::slice;
use sudo_grammar::{EntryBody, ParseFault, Unsupported};
use sudo_parser::parse;
use sudo_text::{Line, TEXT_LIMIT};

// Returns `AllocError` for the fault of a failed allocation, and nothing for any other.
fn unless_memory(fault: ParseFault) -> Result<(), AllocError>
    ensures { IfOk result (λ _. fault ≢ ParseFault.Memory) }
{
    match fault {
        ParseFault::Memory => Err(AllocError),
        _ => Ok(()),
    }
}

// Returns the form that a fault names as unsupported, if it does.
fn named_form(fault: &ParseFault) -> Option<Unsupported>
    ensures { MatchOption result
        ((place : APlace) (form : AForm) → fault.now ≢ ParseFault.Unsupported place form)
        (λ form. (place : APlace) × (fault.now ≡ ParseFault.Unsupported place form)) }
{
    match fault {
        ParseFault::Unsupported { what, .. } => Some(*what),
        _ => None,
    }
}

/// Returns the entry of which a line by itself is a written form, if there is one. Returns `AllocError` if allocation fails.
pub(crate) fn entry_in(alloc: Global, line: &Line) -> Result<Option<EntryBody>, AllocError>
    requires { length line.now.text ≤ TEXT_LIMIT }
    ensures { IfOk result (λ found. MatchOption found
        ((entry : AnEntry) → IsEntryIn line.now entry → ⊥)
        (λ entry. IsEntryIn line.now entry)) }
{
    match parse(alloc, slice::from_ref(line)) {
        Ok(mut entries) => match entries.pop() {
            Some(entry) => Ok(Some(entry.body)),
            None => Ok(None),
        },
        Err(fault) => {
            unless_memory(fault)?;
            Ok(None)
        }
    }
}

/// Whether a line by itself is read. Returns `AllocError` if allocation fails.
pub(crate) fn has_entries(alloc: Global, line: &Line) -> Result<bool, AllocError>
    requires { length line.now.text ≤ TEXT_LIMIT }
    ensures { IfOk result (λ read. Decides read (HasEntries line.now)) }
{
    let fault = match parse(alloc, slice::from_ref(line)) {
        Ok(_) => return Ok(true),
        Err(fault) => fault,
    };
    unless_memory(fault)?;
    Ok(false)
}

/// Whether a line, which may be longer than one of a file, is read by itself. Returns `AllocError` if allocation fails.
pub(crate) fn is_read(alloc: Global, line: &Line) -> Result<bool, AllocError>
    ensures { IfOk result (λ read. Decides read (IsRead line.now)) }
{
    if line.text.len() > TEXT_LIMIT {
        return Ok(false);
    }
    has_entries(alloc, line)
}

// Returns what a fault names that can be masked, if it does.
fn form_in(fault: &ParseFault) -> Option<Form>
    ensures { MatchOption result
        ((form : TheForm) → IsFormOf fault.now form → ⊥) (λ form. IsFormOf fault.now form) }
{
    match fault {
        ParseFault::Unsupported { what, .. } => Some(Form::Named(*what)),
        ParseFault::Syntax { .. } => Some(Form::Ipv6),
        _ => None,
    }
}

/// Returns what a line by itself is refused for that can be masked, if it is. Returns `AllocError` if allocation fails.
pub(crate) fn refused_as(alloc: Global, line: &Line) -> Result<Option<Form>, AllocError>
    requires { length line.now.text ≤ TEXT_LIMIT }
    ensures { IfOk result (λ found. MatchOption found
        ((form : TheForm) → IsRefusedAs line.now form → ⊥)
        (λ form. IsRefusedAs line.now form)) }
{
    let fault = match parse(alloc, slice::from_ref(line)) {
        Ok(_) => return Ok(None),
        Err(fault) => fault,
    };
    unless_memory(fault)?;
    Ok(form_in(&fault))
}

/// Returns the form for which a line by itself is refused by name, if it is. Returns `AllocError` if allocation fails.
pub(crate) fn refused_form(alloc: Global, line: &Line) -> Result<Option<Unsupported>, AllocError>
    requires { length line.now.text ≤ TEXT_LIMIT }
    ensures { IfOk result (λ found. MatchOption found
        ((form : AForm) → IsRefusedFor line.now form → ⊥)
        (λ form. IsRefusedFor line.now form)) }
{
    let fault = match parse(alloc, slice::from_ref(line)) {
        Ok(_) => return Ok(None),
        Err(fault) => fault,
    };
    unless_memory(fault)?;
    Ok(named_form(&fault))
}

// Whether a fault is a number at a column.
fn is_number_at(fault: &ParseFault, column: usize) -> bool
    ensures { Decides result ((place : APlace)
        × (fault.now ≡ ParseFault.BadNumber place column)) }
{
    match fault {
        ParseFault::BadNumber { col, .. } => *col as usize == column,
        _ => false,
    }
}

/// Whether a line by itself is refused for a number at an offset. Returns `AllocError` if allocation fails.
pub(crate) fn is_bad_number(alloc: Global, line: &Line, at: usize) -> Result<bool, AllocError>
    requires fits { length line.now.text ≤ TEXT_LIMIT }
    requires within { at ≤ TEXT_LIMIT }
    ensures { IfOk result (λ is. Decides is (IsBadNumberAt line.now at)) }
{
    let fault = match parse(alloc, slice::from_ref(line)) {
        Ok(_) => return Ok(false),
        Err(fault) => fault,
    };
    unless_memory(fault)?;
    Ok(is_number_at(&fault, at + 1))
}
