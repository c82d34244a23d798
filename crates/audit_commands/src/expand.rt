//! `expand`: writes an alias out.
ghost use Rattle.std.specs.Prelude.{◌≡◌, ◌≤◌, ◌++◌, flat_map, IfErr, IfOk, OnOk};
ghost use Rattle.run_base.specs.Endings.{writer_states as sent, Ends};
ghost use Rattle.audit_commands.specs.Expanding.{member_line, AreAliasLines, IsExpanded, IsNotExpanded};
ghost use Rattle.audit_commands.specs.Body.Expanding.{IsNotExpandedOf};
ghost use Rattle.audit_commands.specs.FaultLines.{expand_notices};

use crate::fault::{ExpansionFault, PROGRAM};
use audit_files::Sink;
use run_base::{Files, PolicyFault, RunOutput, checked_policy, end_run};
use std::alloc::{AllocError, Global};
use sudo_grammar::{Kind, Signed};
use sudo_parser::member_text;
use sudo_policy::{Checked, ExpandFault, expand};
use sudo_text::Seq;

// Returns a line for each member.
fn member_lines(alloc: Global, members: &[Signed]) -> Result<Vec<u8>, AllocError>
    ensures { IfOk result (λ lines. lines.items ≡ flat_map member_line members.now) }
{
    let mut lines = Vec::new(alloc);
    for member in members {
        push_member(alloc, &mut lines, member)?;
    }
    Ok(lines)
}

// Appends the line of a member.
fn push_member(alloc: Global, lines: &mut Vec<u8>, member: &Signed) -> Result<(), AllocError>
    ensures { OnOk result (lines.new.items ≡ lines.old.items ++ member_line member.now) }
{
    let text = member_text(alloc, member)?;
    lines.extend_from_slice(text.as_slice())?;
    lines.push(b'\n')?;
    Ok(())
}

// Returns the lines of an alias of a checked policy. Returns `NoSuchAlias` if the policy has no
// such alias.
fn alias_lines(
    alloc: Global,
    checked: &Checked,
    kind: Kind,
    name: &[u8],
) -> Result<Vec<u8>, ExpansionFault>
    ensures lines { IfOk result (λ lines. AreAliasLines checked.now kind name.now lines.items) }
    ensures fault { IfErr result (IsNotExpandedOf checked.now kind name.now) }
{
    match expand(alloc, checked, kind, name) {
        Ok(members) => Ok(member_lines(alloc, members.as_slice())?),
        Err(ExpandFault::NoSuchAlias) => {
            Err(ExpansionFault::NoSuchAlias(Seq::from_slice(alloc, name)?))
        }
        Err(ExpandFault::Memory) => Err(ExpansionFault::Memory),
    }
}

// Returns the text and the status of an expansion of an alias of the policy of a file.
fn expand_output<F: Files>(
    alloc: Global,
    path: &[u8],
    files: &mut F,
    kind: Kind,
    name: &[u8],
) -> Result<RunOutput, ExpansionFault>
    ensures printed { IfOk result (λ p. IsExpanded
        (F.held files.old) path.now kind name.now p.text.items p.status) }
    ensures fault { IfErr result (IsNotExpanded (F.held files.old) path.now kind name.now) }
{
    let checked = match checked_policy(alloc, path, files) {
        Ok(checked) => checked,
        Err(PolicyFault::Memory) => return Err(ExpansionFault::Memory),
        Err(fault) => return Err(ExpansionFault::Policy(fault)),
    };
    match alias_lines(alloc, &checked, kind, name) {
        Ok(text) => Ok(RunOutput { text, status: 0 }),
        Err(fault) => Err(fault),
    }
}

/// Prints the members of an alias on `out`, one per line, in order, each with its sign.
///
/// Returns the exit status: 0; 1 if the policy is refused, has errors or has no such alias; 4 if
/// reading, writing or memory failed. If the check of the policy finds errors, prints them on `err`, as
/// `check` prints them; prints any other fault as one line on `err`. Then nothing was printed on
/// `out`, except by a write that failed part way.
pub fn expand_run<F: Files, O: Sink, E: Sink>(
    alloc: Global,
    path: &[u8],
    files: &mut F,
    kind: Kind,
    name: &[u8],
    out: &mut O,
    err: &mut E,
) -> u8
    ensures most { result ≤ 4 }
    ensures ends { Ends expand_notices (IsExpanded (F.held files.old) path.now kind name.now)
        (IsNotExpanded (F.held files.old) path.now kind name.now) result
        (sent O.taken O.stalled_writes out.old out.new)
        (sent E.taken E.stalled_writes err.old err.new) }
{
    let ended = expand_output(alloc, path, files, kind, name);
    end_run(alloc, PROGRAM, ended, out, err)
}
