//! `expand`: writes an alias out.
ghost use Rattle.std.specs.Prelude.{◌≡◌, ◌≤◌, ◌++◌, Err, flat_map, IfErr, IfOk, None, OnOk};
ghost use Rattle.run_base.specs.Endings.{writer_states as sent};
ghost use Rattle.audit_commands.specs.Expanding.{IsNotExpanded};
ghost use Rattle.sudo_parser.specs.Texts.{atom_text};
ghost use Rattle.review_commands.specs.Body.Expanding.{IsNotShownOf};
ghost use Rattle.review_commands.specs.Endings.{EndsNoted, IsNotedTable};
ghost use Rattle.review_commands.specs.Expanding.{AreShownLines, expand_notices, IsShown, line_by, note_line};
ghost use Rattle.review_commands.specs.Expanding.{shown_line, shown_text};
ghost use Rattle.review_grants.specs.GrantRows.{sign_text};

use crate::ending::{NotedOutput, end_noted};
use crate::program_name::PROGRAM;
use crate::report::notice_on;
use audit_commands::ExpansionFault;
use audit_files::Sink;
use review_texts::{Note, as_written, note_in};
use run_base::{Files, PolicyFault, RunOutput, checked_files, push};
use std::alloc::{AllocError, Global};
use std::mem;
use sudo_grammar::{Atom, Kind, Signed};
use sudo_parser::member_text;
use sudo_policy::{Checked, ExpandFault, expand};
use sudo_text::Seq;

// Returns the text of a member without its sign as a policy has it.
fn shown<'a>(atom: &Atom, text: &'a [u8]) -> &'a [u8]
    requires { text.now ≡ atom_text atom.now }
    ensures { result.now ≡ shown_text atom.now }
{
    match atom {
        Atom::Command { .. } => as_written(text),
        _ => text,
    }
}

// Appends the text of a member with its sign, as a policy has it.
fn push_text(alloc: Global, lines: &mut Vec<u8>, member: &Signed) -> Result<(), AllocError>
    ensures { OnOk result (lines.new.items ≡ lines.old.items
        ++ (sign_text member.now.negated ++ shown_text member.now.atom)) }
{
    let own = member_text(alloc, member)?;
    if member.negated {
        push(lines, b"!")?;
        return push(lines, shown(&member.atom, &own[1..]));
    }
    push(lines, shown(&member.atom, own.as_slice()))
}

// Appends the line of a note.
fn push_note(lines: &mut Vec<u8>, note: Note) -> Result<(), AllocError>
    ensures { OnOk result (lines.new.items ≡ lines.old.items ++ note_line note) }
{
    push(lines, b"# ")?;
    push(lines, note.name())?;
    push(lines, b"\n")
}

// Appends the line of a member that stands for no note.
fn push_plain(alloc: Global, lines: &mut Vec<u8>, member: &Signed) -> Result<(), AllocError>
    ensures { OnOk result (lines.new.items ≡ lines.old.items ++ line_by None member.now) }
{
    push_text(alloc, lines, member)?;
    push(lines, b"\n")
}

// Appends the line of a member.
fn push_member(alloc: Global, lines: &mut Vec<u8>, member: &Signed) -> Result<(), AllocError>
    ensures { OnOk result (lines.new.items ≡ lines.old.items ++ shown_line member.now) }
{
    match note_in(&member.atom) {
        Some(note) => push_note(lines, note),
        None => push_plain(alloc, lines, member),
    }
}

// Returns a line for each member.
fn member_lines(alloc: Global, members: &[Signed]) -> Result<Vec<u8>, AllocError>
    ensures { IfOk result (λ lines. lines.items ≡ flat_map shown_line members.now) }
{
    let mut lines = Vec::new(alloc);
    for member in members {
        push_member(alloc, &mut lines, member)?;
    }
    Ok(lines)
}

// Returns the lines of an alias of a checked policy. Returns `NoSuchAlias` if the policy has no such alias, and `Memory` if
// allocation failed.
fn alias_lines(
    alloc: Global,
    checked: &Checked,
    kind: Kind,
    name: &[u8],
) -> Result<RunOutput, ExpansionFault>
    ensures lines { IfOk result (λ o. AreShownLines checked.now kind name.now o.text.items o.status) }
    ensures fault { IfErr result (IsNotShownOf checked.now kind name.now) }
{
    match expand(alloc, checked, kind, name) {
        Ok(members) => {
            let text = member_lines(alloc, members.as_slice())?;
            Ok(RunOutput { text, status: 0 })
        }
        Err(ExpandFault::NoSuchAlias) => {
            Err(ExpansionFault::NoSuchAlias(Seq::from_slice(alloc, name)?))
        }
        Err(ExpandFault::Memory) => Err(ExpansionFault::Memory),
    }
}

// Returns lines with the notice that is printed behind them, or the fault in place of the lines.
fn noted_lines(
    lines: Result<RunOutput, ExpansionFault>,
    notice: Vec<u8>,
) -> Result<NotedOutput, ExpansionFault>
    ensures noted { IfOk result (λ p. IsNotedTable lines notice.items p) }
    ensures fault { IfErr result (λ fault. lines ≡ Err fault) }
{
    match lines {
        Ok(RunOutput { text, status }) => Ok(NotedOutput {
            text,
            notice,
            status,
        }),
        Err(fault) => Err(fault),
    }
}

// Returns the text and the notice of an expansion of an alias of the policy of a file. Forgets the policy: the run ends here.
fn expand_output<F: Files>(
    alloc: Global,
    path: &[u8],
    files: &mut F,
    kind: Kind,
    name: &[u8],
) -> Result<NotedOutput, ExpansionFault>
    ensures printed { IfOk result (λ p. IsShown (F.held files.old) path.now kind name.now
        p.text.items p.notice.items p.status) }
    ensures fault { IfErr result (IsNotExpanded (F.held files.old) path.now kind name.now) }
{
    let checked = match checked_files(alloc, path, files) {
        Ok(checked) => checked,
        Err(PolicyFault::Memory) => return Err(ExpansionFault::Memory),
        Err(fault) => return Err(ExpansionFault::Policy(fault)),
    };
    let notice = match notice_on(alloc, &checked) {
        Ok(notice) => notice,
        Err(_) => return Err(ExpansionFault::Memory),
    };
    let lines = alias_lines(alloc, &checked.policy, kind, name);
    mem::forget(checked);
    noted_lines(lines, notice)
}

/// Prints on `out` the members of an alias of the policy of a file, one per line, in order, each with its sign and as a policy has
/// it, and a comment with the name of a note before the commands that it is about. Then prints on `err` the line that counts the
/// cautions on the policy, if there is one.
///
/// Returns the exit status: 0; 1 if the policy is refused, has errors or has no such alias; 4 if reading, writing or memory
/// failed. If the check of the policy finds errors, prints them on `err`; prints any other fault as one line on `err`. Then
/// nothing was printed on `out`, except by a write that failed part way.
pub fn expand_run<F: Files, O: Sink, E: Sink>(
    alloc: Global,
    path: &[u8],
    files: &mut F,
    kind: Kind,
    name: &[u8],
    out: &mut O,
    err: &mut E,
) -> u8
    ensures most { result ≤ 4 }
    ensures ends { EndsNoted expand_notices (IsShown (F.held files.old) path.now kind name.now)
        (IsNotExpanded (F.held files.old) path.now kind name.now) result
        (sent O.taken O.stalled_writes out.old out.new)
        (sent E.taken E.stalled_writes err.old err.new) }
{
    let ended = expand_output(alloc, path, files, kind, name);
    end_noted(alloc, PROGRAM, ended, out, err)
}
