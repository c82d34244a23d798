//! `cautions`: lists what sudo reads or judges otherwise.
ghost use Rattle.std.specs.Prelude.{◌≡◌, IfErr, IfOk};
ghost use Rattle.run_base.specs.Endings.{writer_states as sent, Ends};
ghost use Rattle.run_base.specs.Loading.{IsNoPolicy};
ghost use Rattle.review_cautions.specs.Cautions.{AreCautionsOn};
ghost use Rattle.review_cautions.specs.ListTests as lists_spec;
ghost use Rattle.review_commands.specs.CautionLines.{is_without, kept_cautions, policy_notices};
ghost use Rattle.review_commands.specs.Reviewing.{IsCautioned};
ghost use Rattle.review_commands.specs.FileTexts.{texts_of};

use crate::file_texts::file_texts;
use crate::lines::caution_lines;
use crate::program_name::PROGRAM;
use audit_files::Sink;
use review_cautions::{Caution, CautionClass, Link, cautions_by_links, usual_links};
use run_base::{Files, Loaded, PolicyFault, RunOutput, end_explained, load_files};
use std::alloc::{AllocError, Global};
use std::mem;
use sudo_grammar::Policy;
use sudo_load::Supply;
use sudo_text::Seq;

// Whether the cautions of a class are not to be listed.
fn is_left_out(without: &[CautionClass], class: CautionClass) -> bool
    ensures { result ≡ is_without without.now class }
{
    without.iter().any(|other| other.name() == class.name())
}

// Returns the cautions but for those of some classes.
fn listed(mut found: Vec<Caution>, without: &[CautionClass]) -> Vec<Caution>
    ensures { result.items ≡ kept_cautions without.now found.items }
{
    found.retain(|caution| !is_left_out(without, caution.class));
    found
}

/// Returns the cautions on a policy that was read from the text of its main file and from these files and folders, on a
/// machine that has these links. Returns `AllocError` if allocation failed.
fn found_by_links(
    alloc: Global,
    links: &[Link],
    main: &Seq<u8>,
    supplies: &Seq<Supply>,
    policy: &Policy,
) -> Result<Vec<Caution>, AllocError>
    ensures { let texts = texts_of main.now supplies.now policy.now.files in
        IfOk result (λ found. AreCautionsOn links.now texts policy.now found.items) }
{
    let texts = file_texts(
        alloc,
        main.as_slice(),
        supplies.as_slice(),
        policy.files.as_slice(),
    )?;
    let found = cautions_by_links(alloc, links, &texts, policy);
    drop(texts);
    found
}

/// Returns the same on a machine that has the usual links.
pub(crate) fn found_in(
    alloc: Global,
    main: &Seq<u8>,
    supplies: &Seq<Supply>,
    policy: &Policy,
) -> Result<Vec<Caution>, AllocError>
    ensures { let texts = texts_of main.now supplies.now policy.now.files in
        IfOk result (λ found. AreCautionsOn lists_spec.usual_links texts policy.now found.items) }
{
    let links = usual_links(alloc)?;
    found_by_links(alloc, &links, main, supplies, policy)
}

// Returns the text and the status for the cautions on the policy of a file. Forgets the policy: the run ends here, and
// freeing a large policy item by item takes a tenth of the time.
fn cautions_output<F: Files>(
    alloc: Global,
    path: &[u8],
    files: &mut F,
    links: &[Link],
    without: &[CautionClass],
) -> Result<RunOutput, PolicyFault>
    ensures printed { IfOk result (λ p. IsCautioned
        (F.held files.old) path.now links.now without.now p.text.items p.status) }
    ensures fault { IfErr result (IsNoPolicy (F.held files.old) path.now) }
{
    let loaded = load_files(alloc, path, files)?;
    let Loaded {
        text,
        supplies,
        policy,
    } = &loaded;
    let found = found_by_links(alloc, links, text, supplies, policy)?;
    let kept = listed(found, without);
    let printed = caution_lines(alloc, policy.files.as_slice(), &kept)?;
    mem::forget(loaded);
    Ok(printed)
}

/// Prints on `out` one line for each construct of the policy of a file that sudo reads or judges otherwise, but for those of
/// the classes in `without`, and a last line with their number. The machine has these links to folders.
///
/// Returns the exit status: 0 without such a line, 5 with one or more, 1 if the policy is refused, 4 if reading, writing or
/// memory failed. Prints a fault as one line on `err`; then nothing was printed on `out`, except by a write that failed part way.
pub fn cautions_run<F: Files, O: Sink, E: Sink>(
    alloc: Global,
    path: &[u8],
    files: &mut F,
    links: &[Link],
    without: &[CautionClass],
    out: &mut O,
    err: &mut E,
) -> u8
    ensures ends { Ends policy_notices
        (IsCautioned (F.held files.old) path.now links.now without.now)
        (IsNoPolicy (F.held files.old) path.now) result
        (sent O.taken O.stalled_writes out.old out.new)
        (sent E.taken E.stalled_writes err.old err.new) }
{
    let ended = cautions_output(alloc, path, files, links, without);
    end_explained(alloc, PROGRAM, ended, out, err)
}
