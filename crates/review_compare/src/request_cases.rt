//! What policies with notes may say to requests, and what their answers depend on.
ghost use Rattle.std.specs.Prelude.{◌≡◌, filter, flat_map, IfOk, IfSome, is_some, IsTrue, MatchResult, OnOk, Ok, Err};
ghost use Rattle.std.specs.List.{list_all, list_any};
ghost use Rattle.sudo_verdict.specs.Grants.{grants};
ghost use Rattle.sudo_verdict.specs.Questions.{question_of};
ghost use Rattle.sudo_verdict.specs.Verdicts.{verdict_of};
ghost use Rattle.review_texts.specs.declared.note.Note.{Note as TheNote};
ghost use Rattle.review_texts.specs.Notes.{notes};
ghost use Rattle.review_grants.specs.Depends.{has_mark, is_note_grant};
ghost use Rattle.review_grants.specs.Targets.{with_command};
ghost use Rattle.review_compare.specs.Cases as spec;
ghost use Rattle.review_compare.specs.Compared.{said};
ghost use Rattle.review_compare.specs.Blocks.{block_resolves, block_stands, standing};
ghost use Rattle.review_compare.specs.Body.Asked as body;
ghost use Rattle.review_compare.specs.Body.Commands.{is_noted};
ghost use Rattle.review_compare.specs.Body.Asked.{shown_cases};
ghost use Rattle.review_compare.specs.Body.Chosen.{deciders_of};

use crate::block::{Block, blocks_of};
use crate::cases::{Cases, are_same_cases};
use crate::lines::{has_note, line_atoms};
use crate::noted_policy::{LineCommands, NotedPolicy};
use crate::ruling::Ruled;
use crate::side::Side;
use review_grants::{Marks, NotedPlaces, UNMARKED};
use std::alloc::{AllocError, Global};
use sudo_match::{Directory, Request, Verdict, What};
use sudo_policy::Checked;
use sudo_verdict::{Asker, allows_runas, lists_host, lists_user};

impl<'a> LineCommands<'a> {
    /// Returns the commands of the grants of a policy, if one of them stands for a note. Returns `AllocError` if allocation failed.
    pub fn of(alloc: Global, checked: &'a Checked) -> Result<LineCommands<'a>, AllocError>
        ensures { IfOk result (λ commands. spec.commands_of commands ≡ checked.now) }
    {
        let grants = blocks_of(alloc, checked)?;
        let atoms = line_atoms(alloc, &grants)?;
        let is_noted = has_note(&grants);
        Ok(LineCommands {
            checked,
            is_noted,
            atoms,
        })
    }
}

/// What two policies say to a request, beside their verdicts on it.
#[derive(Clone, Copy, Debug, PartialEq, Eq)]
pub struct Dependence {
    /// Whether both say the same, whichever noted conditions hold, as far as it is seen.
    pub is_same: bool,
    /// Which notes the lines have that may decide.
    pub marks: Marks,
}

// Returns who asks, where and as whom, or the first name that is unknown.
#[tactic(auto, unfolding(sudo_verdict::specs::Questions::question_of))]
fn asker_of<'a>(directory: &'a Directory, request: &Request) -> Result<Asker<'a>, What>
    ensures { MatchResult result (λ a. question_of directory.now request.now
        ≡ Ok (with_command (body.asked_by directory.now a) request.now.command request.now.arguments))
        (λ w. question_of directory.now request.now ≡ Err w) }
{
    let Some(user) = directory.user(request.user.as_slice()) else {
        return Err(What::User);
    };
    let Some(host) = directory.host(request.host.as_slice()) else {
        return Err(What::Host);
    };
    let target = match &request.runas_user {
        None => None,
        Some(name) => match directory.user(name.as_slice()) {
            None => return Err(What::Target),
            Some(target) => Some(target),
        },
    };
    let group = match &request.runas_group {
        None => None,
        Some(name) => match directory.group(name.as_slice()) {
            None => return Err(What::Group),
            Some(group) => Some(group),
        },
    };
    Ok(Asker {
        user,
        host,
        target,
        group,
    })
}

// Adds the rows of a block that fit the command.
fn add_rows<'b>(
    block: &'b Block<'_>,
    command: &[u8],
    arguments: &[u8],
    cases: &mut Cases<'b>,
) -> Result<(), AllocError>
    ensures { OnOk result (shown_cases cases.new ≡ spec.with_rows command.now arguments.now
        (shown_cases cases.old) (deciders_of block.now)) }
{
    for row in &block.rows {
        if row.shape.fits(command, arguments) {
            cases.add(Ruled {
                place: block.place,
                answer: row.answer,
                before: row.before,
                shape: &row.shape,
            })?;
        }
    }
    Ok(())
}

// Whether the lists of a block allow the user and the host, and its runas the target and the group.
fn stands(checked: &Checked, directory: &Directory, asker: Asker<'_>, block: &Block<'_>) -> bool
    requires { IsTrue (block_resolves checked.now block.now) }
    ensures { result ≡ block_stands checked.entry.now
        (body.asked_by directory.now asker.entry) block.now }
{
    lists_user(checked, block.users, asker.user)
        && lists_host(checked, block.hosts, asker.host)
        && allows_runas(checked, directory, asker, block.runas)
}

// Adds the rows of a block that stands and that fit the command.
fn add_block<'b>(
    checked: &Checked,
    directory: &Directory,
    asker: Asker<'_>,
    block: &'b Block<'_>,
    command: &[u8],
    arguments: &[u8],
    cases: &mut Cases<'b>,
) -> Result<(), AllocError>
    requires { IsTrue (block_resolves checked.now block.now) }
    ensures { OnOk result (shown_cases cases.new ≡ spec.with_rows command.now arguments.now
        (shown_cases cases.old) (standing checked.entry.now
        (body.asked_by directory.now asker.entry) block.now)) }
{
    if !stands(checked, directory, asker, block) {
        return Ok(());
    }
    add_rows(block, command, arguments, cases)
}

// Returns that nothing is said, whichever rows apply.
fn no_cases<'b>(alloc: Global) -> Cases<'b>
    ensures { shown_cases result ≡ spec.no_cases }
{
    Cases {
        otherwise: None,
        noted: Vec::new(alloc),
    }
}

// Returns the cases of a command under blocks of a policy, for the user who asks.
fn asked_cases<'b>(
    alloc: Global,
    checked: &Checked,
    blocks: &'b [Block<'_>],
    directory: &Directory,
    asker: Asker<'_>,
    command: &[u8],
    arguments: &[u8],
) -> Result<Cases<'b>, AllocError>
    requires { IsTrue (list_all (block_resolves checked.now) blocks.now) }
    ensures { IfOk result (λ k. shown_cases k ≡ spec.with_rows command.now arguments.now
        spec.no_cases (flat_map (standing checked.now
        (body.asked_by directory.now asker.entry)) blocks.now)) }
{
    let mut cases = no_cases(alloc);
    for block in blocks {
        add_block(
            checked, directory, asker, block, command, arguments, &mut cases,
        )?;
    }
    Ok(cases)
}

// Returns the cases of a request, by all rows of a policy.
fn searched<'b>(
    alloc: Global,
    side: &'b Side<'_>,
    directory: &Directory,
    request: &Request,
) -> Result<Cases<'b>, AllocError>
    ensures { IfOk result (λ k. shown_cases k
        ≡ spec.cases_of side.now.checked.now directory.now request.now) }
{
    match asker_of(directory, request) {
        Ok(asker) => {
            let (command, arguments) = (request.command.as_slice(), request.arguments.as_slice());
            asked_cases(
                alloc,
                side.checked,
                &side.blocks,
                directory,
                asker,
                command,
                arguments,
            )
        }
        Err(_) => Ok(no_cases(alloc)),
    }
}

// Returns what is said whichever noted conditions hold.
fn settled<'b>(alloc: Global, verdict: &Verdict) -> Cases<'b>
    ensures { shown_cases result ≡ body.settled (said verdict.now) }
{
    let otherwise = match verdict {
        Verdict::Allow { tags, .. } => Some(Some(*tags)),
        Verdict::Deny { .. } => Some(None),
        Verdict::NoMatch | Verdict::Unknown(_) => None,
    };
    Cases {
        otherwise,
        noted: Vec::new(alloc),
    }
}

impl<'a> NotedPolicy<'a> {
    /// Returns a policy with what its grants depend on. Where none of them stands for a note, nothing is copied. Returns `AllocError` if
    /// allocation failed.
    pub fn of(alloc: Global, commands: &'a LineCommands<'_>) -> Result<NotedPolicy<'a>, AllocError>
        ensures { IfOk result (λ policy. spec.policy_of policy ≡ spec.commands_of commands.now) }
    {
        let checked: &'a Checked = commands.checked;
        let places = NotedPlaces::of(alloc, checked)?;
        let side = side_if(alloc, commands)?;
        Ok(NotedPolicy {
            checked,
            places,
            side,
        })
    }
}

// Returns the policy with its rows, if one of its grants stands for a note.
fn side_if<'a>(
    alloc: Global,
    commands: &'a LineCommands<'_>,
) -> Result<Option<Side<'a>>, AllocError>
    ensures is { IfOk result (λ side. IfSome side (λ s. s.checked.now
        ≡ spec.commands_of commands.now)) }
    ensures noted { IfOk result (λ side. is_some side
        ≡ is_noted (spec.commands_of commands.now)) }
{
    if !commands.is_noted {
        return Ok(None);
    }
    let checked: &'a Checked = commands.checked;
    let grants = blocks_of(alloc, checked)?;
    let side = Side::of(alloc, checked, grants, &commands.atoms)?;
    Ok(Some(side))
}

impl NotedPolicy<'_> {
    /// Whether a grant of the policy stands for a note.
    pub fn is_noted(&self) -> bool
        ensures { result ≡ list_any is_note_grant (grants (spec.policy_of self.now)) }
    {
        self.side.is_some()
    }

    // Whether the grants at the place of a verdict depend on nothing.
    fn is_unnoted_at(&self, verdict: &Verdict) -> bool
        ensures { result ≡ body.is_unnoted_at (spec.policy_of self.now) verdict.now }
    {
        match verdict {
            Verdict::Allow { place, .. } => self.places.marks(*place).is_unmarked(),
            Verdict::Deny { place } => self.places.marks(*place).is_unmarked(),
            Verdict::NoMatch | Verdict::Unknown(_) => true,
        }
    }

    // Returns the cases of a request, on which this is the verdict.
    fn cases(
        &self,
        alloc: Global,
        directory: &Directory,
        request: &Request,
        verdict: &Verdict,
    ) -> Result<Cases<'_>, AllocError>
        requires { verdict.now ≡ verdict_of (spec.policy_of self.now) directory.now request.now }
        ensures { IfOk result (λ k. shown_cases k
            ≡ spec.cases_of (spec.policy_of self.now) directory.now request.now) }
    {
        if self.is_unnoted_at(verdict) {
            return Ok(settled(alloc, verdict));
        }
        match &self.side {
            Some(side) => searched(alloc, side, directory, request),
            None => Ok(settled(alloc, verdict)),
        }
    }

    // Returns which notes the lines of the rows have.
    fn marks(&self, cases: &Cases<'_>) -> Marks
        ensures { (note : TheNote) → has_mark result note
            ≡ spec.bears (spec.policy_of self.now) (shown_cases cases.now) note }
    {
        let mut marks = UNMARKED;
        for row in &cases.noted {
            marks = marks.joined(self.places.marks(row.place));
        }
        marks
    }
}

/// Returns whether both policies say the same to a request, on which these are their verdicts, whichever noted conditions hold; and on
/// what their answers may depend. Returns `AllocError` if allocation failed.
pub fn compared_request(
    alloc: Global,
    old: &NotedPolicy<'_>,
    new: &NotedPolicy<'_>,
    directory: &Directory,
    request: &Request,
    before: &Verdict,
    after: &Verdict,
) -> Result<Dependence, AllocError>
    requires before { before.now
        ≡ verdict_of (spec.policy_of old.now) directory.now request.now }
    requires after { after.now ≡ verdict_of (spec.policy_of new.now) directory.now request.now }
    ensures is_same { IfOk result (λ found. found.is_same ≡ spec.same_cases
        (spec.cases_of (spec.policy_of old.now) directory.now request.now)
        (spec.cases_of (spec.policy_of new.now) directory.now request.now)) }
    ensures marks { IfOk result (λ found. filter (has_mark found.marks) notes
        ≡ spec.notes_of (spec.policy_of old.now) (spec.policy_of new.now)
        (spec.cases_of (spec.policy_of old.now) directory.now request.now)
        (spec.cases_of (spec.policy_of new.now) directory.now request.now)) }
{
    let own = old.cases(alloc, directory, request, before)?;
    let others = new.cases(alloc, directory, request, after)?;
    Ok(Dependence {
        is_same: are_same_cases(&own, &others),
        marks: old.marks(&own).joined(new.marks(&others)),
    })
}
