//! The grants of a policy, in blocks: one for each command of a section, written out.
ghost use Rattle.std.specs.Prelude.{◌≡◌, ◌++◌, ◌∷◌, [], List, IfOk, OnOk, IsTrue, map, flat_map, if◌then◌else◌, None, Some};
ghost use Rattle.std.specs.List.{list_all};
ghost use Rattle.sudo_grammar.specs.declared.kind.Kind.TheVariants as kind;
ghost use Rattle.sudo_policy.specs.Resolving.{resolves};
ghost use Rattle.sudo_policy.specs.Written.{written_form};
ghost use Rattle.sudo_policy.specs.Body.Resolving.{section_resolves};
ghost use Rattle.sudo_verdict.specs.Values.{is_all};
ghost use Rattle.sudo_verdict.specs.Tagged as tagged;
ghost use Rattle.sudo_verdict.specs.Tagged.{or_tags, tags_named};
ghost use Rattle.sudo_verdict.specs.Grants.{entry_grants, section_grants};
ghost use Rattle.sudo_verdict.specs.Body.Resolved.{body_resolves};
ghost use Rattle.sudo_grammar.specs.declared.policy.CommandSpec.{CommandSpec as TheSpec};
ghost use Rattle.sudo_grammar.specs.declared.tag.Tag.{Tag as TheTag};
ghost use Rattle.review_compare.specs.Blocks.{AreGrants, block_resolves, block_wides};
ghost use Rattle.review_compare.specs.Cells.{wide_of};
ghost use Rattle.review_compare.specs.Body.Heads.{IsInForce, head_resolves, row_answered, signed_answered, signed_wide};

use crate::shape::Shape;
use std::alloc::{AllocError, Global};
use std::slice;
use sudo_match::Tags;
use sudo_policy::{
    Atom, Checked, CommandSpec, Entry, EntryBody, Kind, Member, Runas, Section, Signed, Tag,
    TagPair, write_out,
};
use sudo_text::Place;
use sudo_verdict::tags_before_end;

/// An atom of a command, with what it answers: leave with these tags, or a refusal; and with what stands before it in its line,
/// where a note is among that.
#[derive(Drop)]
pub(crate) struct BlockRow<'a> {
    pub(crate) answer: Option<Tags>,
    pub(crate) before: &'a [Atom],
    pub(crate) shape: Shape,
}

/// A command of a section, written out: the place and the users of its rule, the hosts of its section, the runas in force, and
/// its atoms.
#[derive(Drop)]
pub(crate) struct Block<'a> {
    pub(crate) place: Place,
    pub(crate) users: &'a [Member],
    pub(crate) hosts: &'a [Member],
    pub(crate) runas: Option<&'a Runas>,
    pub(crate) rows: Vec<BlockRow<'a>>,
}

// The place and the users of a rule, and the hosts of a section.
#[derive(Clone, Copy)]
struct Head<'a> {
    place: Place,
    users: &'a [Member],
    hosts: &'a [Member],
}

// The runas and the tags in force at a command.
#[derive(Clone, Copy)]
struct InForce<'a> {
    runas: Option<&'a Runas>,
    tags: Tags,
}

// The tag SETENV.
const SETENV: Tag = Tag {
    pair: TagPair::SetEnv,
    on: true,
};

// Whether the atom is `ALL`.
fn is_all(atom: &Atom) -> bool
    ensures { result ≡ is_all atom.now }
{
    match atom {
        Atom::All => true,
        _ => false,
    }
}

// Returns the tags with a later one in place of that of its pair.
fn with_later(mut tags: Tags, tag: Tag) -> Tags
    ensures { result ≡ or_tags (tags_named (tag ∷ [])) tags }
{
    tags.choices[tag.pair.position()] = Some(tag.on);
    tags
}

// Returns the tags with later ones, in order.
fn with_all_later(mut tags: Tags, later: &[Tag]) -> Tags
    ensures { (before : List TheTag) → tags ≡ tags_named before
        → result ≡ tags_named (before ++ later.now) }
{
    for tag in later {
        tags = with_later(tags, *tag);
    }
    tags
}

// Returns the tags with an earlier one added, if its pair is not set.
fn with_earlier(tags: Tags, tag: Tag) -> Tags
    ensures { result ≡ or_tags tags (tags_named (tag ∷ [])) }
{
    let mut tags = tags;
    let position = tag.pair.position();
    tags.choices[position] = tags.choices[position].or(Some(tag.on));
    tags
}

// Returns the tags, with SETENV added if the command is `ALL` and that pair is not set.
fn tags_given(tags: Tags, all: bool) -> Tags
    ensures { result ≡ tagged.tags_given all tags }
{
    if all {
        with_earlier(tags, SETENV)
    } else {
        tags
    }
}

// Returns an atom with what it answers, and with nothing before it.
fn row_of<'a>(alloc: Global, tags: Tags, signed: Signed) -> Result<BlockRow<'a>, AllocError>
    ensures { IfOk result (λ row. row_answered row ≡ signed_answered tags signed) }
{
    let Signed { negated, atom } = signed;
    let answer = if negated {
        None
    } else {
        Some(tags_given(tags, is_all(&atom)))
    };
    let shape = Shape::of(alloc, atom)?;
    Ok(BlockRow {
        answer,
        before: &[],
        shape,
    })
}

// Returns the atoms of a list written out, with what each answers.
fn rows_of_atoms<'a>(
    alloc: Global,
    tags: Tags,
    atoms: Vec<Signed>,
) -> Result<Vec<BlockRow<'a>>, AllocError>
    ensures { IfOk result (λ rows. map row_answered rows.items
        ≡ map (signed_answered tags) atoms.items) }
{
    let mut rows = Vec::new(alloc);
    for signed in atoms {
        rows.push(row_of(alloc, tags, signed)?)?;
    }
    Ok(rows)
}

// Returns the command written out, with what each atom answers.
fn rows_of<'a>(
    alloc: Global,
    checked: &Checked,
    tags: Tags,
    command: &Member,
) -> Result<Vec<BlockRow<'a>>, AllocError>
    requires { IsTrue (resolves kind.Cmnd checked.now (command.now ∷ [])) }
    ensures { IfOk result (λ rows. map row_answered rows.items ≡ map (signed_answered tags)
        (written_form kind.Cmnd checked.now (command.now ∷ []))) }
{
    let mut atoms = Vec::new(alloc);
    let members = slice::from_ref(command);
    write_out(alloc, checked, Kind::Cmnd, members, false, &mut atoms)?;
    rows_of_atoms(alloc, tags, atoms)
}

// Returns the runas and the tags in force at a command behind those before it.
fn in_force_at<'a>(before: InForce<'a>, spec: &'a CommandSpec) -> InForce<'a>
    ensures { (commands : List TheSpec) → IsInForce commands before.entry
        → IsInForce (commands ++ spec.now ∷ []) result }
{
    InForce {
        runas: spec.runas.as_ref().or(before.runas),
        tags: with_all_later(before.tags, spec.tags.as_slice()),
    }
}

// Appends the block of a command.
fn push_command<'a>(
    alloc: Global,
    checked: &Checked,
    head: Head<'a>,
    in_force: InForce<'a>,
    command: &Member,
    blocks: &mut Vec<Block<'a>>,
) -> Result<(), AllocError>
    requires command { IsTrue (resolves kind.Cmnd checked.now (command.now ∷ [])) }
    ensures rows { OnOk result (flat_map block_wides blocks.new.items ≡ flat_map block_wides
        blocks.old.items ++ map (signed_wide head.entry in_force.entry)
        (written_form kind.Cmnd checked.now (command.now ∷ []))) }
    ensures resolve { OnOk result (IsTrue (head_resolves checked.now head.entry in_force.entry)
        → IsTrue (list_all (block_resolves checked.now) blocks.old.items)
        → IsTrue (list_all (block_resolves checked.now) blocks.new.items)) }
{
    let rows = rows_of(alloc, checked, in_force.tags, command)?;
    blocks.push(Block {
        place: head.place,
        users: head.users,
        hosts: head.hosts,
        runas: in_force.runas,
        rows,
    })?;
    Ok(())
}

// Appends the blocks of a section with these commands.
fn push_section<'a>(
    alloc: Global,
    checked: &Checked,
    place: Place,
    users: &'a [Member],
    section: &'a Section,
    blocks: &mut Vec<Block<'a>>,
) -> Result<(), AllocError>
    requires users { IsTrue (resolves kind.User checked.now users.now) }
    requires section { IsTrue (section_resolves checked.now section.now) }
    ensures rows { OnOk result (flat_map block_wides blocks.new.items ≡ flat_map block_wides
        blocks.old.items ++ map wide_of (section_grants checked.now place
        users.now section.now)) }
    ensures resolve { OnOk result (IsTrue (list_all (block_resolves checked.now) blocks.old.items)
        → IsTrue (list_all (block_resolves checked.now) blocks.new.items)) }
{
    let head = Head {
        place,
        users,
        hosts: section.hosts.as_slice(),
    };
    let mut in_force = InForce {
        runas: None,
        tags: tags_before_end(&[]),
    };
    for spec in section.commands.as_slice() {
        in_force = in_force_at(in_force, spec);
        push_command(alloc, checked, head, in_force, &spec.command, blocks)?;
    }
    Ok(())
}

// Appends the blocks of the sections of a rule.
fn push_sections<'a>(
    alloc: Global,
    checked: &Checked,
    place: Place,
    users: &'a [Member],
    sections: &'a [Section],
    blocks: &mut Vec<Block<'a>>,
) -> Result<(), AllocError>
    requires users { IsTrue (resolves kind.User checked.now users.now) }
    requires sections { IsTrue (list_all (section_resolves checked.now) sections.now) }
    ensures rows { OnOk result (flat_map block_wides blocks.new.items ≡ flat_map block_wides
        blocks.old.items ++ map wide_of (flat_map (section_grants checked.now place users.now)
        sections.now)) }
    ensures resolve { OnOk result (IsTrue (list_all (block_resolves checked.now) blocks.old.items)
        → IsTrue (list_all (block_resolves checked.now) blocks.new.items)) }
{
    for section in sections {
        push_section(alloc, checked, place, users, section, blocks)?;
    }
    Ok(())
}

// Appends the blocks of an entry: none unless it is a rule.
fn push_entry<'a>(
    alloc: Global,
    checked: &Checked,
    entry: &'a Entry,
    blocks: &mut Vec<Block<'a>>,
) -> Result<(), AllocError>
    requires { IsTrue (body_resolves checked.now entry.now.body) }
    ensures rows { OnOk result (flat_map block_wides blocks.new.items ≡ flat_map block_wides
        blocks.old.items ++ map wide_of (entry_grants checked.now entry.now)) }
    ensures resolve { OnOk result (IsTrue (list_all (block_resolves checked.now) blocks.old.items)
        → IsTrue (list_all (block_resolves checked.now) blocks.new.items)) }
{
    match &entry.body {
        EntryBody::Rule { users, sections } => {
            let (users, sections) = (users.as_slice(), sections.as_slice());
            push_sections(alloc, checked, entry.place, users, sections, blocks)
        }
        _ => Ok(()),
    }
}

/// Returns the grants of a policy, in blocks, without what stands before them in their lines. Returns `AllocError` if allocation fails.
pub(crate) fn blocks_of<'a>(
    alloc: Global,
    checked: &'a Checked,
) -> Result<Vec<Block<'a>>, AllocError>
    ensures rows { IfOk result (λ blocks. AreGrants checked.now blocks.items) }
    ensures resolve { IfOk result (λ blocks. IsTrue (list_all (block_resolves checked.now)
        blocks.items)) }
{
    let mut blocks = Vec::new(alloc);
    for entry in checked.policy().entries.as_slice() {
        push_entry(alloc, checked, entry, &mut blocks)?;
    }
    Ok(blocks)
}
