//! The rows of a policy, in blocks: one for each command of a section.
ghost use Rattle.std.specs.Prelude.{◌≡◌, ◌||◌, ◌++◌, ◌∷◌, [], List, IfOk, OnOk, IsTrue, map, flat_map, is_some};
ghost use Rattle.std.specs.List.{list_all};
ghost use Rattle.sudo_grammar.specs.declared.kind.Kind.TheVariants as kind;
ghost use Rattle.sudo_policy.specs.Resolving.{resolves};
ghost use Rattle.sudo_policy.specs.Written.{written_form};
ghost use Rattle.sudo_policy.specs.Body.Resolving.{section_resolves};
ghost use Rattle.sudo_verdict.specs.Values.{is_all};
ghost use Rattle.sudo_verdict.specs.Tagged.{or_tags, tags_named};
ghost use Rattle.sudo_verdict.specs.Grants.{entry_grants, section_grants};
ghost use Rattle.sudo_verdict.specs.Body.Resolved.{body_resolves};
ghost use Rattle.sudo_grammar.specs.declared.policy.CommandSpec.{CommandSpec as TheSpec};
ghost use Rattle.sudo_grammar.specs.declared.tag.Tag.{Tag as TheTag};
ghost use Rattle.review_texts.specs.Notes.{note_in};
ghost use Rattle.review_grants.specs.Depends.{IsMarked, marks_at};
ghost use Rattle.review_roots.specs.Blocks.{AreBlocks, block_resolves, block_rows, row_of, sign_of};
ghost use Rattle.review_roots.specs.Body.Heads.{IsInForce, head_resolves, signed_row};

use crate::block::{Block, Sign};
use crate::effect::effect_of;
use review_grants::{Marks, NotedPlaces};
use review_texts::note_in;
use std::alloc::{AllocError, Global};
use std::slice;
use sudo_match::Tags;
use sudo_policy::{
    Atom, Checked, CommandSpec, Entry, EntryBody, Kind, Member, Runas, Section, Signed, Tag,
    write_out,
};
use sudo_text::Place;
use sudo_verdict::tags_before_end;

// The place, the notes and the users of a rule, and the hosts of a section of it.
#[derive(Clone, Copy)]
struct Head<'a> {
    place: Place,
    marks: Marks,
    users: &'a [Member],
    hosts: &'a [Member],
}

// The runas and the tags in force at a command.
#[derive(Clone, Copy)]
struct InForce<'a> {
    runas: Option<&'a Runas>,
    tags: Tags,
}

// Whether the atom is `ALL`.
fn is_all(atom: &Atom) -> bool
    ensures { result ≡ is_all atom.now }
{
    match atom {
        Atom::All => true,
        _ => false,
    }
}

// Whether the atom allows nothing: it is negated, or stands for a note.
fn is_without(signed: &Signed) -> bool
    ensures { result ≡ (signed.now.negated || is_some (note_in signed.now.atom)) }
{
    signed.negated || note_in(&signed.atom).is_some()
}

// Returns the tags with a later one in place of that of its pair.
fn with_later(mut tags: Tags, tag: Tag) -> Tags
    ensures { result ≡ or_tags (tags_named (tag ∷ [])) tags }
{
    tags.choices[tag.pair.position()] = Some(tag.on);
    tags
}

// Returns the tags with later ones, in order.
fn with_all_later(mut tags: Tags, later: &[Tag]) -> Tags
    ensures { (before : List TheTag) → tags ≡ tags_named before
        → result ≡ tags_named (before ++ later.now) }
{
    for tag in later {
        tags = with_later(tags, *tag);
    }
    tags
}

// Returns the signs of the command written out.
fn signs_of(alloc: Global, checked: &Checked, command: &Member) -> Result<Vec<Sign>, AllocError>
    requires { IsTrue (resolves kind.Cmnd checked.now (command.now ∷ [])) }
    ensures { IfOk result (λ signs. signs.items
        ≡ map sign_of (written_form kind.Cmnd checked.now (command.now ∷ []))) }
{
    let mut atoms = Vec::new(alloc);
    let members = slice::from_ref(command);
    write_out(alloc, checked, Kind::Cmnd, members, false, &mut atoms)?;
    let mut signs = Vec::new(alloc);
    for signed in &atoms {
        signs.push(Sign {
            negated: is_without(signed),
            all: is_all(&signed.atom),
        })?;
    }
    Ok(signs)
}

// Returns the runas and the tags in force at a command behind those before it.
fn in_force_at<'a>(before: InForce<'a>, spec: &'a CommandSpec) -> InForce<'a>
    ensures { (commands : List TheSpec) → IsInForce commands before.entry
        → IsInForce (commands ++ spec.now ∷ []) result }
{
    InForce {
        runas: spec.runas.as_ref().or(before.runas),
        tags: with_all_later(before.tags, spec.tags.as_slice()),
    }
}

// Appends the block of a command.
fn push_command<'a>(
    alloc: Global,
    checked: &Checked,
    head: Head<'a>,
    in_force: InForce<'a>,
    command: &Member,
    blocks: &mut Vec<Block<'a>>,
) -> Result<(), AllocError>
    requires command { IsTrue (resolves kind.Cmnd checked.now (command.now ∷ [])) }
    ensures rows { OnOk result (flat_map block_rows blocks.new.items ≡ flat_map block_rows
        blocks.old.items ++ map (signed_row head.entry in_force.entry)
        (written_form kind.Cmnd checked.now (command.now ∷ []))) }
    ensures resolve { OnOk result (IsTrue (head_resolves checked.now head.entry in_force.entry)
        → IsTrue (list_all (block_resolves checked.now) blocks.old.items)
        → IsTrue (list_all (block_resolves checked.now) blocks.new.items)) }
{
    let signs = signs_of(alloc, checked, command)?;
    let effect = effect_of(head.marks, in_force.tags, &signs);
    blocks.push(Block {
        place: head.place,
        users: head.users,
        hosts: head.hosts,
        runas: in_force.runas,
        tags: in_force.tags,
        marks: head.marks,
        signs,
        effect,
    })?;
    Ok(())
}

// Appends the blocks of a section.
fn push_section<'a>(
    alloc: Global,
    checked: &Checked,
    head: Head<'a>,
    section: &'a Section,
    blocks: &mut Vec<Block<'a>>,
) -> Result<(), AllocError>
    requires users { IsTrue (resolves kind.User checked.now head.users.now) }
    requires hosts { head.hosts.now ≡ section.now.hosts }
    requires marks { head.marks ≡ marks_at checked.now head.place }
    requires section { IsTrue (section_resolves checked.now section.now) }
    ensures rows { OnOk result (flat_map block_rows blocks.new.items ≡ flat_map block_rows
        blocks.old.items ++ map (row_of checked.now) (section_grants checked.now
        head.entry.place head.entry.users.now section.now)) }
    ensures resolve { OnOk result (IsTrue (list_all (block_resolves checked.now) blocks.old.items)
        → IsTrue (list_all (block_resolves checked.now) blocks.new.items)) }
{
    let mut in_force = InForce {
        runas: None,
        tags: tags_before_end(&[]),
    };
    for spec in section.commands.as_slice() {
        in_force = in_force_at(in_force, spec);
        push_command(alloc, checked, head, in_force, &spec.command, blocks)?;
    }
    Ok(())
}

// Appends the blocks of the sections.
fn push_sections<'a>(
    alloc: Global,
    checked: &Checked,
    place: Place,
    marks: Marks,
    users: &'a [Member],
    sections: &'a [Section],
    blocks: &mut Vec<Block<'a>>,
) -> Result<(), AllocError>
    requires marks { marks ≡ marks_at checked.now place }
    requires users { IsTrue (resolves kind.User checked.now users.now) }
    requires sections { IsTrue (list_all (section_resolves checked.now) sections.now) }
    ensures rows { OnOk result (flat_map block_rows blocks.new.items ≡ flat_map block_rows
        blocks.old.items ++ map (row_of checked.now) (flat_map (section_grants checked.now place
        users.now) sections.now)) }
    ensures resolve { OnOk result (IsTrue (list_all (block_resolves checked.now) blocks.old.items)
        → IsTrue (list_all (block_resolves checked.now) blocks.new.items)) }
{
    for section in sections {
        let head = Head {
            place,
            marks,
            users,
            hosts: section.hosts.as_slice(),
        };
        push_section(alloc, checked, head, section, blocks)?;
    }
    Ok(())
}

// Appends the blocks of an entry: none unless it is a rule.
fn push_entry<'a>(
    alloc: Global,
    checked: &Checked,
    noted: &NotedPlaces,
    entry: &'a Entry,
    blocks: &mut Vec<Block<'a>>,
) -> Result<(), AllocError>
    requires noted { IsMarked checked.now noted.now }
    requires body { IsTrue (body_resolves checked.now entry.now.body) }
    ensures rows { OnOk result (flat_map block_rows blocks.new.items ≡ flat_map block_rows
        blocks.old.items ++ map (row_of checked.now) (entry_grants checked.now entry.now)) }
    ensures resolve { OnOk result (IsTrue (list_all (block_resolves checked.now) blocks.old.items)
        → IsTrue (list_all (block_resolves checked.now) blocks.new.items)) }
{
    match &entry.body {
        EntryBody::Rule { users, sections } => push_sections(
            alloc,
            checked,
            entry.place,
            noted.marks(entry.place),
            users.as_slice(),
            sections.as_slice(),
            blocks,
        ),
        _ => Ok(()),
    }
}

/// Returns the rows of a policy, in blocks. Returns `AllocError` if allocation fails.
pub(crate) fn blocks_of<'a>(
    alloc: Global,
    checked: &'a Checked,
) -> Result<Vec<Block<'a>>, AllocError>
    ensures rows { IfOk result (λ blocks. AreBlocks checked.now blocks.items) }
    ensures resolve { IfOk result (λ blocks. IsTrue (list_all (block_resolves checked.now)
        blocks.items)) }
{
    let noted = NotedPlaces::of(alloc, checked)?;
    let mut blocks = Vec::new(alloc);
    for entry in checked.policy().entries.as_slice() {
        push_entry(alloc, checked, &noted, entry, &mut blocks)?;
    }
    drop(noted);
    Ok(blocks)
}
