//! The text of the table of differences.
ghost use Rattle.std.specs.Prelude.{◌≡◌, ◌++◌, ◌∷◌, ◌*◌, [], codes, drop, flat_map, if◌then◌else◌};
ghost use Rattle.std.specs.Prelude.{IfOk, length, map, nat_lt, not, OnOk};
ghost use Rattle.csv.specs.Writing.{default_writer, field_text, fields_text};
ghost use Rattle.sudo_parser.specs.Texts.{atom_text, user_text};
ghost use Rattle.review_compare.specs.Table as table;
ghost use Rattle.review_compare.specs.Body.Lines as body;

use crate::cell::AskedGroups;
use crate::compared::{Compared, Decider};
use crate::row::Row;
use crate::targets::targets_of;
use crate::witness::Witness;
use audit_files::{push_field, push_next_field, set_place, set_tags, verdict_word};
use review_grants::{Marks, NotedPlaces, UNMARKED};
use review_texts::as_written;
use std::alloc::{AllocError, Global};
use sudo_grammar::{Atom, Signed};
use sudo_match::{Directory, Group, Machine, Person, Verdict};
use sudo_parser::member_text;
use sudo_policy::Checked;
use sudo_text::Seq;

// The names of the known users and hosts, and of groups, each as it would stand in a policy.
#[derive(Drop)]
struct Names {
    users: Vec<Vec<u8>>,
    hosts: Vec<Vec<u8>>,
    groups: Vec<Vec<u8>>,
}

// Returns a name as it would stand in a list of users.
fn name_text(alloc: Global, name: &[u8]) -> Result<Vec<u8>, AllocError>
    ensures { IfOk result (λ text. text.items ≡ user_text name.now) }
{
    let atom = Atom::Name(Seq::from_slice(alloc, name)?);
    let member = Signed {
        negated: false,
        atom,
    };
    member_text(alloc, &member)
}

fn user_names(alloc: Global, people: &[Person]) -> Result<Vec<Vec<u8>>, AllocError>
    ensures { IfOk result (λ names. map (λ v. v.items) names.items
        ≡ map (λ u. user_text u.name) people.now) }
{
    let mut names = Vec::new(alloc);
    for person in people {
        names.push(name_text(alloc, person.name.as_slice())?)?;
    }
    Ok(names)
}

fn host_names(alloc: Global, machines: &[Machine]) -> Result<Vec<Vec<u8>>, AllocError>
    ensures { IfOk result (λ names. map (λ v. v.items) names.items
        ≡ map (λ m. user_text m.name) machines.now) }
{
    let mut names = Vec::new(alloc);
    for machine in machines {
        names.push(name_text(alloc, machine.name.as_slice())?)?;
    }
    Ok(names)
}

fn group_names(alloc: Global, groups: &[Group]) -> Result<Vec<Vec<u8>>, AllocError>
    ensures { IfOk result (λ names. map (λ v. v.items) names.items
        ≡ map (λ g. user_text g.name) groups.now) }
{
    let mut names = Vec::new(alloc);
    for group in groups {
        names.push(name_text(alloc, group.name.as_slice())?)?;
    }
    Ok(names)
}

fn names_of(alloc: Global, directory: &Directory, groups: &[Group]) -> Result<Names, AllocError>
    ensures { IfOk result (body.AreNames directory.now groups.now) }
{
    Ok(Names {
        users: user_names(alloc, directory.people())?,
        hosts: host_names(alloc, directory.machines())?,
        groups: group_names(alloc, groups)?,
    })
}

// Appends the name at an index behind a comma and a space.
fn push_name(text: &mut Vec<u8>, names: &[Vec<u8>], number: usize) -> Result<(), AllocError>
    ensures { OnOk result (text.new.items ≡ text.old.items
        ++ body.separated (table.name_at (map (λ v. v.items) names.now) number)) }
{
    text.extend_from_slice(b", ")?;
    if let Some(name) = names.get(number) {
        text.extend_from_slice(name.as_slice())?;
    }
    Ok(())
}

// Returns the names at these indices, each behind a comma and a space.
fn separated_names(
    alloc: Global,
    names: &[Vec<u8>],
    numbers: &[usize],
) -> Result<Vec<u8>, AllocError>
    ensures { IfOk result (λ text. text.items ≡ flat_map (λ i. body.separated
        (table.name_at (map (λ v. v.items) names.now) i)) numbers.now) }
{
    let mut text = Vec::new(alloc);
    for number in numbers {
        push_name(&mut text, names, *number)?;
    }
    Ok(text)
}

// Returns the text without the first comma and space.
fn joined(alloc: Global, separated: &[u8]) -> Result<Vec<u8>, AllocError>
    ensures { IfOk result (λ text. text.items ≡ drop 2 separated.now) }
{
    match separated {
        [_, _, rest @ ..] => Vec::from_slice(alloc, rest),
        _ => Ok(Vec::new(alloc)),
    }
}

// Marks the number, if it is below the count of marks.
fn mark(marks: &mut Vec<bool>, number: usize)
    ensures { body.IsMarked marks.old.items number marks.new.items }
{
    if number < marks.len() {
        marks[number] = true;
    }
}

// Returns which of the indices below a count are among these.
fn marks_of(alloc: Global, count: usize, numbers: &[usize]) -> Result<Vec<bool>, AllocError>
    ensures { IfOk result (λ marks. body.AreMarked count numbers.now marks.items) }
{
    let mut marks = Vec::new(alloc);
    marks.resize(count, false)?;
    for number in numbers {
        mark(&mut marks, *number);
    }
    Ok(marks)
}

// Appends the index, unless it is marked.
fn push_unmarked(missing: &mut Vec<usize>, index: usize, marked: bool) -> Result<(), AllocError>
    ensures { OnOk result (missing.new.items
        ≡ missing.old.items ++ (if not marked then index ∷ [] else [])) }
{
    if !marked {
        missing.push(index)?;
    }
    Ok(())
}

// Returns the indices below a count that are not among these.
fn missing(alloc: Global, count: usize, numbers: &[usize]) -> Result<Vec<usize>, AllocError>
    ensures { IfOk result (λ missing. missing.items ≡ table.missing count numbers.now) }
{
    let marks = marks_of(alloc, count, numbers)?;
    let mut missing = Vec::new(alloc);
    for index in 0..marks.len() {
        push_unmarked(&mut missing, index, marks[index])?;
    }
    Ok(missing)
}

// Appends the name at an index as one that is taken out of a list.
fn push_but(text: &mut Vec<u8>, names: &[Vec<u8>], index: usize) -> Result<(), AllocError>
    ensures { OnOk result (text.new.items ≡ text.old.items ++ codes ", !"
        ++ table.name_at (map (λ v. v.items) names.now) index) }
{
    text.extend_from_slice(b", !")?;
    if let Some(name) = names.get(index) {
        text.extend_from_slice(name.as_slice())?;
    }
    Ok(())
}

// Returns all names but those at these indices.
fn all_but(alloc: Global, names: &[Vec<u8>], indices: &[usize]) -> Result<Vec<u8>, AllocError>
    ensures { IfOk result (λ text. text.items
        ≡ table.all_but (map (λ v. v.items) names.now) indices.now) }
{
    let mut text = Vec::from_slice(alloc, b"ALL")?;
    for index in indices {
        push_but(&mut text, names, *index)?;
    }
    Ok(text)
}

// Whether there are more than four times as many names as are missing.
fn is_brief(missing: &[usize], numbers: &[usize]) -> bool
    ensures { result ≡ nat_lt (4 * length missing.now) (length numbers.now) }
{
    match missing.len().checked_mul(4) {
        Some(least) => least < numbers.len(),
        None => false,
    }
}

// Returns the names at these indices with a comma and a space between them.
fn listed_names(alloc: Global, names: &[Vec<u8>], numbers: &[usize]) -> Result<Vec<u8>, AllocError>
    ensures { IfOk result (λ text. text.items ≡ drop 2 (flat_map (λ i. body.separated
        (table.name_at (map (λ v. v.items) names.now) i)) numbers.now)) }
{
    let separated = separated_names(alloc, names, numbers)?;
    joined(alloc, &separated)
}

// Returns the names at these indices with a comma and a space between them, or `ALL` but those that are missing.
fn names_text(alloc: Global, names: &[Vec<u8>], numbers: &[usize]) -> Result<Vec<u8>, AllocError>
    ensures { IfOk result (λ text. text.items
        ≡ table.names_text (map (λ v. v.items) names.now) numbers.now) }
{
    // At least as many are missing then.
    if numbers.len() <= names.len() / 2 {
        return listed_names(alloc, names, numbers);
    }
    let missing = missing(alloc, names.len(), numbers)?;
    if is_brief(&missing, numbers) {
        return all_but(alloc, names, &missing);
    }
    listed_names(alloc, names, numbers)
}

// Returns the numbers that are there.
fn numbers_of(alloc: Global, numbers: &[Option<usize>]) -> Result<Vec<usize>, AllocError>
    ensures { IfOk result (λ there. there.items ≡ table.numbers_of numbers.now) }
{
    let mut there = Vec::new(alloc);
    let mut left = numbers;
    while let Some((number, rest)) = left.split_first() {
        push_number(&mut there, *number)?;
        left = rest;
    }
    Ok(there)
}

// Appends the number, if it is there.
fn push_number(there: &mut Vec<usize>, number: Option<usize>) -> Result<(), AllocError>
    ensures { OnOk result (there.new.items
        ≡ there.old.items ++ table.numbers_of (number ∷ [])) }
{
    if let Some(number) = number {
        there.push(number)?;
    }
    Ok(())
}

// Returns the names of those that are asked for; nothing where none is.
fn asked_text(
    alloc: Global,
    names: &[Vec<u8>],
    numbers: &[Option<usize>],
) -> Result<Vec<u8>, AllocError>
    ensures { IfOk result (λ text. text.items
        ≡ table.asked_text (map (λ v. v.items) names.now) numbers.now) }
{
    let there = numbers_of(alloc, numbers)?;
    if there.is_empty() {
        return Ok(Vec::new(alloc));
    }
    names_text(alloc, names, &there)
}

// Returns those of the groups that are asked for one by one.
fn each_of(alloc: Global, groups: &[AskedGroups]) -> Result<Vec<Option<usize>>, AllocError>
    ensures { IfOk result (λ each. each.items ≡ table.each_of groups.now) }
{
    let mut each = Vec::new(alloc);
    let mut left = groups;
    while let [first, rest @ ..] = left {
        if let AskedGroups::One(index) = first {
            each.push(*index)?;
        }
        left = rest;
    }
    Ok(each)
}

// Appends the text, if there is one, behind a comma and a space.
fn push_separated(text: &mut Vec<u8>, part: &[u8]) -> Result<(), AllocError>
    ensures { OnOk result (text.new.items ≡ text.old.items
        ++ flat_map body.separated (table.text_if part.now)) }
{
    if part.is_empty() {
        return Ok(());
    }
    text.extend_from_slice(b", ")?;
    text.extend_from_slice(part)
}

// Returns what stands for groups that depend on the target.
fn target_groups(groups: AskedGroups) -> &'static [u8]
    ensures { table.text_if result.now ≡ table.by_target (groups ∷ []) }
{
    match groups {
        AskedGroups::One(_) => b"",
        AskedGroups::Own => b"(own)",
        AskedGroups::Others => b"(others)",
    }
}

// Appends what stands for those of the groups that depend on the target.
fn push_target_groups(text: &mut Vec<u8>, groups: &[AskedGroups]) -> Result<(), AllocError>
    ensures { OnOk result (text.new.items ≡ text.old.items
        ++ flat_map body.separated (table.by_target groups.now)) }
{
    let mut left = groups;
    while let [first, rest @ ..] = left {
        push_separated(text, target_groups(*first))?;
        left = rest;
    }
    Ok(())
}

// Returns the names of the groups that are asked for, and what stands for those that depend on the target.
fn groups_text(
    alloc: Global,
    names: &[Vec<u8>],
    groups: &[AskedGroups],
) -> Result<Vec<u8>, AllocError>
    ensures { IfOk result (λ text. text.items
        ≡ table.groups_text (map (λ v. v.items) names.now) groups.now) }
{
    let each = each_of(alloc, groups)?;
    let named = asked_text(alloc, names, &each)?;
    let mut text = Vec::new(alloc);
    push_separated(&mut text, &named)?;
    push_target_groups(&mut text, groups)?;
    joined(alloc, &text)
}

// Appends three further fields of a record.
#[tactic(auto, unfolding(csv::specs::Writing::fields_text))]
fn push_three(
    text: &mut Vec<u8>,
    first: &[u8],
    second: &[u8],
    third: &[u8],
) -> Result<(), AllocError>
    ensures { OnOk result (text.new.items ≡ text.old.items
        ++ fields_text default_writer (first.now ∷ second.now ∷ third.now ∷ [])) }
{
    push_next_field(text, first)?;
    push_next_field(text, second)?;
    push_next_field(text, third)
}

// Returns the fields with which the records of a row begin.
fn row_head(alloc: Global, names: &Names, row: &Row) -> Result<Vec<u8>, AllocError>
    ensures { IfOk result (λ head. head.items ≡ body.head_of names.now row.now) }
{
    let mut head = Vec::new(alloc);
    let users = names_text(alloc, &names.users, row.users.as_slice())?;
    push_field(&mut head, &users)?;
    let hosts = names_text(alloc, &names.hosts, row.hosts.as_slice())?;
    let asked = targets_of(alloc, row.targets.as_slice())?;
    let targets = asked_text(alloc, &names.users, &asked)?;
    let groups = groups_text(alloc, &names.groups, row.groups.as_slice())?;
    push_three(&mut head, &hosts, &targets, &groups)?;
    Ok(head)
}

// Appends the fields of a verdict.
fn push_verdict(
    alloc: Global,
    text: &mut Vec<u8>,
    files: &[Seq<u8>],
    verdict: &Verdict,
) -> Result<(), AllocError>
    ensures { OnOk result (text.new.items ≡ text.old.items
        ++ fields_text default_writer (table.verdict_fields files.now verdict.now)) }
{
    let mut place = Vec::new(alloc);
    set_place(&mut place, files, verdict)?;
    let mut tags = Vec::new(alloc);
    set_tags(&mut tags, verdict)?;
    push_three(text, verdict_word(verdict), &place, &tags)
}

// A policy: the paths of its files, and the notes of its lines.
#[derive(Clone, Copy)]
struct Shown<'a> {
    files: &'a [Seq<u8>],
    noted: &'a NotedPlaces,
}

// Both policies.
#[derive(Clone, Copy)]
struct Both<'a> {
    old: Shown<'a>,
    new: Shown<'a>,
}

// Appends a last field, and the end of the record.
#[tactic(auto, unfolding(csv::specs::Writing::fields_text))]
fn push_last(text: &mut Vec<u8>, field: &[u8]) -> Result<(), AllocError>
    ensures { OnOk result (text.new.items ≡ text.old.items
        ++ (fields_text default_writer (field.now ∷ []) ++ 10 ∷ [])) }
{
    push_next_field(text, field)?;
    text.push(b'\n')?;
    Ok(())
}

// Appends the fields of both verdicts, what they depend on, and the end of the record.
fn push_verdicts(
    alloc: Global,
    text: &mut Vec<u8>,
    both: Both<'_>,
    old: &Verdict,
    new: &Verdict,
    depends: &[u8],
) -> Result<(), AllocError>
    ensures { OnOk result (text.new.items ≡ text.old.items
        ++ table.verdicts_text (body.source_by both.entry.old)
        (body.source_by both.entry.new) old.now new.now depends.now) }
{
    push_verdict(alloc, text, both.old.files, old)?;
    push_verdict(alloc, text, both.new.files, new)?;
    push_last(text, depends)
}

// Appends the record of a witness.
fn push_witness(
    alloc: Global,
    text: &mut Vec<u8>,
    both: Both<'_>,
    head: &[u8],
    witness: &Witness,
) -> Result<(), AllocError>
    ensures { OnOk result (text.new.items ≡ text.old.items ++ table.witness_line
        (body.source_by both.entry.old)
        (body.source_by both.entry.new) head.now witness.now) }
{
    text.extend_from_slice(head)?;
    let (command, arguments) = (witness.command.as_slice(), witness.arguments.as_slice());
    push_three(text, witness.answer.name(), command, arguments)?;
    push_verdicts(alloc, text, both, &witness.old, &witness.new, b"")
}

/// Returns a copy of an atom. Returns `AllocError` if allocation fails.
pub(crate) fn atom_copied(alloc: Global, atom: &Atom) -> Result<Atom, AllocError>
    ensures { IfOk result (λ copy. copy ≡ atom.now) }
{
    match atom {
        Atom::All => Ok(Atom::All),
        Atom::Alias(name) => Ok(Atom::Alias(Seq::from_slice(alloc, name.as_slice())?)),
        Atom::Name(name) => Ok(Atom::Name(Seq::from_slice(alloc, name.as_slice())?)),
        Atom::Uid(id) => Ok(Atom::Uid(*id)),
        Atom::Group(name) => Ok(Atom::Group(Seq::from_slice(alloc, name.as_slice())?)),
        Atom::Gid(id) => Ok(Atom::Gid(*id)),
        Atom::Host { chars, quoted } => Ok(Atom::Host {
            chars: Seq::from_slice(alloc, chars.as_slice())?,
            quoted: *quoted,
        }),
        Atom::Address(addr) => Ok(Atom::Address(*addr)),
        Atom::Net { addr, mask } => Ok(Atom::Net {
            addr: *addr,
            mask: *mask,
        }),
        Atom::Command { path, args: None } => Ok(Atom::Command {
            path: Seq::from_slice(alloc, path.as_slice())?,
            args: None,
        }),
        Atom::Command {
            path,
            args: Some(chars),
        } => Ok(Atom::Command {
            path: Seq::from_slice(alloc, path.as_slice())?,
            args: Some(Seq::from_slice(alloc, chars.as_slice())?),
        }),
    }
}

// Returns the text of an atom.
fn atom_text_of(alloc: Global, atom: &Atom) -> Result<Vec<u8>, AllocError>
    ensures { IfOk result (λ text. text.items ≡ atom_text atom.now) }
{
    let member = Signed {
        negated: false,
        atom: atom_copied(alloc, atom)?,
    };
    member_text(alloc, &member)
}

// Appends the command of a row, as a policy has it, behind a comma and a space, if there is one.
fn push_atom(alloc: Global, text: &mut Vec<u8>, row: &Option<Decider>) -> Result<(), AllocError>
    ensures { OnOk result (text.new.items ≡ text.old.items ++ table.row_texts row.now) }
{
    if let Some(decider) = row {
        let own = atom_text_of(alloc, &decider.atom)?;
        text.extend_from_slice(b", ")?;
        text.extend_from_slice(as_written(own.as_slice()))?;
    }
    Ok(())
}

// Returns the commands of the rows with a comma and a space between them.
fn both_atoms(
    alloc: Global,
    old: &Option<Decider>,
    new: &Option<Decider>,
) -> Result<Vec<u8>, AllocError>
    ensures { IfOk result (λ text. text.items
        ≡ drop 2 (table.row_texts old.now ++ table.row_texts new.now)) }
{
    let mut separated = Vec::new(alloc);
    push_atom(alloc, &mut separated, old)?;
    push_atom(alloc, &mut separated, new)?;
    joined(alloc, &separated)
}

// Returns the verdict of a row, if there is one.
fn row_verdict(row: &Option<Decider>) -> Verdict
    ensures { result ≡ table.row_verdict row.now }
{
    match row {
        None => Verdict::NoMatch,
        Some(decider) => match decider.answer {
            None => Verdict::Deny {
                place: decider.place,
            },
            Some(tags) => Verdict::Allow {
                place: decider.place,
                tags,
            },
        },
    }
}

// Returns which notes the line of a row has.
fn row_marks(shown: Shown<'_>, row: &Option<Decider>) -> Marks
    ensures { result ≡ table.row_marks (body.source_by shown.entry) row.now }
{
    match row {
        None => UNMARKED,
        Some(decider) => shown.noted.marks(decider.place),
    }
}

// Returns the names of the notes of the lines of both rows.
fn rows_depend(both: Both<'_>, old: &Option<Decider>, new: &Option<Decider>) -> &'static [u8]
    ensures { result.now ≡ table.rows_depend (body.source_by both.entry.old)
        (body.source_by both.entry.new) old.now new.now }
{
    let before = row_marks(both.old, old);
    before.joined(row_marks(both.new, new)).text()
}

// Appends the record of rows that may answer a command otherwise.
fn push_may(
    alloc: Global,
    text: &mut Vec<u8>,
    both: Both<'_>,
    head: &[u8],
    old: &Option<Decider>,
    new: &Option<Decider>,
) -> Result<(), AllocError>
    ensures { OnOk result (text.new.items ≡ text.old.items ++ table.may_line
        (body.source_by both.entry.old)
        (body.source_by both.entry.new) head.now old.now new.now) }
{
    let atoms = both_atoms(alloc, old, new)?;
    text.extend_from_slice(head)?;
    push_three(text, b"may", &atoms, b"")?;
    let depends = rows_depend(both, old, new);
    push_verdicts(
        alloc,
        text,
        both,
        &row_verdict(old),
        &row_verdict(new),
        depends,
    )
}

// Appends the records of witnesses.
fn push_witnesses(
    alloc: Global,
    text: &mut Vec<u8>,
    both: Both<'_>,
    head: &[u8],
    witnesses: &[Witness],
) -> Result<(), AllocError>
    ensures { OnOk result (text.new.items ≡ text.old.items ++ flat_map (table.witness_line
        (body.source_by both.entry.old)
        (body.source_by both.entry.new) head.now) witnesses.now) }
{
    for witness in witnesses {
        push_witness(alloc, text, both, head, witness)?;
    }
    Ok(())
}

// Appends a record for each witness of a finding, or one for a finding that may differ.
fn push_found(
    alloc: Global,
    text: &mut Vec<u8>,
    both: Both<'_>,
    head: &[u8],
    found: &Compared,
) -> Result<(), AllocError>
    ensures { OnOk result (text.new.items ≡ text.old.items ++ table.found_lines
        (body.source_by both.entry.old)
        (body.source_by both.entry.new) head.now found.now) }
{
    match found {
        Compared::Same => Ok(()),
        Compared::Differs(witnesses) => {
            push_witnesses(alloc, text, both, head, witnesses.as_slice())
        }
        Compared::May { old, new } => push_may(alloc, text, both, head, old, new),
    }
}

// Appends the records of a row.
fn push_row(
    alloc: Global,
    text: &mut Vec<u8>,
    both: Both<'_>,
    names: &Names,
    row: &Row,
) -> Result<(), AllocError>
    ensures { OnOk result (text.new.items ≡ text.old.items ++ body.lines_of
        (body.source_by both.entry.old)
        (body.source_by both.entry.new) names.now row.now) }
{
    let head = row_head(alloc, names, row)?;
    push_found(alloc, text, both, &head, &row.found)
}

// The names of the columns, as a record.
const HEADER: &[u8] =
    b"users,hosts,runas_user,runas_group,answer,command,arguments,old,old_place,old_tags,\
new,new_place,new_tags,depends\n";

// Returns the header and the records of the rows.
fn text_with(
    alloc: Global,
    both: Both<'_>,
    names: &Names,
    rows: &[Row],
) -> Result<Vec<u8>, AllocError>
    ensures { IfOk result (λ text. text.items ≡ table.table_header ++ 10 ∷ flat_map
        (body.lines_of (body.source_by both.entry.old)
        (body.source_by both.entry.new) names.now) rows.now) }
{
    let mut text = Vec::new(alloc);
    text.extend_from_slice(HEADER)?;
    for row in rows {
        push_row(alloc, &mut text, both, names, row)?;
    }
    Ok(text)
}

/// Returns the table of the differences of two policies as CSV: the header
/// `users,hosts,runas_user,runas_group,answer,command,arguments,old,old_place,old_tags,new,new_place,new_tags,depends`, then for
/// each row a record for each command that both policies answer otherwise, whichever noted conditions hold; or one with the
/// answer `may` and the commands of the rows that may, where `depends` has the names of the notes of their lines.
///
/// `users` and `hosts` are known ones, each as it would stand in a policy, and `ALL` where they are all; so are `runas_user` and
/// `runas_group`, which are empty where none is asked for. Returns `AllocError` if allocation fails.
pub fn differences_text(
    alloc: Global,
    old: &Checked,
    new: &Checked,
    directory: &Directory,
    groups: &[Group],
    rows: &[Row],
) -> Result<Vec<u8>, AllocError>
    ensures { IfOk result (λ text. text.items ≡ table.table_text (table.source_of old.now)
        (table.source_of new.now) directory.now groups.now rows.now) }
{
    let names = names_of(alloc, directory, groups)?;
    let old_noted = NotedPlaces::of(alloc, old)?;
    let new_noted = NotedPlaces::of(alloc, new)?;
    let both = Both {
        old: Shown {
            files: old.policy().files.as_slice(),
            noted: &old_noted,
        },
        new: Shown {
            files: new.policy().files.as_slice(),
            noted: &new_noted,
        },
    };
    text_with(alloc, both, &names, rows)
}
