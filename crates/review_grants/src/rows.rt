//! The records of the table of grants.
ghost use Rattle.std.specs.Prelude.{◌≡◌, ◌++◌, ◌∷◌, [], flat_map, true, IfOk, IsTrue, OnOk, option_copied};
ghost use Rattle.csv.specs.Writing.{default_writer, field_text, fields_text};
ghost use Rattle.std.specs.List.{list_all};
ghost use Rattle.audit_files.specs.Report.{line, tags_text};
ghost use Rattle.sudo_grammar.specs.declared.kind.Kind.TheVariants as kind;
ghost use Rattle.sudo_parser.specs.Texts.{atom_text};
ghost use Rattle.sudo_policy.specs.Body.Resolving.{command_resolves, rule_resolves, section_resolves};
ghost use Rattle.sudo_policy.specs.Resolving.{resolves};
ghost use Rattle.sudo_verdict.specs.Body.Resolved.{body_resolves};
ghost use Rattle.sudo_verdict.specs.Grants.{entry_grants, section_grants};
ghost use Rattle.review_texts.specs.Masks.{as_written};
ghost use Rattle.review_grants.specs.Body.Heads as heads;
ghost use Rattle.review_grants.specs.Depends.{IsNoted};
ghost use Rattle.review_grants.specs.GrantRows.{grants_header, is_for_host, is_for_user};
ghost use Rattle.review_grants.specs.GrantRows.{sign_text};

use crate::depends::NotedPlaces;
use crate::fields::push_one;
use crate::in_force::InForce;
use crate::names::Names;
use crate::runas_text::written;
use audit_files::{push_field, push_next_field, push_place, put_tags};
use review_texts::{as_written, note_in};
use std::alloc::{AllocError, Global};
use std::slice;
use sudo_grammar::{Entry, EntryBody, Signed};
use sudo_match::{Directory, Machine, Person};
use sudo_parser::member_text;
use sudo_policy::{Checked, CommandSpec, Kind, Member, Section};
use sudo_text::Place;
use sudo_verdict::{lists_host, lists_user};

/// Whom a table of grants is about: one user or each, on one host or on each.
#[derive(Clone, Copy)]
pub struct Scope<'a> {
    pub user: Option<&'a Person>,
    pub host: Option<&'a Machine>,
}

// Whether a user list allows the user that is asked about, if any.
fn is_for(checked: &Checked, user: Option<&Person>, users: &[Member]) -> bool
    requires { IsTrue (resolves kind.User checked.now users.now) }
    ensures { result ≡ is_for_user checked.now (option_copied user.entry) users.now }
{
    match user {
        None => true,
        Some(user) => lists_user(checked, users, user),
    }
}

// Whether a host list allows the host that is asked about, if any.
fn is_on(checked: &Checked, host: Option<&Machine>, hosts: &[Member]) -> bool
    requires { IsTrue (resolves kind.Host checked.now hosts.now) }
    ensures { result ≡ is_for_host checked.now (option_copied host.entry) hosts.now }
{
    match host {
        None => true,
        Some(host) => lists_host(checked, hosts, host),
    }
}

fn sign(negated: bool) -> &'static [u8]
    ensures { result.now ≡ sign_text negated }
{
    if negated { b"!" } else { b"" }
}

// Appends a written-out command without its sign, as a policy has it, as a field behind a comma.
fn push_atom(alloc: Global, text: &mut Vec<u8>, member: &Signed) -> Result<(), AllocError>
    ensures { OnOk result (text.new.items
        ≡ text.old.items
        ++ fields_text default_writer (as_written (atom_text member.now.atom) ∷ [])) }
{
    let own = member_text(alloc, member)?;
    if member.negated {
        return push_one(text, as_written(&own[1..]));
    }
    push_one(text, as_written(own.as_slice()))
}

// Appends the tags, what the grant depends on, and the end of the record.
#[tactic(auto, unfolding(csv::specs::Writing::fields_text))]
fn push_end(text: &mut Vec<u8>, tags: &[u8], depends: &[u8]) -> Result<(), AllocError>
    ensures { OnOk result (text.new.items
        ≡ text.old.items ++ heads.row_end tags.now depends.now) }
{
    push_next_field(text, tags)?;
    push_next_field(text, depends)?;
    text.push(b'\n')?;
    Ok(())
}

// Appends the record of a written-out command between its first fields and its last.
fn push_row(
    alloc: Global,
    text: &mut Vec<u8>,
    head: &[u8],
    end: &[u8],
    member: &Signed,
) -> Result<(), AllocError>
    ensures { OnOk result (text.new.items
        ≡ text.old.items ++ heads.command_row head.now end.now member.now) }
{
    text.extend_from_slice(head)?;
    push_one(text, sign(member.negated))?;
    push_atom(alloc, text, member)?;
    text.extend_from_slice(end)?;
    Ok(())
}

// Appends the record of a written-out command, unless it stands for a note.
fn push_member(
    alloc: Global,
    text: &mut Vec<u8>,
    head: &[u8],
    end: &[u8],
    member: &Signed,
) -> Result<(), AllocError>
    ensures { OnOk result (text.new.items
        ≡ text.old.items ++ heads.member_row head.now end.now member.now) }
{
    match note_in(&member.atom) {
        Some(_) => Ok(()),
        None => push_row(alloc, text, head, end, member),
    }
}

// Appends the records of a command, written out.
fn push_command(
    alloc: Global,
    text: &mut Vec<u8>,
    checked: &Checked,
    head: &[u8],
    end: &[u8],
    spec: &CommandSpec,
) -> Result<(), AllocError>
    requires { IsTrue (command_resolves checked.now spec.now) }
    ensures { OnOk result (text.new.items
        ≡ text.old.items ++ heads.command_rows checked.now head.now end.now spec.now) }
{
    let members = written(alloc, checked, Kind::Cmnd, slice::from_ref(&spec.command))?;
    for member in members.as_slice() {
        push_member(alloc, text, head, end, member)?;
    }
    Ok(())
}

// Appends the records of a command where this is in force.
fn push_place_rows(
    alloc: Global,
    text: &mut Vec<u8>,
    checked: &Checked,
    head: &[u8],
    depends: &[u8],
    in_force: &InForce,
    spec: &CommandSpec,
) -> Result<(), AllocError>
    requires { IsTrue (command_resolves checked.now spec.now) }
    ensures { OnOk result (text.new.items ≡ text.old.items ++ heads.command_rows checked.now
        (head.now ++ fields_text default_writer (in_force.now.runas.items ∷ []))
        (heads.row_end (tags_text in_force.now.tags) depends.now) spec.now) }
{
    let mut own = Vec::new(alloc);
    own.extend_from_slice(head)?;
    push_one(&mut own, in_force.runas.as_slice())?;
    let mut tags = Vec::new(alloc);
    put_tags(&mut tags, &in_force.tags)?;
    let mut end = Vec::new(alloc);
    push_end(&mut end, &tags, depends)?;
    push_command(alloc, text, checked, &own, &end, spec)
}

// Appends the records of the commands of a section behind the fields of its lists.
fn push_section(
    alloc: Global,
    text: &mut Vec<u8>,
    checked: &Checked,
    head: &[u8],
    depends: &[u8],
    commands: &[CommandSpec],
) -> Result<(), AllocError>
    requires { IsTrue (list_all (command_resolves checked.now) commands.now) }
    ensures { OnOk result (text.new.items ≡ text.old.items
        ++ heads.section_rows checked.now head.now depends.now commands.now) }
{
    let mut in_force = InForce::nothing(alloc);
    for spec in commands {
        in_force.pass(alloc, checked, spec)?;
        push_place_rows(alloc, text, checked, head, depends, &in_force, spec)?;
    }
    Ok(())
}

/// A policy, what its grants depend on, the known users and hosts with their names, and whom a table is about.
#[derive(Clone, Copy)]
pub(crate) struct Table<'a> {
    pub(crate) checked: &'a Checked,
    pub(crate) noted: &'a NotedPlaces,
    pub(crate) directory: &'a Directory,
    pub(crate) names: &'a Names,
    pub(crate) scope: Scope<'a>,
    ghost named: { heads.AreNames directory.now names.now },
    ghost knows: { IsNoted checked.now noted.now },
}

// Appends the records of a section, if it is for the host that is asked about.
fn push_for_host(
    alloc: Global,
    text: &mut Vec<u8>,
    table: Table<'_>,
    head: &[u8],
    depends: &[u8],
    section: &Section,
) -> Result<(), AllocError>
    requires { IsTrue (section_resolves table.checked.now section.now) }
    ensures { OnOk result (text.new.items ≡ text.old.items ++ heads.rows_on
        table.entry.checked.now table.entry.directory.now (option_copied table.entry.scope.host)
        head.now depends.now section.now) }
{
    let hosts = section.hosts.as_slice();
    if !is_on(table.checked, table.scope.host, hosts) {
        return Ok(());
    }
    let allowed = table
        .names
        .allowed_hosts(alloc, table.checked, table.directory, hosts)?;
    let mut own = Vec::new(alloc);
    own.extend_from_slice(head)?;
    push_one(&mut own, &allowed)?;
    push_section(
        alloc,
        text,
        table.checked,
        &own,
        depends,
        section.commands.as_slice(),
    )
}

// Appends the records of the sections of a rule behind the fields of its place and its users.
fn push_sections(
    alloc: Global,
    text: &mut Vec<u8>,
    table: Table<'_>,
    head: &[u8],
    depends: &[u8],
    sections: &[Section],
) -> Result<(), AllocError>
    requires { IsTrue (list_all (section_resolves table.checked.now) sections.now) }
    ensures { OnOk result (text.new.items ≡ text.old.items ++ flat_map (heads.rows_on
        table.entry.checked.now table.entry.directory.now (option_copied table.entry.scope.host)
        head.now depends.now) sections.now) }
{
    for section in sections {
        push_for_host(alloc, text, table, head, depends, section)?;
    }
    Ok(())
}

// Returns the fields of the place and the users of a rule.
fn rule_head(
    alloc: Global,
    table: Table<'_>,
    place: Place,
    users: &[Member],
) -> Result<Vec<u8>, AllocError>
    requires { IsTrue (resolves kind.User table.checked.now users.now) }
    ensures { IfOk result (λ head. head.items
        ≡ heads.rule_head table.entry.checked.now table.entry.directory.now place users.now) }
{
    let files = table.checked.policy().files.as_slice();
    let mut own = Vec::new(alloc);
    push_place(&mut own, files, place)?;
    let mut head = Vec::new(alloc);
    push_field(&mut head, &own)?;
    let allowed = table
        .names
        .allowed_users(alloc, table.checked, table.directory, users)?;
    push_one(&mut head, &allowed)?;
    Ok(head)
}

// Appends the records of a rule, if it is for the user that is asked about.
fn push_rule(
    alloc: Global,
    text: &mut Vec<u8>,
    table: Table<'_>,
    place: Place,
    users: &[Member],
    sections: &[Section],
) -> Result<(), AllocError>
    requires { IsTrue (rule_resolves table.checked.now users.now sections.now) }
    ensures { OnOk result (text.new.items ≡ text.old.items ++ heads.lines_of
        table.entry.checked.now table.entry.directory.now (option_copied table.entry.scope.user)
        (option_copied table.entry.scope.host)
        (flat_map (section_grants table.entry.checked.now place users.now) sections.now)) }
{
    if !is_for(table.checked, table.scope.user, users) {
        return Ok(());
    }
    let head = rule_head(alloc, table, place, users)?;
    let depends = table.noted.depends(place);
    push_sections(alloc, text, table, &head, depends, sections)
}

/// Appends the records of an entry: those of a rule.
pub(crate) fn push_entry(
    alloc: Global,
    text: &mut Vec<u8>,
    table: Table<'_>,
    entry: &Entry,
) -> Result<(), AllocError>
    requires { IsTrue (body_resolves table.checked.now entry.now.body) }
    ensures { OnOk result (text.new.items ≡ text.old.items ++ heads.lines_of
        table.entry.checked.now table.entry.directory.now (option_copied table.entry.scope.user)
        (option_copied table.entry.scope.host) (entry_grants table.entry.checked.now entry.now)) }
{
    match &entry.body {
        EntryBody::Rule { users, sections } => {
            let (users, sections) = (users.as_slice(), sections.as_slice());
            push_rule(alloc, text, table, entry.place, users, sections)
        }
        _ => Ok(()),
    }
}

// The names of the columns, as a record.
const HEADER: &[u8] = b"place,users,hosts,runas,sign,command,tags,depends\n";

/// Appends the record of the names of the columns.
#[tactic(auto, unfolding(csv::specs::Writing::fields_text, csv::specs::Writing::is_blank))]
pub(crate) fn push_header(text: &mut Vec<u8>) -> Result<(), AllocError>
    ensures { OnOk result (text.new.items ≡ text.old.items ++ line grants_header) }
{
    text.extend_from_slice(HEADER)
}
