//! The table of who can become root, record by record.
ghost use Rattle.std.specs.Prelude.{◌≡◌, ◌++◌, ◌∷◌, [], IfOk, OnOk, Some, cond, drop, flat_map, slice_get};
ghost use Rattle.csv.specs.Writing.{default_writer, fields_text};
ghost use Rattle.audit_files.specs.Report.{line};
ghost use Rattle.review_cautions.specs.PasswordDefaults.{decides_passwords};
ghost use Rattle.review_roots.specs.AddableGroups.{AreAddable};
ghost use Rattle.review_commands.specs.RootRows as spec;

use audit_files::{push_field, push_next_field, push_place, put_tags};
use review_roots::{
    AllowingRow, HostSteps, Level, Password, Root, Rules, State, Way, roots_on, user_name,
};
use std::alloc::{AllocError, Global};
use sudo_match::{Directory, Group, Machine};
use sudo_policy::Checked;
use sudo_text::Seq;

// The policy, the known users and hosts, and the groups that may be added; whether a `Defaults` line decides about passwords;
// and whether level `listed` is listed too.
#[derive(Clone, Copy)]
pub(crate) struct RootTable<'a> {
    pub(crate) checked: &'a Checked,
    pub(crate) directory: &'a Directory,
    pub(crate) groups: &'a [Group],
    pub(crate) unsure: bool,
    pub(crate) all: bool,
    ghost grouped: { AreAddable checked.now directory.now groups.now },
    ghost decided: { unsure ≡ decides_passwords checked.now },
}

// Returns the name of the group of an index, or no bytes.
fn group_name(groups: &[Group], group: usize) -> &[u8]
    ensures { result.now ≡ spec.group_name (slice_get groups.now group) }
{
    match groups.get(group) {
        Some(group) => group.name.as_slice(),
        None => &[],
    }
}

// Appends a plus and the name of an added group, if there is one.
fn push_added(text: &mut Vec<u8>, groups: &[Group], added: Option<usize>) -> Result<(), AllocError>
    ensures { OnOk result (text.new.items
        ≡ text.old.items ++ spec.added_text groups.now added) }
{
    match added {
        None => Ok(()),
        Some(group) => {
            text.push(b'+')?;
            text.extend_from_slice(group_name(groups, group))
        }
    }
}

// Appends a state of a chain behind the user before it.
fn push_state(
    text: &mut Vec<u8>,
    directory: &Directory,
    groups: &[Group],
    before: usize,
    state: State,
) -> Result<(), AllocError>
    ensures { OnOk result (text.new.items
        ≡ text.old.items ++ spec.state_text directory.now groups.now (before, state)) }
{
    if !(state.user == before && state.added.is_some()) {
        text.extend_from_slice(user_name(directory, state.user))?;
    }
    push_added(text, groups, state.added)
}

// Returns the states of a chain that are shown.
fn shown(chain: &[State]) -> &[State]
    ensures { result.now ≡ spec.shown chain.now }
{
    match chain.split_last() {
        Some((last, rest)) if last.added.is_none() => rest,
        _ => chain,
    }
}

// Appends states, each behind ` > `.
fn push_behind(
    text: &mut Vec<u8>,
    directory: &Directory,
    groups: &[Group],
    user: usize,
    states: &[State],
) -> Result<(), AllocError>
    ensures { OnOk result (text.new.items ≡ text.old.items ++ flat_map
        (λ b. 32 ∷ 62 ∷ 32 ∷ spec.state_text directory.now groups.now b)
        (spec.behind user states.now)) }
{
    let mut before = user;
    for state in states {
        text.extend_from_slice(b" > ")?;
        push_state(text, directory, groups, before, *state)?;
        before = state.user;
    }
    Ok(())
}

// Returns a text without its first three bytes.
fn without_three(alloc: Global, text: &[u8]) -> Result<Vec<u8>, AllocError>
    ensures { IfOk result (λ rest. rest.items ≡ drop 3 text.now) }
{
    match text {
        [_, _, _, rest @ ..] => Vec::from_slice(alloc, rest),
        _ => Ok(Vec::new(alloc)),
    }
}

// Returns the shown states of a chain, with ` > ` between them.
fn via(
    alloc: Global,
    directory: &Directory,
    groups: &[Group],
    user: usize,
    chain: &[State],
) -> Result<Vec<u8>, AllocError>
    ensures { IfOk result (λ text. text.items
        ≡ spec.via_text directory.now groups.now user chain.now) }
{
    let mut behind = Vec::new(alloc);
    push_behind(&mut behind, directory, groups, user, shown(chain))?;
    without_three(alloc, &behind)
}

// Returns whose password is asked for: `?` where one may be, or where one is and a `Defaults` line decides.
fn password_text(unsure: bool, password: Password) -> &'static [u8]
    ensures { result.now ≡ spec.password_text unsure password }
{
    match password {
        Password::None => b"none",
        Password::Maybe => b"?",
        Password::Own if unsure => b"?",
        Password::Own => b"own",
        Password::Other if unsure => b"?",
        Password::Other => b"other",
    }
}

// Returns the place of a row as `PATH:LINE`, or no bytes.
fn place_of(
    alloc: Global,
    files: &[Seq<u8>],
    by: Option<AllowingRow>,
) -> Result<Vec<u8>, AllocError>
    ensures { IfOk result (λ text. text.items ≡ spec.row_place files.now by) }
{
    let mut text = Vec::new(alloc);
    if let Some(row) = by {
        push_place(&mut text, files, row.place)?;
    }
    Ok(text)
}

// Returns the names of the tags of a row, or no bytes.
fn tags_of(alloc: Global, by: Option<AllowingRow>) -> Result<Vec<u8>, AllocError>
    ensures { IfOk result (λ text. text.items ≡ spec.row_tags by) }
{
    let mut text = Vec::new(alloc);
    if let Some(row) = by {
        put_tags(&mut text, &row.tags)?;
    }
    Ok(text)
}

// The fields that say how a user becomes the target.
#[derive(Drop)]
struct WayTexts {
    level: &'static [u8],
    password: &'static [u8],
    place: Vec<u8>,
    tags: Vec<u8>,
    via: Vec<u8>,
    depends: &'static [u8],
}

// Returns the fields for a chain.
fn chain_texts(
    alloc: Global,
    table: RootTable<'_>,
    user: usize,
    way: &Way,
) -> Result<WayTexts, AllocError>
    ensures { IfOk result (λ t. spec.AreWayTexts table.entry.checked.now
        table.entry.directory.now table.entry.groups.now user (Some way.now)
        (t.level.now ∷ t.password.now ∷ t.place.items ∷ t.tags.items ∷ t.via.items
        ∷ t.depends.now ∷ [])) }
{
    let files = table.checked.policy().files.as_slice();
    Ok(WayTexts {
        level: way.level.name(),
        password: password_text(table.unsure, way.password),
        place: place_of(alloc, files, way.by)?,
        tags: tags_of(alloc, way.by)?,
        via: via(alloc, table.directory, table.groups, user, &way.chain)?,
        depends: way.marks.text(),
    })
}

// Returns the fields that say how a user becomes the target.
fn way_texts(
    alloc: Global,
    table: RootTable<'_>,
    user: usize,
    way: &Option<Way>,
) -> Result<WayTexts, AllocError>
    ensures { IfOk result (λ t. spec.AreWayTexts table.entry.checked.now
        table.entry.directory.now table.entry.groups.now user way.now
        (t.level.now ∷ t.password.now ∷ t.place.items ∷ t.tags.items ∷ t.via.items
        ∷ t.depends.now ∷ [])) }
{
    match way {
        Some(way) => chain_texts(alloc, table, user, way),
        None => Ok(WayTexts {
            level: b"root",
            password: b"none",
            place: Vec::new(alloc),
            tags: Vec::new(alloc),
            via: Vec::new(alloc),
            depends: b"",
        }),
    }
}

// Appends three further fields of a record.
#[tactic(auto, unfolding(csv::specs::Writing::fields_text))]
fn push_three(text: &mut Vec<u8>, one: &[u8], two: &[u8], three: &[u8]) -> Result<(), AllocError>
    ensures { OnOk result (text.new.items ≡ text.old.items
        ++ fields_text default_writer (one.now ∷ two.now ∷ three.now ∷ [])) }
{
    push_next_field(text, one)?;
    push_next_field(text, two)?;
    push_next_field(text, three)
}

// Appends the last two fields, and the end of the record.
#[tactic(auto, unfolding(csv::specs::Writing::fields_text))]
fn push_end(text: &mut Vec<u8>, one: &[u8], two: &[u8]) -> Result<(), AllocError>
    ensures { OnOk result (text.new.items ≡ text.old.items
        ++ (fields_text default_writer (one.now ∷ two.now ∷ []) ++ 10 ∷ [])) }
{
    push_next_field(text, one)?;
    push_next_field(text, two)?;
    text.push(b'\n')?;
    Ok(())
}

// Appends a record.
fn push_record(
    text: &mut Vec<u8>,
    user: &[u8],
    host: &[u8],
    target: &[u8],
    way: &WayTexts,
) -> Result<(), AllocError>
    ensures { OnOk result (text.new.items ≡ text.old.items ++ line (user.now ∷ host.now
        ∷ target.now ∷ way.now.level.now ∷ way.now.password.now ∷ way.now.place.items
        ∷ way.now.tags.items ∷ way.now.via.items ∷ way.now.depends.now ∷ [])) }
{
    push_field(text, user)?;
    push_three(text, host, target, way.level)?;
    push_three(
        text,
        way.password,
        way.place.as_slice(),
        way.tags.as_slice(),
    )?;
    push_end(text, way.via.as_slice(), way.depends)
}

// Appends the record of a user that can become the target on a host.
fn push_root(
    alloc: Global,
    text: &mut Vec<u8>,
    table: RootTable<'_>,
    host: &Machine,
    target: usize,
    root: &Root,
) -> Result<(), AllocError>
    ensures { OnOk result (text.new.items ≡ text.old.items ++ line (spec.root_fields
        table.entry.checked.now table.entry.directory.now table.entry.groups.now host.now
        target root.now)) }
{
    let way = way_texts(alloc, table, root.user, &root.way)?;
    let user = user_name(table.directory, root.user);
    let target = user_name(table.directory, target);
    push_record(text, user, host.name.as_slice(), target, &way)
}

// Returns the records of those that can become the target on a host.
fn rows_text(
    alloc: Global,
    table: RootTable<'_>,
    host: &Machine,
    target: usize,
    roots: &[Root],
) -> Result<Vec<u8>, AllocError>
    ensures { IfOk result (λ text. text.items ≡ flat_map (λ r. line (spec.root_fields
        table.entry.checked.now table.entry.directory.now table.entry.groups.now host.now
        target r)) roots.now) }
{
    let mut text = Vec::new(alloc);
    for root in roots {
        push_root(alloc, &mut text, table, host, target, root)?;
    }
    Ok(text)
}

fn least_listed(all: bool) -> Level
    ensures { result ≡ spec.least_listed all }
{
    if all { Level::Listed } else { Level::AllBut }
}

// Returns the records of those that can become the target on the host of the steps.
fn target_rows(
    alloc: Global,
    table: RootTable<'_>,
    steps: &HostSteps<'_, '_>,
    target: usize,
) -> Result<Vec<u8>, AllocError>
    requires policy { steps.now.checked.now ≡ table.checked.now }
    requires directory { steps.now.directory.now ≡ table.directory.now }
    requires groups { steps.now.groups.now ≡ table.groups.now }
    requires least { steps.now.least ≡ spec.least_listed table.all }
    ensures { IfOk result (λ text. spec.AreTargetRows table.entry.checked.now
        table.entry.directory.now table.entry.all steps.now.host.now target text.items) }
{
    let roots = roots_on(alloc, steps, target)?;
    rows_text(alloc, table, steps.host, target, &roots)
}

// Appends the records of a host: those of each target, in order.
fn push_host(
    alloc: Global,
    text: &mut Vec<u8>,
    table: RootTable<'_>,
    rules: &Rules<'_>,
    host: &Machine,
    targets: &[usize],
) -> Result<(), AllocError>
    requires policy { rules.now.checked.now ≡ table.checked.now }
    requires directory { rules.now.directory.now ≡ table.directory.now }
    requires groups { rules.now.groups.now ≡ table.groups.now }
    requires least { rules.now.least ≡ spec.least_listed table.all }
    requires targets { targets.now ≡ spec.targets table.directory.now }
    ensures { OnOk result (spec.Appends (spec.AreHostRows table.entry.checked.now
        table.entry.directory.now table.entry.all host.now) text.old.items text.new.items) }
{
    let steps = HostSteps::new(alloc, rules, host)?;
    for target in targets {
        let rows = target_rows(alloc, table, &steps, *target)?;
        text.extend_from_slice(rows.as_slice())?;
    }
    Ok(())
}

// Whether the known user of an index has ID 0.
fn is_zero(directory: &Directory, user: usize) -> bool
    ensures { result ≡ spec.is_zero (slice_get directory.now.people user) }
{
    match directory.people().get(user) {
        Some(person) => person.uid == 0,
        None => false,
    }
}

// Appends the known user of an index, if it has ID 0.
fn push_zero(targets: &mut Vec<usize>, directory: &Directory, user: usize) -> Result<(), AllocError>
    ensures { OnOk result (targets.new.items ≡ targets.old.items
        ++ (cond (spec.is_zero (slice_get directory.now.people user)) (user ∷ []) [])) }
{
    if is_zero(directory, user) {
        targets.push(user)?;
    }
    Ok(())
}

// Returns the known users with ID 0.
fn targets(alloc: Global, directory: &Directory) -> Result<Vec<usize>, AllocError>
    ensures { IfOk result (λ targets. targets.items ≡ spec.targets directory.now) }
{
    let mut targets = Vec::new(alloc);
    for user in 0..directory.people().len() {
        push_zero(&mut targets, directory, user)?;
    }
    Ok(targets)
}

// The names of the columns, as a record.
const HEADER: &[u8] = b"user,host,target,level,password,place,tags,via,depends\n";

// Appends the record of the names of the columns.
#[tactic(auto, unfolding(csv::specs::Writing::fields_text, csv::specs::Writing::is_blank))]
fn push_header(text: &mut Vec<u8>) -> Result<(), AllocError>
    ensures { OnOk result (text.new.items ≡ text.old.items ++ line spec.roots_header) }
{
    text.extend_from_slice(HEADER)
}

/// Returns the table of who can become root as CSV: the header `user,host,target,level,password,place,tags,via,depends`, then
/// for each known host, in order, and for each user with ID 0, in order, a record for each known user that can become it
/// there, in order.
///
/// `level` is `root` for a user with ID 0, otherwise the best level of a chain of steps: `all`, `all-but` or, with `all` of the
/// table, `listed`. `password` says whose its steps ask for. `place` and `tags` are those of a row that allows its first step;
/// `via` has the states between. `depends` names the notes on which its steps depend. Where it is empty, the record is exact;
/// otherwise `level` is an upper bound, and `password` a lower one. Returns `AllocError` if allocation failed.
pub(crate) fn roots_text(alloc: Global, table: RootTable<'_>) -> Result<Vec<u8>, AllocError>
    ensures { IfOk result (λ text. spec.AreRootRows table.entry.all table.entry.checked.now
        table.entry.directory.now text.items 0) }
{
    let targets = targets(alloc, table.directory)?;
    let least = least_listed(table.all);
    let rules = Rules::new(alloc, table.checked, table.directory, table.groups, least)?;
    let mut text = Vec::new(alloc);
    push_header(&mut text)?;
    for host in table.directory.machines() {
        push_host(alloc, &mut text, table, &rules, host, &targets)?;
    }
    Ok(text)
}
