//! A request whose names are known, and its answers from the lists of a rule.

ghost use Rattle.std.specs.Prelude.{◌≡◌, true, not, ◌∷◌, [], IsTrue, Option, Some, None, MatchResult, Ok, Err};
ghost use Rattle.std.specs.Prelude.{option_copied, is_some, unwrap_or, bytes_eq, codes};
ghost use Rattle.sudo_grammar.specs.declared.kind.Kind.TheVariants as kind;
ghost use Rattle.sudo_policy.specs.Resolving.{resolves, list_resolves, runas_resolves};
ghost use Rattle.sudo_match.specs.KnownRows.{user_named};
ghost use Rattle.sudo_verdict.specs.Keys.{HaveKeys};
ghost use Rattle.sudo_verdict.specs.Values as values;
ghost use Rattle.sudo_verdict.specs.RunasForms as form;
ghost use Rattle.sudo_verdict.specs.Questions.{question_of, target_of};
ghost use Rattle.sudo_verdict.specs.Numbers.{lacks_command};
ghost use Rattle.sudo_verdict.specs.Body.NumberSets.{set_has};
ghost use Rattle.sudo_verdict.specs.Body.Queries.{question};

use crate::decision::{AsCommand, AsGroup, AsHost, AsTarget, AsUser, value};
use crate::index::aliases::Aliases;
use crate::index::key::Key;
use crate::index::keys::Lists;
use crate::index::number_set::NumberSet;
use sudo_match::{Directory, Group, Machine, Person, Request, What};
use sudo_policy::{Kind, Member, Runas};
use sudo_text::Seq;

/// A request whose names have been looked up.
#[derive(Clone, Copy)]
pub(crate) struct Query<'a> {
    pub(crate) user: AsUser<'a>,
    pub(crate) host: AsHost<'a>,
    /// The user that is asked for, if any.
    pub(crate) asked: Option<&'a Person>,
    /// The group that is asked for, if any.
    pub(crate) group: Option<&'a Group>,
    /// The user to run the command as, if known.
    pub(crate) target: Option<&'a Person>,
    /// The command with its arguments.
    pub(crate) command: AsCommand<'a>,
    /// The numbers of aliases, where each is to be decided once for a list.
    pub(crate) aliases: Option<&'a Aliases>,
}

/// Returns the request with its names looked up, or the first name that is unknown.
#[tactic(auto, unfolding(crate::specs::Questions::question_of))]
pub(crate) fn query_of<'a>(
    directory: &'a Directory,
    request: &'a Request,
    aliases: Option<&'a Aliases>,
) -> Result<Query<'a>, What>
    ensures { MatchResult result (λ q. question_of directory.now request.now ≡ Ok (question q))
        (λ w. question_of directory.now request.now ≡ Err w) }
{
    let Some(user) = directory.user(request.user.as_slice()) else {
        return Err(What::User);
    };
    let Some(host) = directory.host(request.host.as_slice()) else {
        return Err(What::Host);
    };
    let asked = match &request.runas_user {
        None => None,
        Some(name) => match directory.user(name.as_slice()) {
            None => return Err(What::Target),
            Some(asked) => Some(asked),
        },
    };
    let group = match &request.runas_group {
        None => None,
        Some(name) => match directory.group(name.as_slice()) {
            None => return Err(What::Group),
            Some(group) => Some(group),
        },
    };
    Ok(Query {
        user: AsUser::of(user),
        host: AsHost::of(host),
        asked,
        group,
        target: target(directory, user, asked, group),
        command: AsCommand {
            command: request.command.as_slice(),
            arguments: request.arguments.as_slice(),
            number_set: None,
        },
        aliases,
    })
}

/// Returns the query with the numbers of its command, by which members of lists are passed over.
pub(crate) fn with_numbers<'a>(query: Query<'a>, number_set: &'a NumberSet) -> Query<'a>
    requires { lacks_command (λ n. not (set_has number_set.now.words n))
        query.command.command.now ≡ true }
    ensures { question result ≡ question query.entry }
{
    let command = AsCommand {
        command: query.command.command,
        arguments: query.command.arguments,
        number_set: Some(number_set),
    };
    Query { command, ..query }
}

/// Returns the user to run a command as: the user asked for; without one, the invoking user if a group is asked for,
/// otherwise root.
pub(crate) fn target<'a>(
    directory: &'a Directory,
    user: &'a Person,
    asked: Option<&'a Person>,
    group: Option<&'a Group>,
) -> Option<&'a Person>
    ensures { option_copied result ≡ target_of directory.now user.now (option_copied asked.entry)
        (option_copied group.entry) }
{
    match (asked, group) {
        (Some(target), _) => Some(target),
        (None, Some(_)) => Some(user),
        (None, None) => directory.root(),
    }
}

impl Query<'_> {
    /// Whether a rule's user list allows the invoking user.
    pub(crate) fn user_listed(&self, lists: Lists<'_>, users: &[Member], keys: &[Key]) -> bool
        requires keys { HaveKeys lists.checked.now kind.User keys.now users.now }
        requires resolves { IsTrue (resolves kind.User lists.checked.now users.now) }
        ensures { result ≡ values.user_listed lists.entry.checked.now users.now
            (question self.now) }
    {
        value(lists, Kind::User, users, keys, &self.user, self.aliases).unwrap_or(false)
    }

    /// Whether a section's host list allows the host.
    pub(crate) fn host_listed(&self, lists: Lists<'_>, hosts: &[Member], keys: &[Key]) -> bool
        requires keys { HaveKeys lists.checked.now kind.Host keys.now hosts.now }
        requires resolves { IsTrue (resolves kind.Host lists.checked.now hosts.now) }
        ensures { result ≡ values.host_listed lists.entry.checked.now hosts.now
            (question self.now) }
    {
        value(lists, Kind::Host, hosts, keys, &self.host, self.aliases).unwrap_or(false)
    }

    /// Whether a runas, or its absence, allows the command to run as the target and the group asked for.
    #[tactic(auto, unfolding(crate::specs::RunasForms::runas_allows))]
    pub(crate) fn runas_allows(&self, lists: Lists<'_>, runas: Option<&Runas>) -> bool
        requires { IsTrue (runas_resolves lists.checked.now (option_copied runas)) }
        ensures { result ≡ form.runas_allows lists.entry.checked.now (question self.now)
            (option_copied runas.entry) }
    {
        match runas {
            None => self.root_allowed(),
            Some(runas) => self.form_allows(lists, &runas.users, &runas.groups),
        }
    }

    #[tactic(auto, unfolding(crate::specs::RunasForms::form_allows))]
    fn form_allows(
        &self,
        lists: Lists<'_>,
        users: &Option<Seq<Member>>,
        groups: &Option<Seq<Member>>,
    ) -> bool
        requires users { IsTrue (list_resolves lists.checked.now users.now) }
        requires groups { IsTrue (list_resolves lists.checked.now groups.now) }
        ensures { result ≡ form.form_allows lists.entry.checked.now
            (question self.now) users.now groups.now }
    {
        match (users, groups) {
            (Some(users), Some(groups)) => self.users_and_groups_allow(
                lists,
                users.as_slice(),
                groups.as_slice(),
            ),
            (Some(users), None) => self.users_allow(lists, users.as_slice()),
            (None, Some(groups)) => self.groups_allow(lists, groups.as_slice()),
            (None, None) => self.self_allowed(),
        }
    }

    // Whether the form `(users:groups)` allows it.
    fn users_and_groups_allow(&self, lists: Lists<'_>, users: &[Member], groups: &[Member]) -> bool
        requires users { IsTrue (resolves kind.Runas lists.checked.now users.now) }
        requires groups { IsTrue (resolves kind.Runas lists.checked.now groups.now) }
        ensures { result ≡ form.users_and_groups_allow lists.entry.checked.now
            (question self.now) users.now groups.now (question self.now).target }
    {
        let Some(target) = self.target else {
            return false;
        };
        let allowed = match self.target_value(lists, users, target) {
            Some(allowed) => allowed,
            None => self.group.is_some() && is_same_user(target, self.user.user),
        };
        allowed && self.group_allowed(lists, target, groups)
    }

    // Whether the form `(users)` allows it.
    fn users_allow(&self, lists: Lists<'_>, users: &[Member]) -> bool
        requires { IsTrue (resolves kind.Runas lists.checked.now users.now) }
        ensures { result ≡ form.users_allow lists.entry.checked.now (question self.now) users.now
            (question self.now).target }
    {
        let Some(target) = self.target else {
            return false;
        };
        self.target_value(lists, users, target).unwrap_or(false) && has_asked(target, self.group)
    }

    // Whether the form `(:groups)` allows it.
    fn groups_allow(&self, lists: Lists<'_>, groups: &[Member]) -> bool
        requires { IsTrue (resolves kind.Runas lists.checked.now groups.now) }
        ensures { result ≡ form.groups_allow lists.entry.checked.now
            (question self.now) groups.now }
    {
        is_own(self.user.user, self.asked) && self.group_allowed(lists, self.user.user, groups)
    }

    // Returns the value of a runas user list for a target.
    fn target_value(&self, lists: Lists<'_>, users: &[Member], target: &Person) -> Option<bool>
        requires { IsTrue (resolves kind.Runas lists.checked.now users.now) }
        ensures { result ≡ form.target_value lists.entry.checked.now users.now target.now }
    {
        let target = AsTarget { target };
        value(lists, Kind::Runas, users, &[], &target, self.aliases)
    }

    // Whether a runas group list, or else the person's own groups, allow the group asked for.
    fn group_allowed(&self, lists: Lists<'_>, person: &Person, groups: &[Member]) -> bool
        requires { IsTrue (resolves kind.Runas lists.checked.now groups.now) }
        ensures { result ≡ form.group_allowed lists.entry.checked.now groups.now person.now
            (question self.now).group }
    {
        let Some(group) = self.group else {
            return true;
        };
        let subject = AsGroup { group };
        match value(lists, Kind::Runas, groups, &[], &subject, self.aliases) {
            Some(allowed) => allowed,
            None => person.has_gid(group.gid),
        }
    }

    /// Whether the form `()` allows it.
    pub(crate) fn self_allowed(&self) -> bool
        ensures { result ≡ form.self_allowed (question self.now) }
    {
        is_own(self.user.user, self.asked) && has_asked(self.user.user, self.group)
    }

    /// Whether the absence of a runas allows it.
    pub(crate) fn root_allowed(&self) -> bool
        ensures { result ≡ form.root_allowed (question self.now) (question self.now).target }
    {
        let Some(target) = self.target else {
            return false;
        };
        is_root(target) && has_asked(target, self.group)
    }
}

/// Whether the user has the group that is asked for, if any.
pub(crate) fn has_asked(person: &Person, group: Option<&Group>) -> bool
    ensures { result ≡ form.has_asked person.now (option_copied group.entry) }
{
    match group {
        None => true,
        Some(group) => person.has_gid(group.gid),
    }
}

/// Whether the user that is asked for, if any, is the invoking user.
pub(crate) fn is_own(user: &Person, asked: Option<&Person>) -> bool
    ensures { result ≡ form.is_own user.now (option_copied asked.entry) }
{
    match asked {
        None => true,
        Some(asked) => is_same_user(asked, user),
    }
}

pub(crate) fn is_same_user(one: &Person, other: &Person) -> bool
    ensures { result ≡ form.is_same_user one.now other.now }
{
    one.name.as_slice() == other.name.as_slice()
}

fn is_root(person: &Person) -> bool
    ensures { result ≡ bytes_eq person.now.name (codes "root") }
{
    person.name.as_slice() == b"root".as_slice()
}
