//! Who a rule is for: whether its lists allow a user, a host and a target, whatever the command.

ghost use Rattle.std.specs.Prelude.{◌≡◌, IsTrue, option_copied};
ghost use Rattle.sudo_grammar.specs.declared.kind.Kind.TheVariants as kind;
ghost use Rattle.sudo_policy.specs.Resolving.{resolves, runas_resolves};
ghost use Rattle.sudo_verdict.specs.Questions.{question_as};
ghost use Rattle.sudo_verdict.specs.RunasForms.{runas_allows};
ghost use Rattle.sudo_verdict.specs.Values.{user_allowed, host_allowed};

use crate::decision::{AsCommand, AsHost, AsUser, value};
use crate::index::keys::Lists;
use crate::query::{Query, target};
use sudo_match::{Directory, Group, Machine, Person};
use sudo_policy::{Checked, Kind, Member, Runas};

/// Who asks, where, and as whom.
#[derive(Clone, Copy)]
pub struct Asker<'a> {
    pub user: &'a Person,
    pub host: &'a Machine,
    /// The user that is asked for, if any.
    pub target: Option<&'a Person>,
    /// The group that is asked for, if any.
    pub group: Option<&'a Group>,
}

/// Returns whether the user list of a rule allows a user: whether the last member that matches is without an odd number
/// of signs, all aliases written out.
pub fn lists_user(checked: &Checked, users: &[Member], user: &Person) -> bool
    requires { IsTrue (resolves kind.User checked.now users.now) }
    ensures { result ≡ user_allowed checked.now users.now user.now }
{
    let lists = Lists {
        checked,
        keys: None,
    };
    value(lists, Kind::User, users, &[], &AsUser::of(user), None).unwrap_or(false)
}

/// Returns whether the host list of a section allows a host.
pub fn lists_host(checked: &Checked, hosts: &[Member], host: &Machine) -> bool
    requires { IsTrue (resolves kind.Host checked.now hosts.now) }
    ensures { result ≡ host_allowed checked.now hosts.now host.now }
{
    let lists = Lists {
        checked,
        keys: None,
    };
    value(lists, Kind::Host, hosts, &[], &AsHost::of(host), None).unwrap_or(false)
}

/// Returns whether a runas, or its absence, allows the target and the group asked for.
pub fn allows_runas(
    checked: &Checked,
    directory: &Directory,
    asker: Asker<'_>,
    runas: Option<&Runas>,
) -> bool
    requires { IsTrue (runas_resolves checked.now (option_copied runas)) }
    ensures { result ≡ runas_allows checked.now (question_as directory.now asker.entry.user.now
        asker.entry.host.now (option_copied asker.entry.target) (option_copied asker.entry.group))
        (option_copied runas.entry) }
{
    let query = Query {
        user: AsUser::of(asker.user),
        host: AsHost::of(asker.host),
        asked: asker.target,
        group: asker.group,
        target: target(directory, asker.user, asker.target, asker.group),
        command: AsCommand {
            command: b"",
            arguments: b"",
            number_set: None,
        },
        aliases: None,
    };
    let lists = Lists {
        checked,
        keys: None,
    };
    query.runas_allows(lists, runas)
}
