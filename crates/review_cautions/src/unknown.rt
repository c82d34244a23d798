//! Cautions on the parameters of `Defaults` lines that sudo does not know.
ghost use Rattle.std.specs.Prelude.{◌≡◌, ◌++◌, ◌∷◌, [], IfOk, OnOk, None, Some, filter, map};
ghost use Rattle.std.specs.Prelude.{if◌then◌else◌, option_map, bytes_eq};
ghost use Rattle.std.specs.List.{list_all, list_any};
ghost use Rattle.review_cautions.specs.KnownParameters as spec;
ghost use Rattle.review_cautions.specs.Cautions as cautions;
ghost use Rattle.review_cautions.specs.Parameters.{name_of};

use crate::defaults::name_of;
use crate::{Caution, CautionClass};
use std::alloc::{AllocError, Global};
use strsim::generic_levenshtein;
use sudo_policy::{Entry, EntryBody, Parameter};
use sudo_text::{Place, Seq};

/// The names of the parameters that sudo 1.9 knows.
const KNOWN_PARAMETERS: [&[u8]; 162] = [
    b"admin_flag",
    b"always_query_group_plugin",
    b"always_set_home",
    b"apparmor_profile",
    b"authenticate",
    b"authfail_message",
    b"badpass_message",
    b"case_insensitive_group",
    b"case_insensitive_user",
    b"closefrom",
    b"closefrom_override",
    b"cmddenial_message",
    b"command_timeout",
    b"compress_io",
    b"editor",
    b"env_check",
    b"env_delete",
    b"env_editor",
    b"env_file",
    b"env_keep",
    b"env_reset",
    b"exec_background",
    b"exempt_group",
    b"fast_glob",
    b"fdexec",
    b"fqdn",
    b"group_plugin",
    b"ignore_audit_errors",
    b"ignore_dot",
    b"ignore_iolog_errors",
    b"ignore_local_sudoers",
    b"ignore_logfile_errors",
    b"ignore_unknown_defaults",
    b"insults",
    b"intercept",
    b"intercept_allow_setid",
    b"intercept_authenticate",
    b"intercept_type",
    b"intercept_verify",
    b"iolog_dir",
    b"iolog_file",
    b"iolog_flush",
    b"iolog_group",
    b"iolog_mode",
    b"iolog_user",
    b"lecture",
    b"lecture_file",
    b"lecture_status_dir",
    b"limitprivs",
    b"listpw",
    b"log_allowed",
    b"log_denied",
    b"log_exit_status",
    b"log_format",
    b"log_host",
    b"log_input",
    b"log_output",
    b"log_passwords",
    b"log_server_cabundle",
    b"log_server_keepalive",
    b"log_server_peer_cert",
    b"log_server_peer_key",
    b"log_server_timeout",
    b"log_server_verify",
    b"log_servers",
    b"log_stderr",
    b"log_stdin",
    b"log_stdout",
    b"log_subcmds",
    b"log_ttyin",
    b"log_ttyout",
    b"log_year",
    b"logfile",
    b"loglinelen",
    b"long_otp_prompt",
    b"mail_all_cmnds",
    b"mail_always",
    b"mail_badpass",
    b"mail_no_host",
    b"mail_no_perms",
    b"mail_no_user",
    b"mailerflags",
    b"mailerpath",
    b"mailfrom",
    b"mailsub",
    b"mailto",
    b"match_group_by_gid",
    b"maxseq",
    b"netgroup_tuple",
    b"noexec",
    b"noninteractive_auth",
    b"pam_acct_mgmt",
    b"pam_askpass_service",
    b"pam_login_service",
    b"pam_rhost",
    b"pam_ruser",
    b"pam_service",
    b"pam_session",
    b"pam_setcred",
    b"passprompt",
    b"passprompt_override",
    b"passprompt_regex",
    b"passwd_timeout",
    b"passwd_tries",
    b"path_info",
    b"preserve_groups",
    b"privs",
    b"pwfeedback",
    b"requiretty",
    b"restricted_env_file",
    b"rlimit_as",
    b"rlimit_core",
    b"rlimit_cpu",
    b"rlimit_data",
    b"rlimit_fsize",
    b"rlimit_locks",
    b"rlimit_memlock",
    b"rlimit_nofile",
    b"rlimit_nproc",
    b"rlimit_rss",
    b"rlimit_stack",
    b"role",
    b"root_sudo",
    b"rootpw",
    b"runas_allow_unknown_id",
    b"runas_check_shell",
    b"runas_default",
    b"runaspw",
    b"runchroot",
    b"runcwd",
    b"secure_path",
    b"selinux",
    b"set_home",
    b"set_logname",
    b"set_utmp",
    b"setenv",
    b"shell_noargs",
    b"stay_setuid",
    b"sudoedit_checkdir",
    b"sudoedit_follow",
    b"sudoers_locale",
    b"syslog",
    b"syslog_badpri",
    b"syslog_goodpri",
    b"syslog_maxlen",
    b"syslog_pid",
    b"targetpw",
    b"timestamp_timeout",
    b"timestamp_type",
    b"timestampdir",
    b"timestampowner",
    b"tty_tickets",
    b"type",
    b"umask",
    b"umask_override",
    b"use_loginclass",
    b"use_netgroups",
    b"use_pty",
    b"user_command_timeouts",
    b"utmp_runas",
    b"verifypw",
    b"visiblepw",
];

// Returns the names of the parameters that sudo knows.
#[tactic(auto, unfolding(crate::specs::KnownParameters::known_parameters))]
fn known_parameters() -> &'static [&'static [u8]]
    ensures { map (λ n. n.now) result.now ≡ spec.known_parameters }
{
    &KNOWN_PARAMETERS
}

// Whether a name is one of several.
fn is_one_of(name: &[u8], names: &[&'static [u8]]) -> bool
    ensures { result ≡ list_any (bytes_eq name.now) (map (λ n. n.now) names.now) }
{
    match names {
        [] => false,
        [first, others @ ..] => name == *first || is_one_of(name, others),
    }
}

// Returns how many edits turn one name into another.
fn edits(alloc: Global, name: &[u8], other: &[u8]) -> Result<usize, AllocError>
    ensures { IfOk result (λ edits. edits ≡ spec.edits name.now other.now) }
{
    generic_levenshtein(alloc, name, other)
}

// Whether both names begin with the same byte.
fn begin_alike(name: &[u8], other: &[u8]) -> bool
    ensures { result ≡ spec.begin_alike name.now other.now }
{
    match (name, other) {
        ([byte, ..], [first, ..]) => byte == first,
        _ => false,
    }
}

// Whether the lengths differ by two at most.
fn are_of_like_length(name: &[u8], other: &[u8]) -> bool
    ensures { result ≡ spec.are_of_like_length name.now other.now }
{
    name.len().abs_diff(other.len()) <= 2
}

// Whether a name is near to another one.
fn is_near(alloc: Global, name: &[u8], other: &[u8]) -> Result<bool, AllocError>
    ensures { IfOk result (λ near. near ≡ spec.is_near name.now other.now) }
{
    if begin_alike(name, other) && are_of_like_length(name, other) {
        return Ok(edits(alloc, name, other)? <= 2);
    }
    Ok(false)
}

// Returns those of the names that are near to a name.
fn near_names(
    alloc: Global,
    name: &[u8],
    known: &[&'static [u8]],
) -> Result<Vec<&'static [u8]>, AllocError>
    ensures { IfOk result (λ near. map (λ n. n.now) near.items
        ≡ filter (spec.is_near name.now) (map (λ n. n.now) known.now)) }
{
    let mut near = Vec::new(alloc);
    for other in known {
        if is_near(alloc, name, other)? {
            near.push(*other)?;
        }
    }
    Ok(near)
}

// Returns the one of two names that has fewer edits.
fn closer(
    alloc: Global,
    name: &[u8],
    one: &'static [u8],
    other: &'static [u8],
) -> Result<&'static [u8], AllocError>
    ensures { IfOk result (λ near. near.now ≡ spec.closer name.now one.entry.now other.entry.now) }
{
    if edits(alloc, name, other)? < edits(alloc, name, one)? {
        Ok(other)
    } else {
        Ok(one)
    }
}

// Returns the name with the fewest edits, the first if several have as many.
fn closest(
    alloc: Global,
    name: &[u8],
    near: &[&'static [u8]],
) -> Result<Option<&'static [u8]>, AllocError>
    ensures { IfOk result (λ found. option_map (λ n. n.now) found
        ≡ spec.closest name.now (map (λ n. n.now) near.now)) }
{
    let [first, others @ ..] = near else {
        return Ok(None);
    };
    let mut found = *first;
    for other in others {
        found = closer(alloc, name, found, other)?;
    }
    Ok(Some(found))
}

// Returns the known name that is nearest to a name, if one is near.
fn nearest(alloc: Global, name: &[u8]) -> Result<Option<&'static [u8]>, AllocError>
    ensures { IfOk result (λ found. option_map (λ n. n.now) found ≡ spec.nearest name.now) }
{
    let near = near_names(alloc, name, known_parameters())?;
    closest(alloc, name, &near)
}

// Whether a caution may show the byte.
fn is_shown_byte(byte: u8) -> bool
    ensures { result ≡ spec.is_shown_byte byte }
{
    byte.is_ascii_alphanumeric() || byte == b'_' || byte == b'-'
}

// Returns the name, with a known one in parentheses behind it.
fn with_nearest(
    alloc: Global,
    name: &[u8],
    known: Option<&'static [u8]>,
) -> Result<Seq<u8>, AllocError>
    ensures { IfOk result (λ text. text
        ≡ spec.with_nearest name.now (option_map (λ n. n.now) known.entry)) }
{
    let mut text = Seq::from_slice(alloc, name)?;
    if let Some(known) = known {
        text.extend_from_slice(b" (")?;
        text.extend_from_slice(known)?;
        text.extend_from_slice(b"?)")?;
    }
    Ok(text)
}

// Whether a caution may show all bytes of a name.
fn is_shown(name: &[u8]) -> bool
    ensures { result ≡ list_all spec.is_shown_byte name.now }
{
    name.iter().all(|byte| is_shown_byte(*byte))
}

// Returns what a caution shows of an unknown name.
fn shown_name(alloc: Global, name: &[u8]) -> Result<Seq<u8>, AllocError>
    ensures { IfOk result (λ shown. shown ≡ spec.shown_name name.now) }
{
    if !is_shown(name) {
        return Ok(Seq::new(alloc));
    }
    let known = nearest(alloc, name)?;
    with_nearest(alloc, name, known)
}

// Appends the caution on a parameter of a line, if sudo does not know it.
fn push_parameter(
    alloc: Global,
    place: Place,
    parameter: &Parameter,
    found: &mut Vec<Caution>,
) -> Result<(), AllocError>
    ensures { OnOk result (found.new.items ≡ found.old.items
        ++ (if spec.is_unknown parameter.now then cautions.unknown_caution place parameter.now ∷ []
        else [])) }
{
    let name = name_of(alloc, parameter)?;
    if !is_one_of(name.as_slice(), known_parameters()) {
        found.push(Caution {
            class: CautionClass::UnknownParameter,
            place,
            subject: shown_name(alloc, name.as_slice())?,
        })?;
    }
    Ok(())
}

// Appends the cautions on the unknown parameters of a line.
fn push_parameters(
    alloc: Global,
    place: Place,
    parameters: &[Parameter],
    found: &mut Vec<Caution>,
) -> Result<(), AllocError>
    ensures { OnOk result (found.new.items ≡ found.old.items
        ++ cautions.unknown_parameters place parameters.now) }
{
    for parameter in parameters {
        push_parameter(alloc, place, parameter, found)?;
    }
    Ok(())
}

// Appends the cautions on the unknown parameters of an entry, if it is a `Defaults` line.
fn push_entry(alloc: Global, entry: &Entry, found: &mut Vec<Caution>) -> Result<(), AllocError>
    ensures { OnOk result (found.new.items ≡ found.old.items
        ++ cautions.unknown_in entry.now.place entry.now.body) }
{
    match &entry.body {
        EntryBody::Defaults { parameters, .. } => {
            push_parameters(alloc, entry.place, parameters.as_slice(), found)
        }
        _ => Ok(()),
    }
}

/// Appends the cautions on the unknown parameters of the `Defaults` lines among entries.
pub(crate) fn push_unknown(
    alloc: Global,
    entries: &[Entry],
    found: &mut Vec<Caution>,
) -> Result<(), AllocError>
    ensures { OnOk result (found.new.items ≡ found.old.items
        ++ cautions.unknown_cautions entries.now) }
{
    for entry in entries {
        push_entry(alloc, entry, found)?;
    }
    Ok(())
}
