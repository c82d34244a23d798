//! Verdicts by the index of the rules and by `verdict` itself, which are alike. The program's tables have the same rows.

ghost use Rattle.sudo_verdict.specs.Postings.{Indexes};

use crate::fixtures::requests_file;
use audit_collect::{Answer, Report, SenderReport};
use audit_files::{Requests, Script, read_hosts, read_requests, read_users, report_text};
use std::alloc::{AllocError, Global};
use std::test::Fail;
use sudo_load::{Supply, load};
use sudo_match::{Directory, Request, Verdict};
use sudo_policy::{Checked, check};
use sudo_text::Seq;
use sudo_verdict::{RuleIndex, verdict};

const USERS: &[u8] =
    b"user,uid,groups\nroot,0,root:0\nalice,1000,alice:1000 adm:4\nbob,1001,bob:1001 operator:37\noperator,11,operator:37\n";

const HOSTS: &[u8] =
    b"host,interfaces\nweb1.example.org,10.1.2.3/16 127.0.0.1/8\nweb2.example.org,10.2.0.9/16\n";

// A policy, with `;` for the end of a line, a request, and the end of its row in the report.
const ORDER: &str = "
alice ALL = ALL, !/bin/su | alice,web1.example.org,,,/bin/su, => deny,p:1,
alice ALL = !/bin/su, ALL | alice,web1.example.org,,,/bin/su, => allow,p:1,SETENV
Cmnd_Alias SAFE = /bin/*, !/bin/su;alice ALL = !SAFE | alice,web1.example.org,,,/bin/su, => allow,p:2,
Cmnd_Alias SAFE = /bin/*, !/bin/su;alice ALL = !SAFE | alice,web1.example.org,,,/bin/ls, => deny,p:2,
User_Alias X = \"%domain users\", bo\\x62;X ALL = /bin/ls | bob,web1.example.org,,,/bin/ls, => allow,p:2,
#1000 ALL = /bin/ls, \\;    /bin/cat # note | alice,web1.example.org,,,/bin/cat, => allow,p:1,
# old rule \\;alice ALL = /bin/ls | alice,web1.example.org,,,/bin/ls, => allow,p:2,
";

const TARGETS: &str = "
alice ALL = (operator) /bin/ls, (root) /bin/kill, /usr/bin/lprm | alice,web1.example.org,operator,,/bin/ls, => allow,p:1,
alice ALL = (operator) /bin/ls, (root) /bin/kill, /usr/bin/lprm | alice,web1.example.org,,,/bin/ls, => nomatch,,
alice ALL = (operator) /bin/ls, (root) /bin/kill, /usr/bin/lprm | alice,web1.example.org,,,/usr/bin/lprm, => allow,p:1,
alice ALL = (operator) /bin/ls, (root) /bin/kill, /usr/bin/lprm | alice,web1.example.org,operator,,/usr/bin/lprm, => nomatch,,
alice ALL = (root) /bin/ls, (operator) /bin/ls | alice,web1.example.org,,,/bin/ls, => allow,p:1,
alice ALL = /bin/id | alice,web1.example.org,,,/bin/id, => allow,p:1,
alice ALL = /bin/id | alice,web1.example.org,root,root,/bin/id, => allow,p:1,
alice ALL = /bin/id | alice,web1.example.org,,adm,/bin/id, => nomatch,,
alice ALL = /bin/id | alice,web1.example.org,alice,,/bin/id, => nomatch,,
alice ALL = (operator) /bin/id | alice,web1.example.org,operator,,/bin/id, => allow,p:1,
alice ALL = (operator) /bin/id | alice,web1.example.org,operator,operator,/bin/id, => allow,p:1,
alice ALL = (operator) /bin/id | alice,web1.example.org,,,/bin/id, => nomatch,,
alice ALL = (operator) /bin/id | alice,web1.example.org,operator,adm,/bin/id, => nomatch,,
alice ALL = (operator) /bin/id | alice,web1.example.org,,adm,/bin/id, => nomatch,,
alice ALL = (operator:adm) /bin/id | alice,web1.example.org,operator,,/bin/id, => allow,p:1,
alice ALL = (operator:adm) /bin/id | alice,web1.example.org,operator,adm,/bin/id, => allow,p:1,
alice ALL = (operator:adm) /bin/id | alice,web1.example.org,operator,operator,/bin/id, => allow,p:1,
alice ALL = (operator:adm) /bin/id | alice,web1.example.org,,adm,/bin/id, => allow,p:1,
alice ALL = (operator:adm) /bin/id | alice,web1.example.org,operator,alice,/bin/id, => nomatch,,
alice ALL = (operator:adm) /bin/id | alice,web1.example.org,,operator,/bin/id, => nomatch,,
alice ALL = (operator:adm) /bin/id | alice,web1.example.org,,,/bin/id, => nomatch,,
alice ALL = (:operator) /bin/id | alice,web1.example.org,alice,,/bin/id, => allow,p:1,
alice ALL = (:operator) /bin/id | alice,web1.example.org,,,/bin/id, => allow,p:1,
alice ALL = (:operator) /bin/id | alice,web1.example.org,,operator,/bin/id, => allow,p:1,
alice ALL = (:operator) /bin/id | alice,web1.example.org,,adm,/bin/id, => allow,p:1,
alice ALL = (:operator) /bin/id | alice,web1.example.org,root,,/bin/id, => nomatch,,
alice ALL = (:operator) /bin/id | alice,web1.example.org,,root,/bin/id, => nomatch,,
alice ALL = () /bin/id | alice,web1.example.org,alice,,/bin/id, => allow,p:1,
alice ALL = () /bin/id | alice,web1.example.org,,,/bin/id, => allow,p:1,
alice ALL = () /bin/id | alice,web1.example.org,,adm,/bin/id, => allow,p:1,
alice ALL = () /bin/id | alice,web1.example.org,,operator,/bin/id, => nomatch,,
alice ALL = () /bin/id | alice,web1.example.org,root,,/bin/id, => nomatch,,
alice ALL = (ALL:ALL, !adm) /bin/id | alice,web1.example.org,operator,operator,/bin/id, => allow,p:1,
alice ALL = (ALL:ALL, !adm) /bin/id | alice,web1.example.org,bob,alice,/bin/id, => allow,p:1,
alice ALL = (ALL:ALL, !adm) /bin/id | alice,web1.example.org,operator,adm,/bin/id, => nomatch,,
alice ALL = (ALL:ALL, !adm) /bin/id | alice,web1.example.org,,adm,/bin/id, => nomatch,,
";

const COMMANDS: &str = "
alice web1 = NOPASSWD: /bin/kill, /usr/bin/lprm, PASSWD: /bin/ls : web2 = \
    /bin/kill | alice,web1.example.org,,,/bin/kill, => allow,p:1,NOPASSWD
alice web1 = NOPASSWD: /bin/kill, /usr/bin/lprm, PASSWD: /bin/ls : web2 = \
    /bin/kill | alice,web1.example.org,,,/usr/bin/lprm, => allow,p:1,NOPASSWD
alice web1 = NOPASSWD: /bin/kill, /usr/bin/lprm, PASSWD: /bin/ls : web2 = /bin/kill | alice,web1.example.org,,,/bin/ls, => allow,p:1,PASSWD
alice web1 = NOPASSWD: /bin/kill, /usr/bin/lprm, PASSWD: /bin/ls : web2 = /bin/kill | alice,web2.example.org,,,/bin/kill, => allow,p:1,
alice web1 = NOPASSWD: /bin/kill, /usr/bin/lprm, PASSWD: /bin/ls : web2 = /bin/kill | alice,web2.example.org,,,/bin/ls, => nomatch,,
alice web1 = NOPASSWD: /bin/kill, /usr/bin/lprm, PASSWD: /bin/ls : web2 = /bin/kill | carol,web1.example.org,,,/bin/kill, => unknown-user,,
alice ALL = /usr/bin/, /bin/cat *, /bin/who \"\", sudoedit /etc/*, /bin/dd if=/dev/zero \
    | alice,web1.example.org,,,/usr/bin/id,-u => allow,p:1,
alice ALL = /usr/bin/, /bin/cat *, /bin/who \"\", sudoedit /etc/*, /bin/dd if=/dev/zero \
    | alice,web1.example.org,,,/usr/bin/X11/xterm, => nomatch,,
alice ALL = /usr/bin/, /bin/cat *, /bin/who \"\", sudoedit /etc/*, /bin/dd if=/dev/zero | alice,web1.example.org,,,/usr/bin/, => nomatch,,
alice ALL = /usr/bin/, /bin/cat *, /bin/who \"\", sudoedit /etc/*, /bin/dd if=/dev/zero \
    | alice,web1.example.org,,,/bin/cat,/var/log/messages => allow,p:1,
alice ALL = /usr/bin/, /bin/cat *, /bin/who \"\", sudoedit /etc/*, /bin/dd if=/dev/zero | alice,web1.example.org,,,/bin/who, => allow,p:1,
alice ALL = /usr/bin/, /bin/cat *, /bin/who \"\", sudoedit /etc/*, /bin/dd if=/dev/zero \
    | alice,web1.example.org,,,/bin/who,am i => nomatch,,
alice ALL = /usr/bin/, /bin/cat *, /bin/who \"\", sudoedit /etc/*, /bin/dd if=/dev/zero \
    | alice,web1.example.org,,,sudoedit,/etc/motd => allow,p:1,
alice ALL = /usr/bin/, /bin/cat *, /bin/who \"\", sudoedit /etc/*, /bin/dd if=/dev/zero \
    | alice,web1.example.org,,,sudoedit,/etc/a/b => nomatch,,
alice ALL = /usr/bin/, /bin/cat *, /bin/who \"\", sudoedit /etc/*, /bin/dd if=/dev/zero \
    | alice,web1.example.org,,,/bin/dd,if=/dev/zero => allow,p:1,
alice ALL = /usr/bin/, /bin/cat *, /bin/who \"\", sudoedit /etc/*, /bin/dd if=/dev/zero \
    | alice,web1.example.org,,,/bin/dd,if=/dev/null => nomatch,,
";

const MACHINES: &str = "
alice 10.1.0.0/255.255.0.0 = /bin/ls | alice,web1.example.org,,,/bin/ls, => allow,p:1,
alice 10.1.0.0/255.255.0.0 = /bin/ls | alice,web2.example.org,,,/bin/ls, => nomatch,,
alice 10.1.0.0/16 = /bin/ls | alice,web1.example.org,,,/bin/ls, => allow,p:1,
alice 10.1.0.0/16 = /bin/ls | alice,web2.example.org,,,/bin/ls, => nomatch,,
alice 10.1.0.0 = /bin/ls | alice,web1.example.org,,,/bin/ls, => allow,p:1,
alice 10.1.0.0 = /bin/ls | alice,web2.example.org,,,/bin/ls, => nomatch,,
alice 10.1.2.3 = /bin/ls | alice,web1.example.org,,,/bin/ls, => allow,p:1,
alice 10.1.2.3 = /bin/ls | alice,web2.example.org,,,/bin/ls, => nomatch,,
alice WEB1.example.org = /bin/ls | alice,web1.example.org,,,/bin/ls, => allow,p:1,
alice web? = /bin/ls | alice,web1.example.org,,,/bin/ls, => allow,p:1,
alice 127.0.0.1 = /bin/ls | alice,web1.example.org,,,/bin/ls, => nomatch,,
alice 127.0.0.1 = /bin/ls | alice,web2.example.org,,,/bin/ls, => nomatch,,
alice 127.0.0.0/8 = /bin/ls | alice,web1.example.org,,,/bin/ls, => nomatch,,
alice 127.0.0.0/8 = /bin/ls | alice,web2.example.org,,,/bin/ls, => nomatch,,
";

// Returns the directory of the users and hosts above.
fn directory(alloc: Global) -> Result<Directory, Fail> {
    let people = read_users(alloc, &mut Script::of(alloc, USERS, 100)?)?;
    let machines = read_hosts(alloc, &mut Script::of(alloc, HOSTS, 100)?)?;
    match Directory::new(alloc, people, machines) {
        Ok(directory) => Ok(directory),
        Err(_) => Err(Fail::new("the directory has a fault")),
    }
}

// Returns the policy of this text, with `;` for the end of a line.
fn policy(alloc: Global, text: &str) -> Result<Checked, Fail> {
    let mut lines = String::new(alloc);
    for c in text.chars() {
        lines.push(if c == ';' { '\n' } else { c })?;
    }
    let supplies: [Supply; 0] = [];
    match load(alloc, b"p", lines.as_str().as_bytes(), &supplies) {
        Ok(policy) => match check(alloc, policy) {
            Ok(checked) => Ok(checked),
            Err(_) => Err(Fail::new("the policy has errors")),
        },
        Err(_) => Err(Fail::new("the policy is not read")),
    }
}

// Returns the request of a row without its number.
fn requests(alloc: Global, row: &str) -> Result<Requests, Fail> {
    let rows = format!(in alloc; "1,{row}\nclose,1,,,,,\n")?;
    let file = requests_file(alloc, rows.as_str().as_bytes())?;
    Ok(read_requests(alloc, &mut Script::of(alloc, &file, 100)?)?)
}

// Returns the verdict on a request by the index, which must be the one by `verdict`.
fn both(
    alloc: Global,
    policy: &Checked,
    directory: &Directory,
    request: &Request,
) -> Result<Verdict, Fail> {
    let index = RuleIndex::of(alloc, policy)?;
    let found = index.verdict(policy, directory, request);
    drop(index);
    if found == verdict(policy, directory, request) {
        Ok(found)
    } else {
        Err(Fail::new("the verdicts differ"))
    }
}

// Returns the answer to a request.
fn answer(
    alloc: Global,
    policy: &Checked,
    directory: &Directory,
    request: Request,
) -> Result<Answer, Fail> {
    let verdict = both(alloc, policy, directory, &request)?;
    Ok(Answer {
        sender: 0,
        request,
        verdict,
    })
}

// Returns the answers to the requests.
fn answers(
    alloc: Global,
    policy: &Checked,
    directory: &Directory,
    requests: Requests,
) -> Result<Vec<Answer>, Fail> {
    let mut answers = Vec::new(alloc);
    for request in requests.list.into_vec() {
        answers.push(answer(alloc, policy, directory, request)?)?;
    }
    Ok(answers)
}

// Returns the report on one sender, with these answers.
fn of_one_sender(alloc: Global, answers: Vec<Answer>) -> Result<Report, Fail> {
    let mut senders = Vec::new(alloc);
    senders.push(SenderReport {
        name: Seq::from_slice(alloc, b"s")?,
        answers: Seq::from_vec(answers),
    })?;
    Ok(Report {
        senders: Seq::from_vec(senders),
    })
}

// Returns the report on the requests.
fn report(alloc: Global, policy: &Checked, requests: Requests) -> Result<Report, Fail> {
    let directory = directory(alloc)?;
    let answers = answers(alloc, policy, &directory, requests);
    drop(directory);
    of_one_sender(alloc, answers?)
}

// Returns the report on a request under a policy.
fn judged(alloc: Global, policy_text: &str, row: &str) -> Result<Report, Fail> {
    let requests = requests(alloc, row)?;
    let checked = policy(alloc, policy_text)?;
    let report = report(alloc, &checked, requests);
    drop(checked);
    report
}

// Returns the text of that report.
fn reported(alloc: Global, policy_text: &str, row: &str) -> Result<String, Fail> {
    let report = judged(alloc, policy_text, row)?;
    let mut files = Vec::new(alloc);
    files.push(Seq::from_slice(alloc, b"p")?)?;
    let text = report_text(alloc, &report, &files)?;
    Ok(String::from_utf8_lossy(alloc, text.as_slice())?)
}

// Whether the report on a row's request ends as the row says, or the line is empty.
fn holds(alloc: Global, line: &str) -> Result<bool, Fail> {
    let Some((policy_and_request, end)) = line.split_once(" => ") else {
        return Ok(line.is_empty());
    };
    let Some((policy, request)) = policy_and_request.split_once(" | ") else {
        return Ok(false);
    };
    let wanted = format!(in alloc; "sender,number,verdict,line,tags\ns,1,{end}\n")?;
    Ok(reported(alloc, policy, request)?.as_str() == wanted.as_str())
}

#[test]
fn verdicts_with_and_without_an_index(rt: HostRuntime) -> Result<(), Fail> {
    for table in [ORDER, TARGETS, COMMANDS, MACHINES] {
        for line in table.lines() {
            assert!(rt; holds(rt.alloc(), line)?, "{line}");
        }
    }
    Ok(())
}
