//! Opens the files of an audit.
ghost use Rattle.std.specs.Prelude.{◌≡◌, ℕ, List, IfErr, IfOk, map};
ghost use Rattle.run_base.specs.Opening.{HasNoReader};
ghost use Rattle.audit_commands.specs.Opening.{AreOpened, AreSenders, AreSources, IsNotOpened, Pair};
ghost use Rattle.audit_commands.specs.Body.Opening.{AreNotSenders, HaveNoReaders};

use crate::fault::SourcesFault;
use crate::sender::sender_of;
use audit_run::Source;
use run_base::{OpenFault, Opener, open};
use std::alloc::Global;
use sudo_text::Seq;

// Returns the senders and the paths of the words `NAME=PATH`. Returns `BadSender` with the first
// word that is not of this form.
fn senders_of<'a>(alloc: Global, words: &[&'a str]) -> Result<Vec<(&'a str, &'a str)>, SourcesFault>
    ensures senders { let words = map (λ w. w.now) words.now in
        IfOk result (λ pairs. AreSenders words (map (λ p. (p.0.now, p.1.now)) pairs.items)) }
    ensures fault { IfErr result (AreNotSenders (map (λ w. w.now) words.now)) }
{
    let mut senders = Vec::new(alloc);
    for word in words {
        match sender_of(word) {
            Some(sender) => senders.push(sender)?,
            None => return Err(SourcesFault::BadSender(Seq::from_slice(alloc, word.as_bytes())?)),
        }
    }
    Ok(senders)
}

// Opens the requests file of a sender.
fn open_source<R, O: Opener<R>>(
    alloc: Global,
    opener: &O,
    name: &str,
    path: &str,
) -> Result<Source<R>, OpenFault>
    ensures opened { IfOk result (λ s. (s.name ≡ name.now) × O.opens opener.now path.now s.reader) }
    ensures fault { IfErr result (HasNoReader (O.closed opener.now) path.now) }
{
    let name = match Seq::from_slice(alloc, name.as_bytes()) {
        Ok(name) => name,
        Err(_) => return Err(OpenFault::Memory),
    };
    match open(alloc, opener, path) {
        Ok(reader) => Ok(Source { name, reader }),
        Err(fault) => Err(fault),
    }
}

// Opens the requests files, in the order in which they are named.
fn open_sources<R: Drop, O: Opener<R>>(
    alloc: Global,
    opener: &O,
    senders: &[(&str, &str)],
) -> Result<Vec<Source<R>>, OpenFault>
    ensures opened { let pairs = map (λ p. (p.0.now, p.1.now)) senders.now in
        IfOk result (λ s. AreOpened (O.opens opener.now) pairs s.items) }
    ensures fault { let pairs : List Pair = map (λ p. (p.0.now, p.1.now)) senders.now in
        IfErr result (HaveNoReaders (O.opens opener.now) (O.closed opener.now)
        (map (λ p. p.1) pairs)) }
{
    let mut sources = Vec::new(alloc);
    for (name, path) in senders {
        match open_source(alloc, opener, name, path) {
            Ok(source) => sources.push(source)?,
            Err(fault) => return Err(fault),
        }
    }
    Ok(sources)
}

/// The files of users, of hosts and of requests, opened.
#[derive(Drop)]
pub struct OpenedFiles<R> {
    pub users: R,
    pub hosts: R,
    pub sources: Vec<Source<R>>,
}

/// Opens the files: users, hosts, and the requests in the order of their words.
///
/// Returns `BadSender` with the first bad word, before any file is opened; `Unopened` with the path of the first file, in
/// that order, that cannot be opened, or with `Memory` if allocation failed.
pub fn open_all<R: Drop, O: Opener<R>>(
    alloc: Global,
    opener: &O,
    users: &str,
    hosts: &str,
    words: &[&str],
) -> Result<OpenedFiles<R>, SourcesFault>
    ensures users { IfOk result (λ files. O.opens opener.now users.now files.users) }
    ensures hosts { IfOk result (λ files. O.opens opener.now hosts.now files.hosts) }
    ensures sources { let words = map (λ w. w.now) words.now in
        IfOk result (λ files. AreSources (O.opens opener.now) words files.sources.items) }
    ensures fault { let words = map (λ w. w.now) words.now in
        IfErr result (IsNotOpened (O.opens opener.now) (O.closed opener.now)
        users.now hosts.now words) }
{
    let senders = senders_of(alloc, words)?;
    let users = match open(alloc, opener, users) {
        Ok(users) => users,
        Err(fault) => return Err(SourcesFault::Unopened(fault)),
    };
    let hosts = match open(alloc, opener, hosts) {
        Ok(hosts) => hosts,
        Err(fault) => return Err(SourcesFault::Unopened(fault)),
    };
    match open_sources(alloc, opener, &senders) {
        Ok(sources) => Ok(OpenedFiles {
            users,
            hosts,
            sources,
        }),
        Err(fault) => Err(SourcesFault::Unopened(fault)),
    }
}
