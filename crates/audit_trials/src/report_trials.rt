//! The text of reports.

use audit_collect::{Answer, Report, SenderReport};
use audit_files::report_text;
use std::alloc::{AllocError, Global};
use std::test::Fail;
use sudo_match::{Request, Tags, Verdict, What};
use sudo_policy::{TAG_PAIRS, TagPair};
use sudo_text::{Place, Seq};

fn text(alloc: Global, text: &[u8]) -> Result<Seq<u8>, AllocError> {
    Seq::from_slice(alloc, text)
}

fn answer(alloc: Global, number: u32, verdict: Verdict) -> Result<Answer, AllocError> {
    Ok(Answer {
        sender: 0,
        request: Request {
            number,
            user: text(alloc, b"alice")?,
            host: text(alloc, b"web1.example.org")?,
            runas_user: None,
            runas_group: None,
            command: text(alloc, b"/bin/kill")?,
            arguments: text(alloc, b"")?,
        },
        verdict,
    })
}

fn nopasswd() -> Tags {
    let mut choices = [None; TAG_PAIRS.len()];
    choices[TagPair::Passwd as usize] = Some(false);
    choices[TagPair::SetEnv as usize] = Some(true);
    Tags { choices }
}

/// A report of two answers.
pub(crate) fn two_answers(alloc: Global) -> Result<Report, AllocError> {
    let mut answers = Vec::new(alloc);
    answers.push(answer(
        alloc,
        1,
        Verdict::Allow {
            place: Place { file: 1, line: 12 },
            tags: nopasswd(),
        },
    )?)?;
    answers.push(answer(alloc, 2, Verdict::Unknown(What::User))?)?;
    let mut senders = Vec::new(alloc);
    senders.push(SenderReport {
        name: text(alloc, b"s")?,
        answers: Seq::from_vec(answers),
    })?;
    Ok(Report {
        senders: Seq::from_vec(senders),
    })
}

/// The files whose lines the report names.
pub(crate) fn two_files(alloc: Global) -> Result<Vec<Seq<u8>>, AllocError> {
    let mut files = Vec::new(alloc);
    files.push(text(alloc, b"/etc/sudoers")?)?;
    files.push(text(alloc, b"/etc/sudoers.d/a,b")?)?;
    Ok(files)
}

/// The text of that report.
pub(crate) const TWO_ANSWERS: &[u8] =
    b"sender,number,verdict,line,tags\ns,1,allow,\"/etc/sudoers.d/a,b:12\",NOPASSWD SETENV\ns,2,unknown-user,,\n";

#[test]
fn a_report_of_two_answers(rt: HostRuntime) -> Result<(), Fail> {
    let alloc = rt.alloc();
    let files = two_files(alloc)?;
    let found = report_text(alloc, &two_answers(alloc)?, files.as_slice())?;
    assert!(rt; found.as_slice() == TWO_ANSWERS);
    Ok(())
}

#[test]
fn a_report_of_no_sender(rt: HostRuntime) -> Result<(), Fail> {
    let report = Report {
        senders: Seq::new(rt.alloc()),
    };
    let found = report_text(rt.alloc(), &report, &[])?;
    assert!(rt; found.len() == 32);
    Ok(())
}
