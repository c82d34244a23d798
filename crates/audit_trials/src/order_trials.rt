//! The collector on the same arrivals in every order.
use audit_collect::{
    Answer, Arrival, CollectFault, Collector, Refused, Report, RosterFault, SenderReport,
    Unfinished, collect_all,
};
use std::alloc::{AllocError, Global};
use sudo_match::{Request, Verdict, What};
use sudo_text::Seq;

// An arrival of a sender, by the number of the request or the count of the close mark.
#[derive(Clone, Copy)]
pub(crate) enum Step {
    Reply(u32, u32),
    // A reply with another verdict.
    Unknown(u32, u32),
    Close(u32, u32),
}

fn answer(alloc: Global, sender: u32, number: u32, verdict: Verdict) -> Answer {
    Answer {
        sender,
        request: Request {
            number,
            user: Seq::from_vec(Vec::new(alloc)),
            host: Seq::from_vec(Vec::new(alloc)),
            runas_user: None,
            runas_group: None,
            command: Seq::from_vec(Vec::new(alloc)),
            arguments: Seq::from_vec(Vec::new(alloc)),
        },
        verdict,
    }
}

fn arrival(alloc: Global, step: Step) -> Arrival {
    match step {
        Step::Reply(sender, number) => {
            Arrival::Reply(answer(alloc, sender, number, Verdict::NoMatch))
        }
        Step::Unknown(sender, number) => {
            Arrival::Reply(answer(alloc, sender, number, Verdict::Unknown(What::User)))
        }
        Step::Close(sender, count) => Arrival::Close { sender, count },
    }
}

/// Returns the steps in the order with this number. Its digits, the first below the number of steps,
/// the next below one less and so on, choose each next step among those that are left. So n steps
/// have n! numbers, and each order has one.
pub(crate) fn in_order(
    alloc: Global,
    steps: &[Step],
    order: usize,
) -> Result<Vec<Arrival>, AllocError> {
    let mut left = Vec::new(alloc);
    for step in steps {
        left.push(*step)?;
    }
    let mut digits = order;
    let mut arrivals = Vec::new(alloc);
    for _ in 0..steps.len() {
        let len = left.len();
        if len == 0 {
            return Ok(arrivals);
        }
        arrivals.push(arrival(alloc, left.swap_remove(digits % len)))?;
        digits /= len;
    }
    Ok(arrivals)
}

fn name(alloc: Global, letter: u8) -> Result<Seq<u8>, AllocError> {
    let mut name = Vec::new(alloc);
    name.push(letter)?;
    Ok(Seq::from_vec(name))
}

/// Returns a roster of names of one letter.
pub(crate) fn roster(alloc: Global, letters: &[u8]) -> Result<Vec<Seq<u8>>, AllocError> {
    let mut names = Vec::new(alloc);
    for letter in letters {
        names.push(name(alloc, *letter)?)?;
    }
    Ok(names)
}

// Whether the collector returns this result for the steps in the order with this number.
fn answers(
    alloc: Global,
    letters: &[u8],
    steps: &[Step],
    order: usize,
    wanted: &Result<Report, CollectFault>,
) -> Result<bool, AllocError> {
    let names = roster(alloc, letters)?;
    let arrivals = in_order(alloc, steps, order)?;
    Ok(collect_all(alloc, names, arrivals) == *wanted)
}

// Returns the report of a sender whose answers have the numbers 1 to `count`.
fn sender_report(
    alloc: Global,
    letter: u8,
    sender: u32,
    count: u32,
) -> Result<SenderReport, AllocError> {
    let mut answers = Vec::new(alloc);
    for before in 0..count {
        answers.push(answer(alloc, sender, before + 1, Verdict::NoMatch))?;
    }
    Ok(SenderReport {
        name: name(alloc, letter)?,
        answers: Seq::from_vec(answers),
    })
}

/// Returns the report of the sender a, which sent two requests, and the sender b, which sent one.
pub(crate) fn two_and_one(alloc: Global) -> Result<Report, AllocError> {
    let mut senders = Vec::new(alloc);
    senders.push(sender_report(alloc, b'a', 0, 2)?)?;
    senders.push(sender_report(alloc, b'b', 1, 1)?)?;
    Ok(Report {
        senders: Seq::from_vec(senders),
    })
}

#[test]
fn any_of_120_orders_gives_the_report(rt: HostRuntime) -> Result<(), AllocError> {
    let alloc = rt.alloc();
    let steps = [
        Step::Reply(0, 1),
        Step::Reply(0, 2),
        Step::Close(0, 2),
        Step::Reply(1, 1),
        Step::Close(1, 1),
    ];
    let wanted = Ok(two_and_one(alloc)?);
    for order in 0..120 {
        assert!(rt;
            answers(alloc, b"ab", &steps, order, &wanted)?,
            "order {order}"
        );
    }
    Ok(())
}

#[test]
fn a_number_twice_is_double_in_any_of_24_orders(rt: HostRuntime) -> Result<(), AllocError> {
    let alloc = rt.alloc();
    let steps = [
        Step::Reply(0, 1),
        Step::Reply(0, 2),
        Step::Unknown(0, 2),
        Step::Close(0, 2),
    ];
    let wanted = Err(CollectFault::Refused(Refused::Double {
        sender: 0,
        number: 2,
    }));
    for order in 0..24 {
        assert!(rt;
            answers(alloc, b"a", &steps, order, &wanted)?,
            "order {order}"
        );
    }
    Ok(())
}

#[test]
fn a_number_above_the_count_is_past_close_in_any_of_6_orders(
    rt: HostRuntime,
) -> Result<(), AllocError> {
    let alloc = rt.alloc();
    let steps = [Step::Reply(0, 1), Step::Reply(0, 3), Step::Close(0, 2)];
    let wanted = Err(CollectFault::Refused(Refused::PastClose {
        sender: 0,
        number: 3,
    }));
    for order in 0..6 {
        assert!(rt;
            answers(alloc, b"a", &steps, order, &wanted)?,
            "order {order}"
        );
    }
    Ok(())
}

#[test]
fn the_greatest_number_alone_leaves_a_gap(rt: HostRuntime) -> Result<(), AllocError> {
    let alloc = rt.alloc();
    let steps = [Step::Reply(0, u32::MAX), Step::Close(0, u32::MAX)];
    let wanted = Err(CollectFault::Unfinished(Unfinished::Gap {
        sender: 0,
        number: 1,
    }));
    for order in 0..2 {
        assert!(rt;
            answers(alloc, b"a", &steps, order, &wanted)?,
            "order {order}"
        );
    }
    Ok(())
}

#[test]
fn rosters_are_refused(rt: HostRuntime) -> Result<(), AllocError> {
    let alloc = rt.alloc();
    let repeated = Err(CollectFault::Roster(RosterFault::SenderTwice {
        name: name(alloc, b'b')?,
    }));
    assert!(rt; answers(alloc, b"abcba", &[], 0, &repeated)?);
    let mut letters = Vec::new(alloc);
    for letter in 0u8..65 {
        letters.push(letter)?;
    }
    let many = Err(CollectFault::Roster(RosterFault::TooManySenders));
    assert!(rt; answers(alloc, &letters, &[], 0, &many)?);
    Ok(())
}

fn refusal(collector: &mut Collector, arrival: Arrival) -> Option<Refused> {
    match collector.offer(arrival) {
        Ok(()) => None,
        Err((_, refused)) => Some(refused),
    }
}

// Returns how many answers of the sender are released, or `None` for a stranger.
fn released_len(collector: &Collector, sender: u32) -> Option<usize> {
    match collector.released(sender) {
        Some(answers) => Some(answers.len()),
        None => None,
    }
}

// Whether the collector answers each step as the step says, and has then released so many answers of the sender 0.
fn takes(
    alloc: Global,
    collector: &mut Collector,
    steps: &[(Step, Option<Refused>, usize)],
) -> bool {
    for (step, wanted, released) in steps {
        let is_as_wanted = refusal(collector, arrival(alloc, *step)) == *wanted;
        if !is_as_wanted || released_len(collector, 0) != Some(*released) {
            return false;
        }
    }
    true
}

// Returns the collector of a report that is not finished, and what is missing.
fn unfinished(collector: Collector) -> Result<(Collector, Unfinished), AllocError> {
    match collector.finish() {
        Ok(_report) => Err(AllocError),
        Err(unfinished) => Ok(unfinished),
    }
}

#[test]
fn what_is_refused_changes_nothing(rt: HostRuntime) -> Result<(), AllocError> {
    let alloc = rt.alloc();
    let Ok(mut collector) = Collector::new(alloc, roster(alloc, b"a")?) else {
        return Err(AllocError);
    };
    let double = Refused::Double {
        sender: 0,
        number: 2,
    };
    let zero = Refused::ZeroNumber { sender: 0 };
    let steps = [
        (Step::Reply(0, 2), None, 0),
        (Step::Unknown(0, 2), Some(double), 0),
        (Step::Reply(1, 1), Some(Refused::Stranger { sender: 1 }), 0),
        (Step::Reply(0, 0), Some(zero), 0),
    ];
    assert!(rt; takes(alloc, &mut collector, &steps));
    assert!(rt; released_len(&collector, 1).is_none());
    let (mut collector, open) = unfinished(collector)?;
    assert!(rt; open == Unfinished::Open { sender: 0 });
    let past = Refused::PastClose {
        sender: 0,
        number: 5,
    };
    let again = Refused::ClosedTwice { sender: 0 };
    let steps = [
        (Step::Close(0, 4), None, 0),
        (Step::Reply(0, 5), Some(past), 0),
        (Step::Close(0, 4), Some(again), 0),
    ];
    assert!(rt; takes(alloc, &mut collector, &steps));
    let (mut collector, gap) = unfinished(collector)?;
    assert!(rt;
        gap == Unfinished::Gap {
            sender: 0,
            number: 1
        }
    );
    let steps = [
        (Step::Reply(0, 4), None, 0),
        (Step::Reply(0, 1), None, 2),
        (Step::Reply(0, 3), None, 4),
    ];
    assert!(rt; takes(alloc, &mut collector, &steps));
    let mut senders = Vec::new(alloc);
    senders.push(sender_report(alloc, b'a', 0, 4)?)?;
    let wanted = Report {
        senders: Seq::from_vec(senders),
    };
    let Ok(report) = collector.finish() else {
        return Err(AllocError);
    };
    assert!(rt; report == wanted);
    Ok(())
}
