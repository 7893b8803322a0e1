//! Calls on one descriptor of a stripe in their order, each with the reply that it must have.
ghost use Rattle.std.specs.Prelude.{◌≡◌, ◌≤◌, ◌<◌, ◌^◌, [], List};
ghost use Rattle.reg_keys.specs.declared.entry.Entry.{Entry};
ghost use Rattle.stripe_table.specs.Represents.{ShowsPast};

mod limits;

use reg_keys::{Dir, Dirs, Event, Key, Opening};
use std::alloc::Global;
use std::test::Fail;
use stripe_table::{
    AskReply, CloseReply, DispatchReply, FiredList, Load, OpenReply, Payload, RegisterReply,
    ReportReply, Stripe, WithdrawReply,
};

/// A job that is known by a letter.
#[derive(Drop)]
pub struct Job {
    pub letter: char,
}

impl Load for Job {
    ghost tag = { λ _. [] };
}

/// A call on descriptor 0. Openings, keys and events are named by their numbers.
#[derive(Clone, Copy)]
pub enum Do {
    Open,
    Report(u64, Dirs),
    /// The opening, the direction, the mark, and a job's letter or nothing for a flag.
    Register(u64, Dir, Option<u64>, Option<char>),
    Withdraw(u64),
    Ask(u64),
    /// The opening and the event.
    Dispatch(u64, u64),
    Close(u64),
}

fn payload(letter: Option<char>) -> Payload<Job> {
    match letter {
        Some(letter) => Payload::Job(Job { letter }),
        None => Payload::Flag,
    }
}

fn letter(job: Option<Job>) -> char {
    match job {
        Some(Job { letter }) => letter,
        None => '-',
    }
}

fn load_letter(load: Payload<Job>) -> char {
    letter(load.into_job())
}

fn dir_letter(dir: Dir) -> char {
    match dir {
        Dir::Read => 'r',
        Dir::Write => 'w',
    }
}

fn event_text(alloc: Global, event: Option<Event>) -> Result<String, Fail> {
    match event {
        Some(event) => {
            let (_, number) = event.into_parts();
            Ok(format!(in alloc; "{number}")?)
        }
        None => Ok(format!(in alloc; "no event")?),
    }
}

fn opened_text(alloc: Global, reply: OpenReply) -> Result<String, Fail> {
    match reply {
        OpenReply::Taken(o) => Ok(format!(in alloc; "Taken {}", o.number)?),
        OpenReply::Spent => Ok(format!(in alloc; "Spent")?),
        OpenReply::Opened(o) => Ok(format!(in alloc; "Opened {}", o.number)?),
    }
}

fn reported_text(alloc: Global, reply: ReportReply) -> Result<String, Fail> {
    match reply {
        ReportReply::Stale => Ok(format!(in alloc; "Stale")?),
        ReportReply::Spent => Ok(format!(in alloc; "Spent")?),
        ReportReply::Noted(event) => {
            let event = event_text(alloc, event)?;
            Ok(format!(in alloc; "Noted, {event}")?)
        }
    }
}

fn registered_text(alloc: Global, reply: RegisterReply<Job>) -> Result<String, Fail> {
    match reply {
        RegisterReply::Shut(load) => Ok(format!(in alloc; "Shut {}", load_letter(load))?),
        RegisterReply::Crowded(load) => Ok(format!(in alloc; "Crowded {}", load_letter(load))?),
        RegisterReply::Spent(load) => Ok(format!(in alloc; "Spent {}", load_letter(load))?),
        RegisterReply::Waits(key, event) => {
            let event = event_text(alloc, event)?;
            Ok(format!(in alloc; "Waits {}, {event}", key.number)?)
        }
    }
}

fn asked_text(alloc: Global, reply: AskReply) -> Result<String, Fail> {
    match reply {
        AskReply::Unknown => Ok(format!(in alloc; "Unknown")?),
        AskReply::Waiting => Ok(format!(in alloc; "Waiting")?),
        AskReply::Ran(dir, marks) => {
            Ok(format!(in alloc; "Ran {} {} {}", dir_letter(dir), marks.read, marks.write)?)
        }
        AskReply::Closed => Ok(format!(in alloc; "Closed")?),
    }
}

fn withdrawn_text(alloc: Global, reply: WithdrawReply<Job>) -> Result<String, Fail> {
    match reply {
        WithdrawReply::Gone => Ok(format!(in alloc; "Gone")?),
        WithdrawReply::Back(job) => Ok(format!(in alloc; "Back {}", letter(job))?),
    }
}

fn ran_text(alloc: Global, list: FiredList<Job>, next: Option<Event>) -> Result<String, Fail> {
    let mut list = list;
    let mut text = format!(in alloc; "Ran")?;
    while let Some(fired) = list.pop_first() {
        let (dir, marks) = (dir_letter(fired.dir), fired.marks);
        let one = format!(in alloc;
            " [{} {dir} {} {} {}]",
            fired.key.number,
            marks.read,
            marks.write,
            letter(fired.job)
        )?;
        text.push_str(one.as_str())?;
    }
    let next = event_text(alloc, next)?;
    text.push_str(", ")?;
    text.push_str(next.as_str())?;
    Ok(text)
}

fn dispatched_text(alloc: Global, reply: DispatchReply<Job>) -> Result<String, Fail> {
    match reply {
        DispatchReply::Stale => Ok(format!(in alloc; "Stale")?),
        DispatchReply::Spent(event) => Ok(format!(in alloc; "Spent {}", event.number())?),
        DispatchReply::Ran(list, next) => ran_text(alloc, list, next),
    }
}

fn closed_text(alloc: Global, reply: CloseReply<Job>) -> Result<String, Fail> {
    let CloseReply::Shut(list) = reply else {
        return Ok(format!(in alloc; "NotOpen")?);
    };
    let mut list = list;
    let mut text = format!(in alloc; "Shut")?;
    while let Some((key, job)) = list.pop_first() {
        let one = format!(in alloc; " [{} {}]", key.number, letter(job))?;
        text.push_str(one.as_str())?;
    }
    Ok(text)
}

/// Makes one call and tells its reply as a text.
pub fn perform(alloc: Global, stripe: &mut Stripe<Job>, call: Do) -> Result<String, Fail>
    requires stripe { stripe.old.stripe ≡ 0 }
    requires fits { (past : List Entry) × ShowsPast (λ _. []) past stripe.old }
    ensures stripe { stripe.new.stripe ≡ 0 }
    ensures fits { (past : List Entry) × ShowsPast (λ _. []) past stripe.new }
{
    match call {
        Do::Open => opened_text(alloc, stripe.open(0)),
        Do::Report(number, dirs) => {
            reported_text(alloc, stripe.report(Opening { number, fd: 0 }, dirs))
        }
        Do::Register(number, dir, mark, letter) => {
            let o = Opening { number, fd: 0 };
            registered_text(alloc, stripe.register(o, dir, mark, payload(letter)))
        }
        Do::Withdraw(number) => withdrawn_text(alloc, stripe.withdraw(Key { number })),
        Do::Ask(number) => asked_text(alloc, stripe.ask(Key { number })),
        Do::Dispatch(number, event) => {
            let event = Event::named(Opening { number, fd: 0 }, event);
            dispatched_text(alloc, stripe.dispatch(event))
        }
        Do::Close(number) => closed_text(alloc, stripe.close(Opening { number, fd: 0 })),
    }
}

/// Makes the calls in their order on stripe 0 from a count, and compares the replies.
pub fn run(alloc: Global, count: u64, rows: &[(Do, &str)]) -> Result<(), Fail>
    requires { (1 ≤ count) × (count < 2 ^ 50) }
{
    let mut stripe = Stripe::from_count(alloc, 0, count)?;
    for (call, reply) in rows {
        let told = perform(alloc, &mut stripe, *call)?;
        if told.as_str() != *reply {
            return Err(Fail::from(told));
        }
    }
    Ok(())
}

#[test]
fn a_closed_registration_never_runs_under_the_next_opening(rt: HostRuntime) -> Result<(), Fail> {
    run(
        rt.alloc(),
        1,
        &[
            (Do::Open, "Opened 32"),
            (Do::Register(32, Dir::Read, None, Some('A')), "Waits 64, 96"),
            (Do::Report(32, Dirs::Both), "Noted, no event"),
            (Do::Close(32), "Shut [64 A]"),
            (Do::Open, "Opened 160"),
            (
                Do::Register(160, Dir::Read, None, Some('B')),
                "Waits 192, 224",
            ),
            (Do::Dispatch(32, 96), "Stale"),
            (Do::Dispatch(160, 224), "Ran [192 r 160 160 B], no event"),
        ],
    )
}

#[test]
fn the_other_direction_gets_an_event_of_its_own(rt: HostRuntime) -> Result<(), Fail> {
    run(
        rt.alloc(),
        1,
        &[
            (Do::Open, "Opened 32"),
            (Do::Register(32, Dir::Read, None, Some('A')), "Waits 64, 96"),
            (
                Do::Register(32, Dir::Write, None, Some('B')),
                "Waits 128, no event",
            ),
            (Do::Dispatch(32, 96), "Ran [64 r 32 32 A], 160"),
            (Do::Dispatch(32, 160), "Ran [128 w 32 32 B], no event"),
            (Do::Dispatch(32, 160), "Ran, no event"),
        ],
    )
}

#[test]
fn an_old_mark_leaves_the_direction_ready(rt: HostRuntime) -> Result<(), Fail> {
    run(
        rt.alloc(),
        1,
        &[
            (Do::Open, "Opened 32"),
            (Do::Report(32, Dirs::Read), "Noted, no event"),
            (
                Do::Register(32, Dir::Read, Some(32), Some('A')),
                "Waits 96, 128",
            ),
        ],
    )
}

#[test]
fn the_mark_of_now_waits_for_the_next_report(rt: HostRuntime) -> Result<(), Fail> {
    run(
        rt.alloc(),
        1,
        &[
            (Do::Open, "Opened 32"),
            (
                Do::Register(32, Dir::Read, Some(32), Some('A')),
                "Waits 64, no event",
            ),
            (Do::Report(32, Dirs::Read), "Noted, 128"),
        ],
    )
}

#[test]
fn a_flag_that_ran_is_told_once(rt: HostRuntime) -> Result<(), Fail> {
    run(
        rt.alloc(),
        1,
        &[
            (Do::Open, "Opened 32"),
            (
                Do::Register(32, Dir::Read, Some(32), None),
                "Waits 64, no event",
            ),
            (Do::Ask(64), "Waiting"),
            (Do::Report(32, Dirs::Read), "Noted, 128"),
            (Do::Dispatch(32, 128), "Ran [64 r 96 32 -], no event"),
            (Do::Ask(64), "Ran r 96 32"),
            (Do::Ask(64), "Unknown"),
        ],
    )
}

#[test]
fn a_flag_whose_opening_closed_is_told_once(rt: HostRuntime) -> Result<(), Fail> {
    run(
        rt.alloc(),
        1,
        &[
            (Do::Open, "Opened 32"),
            (
                Do::Register(32, Dir::Read, Some(32), None),
                "Waits 64, no event",
            ),
            (Do::Register(32, Dir::Write, None, None), "Waits 96, 128"),
            (Do::Dispatch(32, 128), "Ran [96 w 32 32 -], no event"),
            (Do::Close(32), "Shut [64 -]"),
            (Do::Ask(64), "Closed"),
            (Do::Ask(64), "Unknown"),
            (Do::Ask(96), "Ran w 32 32"),
        ],
    )
}
