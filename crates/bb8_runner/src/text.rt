//! The output lines of a script.
ghost use Rattle.std.specs.Prelude.{◌≡◌, ◌++◌, Some, IfOk, string_bytes};
ghost use Rattle.bb8_types.specs.Figures.{counts_of, figures_of};
ghost use Rattle.bb8_runner.specs.Text.{grant_text, notifies_text, gets_text, connections_text, gone_text, state_text, answer_text, output_of, bad_line_text};

use bb8_core::api::{Moment, State, Statistics};
use bb8_core::internals::Grant;
use bb8_core::replay::Answer;
use std::alloc::{AllocError, Global};
use std::fmt;
use std::fmt::Write;

/// The approvals granted and those withheld; neither is printed if it is 0.
#[derive(Clone, Copy)]
struct GrantPart(Grant);

impl fmt::Display for GrantPart {
    ghost output = { λ p. Some (grant_text p.0) };

    fn fmt<W: fmt::Write>(&self, f: &mut fmt::Formatter<W>) -> fmt::Result {
        let Grant {
            first,
            count,
            withheld,
        } = self.0;
        if count != 0 {
            write!(f, " grant {count} at {first}")?;
        }
        if withheld != 0 {
            write!(f, " withheld {withheld}")?;
        }
        Ok(())
    }
}

/// The notified get, if there is one.
#[derive(Clone, Copy)]
struct NotifiesPart(Option<u64>);

impl fmt::Display for NotifiesPart {
    ghost output = { λ p. Some (notifies_text p.0) };

    fn fmt<W: fmt::Write>(&self, f: &mut fmt::Formatter<W>) -> fmt::Result {
        match self.0 {
            Some(get) => write!(f, " notifies {get}"),
            None => Ok(()),
        }
    }
}

/// The counts of gets.
#[derive(Clone, Copy)]
struct GetsPart(Statistics);

impl fmt::Display for GetsPart {
    ghost output = { λ p. Some (gets_text (counts_of p.0)) };

    fn fmt<W: fmt::Write>(&self, f: &mut fmt::Formatter<W>) -> fmt::Result {
        let Statistics {
            get_started,
            get_direct,
            get_waited,
            get_timed_out,
            get_cancelled,
            ..
        } = self.0;
        write!(
            f,
            " started {get_started} direct {get_direct} waited {get_waited} timed_out {get_timed_out} cancelled {get_cancelled}"
        )
    }
}

/// How long gets waited, in whole microseconds, and the counts of opened and closed connections.
#[derive(Clone, Copy)]
struct ConnectionsPart(Statistics);

impl fmt::Display for ConnectionsPart {
    ghost output = { λ p. Some (connections_text (counts_of p.0)) };

    fn fmt<W: fmt::Write>(&self, f: &mut fmt::Formatter<W>) -> fmt::Result {
        let wait = self.0.get_wait_time.as_micros();
        let created = self.0.connections_created;
        let broken = self.0.connections_closed_broken;
        let invalid = self.0.connections_closed_invalid;
        let lifetime = self.0.connections_closed_max_lifetime;
        let idle_timeout = self.0.connections_closed_idle_timeout;
        write!(
            f,
            " wait_us {wait} created {created} broken {broken} invalid {invalid} lifetime {lifetime} idle_timeout {idle_timeout}"
        )
    }
}

/// The counts of retired and detached connections.
#[derive(Clone, Copy)]
struct GonePart(Statistics);

impl fmt::Display for GonePart {
    ghost output = { λ p. Some (gone_text (counts_of p.0)) };

    fn fmt<W: fmt::Write>(&self, f: &mut fmt::Formatter<W>) -> fmt::Result {
        let retired = self.0.connections_closed_retired;
        if retired != 0 {
            write!(f, " retired {retired}")?;
        }
        let detached = self.0.connections_detached;
        if detached != 0 {
            write!(f, " detached {detached}")?;
        }
        Ok(())
    }
}

/// The state line.
#[derive(Clone, Copy)]
struct StateText(State);

impl fmt::Display for StateText {
    ghost output = { λ p. Some (state_text (figures_of p.0)) };

    fn fmt<W: fmt::Write>(&self, f: &mut fmt::Formatter<W>) -> fmt::Result {
        let connections = self.0.connections;
        let idle = self.0.idle_connections;
        let statistics = self.0.statistics;
        write!(
            f,
            "state connections {connections} idle {idle}{}{}{}",
            GetsPart(statistics),
            ConnectionsPart(statistics),
            GonePart(statistics)
        )
    }
}

/// The line of a result.
#[derive(Clone, Copy)]
struct AnswerText(Answer);

impl fmt::Display for AnswerText {
    ghost output = { λ p. Some (answer_text p.0) };

    fn fmt<W: fmt::Write>(&self, f: &mut fmt::Formatter<W>) -> fmt::Result {
        match self.0 {
            Answer::Begun(g) => write!(f, "begun {g}"),
            Answer::Memory => write!(f, "memory"),
            Answer::Exhausted => write!(f, "exhausted"),
            Answer::Served(k, grant) => write!(f, "served {k}{}", GrantPart(grant)),
            Answer::Taken(k, grant) => write!(f, "taken {k}{}", GrantPart(grant)),
            Answer::Waiting(grant) => write!(f, "waiting{}", GrantPart(grant)),
            Answer::Kept(k, notified) => write!(f, "kept {k}{}", NotifiesPart(notified)),
            Answer::Closed(k, grant, notified) => {
                write!(
                    f,
                    "closed {k}{}{}",
                    GrantPart(grant),
                    NotifiesPart(notified)
                )
            }
            Answer::GaveUp(notified) => write!(f, "gave up{}", NotifiesPart(notified)),
            Answer::Granted(grant) => write!(f, "granted{}", GrantPart(grant)),
            Answer::Claimed(Some(a)) => write!(f, "claimed {a}"),
            Answer::Claimed(None) => write!(f, "none"),
            Answer::Ended => write!(f, "ended"),
            Answer::Entered(a, notified) => write!(f, "entered {a}{}", NotifiesPart(notified)),
            Answer::Late(a) => write!(f, "late {a}"),
            Answer::GivenBack => write!(f, "given back"),
            Answer::Added(k, notified) => write!(f, "added {k}{}", NotifiesPart(notified)),
            Answer::Broken => write!(f, "broken"),
            Answer::NoCapacity => write!(f, "full"),
            Answer::Withheld => write!(f, "withheld"),
            Answer::Reaped {
                closed,
                by_idle,
                by_life,
                grant,
            } => {
                write!(
                    f,
                    "reaped {closed} idle {by_idle} life {by_life}{}",
                    GrantPart(grant)
                )
            }
            Answer::Shown(state) => write!(f, "{}", StateText(state)),
            Answer::Joined => write!(f, "joined"),
            Answer::Left(closed) => write!(f, "left {closed}"),
            Answer::Looked(Moment(at), true) => write!(f, "looked {at} open"),
            Answer::Looked(Moment(at), false) => write!(f, "looked {at} closed"),
            Answer::Unfit => write!(f, "unfit"),
        }
    }
}

/// Returns the output of a script that ran: a line for each result, and the state line. Fails if
/// memory is refused.
pub fn output(alloc: Global, answers: &[Answer], last: State) -> Result<String, AllocError>
    ensures { IfOk result (λ text. string_bytes text ≡ output_of answers.now (figures_of last)) }
{
    let mut text = String::new(alloc);
    for answer in answers {
        writeln!(text, "{}", AnswerText(*answer))?;
    }
    writeln!(text, "{}", StateText(last))?;
    Ok(text)
}

/// Returns the message about the first bad line, counted from 1. Fails if memory is refused.
pub fn bad_line(alloc: Global, number: u64) -> Result<String, AllocError>
    ensures { IfOk result (λ text. string_bytes text ≡ bad_line_text number) }
{
    if number == 1 {
        format!(in alloc; "line {number}: not a configuration\n")
    } else {
        format!(in alloc; "line {number}: not an event\n")
    }
}
