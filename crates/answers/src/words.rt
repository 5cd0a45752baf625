ghost use Rattle.std.specs.Prelude.{Some};
ghost use Rattle.answers.specs.Words.{report_words, sight_words, refused_words, answer_words};

use crate::{Refusal, Reply, Report, Sight};
use numbered::Numbered;
use std::fmt;

impl fmt::Display for Refusal {
    ghost output = { λ x. Some (refused_words x) };

    fn fmt<W: fmt::Write>(&self, f: &mut fmt::Formatter<W>) -> fmt::Result {
        let reason = match self {
            Refusal::RunsSpent => "no run number is left",
            Refusal::NoRunOpen => "no run is open",
            Refusal::RunFull => "the run is full",
            Refusal::SlipNotOfRun => "the slip is not of the open run",
        };
        write!(f, "refused {}: {reason}", self.number())
    }
}

impl fmt::Display for Report {
    ghost output = { λ p. Some (report_words p) };

    fn fmt<W: fmt::Write>(&self, f: &mut fmt::Formatter<W>) -> fmt::Result {
        let mark = if self.mark { "kept" } else { "not kept" };
        write!(f, "{mark}, {} events", self.count)
    }
}

impl fmt::Display for Sight {
    ghost output = { λ s. Some (sight_words s) };

    fn fmt<W: fmt::Write>(&self, f: &mut fmt::Formatter<W>) -> fmt::Result {
        match self {
            Sight::Open => write!(f, "open"),
            Sight::Lost(count) => write!(f, "lost after {count} events"),
            Sight::Safe(count) => write!(f, "safe after {count} events"),
        }
    }
}

impl fmt::Display for Reply {
    ghost output = { λ r. Some (answer_words r) };

    fn fmt<W: fmt::Write>(&self, f: &mut fmt::Formatter<W>) -> fmt::Result {
        match self {
            Reply::Opened(bench, run) => write!(f, "opened bench {bench} run {run}"),
            Reply::Taken => write!(f, "taken"),
            Reply::Told(report) => write!(f, "{report}"),
            Reply::Looked(sight) => write!(f, "{sight}"),
            Reply::Closed(report) => write!(f, "closed: {report}"),
            Reply::Refused(refusal) => write!(f, "{refusal}"),
        }
    }
}
