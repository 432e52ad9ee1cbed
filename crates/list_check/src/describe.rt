ghost use Rattle.std.specs.Prelude.{Some};
ghost use Rattle.list_reader.specs.Readings.{asked};
ghost use Rattle.list_check.specs.Report.{named, edged, asking};

use list_reader::Call;
use std::fmt;

/// A name behind what it is, or that there is none.
#[derive(Clone, Copy)]
struct Named<'a>(&'a str, u32);

impl<'a> fmt::Display for Named<'a> {
    ghost output = { λ name. Some (named name.0.now name.1) };

    fn fmt<W: fmt::Write>(&self, f: &mut fmt::Formatter<W>) -> fmt::Result {
        let what = self.0;
        let n = self.1;
        if n == 0 {
            write!(f, ", no {what}")
        } else {
            write!(f, ", {what} {n}")
        }
    }
}

/// Edges, each by its name.
#[derive(Clone, Copy)]
struct Edges<'a>(&'a [u32]);

impl<'a> fmt::Display for Edges<'a> {
    ghost output = { λ edges. Some (edged edges.0.now) };

    fn fmt<W: fmt::Write>(&self, f: &mut fmt::Formatter<W>) -> fmt::Result {
        if self.0.is_empty() {
            return write!(f, ", no edges");
        }
        write!(f, ", edges")?;
        for edge in self.0 {
            write!(f, " {edge}")?;
        }
        Ok(())
    }
}

/// What a call asks for, in plain words.
#[derive(Clone, Copy)]
pub struct Described<'a>(pub &'a Call);

impl<'a> fmt::Display for Described<'a> {
    ghost output = { λ described. Some (asking (asked described.0.now)) };

    fn fmt<W: fmt::Write>(&self, f: &mut fmt::Formatter<W>) -> fmt::Result {
        match self.0 {
            Call::Attend { host: true } => write!(f, "a host attends"),
            Call::Attend { host: false } => write!(f, "no host attends"),
            Call::Make {
                class,
                dictionary,
                edges,
            } => {
                let dictionary = Named("dictionary", *dictionary);
                let edges = Edges(edges);
                write!(f, "make an object of class {class}{dictionary}{edges}")
            }
            Call::Hold { object } => write!(f, "hold object {object}"),
            Call::Drop { object } => write!(f, "drop a handle of object {object}"),
            Call::Weaken {
                class,
                object,
                callback,
            } => {
                let callback = Named("callback", *callback);
                write!(
                    f,
                    "make a weak reference of class {class} to object {object}{callback}"
                )
            }
            Call::Upgrade { reference } => write!(f, "upgrade reference {reference}"),
            Call::Intern { object } => write!(f, "intern object {object}"),
            Call::HandBack { turn } => write!(f, "hand back turn {turn}"),
        }
    }
}
