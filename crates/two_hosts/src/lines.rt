// A line for each turn, numbered, and one that counts them.
use calls::{Reply, Request, Turn};
use std::alloc::Global;
use std::fmt;

// For each call whether the hosts gave the same answer.
#[derive(Drop)]
pub(crate) struct Report {
    alike: Vec<bool>,
}

impl Report {
    pub(crate) fn new(heap: Global) -> Self {
        Report {
            alike: Vec::new(heap),
        }
    }

    // The answers of the first host, and whether the second gave the same.
    pub(crate) fn print(
        &mut self,
        rt: &HostRuntime,
        first: &[Turn],
        second: &[Turn],
    ) -> anyhow::Result<()> {
        for (one, other) in first.iter().zip(second) {
            let line = Line(one).to_string(rt.alloc())?;
            let same = line == Line(other).to_string(rt.alloc())?;
            let mark = if same { "" } else { " differs" };
            self.alike.push(same)?;
            println!(rt; "{} {line}{mark}", self.alike.len())?;
        }
        Ok(())
    }

    pub(crate) fn close(&self, rt: &HostRuntime) -> anyhow::Result<()> {
        let alike = self.alike.iter().filter(|same| **same).count();
        println!(rt; "calls={} alike={alike}", self.alike.len())?;
        Ok(())
    }
}

// What a call answered, with the bytes that an accepted read left.
#[derive(Drop)]
struct Line<'a>(&'a Turn);

impl fmt::Display for Line<'_> {
    fn fmt<W: fmt::Write>(&self, f: &mut fmt::Formatter<W>) -> fmt::Result {
        match &self.0.reply {
            None => write!(f, "no answer"),
            Some(Err(why)) => write!(
                f,
                "refused {} {} {}",
                why.number(),
                why.layer().number(),
                why.frame()
            ),
            Some(Ok(reply)) => accepted(f, reply, &self.0.request),
        }
    }
}

fn accepted<W: fmt::Write>(
    f: &mut fmt::Formatter<W>,
    reply: &Reply,
    request: &Request,
) -> fmt::Result {
    match reply {
        Reply::Made(sealed) => write!(f, "made {sealed}"),
        Reply::Mounted(state) => write!(f, "mounted {}", state.number()),
        Reply::Ejected => write!(f, "ejected"),
        Reply::Read => read(f, request),
        Reply::Written => write!(f, "written"),
        Reply::Started(steps) => write!(f, "started {steps}"),
        Reply::Stepped(stepped) => write!(
            f,
            "stepped {} passed={} over={}",
            stepped.frame,
            yes_or_no(stepped.passed_over),
            yes_or_no(stepped.over)
        ),
        Reply::Told(status) => write!(
            f,
            "status {} {} {}",
            status.state.number(),
            status.frames,
            status.moved
        ),
    }
}

fn yes_or_no(it: bool) -> &'static str {
    if it { "yes" } else { "no" }
}

fn read<W: fmt::Write>(f: &mut fmt::Formatter<W>, request: &Request) -> fmt::Result {
    write!(f, "read ")?;
    if let Request::Read(_, buffer) = request {
        for byte in buffer {
            write!(f, "{byte:02x}")?;
        }
    }
    Ok(())
}
