// Judging and questioning a level, each with what it prints.
use crate::call::Question;
use crate::desk::Desk;
use crate::lent::{Front, Work, filled_front};
use crate::slice::Slice;
use hour_sheet::hour::BookAtHour;
use monitor::question::{Report, question};
use printed::checksum::checksum;
use printed::no_answer::print_refusal;
use printed::shown::Shown;
use refusals::refusal::Refusal;
use std::io;
use work_windows::question::question_at_hour;

fn print_outcome(rt: &impl Print, outcome: Result<Report, Refusal>) -> io::Result<()> {
    match outcome {
        Ok(report) => {
            let lower = Shown(report.ends.lower);
            let upper = Shown(report.ends.upper);
            println!(rt; "lower {lower} upper {upper} events {}", report.events)
        }
        Err(refusal) => print_refusal(rt, refusal),
    }
}

impl Desk {
    // Judges level k of n. They stand apart, since the list has calls whose k and n are no `Level`.
    pub fn judge(&self, rt: &impl Print, k: u32, n: u32) -> io::Result<()> {
        match self.lent_pair().judge_level(k, n) {
            Ok(counts) => println!(rt; "nodes {} events {}", counts.nodes, counts.events)?,
            Err(refusal) => print_refusal(rt, refusal)?,
        }
        self.print_after(rt)
    }

    // Questions a level.
    pub fn question(&mut self, rt: &impl Print, asked: Question) -> io::Result<()> {
        let mut work = Work::lent(asked);
        let reply = question(self.lent_pair(), asked.k, asked.n, &mut work.slices());
        self.state = reply.state;
        print_outcome(rt, reply.outcome)?;
        self.print_after(rt)?;
        println!(rt; "lower{}", Slice(&work.lower))?;
        println!(rt; "upper{}", Slice(&work.upper))?;
        println!(rt; "marks{}", Slice(&work.marks))
    }

    // Questions a level at the desk's hour. The stores, and what was lent, are printed as a checksum each.
    pub fn question_at_hour(&mut self, rt: &impl Print, asked: Question) -> io::Result<()> {
        let mut buffer: Front<u8, 17500> = filled_front(238, self.buffer);
        let mut work = Work::lent(asked);
        let at = BookAtHour {
            book: &self.book,
            hour: self.hour,
        };
        let reply = question_at_hour(
            self.lent_pair(),
            at,
            asked.k,
            asked.n,
            &mut buffer,
            &mut work.slices(),
        );
        self.state = reply.state;
        print_outcome(rt, reply.outcome)?;
        let held = checksum(&[
            self.state.tree_len as u64,
            self.state.sheet_len as u64,
            checksum(&self.tree),
            checksum(&self.sheet),
        ]);
        let lent = checksum(&[
            checksum(&buffer),
            checksum(&work.lower),
            checksum(&work.upper),
            checksum(&work.marks),
        ]);
        println!(rt; "after {held} {lent}")
    }
}
