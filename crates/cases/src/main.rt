// Runs what is tested and not proved: a line for each case, with what came out and what was expected.
#![tactic(auto)]

mod codes;

use cases_printing::Report;
use std::io;

fn main(rt: HostRuntime) -> io::Result<()> {
    let mut report = Report::new(&rt);
    codes::run(&mut report)?;
    cases_dates::run(&mut report)?;
    cases_windows::run(&mut report)?;
    cases_records::run(&mut report)?;
    cases_full::run(&mut report)?;
    cases_searches::run(&mut report)?;
    report.finish()
}
