//! Each group's figures for a day, from a file of rows.
#![tactic(auto)]

mod day;
mod divide;
mod fault;
mod feed;
mod figures;
mod options;
mod pack;
mod part;
mod plan;
mod report;
mod row;
mod table;

use crate::day::Day;
use crate::divide::divide;
use crate::fault::Fault;
use crate::figures::Figures;
use crate::options::Options;
use crate::plan::Plan;
use crate::report::print_report;
use std::process::ExitCode;
use std::{env, fs};

/// Reads the file. Bytes that are no text become a mark that no field takes, so that their line is reported.
fn read_day(rt: &HostRuntime, file: String) -> Result<Day, Fault> {
    let heap = rt.alloc();
    let bytes = fs::read(rt, file.as_str()).map_err(|error| Fault::File(file, error))?;
    let text = String::from_utf8_lossy(heap, bytes.as_slice())?;
    Day::read(heap, text.as_str())
}

fn run(rt: &HostRuntime) -> Result<(), Fault> {
    let heap = rt.alloc();
    let options = Options::read(env::args(rt)?)?;
    let day = read_day(rt, options.file)?;
    let mut plan = Plan::new(heap, &day, options.rows, options.groups)?;
    let figures = Figures::new(heap, &day, &mut plan)?;
    let division = divide(heap, &day, &plan, figures.grams.as_slice());
    print_report(rt, &day, &plan, &figures, division)
}

fn main(rt: HostRuntime) -> ExitCode {
    match run(&rt) {
        Ok(()) => ExitCode::SUCCESS,
        Err(fault) => {
            let _ = eprintln!(rt; "planner: {fault}");
            ExitCode::FAILURE
        }
    }
}
