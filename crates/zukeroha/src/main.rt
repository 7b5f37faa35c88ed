// Tags payroll files with SMAC, checks such tags, and seals and opens sections.
#![tactic(auto)]

mod arguments;
mod faults;
mod help;
mod hexadecimal;
mod name;
mod options;
mod progress;
mod sections;
mod source;
mod usage;
mod work;

use crate::faults::Fault;
use crate::options::Command;
use crate::work::Outcome;
use std::process::ExitCode;

fn run(rt: &HostRuntime) -> Result<Outcome, Fault> {
    match options::read(rt)? {
        Command::Help => {
            rt.print(help::TEXT)?;
            Ok(Outcome::Done)
        }
        Command::Work(job) => work::perform(rt, &job),
        Command::Section(job) => {
            sections::perform(rt, &job)?;
            Ok(Outcome::Done)
        }
    }
}

// Ends with status 1 where tags differ or something is wrong; what there is to say has been said by then.
fn main(rt: HostRuntime) -> ExitCode {
    match run(&rt) {
        Ok(Outcome::Done) => ExitCode::SUCCESS,
        Ok(Outcome::Differs) => ExitCode::FAILURE,
        Err(fault) => {
            let _ = eprintln!(rt; "zukeroha: {fault}");
            ExitCode::FAILURE
        }
    }
}
