// Surveys of damaged volumes. Each line of standard input is a case, and prints its label and what the survey answers.

#![tactic(auto)]

mod answer;
mod case;
mod change;
mod trial;

use answer::answer_line;
use anyhow::anyhow;
use case::{CaseFault, read_case};
use std::io::{BufRead, BufReader};
use std::{env, fs};
use trial::try_case;

const USAGE: &str = "usage: damages IMAGE
surveys damaged copies of IMAGE, one for each line of standard input: LABEL WORD..
where a word is LSN+OFFSET:DIGITS, bytes that are changed, in hexadecimal, or one of
sectors=N (the copy is cut or made longer), bad=LSN (the copy is a tray), allocation=N, marks=N, waiting=N";

// Reads a case and surveys it.
fn answer_case(rt: &HostRuntime, base: &[u8], label: &str, words: &str) -> anyhow::Result<()> {
    let heap = rt.alloc();
    match read_case(heap, base, words).and_then(|case| try_case(heap, case)) {
        Ok(answer) => {
            let line = answer_line(heap, label, answer)?;
            println!(rt; "{line}")?;
        }
        Err(CaseFault::Word) => println!(rt; "{label}: not a case")?,
        Err(CaseFault::Memory) => return Err(anyhow!("there is no memory for the case")),
    }
    Ok(())
}

fn run(rt: &HostRuntime) -> anyhow::Result<()> {
    let words: Vec<String> = env::args(rt)?.skip(1).collect(rt.alloc())?;
    let [image] = words.as_slice() else {
        return Err(anyhow!(USAGE));
    };
    let base = fs::read(rt, image.as_str())?;
    for line in BufReader::new(rt.alloc(), rt.stdin())?.lines(rt.alloc()) {
        let line = line?;
        let line = line.as_str().trim();
        if line.is_empty() || line.starts_with('#') {
            continue;
        }
        let (label, words) = line.split_once(' ').unwrap_or((line, ""));
        answer_case(rt, base.as_slice(), label, words)?;
    }
    Ok(())
}

fn main(rt: HostRuntime) -> anyhow::Result<()> {
    run(&rt)
}
