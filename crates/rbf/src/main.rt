// The command line tool: makes RBF volumes in image files.

#![tactic(auto)]

mod show;

use anyhow::anyhow;
use console::command::{FormatCommand, format_command};
use console::image::{ImageFault, NewImage, make_image};
use console::refusal::plain_words;
use console::summary::{Summary, summarize};
use files::call_fault::CallFault;
use show::{print_record, print_summary};
use std::alloc::Global;
use std::process::ExitCode;
use std::{env, fs};

const USAGE: &str = "usage: rbf format IMAGE SECTORS NAME ALLOCATION
makes IMAGE, a flat image of SECTORS sectors (16 to 65536) with an empty volume on it;
NAME is 1 to 32 letters, digits, \"_\", \"$\" or \".\", ALLOCATION the segment allocation size, 1 to 255";

// Prints a refusal: its line, and what it means.
fn print_refusal(rt: &HostRuntime, fault: CallFault) -> anyhow::Result<()> {
    println!(rt; "{fault}")?;
    println!(rt; "{}", plain_words(fault))?;
    Ok(())
}

// Puts the bytes in place of a file, or leaves the file as it was.
fn replace_file(rt: &HostRuntime, image: &str, bytes: &[u8]) -> anyhow::Result<()> {
    let beside = format!(in rt.alloc(); "{image}.new")?;
    fs::write(rt, beside.as_str(), bytes)?;
    fs::rename(rt, beside.as_str(), image)?;
    Ok(())
}

// Makes a volume in memory, and reads back what it holds.
fn make(heap: Global, command: FormatCommand<'_>) -> Result<(NewImage, Summary), ImageFault> {
    let made = make_image(
        heap,
        command.sectors,
        command.name.as_bytes(),
        command.allocation,
    )?;
    let summary = summarize(&made.image, &made.volume)?;
    Ok((made, summary))
}

// Writes the image of a new volume, and prints what it holds.
fn write(rt: &HostRuntime, image: &str, made: NewImage, summary: &Summary) -> anyhow::Result<()> {
    let bytes = made.image.into_bytes();
    replace_file(rt, image, bytes.as_slice())?;
    print_summary(rt, image, bytes.len(), summary)?;
    print_record(rt, &made.volume)
}

// Makes a volume and writes its image. Where the volume is refused, its refusal is printed and no image is written.
fn format(rt: &HostRuntime, command: FormatCommand<'_>) -> anyhow::Result<ExitCode> {
    match make(rt.alloc(), command) {
        Ok((made, summary)) => {
            write(rt, command.image, made, &summary)?;
            Ok(ExitCode::SUCCESS)
        }
        Err(ImageFault::Call(fault)) => {
            print_refusal(rt, fault)?;
            Ok(ExitCode::FAILURE)
        }
        Err(ImageFault::Memory) => Err(anyhow!("there is no memory for the image")),
    }
}

// Does what the words of the command line ask for, or prints how it is used.
fn run(rt: &HostRuntime) -> anyhow::Result<ExitCode> {
    let words: Vec<String> = env::args(rt)?.skip(1).collect(rt.alloc())?;
    if let [verb, image, sectors, name, allocation] = words.as_slice() {
        let asked = format_command(
            verb.as_str(),
            image.as_str(),
            sectors.as_str(),
            name.as_str(),
            allocation.as_str(),
        );
        if let Some(command) = asked {
            return format(rt, command);
        }
    }
    println!(rt; "{USAGE}")?;
    Ok(ExitCode::FAILURE)
}

// Status 0: the image is written. Status 1: what is wrong has been printed, a refusal or the usage on standard output,
// any other failure by its error.
fn main(rt: HostRuntime) -> anyhow::Result<ExitCode> {
    run(&rt)
}
