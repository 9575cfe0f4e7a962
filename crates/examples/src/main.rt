// Compares what is printed of each nest file of a folder with the text beside it, and ends with an error where one differs.
#![tactic(auto)]

use anyhow::anyhow;
use printing::print_answer;
use std::{env, fs};

// Where the files lie, if no argument says so.
const ROOT: &str = "data";

// The names of the nest files of the folder without their suffix, in order.
fn names_in(rt: &HostRuntime, folder: &str) -> anyhow::Result<Vec<String>> {
    let mut names = Vec::new(rt.alloc());
    for entry in fs::read_dir(rt, folder)? {
        let entry = entry?;
        if let Some(name) = entry.file_name().strip_suffix(".nest") {
            names.push(format!(in rt.alloc(); "{name}")?)?;
        }
    }
    names.sort()?;
    Ok(names)
}

// Whether the text beside the nest file of this path without its suffix is what is printed of it.
fn agrees(rt: &HostRuntime, path: &str) -> anyhow::Result<bool> {
    let text = fs::read(rt, format!(in rt.alloc(); "{path}.nest")?.as_str())?;
    let wanted = fs::read(rt, format!(in rt.alloc(); "{path}.out")?.as_str())?;
    let mut printed = Vec::new(rt.alloc());
    print_answer(text.as_slice(), &mut printed)?;
    Ok(printed.as_slice() == wanted.as_slice())
}

fn compare(rt: &HostRuntime, folder: &str) -> anyhow::Result<()> {
    let mut agree: u32 = 0;
    let mut differ: u32 = 0;
    for name in &names_in(rt, folder)? {
        if agrees(rt, format!(in rt.alloc(); "{folder}/{name}")?.as_str())? {
            agree = agree.saturating_add(1);
            println!(rt; "{name} agrees")?;
        } else {
            differ = differ.saturating_add(1);
            println!(rt; "{name} differs")?;
        }
    }
    println!(rt; "{agree} agree")?;
    if differ > 0 {
        return Err(anyhow!("{differ} differ"));
    }
    Ok(())
}

fn main(rt: HostRuntime) -> anyhow::Result<()> {
    let mut arguments = env::args(&rt)?;
    match arguments.nth(1) {
        Some(folder) => compare(&rt, folder.as_str()),
        None => compare(&rt, ROOT),
    }
}
