// Reads each text of the folders, and compares the library's answer with the one beside it. The program names each text that is
// answered otherwise, and then ends with an error.
#![tactic(auto)]

mod answering;
mod pieces;

use crate::answering::Reader;
use crate::pieces::joined;
use anyhow::anyhow;
use std::{env, fs};

// Where the folders lie, if no argument says so.
const ROOT: &str = "data";

// NAME.nest is a text, or NAME.pieces tells one that is too large to be stored; NAME.answer beside it, told in the same form, is what
// is written of its problem, or the line of its fault.
#[derive(Clone, Copy)]
enum Form {
    Stored,
    Pieces,
}

#[derive(Clone, Copy)]
struct Folder {
    name: &'static str,
    form: Form,
}

const FOLDERS: [Folder; 3] = [
    Folder {
        name: "refused",
        form: Form::Stored,
    },
    Folder {
        name: "accepted",
        form: Form::Stored,
    },
    Folder {
        name: "large",
        form: Form::Pieces,
    },
];

impl Form {
    fn suffix(self) -> &'static str {
        match self {
            Form::Stored => ".nest",
            Form::Pieces => ".pieces",
        }
    }

    // The file of this path and suffix.
    fn load(self, rt: &HostRuntime, path: &str, suffix: &str) -> anyhow::Result<Vec<u8>> {
        let path = format!(in rt.alloc(); "{path}{suffix}")?;
        self.load_file(rt, path.as_str())
    }

    fn load_file(self, rt: &HostRuntime, path: &str) -> anyhow::Result<Vec<u8>> {
        match self {
            Form::Stored => Ok(fs::read(rt, path)?),
            Form::Pieces => joined(rt.alloc(), fs::read_to_string(rt, path)?.as_str()),
        }
    }
}

#[derive(Clone, Copy)]
struct Tally {
    agree: u32,
    differ: u32,
}

impl Tally {
    fn add(&mut self, agrees: bool) {
        if agrees {
            self.agree = self.agree.saturating_add(1);
        } else {
            self.differ = self.differ.saturating_add(1);
        }
    }
}

// Whether the text of this path without its suffix is answered as is said beside it.
fn agrees(rt: &HostRuntime, reader: &mut Reader, form: Form, path: &str) -> anyhow::Result<bool> {
    let text = form.load(rt, path, form.suffix())?;
    let answer = form.load(rt, path, ".answer")?;
    Ok(reader.is_answered(text.as_slice(), answer.as_slice())?)
}

fn read_text(
    rt: &HostRuntime,
    reader: &mut Reader,
    form: Form,
    folder: &str,
    name: &str,
) -> anyhow::Result<bool> {
    let path = format!(in rt.alloc(); "{folder}/{name}")?;
    let agrees = agrees(rt, reader, form, path.as_str())?;
    if !agrees {
        println!(rt; "{name} is answered otherwise")?;
    }
    Ok(agrees)
}

fn read_folder(
    rt: &HostRuntime,
    reader: &mut Reader,
    folder: Folder,
    path: &str,
) -> anyhow::Result<Tally> {
    let mut tally = Tally {
        agree: 0,
        differ: 0,
    };
    for entry in fs::read_dir(rt, path)? {
        let entry = entry?;
        if let Some(name) = entry.file_name().strip_suffix(folder.form.suffix()) {
            tally.add(read_text(rt, reader, folder.form, path, name)?);
        }
    }
    Ok(tally)
}

// Answers how many texts are answered otherwise.
fn tell_folder(
    rt: &HostRuntime,
    reader: &mut Reader,
    folder: Folder,
    root: &str,
) -> anyhow::Result<u32> {
    let name = folder.name;
    let path = format!(in rt.alloc(); "{root}/{name}")?;
    let Tally { agree, differ } = read_folder(rt, reader, folder, path.as_str())?;
    println!(rt; "{name}: {agree} answered as they are to be, {differ} otherwise")?;
    Ok(differ)
}

fn read_all(rt: &HostRuntime, root: &str) -> anyhow::Result<()> {
    let mut reader = Reader::new(rt.alloc())?;
    let mut all: u32 = 0;
    for folder in FOLDERS {
        all = all.saturating_add(tell_folder(rt, &mut reader, folder, root)?);
    }
    if all > 0 {
        return Err(anyhow!("{all} texts are answered otherwise"));
    }
    Ok(())
}

fn main(rt: HostRuntime) -> anyhow::Result<()> {
    let mut arguments = env::args(&rt)?;
    match arguments.nth(1) {
        Some(root) => read_all(&rt, root.as_str()),
        None => read_all(&rt, ROOT),
    }
}
