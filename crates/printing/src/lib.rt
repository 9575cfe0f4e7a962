// What is printed of a nest file: the lines of its listing, or the line of its fault. It goes to any writer.
#![tactic(auto)]

ghost use Rattle.std.specs.Prelude.{◌≡◌, List, [], ℕ, IfOk, OnOk};
ghost use Rattle.std.specs.Io.KnownBytes.{Appends};
ghost use Rattle.nestformat.specs.Reading.{reading};
ghost use Rattle.nestfile.specs.Problems.{told};
ghost use Rattle.listing.specs.Lines.{Said};
ghost use Rattle.listing.specs.Standing.{Lists};
ghost use Rattle.finder.specs.Listed.{file_lines};
ghost use Rattle.printing.specs.Texts.{lines_text, Prints};

use answers::FaultLine;
use finder::lines::listing_of;
use listing::LISTING_LIMIT;
use listing::listing::Listing;
use nestfile::Problem;
use nestfile::reading::read;
use std::io;
use std::io::Write;
use vetoes::veto::Veto;

// The head, the settings, and the last line.
const LINE_LIMIT: usize = LISTING_LIMIT + 2;

// What was printed.
#[derive(Clone, Copy)]
pub enum Printed {
    // the lines of a listing
    Listing,
    // the line of a fault
    Fault,
}

// Writes the lines that are left of a listing, each as soon as it is known.
pub fn print_listing<V: Veto, W: Write>(listing: &mut Listing<V>, out: &mut W) -> io::Result<()>
    ensures bytes { (ls : List Said) → Lists (V.Veto.means listing.old.session.veto) listing.old.session.table listing.old.progress ls → OnOk result (Appends (W.contents out.old) (W.contents out.new) (lines_text ls)) }
    ensures ended { (ls : List Said) → Lists (V.Veto.means listing.old.session.veto) listing.old.session.table listing.old.progress ls → OnOk result (Lists (V.Veto.means listing.old.session.veto) listing.new.session.table listing.new.progress []) }
    ensures meaning { V.Veto.means listing.new.session.veto ≡ V.Veto.means listing.old.session.veto }
{
    for _turn in 0..LINE_LIMIT {
        let Some(line) = listing.next_line() else {
            return Ok(());
        };
        writeln!(out, "{line}")?;
    }
    Ok(())
}

fn print_problem<W: Write>(problem: &Problem, out: &mut W) -> io::Result<()>
    ensures { OnOk result (Appends (W.contents out.old) (W.contents out.new) (lines_text (file_lines (told problem.now)))) }
{
    let mut listing = listing_of(problem);
    print_listing(&mut listing, out)
}

// Writes what is printed of a text, as far as the writer takes it.
pub fn print_answer<W: Write>(text: &[u8], out: &mut W) -> io::Result<Printed>
    ensures { IfOk result (λ what. (bs : List ℕ) × Prints (reading text.now) what bs × Appends (W.contents out.old) (W.contents out.new) bs) }
{
    let mut problem = Problem::empty();
    if let Err(fault) = read(text, &mut problem) {
        writeln!(out, "{}", FaultLine(fault))?;
        return Ok(Printed::Fault);
    }
    print_problem(&problem, out)?;
    Ok(Printed::Listing)
}
