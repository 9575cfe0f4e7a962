// The veto of a problem: its nests, its loop and its loads as one.
ghost use Rattle.std.specs.Prelude.{◌≡◌, ◌≤◌, ℕ, List, Decides};
ghost use Rattle.vetoes.specs.Meaning.{either};
ghost use Rattle.nestfile.specs.Problems.{told};
ghost use Rattle.nestformat.specs.Limits.{line_limit};
ghost use Rattle.finder.specs.Meanings.{loop_means, milliamperes_mean, lines_mean, lowest_lines as «lowest-lines», file_means};
ghost use Rattle.finder.specs.Vetoed.{Vetoed};

use crate::contents::entry_of;
use crate::items::Owned;
use crate::nests::nests_of;
use cycles::arc::Arc;
use cycles::cycle::Cycle;
use loads::kind::{Lines, Milliamperes};
use loads::load::Load;
use loads::row::Row;
use nested::nested::Nested;
use nestfile::Problem;
use nestformat::ROW_LIMIT;
use nestformat::kinds::BodyKind;
use vetoes::mute::Mute;
use vetoes::pair::Pair;
use vetoes::veto::Veto;

// The rows of a load with the limit before them.
const LOAD_LIMIT: usize = ROW_LIMIT + 1;

pub type LoopVeto = Cycle<Owned<Arc, ROW_LIMIT>>;

pub type MilliampereVeto = Load<Milliamperes, Owned<Row<Milliamperes>, LOAD_LIMIT>>;

pub type LineVeto = Load<Lines, Owned<Row<Lines>, LOAD_LIMIT>>;

pub type FileVeto = Pair<Nested<Nested<Mute>>, Pair<LoopVeto, Pair<MilliampereVeto, LineVeto>>>;

// The set of the lowest lines, so many.
#[tactic(auto, using(crate::proofs::Fits::lowest_few, crate::proofs::Fits::lowest_some, std::proofs::lemmas::Nat::one_shl))]
fn lowest_lines(count: u32) -> Lines
    requires { count ≤ line_limit }
    ensures { result ≡ «lowest-lines» count }
{
    ((1u32 << count) - 1) as Lines
}

fn loop_of(problem: &Problem) -> LoopVeto
    ensures { ⟦<LoopVeto as Veto>⟧.means result ≡ loop_means (told problem.now) }
{
    let none = Arc {
        atom: 0,
        from: 0,
        to: 0,
    };
    Cycle::new(Owned::copied(none, problem.arcs()))
}

// The limit is the first row.
fn milliamperes_of(problem: &Problem) -> MilliampereVeto
    ensures { ⟦<MilliampereVeto as Veto>⟧.means result ≡ milliamperes_mean (told problem.now) }
{
    let Some(entry) = entry_of(problem.contents(), BodyKind::Milliamperes) else {
        return Load::new(Owned::empty(Row { atom: 0, load: 0 }));
    };
    let limit = Row {
        atom: 0,
        load: entry.size,
    };
    Load::new(Owned::headed(limit, problem.milliamperes()))
}

// The limit is the first row.
fn lines_of(problem: &Problem) -> LineVeto
    ensures { ⟦<LineVeto as Veto>⟧.means result ≡ lines_mean (told problem.now) }
{
    let Some(entry) = entry_of(problem.contents(), BodyKind::Lines) else {
        return Load::new(Owned::empty(Row { atom: 0, load: 0 }));
    };
    let limit = Row {
        atom: 0,
        load: lowest_lines(entry.size),
    };
    Load::new(Owned::headed(limit, problem.lines()))
}

fn loads_of(problem: &Problem) -> Pair<MilliampereVeto, LineVeto>
    ensures { ⟦<Pair<MilliampereVeto, LineVeto> as Veto>⟧.means result ≡ either (milliamperes_mean (told problem.now)) (lines_mean (told problem.now)) }
{
    Pair::new(milliamperes_of(problem), lines_of(problem))
}

fn others_of(problem: &Problem) -> Pair<LoopVeto, Pair<MilliampereVeto, LineVeto>>
    ensures { ⟦<Pair<LoopVeto, Pair<MilliampereVeto, LineVeto>> as Veto>⟧.means result ≡ either (loop_means (told problem.now)) (either (milliamperes_mean (told problem.now)) (lines_mean (told problem.now))) }
{
    Pair::new(loop_of(problem), loads_of(problem))
}

fn all_of(problem: &Problem) -> FileVeto
    ensures { ⟦<FileVeto as Veto>⟧.means result ≡ file_means (told problem.now) }
{
    Pair::new(nests_of(problem), others_of(problem))
}

// It speaks where one of the bodies does.
pub fn veto_of(problem: &Problem) -> FileVeto
    ensures meaning { ⟦<FileVeto as Veto>⟧.means result ≡ file_means (told problem.now) }
    ensures decides { (q : List ℕ) → Decides ((⟦<FileVeto as Veto>⟧.means result).speaks q) (Vetoed (told problem.now) q) }
{
    all_of(problem)
}
