// Tries each limit of the tables at its edge: what passes, and what one more is refused with.
#![tactic(auto)]

use assignments::Literal;
use clauses::book::ClauseBook;
use clauses::stretch::Counts;
use nestfile::Problem;
use nestfile::reading::read;
use refusals::Refusal;
use session::session::Session;
use std::fmt::Display;
use std::io;
use vetoes::mute::Mute;

// A nest file without atoms.
const SMALL: &[u8] = b"p nest 1 1\nt o 0 0 0\nb o 1\n";

fn tell<D: Display + Drop>(
    rt: &HostRuntime,
    what: D,
    answer: Result<(), Refusal>,
) -> io::Result<()> {
    match answer {
        Ok(()) => println!(rt; "{what}: accepted"),
        Err(refusal) => println!(rt; "{what}: refused {}, {refusal}", refusal.number()),
    }
}

// The number of atoms is the book's own, or the one that was refused.
fn tell_fresh(rt: &HostRuntime, atoms: usize) -> io::Result<()> {
    let (told, answer) = match ClauseBook::fresh(atoms) {
        Ok(book) => (book.atoms(), Ok(())),
        Err(refusal) => (atoms, Err(refusal)),
    };
    tell(rt, format_args!("book over {told} atoms"), answer)
}

// What is done with a book; the text tells it.
#[derive(Clone, Copy)]
enum Step<'a> {
    // adds the clause so many times, up to the first refusal
    Add(&'a str, usize, &'a [Literal]),
    // whether all clauses are met by the assignment
    Meet(&'a str, &'a [u8]),
    CutBack(&'a str, Counts),
    Count,
}

const LITERALS: &[Step] = &[
    Step::Add("literal 0", 1, &[0]),
    Step::Add("literal 1", 1, &[1]),
    Step::Add("literal -1", 1, &[-1]),
    Step::Add("literal 200", 1, &[200]),
    Step::Add("literal -200", 1, &[-200]),
    Step::Add("literal 201", 1, &[201]),
    Step::Add("literal -201", 1, &[-201]),
    Step::Add("literal 32767", 1, &[32767]),
    Step::Add("literal -32768", 1, &[-32768]),
    Step::Add("literals 1 and 201", 1, &[1, 201]),
    Step::Count,
];

const EMPTY_CLAUSE: &[Step] = &[
    Step::Meet("no clause held, 10 meets all", &[1, 0]),
    Step::Add("empty clause", 1, &[]),
    Step::Meet("empty clause held, 10 meets all", &[1, 0]),
];

const CLAUSE_TABLE: &[Step] = &[
    Step::Add("400 clauses", 400, &[1]),
    Step::Add("one clause more", 1, &[1]),
    Step::Add("one more with literal 0", 1, &[0]),
    Step::Count,
];

const LITERAL_TABLE: &[Step] = &[
    Step::Add("2000 literals", 4, &[-2; 500]),
    Step::Add("one literal more", 1, &[1]),
    Step::Add("one more with literal 201", 1, &[201]),
    Step::Add("an empty clause more", 1, &[]),
    Step::Add("400 clauses", 395, &[]),
    Step::Add("one literal in one clause more", 1, &[1]),
    Step::Count,
];

const CUT_BACK: &[Step] = &[
    Step::Add("clause 1 2", 1, &[1, 2]),
    Step::Add("clause -1", 1, &[-1]),
    Step::CutBack(
        "cut back to 1 clause, 1 literal",
        Counts {
            clauses: 1,
            literals: 1,
        },
    ),
    Step::CutBack(
        "cut back to 1 clause, 2 literals",
        Counts {
            clauses: 1,
            literals: 2,
        },
    ),
    Step::Count,
];

fn add_times(book: &mut ClauseBook, times: usize, clause: &[Literal]) -> Result<(), Refusal> {
    for _ in 0..times {
        book.add(clause)?;
    }
    Ok(())
}

fn play_step(rt: &HostRuntime, book: &mut ClauseBook, step: Step) -> io::Result<()> {
    match step {
        Step::Add(what, times, clause) => tell(rt, what, add_times(book, times, clause)),
        Step::Meet(what, assignment) => println!(rt; "{what}: {}", book.is_met_by(assignment)),
        Step::CutBack(what, counts) => println!(rt; "{what}: {}", book.cut_back(counts)),
        Step::Count => println!(rt; "held: {}", book.counts()),
    }
}

// The steps on a fresh book.
fn play(rt: &HostRuntime, atoms: usize, steps: &[Step]) -> io::Result<()> {
    let mut book = ClauseBook::fresh(atoms)?;
    for step in steps {
        play_step(rt, &mut book, *step)?;
    }
    Ok(())
}

// Opens so many scopes, and answers with the first refusal.
fn open_times(session: &mut Session<Mute>, times: usize) -> Result<(), Refusal> {
    for _ in 0..times {
        session.open()?;
    }
    Ok(())
}

fn scopes(rt: &HostRuntime) -> io::Result<()> {
    let mut session = Session::new(Mute);
    session.size(1)?;
    tell(rt, "16 scopes", open_times(&mut session, 16))?;
    tell(rt, "one scope more", session.open())?;
    Ok(())
}

fn read_text(text: &[u8]) -> Result<(), Refusal> {
    let mut problem = Problem::empty();
    read(text, &mut problem).map_err(|fault| fault.refusal)
}

// Reads a small file, filled up to so many bytes by blank lines.
fn text(rt: &HostRuntime, bytes: usize) -> io::Result<()> {
    let mut text = Vec::new(rt.alloc());
    text.extend_from_slice(SMALL)?;
    text.resize(bytes, b'\n')?;
    let answer = read_text(text.as_slice());
    tell(rt, format_args!("text of {bytes} bytes"), answer)?;
    Ok(())
}

fn books(rt: &HostRuntime) -> io::Result<()> {
    for atoms in [0, 200, 201] {
        tell_fresh(rt, atoms)?;
    }
    play(rt, 200, LITERALS)?;
    play(rt, 2, EMPTY_CLAUSE)?;
    play(rt, 2, CLAUSE_TABLE)?;
    play(rt, 2, LITERAL_TABLE)?;
    play(rt, 2, CUT_BACK)
}

fn main(rt: HostRuntime) -> io::Result<()> {
    books(&rt)?;
    scopes(&rt)?;
    for bytes in [60_000, 60_001] {
        text(&rt, bytes)?;
    }
    Ok(())
}
