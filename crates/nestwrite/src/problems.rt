// The heading, the contents and the bodies of a problem, put to a text.
ghost use Rattle.std.specs.Prelude.{◌≡◌, flat_map};
ghost use Rattle.nestformat.specs.Items.{items_of};
ghost use Rattle.nestformat.specs.Reading.{written};
ghost use Rattle.nestfile.specs.Problems.{told};
ghost use Rattle.writing.specs.Texts.{joined};
ghost use Rattle.writing.specs.Buffers.{held};
ghost use Rattle.nestwrite.specs.Texts.{contents_text, kind_rows, rows_text, body_text, entry_text};

use crate::rows::{put_clauses, put_nest, put_rows};
use nestfile::Problem;
use nestformat::kinds::{BodyKind, Contents, Heading};
use writing::TextOut;

fn put_contents(out: &mut TextOut, entries: &[Contents])
    ensures { held out.new ≡ joined (held out.old) (flat_map contents_text entries.now) }
{
    for entry in entries {
        out.put_contents(*entry);
    }
}

fn put_body_rows(out: &mut TextOut, problem: &Problem, kind: BodyKind)
    ensures { held out.new ≡ joined (held out.old) (rows_text (kind_rows problem.now kind)) }
{
    match kind {
        BodyKind::Outer => put_clauses(out, problem.outer()),
        BodyKind::Nest => put_nest(out, problem.nest()),
        BodyKind::Below => put_nest(out, problem.below()),
        BodyKind::Loop => put_rows(out, problem.arcs()),
        BodyKind::Milliamperes => put_rows(out, problem.milliamperes()),
        BodyKind::Lines => put_rows(out, problem.lines()),
    }
}

// The body line of the kind, and its rows.
fn put_body(out: &mut TextOut, problem: &Problem, kind: BodyKind)
    ensures { held out.new ≡ joined (held out.old) (body_text problem.now kind) }
{
    out.put_body_line(kind, problem.map());
    put_body_rows(out, problem, kind);
}

fn put_bodies(out: &mut TextOut, problem: &Problem, entries: &[Contents])
    ensures { held out.new ≡ joined (held out.old) (flat_map (entry_text problem.now) entries.now) }
{
    for entry in entries {
        put_body(out, problem, entry.kind);
    }
}

pub(crate) fn put_problem(out: &mut TextOut, problem: &Problem)
    ensures { held out.new ≡ joined (held out.old) (written (items_of (told problem.now))) }
{
    let entries = problem.contents();
    out.put_heading(Heading {
        map: problem.map(),
        bodies: entries.len(),
    });
    put_contents(out, entries);
    put_bodies(out, problem, entries);
}
