// The clauses of a book one after the other.
ghost use Rattle.std.specs.Prelude.{◌≡◌};
ghost use Rattle.std.specs.Iterator.{YieldsFirstRef, item_count};
ghost use Rattle.clauses.specs.Books.{clauses_of};
ghost use Rattle.clauses.specs.Listing.{left};

use crate::book::ClauseBook;
use assignments::Literal;

// What is left of a book's clauses, from the clause of this index on.
#[derive(Drop)]
pub struct Clauses<'a> {
    book: &'a ClauseBook,
    index: usize,
}

impl ClauseBook {
    // An iterator over the clauses.
    pub fn clauses(&self) -> Clauses<'_>
        ensures { left result ≡ clauses_of self.now }
    {
        Clauses {
            book: self,
            index: 0,
        }
    }
}

impl<'a> Iterator for Clauses<'a> {
    type Item = &'a [Literal];

    ghost next_gives = { YieldsFirstRef left };

    ghost remaining = { item_count left };

    fn next(&mut self) -> Option<&'a [Literal]> {
        let clause = self.book.clause(self.index)?;
        self.index += 1;
        Some(clause)
    }
}
