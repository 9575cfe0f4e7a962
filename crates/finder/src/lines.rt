// The listing of a problem.
ghost use Rattle.std.specs.Prelude.{◌≡◌};
ghost use Rattle.listing.specs.Standing.{Lists};
ghost use Rattle.nestfile.specs.Problems.{told};
ghost use Rattle.finder.specs.Listed.{file_lines};
ghost use Rattle.finder.specs.Meanings.{file_means};

use crate::settings::session_of;
use crate::veto::FileVeto;
use listing::listing::Listing;
use nestfile::Problem;
use vetoes::veto::Veto;

// Its lines tell the map and the atoms, then each of the first settings that the file admits, and then the end.
pub fn listing_of(problem: &Problem) -> Listing<FileVeto>
    ensures meaning { ⟦<FileVeto as Veto>⟧.means result.session.veto ≡ file_means (told problem.now) }
    ensures lists { Lists (file_means (told problem.now)) result.session.table result.progress (file_lines (told problem.now)) }
{
    match Listing::new(session_of(problem), problem.map()) {
        Ok(listing) => listing,
        Err(_) => unreachable!(),
    }
}
