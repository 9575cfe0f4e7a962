// What the contents of a problem say of a body.
ghost use Rattle.std.specs.Prelude.{◌≡◌};
ghost use Rattle.finder.specs.Bodies.{entry_at};

use nestformat::kinds::{BodyKind, Contents};

// The entry of the body of that kind, where there is one.
pub(crate) fn entry_of(contents: &[Contents], kind: BodyKind) -> Option<Contents>
    ensures { result ≡ entry_at kind contents.now }
{
    for entry in contents {
        if kind == entry.kind {
            return Some(*entry);
        }
    }
    None
}
