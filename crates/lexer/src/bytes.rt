// The bytes that a line may have.
ghost use Rattle.std.specs.Prelude.{◌≡◌};
ghost use Rattle.lexer.specs.Lines.{allowed, clean};

pub fn is_allowed(byte: u8) -> bool
    ensures { result ≡ allowed byte }
{
    match byte {
        b'a'..=b'z' | b'0'..=b'9' | b'-' | b' ' => true,
        _ => false,
    }
}

pub fn is_clean(line: &[u8]) -> bool
    ensures { result ≡ clean line.now }
{
    line.iter().all(|byte| is_allowed(*byte))
}
