// A plan is text or packed bytes: its first byte says which.
ghost use Rattle.std.specs.Prelude.{◌≡◌};
ghost use Rattle.plan_notation.specs.Lexing.{is_blank};
ghost use Rattle.text_inputs.specs.Plans.{is_text};

// White space.
pub fn is_blank(byte: u8) -> bool
    ensures { result ≡ is_blank byte }
{
    (byte == b' ') | (byte == b'\t') | (byte == b'\n') | (byte == b'\r')
}

// A plan that is given as text.
pub fn is_text(bytes: &[u8]) -> bool
    ensures { result ≡ is_text bytes.now }
{
    match bytes.first() {
        Some(first) => is_blank(*first) || b' ' < *first,
        None => false,
    }
}
