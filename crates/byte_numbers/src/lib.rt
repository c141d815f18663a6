// Numbers of several bytes, most significant byte first.
#![tactic(auto)]

ghost use Rattle.std.specs.Prelude.{◌≡◌, ◌+◌, ◌*◌, ◌≤◌, ◌<◌, length};
ghost use Rattle.format.specs.Bits.{bits_at};

pub fn wide(byte: u8) -> usize
    ensures { (result ≡ byte) × (result < 256) }
{
    byte as usize
}

// The 16 bits from byte `at` on.
pub fn half(bytes: &[u8], at: usize) -> usize
    requires { at + 2 ≤ length bytes.now }
    ensures { (result ≡ bits_at bytes.now (at * 8) 16) × (result < 65536) }
{
    let high = wide(bytes[at]);
    let low = wide(bytes[at + 1]);
    high * 256 + low
}
