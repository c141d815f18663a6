// The version of the entries for C and Rust.
#![tactic(auto)]

ghost use Rattle.std.specs.Prelude.{◌≡◌};
ghost use Rattle.abi_version.specs.Version.{version};

pub fn version() -> u64
    ensures { result ≡ version }
{
    66304
}
