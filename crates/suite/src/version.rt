// The version of the library that is linked.
ghost use Rattle.std.specs.Prelude.{◌≡◌};
ghost use Rattle.suite.specs.Version.{version};

#[unsafe(no_mangle)]
pub extern "C" fn zamiathen_version() -> usize
    ensures { result ≡ version }
{
    6002
}
