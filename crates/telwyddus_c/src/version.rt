// Which library this is.
ghost use Rattle.std.specs.Prelude.{◌≡◌};

/// The version in the file VERSION: ten thousand times the first number, a hundred times the second, and the third.
const VERSION: u32 = 20000;

/// The library's version as one number.
#[unsafe(no_mangle)]
pub extern "C" fn telwyddus_version() -> u32
    ensures { result ≡ 20000 }
{
    VERSION
}
