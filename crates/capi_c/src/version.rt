// The library's version.
ghost use Rattle.std.specs.Prelude.{◌≡◌};
ghost use Rattle.capi.specs.Version.{version};

// Answers the version, a byte each for the major number, the minor number and the patch.
#[unsafe(no_mangle)]
pub extern "C" fn nekbrod_version() -> u32
    ensures { result ≡ version }
{
    capi::version::nekbrod_version()
}
