// The library's version.
ghost use Rattle.std.specs.Prelude.{◌≡◌};
ghost use Rattle.capi.specs.Version.{version};

// Answers the version, a byte each for the major number, the minor number and the patch.
pub fn nekbrod_version() -> u32
    ensures { result ≡ version }
{
    u32::from_be_bytes([0, 0, 7, 0])
}
