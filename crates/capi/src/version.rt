// The version of the archive.
ghost use Rattle.std.specs.Prelude.{◌≡◌};
ghost use Rattle.capi.specs.Version.{version};

// The version of these calls, 10000 * major + 100 * minor + patch: a caller compares it with that of its header. Version 0.2.0.
#[unsafe(no_mangle)]
pub extern "C" fn ketphiroj_version() -> u32
    ensures { result ≡ version }
{
    200
}
