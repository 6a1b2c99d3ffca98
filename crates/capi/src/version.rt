// What a caller holds against the header that it was compiled with: a library of another version takes other arguments.
ghost use Rattle.std.specs.Prelude.{◌≡◌};

// The version as one number: 1,000,000 for each major, 1,000 for each minor one, and the patch.
const VERSION: usize = 9000;

// The buffers that every call takes.
const BUFFERS: usize = 10;

#[unsafe(no_mangle)]
pub extern "C" fn huwekapo_version() -> usize
    ensures { result ≡ 9000 }
{
    VERSION
}

#[unsafe(no_mangle)]
pub extern "C" fn huwekapo_buffers() -> usize
    ensures { result ≡ 10 }
{
    BUFFERS
}
