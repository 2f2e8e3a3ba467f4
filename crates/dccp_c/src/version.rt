//! What a program that links the library compares with its header (own).
ghost use Rattle.std.specs.Prelude.{◌≡◌};

/// The number of the interface, which rises with every change of a function, a struct or a number in it.
#[unsafe(no_mangle)]
pub extern "C" fn dccp_abi() -> u32
    ensures { result ≡ 5 }
{
    5
}

/// The version, as 10,000 times the major number, 100 times the minor one and the patch: 100 is 0.1.0.
#[unsafe(no_mangle)]
pub extern "C" fn dccp_version() -> u32
    ensures { result ≡ 100 }
{
    100
}
