// The number of the calls and of the arrays' layouts, SLOT_ABI of the header. The name has it too: who refers to it links with archives of this number alone.
ghost use Rattle.std.specs.Prelude.{◌≡◌};
ghost use Rattle.slot.specs.Abi.{abi};

#[unsafe(no_mangle)]
pub extern "C" fn slot_abi_2() -> u32
    ensures { result ≡ abi }
{
    2
}
