//! The identifier codes of registers (18.2).

ghost use Rattle.std.specs.Prelude.{◌≡◌, ◌++◌, OnOk};
ghost use Rattle.waves.specs.IdentifierCodes.{code};

use design::RegId;
use std::alloc::AllocError;

/// How many characters a code may have at each of its places: those from `!` to `~`.
const CHARACTERS: u32 = 94;

/// Puts the identifier code of a register behind a text.
pub(crate) fn push_code(text: &mut Vec<u8>, register: RegId) -> Result<(), AllocError>
    ensures { OnOk result (text.new.items ≡ text.old.items ++ code register) }
{
    let mut rest = register;
    while rest >= CHARACTERS {
        text.push(b'!' + (rest % CHARACTERS) as u8)?;
        rest = rest / CHARACTERS - 1;
    }
    text.push(b'!' + rest as u8)?;
    Ok(())
}
