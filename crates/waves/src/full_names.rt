//! The full names of scopes and of what stands in them, between whose parts dots stand (12.4).

ghost use Rattle.std.specs.Prelude.{◌≡◌, ◌-◌, take, length, if◌then◌else◌};
ghost use Rattle.waves.specs.FullNames.{escaped_behind, is_parting_dot, is_shown_name, name_in_scope, scope_of_name};

/// Whether a byte is a dot that parts names: not in an escaped one.
fn parts_names(is_escaped: bool, byte: u8) -> bool
    ensures { result ≡ is_parting_dot is_escaped byte }
{
    !is_escaped && byte == b'.'
}

/// Whether what stands behind a byte is in an escaped name, which a `\` begins and a space ends (3.7.1).
fn escapes(is_escaped: bool, begins: bool, byte: u8) -> bool
    ensures { result ≡ escaped_behind is_escaped begins byte }
{
    if is_escaped {
        byte != b' '
    } else {
        begins && byte == b'\\'
    }
}

/// What stands behind a byte, where that parts names; else what stood behind the last one that did.
fn behind_last<'a>(parts: bool, rest: &'a [u8], own: &'a [u8]) -> &'a [u8]
    ensures { result.now ≡ (if parts then rest.now else own.now) }
{
    if parts { rest } else { own }
}

/// The name of something in its scope, by its full name: what stands behind the last dot that parts names.
pub(crate) fn own_name(name: &[u8]) -> &[u8]
    ensures { result.now ≡ name_in_scope name.now }
{
    let mut left = name;
    let mut own = name;
    let mut is_escaped = false;
    let mut begins = true;
    while let [byte, rest @ ..] = left {
        let parts = parts_names(is_escaped, *byte);
        own = behind_last(parts, rest, own);
        is_escaped = escapes(is_escaped, begins, *byte);
        begins = parts;
        left = rest;
    }
    own
}

/// What stands before the name of something in its scope and the dot in front of it; nothing where there is no dot.
fn without_own<'a>(name: &'a [u8], own: &[u8]) -> &'a [u8]
    ensures { result.now ≡ take (length name.now - length own.now - 1) name.now }
{
    let count = name.len().saturating_sub(own.len()).saturating_sub(1);
    name.split_at(count).0
}

/// The full name of the scope in which something stands, by the full name of that; nothing where it stands in none.
pub(crate) fn scope_of(name: &[u8]) -> &[u8]
    ensures { result.now ≡ scope_of_name name.now }
{
    without_own(name, own_name(name))
}

/// Whether a register is shown: no text declares one whose name begins with a `$`.
pub(crate) fn is_shown(name: &[u8]) -> bool
    ensures { result ≡ is_shown_name name.now }
{
    match name {
        [first, ..] => *first != b'$',
        [] => true,
    }
}
