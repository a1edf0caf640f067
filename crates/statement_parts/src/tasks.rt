//! System tasks that do nothing.

ghost use Rattle.std.specs.Prelude.{◌≡◌};
ghost use Rattle.statement_parts.specs.Statements as plain;

/// Whether a system task writes waves (18.1). It does nothing: a command of its own writes them.
pub fn is_dump_task(name: &[u8]) -> bool
    ensures { result ≡ plain.is_dump_task name.now }
{
    name == b"$dumpfile".as_slice()
        || name == b"$dumpvars".as_slice()
        || name == b"$dumpon".as_slice()
        || name == b"$dumpoff".as_slice()
        || name == b"$dumpall".as_slice()
        || name == b"$dumplimit".as_slice()
        || name == b"$dumpflush".as_slice()
}
