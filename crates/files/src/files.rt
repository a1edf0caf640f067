//! Where the paths of a command line lead.

ghost use Rattle.std.specs.Prelude.{◌≡◌, Bool, IfOk, IfSome, List, None, OnErr, OnOk, Option, ℕ};
ghost use Rattle.files.specs.Saved.{MadeFile, KeepsFiles, KeepsHeld, IsOpened, HoldsNothing, ClosesFile};

use progress::Progress;
use std::io;
use std::io::{Read, Write};

/// Where the paths of a command line lead: the system's files, or a test's in memory.
pub trait Files {
    type Source: Read + Drop;

    /// A file that was begun. Where it is dropped and not finished, nothing is at its path that wasn't there before.
    type Target: Write + Drop;

    /// Who is told how far long work is: one that borrows nothing of the files, which are used beside it.
    type Progress: Progress + Drop;

    // The files that were made and finished, one after another, where they are known.
    ghost made: { Self → Option (List MadeFile) } = { λ _. None };

    // Whether two paths lead to one file, where that is known.
    ghost alike: { Self → Option (List ℕ → List ℕ → Bool) } = { λ _. None };

    // The bytes that the files hold at their paths, where they are known.
    ghost held: { Self → Option (List ℕ → List ℕ) } = { λ _. None };

    /// Opens a file for reading. The path `-` is standard input.
    fn open(&mut self, path: &str) -> io::Result<Self::Source>
        ensures kept { KeepsFiles (made self.old) (made self.new) }
        ensures opened { IfOk result (λ source. IsOpened (held self.old) path.now (Self.Source.remaining source)) }
        ensures held { KeepsHeld (held self.old) (held self.new) };

    /// Whether what is written to the path `out` would take the place of what the path `source` leads to.
    fn same(&self, source: &str, out: &str) -> bool
        ensures { IfSome (alike self.now) (λ alike. result ≡ alike source.now out.now) };

    /// Begins a file that is to stand at this path. What stands there stays until the file is finished.
    fn begin(&mut self, path: &str) -> io::Result<Self::Target>
        ensures kept { KeepsFiles (made self.old) (made self.new) }
        ensures empty { IfOk result (λ target. HoldsNothing (made self.new) (Self.Target.contents target)) };

    /// Puts a file that was begun for this path and written whole there. Where it can't, what stands there stays.
    fn finish(&mut self, path: &str, target: Self::Target) -> io::Result<()>
        ensures finished { OnOk result (ClosesFile (made self.old) (made self.new) path.now (Self.Target.contents target)) }
        ensures unfinished { OnErr result (KeepsFiles (made self.old) (made self.new)) };

    /// Long work begins now, and writes nothing until it ends.
    fn progress(&self) -> Self::Progress;

    /// Long work begins now, and writes to standard output all along: what is shown of it may not stand between.
    fn progress_beside_output(&self) -> Self::Progress;
}
