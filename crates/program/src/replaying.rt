//! `replay FILE JOURNAL`: the file is read and the journal opened. Then the journal is replayed on the
//! design of the file, and its lines are written.

ghost use Rattle.std.specs.Prelude.{◌≢◌, IfErr, IfOk, List, option_map};
ghost use Rattle.clap.specs.Words.{Text};
ghost use Rattle.std.specs.Io.KnownBytes.{Keeps};
ghost use Rattle.journal.specs.Counted.{held};
ghost use Rattle.arguments.specs.CommandWords.{AsksReplay};
ghost use Rattle.program.specs.Program.{status_of};
ghost use Rattle.program.specs.Printed.{HasEnded, HasReplayedTo};
ghost use Rattle.program.specs.Subjects.{sources_with};
ghost use Rattle.files.specs.Saved.{KeepsFiles};

use crate::ending::Ending;
use crate::fault::CommandFault;
use crate::subject::{AskedSource, Judged, judged_design, read_sources};
use arguments::{DesignWords, ReplayRequest};
use files::{Files, open_file, send_off};
use journal::Counted;
use progress::Progress;
use replay::replay_on_design;
use std::alloc::Global;
use std::io::Write;

/// Replays JOURNAL on FILE and writes its lines.
pub fn replay_journal<'a, F: Files, O: Write>(
    alloc: Global,
    request: &ReplayRequest<'a>,
    design_words: Option<&'a DesignWords<'a>>,
    files: &mut F,
    out: &mut Counted<O>,
) -> Result<Ending, CommandFault<'a>>
    ensures printed { IfOk result (HasReplayedTo (sources_with (F.held files.old) (option_map (λ w. w.now) design_words.entry)) request.now.file.now request.now.journal.now (O.contents (held out.old)) (O.contents (held out.new))) }
    ensures nothing { IfErr result (λ fault. status_of fault ≢ 1 → Keeps (O.contents (held out.old)) (O.contents (held out.new))) }
    ensures unsaved { KeepsFiles (F.made files.old) (F.made files.new) }
    ensures ended { (words : List Text) → AsksReplay words request.now → IfOk result (HasEnded (sources_with (F.held files.old) (option_map (λ w. w.now) design_words.entry)) words (O.contents (held out.old)) (O.contents (held out.new)) (F.made files.old) (F.made files.new)) }
{
    let asked = AskedSource {
        file: request.file,
        words: design_words,
    };
    let texts = read_sources(alloc, asked, files)?;
    let mut journal = Counted::new(open_file(request.journal, files)?);
    let design = match judged_design(alloc, texts, files)? {
        Judged::Taken(design) => design,
        Judged::Wrong(text) => return Ok(Ending::Wrong(text)),
    };
    let progress = files.progress();
    let replayed = replay_on_design(alloc, &design, &mut journal, out, &progress);
    progress.end();
    match replayed {
        Ok(()) => {}
        Err(fault) => return Err(CommandFault::Replay(fault)),
    }
    send_off(out)?;
    Ok(Ending::Done)
}
