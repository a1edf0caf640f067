//! `diff FILE J1 J2`: FILE is read, and J1 and J2 are opened. Both journals are read and taken to their ends, and then compared; last
//! what is told of them is written.

ghost use Rattle.std.specs.Prelude.{◌≢◌, IfErr, IfOk, List, option_map};
ghost use Rattle.clap.specs.Words.{Text};
ghost use Rattle.std.specs.Io.KnownBytes.{Keeps};
ghost use Rattle.arguments.specs.CommandWords.{AsksDiff};
ghost use Rattle.differences.specs.Comparisons.{IsComparison};
ghost use Rattle.program.specs.Subjects.{sources_with};
ghost use Rattle.files.specs.Saved.{KeepsFiles};
ghost use Rattle.journal.specs.Counted.{held};
ghost use Rattle.program.specs.Printed.{ComparesJournals, HasEnded};
ghost use Rattle.program.specs.Program.{status_of};

use crate::ending::Ending;
use crate::fault::{CommandFault, JournalFault};
use crate::reading::{CommandJournal, entries_of};
use crate::subject::{AskedSource, DesignSubject, Judged, judged_subject, read_sources};
use arguments::{DesignWords, DiffRequest};
use differences::{CompareFault, ComparedJournals, Comparison, JournalSide, compare};
use files::{Files, open_file, send_off, show_bytes};
use journal::Counted;
use progress::Progress;
use std::alloc::Global;
use std::io::{Read, Write};

/// Compares J1 and J2 on FILE, and writes what is told of them.
pub fn diff_journals<'a, F: Files, O: Write>(
    alloc: Global,
    request: &DiffRequest<'a>,
    design_words: Option<&'a DesignWords<'a>>,
    files: &mut F,
    out: &mut Counted<O>,
) -> Result<Ending, CommandFault<'a>>
    ensures nothing { IfErr result (λ fault. status_of fault ≢ 1 → Keeps (O.contents (held out.old)) (O.contents (held out.new))) }
    ensures unsaved { KeepsFiles (F.made files.old) (F.made files.new) }
    ensures ended { (words : List Text) → AsksDiff words request.now → IfOk result (HasEnded (sources_with (F.held files.old) (option_map (λ w. w.now) design_words.entry)) words (O.contents (held out.old)) (O.contents (held out.new)) (F.made files.old) (F.made files.new)) }
{
    let asked = AskedSource {
        file: request.file,
        words: design_words,
    };
    let texts = read_sources(alloc, asked, files)?;
    let first = open_file(request.first, files)?;
    let second = open_file(request.second, files)?;
    let subject = match judged_subject(alloc, texts, files)? {
        Judged::Taken(subject) => subject,
        Judged::Wrong(text) => return Ok(Ending::Wrong(text)),
    };
    let all = request.all_times;
    let told = compare_read(alloc, &subject, all, first, second, &files.progress())?;
    show_bytes(out, told.text.as_slice())?;
    send_off(out)?;
    Ok(Ending::of_comparison(told.same))
}

/// Compares two journals that are left to read, on a design, and of all times or not.
fn compare_read<R: Read + Drop, P: Progress>(
    alloc: Global,
    subject: &DesignSubject,
    all: bool,
    first: R,
    second: R,
    progress: &P,
) -> Result<Comparison, CommandFault<'static>>
    ensures { IfOk result (ComparesJournals subject.now all (R.remaining first) (R.remaining second)) }
{
    let ones = entries_of(alloc, first, CommandJournal::Side(JournalSide::First))?;
    let others = entries_of(alloc, second, CommandJournal::Side(JournalSide::Second))?;
    let journals = ComparedJournals {
        processes: subject.processes.as_slice(),
        design: &subject.design,
        first: ones.as_slice(),
        second: others.as_slice(),
        all,
    };
    comparison_of(alloc, journals, progress)
}

/// What is told of two journals on a design.
fn comparison_of<P: Progress>(
    alloc: Global,
    journals: ComparedJournals<'_>,
    progress: &P,
) -> Result<Comparison, CommandFault<'static>>
    ensures { IfOk result (IsComparison journals.entry.processes.now journals.entry.design.now journals.entry.all journals.entry.first.now journals.entry.second.now) }
{
    let compared = compare(alloc, journals, progress);
    progress.end();
    match compared {
        Ok(told) => Ok(told),
        Err(CompareFault::Replay(side, fault)) => {
            Err(CommandFault::Journal(side, JournalFault::Replay(fault)))
        }
        Err(CompareFault::Memory) => Err(CommandFault::Memory),
    }
}
