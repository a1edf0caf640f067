//! `races FILE --observe ..`: waves are searched, which is what runs have in common where more or less than their lines, in order, is compared. What is said
//! of them is told, and then their journals are written.

ghost use Rattle.std.specs.Prelude.{◌≡◌, ◌≢◌, ◌⊎◌, ◌++◌, IfErr, IfOk, IsTrue, OnOk, false, length, option_map};
ghost use Rattle.std.specs.Io.KnownBytes.{Keeps};
ghost use Rattle.std.specs.List.{All, Any, Contains};
ghost use Rattle.explore.specs.Search.{IsShown};
ghost use Rattle.observers.specs.Observers.{observer_of};
ghost use Rattle.lawful.specs.ArrangedNodes.{registers_seen};
ghost use Rattle.wavetexts.specs.Waves.{IsWaveOfText};
ghost use Rattle.arguments.specs.Options.{CanSearch};
ghost use Rattle.arguments.specs.declared.observed.Observed.TheVariants.{Lines};
ghost use Rattle.program.specs.Subjects.{sources_with};
ghost use Rattle.files.specs.Saved.{KeepsFiles, LeadsElsewhere, journal_path};
ghost use Rattle.program.specs.Findings.{AreFew};
ghost use Rattle.program.specs.Observed.{AreFoundWaves, AreRegistersAsked, AreRegistersOf, AreWavesSaid, HasLeftWaves, HasObservedTo, IsNameTold, IsObservedEnding, HasSavedWaves, before_line, followed_at_limit, most_texts, observer_of_registers, observes_all, texts_bound, wave_claim_of};
ghost use Rattle.program.specs.Printed.{AreUntouched};
ghost use Rattle.program.specs.Program.{status_of};

use crate::early_journals::SavedEarly;
use crate::ending::Ending;
use crate::fault::CommandFault;
use crate::known::KnownTexts;
use crate::run_ends::endings_of;
use crate::searching::{
    bounds_of, claim_of, endless_of, finding_of, first_of, met_limit, number_of, stop_of,
    tell_texts,
};
use crate::stops::stops_of;
use crate::subject::{AskedSource, Judged, judged_design, read_sources, spare_first_of};
use crate::texts::{FoundTexts, ToldTexts};
use arguments::{DesignWords, Observed, RacesRequest, SearchOptions};
use design::{Design, RegId};
use explore::{Explored, Shown, Stopped};
use files::{Files, try_first};
use lawful::observed_orders;
use looseruns::observed_end::ObservedEnd;
use model::end::{End, Limits};
use model::entry::Entry;
use observers::Observing;
use progress::Progress;
use std::alloc::{AllocError, Global};
use std::io::Write;
use verdict::{Claim, SearchStop, WaveVerdict, push_followed, push_wave_verdict};
use wavetexts::{
    NamedRegisters, WaveNames, all_registers, printed_lines, push_waves, registers_named, waves_of,
};

/// As many texts and ends are searched for each wave that may be found, since two may be one wave.
const TEXTS_PER_WAVE: u64 = 1000;

/// And never more than these.
const MOST_TEXTS: u64 = 4_294_967_295;

/// Searches for waves of FILE and writes what came of it, or tells that a register which is to be observed isn't there.
pub fn search_waves<'a, F: Files, O: Write>(
    alloc: Global,
    request: &RacesRequest<'a>,
    design_words: Option<&'a DesignWords<'a>>,
    files: &mut F,
    out: &mut O,
) -> Result<Ending, CommandFault<'a>>
    requires { request.now.observed ≢ Lines }
    ensures ended { IfOk result (HasObservedTo (sources_with (F.held files.old) (option_map (λ w. w.now) design_words.entry)) request.now.file.now request.now.observed request.now.search_options (option_map (λ path. path.now) request.now.journals)
        (O.contents out.old) (O.contents out.new) (F.made files.old) (F.made files.new)) }
    ensures nothing { IfErr result (λ fault. (status_of fault ≡ 3) ⊎ (status_of fault ≡ 5) → Keeps (O.contents out.old) (O.contents out.new)) }
    ensures unsaved { IfErr result (λ fault. (status_of fault ≡ 3) ⊎ (status_of fault ≡ 5) → KeepsFiles (F.made files.old) (F.made files.new)) }
    ensures wanting { IfErr result (λ fault. status_of fault ≡ 6 → HasLeftWaves (sources_with (F.held files.old) (option_map (λ w. w.now) design_words.entry)) request.now.file.now request.now.observed request.now.search_options (option_map (λ path. path.now) request.now.journals)
        (O.contents out.old) (O.contents out.new) (F.made files.old) (F.made files.new)) }
    ensures spared { OnOk result (LeadsElsewhere (F.alike files.old) request.now.file.now (option_map (λ prefix. journal_path prefix.now 1) request.now.journals)) }
{
    let asked = AskedSource {
        file: request.file,
        words: design_words,
    };
    spare_first_of(alloc, asked, request.journals, files)?;
    let texts = read_sources(alloc, asked, files)?;
    let design = match judged_design(alloc, texts, files)? {
        Judged::Taken(design) => design,
        Judged::Wrong(text) => return Ok(Ending::Wrong(text)),
    };
    observe_design(alloc, &design, request, files, out)
}

/// Searches for waves of a design, unless a register that is to be observed isn't there.
fn observe_design<F: Files, O: Write>(
    alloc: Global,
    design: &Design,
    request: &RacesRequest<'_>,
    files: &mut F,
    out: &mut O,
) -> Result<Ending, CommandFault<'static>>
    requires { request.now.observed ≢ Lines }
    ensures ended { IfOk result (IsObservedEnding design.now request.now.observed request.now.search_options (option_map (λ path. path.now) request.now.journals)
        (O.contents out.old) (O.contents out.new) (F.made files.old) (F.made files.new)) }
    ensures fault { IfErr result (λ fault. (status_of fault ≡ 1) ⊎ (status_of fault ≡ 6)) }
    ensures wanting { IfErr result (λ fault. status_of fault ≡ 6 → AreUntouched (O.contents out.old) (O.contents out.new) (F.made files.old) (F.made files.new)
        ⊎ HasSavedWaves design.now request.now.observed request.now.search_options (option_map (λ path. path.now) request.now.journals) (O.contents out.old) (O.contents out.new) (F.made files.old) (F.made files.new)) }
{
    let asked = asked_registers(alloc, design, request.observed)?;
    match asked {
        NamedRegisters::All(registers) => {
            tell_waves(alloc, design, registers.as_slice(), request, files, out)
        }
        NamedRegisters::Unknown(name) => no_register(alloc, name),
    }
}

/// A name that no register has, as the end of a command.
pub(crate) fn no_register(alloc: Global, name: &str) -> Result<Ending, CommandFault<'static>>
    ensures told { IfOk result (λ end. IsNameTold name.now end) }
    ensures fault { IfErr result (λ fault. status_of fault ≡ 6) }
{
    let name = String::from_str(alloc, name)?;
    Ok(Ending::NoRegister(name))
}

/// The registers that are asked for, or the first name that no register has.
fn asked_registers<'a>(
    alloc: Global,
    design: &Design,
    observed: Observed<'a>,
) -> Result<NamedRegisters<'a>, AllocError>
    requires { observed ≢ Lines }
    ensures { IfOk result (AreRegistersAsked design.now observed.entry) }
{
    match observed {
        Observed::Lines | Observed::LinesAtTimes => Ok(NamedRegisters::All(Vec::new(alloc))),
        Observed::Registers => Ok(NamedRegisters::All(all_registers(alloc, design)?)),
        Observed::Named(names) => registers_named(alloc, design, names),
    }
}

/// Searches for waves of these registers, tells what is said of them, and saves their journals where they are wanted.
fn tell_waves<F: Files, O: Write>(
    alloc: Global,
    design: &Design,
    registers: &[RegId],
    request: &RacesRequest<'_>,
    files: &mut F,
    out: &mut O,
) -> Result<Ending, CommandFault<'static>>
    requires { AreRegistersOf design.now request.now.observed registers.now }
    ensures ended { IfOk result (IsObservedEnding design.now request.now.observed request.now.search_options (option_map (λ path. path.now) request.now.journals)
        (O.contents out.old) (O.contents out.new) (F.made files.old) (F.made files.new)) }
    ensures fault { IfErr result (λ fault. (status_of fault ≡ 1) ⊎ (status_of fault ≡ 6)) }
    ensures wanting { IfErr result (λ fault. status_of fault ≡ 6 → AreUntouched (O.contents out.old) (O.contents out.new) (F.made files.old) (F.made files.new)
        ⊎ HasSavedWaves design.now request.now.observed request.now.search_options (option_map (λ path. path.now) request.now.journals) (O.contents out.old) (O.contents out.new) (F.made files.old) (F.made files.new)) }
{
    try_first(alloc, request.journals, files)?;
    let search_options = request.search_options;
    let waves = find_waves(alloc, design, search_options, registers, &files.progress())?;
    let said = wave_lines(alloc, design, registers, &waves, request)?;
    let found = finding_of(&waves, false);
    let told = ToldTexts {
        texts: waves,
        lines: said,
    };
    match tell_texts(alloc, told, SavedEarly::none(), request, files, out) {
        Ok(()) => Ok(Ending::Found(found)),
        Err(fault) => Err(fault),
    }
}

/// An observer of these registers.
fn observing_of(alloc: Global, registers: &[RegId]) -> Result<Observing, AllocError>
    ensures sees { IfOk result (λ observing. observer_of observing ≡ observer_of_registers registers.now) }
    ensures count { IfOk result (λ observing. registers_seen observing ≡ length registers.now) }
{
    let mut all = Vec::new(alloc);
    all.extend_from_slice(registers)?;
    Ok(Observing::Registers(all))
}

/// The waves of these registers in all lawful orders, as far as they are searched.
fn find_waves<P: Progress>(
    alloc: Global,
    design: &Design,
    search_options: SearchOptions,
    registers: &[RegId],
    progress: &P,
) -> Result<FoundTexts, AllocError>
    requires { CanSearch search_options }
    ensures { IfOk result (λ waves. AreFoundWaves design.now search_options registers.now waves.claim waves.followed_before waves.shown.items (option_map (λ journal. journal.items) waves.endless)) }
{
    let observing = observing_of(alloc, registers)?;
    let limits = Limits {
        until: search_options.until,
        max_entries: search_options.max_entries,
    };
    let bounds = bounds_of(search_options, texts_bound(search_options));
    let explored = observed_orders(alloc, design, limits, bounds, &observing, progress);
    progress.end();
    let Explored {
        shown: others,
        stopped,
        nodes,
        endless,
        followed_before,
        widest,
    } = explored;
    let mut all = KnownTexts {
        shown: Vec::new(alloc),
        most: search_options.max_texts as usize,
    };
    let added = add_waves(&mut all, alloc, others);
    let KnownTexts { shown, most: _ } = all;
    let stopped = stop_of(stopped, added);
    let endless = endless_of(stopped, endless);
    let number = number_of(&endless, shown.as_slice());
    let claim = wave_claim_of(search_options, stopped, nodes, number, shown.len());
    Ok(FoundTexts {
        claim,
        shown,
        endless,
        followed_before,
        widest,
    })
}

/// Adds the waves of observed texts with the lines of each time in order, each unless one with its end is there. It stops where as many as may be are there. The answer is whether each
/// is there now.
fn add_waves(
    all: &mut KnownTexts,
    alloc: Global,
    others: Vec<Shown<Entry, ObservedEnd>>,
) -> Result<bool, AllocError>
    requires few { AreFew all.old }
    ensures few { AreFew all.new }
    ensures most { all.new.most ≡ all.old.most }
    ensures each { All (λ w. Contains all.old.shown.items w ⊎ Any (λ s. IsWaveOfText s w) others.items) all.new.shown.items }
    ensures there { IfOk result (λ whole. IsTrue whole → All (λ s. IsShown all.new.shown.items (s.text.items ++ s.end.seen) s.end.end) others.items) }
    ensures full { IfOk result (λ whole. whole ≡ false → length all.new.shown.items ≡ all.new.most) }
{
    let waves = waves_of(alloc, others)?;
    all.add_all(waves)
}

/// The most texts and ends that are searched.
fn texts_bound(search_options: SearchOptions) -> u32
    ensures { result ≡ texts_bound search_options.max_texts }
{
    let texts = u64::from(search_options.max_texts) * TEXTS_PER_WAVE;
    texts.min(MOST_TEXTS) as u32
}

/// The most texts, of which a search with so many waves has met the limit: those that it may find where there may be more waves.
fn most_texts(search_options: SearchOptions, count: usize) -> u32
    ensures { result ≡ most_texts search_options count }
{
    if count < search_options.max_texts as usize {
        texts_bound(search_options)
    } else {
        search_options.max_texts
    }
}

/// What is claimed of the waves of a search.
fn wave_claim_of(
    search_options: SearchOptions,
    stopped: Option<Stopped>,
    nodes: usize,
    endless: Option<usize>,
    count: usize,
) -> Claim
    ensures { result ≡ wave_claim_of search_options stopped nodes endless count }
{
    match stopped {
        Some(Stopped::Shown) => {
            Claim::SoFar(SearchStop::Texts(most_texts(search_options, count)))
        }
        _ => claim_of(search_options, stopped, nodes, endless),
    }
}

/// Whether all registers are to be observed.
fn observes_all(observed: Observed<'_>) -> bool
    ensures { result ≡ observes_all observed.entry }
{
    match observed {
        Observed::Registers => true,
        Observed::Lines | Observed::LinesAtTimes | Observed::Named(_) => false,
    }
}

/// What is said of the waves that a request asks for.
fn wave_lines(
    alloc: Global,
    design: &Design,
    registers: &[RegId],
    waves: &FoundTexts,
    request: &RacesRequest<'_>,
) -> Result<Vec<u8>, AllocError>
    ensures { IfOk result (λ said. AreWavesSaid design.now request.now.observed registers.now request.now.search_options (option_map (λ path. path.now) request.now.journals) waves.now.claim waves.now.followed_before waves.now.shown.items said.items) }
{
    let names = WaveNames {
        design,
        registers,
        prefix: request.journals,
    };
    let shown = waves.shown.as_slice();
    let stops = stops_of(alloc, shown)?;
    let verdict = WaveVerdict {
        claim: waves.claim,
        until: request.search_options.until,
        count: shown.len(),
        all: observes_all(request.observed),
        registers: registers.len(),
        lines: printed_lines(registers.len(), first_of(shown)),
        endings: endings_of(shown),
        stops: stops.as_slice(),
        prefix: request.journals,
    };
    let mut said = Vec::new(alloc);
    push_waves(&mut said, &names, shown)?;
    push_before(&mut said, waves.claim, waves.followed_before)?;
    push_wave_verdict(&mut said, &verdict)?;
    Ok(said)
}

/// Puts the line on a time before which all orders were followed behind a text, where it is claimed that a search met a limit, and that is known.
fn push_before(text: &mut Vec<u8>, claim: Claim, before: Option<u64>) -> Result<(), AllocError>
    ensures { OnOk result (text.new.items ≡ text.old.items ++ before_line claim before) }
{
    match before {
        Some(time) => push_before_time(text, claim, time),
        None => Ok(()),
    }
}

/// Puts the line on this time before which all orders were followed behind a text, where it is claimed that a search met a limit.
fn push_before_time(text: &mut Vec<u8>, claim: Claim, time: u64) -> Result<(), AllocError>
    ensures { OnOk result (text.new.items ≡ text.old.items ++ followed_at_limit claim time) }
{
    if met_limit(claim) {
        push_followed(text, time)
    } else {
        Ok(())
    }
}
