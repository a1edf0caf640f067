//! What a search of lawful orders has come to, as the exit status tells it.

ghost use Rattle.std.specs.Prelude.{◌≡◌};
ghost use Rattle.program.specs.Findings.{every_of, few_of, finding_of, finding_of_stop, only_of, sampled_of, or_refused};
ghost use Rattle.program.specs.Program.{finding_status};

use verdict::{Claim, SearchStop};

/// What was found: one text and no other is possible, no or one text and others may be possible or its run stops short, no or one text and memory was refused
/// to the search, or several texts.
#[derive(Clone, Copy)]
pub enum SearchFinding {
    One,
    Unfinished,
    Memory,
    Several,
}

impl SearchFinding {
    /// What so many texts are, of which this is claimed, by whether the run of one of them stops short and whether memory was refused
    /// where texts were looked for before the search.
    pub fn of(claim: Claim, count: usize, stops: bool, refused: bool) -> SearchFinding
        ensures { result ≡ finding_of claim count stops refused }
    {
        if count > 1 {
            return SearchFinding::Several;
        }
        SearchFinding::of_few(claim, count, stops, refused)
    }

    /// What no or one text is.
    fn of_few(claim: Claim, count: usize, stops: bool, refused: bool) -> SearchFinding
        ensures { result ≡ few_of claim count stops refused }
    {
        match claim {
            Claim::Every { endless, .. } if count == 1 => SearchFinding::of_only(endless, stops),
            Claim::Every { .. } => SearchFinding::Unfinished,
            Claim::SoFar(search_stop) => SearchFinding::of_stopped(search_stop).or_refused(refused),
            Claim::Sampled(orders) => SearchFinding::of_sampled(orders.stop).or_refused(refused),
        }
    }

    /// What texts are that may not be all: this, unless memory was refused to those who might have found others.
    fn or_refused(self, refused: bool) -> SearchFinding
        ensures { result ≡ or_refused refused self }
    {
        match refused {
            true => SearchFinding::Memory,
            false => self,
        }
    }

    /// What one text is that is all that is printed, by whether its run stops short.
    fn of_only(endless: Option<usize>, stops: bool) -> SearchFinding
        ensures { result ≡ only_of endless stops }
    {
        match endless {
            Some(_) => SearchFinding::Unfinished,
            None => SearchFinding::of_every(stops),
        }
    }

    /// What one text is that every lawful run prints, by whether that stops short.
    fn of_every(stops: bool) -> SearchFinding
        ensures { result ≡ every_of stops }
    {
        match stops {
            true => SearchFinding::Unfinished,
            false => SearchFinding::One,
        }
    }

    /// What no or one text is where random orders were tried, by why no more were.
    fn of_sampled(stop: Option<SearchStop>) -> SearchFinding
        ensures { result ≡ sampled_of stop }
    {
        match stop {
            Some(search_stop) => SearchFinding::of_stopped(search_stop),
            None => SearchFinding::Unfinished,
        }
    }

    /// What no or one text is where the search stopped.
    fn of_stopped(search_stop: SearchStop) -> SearchFinding
        ensures { result ≡ finding_of_stop search_stop }
    {
        match search_stop {
            SearchStop::Memory => SearchFinding::Memory,
            SearchStop::States(_)
            | SearchStop::Texts(_)
            | SearchStop::Entries(_)
            | SearchStop::Megabytes(_) => { SearchFinding::Unfinished }
        }
    }

    /// The exit status.
    pub fn status(self) -> u8
        ensures { result ≡ finding_status self }
    {
        match self {
            SearchFinding::One => 0,
            SearchFinding::Unfinished => 4,
            SearchFinding::Memory => 6,
            SearchFinding::Several => 7,
        }
    }
}
