//! The texts that runs printed, each told by the text that it goes on from and a group of lines.
//!
//! A text is cut into groups of sixteen lines from its beginning on, and the last group has what is left: fewer lines, or what stands
//! behind the last end of a line. So a text has one number, in however many pieces runs print it, and nodes whose runs printed the same
//! are one where their keys are. That a text has no other number no contract says: where it had, nodes would be expanded again, and
//! nothing wrong would be shown.
//!
//! Texts are numbered by groups since a step of a run may print ten thousand lines. To find the number of the text behind it costs two
//! looks for each group into tables that are larger than the caches of a processor. By bytes it was most of the time of a search.
ghost use Rattle.std.specs.Prelude.{◌≡◌, ◌<◌, ◌++◌, [], ◌∷◌, length, get_or, reverse, IfOk};
ghost use Rattle.std.specs.List.{All};
ghost use Rattle.explore.specs.NumberedTexts.{joined_groups, line_groups, texts, HasLonger, IsTexts};

use crate::line_groups::{LineGroups, first_length, full_length};
use indexmap::IndexSet;
use std::alloc::{AllocError, Global};
use std::mem;

// About how many bytes an edge takes, with its hash and its place in the table.
const TEXT_EDGE_BYTES: usize = 32;

/// The number of the text before a text's last group of lines, and the number of that group.
#[derive(Clone, Copy, PartialEq, Eq, Hash)]
pub(crate) struct TextEdge {
    pub(crate) before: usize,
    pub(crate) group: usize,
}

/// Texts by their numbers. The text of number 0 is empty, and the others have an edge each, in order.
#[derive(Drop)]
pub(crate) struct TextTable {
    pub(crate) edges: IndexSet<TextEdge>,
    pub(crate) groups: LineGroups,
    /// Room for bytes that are cut into groups, kept from one text to the next.
    pub(crate) scratch: Vec<u8>,
}

impl TextTable {
    /// The empty text alone.
    pub(crate) fn new(alloc: Global) -> Self
        ensures ok { IsTexts result }
        ensures texts { texts result ≡ [] ∷ [] }
    {
        TextTable {
            edges: IndexSet::new(alloc),
            groups: LineGroups::new(alloc),
            scratch: Vec::new(alloc),
        }
    }

    /// About how many bytes they take.
    pub(crate) fn bytes(&self) -> usize {
        let edges = self.edges.capacity().saturating_mul(TEXT_EDGE_BYTES);
        edges
            .saturating_add(self.groups.bytes())
            .saturating_add(self.scratch.capacity())
    }

    /// The number of the text that goes on from another by one group.
    fn add_group(&mut self, alloc: Global, before: usize, group: &[u8]) -> Result<usize, AllocError>
        requires ok { IsTexts self.old }
        requires before { before < length (texts self.old) }
        ensures { IfOk result (HasLonger self.old self.new before group.now) }
    {
        let group = self.groups.number(alloc, group)?;
        let (index, _) = self.edges.insert_full(TextEdge { before, group })?;
        let _count = self.edges.len();
        Ok(index + 1)
    }

    /// The number of the text that goes on from another by these bytes, which begin with a group.
    fn add_groups(&mut self, alloc: Global, from: usize, bytes: &[u8]) -> Result<usize, AllocError>
        requires ok { IsTexts self.old }
        requires from { from < length (texts self.old) }
        ensures { IfOk result (HasLonger self.old self.new from bytes.now) }
    {
        let mut number = from;
        let mut rest = bytes;
        'groups: while !rest.is_empty() {
            let (group, others) = rest.split_at(first_length(rest));
            number = self.add_group(alloc, number, group)?;
            rest = others;
        }
        Ok(number)
    }

    /// The edge of the text with a number.
    fn last_edge(&self, number: usize) -> TextEdge
        requires ok { IsTexts self.now }
        requires some { 0 < number }
        requires within { number < length (texts self.now) }
        ensures before { result.before < number }
        ensures group { result.group < length (line_groups self.now.groups) }
        ensures text { get_or (texts self.now) number [] ≡ get_or (texts self.now) result.before [] ++ get_or (line_groups self.now.groups) result.group [] }
    {
        self.edges[number - 1]
    }

    /// Where the last group of a text isn't full, fills `bytes` with it and answers the number of the text before it. Otherwise
    /// answers the text's own number, and leaves `bytes` empty. A line without its end is taken up with its group, and goes on by what
    /// is printed next.
    fn take_up(&self, number: usize, bytes: &mut Vec<u8>) -> Result<usize, AllocError>
        requires ok { IsTexts self.now }
        requires number { number < length (texts self.now) }
        ensures within { IfOk result (λ before. before < length (texts self.now)) }
        ensures text { IfOk result (λ before. get_or (texts self.now) number [] ≡ get_or (texts self.now) before [] ++ bytes.new.items) }
    {
        bytes.clear();
        if number == 0 {
            return Ok(0);
        }
        let edge = self.last_edge(number);
        let group = self.groups.group(edge.group);
        if full_length(group).is_some() {
            return Ok(number);
        }
        bytes.extend_from_slice(group)?;
        Ok(edge.before)
    }

    /// The number of the text that goes on from another by what was printed.
    pub(crate) fn longer(
        &mut self,
        alloc: Global,
        before: usize,
        printed: &[u8],
    ) -> Result<usize, AllocError>
        requires ok { IsTexts self.old }
        requires before { before < length (texts self.old) }
        ensures { IfOk result (HasLonger self.old self.new before printed.now) }
    {
        if printed.is_empty() {
            return Ok(before);
        }
        let mut bytes = mem::replace(&mut self.scratch, Vec::new(alloc));
        let from = self.take_up(before, &mut bytes)?;
        bytes.extend_from_slice(printed)?;
        let number = self.add_groups(alloc, from, bytes.as_slice())?;
        self.scratch = bytes;
        Ok(number)
    }

    /// The numbers of the groups of the text with a number, the last of them first.
    fn groups_back(&self, alloc: Global, number: usize) -> Result<Vec<usize>, AllocError>
        requires ok { IsTexts self.now }
        requires within { number < length (texts self.now) }
        ensures there { IfOk result (λ back. All (λ group. group < length (line_groups self.now.groups)) back.items) }
        ensures text { IfOk result (λ back. get_or (texts self.now) number [] ≡ joined_groups (line_groups self.now.groups) (reverse back.items)) }
    {
        let mut back = Vec::new(alloc);
        let mut k = number;
        while k != 0 {
            let edge = self.last_edge(k);
            back.push(edge.group)?;
            k = edge.before;
        }
        Ok(back)
    }

    /// The text that goes on from that with a number by what was printed.
    pub(crate) fn read(
        &self,
        alloc: Global,
        number: usize,
        printed: &[u8],
    ) -> Result<Vec<u8>, AllocError>
        requires ok { IsTexts self.now }
        requires within { number < length (texts self.now) }
        ensures { IfOk result (λ text. text.items ≡ get_or (texts self.now) number [] ++ printed.now) }
    {
        let mut back = self.groups_back(alloc, number)?;
        let mut text = Vec::new(alloc);
        while let Some(group) = back.pop() {
            text.extend_from_slice(self.groups.group(group))?;
        }
        text.extend_from_slice(printed)?;
        Ok(text)
    }
}
