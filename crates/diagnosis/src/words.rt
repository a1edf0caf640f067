//! The words of Verilog that the language lacks, and what to write instead.

ghost use Rattle.std.specs.Prelude.{◌≡◌, map};
ghost use Rattle.std.specs.Str.{bytes_eq};
ghost use Rattle.diagnosis.specs.SameAdvice.{same_advice};
ghost use Rattle.diagnosis.specs.LackedWords as spec;

use std::fmt;

/// What to write instead of what the language lacks. Notes with the same advice are of one kind.
#[derive(Clone, Copy, PartialEq, Eq)]
pub enum Advice {
    /// For `case` (IEEE 1364-2005, 9.5).
    Choice,
    /// For `for`, `repeat` and `forever` (9.6).
    Loop,
    /// For ports, parameters and instances (12).
    OneModule,
    /// For libraries and configurations (13).
    OneFile,
    /// For the truth tables of primitives (8).
    TruthTable,
    /// For specify blocks (14).
    PathDelay,
    /// For nets and continuous assignments (4.2, 6.1).
    Net,
    /// For gates (7).
    Gate,
    /// For three-state gates (7.4).
    ThreeState,
    /// For switches and pulls (7.5, 7.8).
    Switch,
    /// For strengths (7.9).
    Strength,
    /// For other variables than `reg` (4.8).
    Register,
    /// For tasks and functions (10).
    Subroutine,
    /// For named events (9.7.3).
    NamedEvent,
    /// For parallel blocks and `disable` (9.8.2, 10.3).
    Parallel,
    /// For `wait` (9.7.6).
    Wait,
    /// For `$monitor` and its kin (17.1.3).
    Monitor,
    /// For the other system names (17).
    SystemName,
    /// For directives (19).
    Directive,
    /// For `signed` (4.5).
    Unsigned,
    /// For attributes (3.8).
    Attribute,
    /// For `@*` (9.7.5).
    Triggers,
    /// For an event control without parentheses (9.7.2).
    BareEvent,
    /// For a delay by a name (9.7.1).
    NamedDelay,
    /// For a body that is no block.
    Block,
    /// For a number without a size (3.5.1).
    Size,
    /// For a conversion of a format (17.1.1).
    Conversion,
    /// For `*`, `/`, `%` and `**` (5.1.5).
    Operator,
    /// For a sign in front of a value (5.1.5).
    Sign,
    /// For reductions that are inverted, and for the equivalence of digits (5.1.10, 5.1.11).
    Inverted,
    /// For arithmetic shifts (5.1.12).
    Shift,
    /// For replications (5.1.14).
    Replication,
    /// For left sides that are selects or concatenations (9.2).
    LeftSide,
    /// For an index that is no number, or a part select (5.2.1).
    Index,
    /// For large letters and `_` in a number with a base (3.5.1).
    Digits,
    /// For a value in a declaration (6.2.1).
    Value,
    /// For memories (4.9).
    Memory,
    /// For the name of a block (9.8.3).
    BlockName,
    /// For a call without a format in front (17.1.1).
    Format,
}

impl fmt::Display for Advice {
    fn fmt<W: fmt::Write>(&self, f: &mut fmt::Formatter<W>) -> fmt::Result {
        f.write_str(match self {
            Advice::Choice => "no `case`: write `if` and `else`, each with `begin` and `end`",
            Advice::Loop => "this loop is not in the language: write `while`",
            Advice::OneModule => "no ports, parameters or instances: write one module of `reg`s",
            Advice::OneFile => "no libraries or configurations: write one module in one file",
            Advice::TruthTable => "no truth tables: write an expression, or `if` and `else`",
            Advice::PathDelay =>
                "no specify blocks: write the delay where the value is assigned, as in `y <= #3 a;`",
            Advice::Net => "no nets: write a `reg`, and `always begin y = a & b; @(a or b); end`",
            Advice::Gate =>
                "no gates: write a `reg`, and `always begin y = ~(a & b); @(a or b); end`",
            Advice::ThreeState =>
                "no three-state gates: write a `reg`, and `always begin y = en ? a : 1'bz; @(en or a); end`",
            Advice::Switch =>
                "no switches or pulls: write a `reg`, and one process that assigns it",
            Advice::Strength => "no strengths: a `reg` has the value that was assigned last",
            Advice::Register =>
                "no `integer`, `real` or `time`: write `reg [31:0]` or `reg [63:0]`, which are unsigned",
            Advice::Subroutine => "no tasks or functions: write the statements where they are used",
            Advice::NamedEvent =>
                "no named events: write a `reg e`, change it by `e = e !== 1'b1;`, and wait by `@(e)`",
            Advice::Parallel =>
                "not in the language: write a process for each; `while ({a, b} !== 2'b11) begin @(a or b); end` waits for two",
            Advice::Wait => "no `wait`: write `while ((a == b) !== 1'b1) begin @(a or b); end`",
            Advice::Monitor =>
                "no `$monitor`: write `always @(posedge clk) $strobe(\"%b\", a);`, which prints what the values have come to",
            Advice::SystemName => {
                "of the system names the language has `$display`, `$strobe` and `$finish` alone"
            }
            Advice::Directive => "no directives: delays are in units of the simulation time",
            Advice::Unsigned => "all values are unsigned",
            Advice::Attribute => "no attributes: leave them out",
            Advice::BareEvent => "an event control has parentheses: write `@(a)`",
            Advice::NamedDelay => "a delay is a plain number: write it as in `#10`",
            Advice::Triggers =>
                "write the registers by their names, behind the body: `always begin y = a & b; @(a or b); end`",
            Advice::Block => "a body is a block: write `begin` and `end`",
            Advice::Size => "a number has a size: write it as in `32'd1`",
            Advice::Conversion => "a format has `%b`, `%h`, `%0d` and `%%`",
            Advice::Operator => "no `*`, `/` or `%`: write shifts and sums",
            Advice::Sign => "no sign in front of a value: write `8'd0 - a` for `-a`",
            Advice::Inverted =>
                "no `~&`, `~|` or `~^`: write `~(&a)`, `~(|a)`, `~(^a)`, and `~(a ^ b)` for `a ~^ b`",
            Advice::Shift => "no `>>>` or `<<<`: write `>>` or `<<`, as all values are unsigned",
            Advice::Replication => "no replications: write each part, as in `{a, a}`",
            Advice::LeftSide =>
                "the left side is a register's name: write a `reg` for each part, and assign each",
            Advice::Index => "an index is a plain number: write shifts and concatenations",
            Advice::Digits => "digits and the base of a number are small letters, without `_`",
            Advice::Value =>
                "a declaration has no value: write `initial a <= 1'b0;`, a change at time 0 that each `@(a)` sees",
            Advice::Memory => "no memories: write a `reg` for each word",
            Advice::BlockName => "a block has no name",
            Advice::Format => "a format comes first, as in `$display(\"%b\", m)`",
        })
    }
}

/// The words that the language lacks.
const WORDS: &[(&[u8], Advice)] = &[
    (b"case", Advice::Choice),
    (b"casex", Advice::Choice),
    (b"casez", Advice::Choice),
    (b"endcase", Advice::Choice),
    (b"default", Advice::Choice),
    (b"for", Advice::Loop),
    (b"repeat", Advice::Loop),
    (b"forever", Advice::Loop),
    (b"input", Advice::OneModule),
    (b"output", Advice::OneModule),
    (b"inout", Advice::OneModule),
    (b"parameter", Advice::OneModule),
    (b"localparam", Advice::OneModule),
    (b"defparam", Advice::OneModule),
    (b"generate", Advice::OneModule),
    (b"endgenerate", Advice::OneModule),
    (b"genvar", Advice::OneModule),
    (b"macromodule", Advice::OneModule),
    (b"primitive", Advice::OneModule),
    (b"endprimitive", Advice::OneModule),
    (b"specify", Advice::OneModule),
    (b"endspecify", Advice::OneModule),
    (b"cell", Advice::OneFile),
    (b"config", Advice::OneFile),
    (b"design", Advice::OneFile),
    (b"endconfig", Advice::OneFile),
    (b"incdir", Advice::OneFile),
    (b"include", Advice::OneFile),
    (b"instance", Advice::OneFile),
    (b"liblist", Advice::OneFile),
    (b"library", Advice::OneFile),
    (b"use", Advice::OneFile),
    (b"table", Advice::TruthTable),
    (b"endtable", Advice::TruthTable),
    (b"specparam", Advice::PathDelay),
    (b"ifnone", Advice::PathDelay),
    (b"edge", Advice::PathDelay),
    (b"showcancelled", Advice::PathDelay),
    (b"noshowcancelled", Advice::PathDelay),
    (b"pulsestyle_onevent", Advice::PathDelay),
    (b"pulsestyle_ondetect", Advice::PathDelay),
    (b"wire", Advice::Net),
    (b"wand", Advice::Net),
    (b"wor", Advice::Net),
    (b"tri", Advice::Net),
    (b"tri0", Advice::Net),
    (b"tri1", Advice::Net),
    (b"triand", Advice::Net),
    (b"trior", Advice::Net),
    (b"trireg", Advice::Net),
    (b"uwire", Advice::Net),
    (b"supply0", Advice::Net),
    (b"supply1", Advice::Net),
    (b"assign", Advice::Net),
    (b"deassign", Advice::Net),
    (b"force", Advice::Net),
    (b"release", Advice::Net),
    (b"scalared", Advice::Net),
    (b"vectored", Advice::Net),
    (b"and", Advice::Gate),
    (b"nand", Advice::Gate),
    (b"nor", Advice::Gate),
    (b"xor", Advice::Gate),
    (b"xnor", Advice::Gate),
    (b"not", Advice::Gate),
    (b"buf", Advice::Gate),
    (b"bufif0", Advice::ThreeState),
    (b"bufif1", Advice::ThreeState),
    (b"notif0", Advice::ThreeState),
    (b"notif1", Advice::ThreeState),
    (b"cmos", Advice::Switch),
    (b"nmos", Advice::Switch),
    (b"pmos", Advice::Switch),
    (b"rcmos", Advice::Switch),
    (b"rnmos", Advice::Switch),
    (b"rpmos", Advice::Switch),
    (b"tran", Advice::Switch),
    (b"tranif0", Advice::Switch),
    (b"tranif1", Advice::Switch),
    (b"rtran", Advice::Switch),
    (b"rtranif0", Advice::Switch),
    (b"rtranif1", Advice::Switch),
    (b"pulldown", Advice::Switch),
    (b"pullup", Advice::Switch),
    (b"highz0", Advice::Strength),
    (b"highz1", Advice::Strength),
    (b"strong0", Advice::Strength),
    (b"strong1", Advice::Strength),
    (b"pull0", Advice::Strength),
    (b"pull1", Advice::Strength),
    (b"weak0", Advice::Strength),
    (b"weak1", Advice::Strength),
    (b"large", Advice::Strength),
    (b"medium", Advice::Strength),
    (b"small", Advice::Strength),
    (b"integer", Advice::Register),
    (b"real", Advice::Register),
    (b"realtime", Advice::Register),
    (b"time", Advice::Register),
    (b"task", Advice::Subroutine),
    (b"endtask", Advice::Subroutine),
    (b"function", Advice::Subroutine),
    (b"endfunction", Advice::Subroutine),
    (b"automatic", Advice::Subroutine),
    (b"event", Advice::NamedEvent),
    (b"fork", Advice::Parallel),
    (b"join", Advice::Parallel),
    (b"wait", Advice::Wait),
    (b"disable", Advice::Parallel),
    (b"signed", Advice::Unsigned),
    (b"unsigned", Advice::Unsigned),
    (b"$monitor", Advice::Monitor),
    (b"$monitorb", Advice::Monitor),
    (b"$monitoro", Advice::Monitor),
    (b"$monitorh", Advice::Monitor),
];

/// The advice that a table has on a word.
fn advice_in(table: &[(&[u8], Advice)], text: &[u8]) -> Option<Advice>
    ensures { result ≡ spec.advice_in (map (λ row. (row.0.now, row.1)) table.now) text.now }
{
    let mut left = table;
    while let [(word, advice), rest @ ..] = left {
        if is_same(text, word) {
            return Some(*advice);
        }
        left = rest;
    }
    None
}

/// The advice on a word that the language lacks.
fn advice_in_table(text: &[u8]) -> Option<Advice>
    ensures { result ≡ spec.advice_in spec.lacked_words text.now }
{
    advice_in(WORDS, text)
}

/// Whether notes with these advices are of one kind.
#[tactic(auto, unfolding(crate::specs::SameAdvice::same_advice))]
pub(crate) fn is_same_advice(one: Advice, other: Advice) -> bool
    ensures { result ≡ same_advice one other }
{
    one == other
}

pub(crate) fn is_same(text: &[u8], word: &[u8]) -> bool
    ensures { result ≡ bytes_eq text.now word.now }
{
    text == word
}

/// Whether a text is one of these words.
pub(crate) fn is_one_of(text: &[u8], words: &[&[u8]]) -> bool {
    for word in words {
        if is_same(text, word) {
            return true;
        }
    }
    false
}

/// The advice on a directive, and on any system name that the language lacks.
fn advice_by_mark(text: &[u8]) -> Option<Advice>
    ensures { result ≡ spec.advice_by_mark text.now }
{
    match text {
        [b'`', ..] => Some(Advice::Directive),
        [b'$', ..]
            if !(is_same(text, b"$display")
                || is_same(text, b"$strobe")
                || is_same(text, b"$finish")) => Some(Advice::SystemName),
        _ => None,
    }
}

/// What to write instead of a word, where the language lacks it.
#[tactic(auto, unfolding(crate::specs::LackedWords::advice_of))]
pub(crate) fn advice_of(text: &[u8]) -> Option<Advice>
    ensures { result ≡ spec.advice_of text.now }
{
    match advice_in_table(text) {
        Some(advice) => Some(advice),
        None => advice_by_mark(text),
    }
}
