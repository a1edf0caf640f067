//! What stands before a lexeme, as far as its note wants it.

use crate::behind::Following;
use crate::lexemes::begins_number;
use crate::notes::Note;
use crate::reserved::{is_name, is_reserved};
use crate::words::{Advice, is_one_of, is_same};
use tokens::spans::is_letter;

/// Whether a body is to follow.
#[derive(Clone, Copy)]
enum Body {
    None,
    /// Behind an `if` or a `while`, in whose condition so many parentheses are open.
    Condition(usize),
    Next,
}

/// Which square brackets are open.
#[derive(Clone, Copy)]
enum Brackets {
    None,
    /// Of a declaration.
    Range,
    Select,
}

/// How far the head of the last module has come.
#[derive(Clone, Copy)]
enum ModuleHead {
    None,
    /// Up to `module`.
    Word,
    /// Up to its name.
    Name,
    Body,
}

/// Whether a `reg` is being declared.
#[derive(Clone, Copy)]
enum DeclarationHead {
    None,
    Register,
    /// Behind a name's `=`.
    Value,
}

/// How far the head of a `$display` or a `$strobe` has come.
#[derive(Clone, Copy)]
enum PrintHead {
    None,
    Name,
    /// Up to its parenthesis.
    Open,
}

/// What stands before a lexeme.
#[derive(Clone, Copy)]
pub(crate) struct LexemeContext<'a> {
    last: &'a [u8],
    /// Whether the last lexeme has a note.
    noted: bool,
    /// Whether the last word is one of Verilog behind which a range can stand.
    declares: bool,
    /// Whether a statement or an item can begin here.
    begins: bool,
    /// Whether one could begin at the last lexeme.
    began: bool,
    /// Whether the square brackets of a select are open, behind a name with which a statement can begin.
    left: bool,
    /// Whether instances, or the head of a task or a function, have begun, in which a name before a parenthesis is no call.
    instances: bool,
    body: Body,
    brackets: Brackets,
    module: ModuleHead,
    declaration: DeclarationHead,
    call: PrintHead,
}

pub(crate) const NOTHING: LexemeContext<'static> = LexemeContext {
    last: b"",
    noted: false,
    declares: false,
    begins: true,
    began: false,
    left: false,
    instances: false,
    body: Body::None,
    brackets: Brackets::None,
    module: ModuleHead::None,
    declaration: DeclarationHead::None,
    call: PrintHead::None,
};

/// Whether a body is to follow a lexeme of a condition in which so many parentheses are open before it: one is, where it closes the last.
fn condition_after(open: usize, text: &[u8]) -> Body {
    match text {
        [b'('] => Body::Condition(open.saturating_add(1)),
        [b')'] if open <= 1 => Body::Next,
        [b')'] => Body::Condition(open - 1),
        _ if open == 0 => Body::None,
        _ => Body::Condition(open),
    }
}

/// Whether a body is to follow a lexeme, by whether one is to follow what stands before it.
fn body_after(body: Body, text: &[u8]) -> Body {
    match text {
        b"if" | b"while" => Body::Condition(0),
        b"else" => Body::Next,
        _ => match body {
            Body::Condition(open) => condition_after(open, text),
            _ => Body::None,
        },
    }
}

/// How far the head of the last module has come with a lexeme, by how far it had come before it.
fn module_after(module: ModuleHead, text: &[u8]) -> ModuleHead {
    if is_same(text, b"module") {
        return ModuleHead::Word;
    }
    match module {
        ModuleHead::None => ModuleHead::None,
        ModuleHead::Word => ModuleHead::Name,
        _ => ModuleHead::Body,
    }
}

/// Whether a `reg` is being declared behind a lexeme, by whether one is before it.
fn declaration_after(declaration: DeclarationHead, text: &[u8]) -> DeclarationHead {
    match text {
        b"reg" => DeclarationHead::Register,
        b";" | b"initial" | b"always" => DeclarationHead::None,
        _ => match declaration {
            DeclarationHead::Register if is_same(text, b"=") => DeclarationHead::Value,
            DeclarationHead::Value if is_same(text, b",") => DeclarationHead::Register,
            _ => declaration,
        },
    }
}

/// How far the head of a `$display` or a `$strobe` has come with a lexeme, by how far it had come before it.
fn call_after(call: PrintHead, text: &[u8]) -> PrintHead {
    match text {
        b"$display" | b"$strobe" => PrintHead::Name,
        b"(" => match call {
            PrintHead::Name => PrintHead::Open,
            _ => PrintHead::None,
        },
        _ => PrintHead::None,
    }
}

/// Whether a range can stand behind a word in Verilog, by the note on it: so it can behind each word that declares.
fn has_range(text: &[u8], note: Option<Note>) -> bool {
    match note {
        None => is_same(text, b"reg"),
        Some(note) => match note.advice {
            Advice::OneModule => true,
            Advice::Net => true,
            Advice::Register => true,
            Advice::Subroutine => true,
            Advice::Unsigned => true,
            _ => false,
        },
    }
}

/// The texts behind which a statement or an item can begin.
const BEGINNINGS: &[&[u8]] = &[
    b";",
    b")",
    b"begin",
    b"end",
    b"else",
    b"initial",
    b"always",
    b"fork",
    b"join",
    b"endcase",
    b"endtask",
    b"endfunction",
    b"endgenerate",
    b"endspecify",
    b"endtable",
    b"endprimitive",
];

/// Whether a statement or an item can begin behind a text, other than a delay.
fn begins_behind(text: &[u8]) -> bool {
    is_one_of(text, BEGINNINGS)
}

/// Whether a note is one on a word behind which instances are named.
fn names_instances(note: Option<Note>) -> bool {
    match note {
        None => false,
        Some(note) => match note.advice {
            Advice::OneModule => true,
            Advice::Gate => true,
            Advice::ThreeState => true,
            Advice::Switch => true,
            _ => false,
        },
    }
}

impl<'a> LexemeContext<'a> {
    /// What stands before the next lexeme, by this one and the note on it.
    pub(crate) fn after(self, text: &'a [u8], note: Option<Note>) -> LexemeContext<'a> {
        LexemeContext {
            last: text,
            noted: note.is_some(),
            declares: has_range(text, note),
            begins: begins_behind(text) || self.ends_delay(text),
            began: self.begins,
            left: self.left_after(text),
            instances: self.instances_after(text, note),
            body: body_after(self.body, text),
            brackets: self.brackets_after(text),
            module: module_after(self.module, text),
            declaration: declaration_after(self.declaration, text),
            call: call_after(self.call, text),
        }
    }

    /// Which square brackets are open behind a lexeme: in a declaration, and behind a word that declares, those of a range.
    fn brackets_after(self, text: &[u8]) -> Brackets {
        match text {
            b"[" if self.declares || self.in_declaration() => Brackets::Range,
            b"[" => Brackets::Select,
            b"]" | b";" => Brackets::None,
            _ => self.brackets,
        }
    }

    fn left_after(self, text: &[u8]) -> bool {
        match text {
            b"[" => self.began && is_name(self.last),
            b"]" | b";" => false,
            _ => self.left,
        }
    }

    fn instances_after(self, text: &[u8], note: Option<Note>) -> bool {
        match text {
            b";" => false,
            b"task" | b"function" => true,
            _ => self.instances || names_instances(note),
        }
    }

    /// Whether this is the number of a delay that stands where a statement can begin.
    fn ends_delay(self, text: &[u8]) -> bool {
        match text {
            [b, ..] => begins_number(*b) && self.began && is_same(self.last, b"#"),
            _ => false,
        }
    }

    /// Whether a `reg` is being declared, and no value is given to it.
    pub(crate) fn in_declaration(self) -> bool {
        match self.declaration {
            DeclarationHead::Register => true,
            _ => false,
        }
    }

    /// Whether `begin` has to come, and doesn't.
    pub(crate) fn lacks_block(self, text: &[u8]) -> bool {
        match self.body {
            Body::Next => !is_same(text, b"begin"),
            _ => false,
        }
    }

    /// Whether a format has to come.
    pub(crate) fn takes_format(self) -> bool {
        match self.call {
            PrintHead::Open => true,
            _ => false,
        }
    }

    /// Whether a `*` stands for all registers here. Behind a parenthesis it can be no operator.
    pub(crate) fn takes_events(self) -> bool {
        is_same(self.last, b"@") || (is_same(self.last, b"(") && !self.noted)
    }

    /// Whether a `*` is the second of two, or begins or ends an attribute.
    pub(crate) fn is_told(self, following: Following<'_>) -> bool {
        is_same(self.last, b"*") || is_same(self.last, b"(") || is_same(following.next, b")")
    }

    /// Whether a parenthesis begins an attribute here.
    pub(crate) fn takes_attribute(self, following: Following<'_>) -> bool {
        is_same(following.next, b"*")
            && !is_same(following.second, b")")
            && !is_same(self.last, b"@")
    }

    /// Whether this is what an event control has in parentheses.
    pub(crate) fn is_event(self) -> bool {
        is_same(self.last, b"@")
    }

    /// Whether this is a delay.
    pub(crate) fn is_delay(self) -> bool {
        is_same(self.last, b"#")
    }

    /// Whether a value can have its end here. Else what comes isn't an operator of two values.
    pub(crate) fn ends_value(self) -> bool {
        match self.last {
            [b')'] | [b']'] | [b'}'] | [b'"', ..] | [b'$', ..] => true,
            [b, ..] => begins_number(*b) || (is_letter(*b) && !is_reserved(self.last)),
            _ => false,
        }
    }

    /// Whether three of this sign begin here.
    pub(crate) fn begins_three(self, sign: &[u8], following: Following<'_>) -> bool {
        is_same(following.next, sign)
            && is_same(following.second, sign)
            && !is_same(self.last, sign)
    }

    /// Whether a number or a name says here how often something is repeated.
    pub(crate) fn repeats(self, following: Following<'_>) -> bool {
        is_same(self.last, b"{") && is_same(following.next, b"{")
    }

    /// Whether a statement or an item can begin here.
    pub(crate) fn begins_statement(self) -> bool {
        self.begins
    }

    /// Whether a square bracket ends the select of a left side here.
    pub(crate) fn ends_left(self, following: Following<'_>) -> bool {
        self.left && following.assigns()
    }

    /// Whether a word that begins here is that of a gate. Behind a parenthesis it may stand in an event control.
    pub(crate) fn begins_gate(self) -> bool {
        self.begins && !is_same(self.last, b")")
    }

    /// Whether a word is the name of a module of which an instance begins here.
    pub(crate) fn begins_instance(self, text: &[u8], following: Following<'_>) -> bool {
        self.begins && is_name(text) && following.is_instance()
    }

    /// Whether a word is the name of a task or a function that is called here.
    pub(crate) fn is_call(self, text: &[u8], following: Following<'_>) -> bool {
        if !is_name(text) {
            return false;
        }
        match following.next {
            b"(" => self.takes_call(),
            b";" => self.begins,
            _ => false,
        }
    }

    /// Whether a name before a parenthesis is called here: it isn't one of an instance, a port or a module.
    fn takes_call(self) -> bool {
        match self.module {
            ModuleHead::Word => false,
            _ => !(self.instances || is_same(self.last, b".") || is_name(self.last)),
        }
    }

    /// Whether a parenthesis begins the ports of a module here.
    pub(crate) fn takes_ports(self) -> bool {
        match self.module {
            ModuleHead::Name => true,
            _ => false,
        }
    }

    /// Whether a square bracket makes a memory of a name that is being declared here.
    pub(crate) fn takes_words(self) -> bool {
        self.in_declaration() && !self.declares
    }

    /// Whether a `:` gives a block its name here.
    pub(crate) fn takes_name(self) -> bool {
        is_same(self.last, b"begin")
    }

    /// Whether a module has begun.
    pub(crate) fn has_module(self) -> bool {
        match self.module {
            ModuleHead::None => false,
            _ => true,
        }
    }

    /// Whether square brackets are open.
    pub(crate) fn in_brackets(self) -> bool {
        match self.brackets {
            Brackets::None => false,
            _ => true,
        }
    }

    /// Whether the square brackets of a select are open.
    pub(crate) fn in_select(self) -> bool {
        match self.brackets {
            Brackets::Select => true,
            _ => false,
        }
    }

    /// Whether a number that begins with these bytes is one that can't stand here.
    pub(crate) fn lacks_size(self, b: u8, rest: &[u8]) -> bool {
        b == b'\'' || !(rest.contains(&b'\'') || is_same(self.last, b"#") || self.in_brackets())
    }
}
