//! The texts of the reserved words and of the operators, each with the kind of its token.

ghost use Rattle.std.specs.Prelude.{◌≡◌, [], map};
ghost use Rattle.lexemes.specs.Kinds as spec;

use crate::token::{Keyword, Sign, TokenKind, is_keyword, is_sign};

/// A text, and the kind of a token that is spelled so.
type KindOfText = (&'static str, TokenKind);

/// The reserved words (annex B) from a to e.
#[tactic(auto, unfolding(crate::specs::Kinds::keywords_a_to_e))]
fn keywords_a_to_e() -> &'static [KindOfText]
    ensures { map (λ row. (row.0.now, row.1)) result.now ≡ spec.keywords_a_to_e }
{
    &[
        ("always", TokenKind::Keyword(Keyword::Always)),
        ("and", TokenKind::Keyword(Keyword::And)),
        ("assign", TokenKind::Keyword(Keyword::Assign)),
        ("automatic", TokenKind::Keyword(Keyword::Automatic)),
        ("begin", TokenKind::Keyword(Keyword::Begin)),
        ("buf", TokenKind::Keyword(Keyword::Buf)),
        ("bufif0", TokenKind::Keyword(Keyword::BufIf0)),
        ("bufif1", TokenKind::Keyword(Keyword::BufIf1)),
        ("case", TokenKind::Keyword(Keyword::Case)),
        ("casex", TokenKind::Keyword(Keyword::CaseX)),
        ("casez", TokenKind::Keyword(Keyword::CaseZ)),
        ("cell", TokenKind::Keyword(Keyword::Cell)),
        ("cmos", TokenKind::Keyword(Keyword::Cmos)),
        ("config", TokenKind::Keyword(Keyword::Config)),
        ("deassign", TokenKind::Keyword(Keyword::Deassign)),
        ("default", TokenKind::Keyword(Keyword::Default)),
        ("defparam", TokenKind::Keyword(Keyword::DefParam)),
        ("design", TokenKind::Keyword(Keyword::Design)),
        ("disable", TokenKind::Keyword(Keyword::Disable)),
        ("edge", TokenKind::Keyword(Keyword::Edge)),
        ("else", TokenKind::Keyword(Keyword::Else)),
        ("end", TokenKind::Keyword(Keyword::End)),
        ("endcase", TokenKind::Keyword(Keyword::EndCase)),
        ("endconfig", TokenKind::Keyword(Keyword::EndConfig)),
        ("endfunction", TokenKind::Keyword(Keyword::EndFunction)),
        ("endgenerate", TokenKind::Keyword(Keyword::EndGenerate)),
        ("endmodule", TokenKind::Keyword(Keyword::EndModule)),
        ("endprimitive", TokenKind::Keyword(Keyword::EndPrimitive)),
        ("endspecify", TokenKind::Keyword(Keyword::EndSpecify)),
        ("endtable", TokenKind::Keyword(Keyword::EndTable)),
        ("endtask", TokenKind::Keyword(Keyword::EndTask)),
        ("event", TokenKind::Keyword(Keyword::Event)),
    ]
}

/// The reserved words (annex B) from f to n.
#[tactic(auto, unfolding(crate::specs::Kinds::keywords_f_to_n))]
fn keywords_f_to_n() -> &'static [KindOfText]
    ensures { map (λ row. (row.0.now, row.1)) result.now ≡ spec.keywords_f_to_n }
{
    &[
        ("for", TokenKind::Keyword(Keyword::For)),
        ("force", TokenKind::Keyword(Keyword::Force)),
        ("forever", TokenKind::Keyword(Keyword::Forever)),
        ("fork", TokenKind::Keyword(Keyword::Fork)),
        ("function", TokenKind::Keyword(Keyword::Function)),
        ("generate", TokenKind::Keyword(Keyword::Generate)),
        ("genvar", TokenKind::Keyword(Keyword::GenVar)),
        ("highz0", TokenKind::Keyword(Keyword::HighZ0)),
        ("highz1", TokenKind::Keyword(Keyword::HighZ1)),
        ("if", TokenKind::Keyword(Keyword::If)),
        ("ifnone", TokenKind::Keyword(Keyword::IfNone)),
        ("incdir", TokenKind::Keyword(Keyword::IncDir)),
        ("include", TokenKind::Keyword(Keyword::Include)),
        ("initial", TokenKind::Keyword(Keyword::Initial)),
        ("inout", TokenKind::Keyword(Keyword::InOut)),
        ("input", TokenKind::Keyword(Keyword::Input)),
        ("instance", TokenKind::Keyword(Keyword::Instance)),
        ("integer", TokenKind::Keyword(Keyword::Integer)),
        ("join", TokenKind::Keyword(Keyword::Join)),
        ("large", TokenKind::Keyword(Keyword::Large)),
        ("liblist", TokenKind::Keyword(Keyword::LibList)),
        ("library", TokenKind::Keyword(Keyword::Library)),
        ("localparam", TokenKind::Keyword(Keyword::LocalParam)),
        ("macromodule", TokenKind::Keyword(Keyword::MacroModule)),
        ("medium", TokenKind::Keyword(Keyword::Medium)),
        ("module", TokenKind::Keyword(Keyword::Module)),
        ("nand", TokenKind::Keyword(Keyword::Nand)),
        ("negedge", TokenKind::Keyword(Keyword::Negedge)),
        ("nmos", TokenKind::Keyword(Keyword::Nmos)),
        ("nor", TokenKind::Keyword(Keyword::Nor)),
        (
            "noshowcancelled",
            TokenKind::Keyword(Keyword::NoShowCancelled),
        ),
        ("not", TokenKind::Keyword(Keyword::Not)),
        ("notif0", TokenKind::Keyword(Keyword::NotIf0)),
        ("notif1", TokenKind::Keyword(Keyword::NotIf1)),
    ]
}

/// The reserved words (annex B) from o to s.
#[tactic(auto, unfolding(crate::specs::Kinds::keywords_o_to_s))]
fn keywords_o_to_s() -> &'static [KindOfText]
    ensures { map (λ row. (row.0.now, row.1)) result.now ≡ spec.keywords_o_to_s }
{
    &[
        ("or", TokenKind::Keyword(Keyword::Or)),
        ("output", TokenKind::Keyword(Keyword::Output)),
        ("parameter", TokenKind::Keyword(Keyword::Parameter)),
        ("pmos", TokenKind::Keyword(Keyword::Pmos)),
        ("posedge", TokenKind::Keyword(Keyword::Posedge)),
        ("primitive", TokenKind::Keyword(Keyword::Primitive)),
        ("pull0", TokenKind::Keyword(Keyword::Pull0)),
        ("pull1", TokenKind::Keyword(Keyword::Pull1)),
        ("pulldown", TokenKind::Keyword(Keyword::PullDown)),
        ("pullup", TokenKind::Keyword(Keyword::PullUp)),
        (
            "pulsestyle_ondetect",
            TokenKind::Keyword(Keyword::PulseStyleOnDetect),
        ),
        (
            "pulsestyle_onevent",
            TokenKind::Keyword(Keyword::PulseStyleOnEvent),
        ),
        ("rcmos", TokenKind::Keyword(Keyword::RCmos)),
        ("real", TokenKind::Keyword(Keyword::Real)),
        ("realtime", TokenKind::Keyword(Keyword::RealTime)),
        ("reg", TokenKind::Keyword(Keyword::Reg)),
        ("release", TokenKind::Keyword(Keyword::Release)),
        ("repeat", TokenKind::Keyword(Keyword::Repeat)),
        ("rnmos", TokenKind::Keyword(Keyword::RNmos)),
        ("rpmos", TokenKind::Keyword(Keyword::RPmos)),
        ("rtran", TokenKind::Keyword(Keyword::RTran)),
        ("rtranif0", TokenKind::Keyword(Keyword::RTranIf0)),
        ("rtranif1", TokenKind::Keyword(Keyword::RTranIf1)),
        ("scalared", TokenKind::Keyword(Keyword::Scalared)),
        ("showcancelled", TokenKind::Keyword(Keyword::ShowCancelled)),
        ("signed", TokenKind::Keyword(Keyword::Signed)),
        ("small", TokenKind::Keyword(Keyword::Small)),
        ("specify", TokenKind::Keyword(Keyword::Specify)),
        ("specparam", TokenKind::Keyword(Keyword::SpecParam)),
        ("strong0", TokenKind::Keyword(Keyword::Strong0)),
        ("strong1", TokenKind::Keyword(Keyword::Strong1)),
        ("supply0", TokenKind::Keyword(Keyword::Supply0)),
        ("supply1", TokenKind::Keyword(Keyword::Supply1)),
    ]
}

/// The reserved words (annex B) from t to x.
#[tactic(auto, unfolding(crate::specs::Kinds::keywords_t_to_x))]
fn keywords_t_to_x() -> &'static [KindOfText]
    ensures { map (λ row. (row.0.now, row.1)) result.now ≡ spec.keywords_t_to_x }
{
    &[
        ("table", TokenKind::Keyword(Keyword::Table)),
        ("task", TokenKind::Keyword(Keyword::Task)),
        ("time", TokenKind::Keyword(Keyword::Time)),
        ("tran", TokenKind::Keyword(Keyword::Tran)),
        ("tranif0", TokenKind::Keyword(Keyword::TranIf0)),
        ("tranif1", TokenKind::Keyword(Keyword::TranIf1)),
        ("tri", TokenKind::Keyword(Keyword::Tri)),
        ("tri0", TokenKind::Keyword(Keyword::Tri0)),
        ("tri1", TokenKind::Keyword(Keyword::Tri1)),
        ("triand", TokenKind::Keyword(Keyword::TriAnd)),
        ("trior", TokenKind::Keyword(Keyword::TriOr)),
        ("trireg", TokenKind::Keyword(Keyword::TriReg)),
        ("unsigned", TokenKind::Keyword(Keyword::Unsigned)),
        ("use", TokenKind::Keyword(Keyword::Use)),
        ("uwire", TokenKind::Keyword(Keyword::UWire)),
        ("vectored", TokenKind::Keyword(Keyword::Vectored)),
        ("wait", TokenKind::Keyword(Keyword::Wait)),
        ("wand", TokenKind::Keyword(Keyword::WAnd)),
        ("weak0", TokenKind::Keyword(Keyword::Weak0)),
        ("weak1", TokenKind::Keyword(Keyword::Weak1)),
        ("while", TokenKind::Keyword(Keyword::While)),
        ("wire", TokenKind::Keyword(Keyword::Wire)),
        ("wor", TokenKind::Keyword(Keyword::WOr)),
        ("xnor", TokenKind::Keyword(Keyword::Xnor)),
        ("xor", TokenKind::Keyword(Keyword::Xor)),
    ]
}

/// The operators and punctuation (3.4).
#[tactic(auto, unfolding(crate::specs::Kinds::sign_kinds))]
fn signs() -> &'static [KindOfText]
    ensures { map (λ row. (row.0.now, row.1)) result.now ≡ spec.sign_kinds }
{
    &[
        ("(", TokenKind::Sign(Sign::Open)),
        (")", TokenKind::Sign(Sign::Close)),
        ("[", TokenKind::Sign(Sign::OpenSquare)),
        ("]", TokenKind::Sign(Sign::CloseSquare)),
        ("{", TokenKind::Sign(Sign::OpenCurly)),
        ("}", TokenKind::Sign(Sign::CloseCurly)),
        ("(*", TokenKind::Sign(Sign::OpenAttribute)),
        ("*)", TokenKind::Sign(Sign::CloseAttribute)),
        (",", TokenKind::Sign(Sign::Comma)),
        (";", TokenKind::Sign(Sign::Semicolon)),
        (".", TokenKind::Sign(Sign::Dot)),
        (":", TokenKind::Sign(Sign::Colon)),
        ("=", TokenKind::Sign(Sign::Assign)),
        ("#", TokenKind::Sign(Sign::Hash)),
        ("@", TokenKind::Sign(Sign::At)),
        ("->", TokenKind::Sign(Sign::Trigger)),
        ("+:", TokenKind::Sign(Sign::PlusColon)),
        ("-:", TokenKind::Sign(Sign::MinusColon)),
        ("=>", TokenKind::Sign(Sign::ParallelPath)),
        ("*>", TokenKind::Sign(Sign::FullPath)),
        ("&&&", TokenKind::Sign(Sign::AndAndAnd)),
        ("!", TokenKind::Sign(Sign::Bang)),
        ("~", TokenKind::Sign(Sign::Tilde)),
        ("**", TokenKind::Sign(Sign::StarStar)),
        ("*", TokenKind::Sign(Sign::Star)),
        ("/", TokenKind::Sign(Sign::Slash)),
        ("%", TokenKind::Sign(Sign::Percent)),
        ("+", TokenKind::Sign(Sign::Plus)),
        ("-", TokenKind::Sign(Sign::Minus)),
        ("<<", TokenKind::Sign(Sign::ShiftLeft)),
        (">>", TokenKind::Sign(Sign::ShiftRight)),
        ("<<<", TokenKind::Sign(Sign::ShiftLeftArithmetic)),
        (">>>", TokenKind::Sign(Sign::ShiftRightArithmetic)),
        ("<", TokenKind::Sign(Sign::Less)),
        ("<=", TokenKind::Sign(Sign::AtMost)),
        (">", TokenKind::Sign(Sign::Greater)),
        (">=", TokenKind::Sign(Sign::AtLeast)),
        ("==", TokenKind::Sign(Sign::Equal)),
        ("!=", TokenKind::Sign(Sign::NotEqual)),
        ("===", TokenKind::Sign(Sign::Same)),
        ("!==", TokenKind::Sign(Sign::NotSame)),
        ("&", TokenKind::Sign(Sign::Ampersand)),
        ("^", TokenKind::Sign(Sign::Caret)),
        ("^~", TokenKind::Sign(Sign::CaretTilde)),
        ("~^", TokenKind::Sign(Sign::TildeCaret)),
        ("|", TokenKind::Sign(Sign::Bar)),
        ("~&", TokenKind::Sign(Sign::TildeAmpersand)),
        ("~|", TokenKind::Sign(Sign::TildeBar)),
        ("&&", TokenKind::Sign(Sign::AndAnd)),
        ("||", TokenKind::Sign(Sign::OrOr)),
        ("?", TokenKind::Sign(Sign::Question)),
    ]
}

/// The kind that a table has for a text.
fn kind_of_text(table: &[KindOfText], text: &[u8]) -> Option<TokenKind>
    ensures { result ≡ spec.kind_of_text (map (λ row. (row.0.now, row.1)) table.now) text.now }
{
    let mut left = table;
    while let [(word, kind), rest @ ..] = left {
        if text == word.as_bytes() {
            return Some(*kind);
        }
        left = rest;
    }
    None
}

/// The kind of a reserved word that is spelled so.
pub fn keyword(text: &[u8]) -> Option<TokenKind>
    ensures { result ≡ spec.kind_of_text spec.keywords text.now }
{
    let found = kind_of_text(keywords_a_to_e(), text);
    if found.is_some() {
        return found;
    }
    let found = kind_of_text(keywords_f_to_n(), text);
    if found.is_some() {
        return found;
    }
    let found = kind_of_text(keywords_o_to_s(), text);
    if found.is_some() {
        return found;
    }
    kind_of_text(keywords_t_to_x(), text)
}

/// The kind of an operator or a mark that is spelled so.
pub(crate) fn sign(text: &[u8]) -> Option<TokenKind>
    ensures { result ≡ spec.kind_of_text spec.sign_kinds text.now }
{
    kind_of_text(signs(), text)
}

/// The text that a table has for a reserved word, or else another one.
fn keyword_in(table: &'static [KindOfText], found: Keyword, other: &'static str) -> &'static str
    ensures { result.now ≡ spec.keyword_spelling (map (λ row. (row.0.now, row.1)) table.now) other.now found }
{
    let mut left = table;
    while let [(text, kind), rest @ ..] = left {
        if is_keyword(*kind, found) {
            return *text;
        }
        left = rest;
    }
    other
}

/// The text of a reserved word, as it is spelled.
pub fn keyword_text(found: Keyword) -> &'static str
    ensures { result.now ≡ spec.keyword_spelling spec.keywords [] found }
{
    let text = keyword_in(keywords_t_to_x(), found, "");
    let text = keyword_in(keywords_o_to_s(), found, text);
    let text = keyword_in(keywords_f_to_n(), found, text);
    keyword_in(keywords_a_to_e(), found, text)
}

/// The text of an operator or a mark, as it is spelled.
pub fn sign_text(found: Sign) -> &'static str
    ensures { result.now ≡ spec.sign_spelling spec.sign_kinds found }
{
    let mut left = signs();
    while let [(text, kind), rest @ ..] = left {
        if is_sign(*kind, found) {
            return *text;
        }
        left = rest;
    }
    ""
}
