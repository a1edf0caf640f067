//! Texts of files, and the tokens that are cut from them.

ghost use Rattle.std.specs.Prelude.{◌≡◌};
ghost use Rattle.lexemes.specs.Kinds as spec;

/// A text, by the name under which people know it.
#[derive(Drop)]
pub struct SourceFile {
    pub name: String,
    pub text: Vec<u8>,
}

/// Bytes of a file, which is told by its number.
#[derive(Clone, Copy)]
pub struct FileSpan {
    pub file: u32,
    pub begin: u32,
    pub length: u32,
}

/// The reserved words (3.7.2, annex B).
#[derive(Clone, Copy, PartialEq, Eq)]
pub enum Keyword {
    Always,
    And,
    Assign,
    Automatic,
    Begin,
    Buf,
    BufIf0,
    BufIf1,
    Case,
    CaseX,
    CaseZ,
    Cell,
    Cmos,
    Config,
    Deassign,
    Default,
    DefParam,
    Design,
    Disable,
    Edge,
    Else,
    End,
    EndCase,
    EndConfig,
    EndFunction,
    EndGenerate,
    EndModule,
    EndPrimitive,
    EndSpecify,
    EndTable,
    EndTask,
    Event,
    For,
    Force,
    Forever,
    Fork,
    Function,
    Generate,
    GenVar,
    HighZ0,
    HighZ1,
    If,
    IfNone,
    IncDir,
    Include,
    Initial,
    InOut,
    Input,
    Instance,
    Integer,
    Join,
    Large,
    LibList,
    Library,
    LocalParam,
    MacroModule,
    Medium,
    Module,
    Nand,
    Negedge,
    Nmos,
    Nor,
    NoShowCancelled,
    Not,
    NotIf0,
    NotIf1,
    Or,
    Output,
    Parameter,
    Pmos,
    Posedge,
    Primitive,
    Pull0,
    Pull1,
    PullDown,
    PullUp,
    PulseStyleOnDetect,
    PulseStyleOnEvent,
    RCmos,
    Real,
    RealTime,
    Reg,
    Release,
    Repeat,
    RNmos,
    RPmos,
    RTran,
    RTranIf0,
    RTranIf1,
    Scalared,
    ShowCancelled,
    Signed,
    Small,
    Specify,
    SpecParam,
    Strong0,
    Strong1,
    Supply0,
    Supply1,
    Table,
    Task,
    Time,
    Tran,
    TranIf0,
    TranIf1,
    Tri,
    Tri0,
    Tri1,
    TriAnd,
    TriOr,
    TriReg,
    Unsigned,
    Use,
    UWire,
    Vectored,
    Wait,
    WAnd,
    Weak0,
    Weak1,
    While,
    Wire,
    WOr,
    Xnor,
    Xor,
}

/// Operators and punctuation (3.4, annex A).
#[derive(Clone, Copy, PartialEq, Eq)]
pub enum Sign {
    /// `(`
    Open,
    /// `)`
    Close,
    /// `[`
    OpenSquare,
    /// `]`
    CloseSquare,
    /// `{`
    OpenCurly,
    /// `}`
    CloseCurly,
    /// `(*`
    OpenAttribute,
    /// `*)`
    CloseAttribute,
    /// `,`
    Comma,
    /// `;`
    Semicolon,
    /// `.`
    Dot,
    /// `:`
    Colon,
    /// `=`
    Assign,
    /// `#`
    Hash,
    /// `@`
    At,
    /// `->`
    Trigger,
    /// `+:`
    PlusColon,
    /// `-:`
    MinusColon,
    /// `=>`
    ParallelPath,
    /// `*>`
    FullPath,
    /// `&&&`
    AndAndAnd,
    /// `!`
    Bang,
    /// `~`
    Tilde,
    /// `**`
    StarStar,
    /// `*`
    Star,
    /// `/`
    Slash,
    /// `%`
    Percent,
    /// `+`
    Plus,
    /// `-`
    Minus,
    /// `<<`
    ShiftLeft,
    /// `>>`
    ShiftRight,
    /// `<<<`
    ShiftLeftArithmetic,
    /// `>>>`
    ShiftRightArithmetic,
    /// `<`
    Less,
    /// `<=`
    AtMost,
    /// `>`
    Greater,
    /// `>=`
    AtLeast,
    /// `==`
    Equal,
    /// `!=`
    NotEqual,
    /// `===`
    Same,
    /// `!==`
    NotSame,
    /// `&`
    Ampersand,
    /// `^`
    Caret,
    /// `^~`
    CaretTilde,
    /// `~^`
    TildeCaret,
    /// `|`
    Bar,
    /// `~&`
    TildeAmpersand,
    /// `~|`
    TildeBar,
    /// `&&`
    AndAnd,
    /// `||`
    OrOr,
    /// `?`
    Question,
}

/// What a token is.
#[derive(Clone, Copy)]
pub enum TokenKind {
    /// A simple identifier (3.7).
    Name,
    /// A name that begins with a `\` and ends before white space (3.7.1).
    EscapedName,
    /// The name of a system task or function, with its `$` (3.7.3).
    SystemName,
    Keyword(Keyword),
    /// Digits and `_` (3.5.1): a number without a base, or the size before one.
    UnsignedNumber,
    /// A number with a fraction, or an exponent, or both (3.5.2).
    RealNumber,
    /// The base of a number (3.5.1): `'h`, `'sD`.
    Base,
    /// What stands behind a base: digits, the letters a to f, x and z, `?` and `_`, with the base's own digits not yet told
    /// from others.
    BasedDigits,
    /// A string, with its quotes (3.6).
    Text,
    Sign(Sign),
}

/// What a piece of a text is that isn't white space or a comment.
#[derive(Clone, Copy)]
pub enum LexemeKind {
    Token(TokenKind),
    /// The name of a directive or of a macro that is used, with its backtick (19).
    Directive,
    /// A `\` and the newline behind it, which join two lines (19.3.1).
    Joint,
}

/// A piece of a text that isn't white space or a comment, and where it stands.
#[derive(Clone, Copy)]
pub struct VerilogLexeme {
    pub kind: LexemeKind,
    pub span: FileSpan,
}

/// A token of a whole design, and where it stands.
#[derive(Clone, Copy)]
pub struct VerilogToken {
    pub kind: TokenKind,
    /// The token's bytes.
    pub span: FileSpan,
    /// Where the outermost macro was used from which the token comes, if it comes from one.
    pub use_place: Option<FileSpan>,
}

/// Whether a token is this keyword.
pub fn is_keyword(kind: TokenKind, keyword: Keyword) -> bool
    ensures { result ≡ spec.is_keyword kind keyword }
{
    match kind {
        TokenKind::Keyword(found) => found == keyword,
        _ => false,
    }
}

/// Whether a token is this operator or mark.
pub fn is_sign(kind: TokenKind, sign: Sign) -> bool
    ensures { result ≡ spec.is_sign kind sign }
{
    match kind {
        TokenKind::Sign(found) => found == sign,
        _ => false,
    }
}
