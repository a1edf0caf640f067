//! The names of the directives (19).

/// A directive.
#[derive(Clone, Copy)]
pub(crate) enum Directive {
    Define,
    Undefine,
    IfDefined,
    IfNotDefined,
    ElseIfDefined,
    Else,
    EndIf,
    Include,
    Timescale,
    DefaultNettype,
    ResetAll,
    CellDefine,
    EndCellDefine,
    UnconnectedDrive,
    NoUnconnectedDrive,
    Line,
    Pragma,
    BeginKeywords,
    EndKeywords,
}

/// A name, and the directive that has it.
type Named = (&'static [u8], Directive);

/// The names of the directives.
const DIRECTIVES: &[Named] = &[
    (b"define", Directive::Define),
    (b"undef", Directive::Undefine),
    (b"ifdef", Directive::IfDefined),
    (b"ifndef", Directive::IfNotDefined),
    (b"elsif", Directive::ElseIfDefined),
    (b"else", Directive::Else),
    (b"endif", Directive::EndIf),
    (b"include", Directive::Include),
    (b"timescale", Directive::Timescale),
    (b"default_nettype", Directive::DefaultNettype),
    (b"resetall", Directive::ResetAll),
    (b"celldefine", Directive::CellDefine),
    (b"endcelldefine", Directive::EndCellDefine),
    (b"unconnected_drive", Directive::UnconnectedDrive),
    (b"nounconnected_drive", Directive::NoUnconnectedDrive),
    (b"line", Directive::Line),
    (b"pragma", Directive::Pragma),
    (b"begin_keywords", Directive::BeginKeywords),
    (b"end_keywords", Directive::EndKeywords),
];

/// The directive of a name, without the backtick; `None` where the name is that of a macro.
pub(crate) fn directive_of(name: &[u8]) -> Option<Directive> {
    for (word, directive) in DIRECTIVES {
        if name == *word {
            return Some(*directive);
        }
    }
    None
}
