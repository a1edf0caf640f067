//! A line of the program's own.

ghost use Rattle.std.specs.Prelude.{◌≡◌, [], decimal};
ghost use Rattle.telling.specs.FaultLines.{program_line, line_of};

/// What stands within the text of a line: a number, a name as it is, or a path with its control characters escaped.
#[derive(Clone, Copy)]
pub enum Subject<'a> {
    Nothing,
    Number(u64),
    Name(&'a str),
    Path(&'a str),
}

/// A line: the text before its subject, the subject, and the text behind it.
#[derive(Clone, Copy)]
pub struct SubjectLine<'a> {
    pub head: &'static str,
    pub subject: Subject<'a>,
    pub tail: &'static str,
}

impl SubjectLine<'static> {
    /// The line of a text alone.
    pub fn plain(head: &'static str) -> SubjectLine<'static>
        ensures { line_of result ≡ program_line head.entry.now [] [] }
    {
        SubjectLine {
            head,
            subject: Subject::Nothing,
            tail: "",
        }
    }

    /// The line of a text with a number behind it.
    pub fn numbered(head: &'static str, number: u64) -> SubjectLine<'static>
        ensures { line_of result ≡ program_line head.entry.now (decimal number) [] }
    {
        SubjectLine {
            head,
            subject: Subject::Number(number),
            tail: "",
        }
    }
}

impl<'a> SubjectLine<'a> {
    /// The line of a text with a name behind it.
    pub fn named(head: &'static str, name: &'a str) -> SubjectLine<'a>
        ensures { line_of result ≡ program_line head.entry.now name.entry.now [] }
    {
        SubjectLine {
            head,
            subject: Subject::Name(name),
            tail: "",
        }
    }
}
