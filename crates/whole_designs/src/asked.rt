//! What is asked of the files of a design.

use preprocess::preprocess::Definition;

/// A value that is given to a parameter of a top module: its text is an expression of constants (12.2).
#[derive(Clone, Copy)]
pub struct GivenParameter<'a> {
    pub name: &'a str,
    pub value: &'a str,
}

/// What is asked of the files of a design, beside the files.
#[derive(Clone, Copy)]
pub struct AskedDesign<'a> {
    /// The folders in which files are looked up that are included.
    pub folders: &'a [String],
    /// The macros that are defined before the files are read.
    pub definitions: &'a [Definition<'a>],
    /// The top module; all that no module has an instance of, where none is given.
    pub top: Option<&'a str>,
    /// The values of parameters of the top modules.
    pub parameters: &'a [GivenParameter<'a>],
}
