//! The four logic values, the truth of a vector, the kinds of a change, and the digits that extend a vector.

/// One digit of a vector (IEEE 1364-2005, 4.1).
#[derive(Clone, Copy, PartialEq, Eq, Debug)]
pub enum Digit {
    /// 0, also false.
    Zero,
    /// 1, also true.
    One,
    /// Unknown.
    X,
    /// High impedance, which most operators take for x.
    Z,
}

/// What a condition sees of a vector (9.4).
#[derive(Clone, Copy, PartialEq, Eq, Debug)]
pub enum Truth {
    /// Every digit is 0.
    False,
    /// A digit is 1.
    True,
    /// No digit is 1, and one is x or z.
    Unknown,
}

/// What a change of a value is to an event control (9.7.2).
#[derive(Clone, Copy, PartialEq, Eq, Debug)]
pub enum Edge {
    /// No change.
    Same,
    /// A posedge: the least significant digit leaves 0 or comes to 1.
    Pos,
    /// A negedge: the least significant digit leaves 1 or comes to 0.
    Neg,
    /// A change without an edge.
    Other,
}

/// The digits by which a vector is extended to a greater width (5.4, 5.5.4).
#[derive(Clone, Copy, PartialEq, Eq, Debug)]
pub enum Extension {
    /// 0.
    Zeros,
    /// Copies of the most significant digit, which is the sign. It may be x or z.
    Sign,
}
