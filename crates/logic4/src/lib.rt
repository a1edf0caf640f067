//! Values of the simulator: vectors of 1 to 128 digits, each of them 0, 1, x or z (IEEE 1364-2005, 4.1 and 4.3).
//!
//! A vector is held as two words, and each operation is a handful of word operations without a loop:
//!
//! 1. `Bits` packs digit i into bit i of its two words, 0 as 00, 1 as 10, z as 01 and x as 11. Bits past the width are 0.
//! 2. The bit-wise operators and the reductions work on whole words (5.1.10, 5.1.11, and the merge of 5.1.13).
//! 3. Arithmetic and order work on the first word where both second words are 0, and give x otherwise (5.1.5, 5.1.7).
//! 4. Equality compares words: `==` is case equality, `eq` the logical one (5.1.8).
//! 5. `truth` is what a condition sees (9.4), `edge` what an event control sees (9.7.2).
//! 6. `show` is the text of `$display` by a conversion (17.1.1); it and its kin are the only calls that allocate.
//!
//! What the layer above uses: a `Bits` is the list of its digits, the least significant first (`specs/Vector.antt`), and each
//! operation ensures `result ≡` its definition by tables of digits or whole numbers (`specs/Operators.antt`, `specs/Edges.antt`,
//! `specs/Display.antt`), and beside it the width of its result.
#![tactic(auto)]

pub mod bits;
pub mod conversion;
pub mod digit;
pub mod size;

pub use bits::{Bits, MAX_WIDTH};
pub use conversion::Conversion;
pub use digit::{Digit, Edge, Extension, Truth};
pub use size::Size;
