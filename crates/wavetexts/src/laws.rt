// Laws of the definitions, so that the check asks for their proofs.

ghost use Rattle.wavetexts.specs.ReadingLaws.{ReadInTwo, ReadsOneBehindAnother, ReadTextIsArranged, StaysBefore};

/// To read texts one behind the other is to read them as one; what is in order for good stays before all that is read behind it; and a text that
/// is read to its end, in one or in two, is the text with the lines that are printed between two times in order.
pub fn reading_has_its_laws()
    ensures on { ReadsOneBehindAnother }
    ensures before { StaysBefore }
    ensures whole { ReadTextIsArranged }
    ensures two { ReadInTwo }
{}
