//! Laws of the definitions, each a call that does nothing.

ghost use Rattle.transducer_reading.specs.Reading.{TransducerFilesGiveTransducers};

/// What the text of a file gives is a transducer: there is a state, lines lead from states to states by letters of the set, and by a
/// letter a state has one result at most, whichever of its lines is taken.
pub fn transducer_files_give_transducers()
    ensures { TransducerFilesGiveTransducers }
{}
