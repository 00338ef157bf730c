//! Laws of the files of transducers, each a call that does nothing.

ghost use Rattle.transducer_loading.specs.TransducerFiles.{TransducerFilesHaveOneAnswer};

/// One file has one transducer, or one refusal, and not both.
pub fn transducer_files_have_one_answer()
    ensures { TransducerFilesHaveOneAnswer }
{}
