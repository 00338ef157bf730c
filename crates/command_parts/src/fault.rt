ghost use Rattle.std.specs.Prelude.{◌≡◌};
ghost use Rattle.command_parts.specs.declared.fault.Fault.TheVariants.{Memory, Refused};
ghost use Rattle.command_parts.specs.declared.refusal.Refusal.TheVariants as refusals;
ghost use Rattle.command_parts.specs.TrackSystems.{fault_of, fault_of_tracks};
ghost use Rattle.command_parts.specs.FormulaFaults.{fault_of_loading, fault_of_resolution, fault_of_formula, fault_of_expansion};
ghost use Rattle.command_parts.specs.HeadAnswers.{fault_of_head};
ghost use Rattle.command_parts.specs.MorphismFaults.{fault_of_promotion, fault_of_rules};
ghost use Rattle.command_parts.specs.RegexFaults.{fault_of_regex};
ghost use Rattle.command_parts.specs.SystemFaults.{fault_of_system};

use crate::file_refusal::FileRefusal;
use crate::refusal::Refusal;
use crate::shape_refusal::ShapeRefusal;
use crate::step_refusal::StepRefusal;
use crate::system_refusal::SystemRefusal;
use crate::text_refusal::{Grammar, TextRefusal};
use crate::word_refusal::WordRefusal;
use command_head::HeadFault;
use dfa_loading::LoadFault;
use digit_tuple::faults::OutOfMemory;
use digit_tuple::name::Name;
use digit_tuple::step_fault::StepFault;
use fixed_points::promote_fault::PromoteFault;
use formula_parse::ParseFault;
use formula_resolve::ResolveFault;
use macro_loading::ExpansionFault;
use morph_words::RulesFault;
use named_systems::TracksFault;
use regex_build::fault::RegexFault;
use std::alloc::{AllocError, AllocFailed};
use system_admission::SystemFault;
use wal_outside::Folder;

/// Why a command is refused, or why it fails from outside.
#[derive(Drop)]
pub enum Fault {
    /// One of its checks refuses it.
    Refused(Refusal),
    /// F26: the store failed at this file.
    Store(Folder, Name),
    /// F27: there was not enough memory.
    Memory,
}

impl From<TextRefusal> for Fault {
    ghost from_gives = { λ f e. e ≡ Refused (refusals.Text f) };

    fn from(refusal: TextRefusal) -> Fault {
        Fault::Refused(Refusal::Text(refusal))
    }
}

impl From<FileRefusal> for Fault {
    ghost from_gives = { λ f e. e ≡ Refused (refusals.File f) };

    fn from(refusal: FileRefusal) -> Fault {
        Fault::Refused(Refusal::File(refusal))
    }
}

impl From<SystemRefusal> for Fault {
    ghost from_gives = { λ f e. e ≡ Refused (refusals.System f) };

    fn from(refusal: SystemRefusal) -> Fault {
        Fault::Refused(Refusal::System(refusal))
    }
}

impl From<StepRefusal> for Fault {
    ghost from_gives = { λ f e. e ≡ Refused (refusals.Step f) };

    fn from(refusal: StepRefusal) -> Fault {
        Fault::Refused(Refusal::Step(refusal))
    }
}

impl From<ShapeRefusal> for Fault {
    ghost from_gives = { λ f e. e ≡ Refused (refusals.Shape f) };

    fn from(refusal: ShapeRefusal) -> Fault {
        Fault::Refused(Refusal::Shape(refusal))
    }
}

impl From<WordRefusal> for Fault {
    ghost from_gives = { λ f e. e ≡ Refused (refusals.Word f) };

    fn from(refusal: WordRefusal) -> Fault {
        Fault::Refused(Refusal::Word(refusal))
    }
}

impl From<OutOfMemory> for Fault {
    ghost from_gives = { λ _ e. e ≡ Memory };

    fn from(_error: OutOfMemory) -> Fault {
        Fault::Memory
    }
}

impl From<StepFault> for Fault {
    ghost from_gives = { λ f e. e ≡ fault_of f };

    fn from(fault: StepFault) -> Fault {
        match fault {
            StepFault::Letters(step) => Fault::from(StepRefusal::Letters(step)),
            StepFault::States(step) => Fault::from(StepRefusal::States(step)),
            StepFault::Memory => Fault::Memory,
        }
    }
}

impl From<LoadFault> for Fault {
    ghost from_gives = { λ f e. e ≡ fault_of_loading f };

    fn from(fault: LoadFault) -> Fault {
        match fault {
            LoadFault::Unknown(folder, name) => Fault::from(FileRefusal::Unknown(folder, name)),
            LoadFault::File(folder, name, flaw) => Fault::from(FileRefusal::File(
                folder, name, flaw,
            )),
            LoadFault::Store(folder, name) => Fault::Store(folder, name),
            LoadFault::Memory => Fault::Memory,
        }
    }
}

impl From<TracksFault> for Fault {
    ghost from_gives = { λ f e. e ≡ fault_of_tracks f };

    fn from(fault: TracksFault) -> Fault {
        match fault {
            TracksFault::Direction(first, other) => Fault::from(SystemRefusal::Direction(
                first, other,
            )),
            TracksFault::Memory => Fault::Memory,
        }
    }
}

impl From<SystemFault> for Fault {
    ghost from_gives = { λ f e. e ≡ fault_of_system f };

    fn from(fault: SystemFault) -> Fault {
        match fault {
            SystemFault::Load(LoadFault::Unknown(_, name)) => Fault::from(
                SystemRefusal::SystemUnknown(name),
            ),
            SystemFault::Load(LoadFault::File(folder, name, flaw)) => Fault::from(FileRefusal::File(
                folder, name, flaw,
            )),
            SystemFault::Load(LoadFault::Store(folder, name)) => Fault::Store(folder, name),
            SystemFault::Load(LoadFault::Memory) => Fault::Memory,
            SystemFault::NotAdmitted(name, law) => Fault::from(SystemRefusal::NotAdmitted(
                name, law,
            )),
            SystemFault::Step(fault) => Fault::from(fault),
        }
    }
}

impl From<ResolveFault> for Fault {
    ghost from_gives = { λ f e. e ≡ fault_of_resolution f };

    fn from(fault: ResolveFault) -> Fault {
        match fault {
            ResolveFault::Plain(name) => Fault::from(ShapeRefusal::Plain(name)),
            ResolveFault::Arity(name, tracks, given) => Fault::from(ShapeRefusal::Arity(
                name, tracks, given,
            )),
            ResolveFault::Clash(name, first, other) => Fault::from(SystemRefusal::Clash(
                name, first, other,
            )),
            ResolveFault::Direction(first, other) => Fault::from(SystemRefusal::Direction(
                first, other,
            )),
            ResolveFault::Memory => Fault::Memory,
        }
    }
}

impl From<HeadFault> for Fault {
    ghost from_gives = { λ f e. e ≡ fault_of_head f };

    fn from(fault: HeadFault) -> Fault {
        match fault {
            HeadFault::Syntax(at) => Fault::from(TextRefusal::Syntax(Grammar::Command, at)),
            HeadFault::Number(at) => Fault::from(TextRefusal::Number(Grammar::Command, at)),
            HeadFault::Memory => Fault::Memory,
        }
    }
}

impl From<RegexFault> for Fault {
    ghost from_gives = { λ f e. e ≡ fault_of_regex f };

    fn from(fault: RegexFault) -> Fault {
        match fault {
            RegexFault::Syntax(at) => Fault::from(TextRefusal::Syntax(Grammar::Regex, at)),
            RegexFault::Number(at) => Fault::from(TextRefusal::Number(Grammar::Regex, at)),
            RegexFault::Depth(at) => Fault::from(TextRefusal::Depth(Grammar::Regex, at)),
            RegexFault::Memory => Fault::Memory,
        }
    }
}

impl From<RulesFault> for Fault {
    ghost from_gives = { λ f e. e ≡ fault_of_rules f };

    fn from(fault: RulesFault) -> Fault {
        match fault {
            RulesFault::Syntax(at) => Fault::from(TextRefusal::Syntax(Grammar::Rules, at)),
            RulesFault::Number(at) => Fault::from(TextRefusal::Number(Grammar::Rules, at)),
            RulesFault::Memory => Fault::Memory,
        }
    }
}

impl From<PromoteFault> for Fault {
    ghost from_gives = { λ f e. e ≡ fault_of_promotion f };

    fn from(fault: PromoteFault) -> Fault {
        match fault {
            PromoteFault::Morphism(kind) => Fault::from(WordRefusal::Morphism(kind)),
            PromoteFault::Step(fault) => Fault::from(fault),
        }
    }
}

impl From<ParseFault> for Fault {
    ghost from_gives = { λ f e. e ≡ fault_of_formula f };

    fn from(fault: ParseFault) -> Fault {
        match fault {
            ParseFault::Syntax(at) => Fault::from(TextRefusal::Syntax(Grammar::Formula, at)),
            ParseFault::Number(at) => Fault::from(TextRefusal::Number(Grammar::Formula, at)),
            ParseFault::Depth(at) => Fault::from(TextRefusal::Depth(Grammar::Formula, at)),
            ParseFault::MixedChain(at) => Fault::from(TextRefusal::MixedChain(at)),
            ParseFault::NotLinear(at) => Fault::from(TextRefusal::NotLinear(at)),
            ParseFault::Memory => Fault::Memory,
        }
    }
}

impl From<ExpansionFault> for Fault {
    ghost from_gives = { λ f e. e ≡ fault_of_expansion f };

    fn from(fault: ExpansionFault) -> Fault {
        match fault {
            ExpansionFault::Syntax(at) => Fault::from(TextRefusal::Syntax(Grammar::Macro, at)),
            ExpansionFault::MacroArgs { name, place, given } => {
                Fault::from(TextRefusal::MacroArgs(name, place, given))
            }
            ExpansionFault::MacroDepth(name) => Fault::from(TextRefusal::MacroDepth(name)),
            ExpansionFault::MacroLong => Fault::from(TextRefusal::MacroLong),
            ExpansionFault::Load(fault) => Fault::from(fault),
        }
    }
}

impl From<AllocError> for Fault {
    ghost from_gives = { λ _ e. e ≡ Memory };

    fn from(_error: AllocError) -> Fault {
        Fault::Memory
    }
}

impl<T: Drop> From<AllocFailed<T>> for Fault {
    ghost from_gives = { λ _ e. e ≡ Memory };

    fn from(_error: AllocFailed<T>) -> Fault {
        Fault::Memory
    }
}
