// Why a text, a record, a lookup, a beat or a log is refused: a case for each number of document 01, and of the requests of document 02,
// holding the line and the step that its answer names. Both count from 1; a line is 0 where a step has none.
#![tactic(auto)]

ghost use Rattle.std.specs.Prelude.{◌≡◌};
ghost use Rattle.refusal.specs.Told.{told, told_of};

/// The reason of a refusal. Lines and steps count from 1.
#[derive(Clone, Copy, Debug, PartialEq, Eq)]
pub enum Refusal {
    TextTooLong,
    NotUtf8,
    TooManyLines { line: u32 },
    TabInIndentation { line: u32 },
    DocumentMarker { line: u32 },
    LinesLeft { line: u32 },
    AnchorAliasOrTag { line: u32 },
    TextAfterValue { line: u32 },
    FlowMappingOpen { line: u32 },
    FlowSequenceOpen { line: u32 },
    EscapeCut { line: u32 },
    UnknownEscape { line: u32 },
    QuoteOpen { line: u32 },
    EmptyKey { line: u32 },
    ComplexKey { line: u32 },
    KeyNotScalar { line: u32 },
    KeyWithoutColon { line: u32 },
    KeyTwice { line: u32 },
    StuckSequence { line: u32 },
    TooDeep { line: u32 },
    DocumentNotMapping,
    UnknownTopKey,
    OtherSchema,
    NoSchema,
    NoName,
    TagsNotSequence,
    FailOnNotSequence,
    DefaultsNotMapping,
    UnknownDefault,
    DefaultNotScalar,
    StepsNotSequence,
    StepNotMapping { step: u32 },
    ExpectNotMapping { line: u32, step: u32 },
    NotOneCommand { step: u32 },
    ExpectBesideBuiltIn { line: u32, step: u32 },
    UnknownCommand { line: u32, step: u32 },
    RepeatWithoutSteps { step: u32 },
    TimesNotPositive { step: u32 },
    TimesTooLarge { step: u32 },
    Malformed,
    WorkTooShort,
    TooFewLinePlaces,
    RecordTooLong,
    OutOfRange,
    NotForPanel,
    WishesOutOfRange,
    SupplyTooSmall,
    LogFalls,
    LogTooLong,
    ListTooShort,
}

/// What an answer names of a refusal, 0 where it names none.
#[derive(Clone, Copy, Debug, Default, PartialEq, Eq)]
pub struct Told {
    pub number: u32,
    pub line: u32,
    pub step: u32,
}

fn tell(number: u32, line: u32, step: u32) -> Told
    ensures { result ≡ told number line step }
{
    Told { number, line, step }
}

impl Refusal {
    /// The number, the line and the step that an answer names.
    pub fn told(self) -> Told
        ensures { result ≡ told_of self }
    {
        match self {
            Refusal::TextTooLong => tell(1, 0, 0),
            Refusal::NotUtf8 => tell(2, 0, 0),
            Refusal::TooManyLines { line } => tell(3, line, 0),
            Refusal::TabInIndentation { line } => tell(4, line, 0),
            Refusal::DocumentMarker { line } => tell(5, line, 0),
            Refusal::LinesLeft { line } => tell(6, line, 0),
            Refusal::AnchorAliasOrTag { line } => tell(7, line, 0),
            Refusal::TextAfterValue { line } => tell(8, line, 0),
            Refusal::FlowMappingOpen { line } => tell(9, line, 0),
            Refusal::FlowSequenceOpen { line } => tell(10, line, 0),
            Refusal::EscapeCut { line } => tell(11, line, 0),
            Refusal::UnknownEscape { line } => tell(12, line, 0),
            Refusal::QuoteOpen { line } => tell(13, line, 0),
            Refusal::EmptyKey { line } => tell(14, line, 0),
            Refusal::ComplexKey { line } => tell(15, line, 0),
            Refusal::KeyNotScalar { line } => tell(16, line, 0),
            Refusal::KeyWithoutColon { line } => tell(17, line, 0),
            Refusal::KeyTwice { line } => tell(18, line, 0),
            Refusal::StuckSequence { line } => tell(19, line, 0),
            Refusal::TooDeep { line } => tell(20, line, 0),
            Refusal::DocumentNotMapping => tell(21, 0, 0),
            Refusal::UnknownTopKey => tell(22, 0, 0),
            Refusal::OtherSchema => tell(23, 0, 0),
            Refusal::NoSchema => tell(24, 0, 0),
            Refusal::NoName => tell(25, 0, 0),
            Refusal::TagsNotSequence => tell(26, 0, 0),
            Refusal::FailOnNotSequence => tell(27, 0, 0),
            Refusal::DefaultsNotMapping => tell(28, 0, 0),
            Refusal::UnknownDefault => tell(29, 0, 0),
            Refusal::DefaultNotScalar => tell(30, 0, 0),
            Refusal::StepsNotSequence => tell(31, 0, 0),
            Refusal::StepNotMapping { step } => tell(32, 0, step),
            Refusal::ExpectNotMapping { line, step } => tell(33, line, step),
            Refusal::NotOneCommand { step } => tell(34, 0, step),
            Refusal::ExpectBesideBuiltIn { line, step } => tell(35, line, step),
            Refusal::UnknownCommand { line, step } => tell(36, line, step),
            Refusal::RepeatWithoutSteps { step } => tell(37, 0, step),
            Refusal::TimesNotPositive { step } => tell(38, 0, step),
            Refusal::TimesTooLarge { step } => tell(39, 0, step),
            Refusal::Malformed => tell(40, 0, 0),
            Refusal::WorkTooShort => tell(50, 0, 0),
            Refusal::TooFewLinePlaces => tell(51, 0, 0),
            Refusal::RecordTooLong => tell(52, 0, 0),
            Refusal::OutOfRange => tell(53, 0, 0),
            Refusal::NotForPanel => tell(55, 0, 0),
            Refusal::WishesOutOfRange => tell(61, 0, 0),
            Refusal::SupplyTooSmall => tell(62, 0, 0),
            Refusal::LogFalls => tell(63, 0, 0),
            Refusal::LogTooLong => tell(64, 0, 0),
            Refusal::ListTooShort => tell(65, 0, 0),
        }
    }
}
